// The levels of a tree, from block 1 on.
ghost use Rattle.std.specs.Prelude.{◌≡◌, ◌<◌, ◌+◌, ◌/◌, ◌^◌, ◌∷◌, ℕ, List, IfOk, IfSome, IfNone, IsTrue, Some, length};
ghost use Rattle.std.specs.Option.{option_map};
ghost use Rattle.vs_swap.specs.Files.{pages_in, swap_format};
ghost use Rattle.vs_recover.specs.Files.{IsFile, plain};
ghost use Rattle.vs_recover.specs.Levels.{Clashes, are_wide, chained, opened, gathered};
ghost use Rattle.vs_recover.specs.Marks.{used_in};
ghost use Rattle.vs_recover.specs.Reading.{IsThere, ReadsAtMost};
ghost use Rattle.vs_recover.specs.Walks.{FindsBelow, IsIn, IsMarked, MarksBelow};

use crate::blocks::{load_lines, load_pages, load_points, read_lines, read_points};
use crate::marks::Marks;
use crate::{Fault, FileText};
use std::alloc::Global;
use vs_host::Folder;
use vs_text::Format;
use vs_tree_shape::Entry;

/// What lies below a level of blocks.
pub enum Below {
    /// The blocks are pointer blocks, and these are their entries.
    Entries(Vec<Entry>),
    /// The blocks are data blocks, and these are their lines.
    Lines(FileText),
}

// The entries of a level of pointer blocks, whose pages are marked. Those of the first block were read. None where another
// block is no pointer block that fits, or a page of the next level is not in the file or was used.
fn open_level<F: Folder>(
    alloc: Global,
    host: &mut F,
    name: &str,
    count: u64,
    points: Vec<Entry>,
    others: &[Entry],
    marks: &mut Marks,
) -> Result<Option<Vec<Entry>>, Fault>
    requires points { IsTrue (are_wide points.items) }
    requires wide { IsTrue (are_wide others.now) }
    requires bound { count < 2 ^ 52 }
    requires count { IsThere F.tells (F.scene host.old) name.now (λ file. count ≡ length file / 4096) }
    ensures next { IfOk result (λ found. IfSome found (λ next. (file : List ℕ) → IsFile F.tells (F.scene host.old) name.now file
        → chained (Some points.items) (opened swap_format (pages_in file) others.now) ≡ Some next.items)) }
    ensures marked { IfOk result (λ found. IfSome found (λ next. IsMarked marks.old marks.new next.items)) }
    ensures clash { IfOk result (λ found. IfNone found ((file : List ℕ) → IsFile F.tells (F.scene host.old) name.now file
        → Clashes (λ k. used_in marks.old k) (chained (Some points.items) (opened swap_format (pages_in file) others.now)))) }
    ensures reading { ReadsAtMost F.tells result Fault.Failed (F.scene host.old) (F.scene host.new) (length others.now) }
{
    if !marks.mark_all(&points) {
        return Ok(None);
    }
    let mut next = points;
    for entry in others {
        let Some(found) = load_points(alloc, host, name, count, entry)? else {
            return Ok(None);
        };
        if !marks.mark_all(&found) {
            return Ok(None);
        }
        next.extend_from_slice(&found)?;
    }
    Ok(Some(next))
}

// The lines of a level of data blocks, in their plain form. Those of the first block were read. None where another block is no
// data block that fits.
fn gather_level<F: Folder>(
    alloc: Global,
    host: &mut F,
    name: &str,
    count: u64,
    first: FileText,
    others: &[Entry],
) -> Result<Option<FileText>, Fault>
    requires wide { IsTrue (are_wide others.now) }
    requires bound { count < 2 ^ 52 }
    requires count { IsThere F.tells (F.scene host.old) name.now (λ file. count ≡ length file / 4096) }
    ensures value { IfOk result (λ found. (file : List ℕ) → IsFile F.tells (F.scene host.old) name.now file
        → chained (Some first.text) (plain (gathered swap_format (pages_in file) others.now)) ≡ option_map (λ text. text.text) found) }
    ensures format { IfOk result (λ found. IfSome found (λ text. text.format ≡ first.format)) }
    ensures reading { ReadsAtMost F.tells result Fault.Failed (F.scene host.old) (F.scene host.new) (length others.now) }
{
    let mut lines = first;
    for entry in others {
        if !load_lines(alloc, host, name, count, entry, &mut lines)? {
            return Ok(None);
        }
    }
    Ok(Some(lines))
}

/// Reads each block of a level once: the first one says whether they are pointer blocks or data blocks. None where they are
/// not all of one kind and as their entries say, or where a page of the next level is not in the file or was used.
pub fn read_level<F: Folder>(
    alloc: Global,
    host: &mut F,
    name: &str,
    count: u64,
    first: &Entry,
    others: &[Entry],
    format: Format,
    marks: &mut Marks,
) -> Result<Option<Below>, Fault>
    requires wide { IsTrue (are_wide (first.now ∷ others.now)) }
    requires bound { count < 2 ^ 52 }
    requires count { IsThere F.tells (F.scene host.old) name.now (λ file. count ≡ length file / 4096) }
    ensures found { IfOk result (λ found. (file : List ℕ) → IsFile F.tells (F.scene host.old) name.now file
        → FindsBelow (pages_in file) (λ k. used_in marks.old k) (first.now ∷ others.now) found) }
    ensures format { IfOk result (λ found. IfSome found (IsIn format)) }
    ensures marked { IfOk result (MarksBelow marks.old marks.new) }
    ensures reading { ReadsAtMost F.tells result Fault.Failed (F.scene host.old) (F.scene host.new) (1 + length others.now) }
{
    let Some(bytes) = load_pages(alloc, host, name, count, first.block, first.pages)? else {
        return Ok(None);
    };
    if let Some(points) = read_points(alloc, first, &bytes)? {
        let Some(next) = open_level(alloc, host, name, count, points, others, marks)? else {
            return Ok(None);
        };
        return Ok(Some(Below::Entries(next)));
    }
    let mut lines = FileText::new(alloc, format);
    if !read_lines(first, &bytes, &mut lines)? {
        return Ok(None);
    }
    let Some(all) = gather_level(alloc, host, name, count, lines, others)? else {
        return Ok(None);
    };
    Ok(Some(Below::Lines(all)))
}
