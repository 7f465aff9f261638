// The tree of a swap file.
ghost use Rattle.std.specs.Prelude.{◌≡◌, ◌<◌, ◌-◌, ◌/◌, ◌^◌, ℕ, List, IfOk, IfSome, length};
ghost use Rattle.vs_swap.specs.Files.{pages_in};
ghost use Rattle.vs_recover.specs.Files.{IsFile, Walked};
ghost use Rattle.vs_recover.specs.Reading.{IsThere, ReadsAtMost};

use crate::blocks::{are_wide, load_entries};
use crate::levels::{Below, read_level};
use crate::marks::Marks;
use crate::{Fault, FileText};
use std::alloc::Global;
use vs_host::Folder;
use vs_text::Format;

/// The lines of the tree from block 1 on, in their plain form and in this format; None where the file has no such tree.
pub fn read_tree<F: Folder>(
    alloc: Global,
    host: &mut F,
    name: &str,
    count: u64,
    format: Format,
) -> Result<Option<FileText>, Fault>
    requires bound { count < 2 ^ 52 }
    requires count { IsThere F.tells (F.scene host.old) name.now (λ file. count ≡ length file / 4096) }
    ensures value { IfOk result (λ found. (file : List ℕ) → IsFile F.tells (F.scene host.old) name.now file → Walked (pages_in file) found) }
    ensures format { IfOk result (λ found. IfSome found (λ text. text.format ≡ format)) }
    ensures reading { ReadsAtMost F.tells result Fault.Failed (F.scene host.old) (F.scene host.new) (count - 1) }
{
    if count < 2 {
        return Ok(None);
    }
    let Some(mut level) = load_entries(alloc, host, name, count, 1)? else {
        return Ok(None);
    };
    if !are_wide(&level) {
        return Ok(None);
    }
    let mut marks = Marks::new(alloc, count as usize)?;
    if !marks.mark_all(&level) {
        return Ok(None);
    }
    'levels: while let Some((first, others)) = level.split_first() {
        match read_level(alloc, host, name, count, first, others, format, &mut marks)? {
            Some(Below::Entries(next)) => level = next,
            Some(Below::Lines(lines)) => return Ok(Some(lines)),
            None => return Ok(None),
        }
    }
    Ok(Some(FileText::new(alloc, format)))
}
