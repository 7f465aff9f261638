// Blocks of a swap file, read through the folder.
ghost use Rattle.std.specs.Prelude.{◌≡◌, ◌≤◌, ◌<◌, ◌*◌, ◌/◌, ◌^◌, ◌&&◌, nat_eq, ℕ, List, IfOk, IfSome, IsTrue, length};
ghost use Rattle.vs_pages.specs.Maps.{pages_at};
ghost use Rattle.vs_data.specs.Blocks.{lines_in};
ghost use Rattle.vs_tree_shape.specs.Places.{lines_below};
ghost use Rattle.vs_tree_shape.specs.Trees.{read_by};
ghost use Rattle.vs_swap.specs.Entries.{pointer_in, swap_points};
ghost use Rattle.vs_swap.specs.Files.{pages_in, swap_format};
ghost use Rattle.vs_recover.specs.Files.{IsFile, Gives, Extends, plain};
ghost use Rattle.vs_recover.specs.Levels.{are_wide, fitting_lines, fitting_points, points_at, lines_at};
ghost use Rattle.vs_recover.specs.Reading.{IsThere, ReadsAtMost};

use crate::calls::read_part;
use crate::{Fault, FileText};
use std::alloc::{AllocError, Global};
use vs_data::DataView;
use vs_host::Folder;
use vs_ptr::{PtrEntry, PtrView};
use vs_tree_shape::{Entry, count_lines};

/// The bytes of neighbouring pages of a file of so many whole pages; None where it has not all of them.
pub fn load_pages<F: Folder>(
    alloc: Global,
    host: &mut F,
    name: &str,
    count: u64,
    block: u64,
    pages: u32,
) -> Result<Option<Vec<u8>>, Fault>
    requires some { 1 ≤ pages }
    requires bound { count < 2 ^ 52 }
    requires count { IsThere F.tells (F.scene host.old) name.now (λ file. count ≡ length file / 4096) }
    ensures value { IfOk result (λ found. (file : List ℕ) → IsFile F.tells (F.scene host.old) name.now file
        → Gives (pages_at (pages_in file) block pages) found) }
    ensures size { IfOk result (λ found. IfSome found (λ bytes. length bytes.items ≡ 4096 * pages)) }
    ensures reading { ReadsAtMost F.tells result Fault.Failed (F.scene host.old) (F.scene host.new) 1 }
{
    let wanted = u64::from(pages);
    if block >= count || wanted > count - block {
        return Ok(None);
    }
    let mut bytes = vec![in alloc; 0u8; wanted as usize * 4096]?;
    read_part(host, name, block * 4096, &mut bytes)?;
    Ok(Some(bytes))
}

// The entry as a swap file has it; None where a number is negative.
fn from_ptr(entry: &PtrEntry) -> Option<Entry>
    ensures { result ≡ pointer_in entry.now }
{
    if entry.block < 0 || entry.pages < 0 || entry.lines < 0 {
        return None;
    }
    Some(Entry {
        block: entry.block as u64,
        pages: entry.pages as u32,
        lines: entry.lines as u64,
    })
}

// The entries of a pointer block; None where the bytes are no such block, or a number in it is negative.
fn read_entries(alloc: Global, bytes: &[u8]) -> Result<Option<Vec<Entry>>, AllocError>
    ensures { IfOk result (Gives (swap_points bytes.now)) }
{
    let Ok(view) = PtrView::read(bytes) else {
        return Ok(None);
    };
    let mut entries = Vec::new(alloc);
    for at in 0..view.count {
        let Some(entry) = from_ptr(&view.entry(bytes, at)) else {
            return Ok(None);
        };
        entries.push(entry)?;
    }
    Ok(Some(entries))
}

/// The entries of the pointer block at a page; None where there is no such block.
pub fn load_entries<F: Folder>(
    alloc: Global,
    host: &mut F,
    name: &str,
    count: u64,
    block: u64,
) -> Result<Option<Vec<Entry>>, Fault>
    requires bound { count < 2 ^ 52 }
    requires count { IsThere F.tells (F.scene host.old) name.now (λ file. count ≡ length file / 4096) }
    ensures value { IfOk result (λ found. (file : List ℕ) → IsFile F.tells (F.scene host.old) name.now file
        → Gives (read_by swap_points (pages_at (pages_in file) block 1)) found) }
    ensures reading { ReadsAtMost F.tells result Fault.Failed (F.scene host.old) (F.scene host.new) 1 }
{
    let Some(bytes) = load_pages(alloc, host, name, count, block, 1)? else {
        return Ok(None);
    };
    let found = read_entries(alloc, &bytes)?;
    Ok(found)
}

/// Whether each of the entries has some pages.
pub fn are_wide(entries: &[Entry]) -> bool
    ensures { result ≡ are_wide entries.now }
{
    for entry in entries {
        if entry.pages == 0 {
            return false;
        }
    }
    true
}

// Whether these entries are those of the pointer block that an entry leads to: they have its lines.
fn fits(entry: &Entry, found: &[Entry]) -> bool
    ensures { result ≡ (nat_eq entry.now.pages 1 && (nat_eq (lines_below found.now) entry.now.lines && are_wide found.now)) }
{
    let wanted = *entry;
    if wanted.pages != 1 {
        return false;
    }
    let Some(lines) = count_lines(found) else {
        return false;
    };
    if lines != wanted.lines {
        return false;
    }
    are_wide(found)
}

/// The entries of the pointer block that an entry leads to, from its bytes; None where they are no pointer block that fits.
pub fn read_points(
    alloc: Global,
    entry: &Entry,
    bytes: &[u8],
) -> Result<Option<Vec<Entry>>, AllocError>
    ensures value { IfOk result (Gives (fitting_points entry.now (swap_points bytes.now))) }
    ensures wide { IfOk result (λ found. IfSome found (λ entries. IsTrue (are_wide entries.items))) }
{
    let Some(found) = read_entries(alloc, bytes)? else {
        return Ok(None);
    };
    if !fits(entry, &found) {
        return Ok(None);
    }
    Ok(Some(found))
}

/// The entries of the pointer block that an entry leads to; None where there is none that fits.
pub fn load_points<F: Folder>(
    alloc: Global,
    host: &mut F,
    name: &str,
    count: u64,
    entry: &Entry,
) -> Result<Option<Vec<Entry>>, Fault>
    requires some { 1 ≤ entry.now.pages }
    requires bound { count < 2 ^ 52 }
    requires count { IsThere F.tells (F.scene host.old) name.now (λ file. count ≡ length file / 4096) }
    ensures value { IfOk result (λ found. (file : List ℕ) → IsFile F.tells (F.scene host.old) name.now file
        → Gives (points_at swap_format (pages_in file) entry.now) found) }
    ensures wide { IfOk result (λ found. IfSome found (λ entries. IsTrue (are_wide entries.items))) }
    ensures reading { ReadsAtMost F.tells result Fault.Failed (F.scene host.old) (F.scene host.new) 1 }
{
    let Some(bytes) = load_pages(alloc, host, name, count, entry.block, entry.pages)? else {
        return Ok(None);
    };
    let found = read_points(alloc, entry, &bytes)?;
    Ok(found)
}

/// Adds the lines of the data block that an entry leads to, from its bytes, in their plain form; false where they are no data
/// block that fits.
pub fn read_lines(entry: &Entry, bytes: &[u8], lines: &mut FileText) -> Result<bool, AllocError>
    requires some { 1 ≤ entry.now.pages }
    ensures value { IfOk result (λ done. Extends (plain (fitting_lines entry.now (lines_in bytes.now))) lines.old.text lines.new.text done) }
    ensures format { lines.new.format ≡ lines.old.format }
{
    let Ok(view) = DataView::read(bytes) else {
        return Ok(false);
    };
    if u64::from(view.count) != entry.lines {
        return Ok(false);
    }
    lines.push_block(&view, bytes)?;
    Ok(true)
}

/// Adds the lines of the data block that an entry leads to, in their plain form; false where there is no block that fits.
pub fn load_lines<F: Folder>(
    alloc: Global,
    host: &mut F,
    name: &str,
    count: u64,
    entry: &Entry,
    lines: &mut FileText,
) -> Result<bool, Fault>
    requires some { 1 ≤ entry.now.pages }
    requires bound { count < 2 ^ 52 }
    requires count { IsThere F.tells (F.scene host.old) name.now (λ file. count ≡ length file / 4096) }
    ensures value { IfOk result (λ done. (file : List ℕ) → IsFile F.tells (F.scene host.old) name.now file
        → Extends (plain (lines_at swap_format (pages_in file) entry.now)) lines.old.text lines.new.text done) }
    ensures format { lines.new.format ≡ lines.old.format }
    ensures reading { ReadsAtMost F.tells result Fault.Failed (F.scene host.old) (F.scene host.new) 1 }
{
    let Some(bytes) = load_pages(alloc, host, name, count, entry.block, entry.pages)? else {
        return Ok(false);
    };
    let done = read_lines(entry, &bytes, lines)?;
    Ok(done)
}
