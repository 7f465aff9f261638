// Pointer blocks, written to pages.
ghost use Rattle.std.specs.Prelude.{◌≡◌, ◌≤◌, ◌<◌, ◌+◌, ◌^◌, ◌∷◌, [], suc, IsErrOf, IfOk, OnOk, IsTrue, length, take, drop};
ghost use Rattle.std.specs.List.{AllByRecursion};
ghost use Rattle.vs_pages.specs.Calls.{Continues, StopsAtFault};
ghost use Rattle.vs_tree_shape.specs.Places.{lines_below};
ghost use Rattle.vs_tree_shape.specs.Changes.{pointer_entry};
ghost use Rattle.vs_tree_blocks.specs.Blocks.{FitsFields};
ghost use Rattle.vs_tree_blocks.specs.Cuts.{half_of};
ghost use Rattle.vs_tree_blocks.specs.Pointers.{HasRoot, IsHalvedBelow, Leads, StandsAsRoot, halves_of, levels_more, pointer_blocks};
ghost use Rattle.vs_tree_blocks.specs.Writes.{IsThere, Spares, StandsOver, Touches, TouchesOnly};

use crate::add_block;
use crate::bytes::pointer_bytes;
use std::alloc::Global;
use vs_pages::{PageErr, Pages};
use vs_tree_shape::Entry;

/// The greatest number of entries of a pointer block of one page. docs/FORMATS.md, "Pointer blocks".
pub const MOST_ENTRIES: usize = 127;

/// The entry of a pointer block with these entries.
pub fn entry_above(block: u64, entries: &[Entry]) -> Entry
    requires block { block < 2 ^ 63 }
    requires small { lines_below entries.now < 2 ^ 63 }
    ensures entry { result ≡ pointer_entry block (lines_below entries.now) }
    ensures fields { FitsFields result }
{
    let mut lines = 0;
    'entries: for entry in entries {
        lines += entry.lines;
    }
    Entry {
        block,
        pages: 1,
        lines,
    }
}

// Writes entries into a pointer block that has room for them.
fn write_one<P: Pages>(
    alloc: Global,
    pages: &mut P,
    block: u64,
    entries: &[Entry],
) -> Result<Vec<Entry>, PageErr>
    requires valid { P.valid pages.old }
    requires there { IsThere P.Pages pages.old block }
    requires small { lines_below entries.now < 2 ^ 63 }
    requires block { block < 2 ^ 63 }
    requires fields { AllByRecursion FitsFields entries.now }
    requires few { length entries.now ≤ 127 }
    ensures wrote { IfOk result (λ above. StandsOver P.Pages pages.old pages.new block suc entries.now above.items) }
    ensures blocks { IfOk result (λ above. Leads P.Pages pages.new above.items (entries.now ∷ [])) }
    ensures fields { IfOk result (λ above. AllByRecursion FitsFields above.items) }
    ensures few { IfOk result (λ above. length above.items ≤ 3) }
    ensures lines { IfOk result (λ above. lines_below above.items ≡ lines_below entries.now) }
    ensures others { OnOk result (Spares P.Pages pages.old pages.new block) }
    ensures works { OnOk result (TouchesOnly P.Pages pages.old pages.new 1) }
    ensures single { IfOk result (λ above. length above.items ≤ 1) }
    ensures kept { Continues P.Pages pages.old pages.new }
    ensures cause { StopsAtFault P.Pages (IsErrOf result PageErr.Failed) pages.old pages.new }
{
    let above = vec![in alloc; entry_above(block, entries)]?;
    let bytes = pointer_bytes(alloc, entries)?;
    pages.touch(alloc, block, 1, &bytes)?;
    Ok(above)
}

/// The first half of entries, rounded up, and the others.
pub fn halve(entries: &[Entry]) -> (&[Entry], &[Entry])
    ensures first { result.0.now ≡ take (half_of (length entries.now)) entries.now }
    ensures second { result.1.now ≡ drop (half_of (length entries.now)) entries.now }
{
    entries.split_at(entries.len() - entries.len() / 2)
}

// Writes the first half of entries, rounded up, into a pointer block and the second half into a new one.
fn write_two<P: Pages>(
    alloc: Global,
    pages: &mut P,
    block: u64,
    entries: &[Entry],
) -> Result<Vec<Entry>, PageErr>
    requires valid { P.valid pages.old }
    requires there { IsThere P.Pages pages.old block }
    requires small { lines_below entries.now < 2 ^ 63 }
    requires block { block < 2 ^ 63 }
    requires fields { AllByRecursion FitsFields entries.now }
    requires few { length entries.now ≤ 254 }
    ensures wrote { IfOk result (λ above. StandsOver P.Pages pages.old pages.new block suc entries.now above.items) }
    ensures blocks { IfOk result (λ above. Leads P.Pages pages.new above.items (halves_of entries.now)) }
    ensures fields { IfOk result (λ above. AllByRecursion FitsFields above.items) }
    ensures few { IfOk result (λ above. length above.items ≤ 3) }
    ensures lines { IfOk result (λ above. lines_below above.items ≡ lines_below entries.now) }
    ensures others { OnOk result (Spares P.Pages pages.old pages.new block) }
    ensures works { OnOk result (Touches P.Pages pages.old pages.new 2) }
    ensures kept { Continues P.Pages pages.old pages.new }
    ensures cause { StopsAtFault P.Pages (IsErrOf result PageErr.Failed) pages.old pages.new }
{
    let (first, second) = halve(entries);
    let bytes = pointer_bytes(alloc, first)?;
    let more = pointer_bytes(alloc, second)?;
    pages.touch(alloc, block, 1, &bytes)?;
    let other = add_block(alloc, pages, 1, &more)?;
    let one = entry_above(block, first);
    let two = entry_above(other, second);
    Ok(vec![in alloc; one, two]?)
}

/// Writes entries into the pointer block at page `block`, the second half of them into a new block where they are too
/// many for one, and gives the entries that stand in place of the block's entry. Without entries the block is given back.
pub fn write_pointers<P: Pages>(
    alloc: Global,
    pages: &mut P,
    block: u64,
    entries: Vec<Entry>,
) -> Result<Vec<Entry>, PageErr>
    requires valid { P.valid pages.old }
    requires there { IsThere P.Pages pages.old block }
    requires small { lines_below entries.items < 2 ^ 63 }
    requires block { block < 2 ^ 63 }
    requires fields { AllByRecursion FitsFields entries.items }
    requires few { length entries.items ≤ 254 }
    ensures wrote { IfOk result (λ above. StandsOver P.Pages pages.old pages.new block suc entries.items above.items) }
    ensures blocks { IfOk result (λ above. Leads P.Pages pages.new above.items (pointer_blocks entries.items)) }
    ensures fields { IfOk result (λ above. AllByRecursion FitsFields above.items) }
    ensures few { IfOk result (λ above. length above.items ≤ 3) }
    ensures lines { IfOk result (λ above. lines_below above.items ≡ lines_below entries.items) }
    ensures others { OnOk result (Spares P.Pages pages.old pages.new block) }
    ensures works { OnOk result (Touches P.Pages pages.old pages.new 2) }
    ensures one { OnOk result (length entries.items ≤ 127 → TouchesOnly P.Pages pages.old pages.new 1) }
    ensures single { IfOk result (λ above. length entries.items ≤ 127 → length above.items ≤ 1) }
    ensures kept { Continues P.Pages pages.old pages.new }
    ensures cause { StopsAtFault P.Pages (IsErrOf result PageErr.Failed) pages.old pages.new }
{
    if entries.is_empty() {
        pages.free(alloc, block, 1)?;
        return Ok(Vec::new(alloc));
    }
    if entries.len() <= MOST_ENTRIES {
        return write_one(alloc, pages, block, &entries);
    }
    write_two(alloc, pages, block, &entries)
}

// Moves each half of entries to a new block, the first half rounded up, and writes a block 1 that leads to these alone.
fn lift_root<P: Pages>(alloc: Global, pages: &mut P, entries: &[Entry]) -> Result<(), PageErr>
    requires valid { P.valid pages.old }
    requires there { IsThere P.Pages pages.old 1 }
    requires small { lines_below entries.now < 2 ^ 63 }
    requires fields { AllByRecursion FitsFields entries.now }
    requires few { length entries.now ≤ 254 }
    ensures wrote { OnOk result (StandsOver P.Pages pages.old pages.new 1 (λ d. suc (suc d)) entries.now (pointer_entry 1 (lines_below entries.now) ∷ [])) }
    ensures blocks { OnOk result (IsTrue P.tells → IsHalvedBelow (P.shows pages.new).present entries.now) }
    ensures others { OnOk result (Spares P.Pages pages.old pages.new 1) }
    ensures works { OnOk result (Touches P.Pages pages.old pages.new 3) }
    ensures kept { Continues P.Pages pages.old pages.new }
    ensures cause { StopsAtFault P.Pages (IsErrOf result PageErr.Failed) pages.old pages.new }
{
    let (first, second) = halve(entries);
    let bytes = pointer_bytes(alloc, first)?;
    let moved = add_block(alloc, pages, 1, &bytes)?;
    let more = pointer_bytes(alloc, second)?;
    let other = add_block(alloc, pages, 1, &more)?;
    let one = entry_above(moved, first);
    let two = entry_above(other, second);
    let top = pointer_bytes(alloc, &[one, two])?;
    pages.touch(alloc, 1, 1, &top)
}

/// Writes entries into block 1. Where they are too many, each half of them moves to a new block, and block 1 leads to
/// these two alone. Gives the number of levels, 0 or 1, by which the tree is deeper then.
pub fn write_root<P: Pages>(
    alloc: Global,
    pages: &mut P,
    entries: Vec<Entry>,
) -> Result<u64, PageErr>
    requires valid { P.valid pages.old }
    requires there { IsThere P.Pages pages.old 1 }
    requires small { lines_below entries.items < 2 ^ 63 }
    requires fields { AllByRecursion FitsFields entries.items }
    requires few { length entries.items ≤ 254 }
    ensures wrote { IfOk result (StandsAsRoot P.Pages pages.old pages.new entries.items) }
    ensures more { IfOk result (λ more. more ≤ 1) }
    ensures deeper { IfOk result (λ more. more ≡ levels_more entries.items) }
    ensures blocks { IfOk result (λ more. IsTrue P.tells → HasRoot (P.shows pages.new).present entries.items more) }
    ensures others { OnOk result (Spares P.Pages pages.old pages.new 1) }
    ensures works { OnOk result (Touches P.Pages pages.old pages.new 3) }
    ensures one { OnOk result (length entries.items ≤ 127 → TouchesOnly P.Pages pages.old pages.new 1) }
    ensures kept { Continues P.Pages pages.old pages.new }
    ensures cause { StopsAtFault P.Pages (IsErrOf result PageErr.Failed) pages.old pages.new }
{
    if entries.len() > MOST_ENTRIES {
        lift_root(alloc, pages, &entries)?;
        return Ok(1);
    }
    let bytes = pointer_bytes(alloc, &entries)?;
    pages.touch(alloc, 1, 1, &bytes)?;
    Ok(0)
}
