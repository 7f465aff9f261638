// One entry of a pointer block, exchanged for others.
ghost use Rattle.std.specs.Prelude.{◌≡◌, ◌≤◌, ◌<◌, ◌+◌, ◌-◌, ◌^◌, IsErrOf, IfOk, OnOk, IsTrue, length};
ghost use Rattle.std.specs.List.{AllByRecursion};
ghost use Rattle.vs_pages.specs.Calls.{Continues, OnlyReads, StopsAtFault};
ghost use Rattle.vs_tree_shape.specs.Places.{lines_below, replaced};
ghost use Rattle.vs_tree_shape.specs.Changes.{pointer_entry};
ghost use Rattle.vs_tree_blocks.specs.Blocks.{FitsFields};
ghost use Rattle.vs_tree_blocks.specs.Pointers.{HasEntry, HasRoot, OfReplaced, PutsEntry, StandsAsRoot, levels_more, OfEntries, ReplacesEntry, HalvesReplaced};
ghost use Rattle.vs_tree_blocks.specs.Writes.{Spares, Touches, TouchesOnly};

use crate::bytes::to_ptr;
use crate::load_entries;
use crate::pointers::{write_pointers, write_root};
use std::alloc::Global;
use vs_pages::{PageErr, Pages};
use vs_ptr::entry_place;
use vs_tree_shape::{Entry, Place, replace_entry};

// Writes an entry over that of a place in the pointer block to which `top` leads, and gives the entry that leads to the block
// then. No other byte of the block is written.
fn put_entry<P: Pages>(
    alloc: Global,
    pages: &mut P,
    top: Entry,
    place: Place,
    new: Entry,
) -> Result<Entry, PageErr>
    requires valid { P.valid pages.old }
    requires there { IsTrue P.tells → HasEntry (P.shows pages.old).present top place }
    requires index { place.index < 127 }
    requires within { place.entry.lines ≤ top.lines }
    requires small { top.lines + new.lines < 2 ^ 63 + place.entry.lines }
    requires block { top.block < 2 ^ 63 }
    requires fields { FitsFields new }
    ensures entry { IfOk result (λ now. now ≡ pointer_entry top.block (top.lines - place.entry.lines + new.lines)) }
    ensures fields { IfOk result FitsFields }
    ensures put { OnOk result (PutsEntry P.Pages pages.old pages.new top.block place.index new) }
    ensures works { OnOk result (TouchesOnly P.Pages pages.old pages.new 1) }
    ensures kept { Continues P.Pages pages.old pages.new }
    ensures cause { StopsAtFault P.Pages (IsErrOf result PageErr.Failed) pages.old pages.new }
{
    let from = entry_place(place.index as u16);
    pages.patch(alloc, top.block, from, &to_ptr(&new).to_bytes())?;
    Ok(Entry {
        block: top.block,
        pages: 1,
        lines: top.lines - place.entry.lines + new.lines,
    })
}

// The entries of the pointer block to which `top` leads, with others in the place of one of them. A block that has not this entry
// there is damage.
fn load_replaced<P: Pages>(
    alloc: Global,
    pages: &mut P,
    top: Entry,
    place: Place,
    by: &[Entry],
) -> Result<Vec<Entry>, PageErr>
    requires valid { P.valid pages.old }
    requires there { IsTrue P.tells → HasEntry (P.shows pages.old).present top place }
    requires fields { AllByRecursion FitsFields by.now }
    requires few { length by.now ≤ 128 }
    ensures entries { IfOk result (λ all. OfEntries P.Pages pages.old top.block (λ entries. all.items ≡ replaced entries place.index by.now)) }
    ensures fields { IfOk result (λ all. AllByRecursion FitsFields all.items) }
    ensures few { IfOk result (λ all. length all.items ≤ 126 + length by.now) }
    ensures lines { IfOk result (λ all. lines_below all.items + place.entry.lines ≡ top.lines + lines_below by.now) }
    ensures kept { OnlyReads P.Pages pages.old pages.new }
    ensures cause { StopsAtFault P.Pages (IsErrOf result PageErr.Failed) pages.old pages.new }
{
    let old = load_entries(alloc, pages, top)?;
    if place.index >= old.len() || old[place.index] != place.entry {
        pages.damaged();
        return Err(PageErr::Failed);
    }
    Ok(replace_entry(alloc, &old, place.index, by)?)
}

/// Puts other entries in the place of one of the pointer block to which `top` leads, and gives the entries that stand in place of
/// `top`: two where there are too many for one block, and none where no entry is left, when the block is given back. Where one
/// entry comes, only its own bytes are written.
pub fn exchange_entry<P: Pages>(
    alloc: Global,
    pages: &mut P,
    top: Entry,
    place: Place,
    by: &[Entry],
) -> Result<Vec<Entry>, PageErr>
    requires valid { P.valid pages.old }
    requires there { IsTrue P.tells → HasEntry (P.shows pages.old).present top place }
    requires index { place.index < 127 }
    requires within { place.entry.lines ≤ top.lines }
    requires small { top.lines + lines_below by.now < 2 ^ 63 + place.entry.lines }
    requires block { top.block < 2 ^ 63 }
    requires fields { AllByRecursion FitsFields by.now }
    requires few { length by.now ≤ 128 }
    ensures wrote { IfOk result (λ above. ReplacesEntry P.Pages pages.old pages.new top.block place.index by.now above.items) }
    ensures blocks { IfOk result (λ above. HalvesReplaced P.Pages pages.old pages.new top.block place.index by.now above.items) }
    ensures fields { IfOk result (λ above. AllByRecursion FitsFields above.items) }
    ensures few { IfOk result (λ above. length above.items ≤ 3) }
    ensures lines { IfOk result (λ above. lines_below above.items + place.entry.lines ≡ top.lines + lines_below by.now) }
    ensures others { OnOk result (Spares P.Pages pages.old pages.new top.block) }
    ensures works { OnOk result (Touches P.Pages pages.old pages.new 2) }
    ensures one { OnOk result (length by.now ≤ 1 → TouchesOnly P.Pages pages.old pages.new 1) }
    ensures single { IfOk result (λ above. length by.now ≤ 1 → length above.items ≤ 1) }
    ensures kept { Continues P.Pages pages.old pages.new }
    ensures cause { StopsAtFault P.Pages (IsErrOf result PageErr.Failed) pages.old pages.new }
{
    if by.len() == 1 {
        let above = put_entry(alloc, pages, top, place, by[0])?;
        return Ok(vec![in alloc; above]?);
    }
    let all = load_replaced(alloc, pages, top, place, by)?;
    write_pointers(alloc, pages, top.block, all)
}

/// Puts other entries in the place of one of block 1, to which `top` would lead, and gives the number of levels, 0 or 1, by which
/// the tree is deeper then: where there are too many, each half of them moves to a new block, and block 1 leads to these two
/// alone. Where one entry comes, only its own bytes are written.
pub fn exchange_in_root<P: Pages>(
    alloc: Global,
    pages: &mut P,
    top: Entry,
    place: Place,
    by: &[Entry],
) -> Result<u64, PageErr>
    requires valid { P.valid pages.old }
    requires root { top.block ≡ 1 }
    requires there { IsTrue P.tells → HasEntry (P.shows pages.old).present top place }
    requires index { place.index < 127 }
    requires within { place.entry.lines ≤ top.lines }
    requires small { top.lines + lines_below by.now < 2 ^ 63 + place.entry.lines }
    requires fields { AllByRecursion FitsFields by.now }
    requires few { length by.now ≤ 128 }
    ensures wrote { IfOk result
        (λ more. OfReplaced P.Pages pages.old 1 place.index by.now (λ entries. StandsAsRoot P.Pages pages.old pages.new entries more)) }
    ensures more { IfOk result (λ more. more ≤ 1) }
    ensures level { IfOk result (λ more. length by.now ≤ 1 → more ≡ 0) }
    ensures deeper { IfOk result (λ more. OfEntries P.Pages pages.old 1 (λ entries. more ≡ levels_more (replaced entries place.index by.now))) }
    ensures blocks { IfOk result (λ more. OfReplaced P.Pages pages.old 1 place.index by.now (λ entries. HasRoot (P.shows pages.new).present entries more)) }
    ensures others { OnOk result (Spares P.Pages pages.old pages.new 1) }
    ensures works { OnOk result (Touches P.Pages pages.old pages.new 3) }
    ensures one { OnOk result (length by.now ≤ 1 → TouchesOnly P.Pages pages.old pages.new 1) }
    ensures kept { Continues P.Pages pages.old pages.new }
    ensures cause { StopsAtFault P.Pages (IsErrOf result PageErr.Failed) pages.old pages.new }
{
    if by.len() == 1 {
        put_entry(alloc, pages, top, place, by[0])?;
        return Ok(0);
    }
    let all = load_replaced(alloc, pages, top, place, by)?;
    write_root(alloc, pages, all)
}
