// A change at one line of the tree.
ghost use Rattle.std.specs.Prelude.{◌≡◌, ◌≤◌, ◌<◌, ◌+◌, ◌*◌, ◌^◌, [], IsErrOf, IfOk, OnOk, IsTrue, get_or, length};
ghost use Rattle.std.specs.List.{AllByRecursion};
ghost use Rattle.vs_pages.specs.Calls.{Continues, StopsAtFault};
ghost use Rattle.vs_tree_shape.specs.Places.{lines_below};
ghost use Rattle.vs_tree_shape.specs.Changes.{HasLineBelow};
ghost use Rattle.vs_tree_blocks.specs.Blocks.{tree_format, FitsFields};
ghost use Rattle.vs_tree_blocks.specs.Edits.{added_by, CutsBelow, EditsBelow, EditsFew, IsEdit, IsOnePageEdit, MayTake, RemovesFew, most_entries, most_worked};
ghost use Rattle.vs_tree_blocks.specs.Fills.{FillsBelow, TakesLine, ThinsBelow};
ghost use Rattle.vs_tree.specs.Calls.{EditsTree, EditsTreeFew, StandsTree, WorksAtMost};
ghost use Rattle.vs_tree.specs.DataBlocks.{CutsTree};
ghost use Rattle.vs_tree.specs.Fills.{FillsTree, ThinsRoot};

use crate::Root;
use std::alloc::Global;
use vs_pages::{PageErr, Pages};
use vs_tree_blocks::{
    Edit, Edited, Removed, edit_data, exchange_entry, exchange_in_root, find_below,
};
use vs_tree_shape::Entry;

// Edits the lines below the block that an entry leads to, whose data blocks lie `depth` levels below it.
fn edit_below<P: Pages>(
    alloc: Global,
    pages: &mut P,
    depth: u64,
    top: Entry,
    at: u64,
    edit: Edit<'_>,
) -> Result<Edited, PageErr>
    requires valid { P.valid pages.old }
    requires fields { FitsFields top }
    requires within { at < top.lines }
    requires small { top.lines < 2 ^ 62 }
    requires edit { IsEdit edit }
    requires there { IsTrue P.tells → HasLineBelow tree_format (P.shows pages.old).present top depth at }
    ensures wrote { IfOk result (EditsBelow P.Pages pages.old pages.new top depth at edit.entry) }
    ensures may_take { IfOk result (λ after. MayTake edit.entry after.removed.lines) }
    ensures cuts { IfOk result (CutsBelow P.Pages pages.old pages.new top depth at edit.entry) }
    ensures fields { IfOk result (λ after. AllByRecursion FitsFields after.entries.items) }
    ensures few { IfOk result (λ after. length after.entries.items ≤ 128) }
    ensures single { IfOk result (λ after. length after.entries.items ≤ most_entries edit.entry) }
    ensures lines { IfOk result (λ after. lines_below after.entries.items + after.removed.lines ≡ top.lines + added_by edit.entry) }
    ensures filled { IfOk result (λ after. FillsBelow P.Pages pages.old pages.new top depth edit.entry after.entries.items) }
    ensures thins { IfOk result (ThinsBelow P.Pages pages.old pages.new top depth at edit.entry) }
    ensures works { OnOk result (EditsFew P.Pages pages.old pages.new top depth at edit.entry (most_worked edit.entry depth)) }
    ensures only { OnOk result (RemovesFew P.Pages pages.old pages.new top depth at edit.entry) }
    ensures kept { Continues P.Pages pages.old pages.new }
    ensures cause { StopsAtFault P.Pages (IsErrOf result PageErr.Failed) pages.old pages.new }
{
    if depth == 0 {
        return edit_data(alloc, pages, top, at, edit);
    }
    let mut buffer = Vec::new(alloc);
    let place = find_below(alloc, pages, top, at, &mut buffer)?;
    let below = edit_below(alloc, pages, depth - 1, place.entry, place.rest, edit)?;
    let above = exchange_entry(alloc, pages, top, place, &below.entries)?;
    Ok(Edited {
        entries: above,
        removed: below.removed,
    })
}

/// What an edit leaves of the tree: its root, and the lines that were taken out.
#[derive(Clone, Copy, Debug, PartialEq, Eq)]
pub struct EditedTree {
    pub root: Root,
    pub removed: Removed,
}

/// Edits the tree at one of its lines, counted from 0.
pub fn edit_tree<P: Pages>(
    alloc: Global,
    pages: &mut P,
    root: Root,
    at: u64,
    edit: Edit<'_>,
) -> Result<EditedTree, PageErr>
    requires valid { P.valid pages.old }
    requires within { at < root.lines }
    requires small { root.lines < 2 ^ 62 }
    requires edit { IsEdit edit }
    requires there { StandsTree P.Pages pages.old root }
    ensures edited { IfOk result (EditsTree P.Pages pages.old pages.new root at edit.entry) }
    ensures cuts { IfOk result (CutsTree P.Pages pages.old pages.new root at edit.entry) }
    ensures lines { IfOk result (λ after. after.root.lines + after.removed.lines ≡ root.lines + added_by edit.entry) }
    ensures may_take { IfOk result (λ after. MayTake edit.entry after.removed.lines) }
    ensures higher { IfOk result (λ after. after.root.height ≤ root.height + 1) }
    ensures level { IfOk result (λ after. most_entries edit.entry ≤ 1 → after.root.height ≡ root.height) }
    ensures filled { IfOk result (λ after. FillsTree P.Pages pages.old pages.new root edit.entry after.root) }
    ensures thins { IfOk result (λ after. TakesLine edit.entry after.removed.lines →
        ThinsRoot P.Pages pages.old pages.new root.height root.lines at after.root.height) }
    ensures works { OnOk result (EditsTreeFew P.Pages pages.old pages.new root at edit.entry) }
    ensures only { OnOk result (most_entries edit.entry ≤ 1 →
        WorksAtMost P.Pages pages.old pages.new root (root.height + 1) (λ lines. IsOnePageEdit edit.entry (get_or lines at []))) }
    ensures kept { Continues P.Pages pages.old pages.new }
    ensures cause { StopsAtFault P.Pages (IsErrOf result PageErr.Failed) pages.old pages.new }
{
    if pages.count() <= root.height {
        pages.damaged();
        return Err(PageErr::Failed);
    }
    let top = root.entry();
    let mut buffer = Vec::new(alloc);
    let place = find_below(alloc, pages, top, at, &mut buffer)?;
    let below = edit_below(
        alloc,
        pages,
        root.height.saturating_sub(1),
        place.entry,
        place.rest,
        edit,
    )?;
    let more = exchange_in_root(alloc, pages, top, place, &below.entries)?;
    Ok(EditedTree {
        root: Root {
            height: root.height + more,
            lines: root.lines + edit.added() - below.removed.lines,
        },
        removed: below.removed,
    })
}
