// Data blocks of several pages, each with one line.
ghost use Rattle.std.specs.Prelude.{◌≡◌, ◌≤◌, ◌<◌, ◌+◌, [], IsErrOf, IfOk, OnOk, IsTrue, length};
ghost use Rattle.std.specs.List.{AllByRecursion};
ghost use Rattle.vs_text.specs.Text.{bytes_of};
ghost use Rattle.vs_pages.specs.Calls.{Continues, StopsAtFault};
ghost use Rattle.vs_tree_shape.specs.Places.{lines_below};
ghost use Rattle.vs_tree_blocks.specs.Blocks.{FitsFields, LeadsToData};
ghost use Rattle.vs_tree_blocks.specs.Edits.{added_by, CutsBlock, EditsLong, IsEdit, MayTake, most_entries, WorksLong};
ghost use Rattle.vs_tree_blocks.specs.Writes.{LeavesBlocks, OfLines};

use crate::behind::put_behind;
use crate::data::text_of;
use crate::{Edit, Edited, Removed, load_data};
use std::alloc::Global;
use vs_pages::{PageErr, Pages};
use vs_tree_shape::Entry;

// Takes out the one line of a data block of several pages, which is given back.
fn remove_long<P: Pages>(alloc: Global, pages: &mut P, entry: Entry) -> Result<Edited, PageErr>
    requires valid { P.valid pages.old }
    requires several { 2 ≤ entry.pages }
    requires there { IsTrue P.tells → LeadsToData (P.shows pages.old).present entry }
    ensures wrote { IfOk result (λ after. LeavesBlocks P.Pages pages.old pages.new entry [] after.entries.items) }
    ensures gone { IfOk result (λ after. after.removed.lines ≡ 1) }
    ensures bytes { IfOk result (λ after. OfLines P.Pages pages.old entry (λ lines. after.removed.bytes ≡ bytes_of lines)) }
    ensures none { IfOk result (λ after. after.entries.items ≡ []) }
    ensures kept { Continues P.Pages pages.old pages.new }
    ensures cause { StopsAtFault P.Pages (IsErrOf result PageErr.Failed) pages.old pages.new }
{
    let mut bytes = Vec::new(alloc);
    let view = load_data(alloc, pages, entry, &mut bytes)?;
    pages.free(alloc, entry.block, entry.pages)?;
    Ok(Edited {
        entries: Vec::new(alloc),
        removed: Removed {
            lines: 1,
            bytes: text_of(view).bytes,
        },
    })
}

// Edits a data block of several pages, which holds one line: a new line gets a block of its own beside it.
pub fn edit_long<P: Pages>(
    alloc: Global,
    pages: &mut P,
    entry: Entry,
    edit: Edit<'_>,
) -> Result<Edited, PageErr>
    requires valid { P.valid pages.old }
    requires fields { FitsFields entry }
    requires several { 2 ≤ entry.pages }
    requires edit { IsEdit edit }
    requires there { IsTrue P.tells → LeadsToData (P.shows pages.old).present entry }
    ensures wrote { IfOk result (EditsLong P.Pages pages.old pages.new entry edit.entry) }
    ensures blocks { IfOk result (CutsBlock P.Pages pages.old pages.new entry 0 edit.entry) }
    ensures may_take { IfOk result (λ after. MayTake edit.entry after.removed.lines) }
    ensures fields { IfOk result (λ after. AllByRecursion FitsFields after.entries.items) }
    ensures few { IfOk result (λ after. length after.entries.items ≤ 128) }
    ensures lines { IfOk result (λ after. lines_below after.entries.items + after.removed.lines ≡ entry.lines + added_by edit.entry) }
    ensures single { IfOk result (λ after. length after.entries.items ≤ most_entries edit.entry) }
    ensures works { OnOk result (WorksLong P.Pages pages.old pages.new entry edit.entry 1) }
    ensures kept { Continues P.Pages pages.old pages.new }
    ensures cause { StopsAtFault P.Pages (IsErrOf result PageErr.Failed) pages.old pages.new }
{
    match edit {
        Edit::Before(lines) => {
            let new = lines.add(alloc, pages)?;
            Ok(Edited::with(vec![in alloc; new, entry]?))
        }
        Edit::After(lines) => {
            let new = lines.add(alloc, pages)?;
            Ok(Edited::with(vec![in alloc; entry, new]?))
        }
        Edit::Behind(runs) => {
            let entries = put_behind(alloc, pages, entry, runs)?;
            Ok(Edited::with(entries))
        }
        Edit::Remove(_most) => remove_long(alloc, pages, entry),
    }
}
