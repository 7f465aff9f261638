// Applying an entry to the text of a store.
ghost use Rattle.std.specs.Prelude.{◌≡◌, ◌-◌, ◌^◌, ◌<◌, ℕ, List, IfOk, IsErrOf, OnOk, OnSome, MatchOption, max};
ghost use Rattle.vs_edit.specs.Calls.{Continues, StopsAtFault};
ghost use Rattle.vs_entries.specs.Entries.{filled, settled, applied, led_back, range_in, AllowsEntry, Fits, LeadsCount};

use crate::lines::{each_line, lines_at, one_empty};
use crate::read::bottom_back;
use crate::{EditErr, Entry};
use std::alloc::Global;
use vs_edit::LineStore;

// Gives a text without lines one empty line.
fn fill<S: LineStore>(alloc: Global, store: &mut S) -> Result<(), EditErr>
    requires { S.valid store.old }
    ensures text { OnOk result ((text : List (List ℕ)) → (S.shows store.old).present.Is text → (S.shows store.new).present.Is (filled text)) }
    ensures lines { OnOk result ((S.shows store.new).present.lines ≡ max 1 (S.shows store.old).present.lines) }
    ensures in_range { ¬ (IsErrOf result EditErr.OutOfRange) }
    ensures kept { Continues S.LineStore store.old store.new }
    ensures cause { StopsAtFault S.LineStore (IsErrOf result EditErr.Failed) store.old store.new }
{
    if store.len() == 0 {
        let line = each_line(alloc, &one_empty(alloc)?)?;
        store.splice(alloc, 0, 0, &line)?;
    }
    Ok(())
}

// Makes the text that of its stored form, by the flag.
fn settle<S: LineStore>(alloc: Global, store: &mut S, empty: bool) -> Result<(), EditErr>
    requires { S.valid store.old }
    ensures text { OnOk result ((text : List (List ℕ)) → (S.shows store.old).present.Is text → (S.shows store.new).present.Is (settled empty text)) }
    ensures lines { OnOk result (max 1 (S.shows store.new).present.lines ≡ max 1 (S.shows store.old).present.lines) }
    ensures in_range { ¬ (IsErrOf result EditErr.OutOfRange) }
    ensures kept { Continues S.LineStore store.old store.new }
    ensures cause { StopsAtFault S.LineStore (IsErrOf result EditErr.Failed) store.old store.new }
{
    if !empty {
        return fill(alloc, store);
    }
    if store.len() == 1 && store.bytes() == 1 {
        store.splice(alloc, 0, 1, &[])?;
    }
    Ok(())
}

// The number of lines in the range of an entry, where this lies within a stored form with this number of lines.
pub(crate) fn range_in(entry: &Entry, count: u64) -> Option<u64>
    requires { count < 2 ^ 64 - 1 }
    ensures range { MatchOption result (¬ (Fits entry.now count)) (λ old. old ≡ range_in entry.now count) }
    ensures fits { OnSome result (Fits entry.now count) }
{
    let bottom = if entry.bottom == 0 {
        count + 1
    } else {
        entry.bottom
    };
    if bottom <= entry.top || count + 1 < bottom {
        None
    } else {
        Some(bottom - entry.top - 1)
    }
}

/// Applies an entry to the text of a store, and gives the entry that leads back. Where the range of the entry does not lie
/// within the text, it answers [`EditErr::OutOfRange`].
///
/// After an `Err` a part of it may be done; the committed text is as before.
pub fn apply<S: LineStore>(alloc: Global, store: &mut S, entry: &Entry) -> Result<Entry, EditErr>
    requires valid { S.valid store.old }
    requires allowed { AllowsEntry (S.shows store.old).present entry.now }
    ensures text { OnOk result ((text : List (List ℕ)) → (S.shows store.old).present.Is text → (S.shows store.new).present.Is (applied entry.now text)) }
    ensures counts { OnOk result (LeadsCount entry.now (max 1 (S.shows store.old).present.lines) (max 1 (S.shows store.new).present.lines)) }
    ensures back { IfOk result (λ back. (text : List (List ℕ)) → (S.shows store.old).present.Is text → back ≡ led_back entry.now text) }
    ensures back_counts { IfOk result (λ back. LeadsCount back (max 1 (S.shows store.new).present.lines) (max 1 (S.shows store.old).present.lines)) }
    ensures out_of_range { IsErrOf result EditErr.OutOfRange → ¬ (Fits entry.now (max 1 (S.shows store.old).present.lines)) }
    ensures kept { Continues S.LineStore store.old store.new }
    ensures cause { StopsAtFault S.LineStore (IsErrOf result EditErr.Failed) store.old store.new }
{
    let lines = store.len();
    let count = lines.max(1);
    let Some(old) = range_in(entry, count) else {
        return Err(EditErr::OutOfRange);
    };
    fill(alloc, store)?;
    let gone = lines_at(alloc, store, entry.top, old)?;
    let new = each_line(alloc, &entry.lines)?;
    store.splice(alloc, entry.top, old, &new)?;
    settle(alloc, store, entry.empty)?;
    Ok(Entry {
        top: entry.top,
        bottom: bottom_back(entry.top, old, count, new.len() as u64),
        lines: gone,
        empty: lines == 0,
    })
}
