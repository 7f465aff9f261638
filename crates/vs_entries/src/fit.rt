// Whether an entry may be applied to the text of a store.
ghost use Rattle.std.specs.Prelude.{◌≡◌, ◌≢◌, ◌+◌, ◌≤◌, ◌↔◌, ℕ, List, IfNone, IfOk, IfSome, IsErrOf, IsTrue, OnOk, max};
ghost use Rattle.vs_text.specs.Text.{bytes_of};
ghost use Rattle.vs_edit.specs.Calls.{Continues, OnlyReads, StopsAtFault};
ghost use Rattle.vs_edit.specs.Splices.{cut_out};
ghost use Rattle.vs_entries.specs.Entries.{applied, filled, led_back, AllowsEntry, Fits, Leads, LeadsCount};

use crate::exchange::{apply, range_in};
use crate::lines::count_short;
use crate::{EditErr, Entry};
use std::alloc::Global;
use vs_edit::{LineStore, StoreErr};
use vs_reads::bytes_in;
use vs_text::{MAX_LINES, MAX_TEXT_BYTES};

// The number of bytes of `old` lines from line `top` on of the stored form.
fn bytes_at<S: LineStore>(alloc: Global, store: &mut S, top: u64, old: u64) -> Result<u64, StoreErr>
    requires valid { S.valid store.old }
    requires within { top + old ≤ max 1 (S.shows store.old).present.lines }
    ensures bytes { IfOk result (λ bytes. (text : List (List ℕ)) → (S.shows store.old).present.Is text →
        bytes ≡ bytes_of (cut_out (filled text) top old)) }
    ensures kept { OnlyReads S.LineStore store.old store.new }
    ensures cause { StopsAtFault S.LineStore (IsErrOf result StoreErr.Failed) store.old store.new }
{
    if store.len() == 0 {
        return Ok(old);
    }
    bytes_in(alloc, store, top, old)
}

/// Whether an entry may be applied: its range lies within the text, and what results is within the limits of a text.
///
/// It reads lines only where the text together with the entry's lines has too many bytes. [`StoreErr::Failed`] comes only from
/// the store.
pub fn fits<S: LineStore>(alloc: Global, store: &mut S, entry: &Entry) -> Result<bool, StoreErr>
    requires { S.valid store.old }
    ensures range { IfOk result (λ yes. IsTrue yes → Fits entry.now (max 1 (S.shows store.old).present.lines)) }
    ensures allowed { IfOk result (λ yes. IsTrue yes → AllowsEntry (S.shows store.old).present entry.now) }
    ensures refused { IfOk result (λ yes. ¬ (IsTrue yes) → (text to : List (List ℕ)) → (S.shows store.old).present.Is text →
        Leads entry.now text to → ⊥) }
    ensures kept { OnlyReads S.LineStore store.old store.new }
    ensures cause { StopsAtFault S.LineStore (IsErrOf result StoreErr.Failed) store.old store.new }
{
    let count = store.len().max(1);
    let bytes = store.bytes().max(1);
    let Some(old) = range_in(entry, count) else {
        return Ok(false);
    };
    let Some(new) = count_short(&entry.lines) else {
        return Ok(false);
    };
    if new > MAX_LINES || count - old > MAX_LINES - new {
        return Ok(false);
    }
    let more = entry.lines.bytes().len() as u64;
    if bytes.saturating_add(more) <= MAX_TEXT_BYTES {
        return Ok(true);
    }
    let gone = bytes_at(alloc, store, entry.top, old)?;
    Ok(bytes.saturating_sub(gone).saturating_add(more) <= MAX_TEXT_BYTES)
}

// The same cause, where the range of the entry lies within the text.
fn store_err(error: EditErr) -> StoreErr
    requires { error ≢ EditErr.OutOfRange }
    ensures { (result ≡ StoreErr.Failed) ↔ (error ≡ EditErr.Failed) }
{
    match error {
        EditErr::OutOfRange => unreachable!(),
        EditErr::NoMemory => StoreErr::NoMemory,
        EditErr::Failed => StoreErr::Failed,
    }
}

/// Applies an entry to the text of a store where that may be done, and gives the entry that leads back. Otherwise it gives nothing,
/// and the text is as before.
///
/// After an `Err` a part of it may be done; the committed text is as before. [`StoreErr::Failed`] comes only from the store.
pub fn try_apply<S: LineStore>(
    alloc: Global,
    store: &mut S,
    entry: &Entry,
) -> Result<Option<Entry>, StoreErr>
    requires { S.valid store.old }
    ensures text { IfOk result (λ o. IfSome o (λ back. (text : List (List ℕ)) → (S.shows store.old).present.Is text →
        (S.shows store.new).present.Is (applied entry.now text))) }
    ensures leads { IfOk result (λ o. IfSome o (λ back. (text : List (List ℕ)) → (S.shows store.old).present.Is text →
        Leads entry.now text (applied entry.now text))) }
    ensures counts { IfOk result
        (λ o. IfSome o (λ back. LeadsCount entry.now (max 1 (S.shows store.old).present.lines) (max 1 (S.shows store.new).present.lines))) }
    ensures back { IfOk result (λ o. IfSome o (λ back. (text : List (List ℕ)) → (S.shows store.old).present.Is text →
        back ≡ led_back entry.now text)) }
    ensures back_leads { IfOk result (λ o. IfSome o (λ back. (text : List (List ℕ)) → (S.shows store.old).present.Is text →
        Leads back (applied entry.now text) text)) }
    ensures back_counts { IfOk result
        (λ o. IfSome o (λ back. LeadsCount back (max 1 (S.shows store.new).present.lines) (max 1 (S.shows store.old).present.lines))) }
    ensures refused { IfOk result (λ o. IfNone o ((text to : List (List ℕ)) → (S.shows store.old).present.Is text → Leads entry.now text to → ⊥)) }
    ensures unchanged { IfOk result (λ o. IfNone o (OnlyReads S.LineStore store.old store.new)) }
    ensures kept { Continues S.LineStore store.old store.new }
    ensures cause { StopsAtFault S.LineStore (IsErrOf result StoreErr.Failed) store.old store.new }
{
    if !fits(alloc, store, entry)? {
        return Ok(None);
    }
    match apply(alloc, store, entry) {
        Ok(back) => Ok(Some(back)),
        Err(error) => Err(store_err(error)),
    }
}
