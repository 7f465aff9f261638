// Crossing an edge of the tree where the entries fit.
ghost use Rattle.std.specs.Prelude.{◌≡◌, ℕ, List, IfNone, IfOk, IfSome, OnOk, max, reverse};
ghost use Rattle.std.specs.List.Sorted.{IsStrictlyIncreasing};
ghost use Rattle.vs_entries.specs.Entries.{Leads, LeadsCount};
ghost use Rattle.vs_undo.specs.Edges.{IsLed};
ghost use Rattle.vs_undo.specs.Numbers.{numbers};
ghost use Rattle.vs_outward.specs.Calls.{GoesOn};
ghost use Rattle.vs_outward.specs.Outward.{entries_at};

use std::alloc::Global;
use vs_edit::{LineStore, StoreErr};
use vs_entries::{Entry, try_apply};
use vs_undo::{Entries, Node, apply_all, find};

// Takes entries back, given those that lead back from each, the first entry's first.
fn take_back<S: LineStore>(alloc: Global, store: &mut S, back: Vec<Entry>) -> Result<(), StoreErr>
    requires valid { S.valid store.old }
    requires counts { (to : ℕ) × IsLed LeadsCount (reverse back.items) (max 1 (S.shows store.old).present.lines) to }
    requires texts { (text : List (List ℕ)) → (S.shows store.old).present.Is text → (to : List (List ℕ)) × IsLed Leads (reverse back.items) text to }
    ensures counts { OnOk result ((to : ℕ) → IsLed LeadsCount (reverse back.items) (max 1 (S.shows store.old).present.lines) to
        → max 1 (S.shows store.new).present.lines ≡ to) }
    ensures texts { OnOk result ((text to : List (List ℕ)) → (S.shows store.old).present.Is text → IsLed Leads (reverse back.items) text to
        → (S.shows store.new).present.Is to) }
    ensures goes_on { GoesOn S.LineStore store.old store.new result }
{
    let mut entries = back;
    entries.reverse();
    apply_all(alloc, store, &entries)?;
    Ok(())
}

/// Applies entries to the text of a store one after another, and gives those that lead back. Where one of them may not be applied, it
/// gives nothing, and the text is as before.
///
/// After an `Err` some of them may be applied; the committed text is as before. [`StoreErr::Failed`] comes only from the store.
pub(crate) fn try_all<S: LineStore>(
    alloc: Global,
    store: &mut S,
    entries: &[Entry],
) -> Result<Option<Entries>, StoreErr>
    requires { S.valid store.old }
    ensures led_counts { IfOk result
        (λ o. IfSome o (λ back. IsLed LeadsCount entries.now (max 1 (S.shows store.old).present.lines) (max 1 (S.shows store.new).present.lines)
        × IsLed LeadsCount back (max 1 (S.shows store.new).present.lines) (max 1 (S.shows store.old).present.lines))) }
    ensures led_texts { IfOk result (λ o. IfSome o (λ back. (text : List (List ℕ)) → (S.shows store.old).present.Is text
        → (to : List (List ℕ)) × ((S.shows store.new).present.Is to × IsLed Leads entries.now text to × IsLed Leads back to text))) }
    ensures refused { IfOk result (λ o. IfNone o ((text to : List (List ℕ)) → (S.shows store.old).present.Is text → IsLed Leads entries.now text to →
        ⊥)) }
    ensures same_counts { IfOk result (λ o. IfNone o (max 1 (S.shows store.new).present.lines ≡ max 1 (S.shows store.old).present.lines)) }
    ensures same_texts { IfOk result (λ o. IfNone o ((text : List (List ℕ)) → (S.shows store.old).present.Is text →
        (S.shows store.new).present.Is text)) }
    ensures goes_on { GoesOn S.LineStore store.old store.new result }
{
    let mut back = Vec::with_capacity(alloc, entries.len())?;
    for entry in entries {
        let Some(other) = try_apply(alloc, store, entry)? else {
            take_back(alloc, store, back)?;
            return Ok(None);
        };
        back.push(other)?;
    }
    back.reverse();
    Ok(Some(Entries::of(back)))
}

/// The entries of the change with this number.
pub(crate) fn entries_at(nodes: &[Node], number: u64) -> &[Entry]
    requires { IsStrictlyIncreasing (numbers nodes.now) }
    ensures { result.now ≡ entries_at nodes.now number }
{
    match find(nodes, number) {
        Some(i) => nodes[i].entries.entries(),
        None => &[],
    }
}
