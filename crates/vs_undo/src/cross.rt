// Walking the text of a store over the edges of the tree.
ghost use Rattle.std.specs.Prelude.{◌≡◌, ◌≢◌, ◌<◌, ◌≤◌, ◌↔◌, ℕ, List, [], Some, IfOk, IsErrOf, OnOk, get_or, length, max};
ghost use Rattle.vs_edit.specs.Calls.{Continues, StopsAtFault};
ghost use Rattle.vs_edit.specs.State.{SameText};
ghost use Rattle.vs_entries.specs.Entries.{Leads, LeadsCount};
ghost use Rattle.std.specs.List.Sorted.{IsStrictlyIncreasing};
ghost use Rattle.vs_undo.specs.Numbers.{numbers};
ghost use Rattle.vs_undo.specs.Ways.{node_at};
ghost use Rattle.vs_undo.specs.declared.parts.Node.{Node};
ghost use Rattle.vs_undo.specs.Edges.{IsLed};
ghost use Rattle.vs_undo.specs.Turns.{all_led_back, AreLedBack};
ghost use Rattle.vs_undo.specs.Walks.{Crosses, AreTurned};

use crate::way::find;
use crate::{Entries, Node};
use std::alloc::Global;
use vs_edit::{LineStore, StoreErr};
use vs_entries::{EditErr, Entry, apply};

// The same cause, where the entry fits.
fn store_err(error: EditErr) -> StoreErr
    requires { error ≢ EditErr.OutOfRange }
    ensures { (result ≡ StoreErr.Failed) ↔ (error ≡ EditErr.Failed) }
{
    match error {
        EditErr::OutOfRange => unreachable!(),
        EditErr::NoMemory => StoreErr::NoMemory,
        EditErr::Failed => StoreErr::Failed,
    }
}

/// Applies entries that lead from the text of a store, one after another, and gives those that lead back.
///
/// After an `Err` some of them may be applied; the committed text is as before. [`StoreErr::Failed`] comes only from the store.
pub fn apply_all<S: LineStore>(
    alloc: Global,
    store: &mut S,
    entries: &[Entry],
) -> Result<Vec<Entry>, StoreErr>
    requires valid { S.valid store.old }
    requires counts { (to : ℕ) × IsLed LeadsCount entries.now (max 1 (S.shows store.old).present.lines) to }
    requires texts { (text : List (List ℕ)) → (S.shows store.old).present.Is text → (to : List (List ℕ)) × IsLed Leads entries.now text to }

    ensures count { IfOk result (λ back. length back.items ≡ length entries.now) }
    ensures counts { IfOk result (λ back. (to : ℕ) → IsLed LeadsCount entries.now (max 1 (S.shows store.old).present.lines) to
        → (max 1 (S.shows store.new).present.lines ≡ to) × IsLed LeadsCount back.items to (max 1 (S.shows store.old).present.lines)) }
    ensures texts { IfOk result (λ back. (text to : List (List ℕ)) → (S.shows store.old).present.Is text → IsLed Leads entries.now text to
        → (S.shows store.new).present.Is to × IsLed Leads back.items to text) }
    ensures back { IfOk result (λ back. (text : List (List ℕ)) → (S.shows store.old).present.Is text → back.items ≡ all_led_back entries.now text) }
    ensures kept { Continues S.LineStore store.old store.new }
    ensures cause { StopsAtFault S.LineStore (IsErrOf result StoreErr.Failed) store.old store.new }
{
    let mut back = Vec::with_capacity(alloc, entries.len())?;
    for entry in entries {
        match apply(alloc, store, entry) {
            Ok(other) => back.push(other)?,
            Err(error) => return Err(store_err(error)),
        }
    }
    back.reverse();
    Ok(back)
}

// Walks the text of a store over the edges of a path, and gives for each the entries that lead over it in the other direction.
pub(crate) fn cross<S: LineStore>(
    alloc: Global,
    store: &mut S,
    nodes: &[Node],
    path: &[u64],
) -> Result<Vec<Entries>, StoreErr>
    requires valid { S.valid store.old }
    requires rising { IsStrictlyIncreasing (numbers nodes.now) }
    requires entries { (number : ℕ) (node : Node) → node_at nodes.now number ≡ Some node → 0 < length node.entries }
    requires counts { Crosses LeadsCount nodes.now path.now (max 1 (S.shows store.old).present.lines) }
    requires texts { (text : List (List ℕ)) → (S.shows store.old).present.Is text → Crosses Leads nodes.now path.now text }

    ensures count { IfOk result (λ turned. length turned.items ≡ length path.now) }
    ensures some { IfOk result (λ turned. (i : ℕ) → i < length path.now → 0 < length (get_or turned.items i [])) }
    ensures counts { IfOk result (λ turned. (c : Crosses LeadsCount nodes.now path.now (max 1 (S.shows store.old).present.lines))
        → (max 1 (S.shows store.new).present.lines ≡ c.states c.to) × AreTurned LeadsCount nodes.now c.back c.states path.now turned.items (length path.now)) }
    ensures texts { IfOk result (λ turned. (text : List (List ℕ)) → (S.shows store.old).present.Is text → (c : Crosses Leads nodes.now path.now text)
        → (S.shows store.new).present.Is (c.states c.to) × AreTurned Leads nodes.now c.back c.states path.now turned.items (length path.now)) }
    ensures back { IfOk result (λ turned. (text : List (List ℕ)) → (S.shows store.old).present.Is text → (c : Crosses Leads nodes.now path.now text)
        → (i : ℕ) → i < length path.now → AreLedBack nodes.now c.back c.states (get_or path.now i 0) (get_or turned.items i [])) }
    ensures still { OnOk result (length path.now ≡ 0 → SameText (S.shows store.old).present (S.shows store.new).present) }
    ensures kept { Continues S.LineStore store.old store.new }
    ensures cause { StopsAtFault S.LineStore (IsErrOf result StoreErr.Failed) store.old store.new }
{
    let mut turned = Vec::with_capacity(alloc, path.len())?;
    for number in path {
        let Some(i) = find(nodes, *number) else {
            unreachable!();
        };
        let back = apply_all(alloc, store, nodes[i].entries.entries())?;
        turned.push(Entries::of(back))?;
    }
    Ok(turned)
}
