// A store that is led over the changes of a tree, with the entries that lead it back.
ghost use Rattle.std.specs.Prelude.{◌≡◌, ◌+◌, ◌-◌, ◌<◌, ◌≤◌, ◌++◌, ◌∷◌, [], ℕ, List, Some, IfNone, IfOk, IfSome, IsTrue, OnOk, length, map, max, reverse, take};
ghost use Rattle.std.specs.List.Sorted.{IsStrictlyIncreasing};
ghost use Rattle.vs_entries.specs.Entries.{Leads};
ghost use Rattle.vs_undo.specs.Edges.{IsLed};
ghost use Rattle.vs_undo.specs.Numbers.{numbers};
ghost use Rattle.vs_outward.specs.Calls.{GoesOn};
ghost use Rattle.vs_outward.specs.Outward.{entries_at};
ghost use Rattle.vs_outward.specs.Trails.{HasBegun, IsBarredBy, IsOnTrail, IsTried, KeepsTrail};
ghost use Rattle.vs_outward.specs.declared.trail.Step.{Step};

use crate::crossing::{entries_at, try_all};
use std::alloc::Global;
use vs_edit::{LineStore, StoreErr};
use vs_undo::{Entries, Node, apply_all};

/// A change that was crossed, with the entries that lead back over it.
#[derive(Drop)]
pub(crate) struct Step {
    pub(crate) number: u64,
    pub(crate) back: Entries,
}

// Crosses a change outward, where its entries fit.
fn step_out<S: LineStore>(
    alloc: Global,
    store: &mut S,
    nodes: &[Node],
    trail: &mut Vec<Step>,
    number: u64,
) -> Result<bool, StoreErr>
    requires valid { S.valid store.old }
    requires rising { IsStrictlyIncreasing (numbers nodes.now) }
    ensures crossed { IfOk result (λ yes. IsTrue yes → (step : Step) × ((trail.new.items ≡ trail.old.items ++ step ∷ []) × (step.number ≡ number))) }
    ensures on { OnOk result (KeepsTrail S.LineStore nodes.now trail.old.items store.old trail.new.items store.new) }
    ensures same { IfOk result (λ yes. ¬ (IsTrue yes) → trail.new.items ≡ trail.old.items) }
    ensures refused { IfOk result (λ yes. ¬ (IsTrue yes) → (text to : List (List ℕ)) → (S.shows store.old).present.Is text
        → IsLed Leads (entries_at nodes.now number) text to → ⊥) }
    ensures stayed { IfOk result (λ yes. ¬ (IsTrue yes) → (text : List (List ℕ)) → (S.shows store.old).present.Is text →
        (S.shows store.new).present.Is text) }
    ensures goes_on { GoesOn S.LineStore store.old store.new result }
{
    let Some(back) = try_all(alloc, store, entries_at(nodes, number))? else {
        return Ok(false);
    };
    trail.push(Step { number, back })?;
    Ok(true)
}

// Takes the last step back.
fn step_in<S: LineStore>(
    alloc: Global,
    store: &mut S,
    nodes: &[Node],
    trail: &mut Vec<Step>,
) -> Result<(), StoreErr>
    requires valid { S.valid store.old }
    requires on { (first : S) × IsOnTrail S.LineStore nodes.now first trail.old.items store.old }
    ensures on { OnOk result (KeepsTrail S.LineStore nodes.now trail.old.items store.old trail.new.items store.new) }
    ensures less { OnOk result (trail.new.items ≡ take (length trail.old.items - 1) trail.old.items) }
    ensures goes_on { GoesOn S.LineStore store.old store.new result }
{
    if let Some(step) = trail.pop() {
        apply_all(alloc, store, step.back.entries())?;
    }
    Ok(())
}

// Takes steps back until so many are left.
fn go_in<S: LineStore>(
    alloc: Global,
    store: &mut S,
    nodes: &[Node],
    trail: &mut Vec<Step>,
    left: usize,
) -> Result<(), StoreErr>
    requires valid { S.valid store.old }
    requires some { left ≤ length trail.old.items }
    requires on { (first : S) × IsOnTrail S.LineStore nodes.now first trail.old.items store.old }
    ensures on { OnOk result (KeepsTrail S.LineStore nodes.now trail.old.items store.old trail.new.items store.new) }
    ensures less { OnOk result (trail.new.items ≡ take left trail.old.items) }
    ensures goes_on { GoesOn S.LineStore store.old store.new result }
{
    let count = trail.len() - left;
    for _ in 0..count {
        step_in(alloc, store, nodes, trail)?;
    }
    Ok(())
}

// Crosses the other changes of a path outward, as long as they fit, and gives the first that does not.
fn go_out<S: LineStore>(
    alloc: Global,
    store: &mut S,
    nodes: &[Node],
    trail: &mut Vec<Step>,
    path: &[u64],
) -> Result<Option<u64>, StoreErr>
    requires valid { S.valid store.old }
    requires rising { IsStrictlyIncreasing (numbers nodes.now) }
    requires within { length trail.old.items ≤ length path.now }
    requires begun { map (λ (step : Step). step.number) trail.old.items ≡ take (length trail.old.items) path.now }
    ensures on { OnOk result (KeepsTrail S.LineStore nodes.now trail.old.items store.old trail.new.items store.new) }
    ensures whole { IfOk result (λ o. IfNone o (map (λ (step : Step). step.number) trail.new.items ≡ path.now)) }
    ensures barred { IfOk result (λ o. IfSome o (λ number. (after : List ℕ)
        × (path.now ≡ map (λ (step : Step). step.number) trail.new.items ++ number ∷ after))) }
    ensures refused { IfOk result (λ o. IfSome o (λ number. (text to : List (List ℕ)) → (S.shows store.new).present.Is text
        → IsLed Leads (entries_at nodes.now number) text to → ⊥)) }
    ensures goes_on { GoesOn S.LineStore store.old store.new result }
{
    for k in trail.len()..path.len() {
        if !step_out(alloc, store, nodes, trail, path[k])? {
            return Ok(Some(path[k]));
        }
    }
    Ok(None)
}

/// Leads a store over the changes of a path, as long as they fit, and gives the first that does not. So many steps of the trail stay, which
/// are those with which the path begins.
///
/// After an `Err` the store may be anywhere; the committed text is as before. [`StoreErr::Failed`] comes only from the store.
pub(crate) fn walk<S: LineStore>(
    alloc: Global,
    store: &mut S,
    nodes: &[Node],
    trail: &mut Vec<Step>,
    path: &[u64],
    kept: usize,
) -> Result<Option<u64>, StoreErr>
    requires valid { S.valid store.old }
    requires rising { IsStrictlyIncreasing (numbers nodes.now) }
    requires kept { kept ≤ length trail.old.items }
    requires within { kept ≤ length path.now }
    requires begins { map (λ (step : Step). step.number) (take kept trail.old.items) ≡ take kept path.now }
    requires on { (first : S) × IsOnTrail S.LineStore nodes.now first trail.old.items store.old }
    ensures on { OnOk result (KeepsTrail S.LineStore nodes.now trail.old.items store.old trail.new.items store.new) }
    ensures begun { OnOk result (HasBegun trail.new.items path.now) }
    ensures whole { IfOk result (λ o. IfNone o (length trail.new.items ≡ length path.now)) }
    ensures tried { IfOk result (λ o. (first : S) → IsOnTrail S.LineStore nodes.now first trail.old.items store.old
        → IsTried S.LineStore nodes.now first o (reverse path.now)) }
    ensures barred { IfOk result (λ o. IfSome o (λ number. (first : S) → IsOnTrail S.LineStore nodes.now first trail.old.items store.old
        → (text : List (List ℕ)) → (S.shows first).present.Is text → IsBarredBy nodes.now (reverse (take (length trail.new.items + 1) path.now)) text number)) }
    ensures goes_on { GoesOn S.LineStore store.old store.new result }
{
    go_in(alloc, store, nodes, trail, kept)?;
    go_out(alloc, store, nodes, trail, path)
}
