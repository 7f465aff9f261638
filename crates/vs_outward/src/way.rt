// The way of the current state, and which states lie on it.
ghost use Rattle.std.specs.Prelude.{◌≡◌, ◌≢◌, ◌==◌, ◌≤◌, ℕ, false, None, Some, IfNone, IfOk, IfSome, drop, length, slice_set};
ghost use Rattle.std.specs.List.{position};
ghost use Rattle.std.specs.List.Sorted.{IsStrictlyIncreasing};
ghost use Rattle.vs_undo.specs.Numbers.{numbers};
ghost use Rattle.vs_undo.specs.Sound.{IsSound};
ghost use Rattle.vs_undo.specs.Ways.{is_on, IsKept, IsWayOf, start};
ghost use Rattle.vs_undo.specs.declared.parts.Node.{Node};
ghost use Rattle.vs_outward.specs.Trails.{AreCounts};

use std::alloc::{AllocError, Global};
use vs_undo::{Node, Parts, find, way_of};

/// The way of the current state.
#[derive(Drop)]
pub(crate) struct Way {
    /// Its changes, from the current state up.
    pub(crate) changes: Vec<u64>,
    /// At the place of each change: how many changes of the way begin with that one or come before it, or 0 where it lies elsewhere.
    pub(crate) counts: Vec<usize>,
}

// Notes a count at the place of the change with this number.
fn note(nodes: &[Node], counts: &mut Vec<usize>, number: u64, count: usize)
    requires rising { IsStrictlyIncreasing (numbers nodes.now) }
    requires count { length counts.old.items ≡ length nodes.now }
    ensures none { position (λ (node : Node). node.number == number) nodes.now ≡ None → counts.new.items ≡ counts.old.items }
    ensures some { (place : ℕ) → position (λ (node : Node). node.number == number) nodes.now ≡ Some place
        → counts.new.items ≡ slice_set counts.old.items place count }
{
    if let Some(place) = find(nodes, number) {
        counts[place] = count;
    }
}

// The counts of the changes on a way.
fn counts_on(alloc: Global, nodes: &[Node], changes: &[u64]) -> Result<Vec<usize>, AllocError>
    requires { IsStrictlyIncreasing (numbers nodes.now) }
    ensures { IfOk result (λ counts. AreCounts nodes.now changes.now counts.items) }
{
    let mut counts = vec![in alloc; 0; nodes.len()]?;
    for k in 0..changes.len() {
        note(nodes, &mut counts, changes[k], k + 1);
    }
    Ok(counts)
}

impl Way {
    /// The way of the current state of a tree.
    pub(crate) fn of(alloc: Global, parts: &Parts) -> Result<Way, AllocError>
        requires { IsSound parts.now }
        ensures is_way { IfOk result (λ way. IsWayOf parts.now.nodes parts.now.current way.changes.items) }
        ensures counts { IfOk result (λ way. AreCounts parts.now.nodes way.changes.items way.counts.items) }
    {
        let nodes = parts.nodes.nodes();
        let changes = way_of(alloc, nodes, parts.current)?;
        let counts = counts_on(alloc, nodes, &changes)?;
        Ok(Way { changes, counts })
    }

    /// How many changes lead from the current state up to this one, where it lies on the way.
    pub(crate) fn count_to(&self, nodes: &[Node], number: u64) -> Option<usize>
        requires rising { IsStrictlyIncreasing (numbers nodes.now) }
        requires counts { AreCounts nodes.now self.now.changes.items self.now.counts.items }
        requires kept { IsKept nodes.now number }
        ensures on { IfSome result (λ count. (count ≤ length self.now.changes.items) × (start (drop count self.now.changes.items) ≡ number)) }
        ensures off { IfNone result ((number ≢ 0) × (is_on self.now.changes.items number ≡ false)) }
    {
        if number == 0 {
            return Some(self.changes.len());
        }
        let place = find(nodes, number)?;
        match self.counts[place] {
            0 => None,
            count => Some(count - 1),
        }
    }
}
