// The listing of the changes without children.
ghost use Rattle.std.specs.Prelude.{◌==◌, IfOk};
ghost use Rattle.std.specs.List.Sorted.{IsStrictlyIncreasing};
ghost use Rattle.vs_undo.specs.Numbers.{numbers};
ghost use Rattle.std.specs.List.{filter, AllZip};
ghost use Rattle.vs_undo.specs.Leaves.{AreDepths, HasDepth, IsLeaf};
ghost use Rattle.vs_undo.specs.declared.parts.Node.{Node};
ghost use Rattle.vs_undo.specs.Ways.{IsKept, IsTree};

use crate::Node;
use crate::way::find;
use std::alloc::{AllocError, Global};

/// A change without children.
#[derive(Clone, Copy, Debug, PartialEq, Eq)]
pub struct Leaf {
    pub number: u64,
    /// The number of changes on the way from the oldest state to this one, itself included.
    pub changes: u64,
    /// The save number, or 0.
    pub save: u64,
}

// The depth of a state. It climbs to the first state whose depth is known.
fn depth_of(nodes: &[Node], depths: &[u64], number: u64) -> u64
    requires rising { IsStrictlyIncreasing (numbers nodes.now) }
    requires tree { IsTree nodes.now }
    requires kept { IsKept nodes.now number }
    requires depths { AreDepths nodes.now depths.now }
    ensures { HasDepth nodes.now number result }
{
    let mut at = number;
    for passed in 0..nodes.len() {
        let Some(place) = find(nodes, at) else {
            return passed as u64;
        };
        if depths[place] != 0 {
            return passed as u64 + depths[place];
        }
        at = nodes[place].parent;
    }
    nodes.len() as u64
}

// Notes the depths of a state and of those above it, up to the first one that is known.
fn note_depths(nodes: &[Node], depths: &mut [u64], number: u64, depth: u64)
    requires rising { IsStrictlyIncreasing (numbers nodes.now) }
    requires tree { IsTree nodes.now }
    requires depth { HasDepth nodes.now number depth }
    requires depths { AreDepths nodes.now depths.old }
    ensures { AreDepths nodes.now depths.new }
{
    let mut at = number;
    for passed in 0..depth {
        let Some(place) = find(nodes, at) else {
            return;
        };
        if depths[place] != 0 {
            return;
        }
        depths[place] = depth - passed;
        at = nodes[place].parent;
    }
}

// Each change is climbed over twice at most: once for its depth, and once to note it.
pub(crate) fn leaves_of(alloc: Global, nodes: &[Node]) -> Result<Vec<Leaf>, AllocError>
    requires rising { IsStrictlyIncreasing (numbers nodes.now) }
    requires tree { IsTree nodes.now }
    ensures { IfOk result (λ leaves. AllZip (IsLeaf nodes.now) (filter (λ (node : Node). node.last_child == 0) nodes.now) leaves.items) }
{
    let mut depths = vec![in alloc; 0; nodes.len()]?;
    let mut leaves = Vec::new(alloc);
    for node in nodes {
        if node.last_child == 0 {
            let changes = depth_of(nodes, &depths, node.number);
            note_depths(nodes, &mut depths, node.number, changes);
            leaves.push(Leaf {
                number: node.number,
                changes,
                save: node.save,
            })?;
        }
    }
    Ok(leaves)
}
