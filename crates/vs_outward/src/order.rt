// In which order the states of a tree are visited: each one comes before those that follow from it, which stand together.
ghost use Rattle.std.specs.Prelude.{◌≡◌, ◌+◌, ◌<◌, ℕ, All, Contains, IfOk, length};
ghost use Rattle.std.specs.List.Sorted.{IsStrictlyIncreasing};
ghost use Rattle.vs_undo.specs.Numbers.{numbers};

use std::alloc::{AllocError, Global};
use vs_undo::{Node, find};

// The place that follows each place, and the root, which has the place past the last change: each change follows its parent, and was
// put between it and what followed it before.
fn following(alloc: Global, nodes: &[Node]) -> Result<Vec<usize>, AllocError>
    requires { IsStrictlyIncreasing (numbers nodes.now) }
    ensures { IfOk result (λ following. length following.items ≡ length nodes.now + 1) }
{
    let root = nodes.len();
    let mut following = vec![in alloc; root; root + 1]?;
    'nodes: for i in 0..nodes.len() {
        let parent = find(nodes, nodes[i].parent).unwrap_or(root);
        following[i] = following[parent];
        following[parent] = i;
    }
    Ok(following)
}

// How many places come before each one, and before the root, which is the first.
fn ranks(alloc: Global, following: &[usize]) -> Result<Vec<usize>, AllocError>
    ensures { IfOk result (λ ranks. length ranks.items ≡ length following.now) }
{
    let count = following.len();
    let mut ranks = vec![in alloc; 0; count]?;
    let mut at = count.saturating_sub(1);
    'passed: for passed in 0..count {
        if at < ranks.len() {
            ranks[at] = passed;
            at = following[at];
        }
    }
    Ok(ranks)
}

// The places of all changes.
fn places(alloc: Global, count: usize) -> Result<Vec<usize>, AllocError>
    ensures within { IfOk result (λ places. All (λ place. place < count) places.items) }
    ensures each { IfOk result (λ places. (place : ℕ) → place < count → Contains places.items place) }
{
    let mut places = Vec::with_capacity(alloc, count)?;
    'places: for place in 0..count {
        places.push(place)?;
    }
    Ok(places)
}

/// The places of all changes, where those of the changes that follow from one change stand together, after it: a store that is led from
/// state to state in this order crosses no change that fits more than twice each way. The order is not told, since no answer rests on it.
pub(crate) fn visits(alloc: Global, nodes: &[Node]) -> Result<Vec<usize>, AllocError>
    requires { IsStrictlyIncreasing (numbers nodes.now) }
    ensures within { IfOk result (λ visits. All (λ place. place < length nodes.now) visits.items) }
    ensures each { IfOk result (λ visits. (place : ℕ) → place < length nodes.now → Contains visits.items place) }
{
    let ranks = ranks(alloc, &following(alloc, nodes)?)?;
    let mut visits = places(alloc, nodes.len())?;
    visits.sort_unstable_by_key(|place| ranks.get(*place).copied().unwrap_or(0));
    Ok(visits)
}
