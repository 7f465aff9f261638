// Ways through the tree.
ghost use Rattle.std.specs.Prelude.{◌≡◌, ◌≢◌, ◌==◌, ◌-◌, ◌<◌, ◌≤◌, ◌↔◌, ℕ, List, IsTrue, IfOk, length, drop, get_or};
ghost use Rattle.std.specs.List.{position};
ghost use Rattle.vs_undo.specs.Ways.{parent_at, IsBetween, IsKept, IsTree, IsWayOf};
ghost use Rattle.std.specs.List.Sorted.{IsStrictlyIncreasing};
ghost use Rattle.vs_undo.specs.Numbers.{numbers};
ghost use Rattle.vs_undo.specs.Sound.{child_of};
ghost use Rattle.vs_undo.specs.declared.parts.Node.{Node};

use crate::{Node, Parts};
use std::alloc::{AllocError, Global};

// The place of the change with this number among changes where some number is left out.
fn search(nodes: &[Node], number: u64) -> Option<usize>
    requires { IsStrictlyIncreasing (numbers nodes.now) }
    ensures { result ≡ position (λ (node : Node). node.number == number) nodes.now }
{
    nodes.binary_search_by_key(&number, |node| node.number).ok()
}

fn first_number(nodes: &[Node]) -> u64 {
    if nodes.is_empty() {
        return 1;
    }
    nodes[0].number
}

/// The place of the change with this number: at once as long as no number is left out, and else in logarithmic time.
pub fn find(nodes: &[Node], number: u64) -> Option<usize>
    requires { IsStrictlyIncreasing (numbers nodes.now) }
    ensures { result ≡ position (λ (node : Node). node.number == number) nodes.now }
{
    let place = number.wrapping_sub(first_number(nodes)) as usize;
    if place < nodes.len() && nodes[place].number == number {
        return Some(place);
    }
    search(nodes, number)
}

/// Whether a state has this number.
pub(crate) fn is_kept(nodes: &[Node], number: u64) -> bool
    requires { IsStrictlyIncreasing (numbers nodes.now) }
    ensures { IsTrue result ↔ IsKept nodes.now number }
{
    number == 0 || find(nodes, number).is_some()
}

/// The parent of a change.
pub(crate) fn parent(nodes: &[Node], number: u64) -> Option<u64>
    requires { IsStrictlyIncreasing (numbers nodes.now) }
    ensures { result ≡ parent_at nodes.now number }
{
    match find(nodes, number) {
        Some(i) => Some(nodes[i].parent),
        None => None,
    }
}

/// The child last used of a state, or 0.
pub fn last_child(parts: &Parts, number: u64) -> u64
    requires { IsStrictlyIncreasing (numbers parts.now.nodes) }
    ensures { result ≡ child_of parts.now number }
{
    if number == 0 {
        return parts.root_child;
    }
    let nodes = parts.nodes.nodes();
    match find(nodes, number) {
        Some(i) => nodes[i].last_child,
        None => 0,
    }
}

/// The way from a state up to the root.
pub fn way_of(alloc: Global, nodes: &[Node], number: u64) -> Result<Vec<u64>, AllocError>
    requires rising { IsStrictlyIncreasing (numbers nodes.now) }
    requires tree { IsTree nodes.now }
    requires kept { IsKept nodes.now number }
    ensures { IfOk result (λ way. IsWayOf nodes.now number way.items) }
{
    let mut way = Vec::new(alloc);
    let mut at = number;
    for _ in 0..nodes.len() {
        let Some(i) = find(nodes, at) else {
            return Ok(way);
        };
        way.push(at)?;
        at = nodes[i].parent;
    }
    Ok(way)
}

// How many states the ends of two ways share.
fn shared_end(from: &[u64], to: &[u64]) -> usize
    ensures within { (result ≤ length from.now) × (result ≤ length to.now) }
    ensures same { drop (length from.now - result) from.now ≡ drop (length to.now - result) to.now }
    ensures differ { result < length from.now → result < length to.now
        → get_or from.now (length from.now - 1 - result) 0 ≢ get_or to.now (length to.now - 1 - result) 0 }
{
    let most = from.len().min(to.len());
    for k in 0..most {
        if from[from.len() - 1 - k] != to[to.len() - 1 - k] {
            return k;
        }
    }
    most
}

/// The changes above which a move between two states crosses an edge, given the ways of both: up to the last state that the ways
/// share, and down from there.
pub fn path_between(alloc: Global, from: &[u64], to: &[u64]) -> Result<Vec<u64>, AllocError>
    ensures { IfOk result (λ path. IsBetween from.now to.now path.items) }
{
    let shared = shared_end(from, to);
    let mut path = Vec::from_slice(alloc, &from[..from.len() - shared])?;
    let mut down = Vec::from_slice(alloc, &to[..to.len() - shared])?;
    down.reverse();
    path.append(&mut down)?;
    Ok(path)
}
