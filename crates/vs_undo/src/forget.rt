// The oldest states are forgotten. That takes no memory.
ghost use Rattle.std.specs.Prelude.{◌≡◌, ◌≢◌, ◌==◌, ◌≤◌, ◌↔◌, ℕ, IsTrue, Some, map, not};
ghost use Rattle.std.specs.List.{filter, position};
ghost use Rattle.std.specs.List.Sorted.{IsStrictlyIncreasing};
ghost use Rattle.vs_undo.specs.Forgetting.{forgotten, forgotten_once, oldest_child, promoted, promoted_root, raised, top_of, IsFresh, Remainder};
ghost use Rattle.vs_undo.specs.Beside.{at_root};
ghost use Rattle.vs_undo.specs.Forks.{IsStraightBelow};
ghost use Rattle.vs_undo.specs.History.{changed};
ghost use Rattle.vs_undo.specs.Meetings.{IsSettled};
ghost use Rattle.vs_undo.specs.Sound.{IsSound};
ghost use Rattle.vs_undo.specs.Numbers.{numbers};
ghost use Rattle.vs_undo.specs.Ways.{parent_at, way_of, IsKept, IsTree};
ghost use Rattle.vs_undo.specs.declared.parts.Node.{Node};

use crate::beside::{drop_beside, has_other_child};
use crate::forks::{fork_from, fork_promoted};
use crate::way::{find, last_child, parent};
use crate::{Node, Nodes, Parts};

// The last change on the way from a change up to the oldest state.
fn top_of(nodes: &[Node], number: u64) -> u64
    requires rising { IsStrictlyIncreasing (numbers nodes.now) }
    requires tree { IsTree nodes.now }
    requires kept { IsKept nodes.now number }
    ensures { result ≡ top_of (way_of nodes.now number) }
{
    let mut at = number;
    let mut above = parent(nodes, at).unwrap_or(0);
    'climb: while above != 0 {
        at = above;
        above = parent(nodes, at).unwrap_or(0);
    }
    at
}

fn raise_one(node: &mut Node, child: u64)
    ensures { node.new ≡ raised child node.old }
{
    if node.parent == child {
        node.parent = 0;
    }
}

fn raise(nodes: &mut Nodes, child: u64)
    ensures { nodes.new ≡ map (raised child) nodes.old }
{
    for place in 0..nodes.nodes().len() {
        raise_one(nodes.node_mut(place), child);
    }
}

// Takes out the change with this number.
fn take_out(nodes: &mut Nodes, number: u64)
    requires { IsStrictlyIncreasing (numbers nodes.old) }
    ensures { nodes.new ≡ filter (λ (node : Node). not (node.number == number)) nodes.old }
{
    if let Some(i) = find(nodes.nodes(), number) {
        nodes.remove(i);
    }
}

// Makes a child of the oldest state the oldest, and its children those of the oldest.
fn take_up(nodes: &mut Nodes, child: u64)
    requires { IsStrictlyIncreasing (numbers nodes.old) }
    ensures { nodes.new ≡ map (raised child) (filter (λ (node : Node). not (node.number == child)) nodes.old) }
{
    take_out(nodes, child);
    raise(nodes, child);
}

fn set_at_root(nodes: &mut Nodes, number: u64)
    requires { IsStrictlyIncreasing (numbers nodes.old) }
    ensures { nodes.new ≡ changed number at_root nodes.old }
{
    if let Some(i) = find(nodes.nodes(), number) {
        nodes.node_mut(i).parent = 0;
    }
}

fn is_first(nodes: &[Node], number: u64) -> bool
    requires { IsStrictlyIncreasing (numbers nodes.now) }
    ensures { IsTrue result → position (λ (node : Node). node.number == number) nodes.now ≡ Some 0 }
{
    matches!(find(nodes, number), Some(0))
}

// The same of the first change, where it has one child at most.
fn take_first(nodes: &mut Nodes, child: u64, grandchild: u64)
    requires tree { IsTree nodes.old }
    requires rising { IsStrictlyIncreasing (numbers nodes.old) }
    requires first { position (λ (node : Node). node.number == child) nodes.old ≡ Some 0 }
    requires only { (k : ℕ) → (parent_at nodes.old k ≡ Some child) ↔ ((grandchild ≢ 0) × (k ≡ grandchild)) }
    ensures { nodes.new ≡ map (raised child) (filter (λ (node : Node). not (node.number == child)) nodes.old) }
{
    nodes.drop_first();
    set_at_root(nodes, grandchild);
}

// Makes a child of the oldest state the oldest.
fn promote(parts: &mut Parts, child: u64, fork: u64)
    requires sound { IsSound parts.old }
    requires straight { IsStraightBelow fork parts.old.nodes }
    ensures { parts.new ≡ promoted child parts.old }
{
    let grandchild = last_child(parts, child);
    parts.root_child = grandchild;
    if child < fork && is_first(parts.nodes.nodes(), child) {
        take_first(&mut parts.nodes, child, grandchild);
    } else {
        take_up(&mut parts.nodes, child);
    }
}

// The child of the oldest state on the way of the current one. In a settled tree it is the child last used.
fn oldest_child(parts: &Parts, settled: bool) -> u64
    requires fresh { IsFresh parts.now }
    requires settled { IsTrue settled → IsSettled parts.now }
    ensures { result ≡ oldest_child parts.now }
{
    if settled {
        return parts.root_child;
    }
    top_of(parts.nodes.nodes(), parts.current)
}

// Makes one forgetting step, and gives the number that the oldest state had at first.
fn forget_once(parts: &mut Parts, root: u64, settled: bool, fork: &mut u64) -> u64
    requires fresh { IsFresh parts.old }
    requires settled { IsTrue settled → IsSettled parts.old }
    requires straight { IsStraightBelow fork.old parts.old.nodes }
    ensures left { forgotten_once (record { tree = parts.old; root = root }) ≡ record { tree = parts.new; root = result } }
    ensures straight { IsStraightBelow fork.new parts.new.nodes }
{
    let child = oldest_child(parts, settled);
    *fork = fork_from(parts, *fork);
    if has_other_child(parts.nodes.nodes(), child, *fork) {
        drop_beside(&mut parts.nodes, child);
        parts.root_child = child;
        return root;
    }
    promote(parts, child, *fork);
    *fork = fork_promoted(child, *fork);
    child
}

/// Forgets states while more changes are kept than this, and gives the number that the state 0 had before.
pub(crate) fn forget(parts: &mut Parts, levels: u64, settled: bool, fork: &mut u64) -> u64
    requires fresh { IsFresh parts.old }
    requires settled { IsTrue settled → IsSettled parts.old }
    requires straight { IsStraightBelow fork.old parts.old.nodes }
    requires some { 1 ≤ levels }
    ensures left { forgotten levels parts.old ≡ record { tree = parts.new; root = result } }
    ensures straight { IsStraightBelow fork.new parts.new.nodes }
{
    let mut root = 0;
    'forget: while parts.nodes.nodes().len() as u64 > levels {
        root = forget_once(parts, root, settled, fork);
    }
    root
}

/// The number of a state that was promoted, or none for 0.
pub(crate) fn promoted_root(root: u64) -> Option<u64>
    ensures { result ≡ promoted_root root }
{
    if root == 0 {
        return None;
    }
    Some(root)
}
