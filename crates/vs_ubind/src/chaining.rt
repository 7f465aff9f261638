// The neighbours of each change in the chain of its parent. The changes are passed by number, and of each state the child that was
// passed last is kept.
ghost use Rattle.std.specs.Prelude.{◌≡◌, ◌==◌, if◌then◌else◌, ℕ, IfOk, OnOk, map, unwrap_or};
ghost use Rattle.std.specs.BTreeMap.{get};
ghost use Rattle.std.specs.List.Sorted.{IsStrictlyIncreasing};
ghost use Rattle.std.specs.Ordering.{nat_cmp};
ghost use Rattle.vs_undo.specs.Numbers.{numbers};
ghost use Rattle.vs_undo.specs.Sound.{child_of};
ghost use Rattle.vs_ubind.specs.Passing.{alt_next_of, alt_prev_of, is_other, AreFirst, AreLast};

use std::alloc::{AllocError, Global};
use std::collections::BTreeMap;
use vs_undo::{Node, Parts, last_child};

// Passes a change: the child last used is not kept.
fn pass(parts: &Parts, passed: &mut BTreeMap<u64, u64>, node: &Node) -> Result<(), AllocError>
    requires { IsStrictlyIncreasing (numbers parts.now.nodes) }
    ensures { OnOk result ((state none : ℕ) → unwrap_or (get nat_cmp passed.new state) none
        ≡ (if is_other parts.now state node.now then node.now.number else unwrap_or (get nat_cmp passed.old state) none)) }
{
    if node.number == last_child(parts, node.parent) {
        return Ok(());
    }
    passed.insert(node.parent, node.number)?;
    Ok(())
}

// The child of a state that was passed last, or this one.
fn passed_of(passed: &BTreeMap<u64, u64>, state: u64, none: u64) -> u64
    ensures { result ≡ unwrap_or (get nat_cmp passed.now state) none }
{
    passed.get(&state).copied().unwrap_or(none)
}

// Of each state the greatest child but the one last used.
fn greatest_of(alloc: Global, parts: &Parts) -> Result<BTreeMap<u64, u64>, AllocError>
    requires { IsStrictlyIncreasing (numbers parts.now.nodes) }
    ensures { IfOk result (λ greatest. AreLast parts.now parts.now.nodes greatest) }
{
    let mut passed = BTreeMap::new(alloc);
    'nodes: for node in parts.nodes.nodes() {
        pass(parts, &mut passed, node)?;
    }
    Ok(passed)
}

// The change after this one in its chain: the greatest of the others after the child last used, and else the one that was passed last.
fn alt_next_of(
    parts: &Parts,
    greatest: &BTreeMap<u64, u64>,
    passed: &BTreeMap<u64, u64>,
    node: &Node,
) -> u64
    requires { IsStrictlyIncreasing (numbers parts.now.nodes) }
    ensures { result ≡ (if node.now.number == child_of parts.now node.now.parent then unwrap_or (get nat_cmp greatest.now node.now.parent) 0
        else unwrap_or (get nat_cmp passed.now node.now.parent) 0) }
{
    if node.number == last_child(parts, node.parent) {
        passed_of(greatest, node.parent, 0)
    } else {
        passed_of(passed, node.parent, 0)
    }
}

// The change before this one in its chain, where those with greater numbers were passed: the least of them, or the child last used.
fn alt_prev_of(parts: &Parts, passed: &BTreeMap<u64, u64>, node: &Node) -> u64
    requires { IsStrictlyIncreasing (numbers parts.now.nodes) }
    ensures { result ≡ (if node.now.number == child_of parts.now node.now.parent then 0
        else unwrap_or (get nat_cmp passed.now node.now.parent) (child_of parts.now node.now.parent)) }
{
    let first = last_child(parts, node.parent);
    if node.number == first {
        0
    } else {
        passed_of(passed, node.parent, first)
    }
}

/// The change after each one in the chain of its parent, or 0.
pub(crate) fn alt_nexts(alloc: Global, parts: &Parts) -> Result<Vec<u64>, AllocError>
    requires { IsStrictlyIncreasing (numbers parts.now.nodes) }
    ensures { IfOk result (λ nexts. nexts.items ≡ map (alt_next_of parts.now) parts.now.nodes) }
{
    let greatest = greatest_of(alloc, parts)?;
    let nodes = parts.nodes.nodes();
    let mut passed = BTreeMap::new(alloc);
    let mut nexts = Vec::with_capacity(alloc, nodes.len())?;
    'nodes: for node in nodes {
        nexts.push(alt_next_of(parts, &greatest, &passed, node))?;
        pass(parts, &mut passed, node)?;
    }
    Ok(nexts)
}

/// The change before each one in the chain of its parent, or 0.
pub(crate) fn alt_prevs(alloc: Global, parts: &Parts) -> Result<Vec<u64>, AllocError>
    requires { IsStrictlyIncreasing (numbers parts.now.nodes) }
    ensures { IfOk result (λ prevs. prevs.items ≡ map (alt_prev_of parts.now) parts.now.nodes) }
{
    let nodes = parts.nodes.nodes();
    let mut passed = BTreeMap::new(alloc);
    let mut prevs = Vec::with_capacity(alloc, nodes.len())?;
    'places: for done in 0..nodes.len() {
        let node = &nodes[nodes.len() - 1 - done];
        prevs.push(alt_prev_of(parts, &passed, node))?;
        pass(parts, &mut passed, node)?;
    }
    prevs.reverse();
    Ok(prevs)
}
