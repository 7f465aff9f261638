// How the path to a state goes on from the one before.
ghost use Rattle.std.specs.Prelude.{◌≡◌, ◌++◌, ◌∷◌, ◌-◌, ◌≤◌, ◌<◌, ℕ, [], false, IfOk, IsTrue, get_or, length, min, reverse, take};
ghost use Rattle.vs_undo.specs.Sound.{IsSound};
ghost use Rattle.vs_undo.specs.Ways.{is_on, IsKept, IsWayOf};
ghost use Rattle.vs_undo.specs.declared.parts.Node.{Node};
ghost use Rattle.vs_outward.specs.Outward.{IsOutward};
ghost use Rattle.vs_outward.specs.Trails.{AreCounts, IsPath, IsTurn, Shares};

use crate::fitting::Search;
use crate::way::Way;
use std::alloc::{AllocError, Global};
use vs_undo::{Parts, find, path_between, way_of};

/// So many changes of a path stay, and more follow; the new path begins with so many changes of the way.
#[derive(Drop)]
pub(crate) struct Turn {
    pub(crate) kept: usize,
    pub(crate) more: Vec<u64>,
    pub(crate) on_way: usize,
}

// The path to a state whose parent lies on the way, over so many changes of it.
fn from_way(
    alloc: Global,
    way: &[u64],
    path: &[u64],
    on_way: usize,
    count: usize,
    number: u64,
) -> Result<Turn, AllocError>
    requires count { count ≤ length way.now }
    requires shares { Shares on_way path.now way.now }
    ensures kept { IfOk result (λ turn. turn.kept ≤ length path.now) }
    ensures path { IfOk result (λ turn. take turn.kept path.now ++ turn.more.items ≡ take count way.now ++ number ∷ []) }
    ensures on_way { IfOk result (λ turn. turn.on_way ≡ count) }
{
    let kept = on_way.min(count);
    let mut more = Vec::from_slice(alloc, &way[kept..count])?;
    more.push(number)?;
    Ok(Turn {
        kept,
        more,
        on_way: count,
    })
}

/// The path over the whole way, to the root, where there was none before.
pub(crate) fn to_root(alloc: Global, way: &[u64]) -> Result<Turn, AllocError>
    ensures kept { IfOk result (λ turn. turn.kept ≡ 0) }
    ensures more { IfOk result (λ turn. turn.more.items ≡ way.now) }
    ensures on_way { IfOk result (λ turn. turn.on_way ≡ length way.now) }
{
    Ok(Turn {
        kept: 0,
        more: Vec::from_slice(alloc, way)?,
        on_way: way.len(),
    })
}

// Whether the path leads over so many changes to this one.
fn is_at(path: &[u64], depth: usize, number: u64) -> bool
    ensures { IsTrue result → (0 < depth) × (depth ≤ length path.now) × (get_or path.now (depth - 1) 0 ≡ number) }
{
    0 < depth && depth <= path.len() && path[depth - 1] == number
}

// The path goes on by one change, after so many of it.
fn one_on(alloc: Global, depth: usize, on_way: usize, number: u64) -> Result<Turn, AllocError>
    ensures kept { IfOk result (λ turn. turn.kept ≡ depth) }
    ensures more { IfOk result (λ turn. turn.more.items ≡ number ∷ []) }
    ensures on_way { IfOk result (λ turn. turn.on_way ≡ min on_way depth) }
{
    let more = vec![in alloc; number]?;
    Ok(Turn {
        kept: depth,
        more,
        on_way: on_way.min(depth),
    })
}

// The path to a state, as one that shares nothing with the path before.
fn from_start(alloc: Global, parts: &Parts, way: &[u64], number: u64) -> Result<Turn, AllocError>
    requires sound { IsSound parts.now }
    requires way { IsWayOf parts.now.nodes parts.now.current way.now }
    requires kept { IsKept parts.now.nodes number }
    ensures kept { IfOk result (λ turn. turn.kept ≡ 0) }
    ensures outward { IfOk result (λ turn. IsOutward parts.now (reverse turn.more.items) number) }
    ensures on_way { IfOk result (λ turn. turn.on_way ≡ 0) }
{
    let to = way_of(alloc, parts.nodes.nodes(), number)?;
    let more = path_between(alloc, way, &to)?;
    Ok(Turn {
        kept: 0,
        more,
        on_way: 0,
    })
}

/// How the path goes on to a state that does not lie on the way of the current one. Where the path leads to its parent, as it does where
/// the parent was the last state that was visited before, or one above that, no more is done than to cut it there.
pub(crate) fn turn_to(
    alloc: Global,
    parts: &Parts,
    way: &Way,
    search: &Search,
    place: usize,
) -> Result<Turn, AllocError>
    requires sound { IsSound parts.now }
    requires way { IsWayOf parts.now.nodes parts.now.current way.now.changes.items }
    requires counts { AreCounts parts.now.nodes way.now.changes.items way.now.counts.items }
    requires within { place < length parts.now.nodes }
    requires off { (node : Node) → is_on way.now.changes.items (get_or parts.now.nodes place node).number ≡ false }
    requires path { IsPath parts.now way.now.changes.items search.now }
    ensures { IfOk result (λ turn. (node : Node)
        → IsTurn parts.now way.now.changes.items search.now.path.items (get_or parts.now.nodes place node).number turn) }
{
    let nodes = parts.nodes.nodes();
    let node = &nodes[place];
    let (number, parent) = (node.number, node.parent);
    if let Some(count) = way.count_to(nodes, parent) {
        return from_way(
            alloc,
            &way.changes,
            &search.path,
            search.on_way,
            count,
            number,
        );
    }
    let depth = find(nodes, parent).map_or(0, |at| search.depths.get(at).copied().unwrap_or(0));
    if is_at(&search.path, depth, parent) {
        return one_on(alloc, depth, search.on_way, number);
    }
    from_start(alloc, parts, &way.changes, number)
}
