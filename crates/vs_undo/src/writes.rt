// States that were written, some writes away from one.
ghost use Rattle.std.specs.Prelude.{◌≡◌, ◌≢◌, ◌==◌, ◌≤◌, List, IfOk, IfSome, MatchOption, map, not};
ghost use Rattle.std.specs.List.{filter, position};
ghost use Rattle.std.specs.List.Sorted.{IsStrictlyIncreasing};
ghost use Rattle.vs_undo.specs.Numbers.{numbers};
ghost use Rattle.vs_undo.specs.declared.parts.Node.{Node};
ghost use Rattle.vs_undo.specs.Ways.{save_at, start, IsKept};
ghost use Rattle.vs_undo.specs.Writes.{earlier_save, earlier_write, last_number, later_save, later_write, nth_save_above, nth_save_below, save_on, saver, AreInOrder};

use crate::Node;
use crate::way::find;
use std::alloc::{AllocError, Global};

fn save_at(nodes: &[Node], number: u64) -> u64
    requires { IsStrictlyIncreasing (numbers nodes.now) }
    ensures { result ≡ save_at nodes.now number }
{
    match find(nodes, number) {
        Some(i) => nodes[i].save,
        None => 0,
    }
}

// The save numbers of the changes, as the changes stand.
fn collect_saves(alloc: Global, nodes: &[Node]) -> Result<Vec<u64>, AllocError>
    ensures { IfOk result (λ saves. saves.items ≡ filter (λ save. not (save == 0)) (map (λ (node : Node). node.save) nodes.now)) }
{
    let saves = nodes.iter().map(|node| node.save);
    saves.filter(|save| *save != 0).collect(alloc)
}

/// The save numbers of the changes, in rising order.
pub(crate) fn saves_of(alloc: Global, nodes: &[Node]) -> Result<Vec<u64>, AllocError>
    ensures { IfOk result (λ saves. AreInOrder nodes.now saves.items) }
{
    let mut saves = collect_saves(alloc, nodes)?;
    saves.sort_unstable();
    saves.dedup();
    Ok(saves)
}

// Of the save numbers in order, the one that is so many places below a bound, or 0 where there are fewer.
fn nth_save_below(saves: &[u64], by: u64, bound: u64) -> u64
    ensures { (nodes : List Node) → AreInOrder nodes saves.now → result ≡ nth_save_below nodes by bound }
{
    if by == 0 {
        return bound;
    }
    let below = match saves.binary_search(&bound) {
        Ok(place) | Err(place) => place as u64,
    };
    if below < by {
        return 0;
    }
    saves[(below - by) as usize]
}

// Of the save numbers in order, the one that is so many places above a bound, or 0 where there are fewer.
fn nth_save_above(saves: &[u64], by: u64, bound: u64) -> u64
    ensures { (nodes : List Node) → AreInOrder nodes saves.now → result ≡ nth_save_above nodes by bound }
{
    if by == 0 {
        return bound;
    }
    let first = match saves.binary_search(&bound) {
        Ok(place) => place + 1,
        Err(place) => place,
    };
    if ((saves.len() - first) as u64) < by {
        return 0;
    }
    saves[first + (by - 1) as usize]
}

fn save_on(nodes: &[Node], way: &[u64]) -> u64
    requires { IsStrictlyIncreasing (numbers nodes.now) }
    ensures { result ≡ save_on nodes.now way.now }
{
    let mut best = 0;
    for number in way {
        best = best.max(save_at(nodes, *number));
    }
    best
}

fn find_save(nodes: &[Node], save: u64) -> Option<usize>
    ensures { result ≡ position (λ (node : Node). node.save == save) nodes.now }
{
    nodes.iter().position(|node| node.save == save)
}

fn saver(nodes: &[Node], save: u64) -> u64
    ensures state { result ≡ saver nodes.now save }
    ensures kept { IsKept nodes.now result }
{
    match find_save(nodes, save) {
        Some(i) => nodes[i].number,
        None => 0,
    }
}

fn start(way: &[u64]) -> u64
    ensures { result ≡ start way.now }
{
    match way {
        [] => 0,
        [number, ..] => *number,
    }
}

fn earlier_save(nodes: &[Node], saves: &[u64], way: &[u64], by: u64) -> u64
    requires rising { IsStrictlyIncreasing (numbers nodes.now) }
    requires saves { AreInOrder nodes.now saves.now }
    requires some { 1 ≤ by }
    ensures { result ≡ earlier_save nodes.now way.now by }
{
    let own = save_at(nodes, start(way));
    if own == 0 {
        nth_save_below(saves, by - 1, save_on(nodes, way))
    } else {
        nth_save_below(saves, by, own)
    }
}

fn later_save(nodes: &[Node], saves: &[u64], way: &[u64], by: u64) -> u64
    requires rising { IsStrictlyIncreasing (numbers nodes.now) }
    requires saves { AreInOrder nodes.now saves.now }
    ensures { result ≡ later_save nodes.now way.now by }
{
    let own = save_at(nodes, start(way));
    let bound = if own == 0 { save_on(nodes, way) } else { own };
    nth_save_above(saves, by, bound)
}

// The last number that is kept.
fn last_kept(nodes: &[Node]) -> u64
    ensures last { result ≡ last_number nodes.now }
    ensures kept { IsKept nodes.now result }
{
    let count = nodes.len();
    if count == 0 {
        return 0;
    }
    nodes[count - 1].number
}

/// The state that `earlier_writes` goes to, given the save numbers in order.
pub(crate) fn earlier_write(nodes: &[Node], saves: &[u64], way: &[u64], by: u64) -> Option<u64>
    requires rising { IsStrictlyIncreasing (numbers nodes.now) }
    requires saves { AreInOrder nodes.now saves.now }
    requires some { 1 ≤ by }
    ensures goal { MatchOption result ((earlier_save nodes.now way.now by ≡ 0) ×
        (start way.now ≡ 0)) (λ goal. goal ≡ earlier_write nodes.now way.now by) }
    ensures moves { IfSome result (λ goal. earlier_save nodes.now way.now by ≡ 0 → start way.now ≢ 0) }
    ensures kept { IfSome result (λ goal. IsKept nodes.now goal) }
{
    let save = earlier_save(nodes, saves, way, by);
    if save != 0 {
        return Some(saver(nodes, save));
    }
    if start(way) == 0 { None } else { Some(0) }
}

/// The state that `later_writes` goes to, given the save numbers in order.
pub(crate) fn later_write(nodes: &[Node], saves: &[u64], way: &[u64], by: u64) -> Option<u64>
    requires rising { IsStrictlyIncreasing (numbers nodes.now) }
    requires saves { AreInOrder nodes.now saves.now }
    ensures goal { MatchOption result ((later_save nodes.now way.now by ≡ 0) × (start way.now ≡ last_number nodes.now))
        (λ goal. goal ≡ later_write nodes.now way.now by) }
    ensures moves { IfSome result (λ goal. later_save nodes.now way.now by ≡ 0 → start way.now ≢ last_number nodes.now) }
    ensures kept { IfSome result (λ goal. IsKept nodes.now goal) }
{
    let save = later_save(nodes, saves, way, by);
    if save != 0 {
        return Some(saver(nodes, save));
    }
    let last = last_kept(nodes);
    if start(way) == last { None } else { Some(last) }
}
