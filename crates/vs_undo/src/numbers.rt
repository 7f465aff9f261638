// Kept numbers some places away from one.
ghost use Rattle.std.specs.Prelude.{◌≡◌, ◌<◌, ◌≤◌, length, get_or, IfSome, MatchOption};
ghost use Rattle.std.specs.List.Sorted.{IsStrictlyIncreasing};
ghost use Rattle.vs_undo.specs.Numbers.{above, below, nth_above, nth_below, numbers};
ghost use Rattle.vs_undo.specs.Ways.{IsKept};

use crate::Node;
use crate::way::find;

// The place of a kept number among all.
fn place(nodes: &[Node], number: u64) -> usize
    requires kept { IsKept nodes.now number }
    requires rising { IsStrictlyIncreasing (numbers nodes.now) }
    ensures within { result ≤ length nodes.now }
    ensures here { get_or (numbers nodes.now) result 0 ≡ number }
{
    match find(nodes, number) {
        Some(i) => i + 1,
        None => 0,
    }
}

/// The number that `earlier` goes to.
pub(crate) fn earlier_goal(nodes: &[Node], number: u64, by: u64) -> Option<u64>
    requires kept { IsKept nodes.now number }
    requires rising { IsStrictlyIncreasing (numbers nodes.now) }
    requires some { 1 ≤ by }
    ensures kept { IfSome result (λ goal. IsKept nodes.now goal) }
    ensures goal { MatchOption result (length (below nodes.now number) ≡ 0)
        (λ goal. (0 < length (below nodes.now number)) × (goal ≡ nth_below nodes.now number by)) }
{
    let at = place(nodes, number);
    if at == 0 {
        return None;
    }
    if by >= at as u64 {
        return Some(0);
    }
    Some(nodes[at - by as usize - 1].number)
}

/// The number that `later` goes to.
pub(crate) fn later_goal(nodes: &[Node], number: u64, by: u64) -> Option<u64>
    requires kept { IsKept nodes.now number }
    requires rising { IsStrictlyIncreasing (numbers nodes.now) }
    requires some { 1 ≤ by }
    ensures kept { IfSome result (λ goal. IsKept nodes.now goal) }
    ensures goal { MatchOption result (length (above nodes.now number) ≡ 0)
        (λ goal. (0 < length (above nodes.now number)) × (goal ≡ nth_above nodes.now number by)) }
{
    let at = place(nodes, number);
    let left = nodes.len() - at;
    if left == 0 {
        return None;
    }
    let step = by.min(left as u64) as usize;
    Some(nodes[at + step - 1].number)
}
