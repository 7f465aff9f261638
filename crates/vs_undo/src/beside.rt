// Changes that lie beside the way of the current state. They go without taking memory.
ghost use Rattle.std.specs.Prelude.{◌≡◌, ◌<◌, ◌≤◌, List, Some, false, get_or, length, true};
ghost use Rattle.std.specs.List.Sorted.{IsStrictlyIncreasing};
ghost use Rattle.vs_undo.specs.Beside.{at_root, deeper, is_beside, IsFlat, IsFlatter};
ghost use Rattle.vs_undo.specs.Forks.{IsStraightBelow};
ghost use Rattle.vs_undo.specs.Forgetting.{has_other_child, nodes_through};
ghost use Rattle.vs_undo.specs.History.{changed};
ghost use Rattle.vs_undo.specs.Numbers.{numbers};
ghost use Rattle.vs_undo.specs.Ways.{parent_at, IsTree};
ghost use Rattle.vs_undo.specs.declared.parts.Node.{Node};

use crate::way::parent;
use crate::{Node, Nodes};

/// Whether the oldest state has a child other than this one. The first state that may have several children is given.
pub(crate) fn has_other_child(nodes: &[Node], child: u64, fork: u64) -> bool
    requires rising { IsStrictlyIncreasing (numbers nodes.now) }
    requires child { parent_at nodes.now child ≡ Some 0 }
    requires straight { IsStraightBelow fork nodes.now }
    ensures { result ≡ has_other_child child nodes.now }
{
    fork == 0
        && nodes
            .iter()
            .any(|node| node.parent == 0 && node.number != child)
}

fn is_beside(nodes: &[Node], number: u64, child: u64) -> bool
    requires { IsStrictlyIncreasing (numbers nodes.now) }
    ensures { result ≡ is_beside child nodes.now number }
{
    number != child && parent(nodes, number).unwrap_or(1) == 0
}

// Makes a change whose parent is another child of the oldest state a child of the oldest state, and tells whether it was one.
fn bring_up(nodes: &mut Nodes, place: usize, child: u64) -> bool
    requires rising { IsStrictlyIncreasing (numbers nodes.old) }
    requires within { place < length nodes.old }
    ensures up { result ≡ true → (d : Node) → nodes.new ≡ changed (get_or nodes.old place d).number at_root nodes.old }
    ensures stays { result ≡ false → nodes.new ≡ nodes.old }
    ensures beside { (d : Node) → result ≡ is_beside child nodes.old (get_or nodes.old place d).parent }
{
    let list = nodes.nodes();
    if !is_beside(list, list[place].parent, child) {
        return false;
    }
    nodes.node_mut(place).parent = 0;
    true
}

// Brings up all such changes, and tells whether there was one.
fn flatten(nodes: &mut Nodes, child: u64) -> bool
    requires rising { IsStrictlyIncreasing (numbers nodes.old) }
    ensures flatter { (first : List Node) → IsFlatter child first nodes.old → IsFlatter child first nodes.new }
    ensures rising { IsStrictlyIncreasing (numbers nodes.new) }
    ensures flat { result ≡ false → IsFlat child nodes.new }
    ensures most { deeper nodes.new ≤ deeper nodes.old }
    ensures fewer { result ≡ true → deeper nodes.new < deeper nodes.old }
{
    let mut again = false;
    for place in 0..nodes.nodes().len() {
        again |= bring_up(nodes, place, child);
    }
    again
}

fn flatten_all(nodes: &mut Nodes, child: u64)
    requires rising { IsStrictlyIncreasing (numbers nodes.old) }
    ensures flatter { (first : List Node) → IsFlatter child first nodes.old → IsFlatter child first nodes.new }
    ensures flat { IsFlat child nodes.new }
{
    let mut again = true;
    'flatten: while again {
        again = flatten(nodes, child);
    }
}

/// Drops each change whose way does not pass this child of the oldest state.
pub(crate) fn drop_beside(nodes: &mut Nodes, child: u64)
    requires tree { IsTree nodes.old }
    requires rising { IsStrictlyIncreasing (numbers nodes.old) }
    requires child { parent_at nodes.old child ≡ Some 0 }
    ensures { nodes.new ≡ nodes_through child nodes.old }
{
    flatten_all(nodes, child);
    nodes.drop_at_root(child);
}
