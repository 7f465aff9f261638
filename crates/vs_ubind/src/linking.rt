// Where the states of a tree stand in an undo file.
ghost use Rattle.std.specs.Prelude.{◌≡◌};
ghost use Rattle.std.specs.List.Sorted.{IsStrictlyIncreasing};
ghost use Rattle.vs_undo.specs.Numbers.{numbers};
ghost use Rattle.vs_ubind.specs.Unbound.{newest_of, time_of};

use vs_undo::{Parts, find, last_child};

/// The time of the current state.
pub(crate) fn time_of(parts: &Parts) -> u64
    requires { IsStrictlyIncreasing (numbers parts.now.nodes) }
    ensures { result ≡ time_of parts.now }
{
    let nodes = parts.nodes.nodes();
    match find(nodes, parts.current) {
        Some(i) => nodes[i].time,
        None => 0,
    }
}

/// The state where the way over the children last used from the current state ends.
pub(crate) fn newest_of(parts: &Parts) -> u64
    requires { IsStrictlyIncreasing (numbers parts.now.nodes) }
    ensures { result ≡ newest_of parts.now }
{
    let mut at = parts.current;
    let count = parts.nodes.nodes().len();
    'used: for _passed in 0..count {
        let child = last_child(parts, at);
        if child == 0 {
            return at;
        }
        at = child;
    }
    at
}
