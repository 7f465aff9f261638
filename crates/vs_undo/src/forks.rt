// States with several children, which are looked for anew only where they may have changed.
ghost use Rattle.std.specs.Prelude.{◌≡◌, ◌<◌, ◌⊎◌, ℕ, List};
ghost use Rattle.vs_entries.specs.declared.entry.Entry.{Entry};
ghost use Rattle.vs_undo.specs.Forks.{IsStraightBelow};
ghost use Rattle.vs_undo.specs.History.{pushed};
ghost use Rattle.vs_undo.specs.Sound.{IsSound};

use crate::Parts;
use crate::way::last_child;

// The least state with a child that is not the one last used, or the greatest number.
fn first_fork(parts: &Parts) -> u64
    requires { IsSound parts.now }
    ensures { IsStraightBelow result parts.now.nodes }
{
    let mut fork = u64::MAX;
    for node in parts.nodes.nodes() {
        if last_child(parts, node.parent) != node.number {
            fork = fork.min(node.parent);
        }
    }
    fork
}

/// The first state that may have several children, given one that may be before it. It is looked for where that is the oldest.
pub(crate) fn fork_from(parts: &Parts, fork: u64) -> u64
    requires sound { IsSound parts.now }
    requires straight { IsStraightBelow fork parts.now.nodes }
    ensures { IsStraightBelow result parts.now.nodes }
{
    if fork == 0 { first_fork(parts) } else { fork }
}

/// The same after a change of the current state.
pub(crate) fn fork_pushed(parts: &Parts, fork: u64) -> u64
    requires sound { IsSound parts.now }
    requires straight { IsStraightBelow fork parts.now.nodes }
    ensures { (entries : List Entry) (time : ℕ) → IsStraightBelow result (pushed entries time parts.now).nodes }
{
    if last_child(parts, parts.current) == 0 {
        return fork;
    }
    fork.min(parts.current)
}

/// The same after this child of the oldest state became the oldest itself. It is looked for anew where this one may have several.
pub(crate) fn fork_promoted(child: u64, fork: u64) -> u64
    ensures { (result ≡ 0) ⊎ ((child < fork) × (result ≡ fork)) }
{
    if child < fork { fork } else { 0 }
}
