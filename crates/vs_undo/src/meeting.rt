// Where the ways of two states meet.
ghost use Rattle.std.specs.Prelude.{◌≡◌, ◌≢◌, ◌+◌, ◌-◌, ◌<◌, ℕ, List, IfOk, IsTrue, OnOk, length};
ghost use Rattle.std.specs.List.Sorted.{IsStrictlyIncreasing};
ghost use Rattle.vs_undo.specs.Meetings.{IsMeeting, IsSettled, Meets};
ghost use Rattle.vs_undo.specs.Numbers.{numbers};
ghost use Rattle.vs_undo.specs.Sound.{IsSound};
ghost use Rattle.vs_undo.specs.Ways.{Follows, IsKept, IsTree};

use crate::way::{parent, way_of};
use crate::{Node, Parts};
use std::alloc::{AllocError, Global};

/// The parts of the ways of two states that lie below a state on both.
#[derive(Drop)]
pub(crate) struct Meeting {
    pub(crate) from: Vec<u64>,
    pub(crate) to: Vec<u64>,
    pub(crate) top: u64,
}

// Follows the way of a state by one change, and gives the state where it goes on.
fn follow(nodes: &[Node], way: &mut Vec<u64>, at: u64) -> Result<u64, AllocError>
    requires rising { IsStrictlyIncreasing (numbers nodes.now) }
    requires some { at ≢ 0 }
    ensures follows { IfOk result (λ next. (number left : ℕ) → Follows nodes.now number way.old.items at left
        → Follows nodes.now number way.new.items next (left - 1) × (0 < left)) }
    ensures longer { OnOk result (length way.new.items ≡ length way.old.items + 1) }
{
    way.push(at)?;
    Ok(parent(nodes, at).unwrap_or(0))
}

// Follows both ways until they meet. The state with the greater number is the one to go on from, since a change mostly has a greater
// number than its parent.
fn climb(alloc: Global, nodes: &[Node], from: u64, to: u64) -> Result<Meeting, AllocError>
    requires rising { IsStrictlyIncreasing (numbers nodes.now) }
    requires tree { IsTree nodes.now }
    requires from { IsKept nodes.now from }
    requires to { IsKept nodes.now to }
    ensures { IfOk result (λ meeting. Meets nodes.now from to meeting) }
{
    let mut up = Vec::new(alloc);
    let mut down = Vec::new(alloc);
    let mut from_at = from;
    let mut to_at = to;
    'climb: while from_at != to_at {
        if from_at > to_at {
            from_at = follow(nodes, &mut up, from_at)?;
        } else {
            to_at = follow(nodes, &mut down, to_at)?;
        }
    }
    Ok(Meeting {
        from: up,
        to: down,
        top: to_at,
    })
}

/// Where the ways of the current state and of another one meet. Where the tree is not settled, that is the oldest state.
pub(crate) fn meeting_with(
    alloc: Global,
    parts: &Parts,
    number: u64,
    settled: bool,
) -> Result<Meeting, AllocError>
    requires sound { IsSound parts.now }
    requires kept { IsKept parts.now.nodes number }
    requires settled { IsTrue settled → IsSettled parts.now }
    ensures { IfOk result (λ meeting. IsMeeting parts.now number meeting) }
{
    let nodes = parts.nodes.nodes();
    if settled {
        return climb(alloc, nodes, parts.current, number);
    }
    let from = way_of(alloc, nodes, parts.current)?;
    let to = way_of(alloc, nodes, number)?;
    Ok(Meeting { from, to, top: 0 })
}
