// A move to another state.
ghost use Rattle.std.specs.Prelude.{◌≡◌, ◌⊎◌, ◌++◌, ℕ, IfErr, IsTrue, OnOk, length};
ghost use Rattle.std.specs.List.Sorted.{IsStrictlyIncreasing};
ghost use Rattle.vs_undo.specs.Forks.{IsStraightBelow};
ghost use Rattle.vs_undo.specs.Ways.{IsKept};
ghost use Rattle.vs_undo.specs.Meetings.{IsMeeting, IsSettled};
ghost use Rattle.vs_undo.specs.Numbers.{numbers};
ghost use Rattle.vs_undo.specs.Sound.{IsSound};
ghost use Rattle.vs_undo.specs.History.{arrived, installed};
ghost use Rattle.vs_undo.specs.Moves.{HasMoved, IsAtomic, IsReady};

use crate::cross::cross;
use crate::install::{install, use_below};
use crate::meeting::{Meeting, meeting_with};
use crate::way::path_between;
use crate::{Entries, Parts, UndoErr};
use std::alloc::Global;
use vs_edit::{LineStore, StoreErr};

// Puts the turned entries into the changes of a path.
fn turn(parts: &mut Parts, path: &[u64], turned: Vec<Entries>)
    requires rising { IsStrictlyIncreasing (numbers parts.old.nodes) }
    requires count { length turned.items ≡ length path.now }
    ensures { parts.new ≡ record parts.old { nodes = installed path.now turned.items parts.old.nodes } }
{
    install(&mut parts.nodes, path, turned);
}

// Makes the tree one that has arrived at a state, along a path whose edges are turned. It takes no memory.
fn arrive(parts: &mut Parts, path: &[u64], turned: Vec<Entries>, meeting: &Meeting, number: u64)
    requires sound { IsSound parts.old }
    requires count { length turned.items ≡ length path.now }
    ensures { (is : IsMeeting parts.old number meeting.now) → parts.new ≡ arrived path.now turned.items (meeting.now.to.items ++ is.meets.rest) parts.old }
{
    turn(parts, path, turned);
    use_below(parts, &meeting.to, meeting.top);
    parts.current = number;
}

/// Moves to a kept state: the text of the store becomes that of the state, and is committed. After an `Err` tree and text
/// are as before.
pub(crate) fn move_to<S: LineStore>(
    alloc: Global,
    parts: &mut Parts,
    store: &mut S,
    number: u64,
    settled: bool,
) -> Result<(), StoreErr>
    requires sound { IsSound parts.old }
    requires kept { IsKept parts.old.nodes number }
    requires settled { IsTrue settled → IsSettled parts.old }
    requires ready { IsReady S.LineStore parts.old store.old }
    ensures moved { OnOk result (HasMoved S.LineStore parts.old parts.new store.old store.new number) }
    ensures atomic { IsAtomic S.LineStore parts.old parts.new store.old store.new StoreErr.Failed result }
    ensures settled { OnOk result (IsSettled parts.new) }
    ensures straight { (fork : ℕ) → IsStraightBelow fork parts.old.nodes → IsStraightBelow fork parts.new.nodes }
    ensures sound { IsSound parts.new }
{
    let meeting = meeting_with(alloc, parts, number, settled)?;
    let path = path_between(alloc, &meeting.from, &meeting.to)?;
    match cross(alloc, store, parts.nodes.nodes(), &path) {
        Ok(turned) => {
            arrive(parts, &path, turned, &meeting, number);
            store.commit();
            Ok(())
        }
        Err(error) => {
            store.rollback();
            Err(error)
        }
    }
}

/// Moves to a kept state, as every public move does. The tree is settled then.
pub(crate) fn go_to<S: LineStore>(
    alloc: Global,
    parts: &mut Parts,
    settled: &mut bool,
    store: &mut S,
    number: u64,
) -> Result<(), UndoErr>
    requires sound { IsSound parts.old }
    requires kept { IsKept parts.old.nodes number }
    requires settled { IsTrue settled.old → IsSettled parts.old }
    requires ready { IsReady S.LineStore parts.old store.old }
    ensures err { IfErr result (λ error. (error ≡ UndoErr.NoMemory) ⊎ (error ≡ UndoErr.Failed)) }
    ensures moved { OnOk result (HasMoved S.LineStore parts.old parts.new store.old store.new number) }
    ensures atomic { IsAtomic S.LineStore parts.old parts.new store.old store.new UndoErr.Failed result }
    ensures settled { IsTrue settled.new → IsSettled parts.new }
    ensures straight { (fork : ℕ) → IsStraightBelow fork parts.old.nodes → IsStraightBelow fork parts.new.nodes }
    ensures sound { IsSound parts.new }
{
    match move_to(alloc, parts, store, number, *settled) {
        Ok(()) => {
            *settled = true;
            Ok(())
        }
        Err(StoreErr::NoMemory) => Err(UndoErr::NoMemory),
        Err(StoreErr::Failed) => Err(UndoErr::Failed),
    }
}
