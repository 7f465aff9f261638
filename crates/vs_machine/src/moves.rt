// Moves over the history of a text.
ghost use Rattle.std.specs.Prelude.{◌≡◌, ◌≤◌, Ok, IfErr, IfOk};
ghost use Rattle.vs_edit.specs.State.{SameText};
ghost use Rattle.vs_undo.specs.Moves.{IsAtomic, IsReady};
ghost use Rattle.vs_undo.specs.declared.keep.Keep.{Keep};
ghost use Rattle.vs_machine.specs.Answers.{AnswersAs, HasGone, IsIn, IsWhy};
ghost use Rattle.vs_machine.specs.Machine.{State, moving};
ghost use Rattle.vs_machine.specs.Moves.{HasSteps, earlier_move, goal_of, kept_within, later_move, undo_move};

use crate::answering::{Answered, not_made};
use crate::reply::Reply;
use std::alloc::Global;
use vs_edit::{LineStore, StoreErr};
use vs_undo::{UndoErr, UndoTree};

/// A move over a history (`:help undo-commands`).
#[derive(Clone, Copy, Debug, PartialEq, Eq)]
pub(crate) enum Move {
    /// To the state before the last change.
    Back,
    /// To the state with this number.
    To(u64),
    /// To the child last used.
    Forward,
    /// So many kept numbers down.
    Earlier(u64),
    /// So many kept numbers up.
    Later(u64),
    /// So many writes back.
    EarlierWrites(u64),
    /// So many writes on.
    LaterWrites(u64),
}

/// The move of `:undo`.
pub(crate) fn undo_move(number: Option<u32>) -> Move
    ensures is { result ≡ undo_move number }
    ensures steps { HasSteps result }
{
    match number {
        Some(number) => Move::To(u64::from(number)),
        None => Move::Back,
    }
}

/// The move of `:earlier`.
pub(crate) fn earlier_move(by: u32, writes: bool) -> Move
    requires { 1 ≤ by }
    ensures is { result ≡ earlier_move by writes }
    ensures steps { HasSteps result }
{
    if writes {
        Move::EarlierWrites(u64::from(by))
    } else {
        Move::Earlier(u64::from(by))
    }
}

/// The move of `:later`.
pub(crate) fn later_move(by: u32, writes: bool) -> Move
    requires { 1 ≤ by }
    ensures is { result ≡ later_move by writes }
    ensures steps { HasSteps result }
{
    if writes {
        Move::LaterWrites(u64::from(by))
    } else {
        Move::Later(u64::from(by))
    }
}

// Makes a move, and gives the number of the state reached.
fn go<S: LineStore>(
    alloc: Global,
    store: &mut S,
    history: &mut UndoTree,
    step: Move,
) -> Result<u64, UndoErr>
    requires ready { IsReady S.LineStore history.old store.old }
    requires steps { HasSteps step }
    ensures goal { IfOk result (λ number. goal_of step history.old ≡ Ok number) }
    ensures gone { IfOk result (HasGone S.LineStore history.old history.new store.old store.new) }
    ensures still { IfOk result (λ number. number ≡ history.old.current → SameText (S.shows store.old).present (S.shows store.new).present) }
    ensures err { IfErr result (IsWhy (goal_of step history.old)) }
    ensures atomic { IsAtomic S.LineStore history.old history.new store.old store.new UndoErr.Failed result }
{
    // its contract says that the tree is sound
    let _ = history.parts();
    match step {
        Move::Back => history.back(alloc, store),
        Move::To(number) => history.goto(alloc, store, number),
        Move::Forward => history.forward(alloc, store),
        Move::Earlier(by) => history.earlier(alloc, store, by),
        Move::Later(by) => history.later(alloc, store, by),
        Move::EarlierWrites(by) => history.earlier_writes(alloc, store, by),
        Move::LaterWrites(by) => history.later_writes(alloc, store, by),
    }
}

// The line of a cursor in another text, which has so many lines.
fn kept_within(lines: u64, cursor: u64) -> u64
    ensures { result ≡ kept_within lines cursor }
{
    cursor.max(1).min(lines)
}

/// The answer to a move. The line of the cursor stays, as far as there are lines.
pub(crate) fn travel<S: LineStore>(
    alloc: Global,
    store: &mut S,
    history: &mut UndoTree,
    cursor: u64,
    step: Move,
) -> Result<Answered, StoreErr>
    requires ready { IsReady S.LineStore history.old store.old }
    requires steps { HasSteps step }
    ensures answers { IfOk result (λ answered. (state : State) (keep : Keep) → IsIn S.LineStore store.old history.old cursor state →
        AnswersAs S.LineStore state keep (moving (goal_of step state.history.links)) answered store.old store.new history.new) }
    ensures atomic { IsAtomic S.LineStore history.old history.new store.old store.new StoreErr.Failed result }
{
    match go(alloc, store, history, step) {
        Ok(number) => {
            let lines = store.len();
            Ok(Answered {
                reply: Reply::moved(number, lines),
                cursor: kept_within(lines, cursor),
                oldest: None,
            })
        }
        Err(error) => not_made(error, cursor),
    }
}
