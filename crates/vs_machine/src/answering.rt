// The answer to one request, over the text of any store and its undo tree.
ghost use Rattle.std.specs.Prelude.{◌≡◌, ◌≢◌, ◌≤◌, ℕ, List, None, IfErr, IfOk, OnOk, false, not, IsTrue};
ghost use Rattle.vs_exparse.specs.Command.{command_of, wants_block};
ghost use Rattle.vs_exparse.specs.Form.{HasForm};
ghost use Rattle.vs_exparse.specs.Nested.{is_nested};
ghost use Rattle.vs_exparse.specs.Pieces.{is_pattern};
ghost use Rattle.vs_excmd.specs.Answer.{plan_error};
ghost use Rattle.vs_excmd.specs.Meaning.{changes_text};
ghost use Rattle.vs_excmd.specs.Request.{Instruction, IsFormed, IsRequest, StandsFor, is_absent};
ghost use Rattle.vs_undo.specs.Moves.{IsAtomic, IsReady};
ghost use Rattle.vs_undo.specs.Errors.{undo_err};
ghost use Rattle.vs_undo.specs.declared.keep.Keep.{Keep};
ghost use Rattle.vs_machine.specs.Answers.{AnswersAs, IsIn, IsRefusal, meaning_at};
ghost use Rattle.vs_machine.specs.Machine.{State, meaning_in, searching};
ghost use Rattle.vs_machine.specs.Replies.{error_text, refuses, undo_error_text};
ghost use Rattle.vs_machine.specs.Shown.{showing_of};

use crate::change::{change_searched, change_text};
use crate::moves::{Move, earlier_move, later_move, travel, undo_move};
use crate::reply::Reply;
use crate::searching::print_searched;
use crate::show::{Showing, list, print, print_number, showing_of};
use std::alloc::Global;
use vs_edit::{LineStore, StoreErr};
use vs_excmd::{Block, PlanErr, Request, changes_text};
use vs_exparse::{Command, ExErr, parse_nested};
use vs_global::Search;
use vs_undo::{Keep, UndoErr, UndoTree};

/// A reply, and what it leaves beside text and history.
#[derive(Drop)]
pub struct Answered {
    pub reply: Reply,
    /// The line of the cursor, counted from 1. It is 0 in the text without lines.
    pub cursor: u64,
    /// Where a change was made, the number that the state which is the oldest one now had before it.
    pub oldest: Option<u64>,
}

/// An error of a command. It changes nothing.
pub(crate) fn refused(error: ExErr, cursor: u64) -> Answered
    ensures { result ≡ record { reply = refuses (error_text error); cursor = cursor; oldest = None } }
{
    Answered {
        reply: Reply::error(error),
        cursor,
        oldest: None,
    }
}

/// What comes of a command that could not be planned.
pub(crate) fn not_planned(error: PlanErr, cursor: u64) -> Result<Answered, StoreErr>
    ensures refused { IfOk result (IsRefusal error cursor) }
    ensures err { IfErr result (λ cause. error ≡ plan_error cause) }
{
    match error {
        PlanErr::Ex(error) => Ok(refused(error, cursor)),
        PlanErr::NoMemory => Err(StoreErr::NoMemory),
        PlanErr::Failed => Err(StoreErr::Failed),
    }
}

/// What comes of a change or a move that was not made.
pub(crate) fn not_made(error: UndoErr, cursor: u64) -> Result<Answered, StoreErr>
    ensures refused { IfOk result (λ answered. answered ≡ record { reply = refuses (undo_error_text error); cursor = cursor; oldest = None }) }
    ensures done { OnOk result (error ≢ UndoErr.NoMemory) }
    ensures held { OnOk result (error ≢ UndoErr.Failed) }
    ensures err { IfErr result (λ cause. error ≡ undo_err cause) }
{
    match error {
        UndoErr::NoMemory => Err(StoreErr::NoMemory),
        UndoErr::Failed => Err(StoreErr::Failed),
        UndoErr::NotKept(_) | UndoErr::AtOldest | UndoErr::AtNewest | UndoErr::NumbersFull => {
            Ok(Answered {
                reply: Reply::undo_error(error),
                cursor,
                oldest: None,
            })
        }
    }
}

// Does a command that a global command names at each of the lines of its search.
fn do_searched<S: LineStore>(
    alloc: Global,
    store: &mut S,
    history: &mut UndoTree,
    cursor: u64,
    search: &Search<'_>,
    nested: &Command,
    keep: Keep,
) -> Result<Answered, StoreErr>
    requires ready { IsReady S.LineStore history.old store.old }
    requires pattern { IsTrue (is_pattern search.now.pattern.now) }
    requires form { HasForm (command_of nested.now) }
    requires nested { IsTrue (is_nested (command_of nested.now)) }
    requires no_block { wants_block (command_of nested.now) ≡ false }
    requires some { 1 ≤ keep.levels }
    ensures answers { IfOk result (λ answered. (state : State) → IsIn S.LineStore store.old history.old cursor state → AnswersAs S.LineStore state keep
        (searching (showing_of (command_of nested.now)) state search.now.range search.now.invert search.now.pattern.now (command_of nested.now))
        answered store.old store.new history.new) }
    ensures atomic { IsAtomic S.LineStore history.old history.new store.old store.new StoreErr.Failed result }
{
    match showing_of(nested) {
        Some(showing) => print_searched(alloc, store, cursor, search, showing),
        None => change_searched(alloc, store, history, cursor, search, nested, keep),
    }
}

// Does a command that is none of the text by itself. One that the session answers itself is refused with E492.
fn do_other<S: LineStore>(
    alloc: Global,
    store: &mut S,
    history: &mut UndoTree,
    cursor: u64,
    command: &Command,
    keep: Keep,
) -> Result<Answered, StoreErr>
    requires ready { IsReady S.LineStore history.old store.old }
    requires some { 1 ≤ keep.levels }
    requires shows { changes_text (command_of command.now) ≡ false }
    requires form { HasForm (command_of command.now) }
    ensures answers { IfOk result (λ answered. (state : State) (lines : List (List ℕ)) → IsIn S.LineStore store.old history.old cursor state →
        AnswersAs S.LineStore state keep (meaning_in state (command_of command.now) lines) answered store.old store.new history.new) }
    ensures atomic { IsAtomic S.LineStore history.old history.new store.old store.new StoreErr.Failed result }
{
    match *command {
        Command::Print { range, count } => {
            print(alloc, store, cursor, Showing::plain(range, count))
        }
        Command::Number { range, count } => {
            print(alloc, store, cursor, Showing::numbered(range, count))
        }
        Command::Equals { range } => Ok(print_number(store, cursor, range)),
        Command::Undo { number } => travel(alloc, store, history, cursor, undo_move(number)),
        Command::Redo => travel(alloc, store, history, cursor, Move::Forward),
        Command::Earlier { by, writes } => {
            travel(alloc, store, history, cursor, earlier_move(by, writes))
        }
        Command::Later { by, writes } => {
            travel(alloc, store, history, cursor, later_move(by, writes))
        }
        Command::UndoList => list(alloc, store, history, cursor),
        Command::Global {
            range,
            invert,
            pattern,
            nested,
        } => {
            let search = Search {
                range,
                invert,
                pattern,
            };
            let nested = parse_nested(nested);
            do_searched(alloc, store, history, cursor, &search, &nested, keep)
        }
        Command::Append { .. }
        | Command::Insert { .. }
        | Command::Change { .. }
        | Command::Delete { .. }
        | Command::Move { .. }
        | Command::CopyTo { .. }
        | Command::T { .. }
        | Command::Join { .. }
        | Command::Substitute { .. }
        | Command::Write { .. }
        | Command::Preserve
        | Command::Quit { .. }
        | Command::Set { .. }
        | Command::WriteUndo
        | Command::ReadUndo => Ok(refused(ExErr::E492, cursor)),
    }
}

// Does a command, with its block.
fn carry_out<S: LineStore>(
    alloc: Global,
    store: &mut S,
    history: &mut UndoTree,
    cursor: u64,
    command: &Command,
    block: &Block,
    keep: Keep,
) -> Result<Answered, StoreErr>
    requires ready { IsReady S.LineStore history.old store.old }
    requires form { HasForm (command_of command.now) }
    requires block { is_absent block.now ≡ not (wants_block (command_of command.now)) }
    requires some { 1 ≤ keep.levels }
    ensures answers { IfOk result (λ answered. (state : State) (lines : List (List ℕ)) → IsIn S.LineStore store.old history.old cursor state
        → StandsFor block.now lines → AnswersAs S.LineStore state keep (meaning_in state (command_of command.now) lines) answered store.old store.new history.new) }
    ensures atomic { IsAtomic S.LineStore history.old history.new store.old store.new StoreErr.Failed result }
{
    if changes_text(command) {
        return change_text(alloc, store, history, cursor, command, block, keep);
    }
    do_other(alloc, store, history, cursor, command, keep)
}

/// The answer to a request, for a cursor in the text of a store and the undo tree of that text. A change is kept in the tree with
/// the time at which the command began, and the oldest states are forgotten as far as it says. After an `Err` text and tree are as
/// before.
pub fn answer<S: LineStore>(
    alloc: Global,
    store: &mut S,
    history: &mut UndoTree,
    cursor: u64,
    request: &Request,
    keep: Keep,
) -> Result<Answered, StoreErr>
    requires ready { IsReady S.LineStore history.old store.old }
    requires form { IsFormed request.now }
    requires some { 1 ≤ keep.levels }
    ensures answers { IfOk result (λ answered. (state : State) (instruction : Instruction) → IsIn S.LineStore store.old history.old cursor state
        → IsRequest request.now instruction → AnswersAs S.LineStore state keep (meaning_at state instruction) answered store.old store.new history.new) }
    ensures atomic { IsAtomic S.LineStore history.old history.new store.old store.new StoreErr.Failed result }
{
    match &request.parsed {
        Ok(command) => carry_out(alloc, store, history, cursor, command, &request.block, keep),
        Err(error) => Ok(refused(*error, cursor)),
    }
}
