// Changes of the text, each of which goes into the history.
ghost use Rattle.std.specs.Prelude.{◌≡◌, ◌≤◌, false, List, ℕ, IfOk, IsTrue, Ok, not};
ghost use Rattle.vs_exparse.specs.Command.{command_of, wants_block};
ghost use Rattle.vs_exparse.specs.Form.{HasForm};
ghost use Rattle.vs_exparse.specs.Pieces.{is_pattern};
ghost use Rattle.vs_excmd.specs.Answer.{Allows, effect_of};
ghost use Rattle.vs_excmd.specs.Meaning.{changes_text, planned};
ghost use Rattle.vs_excmd.specs.Request.{StandsFor, is_absent};
ghost use Rattle.vs_global.specs.Global.{global};
ghost use Rattle.vs_undo.specs.Moves.{IsAtomic, IsReady};
ghost use Rattle.vs_machine.specs.Answers.{AnswersAs, IsIn};
ghost use Rattle.vs_machine.specs.Machine.{State, changing};

use crate::answering::{Answered, not_made, not_planned};
use crate::reply::Reply;
use std::alloc::Global;
use vs_edit::{LineStore, StoreErr};
use vs_excmd::{Block, Plan, plan};
use vs_exparse::Command;
use vs_global::{Search, global};
use vs_undo::{Keep, UndoTree, change};

// Carries a plan out.
fn make<S: LineStore>(
    alloc: Global,
    store: &mut S,
    history: &mut UndoTree,
    cursor: u64,
    plan: Plan,
    keep: Keep,
) -> Result<Answered, StoreErr>
    requires ready { IsReady S.LineStore history.old store.old }
    requires allowed { Allows (S.shows store.old).present plan }
    requires some { 1 ≤ keep.levels }
    ensures answers { IfOk result (λ answered. (state : State) → IsIn S.LineStore store.old history.old cursor state
        → AnswersAs S.LineStore state keep (changing (Ok (effect_of plan))) answered store.old store.new history.new) }
    ensures atomic { IsAtomic S.LineStore history.old history.new store.old store.new StoreErr.Failed result }
{
    match plan {
        Plan::NoChange => Ok(Answered {
            reply: Reply::no_change(),
            cursor,
            oldest: None,
        }),
        Plan::Splice {
            top,
            old,
            new,
            cursor: line,
        } => match change(alloc, history, store, top, old, &new, keep) {
            Ok(pushed) => Ok(Answered {
                reply: Reply::change(pushed.number, store.len()),
                cursor: line,
                oldest: Some(pushed.root.unwrap_or(0)),
            }),
            Err(error) => not_made(error, cursor),
        },
    }
}

/// Does a command of the text, with its block.
pub(crate) fn change_text<S: LineStore>(
    alloc: Global,
    store: &mut S,
    history: &mut UndoTree,
    cursor: u64,
    command: &Command,
    block: &Block,
    keep: Keep,
) -> Result<Answered, StoreErr>
    requires ready { IsReady S.LineStore history.old store.old }
    requires changes { IsTrue (changes_text (command_of command.now)) }
    requires form { HasForm (command_of command.now) }
    requires block { is_absent block.now ≡ not (wants_block (command_of command.now)) }
    requires some { 1 ≤ keep.levels }
    ensures answers { IfOk result (λ answered. (state : State) (lines : List (List ℕ)) → IsIn S.LineStore store.old history.old cursor state
        → StandsFor block.now lines
        → AnswersAs S.LineStore state keep (changing (planned (command_of command.now) lines state.text state.cursor)) answered store.old store.new history.new) }
    ensures atomic { IsAtomic S.LineStore history.old history.new store.old store.new StoreErr.Failed result }
{
    match plan(alloc, command, block, store, cursor) {
        Ok(planned) => make(alloc, store, history, cursor, planned, keep),
        Err(error) => not_planned(error, cursor),
    }
}

/// Does a command of the text that takes no block at each of the lines of a search, as one change.
pub(crate) fn change_searched<S: LineStore>(
    alloc: Global,
    store: &mut S,
    history: &mut UndoTree,
    cursor: u64,
    search: &Search<'_>,
    nested: &Command,
    keep: Keep,
) -> Result<Answered, StoreErr>
    requires ready { IsReady S.LineStore history.old store.old }
    requires pattern { IsTrue (is_pattern search.now.pattern.now) }
    requires changes { IsTrue (changes_text (command_of nested.now)) }
    requires form { HasForm (command_of nested.now) }
    requires no_block { wants_block (command_of nested.now) ≡ false }
    requires some { 1 ≤ keep.levels }
    ensures answers { IfOk result (λ answered. (state : State) → IsIn S.LineStore store.old history.old cursor state
        → AnswersAs S.LineStore state keep
        (changing (global search.now.range search.now.invert search.now.pattern.now (command_of nested.now) state.text state.cursor))
        answered store.old store.new history.new) }
    ensures atomic { IsAtomic S.LineStore history.old history.new store.old store.new StoreErr.Failed result }
{
    match global(alloc, search, nested, store, cursor) {
        Ok(planned) => make(alloc, store, history, cursor, planned, keep),
        Err(error) => not_planned(error, cursor),
    }
}
