// The meaning of the commands of the text.
ghost use Rattle.std.specs.Prelude.{◌≡◌, ℕ, List, IfOk, IfErr, IsErrOf, IsTrue, not};
ghost use Rattle.vs_edit.specs.Calls.{OnlyReads, StopsAtFault};
ghost use Rattle.vs_exparse.specs.Command.{command_of, wants_block};
ghost use Rattle.vs_exparse.specs.Form.{HasForm};
ghost use Rattle.vs_excmd.specs.Answer.{Allows, Answers, IsLate, IsPlaced, Leads, LiesIn};
ghost use Rattle.vs_excmd.specs.Meaning.{changes_text, effect, is_text_command, planned};
ghost use Rattle.vs_excmd.specs.Place.{BeginsAtLine, IsOutside, IsPlaceIn, place_of};
ghost use Rattle.vs_excmd.specs.Request.{StandsFor, is_absent};

use crate::block::{deletion, put_block};
use crate::joining::{addresses_of, join_lines};
use crate::limits::bounded;
use crate::moving::{copy_lines, move_lines};
use crate::substituting::substitute;
use crate::{Block, Place, Plan, PlanErr, place_of};
use std::alloc::Global;
use vs_edit::LineStore;
use vs_exparse::{Command, parse_nested};

/// Whether this is a command of the text: `:a`, `:i`, `:c`, `:d`, `:m`, `:co`, `:t`, `:j` or `:s`.
pub fn changes_text(command: &Command) -> bool
    ensures { result ≡ changes_text (command_of command.now) }
{
    match command {
        Command::Append { .. }
        | Command::Insert { .. }
        | Command::Change { .. }
        | Command::Delete { .. }
        | Command::Move { .. }
        | Command::CopyTo { .. }
        | Command::T { .. }
        | Command::Join { .. }
        | Command::Substitute { .. } => true,
        Command::Print { .. }
        | Command::Number { .. }
        | Command::Equals { .. }
        | Command::Undo { .. }
        | Command::Redo
        | Command::Earlier { .. }
        | Command::Later { .. }
        | Command::UndoList
        | Command::Write { .. }
        | Command::Preserve
        | Command::Quit { .. }
        | Command::Set { .. }
        | Command::WriteUndo
        | Command::ReadUndo
        | Command::Global { .. } => false,
    }
}

/// Whether a command is one of the text: one that [`plan`] carries out, or a global command that carries such a one out.
pub fn is_text_command(command: &Command) -> bool
    requires { HasForm (command_of command.now) }
    ensures { result ≡ is_text_command (command_of command.now) }
{
    match command {
        Command::Global { nested, .. } => changes_text(&parse_nested(nested)),
        _ => changes_text(command),
    }
}

// What a command does at its place, before the limits of a text are looked at.
fn effect<S: LineStore>(
    alloc: Global,
    command: &Command,
    block: &Block,
    view: &mut S,
    place: Place,
) -> Result<Plan, PlanErr>
    requires valid { S.valid view.old }
    requires lies { IsPlaceIn (S.shows view.old).present.lines place }
    requires begins { BeginsAtLine (command_of command.now) place }
    requires outside { IsOutside (command_of command.now) place }
    requires form { HasForm (command_of command.now) }
    ensures leads { (text lines : List (List ℕ)) → (S.shows view.old).present.Is text → StandsFor block.now lines
        → Leads text (effect (command_of command.now) lines text place) result }
    ensures lies { IfOk result (λ plan. LiesIn (S.shows view.old).present.lines plan) }
    ensures late { IfErr result IsLate }
    ensures kept { OnlyReads S.LineStore view.old view.new }
    ensures cause { StopsAtFault S.LineStore (IsErrOf result PlanErr.Failed) view.old view.new }
{
    let len = view.len();
    let lines = place.lines;
    match *command {
        Command::Append { .. } => put_block(alloc, block, len, lines.last, 0),
        Command::Insert { .. } => put_block(alloc, block, len, lines.last.saturating_sub(1), 0),
        Command::Change { .. } => put_block(alloc, block, len, lines.before(), lines.size()),
        Command::Delete { .. } => Ok(deletion(alloc, len, lines.before(), lines.size())),
        Command::Move { .. } => Ok(move_lines(alloc, view, place)?),
        Command::CopyTo { .. } | Command::T { .. } => copy_lines(alloc, view, place),
        Command::Join { range, bang, count } => {
            join_lines(alloc, view, lines, bang, addresses_of(range, count))
        }
        Command::Substitute {
            pattern,
            replacement,
            all,
            ..
        } => substitute(alloc, view, lines, pattern, replacement, all),
        Command::Print { .. }
        | Command::Number { .. }
        | Command::Equals { .. }
        | Command::Undo { .. }
        | Command::Redo
        | Command::Earlier { .. }
        | Command::Later { .. }
        | Command::UndoList
        | Command::Write { .. }
        | Command::Preserve
        | Command::Quit { .. }
        | Command::Set { .. }
        | Command::WriteUndo
        | Command::ReadUndo
        | Command::Global { .. } => Ok(Plan::NoChange),
    }
}

/// What a command of the text does to the text of a store, which stays as it is, with the cursor on this line, counted
/// from 1; it is 0 in the empty text.
///
/// Errors come in this order: `E493`, `E16` and `E134` as [`place_of`](crate::place_of) says, `E486` where no line
/// matches, `LineTooLong` for a block or a result with a line that is too long, and `TextFull` for a block or a result
/// that passes another limit of a text. The commands are those of docs/COMMANDS.md.
pub fn plan<S: LineStore>(
    alloc: Global,
    command: &Command,
    block: &Block,
    view: &mut S,
    cursor: u64,
) -> Result<Plan, PlanErr>
    requires valid { S.valid view.old }
    requires changes { IsTrue (changes_text (command_of command.now)) }
    requires form { HasForm (command_of command.now) }
    requires block { is_absent block.now ≡ not (wants_block (command_of command.now)) }
    ensures answers { (text lines : List (List ℕ)) → (S.shows view.old).present.Is text → StandsFor block.now lines
        → Answers (planned (command_of command.now) lines text cursor) result }
    ensures placed { IsPlaced (place_of (command_of command.now) (S.shows view.old).present.lines cursor) result }
    ensures allowed { IfOk result (λ plan. Allows (S.shows view.new).present plan) }
    ensures kept { OnlyReads S.LineStore view.old view.new }
    ensures cause { StopsAtFault S.LineStore (IsErrOf result PlanErr.Failed) view.old view.new }
{
    let place = place_of(command, view.len(), cursor)?;
    let plan = effect(alloc, command, block, view, place)?;
    bounded(alloc, view, plan)
}
