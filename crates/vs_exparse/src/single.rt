// The commands that stand by themselves, each with its argument.

ghost use Rattle.std.specs.Prelude.{◌≡◌, ◌≤◌, ◌+◌, Some, length, IfOk};
ghost use Rattle.vs_exparse.specs.Argument.{no_argument_errors};
ghost use Rattle.vs_exparse.specs.Bytes.{max_line_bytes};
ghost use Rattle.vs_exparse.specs.Command.{command_of, result_of};
ghost use Rattle.vs_exparse.specs.Errors.{Answers};
ghost use Rattle.vs_exparse.specs.Form.{HasForm};
ghost use Rattle.vs_exparse.specs.Outcome.{single_outcome};

use crate::argument::{
    Steps, read_change, read_count, read_destination, read_setting, read_steps, read_substitution,
};
use crate::command::{Command, ExErr, Range};
use crate::words::Word;

/// A command that has no argument.
fn alone<'a>(command: Command<'a>, argument: &[u8]) -> Result<Command<'a>, ExErr>
    requires { HasForm (command_of command) }
    ensures value { Answers (no_argument_errors argument.now) (Some (command_of command.entry)) (result_of result) }
    ensures form { IfOk result (λ command. HasForm (command_of command)) }
{
    if !argument.is_empty() {
        return Err(ExErr::E488);
    }
    Ok(command)
}

/// The command of a word, with its argument. The global commands are refused: here they stand inside of one.
pub(crate) fn with_argument(
    word: Word,
    range: Range,
    bang: bool,
    argument: &[u8],
) -> Result<Command<'_>, ExErr>
    requires { length argument.now ≤ max_line_bytes + 1 }
    ensures value { Answers (single_outcome word range bang argument.now).errors (single_outcome word range bang argument.now).command (result_of result) }
    ensures form { IfOk result (λ command. HasForm (command_of command)) }
{
    match word {
        Word::Append => alone(Command::Append { range }, argument),
        Word::Insert => alone(Command::Insert { range }, argument),
        Word::Change => alone(Command::Change { range }, argument),
        Word::Delete => Ok(Command::Delete {
            range,
            count: read_count(argument)?,
        }),
        Word::Move => Ok(Command::Move {
            range,
            to: read_destination(argument)?,
        }),
        Word::Copy => Ok(Command::CopyTo {
            range,
            to: read_destination(argument)?,
        }),
        Word::T => Ok(Command::T {
            range,
            to: read_destination(argument)?,
        }),
        Word::Join => Ok(Command::Join {
            range,
            bang,
            count: read_count(argument)?,
        }),
        Word::Substitute => read_substitution(range, argument),
        Word::Print => Ok(Command::Print {
            range,
            count: read_count(argument)?,
        }),
        Word::Number => Ok(Command::Number {
            range,
            count: read_count(argument)?,
        }),
        Word::Equals => alone(Command::Equals { range }, argument),
        Word::Undo => Ok(Command::Undo {
            number: read_change(argument)?,
        }),
        Word::Redo => alone(Command::Redo, argument),
        Word::Earlier => {
            let Steps { by, writes } = read_steps(argument)?;
            Ok(Command::Earlier { by, writes })
        }
        Word::Later => {
            let Steps { by, writes } = read_steps(argument)?;
            Ok(Command::Later { by, writes })
        }
        Word::UndoList => alone(Command::UndoList, argument),
        Word::Write => alone(Command::Write { bang }, argument),
        Word::Preserve => alone(Command::Preserve, argument),
        Word::Quit => alone(Command::Quit { bang }, argument),
        Word::Set => Ok(Command::Set {
            setting: read_setting(argument)?,
        }),
        Word::WriteUndo => alone(Command::WriteUndo, argument),
        Word::ReadUndo => alone(Command::ReadUndo, argument),
        Word::Global | Word::VGlobal => Err(ExErr::E147),
    }
}
