// What a line of a script is that stands in no block.
ghost use Rattle.std.specs.Prelude.{◌≡◌, true, false, MatchOption, IfOk};
ghost use Rattle.vs_exparse.specs.Command.{command_of, result_of, wants_block};
ghost use Rattle.vs_exparse.specs.Form.{HasForm};
ghost use Rattle.vs_script.specs.Script.{HasHeadForm, IsKind, is_alone, is_dot, kind_of};
ghost use Rattle.vs_script.specs.Script.LineKind.{Alone};

use vs_exparse::{Command, ExErr, Parsed, parse};

/// A line that stands in no block.
#[derive(Clone, Copy)]
pub enum ScriptLine {
    /// An empty line or a comment.
    NoCommand,
    /// A command by itself, or a line that is refused.
    Alone,
    /// A command that takes the lines after it as its block. It borrows nothing from its line.
    Head(Command<'static>),
}

/// A command that wants a block, apart from its line.
fn head_of(command: &Command) -> Option<Command<'static>>
    ensures { MatchOption result (wants_block (command_of command.now) ≡ false)
        (λ head. (wants_block (command_of command.now) ≡ true) × (command_of head ≡ command_of command.now)) }
{
    match *command {
        Command::Append { range } => Some(Command::Append { range }),
        Command::Insert { range } => Some(Command::Insert { range }),
        Command::Change { range } => Some(Command::Change { range }),
        Command::Delete { .. }
        | Command::Move { .. }
        | Command::CopyTo { .. }
        | Command::T { .. }
        | Command::Join { .. }
        | Command::Substitute { .. }
        | Command::Print { .. }
        | Command::Number { .. }
        | Command::Equals { .. }
        | Command::Undo { .. }
        | Command::Redo
        | Command::Earlier { .. }
        | Command::Later { .. }
        | Command::UndoList
        | Command::Write { .. }
        | Command::Preserve
        | Command::Quit { .. }
        | Command::Set { .. }
        | Command::WriteUndo
        | Command::ReadUndo
        | Command::Global { .. } => None,
    }
}

/// What a line is, by the bytes that are kept of it.
pub(crate) fn line_kind(line: &[u8]) -> ScriptLine
    ensures kind { IsKind result (kind_of line.now) }
    ensures form { HasHeadForm result }
{
    match parse(line) {
        Ok(Parsed::Nothing) => ScriptLine::NoCommand,
        Ok(Parsed::Command(command)) => match head_of(&command) {
            Some(head) => ScriptLine::Head(head),
            None => ScriptLine::Alone,
        },
        Err(_) => ScriptLine::Alone,
    }
}

/// The command of a line that is one by itself, or the error of the line.
// It is parsed once more here, since what borrows from a line cannot leave the loop that reads lines.
pub(crate) fn alone(line: &[u8]) -> Result<Command<'_>, ExErr>
    requires { is_alone (kind_of line.now) ≡ true }
    ensures command { kind_of line.now ≡ Alone (result_of result) }
    ensures form { IfOk result (λ command. HasForm (command_of command) × (wants_block (command_of command) ≡ false)) }
{
    match parse(line) {
        Ok(Parsed::Nothing) => unreachable!(),
        Ok(Parsed::Command(command)) => Ok(command),
        Err(error) => Err(error),
    }
}

/// Whether a line ends a block.
pub(crate) fn ends_block(line: &[u8]) -> bool
    ensures { result ≡ is_dot line.now }
{
    match line {
        [byte] => *byte == b'.',
        _ => false,
    }
}
