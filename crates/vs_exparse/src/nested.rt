// The global commands, and the lines that they carry out.

ghost use Rattle.std.specs.Prelude.{◌≡◌, ◌≤◌, ◌+◌, Some, false, length, IfOk, IsTrue};
ghost use Rattle.vs_exparse.specs.Bytes.{max_line_bytes};
ghost use Rattle.vs_exparse.specs.Command.{command_of, result_of, wants_block};
ghost use Rattle.vs_exparse.specs.Errors.{Answers};
ghost use Rattle.vs_exparse.specs.Form.{HasForm};
ghost use Rattle.vs_exparse.specs.Global.{with_nested};
ghost use Rattle.vs_exparse.specs.Nested.{IsNested, IsNestedLine, inverted, is_nested, is_nested_word, nested_command, nested_command_at, nested_errors, nested_errors_at, nested_meaning, nested_parts_errors, nesting_errors, single_command};
ghost use Rattle.vs_exparse.specs.Names.{rule_of};
ghost use Rattle.vs_exparse.specs.Parts.{parts_in};
ghost use Rattle.vs_exparse.specs.Rules.{rule_errors};

use crate::argument::read_pattern;
use crate::command::{Command, ExErr, Range};
use crate::parts::{LineParts, line_start, split_parts};
use crate::range::is_given;
use crate::single::with_argument;
use crate::words::{Rule, Word, find_rule};

/// Which lines a global command takes: true for those that do not match. None is for any other word.
pub(crate) fn inverted(word: Word, bang: bool) -> Option<bool>
    ensures { result ≡ inverted word bang }
{
    match word {
        Word::Global => Some(bang),
        Word::VGlobal => Some(true),
        _ => None,
    }
}

/// Whether a global command carries this command out.
fn is_nested_word(word: Word) -> bool
    ensures { result ≡ is_nested_word word }
{
    matches!(
        word,
        Word::Delete
            | Word::Move
            | Word::Copy
            | Word::T
            | Word::Join
            | Word::Substitute
            | Word::Print
            | Word::Number
    )
}

/// The rule of a line's word, where it allows what stands around it.
pub(crate) fn rule_for(parts: &LineParts<'_>) -> Result<Rule, ExErr>
    ensures { Answers (rule_errors (parts_in parts.now)) (rule_of parts.now.word.now) result }
{
    let Some(rule) = find_rule(parts.word) else {
        return Err(ExErr::E492);
    };
    if is_given(parts.range) && !rule.range {
        return Err(ExErr::E481);
    }
    if parts.bang && !rule.bang {
        return Err(ExErr::E477);
    }
    Ok(rule)
}

/// Refuses the known commands that a global command does not carry out.
fn check_nesting(word: &[u8]) -> Result<(), ExErr>
    ensures { Answers (nesting_errors word.now) (Some tt) result }
{
    let Some(rule) = find_rule(word) else {
        return Ok(());
    };
    if inverted(rule.word, false).is_some() {
        return Err(ExErr::E147);
    }
    if !is_nested_word(rule.word) {
        return Err(ExErr::NotNested);
    }
    Ok(())
}

fn read_nested_parts(parts: LineParts<'_>) -> Result<Command<'_>, ExErr>
    requires { length parts.argument.now ≤ max_line_bytes + 1 }
    ensures value { Answers (nested_parts_errors (parts_in parts.entry)) (single_command (parts_in parts.entry)) (result_of result) }
    ensures form { IfOk result (λ command. HasForm (command_of command)) }
    ensures kept { IfOk result (λ command. IsNested (command_of command)) }
{
    check_nesting(parts.word)?;
    let rule = rule_for(&parts)?;
    with_argument(rule.word, parts.range, parts.bang, parts.argument)
}

/// What a nested line stands for, by what stands after its first blanks and colons. Where nothing does, it prints the current line.
fn read_nested_at(start: &[u8]) -> Result<Command<'_>, ExErr>
    requires { length start.now ≤ max_line_bytes + 1 }
    ensures value { Answers (nested_errors_at start.now) (nested_command_at start.now) (result_of result) }
    ensures form { IfOk result (λ command. HasForm (command_of command)) }
    ensures kept { IfOk result (λ command. IsNested (command_of command)) }
{
    if start.is_empty() {
        return Ok(Command::Print {
            range: Range::Absent,
            count: None,
        });
    }
    if start.starts_with(b"\"") {
        return Err(ExErr::NotNested);
    }
    read_nested_parts(split_parts(start))
}

/// The command that a nested line stands for, or its first error.
fn read_nested(nested: &[u8]) -> Result<Command<'_>, ExErr>
    ensures value { Answers (nested_errors nested.now) (nested_command nested.now) (result_of result) }
    ensures form { IfOk result (λ command. HasForm (command_of command)) }
    ensures kept { IfOk result (λ command. IsNested (command_of command)) }
{
    read_nested_at(line_start(nested))
}

/// A global command with its pattern and its nested line.
pub(crate) fn read_global(range: Range, invert: bool, argument: &[u8]) -> Result<Command<'_>, ExErr>
    ensures value { Answers (with_nested range invert argument.now).errors (with_nested range invert argument.now).command (result_of result) }
    ensures form { IfOk result (λ command. HasForm (command_of command)) }
{
    let (pattern, nested) = read_pattern(argument)?;
    read_nested(nested)?;
    Ok(Command::Global {
        range,
        invert,
        pattern,
        nested,
    })
}

/// The command that a global command carries out at each of its lines, by the rest of its line (`:help :global`).
///
/// It is `:d`, `:m`, `:co`, `:t`, `:j`, `:s`, `:p` or `:nu`; a line with nothing but blanks and colons is `:p`.
pub fn parse_nested(nested: &[u8]) -> Command<'_>
    requires { IsNestedLine nested.now }
    ensures meaning { command_of result ≡ nested_meaning nested.now }
    ensures form { HasForm (command_of result) }
    ensures nested { IsTrue (is_nested (command_of result)) }
    ensures no_block { wants_block (command_of result) ≡ false }
{
    match read_nested(nested) {
        Ok(command) => command,
        Err(_) => unreachable!(),
    }
}
