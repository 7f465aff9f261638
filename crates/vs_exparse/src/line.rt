// The grammar of command lines.

ghost use Rattle.std.specs.Prelude.{ℕ, List, ◌≡◌, ◌≤◌, ◌+◌, ◌↔◌, Some, Ok, Err, length, take, IfOk, IfSome, IsTrue};
ghost use Rattle.vs_exparse.specs.Bytes.{max_line_bytes};
ghost use Rattle.vs_exparse.specs.Command.{answer_of, command_of, result_of};
ghost use Rattle.vs_exparse.specs.Errors.{Answers};
ghost use Rattle.vs_exparse.specs.Form.{HasForm};
ghost use Rattle.vs_exparse.specs.Global.{outcome_of};
ghost use Rattle.vs_exparse.specs.Meaning.{Means, meaning_of, errors_of, command_from, first_error_at, first_error_of, is_no_command_at, is_no_command, is_allowed, is_command, is_too_long};
ghost use Rattle.vs_exparse.specs.Parts.{parts_of, parts_in};

use crate::command::{Command, ExErr, Parsed, Range};
use crate::nested::{inverted, read_global, rule_for};
use crate::parts::{LineParts, MAX_LINE_BYTES, line_start, split_parts};
use crate::single::with_argument;
use crate::words::Word;

/// The command of a word, with its argument.
fn read_argument(
    word: Word,
    range: Range,
    bang: bool,
    argument: &[u8],
) -> Result<Command<'_>, ExErr>
    requires { length argument.now ≤ max_line_bytes + 1 }
    ensures value { Answers (outcome_of word range bang argument.now).errors (outcome_of word range bang argument.now).command (result_of result) }
    ensures form { IfOk result (λ command. HasForm (command_of command)) }
{
    match inverted(word, bang) {
        Some(invert) => read_global(range, invert, argument),
        None => with_argument(word, range, bang, argument),
    }
}

/// The command of a line with these parts, or its first error.
fn read_command(too_long: bool, parts: LineParts<'_>) -> Result<Command<'_>, ExErr>
    requires { length parts.argument.now ≤ max_line_bytes + 1 }
    ensures value { Answers (errors_of too_long (parts_in parts.entry)) (command_from (parts_in parts.entry)) (result_of result) }
    ensures form { IfOk result (λ command. HasForm (command_of command)) }
{
    if too_long {
        return Err(ExErr::LineTooLong);
    }
    let rule = rule_for(&parts)?;
    read_argument(rule.word, parts.range, parts.bang, parts.argument)
}

fn is_too_long(line: &[u8]) -> bool
    ensures { result ≡ is_too_long line.now }
{
    line.len() as u64 > MAX_LINE_BYTES
}

/// What a line means, by what stands after its first blanks and colons.
fn parse_at(too_long: bool, start: &[u8]) -> Result<Parsed<'_>, ExErr>
    requires { length start.now ≤ max_line_bytes + 1 }
    ensures value { Means (is_no_command_at start.now) (first_error_at too_long start.now) (command_from (parts_of start.now)) result }
    ensures form { IfOk (answer_of result) (λ parsed. IfSome parsed HasForm) }
{
    if start.is_empty() || start.starts_with(b"\"") {
        return Ok(Parsed::Nothing);
    }
    let command = read_command(too_long, split_parts(start))?;
    Ok(Parsed::Command(command))
}

/// What a command line means, without its end (`:help cmdline-lines`).
pub fn parse(line: &[u8]) -> Result<Parsed<'_>, ExErr>
    ensures nothing { (result ≡ Ok Parsed.Nothing) ↔ IsTrue (is_no_command line.now) }
    ensures command { IsTrue (is_command result) ↔ IsTrue (is_allowed line.now) }
    ensures refused { (error : ExErr) → (result ≡ Err error) ↔ (first_error_of line.now ≡ Some error) }
    ensures meaning { answer_of result ≡ meaning_of line.now }
    ensures form { IfOk (answer_of result) (λ parsed. IfSome parsed HasForm) }
{
    parse_at(is_too_long(line), line_start(line))
}

/// What a line means is decided by its first 1,048,577 bytes. So a reader need not keep the others.
pub fn first_bytes_decide()
    ensures { (line : List ℕ) → meaning_of (take (max_line_bytes + 1) line) ≡ meaning_of line }
{}
