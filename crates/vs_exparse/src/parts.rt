// What a command line is made of.

ghost use Rattle.std.specs.Prelude.{◌≡◌, ◌≤◌, ◌+◌, length, take, drop};
ghost use Rattle.vs_exparse.specs.Bytes.{max_line_bytes};
ghost use Rattle.vs_exparse.specs.Parts.{parts_of, parts_in, start_of, word_after};

use crate::bytes::{after, skip_blanks, skip_leads, split_letters};
use crate::command::Range;
use crate::range::{is_given, read_range};

/// The greatest number of bytes of a command line, without its end.
pub const MAX_LINE_BYTES: u64 = 1_048_576;

/// The first 1,048,577 bytes of a line, or all of it.
fn first_bytes(line: &[u8]) -> &[u8]
    ensures first { result.now ≡ take (max_line_bytes + 1) line.now }
    ensures short { length result.now ≤ max_line_bytes + 1 }
{
    let len = line.len().min(MAX_LINE_BYTES as usize + 1);
    line.split_at(len).0
}

/// What stands after the first blanks and colons of a line, of its first 1,048,577 bytes.
pub(crate) fn line_start(line: &[u8]) -> &[u8]
    ensures start { result.now ≡ start_of line.now }
    ensures short { length result.now ≤ max_line_bytes + 1 }
{
    skip_leads(first_bytes(line))
}

/// What a command line is made of.
#[derive(Clone, Copy, Debug, PartialEq, Eq)]
pub(crate) struct LineParts<'a> {
    pub(crate) range: Range,
    pub(crate) word: &'a [u8],
    pub(crate) bang: bool,
    pub(crate) argument: &'a [u8],
}

/// The word after a range, and what is left.
fn split_word(range: Range, line: &[u8]) -> (&[u8], &[u8])
    ensures word { result.0.now ≡ word_after range line.now }
    ensures rest { result.1.now ≡ drop (length (word_after range line.now)) line.now }
    ensures shorter { length result.1.now ≤ length line.now }
{
    if is_given(range) && line.is_empty() {
        return (b"print", line);
    }
    if line.starts_with(b"=") {
        return line.split_at(1);
    }
    split_letters(line)
}

/// The parts of a line without the blanks and colons in front.
pub(crate) fn split_parts(start: &[u8]) -> LineParts<'_>
    requires { length start.now ≤ max_line_bytes + 1 }
    ensures parts { parts_in result ≡ parts_of start.now }
    ensures shorter { length result.argument.now ≤ length start.now }
{
    let (range, rest) = read_range(start);
    let (word, rest) = split_word(range, rest);
    let unbanged = after(b"!", rest);
    LineParts {
        range,
        word,
        bang: unbanged.is_some(),
        argument: skip_blanks(unbanged.unwrap_or(rest)),
    }
}
