// Lines in one piece of memory.
ghost use Rattle.std.specs.Prelude.{◌≡◌, ◌<◌, ◌≤◌, ◌++◌, ◌∷◌, [], MatchOption, OnErr, OnOk, count_by, length};
ghost use Rattle.vs_pieces.specs.Whole.{AreWhole, is_end};
ghost use Rattle.vs_text.specs.Text.{IsLine, file_of, lines_of};

use memchr::memrchr;
use std::alloc::{AllocError, Global};
use std::marker::Model;

/// The greatest number of bytes whose line ends are counted in a byte: a multiple of the bytes that a step takes.
const SHORT_PART: usize = 192;

/// Lines in the file form of a text, each ended by byte 10, seen as the list of them (docs/FORMATS.md, "The file form of a text").
#[derive(Debug, Drop)]
pub struct EndedLines {
    bytes: Vec<u8>,
    ghost whole: { file_of (lines_of bytes.items) ≡ bytes.items },
}

impl Model for EndedLines {
    ghost use Rattle.std.specs.Prelude.{ℕ, List};
    ghost use Rattle.vs_text.specs.Text.{lines_of};

    ghost Value = { List (List ℕ) };

    ghost view = { λ lines. lines_of lines.bytes.items };
}

/// The lines that end in some bytes with their ends, how many they are, and the bytes after the last line end.
#[derive(Clone, Copy)]
pub struct WholeLines<'b> {
    pub lines: &'b [u8],
    pub count: u64,
    pub rest: &'b [u8],
}

/// Finds the lines that end in some bytes.
pub fn whole_lines(bytes: &[u8]) -> WholeLines<'_>
    ensures { AreWhole bytes.now result }
{
    let (lines, rest) = split_ended(bytes);
    let count = count_ends(lines);
    WholeLines { lines, count, rest }
}

// The bytes up to the last line end, with it, and those after it.
fn split_ended(bytes: &[u8]) -> (&[u8], &[u8])
    ensures cut { bytes.now ≡ result.0.now ++ result.1.now }
    ensures whole { file_of (lines_of result.0.now) ≡ result.0.now }
    ensures line { IsLine result.1.now }
{
    match memrchr(b'\n', bytes) {
        Some(last) => bytes.split_at(last + 1),
        None => bytes.split_at(0),
    }
}

// The number of line ends. It is summed over short parts, since a count that is a byte is taken of many bytes in one step.
fn count_ends(bytes: &[u8]) -> u64
    ensures { result ≡ count_by is_end bytes.now }
{
    let mut count = 0;
    let mut rest = bytes;
    'parts: while !rest.is_empty() {
        let (part, after) = rest.split_at(rest.len().min(SHORT_PART));
        count += u64::from(count_few_ends(part));
        rest = after;
    }
    count
}

// The number of line ends of a short part.
fn count_few_ends(part: &[u8]) -> u8
    requires { length part.now ≤ SHORT_PART }
    ensures { result ≡ count_by is_end part.now }
{
    let mut count = 0;
    for byte in part {
        if *byte == b'\n' {
            count += 1;
        }
    }
    count
}

// Adds a line and byte 10. After an error the bytes are as before.
fn append_line(bytes: &mut Vec<u8>, line: &[u8]) -> Result<(), AllocError>
    ensures ok { OnOk result (bytes.new.items ≡ (bytes.old.items ++ line.now) ++ 10 ∷ []) }
    ensures err { OnErr result (bytes.new.items ≡ bytes.old.items) }
{
    let end = bytes.len();
    bytes.extend_from_slice(line)?;
    if bytes.push(b'\n').is_err() {
        bytes.truncate(end);
        return Err(AllocError);
    }
    Ok(())
}

impl EndedLines {
    /// No lines. It takes no memory.
    pub fn new(alloc: Global) -> EndedLines
        ensures { result ≡ [] }
    {
        EndedLines {
            bytes: Vec::new(alloc),
        }
    }

    /// The bytes of the lines, each followed by byte 10.
    pub fn bytes(&self) -> &[u8]
        ensures lines { lines_of result.now ≡ self.now }
        ensures bytes { result.now ≡ file_of self.now }
    {
        self.bytes.as_slice()
    }

    /// Adds a copy of a line after the others. After an error they are as before.
    pub fn push(&mut self, line: &[u8]) -> Result<(), AllocError>
        requires { IsLine line.now }
        ensures ok { OnOk result (self.new ≡ self.old ++ line.now ∷ []) }
        ensures err { OnErr result (self.new ≡ self.old) }
    {
        append_line(&mut self.bytes, line)?;
        Ok(())
    }

    /// Adds copies of lines after the others, from the bytes of them with their ends. After an error they are as before.
    pub fn append(&mut self, lines: &[u8]) -> Result<(), AllocError>
        requires { file_of (lines_of lines.now) ≡ lines.now }
        ensures ok { OnOk result (self.new ≡ self.old ++ lines_of lines.now) }
        ensures err { OnErr result (self.new ≡ self.old) }
    {
        self.bytes.extend_from_slice(lines)?;
        Ok(())
    }
}
