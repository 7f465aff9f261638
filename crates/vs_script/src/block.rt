// The lines of a block, as they are read.
ghost use Rattle.std.specs.Prelude.{◌≡◌, ◌<◌, ◌++◌, ◌∷◌, [], List, ℕ, Ok, length, false, true, OnOk};
ghost use Rattle.vs_exparse.specs.Command as meaning;
ghost use Rattle.vs_exparse.specs.Command.{command_of, wants_block};
ghost use Rattle.vs_exparse.specs.Form.{HasForm};
ghost use Rattle.vs_text.specs.Limits.{IsShort, IsWithinLimits};
ghost use Rattle.vs_text.specs.Text.{IsLine, bytes_of};
ghost use Rattle.vs_excmd.specs.Request.{IsFormed, StandsFor, is_absent};
ghost use Rattle.vs_script.specs.Ahead.{MeanSame};
ghost use Rattle.vs_script.specs.Block.{Holds, IsCounted};

use std::alloc::Global;
use vs_excmd::{Block, Request};
use vs_exparse::Command;
use vs_text::{Line, MAX_LINE_BYTES, MAX_LINES, MAX_TEXT_BYTES, TextErr};

/// The lines of a block so far.
#[derive(Drop)]
pub enum BlockLines {
    /// They are within the limits of a text, and have so many bytes, with one for each line end.
    Kept { lines: Vec<Line>, bytes: u64 },
    /// A line is too long.
    TooLong,
    /// No line is too long, but they are more than a text may have.
    TooMany,
    /// There was no memory for them.
    NoMemory,
}

fn is_too_long(line: &[u8]) -> bool
    ensures long { result ≡ true → MAX_LINE_BYTES < length line.now }
    ensures short { result ≡ false → IsShort line.now }
{
    line.len() as u64 > MAX_LINE_BYTES
}

fn push_line(alloc: Global, lines: &mut Vec<Line>, line: &[u8]) -> Result<(), TextErr>
    requires { IsLine line.now }
    ensures { OnOk result (lines.new.items ≡ lines.old.items ++ line.now ∷ []) }
{
    lines.push(Line::of(alloc, line)?)?;
    Ok(())
}

/// Lines of a block with one more that is not too long.
fn kept_with(alloc: Global, mut lines: Vec<Line>, bytes: u64, line: &[u8]) -> BlockLines
    requires line { IsLine line.now }
    requires short { IsShort line.now }
    requires counted { (bytes ≡ bytes_of lines.items) × IsWithinLimits lines.items }
    ensures holds { Holds result (lines.items ++ line.now ∷ []) }
    ensures counted { IsCounted result }
{
    let bytes = bytes + line.len() as u64 + 1;
    if bytes > MAX_TEXT_BYTES || lines.len() as u64 >= MAX_LINES {
        return BlockLines::TooMany;
    }
    match push_line(alloc, &mut lines, line) {
        Ok(()) => BlockLines::Kept { lines, bytes },
        Err(_) => BlockLines::NoMemory,
    }
}

impl BlockLines {
    pub(crate) fn new(alloc: Global) -> BlockLines
        ensures none { Holds result [] }
        ensures counted { IsCounted result }
    {
        BlockLines::Kept {
            lines: Vec::new(alloc),
            bytes: 0,
        }
    }

    /// With one more line, of which the bytes stand here that decide what it means.
    pub(crate) fn with(self, alloc: Global, line: &[u8]) -> BlockLines
        requires line { IsLine line.now }
        requires counted { IsCounted self }
        ensures holds { (lines : List (List ℕ)) (more : List ℕ) → Holds self lines → MeanSame line.now more → Holds result (lines ++ more ∷ []) }
        ensures counted { IsCounted result }
    {
        match self {
            BlockLines::Kept { lines, bytes } => {
                if is_too_long(line) {
                    return BlockLines::TooLong;
                }
                kept_with(alloc, lines, bytes, line)
            }
            BlockLines::TooMany => {
                if is_too_long(line) {
                    return BlockLines::TooLong;
                }
                BlockLines::TooMany
            }
            BlockLines::TooLong => BlockLines::TooLong,
            BlockLines::NoMemory => BlockLines::NoMemory,
        }
    }

    pub(crate) fn into_block(self) -> Block
        ensures stands { (lines : List (List ℕ)) → Holds self lines → StandsFor result lines }
        ensures there { is_absent result ≡ false }
    {
        match self {
            BlockLines::Kept { lines, .. } => Block::Lines(lines),
            BlockLines::TooLong => Block::TooLong,
            BlockLines::TooMany => Block::TooMany,
            BlockLines::NoMemory => Block::NoMemory,
        }
    }
}

/// A command that takes a block, with the lines of the block so far.
#[derive(Drop)]
pub(crate) struct OpenBlock {
    head: Command<'static>,
    lines: BlockLines,
}

impl OpenBlock {
    ghost use Rattle.vs_excmd.specs.Request.{IsRequest};
    ghost use Rattle.vs_script.specs.Feed.{BlockIsAt};
    ghost use Rattle.vs_script.specs.Script.{instruction};

    pub(crate) fn new(alloc: Global, head: Command<'static>) -> OpenBlock
        requires form { HasForm (command_of head) }
        requires wants { wants_block (command_of head) ≡ true }
        ensures { BlockIsAt result (command_of head.entry) [] }
    {
        OpenBlock {
            head,
            lines: BlockLines::new(alloc),
        }
    }

    /// With one more line, of which the bytes stand here that decide what it means.
    pub(crate) fn with(self, alloc: Global, line: &[u8]) -> OpenBlock
        requires line { IsLine line.now }
        requires counted { IsCounted self.lines }
        ensures { (command : meaning.Command) (lines : List (List ℕ)) (more : List ℕ) → BlockIsAt self command lines → MeanSame line.now more
            → BlockIsAt result command (lines ++ more ∷ []) }
    {
        let OpenBlock { head, lines } = self;
        OpenBlock {
            head,
            lines: lines.with(alloc, line),
        }
    }

    /// The command with its block.
    pub(crate) fn into_request(self) -> Request<'static>
        ensures meant { (command : meaning.Command) (lines : List (List ℕ)) → BlockIsAt self command lines
            → IsRequest result (instruction (Ok command) lines) }
        ensures form { (command : meaning.Command) (lines : List (List ℕ)) → BlockIsAt self command lines → IsFormed result }
    {
        let OpenBlock { head, lines } = self;
        Request {
            parsed: Ok(head),
            block: lines.into_block(),
        }
    }
}
