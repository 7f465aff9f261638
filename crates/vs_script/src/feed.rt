// The commands of a script, as its lines come one by one.
ghost use Rattle.std.specs.Prelude.{◌≡◌, List, ℕ, None, IfSome};
ghost use Rattle.vs_text.specs.Text.{IsLine};
ghost use Rattle.vs_excmd.specs.Request.{IsFormed};
ghost use Rattle.vs_script.specs.Ahead.{MeanSame};
ghost use Rattle.vs_script.specs.Feed.{HasEnded, HasForm, IsAt, IsEnded, IsReady, Reading, ended_last, takes};
ghost use Rattle.vs_script.specs.Feed.Reading.{Between};

use crate::block::OpenBlock;
use crate::kind::{ScriptLine, alone, ends_block, line_kind};
use std::alloc::Global;
use vs_excmd::{Block, Request};

/// Makes the commands of a script of its lines, which are handed over one by one. Several scripts may come over one reader, each with
/// a feed of its own.
#[derive(Drop)]
pub struct CommandFeed {
    block: Option<OpenBlock>,
}

/// What a line ends.
#[derive(Drop)]
pub(crate) enum Fed {
    /// No command.
    Nothing,
    /// The line is a command by itself, or is refused.
    Alone,
    /// A command with its block.
    Block(Request<'static>),
}

impl CommandFeed {
    /// At the start of a script.
    pub fn new() -> CommandFeed
        ensures { IsAt result Between }
    {
        CommandFeed { block: None }
    }

    // What a line ends that stands in no block.
    fn begin(&mut self, alloc: Global, line: &[u8]) -> Fed
        requires { self.old.block ≡ None }
        ensures takes { (more : List ℕ) → MeanSame line.now more
            → let taken = takes Between more in HasEnded result line.now taken.ended × IsAt self.new taken.reading }
        ensures form { HasForm result line.now }
    {
        match line_kind(line) {
            ScriptLine::NoCommand => Fed::Nothing,
            ScriptLine::Alone => Fed::Alone,
            ScriptLine::Head(command) => {
                self.block = Some(OpenBlock::new(alloc, command));
                Fed::Nothing
            }
        }
    }

    /// What the next line ends. Of a line that is too long to mean anything else the first 1,048,577 bytes are enough.
    pub(crate) fn take_line(&mut self, alloc: Global, line: &[u8]) -> Fed
        requires line { IsLine line.now }
        requires ready { IsReady self.old }
        ensures takes { (reading : Reading) (more : List ℕ) → IsAt self.old reading → MeanSame line.now more
            → let taken = takes reading more in HasEnded result line.now taken.ended × IsAt self.new taken.reading }
        ensures form { HasForm result line.now }
    {
        match self.block.take() {
            None => self.begin(alloc, line),
            Some(begun) => {
                if ends_block(line) {
                    return Fed::Block(begun.into_request());
                }
                self.block = Some(begun.with(alloc, line));
                Fed::Nothing
            }
        }
    }

    /// The command that the next line ends, if it ends one. A command borrows from its line, and one with a block borrows nothing. Of a
    /// line that is too long to mean anything else the first 1,048,577 bytes are enough. The lines of a block for which there is no
    /// memory are taken all the same, and the block tells it.
    pub fn feed<'a>(&mut self, alloc: Global, line: &'a [u8]) -> Option<Request<'a>>
        requires line { IsLine line.now }
        requires ready { IsReady self.old }
        ensures takes { (reading : Reading) (more : List ℕ) → IsAt self.old reading → MeanSame line.now more
            → let taken = takes reading more in IsEnded result taken.ended × IsAt self.new taken.reading }
        ensures form { IfSome result (λ request. IsFormed request) }
    {
        match self.take_line(alloc, line) {
            Fed::Nothing => None,
            Fed::Alone => Some(Request {
                parsed: alone(line),
                block: Block::Absent,
            }),
            Fed::Block(request) => Some(request),
        }
    }

    /// The command that the script's end ends, where a block is open. The feed is at the start of a script then.
    pub fn end(&mut self) -> Option<Request<'static>>
        requires { IsReady self.old }
        ensures ended { (reading : Reading) → IsAt self.old reading → IsEnded result (ended_last reading) }
        ensures form { IfSome result (λ request. IsFormed request) }
        ensures left { IsAt self.new Between }
    {
        match self.block.take() {
            None => None,
            Some(begun) => Some(begun.into_request()),
        }
    }
}
