// A command of a script with the lines that belong to it.
use vs_exparse::{Command, ExErr};
use vs_text::Line;

/// The block of a command: the lines after it, up to a line that is a single dot (`:help :append`).
#[derive(Debug, Drop)]
pub enum Block {
    /// The command takes none.
    Absent,
    /// The lines without the dot.
    Lines(Vec<Line>),
    /// A line is longer than 1,048,576 bytes.
    TooLong,
    /// No line is too long, but the lines alone are more than a text may have, or have more bytes.
    TooMany,
    /// There was no memory for the lines.
    NoMemory,
}

/// A command of a script, or the error of its line, with its block.
#[derive(Debug, Drop)]
pub struct Request<'a> {
    pub parsed: Result<Command<'a>, ExErr>,
    pub block: Block,
}
