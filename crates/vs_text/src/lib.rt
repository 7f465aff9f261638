//! Lines and texts: how they are read from a file, written to one, and stored in the blocks of a swap file.
#![tactic(auto)]

mod error;
mod format;
mod laws;
mod line;
mod line_ends;
mod read;
mod reader;
mod scan;
mod stored;
mod text;
mod write;

pub use error::TextErr;
pub use format::Format;
pub use laws::{ended_lines, reads_what_was_written, writes_what_was_read};
pub use line::Line;
pub use line_ends::{ended_line, without_return};
pub use read::read_text;
pub use reader::TextReader;
pub use scan::FormatScan;
pub use stored::{from_stored, to_stored};
pub use text::Text;
pub use write::{append_lines, write_text};

/// The greatest number of lines of a text.
pub const MAX_LINES: u64 = 4_000_000;

/// The greatest number of bytes of a line, without its end.
pub const MAX_LINE_BYTES: u64 = 1_048_576;

/// The greatest number of bytes of a text, with one for each line end.
pub const MAX_TEXT_BYTES: u64 = 268_435_456;

// The limits in numbers, which no other numbers meet.
const _: () = prove!(MAX_LINES == 4_000_000);

const _: () = prove!(MAX_LINE_BYTES == 1_048_576);

const _: () = prove!(MAX_TEXT_BYTES == 268_435_456);
