//! A text that is read in pieces, with no value of its own for each of its lines.
#![tactic(auto)]

mod file;
mod lines;
mod plain;
mod reader;

pub use file::FileReader;
pub use lines::{EndedLines, WholeLines, whole_lines};
pub use reader::PieceReader;
