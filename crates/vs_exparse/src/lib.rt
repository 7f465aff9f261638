//! The grammar of Ex command lines (`:help cmdline-lines`): what a line is made of, which command it names, and why it is
//! refused.
//!
//! [`parse`] gives a command with its range and arguments as they were written; what they mean on a text is the matter of
//! other crates. No call takes memory. The grammar is that of docs/FORMATS.md, "Command lines".
#![tactic(auto)]

mod argument;
mod bytes;
mod command;
mod line;
mod nested;
mod parts;
mod pieces;
mod range;
mod single;
mod table;
mod words;

pub use bytes::skip_blanks;
pub use command::{Address, Base, Command, ExErr, Parsed, Range, Setting};
pub use line::{first_bytes_decide, parse};
pub use nested::parse_nested;
pub use parts::MAX_LINE_BYTES;
pub use pieces::{Piece, next_piece};
pub use table::NameTable;
pub use words::{NAMES, Rule, Word, names_do_not_clash};
