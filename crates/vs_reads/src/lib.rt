//! Lines of a store that are read one after another, from runs that are copied out of it.
//!
//! A store finds the place of a line at each call, and a run finds it once for all its lines.
#![tactic(auto)]

mod lines;
mod newline;
mod reader;
mod runs;

pub use lines::{bytes_in, push_lines};
pub use newline::line_len;
pub use reader::LineReader;
pub use runs::{FIRST_RUN_LINES, MAX_RUN_LINES, RUN_BYTES, run_lines};
