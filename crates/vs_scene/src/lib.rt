//! The text of scenarios, and the plain list of lines with a tree of texts by which a sweep judges a run. Nothing here knows of the
//! program: both are read from the scenario alone.
#![tactic(auto)]

mod commands;
mod error;
mod lines;
mod shown;
mod steps;
mod texts;
mod tree;

pub use commands::{Command, Parts, commands_of};
pub use error::{PlayErr, Refused};
pub use lines::{changed, file_of, lines_of, range_of};
pub use shown::show;
pub use steps::{Step, steps_of};
pub use texts::{Piece, text_of, word_of};
pub use tree::Tree;
