//! The commands of the stress mode, which try a session under many changes.
#![tactic(auto)]

mod arguments;
mod commands;

pub use arguments::{count_of, summary_line};
pub use commands::{generated, preserve};
