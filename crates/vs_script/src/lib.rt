//! Reads a script of Ex commands, command by command, in pieces as a host gives them.
#![tactic(auto)]

mod block;
mod feed;
mod kind;
mod line;
mod reader;
mod request;

pub use feed::CommandFeed;
pub use line::LineBuffer;
pub use reader::{SCRIPT_LIMIT, ScriptErr, ScriptReader};
