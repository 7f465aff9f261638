//! The machine that answers Ex commands over the text of any store and its undo tree, and its replies.
#![tactic(auto)]

mod answering;
mod change;
mod command;
mod errors;
mod info;
mod listing;
mod moves;
mod nearby;
mod reply;
mod saved;
mod searching;
mod show;
mod shown;

pub use answering::{Answered, answer};
pub use command::{Mark, Outcome};
pub use info::FileInfo;
pub use reply::Reply;
pub use saved::saved_after;
pub use vs_excmd::{Block, Request};
pub use vs_undo::{Keep, UndoTree};
