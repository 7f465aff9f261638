//! A session: one file's text, with its swap files, and one step of the machine that answers Ex commands on it.
#![tactic(auto)]

mod answering;
mod binding;
mod ending;
mod laws;
mod looking;
mod open;
mod opening;
mod pieces;
mod reading;
mod replacing;
mod session;
mod step;
mod storing;
mod summary;
mod taking;
mod unbinding;
mod writing;

pub use ending::End;
pub use laws::falling_behind;
pub use open::OpenErr;
pub use session::{Session, Step};
pub use summary::Summary;
pub use vs_machine::{Block, Mark, Outcome, Reply, Request};
