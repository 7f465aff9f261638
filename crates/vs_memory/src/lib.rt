//! A host in memory, which tells everything and logs all its calls, so that it answers for every moment.
#![tactic(auto)]

mod choice;
mod file;
mod folder;
mod folder_calls;
mod host;
mod image;
mod log;
mod names;
mod play;
mod traits;

pub use choice::{Choice, Keep};
pub use host::MemHost;
