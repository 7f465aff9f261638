//! A text in the pages of a pair of swap files: read in, started, synced, and ended.
#![tactic(auto)]

mod head;
mod laws;
mod opening;
mod paged;
mod syncing;

pub use laws::{fitting, leaving};
pub use opening::OpeningText;
pub use paged::PagedText;
