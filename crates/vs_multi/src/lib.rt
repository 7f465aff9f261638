//! Two sessions on two files in one folder.
#![tactic(auto)]

mod multi;
mod opening;

pub use multi::{Multi, MultiStep};
pub use vs_family::{Which, clash};
pub use vs_session::{End, OpenErr, Reply, Request, Step};
