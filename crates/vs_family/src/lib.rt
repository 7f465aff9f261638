//! The names that the sessions on two files have to do with, and whether they share one.
#![tactic(auto)]

mod family;
mod laws;
mod pieces;
mod which;

pub use family::clash;
pub use laws::sharing;
pub use which::Which;
