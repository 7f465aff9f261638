//! The script of two sessions: each line goes to one of them by its first two bytes, or to none.
#![tactic(auto)]

mod laws;
mod splitting;

pub use laws::dividing;
pub use splitting::{PREFIX_BYTES, split};
pub use vs_family::Which;
