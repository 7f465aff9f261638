//! A store whose changes stand beside each other, or at two places in turn: it holds the lines between the first and the last of them,
//! with two gaps, so that a change costs no more than the way of the nearer gap to its place.
#![tactic(auto)]

mod ahead;
mod gap;
mod held;
mod lines;
mod store;

pub use ahead::Ahead;
pub use gap::GapLines;
pub use held::Held;
pub use lines::HeldLines;
pub use store::{GapStore, LineGiver, Overlay};
