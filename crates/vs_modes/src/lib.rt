//! What is done with the swap files of a file outside of a session: its text is recovered, they are described, or removed.
#![tactic(auto)]

mod describing;
mod discarding;
mod error;
mod recovering;
mod writing;

pub use describing::info;
pub use discarding::discard;
pub use error::ModeErr;
pub use recovering::{Recovery, recover};
