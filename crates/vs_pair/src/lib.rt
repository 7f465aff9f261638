//! The two swap files of a session: made, synced in turn so that one of them stands at each moment, and removed.
#![tactic(auto)]

mod cache;
mod ending;
mod fetching;
mod files;
mod gate;
mod head;
mod laws;
mod lent;
mod making;
mod pair;
mod sending;
mod side;
mod stale;
mod start;
mod writing;
mod written;

pub use files::SwapFiles;
pub use gate::Gate;
pub use head::Head;
pub use laws::{beginning, changing, fitting, leaving, recovering, sparing};
pub use lent::PairPages;
pub use pair::SwapPair;
pub use side::Side;
