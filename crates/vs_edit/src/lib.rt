//! Stores of one text that is changed by splices, committed and rolled back.
//!
//! [`LineStore`] says what every such store promises, and [`VecStore`] keeps its text in memory.
#![tactic(auto)]

pub mod failing;
mod generic;
mod room;
mod store;
mod vec_store;

pub use generic::text_of;
pub use room::{allows_splice, are_short, has_room};
pub use store::{LineStore, StoreErr};
pub use vec_store::VecStore;
