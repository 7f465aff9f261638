//! Stores of pages: numbered blocks of 4,096 bytes that are changed, committed and rolled back.
//!
//! [`Pages`] says what every such store promises. [`MemPages`] keeps its pages in memory, and [`LentPages`] is the same
//! store over a borrow of them. [`failing::FailingPages`] is for tests of what stands on a store.
#![tactic(auto)]

mod before;
mod buffer;
mod change;
mod exchange;
pub mod failing;
mod history;
mod lent;
mod memory;
mod page;
mod pages;
mod presence;
mod table;
mod vacant;

pub use lent::LentPages;
pub use memory::MemPages;
pub use pages::{PAGE_SIZE, PageErr, Pages};
pub use presence::Presence;
