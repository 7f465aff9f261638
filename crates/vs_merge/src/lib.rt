//! A line tree that stays filled: thin pointer blocks are joined with a neighbour, or take entries from it.
#![tactic(auto)]

mod below;
mod close;
mod even;
mod level;
mod open;
mod pair;
mod root;
mod settle;
mod splicing;
mod store;
mod tidy;

pub use settle::settle_tree;
pub use splicing::splice;
pub use store::MergedStore;
pub use tidy::tidy_tree;
