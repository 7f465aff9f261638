//! Whether the entries of a history fit a text.
#![tactic(auto)]

mod crossing;
mod fitting;
mod order;
mod trail;
mod turn;
mod way;

pub use fitting::first_misfit;
