//! Tests of texts, of the stores of one text and of what reads them, and what tests of several crates share.
#![tactic(auto)]

mod numbers;
mod pieces;
#[cfg(test)]
mod reads;
#[cfg(test)]
mod texts;
#[cfg(test)]
mod vec_store;

pub use numbers::Numbers;
