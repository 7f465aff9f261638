//! The folder model's words: what a stop may leave of a folder, what a call that is lent a folder does at each moment, and what
//! calls on some names leave of the others, with their laws.
#![tactic(auto)]

mod laws;

pub use laws::{after_a_call, restriction, synced_lasts};
