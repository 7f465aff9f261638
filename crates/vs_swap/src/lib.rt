//! What the bytes of swap files stand for, and what is recovered from two of them, with their laws. No code runs in it.
#![tactic(auto)]

mod laws;

pub use laws::{pages_stand, recovered_once, stands_once};
