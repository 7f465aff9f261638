//! What a stop may leave of a session's text, and what a run promises of it, with the laws by which a run keeps that promise. No
//! code runs in it.
#![tactic(auto)]

mod laws;

pub use laws::{ending, failing, handing, lasting, opening, running, splitting, standing};
