//! The options that `:set` sets (`:help :set`), and what it answers.
#![tactic(auto)]

mod setting;

pub use setting::{Options, first_options, full_text, set};
