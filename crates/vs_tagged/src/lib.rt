//! Replies of several sessions in one output: each of their lines stands after the tag of its session.
#![tactic(auto)]

mod laws;
mod put;

pub use laws::reading_back;
pub use put::put_tagged;
