//! A host in memory whose calls are watched, a long text, and ways in which a page is altered, which tests of several crates share.
#![tactic(auto)]

mod altered;
mod lines;
mod watched;

pub use altered::{ALTERED, Altered};
pub use lines::many_lines;
pub use watched::{Watch, Watched};
