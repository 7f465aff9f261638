//! The meaning of the commands of the text, over any store of lines, and where each command works.
//!
//! [`plan`] says what a command that changes the text does to it, as one splice. [`place_of`] says where it does so, in
//! line numbers alone; [`shown`] and [`number_shown`] are for the commands that print, [`searched`] and [`literal`] for
//! those that look for lines.
#![tactic(auto)]

mod answer;
mod block;
mod joining;
mod limits;
mod meaning;
mod moving;
mod place;
mod replacing;
mod request;
mod substituting;

pub use answer::{Plan, PlanErr};
pub use meaning::{changes_text, is_text_command, plan};
pub use place::{LineZero, Place, Span, number_shown, place_of, searched, shown};
pub use replacing::literal;
pub use request::{Block, Request};
