//! The global command over any store of lines: a command of the text that is carried out at each line that matches, or that does not.
//!
//! [`global`] says what the whole does to the text, as one splice; the store has its text as before. All lines are looked at before
//! anything is done; each is then found by a mark that goes along with the splices.
#![tactic(auto)]

mod carry;
mod command;
mod marking;
mod moving;
mod run;
mod search;
mod whole;

pub use command::global;
pub use run::{Run, Untouched};
pub use search::{Search, marked_lines};
