//! Two sessions in one folder: what each sees of the other's work, with the laws by which each keeps the promise of a session that is
//! alone, on the names of its family. No code runs in it.
#![tactic(auto)]

mod laws;

pub use laws::{apartness, beginning, opening, parting, quitting, standing, turning};
