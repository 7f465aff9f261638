//! A whole run: what the arguments ask for is done over one file or two, and the ending says how.
#![tactic(auto)]

mod edit;
mod ending;
mod form;
mod laws;
mod pair;
mod runs;
mod stress;
mod tagged;

pub use ending::Ending;
pub use form::Mode;
pub use laws::{edit_readers, edit_through, mode_due, pair_output, stress_through};
pub use runs::{Report, run};
