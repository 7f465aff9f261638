//! A text in the pages of a swap pair is written into its file, over the folder that has the swap files.
#![tactic(auto)]

mod desk;
mod laws;
mod name;
mod write;

pub use laws::still_names;
pub use write::write_text;
