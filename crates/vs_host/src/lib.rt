//! The outside of the editing core: a folder, a script, an output and a clock, as traits over one meaning, the scene.
#![tactic(auto)]

mod file_name;
mod laws;
mod names;
mod traits;

pub use file_name::FileName;
pub use laws::laws_of_names;
pub use names::{NameErr, Names, allowed};
pub use traits::{Clock, Failed, Folder, Host, Out, Script, World};
