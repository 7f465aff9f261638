//! Writing a file with the options of a backup: at every moment the file or its backup is whole.
#![tactic(auto)]

mod backup;
mod choose;
mod desk;
mod errors;
mod files;
mod fill;
mod options;
mod plain;
mod write;

pub use desk::Desk;
pub use errors::{Place, WriteErr};
pub use options::{CopyMode, WriteOptions};
pub use write::write_out;
