//! Undo files of Vim, version 2: the history of a text as bytes, both ways (docs/FORMATS.md, "Undo file").
//!
//! A [`FileHistory`] is what such a file says, with its change numbers and links as they stand. `decode` refuses
//! whatever is not an undo file, with the place of the first fault; `encode` writes a history that keeps the format's
//! rules, so that `decode` gives it back. Which text a history belongs to, and what its changes do there, is not said
//! here.
#![tactic(auto)]

mod answer;
mod chains;
mod changes;
mod descent;
mod encoding;
mod error;
mod fault;
mod fields;
mod form;
mod history;
mod link;
mod parents;
mod reading;
mod signature;
mod tree;
mod walks;
mod writing;

pub use answer::{decode, none_is_early, none_is_late, one_reading, same_format};
pub use descent::{Lineage, lineage_of};
pub use encoding::{encode, round_trip};
pub use error::{UfErr, UfKind};
pub use history::{FileChange, FileEntry, FileHistory};
pub use signature::{SIGNATURE_BYTES, check_signature};
