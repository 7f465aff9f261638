// A folder in memory.
ghost use Rattle.std.specs.Prelude.{length};
ghost use Rattle.vs_memory.specs.Folders.{IsMemFolder};

use crate::file::MemFile;
use crate::names::NameChange;

/// The files of a folder, and its name changes, the newest `pending` of which are not synced.
#[derive(Drop)]
pub struct MemFolder {
    pub changes: Vec<NameChange>,
    pub pending: usize,
    pub files: Vec<MemFile>,
    ghost sound: { IsMemFolder changes.items pending (length files.items) },
}
