use vs_text::Format;

/// How a file that is there is written over, where a backup of it is made.
#[derive(Clone, Copy, Debug, PartialEq, Eq)]
pub enum CopyMode {
    /// The file is copied to the backup, and then written over in its place.
    Yes,
    /// The file is renamed to the backup, and then made anew.
    No,
    /// The same as `No`.
    Auto,
}

/// The options of a write.
#[derive(Clone, Copy, Debug, PartialEq, Eq)]
pub struct WriteOptions {
    /// A backup is kept.
    pub backup: bool,
    /// A backup is made while the file is written, and removed afterwards unless it is kept.
    pub writebackup: bool,
    pub copy: CopyMode,
    /// How the lines of the file end (`:help 'fileformat'`).
    pub format: Format,
}
