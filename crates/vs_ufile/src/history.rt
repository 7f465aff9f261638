use vs_text::Line;

/// What an undo file says (docs/FORMATS.md, "Undo file"). Change numbers count from 1; as a link or head, 0 is none.
#[derive(Debug, Drop)]
pub struct FileHistory {
    /// SHA-256 of the text to which the history belongs: over its stored lines, each followed by a zero byte.
    pub digest: [u8; 32],
    /// The number of lines of that text, in its stored form.
    pub lines: u32,
    /// The oldest change in the list of the root; not used in reading.
    pub oldest: u32,
    /// The newest change, which is current where `current_head` is 0.
    pub newest: u32,
    /// The change that redo would make next, or 0.
    pub current_head: u32,
    /// The number of changes.
    pub heads: u32,
    /// The greatest change number that was ever given.
    pub last: u32,
    /// The number of the current change; not used in reading.
    pub current: u32,
    /// The time of the current change, in seconds since 1970.
    pub time: u64,
    /// The greatest save number that was ever given, or 0.
    pub last_save: u32,
    /// The changes, as they stand in the file.
    pub changes: Vec<FileChange>,
}

/// A change of the text, with its links to other changes.
#[derive(Debug, Drop)]
pub struct FileChange {
    pub number: u32,
    /// The parent, where this is the first change of its chain.
    pub next: u32,
    /// The child that was used last; not used in reading.
    pub prev: u32,
    /// The next change of the chain, whose changes have one parent.
    pub alt_next: u32,
    /// The previous change of the chain.
    pub alt_prev: u32,
    /// Whether the text on the other side of the change has no lines.
    pub empty: bool,
    /// In seconds since 1970.
    pub time: u64,
    /// The number of the write that saved the text after this change, or 0.
    pub save: u32,
    pub entries: Vec<FileEntry>,
}

/// An exchange of lines: those between the lines `top` and `bottom`, counted from 1, go out, and `lines` come in.
#[derive(Debug, Drop)]
pub struct FileEntry {
    /// The line above, or 0.
    pub top: u32,
    /// The line below, or 0 for the one past the last line.
    pub bottom: u32,
    /// The number of lines that the text had before the change; written as 0.
    pub count: u32,
    pub lines: Vec<Line>,
}
