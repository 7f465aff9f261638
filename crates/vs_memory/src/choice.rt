// Which of the images of a folder is asked for.

/// What is kept of each file: its bytes as read, those of its last sync, or those as read with one byte throughout the ranges
/// that changed since then.
#[derive(Clone, Copy, Debug, Drop)]
pub enum Keep {
    Read,
    Synced,
    Byte(u8),
}

/// How many of the pending name changes are kept, from the oldest on, and what is kept of each file. A number above that of the
/// pending changes keeps them all.
#[derive(Clone, Copy, Debug, Drop)]
pub struct Choice {
    pub names: u32,
    pub keep: Keep,
}
