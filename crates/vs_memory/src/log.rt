// The log of the calls on a host.

/// A call and what it was given; of a file that is made, its mode.
#[derive(Drop)]
pub enum Call {
    Read,
    Write(Vec<u8>),
    Has(String),
    Create(String, u32),
    Len(String),
    ReadAt(String),
    WriteAt(String, u64, Vec<u8>),
    Cut(String, u64),
    Sync(String),
    SyncLike(String, String),
    Rename(String, String),
    Remove(String),
    SyncNames,
}

/// A call that was made, whether it succeeded, and the counts after it.
#[derive(Drop)]
pub struct Entry {
    pub call: Call,
    pub done: bool,
    pub script_faults: u64,
    pub out_faults: u64,
    pub folder_faults: u64,
    pub answered: u64,
}

/// The part of the outside that a call is on.
#[derive(Clone, Copy, Drop)]
pub enum Part {
    Script,
    Out,
    Folder,
}
