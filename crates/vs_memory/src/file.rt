// A file in memory.
ghost use Rattle.std.specs.Prelude.{◌≡◌, ◌≤◌, [], length, take, drop, OnOk, OnErr, IfOk};
ghost use Rattle.vs_host.specs.File.{put, synced_file, Writes, Cuts, Syncs};
ghost use Rattle.vs_memory.specs.Folders.{file_of};

use std::alloc::{AllocError, Global};

// All may read the file, and its owner may write it.
pub const USUAL_MODE: u32 = 0o644;

// The owner alone may.
pub const OWNER_MODE: u32 = 0o600;

/// A range of bytes that changed, and what was there before. Past the file's end there was nothing.
#[derive(Drop)]
pub struct Changed {
    pub at: usize,
    pub len: usize,
    pub before: Vec<u8>,
}

/// The mode of a file and its bytes, and what was done to these since its last sync, the oldest first.
#[derive(Drop)]
pub struct MemFile {
    pub mode: u32,
    pub bytes: Vec<u8>,
    pub changed: Vec<Changed>,
    pub least: usize,
    pub greatest: usize,
}

pub fn empty(alloc: Global, mode: u32) -> MemFile
    ensures file { file_of result ≡ synced_file [] }
    ensures mode { result.mode ≡ mode }
{
    MemFile {
        mode,
        bytes: Vec::new(alloc),
        changed: Vec::new(alloc),
        least: 0,
        greatest: 0,
    }
}

/// A file that has these bytes since its last sync.
pub fn of_bytes(alloc: Global, mode: u32, bytes: Vec<u8>) -> MemFile
    ensures file { file_of result ≡ synced_file bytes.items }
    ensures mode { result.mode ≡ mode }
{
    let size = bytes.len();
    MemFile {
        mode,
        bytes,
        changed: Vec::new(alloc),
        least: size,
        greatest: size,
    }
}

/// The range of `len` bytes from `at` on, before it changes.
fn changed_at(alloc: Global, bytes: &[u8], at: usize, len: usize) -> Result<Changed, AllocError>
    requires { at ≤ length bytes.now }
    ensures { IfOk result (λ range. (range.at ≡ at) × (range.len ≡ len) × (range.before.items ≡ take len (drop at bytes.now))) }
{
    let end = at + len.min(bytes.len() - at);
    let before = Vec::from_slice(alloc, &bytes[at..end])?;
    Ok(Changed { at, len, before })
}

/// Puts a piece in the place of the bytes from `at` on.
fn put_bytes(bytes: &mut Vec<u8>, at: usize, piece: &[u8]) -> Result<(), AllocError>
    requires { at ≤ length bytes.old.items }
    ensures ok { OnOk result (bytes.new.items ≡ put bytes.old.items at piece.now) }
    ensures err { OnErr result (bytes.new.items ≡ bytes.old.items) }
{
    let over = piece.len().min(bytes.len() - at);
    bytes.extend_from_slice(&piece[over..])?;
    bytes[at..at + over].copy_from_slice(&piece[..over]);
    Ok(())
}

impl MemFile {
    /// Writes a piece.
    pub fn write_at(&mut self, alloc: Global, at: usize, piece: &[u8]) -> Result<(), AllocError>
        requires { at ≤ length self.old.bytes.items }
        ensures ok { OnOk result (Writes at piece.now (file_of self.old) (file_of self.new)) }
        ensures err { OnErr result (file_of self.new ≡ file_of self.old) }
        ensures mode { self.new.mode ≡ self.old.mode }
    {
        let size = self.bytes.len();
        let range = changed_at(alloc, &self.bytes, at, piece.len())?;
        self.changed.push(range)?;
        if let Err(error) = put_bytes(&mut self.bytes, at, piece) {
            self.changed.pop();
            return Err(error);
        }
        self.least = self.least.min(size);
        self.greatest = self.greatest.max(size);
        Ok(())
    }

    /// Takes away the bytes from `len` on.
    pub fn cut(&mut self, alloc: Global, len: usize) -> Result<(), AllocError>
        requires { len ≤ length self.old.bytes.items }
        ensures ok { OnOk result (Cuts len (file_of self.old) (file_of self.new)) }
        ensures err { OnErr result (file_of self.new ≡ file_of self.old) }
        ensures mode { self.new.mode ≡ self.old.mode }
    {
        let size = self.bytes.len();
        let range = changed_at(alloc, &self.bytes, len, size - len)?;
        self.changed.push(range)?;
        self.bytes.truncate(len);
        self.least = self.least.min(size);
        self.greatest = self.greatest.max(size);
        Ok(())
    }

    /// Syncs the file.
    pub fn sync(&mut self)
        ensures file { Syncs (file_of self.old) (file_of self.new) }
        ensures mode { self.new.mode ≡ self.old.mode }
    {
        self.changed.clear();
        self.least = self.bytes.len();
        self.greatest = self.bytes.len();
    }
}
