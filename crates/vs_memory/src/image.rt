// One image of a folder as a new host.
ghost use Rattle.std.specs.Prelude.{◌≡◌, ◌≤◌, ◌<◌, ◌⊎◌, ◌+◌, reverse, [], get_or, ℕ, List, All, IfOk, OnOk, IsSome, length};
ghost use Rattle.vs_host.specs.Disk.{IsImage, content_in};
ghost use Rattle.vs_host.specs.File.{put};
ghost use Rattle.vs_memory.specs.Folders.{file_of, ranges_of, before_change, undone, IsBelow};
ghost use Rattle.vs_memory.specs.Present.{disk_in};
ghost use Rattle.vs_memory.specs.Memory.{fresh_memory, folder_of};
ghost use Rattle.vs_memory.specs.Images.{filled, kept_bytes, chosen, names_after, put_under, AreLeft, IsPut};

use crate::choice::{Choice, Keep};
use crate::file::{Changed, MemFile};
use crate::folder::MemFolder;
use crate::host::MemHost;
use crate::names::{NameChange, number_of};
use std::alloc::{AllocError, Global};

/// Writes a byte throughout a range.
fn fill(bytes: &mut [u8], at: usize, len: usize, byte: u8)
    ensures size { length bytes.new ≡ length bytes.old }
    ensures inside { (k : ℕ) → k < length bytes.old → at ≤ k → k < at + len → get_or bytes.new k 0 ≡ byte }
    ensures outside { (k : ℕ) → (k < at) ⊎ (at + len ≤ k) → get_or bytes.new k 0 ≡ get_or bytes.old k 0 }
{
    let end = at.saturating_add(len).min(bytes.len());
    for k in at..end {
        bytes[k] = byte;
    }
}

/// Writes a byte throughout these ranges.
fn fill_all(bytes: &mut [u8], ranges: &[Changed], byte: u8)
    ensures { bytes.new ≡ filled (ranges_of ranges.now) byte bytes.old }
{
    for range in ranges {
        fill(bytes, range.at, range.len, byte);
    }
}

/// Puts a piece in the place of as many bytes.
fn put_over(bytes: &mut [u8], at: usize, piece: &[u8])
    requires { at + length piece.now ≤ length bytes.old }
    ensures { bytes.new ≡ put bytes.old at piece.now }
{
    bytes[at..at + piece.len()].copy_from_slice(piece);
}

/// Puts back what was there before a range changed. It touches no other bytes, unless the range had another length then and
/// bytes come after it.
fn undo(alloc: Global, bytes: &mut Vec<u8>, range: &Changed) -> Result<(), AllocError>
    ensures { OnOk result (bytes.new.items ≡ before_change range.now bytes.old.items) }
{
    let end = range.at.saturating_add(range.len).min(bytes.len());
    if range.at <= end && range.before.len() == end - range.at {
        put_over(bytes, range.at, &range.before);
        return Ok(());
    }
    let rest = Vec::from_slice(alloc, &bytes[end..])?;
    bytes.truncate(range.at);
    bytes.extend_from_slice(&range.before)?;
    bytes.extend_from_slice(&rest)?;
    Ok(())
}

/// Puts back what was there before these ranges changed, the newest first.
fn undo_all(alloc: Global, bytes: &mut Vec<u8>, ranges: &[Changed]) -> Result<(), AllocError>
    ensures { OnOk result (bytes.new.items ≡ undone (reverse ranges.now) bytes.old.items) }
{
    let mut i = ranges.len();
    while i > 0 {
        i -= 1;
        undo(alloc, bytes, &ranges[i])?;
    }
    Ok(())
}

/// What is kept of a file.
fn keep_file(alloc: Global, file: &MemFile, keep: Keep) -> Result<Vec<u8>, AllocError>
    ensures { IfOk result (λ bytes. bytes.items ≡ kept_bytes keep (file_of file.now)) }
{
    let mut bytes = Vec::from_slice(alloc, &file.bytes)?;
    match keep {
        Keep::Read => {}
        Keep::Synced => undo_all(alloc, &mut bytes, &file.changed)?,
        Keep::Byte(byte) => fill_all(&mut bytes, &file.changed, byte),
    }
    Ok(bytes)
}

/// Puts a file under a name, where it leads to one after these changes.
fn put_one(
    alloc: Global,
    folder: &MemFolder,
    kept: &[NameChange],
    name: &str,
    keep: Keep,
    host: &mut MemHost,
) -> Result<(), AllocError>
    requires unused { host.old.calls ≡ 0 }
    requires fresh { host.old.log ≡ [] }
    requires below { All (IsBelow (length folder.now.files.items)) kept.now }
    ensures frame { host.new ≡ record host.old { base = host.new.base } }
    ensures grows { (x : List ℕ) → IsSome (put_under host.old.base x) → IsSome (put_under host.new.base x) }
    ensures left { AreLeft keep folder.now.files.items kept.now host.old.base → AreLeft keep folder.now.files.items kept.now host.new.base }
    ensures named { OnOk result (IsSome (names_after kept.now name.now) → IsSome (put_under host.new.base name.now)) }
{
    if host.file(name).is_some() {
        return Ok(());
    }
    if let Some(number) = number_of(kept, name) {
        let bytes = keep_file(alloc, &folder.files[number], keep)?;
        host.put(alloc, name, bytes)?;
    }
    Ok(())
}

/// Puts a file under the name that a change gives.
fn put_given(
    alloc: Global,
    folder: &MemFolder,
    kept: &[NameChange],
    change: &NameChange,
    keep: Keep,
    host: &mut MemHost,
) -> Result<(), AllocError>
    requires unused { host.old.calls ≡ 0 }
    requires fresh { host.old.log ≡ [] }
    requires below { All (IsBelow (length folder.now.files.items)) kept.now }
    ensures frame { host.new ≡ record host.old { base = host.new.base } }
    ensures grows { (x : List ℕ) → IsSome (put_under host.old.base x) → IsSome (put_under host.new.base x) }
    ensures left { AreLeft keep folder.now.files.items kept.now host.old.base → AreLeft keep folder.now.files.items kept.now host.new.base }
    ensures named { OnOk result (IsPut kept.now host.new.base change.now) }
{
    match change {
        NameChange::Create(name, _) => put_one(alloc, folder, kept, name, keep, host),
        NameChange::Rename(_, name) => put_one(alloc, folder, kept, name, keep, host),
        NameChange::Remove(_) => Ok(()),
    }
}

/// The image of a folder that the choice makes, as a new host.
fn folder_image(
    alloc: Global,
    folder: &MemFolder,
    choice: &Choice,
    script: Vec<u8>,
) -> Result<MemHost, AllocError>
    ensures chosen { IfOk result (λ host. (name : List ℕ) → put_under host.base name ≡ chosen choice.now (disk_in folder.now) name) }
    ensures fresh { IfOk result (λ host. host ≡ record (fresh_memory script.items) { base = host.base }) }
{
    let lost = folder.pending - folder.pending.min(choice.names as usize);
    let kept = &folder.changes[..folder.changes.len() - lost];
    let mut host = MemHost::new(alloc, script)?;
    for change in kept {
        put_given(alloc, folder, kept, change, choice.keep, &mut host)?;
    }
    Ok(host)
}

impl MemHost {
    /// The image of the folder that the choice makes, as a new host with nothing pending.
    pub fn image(
        &self,
        alloc: Global,
        choice: &Choice,
        script: Vec<u8>,
    ) -> Result<MemHost, AllocError>
        ensures chosen { IfOk result (λ host. (name : List ℕ) → content_in (folder_of host) name ≡ chosen choice.now (folder_of self.now) name) }
        ensures image { IfOk result (λ host. IsImage (folder_of self.now) (λ name. content_in (folder_of host) name)) }
        ensures fresh { IfOk result (λ host. host ≡ record (fresh_memory script.items) { base = host.base }) }
    {
        folder_image(alloc, &self.folder, choice, script)
    }
}
