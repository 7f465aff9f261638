// A folder in memory with files, over which a text is written.
ghost use Rattle.std.specs.Prelude.{◌≡◌, IfOk};
ghost use Rattle.vs_edit.specs.Texts.{AreSound};
ghost use Rattle.vs_host.specs.Names.{AreNames};

use crate::desk::{TextDesk, store_of};
use std::alloc::Global;
use std::test::Fail;
use vs_backup::{CopyMode, WriteErr, WriteOptions, write_out};
use vs_host::{Folder, Names};
use vs_memory::{Choice, Keep, MemHost};
use vs_text::Format;

/// What the file has before a write, and what is written.
pub const OLD: &[u8] = b"a\n";

pub const NEW: &[u8] = b"a\nx\n";

/// A stop leaves these bytes where a file was changed and not synced.
pub const KEEPS: [Keep; 3] = [Keep::Read, Keep::Synced, Keep::Byte(b'?')];

/// As many name changes as are pending at once in a write, and none.
pub const PREFIXES: [u32; 5] = [0, 1, 2, 3, 4];

/// Options by whether a backup is kept, whether one is made, and how. The format is unix.
pub(crate) fn options(backup: bool, writebackup: bool, copy: CopyMode) -> WriteOptions {
    WriteOptions {
        backup,
        writebackup,
        copy,
        format: Format::Unix,
    }
}

fn put(alloc: Global, host: &mut MemHost, name: &str, bytes: &[u8]) -> Result<(), Fail> {
    if host.calls() != 0 || host.file(name).is_some() {
        return Err(Fail::new("it is too late for the file"));
    }
    host.put(alloc, name, Vec::from_slice(alloc, bytes)?)?;
    Ok(())
}

/// A folder with these files, and the text that is to be written.
pub(crate) fn desk_with(alloc: Global, files: &[(&str, &[u8])]) -> Result<TextDesk<MemHost>, Fail>
    ensures { IfOk result (λ desk. AreSound desk.text) }
{
    let mut folder = MemHost::new(alloc, Vec::new(alloc))?;
    for (name, bytes) in files {
        put(alloc, &mut folder, name, bytes)?;
    }
    let text = store_of(alloc, NEW)?;
    Ok(TextDesk { folder, text })
}

/// The names that go with the file of this name.
pub(crate) fn names_of(alloc: Global, name: &str) -> Result<Names, Fail>
    ensures { IfOk result AreNames }
{
    match Names::of(alloc, name) {
        Ok(names) => Ok(names),
        Err(_) => Err(Fail::new("the name is not allowed")),
    }
}

/// Writes the text of the desk into the file of this name.
pub(crate) fn write_to<F: Folder>(
    alloc: Global,
    desk: &mut TextDesk<F>,
    name: &str,
    options: &WriteOptions,
) -> Result<Result<u64, WriteErr>, Fail>
    requires { AreSound desk.old.text }
{
    let names = names_of(alloc, name)?;
    Ok(write_out(
        alloc,
        desk,
        names.file.as_str(),
        names.file_new.as_str(),
        options,
    ))
}

/// What an image has under a name; `-` where it has no file.
pub(crate) fn left(
    alloc: Global,
    host: &MemHost,
    names: u32,
    keep: Keep,
    name: &str,
) -> Result<Vec<u8>, Fail> {
    let image = host.image(alloc, &Choice { names, keep }, Vec::new(alloc))?;
    let bytes = image.file(name).unwrap_or(b"-");
    Ok(Vec::from_slice(alloc, bytes)?)
}

/// Whether each image has under the name one of these bytes; `-` stands for no file.
pub(crate) fn always(
    alloc: Global,
    host: &MemHost,
    name: &str,
    allowed: &[&[u8]],
) -> Result<bool, Fail> {
    for names in PREFIXES {
        for keep in KEEPS {
            let bytes = left(alloc, host, names, keep, name)?;
            if !allowed.iter().any(|it| *it == bytes.as_slice()) {
                return Ok(false);
            }
        }
    }
    Ok(true)
}

/// Whether each image has these bytes under these names; `-` stands for no file.
pub(crate) fn are_always(
    alloc: Global,
    host: &MemHost,
    files: &[(&str, &[u8])],
) -> Result<bool, Fail> {
    for (name, bytes) in files {
        if !always(alloc, host, name, &[*bytes])? {
            return Ok(false);
        }
    }
    Ok(true)
}
