// The names of backups.
ghost use Rattle.std.specs.Prelude.{◌<◌, ◌≤◌, IfOk};
ghost use Rattle.vs_edit.specs.Texts.{AreSound};

use crate::desk::TextDesk;
use crate::fixture::{KEEPS, NEW, OLD, PREFIXES, always, are_always, desk_with, options, write_to};
use std::alloc::Global;
use std::process::Abort;
use std::test::Fail;
use vs_backup::{CopyMode, WriteErr};
use vs_memory::{Choice, MemHost};

// The names that a backup of the file `1` may get where it may replace none, in their order.
const BACKUPS: [&str; 27] = [
    "1~", "z~", "y~", "x~", "w~", "v~", "u~", "t~", "s~", "r~", "q~", "p~", "o~", "n~", "m~", "l~",
    "k~", "j~", "i~", "h~", "g~", "f~", "e~", "d~", "c~", "b~", "a~",
];

// A folder with the file, where so many of these names are taken.
fn desk_with_taken(alloc: Global, taken: usize) -> Result<TextDesk<MemHost>, Fail>
    requires { taken ≤ 27 }
    ensures { IfOk result (λ desk. AreSound desk.text) }
{
    let mut files: Vec<(&str, &[u8])> = Vec::new(alloc);
    files.push(("1", OLD))?;
    for name in &BACKUPS[..taken] {
        files.push((*name, b"old"))?;
    }
    desk_with(alloc, &files)
}

// Whether the image of this choice has under these names what they had.
fn keeps_theirs(
    alloc: Global,
    host: &MemHost,
    choice: &Choice,
    taken: &[&str],
) -> Result<bool, Fail> {
    let image = host.image(alloc, choice, Vec::new(alloc))?;
    Ok(
        taken
            .iter()
            .all(|name| image.file(name) == Some(b"old".as_slice())),
    )
}

// Whether each image has under these names what they had.
fn keep_theirs(alloc: Global, host: &MemHost, taken: &[&str]) -> Result<bool, Fail> {
    for names in PREFIXES {
        for keep in KEEPS {
            if !keeps_theirs(alloc, host, &Choice { names, keep }, taken)? {
                return Ok(false);
            }
        }
    }
    Ok(true)
}

// Whether the file is renamed to the first name that is free, where so many are taken, and all others keep theirs.
fn takes_first_free(alloc: Global, taken: usize) -> Result<bool, Fail>
    requires { taken < 27 }
{
    let mut desk = desk_with_taken(alloc, taken)?;
    desk.folder.stop_after(taken as u64 + 5);
    let _ = write_to(alloc, &mut desk, "1", &options(false, true, CopyMode::No))?;
    let host = &desk.folder;
    let moved = host.file("1").is_none() && host.file(BACKUPS[taken]) == Some(OLD);
    Ok(moved && keep_theirs(alloc, host, &BACKUPS[..taken])?)
}

// The file is looked for, then each name up to the first free one; two syncs, and the file is renamed.
#[test]
fn the_first_free_name_is_that_of_the_backup(rt: HostRuntime) -> Result<(), Fail> {
    let alloc = rt.alloc();
    for taken in 0..27 {
        assert!(rt; takes_first_free(alloc, taken)?, "{taken} are taken");
    }
    Ok(())
}

// Whether a write is refused after it looked at the file and all names, and leaves all as it was.
fn finds_no_name(alloc: Global, copy: CopyMode) -> Result<bool, Fail> {
    let mut desk = desk_with_taken(alloc, 27)?;
    let answer = write_to(alloc, &mut desk, "1", &options(false, true, copy))?;
    let host = &desk.folder;
    let stands = always(alloc, host, "1", &[OLD])? && keep_theirs(alloc, host, &BACKUPS)?;
    Ok(answer == Err(WriteErr::NoBackupName) && host.calls() == 28 && stands)
}

#[test]
fn no_file_is_written_where_no_name_is_free(rt: HostRuntime) -> Result<(), Fail> {
    let alloc = rt.alloc();
    for copy in [CopyMode::Yes, CopyMode::No] {
        assert!(rt; finds_no_name(alloc, copy)?);
    }
    Ok(())
}

#[test]
fn a_backup_that_is_kept_replaces_the_older_one(rt: HostRuntime) -> Result<(), Fail> {
    let alloc = rt.alloc();
    let mut desk = desk_with_taken(alloc, 27)?;
    let answer = write_to(alloc, &mut desk, "1", &options(true, true, CopyMode::No))?;
    assert!(rt; answer == Ok(4));
    assert!(rt; are_always(alloc, &desk.folder, &[("1", NEW), ("1~", OLD)])?);
    assert!(rt; keep_theirs(alloc, &desk.folder, &BACKUPS[1..])?);
    Ok(())
}

// Whether the file is renamed to this backup after so many calls, where the name for a backup is taken.
fn is_backup(
    alloc: Global,
    name: &str,
    taken: &str,
    backup: &str,
    calls: u64,
) -> Result<bool, Fail> {
    let mut desk = desk_with(alloc, &[(name, OLD), (taken, b"old")])?;
    desk.folder.stop_after(calls);
    let _ = write_to(alloc, &mut desk, name, &options(false, true, CopyMode::No))?;
    let host = &desk.folder;
    Ok(host.file(backup) == Some(OLD) && host.file(taken) == Some(b"old".as_slice()))
}

// The letter stands in the place of the last byte of the name.
#[test]
fn the_letter_goes_into_the_name(rt: HostRuntime) -> Result<(), Fail> {
    let alloc = rt.alloc();
    for (name, taken, backup, calls) in [
        ("notes.txt", "notes.txt~", "notes.txz~", 6),
        (".rc", ".rc~", ".rz~", 6),
        ("z", "z~", "y~", 7),
    ] {
        assert!(rt; is_backup(alloc, name, taken, backup, calls)?, "{backup}");
    }
    Ok(())
}
