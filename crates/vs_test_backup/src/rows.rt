// Writes by hand: the bytes that they leave.
use crate::fixture::{NEW, OLD, always, are_always, desk_with, options, write_to};
use std::alloc::Global;
use std::process::Abort;
use std::test::Fail;
use vs_backup::{CopyMode, WriteOptions};
use vs_text::Format;

// The three ways to write over a file that is there.
const MODES: [CopyMode; 3] = [CopyMode::Yes, CopyMode::No, CopyMode::Auto];

// The options `backup` and `writebackup`, and what the backup name has after a write.
const KEPT: [(bool, bool, &[u8]); 4] = [
    (false, false, b"-"),
    (false, true, b"-"),
    (true, false, OLD),
    (true, true, OLD),
];

// What is written in this format.
fn bytes_in(format: Format) -> &'static [u8] {
    match format {
        Format::Unix => NEW,
        Format::Dos => b"a\r\nx\r\n",
    }
}

// Whether a write in which this call fails succeeds, and the backup name then has these bytes.
fn is_written(
    alloc: Global,
    options: &WriteOptions,
    failing: u64,
    kept: &[u8],
) -> Result<bool, Fail> {
    let mut desk = desk_with(alloc, &[("f", OLD)])?;
    desk.folder.fail_call(alloc, failing)?;
    let answer = write_to(alloc, &mut desk, "f", options)?;
    let new = bytes_in(options.format);
    let stand = are_always(alloc, &desk.folder, &[("f", new), ("f~", kept)])?;
    Ok(answer == Ok(new.len() as u64) && stand)
}

#[test]
fn a_file_gets_the_text_and_keeps_a_backup_where_one_is_asked(rt: HostRuntime) -> Result<(), Fail> {
    let alloc = rt.alloc();
    for copy in MODES {
        for (backup, writebackup, kept) in KEPT {
            for format in [Format::Unix, Format::Dos] {
                let options = WriteOptions {
                    format,
                    ..options(backup, writebackup, copy)
                };
                assert!(rt; is_written(alloc, &options, 0, kept)?);
            }
        }
    }
    Ok(())
}

// Whether a write of a file that is not there succeeds, and leaves that file alone.
fn is_made(alloc: Global, options: &WriteOptions) -> Result<bool, Fail> {
    let mut desk = desk_with(alloc, &[("f.vsnew", b"left")])?;
    let answer = write_to(alloc, &mut desk, "f", options)?;
    let new = bytes_in(options.format);
    let stands = always(alloc, &desk.folder, "f", &[new])?;
    let alone = desk.folder.file("f~").is_none() && desk.folder.file("f.vsnew").is_none();
    Ok(answer == Ok(new.len() as u64) && stands && alone)
}

#[test]
fn a_new_file_gets_no_backup(rt: HostRuntime) -> Result<(), Fail> {
    let alloc = rt.alloc();
    for (backup, writebackup, _) in KEPT {
        for format in [Format::Unix, Format::Dos] {
            let options = WriteOptions {
                format,
                ..options(backup, writebackup, CopyMode::Yes)
            };
            assert!(rt; is_made(alloc, &options)?);
        }
    }
    Ok(())
}

#[test]
fn a_backup_that_cannot_be_removed_is_no_refusal(rt: HostRuntime) -> Result<(), Fail> {
    let alloc = rt.alloc();
    for (copy, removal) in [(CopyMode::Yes, 16), (CopyMode::No, 10)] {
        assert!(rt; is_written(alloc, &options(false, true, copy), removal, OLD)?);
    }
    Ok(())
}
