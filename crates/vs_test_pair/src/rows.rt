// Writes by hand: the bytes that they leave, and those that a stop leaves.
use crate::written::{NEW, OLD, folder_with_file, start_new, write_new};
use std::alloc::Global;
use std::process::Abort;
use std::test::Fail;
use vs_backup::{CopyMode, WriteOptions};
use vs_memory::{Choice, Keep, MemHost};
use vs_text::Format;

// The calls with which both swap files are made.
const START: u64 = 15;

// The greatest number of calls of a write here.
const CALLS: u64 = 17;

// A stop leaves these bytes where a file was changed and not synced.
const KEEPS: [Keep; 3] = [Keep::Read, Keep::Synced, Keep::Byte(b'?')];

// As many name changes as are pending at once in a write, and none.
const PREFIXES: [u32; 5] = [0, 1, 2, 3, 4];

// Options, and what the backup name has after one write and after two; `-` stands for no file.
const WRITES: [(bool, bool, CopyMode, &[u8], &[u8]); 6] = [
    (false, false, CopyMode::Auto, b"-", b"-"),
    (false, true, CopyMode::Yes, b"-", b"-"),
    (false, true, CopyMode::No, b"-", b"-"),
    (true, false, CopyMode::Yes, OLD, NEW),
    (true, false, CopyMode::No, OLD, NEW),
    (true, true, CopyMode::Auto, OLD, NEW),
];

// The bytes of both swap files after they were made.
fn swap_files(alloc: Global) -> Result<[Vec<u8>; 2], Fail> {
    let mut host = folder_with_file(alloc, START)?;
    start_new(alloc, &mut host)?;
    let swp = host.file(".f.swp").ok_or("there is a swap file")?;
    let swo = host.file(".f.swo").ok_or("there is a second swap file")?;
    Ok([Vec::from_slice(alloc, swp)?, Vec::from_slice(alloc, swo)?])
}

// Whether the image has both swap files as they were made, and the new text, or the old or the new bytes, where they are to be.
fn is_right(image: &MemHost, swap: &[Vec<u8>; 2], backed: bool) -> bool {
    let [swp, swo] = swap;
    let same = image.file(".f.swp") == Some(swp.as_slice())
        && image.file(".f.swo") == Some(swo.as_slice());
    let whole = [OLD, NEW].iter().any(|it| image.file("f") == Some(*it)
        || image.file("f~") == Some(*it));
    same && (whole || !backed)
}

// Whether each image of the folder is right.
fn are_right(
    alloc: Global,
    host: &MemHost,
    swap: &[Vec<u8>; 2],
    backed: bool,
) -> Result<bool, Fail> {
    for names in PREFIXES {
        for keep in KEEPS {
            let image = host.image(alloc, &Choice { names, keep }, Vec::new(alloc))?;
            if !is_right(&image, swap, backed) {
                return Ok(false);
            }
        }
    }
    Ok(true)
}

#[test]
fn a_write_leaves_the_text_its_backup_and_the_swap_files(rt: HostRuntime) -> Result<(), Fail> {
    let alloc = rt.alloc();
    let swap = swap_files(alloc)?;
    for (backup, writebackup, copy, first, second) in WRITES {
        let options = WriteOptions {
            backup,
            writebackup,
            copy,
            format: Format::Unix,
        };
        for (again, kept) in [(false, first), (true, second)] {
            let mut host = folder_with_file(alloc, u64::MAX)?;
            assert!(rt; write_new(alloc, &mut host, &options, again)? == Ok(4));
            assert!(rt; host.file("f") == Some(NEW));
            assert!(rt; host.file("f~").unwrap_or(b"-") == kept);
            assert!(rt; are_right(alloc, &host, &swap, true)?);
        }
    }
    Ok(())
}

#[test]
fn each_stop_leaves_the_swap_files_and_the_file_or_its_backup(rt: HostRuntime) -> Result<(), Fail> {
    let alloc = rt.alloc();
    let swap = swap_files(alloc)?;
    for (backup, writebackup, copy, _, _) in WRITES {
        let options = WriteOptions {
            backup,
            writebackup,
            copy,
            format: Format::Unix,
        };
        for calls in START..=START + CALLS {
            let mut host = folder_with_file(alloc, calls)?;
            let _ = write_new(alloc, &mut host, &options, false)?;
            assert!(rt;
                are_right(alloc, &host, &swap, backup || writebackup)?,
                "{options:?}, {calls} calls"
            );
        }
    }
    Ok(())
}
