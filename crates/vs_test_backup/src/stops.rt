// Each call failing in turn: the old bytes are where the answer says.
use crate::fixture::{KEEPS, NEW, OLD, PREFIXES, always, desk_with, options, write_to};
use std::alloc::Global;
use std::process::Abort;
use std::test::Fail;
use vs_backup::{CopyMode, Place, WriteErr, WriteOptions};
use vs_memory::{Choice, MemHost};

// The greatest number of calls of a write here: two looks, two syncs, eight for the copy, three for the text, two for the removal.
const CALLS: u64 = 17;

// The greatest number of calls of putting back: a cut, a look at the length, a read, a write and a sync.
const RETURNING: u64 = 5;

// The options `backup`, `writebackup` and `backupcopy` with which a file that is there gets a backup under `f~`.
const BACKED: [(bool, bool, CopyMode); 6] = [
    (true, true, CopyMode::Yes),
    (true, true, CopyMode::No),
    (true, false, CopyMode::Auto),
    (false, true, CopyMode::Yes),
    (false, true, CopyMode::No),
    (false, true, CopyMode::Auto),
];

// Whether the file or its backup, which has this name, has some of these bytes in the image of this choice.
fn has_either(
    alloc: Global,
    host: &MemHost,
    choice: &Choice,
    backup: &str,
    allowed: &[&[u8]],
) -> Result<bool, Fail> {
    let image = host.image(alloc, choice, Vec::new(alloc))?;
    let (file, backed) = (image.file("f"), image.file(backup));
    Ok(
        allowed
            .iter()
            .any(|it| file == Some(*it) || backed == Some(*it)),
    )
}

// Whether in each image the file or its backup, which has this name, has some of these bytes.
fn is_whole(alloc: Global, host: &MemHost, backup: &str, allowed: &[&[u8]]) -> Result<bool, Fail> {
    for names in PREFIXES {
        for keep in KEEPS {
            if !has_either(alloc, host, &Choice { names, keep }, backup, allowed)? {
                return Ok(false);
            }
        }
    }
    Ok(true)
}

// Whether in each image the old bytes stand where this answer to a write with a backup says.
fn stands(alloc: Global, host: &MemHost, answer: Result<u64, WriteErr>) -> Result<bool, Fail> {
    match answer {
        Ok(_) => always(alloc, host, "f", &[NEW]),
        Err(
            WriteErr::Failed {
                old_in: Place::File,
            },
        ) => always(alloc, host, "f", &[OLD]),
        Err(
            WriteErr::Failed {
                old_in: Place::Backup,
            },
        ) => is_whole(alloc, host, "f~", &[OLD]),
        Err(_) => Ok(host.calls() == 1),
    }
}

// Has these calls fail.
fn fail_calls(alloc: Global, folder: &mut MemHost, calls: &[u64]) -> Result<(), Fail> {
    for call in calls {
        folder.fail_call(alloc, *call)?;
    }
    Ok(())
}

// The answer to a write over these files in which these calls fail, and the folder then.
fn failed(
    alloc: Global,
    files: &[(&str, &[u8])],
    options: &WriteOptions,
    calls: &[u64],
) -> Result<(Result<u64, WriteErr>, MemHost), Fail> {
    let mut desk = desk_with(alloc, files)?;
    fail_calls(alloc, &mut desk.folder, calls)?;
    let answer = write_to(alloc, &mut desk, "f", options)?;
    Ok((answer, desk.folder))
}

const IN_BACKUP: Result<u64, WriteErr> = Err(WriteErr::Failed {
    old_in: Place::Backup,
});

// Where one call fails the file is put back, if it is touched.
#[test]
fn each_fault_leaves_the_old_bytes_in_the_file(rt: HostRuntime) -> Result<(), Fail> {
    let alloc = rt.alloc();
    for (backup, writebackup, copy) in BACKED {
        let options = options(backup, writebackup, copy);
        for failing in 1..=CALLS {
            let (answer, folder) = failed(alloc, &[("f", OLD)], &options, &[failing])?;
            let is_put_back = answer != IN_BACKUP;
            assert!(rt;
                is_put_back && stands(alloc, &folder, answer)?,
                "{options:?}, call {failing}"
            );
        }
    }
    Ok(())
}

// Whether a write in which both calls fail says of its old bytes what is so. They are in the backup only where the last call failed.
fn is_told(alloc: Global, options: &WriteOptions, first: u64, second: u64) -> Result<bool, Fail> {
    let (answer, folder) = failed(alloc, &[("f", OLD)], options, &[first, second])?;
    if answer == IN_BACKUP && folder.calls() != second {
        return Ok(false);
    }
    stands(alloc, &folder, answer)
}

#[test]
fn a_second_fault_leaves_them_where_it_says(rt: HostRuntime) -> Result<(), Fail> {
    let alloc = rt.alloc();
    for (backup, writebackup, copy) in BACKED {
        let options = options(backup, writebackup, copy);
        for failing in 1..=CALLS {
            for second in failing + 1..=failing + RETURNING {
                assert!(rt;
                    is_told(alloc, &options, failing, second)?,
                    "{options:?}, calls {failing} and {second}"
                );
            }
        }
    }
    Ok(())
}

const NOWHERE: Result<u64, WriteErr> = Err(WriteErr::Failed {
    old_in: Place::Nowhere,
});

// Without a backup the old bytes stand nowhere once a call failed, and neither do those of a file that was not there.
#[test]
fn without_a_backup_a_fault_says_nowhere(rt: HostRuntime) -> Result<(), Fail> {
    let alloc = rt.alloc();
    let (bare, backed) = (
        options(false, false, CopyMode::No),
        options(true, true, CopyMode::No),
    );
    for failing in 1..=6 {
        let (answer, _) = failed(alloc, &[("f", OLD)], &bare, &[failing])?;
        assert!(rt; answer == NOWHERE, "call {failing}");
        let (answer, _) = failed(alloc, &[], &backed, &[failing])?;
        assert!(rt; answer == NOWHERE, "call {failing}");
    }
    Ok(())
}
