// Who may read the files of a write.
ghost use Rattle.std.specs.Prelude.{IfOk};
ghost use Rattle.vs_edit.specs.Texts.{AreSound};

use crate::desk::{TextDesk, store_of};
use crate::fixture::{NEW, OLD, names_of, options, write_to};
use crate::watched::{PRIVATE, Seen, USUAL, watched};
use std::alloc::Global;
use std::process::Abort;
use std::test::Fail;
use vs_backup::CopyMode;
use vs_memory::MemHost;
use vs_test_hosts::Watched;
use vs_ubind::store;

// The mode bits of the file that is written over.
const OLD_MODE: u32 = 0o640;

// A folder without files.
fn desk(alloc: Global) -> Result<TextDesk<Watched<Seen>>, Fail>
    ensures { IfOk result (λ desk. AreSound desk.text) }
{
    let text = store_of(alloc, NEW)?;
    let folder = watched(alloc, MemHost::new(alloc, Vec::new(alloc))?);
    Ok(TextDesk { folder, text })
}

// A folder with a file.
fn desk_over(alloc: Global) -> Result<TextDesk<Watched<Seen>>, Fail>
    ensures { IfOk result (λ desk. AreSound desk.text) }
{
    let text = store_of(alloc, NEW)?;
    let mut inner = MemHost::new(alloc, Vec::new(alloc))?;
    inner.put(alloc, "f", Vec::from_slice(alloc, OLD)?)?;
    let mut folder = watched(alloc, inner);
    folder.watch.note("f", OLD_MODE);
    Ok(TextDesk { folder, text })
}

// Whether files got these mode bits, in this order.
fn has_modes(seen: &Seen, expected: &[(&str, u32)]) -> bool {
    seen.modes.len() == expected.len()
        && seen
            .modes
            .iter()
            .zip(expected.iter())
            .all(|(got, want)| got.0.as_str() == want.0 && got.1 == want.1)
}

// Whether a write with a backup succeeds, and files get these mode bits.
fn gives_modes(
    alloc: Global,
    desk: &mut TextDesk<Watched<Seen>>,
    copy: CopyMode,
    expected: &[(&str, u32)],
) -> Result<bool, Fail>
    requires { AreSound desk.old.text }
{
    let answer = write_to(alloc, desk, "f", &options(true, true, copy))?;
    Ok(answer == Ok(4) && has_modes(&desk.folder.watch, expected))
}

const COPIED: [(&str, u32); 4] = [
    ("f", OLD_MODE),
    ("f~.vsnew", PRIVATE),
    ("f~.vsnew", OLD_MODE),
    ("f~", OLD_MODE),
];

const MOVED: [(&str, u32); 4] = [
    ("f", OLD_MODE),
    ("f~", OLD_MODE),
    ("f", PRIVATE),
    ("f", OLD_MODE),
];

#[test]
fn a_backup_and_its_file_have_the_mode_of_the_old_file(rt: HostRuntime) -> Result<(), Fail> {
    let alloc = rt.alloc();
    let mut copying = desk_over(alloc)?;
    assert!(rt; gives_modes(alloc, &mut copying, CopyMode::Yes, &COPIED)?);
    let mut moving = desk_over(alloc)?;
    assert!(rt; gives_modes(alloc, &mut moving, CopyMode::No, &MOVED)?);
    Ok(())
}

const MADE: [(&str, u32); 2] = [("f.vsnew", USUAL), ("f", USUAL)];

#[test]
fn a_file_that_was_not_there_is_as_the_system_makes_it(rt: HostRuntime) -> Result<(), Fail> {
    let alloc = rt.alloc();
    let mut desk = desk(alloc)?;
    assert!(rt; gives_modes(alloc, &mut desk, CopyMode::No, &MADE)?);
    Ok(())
}

const FILED: [(&str, u32); 4] = [
    ("f", OLD_MODE),
    (".f.un~.vsnew", PRIVATE),
    (".f.un~.vsnew", OLD_MODE),
    (".f.un~", OLD_MODE),
];

#[test]
fn an_undo_file_has_the_mode_of_its_text_file(rt: HostRuntime) -> Result<(), Fail> {
    let alloc = rt.alloc();
    let mut folder = desk_over(alloc)?.folder;
    let names = names_of(alloc, "f")?;
    assert!(rt; store(&mut folder, &names, NEW).is_ok());
    assert!(rt; has_modes(&folder.watch, &FILED));
    Ok(())
}
