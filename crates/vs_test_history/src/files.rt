// Undo files in a folder in memory: what a stop or a fault at each call leaves.
ghost use Rattle.std.specs.Prelude.{IfOk};
ghost use Rattle.vs_host.specs.Names.{AreNames};

use std::alloc::Global;
use std::process::Abort;
use std::test::Fail;
use vs_host::Names;
use vs_memory::{Choice, Keep, MemHost};
use vs_ubind::{FetchErr, fetch, store};

// What is stored.
const NEW: &[u8] = b"new history";

// What the folder has before: no undo file, one, and one with a temporary file that an earlier run left.
const FOLDERS: [&[(&str, &[u8])]; 3] = [
    &[],
    &[(".f.un~", b"old history")],
    &[(".f.un~", b"old history"), (".f.un~.vsnew", b"half")],
];

// The greatest number of calls: a look, a removal, and those that make, write, sync, rename and sync the names.
const CALLS: u64 = 7;

// A stop leaves these bytes where a file was changed and not synced.
const KEEPS: [Keep; 3] = [Keep::Read, Keep::Synced, Keep::Byte(b'?')];

fn folder_with(alloc: Global, files: &[(&str, &[u8])]) -> Result<MemHost, Fail> {
    let mut folder = MemHost::new(alloc, Vec::new(alloc))?;
    for (name, bytes) in files {
        if folder.calls() != 0 || folder.file(name).is_some() {
            return Err(Fail::new("it is too late for the file"));
        }
        folder.put(alloc, name, Vec::from_slice(alloc, bytes)?)?;
    }
    Ok(folder)
}

fn names_of(alloc: Global, name: &str) -> Result<Names, Fail>
    ensures { IfOk result AreNames }
{
    match Names::of(alloc, name) {
        Ok(names) => Ok(names),
        Err(_) => Err(Fail::new("the name is not allowed")),
    }
}

// Whether the image of this choice has one of these under the name of the undo file.
fn has_one_of(
    alloc: Global,
    folder: &MemHost,
    choice: &Choice,
    allowed: &[Option<&[u8]>],
) -> Result<bool, Fail> {
    let image = folder.image(alloc, choice, Vec::new(alloc))?;
    let found = image.file(".f.un~");
    Ok(allowed.iter().any(|it| *it == found))
}

// Whether each image has one of these under the name of the undo file.
fn always(alloc: Global, folder: &MemHost, allowed: &[Option<&[u8]>]) -> Result<bool, Fail> {
    for names in 0..5 {
        for keep in KEEPS {
            if !has_one_of(alloc, folder, &Choice { names, keep }, allowed)? {
                return Ok(false);
            }
        }
    }
    Ok(true)
}

// Whether what is stored in the folder of these files is the undo file for good, and is fetched.
fn is_kept(alloc: Global, files: &[(&str, &[u8])], names: &Names) -> Result<bool, Fail>
    requires { AreNames names.now }
{
    let mut folder = folder_with(alloc, files)?;
    let stored = store(&mut folder, names, NEW).is_ok()
        && folder.file(".f.un~.vsnew").is_none()
        && always(alloc, &folder, &[Some(NEW)])?;
    let bytes = fetch(alloc, &mut folder, names).ok().ok_or("it is read")?;
    Ok(stored && bytes.as_slice() == NEW)
}

#[test]
fn what_is_stored_is_fetched(rt: HostRuntime) -> Result<(), Fail> {
    let alloc = rt.alloc();
    let names = names_of(alloc, "f")?;
    for files in FOLDERS {
        assert!(rt; is_kept(alloc, files, &names)?);
    }
    Ok(())
}

// Whether a stop after so many calls leaves the old undo file or the new one.
fn stops_well(
    alloc: Global,
    files: &[(&str, &[u8])],
    names: &Names,
    calls: u64,
) -> Result<bool, Fail>
    requires { AreNames names.now }
{
    let old = folder_with(alloc, files)?;
    let mut folder = folder_with(alloc, files)?;
    folder.stop_after(calls);
    let _ = store(&mut folder, names, NEW);
    always(alloc, &folder, &[old.file(".f.un~"), Some(NEW)])
}

#[test]
fn each_stop_leaves_the_old_undo_file_or_the_new_one(rt: HostRuntime) -> Result<(), Fail> {
    let alloc = rt.alloc();
    let names = names_of(alloc, "f")?;
    for files in FOLDERS {
        for calls in 0..=CALLS {
            assert!(rt; stops_well(alloc, files, &names, calls)?, "{calls} calls");
        }
    }
    Ok(())
}

// A folder with these files, in which this call fails.
fn failing_folder(alloc: Global, files: &[(&str, &[u8])], call: u64) -> Result<MemHost, Fail> {
    let mut folder = folder_with(alloc, files)?;
    folder.fail_call(alloc, call)?;
    Ok(folder)
}

#[test]
fn a_fault_stops_the_storing_at_once(rt: HostRuntime) -> Result<(), Fail> {
    let alloc = rt.alloc();
    let names = names_of(alloc, "f")?;
    for failing in 1..CALLS {
        let mut folder = failing_folder(alloc, &[], failing)?;
        let stored = store(&mut folder, &names, NEW);
        assert!(rt;
            stored.is_err() && folder.calls() == failing,
            "call {failing}"
        );
    }
    Ok(())
}

#[test]
fn what_is_not_there_is_not_fetched(rt: HostRuntime) -> Result<(), Fail> {
    let alloc = rt.alloc();
    let names = names_of(alloc, "f")?;
    let mut folder = folder_with(alloc, &[])?;
    assert!(rt; fetch(alloc, &mut folder, &names).err() == Some(FetchErr::NoFile));
    Ok(())
}

#[test]
fn what_cannot_be_read_is_not_fetched(rt: HostRuntime) -> Result<(), Fail> {
    let alloc = rt.alloc();
    let names = names_of(alloc, "f")?;
    for failing in 1..=3 {
        let mut folder = failing_folder(alloc, &[(".f.un~", b"old history")], failing)?;
        let fetched = fetch(alloc, &mut folder, &names).err();
        assert!(rt; fetched == Some(FetchErr::Failed), "call {failing}");
    }
    Ok(())
}
