// Hosts in memory, by hand: what each call leaves, and what a stop leaves.
use std::alloc::Global;
use std::test::Fail;
use vs_host::{Clock, Folder, Out, Script};
use vs_memory::{Choice, Keep, MemHost};

fn host_with(alloc: Global, name: &str, bytes: &[u8]) -> Result<MemHost, Fail> {
    let mut host = MemHost::new(alloc, Vec::from_slice(alloc, b"q\n")?)?;
    host.put(alloc, name, Vec::from_slice(alloc, bytes)?)?;
    Ok(host)
}

fn create(host: &mut MemHost, name: &str) -> Result<bool, Fail> {
    match host.file(name) {
        Some(_) => Err(Fail::new("the file is there")),
        None => Ok(host.create(name).is_ok()),
    }
}

/// Whether the write succeeded.
fn write(host: &mut MemHost, name: &str, at: u64, piece: &[u8]) -> Result<bool, Fail> {
    match host.file(name) {
        Some(bytes) if at <= bytes.len() as u64 => Ok(host.write_at(name, at, piece).is_ok()),
        _ => Err(Fail::new("no such place")),
    }
}

fn cut(host: &mut MemHost, name: &str, len: u64) -> Result<bool, Fail> {
    match host.file(name) {
        Some(bytes) if len <= bytes.len() as u64 => Ok(host.cut(name, len).is_ok()),
        _ => Err(Fail::new("no such place")),
    }
}

fn sync(host: &mut MemHost, name: &str) -> Result<bool, Fail> {
    match host.file(name) {
        Some(_) => Ok(host.sync(name).is_ok()),
        None => Err(Fail::new("no file")),
    }
}

fn rename(host: &mut MemHost, from: &str, to: &str) -> Result<bool, Fail> {
    if from == to {
        return Err(Fail::new("one name"));
    }
    match host.file(from) {
        Some(_) => Ok(host.rename(from, to).is_ok()),
        None => Err(Fail::new("no file")),
    }
}

fn remove(host: &mut MemHost, name: &str) -> Result<bool, Fail> {
    match host.file(name) {
        Some(_) => Ok(host.remove(name).is_ok()),
        None => Err(Fail::new("no file")),
    }
}

/// The length of a file, and its first bytes.
fn read(host: &mut MemHost, name: &str, into: &mut [u8]) -> Result<u64, Fail> {
    match host.file(name) {
        Some(bytes) if into.len() <= bytes.len() => {
            let size = host.len(name)?;
            host.read_at(name, 0, into)?;
            Ok(size)
        }
        _ => Err(Fail::new("no such place")),
    }
}

/// What an image has under a name; `-` where it has no file.
fn left(
    host: &MemHost,
    alloc: Global,
    names: u32,
    keep: Keep,
    name: &str,
) -> Result<Vec<u8>, Fail> {
    let image = host.image(alloc, &Choice { names, keep }, Vec::new(alloc))?;
    match image.file(name) {
        Some(bytes) => Ok(Vec::from_slice(alloc, bytes)?),
        None => Ok(Vec::from_slice(alloc, b"-")?),
    }
}

/// A call on a folder.
#[derive(Clone, Copy)]
enum Call {
    Create(&'static str),
    Write(&'static str, u64, &'static [u8]),
    Cut(&'static str, u64),
    Sync(&'static str),
    Rename(&'static str, &'static str),
    Remove(&'static str),
}

/// Whether the call succeeded.
fn play(host: &mut MemHost, call: Call) -> Result<bool, Fail> {
    match call {
        Call::Create(name) => create(host, name),
        Call::Write(name, at, piece) => write(host, name, at, piece),
        Call::Cut(name, len) => cut(host, name, len),
        Call::Sync(name) => sync(host, name),
        Call::Rename(from, to) => rename(host, from, to),
        Call::Remove(name) => remove(host, name),
    }
}

/// Whether each of these calls succeeded.
fn succeed(host: &mut MemHost, calls: &[Call]) -> Result<bool, Fail> {
    for call in calls {
        if !play(host, *call)? {
            return Ok(false);
        }
    }
    Ok(true)
}

/// How many changes of names are kept, what is kept of a file, its name, and what the image has there; `-` where it has no file.
type Left = (u32, Keep, &'static str, &'static [u8]);

/// Whether the images have this.
fn are_left(alloc: Global, host: &MemHost, images: &[Left]) -> Result<bool, Fail> {
    for (names, keep, name, bytes) in images {
        if left(host, alloc, *names, *keep, name)?.as_slice() != *bytes {
            return Ok(false);
        }
    }
    Ok(true)
}

const TORN: [Left; 3] = [
    (0, Keep::Read, "f", b"abXY"),
    (0, Keep::Synced, "f", b"abc"),
    (0, Keep::Byte(b'?'), "f", b"ab??"),
];

const TORN_AND_SYNCED: [Left; 2] = [
    (0, Keep::Synced, "f", b"abXY"),
    (0, Keep::Byte(b'?'), "f", b"abXY"),
];

#[test]
fn a_torn_write_has_its_old_bytes_or_any(rt: HostRuntime) -> Result<(), Fail> {
    let alloc = rt.alloc();
    let mut host = host_with(alloc, "f", b"abc")?;
    assert!(rt; write(&mut host, "f", 2, b"XY")?);
    assert!(rt; are_left(alloc, &host, &TORN)?);
    assert!(rt; sync(&mut host, "f")?);
    assert!(rt; are_left(alloc, &host, &TORN_AND_SYNCED)?);
    Ok(())
}

const CUT: [Left; 3] = [
    (0, Keep::Read, "f", b"aX"),
    (0, Keep::Synced, "f", b"abcd"),
    (0, Keep::Byte(b'?'), "f", b"a?"),
];

#[test]
fn bytes_that_were_cut_come_back(rt: HostRuntime) -> Result<(), Fail> {
    let alloc = rt.alloc();
    let mut host = host_with(alloc, "f", b"abcd")?;
    assert!(rt; succeed(&mut host, &[Call::Cut("f", 1), Call::Write("f", 1, b"X")])?);
    assert!(rt; are_left(alloc, &host, &CUT)?);
    Ok(())
}

const REPLACE: [Call; 3] = [
    Call::Create("new"),
    Call::Write("new", 0, b"2"),
    Call::Rename("new", "old"),
];

const REPLACED: [Left; 8] = [
    (0, Keep::Read, "old", b"1"),
    (0, Keep::Read, "new", b"-"),
    (1, Keep::Read, "old", b"1"),
    (1, Keep::Read, "new", b"2"),
    (2, Keep::Read, "old", b"2"),
    (2, Keep::Read, "new", b"-"),
    (9, Keep::Read, "old", b"2"),
    (9, Keep::Read, "new", b"-"),
];

const REPLACED_FOR_GOOD: [Left; 2] = [(0, Keep::Read, "old", b"2"), (0, Keep::Synced, "old", b"")];

const REMOVED: [Left; 2] = [(0, Keep::Read, "old", b"2"), (1, Keep::Read, "old", b"-")];

#[test]
fn a_rename_is_kept_once_names_are_synced(rt: HostRuntime) -> Result<(), Fail> {
    let alloc = rt.alloc();
    let mut host = host_with(alloc, "old", b"1")?;
    assert!(rt; succeed(&mut host, &REPLACE)?);
    assert!(rt; are_left(alloc, &host, &REPLACED)?);
    assert!(rt; host.sync_names().is_ok());
    assert!(rt; are_left(alloc, &host, &REPLACED_FOR_GOOD)?);
    assert!(rt; remove(&mut host, "old")?);
    assert!(rt; are_left(alloc, &host, &REMOVED)?);
    Ok(())
}

// The first call is planned to fail, and all after the second.
const PLANNED: [(Call, bool); 4] = [
    (Call::Write("f", 0, b"X"), false),
    (Call::Write("f", 1, b"Y"), true),
    (Call::Write("f", 2, b"Z"), false),
    (Call::Sync("f"), false),
];

const AS_PLANNED: [Left; 2] = [(0, Keep::Read, "f", b"aYc"), (0, Keep::Synced, "f", b"abc")];

#[test]
fn planned_calls_fail_and_change_nothing(rt: HostRuntime) -> Result<(), Fail> {
    let alloc = rt.alloc();
    let mut host = host_with(alloc, "f", b"abc")?;
    host.fail_call(alloc, 1)?;
    host.stop_after(2);
    for (call, succeeds) in PLANNED {
        assert!(rt; play(&mut host, call)? == succeeds);
    }
    assert!(rt; host.calls() == 4 && host.writes("f") == 3 && host.writes("g") == 0);
    assert!(rt; are_left(alloc, &host, &AS_PLANNED)?);
    Ok(())
}

#[test]
fn no_other_call_fails(rt: HostRuntime) -> Result<(), Fail> {
    let alloc = rt.alloc();
    let mut host = host_with(alloc, "f", b"abc")?;
    host.fail_call(alloc, 10)?;
    for n in 1..=40 {
        assert!(rt; sync(&mut host, "f")? == (n != 10));
    }
    assert!(rt; host.unlogged() == 0);
    Ok(())
}

#[test]
fn script_output_and_clock_are_played(rt: HostRuntime) -> Result<(), Fail> {
    let alloc = rt.alloc();
    let mut host = MemHost::new(alloc, Vec::from_slice(alloc, b"q\n")?)?;
    host.put(alloc, "f", Vec::from_slice(alloc, b"abc")?)?;
    host.set_clock(5);
    assert!(rt; host.now() == 5);
    let mut into = [0; 2];
    assert!(rt; host.read(&mut into)? == 2);
    assert!(rt; &into == b"q\n");
    assert!(rt; host.write(b"reply\n").is_ok());
    assert!(rt; host.output() == b"reply\n".as_slice());
    assert!(rt; host.has("f")? && !host.has("g")?);
    assert!(rt; read(&mut host, "f", &mut into)? == 3);
    assert!(rt; &into == b"ab");
    Ok(())
}

#[test]
fn many_calls_cost_what_they_touch(rt: HostRuntime) -> Result<(), Fail> {
    let alloc = rt.alloc();
    let bytes = vec![in alloc; b'a'; 1_048_576]?;
    let mut host = host_with(alloc, "f", bytes.as_slice())?;
    for i in 0..10_000 {
        assert!(rt; write(&mut host, "f", i * 100, b"0123456789abcdef")?);
        if i % 100 == 0 {
            assert!(rt; sync(&mut host, "f")?);
        }
    }
    assert!(rt; host.writes("f") == 10_000);
    assert!(rt; left(&host, alloc, 0, Keep::Synced, "f")?.len() == 1_048_576);
    Ok(())
}
