ghost use Rattle.std.specs.Prelude.{◌+◌, ◌≤◌, length};

use crate::Numbers;
use std::alloc::{AllocError, Global};
use std::process::Abort;
use std::test::Fail;
use vs_edit::failing::FailingStore;
use vs_edit::{LineStore, StoreErr, VecStore, allows_splice, text_of};
use vs_text::{Format, Line, Text, from_stored, write_text};

// Splices where all that a splice asks for holds.
fn splice_if_allowed<S: LineStore>(
    alloc: Global,
    store: &mut S,
    top: u64,
    old: u64,
    new: &[Line],
) -> Result<bool, StoreErr>
    requires { S.valid store.old }
    ensures { S.valid store.new }
{
    if !allows_splice(store, top, old, new) {
        return Ok(false);
    }
    store.splice(alloc, top, old, new)?;
    Ok(true)
}

// The byte, up to four times.
fn line_of(alloc: Global, byte: u8) -> Result<Line, AllocError> {
    let mut line = vec![in alloc; byte; byte as usize % 5]?;
    from_stored(&mut line);
    Ok(Line::from_vec(line))
}

// A line for each byte.
fn lines_of(alloc: Global, bytes: &[u8]) -> Result<Vec<Line>, AllocError> {
    let mut lines = Vec::new(alloc);
    for byte in bytes {
        lines.push(line_of(alloc, *byte)?)?;
    }
    Ok(lines)
}

fn spliced(
    alloc: Global,
    now: &[u8],
    top: usize,
    old: usize,
    new: &[u8],
) -> Result<Vec<u8>, AllocError>
    requires { top + old ≤ length now.now }
{
    let mut next = Vec::from_slice(alloc, &now[..top])?;
    next.extend_from_slice(new)?;
    next.extend_from_slice(&now[top + old..])?;
    Ok(next)
}

// Fewer bytes than `most`, or none.
fn bytes(alloc: Global, numbers: &mut Numbers, most: u64) -> Result<Vec<u8>, AllocError> {
    let mut bytes = Vec::new(alloc);
    for _ in 0..numbers.below(most.max(1)) {
        bytes.push(numbers.below(256) as u8)?;
    }
    Ok(bytes)
}

// Asserts that the store has these lines, by each of its calls that reads.
fn assert_has<S: LineStore>(
    rt: &impl Abort,
    alloc: Global,
    store: &mut S,
    bytes: &[u8],
) -> Result<(), StoreErr>
    requires { S.valid store.old }
    ensures { S.valid store.new }
{
    let want = Text::of(lines_of(alloc, bytes)?);
    let file = write_text(alloc, &want, Format::Unix)?;
    let found = text_of(alloc, store)?;
    assert!(rt; write_text(alloc, &found, Format::Unix)?.as_slice() == file.as_slice());
    let count = store.len();
    assert!(rt; count == bytes.len() as u64);
    let mut copied = Vec::new(alloc);
    store.copy_lines(alloc, 0, count, &mut copied)?;
    assert!(rt; copied.as_slice() == file.as_slice());
    assert!(rt; store.bytes() == file.len() as u64);
    Ok(())
}

// A text as a list of bytes, now and when it was committed.
#[derive(Drop)]
struct Plain {
    now: Vec<u8>,
    committed: Vec<u8>,
}

fn play<S: LineStore>(
    rt: &impl Abort,
    alloc: Global,
    store: &mut S,
    plain: &mut Plain,
    numbers: &mut Numbers,
) -> Result<(), StoreErr>
    requires { S.valid store.old }
    ensures { S.valid store.new }
{
    match numbers.below(8) {
        0 => {
            store.commit();
            plain.committed = Vec::from_slice(alloc, &plain.now)?;
        }
        1 => {
            store.rollback();
            plain.now = Vec::from_slice(alloc, &plain.committed)?;
        }
        _ => {
            let len = plain.now.len() as u64;
            let top = numbers.below(len + 1);
            let old = numbers.below((len - top).min(6) + 1);
            let new = bytes(alloc, numbers, 8)?;
            let lines = lines_of(alloc, &new)?;
            assert!(rt; splice_if_allowed(alloc, store, top, old, &lines)?);
            plain.now = spliced(alloc, &plain.now, top as usize, old as usize, &new)?;
        }
    }
    assert_has(rt, alloc, store, &plain.now)
}

#[test]
fn follows_a_plain_list(rt: HostRuntime) -> Result<(), Fail> {
    let alloc = rt.alloc();
    let mut store = VecStore::new(alloc)?;
    let mut plain = Plain {
        now: Vec::new(alloc),
        committed: Vec::new(alloc),
    };
    let mut numbers = Numbers::new(1);
    for _ in 0..400 {
        play(&rt, alloc, &mut store, &mut plain, &mut numbers)?;
    }
    store.rollback();
    assert_has(&rt, alloc, &mut store, &plain.committed)?;
    Ok(())
}

// A splice that takes one line out and puts two in, and a look at the whole text.
fn change<S: LineStore>(alloc: Global, store: &mut S) -> Result<(), StoreErr>
    requires { S.valid store.old }
    ensures { S.valid store.new }
{
    let new = lines_of(alloc, b"xy")?;
    let _ = splice_if_allowed(alloc, store, 1, 1, &new)?;
    let count = store.len();
    store.copy_lines(alloc, 0, count, &mut Vec::new(alloc))?;
    Ok(())
}

// Changes a store of which one call fails, and again when it was rolled back.
fn fail_once(rt: &impl Abort, alloc: Global, fails_at: u64) -> Result<(), StoreErr> {
    let mut inner = VecStore::new(alloc)?;
    let lines = lines_of(alloc, b"abc")?;
    assert!(rt; splice_if_allowed(alloc, &mut inner, 0, 0, &lines)?);
    inner.commit();
    let mut store = FailingStore::new(inner, fails_at);
    let fails = fails_at != 0;
    assert!(rt;
        change(alloc, &mut store).is_err() == fails,
        "call {fails_at}"
    );
    assert!(rt; store.faults == u64::from(fails), "call {fails_at}");
    store.rollback();
    assert_has(rt, alloc, &mut store.store, b"abc")?;
    change(alloc, &mut store)?;
    store.commit();
    assert_has(rt, alloc, &mut store.store, b"axyc")
}

#[test]
fn fails_the_call_that_is_named(rt: HostRuntime) -> Result<(), Fail> {
    for fails_at in 0..6 {
        fail_once(&rt, rt.alloc(), fails_at)?;
    }
    Ok(())
}
