// Undo files typed by hand from the tables of docs/FORMATS.md.

ghost use Rattle.vs_ufile.specs.Decode.{IsWellFormed};
ghost use Rattle.vs_ufile.specs.Values.{history_of};

use std::alloc::{AllocError, Global};
use std::test::*;
use vs_ufile::*;

// SHA-256 of one zero byte: the digest of one empty line.
const DIGEST: [u8; 32] = [
    0x6e, 0x34, 0x0b, 0x9c, 0xff, 0xb3, 0x7a, 0x98, 0x9c, 0xa5, 0x44, 0xe6, 0xbb, 0x78, 0x0a, 0x2c,
    0x78, 0x90, 0x1d, 0x3f, 0xb3, 0x37, 0x38, 0x76, 0x85, 0x11, 0xa3, 0x06, 0x17, 0xaf, 0xa0, 0x1d,
];

// The first 11 bytes: the start and the version.
const START: [u8; 11] = [0x56, 0x69, 0x6d, 0x9f, 0x55, 0x6e, 0x44, 0x6f, 0xe5, 0, 2];

fn put_all(bytes: &mut Vec<u8>, parts: &[&[u8]]) -> Result<(), AllocError> {
    for part in parts {
        bytes.extend_from_slice(part)?;
    }
    Ok(())
}

fn put_numbers(bytes: &mut Vec<u8>, numbers: &[u32]) -> Result<(), AllocError> {
    for number in numbers {
        bytes.extend_from_slice(&number.to_be_bytes())?;
    }
    Ok(())
}

// A header of 98 bytes, with oldest, newest, current head, number of heads, last and current number.
fn header(alloc: Global, numbers: [u32; 6]) -> Result<Vec<u8>, AllocError> {
    let mut bytes = Vec::new(alloc);
    put_all(&mut bytes, &[&START, &DIGEST, &[0, 0, 0, 1], &[0; 12]])?;
    put_numbers(&mut bytes, &numbers)?;
    put_all(&mut bytes, &[&[0; 8], &[4, 1, 0, 0, 0, 0, 0]])?;
    Ok(bytes)
}

// What follows the numbers of a change with one entry without lines.
const CHANGE_END: [&[u8]; 3] = [
    &[0; 370],
    &[4, 1, 0, 0, 0, 0, 0, 0xf5, 0x18, 0, 0, 0, 1, 0, 0, 0, 3],
    &[0, 0, 0, 0, 0, 0, 0, 0, 0x35, 0x81],
];

// A change of 419 bytes with one entry without lines: next, prev, alt_next, alt_prev, number.
fn put_change(bytes: &mut Vec<u8>, numbers: [u32; 5]) -> Result<(), AllocError> {
    bytes.extend_from_slice(&[0x5f, 0xd0])?;
    put_numbers(bytes, &numbers)?;
    put_all(bytes, &CHANGE_END)
}

// A file with these numbers in its header, and these changes.
fn file_of(alloc: Global, numbers: [u32; 6], changes: &[[u32; 5]]) -> Result<Vec<u8>, AllocError> {
    let mut bytes = header(alloc, numbers)?;
    for change in changes {
        put_change(&mut bytes, *change)?;
    }
    bytes.extend_from_slice(&[0xe7, 0xaa])?;
    Ok(bytes)
}

// The file of one empty line without changes.
fn empty_file(alloc: Global) -> Result<Vec<u8>, AllocError> {
    file_of(alloc, [0; 6], &[])
}

// A file with one change, whose entry begins at byte 497.
pub(crate) fn one_change_file(alloc: Global) -> Result<Vec<u8>, AllocError> {
    file_of(alloc, [1, 1, 0, 1, 1, 1], &[[0, 0, 0, 0, 1]])
}

// A file with two changes, of whose fields those from next to number are given.
fn two_changes_file(
    alloc: Global,
    first: [u32; 5],
    second: [u32; 5],
) -> Result<Vec<u8>, AllocError> {
    file_of(alloc, [1, 1, 0, 2, 2, 1], &[first, second])
}

// The bytes with these in place of their own from a place on.
fn edited(alloc: Global, bytes: &[u8], at: usize, new: &[u8]) -> Result<Vec<u8>, AllocError> {
    let mut out = Vec::from_slice(alloc, bytes)?;
    for (i, byte) in new.iter().enumerate() {
        if let Some(slot) = out.get_mut(at.saturating_add(i)) {
            *slot = *byte;
        }
    }
    Ok(out)
}

// Why a file is refused, where, and with which number there.
type Refusal = (UfKind, u64, u64);

fn is_refused(alloc: Global, bytes: &[u8], refusal: Refusal) -> bool {
    let (kind, at, found) = refusal;
    decode(alloc, bytes).err() == Some(UfErr { kind, at, found })
}

// The bytes that are put into a file, where, and how it is refused then.
type Edit = (usize, &'static [u8], Refusal);

// Whether the file is refused so after each of these edits.
fn refuses(alloc: Global, file: &[u8], edits: &[Edit]) -> Result<bool, AllocError> {
    for (at, new, refusal) in edits {
        let bytes = edited(alloc, file, *at, new)?;
        if !is_refused(alloc, &bytes, *refusal) {
            return Ok(false);
        }
    }
    Ok(true)
}

// Whether the changes that are read have these numbers.
fn has_numbers(alloc: Global, bytes: &[u8], numbers: &[u32]) -> bool {
    let Ok(history) = decode(alloc, bytes) else {
        return false;
    };
    let changes = &history.changes;
    changes.len() == numbers.len()
        && changes
            .iter()
            .zip(numbers.iter())
            .all(|(change, number)| change.number == *number)
}

// The bytes of a history that is also read back.
fn rewritten(alloc: Global, history: &FileHistory) -> Option<Vec<u8>>
    requires { IsWellFormed (history_of history.now) }
{
    if round_trip(alloc, history, &[7]).is_err() {
        return None;
    }
    encode(alloc, history).ok()
}

// The bytes that are written for the history that is read.
fn written(alloc: Global, bytes: &[u8]) -> Option<Vec<u8>> {
    let Ok(history) = decode(alloc, bytes) else {
        return None;
    };
    if history.heads as usize != history.changes.len() {
        return None;
    }
    rewritten(alloc, &history)
}

// Edits of the file without changes.
const EDITS_OF_NONE: [Edit; 3] = [
    (98, &[0, 0], (UfKind::BadMagic, 98, 0)),
    (9, &[0x80], (UfKind::Encrypted, 9, 0x8002)),
    (10, &[3], (UfKind::Version, 9, 3)),
];

// Where the file without changes is cut, and how it is refused then.
const CUTS: [(usize, Refusal); 2] = [
    (99, (UfKind::Truncated, 98, 0)),
    (8, (UfKind::NotUndo, 0, 0)),
];

#[test]
fn a_file_without_changes(rt: HostRuntime) -> Result<(), Fail> {
    let alloc = rt.alloc();
    let bytes = empty_file(alloc)?;
    assert!(rt; bytes.len() == 100);
    let history = decode(alloc, &bytes).ok().ok_or("it is an undo file")?;
    assert!(rt; history.lines == 1 && history.digest == DIGEST && history.changes.is_empty());
    Ok(())
}

#[test]
fn an_edited_file_without_changes(rt: HostRuntime) -> Result<(), Fail> {
    let alloc = rt.alloc();
    let mut bytes = empty_file(alloc)?;
    assert!(rt; refuses(alloc, &bytes, &EDITS_OF_NONE)?);
    for (len, refusal) in CUTS {
        bytes.truncate(len);
        assert!(rt; is_refused(alloc, &bytes, refusal), "{len} bytes");
    }
    Ok(())
}

// Optional fields in the place of the header's own.
const FIELDS: [u8; 21] = [
    2, 7, 9, 9, 4, 1, 0, 0, 0, 5, 4, 1, 0, 0, 0, 6, 2, 1, 9, 9, 0,
];

#[test]
fn optional_fields(rt: HostRuntime) -> Result<(), Fail> {
    let alloc = rt.alloc();
    let mut bytes = header(alloc, [0; 6])?;
    bytes.truncate(91);
    put_all(&mut bytes, &[&FIELDS, &[0xe7, 0xaa]])?;
    let history = decode(alloc, &bytes).ok().ok_or("it is an undo file")?;
    assert!(rt; history.last_save == 6, "the last of several counts");
    Ok(())
}

// Whether this is the change of the file with one.
fn is_the_change(change: &FileChange) -> bool {
    change.number == 1
        && change.entries.len() == 1
        && change.entries.iter().all(|entry| entry.top == 1
            && entry.bottom == 3
            && entry.lines.is_empty())
}

#[test]
fn a_file_with_one_change(rt: HostRuntime) -> Result<(), Fail> {
    let alloc = rt.alloc();
    let bytes = one_change_file(alloc)?;
    assert!(rt; bytes.len() == 519);
    let history = decode(alloc, &bytes).ok().ok_or("it is an undo file")?;
    assert!(rt; history.changes.len() == 1 && history.changes.iter().all(is_the_change));
    Ok(())
}

#[test]
fn a_longer_or_shorter_file_with_one_change(rt: HostRuntime) -> Result<(), Fail> {
    let alloc = rt.alloc();
    let file = one_change_file(alloc)?;
    let mut bytes = Vec::from_slice(alloc, &file)?;
    bytes.extend_from_slice(&[1, 2])?;
    assert!(rt; is_written(alloc, &bytes, &file), "bytes after the end");
    let beyond = edited(alloc, &bytes, 499, &[0, 0, 0, 9])?;
    assert!(rt;
        has_numbers(alloc, &beyond, &[1]),
        "an entry that fits no text"
    );
    bytes.truncate(500);
    assert!(rt; is_refused(alloc, &bytes, (UfKind::Truncated, 499, 0)));
    Ok(())
}

// Edits of the file with one change.
const EDITS: [Edit; 9] = [
    (98, &[0, 0], (UfKind::BadMagic, 98, 0)),
    (116, &[0, 0, 0, 0], (UfKind::NumberZero, 116, 0)),
    (100, &[0, 0, 0, 7], (UfKind::UnknownLink, 100, 7)),
    (100, &[0, 0, 0, 1], (UfKind::NotATree, 98, 1)),
    (71, &[0, 0, 0, 0], (UfKind::TooManyHeads, 98, 0)),
    (59, &[0, 0, 0, 5], (UfKind::UnknownLink, 59, 5)),
    (
        492,
        &[0xff, 0xff, 0xff, 0xff],
        (UfKind::NumberZero, 492, 0xffff_ffff),
    ),
    (497, &[0, 0], (UfKind::BadMagic, 497, 0)),
    (517, &[0, 0], (UfKind::BadMagic, 517, 0)),
];

#[test]
fn edited_files(rt: HostRuntime) -> Result<(), Fail> {
    let alloc = rt.alloc();
    let bytes = one_change_file(alloc)?;
    assert!(rt; refuses(alloc, &bytes, &EDITS)?);
    Ok(())
}

// Two changes that do not go together, and how their file is refused.
const PAIRS: [(&str, [u32; 5], [u32; 5], Refusal); 5] = [
    (
        "double",
        [0, 0, 0, 0, 1],
        [0, 0, 0, 0, 1],
        (UfKind::DoubleNumber, 535, 1),
    ),
    (
        "one way",
        [0, 0, 1, 0, 2],
        [0, 0, 0, 0, 1],
        (UfKind::NotATree, 98, 2),
    ),
    (
        "cycle",
        [0, 0, 1, 1, 2],
        [0, 0, 2, 2, 1],
        (UfKind::NotATree, 517, 1),
    ),
    (
        "roots",
        [0, 0, 0, 0, 2],
        [0, 0, 0, 0, 1],
        (UfKind::NotATree, 517, 1),
    ),
    (
        "parents",
        [1, 0, 0, 0, 2],
        [2, 0, 0, 0, 1],
        (UfKind::NotATree, 517, 1),
    ),
];

#[test]
fn two_changes(rt: HostRuntime) -> Result<(), Fail> {
    let alloc = rt.alloc();
    let chain = two_changes_file(alloc, [0, 0, 1, 0, 2], [0, 0, 0, 2, 1])?;
    assert!(rt; has_numbers(alloc, &chain, &[2, 1]));
    for (name, first, second, refusal) in PAIRS {
        let bytes = two_changes_file(alloc, first, second)?;
        assert!(rt; is_refused(alloc, &bytes, refusal), "{name}");
    }
    Ok(())
}

// Whether this is written for the history that is read.
fn is_written(alloc: Global, bytes: &[u8], wanted: &[u8]) -> bool {
    match written(alloc, bytes) {
        Some(found) => found.as_slice() == wanted,
        None => false,
    }
}

#[test]
fn what_is_written(rt: HostRuntime) -> Result<(), Fail> {
    let alloc = rt.alloc();
    let empty = empty_file(alloc)?;
    assert!(rt; is_written(alloc, &empty, &empty));
    let one = one_change_file(alloc)?;
    assert!(rt; is_written(alloc, &one, &one));
    let cursor = edited(alloc, &one, 120, &[1, 2, 3])?;
    assert!(rt; is_written(alloc, &cursor, &one));
    Ok(())
}
