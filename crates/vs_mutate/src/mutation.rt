// Undo files that someone changed.

ghost use Rattle.std.specs.Prelude.{◌≡◌, ◌≤◌, ◌+◌, ◌-◌, ◌*◌, ◌++◌, length, take, drop, IfOk};
ghost use Rattle.vs_bytes.specs.Fields.{Big, with_number};

use crate::numbers::Numbers;
use crate::shape::{CHANGE, HEADER, Shape, file_of};
use crate::words::{How, Job};
use std::alloc::{AllocError, Global};
use vs_bytes::put_be_u32;

// Where numbers of 4 bytes stand in the header, and in a change from its magic on.
const IN_HEADER: [usize; 9] = [43, 47, 59, 63, 67, 71, 75, 79, 93];

const IN_CHANGE: [usize; 11] = [2, 6, 10, 14, 18, 394, 401, 405, 409, 413, 417];

// Where the links of a change stand in it, and its optional field.
const LINKS: [usize; 4] = [2, 6, 10, 14];

const NEXT: usize = 2;

const ALT_NEXT: usize = 10;

const ALT_PREV: usize = 14;

const OPTION: usize = 392;

const OPTION_BYTES: usize = 6;

// Numbers at the limits of the format, and past them.
const HUGE: [u32; 5] = [
    0xffff_ffff,
    0x8000_0000,
    0x7fff_ffff,
    2_000_000_001,
    0x0100_0000,
];

// Where a change begins; they count from 1.
fn change_at(number: u32) -> usize
    ensures { result ≡ 98 + (number - 1) * 431 }
{
    HEADER + number.saturating_sub(1) as usize * CHANGE
}

// Puts a number in place of four bytes, where there are so many.
fn put_number(file: &mut [u8], at: usize, number: u32)
    ensures { at + 4 ≤ length file.old → file.new ≡ with_number Big 4 file.old at number }
{
    if at.saturating_add(4) <= file.len() {
        put_be_u32(file, at, number);
    }
}

// Says that the file is encrypted: the version, with a byte before it and one after it.
fn encrypt(file: &mut [u8]) {
    put_number(file, 8, 0xe580_026e);
}

// Any change, by its number, or 0.
fn any_change(numbers: &mut Numbers, changes: u32) -> u32
    ensures { result ≤ changes }
{
    numbers.below(u64::from(changes) + 1) as u32
}

// Puts other bytes in place of some.
fn change_bytes(numbers: &mut Numbers, file: &mut [u8]) {
    for _ in 0..numbers.below(8) + 1 {
        let at = numbers.below(file.len() as u64 + 1) as usize;
        if at < file.len() {
            file[at] = numbers.below(256) as u8;
        }
    }
}

fn cut(numbers: &mut Numbers, file: &mut Vec<u8>) {
    let left = numbers.below(file.len() as u64 + 1) as usize;
    file.truncate(left);
}

// Puts a number at a limit in place of any number.
fn make_huge(numbers: &mut Numbers, file: &mut [u8], changes: u32) {
    let number = HUGE[numbers.below(5) as usize];
    let at = match any_change(numbers, changes) {
        0 => IN_HEADER[numbers.below(9) as usize],
        change => change_at(change) + IN_CHANGE[numbers.below(11) as usize],
    };
    put_number(file, at, number);
}

// The bytes, with those of a stretch twice.
fn doubled(alloc: Global, file: &[u8], at: usize, size: usize) -> Result<Vec<u8>, AllocError>
    requires { at + size ≤ length file.now }
    ensures { IfOk result (λ out. out.items ≡ take (at + size) file.now ++ drop at file.now) }
{
    let mut out = Vec::new(alloc);
    out.extend_from_slice(&file[..at + size])?;
    out.extend_from_slice(&file[at..])?;
    Ok(out)
}

// Doubles an optional field, a change, or any stretch.
fn double(
    alloc: Global,
    numbers: &mut Numbers,
    file: &[u8],
    changes: u32,
) -> Result<Vec<u8>, AllocError> {
    let change = change_at(any_change(numbers, changes));
    let (at, size) = match numbers.below(3) {
        0 => (change + OPTION, OPTION_BYTES),
        1 => (change, CHANGE),
        _ => (
            numbers.below(file.len() as u64 + 1) as usize,
            numbers.below(64) as usize,
        ),
    };
    let at = at.min(file.len());
    doubled(alloc, file, at, size.min(file.len() - at))
}

// Leads some links of changes to any others.
fn relink(numbers: &mut Numbers, file: &mut [u8], changes: u32) {
    for _ in 0..numbers.below(4) + 1 {
        let link = change_at(any_change(numbers, changes)) + LINKS[numbers.below(4) as usize];
        let leads_to = any_change(numbers, changes);
        put_number(file, link, leads_to);
    }
}

// Leads the first change and the last one to each other, so that parents or alternatives go round.
fn close(file: &mut [u8], shape: Shape, changes: u32) {
    if shape == Shape::Fan {
        put_number(file, change_at(changes) + ALT_NEXT, 1);
        put_number(file, change_at(1) + ALT_PREV, changes);
    } else {
        put_number(file, change_at(1) + NEXT, changes);
    }
}

fn mutated(
    alloc: Global,
    numbers: &mut Numbers,
    shape: Shape,
    changes: u32,
) -> Result<Vec<u8>, AllocError> {
    let mut file = file_of(alloc, shape, changes)?;
    match numbers.below(8) {
        0 => change_bytes(numbers, &mut file),
        1 => cut(numbers, &mut file),
        2 => make_huge(numbers, &mut file, changes),
        3 => file = double(alloc, numbers, &file, changes)?,
        4 => relink(numbers, &mut file, changes),
        5 => close(&mut file, shape, changes),
        6 => encrypt(&mut file),
        _ => {}
    }
    Ok(file)
}

fn with_other_links(
    alloc: Global,
    numbers: &mut Numbers,
    number: u64,
    changes: u32,
) -> Result<Vec<u8>, AllocError> {
    let shape = Shape::numbered(number);
    let mut file = file_of(alloc, shape, changes)?;
    if number % 2 == 0 {
        relink(numbers, &mut file, changes);
    } else {
        close(&mut file, shape, changes);
    }
    Ok(file)
}

/// The file of a job with this number.
pub fn hostile_file(
    alloc: Global,
    numbers: &mut Numbers,
    number: u64,
    job: Job,
) -> Result<Vec<u8>, AllocError> {
    match job.how {
        How::Links => with_other_links(alloc, numbers, number, job.changes),
        How::Anyhow => {
            let shape = Shape::numbered(numbers.below(3));
            let changes = any_change(numbers, job.changes);
            mutated(alloc, numbers, shape, changes)
        }
    }
}
