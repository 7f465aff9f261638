// Undo files as bytes, of histories that are made up (docs/FORMATS.md, "Undo file").

use std::alloc::{AllocError, Global};

// The bytes of the header, and of a change with one entry of one line.
pub const HEADER: usize = 98;

pub const CHANGE: usize = 431;

// The start, the version, the digest of one empty line, and its line count.
const FRONT: [u8; 47] = [
    0x56, 0x69, 0x6d, 0x9f, 0x55, 0x6e, 0x44, 0x6f, 0xe5, 0, 2, 0x6e, 0x34, 0x0b, 0x9c, 0xff, 0xb3,
    0x7a, 0x98, 0x9c, 0xa5, 0x44, 0xe6, 0xbb, 0x78, 0x0a, 0x2c, 0x78, 0x90, 0x1d, 0x3f, 0xb3, 0x37,
    0x38, 0x76, 0x85, 0x11, 0xa3, 0x06, 0x17, 0xaf, 0xa0, 0x1d, 0, 0, 0, 1,
];

/// How the changes of a history hang together.
#[derive(Clone, Copy, Debug, PartialEq, Eq)]
pub enum Shape {
    /// Each is the child of the one before.
    Straight,
    /// All are children of the root.
    Fan,
    /// Each two are children of the first of the two before.
    Pairs,
}

impl Shape {
    /// One of the shapes.
    pub fn numbered(number: u64) -> Shape {
        match number % 3 {
            0 => Shape::Straight,
            1 => Shape::Fan,
            _ => Shape::Pairs,
        }
    }

    // The links of a change to others of so many: next, prev, alt_next, alt_prev.
    fn links(self, number: u32, changes: u32) -> [u32; 4] {
        let before = number.saturating_sub(1);
        let after = if number < changes { number + 1 } else { 0 };
        match self {
            Shape::Straight => [before, after, 0, 0],
            Shape::Fan => [0, 0, after, before],
            Shape::Pairs if number % 2 == 1 => [before.saturating_sub(1), 0, after, 0],
            Shape::Pairs => [before.saturating_sub(2), 0, 0, before],
        }
    }
}

// A header without U line.
fn put_header(out: &mut Vec<u8>, changes: u32) -> Result<(), AllocError> {
    out.extend_from_slice(&FRONT)?;
    out.extend_from_slice(&[0; 12])?;
    let first = changes.min(1);
    for number in [first, changes, 0, changes, changes, changes].iter() {
        out.extend_from_slice(&number.to_be_bytes())?;
    }
    out.extend_from_slice(&[0; 8])?;
    out.extend_from_slice(&[4, 1, 0, 0, 0, 0, 0])
}

// A change that puts one line in place of one other.
fn put_change(out: &mut Vec<u8>, number: u32, links: [u32; 4]) -> Result<(), AllocError> {
    out.extend_from_slice(&[0x5f, 0xd0])?;
    for link in links.iter() {
        out.extend_from_slice(&link.to_be_bytes())?;
    }
    out.extend_from_slice(&number.to_be_bytes())?;
    out.extend_from_slice(&[0; 370])?;
    out.extend_from_slice(&[4, 1, 0, 0, 0, 0, 0, 0xf5, 0x18])?;
    out.extend_from_slice(&[0, 0, 0, 0, 0, 0, 0, 2, 0, 0, 0, 0, 0, 0, 0, 1])?;
    out.extend_from_slice(&[0, 0, 0, 8])?;
    out.extend_from_slice(b"one line")?;
    out.extend_from_slice(&[0x35, 0x81])
}

/// The undo file of a history with so many changes.
pub fn file_of(alloc: Global, shape: Shape, changes: u32) -> Result<Vec<u8>, AllocError> {
    let mut out = Vec::with_capacity(alloc, HEADER + changes as usize * CHANGE + 2)?;
    put_header(&mut out, changes)?;
    for before in 0..changes {
        put_change(&mut out, before + 1, shape.links(before + 1, changes))?;
    }
    out.extend_from_slice(&[0xe7, 0xaa])?;
    Ok(out)
}
