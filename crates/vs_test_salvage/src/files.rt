// Swap files that are made page by page.
use std::alloc::{AllocError, Global};
use std::test::Fail;

/// An entry of a pointer block: block number, lines, old line number, pages.
pub type Entry = (i64, i64, i64, i32);

/// A block of a swap file. Every block has one page but for `Long`.
#[derive(Clone, Copy)]
pub enum Block<'a> {
    /// A pointer block.
    Pointers(&'a [Entry]),
    /// A pointer block with another count.
    Counted(u16, &'a [Entry]),
    /// A data block with these lines, each with a zero byte.
    Data(&'a [&'a [u8]]),
    /// A data block of so many pages.
    Long(usize, &'a [&'a [u8]]),
    /// A data block of which four bytes at a place are this number.
    Patched(usize, u32, &'a [&'a [u8]]),
    /// Zeros.
    Blank,
}

/// A swap file: the size of its pages, its flags byte, and its blocks from block 1 on.
#[derive(Clone, Copy)]
pub struct File<'a> {
    pub size: usize,
    pub flags: u8,
    pub blocks: &'a [Block<'a>],
    pub original: Option<&'a [u8]>,
}

fn put(bytes: &mut Vec<u8>, at: usize, part: &[u8]) {
    for (i, byte) in part.iter().enumerate() {
        if let Some(place) = bytes.get_mut(at.saturating_add(i)) {
            *place = *byte;
        }
    }
}

fn low_u16(number: usize) -> u16 {
    (number % 65_536) as u16
}

fn low_u32(number: usize) -> u32 {
    (number % 4_294_967_296) as u32
}

fn put_pointers(bytes: &mut Vec<u8>, at: usize, size: usize, count: u16, entries: &[Entry]) {
    put(bytes, at, b"tp");
    put(bytes, at.saturating_add(2), &count.to_le_bytes());
    put(
        bytes,
        at.saturating_add(4),
        &low_u16(size.saturating_sub(8) / 32).to_le_bytes(),
    );
    for (i, (block, lines, old, pages)) in entries.iter().enumerate() {
        let entry = at.saturating_add(8).saturating_add(i.saturating_mul(32));
        put(bytes, entry, &block.to_le_bytes());
        put(bytes, entry.saturating_add(8), &lines.to_le_bytes());
        put(bytes, entry.saturating_add(16), &old.to_le_bytes());
        put(bytes, entry.saturating_add(24), &pages.to_le_bytes());
    }
}

fn put_data(bytes: &mut Vec<u8>, at: usize, size: usize, lines: &[&[u8]]) {
    put(bytes, at, b"ad");
    put(bytes, at.saturating_add(12), &low_u32(size).to_le_bytes());
    put(
        bytes,
        at.saturating_add(16),
        &(lines.len() as u64).to_le_bytes(),
    );
    let mut start = size;
    for (i, line) in lines.iter().enumerate() {
        start = start.saturating_sub(line.len().saturating_add(1));
        put(bytes, at.saturating_add(start), line);
        put(
            bytes,
            at.saturating_add(24).saturating_add(i.saturating_mul(4)),
            &low_u32(start).to_le_bytes(),
        );
    }
    put(bytes, at.saturating_add(8), &low_u32(start).to_le_bytes());
}

fn pages_of(block: &Block) -> usize {
    match block {
        Block::Long(pages, _) => *pages,
        Block::Pointers(_)
        | Block::Counted(..)
        | Block::Data(_)
        | Block::Patched(..)
        | Block::Blank => 1,
    }
}

fn put_block(bytes: &mut Vec<u8>, at: usize, size: usize, block: &Block) {
    match block {
        Block::Pointers(entries) => put_pointers(bytes, at, size, low_u16(entries.len()), entries),
        Block::Counted(count, entries) => put_pointers(bytes, at, size, *count, entries),
        Block::Data(lines) => put_data(bytes, at, size, lines),
        Block::Long(pages, lines) => put_data(bytes, at, size.saturating_mul(*pages), lines),
        Block::Patched(place, number, lines) => {
            put_data(bytes, at, size, lines);
            put(bytes, at.saturating_add(*place), &number.to_le_bytes());
        }
        Block::Blank => {}
    }
}

// Page 0 as Vim writes it, without the tag of a pair.
fn put_head(bytes: &mut Vec<u8>, size: usize, flags: u8) {
    put(bytes, 0, b"b0VIM 9.0");
    put(bytes, 12, &low_u32(size).to_le_bytes());
    put(bytes, 1006, &[flags]);
    put(bytes, 1008, &[0x33, 0x32, 0x31, 0x30, 0, 0, 0, 0]);
    put(bytes, 1016, &[0x23, 0x22, 0x21, 0x20, 0x13, 0x12, 0x55]);
}

/// The bytes of a swap file.
pub fn bytes_of(alloc: Global, file: &File) -> Result<Vec<u8>, Fail> {
    let mut pages: usize = 1;
    for block in file.blocks {
        pages = pages.saturating_add(pages_of(block));
    }
    let mut bytes = zeros(alloc, pages.saturating_mul(file.size).min(1 << 24))?;
    put_head(&mut bytes, file.size, file.flags);
    let mut at = file.size;
    for block in file.blocks {
        put_block(&mut bytes, at, file.size, block);
        at = at.saturating_add(pages_of(block).saturating_mul(file.size));
    }
    Ok(bytes)
}

fn zeros(alloc: Global, count: usize) -> Result<Vec<u8>, AllocError> {
    vec![in alloc; 0u8; count]
}
