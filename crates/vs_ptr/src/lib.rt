//! Pointer blocks, the inner blocks of the line tree in a swap file. A pointer block is a list of entries, and
//! each call of [`PtrView`] is one on that list.
//!
//! A block is lent as its bytes, which may be any: [`PtrView::read`] answers whether they are a pointer block, and
//! the other calls take the view that it gave. Places in a block's list are counted from 0. No call takes memory.
//! The layout is that of docs/FORMATS.md, "Pointer blocks".
//!
//! To write an entry where the block is not lent, [`PtrEntry::to_bytes`] gives its bytes, and [`entry_place`] their
//! place in the block.
#![tactic(auto)]

mod entry;
mod view;

pub use entry::entry_place;

/// The bytes `tp` as a number, with which a pointer block begins.
const IDENTIFIER: u16 = 0x7074;

/// How many bytes stand before the first entry.
const HEADER_LEN: usize = 8;

/// How many bytes an entry takes.
const ENTRY_LEN: usize = 32;

/// An entry of a pointer block: another block of the line tree, and the lines that stand below it. A block from a
/// file may hold any numbers here. The layout is in docs/FORMATS.md, "Pointer blocks".
#[derive(Clone, Copy, Debug, PartialEq, Eq)]
pub struct PtrEntry {
    /// The number of the block's first page, counted from 0. Vim writes a negative number for a block that has no
    /// place in the file yet.
    pub block: i64,
    /// How many lines stand below the block.
    pub lines: i64,
    /// The number, counted from 1, that the first of these lines had in the file that was opened.
    pub old: i64,
    /// How many pages the block has.
    pub pages: i32,
}

/// The counts in the header of a pointer block, by which its entries are reached. The layout is in docs/FORMATS.md,
/// "Pointer blocks".
#[derive(Clone, Copy, Debug, PartialEq, Eq)]
pub struct PtrView {
    /// How many entries the block has.
    pub count: u16,
    /// The greatest count that the header allows. In a block from a file it may be more than the block has room for.
    pub most: u16,
}

/// Why bytes are no pointer block, by the reading rules of docs/FORMATS.md, "Pointer blocks".
#[derive(Clone, Copy, Debug, PartialEq, Eq)]
pub enum PtrErr {
    /// The bytes are fewer than the 8 of a header, or do not begin with the identifier.
    BadId,
    /// The count, which is given here, is above the greatest count, or the bytes end before that many entries do.
    BadCount(u16),
}
