//! Data blocks of a swap file: stored lines of a text, in one or several whole pages.
//!
//! A block has a header, an index that grows upwards and the lines' bytes, which grow downwards from the block's end. Lines
//! are counted from 0, and places are bytes of the block, counted from 0. A stored line has no zero byte. The layout is in
//! docs/FORMATS.md, "Data blocks". No call takes memory.
#![tactic(auto)]

mod append;
mod bytes;
mod edit;
mod index;
mod view;

// The identifier, the bytes `ad`, and the places of the header's fields and of the index.
const ID: u16 = 0x6461;

const FREE: usize = 4;

const TEXT_START: usize = 8;

const TEXT_END: usize = 12;

const COUNT: usize = 16;

const INDEX: usize = 24;

// The place in an index entry, without the mark bit.
const PLACE_BITS: u32 = 0x7fff_ffff;

/// The header of a data block, as a reader goes by it: the number of lines, and the places where the text begins and ends.
/// docs/FORMATS.md, "Data blocks".
#[derive(Clone, Copy, Debug, PartialEq, Eq)]
pub struct DataView {
    /// The number of lines.
    pub count: u32,
    /// The place of the text's first byte.
    pub text_start: u32,
    /// The place past the text's last byte.
    pub text_end: u32,
}

/// Why bytes are no data block. docs/FORMATS.md, "Data blocks".
#[derive(Clone, Copy, Debug, PartialEq, Eq)]
pub enum DataErr {
    /// The identifier differs, or there are fewer bytes than a header has.
    BadId,
    /// Header, index, text and block do not end in this order, or there is text without lines.
    BadBounds,
    /// This line is the first whose index entry is not that of a line.
    BadIndex(u32),
}
