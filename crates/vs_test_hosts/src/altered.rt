/// How a page comes back otherwise than it was written.
#[derive(Clone, Copy)]
pub enum Altered {
    /// With another byte at a place of the page.
    Byte(u64, usize, u8),
    /// As another page is.
    Other(u64, u64),
}

impl Altered {
    /// The number of the page.
    pub fn page(self) -> u64 {
        match self {
            Altered::Byte(page, _, _) | Altered::Other(page, _) => page,
        }
    }
}

/// Each kind of altered page that is none of a text in which the first entry of block 1 leads to block 2, of one page, with four lines.
pub const ALTERED: [(&str, Altered); 11] = [
    ("a pointer block without its mark", Altered::Byte(1, 0, 0)),
    (
        "more entries than a block has room for",
        Altered::Byte(1, 3, 255),
    ),
    ("an entry of another line count", Altered::Byte(1, 16, 7)),
    ("an entry without pages", Altered::Byte(1, 32, 0)),
    (
        "an entry of two pages for four lines",
        Altered::Byte(1, 32, 2),
    ),
    ("an entry of many million pages", Altered::Byte(1, 35, 127)),
    ("an entry of a negative page", Altered::Byte(1, 15, 128)),
    ("a data block without its mark", Altered::Byte(2, 0, 0)),
    ("a data block of other lines", Altered::Byte(2, 16, 2)),
    ("a pointer block for a data block", Altered::Other(2, 1)),
    ("a data block for a pointer block", Altered::Other(1, 2)),
];
