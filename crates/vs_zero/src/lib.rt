//! Block 0, the first page of a swap file: docs/FORMATS.md, "Block 0".
//!
//! A page is read into a [`Zero`], and a `Zero` is written to a page with two zero bytes for an
//! identifier, so that the file counts as closed until `b0` is written over them.
#![tactic(auto)]

ghost use Rattle.std.specs.Prelude.{◌≡◌, ℕ, ◌<◌, ◌≤◌, ◌⊎◌, ◌↔◌, length, IsTrue, IsFalse, IsSome, IfSome, Ok, Err};

use crate::layout::{FILE_NAME, FLAGS, GENERATION, PAIR_FLAGS, PAIR_TAG};
use crate::reading::{fields, first_zero, refusal};
use crate::writing::{put, put_file_fields, put_magic_fields};
use vs_bytes::{put_le_u32, put_le_u64};

mod layout;
mod reading;
mod writing;

/// What a file of a swap pair says of the sync that wrote it.
#[derive(Clone, Copy, Debug, PartialEq, Eq)]
pub struct Pair {
    /// The number of the sync.
    pub generation: u64,

    /// Whether the text has no lines; the tree then has one empty line.
    pub empty: bool,
}

/// The fields of block 0 that are read.
#[derive(Clone, Copy, Debug, PartialEq, Eq)]
pub struct Zero {
    /// The size of each page of the file, in bytes.
    pub page_size: u32,

    /// The file format plus one: 1 is unix, 2 is dos, 3 is mac, 0 is not set.
    pub format: u8,

    /// Whether the text has changes that are not in the edited file.
    pub dirty: bool,

    /// What the file says as one of a pair, where its tag is there.
    pub pair: Option<Pair>,
}

/// Why page 0 does not read.
#[derive(Clone, Copy, Debug, PartialEq, Eq)]
pub enum ZeroErr {
    /// The page has fewer than 1,048 bytes.
    Short,

    /// The identifier is neither `b0` nor that of an encrypted file.
    Closed,

    /// The identifier is that of an encrypted file.
    Encrypted,

    /// One of the four magic numbers is another: the machine that wrote the file has another byte
    /// order or other widths, or this is no swap file.
    BadMagic,

    /// The page size in bytes, which is outside 1,048 to 50,000.
    BadPageSize(u32),
}

impl Zero {
    ghost use Rattle.vs_zero.specs.Layout.{number_in, page_size_field};
    ghost use Rattle.vs_zero.specs.Name.{is_allowed};
    ghost use Rattle.vs_zero.specs.Zero.{closed_page, has_magic, is_encrypted, is_open, is_page_size, name_of, opened, reading_of};

    /// Reads page 0, of which the first 1,048 bytes count: docs/FORMATS.md, "Block 0". Where
    /// several errors apply, the answer is the first of `Short`, `Encrypted`, `Closed`, `BadMagic`
    /// and `BadPageSize`.
    #[tactic(auto, using(crate::proofs::ReadingLaws::open_not_encrypted))]
    pub fn read(page: &[u8]) -> Result<Zero, ZeroErr>
        ensures value { result ≡ reading_of page.now }

        // The errors, each exactly there.
        ensures short { (result ≡ Err ZeroErr.Short) ↔ (length page.now < 1048) }
        ensures encrypted { (result ≡ Err ZeroErr.Encrypted)
            ↔ ((1048 ≤ length page.now) × IsTrue (is_encrypted page.now)) }
        ensures closed { (result ≡ Err ZeroErr.Closed)
            ↔ ((1048 ≤ length page.now) × IsFalse (is_encrypted page.now) × IsFalse (is_open page.now)) }
        ensures bad_magic { (result ≡ Err ZeroErr.BadMagic)
            ↔ ((1048 ≤ length page.now) × IsTrue (is_open page.now) × IsFalse (has_magic page.now)) }
        ensures bad_page_size { (size : ℕ) → (result ≡ Err (ZeroErr.BadPageSize size))
            ↔ ((1048 ≤ length page.now) × IsTrue (is_open page.now) × IsTrue (has_magic page.now)
            × (size ≡ number_in page_size_field page.now) × IsFalse (is_page_size size)) }
    {
        match refusal(page) {
            Some(refusal) => Err(refusal),
            None => Ok(fields(page)),
        }
    }

    /// Writes all bytes of page 0 of a closed file: docs/FORMATS.md, "Block 0". `name` is the bare
    /// name of the edited file, and the format is unix or dos.
    pub fn write_closed(&self, name: &str, page: &mut [u8])
        requires whole { length page.old ≡ 4096 }
        requires sized { self.now.page_size ≡ 4096 }
        requires known { (self.now.format ≡ 1) ⊎ (self.now.format ≡ 2) }
        requires allowed { IsTrue (is_allowed name.now) }
        requires paired { IsSome self.now.pair }
        ensures page { IfSome self.now.pair (λ pair. page.new ≡ closed_page self.now pair name.now) }

        // As it is, the page reads as closed. With the identifier of an open file it reads back.
        ensures closed { reading_of page.new ≡ Err ZeroErr.Closed }
        ensures reads { reading_of (opened page.new) ≡ Ok self.now }
        ensures named { name_of (opened page.new) ≡ name.now }
    {
        page.fill(0);
        put_file_fields(self, name, page);
        put_magic_fields(page);
        if let Some(pair) = &self.pair {
            put(page, PAIR_TAG, b"VSWPAIR1");
            put_le_u64(page, GENERATION, pair.generation);
            put_le_u32(page, PAIR_FLAGS, u32::from(pair.empty));
        }
    }

    /// The name of the edited file in page 0: the bytes of its field before the first zero byte,
    /// or all 898 where none is zero.
    pub fn name(page: &[u8]) -> &[u8]
        requires { 1048 ≤ length page.now }
        ensures { result.now ≡ name_of page.now }
    {
        let field = &page[FILE_NAME..FLAGS];
        let end = first_zero(field).unwrap_or(field.len());
        &field[..end]
    }
}
