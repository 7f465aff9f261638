// What `Zero::write_closed` puts into a page of zeros.

ghost use Rattle.std.specs.Prelude.{◌≡◌, ◌+◌, ◌≤◌, length};
ghost use Rattle.vs_bytes.specs.Fields.{with_field};
ghost use Rattle.vs_zero.specs.Zero.{file_contents, magic_contents, with_contents};

use crate::Zero;
use crate::layout::{
    B0_DIRTY, B0_MAGIC_CHAR, B0_MAGIC_INT, B0_MAGIC_LONG, B0_MAGIC_SHORT, B0_SAME_DIR, DIRTY,
    FILE_NAME, FLAGS, MAGIC_CHAR, MAGIC_INT, MAGIC_LONG, MAGIC_SHORT, PAGE_SIZE, VERSION,
};
use vs_bytes::{put_le_u16, put_le_u32, put_le_u64};

// The fields that say of which file this is the swap file, and in which state.
pub fn put_file_fields(zero: &Zero, name: &str, page: &mut [u8])
    requires whole { length page.old ≡ 4096 }
    requires short { length name.now ≤ 200 }
    requires known { zero.now.format ≤ 2 }
    ensures { page.new ≡ with_contents page.old (file_contents zero.now name.now) }
{
    let dirty = if zero.dirty { B0_DIRTY } else { 0 };
    put(page, VERSION, b"VIM 9.0");
    put_le_u32(page, PAGE_SIZE, zero.page_size);
    put(page, FILE_NAME, name.as_bytes());
    put(page, FLAGS, &[B0_SAME_DIR + zero.format]);
    put(page, DIRTY, &[dirty]);
}

// The numbers that show the byte order and the widths of this machine.
pub fn put_magic_fields(page: &mut [u8])
    requires { length page.old ≡ 4096 }
    ensures { page.new ≡ with_contents page.old magic_contents }
{
    put_le_u64(page, MAGIC_LONG, B0_MAGIC_LONG);
    put_le_u32(page, MAGIC_INT, B0_MAGIC_INT);
    put_le_u16(page, MAGIC_SHORT, B0_MAGIC_SHORT);
    put(page, MAGIC_CHAR, &[B0_MAGIC_CHAR]);
}

// The bytes at the place `at`, and all others left as they are.
pub fn put(page: &mut [u8], at: usize, bytes: &[u8])
    requires { at + length bytes.now ≤ length page.old }
    ensures { page.new ≡ with_field page.old at bytes.now }
{
    page[at..at + bytes.len()].copy_from_slice(bytes);
}
