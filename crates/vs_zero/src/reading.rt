// Whether page 0 reads, and its fields.

ghost use Rattle.std.specs.Prelude.{◌≡◌, ◌==◌, ◌≤◌, length, IfNone};
ghost use Rattle.std.specs.List.{position};
ghost use Rattle.vs_zero.specs.Zero.{fields_of, has_magic, is_encrypted, is_open, is_paired, pair_of, refusal_of};

use crate::layout::{
    B0_DIRTY, B0_FF_MASK, B0_MAGIC_CHAR, B0_MAGIC_INT, B0_MAGIC_LONG, B0_MAGIC_SHORT, DIRTY, END,
    FLAGS, GENERATION, IDENTIFIER, MAGIC_CHAR, MAGIC_INT, MAGIC_LONG, MAGIC_SHORT, PAGE_SIZE,
    PAIR_FLAGS, PAIR_TAG,
};
use crate::{Pair, Zero, ZeroErr};
use vs_bytes::{le_u16, le_u32, le_u64};

// Why the page does not read, if it does not.
pub fn refusal(page: &[u8]) -> Option<ZeroErr>
    ensures value { result ≡ refusal_of page.now }
    ensures whole { IfNone result (1048 ≤ length page.now) }
{
    if page.len() < END {
        return Some(ZeroErr::Short);
    }
    if is_encrypted(page) {
        return Some(ZeroErr::Encrypted);
    }
    if !is_open(page) {
        return Some(ZeroErr::Closed);
    }
    if !has_magic(page) {
        return Some(ZeroErr::BadMagic);
    }
    let size = le_u32(page, PAGE_SIZE);
    if !(1048..=50000).contains(&size) {
        return Some(ZeroErr::BadPageSize(size));
    }
    None
}

#[tactic(auto, unfolding(crate::specs::Zero::is_encrypted))]
fn is_encrypted(page: &[u8]) -> bool
    requires { 1048 ≤ length page.now }
    ensures { result ≡ is_encrypted page.now }
{
    let identifier = &page[IDENTIFIER..IDENTIFIER + 2];
    b"cCdSs"
        .iter()
        .any(|cipher| identifier == [b'b', *cipher].as_slice())
}

#[tactic(auto, unfolding(crate::specs::Zero::is_open))]
fn is_open(page: &[u8]) -> bool
    requires { 1048 ≤ length page.now }
    ensures { result ≡ is_open page.now }
{
    page[IDENTIFIER..IDENTIFIER + 2] == b"b0"[..]
}

#[tactic(auto, unfolding(crate::specs::Zero::has_magic))]
fn has_magic(page: &[u8]) -> bool
    requires { 1048 ≤ length page.now }
    ensures { result ≡ has_magic page.now }
{
    let long = le_u64(page, MAGIC_LONG);
    let int = le_u32(page, MAGIC_INT);
    let short = le_u16(page, MAGIC_SHORT);
    let char = page[MAGIC_CHAR];
    long == B0_MAGIC_LONG && int == B0_MAGIC_INT && short == B0_MAGIC_SHORT && char == B0_MAGIC_CHAR
}

#[tactic(auto, unfolding(crate::specs::Zero::fields_of))]
pub fn fields(page: &[u8]) -> Zero
    requires { 1048 ≤ length page.now }
    ensures { result ≡ fields_of page.now }
{
    Zero {
        page_size: le_u32(page, PAGE_SIZE),
        format: page[FLAGS] & B0_FF_MASK,
        dirty: page[DIRTY] == B0_DIRTY,
        pair: pair(page),
    }
}

#[tactic(auto, unfolding(crate::specs::Zero::pair_of))]
fn pair(page: &[u8]) -> Option<Pair>
    requires { 1048 ≤ length page.now }
    ensures { result ≡ pair_of page.now }
{
    if !is_paired(page) {
        return None;
    }
    Some(Pair {
        generation: le_u64(page, GENERATION),
        empty: le_u32(page, PAIR_FLAGS) & 1 == 1,
    })
}

#[tactic(auto, unfolding(crate::specs::Zero::is_paired))]
fn is_paired(page: &[u8]) -> bool
    requires { 1048 ≤ length page.now }
    ensures { result ≡ is_paired page.now }
{
    page[PAIR_TAG..PAIR_TAG + 8] == b"VSWPAIR1"[..]
}

// The place of the first zero byte.
pub fn first_zero(bytes: &[u8]) -> Option<usize>
    ensures { result ≡ position (λ byte. byte == 0) bytes.now }
{
    bytes.iter().position(|byte| *byte == 0)
}
