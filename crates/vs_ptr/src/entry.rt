// Entries as bytes, and the places where they stand.
ghost use Rattle.std.specs.Prelude.{◌≡◌, ◌+◌, ◌-◌, ◌*◌, ◌<◌, ◌≤◌, ◌+ℤ◌, FitsSigned, length, take, drop, insert, remove};
ghost use Rattle.std.specs.Int.{w64};
ghost use Rattle.std.specs.Simd.{first_chunks};
ghost use Rattle.vs_bytes.specs.Fields.{with_field};
ghost use Rattle.vs_ptr.specs.Blocks.{entry_of, bytes_of_entry, with_lines_added};

use crate::{ENTRY_LEN, HEADER_LEN, PtrEntry};
use vs_bytes::{le_i32, le_i64, put_le_i32, put_le_i64};

/// The entry with `by` lines more.
pub(crate) fn add_to_lines(entry: PtrEntry, by: i64) -> PtrEntry
    requires { FitsSigned w64 (entry.lines +ℤ by) }
    ensures { result ≡ with_lines_added entry by }
{
    PtrEntry {
        lines: entry.lines + by,
        ..entry
    }
}

/// Where the entry at place `at`, counted from 0, begins, in bytes from the start of the block (docs/FORMATS.md,
/// "Pointer blocks").
pub fn entry_place(at: u16) -> usize
    ensures { result ≡ 8 + 32 * at }
{
    HEADER_LEN + ENTRY_LEN * usize::from(at)
}

/// The entry that the 32 bytes of `slot` stand for.
#[tactic(auto, unfolding(crate::specs::Blocks::entry_of))]
pub(crate) fn read_entry(slot: &[u8]) -> PtrEntry
    requires { length slot.now ≡ ENTRY_LEN }
    ensures { result ≡ entry_of slot.now }
{
    PtrEntry {
        block: le_i64(slot, 0),
        lines: le_i64(slot, 8),
        old: le_i64(slot, 16),
        pages: le_i32(slot, 24),
    }
}

/// Writes `entry` over the 32 bytes of `slot`.
#[tactic(auto, unfolding(crate::specs::Blocks::bytes_of_entry))]
pub(crate) fn write_entry(slot: &mut [u8], entry: &PtrEntry)
    requires { length slot.old ≡ ENTRY_LEN }
    ensures bytes { slot.new ≡ bytes_of_entry entry.now }
    ensures reads_back { entry_of (bytes_of_entry entry.now) ≡ entry.now }
{
    slot.fill(0);
    put_le_i64(slot, 0, entry.block);
    put_le_i64(slot, 8, entry.lines);
    put_le_i64(slot, 16, entry.old);
    put_le_i32(slot, 24, entry.pages);
}

impl PtrEntry {
    /// The 32 bytes that stand for the entry in a pointer block (docs/FORMATS.md, "Pointer blocks"). Its unused bytes
    /// are zeros.
    pub fn to_bytes(&self) -> [u8; ENTRY_LEN]
        ensures bytes { result ≡ bytes_of_entry self.now }
        ensures len { length (bytes_of_entry self.now) ≡ 32 }
        ensures reads_back { entry_of (bytes_of_entry self.now) ≡ self.now }
    {
        let mut slot = [0; ENTRY_LEN];
        write_entry(&mut slot, self);
        slot
    }
}

/// Writes `entry` over the bytes at place `at`.
pub(crate) fn put_entry(block: &mut [u8], at: u16, entry: &PtrEntry)
    requires { HEADER_LEN + ENTRY_LEN * (at + 1) ≤ length block.old }
    ensures header { take HEADER_LEN block.new ≡ take HEADER_LEN block.old }
    ensures bytes { block.new ≡ with_field block.old (HEADER_LEN + ENTRY_LEN * at) (bytes_of_entry entry.now) }
    ensures len { length (bytes_of_entry entry.now) ≡ ENTRY_LEN }
    ensures reads_back { entry_of (bytes_of_entry entry.now) ≡ entry.now }
{
    let start = entry_place(at);
    write_entry(&mut block[start..start + ENTRY_LEN], entry);
}

/// Puts `entry` at place `at` of `count` entries, and those from there on one place up.
pub(crate) fn insert_entry(block: &mut [u8], count: u16, at: u16, entry: &PtrEntry)
    requires place { at ≤ count }
    requires room { HEADER_LEN + ENTRY_LEN * (count + 1) ≤ length block.old }
    ensures header { take HEADER_LEN block.new ≡ take HEADER_LEN block.old }
    ensures slots { first_chunks ENTRY_LEN (count + 1) (drop HEADER_LEN block.new)
        ≡ insert (first_chunks ENTRY_LEN count (drop HEADER_LEN block.old)) at (bytes_of_entry entry.now) }
    ensures reads_back { entry_of (bytes_of_entry entry.now) ≡ entry.now }
{
    let start = entry_place(at);
    block.copy_within(start..entry_place(count), start + ENTRY_LEN);
    put_entry(block, at, entry);
}

/// Takes the entry at place `at` out of `count` entries, and puts those after it one place down.
pub(crate) fn remove_entry(block: &mut [u8], count: u16, at: u16)
    requires place { at < count }
    requires room { HEADER_LEN + ENTRY_LEN * count ≤ length block.old }
    ensures header { take HEADER_LEN block.new ≡ take HEADER_LEN block.old }
    ensures slots { first_chunks ENTRY_LEN (count - 1) (drop HEADER_LEN block.new)
        ≡ remove (first_chunks ENTRY_LEN count (drop HEADER_LEN block.old)) at }
{
    let start = entry_place(at);
    block.copy_within(start + ENTRY_LEN..entry_place(count), start);
}

/// Copies the entries of `block` from place `from` up to `to` over the first ones of `other`.
pub(crate) fn copy_entries(block: &[u8], from: u16, to: u16, other: &mut [u8])
    requires ordered { from ≤ to }
    requires within { HEADER_LEN + ENTRY_LEN * to ≤ length block.now }
    requires room { HEADER_LEN + ENTRY_LEN * (to - from) ≤ length other.old }
    ensures header { take HEADER_LEN other.new ≡ take HEADER_LEN other.old }
    ensures slots { first_chunks ENTRY_LEN (to - from) (drop HEADER_LEN other.new)
        ≡ drop from (first_chunks ENTRY_LEN to (drop HEADER_LEN block.now)) }
{
    let start = entry_place(from);
    let len = entry_place(to) - start;
    other[HEADER_LEN..HEADER_LEN + len].copy_from_slice(&block[start..start + len]);
}
