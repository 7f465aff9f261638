// A pointer block as the list of its entries.
ghost use Rattle.std.specs.Prelude.{◌≡◌, ◌+◌, ◌-◌, ◌*◌, ◌/◌, ◌<◌, ◌≤◌, ◌+ℤ◌, FitsSigned, Some, Ok, IfSome, IfOk, IsSomeAnd, OnErr, None, [], length, take, drop, insert, remove, replicate, slice_get, slice_set};
ghost use Rattle.std.specs.Int.{w64};
ghost use Rattle.std.specs.Option.{ForSome};
ghost use Rattle.std.specs.Simd.{first_chunks};
ghost use Rattle.vs_ptr.specs.Blocks.{bytes_of_entry, with_lines_added, slots_of, unused_of, HasBytes, entries_of, view_in, entries_in};

use crate::entry::{
    add_to_lines, copy_entries, entry_place, insert_entry, put_entry, read_entry, remove_entry,
};
use crate::{ENTRY_LEN, HEADER_LEN, IDENTIFIER, PtrEntry, PtrErr, PtrView};
use vs_bytes::{le_u16, put_le_u16};

impl PtrView {
    /// Makes `block`, one page of 1,048 to 50,000 bytes, a pointer block without entries. What stands past its header
    /// has no meaning (docs/FORMATS.md, "Pointer blocks").
    pub fn fresh(block: &mut [u8]) -> PtrView
        requires least { 1048 ≤ length block.old }
        requires greatest { length block.old ≤ 50000 }
        ensures header { result ≡ record { count = 0; most = (length block.old - HEADER_LEN) / ENTRY_LEN } }
        ensures view { view_in block.new ≡ Ok result }
        ensures entries { entries_in block.new ≡ Some [] }
        ensures bytes { HasBytes block.new (replicate 2 0) [] }
    {
        let most = ((block.len() - HEADER_LEN) / ENTRY_LEN) as u16;
        put_le_u16(block, 0, IDENTIFIER);
        put_le_u16(block, 2, 0);
        put_le_u16(block, 4, most);
        put_le_u16(block, 6, 0);
        PtrView { count: 0, most }
    }

    /// Reads the header of a pointer block by the rules of docs/FORMATS.md, "Pointer blocks". BadId is tried first.
    /// No entry is looked at: any 32 bytes are one.
    #[tactic(auto, using(crate::proofs::Headers::count_of_entries), unfolding(crate::specs::Blocks::view_in, crate::specs::Blocks::entries_in))]
    pub fn read(block: &[u8]) -> Result<PtrView, PtrErr>
        ensures answer { result ≡ view_in block.now }
        ensures entries { IfOk result (λ view. IsSomeAnd (entries_in block.now) (λ entries. length entries ≡ view.count)) }
        ensures refused { OnErr result (entries_in block.now ≡ None) }
    {
        if block.len() < HEADER_LEN || le_u16(block, 0) != IDENTIFIER {
            return Err(PtrErr::BadId);
        }
        let view = PtrView {
            count: le_u16(block, 2),
            most: le_u16(block, 4),
        };
        if view.count > view.most || entry_place(view.count) > block.len() {
            return Err(PtrErr::BadCount(view.count));
        }
        Ok(view)
    }

    /// The entry at place `at`, counted from 0, with its numbers as they stand in the block (docs/FORMATS.md, "Pointer
    /// blocks").
    pub fn entry(&self, block: &[u8], at: u16) -> PtrEntry
        requires view { view_in block.now ≡ Ok self.now }
        requires place { at < self.now.count }
        ensures { slice_get (entries_of block.now) at ≡ Some result }
    {
        let start = entry_place(at);
        read_entry(&block[start..start + ENTRY_LEN])
    }

    /// Writes `count` into the header.
    fn set_count(&mut self, block: &mut [u8], count: u16)
        requires view { view_in block.old ≡ Ok self.old }
        requires allowed { count ≤ self.old.most }
        requires room { HEADER_LEN + ENTRY_LEN * count ≤ length block.old }
        ensures header { self.new ≡ record self.old { count = count } }
        ensures view { view_in block.new ≡ Ok self.new }
        ensures bytes { HasBytes block.new (unused_of block.old) (first_chunks ENTRY_LEN count (drop HEADER_LEN block.old)) }
    {
        self.count = count;
        put_le_u16(block, 2, count);
    }

    /// Puts `entry` at place `at`, counted from 0, and the entries from there on one place up. Its unused bytes are
    /// written as zeros (docs/FORMATS.md, "Pointer blocks").
    pub fn insert(&mut self, block: &mut [u8], at: u16, entry: &PtrEntry)
        requires view { view_in block.old ≡ Ok self.old }
        requires allowed { self.old.count < self.old.most }
        requires room { HEADER_LEN + ENTRY_LEN * (self.old.count + 1) ≤ length block.old }
        requires place { at ≤ self.old.count }
        ensures header { self.new ≡ record self.old { count = self.old.count + 1 } }
        ensures view { view_in block.new ≡ Ok self.new }
        ensures entries { entries_in block.new ≡ Some (insert (entries_of block.old) at entry.now) }
        ensures bytes { HasBytes block.new (unused_of block.old) (insert (slots_of block.old) at (bytes_of_entry entry.now)) }
    {
        insert_entry(block, self.count, at, entry);
        self.set_count(block, self.count + 1);
    }

    /// Takes out the entry at place `at`, counted from 0, and puts the entries after it one place down. What stands
    /// past the last entry has no meaning (docs/FORMATS.md, "Pointer blocks").
    pub fn remove(&mut self, block: &mut [u8], at: u16)
        requires view { view_in block.old ≡ Ok self.old }
        requires place { at < self.old.count }
        ensures header { self.new ≡ record self.old { count = self.old.count - 1 } }
        ensures view { view_in block.new ≡ Ok self.new }
        ensures entries { entries_in block.new ≡ Some (remove (entries_of block.old) at) }
        ensures bytes { HasBytes block.new (unused_of block.old) (remove (slots_of block.old) at) }
    {
        remove_entry(block, self.count, at);
        self.set_count(block, self.count - 1);
    }

    /// Puts `entry` in place of the entry at place `at`, counted from 0. Its unused bytes are written as zeros
    /// (docs/FORMATS.md, "Pointer blocks").
    pub fn replace(&mut self, block: &mut [u8], at: u16, entry: &PtrEntry)
        requires view { view_in block.old ≡ Ok self.old }
        requires place { at < self.old.count }
        ensures header { self.new ≡ self.old }
        ensures view { view_in block.new ≡ Ok self.new }
        ensures entries { entries_in block.new ≡ Some (slice_set (entries_of block.old) at entry.now) }
        ensures bytes { HasBytes block.new (unused_of block.old) (slice_set (slots_of block.old) at (bytes_of_entry entry.now)) }
    {
        put_entry(block, at, entry);
    }

    /// Adds `by`, which may be negative, to the line count of the entry at place `at`, counted from 0. Its unused
    /// bytes are written as zeros (docs/FORMATS.md, "Pointer blocks").
    pub fn add_lines(&mut self, block: &mut [u8], at: u16, by: i64)
        requires view { view_in block.old ≡ Ok self.old }
        requires place { at < self.old.count }
        requires fits { ForSome (slice_get (entries_of block.old) at) (λ entry. FitsSigned w64 (entry.lines +ℤ by)) }
        ensures header { self.new ≡ self.old }
        ensures view { view_in block.new ≡ Ok self.new }
        ensures entries { IfSome (slice_get (entries_of block.old) at) (λ entry.
            entries_in block.new ≡ Some (slice_set (entries_of block.old) at (with_lines_added entry by))) }
        ensures bytes { IfSome (slice_get (entries_of block.old) at) (λ entry.
            HasBytes block.new (unused_of block.old) (slice_set (slots_of block.old) at (bytes_of_entry (with_lines_added entry by)))) }
    {
        let entry = add_to_lines(self.entry(block, at), by);
        self.replace(block, at, &entry);
    }

    /// Moves the entries from place `from` on, counted from 0, into `other`, which is made a pointer block of the same
    /// size, and gives its view (docs/FORMATS.md, "Pointer blocks").
    pub fn split_into(&mut self, block: &mut [u8], from: u16, other: &mut [u8]) -> PtrView
        requires view { view_in block.old ≡ Ok self.old }
        requires place { from ≤ self.old.count }
        requires same_len { length other.old ≡ length block.old }
        requires least { 1048 ≤ length block.old }
        requires greatest { length block.old ≤ 50000 }
        ensures header { self.new ≡ record self.old { count = from } }
        ensures view { view_in block.new ≡ Ok self.new }
        ensures entries { entries_in block.new ≡ Some (take from (entries_of block.old)) }
        ensures bytes { HasBytes block.new (unused_of block.old) (take from (slots_of block.old)) }

        ensures other_header { result ≡ record { count = self.old.count - from; most = (length other.old - HEADER_LEN) / ENTRY_LEN } }
        ensures other_view { view_in other.new ≡ Ok result }
        ensures other_entries { entries_in other.new ≡ Some (drop from (entries_of block.old)) }
        ensures other_bytes { HasBytes other.new (replicate 2 0) (drop from (slots_of block.old)) }
    {
        let mut moved = PtrView::fresh(other);
        copy_entries(block, from, self.count, other);
        moved.set_count(other, self.count - from);
        self.set_count(block, from);
        moved
    }
}
