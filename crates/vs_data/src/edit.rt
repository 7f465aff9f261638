// The changes of a block.
ghost use Rattle.std.specs.Prelude.{◌≡◌, ◌≢◌, ◌+◌, ◌-◌, ◌*◌, ◌^◌, ◌<◌, ◌≤◌, ◌++◌, [], Some, Ok, drop, length, replicate, take};
ghost use Rattle.std.specs.List.{All, insert, remove};
ghost use Rattle.std.specs.Option.{option_map};
ghost use Rattle.vs_bytes.specs.Fields.{with_field};
ghost use Rattle.vs_data.specs.Blocks.{HasRest, IsBlockLength, KeepsFrame, end_at, free_space, header_of, id_bytes, lines_in, marks_in, put_in, start_at, view_in, with_lines_in};

use crate::bytes::{clear_bytes, move_bytes, put_bytes};
use crate::index::{
    close_index, entry_place, join_index, join_text, move_starts, open_index, open_text,
};
use crate::{COUNT, DataView, FREE, ID, INDEX, TEXT_END, TEXT_START};
use vs_bytes::{put_le_u32, put_le_u64};

impl DataView {
    /// Makes a block without lines, with zeros after its header. The block is one or more whole pages of 4,096 bytes, at most
    /// 1,100,000 bytes.
    pub fn fresh(block: &mut [u8]) -> DataView
        requires { IsBlockLength (length block.old) }
        ensures header { result ≡ record { count = 0; text_start = length block.old; text_end = length block.old } }
        ensures view { view_in block.new ≡ Ok result }
        ensures lines { lines_in block.new ≡ Some [] }
        ensures bytes { block.new ≡ id_bytes ++ header_of result ++ replicate (length block.old - 24) 0 }
    {
        block.fill(0);
        DataView::fresh_over(block)
    }

    /// Makes a block without lines, as `fresh` does, but leaves the bytes after its header. `clear_free` puts zeros there.
    pub fn fresh_over(block: &mut [u8]) -> DataView
        requires { IsBlockLength (length block.old) }
        ensures header { result ≡ record { count = 0; text_start = length block.old; text_end = length block.old } }
        ensures view { view_in block.new ≡ Ok result }
        ensures lines { lines_in block.new ≡ Some [] }
        ensures bytes { block.new ≡ id_bytes ++ header_of result ++ drop 24 block.old }
    {
        let length = block.len() as u32;
        let view = DataView {
            count: 0,
            text_start: length,
            text_end: length,
        };
        put_le_u32(block, 0, u32::from(ID));
        view.write_header(block);
        view
    }

    /// Puts zeros between the index and the text.
    pub fn clear_free(&self, block: &mut [u8])
        requires { view_in block.old ≡ Ok self.now }
        ensures view { view_in block.new ≡ Ok self.now }
        ensures lines { lines_in block.new ≡ lines_in block.old }
        ensures bytes { block.new ≡ with_field block.old (24 + 4 * self.now.count) (replicate (free_space self.now) 0) }
    {
        clear_bytes(block, entry_place(self.count), self.text_start as usize);
    }

    /// Puts the line before line `at`, or last where `at` is the count. Its mark bit is 0. The index has places below 2^31,
    /// so the text has to end there or before.
    pub fn insert(&mut self, block: &mut [u8], at: u32, line: &[u8])
        requires view { view_in block.old ≡ Ok self.old }
        requires places { self.old.text_end ≤ 2 ^ 31 }
        requires at { at ≤ self.old.count }
        requires fits { length line.now + 5 ≤ free_space self.old }
        requires no_zero { All (λ byte. byte ≢ 0) line.now }
        ensures header { self.new ≡ record self.old {
          count = self.old.count + 1;
          text_start = self.old.text_start - (length line.now + 1);
        } }
        ensures view { view_in block.new ≡ Ok self.new }
        ensures lines { lines_in block.new ≡ option_map (λ lines. insert lines at line.now) (lines_in block.old) }
        ensures marks { marks_in block.new ≡ insert (marks_in block.old) at 0 }
        ensures frame { KeepsFrame block.old block.new self.new }
    {
        let size = line.len() as u32 + 1;
        let end = self.end(block, at);
        let text_start = self.text_start - size;
        open_text(block, self.text_start as usize, end as usize, line);
        open_index(block, at, self.count, end - size);
        move_starts(block, at + 1, self.count + 1, self.text_start, text_start);
        self.count += 1;
        self.text_start = text_start;
        self.write_header(block);
    }

    /// Puts the lines of another block, whose view is `more`, before line `at`, or last where `at` is the count, with their
    /// mark bits. The index has places below 2^31, so the text has to end there or before.
    pub fn insert_lines(&mut self, block: &mut [u8], at: u32, more: DataView, lines: &[u8])
        requires view { view_in block.old ≡ Ok self.old }
        requires more { view_in lines.now ≡ Ok more }
        requires places { self.old.text_end ≤ 2 ^ 31 }
        requires at { at ≤ self.old.count }
        requires fits { 4 * more.count + (more.text_end - more.text_start) ≤ free_space self.old }
        ensures header { self.new ≡ record self.old {
          count = self.old.count + more.count;
          text_start = self.old.text_start - (more.text_end - more.text_start);
        } }
        ensures view { view_in block.new ≡ Ok self.new }
        ensures lines { lines_in block.new ≡ with_lines_in block.old at lines.now }
        ensures marks { marks_in block.new ≡ put_in (marks_in block.old) at (marks_in lines.now) }
        ensures frame { KeepsFrame block.old block.new self.new }
    {
        let size = more.text_end - more.text_start;
        let end = self.end(block, at);
        let text_start = self.text_start - size;
        let text = &lines[more.text_start as usize..more.text_end as usize];
        join_text(block, self.text_start as usize, end as usize, text);
        let index = &lines[INDEX..entry_place(more.count)];
        join_index(block, at, self.count, index);
        let past = at + more.count;
        let count = self.count + more.count;
        move_starts(block, at, past, more.text_start, end - size);
        move_starts(block, past, count, self.text_start, text_start);
        self.count = count;
        self.text_start = text_start;
        self.write_header(block);
    }

    /// Takes line `at` out, with its mark bit. The index has places below 2^31, so the text has to end there or before.
    pub fn remove(&mut self, block: &mut [u8], at: u32)
        requires view { view_in block.old ≡ Ok self.old }
        requires places { self.old.text_end ≤ 2 ^ 31 }
        requires at { at < self.old.count }
        ensures header { self.new ≡ record self.old {
          count = self.old.count - 1;
          text_start = self.old.text_start + (end_at block.old at - start_at block.old at);
        } }
        ensures view { view_in block.new ≡ Ok self.new }
        ensures lines { lines_in block.new ≡ option_map (λ lines. remove lines at) (lines_in block.old) }
        ensures marks { marks_in block.new ≡ remove (marks_in block.old) at }
        ensures frame { KeepsFrame block.old block.new self.new }
    {
        let start = self.start(block, at);
        let end = self.end(block, at);
        let text_start = self.text_start + (end - start);
        move_bytes(
            block,
            self.text_start as usize,
            start as usize,
            text_start as usize,
        );
        close_index(block, at, self.count);
        move_starts(block, at, self.count - 1, self.text_start, text_start);
        self.count -= 1;
        self.text_start = text_start;
        self.write_header(block);
    }

    /// Moves the lines from `from` on, with their mark bits, into `other`, which becomes a fresh block as long as this one.
    /// It answers the view of `other`.
    pub fn split_into(&mut self, block: &mut [u8], from: u32, other: &mut [u8]) -> DataView
        requires view { view_in block.old ≡ Ok self.old }
        requires from { from ≤ self.old.count }
        requires as_long { length other.old ≡ length block.old }
        requires length { IsBlockLength (length block.old) }
        ensures header { self.new ≡ record self.old { count = from; text_start = end_at block.old from } }
        ensures view { view_in block.new ≡ Ok self.new }
        ensures lines { lines_in block.new ≡ option_map (λ lines. take from lines) (lines_in block.old) }
        ensures marks { marks_in block.new ≡ take from (marks_in block.old) }
        ensures frame { KeepsFrame block.old block.new self.new }
        ensures rest { HasRest block.old from other.new result }
    {
        let end = self.end(block, from);
        let rest = self.copy_rest(block, from, end, other);
        self.count = from;
        self.text_start = end;
        self.write_header(block);
        rest
    }

    // Makes `other` a block of the lines from `from` on, where the bytes of the lines before them begin at `end`.
    fn copy_rest(&self, block: &[u8], from: u32, end: u32, other: &mut [u8]) -> DataView
        requires view { view_in block.now ≡ Ok self.now }
        requires from { from ≤ self.now.count }
        requires end { end ≡ end_at block.now from }
        requires as_long { length other.old ≡ length block.now }
        requires length { IsBlockLength (length block.now) }
        ensures { HasRest block.now from other.new result }
    {
        let fresh = DataView::fresh(other);
        let count = self.count - from;
        let text_start = fresh.text_end - (end - self.text_start);
        let text = &block[self.text_start as usize..end as usize];
        put_bytes(other, text_start as usize, text);
        let index = &block[entry_place(from)..entry_place(self.count)];
        put_bytes(other, INDEX, index);
        move_starts(other, 0, count, self.text_start, text_start);
        let rest = DataView {
            count,
            text_start,
            ..fresh
        };
        rest.write_header(other);
        rest
    }

    // Writes the header's fields after the identifier.
    pub(crate) fn write_header(&self, block: &mut [u8])
        requires { 24 ≤ length block.old }
        ensures { block.new ≡ with_field block.old 4 (header_of self.now) }
    {
        put_le_u32(block, FREE, self.free());
        put_le_u32(block, TEXT_START, self.text_start);
        put_le_u32(block, TEXT_END, self.text_end);
        put_le_u64(block, COUNT, u64::from(self.count));
    }
}
