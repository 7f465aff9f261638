// A block as it is read.
ghost use Rattle.std.specs.Prelude.{◌≡◌, ◌≢◌, ◌+◌, ◌<◌, ◌≤◌, ◌↔◌, IsTrue, IfOk, IsSomeAnd, OnErr, None, Some, Ok, length, slice_get};
ghost use Rattle.std.specs.List.{All};
ghost use Rattle.std.specs.Option.{option_and_then};
ghost use Rattle.vs_data.specs.Blocks.{EndsLines, Measures, bounds_in, end_at, first_bad, free_space, is_good_entry, lines_in, start_at, view_in};

use crate::bytes::{count_zeros, is_line};
use crate::index::entry_place;
use crate::{COUNT, DataErr, DataView, ID, INDEX, PLACE_BITS, TEXT_END, TEXT_START};
use vs_bytes::{le_u16, le_u32, le_u64};

impl DataView {
    /// Reads the header and the whole index, in one pass over the block. Any bytes may be given.
    ///
    /// `BadId` and `BadBounds` come as in `bounds`. `BadIndex` has the first line whose index entry is not that of a line.
    pub fn read(block: &[u8]) -> Result<DataView, DataErr>
        ensures answer { result ≡ view_in block.now }
        ensures lines { IfOk result (λ view. IsSomeAnd (lines_in block.now) (Measures view)) }
        ensures refused { OnErr result (lines_in block.now ≡ None) }
    {
        let view = DataView::bounds(block)?;
        match view.first_bad(block) {
            Some(line) => Err(DataErr::BadIndex(line)),
            None => Ok(view),
        }
    }

    /// Reads the header, and looks at no index entry. Any bytes may be given. It answers `BadId` and `BadBounds` as `read`
    /// does, and never `BadIndex`.
    #[tactic(auto, unfolding(crate::specs::Blocks::bounds_in), using(std::proofs::lemmas::Bool::Decides::nat_tests))]
    pub fn bounds(block: &[u8]) -> Result<DataView, DataErr>
        ensures { result ≡ bounds_in block.now }
    {
        if block.len() < INDEX || le_u16(block, 0) != ID {
            return Err(DataErr::BadId);
        }
        let text_start = le_u32(block, TEXT_START);
        let text_end = le_u32(block, TEXT_END);
        // The field has a sign. As an unsigned number, a negative count is above every bound.
        let count = le_u64(block, COUNT);
        let start = u64::from(text_start);
        if count > start
            || 24 + 4 * count > start
            || text_start > text_end
            || text_end as usize > block.len()
            || (count == 0 && text_start != text_end)
        {
            return Err(DataErr::BadBounds);
        }
        Ok(DataView {
            count: count as u32,
            text_start,
            text_end,
        })
    }

    /// The place where a line begins, by its index entry without the mark bit. It need not lie within the text where
    /// `read` refuses the index.
    pub fn start(&self, block: &[u8], at: u32) -> u32
        requires view { bounds_in block.now ≡ Ok self.now }
        requires at { at < self.now.count }
        ensures { result ≡ start_at block.now at }
    {
        le_u32(block, entry_place(at)) & PLACE_BITS
    }

    /// The stored line, which lies in the block. `insert` takes it as it is.
    pub fn line<'b>(&self, block: &'b [u8], at: u32) -> &'b [u8]
        requires view { view_in block.now ≡ Ok self.now }
        requires at { at < self.now.count }
        ensures line { option_and_then (λ lines. slice_get lines at) (lines_in block.now) ≡ Some result.now }
        ensures no_zero { All (λ byte. byte ≢ 0) result.now }
    {
        let start = self.start(block, at) as usize;
        let end = self.end(block, at) as usize;
        &block[start..end - 1]
    }

    /// Whether a line of `len` bytes fits into the free space, with a zero byte and an index entry of 4 bytes.
    pub fn fits(&self, len: usize) -> bool
        ensures { IsTrue result ↔ (len + 5 ≤ free_space self.now) }
    {
        let free = self.free() as usize;
        free >= 5 && len <= free - 5
    }

    // The place where a line's bytes end: where the line before it begins.
    pub(crate) fn end(&self, block: &[u8], at: u32) -> u32
        requires view { bounds_in block.now ≡ Ok self.now }
        requires at { at ≤ self.now.count }
        ensures { result ≡ end_at block.now at }
    {
        if at == 0 {
            self.text_end
        } else {
            self.start(block, at - 1)
        }
    }

    // Whether the lines lie one below the other from the text's end to its start, each of some bytes with a zero at their end.
    fn ends_lines(&self, block: &[u8]) -> bool
        requires { bounds_in block.now ≡ Ok self.now }
        ensures { IsTrue result ↔ EndsLines block.now }
    {
        let mut end = self.text_end;
        'lines: for line in 0..self.count {
            let start = self.start(block, line);
            if start >= end || block[end as usize - 1] != 0 {
                return false;
            }
            end = start;
        }
        end == self.text_start
    }

    // Whether each index entry is that of a line. Where the lines end with zeros, a text with one zero a line has no other, so
    // no line is searched for one.
    fn is_whole(&self, block: &[u8]) -> bool
        requires { bounds_in block.now ≡ Ok self.now }
        ensures { IsTrue result ↔ (first_bad block.now ≡ None) }
    {
        if !self.ends_lines(block) {
            return false;
        }
        let text = &block[self.text_start as usize..self.text_end as usize];
        count_zeros(text) == self.count as usize
    }

    // The first line whose index entry is not that of a line.
    fn first_bad(&self, block: &[u8]) -> Option<u32>
        requires { bounds_in block.now ≡ Ok self.now }
        ensures { result ≡ first_bad block.now }
    {
        if self.is_whole(block) {
            return None;
        }
        for line in 0..self.count {
            if !self.is_good(block, line) {
                return Some(line);
            }
        }
        None
    }

    // Whether the index entry of a line is that of a line.
    fn is_good(&self, block: &[u8], line: u32) -> bool
        requires view { bounds_in block.now ≡ Ok self.now }
        requires line { line < self.now.count }
        requires end { end_at block.now line ≤ length block.now }
        ensures { result ≡ is_good_entry block.now line }
    {
        let start = self.start(block, line);
        let end = self.end(block, line);
        is_line(block, start, end) && (line + 1 != self.count || start == self.text_start)
    }

    // The bytes between the index and the text.
    pub(crate) fn free(&self) -> u32
        ensures { result ≡ free_space self.now }
    {
        let index_end = 24 + 4 * u64::from(self.count);
        u64::from(self.text_start).saturating_sub(index_end) as u32
    }
}
