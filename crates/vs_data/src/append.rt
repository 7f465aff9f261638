// Lines that are put after the last one of a block, from their bytes.
ghost use Rattle.std.specs.Prelude.{◌≡◌, ◌≢◌, ◌+◌, ◌-◌, ◌^◌, ◌<◌, ◌≤◌, ◌==◌, ◌++◌, ◌∷◌, [], Ok, drop, length, not, take};
ghost use Rattle.std.specs.List.{All, insert, prefix_len};
ghost use Rattle.std.specs.Option.{option_map};
ghost use Rattle.std.specs.Simd.Lanes.{chunk};
ghost use Rattle.memchr.specs.Find.{IsFirst, Passes, is_byte};
ghost use Rattle.vs_data.specs.Blocks.{HasNoRoom, KeepsFrame, PutsLast, free_space, headed, lines_in, marks_in, view_in};

use crate::DataView;
use crate::bytes::put_bytes;
use crate::index::entry_place;
use memchr::memchr;
use std::simd::prelude::*;
use vs_bytes::put_le_u32;

// How many bytes are looked at together.
const LANES: usize = 16;

// How many of 16 bytes from a place on stand before the first zero among them.
fn count_before_zero(bytes: &[u8], at: usize) -> usize
    requires { at + 16 ≤ length bytes.now }
    ensures { result ≡ prefix_len (λ byte. not (byte == 0)) (chunk at 16 bytes.now) }
{
    let zeros = u8x16::from_slice(&bytes[at..])
        .simd_eq(u8x16::splat(0))
        .to_bitmask();
    if zeros == 0 {
        LANES
    } else {
        zeros.trailing_zeros() as usize
    }
}

// The first zero from a place on, one byte after the other.
fn find_zero_slowly(bytes: &[u8], from: usize) -> Option<usize>
    requires { from ≤ length bytes.now }
    ensures { IsFirst (Passes (is_byte 0) bytes.now) from (length bytes.now) result }
{
    for at in from..bytes.len() {
        if bytes[at] == 0 {
            return Some(at);
        }
    }
    None
}

// The first zero from a place on. Lines are short, and `memchr` is made for long searches.
fn find_zero(bytes: &[u8], from: usize) -> Option<usize>
    requires { from ≤ length bytes.now }
    ensures { IsFirst (Passes (is_byte 0) bytes.now) from (length bytes.now) result }
{
    let mut at = from;
    'parts: while bytes.len() - at >= LANES {
        let before = count_before_zero(bytes, at);
        if before < LANES {
            return Some(at + before);
        }
        at += LANES;
    }
    find_zero_slowly(bytes, at)
}

impl DataView {
    // Puts a line after the last one, from its bytes with the zero byte at their end. The header in the block stays as it was.
    fn append(&mut self, block: &mut [u8], ended: &[u8])
        requires header { 24 ≤ length block.old }
        requires view { view_in (headed block.old self.old) ≡ Ok self.old }
        requires places { self.old.text_end ≤ 2 ^ 31 }
        requires some { 0 < length ended.now }
        requires fits { length ended.now + 4 ≤ free_space self.old }
        requires end { ended.now ≡ take (length ended.now - 1) ended.now ++ 0 ∷ [] }
        requires no_zero { All (λ byte. byte ≢ 0) (take (length ended.now - 1) ended.now) }
        ensures header { self.new ≡ record self.old {
          count = self.old.count + 1;
          text_start = self.old.text_start - length ended.now;
        } }
        ensures view { view_in (headed block.new self.new) ≡ Ok self.new }
        ensures lines { lines_in (headed block.new self.new) ≡
            option_map (λ lines. insert lines self.old.count (take (length ended.now - 1) ended.now)) (lines_in (headed block.old self.old)) }
        ensures marks { marks_in (headed block.new self.new) ≡ insert (marks_in (headed block.old self.old)) self.old.count 0 }
        ensures frame { KeepsFrame (headed block.old self.old) (headed block.new self.new) self.new }
    {
        let text_start = self.text_start - ended.len() as u32;
        put_bytes(block, text_start as usize, ended);
        put_le_u32(block, entry_place(self.count), text_start);
        self.count += 1;
        self.text_start = text_start;
    }

    // Puts stored lines after the last one, as `append_ended` does, but the header in the block stays as it was.
    fn append_all(&mut self, block: &mut [u8], lines: &[u8]) -> usize
        requires view { view_in block.old ≡ Ok self.old }
        requires places { self.old.text_end ≤ 2 ^ 31 }
        ensures put { PutsLast block.old (headed block.new self.new) self.old self.new lines.now result }
        ensures full { HasNoRoom self.new (drop result lines.now) }
    {
        let mut taken = 0;
        'lines: while let Some(end) = find_zero(lines, taken) {
            if !self.fits(end - taken) {
                return taken;
            }
            self.append(block, &lines[taken..end + 1]);
            taken = end + 1;
        }
        taken
    }

    /// Puts stored lines after the last one, from their bytes, each followed by a zero byte: as many as there is room for. Gives the
    /// number of bytes of these lines. Bytes after the last zero byte are no line. The index has places below 2^31, so the text has
    /// to end there or before.
    pub fn append_ended(&mut self, block: &mut [u8], lines: &[u8]) -> usize
        requires view { view_in block.old ≡ Ok self.old }
        requires places { self.old.text_end ≤ 2 ^ 31 }
        ensures put { PutsLast block.old block.new self.old self.new lines.now result }
        ensures full { HasNoRoom self.new (drop result lines.now) }
    {
        let taken = self.append_all(block, lines);
        self.write_header(block);
        taken
    }
}
