// The end of a line.
ghost use Rattle.std.specs.Prelude.{◌≡◌, ◌+◌, ◌≤◌, ◌==◌, ◌∷◌, ℕ, List, length, not};
ghost use Rattle.std.specs.List.{prefix_len};
ghost use Rattle.std.specs.Simd.Lanes.{chunk};
ghost use Rattle.memchr.specs.Find.{IsFirst, Passes, is_byte};
ghost use Rattle.vs_text.specs.Text.{IsLine, file_of};

use std::simd::prelude::*;

// How many bytes are looked at together.
const LANES: usize = 16;

// How many of 16 bytes from a place on stand before the first newline among them.
fn count_before_newline(bytes: &[u8], at: usize) -> usize
    requires { at + 16 ≤ length bytes.now }
    ensures { result ≡ prefix_len (λ byte. not (byte == 10)) (chunk at 16 bytes.now) }
{
    let newlines = u8x16::from_slice(&bytes[at..])
        .simd_eq(u8x16::splat(b'\n'))
        .to_bitmask();
    if newlines == 0 {
        LANES
    } else {
        newlines.trailing_zeros() as usize
    }
}

// The first newline from a place on, one byte after the other.
fn find_newline_slowly(bytes: &[u8], from: usize) -> Option<usize>
    requires { from ≤ length bytes.now }
    ensures { IsFirst (Passes (is_byte 10) bytes.now) from (length bytes.now) result }
{
    for at in from..bytes.len() {
        if bytes[at] == b'\n' {
            return Some(at);
        }
    }
    None
}

// The first newline from a place on. Lines are short, and `memchr` is made for long searches.
fn find_newline(bytes: &[u8], from: usize) -> Option<usize>
    requires { from ≤ length bytes.now }
    ensures { IsFirst (Passes (is_byte 10) bytes.now) from (length bytes.now) result }
{
    let mut at = from;
    'parts: while bytes.len() - at >= LANES {
        let before = count_before_newline(bytes, at);
        if before < LANES {
            return Some(at + before);
        }
        at += LANES;
    }
    find_newline_slowly(bytes, at)
}

/// The length of the first of some lines, each of which has its newline.
pub fn line_len(lines: &[u8]) -> usize
    ensures { (line : List ℕ) (after : List (List ℕ)) → IsLine line → lines.now ≡ file_of (line ∷ after) → result ≡ length line }
{
    find_newline(lines, 0).unwrap_or(lines.len())
}
