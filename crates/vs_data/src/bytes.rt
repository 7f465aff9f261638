// Bytes that are moved within a block, and lines as bytes.
ghost use Rattle.std.specs.Prelude.{◌≡◌, ◌+◌, ◌-◌, ◌≤◌, ◌==◌, not, length, replicate};
ghost use Rattle.std.specs.List.{list_all};
ghost use Rattle.vs_bytes.specs.Fields.{field_at, with_field};
ghost use Rattle.vs_data.specs.Blocks.{is_line, zeros_in};

use memchr::memchr;

// How many bytes are counted together.
const PART: usize = 240;

// How many bytes are moved up together.
const MOVED: usize = 256;

fn has_no_zero(bytes: &[u8]) -> bool
    ensures { result ≡ list_all (λ byte. not (byte == 0)) bytes.now }
{
    memchr(0, bytes).is_none()
}

// The number of zeros among at most 255 bytes. Counted in one byte, many of them go through one instruction.
fn count_few_zeros(bytes: &[u8]) -> u8
    requires { length bytes.now ≤ 255 }
    ensures { result ≡ zeros_in bytes.now }
{
    let mut zeros = 0;
    'bytes: for byte in bytes {
        if *byte == 0 {
            zeros += 1;
        }
    }
    zeros
}

// The number of zeros.
pub(crate) fn count_zeros(bytes: &[u8]) -> usize
    ensures { result ≡ zeros_in bytes.now }
{
    let mut zeros = 0;
    let mut rest = bytes;
    'parts: while !rest.is_empty() {
        let (part, after) = rest.split_at(rest.len().min(PART));
        zeros += usize::from(count_few_zeros(part));
        rest = after;
    }
    zeros
}

// Whether the bytes from one place up to another are those of a line: some, of which the last and no other is zero.
#[tactic(auto, unfolding(crate::specs::Blocks::is_line), using(std::proofs::lemmas::Bool::Decides::nat_tests))]
pub(crate) fn is_line(block: &[u8], start: u32, end: u32) -> bool
    requires { end ≤ length block.now }
    ensures { result ≡ is_line block.now start end }
{
    if start >= end {
        return false;
    }
    let last = end as usize - 1;
    block[last] == 0 && has_no_zero(&block[start as usize..last])
}

// Copies up to 256 bytes.
fn move_part(block: &mut [u8], start: usize, count: usize, to: usize)
    requires few { count ≤ 256 }
    requires within { start + count ≤ length block.old }
    requires room { to + count ≤ length block.old }
    ensures { block.new ≡ with_field block.old to (field_at block.old start count) }
{
    let mut part = [0; MOVED];
    let part = &mut part[..count];
    part.copy_from_slice(&block[start..start + count]);
    put_bytes(block, to, part);
}

// Copies bytes to a greater place, the last ones first, since they may overlap. The bytes go in parts, which is faster than one by one.
fn move_up(block: &mut [u8], start: usize, end: usize, to: usize)
    requires order { start ≤ end }
    requires upwards { start ≤ to }
    requires room { to + (end - start) ≤ length block.old }
    ensures { block.new ≡ with_field block.old to (field_at block.old start (end - start)) }
{
    let mut left = end - start;
    'parts: while left > 0 {
        let count = left.min(MOVED);
        left -= count;
        move_part(block, start + left, count, to + left);
    }
}

// Copies the bytes from `start` up to `end` to `to`, where they may overlap with themselves.
pub(crate) fn move_bytes(block: &mut [u8], start: usize, end: usize, to: usize)
    requires order { start ≤ end }
    requires within { end ≤ length block.old }
    requires room { to + (end - start) ≤ length block.old }
    ensures { block.new ≡ with_field block.old to (field_at block.old start (end - start)) }
{
    if to < start {
        block.copy_within(start..end, to);
    } else {
        move_up(block, start, end, to);
    }
}

pub(crate) fn put_bytes(block: &mut [u8], at: usize, bytes: &[u8])
    requires { at + length bytes.now ≤ length block.old }
    ensures { block.new ≡ with_field block.old at bytes.now }
{
    block[at..at + bytes.len()].copy_from_slice(bytes);
}

// Puts zeros in place of the bytes from one place up to another.
pub(crate) fn clear_bytes(block: &mut [u8], from: usize, to: usize)
    requires order { from ≤ to }
    requires within { to ≤ length block.old }
    ensures { block.new ≡ with_field block.old from (replicate (to - from) 0) }
{
    block[from..to].fill(0);
}
