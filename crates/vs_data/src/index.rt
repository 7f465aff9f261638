// Steps of a change: the text that moves, and the index entries that follow it.
ghost use Rattle.std.specs.Prelude.{◌≡◌, ◌+◌, ◌-◌, ◌*◌, ◌^◌, ◌<◌, ◌≤◌, ◌++◌, ◌∷◌, [], ℕ, drop, length, take};
ghost use Rattle.vs_bytes.specs.Fields.{Little, field_at, with_field, with_number};
ghost use Rattle.vs_data.specs.Blocks.{entry_at, start_at};

use crate::INDEX;
use crate::bytes::{move_bytes, put_bytes};
use vs_bytes::{le_u32, put_le_u32};

// The place of a line's index entry.
pub(crate) fn entry_place(line: u32) -> usize
    ensures { result ≡ 24 + 4 * line }
{
    INDEX + 4 * line as usize
}

// Moves the text below `end` down, and puts the line and its zero byte into the gap.
pub(crate) fn open_text(block: &mut [u8], text_start: usize, end: usize, line: &[u8])
    requires order { text_start ≤ end }
    requires within { end ≤ length block.old }
    requires room { length line.now + 1 ≤ text_start }
    ensures { let size = length line.now + 1 in
        let text = field_at block.old text_start (end - text_start) in
        let moved = with_field block.old (text_start - size) text in
        block.new ≡ with_field moved (end - size) (line.now ++ 0 ∷ []) }
{
    let size = line.len() + 1;
    move_bytes(block, text_start, end, text_start - size);
    put_bytes(block, end - size, line);
    put_bytes(block, end - 1, &[0]);
}

// Moves the index entries from line `at` on up by one, and puts the place where line `at` begins into the gap.
pub(crate) fn open_index(block: &mut [u8], at: u32, count: u32, start: u32)
    requires order { at ≤ count }
    requires room { 24 + 4 * (count + 1) ≤ length block.old }
    ensures { let entries = field_at block.old (24 + 4 * at) (4 * (count - at)) in
        let moved = with_field block.old (24 + 4 * (at + 1)) entries in
        block.new ≡ with_number Little 4 moved (24 + 4 * at) start }
{
    let place = entry_place(at);
    move_bytes(block, place, entry_place(count), place + 4);
    put_le_u32(block, place, start);
}

// Moves the text below `end` down, and puts other text into the gap.
pub(crate) fn join_text(block: &mut [u8], text_start: usize, end: usize, text: &[u8])
    requires order { text_start ≤ end }
    requires within { end ≤ length block.old }
    requires room { length text.now ≤ text_start }
    ensures { let size = length text.now in
        let moved = with_field block.old (text_start - size) (field_at block.old text_start (end - text_start)) in
        block.new ≡ with_field moved (end - size) text.now }
{
    move_bytes(block, text_start, end, text_start - text.len());
    put_bytes(block, end - text.len(), text);
}

// Moves the index entries from line `at` on up, and puts other entries into the gap.
pub(crate) fn join_index(block: &mut [u8], at: u32, count: u32, entries: &[u8])
    requires order { at ≤ count }
    requires room { 24 + 4 * count + length entries.now ≤ length block.old }
    ensures { let place = 24 + 4 * at in
        let moved = with_field block.old (place + length entries.now) (field_at block.old place (4 * (count - at))) in
        block.new ≡ with_field moved place entries.now }
{
    let place = entry_place(at);
    move_bytes(block, place, entry_place(count), place + entries.len());
    put_bytes(block, place, entries);
}

// Moves the index entries after that of line `at` down by one, over it.
pub(crate) fn close_index(block: &mut [u8], at: u32, count: u32)
    requires order { at < count }
    requires within { 24 + 4 * count ≤ length block.old }
    ensures { let entries = field_at block.old (24 + 4 * (at + 1)) (4 * (count - 1 - at)) in
        block.new ≡ with_field block.old (24 + 4 * at) entries }
{
    let place = entry_place(at);
    move_bytes(block, place + 4, entry_place(count), place);
}

// Writes the places of the lines from `first` up to `past` anew, whose bytes moved as did a byte that was at `start` and
// is at `to`. Their mark bits stay.
pub(crate) fn move_starts(block: &mut [u8], first: u32, past: u32, start: u32, to: u32)
    requires order { first ≤ past }
    requires index { 24 + 4 * past ≤ length block.old }
    requires above { (k : ℕ) → first ≤ k → k < past → start ≤ start_at block.old k }
    requires places { (k : ℕ) → first ≤ k → k < past → start_at block.old k + to < 2 ^ 31 + start }
    ensures moved { (k : ℕ) → first ≤ k → k < past → entry_at block.new k + start ≡ entry_at block.old k + to }
    ensures before { take (24 + 4 * first) block.new ≡ take (24 + 4 * first) block.old }
    ensures after { drop (24 + 4 * past) block.new ≡ drop (24 + 4 * past) block.old }
{
    for line in first..past {
        let place = entry_place(line);
        let entry = le_u32(block, place);
        put_le_u32(block, place, entry - start + to);
    }
}
