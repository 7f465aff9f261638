// What the entries of pointer blocks lead to.
ghost use Rattle.std.specs.Prelude.{◌≡◌, ◌==◌, ◌++◌, ◌+◌, ◌<◌, OnOk, Ok, length, map, reverse};
ghost use Rattle.std.specs.List.{before_first, range_with_len};
ghost use Rattle.vs_data.specs.Blocks.{bounds_in};
ghost use Rattle.vs_ptr.specs.Blocks.{entries_of, view_in};
ghost use Rattle.vs_damaged.specs.Items.{Adds, AddsAll};
ghost use Rattle.vs_damaged.specs.Finds.{data_items, item_at, lines_before, lines_said, target_of};

use crate::shown::{Marker, Shown};
use memchr::memchr;
use std::alloc::{AllocError, Global};
use vs_data::{DataErr, DataView};
use vs_ptr::{PtrEntry, PtrView};

/// What an entry leads to.
#[derive(Clone, Copy, Debug, PartialEq, Eq)]
pub enum Target {
    /// To lines of the original file: how many stand before them, and how many they are.
    Original(Option<u64>, u64),
    /// To a block: its first page, and how many it has.
    Block(u64, u32),
    /// To none of these.
    Nothing,
}

// How many lines of the original file stand before the line with this number.
fn lines_before(number: i64) -> Option<u64>
    ensures { result ≡ lines_before number }
{
    if number < 1 {
        return None;
    }
    Some(number as u64 - 1)
}

// The number of lines that an entry says.
fn lines_said(count: i64) -> u64
    ensures { result ≡ lines_said count }
{
    if count < 0 {
        return 0;
    }
    count as u64
}

/// What an entry leads to.
pub fn target_of(entry: &PtrEntry) -> Target
    ensures { result ≡ target_of entry.now }
{
    if entry.block < 0 {
        return Target::Original(lines_before(entry.old), lines_said(entry.lines));
    }
    if entry.pages < 1 {
        return Target::Nothing;
    }
    Target::Block(entry.block as u64, entry.pages as u32)
}

/// Puts the entries of a pointer block after those that are left, the first one last.
pub fn push_entries(
    left: &mut Vec<PtrEntry>,
    view: &PtrView,
    block: &[u8],
) -> Result<(), AllocError>
    requires { view_in block.now ≡ Ok view.now }
    ensures entries { OnOk result (reverse left.new.items ≡ entries_of block.now ++ reverse left.old.items) }
    ensures len { OnOk result (length left.new.items ≡ length left.old.items + view.now.count) }
{
    let mut at = view.count;
    while at > 0 {
        at -= 1;
        left.push(view.entry(block, at))?;
    }
    Ok(())
}

// The bytes before the first zero byte.
fn before_zero(bytes: &[u8]) -> &[u8]
    ensures { result.now ≡ before_first (λ byte. byte == 0) bytes.now }
{
    match memchr(0, bytes) {
        Some(end) => &bytes[..end],
        None => bytes,
    }
}

// Shows a line of a data block.
fn show_line(
    alloc: Global,
    view: &DataView,
    block: &[u8],
    at: u32,
    shown: &mut Shown,
) -> Result<(), AllocError>
    requires view { bounds_in block.now ≡ Ok view.now }
    requires at { at < view.now.count }
    ensures { OnOk result (Adds shown.old shown.new (item_at block.now view.now at)) }
{
    let start = view.start(block, at);
    if start < view.text_start || start >= view.text_end {
        return shown.push_marker(Marker::LineMissing);
    }
    let rest = &block[start as usize..view.text_end as usize];
    shown.push_stored(alloc, before_zero(rest))
}

// Shows the lines of a data block.
fn show_lines(
    alloc: Global,
    view: &DataView,
    block: &[u8],
    shown: &mut Shown,
) -> Result<(), AllocError>
    requires { bounds_in block.now ≡ Ok view.now }
    ensures { OnOk result (AddsAll shown.old shown.new (map (λ line. item_at block.now view.now line) (range_with_len 0 view.now.count))) }
{
    for at in 0..view.count {
        show_line(alloc, view, block, at, shown)?;
    }
    Ok(())
}

/// Shows what the block of an entry is that is no pointer block.
pub fn show_data(
    alloc: Global,
    entry: &PtrEntry,
    block: &[u8],
    shown: &mut Shown,
) -> Result<(), AllocError>
    ensures { OnOk result (AddsAll shown.old shown.new (data_items entry.now block.now (bounds_in block.now))) }
{
    let view = match DataView::bounds(block) {
        Ok(view) => view,
        Err(DataErr::BadId) => return shown.push_marker(Marker::BlockMissing),
        Err(DataErr::BadBounds | DataErr::BadIndex(_)) => return shown.push_marker(
            Marker::DataBlockDamaged,
        ),
    };
    show_lines(alloc, &view, block, shown)?;
    if i64::from(view.count) != entry.lines {
        return shown.push_marker(Marker::LineCountWrong);
    }
    Ok(())
}
