// The blocks of both swap files of a text of 20,000 lines, walked from block 1 on.
use crate::pages::{PAGE_0, after_edit, is_page, page};
use itoa::Buffer;
use std::alloc::Global;
use std::process::Abort;
use std::test::Fail;

const LINES: usize = 20_000;

// A line of the text is its number in 8 digits and 32 signs, and its newline.
const LINE_SIZE: usize = 41;

fn long_text(alloc: Global) -> Result<Vec<u8>, Fail> {
    let mut text = Vec::new(alloc);
    for number in 0..LINES {
        let mut digits = Buffer::new();
        let digits = digits.format(number).as_bytes();
        for _ in digits.len()..8 {
            text.push(b'0')?;
        }
        text.extend_from_slice(digits)?;
        text.extend_from_slice(b" of twenty thousand lines in all\n")?;
    }
    Ok(text)
}

// The number of so many bytes at a place, with its lowest byte first.
fn number(page: &[u8], at: usize, size: usize) -> Option<usize> {
    let mut value: u64 = 0;
    for byte in page.get(at..at.saturating_add(size))?.iter().rev() {
        value = value.wrapping_mul(256).wrapping_add(u64::from(*byte));
    }
    Some(value as usize)
}

// An entry of a pointer block.
#[derive(Clone, Copy)]
struct Entry {
    block: usize,
    lines: usize,
    pages: usize,
}

fn entry_at(page: &[u8], index: usize) -> Option<Entry> {
    let at = index.saturating_mul(32);
    Some(Entry {
        block: number(page, at.saturating_add(8), 8)?,
        lines: number(page, at.saturating_add(16), 8)?,
        pages: number(page, at.saturating_add(32), 4)?,
    })
}

// A line of the text, without its newline.
fn line_at(text: &[u8], line: usize) -> Option<&[u8]> {
    let at = line.saturating_mul(LINE_SIZE);
    text.get(at..at.saturating_add(LINE_SIZE - 1))
}

// Whether a data block has this line, with a zero byte after it, from one place to another.
fn has_line(page: &[u8], start: usize, end: usize, line: &[u8]) -> bool {
    match page.get(start..end) {
        Some(stored) => stored.strip_suffix(b"\0".as_slice()) == Some(line),
        None => false,
    }
}

// The line after those of a data block whose first line is this one, where each is that of the text.
fn after_data(page: &[u8], text: &[u8], first: usize) -> Option<usize> {
    if !page.starts_with(b"ad") {
        return None;
    }
    let mut end = number(page, 12, 4)?;
    let after = first.checked_add(number(page, 16, 8)?)?;
    let mut place: usize = 24;
    for index in first..after {
        let start = number(page, place, 4)?;
        if !has_line(page, start, end, line_at(text, index)?) {
            return None;
        }
        end = start;
        place = place.saturating_add(4);
    }
    Some(after)
}

// The line after those of a pointer block whose entries lead to data blocks of one page.
fn after_pointers(file: &[u8], block: &[u8], text: &[u8], first: usize) -> Option<usize> {
    let mut line = first;
    for index in 0..number(block, 2, 2)? {
        let entry = entry_at(block, index)?;
        let after = after_data(page(file, entry.block)?, text, line)?;
        if entry.pages != 1 || after != line.checked_add(entry.lines)? {
            return None;
        }
        line = after;
    }
    Some(line)
}

// The number of lines of a swap file whose root leads to pointer blocks, where each line is that of the text.
fn lines_of(file: &[u8], text: &[u8]) -> Option<usize> {
    let root = page(file, 1)?;
    let mut line = 0;
    for index in 0..number(root, 2, 2)? {
        let entry = entry_at(root, index)?;
        let block = page(file, entry.block)?;
        let after = after_pointers(file, block, text, line)?;
        if !root.starts_with(b"tp")
            || !block.starts_with(b"tp")
            || after != line.checked_add(entry.lines)?
        {
            return None;
        }
        line = after;
    }
    Some(line)
}

// Whether the file has this generation and these lines.
fn is_swap_file(file: Option<&[u8]>, generation: &[u8], text: &[u8]) -> bool {
    let Some(file) = file else {
        return false;
    };
    let mut page_0 = PAGE_0;
    page_0[9] = (1032, generation);
    is_page(page(file, 0), &page_0) && lines_of(file, text) == Some(LINES)
}

#[test]
fn the_files_of_a_long_text_have_its_lines_in_their_blocks(rt: HostRuntime) -> Result<(), Fail> {
    let text = long_text(rt.alloc())?;
    let host = after_edit(rt.alloc(), Some(text.as_slice()))?;
    assert!(rt; is_swap_file(host.file(".f.swp"), &[3], text.as_slice()));
    assert!(rt; is_swap_file(host.file(".f.swo"), &[2], text.as_slice()));
    Ok(())
}
