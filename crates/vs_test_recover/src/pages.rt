// Swap files made by hand, page by page.
use std::alloc::Global;
use std::test::Fail;
use vs_memory::MemHost;
use vs_recover::{Image, read_image};
use vs_text::Format;

/// An entry of a pointer block: a block, its pages, and the lines below it.
pub type Entry = (i64, i32, i64);

/// A block of a swap file.
#[derive(Clone, Copy)]
pub enum Block<'a> {
    /// Page 0 of a file of a pair, with this generation.
    Head(u8),
    /// Page 0 of a file of a pair whose text has no lines.
    HeadOfNone(u8),
    /// Page 0 of a file of a pair, with this generation and this flags byte.
    Flagged(u8, u8),
    /// Page 0 with this identifier.
    Marked(&'a [u8]),
    /// A pointer block.
    Pointers(&'a [Entry]),
    /// A data block of so many pages, with lines of one byte.
    Lines(u32, &'a [u8]),
    /// A page that begins with these bytes, and has zeros after them.
    Bytes(&'a [u8]),
    /// A page of zeros.
    Blank,
}

// The bytes at their places, each after those before it, and zeros elsewhere.
fn add_parts(bytes: &mut Vec<u8>, parts: &[(usize, &[u8])]) -> Result<(), Fail> {
    let start = bytes.len();
    for (at, part) in parts {
        bytes.resize(start.saturating_add(*at), 0)?;
        bytes.extend_from_slice(part)?;
    }
    bytes.resize(start.saturating_add(4096), 0)?;
    Ok(())
}

fn add_head(
    bytes: &mut Vec<u8>,
    mark: &[u8],
    generation: u8,
    flags: u8,
    pair_flags: u8,
) -> Result<(), Fail> {
    let parts: [(usize, &[u8]); 9] = [
        (0, mark),
        (12, &[0, 16, 0, 0]),
        (1006, &[flags]),
        (1008, &[0x33, 0x32, 0x31, 0x30]),
        (1016, &[0x23, 0x22, 0x21, 0x20]),
        (1020, &[0x13, 0x12, 0x55]),
        (1024, b"VSWPAIR1"),
        (1032, &[generation]),
        (1040, &[pair_flags]),
    ];
    add_parts(bytes, &parts)
}

// The parts, one after the other.
fn add_all(bytes: &mut Vec<u8>, parts: &[&[u8]]) -> Result<(), Fail> {
    for part in parts {
        bytes.extend_from_slice(part)?;
    }
    Ok(())
}

fn add_entry(bytes: &mut Vec<u8>, entry: &Entry) -> Result<(), Fail> {
    let (block, pages, lines) = entry;
    let parts: [&[u8]; 5] = [
        &block.to_le_bytes(),
        &lines.to_le_bytes(),
        &[0; 8],
        &pages.to_le_bytes(),
        &[0; 4],
    ];
    add_all(bytes, &parts)
}

fn add_pointers(bytes: &mut Vec<u8>, entries: &[Entry]) -> Result<(), Fail> {
    let end = bytes.len().saturating_add(4096);
    let count = u8::try_from(entries.len()).unwrap_or(0);
    bytes.extend_from_slice(&[b't', b'p', count, 0, 127, 0, 0, 0])?;
    for entry in entries {
        add_entry(bytes, entry)?;
    }
    bytes.resize(end, 0)?;
    Ok(())
}

// The first bytes of a data block: where its text begins and ends, and where each line does.
fn add_places(bytes: &mut Vec<u8>, text: u32, end: u32, count: u32) -> Result<(), Fail> {
    let parts: [&[u8]; 4] = [
        b"ad\0\0\0\0\0\0",
        &text.to_le_bytes(),
        &end.to_le_bytes(),
        &u64::from(count).to_le_bytes(),
    ];
    add_all(bytes, &parts)?;
    let mut place = end;
    for _ in 0..count {
        place = place.saturating_sub(2);
        bytes.extend_from_slice(&place.to_le_bytes())?;
    }
    Ok(())
}

fn add_lines(bytes: &mut Vec<u8>, pages: u32, lines: &[u8]) -> Result<(), Fail> {
    let start = bytes.len();
    let count = u32::try_from(lines.len()).unwrap_or(0);
    let end = pages.saturating_mul(4096);
    let text = end.saturating_sub(count.saturating_mul(2));
    add_places(bytes, text, end, count)?;
    bytes.resize(start.saturating_add(text as usize), 0)?;
    for line in lines.iter().rev() {
        bytes.extend_from_slice(&[*line, 0])?;
    }
    Ok(())
}

fn add_block(bytes: &mut Vec<u8>, block: &Block<'_>) -> Result<(), Fail> {
    match block {
        Block::Head(generation) => add_head(bytes, b"b0", *generation, 5, 0),
        Block::HeadOfNone(generation) => add_head(bytes, b"b0", *generation, 5, 1),
        Block::Flagged(generation, flags) => add_head(bytes, b"b0", *generation, *flags, 0),
        Block::Marked(mark) => add_head(bytes, mark, 1, 5, 0),
        Block::Pointers(entries) => add_pointers(bytes, entries),
        Block::Lines(pages, lines) => add_lines(bytes, *pages, lines),
        Block::Bytes(first) => add_parts(bytes, &[(0, first)]),
        Block::Blank => add_parts(bytes, &[]),
    }
}

/// The file of these blocks, cut to so many bytes where it has more.
pub(crate) fn file_of(alloc: Global, blocks: &[Block<'_>], len: usize) -> Result<Vec<u8>, Fail> {
    let mut bytes = Vec::new(alloc);
    for block in blocks {
        add_block(&mut bytes, block)?;
    }
    bytes.truncate(len);
    Ok(bytes)
}

/// A folder with these swap files of `f`, where they have some bytes.
pub(crate) fn folder_of(alloc: Global, swp: Vec<u8>, swo: Vec<u8>) -> Result<MemHost, Fail> {
    let mut host = MemHost::new(alloc, Vec::new(alloc))?;
    if !swp.is_empty() {
        host.put(alloc, ".f.swp", swp)?;
    }
    if !swo.is_empty() {
        host.put(alloc, ".f.swo", swo)?;
    }
    Ok(host)
}

/// What is said of an image: generation, format and bytes of a file that stands, with `.` and `~` for bytes 10 and 13, or a word.
pub(crate) fn said(alloc: Global, image: &Image) -> Result<String, Fail> {
    match image {
        Image::Standing { generation, text } => {
            let format = if text.format() == Format::Dos {
                " dos"
            } else {
                ""
            };
            let mut words = format!(in alloc; "stands {generation}{format} ")?;
            for byte in text.bytes() {
                words.push(match *byte {
                    b'\n' => '.',
                    b'\r' => '~',
                    other => char::from(other),
                })?;
            }
            Ok(words)
        }
        Image::Open { page_size } => Ok(format!(in alloc; "open {page_size}")?),
        Image::Closed => Ok(String::from_str(alloc, "closed")?),
        Image::Encrypted => Ok(String::from_str(alloc, "encrypted")?),
        Image::NoSwapFile => Ok(String::from_str(alloc, "no swap file")?),
    }
}

/// What is said of the file of these blocks, cut to so many bytes.
pub(crate) fn said_of(alloc: Global, blocks: &[Block<'_>], len: usize) -> Result<String, Fail> {
    let bytes = file_of(alloc, blocks, len)?;
    let mut host = MemHost::new(alloc, Vec::new(alloc))?;
    host.put(alloc, ".f.swp", bytes)?;
    if host.file(".f.swp").is_none() {
        return Err(Fail::new("the file is not there"));
    }
    let image = read_image(alloc, &mut host, ".f.swp")
        .ok()
        .ok_or("it is read")?;
    said(alloc, &image)
}
