// The bytes of both swap files of the text without lines, place by place.
use crate::life::start_empty;
use crate::stops::empty_folder;
use std::alloc::Global;
use std::process::Abort;
use std::test::Fail;

// The number of each format, and the flags of page 0.
const FORMATS: [(u8, &[u8]); 2] = [(1, &[5]), (2, &[6])];

// What stands at places of a file in unix; all other bytes of its first page are zeros.
const PAGE_0: [(usize, &[u8]); 11] = [
    (0, b"b0"),
    (2, b"VIM 9.0"),
    (12, &[0, 16, 0, 0]),
    (108, b"f"),
    (1006, &[5]),
    (1008, &[0x33, 0x32, 0x31, 0x30]),
    (1016, &[0x23, 0x22, 0x21, 0x20]),
    (1020, &[0x13, 0x12, 0x55]),
    (1024, b"VSWPAIR1"),
    (1032, &[1]),
    (1040, &[1]),
];

// The root, with its one entry: block 2, one line, one page.
const PAGE_1: [(usize, &[u8]); 6] = [
    (0, b"tp"),
    (2, &[1, 0]),
    (4, &[127, 0]),
    (8, &[2]),
    (16, &[1]),
    (32, &[1]),
];

// One empty line: its zero byte is the last byte of the page, and the free space is 4095 - 24 - 4.
const PAGE_2: [(usize, &[u8]); 6] = [
    (0, b"ad"),
    (4, &[0xe3, 0x0f]),
    (8, &[0xff, 0x0f]),
    (12, &[0x00, 0x10]),
    (16, &[1]),
    (24, &[0xff, 0x0f]),
];

// A page with these bytes at these places, each after those before it, and zeros elsewhere.
fn add_page(bytes: &mut Vec<u8>, parts: &[(usize, &[u8])]) -> Result<(), Fail> {
    let start = bytes.len();
    for (at, part) in parts {
        bytes.resize(start.saturating_add(*at), 0)?;
        bytes.extend_from_slice(part)?;
    }
    bytes.resize(start.saturating_add(4096), 0)?;
    Ok(())
}

// The three pages of a swap file with this page 0.
fn swap_file(alloc: Global, page_0: &[(usize, &[u8])]) -> Result<Vec<u8>, Fail> {
    let mut bytes = Vec::new(alloc);
    add_page(&mut bytes, page_0)?;
    add_page(&mut bytes, &PAGE_1)?;
    add_page(&mut bytes, &PAGE_2)?;
    Ok(bytes)
}

#[test]
fn the_files_of_the_text_without_lines_have_these_bytes(rt: HostRuntime) -> Result<(), Fail> {
    let alloc = rt.alloc();
    for (format, flags) in FORMATS {
        let mut host = empty_folder(alloc, 0, u64::MAX)?;
        assert!(rt; start_empty(alloc, &mut host, format)?);
        let mut page_0 = PAGE_0;
        page_0[4] = (1006, flags);
        let first = swap_file(alloc, &page_0)?;
        assert!(rt; host.file(".f.swp") == Some(first.as_slice()));
        page_0[9] = (1032, &[2]);
        let second = swap_file(alloc, &page_0)?;
        assert!(rt; host.file(".f.swo") == Some(second.as_slice()));
    }
    Ok(())
}
