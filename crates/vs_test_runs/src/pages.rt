// Pages of a swap file, and a run that leaves one.
use std::alloc::Global;
use std::ops::Range;
use std::test::Fail;
use vs_memory::MemHost;
use vs_top::run;

pub const PAGE_SIZE: usize = 4096;

/// What stands at places of page 0 of `.f.swp` after the first sync that a run begins itself; all other bytes are zeros.
pub const PAGE_0: [(usize, &[u8]); 11] = [
    (0, b"b0"),
    (2, b"VIM 9.0"),
    (12, &[0, 16, 0, 0]),
    (108, b"f"),
    (1006, &[5]),
    (1008, &[0x33, 0x32, 0x31, 0x30]),
    (1016, &[0x23, 0x22, 0x21, 0x20]),
    (1020, &[0x13, 0x12, 0x55]),
    (1024, b"VSWPAIR1"),
    (1032, &[3]),
    (1040, &[0]),
];

fn words_of(alloc: Global, words: [&str; 2]) -> Result<Vec<String>, Fail> {
    let mut list = Vec::new(alloc);
    for word in words {
        list.push(String::from_str(alloc, word)?)?;
    }
    Ok(list)
}

/// The host after `edit f` over this file with an empty script.
pub(crate) fn after_edit(alloc: Global, file: Option<&[u8]>) -> Result<MemHost, Fail> {
    let mut host = MemHost::new(alloc, Vec::new(alloc))?;
    if let Some(bytes) = file {
        host.put(alloc, "f", Vec::from_slice(alloc, bytes)?)?;
    }
    let words = words_of(alloc, ["edit", "f"])?;
    let report = run(alloc, words.as_slice(), &mut host);
    if report.status == 0 {
        return Ok(host);
    }
    Err(Fail::new("the run did not come to its end"))
}

/// A page of a file, where it lies in it as a whole.
pub(crate) fn page(file: &[u8], at: usize) -> Option<&[u8]> {
    let start = at.checked_mul(PAGE_SIZE)?;
    file.get(start..start.checked_add(PAGE_SIZE)?)
}

// Whether these bytes stand at the place.
fn has(page: &[u8], at: usize, bytes: &[u8]) -> bool {
    page.get(at..).is_some_and(|rest| rest.starts_with(bytes))
}

// Whether each byte at these places is 0.
fn is_unused(page: &[u8], places: Range<usize>) -> bool {
    page.get(places)
        .is_some_and(|bytes| bytes.iter().all(|byte| *byte == 0))
}

/// Whether a page has these bytes at these places, and zeros elsewhere.
pub(crate) fn is_page(page: Option<&[u8]>, parts: &[(usize, &[u8])]) -> bool {
    let Some(page) = page else {
        return false;
    };
    let mut end = 0;
    for (at, bytes) in parts {
        if !is_unused(page, end..*at) || !has(page, *at, bytes) {
            return false;
        }
        end = at.saturating_add(bytes.len());
    }
    is_unused(page, end..page.len())
}
