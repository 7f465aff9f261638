// Pages that come back otherwise than they were written, and numbers of a tree that its pages do not have. The pages do not
// tell what they hold, so they are changed behind the tree's back.
ghost use Rattle.std.specs.Prelude.{◌≡◌, ◌≤◌, false, IfOk, length};

use crate::layout::push_lines;
use std::alloc::Global;
use std::test::Fail;
use vs_edit::{LineStore, StoreErr};
use vs_pages::failing::FailingPages;
use vs_pages::{MemPages, PageErr, Pages};
use vs_test_hosts::{ALTERED, Altered};
use vs_text::{Line, MAX_TEXT_BYTES};
use vs_tree::{Extent, LineTree, TreeStore};

// How a page comes back.
#[derive(Clone, Copy)]
enum Damage {
    // Altered.
    Altered(Altered),
    // As it was before the last line came.
    Stale(u64),
}

// Pages of a tree of four lines, in which block 1 leads to a data block of one page, as they were before the last line came.
const STALE: [(&str, u64); 2] = [("a stale pointer block", 1), ("a stale data block", 2)];

// The bytes of a page.
fn load_page<P: Pages>(alloc: Global, pages: &mut P, page: u64) -> Result<Vec<u8>, PageErr>
    requires told { P.tells ≡ false }
    requires valid { P.valid pages.old }
    ensures size { IfOk result (λ bytes. length bytes.items ≡ 4096) }
    ensures valid { P.valid pages.new }
{
    let mut bytes = Vec::new(alloc);
    pages.load(alloc, page, 1, &mut bytes)?;
    Ok(bytes)
}

// What a page is altered to.
fn altered_page<P: Pages>(alloc: Global, pages: &mut P, how: Altered) -> Result<Vec<u8>, PageErr>
    requires told { P.tells ≡ false }
    requires valid { P.valid pages.old }
    ensures size { IfOk result (λ bytes. length bytes.items ≡ 4096) }
    ensures valid { P.valid pages.new }
{
    match how {
        Altered::Byte(page, at, byte) => {
            let mut bytes = load_page(alloc, pages, page)?;
            if at < bytes.len() {
                bytes[at] = byte;
            }
            Ok(bytes)
        }
        Altered::Other(_, other) => load_page(alloc, pages, other),
    }
}

// Damages a page. `before` is what the damaged page was before the last line came.
fn inflict<P: Pages>(
    alloc: Global,
    pages: &mut P,
    damage: Damage,
    before: &[u8],
) -> Result<(), PageErr>
    requires told { P.tells ≡ false }
    requires valid { P.valid pages.old }
    requires size { length before.now ≡ 4096 }
    ensures { P.valid pages.new }
{
    match damage {
        Damage::Altered(how) => {
            let bytes = altered_page(alloc, pages, how)?;
            pages.touch(alloc, how.page(), 1, &bytes)
        }
        Damage::Stale(page) => pages.touch(alloc, page, 1, before),
    }
}

// Reads the first line of a tree of four lines of which one page is damaged, and gives the number of faults.
fn faults_after(alloc: Global, damage: Damage) -> Result<u64, StoreErr> {
    let mut pages = FailingPages::<false>::new(MemPages::new(alloc)?);
    let Ok(mut tree) = LineTree::new(alloc, &mut pages) else {
        return Err(StoreErr::NoMemory);
    };
    let mut store = TreeStore {
        tree: &mut tree,
        pages,
    };
    push_lines(alloc, &mut store, 3, 10)?;
    let page = match damage {
        Damage::Altered(how) => how.page(),
        Damage::Stale(page) => page,
    };
    let Ok(before) = load_page(alloc, &mut store.pages, page) else {
        return Err(StoreErr::NoMemory);
    };
    push_lines(alloc, &mut store, 1, 10)?;
    let TreeStore { tree, mut pages } = store;
    let _ = inflict(alloc, &mut pages, damage, &before);
    let mut line = Vec::new(alloc);
    if tree.len() > 0 {
        let _ = tree.line(alloc, &mut pages, 0, &mut line);
    }
    Ok(pages.faults)
}

#[test]
fn each_damaged_page_is_a_fault(rt: HostRuntime) -> Result<(), Fail> {
    for (kind, how) in ALTERED {
        let faults = faults_after(rt.alloc(), Damage::Altered(how))?;
        assert!(rt; faults == 1, "{kind}");
    }
    for (kind, page) in STALE {
        let faults = faults_after(rt.alloc(), Damage::Stale(page))?;
        assert!(rt; faults == 1, "{kind}");
    }
    Ok(())
}

// Bytes that are written over those of the first page of a long line's block, from these places on.
type Patch = [(u64, [u8; 4]); 5];

// The text of a line of 9,000 bytes begins at 3,287 of its three pages. Here it is two lines, of which the first begins
// at 4,000.
const TWO_LINES: Patch = [
    (16, [2, 0, 0, 0]),
    (24, [0xa0, 0x0f, 0, 0]),
    (28, [0xd7, 0x0c, 0, 0]),
    (3_996, [b'x', b'x', b'x', 0]),
    (3_992, [b'x', b'x', b'x', b'x']),
];

// The text of a line of 1,048,576 bytes begins at the last byte of the first of its 257 pages. Here it begins 8 bytes
// before that.
const TOO_LONG: Patch = [
    (8, [0xf7, 0x0f, 0, 0]),
    (24, [0xf7, 0x0f, 0, 0]),
    (4_087, [b'x', b'x', b'x', b'x']),
    (4_091, [b'x', b'x', b'x', b'x']),
    (4_092, [b'x', b'x', b'x', b'x']),
];

// Writes over the bytes of a page.
fn overwrite<P: Pages>(
    alloc: Global,
    pages: &mut P,
    page: u64,
    patch: &Patch,
) -> Result<(), PageErr>
    requires told { P.tells ≡ false }
    requires valid { P.valid pages.old }
    ensures { P.valid pages.new }
{
    let mut bytes = load_page(alloc, pages, page)?;
    'parts: for (at, part) in patch {
        let from = *at as usize;
        if from <= 4_092 && from + 4 <= bytes.len() {
            bytes[from..from + 4].copy_from_slice(part);
        }
    }
    pages.touch(alloc, page, 1, &bytes)
}

// The faults of reading the only line of a tree, alone or with others, after its block was written over.
fn faults_of_a_line(
    alloc: Global,
    size: u64,
    block: u64,
    patch: &Patch,
    alone: bool,
) -> Result<u64, StoreErr> {
    let mut pages = FailingPages::<false>::new(MemPages::new(alloc)?);
    let Ok(mut tree) = LineTree::new(alloc, &mut pages) else {
        return Err(StoreErr::NoMemory);
    };
    let mut store = TreeStore {
        tree: &mut tree,
        pages,
    };
    push_lines(alloc, &mut store, 1, size)?;
    let TreeStore { tree, mut pages } = store;
    let _ = overwrite(alloc, &mut pages, block, patch);
    let mut line = Vec::new(alloc);
    let count = tree.len();
    if count > 0 && alone {
        let _ = tree.line(alloc, &mut pages, 0, &mut line);
    }
    if count > 0 && !alone {
        let _ = tree.copy_lines(alloc, &mut pages, 0, count, &mut line);
    }
    Ok(pages.faults)
}

// The first block that comes after the pages 0 to 2 begins at page 3.
#[test]
fn a_damaged_block_of_several_pages_is_a_fault(rt: HostRuntime) -> Result<(), Fail> {
    let rows = [
        ("two lines", 9_000, &TWO_LINES),
        ("a line past its limit", 1_048_576, &TOO_LONG),
    ];
    for (kind, size, patch) in rows {
        for alone in [true, false] {
            let faults = faults_of_a_line(rt.alloc(), size, 3, patch, alone)?;
            assert!(rt; faults == 1, "{kind}");
        }
    }
    Ok(())
}

// Numbers of a tree of three lines of 10 bytes that its pages do not have: what they are, the height, the bytes, and how
// many of its lines then go out and of what size a line comes.
const NUMBERS: [(&str, u64, u64, u64, usize); 3] = [
    ("more levels than pages", 1_000, 33, 1, 10),
    ("more bytes taken than known", 1, 5, 2, 0),
    ("a text past its limit", 1, 268_435_456, 1, 20),
];

// The faults of a splice after the numbers of a tree were changed.
fn faults_of_a_splice(
    alloc: Global,
    height: u64,
    bytes: u64,
    old: u64,
    size: usize,
) -> Result<u64, StoreErr>
    requires bytes { bytes ≤ 268435456 }
    requires size { size ≤ 1048576 }
{
    let mut pages = FailingPages::<false>::new(MemPages::new(alloc)?);
    let Ok(mut tree) = LineTree::new(alloc, &mut pages) else {
        return Err(StoreErr::NoMemory);
    };
    let mut store = TreeStore {
        tree: &mut tree,
        pages,
    };
    push_lines(alloc, &mut store, 3, 10)?;
    let TreeStore { tree, mut pages } = store;
    let lines = tree.len();
    tree.present = Extent {
        height,
        lines,
        bytes,
    };
    let new = [Line::from_vec(vec![in alloc; b'y'; size]?)];
    if 0 < old && old <= lines {
        let _ = tree.splice(alloc, &mut pages, 0, old, &new);
    }
    Ok(pages.faults)
}

#[test]
fn numbers_that_the_pages_do_not_have_are_a_fault(rt: HostRuntime) -> Result<(), Fail> {
    for (kind, height, bytes, old, size) in NUMBERS {
        let most = MAX_TEXT_BYTES.min(bytes);
        let faults = faults_of_a_splice(rt.alloc(), height, most, old, size.min(20))?;
        assert!(rt; faults == 1, "{kind}");
    }
    Ok(())
}
