// Swap files, and what is salvaged of each.
use crate::files::Block::{Blank, Counted, Data, Long, Patched, Pointers};
use crate::files::{Block, File, bytes_of};
use std::alloc::Global;
use std::process::Abort;
use std::test::Fail;
use vs_host::Names;
use vs_memory::MemHost;
use vs_recover::{RecErr, Swap, salvage};

// Blocks from block 1 on in pages of 4,096 bytes, the original file, and what is salvaged.
type Row = (
    &'static [Block<'static>],
    Option<&'static [u8]>,
    &'static [u8],
    u64,
);

fn salvaged(alloc: Global, file: &File) -> Result<Result<(Vec<u8>, u64), RecErr>, Fail> {
    let names = Names::of(alloc, "f").ok().ok_or("the name is allowed")?;
    let mut host = MemHost::new(alloc, Vec::new(alloc))?;
    host.put(alloc, ".f.swp", bytes_of(alloc, file)?)?;
    if let Some(original) = file.original {
        host.put(alloc, "f", Vec::from_slice(alloc, original)?)?;
    }
    match salvage(alloc, &mut host, &names, Swap::Swp) {
        Ok(salvaged) => Ok(Ok((salvaged.bytes, salvaged.markers))),
        Err(why) => Ok(Err(why)),
    }
}

const X: Block<'static> = Data(&[b"x"]);

const ROWS: [Row; 18] = [
    // A file that Vim has only begun to write.
    (&[Pointers(&[(-1, 2, 1, 1)])], Some(b"a\nb\n"), b"a\nb\n", 0),
    (
        &[Pointers(&[(1, 1, 1, 1)])],
        Some(b"a\nb\n"),
        b"???BLOCK MISSING\n",
        1,
    ),
    // A block that is named twice.
    (
        &[Pointers(&[(2, 1, 1, 1), (2, 1, 1, 1)]), X],
        None,
        b"x\n???BLOCK MISSING\n",
        1,
    ),
    (
        &[Pointers(&[(2, 5, 1, 1)]), X],
        None,
        b"x\n???LINE COUNT WRONG\n",
        1,
    ),
    (
        &[Pointers(&[(-1, 3, 2, 1)])],
        Some(b"a\nb\n"),
        b"b\n???LINES MISSING\n",
        1,
    ),
    (
        &[Pointers(&[(2, 1, 1, 1)]), Patched(8, 10, &[b"x"])],
        None,
        b"???DATA BLOCK DAMAGED\n",
        1,
    ),
    // A block of which only the second page was taken: the first one is there for the next entry.
    (
        &[
            Pointers(&[(3, 1, 1, 1), (2, 1, 1, 2), (2, 1, 1, 1)]),
            X,
            Data(&[b"y"]),
        ],
        None,
        b"y\n???BLOCK MISSING\nx\n",
        1,
    ),
    // Entries that lead to no block.
    (&[Pointers(&[(0, 1, 1, 1)])], None, b"???BLOCK MISSING\n", 1),
    (&[Pointers(&[(2, 1, 1, 1)])], None, b"???BLOCK MISSING\n", 1),
    (
        &[Pointers(&[(2, 1, 1, 0)]), X],
        None,
        b"???BLOCK MISSING\n",
        1,
    ),
    (
        &[Pointers(&[(2, 1, 1, -1)]), X],
        None,
        b"???BLOCK MISSING\n",
        1,
    ),
    (
        &[Pointers(&[(2, 1, 1, 2147483647)]), X],
        None,
        b"???BLOCK MISSING\n",
        1,
    ),
    (
        &[Pointers(&[(2, 1, 1, 1), (3, 1, 1, 1)]), Blank, X],
        None,
        b"???BLOCK MISSING\nx\n",
        1,
    ),
    // Pointer blocks below the root.
    (
        &[
            Pointers(&[(2, 1, 1, 1), (4, 1, 1, 1)]),
            Pointers(&[(3, 1, 1, 1), (2, 1, 1, 1)]),
            X,
            Data(&[b"y"]),
        ],
        None,
        b"x\n???BLOCK MISSING\ny\n",
        1,
    ),
    (
        &[Pointers(&[(2, 1, 1, 1)]), Counted(200, &[])],
        None,
        b"???POINTER BLOCK DAMAGED\n",
        1,
    ),
    // A line of several pages, and byte 10 of a stored line.
    (
        &[
            Pointers(&[(2, 2, 1, 2), (4, 1, 1, 1)]),
            Long(2, &[b"a\nb", b"c"]),
            X,
        ],
        None,
        b"a\0b\nc\nx\n",
        0,
    ),
    (
        &[Pointers(&[(-7, -1, 0, 1)])],
        Some(b"a\n"),
        b"???LINES MISSING\n",
        1,
    ),
    // A byte 13 is one of its line.
    (
        &[Pointers(&[(-1, 1, 1, 1), (2, 1, 1, 1)]), X],
        Some(b"a\r\n"),
        b"a\r\nx\n",
        0,
    ),
];

// The same, where the flags byte of page 0 says dos.
const DOS_ROWS: [Row; 4] = [
    (&[Pointers(&[(2, 1, 1, 1)]), X], None, b"x\r\n", 0),
    (
        &[Pointers(&[(2, 5, 1, 1), (2, 1, 1, 1)]), Data(&[b"a\r"])],
        None,
        b"a\r\r\n???LINE COUNT WRONG\r\n???BLOCK MISSING\r\n",
        2,
    ),
    // Each line of the original file loses one last byte 13.
    (
        &[Pointers(&[(-1, 2, 1, 1)])],
        Some(b"a\r\nb\r\n"),
        b"a\r\nb\r\n",
        0,
    ),
    (
        &[Pointers(&[(-1, 4, 1, 1)])],
        Some(b"a\r\r\nb\n\r\nc\r"),
        b"a\r\r\nb\r\n\r\nc\r\n",
        0,
    ),
];

// Whether this is salvaged of files with this flags byte.
fn are_salvaged(alloc: Global, flags: u8, rows: &[Row]) -> Result<bool, Fail> {
    for (blocks, original, bytes, markers) in rows {
        let file = File {
            size: 4096,
            flags,
            blocks,
            original: *original,
        };
        let Ok((found, count)) = salvaged(alloc, &file)? else {
            return Ok(false);
        };
        if found.as_slice() != *bytes || count != *markers {
            return Ok(false);
        }
    }
    Ok(true)
}

#[test]
fn lines_and_markers(rt: HostRuntime) -> Result<(), Fail> {
    assert!(rt; are_salvaged(rt.alloc(), 5, &ROWS)?);
    assert!(rt; are_salvaged(rt.alloc(), 6, &DOS_ROWS)?);
    Ok(())
}
