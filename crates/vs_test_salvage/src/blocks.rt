// Data blocks of 4,096 bytes, and what each gives.
use std::alloc::{AllocError, Global};
use std::process::Abort;
use std::test::Fail;
use vs_damaged::{Shown, show_data};
use vs_ptr::PtrEntry;
use vs_text::Format;

// A number of four bytes at a place.
type Patch = (usize, u32);

// The lines of a block, what is then changed in it, how many lines its entry says, and what it gives with how many markers.
type Row = (
    &'static [&'static [u8]],
    &'static [Patch],
    i64,
    &'static [u8],
    u64,
);

fn put(block: &mut Vec<u8>, at: usize, part: &[u8]) {
    for (place, byte) in part.iter().enumerate() {
        if let Some(old) = block.get_mut(at.saturating_add(place)) {
            *old = *byte;
        }
    }
}

fn put_number(block: &mut Vec<u8>, at: usize, number: u32) {
    put(block, at, &number.to_le_bytes());
}

// The block with these lines, as docs/FORMATS.md has it.
fn block_of(alloc: Global, lines: &[&[u8]]) -> Result<Vec<u8>, AllocError> {
    let mut block = vec![in alloc; 0u8; 4096]?;
    let mut start: usize = 4096;
    for (line, bytes) in lines.iter().enumerate() {
        start = start.saturating_sub(bytes.len().saturating_add(1));
        put(&mut block, start, bytes);
        put_number(
            &mut block,
            line.saturating_mul(4).saturating_add(24),
            start.min(4096) as u32,
        );
    }
    put(&mut block, 0, b"ad");
    put_number(&mut block, 8, start.min(4096) as u32);
    put_number(&mut block, 12, 4096);
    put_number(&mut block, 16, lines.len().min(4096) as u32);
    Ok(block)
}

const ROWS: [Row; 21] = [
    (&[b"x"], &[], 1, b"x\n", 0),
    (&[b"x", b"", b"y"], &[], 3, b"x\n\ny\n", 0),
    (&[b"a\nb"], &[], 1, b"a\0b\n", 0),
    // Another number of lines than the entry says.
    (&[b"x"], &[], 5, b"x\n???LINE COUNT WRONG\n", 1),
    (&[b"x"], &[], 0, b"x\n???LINE COUNT WRONG\n", 1),
    (&[b"x"], &[], -1, b"x\n???LINE COUNT WRONG\n", 1),
    // Neither identifier.
    (&[b"x"], &[(0, 0)], 1, b"???BLOCK MISSING\n", 1),
    // The text start: in the header, in the index, at its least place and one below it, past the text end.
    (&[b"x"], &[(8, 10)], 1, b"???DATA BLOCK DAMAGED\n", 1),
    (&[b"x"], &[(8, 27)], 1, b"???DATA BLOCK DAMAGED\n", 1),
    (&[b"x"], &[(8, 28)], 1, b"x\n", 0),
    (&[b"x"], &[(8, 4097)], 1, b"???DATA BLOCK DAMAGED\n", 1),
    // The text end: past the block, and below the text start.
    (&[b"x"], &[(12, 4097)], 1, b"???DATA BLOCK DAMAGED\n", 1),
    (&[b"x"], &[(12, 4093)], 1, b"???DATA BLOCK DAMAGED\n", 1),
    // The count: none with a text, one too many, one that leaves no room, and a negative one.
    (&[b"x"], &[(16, 0)], 0, b"???DATA BLOCK DAMAGED\n", 1),
    (&[b"x"], &[(16, 2)], 2, b"x\n???LINE MISSING\n", 1),
    (&[b"x"], &[(16, 1018)], 1, b"???DATA BLOCK DAMAGED\n", 1),
    (
        &[b"x"],
        &[(20, 0x8000_0000)],
        1,
        b"???DATA BLOCK DAMAGED\n",
        1,
    ),
    // An index entry below the text start, at it with the mark bit, and at the text end.
    (&[b"x", b"y"], &[(28, 4091)], 2, b"x\n???LINE MISSING\n", 1),
    (&[b"x", b"y"], &[(24, 0x8000_0ffc)], 2, b"y\ny\n", 0),
    (&[b"x", b"y"], &[(24, 4096)], 2, b"???LINE MISSING\ny\n", 1),
    // A line without a zero byte ends at the text end.
    (&[b"x"], &[(4092, 0x7978_0000)], 1, b"xy\n", 0),
];

#[test]
fn what_blocks_give(rt: HostRuntime) -> Result<(), Fail> {
    for (lines, patches, said, bytes, markers) in &ROWS {
        let mut block = block_of(rt.alloc(), lines)?;
        for (at, number) in *patches {
            put_number(&mut block, *at, *number);
        }
        let entry = PtrEntry {
            block: 2,
            lines: *said,
            old: 1,
            pages: 1,
        };
        let mut shown = Shown::new(rt.alloc(), Format::Unix);
        show_data(rt.alloc(), &entry, &block, &mut shown)?;
        assert!(rt; shown.bytes.as_slice() == *bytes && shown.markers == *markers);
    }
    Ok(())
}
