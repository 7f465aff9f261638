use crate::damage::overwrite;
use std::alloc::{AllocError, Global};
use std::process::Abort;
use std::test::Fail;
use vs_data::*;

// One more line, where what `insert` requires holds.
fn put(rt: &impl Abort, view: &mut DataView, block: &mut [u8], at: u32, line: &[u8]) {
    assert!(rt; DataView::read(block) == Ok(*view));
    assert!(rt; view.text_end <= 1 << 31);
    assert!(rt; at <= view.count);
    assert!(rt; view.fits(line.len()));
    assert!(rt; !line.contains(&0));
    view.insert(block, at, line);
}

// The lines of another block, where what `insert_lines` requires holds.
fn put_all(
    rt: &impl Abort,
    view: &mut DataView,
    block: &mut [u8],
    at: u32,
    more: DataView,
    lines: &[u8],
) {
    assert!(rt; DataView::read(block) == Ok(*view));
    assert!(rt; DataView::read(lines) == Ok(more));
    assert!(rt; view.text_end <= 1 << 31);
    assert!(rt; at <= view.count);
    assert!(rt; more.text_start <= more.text_end);
    let index = 24 + 4 * (view.count as u64 + more.count as u64);
    let text = more.text_end as u64 - more.text_start as u64;
    assert!(rt; index + text <= view.text_start as u64);
    view.insert_lines(block, at, more, lines);
}

fn take_out(rt: &impl Abort, view: &mut DataView, block: &mut [u8], at: u32) {
    assert!(rt; DataView::read(block) == Ok(*view));
    assert!(rt; view.text_end <= 1 << 31);
    assert!(rt; at < view.count);
    view.remove(block, at);
}

fn split(
    rt: &impl Abort,
    view: &mut DataView,
    block: &mut [u8],
    from: u32,
    other: &mut [u8],
) -> DataView {
    assert!(rt; DataView::read(block) == Ok(*view));
    assert!(rt; from <= view.count);
    assert!(rt; block.len() == 4096);
    assert!(rt; other.len() == 4096);
    view.split_into(block, from, other)
}

fn lines_are(rt: &impl Abort, view: &DataView, block: &[u8], lines: &[&[u8]]) {
    assert!(rt; DataView::read(block) == Ok(*view));
    assert!(rt; view.count as usize == lines.len());
    for at in 0..view.count {
        let line = view.line(block, at);
        assert!(rt; lines.get(at as usize) == Some(&line), "line {at}");
    }
}

fn page(
    rt: &impl Abort,
    alloc: Global,
    lines: &[&[u8]],
) -> Result<(Vec<u8>, DataView), AllocError> {
    let mut block = vec![in alloc; 7; 4096]?;
    let mut view = DataView::fresh(block.as_mut_slice());
    for line in lines {
        let last = view.count;
        put(rt, &mut view, block.as_mut_slice(), last, line);
    }
    Ok((block, view))
}

#[test]
fn lays_out_two_lines(rt: HostRuntime) -> Result<(), Fail> {
    let (block, view) = page(&rt, rt.alloc(), &[b"ab", b"c"])?;
    let header = [
        0x61, 0x64, 0, 0, 0xdb, 0x0f, 0, 0, 0xfb, 0x0f, 0, 0, 0, 0x10, 0, 0, 2, 0, 0, 0, 0, 0, 0,
        0, 0xfd, 0x0f, 0, 0, 0xfb, 0x0f, 0, 0,
    ];
    assert!(rt; block.starts_with(header.as_slice()));
    assert!(rt; block.ends_with([0x63, 0, 0x61, 0x62, 0].as_slice()));
    lines_are(&rt, &view, block.as_slice(), &[b"ab", b"c"]);
    Ok(())
}

#[test]
fn keeps_a_stored_zero(rt: HostRuntime) -> Result<(), Fail> {
    let (block, _) = page(&rt, rt.alloc(), &[b"a\nb"])?;
    assert!(rt; block.ends_with([0x61, 0x0a, 0x62, 0].as_slice()));
    Ok(())
}

#[test]
fn fills_its_pages(rt: HostRuntime) -> Result<(), Fail> {
    for (pages, len) in [(1, 4067), (2, 4068), (257, 1_048_576)] {
        let mut block = vec![in rt.alloc(); 0; 4096 * pages]?;
        let mut view = DataView::fresh(block.as_mut_slice());
        assert!(rt; view.fits(len), "{len} bytes in {pages} pages");
        let line = vec![in rt.alloc(); b'a'; len]?;
        put(&rt, &mut view, block.as_mut_slice(), 0, line.as_slice());
        lines_are(&rt, &view, block.as_slice(), &[line.as_slice()]);
    }
    let mut block = vec![in rt.alloc(); 0; 4096]?;
    let mut view = DataView::fresh(block.as_mut_slice());
    let line = vec![in rt.alloc(); b'a'; 4067]?;
    put(&rt, &mut view, block.as_mut_slice(), 0, line.as_slice());
    assert!(rt; !view.fits(0));
    Ok(())
}

#[test]
fn puts_in_and_takes_out(rt: HostRuntime) -> Result<(), Fail> {
    let (mut block, mut view) = page(&rt, rt.alloc(), &[b"one", b"", b"three"])?;
    put(&rt, &mut view, block.as_mut_slice(), 1, b"half");
    lines_are(
        &rt,
        &view,
        block.as_slice(),
        &[b"one", b"half", b"", b"three"],
    );
    take_out(&rt, &mut view, block.as_mut_slice(), 0);
    lines_are(&rt, &view, block.as_slice(), &[b"half", b"", b"three"]);
    take_out(&rt, &mut view, block.as_mut_slice(), 2);
    lines_are(&rt, &view, block.as_slice(), &[b"half", b""]);
    Ok(())
}

#[test]
fn puts_in_the_lines_of_another_block(rt: HostRuntime) -> Result<(), Fail> {
    let (mut block, mut view) = page(&rt, rt.alloc(), &[b"one", b"four"])?;
    let (lines, more) = page(&rt, rt.alloc(), &[b"two", b"", b"three"])?;
    put_all(
        &rt,
        &mut view,
        block.as_mut_slice(),
        1,
        more,
        lines.as_slice(),
    );
    lines_are(
        &rt,
        &view,
        block.as_slice(),
        &[b"one", b"two", b"", b"three", b"four"],
    );
    Ok(())
}

#[test]
fn splits_at_each_line(rt: HostRuntime) -> Result<(), Fail> {
    let lines: [&[u8]; 3] = [b"one", b"", b"three"];
    for from in 0..4 {
        let (mut block, mut view) = page(&rt, rt.alloc(), &lines)?;
        let mut other = vec![in rt.alloc(); 7; 4096]?;
        assert!(rt; from as usize <= lines.len());
        let rest = split(
            &rt,
            &mut view,
            block.as_mut_slice(),
            from,
            other.as_mut_slice(),
        );
        lines_are(&rt, &view, block.as_slice(), &lines[..from as usize]);
        lines_are(&rt, &rest, other.as_slice(), &lines[from as usize..]);
    }
    Ok(())
}

// A block of two lines in which these bytes stand at the place.
fn spoilt(
    rt: &impl Abort,
    alloc: Global,
    place: usize,
    bytes: &[u8],
) -> Result<Vec<u8>, AllocError> {
    let (mut block, _) = page(rt, alloc, &[b"ab", b"c"])?;
    overwrite(rt, block.as_mut_slice(), place, bytes);
    Ok(block)
}

// Whether the block is refused, and its bounds are unless the index is at fault.
fn is_refused(block: &[u8], refusal: DataErr) -> bool {
    let bounds = DataView::bounds(block);
    let bounds_agree = match refusal {
        DataErr::BadIndex(_) => bounds.is_ok(),
        _ => bounds == Err(refusal),
    };
    bounds_agree && DataView::read(block) == Err(refusal)
}

#[test]
fn refuses_hostile_blocks(rt: HostRuntime) -> Result<(), Fail> {
    let cases: [(&str, usize, &[u8], DataErr); 17] = [
        ("another identifier", 0, b"da", DataErr::BadId),
        ("a text start of 10", 8, &[10, 0, 0, 0], DataErr::BadBounds),
        (
            "a text start below the index end",
            8,
            &[31, 0, 0, 0],
            DataErr::BadBounds,
        ),
        (
            "a text start above the text end",
            8,
            &[1, 0x10, 0, 0],
            DataErr::BadBounds,
        ),
        (
            "a text end above the block",
            12,
            &[1, 0x10, 0, 0],
            DataErr::BadBounds,
        ),
        ("a count of -1", 16, &[0xff; 8], DataErr::BadBounds),
        (
            "a count whose index has 2^64 bytes",
            16,
            &[0, 0, 0, 0, 0, 0, 0, 0x40],
            DataErr::BadBounds,
        ),
        (
            "a count of 2^32 + 2",
            16,
            &[2, 0, 0, 0, 1, 0, 0, 0],
            DataErr::BadBounds,
        ),
        (
            "one line more than there is room for",
            16,
            &[0xf9, 3],
            DataErr::BadBounds,
        ),
        ("text without lines", 16, &[0], DataErr::BadBounds),
        ("one line less", 16, &[1], DataErr::BadIndex(0)),
        ("one line more", 16, &[3], DataErr::BadIndex(2)),
        (
            "a first line at the text end",
            24,
            &[0, 0x10, 0, 0],
            DataErr::BadIndex(0),
        ),
        (
            "a line at the line before it",
            28,
            &[0xfd, 0x0f, 0, 0],
            DataErr::BadIndex(1),
        ),
        (
            "a last line above the text start",
            8,
            &[0xfa, 0x0f, 0, 0],
            DataErr::BadIndex(1),
        ),
        (
            "a line with no zero byte at its end",
            4092,
            b"d",
            DataErr::BadIndex(1),
        ),
        (
            "a line with a zero byte in it",
            4094,
            &[0],
            DataErr::BadIndex(0),
        ),
    ];
    for (name, place, bytes, refusal) in cases {
        let block = spoilt(&rt, rt.alloc(), place, bytes)?;
        assert!(rt; is_refused(block.as_slice(), refusal), "{name}");
    }
    assert!(rt; DataView::read(b"ad") == Err(DataErr::BadId));
    Ok(())
}

#[test]
fn passes_over_mark_bits(rt: HostRuntime) -> Result<(), Fail> {
    let (mut block, view) = page(&rt, rt.alloc(), &[b"ab", b"c"])?;
    assert!(rt; block.len() > 27);
    block[27] = 0x80;
    lines_are(&rt, &view, block.as_slice(), &[b"ab", b"c"]);
    assert!(rt; DataView::bounds(block.as_slice()) == Ok(view));
    assert!(rt; 0 < view.count);
    assert!(rt; view.start(block.as_slice(), 0) == 4093);
    Ok(())
}
