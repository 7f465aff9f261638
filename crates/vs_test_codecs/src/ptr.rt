ghost use Rattle.std.specs.Prelude.{◌≡◌, Ok, length};
ghost use Rattle.vs_ptr.specs.Blocks.{view_in};

use crate::damage::overwrite;
use std::process::Abort;
use vs_ptr::*;

/// The counts of a header.
fn counts(count: u16, most: u16) -> PtrView {
    PtrView { count, most }
}

/// The entry of a block of one page.
fn one_page(block: i64, lines: i64) -> PtrEntry {
    PtrEntry {
        block,
        lines,
        old: 0,
        pages: 1,
    }
}

#[test]
fn fresh_blocks_allow_what_fits(rt: HostRuntime) {
    let mut page = [0xee_u8; 4096];
    let view = PtrView::fresh(&mut page);
    assert!(rt; view == counts(0, 127));
    assert!(rt; PtrView::read(&page) == Ok(view));

    let mut smallest = [0xee_u8; 1048];
    let view = PtrView::fresh(&mut smallest);
    assert!(rt; view == counts(0, 32));
    assert!(rt; PtrView::read(&smallest) == Ok(view));
}

/// The bytes are written by hand from the tables of docs/FORMATS.md, "Pointer blocks"; the first row is its worked case.
#[test]
fn entries_stand_as_the_table_says(rt: HostRuntime) {
    let wide = PtrEntry {
        block: 0x0102_0304_0506_0708,
        lines: -2,
        old: 0x1112_1314_1516_1718,
        pages: 0x2122_2324,
    };
    let rows = [
        (
            one_page(2, 3),
            *b"tp\x01\0\x20\0\0\0\
                \x02\0\0\0\0\0\0\0\
                \x03\0\0\0\0\0\0\0\
                \0\0\0\0\0\0\0\0\
                \x01\0\0\0\0\0\0\0",
        ),
        (
            wide,
            *b"tp\x01\0\x20\0\0\0\
                \x08\x07\x06\x05\x04\x03\x02\x01\
                \xfe\xff\xff\xff\xff\xff\xff\xff\
                \x18\x17\x16\x15\x14\x13\x12\x11\
                \x24\x23\x22\x21\0\0\0\0",
        ),
    ];
    for (entry, written) in rows {
        let mut block = [0xee_u8; 1048];
        let mut view = PtrView::fresh(&mut block);
        view.insert(&mut block, 0, &entry);
        assert!(rt; block.starts_with(&written));
        assert!(rt; view.entry(&block, 0) == entry);
    }
}

/// The bytes are written by hand from the table of an entry in docs/FORMATS.md, "Pointer blocks".
#[test]
fn an_entry_gives_the_bytes_of_the_table(rt: HostRuntime) {
    let entry = PtrEntry {
        block: -3,
        lines: 70_000,
        old: 0x1112_1314_1516_1718,
        pages: 257,
    };
    let written = *b"\xfd\xff\xff\xff\xff\xff\xff\xff\
        \x70\x11\x01\0\0\0\0\0\
        \x18\x17\x16\x15\x14\x13\x12\x11\
        \x01\x01\0\0\0\0\0\0";
    assert!(rt; entry.to_bytes() == written);
}

/// What so many bytes that begin with this header, and are else 0, are read as.
fn reading(rt: &impl Abort, header: &[u8], len: usize) -> Result<PtrView, PtrErr> {
    let mut block = [0u8; 4096];
    overwrite(rt, &mut block, 0, header);
    assert!(rt; len <= 4096);
    PtrView::read(&block[..len])
}

#[test]
fn hostile_blocks_are_refused_by_name(rt: HostRuntime) {
    let rows = [
        ("no bytes", *b"tp\0\0\0\0\0\0", 0, Err(PtrErr::BadId)),
        ("7 bytes", *b"tp\0\0\0\0\0\0", 7, Err(PtrErr::BadId)),
        (
            "identifier in the wrong order",
            *b"pt\0\0\0\0\0\0",
            4096,
            Err(PtrErr::BadId),
        ),
        (
            "another block's identifier",
            *b"ad\0\0\0\0\0\0",
            4096,
            Err(PtrErr::BadId),
        ),
        ("a header alone", *b"tp\0\0\0\0\0\0", 8, Ok(counts(0, 0))),
        (
            "count above the greatest count",
            *b"tp\xc8\x00\x7f\x00\0\0",
            4096,
            Err(PtrErr::BadCount(200)),
        ),
        (
            "count as the greatest count",
            *b"tp\x7f\x00\x7f\x00\0\0",
            4096,
            Ok(counts(127, 127)),
        ),
        (
            "greatest count past the block",
            *b"tp\x7f\x00\xff\xff\0\0",
            4096,
            Ok(counts(127, 65535)),
        ),
        (
            "count past the block",
            *b"tp\x80\x00\xff\xff\0\0",
            4096,
            Err(PtrErr::BadCount(128)),
        ),
        (
            "unused bytes set",
            *b"tp\x01\x00\x01\x00\xff\xff",
            40,
            Ok(counts(1, 1)),
        ),
    ];
    for (name, header, len, answer) in rows {
        assert!(rt; reading(&rt, &header, len) == answer, "{name}");
    }
}

#[test]
fn hostile_numbers_are_read_as_they_stand(rt: HostRuntime) {
    let block = *b"tp\x01\x00\x01\x00\0\0\
        \xff\xff\xff\xff\xff\xff\xff\xff\
        \0\0\0\0\0\0\0\x80\
        \xfe\xff\xff\xff\xff\xff\xff\xff\
        \xfd\xff\xff\xff\xee\xee\xee\xee";
    let view = PtrView::read(&block).expect(&rt, "a block of one entry");
    assert!(rt; view.count == 1);
    let entry = PtrEntry {
        block: -1,
        lines: -9_223_372_036_854_775_808,
        old: -2,
        pages: -3,
    };
    assert!(rt; view.entry(&block, 0) == entry);
}

/// Makes `block` a pointer block with the entries of the blocks 2, 3 and 4, in this order.
fn fill(block: &mut [u8]) -> PtrView
    requires { length block.old ≡ 1048 }
    ensures reads { view_in block.new ≡ Ok result }
    ensures count { result ≡ record { count = 3; most = 32 } }
{
    let mut view = PtrView::fresh(block);
    view.insert(block, 0, &one_page(2, 10));
    view.insert(block, 1, &one_page(4, 30));
    view.insert(block, 1, &one_page(3, 20));
    view
}

#[test]
fn entries_stand_where_they_were_inserted(rt: HostRuntime) {
    let mut block = [0u8; 1048];
    let view = fill(&mut block);
    assert!(rt; PtrView::read(&block) == Ok(counts(3, 32)));
    assert!(rt; view.entry(&block, 0) == one_page(2, 10));
    assert!(rt; view.entry(&block, 1) == one_page(3, 20));
    assert!(rt; view.entry(&block, 2) == one_page(4, 30));
}

#[test]
fn entries_close_up_after_a_removal(rt: HostRuntime) {
    let mut block = [0u8; 1048];
    let mut view = fill(&mut block);
    view.remove(&mut block, 1);
    assert!(rt; PtrView::read(&block) == Ok(counts(2, 32)));
    assert!(rt; view.entry(&block, 0) == one_page(2, 10));
    assert!(rt; view.entry(&block, 1) == one_page(4, 30));
}

#[test]
fn lines_are_added_to_one_entry(rt: HostRuntime) {
    let mut block = [0u8; 1048];
    let mut view = fill(&mut block);
    let entry = view.entry(&block, 1);
    assert!(rt; entry.lines == 20);
    view.add_lines(&mut block, 1, -25);
    assert!(rt; view.entry(&block, 0) == one_page(2, 10));
    assert!(rt; view.entry(&block, 1) == one_page(3, -5));
    assert!(rt; view.entry(&block, 2) == one_page(4, 30));
}

#[test]
fn one_entry_is_put_in_place_of_another(rt: HostRuntime) {
    let mut block = [0u8; 1048];
    let mut view = fill(&mut block);
    view.replace(&mut block, 1, &one_page(9, 25));
    assert!(rt; PtrView::read(&block) == Ok(counts(3, 32)));
    assert!(rt; view.entry(&block, 0) == one_page(2, 10));
    assert!(rt; view.entry(&block, 1) == one_page(9, 25));
    assert!(rt; view.entry(&block, 2) == one_page(4, 30));
}

#[test]
fn a_split_moves_the_later_entries(rt: HostRuntime) {
    let mut block = [0u8; 1048];
    let mut other = [0xee_u8; 1048];
    let mut view = fill(&mut block);
    let moved = view.split_into(&mut block, 1, &mut other);
    assert!(rt; PtrView::read(&block) == Ok(counts(1, 32)));
    assert!(rt; PtrView::read(&other) == Ok(counts(2, 32)));
    assert!(rt; view.entry(&block, 0) == one_page(2, 10));
    assert!(rt; moved.entry(&other, 0) == one_page(3, 20));
    assert!(rt; moved.entry(&other, 1) == one_page(4, 30));
}
