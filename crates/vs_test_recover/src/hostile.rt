// Swap files of all kinds, hostile ones among them, and what each of them is.
use crate::pages::Block::{Blank, Bytes, Flagged, Head, HeadOfNone, Lines, Marked, Pointers};
use crate::pages::{Block, Entry, said_of};
use std::alloc::Global;
use std::process::Abort;
use std::test::Fail;

const NOT_STANDING: &str = "open 4096";

// The blocks of a file, and what is said of it.
type Case = (&'static [Block<'static>], &'static str);

// Whether this is said of these files.
fn are_said(alloc: Global, cases: &[Case]) -> Result<bool, Fail> {
    for (blocks, words) in cases {
        if said_of(alloc, blocks, usize::MAX)?.as_str() != *words {
            return Ok(false);
        }
    }
    Ok(true)
}

const SHAPES: [Case; 3] = [
    (
        &[
            Head(7),
            Pointers(&[(3, 1, 1), (2, 1, 2)]),
            Lines(1, b"bc"),
            Lines(1, b"a"),
        ],
        "stands 7 a.b.c.",
    ),
    (
        &[
            Head(1),
            Pointers(&[(2, 1, 1)]),
            Pointers(&[(3, 1, 1)]),
            Lines(1, b"a"),
        ],
        "stands 1 a.",
    ),
    (
        &[HeadOfNone(2), Pointers(&[(2, 1, 1)]), Lines(1, b"a")],
        NOT_STANDING,
    ),
];

#[test]
fn trees_of_all_shapes_stand_in_their_format(rt: HostRuntime) -> Result<(), Fail> {
    assert!(rt; are_said(rt.alloc(), &SHAPES)?);
    assert!(rt; are_said(rt.alloc(), &FORMATS)?);
    Ok(())
}

// Bits 0 and 1 of the flags byte say the format.
const FORMATS: [Case; 4] = [
    (
        &[Flagged(1, 6), Pointers(&[(2, 1, 2)]), Lines(1, b"a\r")],
        "stands 1 dos a~.~~.",
    ),
    (
        &[Flagged(1, 0xf2), Pointers(&[(2, 1, 1)]), Lines(1, b"a")],
        "stands 1 dos a~.",
    ),
    (
        &[Flagged(1, 7), Pointers(&[(2, 1, 1)]), Lines(1, b"a")],
        "stands 1 a.",
    ),
    (
        &[Flagged(1, 4), Pointers(&[(2, 1, 2)]), Lines(1, b"a\r")],
        "stands 1 a.~.",
    ),
];

const WIDE: [Case; 3] = [
    (
        &[Head(3), Pointers(&[(2, 2, 3)]), Lines(2, b"abc")],
        "stands 3 a.b.c.",
    ),
    (
        &[Head(3), Pointers(&[(2, 300, 1)]), Lines(300, b"a")],
        "stands 3 a.",
    ),
    (
        &[Head(3), Pointers(&[(2, 3, 3)]), Lines(2, b"abc")],
        NOT_STANDING,
    ),
];

#[test]
fn a_block_of_several_pages_may_have_any_lines(rt: HostRuntime) -> Result<(), Fail> {
    assert!(rt; are_said(rt.alloc(), &WIDE)?);
    Ok(())
}

const SHARED: [Case; 3] = [
    (
        &[Head(1), Pointers(&[(2, 1, 1), (2, 1, 1)]), Lines(1, b"a")],
        NOT_STANDING,
    ),
    (
        &[Head(1), Pointers(&[(2, 2, 1), (3, 1, 1)]), Lines(2, b"a")],
        NOT_STANDING,
    ),
    (
        &[
            Head(1),
            Pointers(&[(2, 1, 1), (3, 1, 1)]),
            Pointers(&[(4, 1, 1)]),
            Pointers(&[(4, 1, 1)]),
            Lines(1, b"a"),
        ],
        NOT_STANDING,
    ),
];

#[test]
fn no_page_is_used_twice(rt: HostRuntime) -> Result<(), Fail> {
    assert!(rt; are_said(rt.alloc(), &SHARED)?);
    Ok(())
}

// The root names itself; a block below it does; that names the root; the root names page 0.
const CYCLES: [Case; 4] = [
    (&[Head(1), Pointers(&[(1, 1, 1)])], NOT_STANDING),
    (
        &[Head(1), Pointers(&[(2, 1, 1)]), Pointers(&[(2, 1, 1)])],
        NOT_STANDING,
    ),
    (
        &[Head(1), Pointers(&[(2, 1, 1)]), Pointers(&[(1, 1, 1)])],
        NOT_STANDING,
    ),
    (&[Head(1), Pointers(&[(0, 1, 1)])], NOT_STANDING),
];

#[test]
fn a_tree_has_no_cycle(rt: HostRuntime) -> Result<(), Fail> {
    assert!(rt; are_said(rt.alloc(), &CYCLES)?);
    Ok(())
}

const UNEVEN: [Case; 3] = [
    (
        &[
            Head(1),
            Pointers(&[(2, 1, 1), (3, 1, 1)]),
            Lines(1, b"a"),
            Pointers(&[(4, 1, 1)]),
            Lines(1, b"b"),
        ],
        NOT_STANDING,
    ),
    (
        &[
            Head(1),
            Pointers(&[(2, 1, 1), (3, 1, 0)]),
            Lines(1, b"a"),
            Pointers(&[]),
        ],
        NOT_STANDING,
    ),
    (
        &[
            Head(1),
            Pointers(&[(2, 2, 1)]),
            Pointers(&[(4, 1, 1)]),
            Blank,
            Lines(1, b"a"),
        ],
        NOT_STANDING,
    ),
];

#[test]
fn all_data_blocks_lie_equally_deep(rt: HostRuntime) -> Result<(), Fail> {
    assert!(rt; are_said(rt.alloc(), &UNEVEN)?);
    Ok(())
}

const ROOTS: [Case; 4] = [
    (&[Head(1), Lines(1, b"a")], NOT_STANDING),
    (&[Head(1), Blank, Lines(1, b"a")], NOT_STANDING),
    (&[Head(1), Pointers(&[])], NOT_STANDING),
    (&[Head(1), Pointers(&[(2, 1, 1)]), Blank], NOT_STANDING),
];

#[test]
fn the_root_is_a_pointer_block_with_lines_below_it(rt: HostRuntime) -> Result<(), Fail> {
    assert!(rt; are_said(rt.alloc(), &ROOTS)?);
    Ok(())
}

// What is said of a file of three pages where it is cut to these bytes.
const CUTS: [(usize, &str); 9] = [
    (0, "no swap file"),
    (1, "no swap file"),
    (1047, "no swap file"),
    (1048, NOT_STANDING),
    (4096, NOT_STANDING),
    (5000, NOT_STANDING),
    (8192, NOT_STANDING),
    (12_287, NOT_STANDING),
    (12_288, "stands 1 a."),
];

#[test]
fn a_file_is_cut_anywhere(rt: HostRuntime) -> Result<(), Fail> {
    let blocks = [Head(1), Pointers(&[(2, 1, 1)]), Lines(1, b"a")];
    for (len, words) in CUTS {
        let said = said_of(rt.alloc(), &blocks, len)?;
        assert!(rt; said.as_str() == words, "{len} bytes");
    }
    Ok(())
}

// Whether a root with one of these entries, before a data block of one line, does not stand.
fn lead_nowhere(alloc: Global, entries: &[Entry]) -> Result<bool, Fail> {
    for entry in entries {
        let blocks = [Head(1), Pointers(&[*entry]), Lines(1, b"a")];
        if said_of(alloc, &blocks, usize::MAX)?.as_str() != NOT_STANDING {
            return Ok(false);
        }
    }
    Ok(true)
}

#[test]
fn no_number_of_an_entry_is_negative(rt: HostRuntime) -> Result<(), Fail> {
    let entries = [(-1, 1, 1), (2, -1, 1), (2, 1, -1)];
    assert!(rt; lead_nowhere(rt.alloc(), &entries)?);
    Ok(())
}

#[test]
fn every_number_of_an_entry_is_right(rt: HostRuntime) -> Result<(), Fail> {
    let entries = [(3, 1, 1), (2, 0, 1), (2, 1, 2), (2, 1, 0)];
    assert!(rt; lead_nowhere(rt.alloc(), &entries)?);
    Ok(())
}

#[test]
fn a_huge_number_leads_nowhere(rt: HostRuntime) -> Result<(), Fail> {
    let entries = [(i64::MAX, 1, 1), (2, i32::MAX, 1), (2, 1, i64::MAX)];
    assert!(rt; lead_nowhere(rt.alloc(), &entries)?);
    Ok(())
}

const KINDS: [Case; 4] = [
    (&[Marked(b"bC")], "encrypted"),
    (&[Marked(b"\0\0")], "closed"),
    (&[Bytes(b"text")], "closed"),
    (&[Bytes(b"b0VIM 9.0")], "no swap file"),
];

#[test]
fn page_0_says_what_a_file_is(rt: HostRuntime) -> Result<(), Fail> {
    assert!(rt; are_said(rt.alloc(), &KINDS)?);
    Ok(())
}
