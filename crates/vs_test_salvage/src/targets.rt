// Where entries lead, and the order in which the entries of a block are taken.
use std::process::Abort;
use std::test::Fail;
use vs_damaged::{Target, push_entries, target_of};
use vs_ptr::{PtrEntry, PtrView};

// The block number, line count, old line number and page count of an entry, and where it leads.
type Row = (i64, i64, i64, i32, Target);

const ROWS: [Row; 10] = [
    (-1, 2, 1, 1, Target::Original(Some(0), 2)),
    (
        -0x8000_0000_0000_0000,
        2,
        7,
        0,
        Target::Original(Some(6), 2),
    ),
    (
        -1,
        -1,
        0x7fff_ffff_ffff_ffff,
        1,
        Target::Original(Some(0x7fff_ffff_ffff_fffe), 0),
    ),
    (-1, 2, 0, 1, Target::Original(None, 2)),
    (-1, 2, -1, 1, Target::Original(None, 2)),
    (0, 2, 1, 1, Target::Block(0, 1)),
    (
        0x7fff_ffff_ffff_ffff,
        -1,
        -1,
        0x7fff_ffff,
        Target::Block(0x7fff_ffff_ffff_ffff, 0x7fff_ffff),
    ),
    (2, 2, 1, 0, Target::Nothing),
    (2, 2, 1, -1, Target::Nothing),
    (2, 2, 1, -0x8000_0000, Target::Nothing),
];

#[test]
fn where_entries_lead(rt: HostRuntime) -> Result<(), Fail> {
    for (block, lines, old, pages, target) in &ROWS {
        let entry = PtrEntry {
            block: *block,
            lines: *lines,
            old: *old,
            pages: *pages,
        };
        assert!(rt; target_of(&entry) == *target);
    }
    Ok(())
}

// The entry of a block of one page with one line.
fn entry(block: i64) -> PtrEntry {
    PtrEntry {
        block,
        lines: 1,
        old: 1,
        pages: 1,
    }
}

#[test]
fn entries_come_before_those_that_are_left(rt: HostRuntime) -> Result<(), Fail> {
    let mut block = vec![in rt.alloc(); 0u8; 4096]?;
    let mut view = PtrView::fresh(&mut block);
    view.insert(&mut block, 0, &entry(2));
    view.insert(&mut block, 1, &entry(3));
    let mut left = Vec::new(rt.alloc());
    left.push(entry(4))?;
    push_entries(&mut left, &view, &block)?;
    for block in 2..5 {
        assert!(rt; left.pop().map(|entry| entry.block) == Some(block));
    }
    assert!(rt; left.is_empty());
    Ok(())
}
