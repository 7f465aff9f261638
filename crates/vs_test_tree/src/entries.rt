// Entries of a pointer block, by hand.
use std::test::Fail;
use vs_tree_shape::{Entry, count_lines, find_place, replace_entry};

const ENTRIES: [Entry; 3] = [
    Entry {
        block: 2,
        pages: 1,
        lines: 3,
    },
    Entry {
        block: 7,
        pages: 4,
        lines: 0,
    },
    Entry {
        block: 3,
        pages: 1,
        lines: 2,
    },
];

#[test]
fn lines_are_found_in_the_entries_that_have_them(rt: HostRuntime) {
    for (at, wanted) in [(0, (0, 0)), (2, (0, 2)), (3, (2, 0)), (4, (2, 1))] {
        let place = find_place(&ENTRIES, at);
        assert!(rt; (place.index, place.rest) == wanted, "line {at}");
    }
}

#[test]
fn lines_are_counted_where_the_sum_fits(rt: HostRuntime) {
    assert!(rt; count_lines(&ENTRIES) == Some(5));
    let full = Entry {
        block: 1,
        pages: 1,
        lines: u64::MAX,
    };
    assert!(rt; count_lines(&[full]) == Some(u64::MAX));
    assert!(rt; count_lines(&[full, ENTRIES[0]]).is_none());
}

#[test]
fn an_entry_gives_way_to_others(rt: HostRuntime) -> Result<(), Fail> {
    let all = replace_entry(rt.alloc(), &ENTRIES, 1, &[ENTRIES[2], ENTRIES[0]])?;
    let blocks = [2, 3, 2, 3];
    assert!(rt; all.len() == 4);
    for (entry, block) in all.iter().zip(blocks) {
        assert!(rt; entry.block == block);
    }
    Ok(())
}
