// Trees that are tried over their own text and over others.
use crate::histories::{Step, editor_after};
use std::alloc::{AllocError, Global};
use std::process::Abort;
use std::test::Fail;
use vs_entries::Entry;
use vs_outward::first_misfit;
use vs_pieces::EndedLines;
use vs_text::from_stored;
use vs_undo::UndoTree;

// The least change that does not fit the text of a file.
fn misfit_over(alloc: Global, tree: &UndoTree, bytes: &[u8]) -> Result<Option<u64>, Fail> {
    let mut other = editor_after(alloc, bytes, &[])?;
    let found = first_misfit(alloc, tree.parts(), &mut other.text);
    Ok(found.ok().ok_or("there is memory for the search")?)
}

// Changes 1 and 2 put lines behind line 2, one after the other; change 3 does so beside them, and 4 after 3. The text is that of
// state 0.
const TWO_BRANCHES: [Step; 6] = [
    Step::Append(b"c\n", 7),
    Step::Append(b"d\n", 7),
    Step::GoTo(0),
    Step::Append(b"e\n", 7),
    Step::Append(b"f\n", 7),
    Step::GoTo(0),
];

#[test]
fn a_tree_fits_its_text_and_not_a_shorter_one(rt: HostRuntime) -> Result<(), Fail> {
    let alloc = rt.alloc();
    let tree = editor_after(alloc, b"a\nb\n", &TWO_BRANCHES)?.tree;
    assert!(rt; misfit_over(alloc, &tree, b"a\nb\n")? == None);
    assert!(rt; misfit_over(alloc, &tree, b"a\n")? == Some(1));
    Ok(())
}

pub(crate) fn entry(
    alloc: Global,
    top: u64,
    bottom: u64,
    length: usize,
) -> Result<Entry, AllocError> {
    let mut line = vec![in alloc; b'x'; length]?;
    from_stored(&mut line);
    let mut lines = EndedLines::new(alloc);
    lines.push(&line)?;
    Ok(Entry {
        top,
        bottom,
        lines,
        empty: false,
    })
}

// What leads back from state 1, and from state 2, which is current: top, bottom, and the length of the one line; and the change that
// does not fit the text of two lines.
const ROWS: [((u64, u64, usize), (u64, u64, usize), Option<u64>); 6] = [
    ((0, 2, 1), (0, 0, 1), None),
    ((1, 3, 1), (0, 0, 1), Some(1)),
    ((0, 2, 1), (2, 4, 1), Some(2)),
    ((1, 3, 1), (2, 4, 1), Some(2)),
    ((0, 2, 1_048_577), (0, 0, 1), Some(1)),
    ((0, 2, 1_048_576), (0, 3, 1), None),
];

#[test]
fn an_entry_past_the_end_or_a_long_line_does_not_fit(rt: HostRuntime) -> Result<(), Fail> {
    let alloc = rt.alloc();
    for (first, second, expected) in ROWS {
        let mut tree = UndoTree::new(alloc)?;
        let one = tree.push(alloc, entry(alloc, first.0, first.1, first.2)?, 7, u64::MAX);
        one.ok().ok_or("there is memory for the change")?;
        let two = tree.push(
            alloc,
            entry(alloc, second.0, second.1, second.2)?,
            7,
            u64::MAX,
        );
        two.ok().ok_or("there is memory for the change")?;
        assert!(rt;
            misfit_over(alloc, &tree, b"a\nb\n")? == expected,
            "{first:?} {second:?}"
        );
    }
    Ok(())
}
