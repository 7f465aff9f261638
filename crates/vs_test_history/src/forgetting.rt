// What a push forgets, in trees with branches.
use crate::histories::{Step, editor_after};
use crate::misfits::entry;
use std::process::Abort;
use std::test::Fail;
use vs_undo::UndoTree;

// Changes 1, 2 and 3, one after the other.
const LINE: [Step; 3] = [
    Step::Append(b"a\n", 7),
    Step::Append(b"b\n", 7),
    Step::Append(b"c\n", 7),
];

// Changes 1 and 2, one after the other; beside them 3.
const BESIDE: [Step; 4] = [
    Step::Append(b"a\n", 7),
    Step::Append(b"b\n", 7),
    Step::GoTo(0),
    Step::Append(b"c\n", 7),
];

// Changes 1 and 2, one after the other; 3 after 1.
const FORK: [Step; 4] = [
    Step::Append(b"a\n", 7),
    Step::Append(b"b\n", 7),
    Step::GoTo(1),
    Step::Append(b"c\n", 7),
];

// Changes 1, 2 and 3, one after the other; 4 and 5 beside 2 and 3; then back to 3.
const DEEP: [Step; 7] = [
    Step::Append(b"a\n", 7),
    Step::Append(b"b\n", 7),
    Step::Append(b"c\n", 7),
    Step::GoTo(0),
    Step::Append(b"d\n", 7),
    Step::Append(b"e\n", 7),
    Step::GoTo(3),
];

// A tree, how many changes may be kept when one more comes, what the oldest state was before, and the changes that are kept then,
// each with its parent.
type Row = (&'static [Step], u64, Option<u64>, &'static [(u64, u64)]);

const ROWS: [Row; 11] = [
    (&LINE, 4, None, &[(1, 0), (2, 1), (3, 2), (4, 3)]),
    (&LINE, 3, Some(1), &[(2, 0), (3, 2), (4, 3)]),
    (&LINE, 2, Some(2), &[(3, 0), (4, 3)]),
    (&LINE, 1, Some(3), &[(4, 0)]),
    (&BESIDE, 3, None, &[(3, 0), (4, 3)]),
    (&BESIDE, 1, Some(3), &[(4, 0)]),
    (&FORK, 3, Some(1), &[(2, 0), (3, 0), (4, 3)]),
    (&FORK, 2, Some(1), &[(3, 0), (4, 3)]),
    (&DEEP, 5, None, &[(1, 0), (2, 1), (3, 2), (6, 3)]),
    (&DEEP, 3, Some(1), &[(2, 0), (3, 2), (6, 3)]),
    (&DEEP, 1, Some(3), &[(6, 0)]),
];

fn is_kept_so(tree: &UndoTree, kept: &[(u64, u64)]) -> bool {
    let nodes = tree.parts().nodes.nodes();
    nodes.len() == kept.len()
        && nodes
            .iter()
            .zip(kept)
            .all(|(node, row)| node.number == row.0 && node.parent == row.1)
}

#[test]
fn a_push_forgets_the_oldest_states(rt: HostRuntime) -> Result<(), Fail> {
    let alloc = rt.alloc();
    for (steps, levels, root, kept) in ROWS {
        let mut tree = editor_after(alloc, b"", steps)?.tree;
        let pushed = tree.push(alloc, entry(alloc, 0, 2, 1)?, 7, levels.max(1));
        let pushed = pushed.ok().ok_or("there is memory for the change")?;
        assert!(rt; pushed.root == root, "{levels} {kept:?}");
        assert!(rt; is_kept_so(&tree, kept), "{levels} {kept:?}");
    }
    Ok(())
}
