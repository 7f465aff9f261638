// Trees that the data of undo files stands for, of files with one number changed (docs/FORMATS.md, "Undo file").
ghost use Rattle.std.specs.Prelude.{IfOk};
ghost use Rattle.vs_ufile.specs.Decode.{KeepsRules};
ghost use Rattle.vs_ufile.specs.Values.{history_of};

use crate::histories::{Step, editor_after, file_of};
use std::alloc::Global;
use std::process::Abort;
use std::test::Fail;
use vs_ubind::parts_of;
use vs_ufile::{FileHistory, decode};
use vs_undo::Parts;

// Changes 1 and 2, one after the other, and 3 and 4 beside 2; then back to 3. Change 4 has save number 1. The chain is 3, 4, 2.
const BRANCHES: [Step; 8] = [
    Step::Append(b"a\n", 11),
    Step::Append(b"b\n", 12),
    Step::GoTo(1),
    Step::Append(b"c\n", 13),
    Step::GoTo(1),
    Step::Append(b"d\n", 14),
    Step::Write,
    Step::GoTo(3),
];

// The bytes of the undo file of that tree.
pub(crate) fn branches_file(alloc: Global) -> Result<Vec<u8>, Fail> {
    let mut editor = editor_after(alloc, b"", &BRANCHES)?;
    file_of(alloc, &mut editor)
}

// The file that these bytes are.
pub(crate) fn read(alloc: Global, bytes: &[u8]) -> Result<FileHistory, Fail>
    ensures { IfOk result (λ history. KeepsRules (history_of history)) }
{
    match decode(alloc, bytes) {
        Ok(history) => Ok(history),
        Err(_) => Err(Fail::new("it is an undo file")),
    }
}

// Where the changes stand in the file of that tree, and the whole file ends. Their entries take 22, 23, 18 and 23 bytes.
pub const CHANGES: [usize; 4] = [98, 521, 945, 1364];

const END: usize = 1790;

// Where a change has the links next and prev, and its save number.
const NEXT: usize = 2;

const PREV: usize = 6;

const SAVE: usize = 394;

// Where the header has the newest change, the current head and the last number.
const NEWEST: usize = 63;

const HEAD: usize = 67;

const LAST: usize = 75;

// What a tree has of a change: its number, its parent, its child last used and its save number.
type Row = [u64; 4];

const ROWS: [Row; 4] = [[1, 0, 3, 0], [2, 1, 0, 0], [3, 1, 0, 0], [4, 1, 0, 1]];

const SAVED: [Row; 4] = [[1, 0, 3, 0], [2, 1, 0, 2], [3, 1, 0, 0], [4, 1, 0, 1]];

// What is changed in the file, where, and to which number; and the tree then: its changes, the current state, the last number and the last save
// number.
type Case = (&'static str, usize, u32, &'static [Row], [u64; 3]);

const CASES: [Case; 10] = [
    ("as it was written", CHANGES[0] + NEXT, 0, &ROWS, [3, 4, 1]),
    (
        "next of a later change of a chain",
        CHANGES[1] + NEXT,
        3,
        &ROWS,
        [3, 4, 1],
    ),
    (
        "a save number that a greater number has",
        CHANGES[1] + SAVE,
        1,
        &ROWS,
        [3, 4, 1],
    ),
    (
        "a save number above the field",
        CHANGES[1] + SAVE,
        2,
        &SAVED,
        [3, 4, 2],
    ),
    ("prev", CHANGES[0] + PREV, 0, &ROWS, [3, 4, 1]),
    ("a last number below the numbers", LAST, 2, &ROWS, [3, 4, 1]),
    ("a last number above the numbers", LAST, 9, &ROWS, [3, 9, 1]),
    (
        "the current head at the oldest change",
        HEAD,
        1,
        &ROWS,
        [0, 4, 1],
    ),
    (
        "the current head later in its chain",
        HEAD,
        2,
        &ROWS,
        [1, 4, 1],
    ),
    ("the newest change", NEWEST, 4, &ROWS, [4, 4, 1]),
];

// Puts a number into four bytes.
pub(crate) fn put(bytes: &mut [u8], at: usize, number: u32) {
    for (i, byte) in number.to_be_bytes().iter().enumerate() {
        if let Some(slot) = bytes.get_mut(at.saturating_add(i)) {
            *slot = *byte;
        }
    }
}

// Whether the tree has these changes and this state.
fn is_tree(parts: &Parts, rows: &[Row], state: [u64; 3]) -> bool {
    let nodes = parts.nodes.nodes();
    let changes = nodes.len() == rows.len()
        && nodes.iter().zip(rows.iter()).all(|(node, row)| {
            [node.number, node.parent, node.last_child, node.save] == *row
                && node.entries.entries().len() == 1
        });
    changes && parts.root_child == 1 && [parts.current, parts.last, parts.last_save] == state
}

// The tree of the file, with this number in the place of its own.
fn changed_tree(alloc: Global, file: &[u8], at: usize, number: u32) -> Result<Parts, Fail> {
    let mut changed = Vec::from_slice(alloc, file)?;
    put(&mut changed, at, number);
    let history = read(alloc, &changed)?;
    Ok(parts_of(alloc, &history)?)
}

#[test]
fn each_number_of_a_file_counts_as_the_format_says(rt: HostRuntime) -> Result<(), Fail> {
    let alloc = rt.alloc();
    let file = branches_file(alloc)?;
    assert!(rt; file.len() == END);
    for (name, at, number, rows, state) in CASES {
        let parts = changed_tree(alloc, &file, at, number)?;
        assert!(rt; is_tree(&parts, rows, state), "{name}");
    }
    Ok(())
}
