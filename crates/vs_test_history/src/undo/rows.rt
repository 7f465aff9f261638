// Histories that are written out step by step, with what each step answers.
ghost use Rattle.std.specs.Prelude.{IfOk};
ghost use Rattle.vs_undo.specs.Moves.{IsReady};

use super::{Editor, Step, begin, file_of, take};
use std::alloc::{AllocError, Global};
use std::process::Abort;
use std::test::Fail;
use vs_edit::{LineStore, VecStore};
use vs_undo::{Leaf, UndoErr, UndoTree};

type Row = (Step, Result<u64, UndoErr>, &'static [u8]);

fn start(alloc: Global) -> Result<Editor<VecStore>, AllocError>
    ensures { IfOk result (λ editor. IsReady ⟦<VecStore as LineStore>⟧ editor.tree editor.text) }
{
    begin(alloc, VecStore::new(alloc)?)
}

// Whether the step gives its answer, and then its text.
fn is_row<S: LineStore>(alloc: Global, editor: &mut Editor<S>, row: &Row) -> Result<bool, Fail>
    requires { IsReady S.LineStore editor.old.tree editor.old.text }
    ensures { IsReady S.LineStore editor.new.tree editor.new.text }
{
    let (step, answer, file) = row;
    let found = take(alloc, editor, *step);
    let text = file_of(alloc, editor)?;
    Ok(found == *answer && text.as_slice() == *file)
}

fn play<S: LineStore>(
    rt: &impl Abort,
    alloc: Global,
    editor: &mut Editor<S>,
    rows: &[Row],
) -> Result<(), Fail>
    requires { IsReady S.LineStore editor.old.tree editor.old.text }
    ensures { IsReady S.LineStore editor.new.tree editor.new.text }
{
    for row in rows {
        assert!(rt; is_row(alloc, editor, row)?, "{:?}", row.0);
    }
    Ok(())
}

const LEAVES: [Leaf; 2] = [
    Leaf {
        number: 3,
        changes: 3,
        save: 0,
    },
    Leaf {
        number: 4,
        changes: 2,
        save: 0,
    },
];

// Whether the tree has these leaves, and its four changes alone.
fn has_leaves(alloc: Global, tree: &UndoTree) -> Result<bool, Fail> {
    let leaves = tree.leaves(alloc)?;
    let four = tree.kept(4) && !tree.kept(5) && tree.parts().nodes.nodes().len() == 4;
    Ok(four && leaves.as_slice() == LEAVES.as_slice())
}

// Three changes on one another, then one on the first, and the ways between.
#[test]
fn goes_the_way_to_a_state(rt: HostRuntime) -> Result<(), Fail> {
    let alloc = rt.alloc();
    let mut editor = start(alloc)?;
    let rows: [Row; 12] = [
        (Step::Change(0, 0, 1, b'a'), Ok(1), b"a\n"),
        (Step::Change(1, 0, 1, b'b'), Ok(2), b"a\nb\n"),
        (Step::Change(2, 0, 1, b'c'), Ok(3), b"a\nb\nc\n"),
        (Step::Goto(1), Ok(1), b"a\n"),
        (Step::Change(1, 0, 1, b'd'), Ok(4), b"a\nd\n"),
        (Step::Goto(3), Ok(3), b"a\nb\nc\n"),
        (Step::Redo, Err(UndoErr::AtNewest), b"a\nb\nc\n"),
        (Step::Goto(9), Err(UndoErr::NotKept(9)), b"a\nb\nc\n"),
        (Step::Earlier(2), Ok(1), b"a\n"),
        (Step::Redo, Ok(2), b"a\nb\n"),
        (Step::Later(1), Ok(3), b"a\nb\nc\n"),
        (Step::Later(9), Ok(4), b"a\nd\n"),
    ];
    play(&rt, alloc, &mut editor, &rows)?;
    assert!(rt; has_leaves(alloc, &editor.tree)?);
    Ok(())
}

// The text without lines comes back as it was, and so does one empty line.
#[test]
fn undoes_to_the_text_without_lines(rt: HostRuntime) -> Result<(), Fail> {
    let alloc = rt.alloc();
    let mut editor = start(alloc)?;
    let rows: [Row; 7] = [
        (Step::Change(0, 0, 1, b'x'), Ok(1), b"x\n"),
        (Step::Undo, Ok(0), b""),
        (Step::Undo, Err(UndoErr::AtOldest), b""),
        (Step::Redo, Ok(1), b"x\n"),
        (Step::Change(0, 1, 0, b'y'), Ok(2), b""),
        (Step::Undo, Ok(1), b"x\n"),
        (Step::Earlier(1), Ok(0), b""),
    ];
    play(&rt, alloc, &mut editor, &rows)
}

// A state's own save number does not count, and the state of save number 1 has none below it.
#[test]
fn goes_by_save_numbers(rt: HostRuntime) -> Result<(), Fail> {
    let alloc = rt.alloc();
    let mut editor = start(alloc)?;
    let rows: [Row; 10] = [
        (Step::Change(0, 0, 1, b'b'), Ok(1), b"b\n"),
        (Step::Change(1, 0, 1, b'c'), Ok(2), b"b\nc\n"),
        (Step::Write, Ok(1), b"b\nc\n"),
        (Step::Undo, Ok(1), b"b\n"),
        (Step::Write, Ok(2), b"b\n"),
        (Step::EarlierWrites(1), Ok(2), b"b\nc\n"),
        (Step::EarlierWrites(1), Ok(0), b""),
        (Step::EarlierWrites(1), Err(UndoErr::AtOldest), b""),
        (Step::LaterWrites(1), Ok(2), b"b\nc\n"),
        (Step::LaterWrites(2), Err(UndoErr::AtNewest), b"b\nc\n"),
    ];
    play(&rt, alloc, &mut editor, &rows)?;
    assert!(rt; editor.tree.current() == 2);
    assert!(rt; editor.tree.last() == 2);
    Ok(())
}
