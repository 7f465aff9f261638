// A move over five changes with a store each call of which fails in turn.
ghost use Rattle.std.specs.Prelude.{IfOk};
ghost use Rattle.vs_undo.specs.Moves.{IsReady};

use super::{Editor, Step, begin, file_of, take};
use std::alloc::{AllocError, Global};
use std::process::Abort;
use std::test::Fail;
use vs_edit::failing::FailingStore;
use vs_edit::{LineStore, VecStore};
use vs_undo::UndoErr;

fn start(alloc: Global) -> Result<Editor<FailingStore<VecStore>>, AllocError>
    ensures { IfOk result (λ editor. IsReady ⟦<FailingStore<VecStore> as LineStore>⟧ editor.tree editor.text) }
{
    begin(alloc, FailingStore::new(VecStore::new(alloc)?, 0))
}

// Whether six changes on one another, and then a move to the first, have their numbers.
fn grow<S: LineStore>(alloc: Global, editor: &mut Editor<S>) -> Result<bool, Fail>
    requires { IsReady S.LineStore editor.old.tree editor.old.text }
    ensures { IsReady S.LineStore editor.new.tree editor.new.text }
{
    for line in 0..6 {
        if take(alloc, editor, Step::Change(line, 0, 1, b'a'))? != line + 1 {
            return Ok(false);
        }
    }
    Ok(take(alloc, editor, Step::Goto(1))? == 1)
}

// A move over five changes, in which this call of the store fails.
fn move_failing(
    alloc: Global,
    editor: &mut Editor<FailingStore<VecStore>>,
    call: u64,
) -> Result<u64, UndoErr>
    requires { IsReady ⟦<FailingStore<VecStore> as LineStore>⟧ editor.old.tree editor.old.text }
    ensures { IsReady ⟦<FailingStore<VecStore> as LineStore>⟧ editor.new.tree editor.new.text }
{
    editor.text.calls = 0;
    editor.text.fails_at = call;
    let moved = take(alloc, editor, Step::Goto(6));
    editor.text.fails_at = 0;
    moved
}

// Whether this is the current state, and its text.
fn is_at<S: LineStore>(
    alloc: Global,
    editor: &mut Editor<S>,
    state: u64,
    file: &[u8],
) -> Result<bool, Fail>
    requires { IsReady S.LineStore editor.old.tree editor.old.text }
    ensures { IsReady S.LineStore editor.new.tree editor.new.text }
{
    let found = file_of(alloc, editor)?;
    Ok(editor.tree.current() == state && found.as_slice() == file)
}

// Whether a move over five changes has this call of the store. Where that fails, all is as before, and the move then succeeds.
fn fails_once(rt: &impl Abort, alloc: Global, call: u64) -> Result<bool, Fail> {
    let mut editor = start(alloc)?;
    assert!(rt; grow(alloc, &mut editor)?);
    let leaves = editor.tree.leaves(alloc)?;
    let moved = move_failing(alloc, &mut editor, call);
    if moved == Ok(6) {
        return Ok(false);
    }
    assert!(rt; moved == Err(UndoErr::Failed));
    assert!(rt; is_at(alloc, &mut editor, 1, b"a\n")?);
    assert!(rt; editor.tree.leaves(alloc)?.as_slice() == leaves.as_slice());
    assert!(rt; take(alloc, &mut editor, Step::Goto(6))? == 6);
    assert!(rt; is_at(alloc, &mut editor, 6, b"a\na\na\na\na\na\n")?);
    Ok(true)
}

#[test]
fn a_refused_move_changes_nothing(rt: HostRuntime) -> Result<(), Fail> {
    let alloc = rt.alloc();
    let mut failed = 0;
    for call in 1..100 {
        if !fails_once(&rt, alloc, call)? {
            break;
        }
        failed = call;
    }
    assert!(rt; failed >= 5);
    Ok(())
}
