// A move over five changes by a command, over a store each call of which fails in turn.
ghost use Rattle.std.specs.Prelude.{IfOk};
ghost use Rattle.vs_undo.specs.Moves.{IsReady};

use crate::plans::block_of;
use std::alloc::{AllocError, Global};
use std::process::Abort;
use std::test::Fail;
use vs_edit::failing::FailingStore;
use vs_edit::{LineStore, StoreErr, VecStore};
use vs_exparse::{Parsed, parse};
use vs_machine::{Keep, Reply, Request, UndoTree, answer};

/// A text with its undo tree, for which the machine is asked.
#[derive(Drop)]
struct Editor<S> {
    tree: UndoTree,
    text: S,
}

/// The editor of the text that a store has.
fn open<S: LineStore + Drop>(alloc: Global, text: S) -> Result<Editor<S>, AllocError>
    requires { S.valid text }
    ensures { IfOk result (λ editor. IsReady S.LineStore editor.tree editor.text) }
{
    let mut text = text;
    text.commit();
    let tree = UndoTree::new(alloc)?;
    Ok(Editor { tree, text })
}

/// The reply to a command line, with a line `a` as its block where it takes one, and the cursor in the first line.
fn ask<S: LineStore>(
    rt: &impl Abort,
    alloc: Global,
    editor: &mut Editor<S>,
    line: &[u8],
) -> Result<Reply, StoreErr>
    requires { IsReady S.LineStore editor.old.tree editor.old.text }
    ensures { IsReady S.LineStore editor.new.tree editor.new.text }
{
    let Ok(Parsed::Command(command)) = parse(line) else {
        panic!(rt; "{line:?} is no command")
    };
    let Ok(block) = block_of(alloc, &command, b"a\n") else {
        return Err(StoreErr::NoMemory);
    };
    let request = Request {
        parsed: Ok(command),
        block,
    };
    let text = &mut editor.text;
    let cursor = text.len().min(1);
    let keep = Keep {
        time: 7,
        levels: 1000,
    };
    let answered = answer(alloc, text, &mut editor.tree, cursor, &request, keep)?;
    Ok(answered.reply)
}

/// A command line and the reply.
#[derive(Clone, Copy)]
struct Step {
    line: &'static [u8],
    reply: &'static [u8],
}

/// Steps, each as `line => reply`.
macro_rules! steps {
    ($($line:literal => $reply:literal;)+) => {
        &[$(Step { line: $line, reply: $reply }),+]
    };
}

fn check_steps<S: LineStore>(
    rt: &impl Abort,
    alloc: Global,
    editor: &mut Editor<S>,
    steps: &[Step],
) -> Result<(), Fail>
    requires { IsReady S.LineStore editor.old.tree editor.old.text }
    ensures { IsReady S.LineStore editor.new.tree editor.new.text }
{
    for step in steps {
        let reply = ask(rt, alloc, editor, step.line)?;
        assert!(rt; reply.bytes() == step.reply, "{:?}", step.line);
    }
    Ok(())
}

// Six changes on one another, each of which adds a line, and a move to the first.
const GROWTH: &[Step] = steps![
    b"i" => b"change 1, 1 lines\n";
    b"co$" => b"change 2, 2 lines\n";
    b"co$" => b"change 3, 3 lines\n";
    b"co$" => b"change 4, 4 lines\n";
    b"co$" => b"change 5, 5 lines\n";
    b"co$" => b"change 6, 6 lines\n";
    b"undo 1" => b"at 1, 1 lines\n";
];

const LAST: &[u8] = b"undo 6";

// After a move that failed all is as before, and the move then succeeds.
const AFTER: &[Step] = steps![
    b"undolist" => b"number changes saved\n     6       6     -\n";
    b"%p" => b"a\n";
    b"undo 6" => b"at 6, 6 lines\n";
];

// Whether a move over five changes has this call of the store, which then fails.
fn fails_once(rt: &impl Abort, alloc: Global, call: u64) -> Result<bool, Fail> {
    let mut editor = open(alloc, FailingStore::new(VecStore::new(alloc)?, 0))?;
    check_steps(rt, alloc, &mut editor, GROWTH)?;
    editor.text.calls = 0;
    editor.text.fails_at = call;
    let moved = ask(rt, alloc, &mut editor, LAST);
    editor.text.fails_at = 0;
    if moved.is_ok() {
        return Ok(false);
    }
    assert!(rt; moved.err() == Some(StoreErr::Failed));
    assert!(rt; editor.tree.current() == 1);
    check_steps(rt, alloc, &mut editor, AFTER)?;
    Ok(true)
}

#[test]
fn a_move_that_fails_changes_nothing(rt: HostRuntime) -> Result<(), Fail> {
    let alloc = rt.alloc();
    let mut failed = 0;
    for call in 1..100 {
        if !fails_once(&rt, alloc, call)? {
            break;
        }
        failed = call;
    }
    assert!(rt; failed >= 5);
    Ok(())
}
