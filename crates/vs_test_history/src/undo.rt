// A tree and its text, moved by steps whose answers are known.
ghost use Rattle.std.specs.Prelude.{IfOk};
ghost use Rattle.vs_undo.specs.Moves.{IsReady};

mod failing;
mod generated;
mod plain;
mod rows;

use std::alloc::{AllocError, Global};
use std::test::Fail;
use vs_edit::{LineStore, StoreErr, allows_splice, text_of};
use vs_text::{Format, Line, from_stored, write_text};
use vs_undo::{Keep, UndoErr, UndoTree, change};

// One call on a tree and its text.
#[derive(Clone, Copy, Debug)]
enum Step {
    // So many lines, each of this byte, in the place of `old` lines from line `top` on.
    Change(u64, u64, u64, u8),
    Undo,
    Redo,
    Goto(u64),
    Earlier(u64),
    Later(u64),
    EarlierWrites(u64),
    LaterWrites(u64),
    Write,
    // From the next change on, so many changes are kept.
    Levels(u64),
}

/// A tree over its text, and how many changes are kept.
#[derive(Drop)]
pub struct Editor<S> {
    pub tree: UndoTree,
    pub text: S,
    pub levels: u64,
}

/// A history of one state, which is the text of the store.
pub(crate) fn begin<S: LineStore + Drop>(alloc: Global, text: S) -> Result<Editor<S>, AllocError>
    requires { S.valid text }
    ensures { IfOk result (λ editor. IsReady S.LineStore editor.tree editor.text) }
{
    let mut text = text;
    text.commit();
    let tree = UndoTree::new(alloc)?;
    Ok(Editor {
        tree,
        text,
        levels: 1_000,
    })
}

fn lines_of(alloc: Global, count: u64, byte: u8) -> Result<Vec<Line>, AllocError> {
    let mut lines = Vec::new(alloc);
    for _ in 0..count {
        let mut line = vec![in alloc; byte]?;
        from_stored(&mut line);
        lines.push(Line::from_vec(line))?;
    }
    Ok(lines)
}

fn splice<S: LineStore>(
    alloc: Global,
    editor: &mut Editor<S>,
    top: u64,
    old: u64,
    new: &[Line],
) -> Result<u64, UndoErr>
    requires { IsReady S.LineStore editor.old.tree editor.old.text }
    ensures { IsReady S.LineStore editor.new.tree editor.new.text }
{
    if !allows_splice(&editor.text, top, old, new) {
        return Err(UndoErr::NoMemory);
    }
    let keep = Keep {
        time: 7,
        levels: editor.levels.max(1),
    };
    let pushed = change(
        alloc,
        &mut editor.tree,
        &mut editor.text,
        top,
        old,
        new,
        keep,
    )?;
    Ok(pushed.number)
}

fn take<S: LineStore>(alloc: Global, editor: &mut Editor<S>, step: Step) -> Result<u64, UndoErr>
    requires { IsReady S.LineStore editor.old.tree editor.old.text }
    ensures { IsReady S.LineStore editor.new.tree editor.new.text }
{
    let tree = &mut editor.tree;
    let text = &mut editor.text;
    match step {
        Step::Change(top, old, count, byte) => {
            let new = lines_of(alloc, count, byte)?;
            splice(alloc, editor, top, old, &new)
        }
        Step::Undo => tree.back(alloc, text),
        Step::Redo => tree.forward(alloc, text),
        Step::Goto(number) => tree.goto(alloc, text, number),
        Step::Earlier(by) => tree.earlier(alloc, text, by.max(1)),
        Step::Later(by) => tree.later(alloc, text, by.max(1)),
        Step::EarlierWrites(by) => tree.earlier_writes(alloc, text, by.max(1)),
        Step::LaterWrites(by) => tree.later_writes(alloc, text, by.max(1)),
        Step::Write => Ok(tree.mark_write()),
        Step::Levels(levels) => {
            editor.levels = levels;
            Ok(levels)
        }
    }
}

fn file_of<S: LineStore>(alloc: Global, editor: &mut Editor<S>) -> Result<Vec<u8>, StoreErr>
    requires { IsReady S.LineStore editor.old.tree editor.old.text }
    ensures { IsReady S.LineStore editor.new.tree editor.new.text }
{
    let text = text_of(alloc, &mut editor.text)?;
    Ok(write_text(alloc, &text, Format::Unix)?)
}
