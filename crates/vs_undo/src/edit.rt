// A change of the text that goes into the history.
ghost use Rattle.std.specs.Prelude.{◌≡◌, ◌+◌, ◌<◌, ◌≤◌, IfErr, IfOk, OnOk};
ghost use Rattle.vs_edit.specs.State.{AllowsSplice};
ghost use Rattle.vs_undo.specs.Errors.{IsMoveErr};
ghost use Rattle.vs_undo.specs.Forgetting.{root_kept};
ghost use Rattle.vs_undo.specs.History.{links_of};
ghost use Rattle.vs_undo.specs.Moves.{HasChanged, IsAtomic, IsReady};

use crate::{Keep, MAX_NUMBER, Pushed, UndoErr, UndoTree};
use std::alloc::Global;
use vs_edit::LineStore;
use vs_entries::{EditErr, entry_of_splice};
use vs_text::Line;

/// Puts new lines in the place of `old` lines from line `top` on, counted from 0, commits the text and keeps the change in the
/// tree. Then the oldest states are forgotten while more changes are kept than there may be.
///
/// After an `Err` tree and text are as before.
pub fn change<S: LineStore>(
    alloc: Global,
    tree: &mut UndoTree,
    text: &mut S,
    top: u64,
    old: u64,
    new: &[Line],
    keep: Keep,
) -> Result<Pushed, UndoErr>
    requires ready { IsReady S.LineStore tree.old text.old }
    requires allowed { AllowsSplice (S.shows text.old).present top old new.now }
    requires some { 1 ≤ keep.levels }
    ensures number { IfOk result (λ pushed. pushed.number ≡ tree.old.last + 1) }
    ensures root { IfOk result (λ pushed. pushed.root ≡ root_kept keep (links_of tree.old)) }
    ensures room { OnOk result (tree.old.last < MAX_NUMBER) }
    ensures changed { OnOk result (HasChanged S.LineStore tree.old tree.new text.old text.new top old new.now keep) }
    ensures err { IfErr result (IsMoveErr UndoErr.NumbersFull (MAX_NUMBER ≤ tree.old.last)) }
    ensures atomic { IsAtomic S.LineStore tree.old tree.new text.old text.new UndoErr.Failed result }
{
    let back = match entry_of_splice(alloc, text, top, old, new.len() as u64) {
        Ok(back) => back,
        Err(EditErr::Failed) => return Err(UndoErr::Failed),
        Err(_) => return Err(UndoErr::NoMemory),
    };
    text.splice(alloc, top, old, new)?;
    match tree.push(alloc, back, keep.time, keep.levels) {
        Ok(pushed) => {
            text.commit();
            Ok(pushed)
        }
        Err(error) => {
            text.rollback();
            Err(error)
        }
    }
}
