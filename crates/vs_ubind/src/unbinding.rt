// The data of an undo file for a tree at its text.
ghost use Rattle.std.specs.Prelude.{◌≡◌, ℕ, List, IfOk, IsErrOf, max};
ghost use Rattle.vs_edit.specs.Calls.{OnlyReads, StopsAtFault};
ghost use Rattle.vs_undo.specs.History.{History, IsHistory};
ghost use Rattle.vs_undo.specs.Moves.{IsReady};
ghost use Rattle.vs_ufile.specs.Decode.{IsWellFormed};
ghost use Rattle.vs_ufile.specs.Values.{history_of};
ghost use Rattle.vs_ubind.specs.Bound.{history_next, IsDataOf};
ghost use Rattle.vs_ubind.specs.Digest.{digest_of};
ghost use Rattle.vs_ubind.specs.Meaning.{Means};
ghost use Rattle.vs_ubind.specs.Unbound.{filed, with_next};

use crate::digest;
use crate::filing::{file_tree, narrow};
use std::alloc::Global;
use vs_edit::{LineStore, StoreErr};
use vs_ufile::FileHistory;
use vs_undo::UndoTree;

/// The data of an undo file for a tree at its text (docs/FORMATS.md, "Undo file"); with `save_next` as it will be after the
/// next [`UndoTree::mark_write`].
pub fn unbind<S: LineStore>(
    alloc: Global,
    tree: &UndoTree,
    text: &mut S,
    save_next: bool,
) -> Result<FileHistory, StoreErr>
    requires { IsReady S.LineStore tree.now text.old }
    ensures digest { IfOk result (λ contents. (lines : List (List ℕ)) → (S.shows text.old).present.Is lines → contents.digest ≡ digest_of lines) }
    ensures contents { IfOk result
        (λ contents. history_of contents ≡ filed contents.digest (max 1 (S.shows text.old).present.lines) (with_next save_next tree.now)) }
    ensures means { IfOk result (λ contents. Means (history_of contents) (with_next save_next tree.now)) }
    ensures made { IfOk result (λ contents. (lines : List (List ℕ)) (history : History) → (S.shows text.old).present.Is lines →
        IsHistory tree.now lines history
        → IsDataOf (history_of contents) lines (history_next save_next history)) }
    ensures formed { IfOk result (λ contents. IsWellFormed (history_of contents)) }
    ensures kept { OnlyReads S.LineStore text.old text.new }
    ensures cause { StopsAtFault S.LineStore (IsErrOf result StoreErr.Failed) text.old text.new }
{
    let lines = narrow(text.len().max(1))?;
    let digest = digest(alloc, text)?;
    let contents = file_tree(alloc, tree.parts(), save_next, digest, lines)?;
    Ok(contents)
}
