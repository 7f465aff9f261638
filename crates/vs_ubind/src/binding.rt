// A history is taken with the text that it was made for.
ghost use Rattle.std.specs.Prelude.{◌≡◌, ℕ, List, IfErr, IfOk, IsErrOf, OnOk, max};
ghost use Rattle.std.specs.Bool.{Decides};
ghost use Rattle.vs_edit.specs.Calls.{Continues, OnlyReads, StopsAtFault};
ghost use Rattle.vs_edit.specs.State.{SameText};
ghost use Rattle.vs_undo.specs.History.{History, IsHistory};
ghost use Rattle.vs_undo.specs.Moves.{IsReady};
ghost use Rattle.vs_undo.specs.Sound.{IsSound};
ghost use Rattle.vs_outward.specs.Outward.{IsMisfit};
ghost use Rattle.vs_ufile.specs.Decode.{KeepsRules};
ghost use Rattle.vs_ufile.specs.Values.{history_of};
ghost use Rattle.vs_ubind.specs.Binding.{Carries, IsOfText, IsRefused};
ghost use Rattle.vs_ubind.specs.Bound.{IsBound};
ghost use Rattle.vs_ubind.specs.Meaning.{Means};

use crate::filing::narrow;
use crate::{digest, parts_of};
use std::alloc::{AllocError, Global};
use vs_edit::{LineStore, StoreErr};
use vs_outward::first_misfit;
use vs_ufile::FileHistory;
use vs_undo::UndoTree;

/// Why a history was not taken with a text.
#[derive(Clone, Copy, Debug, PartialEq, Eq)]
pub enum BindErr {
    /// The digest of the text is another one than that in the file.
    DigestDiffers { file: [u8; 32], text: [u8; 32] },
    /// The text has another number of lines, in its stored form, than the file says.
    LinesDiffer { file: u32, text: u64 },
    /// An entry of this change does not fit, and no change with a smaller number does not either.
    EntryDoesNotFit(u32),
    /// There was no memory.
    NoMemory,
    /// What the store stands on failed, and its count of faults rose.
    Failed,
}

impl From<AllocError> for BindErr {
    ghost use Rattle.std.specs.Prelude.{◌≡◌};
    ghost use Rattle.vs_ubind.specs.declared.binding.BindErr.TheVariants.{NoMemory};

    ghost from_gives = { λ _ e. e ≡ NoMemory };

    fn from(_: AllocError) -> Self {
        BindErr::NoMemory
    }
}

impl From<StoreErr> for BindErr {
    ghost use Rattle.std.specs.Prelude.{◌≡◌};
    ghost use Rattle.vs_ubind.specs.Binding.{bind_err};

    ghost from_gives = { λ s e. e ≡ bind_err s };

    fn from(error: StoreErr) -> Self {
        match error {
            StoreErr::NoMemory => BindErr::NoMemory,
            StoreErr::Failed => BindErr::Failed,
        }
    }
}

// Whether the digest in the file is that of the text.
fn is_same(file: &[u8; 32], own: &[u8; 32]) -> bool
    ensures { Decides result (file.now ≡ own.now) }
{
    file == own
}

// Compares the digest and the number of lines with those of the text.
fn compare<S: LineStore>(alloc: Global, history: &FileHistory, text: &mut S) -> Result<(), BindErr>
    requires { S.valid text.old }
    ensures same { OnOk result ((lines : List (List ℕ)) → (S.shows text.old).present.Is lines → IsOfText (history_of history.now) lines) }
    ensures count { OnOk result (history.now.lines ≡ max 1 (S.shows text.old).present.lines) }
    ensures refused { IfErr result (λ e. (lines : List (List ℕ)) → (S.shows text.old).present.Is lines → IsRefused (history_of history.now) lines e) }
    ensures carried { IfErr result (λ e. Carries (history_of history.now) (max 1 (S.shows text.old).present.lines) e) }
    ensures kept { OnlyReads S.LineStore text.old text.new }
    ensures cause { StopsAtFault S.LineStore (IsErrOf result BindErr.Failed) text.old text.new }
{
    let count = text.len().max(1);
    let own = digest(alloc, text)?;
    if !is_same(&history.digest, &own) {
        return Err(BindErr::DigestDiffers {
            file: history.digest,
            text: own,
        });
    }
    if history.lines as u64 != count {
        return Err(BindErr::LinesDiffer {
            file: history.lines,
            text: count,
        });
    }
    Ok(())
}

/// The tree that the data of an undo file stands for, taken with the text of its current state (docs/FORMATS.md, "Undo file").
///
/// The digest is compared first, then the number of lines; then the entries are applied outward from the text. The text is as
/// before on every answer.
pub fn bind<S: LineStore>(
    alloc: Global,
    history: &FileHistory,
    text: &mut S,
) -> Result<UndoTree, BindErr>
    requires rules { KeepsRules (history_of history.now) }
    requires valid { S.valid text.old }
    requires committed { SameText (S.shows text.old).present (S.shows text.old).committed }
    ensures sound { IfOk result (λ tree. IsSound tree) }
    ensures means { IfOk result (λ tree. Means (history_of history.now) tree) }
    ensures ready { IfOk result (λ tree. IsReady S.LineStore tree text.new) }
    ensures bound { IfOk result (λ tree. (lines : List (List ℕ)) (own : History) → (S.shows text.old).present.Is lines → IsHistory tree lines own
        → IsBound (history_of history.now) lines own) }
    ensures same { OnOk result ((lines : List (List ℕ)) → (S.shows text.old).present.Is lines → IsOfText (history_of history.now) lines) }
    ensures count { OnOk result (history.now.lines ≡ max 1 (S.shows text.old).present.lines) }
    ensures all_fit { IfOk result (λ tree. (lines : List (List ℕ)) → (S.shows text.old).present.Is lines → (number : ℕ) →
        IsMisfit tree lines number → ⊥) }
    ensures refused { IfErr result (λ e. (lines : List (List ℕ)) → (S.shows text.old).present.Is lines → IsRefused (history_of history.now) lines e) }
    ensures carried { IfErr result (λ e. Carries (history_of history.now) (max 1 (S.shows text.old).present.lines) e) }
    ensures present { SameText (S.shows text.old).present (S.shows text.new).present }
    ensures kept { Continues S.LineStore text.old text.new }
    ensures cause { StopsAtFault S.LineStore (IsErrOf result BindErr.Failed) text.old text.new }
{
    compare(alloc, history, text)?;
    let parts = parts_of(alloc, history)?;
    match first_misfit(alloc, &parts, text)? {
        Some(number) => Err(BindErr::EntryDoesNotFit(narrow(number)?)),
        None => Ok(UndoTree::of(parts)),
    }
}
