// The bytes of a session's undo file.
ghost use Rattle.std.specs.Prelude.{◌≡◌, IfOk, IsErrOf, IsTrue, List};
ghost use Rattle.vs_disk.specs.Faults.{NeverFalls};
ghost use Rattle.vs_ufile.specs.Decode.{IsWellFormed};
ghost use Rattle.vs_ufile.specs.Values.{history_of};
ghost use Rattle.vs_ubind.specs.Bound.{IsDataOf, history_next};
ghost use Rattle.vs_machine.specs.Machine.{State};
ghost use Rattle.vs_safety.specs.Texts.{Sync};
ghost use Rattle.vs_safety.specs.Undo.{IsUndoOf};
ghost use Rattle.vs_session.specs.Calls.{GoesOnReading, IsUsable, KeepsState};
ghost use Rattle.vs_session.specs.Fits.{Fits};
ghost use Rattle.vs_session.specs.Lent.{FitsWithUndo, IsLentWithUndo, KeepsLentWithUndo, KeepsWithUndo};
ghost use Rattle.vs_session.specs.Session.{SessionState};
ghost use Rattle.vs_session.specs.Standing.{FitsState, Stands};
ghost use Rattle.vs_session.specs.Work.{SameWork};

use crate::Session;
use std::alloc::Global;
use vs_edit::StoreErr;
use vs_host::Folder;
use vs_machine::UndoTree;
use vs_merge::MergedStore;
use vs_paged::PagedText;
use vs_pair::{PairPages, SwapPair};
use vs_tree::LineTree;
use vs_ubind::unbind;
use vs_ufile::{FileHistory, encode};

// The data of the undo file of a text in the pages of a pair.
fn unbind_in<F: Folder>(
    alloc: Global,
    tree: &mut LineTree,
    pair: &mut SwapPair,
    host: &mut F,
    history: &UndoTree,
    save_next: bool,
) -> Result<FileHistory, StoreErr>
    requires lent { IsLentWithUndo F.tells pair.old tree.old history.now (F.scene host.old).folder }
    ensures made { IfOk result (λ contents. IsTrue F.tells.folder → (state : State) → Stands pair.old (F.scene host.old).folder tree.old history.now state
        → IsDataOf (history_of contents) state.text (history_next save_next state.history)) }
    ensures formed { IfOk result (λ contents. IsWellFormed (history_of contents)) }
    ensures stands { IsTrue F.tells.folder → (state : State) → Stands pair.old (F.scene host.old).folder tree.old history.now state
        → Stands pair.new (F.scene host.new).folder tree.new history.now state }
    ensures kept { KeepsLentWithUndo F.tells (IsErrOf result StoreErr.Failed) pair.old pair.new tree.new history.now (F.scene host.old) (F.scene host.new) }
    ensures works { SameWork F.tells pair.old.pages pair.new.pages }
{
    let mut store = MergedStore {
        tree,
        pages: PairPages { pair, host },
    };
    unbind(alloc, history, &mut store, save_next)
}

// The data of the undo file of a text.
fn unbind_text<F: Folder>(
    alloc: Global,
    text: &mut PagedText,
    host: &mut F,
    history: &UndoTree,
    save_next: bool,
) -> Result<FileHistory, StoreErr>
    requires fits { FitsWithUndo F.tells text.old history.now (F.scene host.old).folder }
    ensures made { IfOk result (λ contents. IsTrue F.tells.folder → (state : State) (syncs : List Sync)
        → FitsState text.old history.now (F.scene host.old).folder state syncs
        → IsDataOf (history_of contents) state.text (history_next save_next state.history)) }
    ensures formed { IfOk result (λ contents. IsWellFormed (history_of contents)) }
    ensures fits { IsTrue F.tells.folder → (state : State) (syncs : List Sync) → FitsState text.old history.now (F.scene host.old).folder state syncs
        → FitsState text.new history.now (F.scene host.new).folder state syncs }
    ensures kept { KeepsWithUndo F.tells (IsErrOf result StoreErr.Failed) text.old text.new history.now (F.scene host.old) (F.scene host.new) }
    ensures works { SameWork F.tells text.old.pair.pages text.new.pair.pages }
{
    unbind_in(
        alloc,
        &mut text.tree,
        &mut text.pair,
        host,
        history,
        save_next,
    )
}

impl Session {
    /// The bytes of the undo file of the text with its history, as it is or as it will be after the next write. The folder is only
    /// looked at.
    pub(crate) fn undo_bytes<F: Folder>(
        &mut self,
        alloc: Global,
        host: &mut F,
        save_next: bool,
    ) -> Result<Vec<u8>, StoreErr>
        requires usable { IsUsable F.tells self.old (F.scene host.old).folder }
        ensures bytes { IfOk result (λ bytes. IsTrue F.tells.folder → (state : SessionState) (syncs : List Sync)
            → Fits self.old (F.scene host.old).folder state syncs
            → IsUndoOf state.machine.text (history_next save_next state.machine.history) bytes.items) }
        ensures fits { KeepsState F.tells self.old self.new (F.scene host.old).folder (F.scene host.new).folder }
        ensures kept { GoesOnReading F.tells (IsErrOf result StoreErr.Failed) self.old self.new (F.scene host.old) (F.scene host.new) }
        ensures counts { IsTrue F.tells.folder → NeverFalls (F.scene host.old) (F.scene host.new) }
        ensures works { SameWork F.tells self.old.text.pair.pages self.new.text.pair.pages }
    {
        let contents = unbind_text(alloc, &mut self.text, host, &self.history, save_next)?;
        let bytes = encode(alloc, &contents)?;
        Ok(bytes)
    }
}
