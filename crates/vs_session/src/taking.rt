// The undo file of a session is read, and its history is bound to the text.
ghost use Rattle.std.specs.Prelude.{◌≡◌, ℕ, Err, IfErr, IfOk, IsErrOf, IsSomeAnd, IsTrue, List, Ok, Some, length, max};
ghost use Rattle.vs_host.specs.World.{content_of};
ghost use Rattle.vs_undo.specs.History.{FitsCount, History, IsHistory};
ghost use Rattle.vs_ufile.specs.Decode.{IsUndoFile, KeepsRules};
ghost use Rattle.vs_ufile.specs.Values.{history_of};
ghost use Rattle.vs_safety.specs.Texts.{Sync, Text};
ghost use Rattle.vs_paged.specs.Fits as paged;
ghost use Rattle.vs_session.specs.Calls.{FitsFolder, KeepsState, OnlyReads};
ghost use Rattle.vs_session.specs.Fits.{Fits, FitsUndo, SameFile, generation_of, names_of};
ghost use Rattle.vs_session.specs.Lent.{KeepsText};
ghost use Rattle.vs_session.specs.Session.{SessionState};
ghost use Rattle.vs_session.specs.Taken.{IsTaken};
ghost use Rattle.vs_session.specs.Work.{SameWork};

use crate::Session;
use crate::binding::bind_text;
use std::alloc::Global;
use vs_host::{Folder, Names};
use vs_machine::UndoTree;
use vs_paged::PagedText;
use vs_ubind::{BindErr, LoadErr, load};
use vs_ufile::{FileHistory, UfErr};

/// Why no history is taken from an undo file.
#[derive(Clone, Copy, Debug, PartialEq, Eq)]
pub enum TakeErr {
    /// There is no undo file.
    NoFile,
    /// The file is no undo file.
    Unreadable(UfErr),
    /// It was made for another text.
    OtherText,
    /// An entry of this change does not fit the text, and no change with a smaller number does not either.
    Misfit(u32),
    /// There was no memory.
    NoMemory,
    /// A call on the folder failed.
    Failed,
}

/// A history that was taken.
#[derive(Drop)]
pub struct Taken {
    pub tree: UndoTree,
    /// The number of its changes.
    pub changes: u64,
}

// The data of the undo file.
fn load_undo<F: Folder>(alloc: Global, host: &mut F, names: &Names) -> Result<FileHistory, TakeErr>
    ensures found { IfOk result (λ contents. IsTrue F.tells.folder
        → IsSomeAnd (content_of (F.scene host.old) names.now.undo) (IsUndoFile (history_of contents))) }
    ensures rules { IfOk result (λ contents. KeepsRules (history_of contents)) }
    ensures refused { IfErr result (λ error. IsTrue F.tells.folder → (text : Text) →
        IsTaken text (content_of (F.scene host.old) names.now.undo) (Err error)) }
    ensures reads { OnlyReads F.tells (IsErrOf result TakeErr.Failed) (F.scene host.old) (F.scene host.new) }
{
    match load(alloc, host, names) {
        Ok(contents) => Ok(contents),
        Err(LoadErr::NoFile) => Err(TakeErr::NoFile),
        Err(LoadErr::Unreadable(error)) => Err(TakeErr::Unreadable(error)),
        Err(LoadErr::NoMemory) => Err(TakeErr::NoMemory),
        Err(LoadErr::Failed) => Err(TakeErr::Failed),
    }
}

// The tree that this data stands for at a text.
fn bind_undo<F: Folder>(
    alloc: Global,
    text: &mut PagedText,
    host: &mut F,
    contents: &FileHistory,
) -> Result<UndoTree, TakeErr>
    requires rules { KeepsRules (history_of contents.now) }
    requires fits { paged.FitsFolder F.tells text.old (F.scene host.old).folder }
    ensures taken { IfOk result (λ undo. IsTrue F.tells.folder → (lines : Text) (syncs : List Sync) (bytes : List ℕ)
        → paged.Fits text.old (F.scene host.old).folder lines syncs
        → IsUndoFile (history_of contents.now) bytes
        → (history : History) × IsTaken lines (Some bytes) (Ok history) × IsHistory undo lines history
        × (length contents.now.changes.items ≡ length history.links.nodes)) }
    ensures refused { IfErr result (λ error. IsTrue F.tells.folder → (lines : Text) (syncs : List Sync) (bytes : List ℕ)
        → paged.Fits text.old (F.scene host.old).folder lines syncs
        → IsUndoFile (history_of contents.now) bytes → IsTaken lines (Some bytes) (Err error)) }
    ensures counts { IfOk result (λ undo. FitsCount undo (max 1 text.new.tree.present.lines)) }
    ensures kept { KeepsText F.tells (IsErrOf result TakeErr.Failed) text.old text.new (F.scene host.old) (F.scene host.new) }
    ensures works { SameWork F.tells text.old.pair.pages text.new.pair.pages }
{
    match bind_text(alloc, text, host, contents) {
        Ok(tree) => Ok(tree),
        Err(BindErr::DigestDiffers { .. }) => Err(TakeErr::OtherText),
        Err(BindErr::LinesDiffer { .. }) => Err(TakeErr::OtherText),
        Err(BindErr::EntryDoesNotFit(number)) => Err(TakeErr::Misfit(number)),
        Err(BindErr::NoMemory) => Err(TakeErr::NoMemory),
        Err(BindErr::Failed) => Err(TakeErr::Failed),
    }
}

impl Session {
    /// The history of the undo file, taken with the text. Nothing of the session changes, and the folder is only looked at.
    pub(crate) fn take_undo<F: Folder>(
        &mut self,
        alloc: Global,
        host: &mut F,
    ) -> Result<Taken, TakeErr>
        requires fits { FitsFolder F.tells self.old (F.scene host.old).folder }
        ensures taken { IfOk result (λ taken. IsTrue F.tells.folder → (state : SessionState) (syncs : List Sync)
            → Fits self.old (F.scene host.old).folder state syncs
            → (history : History) × IsTaken state.machine.text (content_of (F.scene host.old) (names_of self.old).undo) (Ok history)
            × IsHistory taken.tree state.machine.text history
            × (taken.changes ≡ length history.links.nodes)) }
        ensures refused { IfErr result (λ error. IsTrue F.tells.folder → (state : SessionState) (syncs : List Sync)
            → Fits self.old (F.scene host.old).folder state syncs
            → IsTaken state.machine.text (content_of (F.scene host.old) (names_of self.old).undo) (Err error)) }
        ensures counts { IfOk result (λ taken. FitsCount taken.tree (max 1 self.new.text.tree.present.lines)) }
        ensures fits { KeepsState F.tells self.old self.new (F.scene host.old).folder (F.scene host.new).folder }
        ensures reads { OnlyReads F.tells (IsErrOf result TakeErr.Failed) (F.scene host.old) (F.scene host.new) }
        ensures file { SameFile self.old self.new }
        ensures generation { generation_of self.new ≡ generation_of self.old }
        ensures files { self.new.text.pair.files ≡ self.old.text.pair.files }
        ensures undo { FitsUndo self.old → FitsUndo self.new }
        ensures works { SameWork F.tells self.old.text.pair.pages self.new.text.pair.pages }
    {
        let contents = load_undo(alloc, host, &self.text.pair.files.names)?;
        let tree = bind_undo(alloc, &mut self.text, host, &contents)?;
        Ok(Taken {
            tree,
            changes: contents.changes.len() as u64,
        })
    }
}
