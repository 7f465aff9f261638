// The storing of a session's undo file.
ghost use Rattle.std.specs.Prelude.{◌≡◌, List, true, IsErr, IsErrOf, IsTrue, OnOk};
ghost use Rattle.vs_disk.specs.Modes.{MakesLike};
ghost use Rattle.vs_disk.specs.Runs.{Runs};
ghost use Rattle.vs_backup.specs.Desks.{StopsAtFault};
ghost use Rattle.vs_excmd.specs.Request.{Instruction};
ghost use Rattle.vs_undo.specs.History.{History};
ghost use Rattle.vs_safety.specs.Texts.{Sync, Text};
ghost use Rattle.vs_safety.specs.Undo.{HasUndo, IsUndoOf};
ghost use Rattle.vs_session.specs.Calls.{GoesOn, IsUsable, KeepsState, StoresBytes};
ghost use Rattle.vs_session.specs.Fits.{Fits, IsFault, IsMarkedAt, IsStep, names_of};
ghost use Rattle.vs_session.specs.Session.{SessionState, is_wundo};
ghost use Rattle.vs_session.specs.Stores.{StoresUndo};
ghost use Rattle.vs_session.specs.Work.{SameWork};

use crate::{Session, Step};
use std::alloc::Global;
use vs_edit::StoreErr;
use vs_host::{Failed, Folder};
use vs_machine::{Mark, Outcome, Reply};
use vs_ubind::store;

impl Session {
    /// Stores these bytes as the undo file.
    pub(crate) fn store_bytes<F: Folder>(&self, host: &mut F, bytes: &[u8]) -> Result<(), Failed>
        ensures stored { OnOk result (IsTrue F.tells.folder → (text : Text) (history : History) → IsUndoOf text history bytes.now
            → HasUndo (names_of self.now) text history (F.scene host.new).folder) }
        ensures stores { StoresBytes F.tells (IsErr result) self.now bytes.now (F.scene host.old) (F.scene host.new) }
    {
        store(host, &self.text.pair.files.names, bytes)
    }

    // Stores the undo file of the text with its history. Nothing of the session changes.
    fn store_undo<F: Folder>(&mut self, alloc: Global, host: &mut F) -> Result<(), StoreErr>
        requires usable { IsUsable F.tells self.old (F.scene host.old).folder }
        ensures runs { IsTrue F.tells.folder → (state : SessionState) (syncs : List Sync) → Fits self.old (F.scene host.old).folder state syncs
            → Runs (StoresUndo (names_of self.old) state.machine.text state.machine.history) (F.scene host.old) (F.scene host.new) }
        ensures modes { MakesLike F.tells (names_of self.old).file (F.scene host.old) (F.scene host.new) }
        ensures stored { OnOk result (IsTrue F.tells.folder → (state : SessionState) (syncs : List Sync) →
            Fits self.old (F.scene host.old).folder state syncs
            → HasUndo (names_of self.old) state.machine.text state.machine.history (F.scene host.new).folder) }
        ensures fits { KeepsState F.tells self.old self.new (F.scene host.old).folder (F.scene host.new).folder }
        ensures idle { IsErrOf result StoreErr.NoMemory → IsTrue F.tells.folder → (F.scene host.new).folder ≡ (F.scene host.old).folder }
        ensures stops { StopsAtFault F.tells (IsErrOf result StoreErr.Failed) (F.scene host.old) (F.scene host.new) }
        ensures kept { GoesOn (IsErrOf result StoreErr.Failed) self.old self.new (F.scene host.old) (F.scene host.new) }
        ensures works { SameWork F.tells self.old.text.pair.pages self.new.text.pair.pages }
    {
        let bytes = self.undo_bytes(alloc, host, false)?;
        match self.store_bytes(host, &bytes) {
            Ok(()) => Ok(()),
            Err(_) => Err(StoreErr::Failed),
        }
    }

    /// Answers `wundo`: stores the undo file of the text with its history.
    pub(crate) fn answer_wundo<F: Folder>(&mut self, alloc: Global, host: &mut F, at: u64) -> Step
        requires usable { IsUsable F.tells self.old (F.scene host.old).folder }
        ensures step { IsTrue F.tells.folder → (state : SessionState) (syncs : List Sync) (instruction : Instruction)
            → Fits self.old (F.scene host.old).folder state syncs
            → is_wundo instruction.parsed ≡ true → IsStep result state syncs instruction self.old self.new (F.scene host.old) (F.scene host.new) }
        ensures time { IsMarkedAt result at }
        ensures kept { GoesOn (IsFault result) self.old self.new (F.scene host.old) (F.scene host.new) }
        ensures works { SameWork F.tells self.old.text.pair.pages self.new.text.pair.pages }
    {
        match self.store_undo(alloc, host) {
            Ok(()) => Step::Answer {
                mark: Mark {
                    outcome: Outcome::Done,
                    at,
                },
                reply: Reply::undo_file_written(),
            },
            Err(StoreErr::NoMemory) => Step::Answer {
                mark: Mark {
                    outcome: Outcome::NoMemory,
                    at,
                },
                reply: Reply::out_of_memory(),
            },
            Err(StoreErr::Failed) => Step::Answer {
                mark: Mark {
                    outcome: Outcome::Fault,
                    at,
                },
                reply: Reply::device_fault(),
            },
        }
    }
}
