// The write of a session's file.
ghost use Rattle.std.specs.Prelude.{◌≡◌, ◌⊎◌, ◌<◌, ◌^◌, ℕ, List, false, string_bytes, true, IsTrue};
ghost use Rattle.vs_host.specs.World.{Scene};
ghost use Rattle.vs_backup.specs.Writing.{IsFailed};
ghost use Rattle.vs_excmd.specs.Request.{Instruction};
ghost use Rattle.vs_undo.specs.History.{History, history_marked};
ghost use Rattle.vs_machine.specs.Replies.{says};
ghost use Rattle.vs_safety.specs.Texts.{Sync, Text};
ghost use Rattle.vs_safety.specs.Undo.{HasUndo, IsUndoOf};
ghost use Rattle.vs_session.specs.Calls.{GoesOn, GoesOnSyncing, IsUsable, StoresBytes};
ghost use Rattle.vs_session.specs.Fits.{Answers, Fits, IsFault, IsMarkedAt, IsStep, generation_of, names_of};
ghost use Rattle.vs_session.specs.Session.{SessionState, is_fault, is_write, line_by};
ghost use Rattle.vs_session.specs.SwapWrites.{SyncsFirst};
ghost use Rattle.vs_session.specs.Work.{SameWork};
ghost use Rattle.vs_session.specs.Writes.{HasSynced, Wrote, info_of, outcome_to, reply_to};

use crate::{Session, Step};
use std::alloc::Global;
use vs_backup::WriteErr;
use vs_desk::write_text;
use vs_edit::StoreErr;
use vs_host::Folder;
use vs_machine::{FileInfo, Mark, Outcome, Reply};

// How a write is answered that was refused.
fn refused(why: WriteErr) -> (Outcome, Reply)
    ensures outcome { result.0 ≡ outcome_to why }
    ensures reply { result.1 ≡ reply_to why }
{
    match why {
        WriteErr::NoBackupName => (Outcome::Done, Reply::no_backup_name()),
        WriteErr::NoMemory { .. } => (Outcome::NoMemory, Reply::out_of_memory()),
        WriteErr::Failed { .. } => (Outcome::Fault, Reply::device_fault()),
    }
}

impl Session {
    // Writes the text into its file. Where that is carried out, the current state of the history has the mark of the write.
    fn write<F: Folder>(&mut self, alloc: Global, host: &mut F) -> Result<u64, WriteErr>
        requires usable { IsUsable F.tells self.old (F.scene host.old).folder }
        ensures wrote { IsTrue F.tells.folder → (state : SessionState) (syncs : List Sync) → Fits self.old (F.scene host.old).folder state syncs
            → Wrote state syncs self.old self.new result (F.scene host.old) (F.scene host.new) }
        ensures kept { GoesOn (IsFailed result) self.old self.new (F.scene host.old) (F.scene host.new) }
        ensures works { SameWork F.tells self.old.text.pair.pages self.new.text.pair.pages }
    {
        match write_text(alloc, &mut self.text, host, &self.options.write) {
            Ok(bytes) => {
                self.history.mark_write();
                self.saved = Some(self.history.current());
                self.saved_format = self.options.write.format;
                Ok(bytes)
            }
            Err(why) => Err(why),
        }
    }

    // Writes the text into its file, after the sync of the command, where no undo file is asked for.
    fn write_alone<F: Folder>(&mut self, alloc: Global, host: &mut F) -> (Outcome, Reply)
        requires usable { IsUsable F.tells self.old (F.scene host.old).folder }
        ensures step { IsTrue F.tells.folder
            → (state : SessionState) (syncs : List Sync) (instruction : Instruction) (before : Session) (start : Scene) (at : ℕ)
            → is_write instruction.parsed ≡ true → state.options.undofile ≡ false → HasSynced state syncs before self.old start (F.scene host.old)
            → Answers state syncs instruction before self.new (record { outcome = result.0; at = at }) result.1 start (F.scene host.new) }
        ensures kept { GoesOn (is_fault result.0 ≡ true) self.old self.new (F.scene host.old) (F.scene host.new) }
        ensures works { SameWork F.tells self.old.text.pair.pages self.new.text.pair.pages }
    {
        match self.write(alloc, host) {
            Ok(bytes) => (Outcome::Done, self.written(bytes)),
            Err(why) => refused(why),
        }
    }

    // What is said of the file after a write of so many bytes.
    fn info(&self, bytes: u64) -> FileInfo
        ensures { result ≡ info_of self.now bytes }
    {
        FileInfo {
            format: self.options.write.format,
            lines: self.text.len(),
            bytes,
        }
    }

    // The reply to a write of so many bytes.
    fn written(&self, bytes: u64) -> Reply
        ensures { result ≡ says (line_by Outcome.Done (string_bytes self.now.name) (info_of self.now bytes)) }
    {
        Reply::written(&self.name, self.info(bytes))
    }

    // The same where the undo file was not stored.
    fn unstored(&self, bytes: u64) -> Reply
        ensures { result ≡ says (line_by Outcome.NoUndo (string_bytes self.now.name) (info_of self.now bytes)) }
    {
        Reply::unstored(&self.name, self.info(bytes))
    }

    // Stores these bytes as the undo file of the text, after a write of so many bytes.
    fn store_written<F: Folder>(&self, host: &mut F, undo: &[u8], bytes: u64) -> (Outcome, Reply)
        ensures ended { (result.0 ≡ Outcome.Done) ⊎ (result.0 ≡ Outcome.NoUndo) }
        ensures stored { result.0 ≡ Outcome.Done → IsTrue F.tells.folder → (text : Text) (history : History) → IsUndoOf text history undo.now
            → HasUndo (names_of self.now) text history (F.scene host.new).folder }
        ensures reply { result.1 ≡ says (line_by result.0 (string_bytes self.now.name) (info_of self.now bytes)) }
        ensures stores { StoresBytes F.tells (is_fault result.0 ≡ true) self.now undo.now (F.scene host.old) (F.scene host.new) }
    {
        match self.store_bytes(host, undo) {
            Ok(()) => (Outcome::Done, self.written(bytes)),
            Err(_) => (Outcome::NoUndo, self.unstored(bytes)),
        }
    }

    // Writes the text into its file, after the sync of the command, and then stores these bytes as its undo file.
    fn write_and_store<F: Folder>(
        &mut self,
        alloc: Global,
        host: &mut F,
        undo: &[u8],
    ) -> (Outcome, Reply)
        requires usable { IsUsable F.tells self.old (F.scene host.old).folder }
        ensures step { IsTrue F.tells.folder
            → (state : SessionState) (syncs : List Sync) (instruction : Instruction) (before : Session) (start : Scene) (at : ℕ)
            → is_write instruction.parsed ≡ true → state.options.undofile ≡ true → HasSynced state syncs before self.old start (F.scene host.old)
            → IsUndoOf state.machine.text (history_marked state.machine.history) undo.now
            → Answers state syncs instruction before self.new (record { outcome = result.0; at = at }) result.1 start (F.scene host.new) }
        ensures kept { GoesOn (is_fault result.0 ≡ true) self.old self.new (F.scene host.old) (F.scene host.new) }
        ensures works { SameWork F.tells self.old.text.pair.pages self.new.text.pair.pages }
    {
        match self.write(alloc, host) {
            Ok(bytes) => self.store_written(host, undo, bytes),
            Err(why) => refused(why),
        }
    }

    // The same, with the undo file of the history as it will be after the write.
    fn write_with_undo<F: Folder>(&mut self, alloc: Global, host: &mut F) -> (Outcome, Reply)
        requires usable { IsUsable F.tells self.old (F.scene host.old).folder }
        ensures step { IsTrue F.tells.folder
            → (state : SessionState) (syncs : List Sync) (instruction : Instruction) (before : Session) (start : Scene) (at : ℕ)
            → is_write instruction.parsed ≡ true → state.options.undofile ≡ true → HasSynced state syncs before self.old start (F.scene host.old)
            → Answers state syncs instruction before self.new (record { outcome = result.0; at = at }) result.1 start (F.scene host.new) }
        ensures kept { GoesOn (is_fault result.0 ≡ true) self.old self.new (F.scene host.old) (F.scene host.new) }
        ensures works { SameWork F.tells self.old.text.pair.pages self.new.text.pair.pages }
    {
        match self.undo_bytes(alloc, host, true) {
            Ok(undo) => self.write_and_store(alloc, host, &undo),
            Err(StoreErr::NoMemory) => (Outcome::NoMemory, Reply::out_of_memory()),
            Err(StoreErr::Failed) => (Outcome::Fault, Reply::device_fault()),
        }
    }

    // Writes the text into its file, after the sync of the command, and stores its undo file where that is asked for.
    fn write_files<F: Folder>(&mut self, alloc: Global, host: &mut F) -> (Outcome, Reply)
        requires usable { IsUsable F.tells self.old (F.scene host.old).folder }
        ensures step { IsTrue F.tells.folder
            → (state : SessionState) (syncs : List Sync) (instruction : Instruction) (before : Session) (start : Scene) (at : ℕ)
            → is_write instruction.parsed ≡ true → HasSynced state syncs before self.old start (F.scene host.old)
            → Answers state syncs instruction before self.new (record { outcome = result.0; at = at }) result.1 start (F.scene host.new) }
        ensures kept { GoesOn (is_fault result.0 ≡ true) self.old self.new (F.scene host.old) (F.scene host.new) }
        ensures works { SameWork F.tells self.old.text.pair.pages self.new.text.pair.pages }
    {
        if self.options.undofile {
            return self.write_with_undo(alloc, host);
        }
        self.write_alone(alloc, host)
    }

    /// Answers `w`: syncs the text, and then writes it into its file. With `undofile` its undo file is stored too; for that there is
    /// memory before the file is touched.
    pub(crate) fn answer_write<F: Folder>(&mut self, alloc: Global, host: &mut F, at: u64) -> Step
        requires room { generation_of self.old < 2 ^ 63 }
        requires usable { IsUsable F.tells self.old (F.scene host.old).folder }
        ensures step { IsTrue F.tells.folder → (state : SessionState) (syncs : List Sync) (instruction : Instruction)
            → Fits self.old (F.scene host.old).folder state syncs
            → is_write instruction.parsed ≡ true → IsStep result state syncs instruction self.old self.new (F.scene host.old) (F.scene host.new) }
        ensures time { IsMarkedAt result at }
        ensures kept { GoesOnSyncing (IsFault result) self.old self.new (F.scene host.old) (F.scene host.new) }
        ensures works { SameWork F.tells self.old.text.pair.pages self.new.text.pair.pages }
        ensures behind { SyncsFirst F.tells true result self.old self.new (F.scene host.old) (F.scene host.new) }
    {
        match self.sync(host) {
            Ok(()) => {
                let (outcome, reply) = self.write_files(alloc, host);
                Step::Answer {
                    mark: Mark { outcome, at },
                    reply,
                }
            }
            Err(_) => Step::Answer {
                mark: Mark {
                    outcome: Outcome::Fault,
                    at,
                },
                reply: Reply::device_fault(),
            },
        }
    }
}
