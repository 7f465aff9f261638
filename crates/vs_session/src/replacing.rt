// The answer to `rundo`.
ghost use Rattle.std.specs.Prelude.{◌≡◌, Err, None, List, Result, Some, true, if◌then◌else◌, IsTrue};
ghost use Rattle.vs_host.specs.World.{content_of};
ghost use Rattle.vs_excmd.specs.Request.{Instruction};
ghost use Rattle.vs_undo.specs.History.{History};
ghost use Rattle.vs_machine.specs.Replies.{refuses};
ghost use Rattle.vs_safety.specs.Texts.{Sync};
ghost use Rattle.vs_session.specs.Calls.{GoesOnReading, IsUsable};
ghost use Rattle.vs_session.specs.Fits.{Fits, IsFault, IsMarkedAt, IsStep, names_of};
ghost use Rattle.vs_session.specs.Session.{SessionState, history_in, is_fault, is_rundo, is_saved, with_history};
ghost use Rattle.vs_session.specs.Taken.{IsTaken, outcome_by, taken_reply, unreadable_text};
ghost use Rattle.vs_session.specs.Work.{SameWork};

use crate::taking::{TakeErr, Taken};
use crate::{Session, Step};
use std::alloc::Global;
use vs_host::Folder;
use vs_machine::{Mark, Outcome, Reply, UndoTree};
use vs_ufile::{UfErr, UfKind};

// Why a file is no undo file.
fn unreadable(error: &UfErr) -> Reply
    ensures { result ≡ refuses (unreadable_text error.now.kind error.now.at) }
{
    match error.kind {
        UfKind::NotUndo => Reply::refuses(b"not an undo file"),
        UfKind::Version => Reply::refuses(b"undo file of another version"),
        UfKind::Encrypted => Reply::refuses(b"encrypted undo file"),
        _ => Reply::undo_file_corrupted(error.at),
    }
}

// Why no history was taken.
fn refused(error: &TakeErr) -> (Outcome, Reply)
    ensures outcome { result.0 ≡ outcome_by (Err error.now) }
    ensures reply { result.1 ≡ taken_reply (Err error.now) }
{
    match error {
        TakeErr::NoFile => (Outcome::Done, Reply::refuses(b"no undo file")),
        TakeErr::Unreadable(why) => (Outcome::Done, unreadable(why)),
        TakeErr::OtherText => (Outcome::Done, Reply::refuses(b"undo file of another text")),
        TakeErr::Misfit(number) => (Outcome::Done, Reply::undo_file_misfit(*number as u64)),
        TakeErr::NoMemory => (Outcome::NoMemory, Reply::out_of_memory()),
        TakeErr::Failed => (Outcome::Fault, Reply::device_fault()),
    }
}

impl Session {
    // The state that counts as opened or last written where this history replaces that of the session.
    fn saved_in(&self, tree: &UndoTree) -> Option<u64>
        ensures { result ≡ if is_saved self.now.saved self.now.history.current then Some tree.now.current else None }
    {
        if self.is_saved() {
            return Some(tree.current());
        }
        None
    }

    // Replaces the history with that of the undo file, where it is taken with the text. Else nothing of the session changes.
    fn replace_history<F: Folder>(&mut self, alloc: Global, host: &mut F) -> (Outcome, Reply)
        requires usable { IsUsable F.tells self.old (F.scene host.old).folder }
        ensures read { IsTrue F.tells.folder → (state : SessionState) (syncs : List Sync) → Fits self.old (F.scene host.old).folder state syncs
            → (read : Result History TakeErr) × IsTaken state.machine.text (content_of (F.scene host.old) (names_of self.old).undo) read
            × (result.0 ≡ outcome_by read) × (result.1 ≡ taken_reply read)
            × Fits self.new (F.scene host.new).folder (with_history (history_in read) state) syncs }
        ensures kept { GoesOnReading F.tells (is_fault result.0 ≡ true) self.old self.new (F.scene host.old) (F.scene host.new) }
        ensures works { SameWork F.tells self.old.text.pair.pages self.new.text.pair.pages }
    {
        match self.take_undo(alloc, host) {
            Ok(Taken { tree, changes }) => {
                let reply = Reply::undo_file_read(tree.current(), changes);
                let saved = self.saved_in(&tree);
                self.history = tree;
                self.saved = saved;
                (Outcome::Done, reply)
            }
            Err(error) => refused(&error),
        }
    }

    /// Answers `rundo`: the history of the undo file replaces that of the session, where it is one of the text.
    pub(crate) fn answer_rundo<F: Folder>(&mut self, alloc: Global, host: &mut F, at: u64) -> Step
        requires usable { IsUsable F.tells self.old (F.scene host.old).folder }
        ensures step { IsTrue F.tells.folder → (state : SessionState) (syncs : List Sync) (instruction : Instruction)
            → Fits self.old (F.scene host.old).folder state syncs
            → is_rundo instruction.parsed ≡ true → IsStep result state syncs instruction self.old self.new (F.scene host.old) (F.scene host.new) }
        ensures time { IsMarkedAt result at }
        ensures kept { GoesOnReading F.tells (IsFault result) self.old self.new (F.scene host.old) (F.scene host.new) }
        ensures works { SameWork F.tells self.old.text.pair.pages self.new.text.pair.pages }
    {
        let (outcome, reply) = self.replace_history(alloc, host);
        Step::Answer {
            mark: Mark { outcome, at },
            reply,
        }
    }
}
