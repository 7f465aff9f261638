// One step of a session.
ghost use Rattle.std.specs.Prelude.{◌≡◌, ◌≢◌, ◌+◌, ◌<◌, ◌≤◌, ◌^◌, ◌∷◌, ℕ, List, None, true, false, IsErr, IsTrue, OnErr, OnOk, is_ok, length};
ghost use Rattle.vs_faults.specs.Faults.{HasCause};
ghost use Rattle.vs_disk.specs.Runs.{NoneFails};
ghost use Rattle.vs_pages.specs.Memory.{commits_of};
ghost use Rattle.vs_pair.specs.Acts.{Acts, JustReads, WorksAtMost};
ghost use Rattle.vs_pair.specs.Pair.{Rises, shown_in};
ghost use Rattle.vs_pair.specs.Stale.{IsBehind};
ghost use Rattle.vs_exparse.specs.Command.{command_of, result_of};
ghost use Rattle.vs_excmd.specs.Request.{Instruction, IsFormed, IsRequest};
ghost use Rattle.vs_machine.specs.Machine.{reply_of as machine_reply};
ghost use Rattle.vs_machine.specs.declared.command.Mark.{Mark};
ghost use Rattle.vs_safety.specs.Texts.{Sync};
ghost use Rattle.vs_paged.specs.Fits.{Syncing};
ghost use Rattle.vs_paged.specs.Turns.{TurnsFiles};
ghost use Rattle.vs_session.specs.Calls.{AnswersRequest, CarriesRequest, FitsFolder, GoesOnReading, GoesOnSyncing, IsUsable};
ghost use Rattle.vs_session.specs.Fits.{Fits, FitsUndo, IsFault, IsMarkedAt, IsTimed, SameFile, StepsIn, generation_of, is_clean_session, names_of};
ghost use Rattle.vs_session.specs.Session.{SessionState, after_sync, answered, begins_after, carried, counted, is_fault, is_move, is_rundo, is_saved, is_write, is_wundo, options_set, own_reply, quits, sync_in, uses_files};
ghost use Rattle.vs_session.specs.SwapWrites.{SyncsIn};
ghost use Rattle.vs_session.specs.Work.{WorksIn, WorksRequest};

use crate::answering::answer_text;
use crate::session::STEPS_BETWEEN_SYNCS;
use crate::{Session, Step};
use std::alloc::Global;
use vs_edit::StoreErr;
use vs_excmd::{Request, is_text_command};
use vs_exparse::Command;
use vs_host::{Failed, Folder, Host};
use vs_machine::{Answered, Keep, Mark, Outcome, Reply, saved_after};
use vs_options::{Options, full_text, set};

// Whether a command moves to another state of the history.
fn is_move(command: &Command) -> bool
    ensures { result ≡ is_move (command_of command.now) }
{
    matches!(
        command,
        Command::Undo { .. } | Command::Redo | Command::Earlier { .. } | Command::Later { .. }
    )
}

// The steps after one that led to the same state, or to another.
fn counted(steps: u64, same: bool) -> u64
    requires { steps ≤ 200 }
    ensures count { result ≡ counted steps same }
    ensures few { result ≤ 200 }
{
    if same {
        return steps;
    }
    (steps + 1).min(STEPS_BETWEEN_SYNCS)
}

// Whether the command is `wundo`.
fn is_wundo(request: &Request) -> bool
    ensures { result ≡ is_wundo (result_of request.now.parsed) }
{
    matches!(request.parsed, Ok(Command::WriteUndo))
}

// Whether the command is `rundo`.
fn is_rundo(request: &Request) -> bool
    ensures { result ≡ is_rundo (result_of request.now.parsed) }
{
    matches!(request.parsed, Ok(Command::ReadUndo))
}

// Whether the command is `w`.
fn is_write(request: &Request) -> bool
    ensures { result ≡ is_write (result_of request.now.parsed) }
{
    matches!(request.parsed, Ok(Command::Write { .. }))
}

// What the session itself answers to a command that is no accepted quit.
fn own_reply(request: &Request) -> Option<Reply>
    ensures { result ≡ own_reply (result_of request.now.parsed) }
{
    match &request.parsed {
        Ok(Command::Preserve) => Some(Reply::preserved()),
        Ok(Command::Quit { .. }) => Some(Reply::no_write()),
        Ok(Command::Set { setting }) => Some(Reply::says(full_text(*setting).as_slice())),
        _ => None,
    }
}

// The options after a command that was carried out.
fn options_set(options: &Options, request: &Request) -> Options
    requires form { IsFormed request.now }
    requires some { 1 ≤ options.now.undo_levels }
    ensures set { result ≡ options_set options.now (result_of request.now.parsed) }
    ensures some { 1 ≤ result.undo_levels }
{
    match &request.parsed {
        Ok(Command::Set { setting }) => set(options, *setting),
        _ => *options,
    }
}

impl Session {
    // Whether the current state is the one that was opened or last written.
    pub(crate) fn is_saved(&self) -> bool
        ensures { result ≡ is_saved self.now.saved self.now.history.current }
    {
        match self.saved {
            Some(saved) => self.history.current() == saved,
            None => false,
        }
    }

    // Whether the current state and the format are those that were opened or last written.
    fn is_clean(&self) -> bool
        ensures { result ≡ is_clean_session self.now }
    {
        self.is_saved() && self.saved_format == self.options.write.format
    }

    // Whether the command is a `q` or `q!` that is accepted.
    fn accepts_quit(&self, request: &Request) -> bool
        ensures { result ≡ quits (result_of request.now.parsed) (is_clean_session self.now) }
    {
        match request.parsed {
            Ok(Command::Quit { bang }) => bang || self.is_clean(),
            _ => false,
        }
    }

    // Whether the command begins a sync before all else.
    fn begins_sync(&self, request: &Request) -> bool
        requires { IsFormed request.now }
        ensures { result ≡ begins_after self.now.steps (result_of request.now.parsed) }
    {
        match &request.parsed {
            Ok(Command::Preserve | Command::Write { .. }) => true,
            Ok(command) => {
                self.steps >= STEPS_BETWEEN_SYNCS && (is_text_command(command) || is_move(command))
            }
            Err(_) => false,
        }
    }

    /// Syncs the text into a swap file. The steps are counted anew where that succeeded.
    pub(crate) fn sync<F: Folder>(&mut self, host: &mut F) -> Result<(), Failed>
        requires room { generation_of self.old < 2 ^ 63 }
        requires fits { FitsFolder F.tells self.old (F.scene host.old).folder }
        ensures acts { Acts F.tells (Syncing self.old.text self.old.options.write.format) (F.scene host.old) (F.scene host.new) }
        ensures ok { OnOk result (IsTrue F.tells.folder → (state : SessionState) (syncs : List Sync) → Fits self.old (F.scene host.old).folder state syncs
            → Fits self.new (F.scene host.new).folder (after_sync state true) (sync_in state true ∷ syncs)) }
        ensures err { OnErr result (IsTrue F.tells.folder → (state : SessionState) (syncs : List Sync) → Fits self.old (F.scene host.old).folder state syncs
            → Fits self.new (F.scene host.new).folder state (sync_in state false ∷ syncs)) }
        ensures rises { OnOk result (IsTrue F.tells.folder → Rises (names_of self.old) (F.scene host.old).folder (F.scene host.new).folder) }
        ensures stays { OnErr result (IsTrue F.tells.folder → Rises (names_of self.old) (F.scene host.old).folder (F.scene host.new).folder → ⊥) }
        ensures file { SameFile self.old self.new }
        ensures generation { generation_of self.new ≡ generation_of self.old + 1 }
        ensures behind { (most : ℕ) → IsBehind self.old.text.pair.pages self.old.text.pair.files.older_has most
            → WorksAtMost F.tells (F.scene host.old) (F.scene host.new) (6 + most) most }
        ensures turns { TurnsFiles (is_ok result) self.old.text.pair self.new.text.pair }
        ensures shown { IsTrue F.tells.folder
            → shown_in self.new.text.pair (F.scene host.new).folder ≡ shown_in self.old.text.pair (F.scene host.old).folder }
        ensures commits { commits_of self.new.text.pair.pages ≡ commits_of self.old.text.pair.pages }
        ensures tree { self.new.text.tree ≡ self.old.text.tree }
        ensures undo { FitsUndo self.old → FitsUndo self.new }
        ensures none { OnOk result (NoneFails F.tells (F.scene host.old) (F.scene host.new)) }
        ensures cause { HasCause (F.scene host.old).folder_faults (F.scene host.new).folder_faults (IsErr result) }
    {
        let is_dirty = !self.is_clean();
        self.text.sync(host, is_dirty, self.options.write.format)?;
        self.steps = 0;
        self.acknowledged += 1;
        Ok(())
    }

    // Has the machine carry a command out that the session does not answer itself.
    fn run_machine<F: Folder>(
        &mut self,
        alloc: Global,
        host: &mut F,
        request: &Request,
        at: u64,
    ) -> (Outcome, Reply)
        requires form { IsFormed request.now }
        requires own { own_reply (result_of request.now.parsed) ≡ None }
        requires usable { IsUsable F.tells self.old (F.scene host.old).folder }
        ensures reply { IsTrue F.tells.folder → (state : SessionState) (syncs : List Sync) (instruction : Instruction)
            → Fits self.old (F.scene host.old).folder state syncs
            → IsRequest request.now instruction → result.1 ≡ machine_reply state.machine instruction (record { outcome = result.0; at = at }) }
        ensures fits { CarriesRequest F.tells request.now (record { outcome = result.0; at = at }) self.old self.new
            (F.scene host.old).folder (F.scene host.new).folder }
        ensures kept { GoesOnReading F.tells (is_fault result.0 ≡ true) self.old self.new (F.scene host.old) (F.scene host.new) }
        ensures reads { IsTrue F.tells.folder → JustReads (F.scene host.old) (F.scene host.new) }
        ensures works { WorksRequest F.tells request.now result.0 self.old self.new (F.scene host.old).folder }
        ensures stored { result.0 ≢ Outcome.NoUndo }
    {
        let before = self.history.current();
        let cursor = self.cursor;
        let levels = u64::from(self.options.undo_levels);
        match answer_text(
            alloc,
            &mut self.text,
            host,
            &mut self.history,
            cursor,
            request,
            Keep { time: at, levels },
        ) {
            Ok(
                Answered {
                    reply,
                    cursor,
                    oldest,
                },
            ) => {
                self.cursor = cursor;
                self.saved = saved_after(&self.history, oldest, self.saved);
                self.steps = counted(self.steps, self.history.current() == before);
                (Outcome::Done, reply)
            }
            Err(StoreErr::NoMemory) => (Outcome::NoMemory, Reply::out_of_memory()),
            Err(StoreErr::Failed) => (Outcome::Fault, Reply::device_fault()),
        }
    }

    // Carries a command out that is no accepted quit, after the sync that it begins.
    #[tactic(auto, using(vs_backup::proofs::Stops::stops_still))]
    fn carry_out<F: Folder>(
        &mut self,
        alloc: Global,
        host: &mut F,
        request: &Request,
        at: u64,
    ) -> (Outcome, Reply)
        requires form { IsFormed request.now }
        requires usable { IsUsable F.tells self.old (F.scene host.old).folder }
        ensures reply { IsTrue F.tells.folder → (state : SessionState) (syncs : List Sync) (instruction : Instruction)
            → Fits self.old (F.scene host.old).folder state syncs
            → IsRequest request.now instruction →
            result.1 ≡ answered result.0 (own_reply instruction.parsed) (machine_reply state.machine instruction (record { outcome = result.0; at = at })) }
        ensures fits { CarriesRequest F.tells request.now (record { outcome = result.0; at = at }) self.old self.new
            (F.scene host.old).folder (F.scene host.new).folder }
        ensures kept { GoesOnReading F.tells (is_fault result.0 ≡ true) self.old self.new (F.scene host.old) (F.scene host.new) }
        ensures reads { IsTrue F.tells.folder → JustReads (F.scene host.old) (F.scene host.new) }
        ensures works { WorksRequest F.tells request.now result.0 self.old self.new (F.scene host.old).folder }
        ensures stored { result.0 ≢ Outcome.NoUndo }
    {
        match own_reply(request) {
            Some(reply) => {
                self.options = options_set(&self.options, request);
                (Outcome::Done, reply)
            }
            None => self.run_machine(alloc, host, request, at),
        }
    }

    // Answers a command that begins a sync and neither writes nor reads another file.
    fn answer_synced<F: Folder>(
        &mut self,
        alloc: Global,
        host: &mut F,
        request: &Request,
        at: u64,
    ) -> Step
        requires form { IsFormed request.now }
        requires goes_on { quits (result_of request.now.parsed) (is_clean_session self.old) ≡ false }
        requires plain { uses_files (result_of request.now.parsed) ≡ false }
        requires begins { begins_after self.old.steps (result_of request.now.parsed) ≡ true }
        requires room { generation_of self.old < 2 ^ 63 }
        requires usable { IsUsable F.tells self.old (F.scene host.old).folder }
        ensures step { AnswersRequest F.tells request.now result self.old self.new (F.scene host.old) (F.scene host.new) }
        ensures time { IsMarkedAt result at }
        ensures kept { GoesOnSyncing (IsFault result) self.old self.new (F.scene host.old) (F.scene host.new) }
        ensures works { WorksIn F.tells request.now result self.old self.new (F.scene host.old).folder }
        ensures behind { SyncsIn F.tells request.now result self.old self.new (F.scene host.old) (F.scene host.new) }
    {
        match self.sync(host) {
            Ok(()) => {
                let (outcome, reply) = self.carry_out(alloc, host, request, at);
                Step::Answer {
                    mark: Mark { outcome, at },
                    reply,
                }
            }
            Err(_) => Step::Answer {
                mark: Mark {
                    outcome: Outcome::Fault,
                    at,
                },
                reply: Reply::device_fault(),
            },
        }
    }

    // Answers a command that is no accepted quit, with the sync that it begins before all else.
    fn answer<F: Folder>(&mut self, alloc: Global, host: &mut F, request: &Request, at: u64) -> Step
        requires form { IsFormed request.now }
        requires goes_on { quits (result_of request.now.parsed) (is_clean_session self.old) ≡ false }
        requires room { generation_of self.old < 2 ^ 63 }
        requires usable { IsUsable F.tells self.old (F.scene host.old).folder }
        ensures step { AnswersRequest F.tells request.now result self.old self.new (F.scene host.old) (F.scene host.new) }
        ensures time { IsMarkedAt result at }
        ensures kept { GoesOnSyncing (IsFault result) self.old self.new (F.scene host.old) (F.scene host.new) }
        ensures works { WorksIn F.tells request.now result self.old self.new (F.scene host.old).folder }
        ensures behind { SyncsIn F.tells request.now result self.old self.new (F.scene host.old) (F.scene host.new) }
    {
        if is_write(request) {
            return self.answer_write(alloc, host, at);
        }
        if is_wundo(request) {
            return self.answer_wundo(alloc, host, at);
        }
        if is_rundo(request) {
            return self.answer_rundo(alloc, host, at);
        }
        if self.begins_sync(request) {
            return self.answer_synced(alloc, host, request, at);
        }
        let (outcome, reply) = self.carry_out(alloc, host, request, at);
        Step::Answer {
            mark: Mark { outcome, at },
            reply,
        }
    }

    /// Answers one command. The clock is read once, when the command begins. `preserve` and `w`, and a change or a move after 200
    /// steps that led to another state, sync the text before all else (`:help :preserve`). Where the mark is NoMemory or Fault, the
    /// text, the history, the cursor and the options have not changed.
    pub fn step<H: Host>(&mut self, alloc: Global, host: &mut H, request: &Request) -> Step
        requires form { IsFormed request.now }
        requires clock { IsTrue (H.tells).clock → length (H.scene host.old).answers < 2 ^ 63 }
        requires room { generation_of self.old < 2 ^ 63 }
        requires undo { FitsUndo self.old }
        requires fits { FitsFolder H.tells self.old (H.scene host.old).folder }
        ensures step { AnswersRequest H.tells request.now result self.old self.new (H.scene host.old) (H.scene host.new) }
        ensures undo { FitsUndo self.new }
        ensures file { SameFile self.old self.new }
        ensures room { generation_of self.new ≤ generation_of self.old + 1 }
        ensures quit { result ≡ Step.Quit → quits (result_of request.now.parsed) (is_clean_session self.old) ≡ true }
        ensures works { WorksIn H.tells request.now result self.old self.new (H.scene host.old).folder }
        ensures behind { SyncsIn H.tells request.now result self.old self.new (H.scene host.old) (H.scene host.new) }
        ensures clock { IsTrue (H.tells).clock → IsTimed result (H.scene host.old) (H.scene host.new) }
        ensures frame { StepsIn (H.scene host.old) (H.scene host.new) }
        ensures cause { HasCause (H.scene host.old).folder_faults (H.scene host.new).folder_faults (IsFault result) }
    {
        let at = host.now();
        if self.accepts_quit(request) {
            return Step::Quit;
        }
        self.answer(alloc, host, request, at)
    }
}
