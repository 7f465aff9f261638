// A host in memory.
ghost use Rattle.std.specs.Prelude.{◌≡◌, ◌⊎◌, ◌↔◌, ◌<◌, ◌≤◌, ◌++◌, ◌∷◌, [], true, false, Bool, IfOk, OnOk, OnErr, Ok, Contains, IsTrue, MatchOption, None, Some, length};
ghost use Rattle.vs_faults.specs.Faults.{HasRisen};
ghost use Rattle.vs_memory.specs.declared.log.Part.{Part};
ghost use Rattle.vs_memory.specs.Present.{disk_in};
ghost use Rattle.vs_memory.specs.Replay.{played, said, CanPlay};
ghost use Rattle.vs_memory.specs.Memory.{counted, faulted, recorded, entry_of, faults_of, folder_of, IsPlanned, ShowsCount};

use crate::folder::MemFolder;
use crate::log::{Call, Entry, Part};
use std::alloc::{AllocError, Global};
use std::marker::Model;
use vs_host::Failed;

/// A file that was put before the first call.
#[derive(Drop)]
pub struct PutFile {
    pub name: String,
    pub bytes: Vec<u8>,
}

/// A host in memory, which tells all of its scene.
pub struct MemHost {
    pub(crate) alloc: Global,
    pub(crate) script: Vec<u8>,
    pub(crate) script_at: usize,
    pub(crate) output: Vec<u8>,
    pub(crate) base: Vec<PutFile>,
    pub(crate) log: Vec<Entry>,
    pub(crate) folder: MemFolder,
    pub(crate) clock: u64,
    pub(crate) answers: u64,
    pub(crate) calls: u64,
    pub(crate) failing: Vec<u64>,
    pub(crate) stop: u64,
    pub(crate) script_faults: u64,
    pub(crate) out_faults: u64,
    pub(crate) folder_faults: u64,
}

// A value with much in it is dropped by a call.
impl Drop for MemHost {
    fn drop(self) {
        let MemHost {
            alloc: _,
            script: _,
            script_at: _,
            output: _,
            base: _,
            log: _,
            folder: _,
            clock: _,
            answers: _,
            calls: _,
            failing: _,
            stop: _,
            script_faults: _,
            out_faults: _,
            folder_faults: _,
        } = self;
    }
}

impl Model for MemHost {
    ghost use Rattle.std.specs.Prelude.{◌≤◌, vec_len, drop, replicate, reverse, map, string_bytes};
    ghost use Rattle.vs_memory.specs.Memory.{Memory};
    ghost use Rattle.vs_memory.specs.Bases.{puts};
    ghost use Rattle.vs_memory.specs.Hosts.{IsHost};

    ghost Value = { Memory };

    ghost view = { λ s. record {
      base = puts s.base.items;
      log = reverse s.log.items;
      script = drop s.script_at s.script.items;
      answers = replicate s.answers s.clock;
      script_faults = s.script_faults;
      out_faults = s.out_faults;
      folder_faults = s.folder_faults;
      clock = s.clock;
      calls = s.calls;
      failing = s.failing.items;
      stop = s.stop;
    } };

    ghost invariant = { λ s. IsHost s.folder s.output.items (puts s.base.items) (reverse s.log.items) s.calls s.folder_faults s.script_at (vec_len s.script) };
}

/// Makes of folder and output what the call makes of them.
fn apply(
    alloc: Global,
    folder: &mut MemFolder,
    output: &mut Vec<u8>,
    call: &Call,
) -> Result<(), AllocError>
    requires { CanPlay call.now (disk_in folder.old) }
    ensures folder { OnOk result (disk_in folder.new ≡ played call.now (disk_in folder.old)) }
    ensures output { OnOk result (output.new.items ≡ said call.now output.old.items) }
    ensures err { OnErr result ((disk_in folder.new ≡ disk_in folder.old) × (output.new.items ≡ output.old.items)) }
{
    match call {
        Call::Write(piece) => {
            output.extend_from_slice(piece)?;
            Ok(())
        }
        Call::Create(name, mode) => folder.create(alloc, name, *mode),
        Call::WriteAt(name, at, piece) => folder.write_at(alloc, name, *at as usize, piece),
        Call::Cut(name, len) => folder.cut(alloc, name, *len as usize),
        Call::Sync(name) => {
            folder.sync(name);
            Ok(())
        }
        Call::SyncLike(model, name) => {
            folder.sync_like(model, name);
            Ok(())
        }
        Call::Rename(from, to) => folder.rename(alloc, from, to),
        Call::Remove(name) => folder.remove(alloc, name),
        Call::SyncNames => {
            folder.sync_names();
            Ok(())
        }
        Call::Read | Call::Has(_) | Call::Len(_) | Call::ReadAt(_) => Ok(()),
    }
}

impl MemHost {
    /// Counts a call. Whether it is planned to fail.
    pub(crate) fn fails_now(&mut self) -> bool
        ensures counted { self.new ≡ counted self.old }
        ensures room { length self.new.log < self.new.calls }
        ensures shown { ShowsCount self.old }
        ensures faults { (part : Part) → faults_of part self.new ≡ faults_of part self.old }
        ensures planned { IsTrue result ↔ IsPlanned self.old self.new.calls }
    {
        self.calls = self.calls.saturating_add(1);
        self.failing.contains(&self.calls) || self.stop < self.calls
    }

    pub(crate) fn fault(&mut self, part: Part)
        ensures faulted { self.new ≡ faulted part self.old }
        ensures later { faults_of part self.old ≤ faults_of part self.new }
        ensures rose { HasRisen (faults_of part self.old) (faults_of part self.new) }
        ensures shown { ShowsCount self.new }
    {
        match part {
            Part::Script => self.script_faults = self.script_faults.saturating_add(1),
            Part::Out => self.out_faults = self.out_faults.saturating_add(1),
            Part::Folder => self.folder_faults = self.folder_faults.saturating_add(1),
        }
    }

    /// The entry of a call with the counts as they are.
    fn entry(&self, call: Call, done: bool) -> Entry
        ensures { result ≡ entry_of call done self.now }
    {
        Entry {
            call,
            done,
            script_faults: self.script_faults,
            out_faults: self.out_faults,
            folder_faults: self.folder_faults,
            answered: self.answers,
        }
    }

    /// Logs a call that failed, where there is memory.
    pub(crate) fn keep_failed(&mut self, call: Call)
        requires room { length self.old.log < self.old.calls }
        ensures kept { (self.new ≡ self.old) ⊎ (self.new ≡ recorded call false self.old) }
        ensures faults { (part : Part) → faults_of part self.new ≡ faults_of part self.old }
    {
        let entry = self.entry(call, false);
        let _ = self.log.push(entry);
    }

    /// Does what the call asks for, and logs it.
    pub(crate) fn keep(&mut self, call: Call) -> Result<(), AllocError>
        requires room { length self.old.log < self.old.calls }
        requires can { CanPlay call (folder_of self.old) }
        ensures ok { OnOk result (self.new ≡ recorded call true self.old) }
        ensures err { OnErr result (self.new ≡ self.old) }
    {
        self.log.reserve(1)?;
        let entry = self.entry(call, true);
        apply(self.alloc, &mut self.folder, &mut self.output, &entry.call)?;
        let _ = self.log.push(entry);
        Ok(())
    }
}
