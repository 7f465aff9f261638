// The calls of a host in memory.
ghost use Rattle.std.specs.Prelude.{◌≡◌, ◌⊎◌, ◌++◌, ◌∷◌, [], true, false, ℕ, List, IfOk, OnOk, OnErr, IsErr, Ok, MatchOption, None, Some, is_ok, reverse};
ghost use Rattle.vs_host.specs.Disk.{content_in, mode_in};
ghost use Rattle.vs_memory.specs.declared.log.Call.{Call};
ghost use Rattle.vs_faults.specs.Faults.{HasCause};
ghost use Rattle.vs_host.specs.Trace.{writes_in};
ghost use Rattle.vs_memory.specs.Replay.{CanPlay, trace_after};
ghost use Rattle.vs_memory.specs.Memory.{fresh_memory, counted, faulted, recorded, faults_of, folder_of, output_of, unlogged, IsPlayed};

use crate::folder::MemFolder;
use crate::host::{MemHost, PutFile};
use crate::log::{Call, Entry, Part};
use std::alloc::{AllocError, Global};
use vs_host::Failed;

impl MemHost {
    /// A host with an empty folder, the clock at 0, and no call planned to fail.
    pub fn new(alloc: Global, script: Vec<u8>) -> Result<MemHost, AllocError>
        ensures { IfOk result (λ host. host ≡ fresh_memory script.items) }
    {
        Ok(MemHost {
            alloc,
            script,
            script_at: 0,
            output: Vec::new(alloc),
            base: Vec::new(alloc),
            log: Vec::new(alloc),
            folder: MemFolder {
                changes: Vec::new(alloc),
                pending: 0,
                files: Vec::new(alloc),
            },
            clock: 0,
            answers: 0,
            calls: 0,
            failing: Vec::new(alloc),
            stop: u64::MAX,
            script_faults: 0,
            out_faults: 0,
            folder_faults: 0,
        })
    }

    /// Puts a synced file of the usual mode under a synced name, before any call is made.
    pub fn put(&mut self, alloc: Global, name: &str, bytes: Vec<u8>) -> Result<(), AllocError>
        requires unused { self.old.calls ≡ 0 }
        requires absent { content_in (folder_of self.old) name.now ≡ None }
        ensures ok { OnOk result (self.new ≡ record self.old { base = (name.now, bytes.items) ∷ self.old.base }) }
        ensures err { OnErr result (self.new ≡ self.old) }
    {
        let file = PutFile {
            name: String::from_str(alloc, name)?,
            bytes: Vec::from_slice(alloc, &bytes)?,
        };
        self.base.reserve(1)?;
        self.folder.put(alloc, name, bytes)?;
        let _ = self.base.push(file);
        Ok(())
    }

    /// Plans the `n`-th call to fail and to change nothing. Calls are counted from 1 over all traits, without the clock's.
    pub fn fail_call(&mut self, _alloc: Global, n: u64) -> Result<(), AllocError>
        ensures ok { OnOk result (self.new ≡ record self.old { failing = self.old.failing ++ n ∷ [] }) }
        ensures err { OnErr result (self.new ≡ self.old) }
    {
        self.failing.push(n)?;
        Ok(())
    }

    /// Plans every call after the `k`-th to fail and to change nothing.
    pub fn stop_after(&mut self, k: u64)
        ensures { self.new ≡ record self.old { stop = k } }
    {
        self.stop = k;
    }

    /// Sets what the clock answers, in seconds, before it was asked.
    pub fn set_clock(&mut self, seconds: u64)
        requires { self.old.answers ≡ [] }
        ensures { self.new ≡ record self.old { clock = seconds } }
    {
        self.clock = seconds;
    }

    /// How many calls were made, without the clock's.
    pub fn calls(&self) -> u64
        ensures { result ≡ self.now.calls }
    {
        self.calls
    }

    /// How many calls found no memory. They failed, also where that was not planned, and are not in the log.
    pub fn unlogged(&self) -> u64
        ensures { result ≡ unlogged self.now }
    {
        self.calls - self.log.len() as u64
    }

    /// All that was written.
    pub fn output(&self) -> &[u8]
        ensures { result.now ≡ output_of self.now }
    {
        self.output.as_slice()
    }

    /// The bytes of a file.
    pub fn file(&self, name: &str) -> Option<&[u8]>
        ensures { MatchOption result (content_in (folder_of self.now) name.now ≡ None)
            (λ bytes. content_in (folder_of self.now) name.now ≡ Some bytes.now) }
    {
        self.folder.content(name)
    }

    /// The mode of a file.
    pub fn mode(&self, name: &str) -> Option<u32>
        ensures { result ≡ mode_in (folder_of self.now) name.now }
    {
        self.folder.mode(name)
    }

    /// How many calls of `write_at` were made on a name.
    pub fn writes(&self, name: &str) -> u64
        ensures { result ≡ writes_in (trace_after self.now.base self.now.log) name.now }
    {
        count_writes(&self.log, name)
    }

    /// Makes a call, unless it is planned to fail or finds no memory: then a fault is counted.
    pub(crate) fn play(&mut self, part: Part, call: Result<Call, AllocError>) -> Result<(), Failed>
        requires { IfOk call (λ c. CanPlay c (folder_of self.old)) }
        ensures ok { OnOk result ((c : Call) × (call ≡ Ok c) × (self.new ≡ recorded c true (counted self.old))) }
        ensures err { OnErr result ((self.new ≡ faulted part (counted self.old))
            ⊎ ((c : Call) × (call ≡ Ok c) × (self.new ≡ recorded c false (faulted part (counted self.old))))) }
        ensures cause { HasCause (faults_of part self.old) (faults_of part self.new) (IsErr result) }
        ensures plays { IsPlayed self.old self.new (is_ok result) }
    {
        let fails = self.fails_now();
        match call {
            Ok(call) => {
                if fails {
                    self.fault(part);
                    self.keep_failed(call);
                    return Err(Failed);
                }
                match self.keep(call) {
                    Ok(()) => Ok(()),
                    Err(_) => {
                        self.fault(part);
                        Err(Failed)
                    }
                }
            }
            Err(_) => {
                self.fault(part);
                Err(Failed)
            }
        }
    }
}

fn count_writes(log: &[Entry], name: &str) -> u64
    ensures { (base : List (List ℕ × List ℕ)) → result ≡ writes_in (trace_after base (reverse log.now)) name.now }
{
    let mut count = 0;
    for entry in log {
        if let Call::WriteAt(written, _, _) = &entry.call {
            if written.as_str() == name {
                count += 1;
            }
        }
    }
    count
}
