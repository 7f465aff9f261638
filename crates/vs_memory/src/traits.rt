// The traits of a host.
ghost use Rattle.std.specs.Prelude.{◌≡◌, ◌<◌, ◌^◌, true, IfOk, length, string_bytes};
ghost use Rattle.vs_memory.specs.Memory.{answered, faulted, ShowsCount};

use crate::file::{OWNER_MODE, USUAL_MODE};
use crate::host::MemHost;
use crate::log::{Call, Part};
use std::alloc::{AllocError, Global};
use vs_host::{Clock, Failed, Folder, Host, Out, Script, World};

impl World for MemHost {
    ghost use Rattle.vs_memory.specs.Memory.{scene_of, IsPlayed};
    ghost use Rattle.vs_memory.specs.Validity.{is_folder, newest, most_counted};

    ghost tells = { record { folder = true; output = true; script = true; clock = true } };

    ghost scene = { λ host. scene_of host };

    ghost plays = { λ old new ok. IsPlayed old new ok };

    ghost is_folder = { λ host told. is_folder host.base host.log };

    ghost newest = { λ host told. newest host };

    ghost counted = { λ host told. most_counted host };
}

impl Out for MemHost {
    fn write(&mut self, piece: &[u8]) -> Result<(), Failed> {
        let call = piece.to_vec(self.alloc).map(Call::Write);
        self.play(Part::Out, call)
    }
}

impl Clock for MemHost {
    fn now(&mut self) -> u64
        requires { length self.old.answers < 2 ^ 63 }
        ensures time { result ≡ self.old.clock }
        ensures host { self.new ≡ answered self.old }
    {
        self.answers += 1;
        self.clock
    }
}

impl Script for MemHost {
    fn read(&mut self, into: &mut [u8]) -> Result<usize, Failed> {
        self.play(Part::Script, Ok(Call::Read))?;
        let left = self.script.len() - self.script_at;
        let count = left.min(into.len());
        into[..count].copy_from_slice(&self.script[self.script_at..self.script_at + count]);
        self.script_at += count;
        Ok(count)
    }
}

impl Folder for MemHost {
    fn has(&mut self, name: &str) -> Result<bool, Failed> {
        let call = String::from_str(self.alloc, name).map(Call::Has);
        self.play(Part::Folder, call)?;
        Ok(self.folder.content(name).is_some())
    }

    fn create(&mut self, name: &str) -> Result<(), Failed> {
        let call = create_call(self.alloc, name, USUAL_MODE);
        self.play(Part::Folder, call)
    }

    fn create_private(&mut self, name: &str) -> Result<(), Failed> {
        let call = create_call(self.alloc, name, OWNER_MODE);
        self.play(Part::Folder, call)
    }

    fn len(&mut self, name: &str) -> Result<u64, Failed> {
        let call = String::from_str(self.alloc, name).map(Call::Len);
        self.play(Part::Folder, call)?;
        match self.folder.content(name) {
            Some(bytes) => Ok(bytes.len() as u64),
            None => Ok(0),
        }
    }

    fn read_at(&mut self, name: &str, at: u64, into: &mut [u8]) -> Result<(), Failed> {
        let call = String::from_str(self.alloc, name).map(Call::ReadAt);
        self.play(Part::Folder, call)?;
        match self.folder.content(name) {
            Some(bytes) => {
                let at = at as usize;
                let end = at + into.len();
                into.copy_from_slice(&bytes[at..end]);
                Ok(())
            }
            None => Ok(()),
        }
    }

    fn write_at(&mut self, name: &str, at: u64, piece: &[u8]) -> Result<(), Failed> {
        let call = write_call(self.alloc, name, at, piece);
        self.play(Part::Folder, call)
    }

    fn cut(&mut self, name: &str, len: u64) -> Result<(), Failed> {
        let call = cut_call(self.alloc, name, len);
        self.play(Part::Folder, call)
    }

    fn sync(&mut self, name: &str) -> Result<(), Failed> {
        let call = sync_call(self.alloc, name);
        self.play(Part::Folder, call)
    }

    fn sync_like(&mut self, model: &str, name: &str) -> Result<(), Failed> {
        let call = sync_like_call(self.alloc, model, name);
        self.play(Part::Folder, call)
    }

    fn rename(&mut self, from: &str, to: &str) -> Result<(), Failed> {
        let call = rename_call(self.alloc, from, to);
        self.play(Part::Folder, call)
    }

    fn remove(&mut self, name: &str) -> Result<(), Failed> {
        let call = String::from_str(self.alloc, name).map(Call::Remove);
        self.play(Part::Folder, call)
    }

    fn sync_names(&mut self) -> Result<(), Failed> {
        self.play(Part::Folder, Ok(Call::SyncNames))
    }

    // No caller can meet what the trait asks for, since this host tells its folder. So the condition is left out here.
    fn damaged(&mut self)
        ensures host { self.new ≡ faulted Part.Folder self.old }
        ensures shown { ShowsCount self.new }
    {
        self.folder_faults = self.folder_faults.saturating_add(1);
    }
}

impl Host for MemHost {}

fn write_call(alloc: Global, name: &str, at: u64, piece: &[u8]) -> Result<Call, AllocError>
    ensures { IfOk result (λ call. (n : _) × (p : _) × (string_bytes n ≡ name.now) × (p.items ≡ piece.now) × (call ≡ Call.WriteAt n at p)) }
{
    let name = String::from_str(alloc, name)?;
    let piece = piece.to_vec(alloc)?;
    Ok(Call::WriteAt(name, at, piece))
}

fn cut_call(alloc: Global, name: &str, len: u64) -> Result<Call, AllocError>
    ensures { IfOk result (λ call. (n : _) × (string_bytes n ≡ name.now) × (call ≡ Call.Cut n len)) }
{
    let name = String::from_str(alloc, name)?;
    Ok(Call::Cut(name, len))
}

fn sync_call(alloc: Global, name: &str) -> Result<Call, AllocError>
    ensures { IfOk result (λ call. (n : _) × (string_bytes n ≡ name.now) × (call ≡ Call.Sync n)) }
{
    let name = String::from_str(alloc, name)?;
    Ok(Call::Sync(name))
}

fn sync_like_call(alloc: Global, model: &str, name: &str) -> Result<Call, AllocError>
    ensures { IfOk result (λ call. (m : _) × (n : _) × (string_bytes m ≡ model.now) × (string_bytes n ≡ name.now) × (call ≡ Call.SyncLike m n)) }
{
    let model = String::from_str(alloc, model)?;
    let name = String::from_str(alloc, name)?;
    Ok(Call::SyncLike(model, name))
}

fn rename_call(alloc: Global, from: &str, to: &str) -> Result<Call, AllocError>
    ensures { IfOk result (λ call. (f : _) × (t : _) × (string_bytes f ≡ from.now) × (string_bytes t ≡ to.now) × (call ≡ Call.Rename f t)) }
{
    let from = String::from_str(alloc, from)?;
    let to = String::from_str(alloc, to)?;
    Ok(Call::Rename(from, to))
}

fn create_call(alloc: Global, name: &str, mode: u32) -> Result<Call, AllocError>
    ensures { IfOk result (λ call. (n : _) × (string_bytes n ≡ name.now) × (call ≡ Call.Create n mode)) }
{
    let name = String::from_str(alloc, name)?;
    Ok(Call::Create(name, mode))
}
