// Calls on a folder in memory.
ghost use Rattle.std.specs.Prelude.{◌≡◌, ◌<◌, ◌≤◌, ◌∷◌, length, OnOk, OnErr, IfSome, is_some, MatchOption, None, Some};
ghost use Rattle.vs_host.specs.File.{written, cut_to, synced_file};
ghost use Rattle.vs_host.specs.Disk.{content_in, mode_in, names_of, like, Renames, Removes};
ghost use Rattle.vs_memory.specs.Folders.{IsBelow, on_file, with_file, with_change, with_names, change_of};
ghost use Rattle.vs_memory.specs.Replay.{with_put};
ghost use Rattle.vs_memory.specs.Present.{disk_in};

use crate::file::{USUAL_MODE, empty, of_bytes};
use crate::folder::MemFolder;
use crate::names::{NameChange, number_of};
use std::alloc::{AllocError, Global};

impl MemFolder {
    fn number(&self, name: &str) -> Option<usize>
        ensures value { result ≡ names_of (disk_in self.now) name.now }
        ensures below { IfSome result (λ number. number < length self.now.files.items) }
    {
        number_of(&self.changes, name)
    }

    /// The bytes of a file.
    pub fn content(&self, name: &str) -> Option<&[u8]>
        ensures { MatchOption result (content_in (disk_in self.now) name.now ≡ None) (λ bytes. content_in (disk_in self.now) name.now ≡ Some bytes.now) }
    {
        match self.number(name) {
            Some(number) => Some(self.files[number].bytes.as_slice()),
            None => None,
        }
    }

    /// The mode of a file.
    pub fn mode(&self, name: &str) -> Option<u32>
        ensures { result ≡ mode_in (disk_in self.now) name.now }
    {
        match self.number(name) {
            Some(number) => Some(self.files[number].mode),
            None => None,
        }
    }

    pub fn create(&mut self, alloc: Global, name: &str, mode: u32) -> Result<(), AllocError>
        ensures ok { OnOk result (disk_in self.new ≡ with_file name.now mode (disk_in self.old)) }
        ensures err { OnErr result (disk_in self.new ≡ disk_in self.old) }
    {
        let change = NameChange::Create(String::from_str(alloc, name)?, self.files.len());
        self.files.push(empty(alloc, mode))?;
        if let Err(_) = self.changes.push(change) {
            self.files.pop();
            return Err(AllocError);
        }
        self.pending += 1;
        Ok(())
    }

    pub fn write_at(
        &mut self,
        alloc: Global,
        name: &str,
        at: usize,
        piece: &[u8],
    ) -> Result<(), AllocError>
        requires { IfSome (content_in (disk_in self.old) name.now) (λ bytes. at ≤ length bytes) }
        ensures ok { OnOk result (disk_in self.new ≡ on_file name.now (written at piece.now) (disk_in self.old)) }
        ensures err { OnErr result (disk_in self.new ≡ disk_in self.old) }
    {
        if let Some(number) = self.number(name) {
            self.files[number].write_at(alloc, at, piece)?;
        }
        Ok(())
    }

    pub fn cut(&mut self, alloc: Global, name: &str, len: usize) -> Result<(), AllocError>
        requires { IfSome (content_in (disk_in self.old) name.now) (λ bytes. len ≤ length bytes) }
        ensures ok { OnOk result (disk_in self.new ≡ on_file name.now (cut_to len) (disk_in self.old)) }
        ensures err { OnErr result (disk_in self.new ≡ disk_in self.old) }
    {
        if let Some(number) = self.number(name) {
            self.files[number].cut(alloc, len)?;
        }
        Ok(())
    }

    pub fn sync(&mut self, name: &str)
        ensures { disk_in self.new ≡ on_file name.now (λ file. synced_file file.bytes) (disk_in self.old) }
    {
        if let Some(number) = self.number(name) {
            self.files[number].sync();
        }
    }

    /// Gives a file the mode of the model, where both are there.
    fn take_mode(&mut self, model: &str, name: &str)
        ensures { disk_in self.new ≡ like model.now name.now (disk_in self.old) }
    {
        if let Some(from) = self.number(model) {
            if let Some(to) = self.number(name) {
                self.files[to].mode = self.files[from].mode;
            }
        }
    }

    pub fn sync_like(&mut self, model: &str, name: &str)
        ensures { disk_in self.new ≡ on_file name.now (λ file. synced_file file.bytes) (like model.now name.now (disk_in self.old)) }
    {
        self.take_mode(model, name);
        self.sync(name);
    }

    /// Adds a rename or a removal.
    fn change(&mut self, change: NameChange) -> Result<(), AllocError>
        requires { IsBelow 0 change }
        ensures ok { OnOk result (disk_in self.new ≡ with_change (change_of change) (disk_in self.old)) }
        ensures err { OnErr result (disk_in self.new ≡ disk_in self.old) }
    {
        self.changes.push(change)?;
        self.pending += 1;
        Ok(())
    }

    pub fn rename(&mut self, alloc: Global, from: &str, to: &str) -> Result<(), AllocError>
        ensures ok { OnOk result (disk_in self.new ≡ with_change (Renames from.now to.now) (disk_in self.old)) }
        ensures err { OnErr result (disk_in self.new ≡ disk_in self.old) }
    {
        let from = String::from_str(alloc, from)?;
        let to = String::from_str(alloc, to)?;
        self.change(NameChange::Rename(from, to))
    }

    pub fn remove(&mut self, alloc: Global, name: &str) -> Result<(), AllocError>
        ensures ok { OnOk result (disk_in self.new ≡ with_change (Removes name.now) (disk_in self.old)) }
        ensures err { OnErr result (disk_in self.new ≡ disk_in self.old) }
    {
        let name = String::from_str(alloc, name)?;
        self.change(NameChange::Remove(name))
    }

    pub fn sync_names(&mut self)
        ensures { disk_in self.new ≡ with_names (disk_in self.old) }
    {
        self.pending = 0;
    }

    /// Puts a file of these bytes and of the usual mode under a name, and makes all names lasting.
    pub fn put(&mut self, alloc: Global, name: &str, bytes: Vec<u8>) -> Result<(), AllocError>
        ensures ok { OnOk result (disk_in self.new ≡ with_put name.now bytes.items (disk_in self.old)) }
        ensures err { OnErr result (disk_in self.new ≡ disk_in self.old) }
    {
        let change = NameChange::Create(String::from_str(alloc, name)?, self.files.len());
        self.files.push(of_bytes(alloc, USUAL_MODE, bytes))?;
        if let Err(_) = self.changes.push(change) {
            self.files.pop();
            return Err(AllocError);
        }
        self.pending = 0;
        Ok(())
    }
}
