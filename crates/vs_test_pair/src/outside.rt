// A host of which no contract says what a file has, so that a test may alter a file between two calls.
ghost use Rattle.std.specs.Prelude.{◌≡◌, [], false, IfOk, OnOk, IsErr, length};
ghost use Rattle.vs_faults.specs.Faults.{HasCause};
ghost use Rattle.vs_host.specs.Untold.{never, no_folder};

use crate::held::HeldFiles;
use std::alloc::Global;
use std::test::Fail;
use vs_host::{Failed, Folder, World};
use vs_pages::PAGE_SIZE;

/// Files in memory. It tells nothing of them, and counts its faults.
#[derive(Drop)]
pub struct Outside {
    pub files: HeldFiles,
    pub faults: u64,
}

// The place of a page in a file.
fn place_of(page: u64) -> u64 {
    page.saturating_mul(PAGE_SIZE as u64)
}

impl Outside {
    pub fn new(alloc: Global) -> Outside {
        Outside {
            files: HeldFiles::new(alloc),
            faults: 0,
        }
    }

    /// The page of a file.
    pub fn page(&self, alloc: Global, name: &str, page: u64) -> Result<Vec<u8>, Fail>
        ensures { IfOk result (λ bytes. length bytes.items ≡ 4096) }
    {
        let mut bytes = vec![in alloc; 0; PAGE_SIZE]?;
        match self.files.read(name, place_of(page), &mut bytes) {
            Some(()) => Ok(bytes),
            None => Err(Fail::new("the file has no such page")),
        }
    }

    /// Writes over a page of a file from outside.
    pub fn alter(&mut self, name: &str, page: u64, bytes: &[u8]) -> Result<(), Fail> {
        match self.files.write(name, place_of(page), bytes) {
            Some(()) => Ok(()),
            None => Err(Fail::new("there is no such file")),
        }
    }

    // What a call answers that was done, or not.
    fn answer<T: Drop>(&mut self, done: Option<T>) -> Result<T, Failed>
        ensures cause { HasCause self.old.faults self.new.faults (IsErr result) }
        ensures quiet { OnOk result (self.new.faults ≡ self.old.faults) }
    {
        match done {
            Some(value) => Ok(value),
            None => {
                self.faults = self.faults.saturating_add(1);
                Err(Failed)
            }
        }
    }
}

impl World for Outside {
    ghost tells = { record { folder = false; output = false; script = false; clock = false } };

    ghost scene = { λ s. record {
      folder = no_folder;
      output = [];
      script = [];
      answers = [];
      script_faults = 0;
      out_faults = 0;
      folder_faults = s.faults;
      trace = [];
    } };

    ghost plays = { λ _ _ _. Unit {0} };

    ghost is_folder = { λ host told. never told };

    ghost newest = { λ host told. never told };

    ghost counted = { λ host told. never told };
}

impl Folder for Outside {
    fn has(&mut self, name: &str) -> Result<bool, Failed> {
        Ok(self.files.bytes(name).is_some())
    }

    fn create(&mut self, name: &str) -> Result<(), Failed> {
        let done = self.files.make(name);
        self.answer(done)
    }

    fn create_private(&mut self, name: &str) -> Result<(), Failed> {
        let done = self.files.make(name);
        self.answer(done)
    }

    fn len(&mut self, name: &str) -> Result<u64, Failed> {
        let done = self.files.size(name);
        self.answer(done)
    }

    fn read_at(&mut self, name: &str, at: u64, into: &mut [u8]) -> Result<(), Failed> {
        let done = self.files.read(name, at, into);
        self.answer(done)
    }

    fn write_at(&mut self, name: &str, at: u64, piece: &[u8]) -> Result<(), Failed> {
        let done = self.files.write(name, at, piece);
        self.answer(done)
    }

    fn cut(&mut self, name: &str, len: u64) -> Result<(), Failed> {
        let done = self.files.cut(name, len);
        self.answer(done)
    }

    fn sync(&mut self, _name: &str) -> Result<(), Failed> {
        Ok(())
    }

    fn sync_like(&mut self, _model: &str, _name: &str) -> Result<(), Failed> {
        Ok(())
    }

    fn rename(&mut self, from: &str, to: &str) -> Result<(), Failed> {
        let done = self.files.rename(from, to);
        self.answer(done)
    }

    fn remove(&mut self, name: &str) -> Result<(), Failed> {
        let done = self.files.remove(name);
        self.answer(done)
    }

    fn sync_names(&mut self) -> Result<(), Failed> {
        Ok(())
    }

    fn damaged(&mut self) {
        self.faults = self.faults.saturating_add(1);
    }
}
