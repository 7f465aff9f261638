// A host whose script is one comment, again and again. It tells nothing, has no file, and takes what is written.
ghost use Rattle.std.specs.Prelude.{◌≡◌, ◌≤◌, [], false, length};
ghost use Rattle.vs_faults.specs.Faults.{HasRisen};
ghost use Rattle.vs_host.specs.Untold.{never, no_folder};

use std::alloc::Global;
use std::test::Fail;
use vs_host::{Clock, Failed, Folder, Host, Out, Script, World};

#[derive(Drop)]
pub struct Comments {
    /// The line with its end.
    pub line: Vec<u8>,
    /// How many times it is still to come.
    pub left: u64,
    /// What comes after the last one.
    pub tail: Vec<u8>,
    pub output: Vec<u8>,
    out_faults: u64,
    folder_faults: u64,
}

/// A comment of 65,535 bytes and its end.
fn comment(alloc: Global) -> Result<Vec<u8>, Fail> {
    let mut line = Vec::from_slice(alloc, b"\"")?;
    line.resize(65_535, b'x')?;
    line.push(b'\n')?;
    Ok(line)
}

impl Comments {
    /// A comment of 65,536 bytes, 16,384 times, and these bytes after it.
    pub(crate) fn of_a_gibibyte(alloc: Global, tail: &[u8]) -> Result<Comments, Fail> {
        Ok(Comments {
            line: comment(alloc)?,
            left: 16_384,
            tail: Vec::from_slice(alloc, tail)?,
            output: Vec::new(alloc),
            out_faults: 0,
            folder_faults: 0,
        })
    }

    fn fail(&mut self) -> Failed
        ensures later { self.old.folder_faults ≤ self.new.folder_faults }
        ensures rose { HasRisen self.old.folder_faults self.new.folder_faults }
        ensures same { self.new.out_faults ≡ self.old.out_faults }
    {
        self.folder_faults = self.folder_faults.saturating_add(1);
        Failed
    }
}

impl World for Comments {
    ghost tells = { record { folder = false; output = false; script = false; clock = false } };

    ghost scene = { λ s. record {
      folder = no_folder;
      output = [];
      script = [];
      answers = [];
      script_faults = 0;
      out_faults = s.out_faults;
      folder_faults = s.folder_faults;
      trace = [];
    } };

    ghost plays = { λ _ _ _. Unit {0} };

    ghost is_folder = { λ host told. never told };

    ghost newest = { λ host told. never told };

    ghost counted = { λ host told. never told };
}

/// Copies the front of some bytes, and answers how many.
fn copy(from: &[u8], into: &mut [u8]) -> usize
    ensures { result ≤ length into.new }
{
    let count = from.len().min(into.len());
    into[..count].copy_from_slice(&from[..count]);
    count
}

impl Script for Comments {
    // Each read takes a whole line, for which the reader has room.
    fn read(&mut self, into: &mut [u8]) -> Result<usize, Failed> {
        if self.left > 0 {
            self.left -= 1;
            return Ok(copy(&self.line, into));
        }
        let count = copy(&self.tail, into);
        self.tail.clear();
        Ok(count)
    }
}

impl Out for Comments {
    fn write(&mut self, piece: &[u8]) -> Result<(), Failed> {
        match self.output.extend_from_slice(piece) {
            Ok(()) => Ok(()),
            Err(_) => {
                self.out_faults = self.out_faults.saturating_add(1);
                Err(Failed)
            }
        }
    }
}

impl Clock for Comments {
    fn now(&mut self) -> u64 {
        0
    }
}

impl Folder for Comments {
    fn has(&mut self, _name: &str) -> Result<bool, Failed> {
        Ok(false)
    }

    fn create(&mut self, _name: &str) -> Result<(), Failed> {
        Ok(())
    }

    fn create_private(&mut self, _name: &str) -> Result<(), Failed> {
        Ok(())
    }

    fn len(&mut self, _name: &str) -> Result<u64, Failed> {
        Err(self.fail())
    }

    fn read_at(&mut self, _name: &str, _at: u64, _into: &mut [u8]) -> Result<(), Failed> {
        Err(self.fail())
    }

    fn write_at(&mut self, _name: &str, _at: u64, _piece: &[u8]) -> Result<(), Failed> {
        Ok(())
    }

    fn cut(&mut self, _name: &str, _len: u64) -> Result<(), Failed> {
        Ok(())
    }

    fn sync(&mut self, _name: &str) -> Result<(), Failed> {
        Ok(())
    }

    fn sync_like(&mut self, _model: &str, _name: &str) -> Result<(), Failed> {
        Ok(())
    }

    fn rename(&mut self, _from: &str, _to: &str) -> Result<(), Failed> {
        Ok(())
    }

    fn remove(&mut self, _name: &str) -> Result<(), Failed> {
        Ok(())
    }

    fn sync_names(&mut self) -> Result<(), Failed> {
        Ok(())
    }

    fn damaged(&mut self) {
        let _ = self.fail();
    }
}

impl Host for Comments {}
