// A script that is made as it is read.
ghost use Rattle.vs_host.specs.Untold.{never, no_folder};
ghost use Rattle.std.specs.Prelude.{[], false};

use vs_host::{Failed, Script, World};

/// A unit that is repeated, and other bytes, in pieces of at most this size. It tells nothing.
#[derive(Drop)]
pub struct Source {
    pub unit: Vec<u8>,
    pub times: u64,
    pub tail: Vec<u8>,
    pub piece: usize,
    /// How many bytes were read.
    pub at: u64,
}

impl World for Source {
    ghost tells = { record { folder = false; output = false; script = false; clock = false } };

    ghost scene = { λ s. record {
      folder = no_folder;
      output = [];
      script = [];
      answers = [];
      script_faults = 0;
      out_faults = 0;
      folder_faults = 0;
      trace = [];
    } };

    ghost plays = { λ _ _ _. Unit {0} };

    ghost is_folder = { λ source told. never told };

    ghost newest = { λ source told. never told };

    ghost counted = { λ source told. never told };
}

/// The bytes from a place on, where there are any.
fn from(bytes: &[u8], at: u64) -> &[u8] {
    if at < bytes.len() as u64 {
        return &bytes[at as usize..];
    }
    &[]
}

impl Source {
    fn next(&self) -> &[u8] {
        let size = self.unit.len() as u64;
        if size > 0 && self.at / size < self.times {
            return from(&self.unit, self.at % size);
        }
        from(
            &self.tail,
            self.at.saturating_sub(size.saturating_mul(self.times)),
        )
    }
}

impl Script for Source {
    fn read(&mut self, into: &mut [u8]) -> Result<usize, Failed> {
        let next = self.next();
        let count = next.len().min(into.len()).min(self.piece);
        into[..count].copy_from_slice(&next[..count]);
        self.at = self.at.saturating_add(count as u64);
        Ok(count)
    }
}
