// What is seen of the calls of a write: how much they ask for, and who may read its files.
use std::alloc::Global;
use vs_memory::MemHost;
use vs_test_hosts::{Watch, Watched};

/// The mode bits of a new file, and of one that is made for its owner alone.
pub const USUAL: u32 = 0o644;

pub const PRIVATE: u32 = 0o600;

/// What no clause tells of a folder.
#[derive(Drop)]
pub struct Seen {
    /// The greatest number of bytes that one call asked for.
    pub most: usize,
    /// The mode bits that files got, by name and in order.
    pub modes: Vec<(String, u32)>,
    alloc: Global,
}

/// A folder that is watched.
pub(crate) fn watched(alloc: Global, inner: MemHost) -> Watched<Seen> {
    Watched {
        inner,
        watch: Seen {
            most: 0,
            modes: Vec::new(alloc),
            alloc,
        },
    }
}

impl Seen {
    /// The file of this name gets these mode bits.
    pub(crate) fn note(&mut self, name: &str, mode: u32) {
        if let Ok(name) = String::from_str(self.alloc, name) {
            let _ = self.modes.push((name, mode));
        }
    }

    fn note_as(&mut self, from: &str, to: &str) {
        if let Some(mode) = self.mode(from) {
            self.note(to, mode);
        }
    }

    fn mode(&self, name: &str) -> Option<u32> {
        let mut last = None;
        for (known, mode) in &self.modes {
            if known.as_str() == name {
                last = Some(*mode);
            }
        }
        last
    }
}

impl Watch for Seen {
    fn asked(&mut self, count: usize) {
        self.most = self.most.max(count);
    }

    fn made(&mut self, name: &str, is_private: bool) {
        self.note(name, if is_private { PRIVATE } else { USUAL });
    }

    fn took_mode(&mut self, from: &str, to: &str) {
        self.note_as(from, to);
    }

    fn renamed(&mut self, from: &str, to: &str, _call: u64) {
        self.note_as(from, to);
    }
}
