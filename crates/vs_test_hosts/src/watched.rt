// A host in memory with one who watches its calls.
ghost use Rattle.std.specs.Prelude.{◌≡◌, ◌<◌, ◌≤◌, true};
ghost use Rattle.vs_memory.specs.Memory.{scene_of, IsPlayed};
ghost use Rattle.vs_memory.specs.Validity.{is_folder, newest, most_counted};

use vs_host::{Clock, Failed, Folder, Host, Out, Script, World};
use vs_memory::MemHost;

/// What is seen of the calls on a host, of which no clause tells. Calls are counted from 1.
pub trait Watch {
    /// How many bytes of the script a read gets at most, where it asks for so many.
    fn piece(&self, asked: usize) -> usize
        ensures most { result ≤ asked }
        ensures some { 0 < asked → 0 < result }
    {
        asked
    }

    /// A read or a write of a file asks for so many bytes.
    fn asked(&mut self, _count: usize) {}

    /// A file is to be made, for its owner alone or for all.
    fn made(&mut self, _name: &str, _is_private: bool) {}

    /// A file is to get the mode bits of another.
    fn took_mode(&mut self, _from: &str, _to: &str) {}

    /// A file was to be renamed by this call.
    fn renamed(&mut self, _from: &str, _to: &str, _call: u64) {}

    /// A file was to be cut by this call.
    fn cut(&mut self, _name: &str, _call: u64) {}

    /// A file was to be removed by this call.
    fn removed(&mut self, _name: &str, _call: u64) {}
}

/// A host in memory, and who watches it.
#[derive(Drop)]
pub struct Watched<W: Watch + Drop> {
    pub inner: MemHost,
    pub watch: W,
}

impl<W: Watch + Drop> World for Watched<W> {
    ghost tells = { record { folder = true; output = true; script = true; clock = true } };

    ghost scene = { λ s. scene_of s.inner };

    ghost plays = { λ old new ok. IsPlayed old.inner new.inner ok };

    ghost is_folder = { λ s told. is_folder s.inner.base s.inner.log };

    ghost newest = { λ s told. newest s.inner };

    ghost counted = { λ s told. most_counted s.inner };
}

impl<W: Watch + Drop> Script for Watched<W> {
    fn read(&mut self, into: &mut [u8]) -> Result<usize, Failed> {
        let size = self.watch.piece(into.len());
        self.inner.read(&mut into[..size])
    }
}

impl<W: Watch + Drop> Out for Watched<W> {
    fn write(&mut self, piece: &[u8]) -> Result<(), Failed> {
        self.inner.write(piece)
    }
}

impl<W: Watch + Drop> Clock for Watched<W> {
    fn now(&mut self) -> u64 {
        self.inner.now()
    }
}

impl<W: Watch + Drop> Folder for Watched<W> {
    fn has(&mut self, name: &str) -> Result<bool, Failed> {
        self.inner.has(name)
    }

    fn create(&mut self, name: &str) -> Result<(), Failed> {
        self.watch.made(name, false);
        self.inner.create(name)
    }

    fn create_private(&mut self, name: &str) -> Result<(), Failed> {
        self.watch.made(name, true);
        self.inner.create_private(name)
    }

    fn len(&mut self, name: &str) -> Result<u64, Failed> {
        self.inner.len(name)
    }

    fn read_at(&mut self, name: &str, at: u64, into: &mut [u8]) -> Result<(), Failed> {
        self.watch.asked(into.len());
        self.inner.read_at(name, at, into)
    }

    fn write_at(&mut self, name: &str, at: u64, piece: &[u8]) -> Result<(), Failed> {
        self.watch.asked(piece.len());
        self.inner.write_at(name, at, piece)
    }

    fn cut(&mut self, name: &str, len: u64) -> Result<(), Failed> {
        let answer = self.inner.cut(name, len);
        self.watch.cut(name, self.inner.calls());
        answer
    }

    fn sync(&mut self, name: &str) -> Result<(), Failed> {
        self.inner.sync(name)
    }

    fn sync_like(&mut self, model: &str, name: &str) -> Result<(), Failed> {
        self.watch.took_mode(model, name);
        self.inner.sync_like(model, name)
    }

    fn rename(&mut self, from: &str, to: &str) -> Result<(), Failed> {
        let answer = self.inner.rename(from, to);
        self.watch.renamed(from, to, self.inner.calls());
        answer
    }

    fn remove(&mut self, name: &str) -> Result<(), Failed> {
        let answer = self.inner.remove(name);
        self.watch.removed(name, self.inner.calls());
        answer
    }

    fn sync_names(&mut self) -> Result<(), Failed> {
        self.inner.sync_names()
    }

    // This host tells its folder, so no caller can meet what the trait asks for.
    fn damaged(&mut self)
        ensures { self.new.watch ≡ self.old.watch }
    {
        self.inner.damaged();
    }
}

impl<W: Watch + Drop> Host for Watched<W> {}
