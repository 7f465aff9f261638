// What is seen of the calls of a write: how much they ask for, and by which of them the file `f` gets its backup and loses it.
ghost use Rattle.std.specs.Prelude.{◌≡◌};

use vs_memory::MemHost;
use vs_test_hosts::{Watch, Watched};

/// The calls of a run. They are counted from 1, and 0 stands for none.
#[derive(Drop)]
pub struct Calls {
    /// The name of the backup.
    pub backup: &'static str,
    /// The greatest number of bytes that one call on a file asked for.
    pub most: usize,
    /// The last call that renamed the file to the backup.
    pub renamed: u64,
    /// The last call that cut the file.
    pub cut: u64,
    /// The last call that removed the backup.
    pub removed: u64,
}

/// A host whose file `f` gets a backup of this name.
pub(crate) fn watched(inner: MemHost, backup: &'static str) -> Watched<Calls>
    ensures { result.inner ≡ inner }
{
    Watched {
        inner,
        watch: Calls {
            backup,
            most: 0,
            renamed: 0,
            cut: 0,
            removed: 0,
        },
    }
}

impl Watch for Calls {
    fn asked(&mut self, count: usize) {
        self.most = self.most.max(count);
    }

    fn renamed(&mut self, from: &str, to: &str, call: u64) {
        if from == "f" && to == self.backup {
            self.renamed = call;
        }
    }

    fn cut(&mut self, name: &str, call: u64) {
        if name == "f" {
            self.cut = call;
        }
    }

    fn removed(&mut self, name: &str, call: u64) {
        if name == self.backup {
            self.removed = call;
        }
    }
}
