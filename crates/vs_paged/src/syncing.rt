// The syncs of a text, and the end of its swap files.
ghost use Rattle.std.specs.Prelude.{◌≡◌, ◌+◌, ◌<◌, ◌^◌, ◌∷◌, ℕ, List, IsErr, IsTrue, OnErr, OnOk, is_ok};
ghost use Rattle.vs_faults.specs.Faults.{HasCause};
ghost use Rattle.vs_disk.specs.Runs.{NoneFails};
ghost use Rattle.vs_pages.specs.Memory.{commits_of};
ghost use Rattle.vs_pair.specs.Acts.{Acts, WorksAtMost};
ghost use Rattle.vs_pair.specs.Pair.{Rises, shown_in};
ghost use Rattle.vs_pair.specs.Stale.{IsBehind};
ghost use Rattle.vs_pair.specs.Steps.{IsAbsent};
ghost use Rattle.vs_safety.specs.Texts.{Text, Sync, begun};
ghost use Rattle.vs_paged.specs.Turns.{TurnsFiles};
ghost use Rattle.vs_paged.specs.Fits.{Ending, Fits, FitsFolder, Syncing, acknowledged_sync, names_of};

use crate::PagedText;
use crate::head::head_of;
use vs_host::{Failed, Folder};
use vs_text::Format;

impl PagedText {
    /// The number of lines.
    pub fn len(&self) -> u64
        ensures { result ≡ self.now.tree.present.lines }
    {
        self.tree.len()
    }

    /// Writes the committed text in this format into the swap file that does not have the last acknowledged sync. `dirty` says
    /// whether it has changes that are not in the edited file. Then the pages leave memory but for a cache. It needs no memory.
    pub fn sync<F: Folder>(
        &mut self,
        host: &mut F,
        dirty: bool,
        format: Format,
    ) -> Result<(), Failed>
        requires room { self.old.pair.files.generation < 2 ^ 63 }
        requires fits { FitsFolder F.tells self.old (F.scene host.old).folder }
        ensures acts { Acts F.tells (Syncing self.old format) (F.scene host.old) (F.scene host.new) }
        ensures ok { OnOk result (IsTrue F.tells.folder → (text : Text) (syncs : List Sync) → Fits self.old (F.scene host.old).folder text syncs
            → Fits self.new (F.scene host.new).folder text (acknowledged_sync (record { text = text; format = format }) dirty ∷ syncs)) }
        ensures err { OnErr result (IsTrue F.tells.folder → (text : Text) (syncs : List Sync) → Fits self.old (F.scene host.old).folder text syncs
            → Fits self.new (F.scene host.new).folder text (begun (record { text = text; format = format }) dirty ∷ syncs)) }

        // Some file stands in every image with a generation above all before, exactly where the sync is acknowledged.
        ensures rises { OnOk result (IsTrue F.tells.folder → Rises (names_of self.old) (F.scene host.old).folder (F.scene host.new).folder) }
        ensures stays { OnErr result (IsTrue F.tells.folder → Rises (names_of self.old) (F.scene host.old).folder (F.scene host.new).folder → ⊥) }

        // It makes at most six calls and one for each number by which its file is behind the committed pages, beside at most as many that read
        // a page of the other file. After its Ok that file has all that was committed, and the other one is the next; after an error nothing is
        // known of its file.
        ensures behind { (most : ℕ) → IsBehind self.old.pair.pages self.old.pair.files.older_has most
            → WorksAtMost F.tells (F.scene host.old) (F.scene host.new) (6 + most) most }
        ensures turns { TurnsFiles (is_ok result) self.old.pair self.new.pair }

        // The pages are as they were, wherever they are.
        ensures shown { IsTrue F.tells.folder → shown_in self.new.pair (F.scene host.new).folder ≡ shown_in self.old.pair (F.scene host.old).folder }
        ensures commits { commits_of self.new.pair.pages ≡ commits_of self.old.pair.pages }
        ensures tree { self.new.tree ≡ self.old.tree }
        ensures names { names_of self.new ≡ names_of self.old }
        ensures generation { self.new.pair.files.generation ≡ self.old.pair.files.generation + 1 }
        ensures none { OnOk result (NoneFails F.tells (F.scene host.old) (F.scene host.new)) }
        ensures cause { HasCause (F.scene host.old).folder_faults (F.scene host.new).folder_faults (IsErr result) }
    {
        self.pair.sync(host, &head_of(&self.tree, dirty, format))
    }

    /// Removes both swap files, that of the last acknowledged sync after the other one. After an error the files that are left
    /// stay. It takes no memory.
    pub fn end<F: Folder>(self, host: &mut F) -> Result<(), Failed>
        requires fits { FitsFolder F.tells self (F.scene host.old).folder }
        ensures acts { Acts F.tells (Ending self) (F.scene host.old) (F.scene host.new) }
        ensures gone { OnOk result (IsTrue F.tells.folder
            → IsAbsent (names_of self).swp (F.scene host.new).folder × IsAbsent (names_of self).swo (F.scene host.new).folder) }
        ensures none { OnOk result (NoneFails F.tells (F.scene host.old) (F.scene host.new)) }
        ensures cause { HasCause (F.scene host.old).folder_faults (F.scene host.new).folder_faults (IsErr result) }
    {
        self.pair.end(host)
    }
}
