// The start of a pair.
ghost use Rattle.std.specs.Prelude.{◌≡◌, ◌∷◌, [], None, OnOk, OnErr, IsErr, IsTrue};
ghost use Rattle.vs_faults.specs.Faults.{HasCause};
ghost use Rattle.vs_disk.specs.Runs.{NoneFails};
ghost use Rattle.vs_pair.specs.Acts.{Acts};
ghost use Rattle.vs_pages.specs.Maps.{no_pages};
ghost use Rattle.vs_pages.specs.Memory.{committed_of, state_of, AreBacked};
ghost use Rattle.vs_pair.specs.Held.{held_with};
ghost use Rattle.vs_pair.specs.Lent.{IsStored};
ghost use Rattle.vs_pair.specs.Pair.{IsFit, known_of, known_with, name_of, shown_in, temporary_of, sync_fresh};
ghost use Rattle.vs_pair.specs.Steps.{BothEnd, BothMoved, IsAbsent, IsFresh, Makes, Starting};
ghost use Rattle.vs_pair.specs.Stale.{KnowsAll};
ghost use Rattle.vs_pair.specs.Swap.{IsFormatNumber, IsMade, body_of};
ghost use Rattle.vs_host.specs.Disk.{names_of};
ghost use Rattle.vs_host.specs.File.{Leaves};
ghost use Rattle.vs_disk.specs.Images.{FileHas};

use crate::head::page_zero;
use crate::making::make_file;
use crate::sending::send_pages;
use crate::side::{swap_name, temporary_name};
use crate::written::Written;
use crate::{Gate, Head, Side, SwapPair};
use vs_host::{Failed, Folder};

impl SwapPair {
    // Makes one of the files, with this generation.
    fn make<F: Folder>(
        &self,
        host: &mut F,
        side: Side,
        generation: u64,
        head: &Head,
    ) -> Result<(), Failed>
        requires known { IsFormatNumber head.now.format }
        requires here { IsTrue F.tells.folder → AreBacked no_pages self.now.pages }
        requires absent { IsTrue F.tells.folder → IsAbsent (name_of self.now.files.names side) (F.scene host.old).folder }
        ensures acts { Acts F.tells (Makes (temporary_of self.now.files.names side) (name_of self.now.files.names side)
            (body_of self.now.files.names.file (sync_fresh self.now generation head.now)))
            (F.scene host.old) (F.scene host.new) }
        ensures made { OnOk result (IsTrue F.tells.folder → FileHas (F.scene host.new).folder (name_of self.now.files.names side)
            (λ file. Leaves file (IsMade (body_of self.now.files.names.file (sync_fresh self.now generation head.now))))) }
        ensures moved { OnOk result (IsTrue F.tells.folder → names_of (F.scene host.new).folder (temporary_of self.now.files.names side) ≡ None) }
        ensures none { OnOk result (NoneFails F.tells (F.scene host.old) (F.scene host.new)) }
        ensures cause { HasCause (F.scene host.old).folder_faults (F.scene host.new).folder_faults (IsErr result) }
    {
        let names = &self.files.names;
        let first = page_zero(names.file.as_str(), generation, head);
        make_file(
            host,
            temporary_name(names, side),
            swap_name(names, side),
            &first,
            &self.pages,
        )
    }

    // Makes both files, the first with the generation 1 and the second with 2, and leaves both open. All pages stay in memory.
    fn start_files<F: Folder>(&mut self, host: &mut F, head: &Head) -> Result<(), Failed>
        requires new { self.old.files.generation ≡ 0 }
        requires known { IsFormatNumber head.now.format }
        requires here { IsTrue F.tells.folder → AreBacked no_pages self.old.pages }
        requires fresh { IsTrue F.tells.folder → IsFresh self.old.files.names (F.scene host.old).folder }
        ensures acts { Acts F.tells (Starting self.old.files.names (sync_fresh self.old 1 head.now) (sync_fresh self.old 2 head.now))
            (F.scene host.old) (F.scene host.new) }
        ensures ok { OnOk result (IsTrue F.tells.folder
            → IsFit (known_with self.new.files (held_with no_pages self.old.pages)) (F.scene host.new).folder
            (sync_fresh self.old 2 head.now) [] (sync_fresh self.old 1 head.now ∷ [])) }
        ensures ends { OnOk result (IsTrue F.tells.folder → BothEnd self.old.files.names (committed_of self.old.pages) (F.scene host.new).folder) }
        ensures moved { OnOk result (IsTrue F.tells.folder → BothMoved self.old.files.names (F.scene host.new).folder) }
        ensures sides { OnOk result ((self.new.files.newer ≡ Side.Swo) × (self.new.files.gate ≡ Gate.Open)) }
        ensures generation { OnOk result (self.new.files.generation ≡ 2) }
        ensures known_all { OnOk result (KnowsAll self.old.pages self.new.files.newer_has × KnowsAll self.old.pages self.new.files.older_has) }
        ensures stays { OnErr result (self.new.files ≡ self.old.files) }
        ensures pages { self.new.pages ≡ self.old.pages }
        ensures names { self.new.files.names ≡ self.old.files.names }
        ensures none { OnOk result (NoneFails F.tells (F.scene host.old) (F.scene host.new)) }
        ensures cause { HasCause (F.scene host.old).folder_faults (F.scene host.new).folder_faults (IsErr result) }
    {
        self.make(host, Side::Swp, 1, head)?;
        self.make(host, Side::Swo, 2, head)?;
        host.sync_names()?;
        self.files.newer = Side::Swo;
        self.files.gate = Gate::Open;
        self.files.generation = 2;
        let both = Written {
            commits: self.pages.commits(),
            end: self.pages.committed_end(),
        };
        self.files.newer_has = both;
        self.files.older_has = both;
        Ok(())
    }

    /// Makes both files, the first with the generation 1 and the second with 2, and leaves both open. Then all that was committed leaves
    /// memory but for the cache. After an error the pair is as before, and is of no more use.
    pub fn start<F: Folder>(&mut self, host: &mut F, head: &Head) -> Result<(), Failed>
        requires new { self.old.files.generation ≡ 0 }
        requires known { IsFormatNumber head.now.format }
        requires here { IsTrue F.tells.folder → AreBacked no_pages self.old.pages }
        requires fresh { IsTrue F.tells.folder → IsFresh self.old.files.names (F.scene host.old).folder }
        ensures acts { Acts F.tells (Starting self.old.files.names (sync_fresh self.old 1 head.now) (sync_fresh self.old 2 head.now))
            (F.scene host.old) (F.scene host.new) }
        ensures ok { OnOk result (IsTrue F.tells.folder
            → IsFit (known_of self.new (F.scene host.new).folder) (F.scene host.new).folder
            (sync_fresh self.old 2 head.now) [] (sync_fresh self.old 1 head.now ∷ [])) }

        // The pages are as they were, wherever they are.
        ensures stored { OnOk result (IsTrue F.tells.folder → IsStored self.new (F.scene host.new).folder) }
        ensures shown { OnOk result (IsTrue F.tells.folder → shown_in self.new (F.scene host.new).folder ≡ state_of self.old.pages) }
        ensures ends { OnOk result (IsTrue F.tells.folder → BothEnd self.old.files.names (committed_of self.old.pages) (F.scene host.new).folder) }
        ensures moved { OnOk result (IsTrue F.tells.folder → BothMoved self.old.files.names (F.scene host.new).folder) }
        ensures sides { OnOk result ((self.new.files.newer ≡ Side.Swo) × (self.new.files.gate ≡ Gate.Open)) }
        ensures generation { OnOk result (self.new.files.generation ≡ 2) }

        // Each file has all pages that are committed, so what a later sync writes is what changed since.
        ensures known_all { OnOk result (KnowsAll self.old.pages self.new.files.newer_has × KnowsAll self.old.pages self.new.files.older_has) }
        ensures stays { OnErr result (self.new.files ≡ self.old.files) }
        ensures names { self.new.files.names ≡ self.old.files.names }
        ensures none { OnOk result (NoneFails F.tells (F.scene host.old) (F.scene host.new)) }
        ensures cause { HasCause (F.scene host.old).folder_faults (F.scene host.new).folder_faults (IsErr result) }
    {
        self.start_files(host, head)?;
        send_pages(&mut self.pages, &mut self.cache);
        Ok(())
    }
}
