// The swap pair of a session.
ghost use Rattle.std.specs.Prelude.{◌≡◌, ◌+◌, ◌<◌, ◌≤◌, ◌^◌, ◌∷◌, [], ℕ, List, false, is_some, length, OnOk, OnErr, IfOk, IsErr, IsTrue};
ghost use Rattle.vs_faults.specs.Faults.{HasCause};
ghost use Rattle.vs_host.specs.Disk.{ChangesFile};
ghost use Rattle.vs_host.specs.Names.{is_allowed, names_of_file};
ghost use Rattle.vs_pages.specs.Maps.{first_pages, no_pages};
ghost use Rattle.vs_pages.specs.Memory.{commits_of, committed_of, first_kept_of, present_of, AreBacked};
ghost use Rattle.vs_disk.specs.Runs.{NoneFails};
ghost use Rattle.vs_pair.specs.Acts.{Acts, WorksAtMost};
ghost use Rattle.vs_text.specs.Documents.{Document};
ghost use Rattle.vs_pair.specs.Swap.{IsFormatNumber, Lengthens, Synced, page_zero};
ghost use Rattle.vs_pair.specs.Pair.{IsFit, HasFit, Syncing, IsDocumentOf, Rises, name_of, other_side};
ghost use Rattle.vs_pair.specs.Stale.{HasChanged, IsBehind, IsEnd, SparesFresh, nothing, stale_below};

use crate::cache::Cache;
use crate::head::page_zero;
use crate::sending::send_pages;
use crate::side::{Side, swap_name};
use crate::writing::sync_file;
use crate::written::Written;
use crate::{Gate, Head, SwapFiles};
use std::alloc::{AllocError, Global};
use vs_host::{Failed, Folder, NameErr, Names};
use vs_pages::MemPages;

/// The pages of a session, and the two swap files that keep them. The files are synced in turn: while one is written, the other
/// one stands.
pub struct SwapPair {
    /// The pages, which a text may be put into before the start.
    pub pages: MemPages,
    /// What is known of the files, by their names.
    pub files: SwapFiles,
    // Pages of the file of the last acknowledged sync.
    pub(crate) cache: Cache,
}

// A value with much in it is dropped by a call.
impl Drop for SwapPair {
    fn drop(self) {
        let SwapPair {
            pages: _,
            files: _,
            cache: _,
        } = self;
    }
}

impl SwapPair {
    ghost use Rattle.vs_pair.specs.Lent.{IsStored};
    ghost use Rattle.vs_pair.specs.Pair.{away_of, committed_in, held_in, known_of, known_with, shown_in, sync_of};

    /// A pair for the file of this name, with the pages 0, 1 and 2 as zeros. It makes no file.
    pub fn new(alloc: Global, name: &str) -> Result<SwapPair, AllocError>
        requires { IsTrue (is_allowed name.now) }
        ensures names { IfOk result (λ pair. pair.files.names ≡ names_of_file name.now) }
        ensures present { IfOk result (λ pair. present_of pair.pages ≡ first_pages) }
        ensures committed { IfOk result (λ pair. committed_of pair.pages ≡ first_pages) }
        ensures here { IfOk result (λ pair. AreBacked no_pages pair.pages) }
        ensures generation { IfOk result (λ pair. pair.files.generation ≡ 0) }
    {
        let names = match Names::of(alloc, name) {
            Ok(names) => names,
            Err(NameErr::NoMemory) => return Err(AllocError),
            Err(NameErr::NotAllowed) => unreachable!(),
        };
        Ok(SwapPair {
            pages: MemPages::new(alloc)?,
            files: SwapFiles {
                names,
                newer: Side::Swo,
                gate: Gate::Open,
                newer_has: Written::NOTHING,
                older_has: Written::NOTHING,
                generation: 0,
            },
            cache: Cache::new(alloc)?,
        })
    }

    // Brings the file that does not hold the last acknowledged sync to the committed pages, and it is then the newer one.
    fn write_older<F: Folder>(&mut self, host: &mut F, head: &Head) -> Result<(), Failed>
        requires started { 2 ≤ self.old.files.generation }
        requires room { self.old.files.generation < 2 ^ 63 }
        requires known { IsFormatNumber head.now.format }
        requires fits { IsTrue F.tells.folder → HasFit (known_of self.old (F.scene host.old).folder) (F.scene host.old).folder }
        requires backed { IsTrue F.tells.folder → AreBacked (away_of self.old.files (F.scene host.old).folder) self.old.pages }
        ensures acts { Acts F.tells (Syncing (known_of self.old (F.scene host.old).folder) (sync_of self.old (F.scene host.old).folder head.now))
            (F.scene host.old) (F.scene host.new) }
        ensures ok { OnOk result (IsTrue F.tells.folder → (newest : Synced) (begun past : List Synced)
            → IsFit (known_of self.old (F.scene host.old).folder) (F.scene host.old).folder newest begun past
            → IsFit (known_with self.new.files (held_in self.old (F.scene host.old).folder)) (F.scene host.new).folder
            (sync_of self.old (F.scene host.old).folder head.now) [] (newest ∷ past)) }
        ensures err { OnErr result (IsTrue F.tells.folder → (newest : Synced) (begun past : List Synced)
            → IsFit (known_of self.old (F.scene host.old).folder) (F.scene host.old).folder newest begun past
            → IsFit (known_with self.new.files (held_in self.old (F.scene host.old).folder)) (F.scene host.new).folder
            newest (sync_of self.old (F.scene host.old).folder head.now ∷ begun) past) }

        // Only pages that may differ in the file are written: in each image at each moment all others stand as before.
        ensures spared { Acts F.tells (ChangesFile (name_of self.old.files.names (other_side self.old.files.newer))
            (SparesFresh (commits_of self.old.pages) self.old.files.older_has)) (F.scene host.old) (F.scene host.new) }

        // The file comes to go up to its last page, or goes as far as before.
        ensures grown { OnOk result (IsTrue F.tells.folder → ChangesFile (name_of self.old.files.names (other_side self.old.files.newer))
            (Lengthens (committed_in self.old (F.scene host.old).folder)) (F.scene host.old).folder (F.scene host.new).folder) }

        // Some file stands in every image with a generation above all before, exactly where the sync is acknowledged.
        ensures rises { OnOk result (IsTrue F.tells.folder → (document : Document)
            → IsDocumentOf (sync_of self.old (F.scene host.old).folder head.now) document
            → Rises self.old.files.names (F.scene host.old).folder (F.scene host.new).folder) }
        ensures stays { OnErr result (IsTrue F.tells.folder → (newest : Synced) (begun past : List Synced)
            → IsFit (known_of self.old (F.scene host.old).folder) (F.scene host.old).folder newest begun past
            → (document : Document) → IsDocumentOf newest document
            → Rises self.old.files.names (F.scene host.old).folder (F.scene host.new).folder → ⊥) }
        ensures away { OnErr result (IsTrue F.tells.folder
            → away_of self.new.files (F.scene host.new).folder ≡ away_of self.old.files (F.scene host.old).folder) }
        ensures pages { self.new.pages ≡ self.old.pages }
        ensures cache { self.new.cache ≡ self.old.cache }
        ensures names { self.new.files.names ≡ self.old.files.names }
        ensures generation { self.new.files.generation ≡ self.old.files.generation + 1 }
        ensures none { OnOk result (NoneFails F.tells (F.scene host.old) (F.scene host.new)) }
        ensures cause { HasCause (F.scene host.old).folder_faults (F.scene host.new).folder_faults (IsErr result) }

        // Six calls and one for each page that may differ in the file, at most, beside a read for each such page. What may differ is what a
        // commit changed since the file was synced.
        ensures works { (end : ℕ) → IsEnd self.old.pages end
            → WorksAtMost F.tells (F.scene host.old) (F.scene host.new)
            (6 + stale_below (commits_of self.old.pages) self.old.files.older_has end) (stale_below (commits_of self.old.pages) self.old.files.older_has end) }
        ensures turned { OnOk result (self.new.files.older_has ≡ self.old.files.newer_has) }
        ensures commits { OnOk result (self.new.files.newer_has.commits ≡ (commits_of self.old.pages).count) }
        ensures ended { OnOk result ((k : ℕ) → self.new.files.newer_has.end ≤ k → is_some (first_kept_of self.old.pages k) ≡ false) }

        // After an error nothing is known of the pages of that file, and of the other one all that was.
        ensures forgotten { OnErr result (self.new.files.older_has ≡ nothing) }
        ensures remembered { OnErr result (self.new.files.newer_has ≡ self.old.files.newer_has) }
    {
        let files = &mut self.files;
        files.generation += 1;
        let older = files.newer.other();
        let first = page_zero(files.names.file.as_str(), files.generation, head);
        let name = swap_name(&files.names, older);
        let from = swap_name(&files.names, files.newer);
        let had = files.older_has;
        files.older_has = Written::NOTHING;
        sync_file(host, name, from, &mut files.gate, &first, &self.pages, &had)?;
        files.newer = older;
        files.older_has = files.newer_has;
        files.newer_has = Written {
            commits: self.pages.commits(),
            end: self.pages.committed_end(),
        };
        Ok(())
    }

    /// Brings the file that does not hold the last acknowledged sync to the committed pages, and it is then the newer one. Only
    /// the pages in which it may differ are written: those that changed since it was synced, and all after a sync of it failed. Those of
    /// them that are away are read from the other file. Then all that was committed leaves memory but for the cache.
    pub fn sync<F: Folder>(&mut self, host: &mut F, head: &Head) -> Result<(), Failed>
        requires started { 2 ≤ self.old.files.generation }
        requires room { self.old.files.generation < 2 ^ 63 }
        requires known { IsFormatNumber head.now.format }
        requires fits { IsTrue F.tells.folder → HasFit (known_of self.old (F.scene host.old).folder) (F.scene host.old).folder }
        requires stored { IsTrue F.tells.folder → IsStored self.old (F.scene host.old).folder }

        ensures acts { Acts F.tells (Syncing (known_of self.old (F.scene host.old).folder) (sync_of self.old (F.scene host.old).folder head.now))
            (F.scene host.old) (F.scene host.new) }
        ensures ok { OnOk result (IsTrue F.tells.folder → (newest : Synced) (begun past : List Synced)
            → IsFit (known_of self.old (F.scene host.old).folder) (F.scene host.old).folder newest begun past
            → IsFit (known_of self.new (F.scene host.new).folder) (F.scene host.new).folder
            (sync_of self.old (F.scene host.old).folder head.now) [] (newest ∷ past)) }
        ensures err { OnErr result (IsTrue F.tells.folder → (newest : Synced) (begun past : List Synced)
            → IsFit (known_of self.old (F.scene host.old).folder) (F.scene host.old).folder newest begun past
            → IsFit (known_of self.new (F.scene host.new).folder) (F.scene host.new).folder
            newest (sync_of self.old (F.scene host.old).folder head.now ∷ begun) past) }

        // Only pages that may differ in the file are written: in each image at each moment all others stand as before.
        ensures spared { Acts F.tells (ChangesFile (name_of self.old.files.names (other_side self.old.files.newer))
            (SparesFresh (commits_of self.old.pages) self.old.files.older_has)) (F.scene host.old) (F.scene host.new) }

        // The file comes to go up to its last page, or goes as far as before.
        ensures grown { OnOk result (IsTrue F.tells.folder → ChangesFile (name_of self.old.files.names (other_side self.old.files.newer))
            (Lengthens (committed_in self.old (F.scene host.old).folder)) (F.scene host.old).folder (F.scene host.new).folder) }

        // Some file stands in every image with a generation above all before, exactly where the sync is acknowledged.
        ensures rises { OnOk result (IsTrue F.tells.folder → (document : Document)
            → IsDocumentOf (sync_of self.old (F.scene host.old).folder head.now) document
            → Rises self.old.files.names (F.scene host.old).folder (F.scene host.new).folder) }
        ensures stays { OnErr result (IsTrue F.tells.folder → (newest : Synced) (begun past : List Synced)
            → IsFit (known_of self.old (F.scene host.old).folder) (F.scene host.old).folder newest begun past
            → (document : Document) → IsDocumentOf newest document
            → Rises self.old.files.names (F.scene host.old).folder (F.scene host.new).folder → ⊥) }

        // The pages are as they were, wherever they are.
        ensures stored { IsTrue F.tells.folder → IsStored self.new (F.scene host.new).folder }
        ensures shown { IsTrue F.tells.folder → shown_in self.new (F.scene host.new).folder ≡ shown_in self.old (F.scene host.old).folder }
        ensures same_commits { commits_of self.new.pages ≡ commits_of self.old.pages }
        ensures names { self.new.files.names ≡ self.old.files.names }
        ensures generation { self.new.files.generation ≡ self.old.files.generation + 1 }
        ensures none { OnOk result (NoneFails F.tells (F.scene host.old) (F.scene host.new)) }
        ensures cause { HasCause (F.scene host.old).folder_faults (F.scene host.new).folder_faults (IsErr result) }

        // Six calls and one for each page that may differ in the file, at most, beside a read for each such page. What may differ is what a
        // commit changed since the file was synced.
        ensures works { (end : ℕ) → IsEnd self.old.pages end
            → WorksAtMost F.tells (F.scene host.old) (F.scene host.new)
            (6 + stale_below (commits_of self.old.pages) self.old.files.older_has end) (stale_below (commits_of self.old.pages) self.old.files.older_has end) }
        ensures few { (end : ℕ) (numbers : List ℕ) → IsEnd self.old.pages end → HasChanged self.old.pages self.old.files.older_has end numbers
            → WorksAtMost F.tells (F.scene host.old) (F.scene host.new) (6 + length numbers) (length numbers) }
        ensures behind { (most : ℕ) → IsBehind self.old.pages self.old.files.older_has most
            → WorksAtMost F.tells (F.scene host.old) (F.scene host.new) (6 + most) most }
        ensures turned { OnOk result (self.new.files.older_has ≡ self.old.files.newer_has) }
        ensures commits { OnOk result (self.new.files.newer_has.commits ≡ (commits_of self.new.pages).count) }
        ensures ended { OnOk result ((k : ℕ) → self.new.files.newer_has.end ≤ k → is_some (first_kept_of self.old.pages k) ≡ false) }

        // After an error nothing is known of the pages of that file, and of the other one all that was.
        ensures forgotten { OnErr result (self.new.files.older_has ≡ nothing) }
        ensures remembered { OnErr result (self.new.files.newer_has ≡ self.old.files.newer_has) }
    {
        self.write_older(host, head)?;
        send_pages(&mut self.pages, &mut self.cache);
        Ok(())
    }
}
