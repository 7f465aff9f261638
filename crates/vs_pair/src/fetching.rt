// Pages of a pair, read from memory or from the file that has them.
ghost use Rattle.std.specs.Prelude.{◌≡◌, ◌+◌, ◌*◌, ◌<◌, ◌≤◌, ◌++◌, ◌∷◌, [], ℕ, List, Some, IfSome, IfNone, IsErr, IsErrOf, IsSome, IsSomeAnd, IsTrue, OnOk};
ghost use Rattle.std.specs.Prelude.{length, take, drop};
ghost use Rattle.vs_bytes.specs.Fields.{with_field};
ghost use Rattle.vs_faults.specs.Faults.{HasCause};
ghost use Rattle.vs_host.specs.Disk.{content_in};
ghost use Rattle.vs_host.specs.Trace.{Read};
ghost use Rattle.vs_host.specs.World.{IsTold, ReadsFolder};
ghost use Rattle.vs_disk.specs.Faults.{earlier_faults};
ghost use Rattle.vs_disk.specs.Runs.{NoneFails};
ghost use Rattle.vs_pages.specs.Cells.{is_away, AreThere};
ghost use Rattle.vs_pages.specs.Maps.{Map, pages_at};
ghost use Rattle.vs_pages.specs.Memory.{kept_of, present_under};
ghost use Rattle.vs_swap.specs.Files.{page_in};
ghost use Rattle.vs_pair.specs.Acts.{OnlyRead};
ghost use Rattle.vs_pair.specs.Cached.{IsCacheOf, was_away};
ghost use Rattle.vs_pair.specs.Lent.{IsStored};
ghost use Rattle.vs_pair.specs.Pair.{away_of, shown_in};
ghost use Rattle.vs_pair.specs.declared.cache.TheConstants.{MOST_READ};

use crate::SwapPair;
use crate::cache::MOST_READ;
use crate::side::swap_name;
use std::alloc::Global;
use vs_host::{Failed, Folder};
use vs_pages::{PAGE_SIZE, PageErr, Pages};

// Writes bytes over those of a page, from its byte `from` on.
pub(crate) fn write_over(page: &mut Vec<u8>, from: usize, bytes: &[u8])
    requires { from + length bytes.now ≤ length page.old.items }
    ensures { page.new.items ≡ with_field page.old.items from bytes.now }
{
    page[from..from + bytes.len()].copy_from_slice(bytes);
}

// Fills the first `count` bytes of a room from the file, from the place `at` on.
fn fill_front<F: Folder>(
    host: &mut F,
    name: &str,
    at: u64,
    count: usize,
    room: &mut [u8],
) -> Result<(), Failed>
    requires within { count ≤ length room.old }
    requires there { IsTrue F.tells.folder → IsSomeAnd (content_in (F.scene host.old).folder name.now) (λ bytes. at + count ≤ length bytes) }
    ensures value { OnOk result (IsTrue F.tells.folder → IfSome (content_in (F.scene host.old).folder name.now) (λ bytes.
        take count room.new ≡ take count (drop at bytes))) }
    ensures size { length room.new ≡ length room.old }
    ensures cause { HasCause (F.scene host.old).folder_faults (F.scene host.new).folder_faults (IsErr result) }
    ensures quiet { OnOk result ((F.scene host.new).folder_faults ≡ (F.scene host.old).folder_faults) }
    ensures told { IsTrue F.tells.folder → IsTold Read (name.now ∷ []) result (F.scene host.old) (F.scene host.new) }
    ensures frame { ReadsFolder (F.scene host.old) (F.scene host.new) }
{
    host.read_at(name, at, &mut room[..count])
}

impl SwapPair {
    // The bytes of a page, where they are in memory.
    pub(crate) fn lend(&self, at: u64) -> Option<&[u8]>
        ensures size { IfSome result (λ bytes. length bytes.now ≡ 4096) }
        ensures none { IfNone result (IsSome (kept_of self.now.pages at) → IsTrue (is_away (kept_of self.now.pages at))) }
        ensures lent { (away : Map) → IsCacheOf (was_away self.now.pages) away self.now.cache
            → IfSome result (λ bytes. present_under away self.now.pages at ≡ Some bytes.now) }
    {
        if self.pages.is_away(at) {
            return self.cache.page(at);
        }
        self.pages.page(at)
    }

    // Whether a page is away and not in the cache.
    fn is_absent(&self, at: u64) -> bool
        ensures { IsTrue result → IsTrue (is_away (kept_of self.now.pages at)) }
    {
        self.pages.is_away(at) && self.cache.page(at).is_none()
    }

    // How many pages from this one on, which is away, are to be read by one call: those that are not at hand either, where the page before
    // is, as when pages are read one after the other.
    fn absent_run(&self, at: u64) -> usize
        requires { IsTrue (is_away (kept_of self.now.pages at)) }
        ensures least { 1 ≤ result }
        ensures most { result ≤ MOST_READ }
        ensures away { (i : ℕ) → i < result → IsTrue (is_away (kept_of self.now.pages (at + i))) }
    {
        let mut pages = 1;
        if at == 0 || self.lend(at - 1).is_none() {
            return pages;
        }
        'pages: while pages < MOST_READ && self.is_absent(at + pages as u64) {
            pages += 1;
        }
        pages
    }

    // Reads neighbouring pages that are away into the room of the cache.
    fn fill_pages<F: Folder>(&mut self, host: &mut F, at: u64, pages: usize) -> Result<(), PageErr>
        requires least { 1 ≤ pages }
        requires most { pages ≤ MOST_READ }
        requires away { (i : ℕ) → i < pages → IsTrue (is_away (kept_of self.old.pages (at + i))) }
        requires stored { IsTrue F.tells.folder → IsStored self.old (F.scene host.old).folder }
        ensures read { OnOk result (IsTrue F.tells.folder → (i : ℕ) → i < pages
            → away_of self.old.files (F.scene host.old).folder (at + i) ≡ page_in self.new.cache.room.items i) }
        ensures pages { self.new.pages ≡ self.old.pages }
        ensures files { self.new.files ≡ self.old.files }
        ensures cached { IsTrue F.tells.folder → IsCacheOf (was_away self.old.pages) (away_of self.old.files (F.scene host.old).folder) self.new.cache }
        ensures reads { OnlyRead F.tells (IsErrOf result PageErr.Failed) (F.scene host.old) (F.scene host.new) 1 }
        ensures last { IsErrOf result PageErr.Failed → earlier_faults F.tells (F.scene host.new) ≤ (F.scene host.old).folder_faults }
        ensures calm { ¬ IsErrOf result PageErr.Failed → NoneFails F.tells (F.scene host.old) (F.scene host.new) }
    {
        let files = &self.files;
        let name = swap_name(&files.names, files.newer);
        let place = at * PAGE_SIZE as u64;
        match fill_front(host, name, place, pages * PAGE_SIZE, &mut self.cache.room) {
            Ok(()) => Ok(()),
            Err(Failed) => Err(PageErr::Failed),
        }
    }

    // Adds the bytes of a page that is there to others. Pages that had to be read from the file are then kept in the cache.
    fn add_page<F: Folder>(
        &mut self,
        alloc: Global,
        host: &mut F,
        at: u64,
        into: &mut Vec<u8>,
    ) -> Result<(), PageErr>
        requires there { IsSome (kept_of self.old.pages at) }
        requires stored { IsTrue F.tells.folder → IsStored self.old (F.scene host.old).folder }
        ensures page { OnOk result (IsTrue F.tells.folder → (page : List ℕ)
            × ((shown_in self.old (F.scene host.old).folder).present at ≡ Some page) × (into.new.items ≡ into.old.items ++ page)) }
        ensures size { OnOk result (length into.new.items ≡ length into.old.items + 4096) }
        ensures pages { self.new.pages ≡ self.old.pages }
        ensures files { self.new.files ≡ self.old.files }
        ensures cached { IsTrue F.tells.folder → IsCacheOf (was_away self.old.pages) (away_of self.old.files (F.scene host.old).folder) self.new.cache }
        ensures reads { OnlyRead F.tells (IsErrOf result PageErr.Failed) (F.scene host.old) (F.scene host.new) 1 }
        ensures last { IsErrOf result PageErr.Failed → earlier_faults F.tells (F.scene host.new) ≤ (F.scene host.old).folder_faults }
        ensures calm { ¬ IsErrOf result PageErr.Failed → NoneFails F.tells (F.scene host.old) (F.scene host.new) }
    {
        if let Some(bytes) = self.lend(at) {
            into.extend_from_slice(bytes)?;
            return Ok(());
        }
        let pages = self.absent_run(at);
        self.fill_pages(host, at, pages)?;
        self.cache.keep(alloc, at, pages);
        into.extend_from_slice(self.cache.first())?;
        Ok(())
    }

    // Makes `into` the bytes of neighbouring pages that are there.
    pub(crate) fn read_pages<F: Folder>(
        &mut self,
        alloc: Global,
        host: &mut F,
        at: u64,
        pages: u32,
        into: &mut Vec<u8>,
    ) -> Result<(), PageErr>
        requires there { AreThere (kept_of self.old.pages) at pages }
        requires stored { IsTrue F.tells.folder → IsStored self.old (F.scene host.old).folder }
        ensures size { OnOk result (length into.new.items ≡ 4096 * pages) }
        ensures loaded { OnOk result (IsTrue F.tells.folder
            → pages_at (shown_in self.old (F.scene host.old).folder).present at pages ≡ Some into.new.items) }
        ensures pages { self.new.pages ≡ self.old.pages }
        ensures files { self.new.files ≡ self.old.files }
        ensures cached { IsTrue F.tells.folder → IsCacheOf (was_away self.old.pages) (away_of self.old.files (F.scene host.old).folder) self.new.cache }
        ensures reads { OnlyRead F.tells (IsErrOf result PageErr.Failed) (F.scene host.old) (F.scene host.new) pages }
        ensures last { IsErrOf result PageErr.Failed → earlier_faults F.tells (F.scene host.new) ≤ (F.scene host.old).folder_faults }
        ensures calm { ¬ IsErrOf result PageErr.Failed → NoneFails F.tells (F.scene host.old) (F.scene host.new) }
    {
        into.clear();
        for i in 0..pages as u64 {
            self.add_page(alloc, host, at + i, into)?;
        }
        Ok(())
    }
}
