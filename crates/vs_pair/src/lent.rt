// The pages of a pair as a store of pages.
ghost use Rattle.std.specs.Prelude.{◌≡◌, IsTrue};
ghost use Rattle.vs_disk.specs.Faults.{earlier_faults};
ghost use Rattle.vs_pages.specs.MemoryLaws.{are_present_under, are_committed_under};
ghost use Rattle.vs_pair.specs.Lent.{IsReady, KeepsFiles};
ghost use Rattle.vs_pair.specs.Pair.{away_of, shown_in};

use crate::SwapPair;
use crate::fetching::write_over;
use std::alloc::Global;
use vs_host::Folder;
use vs_pages::{PAGE_SIZE, PageErr, Pages};

/// A store of the pages of a pair, over a pair and a folder that were lent. Whoever lent them finds them, when the store is
/// given up, as the store last held them. No call of the store writes a file: only a sync of the pair does. A page that is away is read
/// from the file of the last acknowledged sync.
///
/// Over a folder that is not told, pages that are not there are a fault: a page that was read back was not the one that was
/// written.
#[derive(Drop)]
pub struct PairPages<'p, 'h, F: Folder> {
    pub pair: &'p mut SwapPair,
    pub host: &'h mut F,
}

impl<'p, 'h, F: Folder> Pages for PairPages<'p, 'h, F> {
    ghost use Rattle.std.proofs.Common.{◌∙◌, refl};
    ghost use Rattle.vs_pair.specs.LentLaws.{keeps_none, keeps_then};

    ghost tells = { F.tells.folder };

    ghost shows = { λ store. record (shown_in store.pair.now (F.scene store.host.now).folder) { faults = (F.scene store.host.now).folder_faults } };

    ghost valid = { λ store. IsTrue F.tells.folder → IsReady store.pair.now (F.scene store.host.now).folder };

    ghost stays = { λ old new. (new.pair.ghost_name ≡ old.pair.ghost_name) × (new.host.ghost_name ≡ old.host.ghost_name)
        × KeepsFiles F.tells old.pair.now new.pair.now (F.scene old.host.now) (F.scene new.host.now) };

    ghost earlier = { λ store. earlier_faults F.tells (F.scene store.host.now) };

    ghost present_pages = { λ store valid told.
        are_present_under (away_of store.pair.now.files (F.scene store.host.now).folder) store.pair.now.pages (valid told).stored.backed };

    ghost committed_pages = { λ store valid told.
        are_committed_under (away_of store.pair.now.files (F.scene store.host.now).folder) store.pair.now.pages (valid told).stored.backed };

    ghost stays_itself = { λ store. (refl, refl, keeps_none F.tells store.pair.now (F.scene store.host.now)) };

    ghost stays_on = { λ p q r first second. (
      second.0 ∙ first.0,
      second.1 ∙ first.1,
      keeps_then F.tells p.pair.now q.pair.now r.pair.now (F.scene p.host.now) (F.scene q.host.now) (F.scene r.host.now) first.2 second.2,
    ) };

    fn load(
        &mut self,
        alloc: Global,
        at: u64,
        pages: u32,
        into: &mut Vec<u8>,
    ) -> Result<(), PageErr> {
        if !self.pair.pages.has_places(at, pages) {
            self.host.damaged();
            return Err(PageErr::Failed);
        }
        self.pair.read_pages(alloc, self.host, at, pages, into)
    }

    // A page is at hand where it is in memory or in the cache.
    fn page(&self, at: u64) -> Option<&[u8]> {
        self.pair.lend(at)
    }

    fn touch(&mut self, alloc: Global, at: u64, pages: u32, bytes: &[u8]) -> Result<(), PageErr> {
        if !self.pair.pages.has_places(at, pages) {
            self.host.damaged();
            return Err(PageErr::Failed);
        }
        self.pair.pages.touch_places(alloc, at, pages, bytes)?;
        Ok(())
    }

    fn put(&mut self, alloc: Global, at: u64, bytes: Vec<u8>) -> Result<(), PageErr> {
        if !self.pair.pages.has_places(at, 1) {
            self.host.damaged();
            return Err(PageErr::Failed);
        }
        self.pair.pages.put_place(alloc, at, bytes)?;
        Ok(())
    }

    // A page that is away is read, and is in memory then.
    fn patch(&mut self, alloc: Global, at: u64, from: usize, bytes: &[u8]) -> Result<(), PageErr> {
        if !self.pair.pages.has_places(at, 1) {
            self.host.damaged();
            return Err(PageErr::Failed);
        }
        if !self.pair.pages.is_away(at) {
            self.pair.pages.patch_place(alloc, at, from, bytes)?;
            return Ok(());
        }
        let mut page = Vec::with_capacity(alloc, PAGE_SIZE)?;
        self.pair.read_pages(alloc, self.host, at, 1, &mut page)?;
        write_over(&mut page, from, bytes);
        self.pair.pages.put_place(alloc, at, page)?;
        Ok(())
    }

    fn grow(&mut self, alloc: Global, pages: u32) -> Result<u64, PageErr> {
        Ok(self.pair.pages.grow_places(alloc, pages)?)
    }

    fn free(&mut self, alloc: Global, at: u64, pages: u32) -> Result<(), PageErr> {
        if !self.pair.pages.has_places(at, pages) {
            self.host.damaged();
            return Err(PageErr::Failed);
        }
        self.pair.pages.free_places(alloc, at, pages)?;
        Ok(())
    }

    fn count(&self) -> u64 {
        self.pair.pages.count_places()
    }

    fn commit(&mut self) {
        self.pair.pages.commit_all();
    }

    fn rollback(&mut self) {
        self.pair.pages.undo_to(0);
    }

    fn mark(&self) -> u64 {
        self.pair.pages.mark()
    }

    fn back(&mut self, mark: u64) {
        self.pair.pages.undo_to(mark);
    }

    // The cache may have a page as it was altered, so the next call reads it again.
    fn damaged(&mut self) {
        self.pair.cache.clear();
        self.host.damaged();
    }
}
