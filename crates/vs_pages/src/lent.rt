// Pages in memory that were lent.
ghost use Rattle.std.specs.Prelude.{◌≡◌, IfSome, true, refl, length, option_map};
ghost use Rattle.std.proofs.Common.{◌∙◌};
ghost use Rattle.vs_pages.specs.Memory.{present_of, state_of};
ghost use Rattle.vs_pages.specs.MemoryLaws.{are_present, are_committed};

use crate::{MemPages, PageErr, Pages};
use std::alloc::Global;

/// A store over pages in memory that were lent. Whoever lent them finds them, when the store is given up, as the store
/// last held them.
#[derive(Drop)]
pub struct LentPages<'p> {
    pub pages: &'p mut MemPages,
}

impl<'p> Pages for LentPages<'p> {
    ghost tells = { true };

    ghost shows = { λ store. state_of store.pages.now };

    ghost valid = { λ _. Unit {0} };

    ghost stays = { λ old new. new.pages.ghost_name ≡ old.pages.ghost_name };

    ghost earlier = { λ _. 0 };

    ghost present_pages = { λ store _ _. are_present store.pages.now };

    ghost committed_pages = { λ store _ _. are_committed store.pages.now };

    ghost stays_itself = { λ _. refl };

    ghost stays_on = { λ _ _ _ first second. second ∙ first };

    fn load(
        &mut self,
        alloc: Global,
        at: u64,
        pages: u32,
        into: &mut Vec<u8>,
    ) -> Result<(), PageErr> {
        self.pages.load(alloc, at, pages, into)
    }

    // Each page is at hand.
    fn page(&self, at: u64) -> Option<&[u8]>
        ensures size { IfSome result (λ bytes. length bytes.now ≡ 4096) }
        ensures lent { option_map (λ bytes. bytes.now) result ≡ present_of self.now.pages.now at }
    {
        self.pages.page(at)
    }

    fn touch(&mut self, alloc: Global, at: u64, pages: u32, bytes: &[u8]) -> Result<(), PageErr> {
        self.pages.touch(alloc, at, pages, bytes)
    }

    fn put(&mut self, alloc: Global, at: u64, bytes: Vec<u8>) -> Result<(), PageErr> {
        self.pages.put(alloc, at, bytes)
    }

    fn patch(&mut self, alloc: Global, at: u64, from: usize, bytes: &[u8]) -> Result<(), PageErr> {
        self.pages.patch(alloc, at, from, bytes)
    }

    fn grow(&mut self, alloc: Global, pages: u32) -> Result<u64, PageErr> {
        self.pages.grow(alloc, pages)
    }

    fn free(&mut self, alloc: Global, at: u64, pages: u32) -> Result<(), PageErr> {
        self.pages.free(alloc, at, pages)
    }

    fn count(&self) -> u64 {
        self.pages.count()
    }

    fn commit(&mut self) {
        self.pages.commit();
    }

    fn rollback(&mut self) {
        self.pages.rollback();
    }

    fn mark(&self) -> u64 {
        self.pages.mark()
    }

    fn back(&mut self, mark: u64) {
        self.pages.back(mark);
    }

    // No caller can meet what the trait asks here, since this store tells its maps. So it asks for nothing.
    fn damaged(&mut self)
        ensures { self.new ≡ self.old }
    {}
}
