// Pages in memory of which it is counted how many a change works.
ghost use Rattle.std.specs.Prelude.{◌≡◌, IfSome, true, length, option_map};
ghost use Rattle.vs_pages.specs.Memory.{present_of, state_of};
ghost use Rattle.vs_pages.specs.MemoryLaws.{are_present, are_committed};

use crate::worked::Worked;
use std::alloc::Global;
use vs_pages::{MemPages, PageErr, Pages};

/// Pages in memory, and the pages that were worked by calls that were asked of them.
#[derive(Drop)]
pub struct CountingPages {
    pub pages: MemPages,
    pub worked: Worked,
}

impl CountingPages {
    /// A store over these pages, of which none is counted yet.
    pub fn new(pages: MemPages) -> CountingPages
        ensures { result.pages ≡ pages }
    {
        CountingPages {
            pages,
            worked: Worked::new(),
        }
    }
}

impl Pages for CountingPages {
    ghost tells = { true };

    ghost shows = { λ store. state_of store.pages };

    ghost valid = { λ _. Unit {0} };

    ghost stays = { λ _ _. Unit {0} };

    ghost earlier = { λ _. 0 };

    ghost present_pages = { λ store _ _. are_present store.pages };

    ghost committed_pages = { λ store _ _. are_committed store.pages };

    ghost stays_itself = { λ _. tt };

    ghost stays_on = { λ _ _ _ _ _. tt };

    fn load(
        &mut self,
        alloc: Global,
        at: u64,
        pages: u32,
        into: &mut Vec<u8>,
    ) -> Result<(), PageErr> {
        self.pages.load(alloc, at, pages, into)
    }

    fn page(&self, at: u64) -> Option<&[u8]>
        ensures size { IfSome result (λ bytes. length bytes.now ≡ 4096) }
        ensures lent { option_map (λ bytes. bytes.now) result ≡ present_of self.now.pages at }
    {
        self.pages.page(at)
    }

    fn touch(&mut self, alloc: Global, at: u64, pages: u32, bytes: &[u8]) -> Result<(), PageErr> {
        self.worked.note_run(at, pages);
        self.pages.touch(alloc, at, pages, bytes)
    }

    fn put(&mut self, alloc: Global, at: u64, bytes: Vec<u8>) -> Result<(), PageErr> {
        self.worked.note_run(at, 1);
        self.pages.put(alloc, at, bytes)
    }

    fn patch(&mut self, alloc: Global, at: u64, from: usize, bytes: &[u8]) -> Result<(), PageErr> {
        self.worked.note_run(at, 1);
        self.pages.patch(alloc, at, from, bytes)
    }

    fn grow(&mut self, alloc: Global, pages: u32) -> Result<u64, PageErr> {
        let at = self.pages.grow(alloc, pages)?;
        self.worked.note_run(at, pages);
        Ok(at)
    }

    fn free(&mut self, alloc: Global, at: u64, pages: u32) -> Result<(), PageErr> {
        self.worked.note_run(at, pages);
        self.pages.free(alloc, at, pages)
    }

    fn count(&self) -> u64 {
        self.pages.count()
    }

    fn commit(&mut self) {
        self.worked.commit();
        self.pages.commit();
    }

    fn rollback(&mut self) {
        self.pages.rollback();
    }

    fn mark(&self) -> u64 {
        self.pages.mark()
    }

    fn back(&mut self, mark: u64) {
        self.pages.back(mark);
    }

    // No caller can meet what the trait asks here, since this store tells its maps. So it asks for nothing.
    fn damaged(&mut self)
        ensures { self.new ≡ self.old }
    {}
}
