//! A store whose calls fail where a test wants them to.
ghost use Rattle.std.specs.Prelude.{◌≡◌, ◌-◌, ◌↔◌, None, IsSome, IsErr, IsErrOf, OnOk, OnErr, ⊤};
ghost use Rattle.vs_faults.specs.OneCause.{HasOneCause};
ghost use Rattle.vs_pages.specs.Maps.{pages_at};
ghost use Rattle.vs_pages.specs.Memory.{present_of, state_of};
ghost use Rattle.vs_pages.specs.MemoryLaws.{are_present, are_committed};

use crate::{MemPages, PageErr, Pages};
use std::alloc::Global;

/// A store over pages in memory that fails at one chosen call.
///
/// With `TELLS` it promises its content, as [`MemPages`] does. Without it promises none, like a store over a device, and
/// a call with pages that are not there fails too.
///
/// The calls that may fail are `load`, `touch`, `put`, `patch`, `grow` and `free`. No page is lent, so each that is read is
/// loaded. A call that fails changes no page and raises the count of faults.
#[derive(Drop)]
pub struct FailingPages<const TELLS: bool> {
    /// The pages below.
    pub pages: MemPages,
    /// Which of the calls to come fails, counted from 1, or 0 where none does.
    pub fail_call: u64,
    /// How many calls failed so far. At `u64::MAX` the count stays.
    pub faults: u64,
}

impl<const TELLS: bool> FailingPages<TELLS> {
    /// A store over these pages, where no call fails yet.
    pub fn new(pages: MemPages) -> Self
        ensures { result ≡ record { pages = pages; fail_call = 0; faults = 0 } }
    {
        FailingPages {
            pages,
            fail_call: 0,
            faults: 0,
        }
    }

    // Counts a fault.
    fn rise(&mut self)
        ensures cause { HasOneCause self.old.faults self.new.faults (self.new.faults - 1) ⊤ }
        ensures pages { self.new.pages ≡ self.old.pages }
        ensures fail_call { self.new.fail_call ≡ self.old.fail_call }
    {
        self.faults = self.faults.saturating_add(1);
    }

    // Counts a call, and fails if it is the chosen one.
    fn count_call(&mut self) -> Result<(), PageErr>
        ensures chosen { IsErr result ↔ (self.old.fail_call ≡ 1) }
        ensures next { self.new.fail_call ≡ self.old.fail_call - 1 }
        ensures pages { self.new.pages ≡ self.old.pages }
        ensures cause { HasOneCause self.old.faults self.new.faults (self.new.faults - 1) (IsErrOf result PageErr.Failed) }
    {
        let call = self.fail_call;
        self.fail_call = call.saturating_sub(1);
        if call == 1 {
            self.rise();
            return Err(PageErr::Failed);
        }
        Ok(())
    }

    // Counts a call on these pages, and fails if it is the chosen one or they are not there.
    fn count_call_on(&mut self, at: u64, pages: u32) -> Result<(), PageErr>
        ensures there { OnOk result (IsSome (pages_at (present_of self.new.pages) at pages)) }
        ensures chosen { OnErr result (IsSome (pages_at (present_of self.old.pages) at pages) → self.old.fail_call ≡ 1) }
        ensures next { self.new.fail_call ≡ self.old.fail_call - 1 }
        ensures pages { self.new.pages ≡ self.old.pages }
        ensures cause { HasOneCause self.old.faults self.new.faults (self.new.faults - 1) (IsErrOf result PageErr.Failed) }
    {
        self.count_call()?;
        if !self.pages.has(at, pages) {
            self.rise();
            return Err(PageErr::Failed);
        }
        Ok(())
    }
}

impl<const TELLS: bool> Pages for FailingPages<TELLS> {
    ghost tells = { TELLS };

    ghost shows = { λ store. record (state_of store.pages) { faults = store.faults } };

    ghost valid = { λ _. Unit {0} };

    ghost stays = { λ _ _. Unit {0} };

    ghost earlier = { λ store. store.faults - 1 };

    ghost present_pages = { λ store _ _. are_present store.pages };

    ghost committed_pages = { λ store _ _. are_committed store.pages };

    ghost stays_itself = { λ _. tt };

    ghost stays_on = { λ _ _ _ _ _. tt };

    fn load(
        &mut self,
        alloc: Global,
        at: u64,
        pages: u32,
        into: &mut Vec<u8>,
    ) -> Result<(), PageErr> {
        self.count_call_on(at, pages)?;
        self.pages.load(alloc, at, pages, into)
    }

    // Each page that is read is loaded, so that the load may be the call that fails.
    fn page(&self, _at: u64) -> Option<&[u8]>
        ensures { result ≡ None }
    {
        None
    }

    fn touch(&mut self, alloc: Global, at: u64, pages: u32, bytes: &[u8]) -> Result<(), PageErr> {
        self.count_call_on(at, pages)?;
        self.pages.touch(alloc, at, pages, bytes)
    }

    fn put(&mut self, alloc: Global, at: u64, bytes: Vec<u8>) -> Result<(), PageErr> {
        self.count_call_on(at, 1)?;
        self.pages.put(alloc, at, bytes)
    }

    fn patch(&mut self, alloc: Global, at: u64, from: usize, bytes: &[u8]) -> Result<(), PageErr> {
        self.count_call_on(at, 1)?;
        self.pages.patch(alloc, at, from, bytes)
    }

    fn grow(&mut self, alloc: Global, pages: u32) -> Result<u64, PageErr> {
        self.count_call()?;
        self.pages.grow(alloc, pages)
    }

    fn free(&mut self, alloc: Global, at: u64, pages: u32) -> Result<(), PageErr> {
        self.count_call_on(at, pages)?;
        self.pages.free(alloc, at, pages)
    }

    fn count(&self) -> u64 {
        self.pages.count()
    }

    fn commit(&mut self) {
        self.pages.commit();
    }

    fn rollback(&mut self) {
        self.pages.rollback();
    }

    fn mark(&self) -> u64 {
        self.pages.mark()
    }

    fn back(&mut self, mark: u64) {
        self.pages.back(mark);
    }

    fn damaged(&mut self) {
        self.rise();
    }
}
