// Pages in memory as a store of pages.
ghost use Rattle.std.specs.Prelude.{◌≡◌, ◌*◌, true, Some, OnOk, IsErrOf, IfSome, IsSome, length, option_map};
ghost use Rattle.vs_faults.specs.OneCause.{HasOneCause};
ghost use Rattle.vs_pages.specs.Maps.{pages_at};
ghost use Rattle.vs_pages.specs.Memory.{present_of, state_of, KeepsSince, OnlyRead};
ghost use Rattle.vs_pages.specs.MemoryLaws.{are_present, are_committed, keeps_none, keeps_then};

use super::MemPages;
use crate::{PageErr, Pages};
use std::alloc::Global;

impl Pages for MemPages {
    ghost tells = { true };

    ghost shows = { state_of };

    ghost valid = { λ _. Unit {0} };

    ghost stays = { KeepsSince };

    ghost earlier = { λ _. 0 };

    ghost present_pages = { λ pages _ _. are_present pages };

    ghost committed_pages = { λ pages _ _. are_committed pages };

    ghost stays_itself = { keeps_none };

    ghost stays_on = { keeps_then };

    // The clauses are the trait's, at this store.
    fn load(
        &mut self,
        _alloc: Global,
        at: u64,
        pages: u32,
        into: &mut Vec<u8>,
    ) -> Result<(), PageErr>
        requires { IsSome (pages_at (present_of self.old) at pages) }
        ensures size { OnOk result (length into.new.items ≡ 4096 * pages) }
        ensures loaded { OnOk result (pages_at (present_of self.old) at pages ≡ Some into.new.items) }
        ensures kept { OnlyRead self.old self.new }
        ensures cause { HasOneCause 0 0 0 (IsErrOf result PageErr.Failed) }
        ensures same { self.new ≡ self.old }
    {
        self.copy_pages(at, pages, into)?;
        Ok(())
    }

    // Each page in memory is at hand.
    fn page(&self, at: u64) -> Option<&[u8]>
        ensures size { IfSome result (λ bytes. length bytes.now ≡ 4096) }
        ensures lent { option_map (λ bytes. bytes.now) result ≡ present_of self.now at }
    {
        self.table.bytes(at)
    }

    fn touch(&mut self, alloc: Global, at: u64, pages: u32, bytes: &[u8]) -> Result<(), PageErr> {
        self.touch_places(alloc, at, pages, bytes)?;
        Ok(())
    }

    fn put(&mut self, alloc: Global, at: u64, bytes: Vec<u8>) -> Result<(), PageErr> {
        self.put_place(alloc, at, bytes)?;
        Ok(())
    }

    fn patch(&mut self, alloc: Global, at: u64, from: usize, bytes: &[u8]) -> Result<(), PageErr> {
        self.patch_place(alloc, at, from, bytes)?;
        Ok(())
    }

    fn grow(&mut self, alloc: Global, pages: u32) -> Result<u64, PageErr> {
        Ok(self.grow_places(alloc, pages)?)
    }

    fn free(&mut self, alloc: Global, at: u64, pages: u32) -> Result<(), PageErr> {
        self.free_places(alloc, at, pages)?;
        Ok(())
    }

    // The pages that are in memory.
    fn count(&self) -> u64 {
        self.table.here
    }

    fn commit(&mut self) {
        self.commit_all();
    }

    fn rollback(&mut self) {
        self.undo_to(0);
    }

    fn mark(&self) -> u64 {
        self.log.len() as u64
    }

    fn back(&mut self, mark: u64) {
        self.undo_to(mark);
    }

    // No caller can meet what the trait asks here, since this store tells its maps. So it asks for nothing.
    fn damaged(&mut self)
        ensures { self.new ≡ self.old }
    {}
}
