// The places of pages, each of which may have a page that is away.
ghost use Rattle.std.specs.Prelude.{◌≡◌, ◌+◌, ◌*◌, ◌^◌, ◌≤◌, [], ℕ, Some, IfNone, IfOk, IfSome, OnOk, OnErr, IsSome, IsTrue, ◌↔◌, false, length};
ghost use Rattle.vs_pages.specs.Cells.{Away, Kept, is_away, put_cell, AreThere};
ghost use Rattle.vs_pages.specs.Maps.{Map, numbers, patched, put, put_pages, without, zeros, HasPages, IsVacant};
ghost use Rattle.vs_pages.specs.Memory.{changes_of, commits_of, kept_of, present_under, AreBacked, IsSame, IsWorked};

use super::MemPages;
use crate::buffer::Buffer;
use crate::exchange::{cut_pages, one_place, places_of};
use crate::page::{Page, patched_zeros};
use std::alloc::{AllocError, Global};

impl MemPages {
    /// Whether `pages` neighbouring places from `at` on have a page.
    pub fn has_places(&self, at: u64, pages: u32) -> bool
        ensures { IsTrue result ↔ AreThere (kept_of self.now) at pages }
    {
        if at > self.table.len() {
            return pages == 0;
        }
        for i in 0..pages as u64 {
            if !self.table.has(at + i) {
                return false;
            }
        }
        true
    }

    /// Whether there is a page that is away.
    pub fn is_away(&self, at: u64) -> bool
        ensures { result ≡ is_away (kept_of self.now at) }
    {
        self.table.is_away(at)
    }

    /// The number of pages, those that are away among them.
    pub fn count_places(&self) -> u64
        ensures { (away : Map) → AreBacked away self.now → HasPages (present_under away self.now) result }
    {
        self.table.here + self.table.away
    }

    /// Writes `pages` neighbouring places from `at` on.
    pub fn touch_places(
        &mut self,
        alloc: Global,
        at: u64,
        pages: u32,
        bytes: &[u8],
    ) -> Result<(), AllocError>
        requires there { AreThere (kept_of self.old) at pages }
        requires size { length bytes.now ≡ 4096 * pages }
        ensures ok { OnOk result (IsWorked self.old self.new (λ m. put_pages m at pages bytes.now) (numbers at pages)) }
        ensures err { OnErr result (IsSame self.old self.new) }
    {
        let fresh = cut_pages(alloc, bytes, pages)?;
        self.change(at, fresh)
    }

    /// Puts these bytes in place of those of one page.
    pub fn put_place(&mut self, alloc: Global, at: u64, bytes: Vec<u8>) -> Result<(), AllocError>
        requires there { IsSome (kept_of self.old at) }
        requires size { length bytes.items ≡ 4096 }
        ensures ok { OnOk result (IsWorked self.old self.new (λ m. put m at (Some bytes.items)) (numbers at 1)) }
        ensures err { OnErr result (IsSame self.old self.new) }
    {
        let fresh = one_place(alloc, Page::Written(Buffer { bytes }))?;
        self.change(at, fresh)
    }

    /// Writes bytes over those of one page that is in memory, from its byte `from` on.
    pub fn patch_place(
        &mut self,
        alloc: Global,
        at: u64,
        from: usize,
        bytes: &[u8],
    ) -> Result<(), AllocError>
        requires there { IsSome (kept_of self.old at) }
        requires here { is_away (kept_of self.old at) ≡ false }
        requires within { from + length bytes.now ≤ 4096 }
        ensures ok { OnOk result (IsWorked self.old self.new (λ m. put m at (patched (m at) from bytes.now)) (numbers at 1)) }
        ensures err { OnErr result (IsSame self.old self.new) }
    {
        if self.table.is_written(at) {
            return self.change_bytes(alloc, at, from, bytes);
        }
        let page = patched_zeros(alloc, from, bytes)?;
        let fresh = one_place(alloc, page)?;
        self.change(at, fresh)
    }

    /// Adds `pages` neighbouring pages of zeros, and gives the number of the first.
    pub fn grow_places(&mut self, alloc: Global, pages: u32) -> Result<u64, AllocError>
        ensures bound { IfOk result (λ at. at + pages ≤ 2 ^ 40) }
        ensures vacant { IfOk result (λ at. (away : Map) → IsVacant (present_under away self.old) at pages) }
        ensures ok { IfOk result (λ at. IsWorked self.old self.new (λ m. put_pages m at pages (zeros pages)) (numbers at pages)) }
        ensures err { OnErr result (IsSame self.old self.new) }
    {
        self.vacant.forget(&self.table, self.used);
        let at = self.vacant_run(pages).ok_or(AllocError)?;
        let fresh = places_of(alloc, pages, true)?;
        self.change(at, fresh)?;
        self.vacant.take(at, pages as usize);
        Ok(at)
    }

    /// Takes the pages of `pages` neighbouring places from `at` on out of the store.
    pub fn free_places(&mut self, alloc: Global, at: u64, pages: u32) -> Result<(), AllocError>
        requires there { AreThere (kept_of self.old) at pages }
        ensures ok { OnOk result (IsWorked self.old self.new (λ m. without m at pages) (numbers at pages)) }
        ensures err { OnErr result (IsSame self.old self.new) }
    {
        let none = places_of(alloc, pages, false)?;
        self.change(at, none)?;
        self.vacant.add(at, pages as usize);
        Ok(())
    }

    /// Sends a page away, if its bytes are in memory and nothing was changed since the last commit or rollback, and gives its bytes. A
    /// page of zeros that was not written stays. Takes no memory.
    pub fn send_away(&mut self, at: u64) -> Option<Vec<u8>>
        ensures none { IfNone result (self.new ≡ self.old) }
        ensures size { IfSome result (λ bytes. length bytes.items ≡ 4096) }
        ensures was { IfSome result (λ bytes. kept_of self.old at ≡ Some (Kept bytes.items)) }
        ensures cells { IfSome result (λ _. kept_of self.new ≡ put_cell (kept_of self.old) at (Some Away)) }
        ensures before { IfSome result (λ _. changes_of self.old ≡ []) }
        ensures after { IfSome result (λ _. changes_of self.new ≡ []) }
        ensures commits { commits_of self.new ≡ commits_of self.old }
    {
        if self.is_changed() {
            return None;
        }
        self.table.send_away(at)
    }
}
