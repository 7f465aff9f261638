// Pages in memory.
ghost use Rattle.std.specs.Prelude.{◌≡◌, ◌+◌, ◌-◌, ◌^◌, ◌<◌, ◌≤◌, [], ℕ, All, Some, None, IfNone, IfOk, OnOk, OnErr, IsSome, IfSome, IsTrue, ◌↔◌, false, drop, is_some, length, vec_len};
ghost use Rattle.vs_pages.specs.Cells.{Away, Kept, is_away, put_cell, rewritten, IsEndOf, IsWritten};
ghost use Rattle.vs_pages.specs.Maps.{Map, numbers, pages_at, first_pages, no_pages, IsVacant};
ghost use Rattle.vs_pages.specs.Table.{IsPlace, cell_of, cells_of, last_in};
ghost use Rattle.vs_pages.specs.History.{AreSteps, HaveNoGaps, numbers_in, put_places};
ghost use Rattle.vs_pages.specs.HistoryLaws.{AreMade-prop, AreSteps-prop, HaveNoGaps-prop, IsEndOf-prop};
ghost use Rattle.vs_pages.specs.State.{AreMade};

mod places;
mod store;

use crate::before::undo_at;
use crate::change::{Change, Patch, Run};
use crate::exchange::{exchange, first_place, places_of};
use crate::history::{note_all, undo_run};
use crate::page::Page;
use crate::table::Table;
use crate::vacant::Vacant;
use crate::{PAGE_SIZE, Presence};
use std::alloc::{AllocError, Global};

// All page numbers lie below this one.
const MOST_PAGES: u64 = 1 << 40;

/// A store that keeps pages in memory, and of each change since the last commit or rollback what it changed.
///
/// A page of zeros takes no memory until it is written. A commit, a rollback and a way back take none.
///
/// A page that was committed may be sent away: it is there, and its bytes are not in memory. Whoever sends it away keeps its bytes. As a
/// store of its own it shows only pages that are in memory; the calls on places take pages that are away, too.
pub struct MemPages {
    table: Table,
    // The changes since the last commit or rollback, the last one last.
    log: Vec<Change>,
    vacant: Vacant,
    // The number after the last page, or 0 where there is none.
    used: u64,
    // The commit that last changed each place. No rollback shortens it.
    last: Vec<u64>,
    // The number of the next commit. The first one, of the pages that are there at first, has the number 1.
    commits: u64,
    ghost undo: { AreSteps table.places.items log.items } by { AreSteps-prop table.places.items log.items },
    ghost counted: { length table.places.items ≤ vec_len last },
    ghost ends: { IsEndOf (cells_of table.places.items) used } by { IsEndOf-prop (cells_of table.places.items) used },
    ghost no_gaps: { HaveNoGaps table.places.items log.items } by { HaveNoGaps-prop table.places.items log.items },
    ghost begun: { 1 ≤ commits },
    ghost made: { AreMade (record { count = commits; last = last_in last.items }) } by { AreMade-prop commits (last_in last.items) },
}

// A value with much in it is dropped by a call.
impl Drop for MemPages {
    fn drop(self) {
        let MemPages {
            table: _,
            log: _,
            vacant: _,
            used: _,
            last: _,
            commits: _,
        } = self;
    }
}

impl MemPages {
    ghost use Rattle.vs_pages.specs.State.{history_of, one_more};
    ghost use Rattle.vs_pages.specs.Memory.{changes_of, present_of, committed_of, commits_of, first_kept_of, kept_of, present_under, state_under, AreBacked, IsOne, IsSame, KeepsSince};

    /// A store with the pages 0, 1 and 2, as zeros, which are committed.
    pub fn new(alloc: Global) -> Result<MemPages, AllocError>
        ensures present { IfOk result (λ pages. present_of pages ≡ first_pages) }
        ensures committed { IfOk result (λ pages. committed_of pages ≡ first_pages) }
        ensures commits { IfOk result (λ pages. 1 ≤ (commits_of pages).count) }
        ensures here { IfOk result (λ pages. AreBacked no_pages pages) }
    {
        let mut pages = MemPages {
            table: Table::new(alloc),
            log: Vec::new(alloc),
            vacant: Vacant::new(alloc),
            used: 0,
            last: Vec::new(alloc),
            commits: 1,
        };
        let first = places_of(alloc, 3, true)?;
        pages.change(0, first)?;
        pages.commit_all();
        Ok(pages)
    }

    // Adds places without a page, until there are at least `len` places.
    fn extend_to(&mut self, len: u64) -> Result<(), AllocError>
        requires { len ≤ 2 ^ 40 }
        ensures kept { kept_of self.new ≡ kept_of self.old }
        ensures log { self.new.log ≡ self.old.log }
        ensures used { self.new.used ≡ self.old.used }
        ensures commits { commits_of self.new ≡ commits_of self.old }
        ensures len { OnOk result (len ≤ length self.new.table.places.items) }
        ensures longer { length self.old.table.places.items ≤ length self.new.table.places.items }
    {
        let more = len.saturating_sub(self.last.len() as u64);
        for _ in 0..more {
            self.last.push(0)?;
        }
        self.table.extend_to(len)
    }

    // Puts pages, or none, at neighbouring places.
    fn change(&mut self, at: u64, pages: Vec<Option<Page>>) -> Result<(), AllocError>
        requires bound { 0 < length pages.items → at + length pages.items ≤ 2 ^ 40 }
        requires near { 0 < length pages.items → at ≤ self.old.used }
        requires here { All (λ place. is_away (cell_of place) ≡ false) pages.items }
        ensures ok { OnOk result (IsOne self.old self.new (put_places (kept_of self.old) at pages.items) (numbers at (length pages.items))) }
        ensures err { OnErr result (IsSame self.old self.new) }
    {
        let places = self.table.len();
        self.log.reserve(1)?;
        let at = first_place(at, &pages);
        self.extend_to(at + pages.len() as u64)?;
        let mut was = pages;
        exchange(&mut self.table, at, &mut was);
        self.used = self.table.end_below(self.used.max(at + was.len() as u64));
        self.log.push(Change::Run(Run { at, was, places }))?;
        Ok(())
    }

    // Writes bytes over those of a page that was written, from its byte `from` on.
    fn change_bytes(
        &mut self,
        alloc: Global,
        at: u64,
        from: usize,
        bytes: &[u8],
    ) -> Result<(), AllocError>
        requires written { IsWritten (kept_of self.old at) }
        requires within { from + length bytes.now ≤ 4096 }
        ensures ok { OnOk result (IsOne self.old self.new (put_cell (kept_of self.old) at (rewritten (kept_of self.old at) from bytes.now)) (numbers at 1)) }
        ensures err { OnErr result (IsSame self.old self.new) }
    {
        self.log.reserve(1)?;
        let was = self.table.copy_bytes(alloc, at, from, bytes.len())?;
        self.table.patch(at, from, bytes);
        self.log.push(Change::Patch(Patch { at, from, was }))?;
        Ok(())
    }

    // Takes the last change back.
    fn undo(&mut self)
        requires { 0 < length self.old.log.items }
        ensures history { (away : Map) → (state_under away self.old).before ≡ history_of (state_under away self.new) }
        ensures commits { commits_of self.new ≡ commits_of self.old }
        ensures committed { first_kept_of self.new ≡ first_kept_of self.old }
        ensures log { length self.new.log.items + 1 ≡ length self.old.log.items }
    {
        match self.log.pop() {
            Some(Change::Run(run)) => {
                self.used = undo_run(&mut self.table, &mut self.vacant, self.used, run);
            }
            Some(Change::Patch(patch)) => self.table.patch(patch.at, patch.from, &patch.was),
            None => {}
        }
    }

    /// Takes changes back until so many are left. Takes no memory.
    pub fn undo_to(&mut self, mark: u64)
        requires { mark ≤ length (changes_of self.old) }
        ensures back { (away : Map)
            → history_of (state_under away self.new) ≡ drop (length (changes_of self.old) - mark) (history_of (state_under away self.old)) }
        ensures count { length (changes_of self.new) ≡ mark }
        ensures commits { commits_of self.new ≡ commits_of self.old }
        ensures committed { first_kept_of self.new ≡ first_kept_of self.old }
        ensures stays { KeepsSince self.old self.new }
    {
        'changes: while self.log.len() as u64 > mark {
            self.undo();
        }
    }

    /// Makes the pages as they are now the committed ones. Takes no memory.
    pub fn commit_all(&mut self)
        ensures kept { kept_of self.new ≡ kept_of self.old }
        ensures changes { changes_of self.new ≡ [] }
        ensures commits { commits_of self.new ≡ one_more (numbers_in (changes_of self.old)) (commits_of self.old) }
        ensures later { self.old.commits ≤ self.new.commits }
    {
        note_all(&mut self.last, &self.log, self.commits);
        self.log.clear();
        self.commits = self.commits.saturating_add(1);
    }

    /// The number of the next commit. Commits are counted from 1.
    pub fn commits(&self) -> u64
        ensures { result ≡ (commits_of self.now).count }
    {
        self.commits
    }

    /// The commit that last changed this page, or 0 where there was no such page yet. Commits are counted from 1.
    pub fn last_commit(&self, at: u64) -> u64
        ensures { result ≡ (commits_of self.now).last at }
    {
        self.last.get(at as usize).copied().unwrap_or(0)
    }

    // Whether none of `pages` neighbouring places has a page.
    fn is_vacant(&self, at: u64, pages: u32) -> bool
        requires { at + pages ≤ 2 ^ 40 }
        ensures { IsTrue result → (away : Map) → IsVacant (present_under away self.now) at pages }
    {
        for i in 0..pages as u64 {
            if self.table.has(at + i) {
                return false;
            }
        }
        true
    }

    // The first of `pages` neighbouring numbers without a page, which is the one after the last page at most.
    fn vacant_run(&self, pages: u32) -> Option<u64>
        ensures vacant { IfSome result (λ at. (away : Map) → IsVacant (present_under away self.now) at pages) }
        ensures bound { IfSome result (λ at. at + pages ≤ 2 ^ 40) }
        ensures near { IfSome result (λ at. at ≤ self.now.used) }
    {
        let end = self.used;
        if let Some(first) = self.vacant.run(pages as usize) {
            if first < end && end - first >= pages as u64 && self.is_vacant(first, pages) {
                return Some(first);
            }
        }
        if MOST_PAGES - end < pages as u64 {
            return None;
        }
        Some(end)
    }

    fn copy_pages(&self, at: u64, pages: u32, into: &mut Vec<u8>) -> Result<(), AllocError>
        requires { IsSome (pages_at (present_of self.now) at pages) }
        ensures { OnOk result (pages_at (present_of self.now) at pages ≡ Some into.new.items) }
    {
        into.clear();
        for i in 0..pages as u64 {
            let Some(bytes) = self.table.bytes(at + i) else {
                unreachable!()
            };
            into.extend_from_slice(bytes)?;
        }
        Ok(())
    }

    /// Whether there was a change since the last commit or rollback.
    pub fn is_changed(&self) -> bool
        ensures { result ≡ false → changes_of self.now ≡ [] }
    {
        !self.log.is_empty()
    }

    /// Copies a page as it was last committed, unless it is away, and says whether there was one. Takes no memory.
    pub fn copy_committed(&self, at: u64, into: &mut [u8]) -> Presence
        requires { length into.old ≡ 4096 }
        ensures size { length into.new ≡ 4096 }
        ensures page { IsPlace result into.new (first_kept_of self.now at) }
    {
        let mut there = self.table.copy_page(at, into);
        let mut left = self.log.len();
        'changes: while left > 0 {
            left -= 1;
            there = undo_at(&self.log[left], at, there, into);
        }
        there
    }

    // Whether there was a page when it was last committed.
    fn had(&self, at: u64) -> bool
        ensures { result ≡ is_some (first_kept_of self.now at) }
    {
        let mut page = [0; PAGE_SIZE];
        match self.copy_committed(at, &mut page) {
            Presence::Missing => false,
            Presence::Here => true,
            Presence::Away => true,
        }
    }

    /// The number after that of the last committed page, or 0 where there is none. Takes no memory.
    pub fn committed_end(&self) -> u64
        ensures bound { result ≤ 2 ^ 40 }
        ensures end { IsEndOf (first_kept_of self.now) result }
    {
        let mut end = self.table.len();
        'places: while end > 0 && !self.had(end - 1) {
            end -= 1;
        }
        end
    }

    /// Whether `pages` neighbouring pages from `at` on are in memory.
    pub fn has(&self, at: u64, pages: u32) -> bool
        ensures { IsTrue result ↔ IsSome (pages_at (present_of self.now) at pages) }
    {
        if at > self.table.len() {
            return pages == 0;
        }
        for i in 0..pages as u64 {
            if !self.table.is_here(at + i) {
                return false;
            }
        }
        true
    }
}
