// A table of pages by number, which counts them.
ghost use Rattle.std.specs.Prelude.{◌≡◌, ◌+◌, ◌-◌, ◌^◌, ◌<◌, ◌≤◌, ℕ, [], Some, None, option_map, is_some, IfNone, IfOk, IfSome, IsSome, IsTrue, false, OnOk, length, max, take, slice_set, slice_index_or};
ghost use Rattle.vs_pages.specs.Cells.{Away, Blank, Kept, is_away, put_cell, rewritten, shown, IsEndOf, IsWritten};
ghost use Rattle.vs_pages.specs.Table.{IsPlace, away_count, away_in, cell_of, cells_of, here_count, here_in};

use crate::Presence;
use crate::buffer::Buffer;
use crate::page::{Page, copy_place};
use std::alloc::{AllocError, Global};
use std::mem;

#[derive(Drop)]
pub struct Table {
    pub places: Vec<Option<Page>>,
    // How many pages are in memory.
    pub here: u64,
    // How many pages are away.
    pub away: u64,
    ghost bound: { length places.items ≤ 2 ^ 40 },
    ghost here_counted: { here ≡ here_in places.items },
    ghost away_counted: { away ≡ away_in places.items },
}

fn here_of(place: &Option<Page>) -> u64
    ensures { result ≡ here_count place.now }
{
    match place {
        Some(Page::Zeros | Page::Written(_)) => 1,
        Some(Page::Away) | None => 0,
    }
}

fn away_of(place: &Option<Page>) -> u64
    ensures { result ≡ away_count place.now }
{
    match place {
        Some(Page::Away) => 1,
        Some(Page::Zeros | Page::Written(_)) | None => 0,
    }
}

impl Table {
    pub fn new(alloc: Global) -> Table
        ensures { result.places.items ≡ [] }
    {
        Table {
            places: Vec::new(alloc),
            here: 0,
            away: 0,
        }
    }

    pub fn len(&self) -> u64
        ensures { result ≡ length self.now.places.items }
    {
        self.places.len() as u64
    }

    // The page at a place, if there is one.
    pub fn page(&self, at: u64) -> Option<&Page>
        ensures { cell_of (option_map (λ page. page.now) result) ≡ cells_of self.now.places.items at }
    {
        self.places.get(at as usize)?.as_ref()
    }

    // The bytes of the page at a place, if there is one that is not away.
    pub fn bytes(&self, at: u64) -> Option<&[u8]>
        ensures size { IfSome result (λ bytes. length bytes.now ≡ 4096) }
        ensures page { option_map (λ bytes. bytes.now) result ≡ shown None (cells_of self.now.places.items at) }
    {
        self.page(at)?.bytes()
    }

    // Whether there is a page, which may be away.
    pub fn has(&self, at: u64) -> bool
        ensures { result ≡ is_some (cells_of self.now.places.items at) }
    {
        self.page(at).is_some()
    }

    // Whether there is a page that is in memory.
    pub fn is_here(&self, at: u64) -> bool
        ensures { result ≡ is_some (shown None (cells_of self.now.places.items at)) }
    {
        self.bytes(at).is_some()
    }

    // Whether there is a page that is away.
    pub fn is_away(&self, at: u64) -> bool
        ensures { result ≡ is_away (cells_of self.now.places.items at) }
    {
        matches!(self.page(at), Some(Page::Away))
    }

    // The number after the last page, where no page has the number `most` or a greater one.
    pub fn end_below(&self, most: u64) -> u64
        requires { (k : ℕ) → most ≤ k → is_some (cells_of self.now.places.items k) ≡ false }
        ensures { IsEndOf (cells_of self.now.places.items) result }
    {
        let mut end = most;
        'places: while end > 0 && !self.has(end - 1) {
            end -= 1;
        }
        end
    }

    // Whether there is a page that was written, and its bytes are in memory.
    pub fn is_written(&self, at: u64) -> bool
        ensures written { IsTrue result → IsWritten (cells_of self.now.places.items at) }
        ensures zeros { result ≡ false → IsSome (shown None (cells_of self.now.places.items at)) → cells_of self.now.places.items at ≡ Some Blank }
    {
        matches!(self.page(at), Some(Page::Written(_)))
    }

    // Puts a page, or none, at a place, and gives what was there.
    pub fn replace(&mut self, at: u64, page: Option<Page>) -> Option<Page>
        requires { at < length self.old.places.items }
        ensures after { self.new.places.items ≡ slice_set self.old.places.items at page }
        ensures value { result ≡ slice_index_or self.old.places.items at None }
    {
        let here = here_of(&page);
        let away = away_of(&page);
        let was = mem::replace(&mut self.places[at as usize], page);
        self.here = self.here + here - here_of(&was);
        self.away = self.away + away - away_of(&was);
        was
    }

    // Puts a page, or none, at a place.
    pub fn set(&mut self, at: u64, page: Option<Page>)
        requires { at < length self.old.places.items }
        ensures { self.new.places.items ≡ slice_set self.old.places.items at page }
    {
        self.replace(at, page);
    }

    // Writes bytes over those of a page that was written, from its byte `from` on.
    pub fn patch(&mut self, at: u64, from: usize, bytes: &[u8])
        requires written { IsWritten (cells_of self.old.places.items at) }
        requires within { from + length bytes.now ≤ 4096 }
        ensures cells { cells_of self.new.places.items
            ≡ put_cell (cells_of self.old.places.items) at (rewritten (cells_of self.old.places.items at) from bytes.now) }
        ensures places { length self.new.places.items ≡ length self.old.places.items }
    {
        let Some(Page::Written(mut buffer)) = self.replace(at, None) else {
            unreachable!()
        };
        buffer.patch(from, bytes);
        self.set(at, Some(Page::Written(buffer)));
    }

    // A copy of so many bytes of a page that was written, from its byte `from` on.
    pub fn copy_bytes(
        &self,
        alloc: Global,
        at: u64,
        from: usize,
        count: usize,
    ) -> Result<Vec<u8>, AllocError>
        requires written { IsWritten (cells_of self.now.places.items at) }
        requires within { from + count ≤ 4096 }
        ensures bytes { IfOk result (λ bytes. cells_of self.now.places.items at ≡ rewritten (cells_of self.now.places.items at) from bytes.items) }
        ensures len { IfOk result (λ bytes. length bytes.items ≡ count) }
    {
        let Some(Page::Written(buffer)) = self.page(at) else {
            unreachable!()
        };
        Vec::from_slice(alloc, &buffer.bytes[from..from + count])
    }

    // Takes the bytes of a page that was written out of memory, and gives them. The page is away then.
    pub fn send_away(&mut self, at: u64) -> Option<Vec<u8>>
        ensures none { IfNone result (self.new ≡ self.old) }
        ensures size { IfSome result (λ bytes. length bytes.items ≡ 4096) }
        ensures was { IfSome result (λ bytes. cells_of self.old.places.items at ≡ Some (Kept bytes.items)) }
        ensures cells { IfSome result (λ _. cells_of self.new.places.items ≡ put_cell (cells_of self.old.places.items) at (Some Away)) }
        ensures places { length self.new.places.items ≡ length self.old.places.items }
    {
        if !self.is_written(at) {
            return None;
        }
        let Some(Page::Written(Buffer { bytes })) = self.replace(at, Some(Page::Away)) else {
            unreachable!()
        };
        Some(bytes)
    }

    // Copies the page at a place, unless it is away, and says whether there is one.
    pub fn copy_page(&self, at: u64, into: &mut [u8]) -> Presence
        requires { length into.old ≡ 4096 }
        ensures size { length into.new ≡ 4096 }
        ensures page { IsPlace result into.new (cells_of self.now.places.items at) }
    {
        match self.places.get(at as usize) {
            Some(place) => copy_place(place, into),
            None => Presence::Missing,
        }
    }

    // Adds places without a page at the end, until there are at least `len`.
    pub fn extend_to(&mut self, len: u64) -> Result<(), AllocError>
        requires { len ≤ 2 ^ 40 }
        ensures len { OnOk result (len ≤ length self.new.places.items) }
        ensures longer { length self.old.places.items ≤ length self.new.places.items }
        ensures most { length self.new.places.items ≤ max (length self.old.places.items) len }
        ensures cells { cells_of self.new.places.items ≡ cells_of self.old.places.items }
    {
        let more = len.saturating_sub(self.len());
        self.places.reserve(more as usize)?;
        for _ in 0..more {
            self.places.push(None)?;
        }
        Ok(())
    }

    // Takes the last place away.
    fn pop(&mut self)
        ensures { self.new.places.items ≡ take (length self.old.places.items - 1) self.old.places.items }
    {
        if let Some(place) = self.places.pop() {
            self.here -= here_of(&place);
            self.away -= away_of(&place);
        }
    }

    // Takes places away from the end, until there are `len`.
    pub fn truncate(&mut self, len: u64)
        requires { len ≤ length self.old.places.items }
        ensures { self.new.places.items ≡ take len self.old.places.items }
    {
        while self.len() > len {
            self.pop();
        }
    }
}
