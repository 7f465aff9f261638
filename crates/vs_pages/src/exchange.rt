// Pages that change places with those of a table.
ghost use Rattle.std.specs.Prelude.{◌≡◌, ◌+◌, ◌*◌, ◌<◌, ◌≤◌, [], ◌∷◌, ℕ, All, None, Some, IfOk, false, length, take, drop, slice_index_or, if◌then◌else◌};
ghost use Rattle.vs_pages.specs.Cells.{Blank, Kept, is_away, put_cell};
ghost use Rattle.vs_pages.specs.Table.{cell_of, cells_of};
ghost use Rattle.vs_pages.specs.History.{put_places};

use crate::PAGE_SIZE;
use crate::buffer::Buffer;
use crate::page::Page;
use crate::table::Table;
use std::alloc::{AllocError, Global};
use std::mem;

// Exchanges the page of a place and another.
fn exchange_one(table: &mut Table, at: u64, page: &mut Option<Page>)
    requires { at < length table.old.places.items }
    ensures put { cells_of table.new.places.items ≡ put_cell (cells_of table.old.places.items) at (cell_of page.old) }
    ensures was { cell_of page.new ≡ cells_of table.old.places.items at }
    ensures places { length table.new.places.items ≡ length table.old.places.items }
{
    let new = mem::replace(page, None);
    *page = table.replace(at, new);
}

// Exchanges the pages of neighbouring places and of a list.
pub fn exchange(table: &mut Table, at: u64, pages: &mut Vec<Option<Page>>)
    requires within { at + length pages.old.items ≤ length table.old.places.items }
    ensures put { cells_of table.new.places.items ≡ put_places (cells_of table.old.places.items) at pages.old.items }
    ensures was { cells_of table.old.places.items ≡ put_places (cells_of table.new.places.items) at pages.new.items }
    ensures len { length pages.new.items ≡ length pages.old.items }
    ensures places { length table.new.places.items ≡ length table.old.places.items }
{
    'places: for i in 0..pages.len() {
        exchange_one(table, at + i as u64, &mut pages[i]);
    }
}

// The place of the first of these pages, and 0 where there is none.
pub fn first_place(at: u64, pages: &[Option<Page>]) -> u64
    ensures some { 0 < length pages.now → result ≡ at }
    ensures none { length pages.now ≡ 0 → result ≡ 0 }
{
    if pages.is_empty() { 0 } else { at }
}

// A place with this page.
pub fn one_place(alloc: Global, page: Page) -> Result<Vec<Option<Page>>, AllocError>
    ensures { IfOk result (λ places. places.items ≡ Some page ∷ []) }
{
    let mut places = Vec::with_capacity(alloc, 1)?;
    places.push(Some(page))?;
    Ok(places)
}

// So many places, each with a page of zeros or without a page.
pub fn places_of(alloc: Global, pages: u32, zeros: bool) -> Result<Vec<Option<Page>>, AllocError>
    ensures len { IfOk result (λ places. length places.items ≡ pages) }
    ensures all { IfOk result (λ places. All (λ place. cell_of place ≡ (if zeros then Some Blank else None)) places.items) }
    ensures here { IfOk result (λ places. All (λ place. is_away (cell_of place) ≡ false) places.items) }
{
    let mut places = Vec::with_capacity(alloc, pages as usize)?;
    for _ in 0..pages {
        let place = if zeros { Some(Page::Zeros) } else { None };
        places.push(place)?;
    }
    Ok(places)
}

// Places with the pages of which these bytes are.
pub fn cut_pages(alloc: Global, bytes: &[u8], pages: u32) -> Result<Vec<Option<Page>>, AllocError>
    requires { length bytes.now ≡ 4096 * pages }
    ensures len { IfOk result (λ places. length places.items ≡ pages) }
    ensures pages { IfOk result (λ places. (i : ℕ) → i < pages →
        cell_of (slice_index_or places.items i None) ≡ Some (Kept (take 4096 (drop (4096 * i) bytes.now)))) }
    ensures here { IfOk result (λ places. All (λ place. is_away (cell_of place) ≡ false) places.items) }
{
    let mut places = Vec::with_capacity(alloc, pages as usize)?;
    for i in 0..pages as usize {
        let from = i * PAGE_SIZE;
        let buffer = Buffer::of(alloc, &bytes[from..from + PAGE_SIZE])?;
        places.push(Some(Page::Written(buffer)))?;
    }
    Ok(places)
}
