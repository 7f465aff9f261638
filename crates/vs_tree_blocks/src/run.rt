// Lines that are put in together.
ghost use Rattle.std.specs.Prelude.{◌≡◌, ◌≤◌, ◌<◌, ◌+◌, ◌*◌, ◌/◌, ◌^◌, ◌↔◌, ◌++◌, ◌∷◌, [], Some, Ok, IsErrOf, IfOk, OnOk};
ghost use Rattle.std.specs.Prelude.{ℕ, List, IsTrue, length, true, false};
ghost use Rattle.vs_pages.specs.Calls.{Continues, StopsAtFault};
ghost use Rattle.vs_data.specs.Blocks.{is_as_written, lines_in, free_space, space_of};
ghost use Rattle.vs_tree_shape.specs.Changes.{splice};
ghost use Rattle.vs_tree_blocks.specs.Blocks.{FitsFields};
ghost use Rattle.vs_tree_blocks.specs.Edits.{IsStored};
ghost use Rattle.vs_tree_blocks.specs.Parts.{IsBlock, IsOwn, IsPage, page_lines};
ghost use Rattle.vs_tree_blocks.specs.Runs.{IsFirstRun, IsRun, lines_within, pages_of};
ghost use Rattle.vs_tree_blocks.specs.Writes.{AddsBlock, Touches};

use crate::add_block;
use crate::split::Page;
use std::alloc::{AllocError, Global};
use std::marker::Model;
use vs_data::DataView;
use vs_pages::{PAGE_SIZE, PageErr, Pages};
use vs_tree_shape::Entry;

// The number of pages of a block for one line of this length alone.
fn pages_for(len: usize) -> u32
    requires { len ≤ 1048576 }
    ensures { result ≡ (len + 29 + 4095) / 4096 }
{
    ((len + 29 + 4095) / PAGE_SIZE) as u32
}

// A page that begins with the first of some bytes. Where all of it is to be written over, that takes less than a page of zeros.
fn page_beginning(alloc: Global, bytes: &[u8]) -> Result<Vec<u8>, AllocError>
    ensures { IfOk result (λ page. length page.items ≡ 4096) }
{
    let mut page = Vec::with_capacity(alloc, PAGE_SIZE)?;
    page.extend_from_slice(&bytes[..bytes.len().min(PAGE_SIZE)])?;
    page.resize(PAGE_SIZE, 0)?;
    Ok(page)
}

// Makes a page a block of the first of some stored lines, from their bytes, and gives its header and the number of the bytes of these lines.
fn fill_page(page: &mut [u8], lines: &[u8]) -> (DataView, usize)
    requires { length page.old ≡ 4096 }
    ensures run { IsRun page.new result.0 1 }
    ensures first { IsFirstRun lines.now (lines_within page.new) result.1 }
{
    let mut view = DataView::fresh_over(page);
    let taken = view.append_ended(page, lines);
    view.clear_free(page);
    (view, taken)
}

/// Stored lines that are put in together: as many as a page has room for, or one line alone, which may be longer. They are
/// kept as a data block of as many pages as that line needs, and seen as the list of them.
#[derive(Drop)]
pub struct Run {
    bytes: Vec<u8>,
    view: DataView,
    pages: u32,
}

impl Model for Run {
    ghost use Rattle.std.specs.Prelude.{ℕ, List};
    ghost use Rattle.vs_tree_blocks.specs.Runs.{lines_within, IsRun};

    ghost Value = { List (List ℕ) };

    ghost view = { λ run. lines_within run.bytes.items };

    ghost invariant = { λ run. IsRun run.bytes.items run.view run.pages };
}

/// A run of the first of some lines, and the number of the bytes of these.
#[derive(Drop)]
pub struct FirstRun {
    pub run: Run,
    pub taken: usize,
}

impl Run {
    /// The run of one stored line.
    pub fn of(alloc: Global, line: &[u8]) -> Result<Run, AllocError>
        requires { IsStored line.now }
        ensures { IfOk result (λ run. run ≡ line.now ∷ []) }
    {
        let pages = pages_for(line.len());
        let mut bytes = vec![in alloc; 0u8; pages as usize * PAGE_SIZE]?;
        let mut view = DataView::fresh(&mut bytes);
        view.insert(&mut bytes, 0, line);
        Ok(Run { bytes, view, pages })
    }

    /// The run of the first of some stored lines, from their bytes, each followed by a zero byte: as many as a page has room for. It has
    /// no line where none ends in the bytes, or the first is too long for a page.
    pub fn of_first(alloc: Global, lines: &[u8]) -> Result<FirstRun, AllocError>
        ensures first { IfOk result (λ first. IsFirstRun lines.now first.run first.taken) }
        ensures page { IfOk result (λ first. space_of first.run ≤ 4072) }
    {
        let mut bytes = page_beginning(alloc, lines)?;
        let (view, taken) = fill_page(&mut bytes, lines);
        let run = Run {
            bytes,
            view,
            pages: 1,
        };
        Ok(FirstRun { run, taken })
    }

    /// Puts a stored line after the others where a page has room for all of them, and tells whether it did.
    pub fn push(&mut self, line: &[u8]) -> bool
        requires { IsStored line.now }
        ensures room { IsTrue result ↔ (space_of self.old + (length line.now + 5) ≤ 4072) }
        ensures put { IsTrue result → self.new ≡ self.old ++ line.now ∷ [] }
        ensures left { result ≡ false → self.new ≡ self.old }
    {
        if self.pages != 1 || !self.view.fits(line.len()) {
            return false;
        }
        let at = self.view.count;
        self.view.insert(&mut self.bytes, at, line);
        true
    }

    /// The number of lines.
    pub fn len(&self) -> u64
        ensures len { result ≡ length self.now }
        ensures bound { result < 2 ^ 32 }
    {
        u64::from(self.view.count)
    }

    /// The lines as a data block.
    pub fn bytes(&self) -> &[u8]
        ensures lines { lines_in result.now ≡ Some self.now }
        ensures size { length result.now ≡ 4096 * pages_of self.now }
        ensures own { is_as_written result.now ≡ true }
    {
        &self.bytes
    }

    /// What the lines take in a data block: the bytes of each, a zero byte and an index entry.
    pub fn space(&self) -> u64
        ensures is { result ≡ space_of self.now }
        ensures bound { result < 2 ^ 36 }
    {
        let text = u64::from(self.view.text_end) - u64::from(self.view.text_start);
        text + 4 * self.len()
    }

    /// Whether a data block with this header has room for the lines.
    pub fn fits(&self, view: DataView) -> bool
        ensures { IsTrue result ↔ (space_of self.now ≤ free_space view) }
    {
        let index = u64::from(view.count) * 4 + 24;
        self.space() <= u64::from(view.text_start).saturating_sub(index)
    }

    // A data block of one page with the lines before its line `at`, or last where `at` is its count.
    pub(crate) fn put_into(&self, page: Page, at: u32) -> Page
        requires page { IsBlock page }
        requires at { at ≤ page.view.count }
        requires fits { space_of self.now ≤ free_space page.view }
        ensures page { IsPage (splice (page_lines page) at 0 self.now) page.view.text_end result }
        ensures own { IsOwn page → IsOwn result }
    {
        let mut now = page;
        now.view
            .insert_lines(&mut now.bytes, at, self.view, &self.bytes);
        now
    }

    /// Adds the lines as a data block of their own.
    pub fn add<P: Pages>(&self, alloc: Global, pages: &mut P) -> Result<Entry, PageErr>
        requires valid { P.valid pages.old }
        ensures added { IfOk result (λ new. AddsBlock P.Pages pages.old pages.new new self.now) }
        ensures lines { IfOk result (λ new. new.lines ≡ length self.now) }
        ensures pages { IfOk result (λ new. new.pages ≡ pages_of self.now) }
        ensures fields { IfOk result FitsFields }
        ensures works { OnOk result (space_of self.now ≤ 4072 → Touches P.Pages pages.old pages.new 1) }
        ensures kept { Continues P.Pages pages.old pages.new }
        ensures cause { StopsAtFault P.Pages (IsErrOf result PageErr.Failed) pages.old pages.new }
    {
        let block = add_block(alloc, pages, self.pages, &self.bytes)?;
        Ok(Entry {
            block,
            pages: self.pages,
            lines: self.len(),
        })
    }
}
