// Runs of lines, put into blocks of their own beside or between others.
ghost use Rattle.std.specs.Prelude.{◌≡◌, ◌≤◌, ◌<◌, ◌^◌, ◌∷◌, ◌⊎◌, [], Ok, IsErrOf, IfOk, OnOk};
ghost use Rattle.vs_pages.specs.Calls.{Continues, StopsAtFault};
ghost use Rattle.vs_data.specs.Blocks.{space_of};
ghost use Rattle.vs_tree_blocks.specs.Cuts.{parted};
ghost use Rattle.vs_tree_blocks.specs.Parts.{AreToldOwn, IsBlock, IsToldOwn, lines_around, page_lines};
ghost use Rattle.vs_tree_blocks.specs.Writes.{HasPage, IsThere, Touches, Writes};

use crate::split::{Page, Parts, split_page};
use crate::{Run, add_block};
use std::alloc::Global;
use vs_pages::{PageErr, Pages};
use vs_tree_shape::Entry;

// Writes the two parts of a data block, and a run of lines in a block of its own between them.
fn write_between<P: Pages>(
    alloc: Global,
    pages: &mut P,
    block: u64,
    parts: &Parts,
    run: &Run,
) -> Result<Vec<Entry>, PageErr>
    requires valid { P.valid pages.old }
    requires block { block < 2 ^ 63 }
    requires there { IsThere P.Pages pages.old block }
    requires first { IsBlock parts.now.first }
    requires second { IsBlock parts.now.second }
    requires own { AreToldOwn P.Pages parts.now }
    ensures wrote { IfOk result (λ entries. Writes P.Pages pages.old pages.new block (lines_around parts.now run.now) entries.items) }
    ensures works { OnOk result (space_of run.now ≤ 4072 → Touches P.Pages pages.old pages.new 3) }
    ensures kept { Continues P.Pages pages.old pages.new }
    ensures cause { StopsAtFault P.Pages (IsErrOf result PageErr.Failed) pages.old pages.new }
{
    pages.touch(alloc, block, 1, &parts.first.bytes)?;
    let new = run.add(alloc, pages)?;
    let other = add_block(alloc, pages, 1, &parts.second.bytes)?;
    let one = parts.first.entry(block);
    let two = parts.second.entry(other);
    Ok(vec![in alloc; one, new, two]?)
}

// Puts a run of lines into a block of its own between the lines before its place and those after it.
pub fn put_between<P: Pages>(
    alloc: Global,
    pages: &mut P,
    block: u64,
    page: Page,
    at: u32,
    run: &Run,
) -> Result<Vec<Entry>, PageErr>
    requires valid { P.valid pages.old }
    requires block { block < 2 ^ 63 }
    requires there { HasPage P.Pages pages.old block page.bytes.items }
    requires page { IsBlock page }
    requires own { IsToldOwn P.Pages page }
    requires some { 0 < page.view.count }
    requires at { at ≤ page.view.count }
    ensures wrote { IfOk result (λ entries. Writes P.Pages pages.old pages.new block (parted (page_lines page) at run.now) entries.items) }
    ensures works { OnOk result (space_of run.now ≤ 4072 → Touches P.Pages pages.old pages.new 3) }
    ensures kept { Continues P.Pages pages.old pages.new }
    ensures cause { StopsAtFault P.Pages (IsErrOf result PageErr.Failed) pages.old pages.new }
{
    if at == 0 || at == page.view.count {
        return put_beside(alloc, pages, block, &page, at, run);
    }
    let parts = split_page(alloc, page, at)?;
    write_between(alloc, pages, block, &parts, run)
}

// Puts a run of lines into a block of its own before or after a data block, which stays as it is.
fn put_beside<P: Pages>(
    alloc: Global,
    pages: &mut P,
    block: u64,
    page: &Page,
    at: u32,
    run: &Run,
) -> Result<Vec<Entry>, PageErr>
    requires valid { P.valid pages.old }
    requires block { block < 2 ^ 63 }
    requires there { HasPage P.Pages pages.old block page.now.bytes.items }
    requires page { IsBlock page.now }
    requires own { IsToldOwn P.Pages page.now }
    requires some { 0 < page.now.view.count }
    requires at { (at ≡ 0) ⊎ (at ≡ page.now.view.count) }
    ensures wrote { IfOk result (λ entries. Writes P.Pages pages.old pages.new block (parted (page_lines page.now) at run.now) entries.items) }
    ensures works { OnOk result (space_of run.now ≤ 4072 → Touches P.Pages pages.old pages.new 1) }
    ensures kept { Continues P.Pages pages.old pages.new }
    ensures cause { StopsAtFault P.Pages (IsErrOf result PageErr.Failed) pages.old pages.new }
{
    let kept = page.entry(block);
    let new = run.add(alloc, pages)?;
    if at == 0 {
        return Ok(vec![in alloc; new, kept]?);
    }
    Ok(vec![in alloc; kept, new]?)
}
