// Runs of lines, put into a data block of one page or into the halves of one.
ghost use Rattle.std.specs.Prelude.{◌≤◌, ◌<◌, ◌-◌, ◌^◌, ◌∷◌, [], Ok, IsErrOf, IfOk, OnOk, length};
ghost use Rattle.vs_pages.specs.Calls.{Continues, StopsAtFault};
ghost use Rattle.vs_data.specs.Blocks.{free_space, space_of};
ghost use Rattle.vs_tree_blocks.specs.Cuts.{blocks_with, split_with};
ghost use Rattle.vs_tree_blocks.specs.Parts.{AreToldOwn, IsBlock, IsToldOwn, page_lines};
ghost use Rattle.vs_tree_blocks.specs.Writes.{HasPage, IsThere, Touches, TouchesOnly, Writes};

use crate::beside::put_between;
use crate::split::{Page, Parts, choose_half, first_half, split_around};
use crate::{Run, add_block};
use std::alloc::Global;
use vs_pages::{PageErr, Pages};
use vs_tree_shape::Entry;

// Writes the two parts of a data block, the second into a new block.
fn write_parts<P: Pages>(
    alloc: Global,
    pages: &mut P,
    block: u64,
    parts: &Parts,
) -> Result<Vec<Entry>, PageErr>
    requires valid { P.valid pages.old }
    requires there { IsThere P.Pages pages.old block }
    requires block { block < 2 ^ 63 }
    requires first { IsBlock parts.now.first }
    requires second { IsBlock parts.now.second }
    requires own { AreToldOwn P.Pages parts.now }
    ensures wrote { IfOk result (λ by. Writes P.Pages pages.old pages.new block (page_lines parts.now.first ∷ page_lines parts.now.second ∷ []) by.items) }
    ensures works { OnOk result (Touches P.Pages pages.old pages.new 2) }
    ensures kept { Continues P.Pages pages.old pages.new }
    ensures cause { StopsAtFault P.Pages (IsErrOf result PageErr.Failed) pages.old pages.new }
{
    pages.touch(alloc, block, 1, &parts.first.bytes)?;
    let other = add_block(alloc, pages, 1, &parts.second.bytes)?;
    let one = parts.first.entry(block);
    let two = parts.second.entry(other);
    Ok(vec![in alloc; one, two]?)
}

// Writes a data block of one page.
pub fn write_whole<P: Pages>(
    alloc: Global,
    pages: &mut P,
    block: u64,
    page: Page,
) -> Result<Vec<Entry>, PageErr>
    requires valid { P.valid pages.old }
    requires there { IsThere P.Pages pages.old block }
    requires block { block < 2 ^ 63 }
    requires page { IsBlock page }
    requires own { IsToldOwn P.Pages page }
    ensures wrote { IfOk result (λ entries. Writes P.Pages pages.old pages.new block (page_lines page ∷ []) entries.items) }
    ensures works { OnOk result (TouchesOnly P.Pages pages.old pages.new 1) }
    ensures single { IfOk result (λ entries. length entries.items ≤ 1) }
    ensures kept { Continues P.Pages pages.old pages.new }
    ensures cause { StopsAtFault P.Pages (IsErrOf result PageErr.Failed) pages.old pages.new }
{
    let whole = page.entry(block);
    pages.put(alloc, block, page.bytes)?;
    Ok(vec![in alloc; whole]?)
}

// Splits a data block that has no room for a run of lines, and puts the run into the half in which its place lies; where
// it has no room there, into a block of its own between the lines before its place and those after it.
fn put_split<P: Pages>(
    alloc: Global,
    pages: &mut P,
    block: u64,
    page: Page,
    at: u32,
    run: &Run,
) -> Result<Vec<Entry>, PageErr>
    requires valid { P.valid pages.old }
    requires block { block < 2 ^ 63 }
    requires there { HasPage P.Pages pages.old block page.bytes.items }
    requires page { IsBlock page }
    requires own { IsToldOwn P.Pages page }
    requires some { 0 < page.view.count }
    requires at { at ≤ page.view.count }
    requires full { free_space page.view < space_of run.now }
    ensures wrote { IfOk result (λ by. Writes P.Pages pages.old pages.new block (split_with (page.view.text_end - 24) (page_lines page) at run.now) by.items) }
    ensures works { OnOk result (space_of run.now ≤ 4072 → Touches P.Pages pages.old pages.new 3) }
    ensures kept { Continues P.Pages pages.old pages.new }
    ensures cause { StopsAtFault P.Pages (IsErrOf result PageErr.Failed) pages.old pages.new }
{
    let half = first_half(page.view.count);
    let Some(side) = choose_half(&page, half, at, run) else {
        return put_between(alloc, pages, block, page, at, run);
    };
    let parts = split_around(alloc, page, half, at, run, side)?;
    write_parts(alloc, pages, block, &parts)
}

// Puts a run of lines into a data block of one page, or into blocks in its place.
pub fn put_run<P: Pages>(
    alloc: Global,
    pages: &mut P,
    block: u64,
    page: Page,
    at: u32,
    run: &Run,
) -> Result<Vec<Entry>, PageErr>
    requires valid { P.valid pages.old }
    requires block { block < 2 ^ 63 }
    requires there { HasPage P.Pages pages.old block page.bytes.items }
    requires page { IsBlock page }
    requires own { IsToldOwn P.Pages page }
    requires some { 0 < page.view.count }
    requires at { at ≤ page.view.count }
    ensures wrote { IfOk result
        (λ by. Writes P.Pages pages.old pages.new block (blocks_with (page.view.text_end - 24) (page_lines page) at run.now) by.items) }
    ensures works { OnOk result (space_of run.now ≤ 4072 → Touches P.Pages pages.old pages.new 3) }
    ensures kept { Continues P.Pages pages.old pages.new }
    ensures cause { StopsAtFault P.Pages (IsErrOf result PageErr.Failed) pages.old pages.new }
{
    if !run.fits(page.view) {
        return put_split(alloc, pages, block, page, at, run);
    }
    let whole = run.put_into(page, at);
    write_whole(alloc, pages, block, whole)
}
