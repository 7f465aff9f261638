// Several runs of lines, put into data blocks of their own after a line.
ghost use Rattle.std.specs.Prelude.{◌≡◌, ◌≤◌, ◌<◌, ◌+◌, ◌^◌, IsErrOf, IfOk, IsTrue, length};
ghost use Rattle.std.specs.List.{AllByRecursion};
ghost use Rattle.vs_pages.specs.Calls.{Continues, StopsAtFault};
ghost use Rattle.vs_tree_shape.specs.Places.{lines_below};
ghost use Rattle.vs_tree_blocks.specs.Blocks.{FitsFields, LeadsToData};
ghost use Rattle.vs_tree_blocks.specs.Cuts.{all_lines, spread};
ghost use Rattle.vs_tree_blocks.specs.Parts.{AreToldOwn, IsBlock, IsToldOwn, page_lines, runs_around};
ghost use Rattle.vs_tree_blocks.specs.Writes.{AddsBlocks, HasPage, IsThere, StandsBefore, StandsIn};

use crate::split::{Page, Parts, split_page};
use crate::{Run, add_block};
use std::alloc::Global;
use vs_pages::{PageErr, Pages};
use vs_tree_shape::Entry;

// Adds each run of lines as a data block of its own, and gives the entries that lead to them.
fn add_runs<P: Pages>(alloc: Global, pages: &mut P, runs: &[Run]) -> Result<Vec<Entry>, PageErr>
    requires valid { P.valid pages.old }
    ensures added { IfOk result (λ entries. AddsBlocks P.Pages pages.old pages.new runs.now entries.items) }
    ensures fields { IfOk result (λ entries. AllByRecursion FitsFields entries.items) }
    ensures many { IfOk result (λ entries. length entries.items ≡ length runs.now) }
    ensures lines { IfOk result (λ entries. lines_below entries.items ≡ length (all_lines runs.now)) }
    ensures kept { Continues P.Pages pages.old pages.new }
    ensures cause { StopsAtFault P.Pages (IsErrOf result PageErr.Failed) pages.old pages.new }
{
    let mut entries = Vec::with_capacity(alloc, runs.len())?;
    'runs: for run in runs {
        let new = run.add(alloc, pages)?;
        entries.push(new)?;
    }
    Ok(entries)
}

// Adds runs of lines as data blocks of their own behind a data block, which stays as it is.
pub fn put_behind<P: Pages>(
    alloc: Global,
    pages: &mut P,
    entry: Entry,
    runs: &[Run],
) -> Result<Vec<Entry>, PageErr>
    requires valid { P.valid pages.old }
    requires fields { FitsFields entry }
    requires few { length runs.now ≤ 126 }
    requires there { IsTrue P.tells → LeadsToData (P.shows pages.old).present entry }
    ensures wrote { IfOk result (λ entries. StandsBefore P.Pages pages.old pages.new entry runs.now entries.items) }
    ensures fields { IfOk result (λ entries. AllByRecursion FitsFields entries.items) }
    ensures few { IfOk result (λ entries. length entries.items ≤ 128) }
    ensures lines { IfOk result (λ entries. lines_below entries.items ≡ entry.lines + length (all_lines runs.now)) }
    ensures kept { Continues P.Pages pages.old pages.new }
    ensures cause { StopsAtFault P.Pages (IsErrOf result PageErr.Failed) pages.old pages.new }
{
    let new = add_runs(alloc, pages, runs)?;
    let mut entries = vec![in alloc; entry]?;
    entries.extend_from_slice(&new)?;
    Ok(entries)
}

// Writes the two parts of a data block, and runs of lines in blocks of their own between them.
fn put_among<P: Pages>(
    alloc: Global,
    pages: &mut P,
    block: u64,
    parts: &Parts,
    runs: &[Run],
) -> Result<Vec<Entry>, PageErr>
    requires valid { P.valid pages.old }
    requires block { block < 2 ^ 63 }
    requires there { IsThere P.Pages pages.old block }
    requires first { IsBlock parts.now.first }
    requires second { IsBlock parts.now.second }
    requires own { AreToldOwn P.Pages parts.now }
    requires few { length runs.now ≤ 126 }
    ensures wrote { IfOk result (λ entries. StandsIn P.Pages pages.old pages.new block (runs_around parts.now runs.now) entries.items) }
    ensures fields { IfOk result (λ entries. AllByRecursion FitsFields entries.items) }
    ensures few { IfOk result (λ entries. length entries.items ≤ 128) }
    ensures lines { IfOk result (λ entries. lines_below entries.items ≡ length (all_lines (runs_around parts.now runs.now))) }
    ensures kept { Continues P.Pages pages.old pages.new }
    ensures cause { StopsAtFault P.Pages (IsErrOf result PageErr.Failed) pages.old pages.new }
{
    pages.touch(alloc, block, 1, &parts.first.bytes)?;
    let new = add_runs(alloc, pages, runs)?;
    let other = add_block(alloc, pages, 1, &parts.second.bytes)?;
    let one = parts.first.entry(block);
    let two = parts.second.entry(other);
    let mut entries = vec![in alloc; one]?;
    entries.extend_from_slice(&new)?;
    entries.push(two)?;
    Ok(entries)
}

// Puts runs of lines into blocks of their own between the lines of a data block before their place and those after it.
pub fn put_runs<P: Pages>(
    alloc: Global,
    pages: &mut P,
    entry: Entry,
    page: Page,
    at: u32,
    runs: &[Run],
) -> Result<Vec<Entry>, PageErr>
    requires valid { P.valid pages.old }
    requires fields { FitsFields entry }
    requires single { entry.pages ≡ 1 }
    requires there { HasPage P.Pages pages.old entry.block page.bytes.items }
    requires page { IsBlock page }
    requires own { IsToldOwn P.Pages page }
    requires count { page.view.count ≡ entry.lines }
    requires some { 0 < at }
    requires at { at ≤ page.view.count }
    requires few { length runs.now ≤ 126 }
    ensures wrote { IfOk result (λ entries. StandsIn P.Pages pages.old pages.new entry.block (spread (page_lines page) at runs.now) entries.items) }
    ensures fields { IfOk result (λ entries. AllByRecursion FitsFields entries.items) }
    ensures few { IfOk result (λ entries. length entries.items ≤ 128) }
    ensures lines { IfOk result (λ entries. lines_below entries.items ≡ entry.lines + length (all_lines runs.now)) }
    ensures kept { Continues P.Pages pages.old pages.new }
    ensures cause { StopsAtFault P.Pages (IsErrOf result PageErr.Failed) pages.old pages.new }
{
    if at == page.view.count {
        return put_behind(alloc, pages, entry, runs);
    }
    let parts = split_page(alloc, page, at)?;
    put_among(alloc, pages, entry.block, &parts, runs)
}
