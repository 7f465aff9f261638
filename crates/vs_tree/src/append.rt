// Lines that are put after the last one, from the bytes of their file form.
ghost use Rattle.std.specs.Prelude.{◌≡◌, ◌<◌, ◌≤◌, ◌+◌, ◌^◌, ◌++◌, ◌∷◌, All, IsErrOf, IsTrue, IfOk, OnErr, OnOk, length, take};
ghost use Rattle.vs_pages.specs.Calls.{Continues, StopsAtFault};
ghost use Rattle.vs_pages.specs.State.{history_of};
ghost use Rattle.vs_text.specs.Text.{IsLine, bytes_of, lines_of};
ghost use Rattle.vs_text.specs.Limits.{IsShort};
ghost use Rattle.vs_text.specs.declared.TheConstants.{MAX_LINES, MAX_TEXT_BYTES};
ghost use Rattle.vs_tree.specs.Appends.{Appends, AppendsTree, IsFilled, IsFilledBy};
ghost use Rattle.vs_tree.specs.Calls.{StandsTree};
ghost use Rattle.vs_tree.specs.Fills.{FillsRoot, FillsText, StaysFilled};
ghost use Rattle.vs_tree.specs.Packed.{IsFullBefore, IsPageful, IsWhole, PacksBehind, PacksText, PacksTree, stored_lines};
ghost use Rattle.vs_tree.specs.Texts.{Fits};

use crate::copy::exchange_into;
use crate::runs::{line_run, put_run, put_runs};
use crate::{Extent, LineTree, Root, splice_within};
use std::alloc::{AllocError, Global};
use vs_pages::{PAGE_SIZE, PageErr, Pages};
use vs_pieces::EndedLines;
use vs_text::{Line, ended_line};
use vs_tree_blocks::{MOST_RUNS, Run};

// The first line of some bytes, and the bytes after it. A rest without a line end is a line as well.
fn first_line(bytes: &[u8]) -> (&[u8], &[u8])
    requires { 0 < length bytes.now }
    ensures lines { lines_of bytes.now ≡ result.0.now ∷ lines_of result.1.now }
    ensures line { IsLine result.0.now }
    ensures less { length result.1.now < length bytes.now }
    ensures whole { IsWhole bytes.now → IsWhole result.1.now }
    ensures short { All IsShort (lines_of bytes.now) → IsShort result.0.now × All IsShort (lines_of result.1.now) }
{
    match ended_line(bytes) {
        Some(parts) => parts,
        None => bytes.split_at(bytes.len()),
    }
}

// A run of the first lines of some bytes, and the bytes after them.
#[derive(Drop)]
struct Filled<'b> {
    run: Run,
    rest: &'b [u8],
}

// The first line of some bytes, in its stored form.
fn fill_line(alloc: Global, bytes: &[u8]) -> Result<Filled<'_>, AllocError>
    requires some { 0 < length bytes.now }
    requires short { All IsShort (lines_of bytes.now) }
    ensures filled { IfOk result (λ filled. IsFilled bytes.now filled.run filled.rest.now) }
    ensures one { IfOk result (λ filled. length filled.run ≡ 1) }
{
    let (first, rest) = first_line(bytes);
    let run = line_run(alloc, first)?;
    Ok(Filled { run, rest })
}

// The first lines of some bytes, in their stored form: as many as a page has room for, and at least one. `page` takes the bytes of
// the lines on the way.
fn fill_from<'b>(
    alloc: Global,
    bytes: &'b [u8],
    page: &mut [u8; PAGE_SIZE],
) -> Result<Filled<'b>, AllocError>
    requires some { 0 < length bytes.now }
    requires short { All IsShort (lines_of bytes.now) }
    ensures filled { IfOk result (λ filled. IsFilled bytes.now filled.run filled.rest.now) }
    ensures full { IfOk result (λ filled. IsWhole bytes.now → IsFullBefore filled.run (stored_lines filled.rest.now)) }
    ensures page { IfOk result (λ filled. IsPageful filled.run) }
{
    let count = bytes.len().min(PAGE_SIZE);
    let stored = &mut page[..count];
    exchange_into(&bytes[..count], stored);
    let first = Run::of_first(alloc, stored)?;
    if first.taken == 0 {
        return fill_line(alloc, bytes);
    }
    Ok(Filled {
        run: first.run,
        rest: &bytes[first.taken..],
    })
}

// Runs of the first lines of some bytes, and the bytes after them.
#[derive(Drop)]
struct FilledRuns<'b> {
    runs: Vec<Run>,
    rest: &'b [u8],
}

// The first lines of some bytes, in their stored form, in runs that are put in together: each has as many as a page has room for.
fn fill_runs<'b>(
    alloc: Global,
    bytes: &'b [u8],
    page: &mut [u8; PAGE_SIZE],
) -> Result<FilledRuns<'b>, AllocError>
    requires some { 0 < length bytes.now }
    requires short { All IsShort (lines_of bytes.now) }
    ensures { IfOk result (λ filled. IsFilledBy bytes.now filled.runs.items filled.rest.now) }
{
    let first = match fill_from(alloc, bytes, page) {
        Ok(first) => first,
        Err(error) => return Err(error),
    };
    let mut rest = first.rest;
    let mut runs = vec![in alloc; first.run]?;
    'runs: while !rest.is_empty() {
        if runs.len() >= MOST_RUNS {
            return Ok(FilledRuns { runs, rest });
        }
        let filled = match fill_from(alloc, rest, page) {
            Ok(filled) => filled,
            Err(error) => return Err(error),
        };
        runs.push(filled.run)?;
        rest = filled.rest;
    }
    Ok(FilledRuns { runs, rest })
}

// Puts lines after the last one in data blocks of their own, and gives the root then.
fn append_runs<P: Pages>(
    alloc: Global,
    pages: &mut P,
    root: Root,
    bytes: &[u8],
    page: &mut [u8; PAGE_SIZE],
) -> Result<Root, PageErr>
    requires valid { P.valid pages.old }
    requires short { All IsShort (lines_of bytes.now) }
    requires some { 0 < root.lines }
    requires small { root.lines + length (lines_of bytes.now) < 2 ^ 61 }
    requires there { StandsTree P.Pages pages.old root }
    ensures put { IfOk result (λ now. AppendsTree P.Pages pages.old pages.new root now (lines_of bytes.now)) }
    ensures lines { IfOk result (λ now. now.lines ≡ root.lines + length (lines_of bytes.now)) }
    ensures filled { IfOk result (λ now. StaysFilled P.Pages pages.old pages.new root now) }
    ensures packed { IfOk result (λ now. IsWhole bytes.now → PacksBehind P.Pages pages.old pages.new root now (stored_lines bytes.now)) }
    ensures kept { Continues P.Pages pages.old pages.new }
    ensures cause { StopsAtFault P.Pages (IsErrOf result PageErr.Failed) pages.old pages.new }
{
    let mut now = root;
    let mut rest = bytes;
    'runs: while !rest.is_empty() {
        let filled = match fill_runs(alloc, rest, page) {
            Ok(filled) => filled,
            Err(error) => return Err(error.into()),
        };
        now = put_runs(alloc, pages, now, now.lines, &filled.runs)?;
        rest = filled.rest;
    }
    Ok(now)
}

// Puts lines after the last one, and gives the root then. The first of them go into the last data block where that has room; the
// others get blocks of their own.
fn append_lines<P: Pages>(
    alloc: Global,
    pages: &mut P,
    root: Root,
    bytes: &[u8],
    page: &mut [u8; PAGE_SIZE],
) -> Result<Root, PageErr>
    requires valid { P.valid pages.old }
    requires short { All IsShort (lines_of bytes.now) }
    requires some { 0 < root.lines }
    requires small { root.lines + length (lines_of bytes.now) < 2 ^ 61 }
    requires there { StandsTree P.Pages pages.old root }
    ensures put { IfOk result (λ now. AppendsTree P.Pages pages.old pages.new root now (lines_of bytes.now)) }
    ensures lines { IfOk result (λ now. now.lines ≡ root.lines + length (lines_of bytes.now)) }
    ensures filled { IfOk result (λ now. StaysFilled P.Pages pages.old pages.new root now) }
    ensures packed { IfOk result (λ now. IsWhole bytes.now → PacksTree P.Pages pages.new now.height root.lines (stored_lines bytes.now)) }
    ensures kept { Continues P.Pages pages.old pages.new }
    ensures cause { StopsAtFault P.Pages (IsErrOf result PageErr.Failed) pages.old pages.new }
{
    if bytes.is_empty() {
        return Ok(root);
    }
    let filled = match fill_from(alloc, bytes, page) {
        Ok(filled) => filled,
        Err(error) => return Err(error.into()),
    };
    let now = put_run(alloc, pages, root, root.lines, &filled.run)?;
    append_runs(alloc, pages, now, filled.rest, page)
}

// Puts lines after the last one of a text that has lines. They have `size` bytes, with one for each line end.
fn append_text<P: Pages>(
    alloc: Global,
    pages: &mut P,
    now: Extent,
    bytes: &[u8],
    size: u64,
) -> Result<Extent, PageErr>
    requires valid { P.valid pages.old }
    requires fits { Fits P.tells (P.shows pages.old).present now }
    requires full { 0 < now.lines }
    requires size { size ≡ bytes_of (lines_of bytes.now) }
    requires few_lines { now.lines + length (lines_of bytes.now) ≤ MAX_LINES }
    requires short_lines { All IsShort (lines_of bytes.now) }
    requires few_bytes { now.bytes + size ≤ MAX_TEXT_BYTES }
    ensures text { IfOk result (λ extent. Appends P.Pages pages.old pages.new now extent (lines_of bytes.now)) }
    ensures lines { IfOk result (λ extent. extent.lines ≡ now.lines + length (lines_of bytes.now)) }
    ensures bytes { IfOk result (λ extent. extent.bytes ≡ now.bytes + size) }
    ensures filled { IfOk result (λ extent. FillsRoot P.Pages pages.old pages.new 32 now.height 32 extent.height) }
    ensures packed { IfOk result (λ extent. IsWhole bytes.now → PacksTree P.Pages pages.new extent.height now.lines (stored_lines bytes.now)) }
    ensures kept { Continues P.Pages pages.old pages.new }
    ensures cause { StopsAtFault P.Pages (IsErrOf result PageErr.Failed) pages.old pages.new }
{
    let mut page = [0; PAGE_SIZE];
    let tree = append_lines(alloc, pages, now.root(), bytes, &mut page)?;
    Ok(Extent {
        height: tree.height,
        lines: tree.lines,
        bytes: now.bytes + size,
    })
}

// Puts lines into the text without lines: the first of them in place of the empty line that its tree has.
fn begin_text<P: Pages>(
    alloc: Global,
    pages: &mut P,
    now: Extent,
    bytes: &[u8],
    size: u64,
) -> Result<Extent, PageErr>
    requires valid { P.valid pages.old }
    requires fits { Fits P.tells (P.shows pages.old).present now }
    requires empty { now.lines ≡ 0 }
    requires some { 0 < length bytes.now }
    requires size { size ≡ bytes_of (lines_of bytes.now) }
    requires few_lines { length (lines_of bytes.now) ≤ MAX_LINES }
    requires short_lines { All IsShort (lines_of bytes.now) }
    requires few_bytes { size ≤ MAX_TEXT_BYTES }
    ensures text { IfOk result (λ extent. Appends P.Pages pages.old pages.new now extent (lines_of bytes.now)) }
    ensures lines { IfOk result (λ extent. extent.lines ≡ now.lines + length (lines_of bytes.now)) }
    ensures few { IfOk result (λ extent. extent.bytes ≤ MAX_TEXT_BYTES) }
    ensures filled { IfOk result (λ extent. FillsRoot P.Pages pages.old pages.new 32 now.height 32 extent.height) }
    ensures packed { IfOk result (λ extent. IsWhole bytes.now → PacksText P.Pages pages.new now extent (lines_of bytes.now)) }
    ensures kept { Continues P.Pages pages.old pages.new }
    ensures cause { StopsAtFault P.Pages (IsErrOf result PageErr.Failed) pages.old pages.new }
{
    let (line, rest) = first_line(bytes);
    let first = Line::raw(alloc, line)?;
    let put = splice_within(alloc, pages, now, 0, 0, &[first])?;
    let used = line.len() as u64 + 1;
    let one = Extent { bytes: used, ..put };
    append_text(alloc, pages, one, rest, size - used)
}

// Puts lines after the last one of a text, and gives its numbers then. After an error the pages may hold anything.
fn append_within<P: Pages>(
    alloc: Global,
    pages: &mut P,
    now: Extent,
    lines: &EndedLines,
) -> Result<Extent, PageErr>
    requires valid { P.valid pages.old }
    requires fits { Fits P.tells (P.shows pages.old).present now }
    requires few_lines { now.lines + length lines.now ≤ MAX_LINES }
    requires short_lines { All IsShort lines.now }
    requires few_bytes { now.bytes + bytes_of lines.now ≤ MAX_TEXT_BYTES }
    ensures text { IfOk result (λ extent. Appends P.Pages pages.old pages.new now extent lines.now) }
    ensures lines { IfOk result (λ extent. extent.lines ≡ now.lines + length lines.now) }
    ensures few { IfOk result (λ extent. extent.bytes ≤ MAX_TEXT_BYTES) }
    ensures filled { IfOk result (λ extent. FillsRoot P.Pages pages.old pages.new 32 now.height 32 extent.height) }
    ensures packed { IfOk result (λ extent. PacksText P.Pages pages.new now extent lines.now) }
    ensures kept { Continues P.Pages pages.old pages.new }
    ensures cause { StopsAtFault P.Pages (IsErrOf result PageErr.Failed) pages.old pages.new }
{
    let bytes = lines.bytes();
    let size = bytes.len() as u64;
    if bytes.is_empty() {
        return Ok(now);
    }
    if now.lines == 0 {
        return begin_text(alloc, pages, now, bytes, size);
    }
    append_text(alloc, pages, now, bytes, size)
}

impl LineTree {
    /// Puts lines after the last one. After an error the tree and its pages are as before.
    ///
    /// Their bytes go into data blocks a page at a time, and no line has memory of its own on the way.
    pub fn push_lines<P: Pages>(
        &mut self,
        alloc: Global,
        pages: &mut P,
        lines: &EndedLines,
    ) -> Result<(), PageErr>
        requires valid { P.valid pages.old }
        requires fits { Fits P.tells (P.shows pages.old).present self.old.present }
        requires few_lines { self.old.present.lines + length lines.now ≤ MAX_LINES }
        requires short_lines { All IsShort lines.now }
        requires few_bytes { self.old.present.bytes + bytes_of lines.now ≤ MAX_TEXT_BYTES }
        ensures text { OnOk result (Appends P.Pages pages.old pages.new self.old.present self.new.present lines.now) }
        ensures fits { Fits P.tells (P.shows pages.new).present self.new.present }
        ensures lines { OnOk result (self.new.present.lines ≡ self.old.present.lines + length lines.now) }
        ensures filled { OnOk result (FillsText P.Pages pages.old pages.new self.old.present self.new.present) }
        ensures packed { OnOk result (PacksText P.Pages pages.new self.old.present self.new.present lines.now) }
        ensures before { self.new.committed ≡ self.old.committed }
        ensures same { OnErr result (self.new ≡ self.old) }
        ensures back { OnErr result (IsTrue P.tells → history_of (P.shows pages.new) ≡ history_of (P.shows pages.old)) }
        ensures kept { Continues P.Pages pages.old pages.new }
        ensures cause { StopsAtFault P.Pages (IsErrOf result PageErr.Failed) pages.old pages.new }
    {
        let mark = pages.mark();
        match append_within(alloc, pages, self.present, lines) {
            Ok(present) => {
                self.present = present;
                Ok(())
            }
            Err(error) => {
                pages.back(mark);
                Err(error)
            }
        }
    }
}
