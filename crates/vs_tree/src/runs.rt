// Runs of lines that are put into the tree or taken out, a data block at a time.
ghost use Rattle.std.specs.Prelude.{◌≡◌, ◌≤◌, ◌<◌, ◌+◌, ◌-◌, ◌*◌, ◌^◌, ◌⊎◌, ◌↔◌, ◌∷◌, IsTrue, [], All, IsErrOf, IfOk, OnOk, drop, length, map, take};
ghost use Rattle.vs_pages.specs.Calls.{Continues, StopsAtFault};
ghost use Rattle.vs_text.specs.Text.{bytes_of, stored_line};
ghost use Rattle.vs_text.specs.Limits.{IsShort};
ghost use Rattle.vs_text.specs.declared.TheConstants.{MAX_LINES};
ghost use Rattle.vs_tree_shape.specs.Changes.{splice};
ghost use Rattle.vs_tree_blocks.specs.Cuts.{all_lines};
ghost use Rattle.vs_tree_blocks.specs.Edits.{FitsPage};
ghost use Rattle.vs_data.specs.Blocks.{space_of};
ghost use Rattle.vs_tree.specs.Calls.{CountsRun, IsUntouched, OfTree, StandsTree, TurnsTree, WorksAtMost, WorksWhere};
ghost use Rattle.vs_tree_blocks.specs.Fills.{AllHaveLines};
ghost use Rattle.vs_tree.specs.DataBlocks.{KeepsBefore, SpreadsTree};
ghost use Rattle.vs_tree.specs.Fills.{FillsRoot, IsMild, LosesEntry, StaysFilled, ThinsRoot};
ghost use Rattle.vs_tree.specs.Packed.{ArePacked, HoldsRun, IsFullBefore, IsPageful, PacksTree};
ghost use Rattle.vs_tree.specs.Runs.{ExchangesLine, HasFirst, exchanged_lines, with_lines, without_lines, run_of};

use crate::copy::exchange_into;
use crate::{Root, edit_tree};
use std::alloc::{AllocError, Global};
use vs_pages::{PAGE_SIZE, PageErr, Pages};
use vs_text::{Line, to_stored};
use vs_tree_blocks::{Edit, MOST_RUNS, Run};

/// The run of one line.
pub fn line_run(alloc: Global, line: &[u8]) -> Result<Run, AllocError>
    requires { IsShort line.now }
    ensures { IfOk result (λ run. run ≡ stored_line line.now ∷ []) }
{
    let mut stored = Vec::new(alloc);
    stored.extend_from_slice(line)?;
    to_stored(&mut stored);
    Run::of(alloc, &stored)
}

// Copies the first of some lines to the begin of a page in their stored form, each with a zero byte after it: as many as the page has
// room for. Gives the number of their bytes.
fn store_lines(lines: &[Line], page: &mut [u8; PAGE_SIZE]) -> usize
    ensures { HasFirst lines.now page.new result }
{
    let mut used = 0;
    'lines: for line in lines {
        let bytes = line.bytes();
        if PAGE_SIZE - used <= bytes.len() {
            return used;
        }
        let end = used + bytes.len();
        exchange_into(bytes, &mut page[used..end]);
        page[end] = 0;
        used = end + 1;
    }
    used
}

// The first lines of some, in their stored form: as many as a page has room for, and at least one.
fn fill_run(alloc: Global, lines: &[Line]) -> Result<Run, AllocError>
    requires some { 0 < length lines.now }
    requires short { All IsShort lines.now }
    ensures run { IfOk result (λ run. run ≡ map stored_line (take (length run) lines.now)) }
    ensures some { IfOk result (λ run. 0 < length run) }
    ensures within { IfOk result (λ run. length run ≤ length lines.now) }
    ensures full { IfOk result (λ run. IsFullBefore run (map stored_line (drop (length run) lines.now))) }
    ensures page { IfOk result IsPageful }
{
    let mut page = [0; PAGE_SIZE];
    let used = store_lines(lines, &mut page);
    let first = Run::of_first(alloc, &page[..used])?;
    if first.taken == 0 {
        return line_run(alloc, lines[0].bytes());
    }
    Ok(first.run)
}

/// Puts a run of lines before the line at `at`, or last where `at` is the number of lines, and gives the root then.
pub fn put_run<P: Pages>(
    alloc: Global,
    pages: &mut P,
    root: Root,
    at: u64,
    run: &Run,
) -> Result<Root, PageErr>
    requires valid { P.valid pages.old }
    requires within { at ≤ root.lines }
    requires some { 0 < root.lines }
    requires small { root.lines < 2 ^ 61 }
    requires few { length run.now < 2 ^ 61 }
    requires there { StandsTree P.Pages pages.old root }
    ensures put { IfOk result (λ now. TurnsTree P.Pages pages.old pages.new root now (λ lines. splice lines at 0 run.now)) }
    ensures lines { IfOk result (λ now. now.lines ≡ root.lines + length run.now) }
    ensures higher { IfOk result (λ now. now.height ≤ root.height + 1) }
    ensures filled { IfOk result (λ now. 1 ≤ length run.now → StaysFilled P.Pages pages.old pages.new root now) }
    ensures holds { IfOk result (λ now. 1 ≤ length run.now → HoldsRun P.Pages pages.new now.height at run.now) }
    ensures works { OnOk result (WorksWhere P.Pages pages.old pages.new root (2 * root.height + 4) (λ lines. space_of run.now ≤ 4072)) }
    ensures kept { Continues P.Pages pages.old pages.new }
    ensures cause { StopsAtFault P.Pages (IsErrOf result PageErr.Failed) pages.old pages.new }
{
    if at == 0 {
        let before = edit_tree(alloc, pages, root, 0, Edit::Before(run))?;
        return Ok(before.root);
    }
    let after = edit_tree(alloc, pages, root, at - 1, Edit::After(run))?;
    Ok(after.root)
}

// Runs of the first lines of some, and the number of these lines.
#[derive(Drop)]
struct Filled {
    runs: Vec<Run>,
    lines: usize,
}

// The first lines of some, in runs that are put in together: each has as many as a page has room for.
fn fill_runs(alloc: Global, lines: &[Line]) -> Result<Filled, AllocError>
    requires some { 0 < length lines.now }
    requires short { All IsShort lines.now }
    ensures runs { IfOk result (λ filled. all_lines filled.runs.items ≡ map stored_line (take filled.lines lines.now)) }
    ensures few { IfOk result (λ filled. length filled.runs.items ≤ 126) }
    ensures each { IfOk result (λ filled. AllHaveLines filled.runs.items) }
    ensures packed { IfOk result (λ filled. ArePacked filled.runs.items (map stored_line (drop filled.lines lines.now))) }
    ensures some { IfOk result (λ filled. 0 < filled.lines) }
    ensures within { IfOk result (λ filled. filled.lines ≤ length lines.now) }
{
    let first = fill_run(alloc, lines)?;
    let mut count = first.len() as usize;
    let mut runs = vec![in alloc; first]?;
    'runs: while count < lines.len() {
        if runs.len() >= MOST_RUNS {
            return Ok(Filled { runs, lines: count });
        }
        let run = fill_run(alloc, &lines[count..])?;
        count += run.len() as usize;
        runs.push(run)?;
    }
    Ok(Filled { runs, lines: count })
}

/// Puts runs of lines, each in a data block of its own, after the line before `at`, and gives the root then.
pub fn put_runs<P: Pages>(
    alloc: Global,
    pages: &mut P,
    root: Root,
    at: u64,
    runs: &[Run],
) -> Result<Root, PageErr>
    requires valid { P.valid pages.old }
    requires some { 0 < at }
    requires within { at ≤ root.lines }
    requires small { root.lines < 2 ^ 61 }
    requires few { length runs.now ≤ 126 }
    requires lines { length (all_lines runs.now) < 2 ^ 61 }
    requires there { StandsTree P.Pages pages.old root }
    ensures put { IfOk result (λ now. TurnsTree P.Pages pages.old pages.new root now (λ lines. splice lines at 0 (all_lines runs.now))) }
    ensures lines { IfOk result (λ now. now.lines ≡ root.lines + length (all_lines runs.now)) }
    ensures higher { IfOk result (λ now. now.height ≤ root.height + 1) }
    ensures cuts { IfOk result (SpreadsTree P.Pages pages.old pages.new root (at - 1) runs.now) }
    ensures filled { IfOk result (λ now. AllHaveLines runs.now → StaysFilled P.Pages pages.old pages.new root now) }
    ensures kept { Continues P.Pages pages.old pages.new }
    ensures cause { StopsAtFault P.Pages (IsErrOf result PageErr.Failed) pages.old pages.new }
{
    let after = edit_tree(alloc, pages, root, at - 1, Edit::Behind(runs))?;
    Ok(after.root)
}

/// Puts lines before the line at `at`, or last where `at` is the number of lines, and gives the root then. A tree has no
/// more lines than a text may have, but for one that stands alone and is to go. The first of them go into the block of the line
/// before them where that has room; the others get blocks of their own.
pub fn put_lines<P: Pages>(
    alloc: Global,
    pages: &mut P,
    root: Root,
    at: u64,
    new: &[Line],
) -> Result<Root, PageErr>
    requires valid { P.valid pages.old }
    requires short { All IsShort new.now }
    requires within { at ≤ root.lines }
    requires some { 0 < root.lines }
    requires small { root.lines + length new.now < 2 ^ 61 }
    requires room { (root.lines ≡ 1) ⊎ (root.lines + length new.now ≤ MAX_LINES) }
    requires there { StandsTree P.Pages pages.old root }
    ensures put { IfOk result (λ now. TurnsTree P.Pages pages.old pages.new root now (λ lines. with_lines lines at new.now)) }
    ensures lines { IfOk result (λ now. now.lines ≡ root.lines + length new.now) }
    ensures higher { IfOk result (λ now. now.height ≤ root.height + length new.now) }
    ensures filled { IfOk result (λ now. StaysFilled P.Pages pages.old pages.new root now) }
    ensures packed { IfOk result (λ now. PacksTree P.Pages pages.new now.height at (map stored_line new.now)) }
    ensures none { IfOk result (λ now. length new.now ≡ 0 → (now ≡ root) × IsUntouched P.Pages pages.old pages.new) }
    ensures works { OnOk result (WorksWhere P.Pages pages.old pages.new root (2 * root.height + 4) (λ lines. (length new.now ≤ 1) × All FitsPage new.now)) }
    ensures kept { Continues P.Pages pages.old pages.new }
    ensures cause { StopsAtFault P.Pages (IsErrOf result PageErr.Failed) pages.old pages.new }
{
    if new.is_empty() {
        return Ok(root);
    }
    let run = fill_run(alloc, new)?;
    let first = put_run(alloc, pages, root, at, &run)?;
    let mut now = first;
    let mut put = run.len() as usize;
    'runs: while put < new.len() {
        let filled = fill_runs(alloc, &new[put..])?;
        now = put_runs(alloc, pages, now, at + put as u64, &filled.runs)?;
        put += filled.lines;
    }
    Ok(now)
}

/// What is left of a tree from which lines were taken: its root, and the number of bytes of these lines with one for each
/// line end.
#[derive(Clone, Copy, Debug, PartialEq, Eq)]
pub struct Taken {
    pub root: Root,
    pub bytes: u64,
}

/// Takes out `count` lines from the line at `at` on.
pub fn take_lines<P: Pages>(
    alloc: Global,
    pages: &mut P,
    root: Root,
    at: u64,
    count: u64,
) -> Result<Taken, PageErr>
    requires valid { P.valid pages.old }
    requires within { at + count ≤ root.lines }
    requires small { root.lines < 2 ^ 61 }
    requires there { StandsTree P.Pages pages.old root }
    ensures taken { IfOk result (λ taken. TurnsTree P.Pages pages.old pages.new root taken.root (λ lines. without_lines lines at count)) }
    ensures bytes { IfOk result (λ taken. OfTree P.Pages pages.old root (λ lines. bytes_of lines < 2 ^ 63 →
        taken.bytes ≡ bytes_of (run_of lines at count))) }
    ensures lines { IfOk result (λ taken. taken.root.lines + count ≡ root.lines) }
    ensures none { IfOk result (λ taken. count ≡ 0 → (taken.root ≡ root) × IsUntouched P.Pages pages.old pages.new) }
    ensures level { IfOk result (λ taken. taken.root.height ≡ root.height) }
    ensures before { IfOk result (λ taken. KeepsBefore P.Pages pages.old pages.new root at taken.root) }
    ensures filled { IfOk result (λ taken. count ≡ 1 → 1 ≤ taken.root.lines → LosesEntry P.Pages pages.old pages.new root taken.root) }
    ensures thins { IfOk result (λ taken. count ≡ 1 →
        ThinsRoot P.Pages pages.old pages.new root.height root.lines at taken.root.height) }
    ensures works { OnOk result (WorksAtMost P.Pages pages.old pages.new root (root.height + 1) (λ lines. (count ≤ 1) ×
        All FitsPage (run_of lines at count))) }
    ensures kept { Continues P.Pages pages.old pages.new }
    ensures cause { StopsAtFault P.Pages (IsErrOf result PageErr.Failed) pages.old pages.new }
{
    let mut now = root;
    let mut bytes: u64 = 0;
    let mut removed: u64 = 0;
    'rounds: while removed < count {
        let after = edit_tree(alloc, pages, now, at, Edit::Remove(count - removed))?;
        bytes = bytes.saturating_add(after.removed.bytes);
        now = after.root;
        removed += after.removed.lines;
    }
    Ok(Taken { root: now, bytes })
}

// Whether all lines go. Only then do the new ones come first.
fn all_go(root: Root, old: u64) -> bool
    ensures { IsTrue result ↔ (old ≡ root.lines) }
{
    old == root.lines
}

// Puts lines in place of all others. A tree has one line at least, so the last one goes when the new ones have come.
fn replace_all<P: Pages>(
    alloc: Global,
    pages: &mut P,
    root: Root,
    new: &[Line],
) -> Result<Taken, PageErr>
    requires valid { P.valid pages.old }
    requires short { All IsShort new.now }
    requires some { 0 < root.lines }
    requires come { 0 < length new.now }
    requires small { root.lines + length new.now < 2 ^ 61 }
    requires there { StandsTree P.Pages pages.old root }
    ensures exchanged { IfOk result (λ taken. TurnsTree P.Pages pages.old pages.new root taken.root (λ lines. exchanged_lines lines 0 root.lines new.now)) }
    ensures bytes { IfOk result (λ taken. CountsRun P.Pages pages.old root (bytes_of new.now) 0 root.lines taken.bytes) }
    ensures filled { IfOk result (λ taken. root.lines ≡ 1 → FillsRoot P.Pages pages.old pages.new 32 root.height 32 taken.root.height) }
    ensures packed { IfOk result (λ taken. PacksTree P.Pages pages.new taken.root.height 0 (map stored_line new.now)) }
    ensures works { OnOk result (WorksWhere P.Pages pages.old pages.new root (3 * root.height + 6) (λ lines. ExchangesLine lines 0 root.lines new.now)) }
    ensures kept { Continues P.Pages pages.old pages.new }
    ensures cause { StopsAtFault P.Pages (IsErrOf result PageErr.Failed) pages.old pages.new }
{
    let most = take_lines(alloc, pages, root, 0, root.lines - 1)?;
    let now = put_lines(alloc, pages, most.root, 0, new)?;
    let last = take_lines(alloc, pages, now, new.len() as u64, 1)?;
    Ok(Taken {
        root: last.root,
        bytes: most.bytes.saturating_add(last.bytes),
    })
}

/// Puts lines in place of `old` lines from the line at `top` on, where lines stay or come. Lines go out first, so that the new
/// ones find the room that they leave.
pub fn exchange_lines<P: Pages>(
    alloc: Global,
    pages: &mut P,
    root: Root,
    top: u64,
    old: u64,
    new: &[Line],
) -> Result<Taken, PageErr>
    requires valid { P.valid pages.old }
    requires short { All IsShort new.now }
    requires within { top + old ≤ root.lines }
    requires some { 0 < root.lines }
    requires left { old < root.lines + length new.now }
    requires small { root.lines + length new.now < 2 ^ 61 }
    requires few { root.lines + length new.now ≤ MAX_LINES + old }
    requires there { StandsTree P.Pages pages.old root }
    ensures exchanged { IfOk result (λ taken. TurnsTree P.Pages pages.old pages.new root taken.root (λ lines. exchanged_lines lines top old new.now)) }
    ensures bytes { IfOk result (λ taken. CountsRun P.Pages pages.old root (bytes_of new.now) top old taken.bytes) }
    ensures filled { IfOk result (λ taken. IsMild root.lines old → FillsRoot P.Pages pages.old pages.new 32 root.height 32 taken.root.height) }
    ensures packed { IfOk result (λ taken. PacksTree P.Pages pages.new taken.root.height top (map stored_line new.now)) }
    ensures thins { IfOk result (λ taken. old ≡ 1 → length new.now ≡ 0 →
        ThinsRoot P.Pages pages.old pages.new root.height root.lines top taken.root.height) }
    ensures level { IfOk result (λ taken. length new.now ≡ 0 → taken.root.height ≡ root.height) }
    ensures works { OnOk result (WorksWhere P.Pages pages.old pages.new root (3 * root.height + 6) (λ lines. ExchangesLine lines top old new.now)) }
    ensures out { OnOk result (length new.now ≡ 0 →
        WorksAtMost P.Pages pages.old pages.new root (root.height + 1) (λ lines. ExchangesLine lines top old new.now)) }
    ensures come { OnOk result (old ≡ 0 →
        WorksWhere P.Pages pages.old pages.new root (2 * root.height + 4) (λ lines. ExchangesLine lines top old new.now)) }
    ensures kept { Continues P.Pages pages.old pages.new }
    ensures cause { StopsAtFault P.Pages (IsErrOf result PageErr.Failed) pages.old pages.new }
{
    if all_go(root, old) {
        return replace_all(alloc, pages, root, new);
    }
    let taken = take_lines(alloc, pages, root, top, old)?;
    let now = put_lines(alloc, pages, taken.root, top, new)?;
    Ok(Taken {
        root: now,
        bytes: taken.bytes,
    })
}
