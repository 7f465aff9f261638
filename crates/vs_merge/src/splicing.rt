// A splice after which the tree is filled again.
ghost use Rattle.std.specs.Prelude.{◌≡◌, ◌≤◌, ◌<◌, ◌+◌, ◌*◌, ◌^◌, [], All, IsErrOf, IfOk, OnErr, OnOk, IsTrue, length};
ghost use Rattle.vs_pages.specs.Calls.{Continues, OnlyReads, StopsAtFault};
ghost use Rattle.vs_pages.specs.State.{history_of};
ghost use Rattle.vs_text.specs.Text.{bytes_of};
ghost use Rattle.vs_text.specs.Limits.{IsShort};
ghost use Rattle.vs_text.specs.declared.TheConstants.{MAX_LINES, MAX_TEXT_BYTES};
ghost use Rattle.vs_edit.specs.Splices.{splice};
ghost use Rattle.vs_tree.specs.Calls.{IsUntouched, OfText, Splices, SplicesAtMost, StandsTree};
ghost use Rattle.vs_tree.specs.Texts.{Fits};
ghost use Rattle.vs_merge.specs.Texts.{FilledText, IsNear};

use crate::{settle_tree, tidy_tree};
use std::alloc::Global;
use vs_pages::{PageErr, Pages};
use vs_text::Line;
use vs_tree::{LineTree, Root, walk_down};

// The greatest number of lines that are taken out one by one.
const MOST_SINGLE: u64 = 64;

// The line that lies nearest to the thin block after a line is taken out.
fn near_line<P: Pages>(alloc: Global, pages: &mut P, root: Root, top: u64) -> Result<u64, PageErr>
    requires valid { P.valid pages.old }
    requires within { top < root.lines }
    requires small { root.lines < 2 ^ 62 }
    requires there { StandsTree P.Pages pages.old root }
    ensures near { IfOk result (IsNear P.Pages pages.old root top) }
    ensures kept { OnlyReads P.Pages pages.old pages.new }
    ensures cause { StopsAtFault P.Pages (IsErrOf result PageErr.Failed) pages.old pages.new }
{
    let found = walk_down(alloc, pages, root, top, root.height.saturating_sub(1))?;
    if found.rest + 1 < found.entry.lines {
        return Ok(top);
    }
    Ok(top.saturating_sub(1))
}

// The line at this number, or the last of so many where it is past that.
fn line_within(at: u64, lines: u64) -> u64
    requires { 0 < lines }
    ensures within { result < lines }
    ensures same { at < lines → result ≡ at }
{
    if at < lines {
        return at;
    }
    lines - 1
}

// Takes out one of at least two lines.
fn take_line<P: Pages>(
    alloc: Global,
    tree: &mut LineTree,
    pages: &mut P,
    top: u64,
) -> Result<(), PageErr>
    requires valid { P.valid pages.old }
    requires fits { Fits P.tells (P.shows pages.old).present tree.old.present }
    requires filled { FilledText P.Pages pages.old tree.old.present }
    requires within { top < tree.old.present.lines }
    requires two { 2 ≤ tree.old.present.lines }
    ensures text { OnOk result (Splices P.Pages pages.old pages.new tree.old.present tree.new.present top 1 []) }
    ensures fits { OnOk result (Fits P.tells (P.shows pages.new).present tree.new.present) }
    ensures filled { OnOk result (FilledText P.Pages pages.new tree.new.present) }
    ensures lines { OnOk result (tree.new.present.lines + 1 ≡ tree.old.present.lines) }
    ensures lower { OnOk result (tree.new.present.height ≤ tree.old.present.height) }
    ensures works { OnOk result (SplicesAtMost P.Pages pages.old pages.new tree.old.present top 1 [] (3 * tree.old.present.height + 6)) }
    ensures before { tree.new.committed ≡ tree.old.committed }
    ensures kept { Continues P.Pages pages.old pages.new }
    ensures cause { StopsAtFault P.Pages (IsErrOf result PageErr.Failed) pages.old pages.new }
{
    let near = near_line(alloc, pages, tree.present.root(), top)?;
    tree.splice(alloc, pages, top, 1, &[])?;
    let now = tree.present;
    let at = line_within(near, now.lines);
    tree.present.height = tidy_tree(alloc, pages, now.height, now.lines, at)?;
    Ok(())
}

// Takes out lines one by one where others stay.
fn take_few<P: Pages>(
    alloc: Global,
    tree: &mut LineTree,
    pages: &mut P,
    top: u64,
    count: u64,
) -> Result<(), PageErr>
    requires valid { P.valid pages.old }
    requires fits { Fits P.tells (P.shows pages.old).present tree.old.present }
    requires filled { FilledText P.Pages pages.old tree.old.present }
    requires within { top + count ≤ tree.old.present.lines }
    requires left { 0 < count → count < tree.old.present.lines }
    ensures text { OnOk result (Splices P.Pages pages.old pages.new tree.old.present tree.new.present top count []) }
    ensures fits { OnOk result (Fits P.tells (P.shows pages.new).present tree.new.present) }
    ensures filled { OnOk result (FilledText P.Pages pages.new tree.new.present) }
    ensures lines { OnOk result (tree.new.present.lines + count ≡ tree.old.present.lines) }
    ensures lower { OnOk result (tree.new.present.height ≤ tree.old.present.height) }
    ensures none { OnOk result (count ≡ 0 → (tree.new ≡ tree.old) × IsUntouched P.Pages pages.old pages.new) }
    ensures works { OnOk result (count ≡ 1 →
        SplicesAtMost P.Pages pages.old pages.new tree.old.present top 1 [] (3 * tree.old.present.height + 6)) }
    ensures before { tree.new.committed ≡ tree.old.committed }
    ensures kept { Continues P.Pages pages.old pages.new }
    ensures cause { StopsAtFault P.Pages (IsErrOf result PageErr.Failed) pages.old pages.new }
{
    if count == 0 {
        return Ok(());
    }
    take_line(alloc, tree, pages, top)?;
    take_few(alloc, tree, pages, top, count - 1)
}

// Takes out many lines at once where others stay, and makes all pointer blocks anew.
fn take_many<P: Pages>(
    alloc: Global,
    tree: &mut LineTree,
    pages: &mut P,
    top: u64,
    count: u64,
) -> Result<(), PageErr>
    requires valid { P.valid pages.old }
    requires fits { Fits P.tells (P.shows pages.old).present tree.old.present }
    requires within { top + count ≤ tree.old.present.lines }
    requires left { count < tree.old.present.lines }
    ensures text { OnOk result (Splices P.Pages pages.old pages.new tree.old.present tree.new.present top count []) }
    ensures fits { OnOk result (Fits P.tells (P.shows pages.new).present tree.new.present) }
    ensures filled { OnOk result (FilledText P.Pages pages.new tree.new.present) }
    ensures lines { OnOk result (tree.new.present.lines + count ≡ tree.old.present.lines) }
    ensures before { tree.new.committed ≡ tree.old.committed }
    ensures kept { Continues P.Pages pages.old pages.new }
    ensures cause { StopsAtFault P.Pages (IsErrOf result PageErr.Failed) pages.old pages.new }
{
    tree.splice(alloc, pages, top, count, &[])?;
    let now = tree.present;
    tree.present.height = settle_tree(alloc, pages, now.height, now.lines)?;
    Ok(())
}

// Takes out lines where others stay: few one by one, many at once.
fn take_out<P: Pages>(
    alloc: Global,
    tree: &mut LineTree,
    pages: &mut P,
    top: u64,
    count: u64,
) -> Result<(), PageErr>
    requires valid { P.valid pages.old }
    requires fits { Fits P.tells (P.shows pages.old).present tree.old.present }
    requires filled { FilledText P.Pages pages.old tree.old.present }
    requires within { top + count ≤ tree.old.present.lines }
    requires left { 0 < count → count < tree.old.present.lines }
    ensures text { OnOk result (Splices P.Pages pages.old pages.new tree.old.present tree.new.present top count []) }
    ensures fits { OnOk result (Fits P.tells (P.shows pages.new).present tree.new.present) }
    ensures filled { OnOk result (FilledText P.Pages pages.new tree.new.present) }
    ensures lines { OnOk result (tree.new.present.lines + count ≡ tree.old.present.lines) }
    ensures lower { OnOk result (count ≤ 1 → tree.new.present.height ≤ tree.old.present.height) }
    ensures none { OnOk result (count ≡ 0 → (tree.new ≡ tree.old) × IsUntouched P.Pages pages.old pages.new) }
    ensures works { OnOk result (count ≡ 1 →
        SplicesAtMost P.Pages pages.old pages.new tree.old.present top 1 [] (3 * tree.old.present.height + 6)) }
    ensures before { tree.new.committed ≡ tree.old.committed }
    ensures kept { Continues P.Pages pages.old pages.new }
    ensures cause { StopsAtFault P.Pages (IsErrOf result PageErr.Failed) pages.old pages.new }
{
    if count > MOST_SINGLE {
        return take_many(alloc, tree, pages, top, count);
    }
    take_few(alloc, tree, pages, top, count)
}

// Puts lines in place of others. Where all lines go, the last one goes when the new ones have come.
fn splice_within<P: Pages>(
    alloc: Global,
    tree: &mut LineTree,
    pages: &mut P,
    top: u64,
    old: u64,
    new: &[Line],
) -> Result<(), PageErr>
    requires valid { P.valid pages.old }
    requires fits { Fits P.tells (P.shows pages.old).present tree.old.present }
    requires filled { FilledText P.Pages pages.old tree.old.present }
    requires within { top + old ≤ tree.old.present.lines }
    requires few_lines { tree.old.present.lines + length new.now ≤ MAX_LINES + old }
    requires short_lines { All IsShort new.now }
    requires few_bytes { OfText P.Pages pages.old tree.old.present (λ text. bytes_of (splice text top old new.now) ≤ MAX_TEXT_BYTES) }
    ensures text { OnOk result (Splices P.Pages pages.old pages.new tree.old.present tree.new.present top old new.now) }
    ensures fits { OnOk result (Fits P.tells (P.shows pages.new).present tree.new.present) }
    ensures filled { OnOk result (FilledText P.Pages pages.new tree.new.present) }
    ensures lines { OnOk result (tree.new.present.lines + old ≡ tree.old.present.lines + length new.now) }
    ensures bound { OnOk result (SplicesAtMost P.Pages pages.old pages.new tree.old.present top old new.now (5 * tree.old.present.height + 12)) }
    ensures before { tree.new.committed ≡ tree.old.committed }
    ensures kept { Continues P.Pages pages.old pages.new }
    ensures cause { StopsAtFault P.Pages (IsErrOf result PageErr.Failed) pages.old pages.new }
{
    if old == tree.present.lines {
        take_out(alloc, tree, pages, 0, old.saturating_sub(1))?;
        let last = tree.present.lines;
        return tree.splice(alloc, pages, 0, last, new);
    }
    take_out(alloc, tree, pages, top, old)?;
    tree.splice(alloc, pages, top, 0, new)
}

/// Puts lines in place of `old` lines of a text whose tree is filled, from line `top` on, counted from 0: its tree is filled then.
/// After an error the tree and its pages are as before.
pub fn splice<P: Pages>(
    alloc: Global,
    tree: &mut LineTree,
    pages: &mut P,
    top: u64,
    old: u64,
    new: &[Line],
) -> Result<(), PageErr>
    requires valid { P.valid pages.old }
    requires fits { Fits P.tells (P.shows pages.old).present tree.old.present }
    requires filled { FilledText P.Pages pages.old tree.old.present }
    requires within { top + old ≤ tree.old.present.lines }
    requires few_lines { tree.old.present.lines + length new.now ≤ MAX_LINES + old }
    requires short_lines { All IsShort new.now }
    requires few_bytes { OfText P.Pages pages.old tree.old.present (λ text. bytes_of (splice text top old new.now) ≤ MAX_TEXT_BYTES) }
    ensures text { OnOk result (Splices P.Pages pages.old pages.new tree.old.present tree.new.present top old new.now) }
    ensures fits { Fits P.tells (P.shows pages.new).present tree.new.present }
    ensures filled { FilledText P.Pages pages.new tree.new.present }
    ensures lines { OnOk result (tree.new.present.lines + old ≡ tree.old.present.lines + length new.now) }
    ensures bound { OnOk result (SplicesAtMost P.Pages pages.old pages.new tree.old.present top old new.now (5 * tree.old.present.height + 12)) }
    ensures before { tree.new.committed ≡ tree.old.committed }
    ensures same { OnErr result (tree.new ≡ tree.old) }
    ensures back { OnErr result (IsTrue P.tells → history_of (P.shows pages.new) ≡ history_of (P.shows pages.old)) }
    ensures kept { Continues P.Pages pages.old pages.new }
    ensures cause { StopsAtFault P.Pages (IsErrOf result PageErr.Failed) pages.old pages.new }
{
    let was = *tree;
    let mark = pages.mark();
    match splice_within(alloc, tree, pages, top, old, new) {
        Ok(()) => Ok(()),
        Err(error) => {
            pages.back(mark);
            *tree = was;
            Err(error)
        }
    }
}
