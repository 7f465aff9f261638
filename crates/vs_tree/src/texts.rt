// The text of the tree, spliced.
ghost use Rattle.std.specs.Prelude.{◌≡◌, ◌≤◌, ◌<◌, ◌+◌, ◌-◌, ◌*◌, ◌^◌, [], All, IsErrOf, IfOk, OnOk, IsTrue, length, map};
ghost use Rattle.vs_pages.specs.Calls.{Continues, StopsAtFault};
ghost use Rattle.vs_text.specs.Text.{IsText, bytes_of, stored_line};
ghost use Rattle.vs_text.specs.Limits.{IsShort};
ghost use Rattle.vs_text.specs.declared.TheConstants.{MAX_LINES, MAX_TEXT_BYTES};
ghost use Rattle.vs_edit.specs.Splices.{splice};
ghost use Rattle.vs_tree_blocks.specs.Edits.{FitsPage};
ghost use Rattle.vs_tree.specs.Calls.{OfText, Splices, SplicesAtMost, SplicesBy, SplicesLittle, WorksLittle};
ghost use Rattle.vs_tree.specs.Fills.{FillsRoot, IsMild, ThinsRoot};
ghost use Rattle.vs_tree.specs.Packed.{PacksTree};
ghost use Rattle.vs_tree.specs.Texts.{HasText, Fits};

use crate::{Root, exchange_lines};
use std::alloc::Global;
use vs_pages::{PageErr, Pages};
use vs_text::{Line, MAX_TEXT_BYTES};

/// The numbers of a text in pages: the number of levels between block 1 and the data blocks, and the numbers of lines and
/// bytes of the text, with one byte for each line end. The text without lines has the lines of one empty line in its tree.
#[derive(Clone, Copy, Debug, PartialEq, Eq)]
pub struct Extent {
    pub height: u64,
    pub lines: u64,
    pub bytes: u64,
}

impl Extent {
    ghost use Rattle.vs_tree.specs.Texts.{tree_lines};

    /// The root of the tree.
    pub fn root(self) -> Root
        ensures { result ≡ record { height = self.height; lines = tree_lines self.lines } }
    {
        Root {
            height: self.height,
            lines: if self.lines == 0 { 1 } else { self.lines },
        }
    }
}

// The number of bytes of lines, with one for each line end.
fn count_bytes(lines: &[Line]) -> u64
    requires short { All IsShort lines.now }
    requires few { length lines.now ≤ 2 ^ 24 }
    ensures bytes { result ≡ bytes_of lines.now }
    ensures bound { result ≤ 2 ^ 45 }
    ensures lines { IsText lines.now }
{
    let mut bytes: u64 = 0;
    for line in lines {
        bytes += line.bytes().len() as u64 + 1;
    }
    bytes
}

// Puts lines into the text without lines.
fn fill_text<P: Pages>(
    alloc: Global,
    pages: &mut P,
    now: Extent,
    new: &[Line],
) -> Result<Extent, PageErr>
    requires valid { P.valid pages.old }
    requires fits { Fits P.tells (P.shows pages.old).present now }
    requires empty { now.lines ≡ 0 }
    requires few_lines { length new.now ≤ MAX_LINES }
    requires short_lines { All IsShort new.now }
    requires few_bytes { IsTrue P.tells → bytes_of new.now ≤ MAX_TEXT_BYTES }
    ensures text { IfOk result (λ extent. IsTrue P.tells → HasText (P.shows pages.new).present extent new.now) }
    ensures lines { IfOk result (λ extent. extent.lines ≡ length new.now) }
    ensures filled { IfOk result (λ extent. FillsRoot P.Pages pages.old pages.new 32 now.height 32 extent.height) }
    ensures packed { IfOk result (λ extent. PacksTree P.Pages pages.new extent.height 0 (map stored_line new.now)) }
    ensures works { OnOk result (IsTrue P.tells → length new.now ≤ 1 → All FitsPage new.now → WorksLittle P.Pages pages.old pages.new now) }
    ensures kept { Continues P.Pages pages.old pages.new }
    ensures cause { StopsAtFault P.Pages (IsErrOf result PageErr.Failed) pages.old pages.new }
{
    if new.is_empty() {
        return Ok(now);
    }
    let taken = exchange_lines(alloc, pages, now.root(), 0, 1, new)?;
    Ok(Extent {
        height: taken.root.height,
        lines: new.len() as u64,
        bytes: count_bytes(new),
    })
}

// Takes out all lines of a text that has lines.
fn clear_text<P: Pages>(alloc: Global, pages: &mut P, now: Extent) -> Result<Extent, PageErr>
    requires valid { P.valid pages.old }
    requires fits { Fits P.tells (P.shows pages.old).present now }
    requires full { 0 < now.lines }
    ensures text { IfOk result (λ extent. IsTrue P.tells → HasText (P.shows pages.new).present extent []) }
    ensures lines { IfOk result (λ extent. extent.lines ≡ 0) }
    ensures filled { IfOk result (λ extent. now.lines ≤ 1 → FillsRoot P.Pages pages.old pages.new 32 now.height 32 extent.height) }
    ensures works { OnOk result (OfText P.Pages pages.old now (λ text. now.lines ≤ 1 → All FitsPage text →
        WorksLittle P.Pages pages.old pages.new now)) }
    ensures kept { Continues P.Pages pages.old pages.new }
    ensures cause { StopsAtFault P.Pages (IsErrOf result PageErr.Failed) pages.old pages.new }
{
    let empty = [Line::from_vec(Vec::new(alloc))];
    let taken = exchange_lines(alloc, pages, now.root(), 0, now.lines, &empty)?;
    Ok(Extent {
        height: taken.root.height,
        lines: 0,
        bytes: 0,
    })
}

// Puts lines in place of others, where lines stay or come.
fn replace_lines<P: Pages>(
    alloc: Global,
    pages: &mut P,
    now: Extent,
    top: u64,
    old: u64,
    new: &[Line],
) -> Result<Extent, PageErr>
    requires valid { P.valid pages.old }
    requires fits { Fits P.tells (P.shows pages.old).present now }
    requires full { 0 < now.lines }
    requires within { top + old ≤ now.lines }
    requires left { old < now.lines + length new.now }
    requires few_lines { now.lines + length new.now ≤ MAX_LINES + old }
    requires short_lines { All IsShort new.now }
    requires few_bytes { OfText P.Pages pages.old now (λ text. bytes_of (splice text top old new.now) ≤ MAX_TEXT_BYTES) }
    ensures text { IfOk result (λ extent. Splices P.Pages pages.old pages.new now extent top old new.now) }
    ensures lines { IfOk result (λ extent. extent.lines + old ≡ now.lines + length new.now) }
    ensures filled { IfOk result (λ extent. IsMild now.lines old → FillsRoot P.Pages pages.old pages.new 32 now.height 32 extent.height) }
    ensures packed { IfOk result (λ extent. PacksTree P.Pages pages.new extent.height top (map stored_line new.now)) }
    ensures thins { IfOk result (λ extent. old ≡ 1 → length new.now ≡ 0 →
        ThinsRoot P.Pages pages.old pages.new now.height now.lines top extent.height) }
    ensures level { IfOk result (λ extent. length new.now ≡ 0 → extent.height ≡ now.height) }
    ensures works { OnOk result (SplicesLittle P.Pages pages.old pages.new now top old new.now) }
    ensures out { OnOk result (length new.now ≡ 0 → SplicesAtMost P.Pages pages.old pages.new now top old new.now (now.height + 1)) }
    ensures come { OnOk result (old ≡ 0 → SplicesBy P.Pages pages.old pages.new now top old new.now (2 * now.height + 4)) }
    ensures kept { Continues P.Pages pages.old pages.new }
    ensures cause { StopsAtFault P.Pages (IsErrOf result PageErr.Failed) pages.old pages.new }
{
    let taken = exchange_lines(alloc, pages, now.root(), top, old, new)?;
    let sum = now.bytes + count_bytes(new);
    let Some(bytes) = sum.checked_sub(taken.bytes) else {
        pages.damaged();
        return Err(PageErr::Failed);
    };
    Ok(Extent {
        height: taken.root.height,
        lines: now.lines + new.len() as u64 - old,
        bytes,
    })
}

// Puts lines in place of `old` lines of the text from line `top` on, counted from 0, and gives its numbers then.
fn splice_text<P: Pages>(
    alloc: Global,
    pages: &mut P,
    now: Extent,
    top: u64,
    old: u64,
    new: &[Line],
) -> Result<Extent, PageErr>
    requires valid { P.valid pages.old }
    requires fits { Fits P.tells (P.shows pages.old).present now }
    requires within { top + old ≤ now.lines }
    requires few_lines { now.lines + length new.now ≤ MAX_LINES + old }
    requires short_lines { All IsShort new.now }
    requires few_bytes { OfText P.Pages pages.old now (λ text. bytes_of (splice text top old new.now) ≤ MAX_TEXT_BYTES) }
    ensures text { IfOk result (λ extent. Splices P.Pages pages.old pages.new now extent top old new.now) }
    ensures lines { IfOk result (λ extent. extent.lines + old ≡ now.lines + length new.now) }
    ensures filled { IfOk result (λ extent. IsMild now.lines old → FillsRoot P.Pages pages.old pages.new 32 now.height 32 extent.height) }
    ensures packed { IfOk result (λ extent. PacksTree P.Pages pages.new extent.height top (map stored_line new.now)) }
    ensures thins { IfOk result (λ extent. old ≡ 1 → length new.now ≡ 0 →
        ThinsRoot P.Pages pages.old pages.new now.height now.lines top extent.height) }
    ensures level { IfOk result (λ extent. old < now.lines → length new.now ≡ 0 → extent.height ≡ now.height) }
    ensures works { OnOk result (SplicesLittle P.Pages pages.old pages.new now top old new.now) }
    ensures out { OnOk result (old < now.lines → length new.now ≡ 0 → SplicesAtMost P.Pages pages.old pages.new now top old new.now (now.height + 1)) }
    ensures come { OnOk result (0 < now.lines → old ≡ 0 → SplicesBy P.Pages pages.old pages.new now top old new.now (2 * now.height + 4)) }
    ensures kept { Continues P.Pages pages.old pages.new }
    ensures cause { StopsAtFault P.Pages (IsErrOf result PageErr.Failed) pages.old pages.new }
{
    if now.lines == 0 {
        return fill_text(alloc, pages, now, new);
    }
    if new.is_empty() && old == now.lines {
        return clear_text(alloc, pages, now);
    }
    replace_lines(alloc, pages, now, top, old, new)
}

/// Puts lines in place of others, and gives the numbers of the text then. After an error the pages may hold anything.
pub fn splice_within<P: Pages>(
    alloc: Global,
    pages: &mut P,
    now: Extent,
    top: u64,
    old: u64,
    new: &[Line],
) -> Result<Extent, PageErr>
    requires valid { P.valid pages.old }
    requires fits { Fits P.tells (P.shows pages.old).present now }
    requires within { top + old ≤ now.lines }
    requires few_lines { now.lines + length new.now ≤ MAX_LINES + old }
    requires short_lines { All IsShort new.now }
    requires few_bytes { OfText P.Pages pages.old now (λ text. bytes_of (splice text top old new.now) ≤ MAX_TEXT_BYTES) }
    ensures text { IfOk result (λ extent. Splices P.Pages pages.old pages.new now extent top old new.now) }
    ensures lines { IfOk result (λ extent. extent.lines + old ≡ now.lines + length new.now) }
    ensures bytes { IfOk result (λ extent. extent.bytes ≤ MAX_TEXT_BYTES) }
    ensures filled { IfOk result (λ extent. IsMild now.lines old → FillsRoot P.Pages pages.old pages.new 32 now.height 32 extent.height) }
    ensures packed { IfOk result (λ extent. PacksTree P.Pages pages.new extent.height top (map stored_line new.now)) }
    ensures thins { IfOk result (λ extent. old ≡ 1 → length new.now ≡ 0 →
        ThinsRoot P.Pages pages.old pages.new now.height now.lines top extent.height) }
    ensures level { IfOk result (λ extent. old < now.lines → length new.now ≡ 0 → extent.height ≡ now.height) }
    ensures works { OnOk result (SplicesLittle P.Pages pages.old pages.new now top old new.now) }
    ensures out { OnOk result (old < now.lines → length new.now ≡ 0 → SplicesAtMost P.Pages pages.old pages.new now top old new.now (now.height + 1)) }
    ensures come { OnOk result (0 < now.lines → old ≡ 0 → SplicesBy P.Pages pages.old pages.new now top old new.now (2 * now.height + 4)) }
    ensures kept { Continues P.Pages pages.old pages.new }
    ensures cause { StopsAtFault P.Pages (IsErrOf result PageErr.Failed) pages.old pages.new }
{
    let present = splice_text(alloc, pages, now, top, old, new)?;
    if MAX_TEXT_BYTES < present.bytes {
        pages.damaged();
        return Err(PageErr::Failed);
    }
    Ok(present)
}
