// Lines of a store that are held, and may be changed, while the store stays as it is.
ghost use Rattle.std.specs.Prelude.{◌≡◌, ◌≤◌, ◌<◌, ◌⊎◌, ◌+◌, ◌-◌, ◌^◌, [], ℕ, List, IfOk, IfSome, IsErrOf, OnErr, OnOk, length};
ghost use Rattle.vs_text.specs.declared.TheConstants.{MAX_LINES};
ghost use Rattle.vs_edit.specs.Calls.{OnlyReads, StopsAtFault};
ghost use Rattle.vs_edit.specs.Splices.{cut_out};
ghost use Rattle.vs_edit.specs.State.{SameText};
ghost use Rattle.vs_gap.specs.Held.{HoldsMore, IsExchanged, IsHeld, lines_with, shown, with_held};

use crate::gap::bytes_in;
use crate::lines::HeldLines;
use std::alloc::{AllocError, Global};
use vs_edit::{LineStore, StoreErr};
use vs_reads::push_lines;
use vs_text::{Line, MAX_TEXT_BYTES};

// The number of lines that are read beyond those that are asked for.
const LINES_AHEAD: u64 = 1_024;

/// Lines that stand in the place of others of a text, and the number of bytes that the text has with them.
#[derive(Drop)]
pub struct Held {
    /// The first of the lines in whose place they stand, counted from 0, and how many those are.
    pub top: u64,
    pub replaced: u64,
    pub lines: HeldLines,
    pub bytes: u64,
}

impl Held {
    /// No lines of the text of a store.
    pub fn over<S: LineStore>(alloc: Global, store: &S) -> Held
        requires { S.valid store.now }
        ensures held { IsHeld (S.shows store.now).present result }
        ensures shows { SameText (S.shows store.now).present (shown (S.shows store.now).present result) }
        ensures only { SameText (shown (S.shows store.now).present result) (S.shows store.now).present }
    {
        Held {
            top: 0,
            replaced: 0,
            lines: HeldLines::new(alloc),
            bytes: store.bytes(),
        }
    }

    /// The same lines once more.
    pub fn copy(&self) -> Result<Held, AllocError>
        ensures { IfOk result (λ copy. copy ≡ self.now) }
    {
        Ok(Held {
            top: self.top,
            replaced: self.replaced,
            lines: self.lines.copy()?,
            bytes: self.bytes,
        })
    }

    /// Puts new lines in the place of `old` lines from line `top` of the text on. After an `Err` the lines are as before.
    pub fn exchange(
        &mut self,
        alloc: Global,
        top: u64,
        old: u64,
        new: Vec<Line>,
    ) -> Result<(), AllocError>
        requires from { self.old.top ≤ top }
        requires to { top + old ≤ self.old.top + length self.old.lines }
        requires few { length self.old.lines < 2 ^ 32 }
        ensures ok { OnOk result (IsExchanged self.old top old new.items self.new) }
        ensures err { OnErr result (self.new ≡ self.old) }
    {
        let more = bytes_in(&new);
        let gone = self
            .lines
            .splice(alloc, (top - self.top) as usize, old as usize, new)?;
        self.bytes = self
            .bytes
            .saturating_sub(gone)
            .saturating_add(more)
            .min(MAX_TEXT_BYTES);
        Ok(())
    }
}

/// Where lines of a text stand among the held ones, where they are all held.
pub(crate) fn place_held(held: &Held, at: u64, count: u64) -> Option<usize>
    requires { length held.now.lines < 2 ^ 63 }
    ensures place { IfSome result (λ place. (held.now.top ≤ at) × (place ≡ at - held.now.top)) }
    ensures within { IfSome result (λ place. place + count ≤ length held.now.lines) }
{
    if at < held.top {
        return None;
    }
    let lines = held.lines.len() as u64;
    let past = at - held.top;
    if past > lines || count > lines - past {
        return None;
    }
    Some(past as usize)
}

/// Where lines of a text stand in the text that is without the held ones, where none of them is held.
pub(crate) fn place_below(held: &Held, at: u64, count: u64) -> Option<u64>
    requires few { length held.now.lines < 2 ^ 63 }
    requires small { at + held.now.replaced < 2 ^ 64 }
    ensures lines { IfSome result (λ place. (text : List (List ℕ)) → held.now.top + held.now.replaced ≤ length text
        → cut_out (with_held text held.now) at count ≡ cut_out text place count) }
    ensures within { IfSome result (λ place. (lines : ℕ) → held.now.top + held.now.replaced ≤ lines → at + count ≤ lines_with lines held.now
        → place + count ≤ lines) }
{
    if at < held.top {
        if count > held.top - at {
            return None;
        }
        return Some(at);
    }
    let lines = held.lines.len() as u64;
    if at - held.top < lines {
        return None;
    }
    Some(at + held.replaced - lines)
}

// Holds the lines from this one on.
fn hold_from<S: LineStore>(
    alloc: Global,
    held: &mut Held,
    below: &mut S,
    top: u64,
) -> Result<(), StoreErr>
    requires valid { S.valid below.old }
    requires within { held.old.top + held.old.replaced ≤ (S.shows below.old).present.lines }
    ensures holds { OnOk result (held.new.top ≤ top) }
    ensures more { HoldsMore (S.shows below.old).present held.old held.new }
    ensures kept { OnlyReads S.LineStore below.old below.new }
    ensures cause { StopsAtFault S.LineStore (IsErrOf result StoreErr.Failed) below.old below.new }
{
    // called for its contract alone: the number of lines fits 64 bits
    let _ = below.len();
    if held.top <= top {
        return Ok(());
    }
    let count = held.top - top;
    let mut more = Vec::new(alloc);
    push_lines(alloc, below, top, count, &mut more)?;
    held.lines.prepend(more)?;
    held.top = top;
    held.replaced += count;
    Ok(())
}

// Holds the lines up to this one, and some more where there are any.
fn hold_to<S: LineStore>(
    alloc: Global,
    held: &mut Held,
    below: &mut S,
    end: u64,
) -> Result<(), StoreErr>
    requires valid { S.valid below.old }
    requires within { held.old.top + held.old.replaced ≤ (S.shows below.old).present.lines }
    requires few { (S.shows below.old).present.lines + length held.old.lines ≤ MAX_LINES + held.old.replaced }
    requires reaches { end + held.old.replaced ≤ (S.shows below.old).present.lines + length held.old.lines }
    ensures holds { OnOk result (end ≤ held.new.top + length held.new.lines) }
    ensures top { OnOk result (held.new.top ≡ held.old.top) }
    ensures more { HoldsMore (S.shows below.old).present held.old held.new }
    ensures kept { OnlyReads S.LineStore below.old below.new }
    ensures cause { StopsAtFault S.LineStore (IsErrOf result StoreErr.Failed) below.old below.new }
{
    let lines = below.len();
    let held_to = held.top + held.lines.len() as u64;
    if end <= held_to {
        return Ok(());
    }
    let next = held.top + held.replaced;
    let count = (end - held_to + LINES_AHEAD).min(lines - next);
    let mut more = Vec::new(alloc);
    below.copy_lines(alloc, next, count, &mut more)?;
    held.lines.append(&more, count as usize)?;
    held.replaced += count;
    Ok(())
}

// Where nothing is held, what is held next may stand anywhere: it is to begin at this line.
fn seat(held: &mut Held, top: u64)
    requires { length held.old.lines < 2 ^ 63 }
    ensures lines { (held.new.lines ≡ held.old.lines) × (held.new.replaced ≡ held.old.replaced) × (held.new.bytes ≡ held.old.bytes) }
    ensures place { (held.new.top ≡ held.old.top) ⊎ ((held.old.replaced ≡ 0) × (held.old.lines ≡ []) × (held.new.top ≡ top)) }
{
    if held.replaced == 0 && held.lines.len() == 0 {
        held.top = top;
    }
}

/// Holds `count` lines from line `top` on, as the text is with the lines that are held.
pub(crate) fn hold<S: LineStore>(
    alloc: Global,
    held: &mut Held,
    below: &mut S,
    top: u64,
    count: u64,
) -> Result<(), StoreErr>
    requires valid { S.valid below.old }
    requires within { held.old.top + held.old.replaced ≤ (S.shows below.old).present.lines }
    requires few { (S.shows below.old).present.lines + length held.old.lines ≤ MAX_LINES + held.old.replaced }
    requires reaches { top + count + held.old.replaced ≤ (S.shows below.old).present.lines + length held.old.lines }
    ensures from { OnOk result (held.new.top ≤ top) }
    ensures to { OnOk result (top + count ≤ held.new.top + length held.new.lines) }
    ensures more { HoldsMore (S.shows below.old).present held.old held.new }
    ensures kept { OnlyReads S.LineStore below.old below.new }
    ensures cause { StopsAtFault S.LineStore (IsErrOf result StoreErr.Failed) below.old below.new }
{
    let _ = below.len();
    seat(held, top);
    hold_from(alloc, held, below, top)?;
    hold_to(alloc, held, below, top + count)?;
    held.lines.reach(alloc, (top - held.top) as usize)?;
    Ok(())
}
