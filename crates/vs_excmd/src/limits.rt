// The limits of lines and of a text.
ghost use Rattle.std.specs.Prelude.{◌≡◌, ◌≤◌, ◌+◌, ◌-◌, ◌^◌, ℕ, List, IfOk, IfErr, IsErrOf, IsTrue, Ok, All, length, min};
ghost use Rattle.std.specs.List.{list_all};
ghost use Rattle.vs_text.specs.Text.{bytes_of};
ghost use Rattle.vs_text.specs.Limits.{IsShort};
ghost use Rattle.vs_text.specs.declared.TheConstants.{MAX_LINES};
ghost use Rattle.vs_edit.specs.Calls.{OnlyReads, StopsAtFault};
ghost use Rattle.vs_edit.specs.Splices.{cut_out, splice};
ghost use Rattle.vs_excmd.specs.Answer.{Allows, Answers, IsLate, LiesIn, effect_of};
ghost use Rattle.vs_excmd.specs.Change.{bounded, is_short, is_within};

use crate::{Plan, PlanErr};
use std::alloc::Global;
use vs_edit::{LineStore, StoreErr};
use vs_exparse::ExErr;
use vs_reads::bytes_in;
use vs_text::{Line, MAX_LINE_BYTES, MAX_LINES, MAX_TEXT_BYTES};

// A command line has room for a line of a text.
const _: () = prove!(vs_exparse::MAX_LINE_BYTES == MAX_LINE_BYTES);

// The number of bytes of lines, up to the greatest number of its type.
fn count_bytes(lines: &[Line]) -> u64
    ensures { result ≡ min (bytes_of lines.now) (2 ^ 64 - 1) }
{
    let mut bytes = 0u64;
    for line in lines {
        bytes = bytes.saturating_add(line.bytes().len() as u64 + 1);
    }
    bytes
}

fn are_short(lines: &[Line]) -> bool
    ensures value { result ≡ list_all is_short lines.now }
    ensures all { IsTrue result → All IsShort lines.now }
{
    lines
        .iter()
        .all(|line| line.bytes().len() as u64 <= MAX_LINE_BYTES)
}

// Whether the text is within its limits after a splice. The lines that go are read where the new ones do not fit beside them.
fn fits<S: LineStore>(
    alloc: Global,
    view: &mut S,
    top: u64,
    old: u64,
    new: &[Line],
) -> Result<bool, StoreErr>
    requires valid { S.valid view.old }
    requires within { top + old ≤ (S.shows view.old).present.lines }
    ensures value { IfOk result (λ fits. (text : List (List ℕ)) → (S.shows view.old).present.Is text →
        fits ≡ is_within (splice text top old new.now)) }
    ensures few { IfOk result (λ fits. IsTrue fits → (S.shows view.old).present.lines + length new.now ≤ MAX_LINES + old) }
    ensures kept { OnlyReads S.LineStore view.old view.new }
    ensures cause { StopsAtFault S.LineStore (IsErrOf result StoreErr.Failed) view.old view.new }
{
    if new.len() as u64 > MAX_LINES - (view.len() - old) {
        return Ok(false);
    }
    let more = count_bytes(new);
    let bytes = view.bytes();
    if more <= MAX_TEXT_BYTES - bytes {
        return Ok(true);
    }
    let gone = bytes_in(alloc, view, top, old)?;
    Ok(more <= MAX_TEXT_BYTES - bytes.saturating_sub(gone))
}

/// A plan, where the limits allow it.
pub(crate) fn bounded<S: LineStore>(
    alloc: Global,
    view: &mut S,
    plan: Plan,
) -> Result<Plan, PlanErr>
    requires valid { S.valid view.old }
    requires lies { LiesIn (S.shows view.old).present.lines plan }
    ensures answers { (text : List (List ℕ)) → (S.shows view.old).present.Is text → Answers (bounded text (Ok (effect_of plan))) result }
    ensures allowed { IfOk result (λ plan. Allows (S.shows view.new).present plan) }
    ensures late { IfErr result IsLate }
    ensures kept { OnlyReads S.LineStore view.old view.new }
    ensures cause { StopsAtFault S.LineStore (IsErrOf result PlanErr.Failed) view.old view.new }
{
    match plan {
        Plan::NoChange => Ok(Plan::NoChange),
        Plan::Splice {
            top,
            old,
            new,
            cursor,
        } => {
            if !are_short(&new) {
                return Err(PlanErr::Ex(ExErr::LineTooLong));
            }
            if !fits(alloc, view, top, old, &new)? {
                return Err(PlanErr::Ex(ExErr::TextFull));
            }
            Ok(Plan::Splice {
                top,
                old,
                new,
                cursor,
            })
        }
    }
}

/// Whether the text is within its limits with copies of `count` of its lines from line `top` on. No line is kept, and none is
/// read where there is room for the whole text once more.
pub(crate) fn fits_copied<S: LineStore>(
    alloc: Global,
    view: &mut S,
    top: u64,
    count: u64,
) -> Result<bool, StoreErr>
    requires valid { S.valid view.old }
    requires within { top + count ≤ (S.shows view.old).present.lines }
    ensures value { IfOk result (λ fits. (text : List (List ℕ)) (to : ℕ) → (S.shows view.old).present.Is text → to ≤ length text
        → fits ≡ is_within (splice text to 0 (cut_out text top count))) }
    ensures kept { OnlyReads S.LineStore view.old view.new }
    ensures cause { StopsAtFault S.LineStore (IsErrOf result StoreErr.Failed) view.old view.new }
{
    if count > MAX_LINES - view.len() {
        return Ok(false);
    }
    let bytes = view.bytes();
    if bytes <= MAX_TEXT_BYTES - bytes {
        return Ok(true);
    }
    Ok(bytes_in(alloc, view, top, count)? <= MAX_TEXT_BYTES - bytes)
}
