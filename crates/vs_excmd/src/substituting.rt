// The command that replaces a literal text.
ghost use Rattle.std.specs.Prelude.{◌≡◌, ◌≤◌, ◌<◌, ◌+◌, ◌*◌, ◌^◌, ◌++◌, ◌∷◌, [], ℕ, List, Bool, true, false, if◌then◌else◌, IfOk, IfErr, OnOk, IsErrOf, IsTrue, Ok, Err, length};
ghost use Rattle.std.specs.List.{list_any};
ghost use Rattle.vs_text.specs.Text.{IsLine, bytes_of};
ghost use Rattle.vs_text.specs.Limits.{IsShort};
ghost use Rattle.vs_edit.specs.Calls.{OnlyReads, StopsAtFault};
ghost use Rattle.vs_edit.specs.Splices.{cut_out};
ghost use Rattle.vs_exparse.specs.Bytes.{is_empty};
ghost use Rattle.vs_exparse.specs.Pieces.{is_pattern, is_replacement};
ghost use Rattle.vs_excmd.specs.Answer.{Answers, IsLate, Leads, LiesIn, effect_of};
ghost use Rattle.vs_excmd.specs.Change.{bounded};
ghost use Rattle.vs_excmd.specs.Place.{IsSpanIn};
ghost use Rattle.vs_excmd.specs.Rewriting.{AreKept, Finds, IsRewriting, StandsIn, is_long, is_too_long};
ghost use Rattle.vs_excmd.specs.Substitute.{has_match, replaced, rewritten, substituted, substituted_lines};

use crate::replacing::{Rewritten, literal, replacement, rewrite_line};
use crate::{Plan, PlanErr, Span};
use memchr::memmem::Finder;
use std::alloc::{AllocError, Global};
use vs_edit::{LineStore, StoreErr};
use vs_exparse::ExErr;
use vs_reads::LineReader;
use vs_text::{Line, MAX_TEXT_BYTES};

// Lines that were looked at: so many before the first that matches, those from there on with their bytes, and how many of
// these end with the last that matches.
#[derive(Drop)]
struct Rewriting {
    before: u64,
    lines: Vec<Line>,
    kept: usize,
    bytes: u64,
}

fn is_none(lines: &[Line]) -> bool
    ensures { result ≡ is_empty lines.now }
{
    lines.len() == 0
}

// Puts a line after others, and counts its bytes.
#[inline(always)]
fn push_counted(lines: &mut Vec<Line>, bytes: &mut u64, line: Line) -> Result<(), AllocError>
    requires { bytes.old + length line + 1 < 2 ^ 64 }
    ensures lines { OnOk result (lines.new.items ≡ lines.old.items ++ line ∷ []) }
    ensures bytes { OnOk result (bytes.new ≡ bytes.old + length line + 1) }
{
    let len = line.bytes().len() as u64;
    lines.push(line)?;
    *bytes += len + 1;
    Ok(())
}

impl Rewriting {
    // Adds a line, with what came of it.
    #[inline(always)]
    fn add(&mut self, alloc: Global, line: &[u8], found: Rewritten) -> Result<(), AllocError>
        requires is_line { IsLine line.now }
        requires found_line { AreKept IsLine found }
        requires line_short { IsShort line.now }
        requires short { AreKept IsShort found }
        requires fits { is_too_long found ≡ false }
        requires few { self.old.before + 1 < 2 ^ 64 }
        requires few_bytes { self.old.bytes + 1048577 < 2 ^ 64 }
        ensures adds { OnOk result ((hits : List ℕ → Bool) (f : List ℕ → List ℕ) (seen : List (List ℕ))
            → IsRewriting hits f seen self.old.before self.old.lines.items self.old.kept
            → Finds hits f line.now found → IsRewriting hits f (seen ++ line.now ∷ []) self.new.before self.new.lines.items self.new.kept) }
        ensures few { OnOk result (self.new.before + length self.new.lines.items ≤ self.old.before + length self.old.lines.items + 1) }
        ensures counted { OnOk result (self.old.bytes ≡ bytes_of self.old.lines.items → self.new.bytes ≡ bytes_of self.new.lines.items) }
        ensures few_bytes { OnOk result (self.new.bytes ≤ self.old.bytes + 1048577) }
    {
        match found {
            Rewritten::New(text) => {
                push_counted(&mut self.lines, &mut self.bytes, Line::from_vec(text))?;
                self.kept = self.lines.as_slice().len();
                Ok(())
            }
            Rewritten::Unmatched => {
                if is_none(self.lines.as_slice()) {
                    self.before += 1;
                    return Ok(());
                }
                let copy = Vec::from_slice(alloc, line)?;
                push_counted(&mut self.lines, &mut self.bytes, Line::from_vec(copy))?;
                Ok(())
            }
            Rewritten::TooLong => Ok(()),
        }
    }

    // Whether the lines up to the last that matches are more than a text has room for.
    fn is_full(&self) -> bool
        ensures { IsTrue result → (self.now.kept ≡ length self.now.lines.items) × (268435456 < self.now.bytes) }
    {
        self.kept == self.lines.as_slice().len() && self.bytes > MAX_TEXT_BYTES
    }
}

// Whether a line among `count` lines from line `top` on would be too long. No line is kept.
fn any_long<S: LineStore>(
    alloc: Global,
    view: &mut S,
    top: u64,
    count: u64,
    finder: &Finder<'_>,
    new: &[u8],
    all: bool,
) -> Result<bool, StoreErr>
    requires valid { S.valid view.old }
    requires within { top + count ≤ (S.shows view.old).present.lines }
    requires some { 0 < length finder.now }
    ensures value { IfOk result (λ long. (text : List (List ℕ)) (whole : List ℕ) → (S.shows view.old).present.Is text → StandsIn new.now whole
        → long ≡ list_any (is_long (has_match finder.now) (replaced all finder.now whole)) (cut_out text top count)) }
    ensures kept { OnlyReads S.LineStore view.old view.new }
    ensures cause { StopsAtFault S.LineStore (IsErrOf result StoreErr.Failed) view.old view.new }
{
    // called for its contract alone: the number of lines fits 64 bits
    let _ = view.len();
    let mut reader = LineReader::new(alloc, top, count);
    for _ in 0..count {
        reader.advance(alloc, view)?;
        let found = rewrite_line(alloc, reader.current(), finder, new, all)?;
        if found.is_too_long() {
            return Ok(true);
        }
    }
    Ok(false)
}

// Rewrites lines as far as they match. None is kept that a text has no room for.
fn rewrite<S: LineStore>(
    alloc: Global,
    view: &mut S,
    top: u64,
    count: u64,
    finder: &Finder<'_>,
    new: &[u8],
    all: bool,
) -> Result<Rewriting, PlanErr>
    requires valid { S.valid view.old }
    requires within { top + count ≤ (S.shows view.old).present.lines }
    requires some { 0 < length finder.now }
    requires needle { IsLine finder.now }
    requires new_line { IsLine new.now }
    ensures rewriting { IfOk result (λ state. (text : List (List ℕ)) (whole : List ℕ) → (S.shows view.old).present.Is text → StandsIn new.now whole
        → IsRewriting (has_match finder.now) (replaced all finder.now whole) (cut_out text top count) state.before state.lines.items state.kept) }
    ensures few { IfOk result (λ state. state.before + length state.lines.items ≤ count) }
    ensures refused { IfErr result (λ e. (text : List (List ℕ)) (whole : List ℕ) → (S.shows view.old).present.Is text → StandsIn new.now whole
        → Answers (bounded text (substituted_lines (has_match finder.now) (replaced all finder.now whole) top (cut_out text top count))) (Err e)) }
    ensures late { IfErr result IsLate }
    ensures kept { OnlyReads S.LineStore view.old view.new }
    ensures cause { StopsAtFault S.LineStore (IsErrOf result PlanErr.Failed) view.old view.new }
{
    // called for its contract alone: the number of lines fits 64 bits
    let _ = view.len();
    let mut reader = LineReader::new(alloc, top, count);
    reader.pass_unmatched(alloc, view, finder)?;
    let before = reader.next() - top;
    let mut state = Rewriting {
        before,
        lines: Vec::new(alloc),
        kept: 0,
        bytes: 0,
    };
    for i in before..count {
        reader.advance(alloc, view)?;
        let read = reader.current();
        let found = rewrite_line(alloc, read, finder, new, all)?;
        if found.is_too_long() {
            return Err(PlanErr::Ex(ExErr::LineTooLong));
        }
        state.add(alloc, read, found)?;
        if state.is_full() {
            let next = i + 1;
            let long = any_long(alloc, view, top + next, count - next, finder, new, all)?;
            return Err(PlanErr::Ex(refusal(long)));
        }
    }
    Ok(state)
}

// Why lines are refused that a text has no room for, where some of them may be too long.
fn refusal(long: bool) -> ExErr
    ensures { result ≡ if long then ExErr.LineTooLong else ExErr.TextFull }
{
    if long {
        ExErr::LineTooLong
    } else {
        ExErr::TextFull
    }
}

// The plan of lines that were rewritten.
fn rewritten_plan(top: u64, state: Rewriting) -> Plan
    requires few { top + state.before + length state.lines.items < 2 ^ 32 }
    ensures value { (hits : List ℕ → Bool) (f : List ℕ → List ℕ) (lines : List (List ℕ)) →
        IsRewriting hits f lines state.before state.lines.items state.kept
        → effect_of result ≡ Some (rewritten hits f top lines) }
    ensures lies { LiesIn (top + state.before + length state.lines.items) result }
{
    let Rewriting {
        before,
        lines: mut new,
        kept,
        bytes: _,
    } = state;
    new.truncate(kept);
    let top = top + before;
    let old = new.as_slice().len() as u64;
    Plan::Splice {
        top,
        old,
        new,
        cursor: top.saturating_add(old),
    }
}

// Replaces a text in lines, its first match in each line or all matches.
fn substitute_lines<S: LineStore>(
    alloc: Global,
    view: &mut S,
    top: u64,
    count: u64,
    finder: &Finder<'_>,
    new: &[u8],
    all: bool,
) -> Result<Plan, PlanErr>
    requires valid { S.valid view.old }
    requires within { top + count ≤ (S.shows view.old).present.lines }
    requires some { 0 < length finder.now }
    requires needle { IsLine finder.now }
    requires new_line { IsLine new.now }
    ensures leads { (text : List (List ℕ)) (whole : List ℕ) → (S.shows view.old).present.Is text → StandsIn new.now whole
        → Leads text (substituted_lines (has_match finder.now) (replaced all finder.now whole) top (cut_out text top count)) result }
    ensures lies { IfOk result (λ plan. LiesIn (S.shows view.old).present.lines plan) }
    ensures late { IfErr result IsLate }
    ensures kept { OnlyReads S.LineStore view.old view.new }
    ensures cause { StopsAtFault S.LineStore (IsErrOf result PlanErr.Failed) view.old view.new }
{
    let state = rewrite(alloc, view, top, count, finder, new, all)?;
    if is_none(state.lines.as_slice()) {
        return Err(PlanErr::Ex(ExErr::E486));
    }
    Ok(rewritten_plan(top, state))
}

/// Replaces a text in each of these lines, its first match or all matches.
pub(crate) fn substitute<S: LineStore>(
    alloc: Global,
    view: &mut S,
    lines: Span,
    pattern: &[u8],
    written: &[u8],
    all: bool,
) -> Result<Plan, PlanErr>
    requires valid { S.valid view.old }
    requires lies { IsSpanIn (S.shows view.old).present.lines lines }
    requires pattern { IsTrue (is_pattern pattern.now) }
    requires replacement { IsTrue (is_replacement written.now) }
    ensures leads { (text : List (List ℕ)) → (S.shows view.old).present.Is text → Leads text (substituted pattern.now written.now all text lines) result }
    ensures lies { IfOk result (λ plan. LiesIn (S.shows view.old).present.lines plan) }
    ensures late { IfErr result IsLate }
    ensures kept { OnlyReads S.LineStore view.old view.new }
    ensures cause { StopsAtFault S.LineStore (IsErrOf result PlanErr.Failed) view.old view.new }
{
    let literal = literal(alloc, pattern)?;
    let new = replacement(alloc, literal.as_slice(), written)?;
    let finder = Finder::new(literal.as_slice());
    let top = lines.before();
    substitute_lines(alloc, view, top, lines.size(), &finder, new.as_slice(), all)
}
