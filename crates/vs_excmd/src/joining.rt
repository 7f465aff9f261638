// The command that joins lines.
ghost use Rattle.std.specs.Prelude.{◌≡◌, ◌≤◌, ◌<◌, ◌+◌, ℕ, List, IfOk, IfErr, OnOk, IsErrOf, Ok};
ghost use Rattle.vs_edit.specs.Calls.{OnlyReads, StopsAtFault};
ghost use Rattle.vs_excmd.specs.Answer.{IsLate, Leads, LiesIn};
ghost use Rattle.vs_excmd.specs.Join.{addresses_in, addresses_of, joined, joined_span, joined_two, joint};
ghost use Rattle.vs_excmd.specs.Place.{IsSpanIn};

use crate::{Plan, PlanErr, Span};
use std::alloc::{AllocError, Global};
use vs_edit::LineStore;
use vs_exparse::{ExErr, Range, skip_blanks};
use vs_reads::LineReader;
use vs_text::{Line, MAX_LINE_BYTES};

fn addresses_in(range: Range) -> u32
    ensures { result ≡ addresses_in range }
{
    match range {
        Range::Absent => 0,
        Range::One(_) => 1,
        Range::All | Range::Two(..) => 2,
    }
}

/// How many addresses stand before a command, where a count is one more (`:help :join`).
pub(crate) fn addresses_of(range: Range, count: Option<u32>) -> u32
    ensures { result ≡ addresses_of range count }
{
    match count {
        None => addresses_in(range),
        Some(_) => addresses_in(range) + 1,
    }
}

// What stands between a line and the rest of the next one.
fn joint(left: &[u8], rest: &[u8]) -> &'static [u8]
    ensures { result.now ≡ joint left.now rest.now }
{
    if left.is_empty()
        || rest.is_empty()
        || left.ends_with(b" ")
        || left.ends_with(b"\t")
        || rest[0] == b')'
    {
        return b"";
    }
    b" "
}

// Puts a line after another, with its leading blanks where there is a `!`.
fn join_two(left: &mut Vec<u8>, right: &[u8], bang: bool) -> Result<(), AllocError>
    ensures { OnOk result (left.new.items ≡ joined_two bang left.old.items right.now) }
{
    if bang {
        return left.extend_from_slice(right);
    }
    let rest = skip_blanks(right);
    let between = joint(left, rest);
    left.extend_from_slice(between)?;
    left.extend_from_slice(rest)
}

// Joins at least two lines, up to the first one with which they are too long.
fn join_span<S: LineStore>(
    alloc: Global,
    view: &mut S,
    first: u64,
    last: u64,
    bang: bool,
) -> Result<Plan, PlanErr>
    requires valid { S.valid view.old }
    requires positive { 1 ≤ first }
    requires two { first < last }
    requires within { last ≤ (S.shows view.old).present.lines }
    ensures leads { (text : List (List ℕ)) → (S.shows view.old).present.Is text → Leads text (Ok (joined_span bang text first last)) result }
    ensures lies { IfOk result (λ plan. LiesIn (S.shows view.old).present.lines plan) }
    ensures late { IfErr result IsLate }
    ensures kept { OnlyReads S.LineStore view.old view.new }
    ensures cause { StopsAtFault S.LineStore (IsErrOf result PlanErr.Failed) view.old view.new }
{
    // called for its contract alone: the number of lines fits 64 bits
    let _ = view.len();
    let mut reader = LineReader::new(alloc, first - 1, last - (first - 1));
    reader.advance(alloc, view)?;
    let mut left = Vec::with_capacity(alloc, reader.copied_len())?;
    left.extend_from_slice(reader.current())?;
    for _ in 0..last - first {
        reader.advance(alloc, view)?;
        join_two(&mut left, reader.current(), bang)?;
        if left.len() as u64 > MAX_LINE_BYTES {
            return Err(PlanErr::Ex(ExErr::LineTooLong));
        }
    }
    let mut new = Vec::with_capacity(alloc, 1)?;
    new.push(Line::from_vec(left))?;
    Ok(Plan::Splice {
        top: first - 1,
        old: last - (first - 1),
        new,
        cursor: first,
    })
}

/// Joins lines, or a single line with the next one. No line is joined where there is no next one, nor where a single
/// line was given by two addresses.
pub(crate) fn join_lines<S: LineStore>(
    alloc: Global,
    view: &mut S,
    lines: Span,
    bang: bool,
    addresses: u32,
) -> Result<Plan, PlanErr>
    requires valid { S.valid view.old }
    requires lies { IsSpanIn (S.shows view.old).present.lines lines }
    requires positive { 1 ≤ lines.first }
    ensures leads { (text : List (List ℕ)) → (S.shows view.old).present.Is text → Leads text (Ok (joined bang addresses text lines)) result }
    ensures lies { IfOk result (λ plan. LiesIn (S.shows view.old).present.lines plan) }
    ensures late { IfErr result IsLate }
    ensures kept { OnlyReads S.LineStore view.old view.new }
    ensures cause { StopsAtFault S.LineStore (IsErrOf result PlanErr.Failed) view.old view.new }
{
    let Span { first, last } = lines;
    if first < last {
        return join_span(alloc, view, first, last, bang);
    }
    if addresses >= 2 || last == view.len() {
        return Ok(Plan::NoChange);
    }
    join_span(alloc, view, first, last + 1, bang)
}
