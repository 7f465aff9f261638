// The lines that match, or that do not, of which none was changed yet.
ghost use Rattle.std.specs.Prelude.{◌≡◌, ◌≤◌, ◌<◌, ◌+◌, ◌++◌, ◌∷◌, [], ℕ, List, All, IfOk, IsErrOf, IsTrue, OnOk, if◌then◌else◌, length, map, ◌-◌, replicate};
ghost use Rattle.vs_edit.specs.Calls.{OnlyReads, StopsAtFault};
ghost use Rattle.vs_text.specs.Text.{IsLine};
ghost use Rattle.vs_edit.specs.Splices.{cut_out};
ghost use Rattle.vs_reads.specs.Reading.{HasCopied, IsAt, StopsWithin};
ghost use Rattle.vs_exparse.specs.Pieces.{is_pattern, literal_of};
ghost use Rattle.vs_excmd.specs.Place.{IsSpanIn};
ghost use Rattle.vs_marks.specs.Marks.{Ascends};
ghost use Rattle.vs_global.specs.Global.{is_taken, places, taken_marks};
ghost use Rattle.vs_global.specs.Taking.{TakesAll, TakesSome};

use memchr::memmem::Finder;
use std::alloc::{AllocError, Global};
use vs_edit::{LineStore, StoreErr};
use vs_excmd::{Span, literal};
use vs_reads::LineReader;

// Adds the numbers of lines that are taken, or none.
fn push_numbers(taken: &mut Vec<u64>, from: u64, to: u64, takes: bool) -> Result<(), AllocError>
    requires { from ≤ to }
    ensures { OnOk result (taken.new.items ≡ taken.old.items ++ places from (replicate (to - from) takes)) }
{
    if !takes {
        return Ok(());
    }
    for number in from..to {
        taken.push(number)?;
    }
    Ok(())
}

// Looks at the lines up to the next one in which a text stands, and adds the numbers of those that are taken.
fn take_next<S: LineStore>(
    alloc: Global,
    view: &mut S,
    reader: &mut LineReader,
    finder: &Finder<'_>,
    invert: bool,
    taken: &mut Vec<u64>,
) -> Result<(), StoreErr>
    requires valid { S.valid view.old }
    requires at { IsAt reader.old reader.old.at reader.old.end }
    requires below { reader.old.at < reader.old.end }
    requires within { reader.old.end ≤ (S.shows view.old).present.lines }
    requires stops { StopsWithin reader.old }
    requires needle { IsLine finder.now }
    requires some { 0 < length finder.now }
    ensures taken { OnOk result ((text : List (List ℕ)) → (S.shows view.old).present.Is text → HasCopied text reader.old
        → TakesAll invert finder.now text reader.old.at reader.new.at taken.old.items taken.new.items) }
    ensures some { OnOk result (TakesSome reader.old.at reader.new.at taken.old.items taken.new.items) }
    ensures copied { OnOk result ((text : List (List ℕ)) → (S.shows view.old).present.Is text → HasCopied text reader.old → HasCopied text reader.new) }
    ensures at { OnOk result (IsAt reader.new reader.new.at reader.old.end) }
    ensures later { OnOk result (reader.old.at < reader.new.at) }
    ensures stops { OnOk result (StopsWithin reader.new) }
    ensures kept { OnlyReads S.LineStore view.old view.new }
    ensures cause { StopsAtFault S.LineStore (IsErrOf result StoreErr.Failed) view.old view.new }
{
    // called for its contract alone: the number of lines fits 64 bits
    let _ = view.len();
    let from = reader.next();
    reader.pass_unmatched(alloc, view, finder)?;
    let to = reader.next();
    push_numbers(taken, from, to, invert)?;
    if reader.is_done() {
        return Ok(());
    }
    push_numbers(taken, to, to + 1, !invert)?;
    reader.advance(alloc, view)
}

// The lines that are taken among `count` lines from line `top` on, by their numbers.
fn taken_in<S: LineStore>(
    alloc: Global,
    view: &mut S,
    top: u64,
    count: u64,
    finder: &Finder<'_>,
    invert: bool,
) -> Result<Vec<u64>, StoreErr>
    requires valid { S.valid view.old }
    requires within { top + count ≤ (S.shows view.old).present.lines }
    requires needle { IsLine finder.now }
    requires some { 0 < length finder.now }
    ensures taken { IfOk result (λ taken. (text : List (List ℕ)) → (S.shows view.old).present.Is text
        → taken.items ≡ places top (map (is_taken invert finder.now) (cut_out text top count))) }
    ensures ascends { IfOk result (λ taken. Ascends taken.items) }
    ensures within { IfOk result (λ taken. All (λ line. line < top + count) taken.items) }
    ensures few { IfOk result (λ taken. length taken.items ≤ count) }
    ensures kept { OnlyReads S.LineStore view.old view.new }
    ensures cause { StopsAtFault S.LineStore (IsErrOf result StoreErr.Failed) view.old view.new }
{
    // called for its contract alone: the number of lines fits 64 bits
    let _ = view.len();
    let mut reader = LineReader::new(alloc, top, count);
    let mut taken = Vec::new(alloc);
    'lines: while !reader.is_done() {
        take_next(alloc, view, &mut reader, finder, invert, &mut taken)?;
    }
    Ok(taken)
}

/// The lines of a span that match, or those that do not, by their numbers, counted from 0.
///
/// [`StoreErr::Failed`] comes only from the store.
pub(crate) fn taken_lines<S: LineStore>(
    alloc: Global,
    view: &mut S,
    span: Span,
    pattern: &[u8],
    invert: bool,
) -> Result<Vec<u64>, StoreErr>
    requires valid { S.valid view.old }
    requires some { 1 ≤ span.first }
    requires lies { IsSpanIn (S.shows view.old).present.lines span }
    requires pattern { IsTrue (is_pattern pattern.now) }
    ensures taken { IfOk result (λ taken. (text : List (List ℕ)) → (S.shows view.old).present.Is text
        → taken.items ≡ places 0 (taken_marks invert (literal_of pattern.now) text span)) }
    ensures ascends { IfOk result (λ taken. Ascends taken.items) }
    ensures within { IfOk result (λ taken. All (λ line. line < (S.shows view.old).present.lines) taken.items) }
    ensures few { IfOk result (λ taken. length taken.items ≤ (S.shows view.old).present.lines) }
    ensures kept { OnlyReads S.LineStore view.old view.new }
    ensures cause { StopsAtFault S.LineStore (IsErrOf result StoreErr.Failed) view.old view.new }
{
    let literal = literal(alloc, pattern)?;
    let finder = Finder::new(literal.as_slice());
    let top = span.before();
    taken_in(alloc, view, top, span.size(), &finder, invert)
}
