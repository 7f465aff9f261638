// Lines as `:print` and `:number` show them, copied from the blocks of a store.
ghost use Rattle.std.specs.Prelude.{◌≡◌, ◌<◌, ◌≤◌, ◌+◌, ◌^◌, ◌++◌, ◌∷◌, [], ℕ, List, IfOk, IsErrOf, OnOk, length};
ghost use Rattle.vs_text.specs.Text.{file_of, lines_of};
ghost use Rattle.vs_edit.specs.Calls.{OnlyReads, StopsAtFault};
ghost use Rattle.vs_excmd.specs.Change.{before, lines_in, size_of};
ghost use Rattle.vs_excmd.specs.Place.{IsSpanIn};
ghost use Rattle.vs_machine.specs.Nearby.{AreOf};
ghost use Rattle.vs_machine.specs.Shown.{numbered, shown_lines, with_number};

use crate::nearby::Nearby;
use itoa::Buffer;
use std::alloc::{AllocError, Global};
use vs_edit::{LineStore, StoreErr};
use vs_excmd::Span;
use vs_reads::{LineReader, line_len};

/// The columns of a line number.
const NUMBER_WIDTH: usize = 6;

// The lines of a span, each with its newline.
fn printed<S: LineStore>(alloc: Global, store: &mut S, span: Span) -> Result<Vec<u8>, StoreErr>
    requires valid { S.valid store.old }
    requires some { 0 < span.first }
    requires lies { IsSpanIn (S.shows store.old).present.lines span }
    ensures bytes { IfOk result (λ bytes. (text : List (List ℕ)) → (S.shows store.old).present.Is text → bytes.items ≡ file_of (lines_in text span)) }
    ensures some { IfOk result (λ bytes. 0 < length bytes.items) }
    ensures kept { OnlyReads S.LineStore store.old store.new }
    ensures cause { StopsAtFault S.LineStore (IsErrOf result StoreErr.Failed) store.old store.new }
{
    let count = span.last - (span.first - 1);
    let mut bytes = if count == store.len() {
        Vec::with_capacity(alloc, store.bytes() as usize)?
    } else {
        Vec::new(alloc)
    };
    store.copy_lines(alloc, span.first - 1, count, &mut bytes)?;
    Ok(bytes)
}

// Adds a line with its number before it, right in its columns, and its newline.
fn push_numbered(number: u64, line: &[u8], into: &mut Vec<u8>) -> Result<(), AllocError>
    ensures { OnOk result (into.new.items ≡ into.old.items ++ (with_number number line.now ++ 10 ∷ [])) }
{
    let mut digits = Buffer::new();
    let digits = digits.format(number).as_bytes();
    let blanks = NUMBER_WIDTH.saturating_sub(digits.len());
    into.resize(into.len() + blanks, b' ')?;
    into.extend_from_slice(digits)?;
    into.push(b' ')?;
    into.extend_from_slice(line)?;
    into.push(b'\n')?;
    Ok(())
}

// Adds lines with their numbers before them, from their bytes, each with its newline. The first number is given.
fn push_all_numbered(
    first: u64,
    count: u64,
    lines: &[u8],
    into: &mut Vec<u8>,
) -> Result<(), AllocError>
    requires ended { file_of (lines_of lines.now) ≡ lines.now }
    requires counted { length (lines_of lines.now) ≡ count }
    requires few { first + count ≤ 2 ^ 64 }
    ensures bytes { OnOk result (into.new.items ≡ into.old.items ++ file_of (numbered first (lines_of lines.now))) }
    ensures some { OnOk result (0 < count → 0 < length into.new.items) }
{
    let mut from = 0;
    for i in 0..count {
        let to = from + line_len(&lines[from..]);
        push_numbered(first + i, &lines[from..to], into)?;
        from = to + 1;
    }
    Ok(())
}

/// Adds the lines of a span as they are shown, where they were read.
pub(crate) fn push_lines(
    alloc: Global,
    near: &Nearby,
    span: Span,
    numbers: bool,
    into: &mut Vec<u8>,
) -> Result<(), AllocError>
    requires some { 0 < span.first }
    requires order { span.first ≤ span.last }
    requires top { near.now.top ≡ before span }
    requires held { size_of span ≤ length near.now.lines }
    ensures bytes { OnOk result ((text : List (List ℕ)) → AreOf text near.now
        → into.new.items ≡ into.old.items ++ file_of (shown_lines numbers text span)) }
    ensures some { OnOk result (0 < length into.new.items) }
{
    let count = span.size();
    if !numbers {
        return near.push(count, into);
    }
    let mut lines = Vec::new(alloc);
    near.push(count, &mut lines)?;
    push_all_numbered(span.first, count, &lines, into)
}

// The lines of a span, each with its number before it and its newline.
fn printed_with_numbers<S: LineStore>(
    alloc: Global,
    store: &mut S,
    span: Span,
) -> Result<Vec<u8>, StoreErr>
    requires valid { S.valid store.old }
    requires some { 0 < span.first }
    requires lies { IsSpanIn (S.shows store.old).present.lines span }
    ensures bytes { IfOk result (λ bytes. (text : List (List ℕ)) → (S.shows store.old).present.Is text
        → bytes.items ≡ file_of (numbered span.first (lines_in text span))) }
    ensures some { IfOk result (λ bytes. 0 < length bytes.items) }
    ensures kept { OnlyReads S.LineStore store.old store.new }
    ensures cause { StopsAtFault S.LineStore (IsErrOf result StoreErr.Failed) store.old store.new }
{
    let _ = store.len();
    let top = span.first - 1;
    let count = span.last - top;
    let mut reader = LineReader::new(alloc, top, count);
    let mut line = Vec::new(alloc);
    let mut bytes = Vec::new(alloc);
    for i in 0..count {
        reader.line(alloc, store, &mut line)?;
        push_numbered(span.first + i, &line, &mut bytes)?;
    }
    Ok(bytes)
}

/// The lines of a span as they are shown, with their numbers or without. Each has its newline.
pub(crate) fn shown_lines<S: LineStore>(
    alloc: Global,
    store: &mut S,
    span: Span,
    numbers: bool,
) -> Result<Vec<u8>, StoreErr>
    requires valid { S.valid store.old }
    requires some { 0 < span.first }
    requires lies { IsSpanIn (S.shows store.old).present.lines span }
    ensures bytes { IfOk result (λ bytes. (text : List (List ℕ)) → (S.shows store.old).present.Is text
        → bytes.items ≡ file_of (shown_lines numbers text span)) }
    ensures some { IfOk result (λ bytes. 0 < length bytes.items) }
    ensures kept { OnlyReads S.LineStore store.old store.new }
    ensures cause { StopsAtFault S.LineStore (IsErrOf result StoreErr.Failed) store.old store.new }
{
    if numbers {
        printed_with_numbers(alloc, store, span)
    } else {
        printed(alloc, store, span)
    }
}
