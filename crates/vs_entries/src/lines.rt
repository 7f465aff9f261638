// The lines of an entry, which stand as ended lines in one run of bytes.
ghost use Rattle.std.specs.Prelude.{◌≡◌, ◌+◌, ◌<◌, ◌≤◌, ◌∷◌, [], ℕ, List, All, IfOk, IsErrOf, MatchOption, length};
ghost use Rattle.vs_text.specs.Text.{IsLine, file_of, lines_of};
ghost use Rattle.vs_text.specs.Limits.{IsShort};
ghost use Rattle.vs_edit.specs.Splices.{cut_out};
ghost use Rattle.vs_edit.specs.Calls.{OnlyReads, StopsAtFault};

use std::alloc::{AllocError, Global};
use vs_edit::{LineStore, StoreErr};
use vs_pieces::EndedLines;
use vs_reads::line_len;
use vs_text::{Line, MAX_LINE_BYTES};

// The first of some ended lines, and those after it.
fn first_line(lines: &[u8]) -> (&[u8], &[u8])
    requires some { 0 < length lines.now }
    requires ended { file_of (lines_of lines.now) ≡ lines.now }
    ensures line { IsLine result.0.now }
    ensures lines { lines_of lines.now ≡ result.0.now ∷ lines_of result.1.now }
    ensures ended { file_of (lines_of result.1.now) ≡ result.1.now }
    ensures size { length lines.now ≡ length result.0.now + 1 + length result.1.now }
{
    let len = line_len(lines);
    (&lines[..len], &lines[len + 1..])
}

/// Copies of the lines, of which each is a value of its own, as a splice takes them.
pub fn each_line(alloc: Global, lines: &EndedLines) -> Result<Vec<Line>, AllocError>
    ensures { IfOk result (λ each. each.items ≡ lines.now) }
{
    let mut each = Vec::new(alloc);
    let mut rest = lines.bytes();
    'lines: while !rest.is_empty() {
        let (line, after) = first_line(rest);
        each.push(Line::raw(alloc, line)?)?;
        rest = after;
    }
    Ok(each)
}

// The number of the lines, where each has at most 1,048,576 bytes.
pub(crate) fn count_short(lines: &EndedLines) -> Option<u64>
    ensures count { MatchOption result Unit (λ count. count ≡ length lines.now) }
    ensures short { MatchOption result (¬ (All IsShort lines.now)) (λ _. All IsShort lines.now) }
{
    let mut count = 0;
    let mut rest = lines.bytes();
    'lines: while !rest.is_empty() {
        let (line, after) = first_line(rest);
        if line.len() as u64 > MAX_LINE_BYTES {
            return None;
        }
        count += 1;
        rest = after;
    }
    Some(count)
}

// The lines of a store from line `top` on, which are copied with no value for each of them.
pub(crate) fn lines_at<S: LineStore>(
    alloc: Global,
    store: &mut S,
    top: u64,
    count: u64,
) -> Result<EndedLines, StoreErr>
    requires valid { S.valid store.old }
    requires within { top + count ≤ (S.shows store.old).present.lines }
    ensures lines { IfOk result (λ lines. (text : List (List ℕ)) → (S.shows store.old).present.Is text → lines ≡ cut_out text top count) }
    ensures count { IfOk result (λ lines. length lines ≡ count) }
    ensures short { IfOk result (λ lines. All IsShort lines) }
    ensures kept { OnlyReads S.LineStore store.old store.new }
    ensures cause { StopsAtFault S.LineStore (IsErrOf result StoreErr.Failed) store.old store.new }
{
    let mut bytes = Vec::new(alloc);
    store.copy_lines(alloc, top, count, &mut bytes)?;
    let mut lines = EndedLines::new(alloc);
    lines.append(&bytes)?;
    Ok(lines)
}

// One empty line.
pub(crate) fn one_empty(alloc: Global) -> Result<EndedLines, AllocError>
    ensures { IfOk result (λ lines. lines ≡ [] ∷ []) }
{
    let mut lines = EndedLines::new(alloc);
    lines.push(&[])?;
    Ok(lines)
}
