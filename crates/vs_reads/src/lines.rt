// Lines that are copied out of a store, and how many bytes they have.
ghost use Rattle.std.specs.Prelude.{◌≡◌, ◌≤◌, ◌+◌, ◌++◌, ℕ, List, All, IfOk, IsErrOf, OnOk, length};
ghost use Rattle.vs_text.specs.Text.{bytes_of};
ghost use Rattle.vs_text.specs.Limits.{IsShort};
ghost use Rattle.vs_edit.specs.Calls.{OnlyReads, StopsAtFault};
ghost use Rattle.vs_edit.specs.Splices.{cut_out};

use crate::LineReader;
use std::alloc::Global;
use vs_edit::{LineStore, StoreErr};
use vs_text::Line;

/// Puts copies of `count` lines from line `top` on, counted from 0, after those of a list.
///
/// After an `Err` the list may have some of them. [`StoreErr::Failed`] comes only from the store.
pub fn push_lines<S: LineStore>(
    alloc: Global,
    view: &mut S,
    top: u64,
    count: u64,
    into: &mut Vec<Line>,
) -> Result<(), StoreErr>
    requires valid { S.valid view.old }
    requires within { top + count ≤ (S.shows view.old).present.lines }
    ensures lines { OnOk result ((text : List (List ℕ)) → (S.shows view.old).present.Is text →
        into.new.items ≡ into.old.items ++ cut_out text top count) }
    ensures count { OnOk result (length into.new.items ≡ length into.old.items + count) }
    ensures short { OnOk result (All IsShort into.old.items → All IsShort into.new.items) }
    ensures kept { OnlyReads S.LineStore view.old view.new }
    ensures cause { StopsAtFault S.LineStore (IsErrOf result StoreErr.Failed) view.old view.new }
{
    let _ = view.len();
    let mut reader = LineReader::new(alloc, top, count);
    into.reserve(count as usize)?;
    for _ in 0..count {
        reader.advance(alloc, view)?;
        let line = Line::raw(alloc, reader.current())?;
        into.push(line)?;
    }
    Ok(())
}

/// The number of bytes of `count` lines from line `top` on, counted from 0, with one for each line end.
///
/// [`StoreErr::Failed`] comes only from the store.
pub fn bytes_in<S: LineStore>(
    alloc: Global,
    view: &mut S,
    top: u64,
    count: u64,
) -> Result<u64, StoreErr>
    requires valid { S.valid view.old }
    requires within { top + count ≤ (S.shows view.old).present.lines }
    ensures bytes { IfOk result (λ bytes. (text : List (List ℕ)) → (S.shows view.old).present.Is text → bytes ≡ bytes_of (cut_out text top count)) }
    ensures kept { OnlyReads S.LineStore view.old view.new }
    ensures cause { StopsAtFault S.LineStore (IsErrOf result StoreErr.Failed) view.old view.new }
{
    let _ = view.len();
    let mut reader = LineReader::new(alloc, top, count);
    let mut bytes = 0u64;
    for _ in 0..count {
        reader.advance(alloc, view)?;
        bytes += reader.current().len() as u64 + 1;
    }
    Ok(bytes)
}
