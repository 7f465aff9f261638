// The lines at which a global command is carried out.
ghost use Rattle.std.specs.Prelude.{◌<◌, ◌≤◌, ℕ, List, All, IfErr, IfOk, IsErrOf, IsTrue, length};
ghost use Rattle.vs_edit.specs.Calls.{OnlyReads, StopsAtFault};
ghost use Rattle.vs_exparse.specs.Pieces.{is_pattern};
ghost use Rattle.vs_marks.specs.Marks.{Ascends};
ghost use Rattle.vs_global.specs.Carry.{AreMarked, IsRefused};
ghost use Rattle.vs_global.specs.Global.{marked_by};

use crate::marking::taken_lines;
use std::alloc::Global;
use vs_edit::LineStore;
use vs_excmd::{PlanErr, searched};
use vs_exparse::{ExErr, Range};

/// Which lines a global command takes, as it was written.
#[derive(Clone, Copy)]
pub struct Search<'a> {
    pub range: Range,
    /// Whether the lines that do not match are taken.
    pub invert: bool,
    pub pattern: &'a [u8],
}

/// The lines of a search, by their numbers, counted from 0. The cursor is on this line, counted from 1; it is 0 in the empty text.
///
/// Errors come in this order: `E493` and `E16` for the range, `E486` where no line is taken.
pub fn marked_lines<S: LineStore>(
    alloc: Global,
    view: &mut S,
    search: &Search<'_>,
    cursor: u64,
) -> Result<Vec<u64>, PlanErr>
    requires valid { S.valid view.old }
    requires pattern { IsTrue (is_pattern search.now.pattern.now) }
    ensures marked { IfOk result (λ taken. (text : List (List ℕ)) → (S.shows view.old).present.Is text
        → AreMarked (marked_by search.now.range search.now.invert search.now.pattern.now text cursor) text taken.items) }
    ensures refused { IfErr result (λ e. (text : List (List ℕ)) → (S.shows view.old).present.Is text
        → IsRefused (marked_by search.now.range search.now.invert search.now.pattern.now text cursor) e) }
    ensures ascends { IfOk result (λ taken. Ascends taken.items) }
    ensures within { IfOk result (λ taken. All (λ line. line < (S.shows view.old).present.lines) taken.items) }
    ensures few { IfOk result (λ taken. length taken.items ≤ (S.shows view.old).present.lines) }
    ensures some { IfOk result (λ taken. 0 < length taken.items) }
    ensures kept { OnlyReads S.LineStore view.old view.new }
    ensures cause { StopsAtFault S.LineStore (IsErrOf result PlanErr.Failed) view.old view.new }
{
    let span = searched(search.range, view.len(), cursor)?;
    let taken = taken_lines(alloc, view, span, search.pattern, search.invert)?;
    if taken.is_empty() {
        return Err(PlanErr::Ex(ExErr::E486));
    }
    Ok(taken)
}
