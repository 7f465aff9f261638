// What commands show at each of the lines of a search.
ghost use Rattle.std.specs.Prelude.{◌≡◌, ◌<◌, ◌+◌, ◌++◌, ℕ, List, All, Ok, IfErr, IfOk, IsErrOf, IsTrue, OnOk, length};
ghost use Rattle.vs_text.specs.Text.{file_of};
ghost use Rattle.vs_edit.specs.Calls.{OnlyReads, StopsAtFault};
ghost use Rattle.vs_exparse.specs.Command.{HasCount};
ghost use Rattle.vs_exparse.specs.Pieces.{is_pattern};
ghost use Rattle.vs_global.specs.Carry.{IsRefused};
ghost use Rattle.vs_global.specs.Global.{marked_by};
ghost use Rattle.vs_undo.specs.declared.keep.Keep.{Keep};
ghost use Rattle.vs_undo.specs.declared.parts.Parts.{Parts};
ghost use Rattle.vs_machine.specs.Answers.{AnswersAs, HasShown, IsIn};
ghost use Rattle.vs_machine.specs.Machine.{State, printing_all};
ghost use Rattle.vs_machine.specs.Nearby.{AreOf};
ghost use Rattle.vs_machine.specs.Shown.{shown_at, shown_by, shown_in, shown_lines};

use crate::answering::{Answered, not_planned};
use crate::nearby::Nearby;
use crate::reply::Reply;
use crate::show::Showing;
use crate::shown::push_lines;
use std::alloc::Global;
use vs_edit::{LineStore, StoreErr};
use vs_excmd::{PlanErr, Span, shown};
use vs_global::{Search, marked_lines};

/// What was shown, and the line of the cursor after it.
#[derive(Drop)]
struct Output {
    bytes: Vec<u8>,
    cursor: u64,
}

// Adds what is shown with the cursor at a line, counted from 0, and gives the lines.
fn push_shown<S: LineStore>(
    alloc: Global,
    store: &mut S,
    near: &mut Nearby,
    showing: Showing,
    line: u64,
    into: &mut Vec<u8>,
) -> Result<Span, PlanErr>
    requires valid { S.valid store.old }
    requires form { HasCount showing.count }
    requires line { line < (S.shows store.old).present.lines }
    ensures span { IfOk result (λ span. shown_by showing (S.shows store.old).present.lines (line + 1) ≡ Ok span) }
    ensures bytes { IfOk result (λ span. (text : List (List ℕ)) → (S.shows store.old).present.Is text → AreOf text near.old
        → into.new.items ≡ into.old.items ++ file_of (shown_lines showing.numbers text span)) }
    ensures some { OnOk result (0 < length into.new.items) }
    ensures near { (text : List (List ℕ)) → (S.shows store.old).present.Is text → AreOf text near.old → AreOf text near.new }
    ensures refused { IfErr result (IsRefused (shown_by showing (S.shows store.old).present.lines (line + 1))) }
    ensures kept { OnlyReads S.LineStore store.old store.new }
    ensures cause { StopsAtFault S.LineStore (IsErrOf result PlanErr.Failed) store.old store.new }
{
    let span = shown(showing.range, showing.count, store.len(), line + 1)?;
    near.reach(alloc, store, span.before(), span.size())?;
    push_lines(alloc, near, span, showing.numbers, into)?;
    Ok(span)
}

// What is shown at each of these lines, counted from 0.
fn shown_at<S: LineStore>(
    alloc: Global,
    store: &mut S,
    showing: Showing,
    taken: &[u64],
    cursor: u64,
) -> Result<Output, PlanErr>
    requires valid { S.valid store.old }
    requires form { HasCount showing.count }
    requires within { All (λ line. line < (S.shows store.old).present.lines) taken.now }
    requires some { 0 < length taken.now }
    ensures shown { IfOk result (HasShown S.LineStore store.old showing (shown_at showing (S.shows store.old).present.lines taken.now) cursor) }
    ensures some { IfOk result (λ output. 0 < length output.bytes.items) }
    ensures refused { IfErr result (IsRefused (shown_at showing (S.shows store.old).present.lines taken.now)) }
    ensures kept { OnlyReads S.LineStore store.old store.new }
    ensures cause { StopsAtFault S.LineStore (IsErrOf result PlanErr.Failed) store.old store.new }
{
    let mut near = Nearby::new(alloc);
    let mut output = Output {
        bytes: Vec::new(alloc),
        cursor,
    };
    for line in taken {
        let span = push_shown(alloc, store, &mut near, showing, *line, &mut output.bytes)?;
        output.cursor = span.last;
    }
    Ok(output)
}

// What is shown at each of the lines of a search.
fn shown_in<S: LineStore>(
    alloc: Global,
    store: &mut S,
    cursor: u64,
    search: &Search<'_>,
    showing: Showing,
) -> Result<Output, PlanErr>
    requires valid { S.valid store.old }
    requires pattern { IsTrue (is_pattern search.now.pattern.now) }
    requires form { HasCount showing.count }
    ensures shown { IfOk result (λ output. (text : List (List ℕ)) → (S.shows store.old).present.Is text
        → HasShown S.LineStore store.old showing
        (shown_in showing text (marked_by search.now.range search.now.invert search.now.pattern.now text cursor)) cursor output) }
    ensures some { IfOk result (λ output. 0 < length output.bytes.items) }
    ensures refused { IfErr result (λ e. (text : List (List ℕ)) → (S.shows store.old).present.Is text
        → IsRefused (shown_in showing text (marked_by search.now.range search.now.invert search.now.pattern.now text cursor)) e) }
    ensures kept { OnlyReads S.LineStore store.old store.new }
    ensures cause { StopsAtFault S.LineStore (IsErrOf result PlanErr.Failed) store.old store.new }
{
    let taken = marked_lines(alloc, store, search, cursor)?;
    shown_at(alloc, store, showing, &taken, cursor)
}

/// Prints lines at each of the lines of a search.
pub(crate) fn print_searched<S: LineStore>(
    alloc: Global,
    store: &mut S,
    cursor: u64,
    search: &Search<'_>,
    showing: Showing,
) -> Result<Answered, StoreErr>
    requires valid { S.valid store.old }
    requires pattern { IsTrue (is_pattern search.now.pattern.now) }
    requires form { HasCount showing.count }
    ensures answers { IfOk result (λ answered. (state : State) (keep : Keep) (tree : Parts) → IsIn S.LineStore store.old tree cursor state
        → AnswersAs S.LineStore state keep (printing_all (shown_lines showing.numbers state.text) state.cursor
        (shown_in showing state.text (marked_by search.now.range search.now.invert search.now.pattern.now state.text state.cursor)))
        answered store.old store.new tree) }
    ensures kept { OnlyReads S.LineStore store.old store.new }
    ensures cause { StopsAtFault S.LineStore (IsErrOf result StoreErr.Failed) store.old store.new }
{
    match shown_in(alloc, store, cursor, search, showing) {
        Ok(output) => Ok(Answered {
            reply: Reply::printed(output.bytes),
            cursor: output.cursor,
            oldest: None,
        }),
        Err(error) => not_planned(error, cursor),
    }
}
