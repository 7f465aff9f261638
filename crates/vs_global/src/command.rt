// The whole of a global command.
ghost use Rattle.std.specs.Prelude.{◌≡◌, ◌<◌, ◌≤◌, ℕ, Bool, false, List, All, IfOk, IsErrOf, IsTrue, length};
ghost use Rattle.vs_edit.specs.Calls.{Continues, OnlyReads, StopsAtFault};
ghost use Rattle.vs_edit.specs.State.{SameText};
ghost use Rattle.vs_exparse.specs.Command.{command_of, wants_block};
ghost use Rattle.vs_exparse.specs.Form.{HasForm};
ghost use Rattle.vs_exparse.specs.Pieces.{is_pattern};
ghost use Rattle.vs_excmd.specs.Answer.{Allows, Answers};
ghost use Rattle.vs_excmd.specs.Meaning.{changes_text};
ghost use Rattle.vs_marks.specs.Marks.{Ascends};
ghost use Rattle.vs_global.specs.Carry.{HasMarks};
ghost use Rattle.vs_global.specs.Global.{changed_at, global, places};

use crate::carry::carry_all;
use crate::run::Run;
use crate::search::{Search, marked_lines};
use crate::whole::whole_plan;
use std::alloc::Global;
use vs_edit::LineStore;
use vs_excmd::{Plan, PlanErr};
use vs_exparse::Command;
use vs_gap::{GapStore, Held, LineGiver, Overlay};
use vs_marks::Marks;

// Carries a command of the text out at each of these lines, and plans all that came of it as one splice. The store is left as it is
// then, and the committed text as it was.
fn change_all<S: LineGiver>(
    alloc: Global,
    nested: &Command,
    view: &mut S,
    taken: Vec<u64>,
    cursor: u64,
) -> Result<Plan, PlanErr>
    requires valid { S.valid view.old }
    requires changes { IsTrue (changes_text (command_of nested.now)) }
    requires form { HasForm (command_of nested.now) }
    requires no_block { wants_block (command_of nested.now) ≡ false }
    requires ascends { Ascends taken.items }
    requires within { All (λ line. line < (S.shows view.old).present.lines) taken.items }
    requires few { length taken.items ≤ (S.shows view.old).present.lines }
    requires marked { (text : List (List ℕ)) → (S.shows view.old).present.Is text → HasMarks text taken.items }
    ensures answers { (text : List (List ℕ)) (marks : List Bool) → (S.shows view.old).present.Is text
        → taken.items ≡ places 0 marks → length marks ≡ length text
        → Answers (changed_at (command_of nested.now) text cursor marks) result }
    ensures allowed { IfOk result (λ plan. Allows (S.shows view.old).present plan) }
    ensures kept { Continues S.LineStore view.old view.new }
    ensures cause { StopsAtFault S.LineStore (IsErrOf result PlanErr.Failed) view.old view.new }
{
    let lines = view.len();
    let count = taken.len() as u64;
    let mut marks = Marks::of(alloc, taken, lines);
    let mut run = Run { made: None, cursor };
    carry_all(alloc, nested, view, &mut marks, &mut run, count)?;
    let plan = whole_plan(alloc, view, lines, run)?;
    Ok(plan)
}

// The same of a store that is only read: what is changed stands beside it.
fn change<S: LineStore>(
    alloc: Global,
    nested: &Command,
    view: &mut S,
    taken: Vec<u64>,
    cursor: u64,
) -> Result<Plan, PlanErr>
    requires valid { S.valid view.old }
    requires changes { IsTrue (changes_text (command_of nested.now)) }
    requires form { HasForm (command_of nested.now) }
    requires no_block { wants_block (command_of nested.now) ≡ false }
    requires ascends { Ascends taken.items }
    requires within { All (λ line. line < (S.shows view.old).present.lines) taken.items }
    requires few { length taken.items ≤ (S.shows view.old).present.lines }
    requires marked { (text : List (List ℕ)) → (S.shows view.old).present.Is text → HasMarks text taken.items }
    ensures answers { (text : List (List ℕ)) (marks : List Bool) → (S.shows view.old).present.Is text
        → taken.items ≡ places 0 marks → length marks ≡ length text
        → Answers (changed_at (command_of nested.now) text cursor marks) result }
    ensures allowed { IfOk result (λ plan. Allows (S.shows view.old).present plan) }
    ensures kept { Continues S.LineStore view.old view.new }
    ensures cause { StopsAtFault S.LineStore (IsErrOf result PlanErr.Failed) view.old view.new }
{
    let present = Held::over(alloc, view);
    let mut overlay = Overlay {
        present,
        committed: None,
    };
    let mut held = GapStore {
        below: view,
        overlay: &mut overlay,
    };
    change_all(alloc, nested, &mut held, taken, cursor)
}

/// What a command of the text that takes no block does at each of the lines of a search, to the text of a store, which stays as it is,
/// with the cursor on this line, counted from 1; it is 0 in the empty text.
///
/// The lines that match, or that do not, are found before anything is done. Then the command is carried out at the first of them,
/// wherever it stands by then, and so on. Errors come in this order: `E493` and `E16` for the range, `E486` where no line is taken, then
/// any other error of the command at one of the lines. An `E486` of `:s` at a line is none (`:help :global`).
pub fn global<S: LineStore>(
    alloc: Global,
    search: &Search<'_>,
    nested: &Command,
    view: &mut S,
    cursor: u64,
) -> Result<Plan, PlanErr>
    requires valid { S.valid view.old }
    requires committed { SameText (S.shows view.old).present (S.shows view.old).committed }
    requires pattern { IsTrue (is_pattern search.now.pattern.now) }
    requires changes { IsTrue (changes_text (command_of nested.now)) }
    requires form { HasForm (command_of nested.now) }
    requires no_block { wants_block (command_of nested.now) ≡ false }
    ensures answers { (text : List (List ℕ)) → (S.shows view.old).present.Is text
        → Answers (global search.now.range search.now.invert search.now.pattern.now (command_of nested.now) text cursor) result }
    ensures allowed { IfOk result (λ plan. Allows (S.shows view.new).present plan) }
    ensures kept { OnlyReads S.LineStore view.old view.new }
    ensures cause { StopsAtFault S.LineStore (IsErrOf result PlanErr.Failed) view.old view.new }
{
    let taken = marked_lines(alloc, view, search, cursor)?;
    let plan = change(alloc, nested, view, taken, cursor);
    view.rollback();
    plan
}
