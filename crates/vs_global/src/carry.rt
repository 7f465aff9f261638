// A nested command at one line after the other.
ghost use Rattle.std.specs.Prelude.{◌≡◌, ◌≤◌, ◌<◌, ◌+◌, ◌^◌, ℕ, List, [], false, true, IfErr, IfOk, IsErrOf, IsTrue, OnOk};
ghost use Rattle.vs_edit.specs.Calls.{Continues, OnlyReads, StopsAtFault};
ghost use Rattle.vs_exparse.specs.declared.command.ExErr.{ExErr};
ghost use Rattle.vs_exparse.specs.declared.command.ExErr.TheVariants.{E486};
ghost use Rattle.vs_exparse.specs.Command.{command_of, wants_block};
ghost use Rattle.vs_exparse.specs.Form.{HasForm};
ghost use Rattle.vs_excmd.specs.Answer.{Allows};
ghost use Rattle.vs_excmd.specs.Meaning.{changes_text};
ghost use Rattle.vs_marks.specs.Marks.{lines_of};
ghost use Rattle.vs_global.specs.Global.{Marked, all_marked, found, is_move};
ghost use Rattle.vs_global.specs.Carry.{Carries, Ends, Finds, HasLead, IsAt, IsOther, IsReady, IsRefused, KeepsEnds, NearLead, Refuses};

use crate::moving::{move_lines, move_marks, stretch_of};
use crate::run::{Run, touched};
use std::alloc::Global;
use vs_edit::LineStore;
use vs_excmd::{Block, Plan, PlanErr, place_of, plan};
use vs_exparse::{Command, ExErr};
use vs_gap::LineGiver;
use vs_marks::Marks;

// What a nested command does.
fn find<S: LineStore>(
    alloc: Global,
    nested: &Command,
    view: &mut S,
    cursor: u64,
) -> Result<Plan, PlanErr>
    requires valid { S.valid view.old }
    requires changes { IsTrue (changes_text (command_of nested.now)) }
    requires form { HasForm (command_of nested.now) }
    requires no_block { wants_block (command_of nested.now) ≡ false }
    ensures finds { (text : List (List ℕ)) → (S.shows view.old).present.Is text → Finds (found (command_of nested.now) text cursor) result }
    ensures allowed { IfOk result (λ plan. Allows (S.shows view.new).present plan) }
    ensures kept { OnlyReads S.LineStore view.old view.new }
    ensures cause { StopsAtFault S.LineStore (IsErrOf result PlanErr.Failed) view.old view.new }
{
    plan(alloc, nested, &Block::Absent, view, cursor)
}

// E486 of a nested command is no change.
fn unless_unmatched(error: PlanErr) -> Result<(), PlanErr>
    ensures ok { OnOk result (error ≡ PlanErr.Ex E486) }
    ensures err { IfErr result (λ e. e ≡ error) }
    ensures other { IfErr result (λ e. IsOther e) }
{
    match error {
        PlanErr::Ex(ExErr::E486) => Ok(()),
        _ => Err(error),
    }
}

// Carries a nested command out at a line, counted from 0, where it makes one splice.
fn carry_splice<S: LineGiver>(
    alloc: Global,
    nested: &Command,
    view: &mut S,
    marks: &mut Marks,
    run: &mut Run,
    line: u64,
) -> Result<(), PlanErr>
    requires ready { IsReady S.LineStore view.old marks.old }
    requires lead { HasLead marks.old }
    requires changes { IsTrue (changes_text (command_of nested.now)) }
    requires form { HasForm (command_of nested.now) }
    requires no_block { wants_block (command_of nested.now) ≡ false }
    requires single { is_move (command_of nested.now) ≡ false }
    requires line { line < 2 ^ 32 }
    ensures ready { OnOk result (IsReady S.LineStore view.new marks.new) }
    ensures lead { OnOk result (NearLead marks.old marks.new) }
    ensures within { OnOk result (KeepsEnds run.old.made (S.shows view.old).present.lines run.new.made (S.shows view.new).present.lines) }
    ensures carried { OnOk result (Carries S.LineStore (command_of nested.now) line view.old marks.old run.old view.new marks.new run.new) }
    ensures refused { IfErr result (Refuses S.LineStore (command_of nested.now) line view.old marks.old run.old) }
    ensures kept { Continues S.LineStore view.old view.new }
    ensures cause { StopsAtFault S.LineStore (IsErrOf result PlanErr.Failed) view.old view.new }
{
    run.cursor = line + 1;
    match find(alloc, nested, view, line + 1) {
        Err(error) => unless_unmatched(error),
        Ok(Plan::NoChange) => Ok(()),
        Ok(
            Plan::Splice {
                top,
                old,
                new,
                cursor,
            },
        ) => {
            let lines = view.len();
            let count = new.as_slice().len() as u64;
            view.take_splice(alloc, top, old, new)?;
            marks.splice(top, old, count)?;
            run.made = touched(run.made, lines, top, old);
            run.cursor = cursor;
            Ok(())
        }
    }
}

// Carries `:m` out at a line, counted from 0. A plan of it has all lines up to the destination, so it is not asked for.
fn carry_move<S: LineGiver>(
    alloc: Global,
    nested: &Command,
    view: &mut S,
    marks: &mut Marks,
    run: &mut Run,
    line: u64,
) -> Result<(), PlanErr>
    requires ready { IsReady S.LineStore view.old marks.old }
    requires lead { HasLead marks.old }
    requires form { HasForm (command_of nested.now) }
    requires moves { is_move (command_of nested.now) ≡ true }
    requires line { line < 2 ^ 32 }
    ensures ready { OnOk result (IsReady S.LineStore view.new marks.new) }
    ensures lead { OnOk result (NearLead marks.old marks.new) }
    ensures within { OnOk result (KeepsEnds run.old.made (S.shows view.old).present.lines run.new.made (S.shows view.new).present.lines) }
    ensures carried { OnOk result (Carries S.LineStore (command_of nested.now) line view.old marks.old run.old view.new marks.new run.new) }
    ensures refused { IfErr result (Refuses S.LineStore (command_of nested.now) line view.old marks.old run.old) }
    ensures kept { Continues S.LineStore view.old view.new }
    ensures cause { StopsAtFault S.LineStore (IsErrOf result PlanErr.Failed) view.old view.new }
{
    run.cursor = line + 1;
    let lines = view.len();
    let place = place_of(nested, lines, line + 1)?;
    match stretch_of(place) {
        None => Ok(()),
        Some(moved) => {
            move_lines(alloc, view, place)?;
            move_marks(marks, place)?;
            run.made = touched(run.made, lines, moved.top, moved.old);
            run.cursor = moved.cursor;
            Ok(())
        }
    }
}

// Whether this is `:m`.
fn is_move(nested: &Command) -> bool
    ensures { result ≡ is_move (command_of nested.now) }
{
    matches!(nested, Command::Move { .. })
}

// Carries a nested command out at a line, counted from 0.
fn carry<S: LineGiver>(
    alloc: Global,
    nested: &Command,
    view: &mut S,
    marks: &mut Marks,
    run: &mut Run,
    line: u64,
) -> Result<(), PlanErr>
    requires ready { IsReady S.LineStore view.old marks.old }
    requires lead { HasLead marks.old }
    requires changes { IsTrue (changes_text (command_of nested.now)) }
    requires form { HasForm (command_of nested.now) }
    requires no_block { wants_block (command_of nested.now) ≡ false }
    requires line { line < 2 ^ 32 }
    ensures ready { OnOk result (IsReady S.LineStore view.new marks.new) }
    ensures lead { OnOk result (NearLead marks.old marks.new) }
    ensures within { OnOk result (KeepsEnds run.old.made (S.shows view.old).present.lines run.new.made (S.shows view.new).present.lines) }
    ensures carried { OnOk result (Carries S.LineStore (command_of nested.now) line view.old marks.old run.old view.new marks.new run.new) }
    ensures refused { IfErr result (Refuses S.LineStore (command_of nested.now) line view.old marks.old run.old) }
    ensures kept { Continues S.LineStore view.old view.new }
    ensures cause { StopsAtFault S.LineStore (IsErrOf result PlanErr.Failed) view.old view.new }
{
    if is_move(nested) {
        return carry_move(alloc, nested, view, marks, run, line);
    }
    carry_splice(alloc, nested, view, marks, run, line)
}

/// Carries a nested command out at each marked line, the least first, for so many lines at most.
pub(crate) fn carry_all<S: LineGiver>(
    alloc: Global,
    nested: &Command,
    view: &mut S,
    marks: &mut Marks,
    run: &mut Run,
    count: u64,
) -> Result<(), PlanErr>
    requires ready { IsReady S.LineStore view.old marks.old }
    requires lead { marks.old.lead ≡ 2 ^ 50 }
    requires few { count ≤ 2 ^ 23 }
    requires changes { IsTrue (changes_text (command_of nested.now)) }
    requires form { HasForm (command_of nested.now) }
    requires no_block { wants_block (command_of nested.now) ≡ false }
    ensures ready { OnOk result (IsReady S.LineStore view.new marks.new) }
    ensures within { OnOk result (KeepsEnds run.old.made (S.shows view.old).present.lines run.new.made (S.shows view.new).present.lines) }
    ensures ends { OnOk result ((start : Marked) → IsAt S.LineStore view.old marks.old run.old start
        → Ends S.LineStore (command_of nested.now) count start view.new marks.new run.new) }
    ensures refused { IfErr result (λ e. (start : Marked) → IsAt S.LineStore view.old marks.old run.old start
        → IsRefused (all_marked count (command_of nested.now) start) e) }
    ensures kept { Continues S.LineStore view.old view.new }
    ensures cause { StopsAtFault S.LineStore (IsErrOf result PlanErr.Failed) view.old view.new }
{
    for _ in 0..count {
        match marks.take_first() {
            None => return Ok(()),
            Some(line) => {
                let carried = carry(alloc, nested, view, marks, run, line);
                if let Err(error) = carried {
                    return Err(error);
                }
            }
        }
    }
    Ok(())
}
