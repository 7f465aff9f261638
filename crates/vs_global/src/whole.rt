// The one splice that leads from the first text to the last.
ghost use Rattle.std.specs.Prelude.{◌≡◌, ◌≤◌, ℕ, List, IfOk, IsErrOf, length};
ghost use Rattle.vs_edit.specs.Calls.{Continues, StopsAtFault};
ghost use Rattle.vs_excmd.specs.Answer.{effect_of};
ghost use Rattle.vs_text.specs.declared.TheConstants.{MAX_LINES};
ghost use Rattle.vs_global.specs.Carry.{AllowsFrom, Covers, StaysWithin};
ghost use Rattle.vs_global.specs.Global.{whole_by};

use crate::run::Run;
use std::alloc::Global;
use vs_edit::StoreErr;
use vs_excmd::Plan;
use vs_gap::LineGiver;

/// The splice that leads from a text with so many lines to the one that the store has now, by what was left untouched between them. The
/// store may go back to its committed text then.
pub(crate) fn whole_plan<S: LineGiver>(
    alloc: Global,
    view: &mut S,
    lines: u64,
    run: Run,
) -> Result<Plan, StoreErr>
    requires valid { S.valid view.old }
    requires few { lines ≤ MAX_LINES }
    requires within { StaysWithin run.made lines (S.shows view.old).present.lines }
    ensures value { IfOk result (λ plan. (start now : List (List ℕ)) → (S.shows view.old).present.Is now → lines ≡ length start →
        Covers run.made start now
        → effect_of plan ≡ whole_by start now run.cursor run.made) }
    ensures allowed { IfOk result (AllowsFrom S.LineStore view.old lines run.made) }
    ensures kept { Continues S.LineStore view.old view.new }
    ensures cause { StopsAtFault S.LineStore (IsErrOf result StoreErr.Failed) view.old view.new }
{
    let Some(made) = run.made else {
        return Ok(Plan::NoChange);
    };
    let between = view.len() - made.tail - made.lo;
    let new = view.give_lines(alloc, made.lo, between)?;
    Ok(Plan::Splice {
        top: made.lo,
        old: lines - made.tail - made.lo,
        new,
        cursor: run.cursor,
    })
}
