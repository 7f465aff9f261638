// Commands that move and copy lines.
ghost use Rattle.std.specs.Prelude.{◌≡◌, ℕ, List, IfOk, IfErr, IsErrOf, Ok, false};
ghost use Rattle.vs_edit.specs.Calls.{OnlyReads, StopsAtFault};
ghost use Rattle.vs_excmd.specs.Answer.{IsLate, Leads, LiesIn, effect_of};
ghost use Rattle.vs_excmd.specs.Change.{copied, moved};
ghost use Rattle.vs_excmd.specs.Place.{IsPlaceIn, is_into_itself};

use crate::limits::fits_copied;
use crate::{Place, Plan, PlanErr};
use std::alloc::Global;
use vs_edit::{LineStore, StoreErr};
use vs_exparse::ExErr;
use vs_reads::push_lines;

/// Moves lines. The splice goes from them to their destination.
pub(crate) fn move_lines<S: LineStore>(
    alloc: Global,
    view: &mut S,
    place: Place,
) -> Result<Plan, StoreErr>
    requires valid { S.valid view.old }
    requires lies { IsPlaceIn (S.shows view.old).present.lines place }
    requires outside { is_into_itself place ≡ false }
    ensures value { IfOk result (λ plan. (text : List (List ℕ)) → (S.shows view.old).present.Is text → effect_of plan ≡ moved text place) }
    ensures lies { IfOk result (λ plan. LiesIn (S.shows view.old).present.lines plan) }
    ensures kept { OnlyReads S.LineStore view.old view.new }
    ensures cause { StopsAtFault S.LineStore (IsErrOf result StoreErr.Failed) view.old view.new }
{
    let Place { lines, to } = place;
    let top = lines.before();
    if to == lines.last || to == top {
        return Ok(Plan::NoChange);
    }
    let mut new = Vec::new(alloc);
    if to < top {
        push_lines(alloc, view, top, lines.size(), &mut new)?;
        push_lines(alloc, view, to, top - to, &mut new)?;
        return Ok(Plan::Splice {
            top: to,
            old: lines.last - to,
            new,
            cursor: to + lines.size(),
        });
    }
    push_lines(alloc, view, lines.last, to - lines.last, &mut new)?;
    push_lines(alloc, view, top, lines.size(), &mut new)?;
    Ok(Plan::Splice {
        top,
        old: to - top,
        new,
        cursor: to,
    })
}

/// Copies lines, where the text has room for them.
pub(crate) fn copy_lines<S: LineStore>(
    alloc: Global,
    view: &mut S,
    place: Place,
) -> Result<Plan, PlanErr>
    requires valid { S.valid view.old }
    requires lies { IsPlaceIn (S.shows view.old).present.lines place }
    ensures leads { (text : List (List ℕ)) → (S.shows view.old).present.Is text → Leads text (Ok (copied text place)) result }
    ensures lies { IfOk result (λ plan. LiesIn (S.shows view.old).present.lines plan) }
    ensures late { IfErr result IsLate }
    ensures kept { OnlyReads S.LineStore view.old view.new }
    ensures cause { StopsAtFault S.LineStore (IsErrOf result PlanErr.Failed) view.old view.new }
{
    let Place { lines, to } = place;
    let count = lines.size();
    if !fits_copied(alloc, view, lines.before(), count)? {
        return Err(PlanErr::Ex(ExErr::TextFull));
    }
    let mut new = Vec::new(alloc);
    push_lines(alloc, view, lines.before(), count, &mut new)?;
    Ok(Plan::Splice {
        top: to,
        old: 0,
        new,
        cursor: to + count,
    })
}
