// Lines that are moved with their marks, by two small splices: they go, and come.
ghost use Rattle.std.specs.Prelude.{◌≡◌, ◌<◌, ◌≤◌, ◌+◌, ◌^◌, ℕ, List, None, Some, false, IfNone, IfSome, IsErrOf, OnOk};
ghost use Rattle.vs_edit.specs.Calls.{Continues, StopsAtFault};
ghost use Rattle.vs_excmd.specs.Change.{Change, moved, spliced};
ghost use Rattle.vs_excmd.specs.Place.{IsPlaceIn, is_into_itself};
ghost use Rattle.vs_marks.specs.Marks.{IsSound, lines_of};
ghost use Rattle.vs_global.specs.Carry.{HasLead, NearLead, lines_moved, moved_between};
ghost use Rattle.vs_global.specs.Global.{come_to};

use std::alloc::{AllocError, Global};
use vs_edit::{LineStore, StoreErr};
use vs_excmd::Place;
use vs_marks::Marks;
use vs_reads::push_lines;

/// Where lines are that change places with others: `old` lines from line `top` on, counted from 0, and the line of the cursor
/// afterwards, counted from 1.
#[derive(Clone, Copy, Drop)]
pub(crate) struct Stretch {
    pub(crate) top: u64,
    pub(crate) old: u64,
    pub(crate) cursor: u64,
}

/// Which lines a move touches, where it changes anything.
pub(crate) fn stretch_of(place: Place) -> Option<Stretch>
    requires order { place.lines.first ≤ place.lines.last }
    requires outside { is_into_itself place ≡ false }
    requires small { place.to + place.lines.last < 2 ^ 64 }
    ensures none { IfNone result ((text : List (List ℕ)) → moved text place ≡ None) }
    ensures some { IfSome result (λ found. (text : List (List ℕ)) →
        moved text place ≡ Some (record { top = found.top; old = found.old; new = moved_between text place; cursor = found.cursor })) }
    ensures within { IfSome result (λ found. (count : ℕ) → IsPlaceIn count place → found.top + found.old ≤ count) }
{
    let Place { lines, to } = place;
    let top = lines.before();
    if to == lines.last || to == top {
        return None;
    }
    if to < top {
        return Some(Stretch {
            top: to,
            old: lines.last - to,
            cursor: to + lines.size(),
        });
    }
    Some(Stretch {
        top,
        old: to - top,
        cursor: to,
    })
}

/// The line before which moved lines come, once they are gone.
fn come_to(place: Place) -> u64
    requires { place.lines.first ≤ place.lines.last }
    ensures { result ≡ come_to place }
{
    if place.to < place.lines.first {
        place.to
    } else {
        place.to.saturating_sub(place.lines.size())
    }
}

/// The marks go along with lines that are moved.
pub(crate) fn move_marks(marks: &mut Marks, place: Place) -> Result<(), AllocError>
    requires sound { IsSound marks.old }
    requires few { marks.old.lines < 2 ^ 23 }
    requires lead { HasLead marks.old }
    requires lies { IsPlaceIn marks.old.lines place }
    requires positive { 1 ≤ place.lines.first }
    requires outside { is_into_itself place ≡ false }
    ensures sound { OnOk result (IsSound marks.new) }
    ensures lines { OnOk result (lines_of marks.new ≡ lines_moved place (lines_of marks.old)) }
    ensures count { OnOk result (marks.new.lines ≡ marks.old.lines) }
    ensures lead { OnOk result (NearLead marks.old marks.new) }
{
    let size = place.lines.size();
    marks.splice(place.lines.before(), size, 0)?;
    marks.splice(come_to(place), 0, size)?;
    Ok(())
}

/// Moves lines of a text. After an `Err` they may be gone; the committed text is as before.
pub(crate) fn move_lines<S: LineStore>(
    alloc: Global,
    view: &mut S,
    place: Place,
) -> Result<(), StoreErr>
    requires valid { S.valid view.old }
    requires lies { IsPlaceIn (S.shows view.old).present.lines place }
    requires positive { 1 ≤ place.lines.first }
    requires outside { is_into_itself place ≡ false }
    ensures text { OnOk result ((text : List (List ℕ)) (change : Change) → (S.shows view.old).present.Is text → moved text place ≡ Some change
        → (S.shows view.new).present.Is (spliced text change)) }
    ensures lines { OnOk result ((S.shows view.new).present.lines ≡ (S.shows view.old).present.lines) }
    ensures kept { Continues S.LineStore view.old view.new }
    ensures cause { StopsAtFault S.LineStore (IsErrOf result StoreErr.Failed) view.old view.new }
{
    let top = place.lines.before();
    let size = place.lines.size();
    let mut lines = Vec::new(alloc);
    push_lines(alloc, view, top, size, &mut lines)?;
    view.splice(alloc, top, size, &[])?;
    view.splice(alloc, come_to(place), 0, &lines)
}
