// Changes that are taken back, and that are committed.
ghost use Rattle.std.specs.Prelude.{◌≡◌, ◌+◌, ◌≤◌, All, length};
ghost use Rattle.vs_pages.specs.Cells.{IsEndOf};
ghost use Rattle.vs_pages.specs.Maps.{numbers};
ghost use Rattle.vs_pages.specs.Table.{cells_of, last_in, noted};
ghost use Rattle.vs_pages.specs.History.{HasRun, end_of, numbers_in, numbers_of, put_places};

use crate::change::{Change, Run};
use crate::exchange::exchange;
use crate::table::Table;
use crate::vacant::Vacant;

// Takes a run back, and gives the number after the last page, which was `used`. A number that the run used is vacant again, and one
// that it left is not.
pub fn undo_run(table: &mut Table, vacant: &mut Vacant, used: u64, run: Run) -> u64
    requires run { HasRun (cells_of table.old.places.items) (length table.old.places.items) run }
    requires used { IsEndOf (cells_of table.old.places.items) used }
    ensures used { IsEndOf (cells_of table.new.places.items) result }
    ensures cells { cells_of table.new.places.items ≡ put_places (cells_of table.old.places.items) run.at run.was.items }
    ensures places { length table.new.places.items ≡ run.places }
{
    let Run {
        at,
        mut was,
        places,
    } = run;
    let pages = was.len();
    let left = matches!(was.first(), Some(Some(_)));
    exchange(table, at, &mut was);
    table.truncate(places);
    if left {
        vacant.take(at, pages);
    } else if at < places {
        vacant.put(at, pages);
    }
    table.end_below(used.max(at + pages as u64))
}

// The first number that a change worked, and how many these are.
fn numbers_of(change: &Change) -> (u64, u64)
    ensures numbers { numbers_of change.now ≡ numbers result.0 result.1 }
    ensures end { end_of change.now ≡ result.0 + result.1 }
{
    match change {
        Change::Run(run) => (run.at, run.was.len() as u64),
        Change::Patch(patch) => (patch.at, 1),
    }
}

// Notes for the numbers of a change the commit that has it.
fn note(last: &mut Vec<u64>, change: &Change, commit: u64)
    requires { end_of change.now ≤ length last.old.items }
    ensures len { length last.new.items ≡ length last.old.items }
    ensures noted { last_in last.new.items ≡ noted (numbers_of change.now) commit (last_in last.old.items) }
{
    let (at, pages) = numbers_of(change);
    for i in 0..pages {
        last[(at + i) as usize] = commit;
    }
}

// Notes for the numbers of all changes the commit that has them.
pub fn note_all(last: &mut Vec<u64>, log: &[Change], commit: u64)
    requires { All (λ change. end_of change ≤ length last.old.items) log.now }
    ensures len { length last.new.items ≡ length last.old.items }
    ensures noted { last_in last.new.items ≡ noted (numbers_in log.now) commit (last_in last.old.items) }
{
    for i in 0..log.len() {
        note(last, &log[i], commit);
    }
}
