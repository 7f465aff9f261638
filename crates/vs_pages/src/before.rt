// What a place had before changes.
ghost use Rattle.std.specs.Prelude.{◌≡◌, ◌≤◌, ◌+◌, ℕ, length, nat_eq, if◌then◌else◌};
ghost use Rattle.vs_bytes.specs.Fields.{with_field};
ghost use Rattle.vs_pages.specs.Cells.{Cells};
ghost use Rattle.vs_pages.specs.Table.{IsPlace};
ghost use Rattle.vs_pages.specs.History.{CanUndo, put_places, undone};

use crate::Presence;
use crate::change::{Change, Patch, Run};
use crate::page::copy_place;

// Makes what a place has what it had before a run.
fn undo_run_at(run: &Run, at: u64, there: Presence, into: &mut [u8]) -> Presence
    requires { length into.old ≡ 4096 }
    ensures size { length into.new ≡ 4096 }
    ensures place { (m : Cells) → IsPlace there into.old (m at) → IsPlace result into.new (put_places m run.now.at run.now.was.items at) }
{
    if at < run.at || at - run.at >= run.was.len() as u64 {
        return there;
    }
    copy_place(&run.was[(at - run.at) as usize], into)
}

// Makes the bytes of a page, if they are those of the patched one, what they were before a patch.
fn undo_patch_at(patch: &Patch, at: u64, into: &mut [u8])
    requires size { length into.old ≡ 4096 }
    requires within { patch.now.from + length patch.now.was.items ≤ 4096 }
    ensures size { length into.new ≡ 4096 }
    ensures bytes { into.new ≡ (if nat_eq at patch.now.at then with_field into.old patch.now.from patch.now.was.items else into.old) }
{
    if at == patch.at {
        into[patch.from..patch.from + patch.was.len()].copy_from_slice(&patch.was);
    }
}

// Makes what a place has what it had before a change.
pub fn undo_at(change: &Change, at: u64, there: Presence, into: &mut [u8]) -> Presence
    requires size { length into.old ≡ 4096 }
    requires can { (m : Cells) × ((n : ℕ) × CanUndo m n change.now) }
    ensures size { length into.new ≡ 4096 }
    ensures place { (m : Cells) (n : ℕ) → CanUndo m n change.now → IsPlace there into.old (m at) → IsPlace result into.new (undone change.now m at) }
{
    match change {
        Change::Run(run) => undo_run_at(run, at, there, into),
        Change::Patch(patch) => {
            undo_patch_at(patch, at, into);
            there
        }
    }
}
