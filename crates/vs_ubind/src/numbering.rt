// The numbers of the tree that an undo file stands for: those that its changes keep, and the last ones.
ghost use Rattle.std.specs.Prelude.{◌≡◌, IfOk, List, Contains, map, max, unwrap_or};
ghost use Rattle.std.specs.BTreeMap.{get};
ghost use Rattle.std.specs.Ordering.{nat_cmp};
ghost use Rattle.vs_ufile.specs.Tree.{IsChange};
ghost use Rattle.vs_ufile.specs.Values.{change_of, history_of, Change};
ghost use Rattle.vs_ubind.specs.Meaning.{HasSave, IsGreatest, IsKeptSave};
ghost use Rattle.vs_ubind.specs.Taken.{AreSavers};

use std::alloc::{AllocError, Global};
use std::collections::BTreeMap;
use vs_ufile::{FileChange, FileHistory};

// The greatest number of a change with the save number of this one.
fn saver_with(savers: &BTreeMap<u32, u32>, change: &FileChange) -> u32
    ensures { result ≡ max (unwrap_or (get nat_cmp savers.now change.now.save) 0) change.now.number }
{
    match savers.get(&change.save) {
        Some(other) => (*other).max(change.number),
        None => change.number,
    }
}

/// The greatest number of a change with each save number.
pub(crate) fn savers_of(
    alloc: Global,
    changes: &[FileChange],
) -> Result<BTreeMap<u32, u32>, AllocError>
    ensures { IfOk result (λ savers. AreSavers (map change_of changes.now) savers) }
{
    let mut savers = BTreeMap::new(alloc);
    'changes: for change in changes {
        let number = saver_with(&savers, change);
        savers.insert(change.save, number)?;
    }
    Ok(savers)
}

/// The save number that a change keeps.
pub(crate) fn kept_save(savers: &BTreeMap<u32, u32>, change: &FileChange) -> u32
    ensures { (changes : List Change) → AreSavers changes savers.now → Contains changes (change_of change.now)
        → IsKeptSave changes (change_of change.now) result }
{
    match savers.get(&change.save) {
        Some(number) if *number == change.number => change.save,
        _ => 0,
    }
}

/// The last number.
pub(crate) fn last_of(history: &FileHistory) -> u32
    ensures { IsGreatest history.now.last (IsChange (history_of history.now).changes) result }
{
    let mut last = history.last;
    'changes: for change in &history.changes {
        last = last.max(change.number);
    }
    last
}

/// The last save number.
pub(crate) fn last_save_of(history: &FileHistory) -> u32
    ensures { IsGreatest history.now.last_save (HasSave (history_of history.now).changes) result }
{
    let mut last = history.last_save;
    'changes: for change in &history.changes {
        last = last.max(change.save);
    }
    last
}
