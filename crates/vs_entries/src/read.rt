// The entry that leads back over a splice.
ghost use Rattle.std.specs.Prelude.{◌≡◌, ◌+◌, ◌-◌, ◌^◌, ◌<◌, ◌≤◌, ◌==◌, if◌then◌else◌, ℕ, List, IfOk, IsErrOf, max};
ghost use Rattle.vs_text.specs.declared.TheConstants.{MAX_LINES};
ghost use Rattle.vs_edit.specs.Calls.{OnlyReads, StopsAtFault};
ghost use Rattle.vs_entries.specs.Entries.{splice_back, LeadsCount};

use crate::lines::{lines_at, one_empty};
use crate::{EditErr, Entry};
use std::alloc::Global;
use vs_edit::LineStore;

// The bottom of the range that `new_len` lines have in the place of `old` lines from line `top` on, of `count` lines.
pub(crate) fn bottom_back(top: u64, old: u64, count: u64, new_len: u64) -> u64
    requires fits { top + new_len + 1 < 2 ^ 64 }
    requires within { top + old < 2 ^ 64 }
    ensures { result ≡ (if top + old == count then 0 else top + new_len + 1) }
{
    if top + old == count {
        0
    } else {
        top + new_len + 1
    }
}

/// The entry that leads back from a text in which `new_len` lines stand in the place of `old` lines from line `top` on. It reads
/// the text as it is before that splice, and leaves it.
pub fn entry_of_splice<S: LineStore>(
    alloc: Global,
    store: &mut S,
    top: u64,
    old: u64,
    new_len: u64,
) -> Result<Entry, EditErr>
    requires valid { S.valid store.old }
    requires within { top + old ≤ (S.shows store.old).present.lines }
    requires few_lines { (S.shows store.old).present.lines + new_len ≤ MAX_LINES + old }
    ensures entry { IfOk result (λ entry. (text : List (List ℕ)) → (S.shows store.old).present.Is text → entry ≡ splice_back text top old new_len) }
    ensures count { IfOk result
        (λ entry. LeadsCount entry (max 1 ((S.shows store.old).present.lines + new_len - old)) (max 1 (S.shows store.old).present.lines)) }
    ensures in_range { ¬ (IsErrOf result EditErr.OutOfRange) }
    ensures kept { OnlyReads S.LineStore store.old store.new }
    ensures cause { StopsAtFault S.LineStore (IsErrOf result EditErr.Failed) store.old store.new }
{
    if store.len() == 0 {
        let lines = one_empty(alloc)?;
        return Ok(Entry {
            top: 0,
            bottom: 0,
            lines,
            empty: true,
        });
    }
    let bottom = bottom_back(top, old, store.len(), new_len);
    let lines = lines_at(alloc, store, top, old)?;
    Ok(Entry {
        top,
        bottom,
        lines,
        empty: false,
    })
}
