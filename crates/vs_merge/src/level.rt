// Two neighbours among the entries of a pointer block.
ghost use Rattle.std.specs.Prelude.{◌≡◌, ◌≤◌, ◌<◌, ◌+◌, ◌^◌, ◌++◌, ◌∷◌, [], ℕ, Some, IsErrOf, IfOk, OnOk, IsTrue, length};
ghost use Rattle.std.specs.List.{AllByRecursion};
ghost use Rattle.vs_pages.specs.Calls.{Continues, OnlyReads, StopsAtFault};
ghost use Rattle.vs_tree_shape.specs.Places.{lines_below};
ghost use Rattle.vs_tree_blocks.specs.Blocks.{entries_at, FitsFields, LeadsToPointers};
ghost use Rattle.vs_merge.specs.Evens.{EvensAt, HasKids, IsBoth, PutsPair, TouchesOnly, block_at};

use crate::pair::{Pair, even_pair};
use std::alloc::Global;
use vs_pages::{PageErr, Pages};
use vs_tree_blocks::load_entries;
use vs_tree_shape::Entry;

// The entries of two pointer blocks, one after the other.
fn load_two<P: Pages>(
    alloc: Global,
    pages: &mut P,
    one: Entry,
    two: Entry,
) -> Result<Vec<Entry>, PageErr>
    requires valid { P.valid pages.old }
    requires first { IsTrue P.tells → LeadsToPointers (P.shows pages.old).present one }
    requires second { IsTrue P.tells → LeadsToPointers (P.shows pages.old).present two }
    ensures all { IfOk result (λ all. IsTrue P.tells → IsBoth (P.shows pages.old).present one.block two.block all.items) }
    ensures lines { IfOk result (λ all. lines_below all.items ≡ one.lines + two.lines) }
    ensures fields { IfOk result (λ all. AllByRecursion FitsFields all.items) }
    ensures few { IfOk result (λ all. length all.items ≤ 254) }
    ensures kept { OnlyReads P.Pages pages.old pages.new }
    ensures cause { StopsAtFault P.Pages (IsErrOf result PageErr.Failed) pages.old pages.new }
{
    let mut all = load_entries(alloc, pages, one)?;
    let more = load_entries(alloc, pages, two)?;
    all.extend_from_slice(&more)?;
    Ok(all)
}

/// Joins two neighbouring pointer blocks below the one at page `top`, which has these entries, or shares their entries: those of
/// the entries at `left` and after it. Gives the entries that the block has then.
pub fn even_at<P: Pages>(
    alloc: Global,
    pages: &mut P,
    top: u64,
    entries: &[Entry],
    left: usize,
) -> Result<Vec<Entry>, PageErr>
    requires valid { P.valid pages.old }
    requires there { IsTrue P.tells → (e : ℕ) × HasKids (P.shows pages.old).present top e entries.now }
    requires index { left + 2 ≤ length entries.now }
    requires most { length entries.now ≤ 127 }
    requires fields { AllByRecursion FitsFields entries.now }
    requires small { lines_below entries.now < 2 ^ 62 }
    ensures evens { IfOk result (λ now. EvensAt P.Pages pages.old pages.new top entries.now left now.items) }
    ensures reads { IfOk result (λ now. IsTrue P.tells → entries_at (P.shows pages.new).present top ≡ Some now.items) }
    ensures works { OnOk result (TouchesOnly P.Pages pages.old pages.new (top ∷ block_at entries.now left ∷ block_at entries.now (left + 1) ∷ [])) }
    ensures puts { IfOk result (λ now. PutsPair entries.now left now.items) }
    ensures kept { Continues P.Pages pages.old pages.new }
    ensures cause { StopsAtFault P.Pages (IsErrOf result PageErr.Failed) pages.old pages.new }
{
    let one = entries[left];
    let two = entries[left + 1];
    let all = load_two(alloc, pages, one, two)?;
    if one.block == two.block {
        pages.damaged();
        return Err(PageErr::Failed);
    }
    let pair = Pair {
        left,
        one: one.block,
        two: two.block,
    };
    even_pair(alloc, pages, top, entries, pair, &all)
}
