// Two neighbouring pointer blocks below another, evened out.
ghost use Rattle.std.specs.Prelude.{◌≡◌, ◌≤◌, ◌<◌, ◌+◌, ◌^◌, ◌∷◌, [], suc, ℕ, Some, List, IsErrOf, IfOk, OnOk, IsTrue, length};
ghost use Rattle.std.specs.List.{AllByRecursion};
ghost use Rattle.vs_pages.specs.Calls.{Continues, StopsAtFault};
ghost use Rattle.vs_tree_shape.specs.Places.{lines_below};
ghost use Rattle.vs_tree_shape.specs.Trees.{Tree};
ghost use Rattle.vs_tree_blocks.specs.Blocks.{FitsFields, entries_at};
ghost use Rattle.vs_merge.specs.Evens.{EvensPair, HasPair, LeadsToEither, TouchesOnly, with_pair};

use crate::even::even_out;
use std::alloc::{AllocError, Global};
use vs_pages::{PageErr, Pages};
use vs_tree_blocks::pointer_bytes;
use vs_tree_shape::Entry;

/// Two neighbouring pointer blocks: the place of the first one's entry in the block above, counted from 0, and their pages.
#[derive(Clone, Copy, Debug, PartialEq, Eq)]
pub struct Pair {
    pub left: usize,
    pub one: u64,
    pub two: u64,
}

// The entries with others in the place of the two at `left` and after it.
fn replace_pair(
    alloc: Global,
    entries: &[Entry],
    left: usize,
    by: &[Entry],
) -> Result<Vec<Entry>, AllocError>
    requires { left + 2 ≤ length entries.now }
    ensures { IfOk result (λ now. now.items ≡ with_pair entries.now left by.now) }
{
    let mut now = Vec::with_capacity(alloc, entries.len().saturating_add(by.len()))?;
    now.extend_from_slice(&entries[..left])?;
    now.extend_from_slice(by)?;
    now.extend_from_slice(&entries[left + 2..])?;
    Ok(now)
}

/// Evens out two neighbouring pointer blocks below the one at page `top`, which has these entries; the two have `all` these
/// entries together. Gives the entries that the block has then.
pub fn even_pair<P: Pages>(
    alloc: Global,
    pages: &mut P,
    top: u64,
    entries: &[Entry],
    pair: Pair,
    all: &[Entry],
) -> Result<Vec<Entry>, PageErr>
    requires valid { P.valid pages.old }
    requires there { IsTrue P.tells → (e : ℕ) × (kids : List (Tree (suc e))) × HasPair (P.shows pages.old).present top e kids entries.now pair all.now }
    requires index { pair.left + 2 ≤ length entries.now }
    requires most { length entries.now ≤ 127 }
    requires apart { pair.one ≡ pair.two → ⊥ }
    requires block { pair.one < 2 ^ 63 }
    requires other { pair.two < 2 ^ 63 }
    requires fields { AllByRecursion FitsFields entries.now }
    requires small { lines_below all.now < 2 ^ 63 }
    requires all_fields { AllByRecursion FitsFields all.now }
    requires few { length all.now ≤ 254 }
    ensures evens { IfOk result (λ now. EvensPair P.Pages pages.old pages.new top entries.now pair all.now now.items) }
    ensures reads { IfOk result (λ now. IsTrue P.tells → entries_at (P.shows pages.new).present top ≡ Some now.items) }
    ensures works { OnOk result (TouchesOnly P.Pages pages.old pages.new (top ∷ pair.one ∷ pair.two ∷ [])) }
    ensures puts { IfOk result (λ now. (by : List Entry) × (now.items ≡ with_pair entries.now pair.left by)
        × AllByRecursion (LeadsToEither pair.one pair.two) by × (lines_below by ≡ lines_below all.now)) }
    ensures kept { Continues P.Pages pages.old pages.new }
    ensures cause { StopsAtFault P.Pages (IsErrOf result PageErr.Failed) pages.old pages.new }
{
    let above = even_out(alloc, pages, pair.one, pair.two, all)?;
    let now = replace_pair(alloc, entries, pair.left, &above)?;
    let bytes = pointer_bytes(alloc, &now)?;
    pages.touch(alloc, top, 1, &bytes)?;
    Ok(now)
}
