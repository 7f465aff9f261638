// Pointer blocks on the way to a line, made thick.
ghost use Rattle.std.specs.Prelude.{◌≡◌, ◌≤◌, ◌<◌, ◌+◌, ◌*◌, ◌-◌, ◌^◌, ◌∷◌, [], ℕ, suc, IsErrOf, IfOk, OnOk, IsTrue, length};
ghost use Rattle.vs_pages.specs.Calls.{Continues, StopsAtFault};
ghost use Rattle.vs_tree_shape.specs.Changes.{HasLineBelow};
ghost use Rattle.vs_tree_shape.specs.Keeps.{spare};
ghost use Rattle.vs_tree_blocks.specs.Blocks.{entries_at, tree_format, IsPlaceOf};
ghost use Rattle.vs_merge.specs.Evens.{TouchesOnly};
ghost use Rattle.vs_merge.specs.Tidies.{ThickensBelow, TidiesBelow, TouchesBelow};

use crate::level::even_at;
use std::alloc::Global;
use vs_pages::{PageErr, Pages};
use vs_tree_blocks::load_entries;
use vs_tree_shape::{Entry, Place, find_place};

// The first of two neighbours, one of which stands at this place.
fn pair_at(index: usize, len: usize) -> usize
    requires within { index < len }
    requires some { 2 ≤ len }
    ensures fits { result + 2 ≤ len }
    ensures low { result ≤ index }
    ensures high { index ≤ result + 1 }
{
    if index + 1 < len {
        return index;
    }
    index - 1
}

// Evens out the pointer block below the one that `top` leads to, on the way to a line, with a neighbour, where it has fewer than
// `least` entries and there is a neighbour. Gives the place of the line below `top` then.
fn step_down<P: Pages>(
    alloc: Global,
    pages: &mut P,
    top: Entry,
    at: u64,
    least: usize,
) -> Result<Place, PageErr>
    requires valid { P.valid pages.old }
    requires within { at < top.lines }
    requires small { top.lines < 2 ^ 62 }
    requires there { IsTrue P.tells → (e : ℕ) × HasLineBelow tree_format (P.shows pages.old).present top (suc (suc e)) at }
    ensures thickens { OnOk result (ThickensBelow P.Pages pages.old pages.new top at least) }
    ensures place { IfOk result (λ place. IsTrue P.tells → IsPlaceOf (entries_at (P.shows pages.new).present top.block) at place) }
    ensures within { IfOk result (λ place. place.rest < place.entry.lines) }
    ensures inside { IfOk result (λ place. place.entry.lines ≤ top.lines) }
    ensures works { IfOk result (λ place. (other : ℕ) × TouchesOnly P.Pages pages.old pages.new (top.block ∷ place.entry.block ∷ other ∷ [])) }
    ensures kept { Continues P.Pages pages.old pages.new }
    ensures cause { StopsAtFault P.Pages (IsErrOf result PageErr.Failed) pages.old pages.new }
{
    let entries = load_entries(alloc, pages, top)?;
    let place = find_place(&entries, at);
    if entries.len() < 2 {
        return Ok(place);
    }
    let child = load_entries(alloc, pages, place.entry)?;
    if child.len() >= least {
        return Ok(place);
    }
    let left = pair_at(place.index, entries.len());
    let now = even_at(alloc, pages, top.block, &entries, left)?;
    Ok(find_place(&now, at))
}

// How many entries a block on the way to a line has at least, below one that stands so many levels above the data blocks: one more
// than a filled one where it leads to pointer blocks, of which two may be joined.
fn least_below(depth: u64) -> usize
    requires { 2 ≤ depth }
    ensures { result ≡ 32 + spare (depth - 1) }
{
    if depth == 2 {
        return 32;
    }
    33
}

/// Evens out the pointer blocks below the one that `top` leads to, so many levels above the data blocks, on the way to a line. The
/// block keeps its page, its lines, and all entries but one at most.
pub fn tidy_below<P: Pages>(
    alloc: Global,
    pages: &mut P,
    depth: u64,
    top: Entry,
    at: u64,
) -> Result<(), PageErr>
    requires valid { P.valid pages.old }
    requires within { at < top.lines }
    requires small { top.lines < 2 ^ 62 }
    requires there { IsTrue P.tells → HasLineBelow tree_format (P.shows pages.old).present top depth at }
    ensures tidies { OnOk result (TidiesBelow P.Pages pages.old pages.new top depth at) }
    ensures works { OnOk result (TouchesBelow P.Pages pages.old pages.new top.block (2 * (depth - 1))) }
    ensures kept { Continues P.Pages pages.old pages.new }
    ensures cause { StopsAtFault P.Pages (IsErrOf result PageErr.Failed) pages.old pages.new }
{
    if depth <= 1 {
        return Ok(());
    }
    let place = step_down(alloc, pages, top, at, least_below(depth))?;
    tidy_below(alloc, pages, depth - 1, place.entry, place.rest)
}
