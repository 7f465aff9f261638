// Two neighbouring pointer blocks, joined or with their entries shared.
ghost use Rattle.std.specs.Prelude.{◌≡◌, ◌≤◌, ◌<◌, ◌+◌, ◌^◌, ◌∷◌, [], IsErrOf, IfOk, OnOk, IsTrue, length};
ghost use Rattle.std.specs.List.{AllByRecursion};
ghost use Rattle.vs_pages.specs.Calls.{Continues, StopsAtFault};
ghost use Rattle.vs_tree_shape.specs.Places.{lines_below};
ghost use Rattle.vs_tree_blocks.specs.Blocks.{FitsFields};
ghost use Rattle.vs_tree_blocks.specs.Writes.{IsThere};
ghost use Rattle.vs_merge.specs.Evens.{EvensTwo, LeadsToEither, TouchesOnly};

use std::alloc::Global;
use vs_pages::{PageErr, Pages};
use vs_tree_blocks::{MOST_ENTRIES, entry_above, halve, pointer_bytes};
use vs_tree_shape::Entry;

// Writes all entries into the first of two neighbouring blocks, and gives the second back.
fn join_two<P: Pages>(
    alloc: Global,
    pages: &mut P,
    one: u64,
    two: u64,
    all: &[Entry],
) -> Result<Vec<Entry>, PageErr>
    requires valid { P.valid pages.old }
    requires first { IsThere P.Pages pages.old one }
    requires second { IsThere P.Pages pages.old two }
    requires apart { one ≡ two → ⊥ }
    requires block { one < 2 ^ 63 }
    requires small { lines_below all.now < 2 ^ 63 }
    requires fields { AllByRecursion FitsFields all.now }
    requires few { length all.now ≤ 127 }
    ensures evens { IfOk result (λ above. EvensTwo P.Pages pages.old pages.new one two all.now above.items) }
    ensures works { OnOk result (TouchesOnly P.Pages pages.old pages.new (one ∷ two ∷ [])) }
    ensures fields { IfOk result (λ above. AllByRecursion FitsFields above.items) }
    ensures few { IfOk result (λ above. length above.items ≤ 2) }
    ensures either { IfOk result (λ above. AllByRecursion (LeadsToEither one two) above.items) }
    ensures lines { IfOk result (λ above. lines_below above.items ≡ lines_below all.now) }
    ensures kept { Continues P.Pages pages.old pages.new }
    ensures cause { StopsAtFault P.Pages (IsErrOf result PageErr.Failed) pages.old pages.new }
{
    let bytes = pointer_bytes(alloc, all)?;
    pages.touch(alloc, one, 1, &bytes)?;
    pages.free(alloc, two, 1)?;
    let now = entry_above(one, all);
    Ok(vec![in alloc; now]?)
}

// Writes the first half of all entries, rounded up, into the first of two neighbouring blocks, and the others into the second.
fn share_two<P: Pages>(
    alloc: Global,
    pages: &mut P,
    one: u64,
    two: u64,
    all: &[Entry],
) -> Result<Vec<Entry>, PageErr>
    requires valid { P.valid pages.old }
    requires first { IsThere P.Pages pages.old one }
    requires second { IsThere P.Pages pages.old two }
    requires apart { one ≡ two → ⊥ }
    requires block { one < 2 ^ 63 }
    requires other { two < 2 ^ 63 }
    requires small { lines_below all.now < 2 ^ 63 }
    requires fields { AllByRecursion FitsFields all.now }
    requires many { 127 < length all.now }
    requires few { length all.now ≤ 254 }
    ensures evens { IfOk result (λ above. EvensTwo P.Pages pages.old pages.new one two all.now above.items) }
    ensures works { OnOk result (TouchesOnly P.Pages pages.old pages.new (one ∷ two ∷ [])) }
    ensures fields { IfOk result (λ above. AllByRecursion FitsFields above.items) }
    ensures few { IfOk result (λ above. length above.items ≤ 2) }
    ensures either { IfOk result (λ above. AllByRecursion (LeadsToEither one two) above.items) }
    ensures lines { IfOk result (λ above. lines_below above.items ≡ lines_below all.now) }
    ensures kept { Continues P.Pages pages.old pages.new }
    ensures cause { StopsAtFault P.Pages (IsErrOf result PageErr.Failed) pages.old pages.new }
{
    let (first, second) = halve(all);
    let bytes = pointer_bytes(alloc, first)?;
    let more = pointer_bytes(alloc, second)?;
    pages.touch(alloc, one, 1, &bytes)?;
    pages.touch(alloc, two, 1, &more)?;
    let front = entry_above(one, first);
    let back = entry_above(two, second);
    Ok(vec![in alloc; front, back]?)
}

/// Puts the entries of two neighbouring pointer blocks into the first of them, which gives the second back, or, where they are
/// too many for one block, into both in halves. Gives the entries that lead to what stands in their place.
pub fn even_out<P: Pages>(
    alloc: Global,
    pages: &mut P,
    one: u64,
    two: u64,
    all: &[Entry],
) -> Result<Vec<Entry>, PageErr>
    requires valid { P.valid pages.old }
    requires first { IsThere P.Pages pages.old one }
    requires second { IsThere P.Pages pages.old two }
    requires apart { one ≡ two → ⊥ }
    requires block { one < 2 ^ 63 }
    requires other { two < 2 ^ 63 }
    requires small { lines_below all.now < 2 ^ 63 }
    requires fields { AllByRecursion FitsFields all.now }
    requires few { length all.now ≤ 254 }
    ensures evens { IfOk result (λ above. EvensTwo P.Pages pages.old pages.new one two all.now above.items) }
    ensures works { OnOk result (TouchesOnly P.Pages pages.old pages.new (one ∷ two ∷ [])) }
    ensures fields { IfOk result (λ above. AllByRecursion FitsFields above.items) }
    ensures few { IfOk result (λ above. length above.items ≤ 2) }
    ensures either { IfOk result (λ above. AllByRecursion (LeadsToEither one two) above.items) }
    ensures lines { IfOk result (λ above. lines_below above.items ≡ lines_below all.now) }
    ensures kept { Continues P.Pages pages.old pages.new }
    ensures cause { StopsAtFault P.Pages (IsErrOf result PageErr.Failed) pages.old pages.new }
{
    if all.len() <= MOST_ENTRIES {
        return join_two(alloc, pages, one, two, all);
    }
    share_two(alloc, pages, one, two, all)
}
