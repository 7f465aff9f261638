// Block 1, where it has one entry alone.
ghost use Rattle.std.specs.Prelude.{◌≡◌, ◌≤◌, ◌<◌, ◌-◌, ◌^◌, ℕ, suc, List, IsErrOf, IfOk, IsTrue, if◌then◌else◌};
ghost use Rattle.vs_pages.specs.Calls.{Continues, StopsAtFault};
ghost use Rattle.vs_tree_shape.specs.Changes.{pointer_entry};
ghost use Rattle.vs_tree_shape.specs.Trees.{HasLines};
ghost use Rattle.vs_tree_blocks.specs.Blocks.{tree_format};
ghost use Rattle.vs_merge.specs.Roots.{LowersRoot, StandsDeep, TakesOver};
ghost use Rattle.vs_merge.specs.Tidies.{TouchesBelow};

use std::alloc::Global;
use vs_pages::{PageErr, Pages};
use vs_tree_blocks::{load_entries, pointer_bytes};
use vs_tree_shape::Entry;

/// The entry that would lead to block 1 of a tree of so many lines.
pub fn root_entry(lines: u64) -> Entry
    ensures { result ≡ pointer_entry 1 lines }
{
    Entry {
        block: 1,
        pages: 1,
        lines,
    }
}

// Gives block 1 the entries of the pointer block below it, where that is the only one, and gives that back.
fn take_over<P: Pages>(alloc: Global, pages: &mut P, lines: u64) -> Result<bool, PageErr>
    requires valid { P.valid pages.old }
    requires there { IsTrue P.tells → (e : ℕ) × StandsDeep (P.shows pages.old).present (suc (suc e)) lines }
    ensures takes { IfOk result (λ took. IsTrue P.tells → (e : ℕ) (list : List (List ℕ))
        (has : HasLines tree_format (P.shows pages.old).present (suc (suc e)) list)
        → TakesOver (P.shows pages.old).present (P.shows pages.new).present e list has took) }
    ensures works { IfOk result (λ took. TouchesBelow P.Pages pages.old pages.new 1 (if took then 1 else 0)) }
    ensures kept { Continues P.Pages pages.old pages.new }
    ensures cause { StopsAtFault P.Pages (IsErrOf result PageErr.Failed) pages.old pages.new }
{
    let entries = load_entries(alloc, pages, root_entry(lines))?;
    if entries.len() != 1 {
        return Ok(false);
    }
    let only = entries[0];
    let below = load_entries(alloc, pages, only)?;
    let bytes = pointer_bytes(alloc, &below)?;
    pages.touch(alloc, 1, 1, &bytes)?;
    pages.free(alloc, only.block, 1)?;
    Ok(true)
}

/// Gives block 1 the entries of the block below it as long as that is the only one and a pointer block. Gives the height of the
/// tree then.
pub fn lower_root<P: Pages>(
    alloc: Global,
    pages: &mut P,
    height: u64,
    lines: u64,
) -> Result<u64, PageErr>
    requires valid { P.valid pages.old }
    requires there { IsTrue P.tells → StandsDeep (P.shows pages.old).present height lines }
    ensures lowers { IfOk result (LowersRoot P.Pages pages.old pages.new height) }
    ensures lower { IfOk result (λ now. now ≤ height) }
    ensures works { IfOk result (λ now. TouchesBelow P.Pages pages.old pages.new 1 (height - now)) }
    ensures kept { Continues P.Pages pages.old pages.new }
    ensures cause { StopsAtFault P.Pages (IsErrOf result PageErr.Failed) pages.old pages.new }
{
    if height < 2 {
        return Ok(height);
    }
    let took = take_over(alloc, pages, lines)?;
    if !took {
        return Ok(height);
    }
    lower_root(alloc, pages, height - 1, lines)
}
