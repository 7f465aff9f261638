// New blocks in pages.
ghost use Rattle.std.specs.Prelude.{◌≡◌, ◌≤◌, ◌<◌, ◌*◌, ◌^◌, ◌∷◌, [], IsErrOf, IfOk, OnOk, IsTrue, length};
ghost use Rattle.vs_pages.specs.Calls.{Continues, StopsAtFault};
ghost use Rattle.vs_tree_shape.specs.Works.{WorksBesideZero, WorksOnly};
ghost use Rattle.vs_tree_shape.specs.Changes.{Grown, Added};

use std::alloc::Global;
use vs_pages::{PageErr, Pages};

// Makes room for a block of `count` pages. Page 0 is never part of a block: where a store gives it, it stays unused.
fn grow_block<P: Pages>(alloc: Global, pages: &mut P, count: u32) -> Result<u64, PageErr>
    requires valid { P.valid pages.old }
    requires some { 1 ≤ count }
    ensures grown { IfOk result (λ at. IsTrue P.tells → Grown (P.shows pages.old).present (P.shows pages.new).present at count) }
    ensures bound { IfOk result (λ at. at < 2 ^ 40) }
    ensures only { IfOk result (λ at. IsTrue P.tells → count ≡ 1 → WorksOnly (P.shows pages.old).worked (P.shows pages.new).worked (0 ∷ at ∷ [])) }
    ensures kept { Continues P.Pages pages.old pages.new }
    ensures cause { StopsAtFault P.Pages (IsErrOf result PageErr.Failed) pages.old pages.new }
{
    let at = pages.grow(alloc, count)?;
    if at == 0 {
        pages.free(alloc, 1, count - 1)?;
        return pages.grow(alloc, count);
    }
    Ok(at)
}

/// Writes a new block of `count` pages, and gives the number of its first page, which is never page 0.
pub fn add_block<P: Pages>(
    alloc: Global,
    pages: &mut P,
    count: u32,
    bytes: &[u8],
) -> Result<u64, PageErr>
    requires valid { P.valid pages.old }
    requires some { 1 ≤ count }
    requires size { length bytes.now ≡ 4096 * count }
    ensures added { IfOk result (λ at. IsTrue P.tells → Added (P.shows pages.old).present (P.shows pages.new).present at count bytes.now) }
    ensures bound { IfOk result (λ at. at < 2 ^ 40) }
    ensures works { OnOk result (IsTrue P.tells → count ≡ 1 → WorksBesideZero (P.shows pages.old).worked (P.shows pages.new).worked 1) }
    ensures kept { Continues P.Pages pages.old pages.new }
    ensures cause { StopsAtFault P.Pages (IsErrOf result PageErr.Failed) pages.old pages.new }
{
    let at = grow_block(alloc, pages, count)?;
    pages.touch(alloc, at, count, bytes)?;
    Ok(at)
}
