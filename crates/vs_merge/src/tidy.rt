// A tree that is filled but for the blocks on the way to a line, made filled.
ghost use Rattle.std.specs.Prelude.{◌≡◌, ◌≤◌, ◌<◌, ◌^◌, IsErrOf, IfOk, IsTrue};
ghost use Rattle.vs_pages.specs.Calls.{Continues, StopsAtFault};
ghost use Rattle.vs_merge.specs.Roots.{StandsDeep, TidiesTree};

use crate::below::tidy_below;
use crate::root::{lower_root, root_entry};
use std::alloc::Global;
use vs_pages::{PageErr, Pages};

/// Makes the tree of this height and so many lines filled, where it is filled but for the blocks on the way to a line, counted
/// from 0. Gives its height then.
pub fn tidy_tree<P: Pages>(
    alloc: Global,
    pages: &mut P,
    height: u64,
    lines: u64,
    at: u64,
) -> Result<u64, PageErr>
    requires valid { P.valid pages.old }
    requires within { at < lines }
    requires small { lines < 2 ^ 62 }
    requires there { IsTrue P.tells → StandsDeep (P.shows pages.old).present height lines }
    ensures tidies { IfOk result (λ now. TidiesTree P.Pages pages.old pages.new height now at) }
    ensures lower { IfOk result (λ now. now ≤ height) }
    ensures kept { Continues P.Pages pages.old pages.new }
    ensures cause { StopsAtFault P.Pages (IsErrOf result PageErr.Failed) pages.old pages.new }
{
    let high = lower_root(alloc, pages, height, lines)?;
    tidy_below(alloc, pages, high, root_entry(lines), at)?;
    lower_root(alloc, pages, high, lines)
}
