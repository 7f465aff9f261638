// A tree whose pointer blocks are all made anew.
ghost use Rattle.std.specs.Prelude.{◌≡◌, ◌≤◌, ◌<◌, ◌^◌, IsErrOf, IfOk, IsTrue};
ghost use Rattle.vs_pages.specs.Calls.{Continues, StopsAtFault};
ghost use Rattle.vs_merge.specs.Roots.{SettlesTree, StandsDeep};

use crate::close::{Tops, close_all};
use crate::open::open_all;
use crate::root::root_entry;
use std::alloc::Global;
use vs_pages::{PageErr, Pages};
use vs_tree_blocks::{load_entries, pointer_bytes};

/// Makes all pointer blocks of the tree of this height and so many lines anew, so that it is filled, and gives back the data blocks
/// without lines. Gives its height then. It holds the entries of all data blocks in memory.
pub fn settle_tree<P: Pages>(
    alloc: Global,
    pages: &mut P,
    height: u64,
    lines: u64,
) -> Result<u64, PageErr>
    requires valid { P.valid pages.old }
    requires small { lines < 2 ^ 62 }
    requires there { IsTrue P.tells → StandsDeep (P.shows pages.old).present height lines }
    ensures settles { IfOk result (λ now. SettlesTree P.Pages pages.old pages.new height now) }
    ensures kept { Continues P.Pages pages.old pages.new }
    ensures cause { StopsAtFault P.Pages (IsErrOf result PageErr.Failed) pages.old pages.new }
{
    let entries = load_entries(alloc, pages, root_entry(lines))?;
    let leaves = open_all(alloc, pages, height.saturating_sub(1), &entries)?;
    let Tops {
        entries: tops,
        levels,
    } = close_all(alloc, pages, leaves)?;
    let bytes = pointer_bytes(alloc, &tops)?;
    pages.touch(alloc, 1, 1, &bytes)?;
    Ok(levels + 1)
}
