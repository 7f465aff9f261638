// Pointer blocks made anew over data blocks.
ghost use Rattle.std.specs.Prelude.{◌≡◌, ◌≤◌, ◌<◌, ◌+◌, ◌^◌, IsErrOf, IfOk, IsTrue, ℕ, length};
ghost use Rattle.std.specs.List.{AllByRecursion};
ghost use Rattle.vs_pages.specs.Calls.{Continues, StopsAtFault};
ghost use Rattle.vs_tree_shape.specs.Places.{lines_below};
ghost use Rattle.vs_tree_blocks.specs.Blocks.{FitsFields};
ghost use Rattle.vs_merge.specs.Forests.{Closes, ClosesAll, HasForest};

use std::alloc::Global;
use vs_pages::{PageErr, Pages};
use vs_tree_blocks::{MOST_ENTRIES, add_block, entry_above, pointer_bytes};
use vs_tree_shape::Entry;

// How many entries a new pointer block gets while more are left than one has room for: three quarters of its room.
const PART: usize = 95;

// How many of so many entries the next pointer block gets.
fn part_of(left: usize) -> usize
    requires { 33 ≤ left }
    ensures many { 33 ≤ result }
    ensures few { result ≤ 127 }
    ensures within { result ≤ left }
    ensures all { left ≤ 127 → result ≡ left }
    ensures part { 127 < left → result ≡ 95 }
{
    if left <= MOST_ENTRIES {
        return left;
    }
    PART
}

// Makes pointer blocks over the trees to which the entries lead, and gives the entries that lead to the blocks.
fn close_level<P: Pages>(
    alloc: Global,
    pages: &mut P,
    entries: &[Entry],
) -> Result<Vec<Entry>, PageErr>
    requires valid { P.valid pages.old }
    requires there { IsTrue P.tells → (d : ℕ) × HasForest (P.shows pages.old).present d entries.now }
    requires fields { AllByRecursion FitsFields entries.now }
    requires small { lines_below entries.now < 2 ^ 62 }
    requires many { 127 < length entries.now }
    ensures closes { IfOk result (λ above. Closes P.Pages pages.old pages.new entries.now above.items) }
    ensures fields { IfOk result (λ above. AllByRecursion FitsFields above.items) }
    ensures lines { IfOk result (λ above. lines_below above.items ≡ lines_below entries.now) }
    ensures fewer { IfOk result (λ above. length above.items < length entries.now) }
    ensures two { IfOk result (λ above. 2 ≤ length above.items) }
    ensures kept { Continues P.Pages pages.old pages.new }
    ensures cause { StopsAtFault P.Pages (IsErrOf result PageErr.Failed) pages.old pages.new }
{
    let mut above = Vec::new(alloc);
    let mut at = 0;
    'parts: while at < entries.len() {
        let end = at + part_of(entries.len() - at);
        let part = &entries[at..end];
        let bytes = pointer_bytes(alloc, part)?;
        let block = add_block(alloc, pages, 1, &bytes)?;
        above.push(entry_above(block, part))?;
        at = end;
    }
    Ok(above)
}

/// The entries of block 1, and the number of levels of pointer blocks between it and the data blocks.
pub struct Tops {
    pub entries: Vec<Entry>,
    pub levels: u64,
}

/// Makes pointer blocks, level by level, over the data blocks to which the entries lead, until a block has room for the entries.
pub fn close_all<P: Pages>(
    alloc: Global,
    pages: &mut P,
    entries: Vec<Entry>,
) -> Result<Tops, PageErr>
    requires valid { P.valid pages.old }
    requires there { IsTrue P.tells → (d : ℕ) × HasForest (P.shows pages.old).present d entries.items }
    requires fields { AllByRecursion FitsFields entries.items }
    requires small { lines_below entries.items < 2 ^ 62 }
    ensures closes { IfOk result (λ tops. ClosesAll P.Pages pages.old pages.new entries.items tops.levels tops.entries.items) }
    ensures fields { IfOk result (λ tops. AllByRecursion FitsFields tops.entries.items) }
    ensures lines { IfOk result (λ tops. lines_below tops.entries.items ≡ lines_below entries.items) }
    ensures few { IfOk result (λ tops. length tops.entries.items ≤ 127) }
    ensures deep { IfOk result (λ tops. tops.levels ≤ length entries.items) }
    ensures two { IfOk result (λ tops. 2 ≤ length entries.items → 2 ≤ length tops.entries.items) }
    ensures flat { IfOk result (λ tops. length entries.items ≤ 127 → tops.levels ≡ 0) }
    ensures kept { Continues P.Pages pages.old pages.new }
    ensures cause { StopsAtFault P.Pages (IsErrOf result PageErr.Failed) pages.old pages.new }
{
    if entries.len() <= MOST_ENTRIES {
        return Ok(Tops { entries, levels: 0 });
    }
    let above = close_level(alloc, pages, &entries)?;
    let Tops { entries, levels } = close_all(alloc, pages, above)?;
    Ok(Tops {
        entries,
        levels: levels + 1,
    })
}
