// The data blocks of a tree, without the pointer blocks above them.
ghost use Rattle.std.specs.Prelude.{◌≡◌, ◌≤◌, ◌++◌, ◌∷◌, [], ℕ, suc, IsErrOf, IsSome, IfOk, OnOk, IsTrue};
ghost use Rattle.std.specs.List.{AllByRecursion};
ghost use Rattle.vs_pages.specs.Calls.{Continues, StopsAtFault};
ghost use Rattle.vs_pages.specs.Maps.{pages_at, without};
ghost use Rattle.vs_tree_shape.specs.Places.{lines_below};
ghost use Rattle.vs_tree_blocks.specs.Blocks.{FitsFields};
ghost use Rattle.vs_merge.specs.Forests.{HasForest, Opens, OpensAll};

use std::alloc::Global;
use vs_pages::{PageErr, Pages};
use vs_tree_blocks::load_entries;
use vs_tree_shape::Entry;

// Gives back the pointer blocks to which the entries lead, and gives the entries that they had.
fn open_level<P: Pages>(
    alloc: Global,
    pages: &mut P,
    entries: &[Entry],
) -> Result<Vec<Entry>, PageErr>
    requires valid { P.valid pages.old }
    requires there { IsTrue P.tells → (d : ℕ) × HasForest (P.shows pages.old).present (suc d) entries.now }
    ensures opens { IfOk result (λ below. Opens P.Pages pages.old pages.new entries.now below.items) }
    ensures fields { IfOk result (λ below. AllByRecursion FitsFields below.items) }
    ensures lines { IfOk result (λ below. lines_below below.items ≡ lines_below entries.now) }
    ensures kept { Continues P.Pages pages.old pages.new }
    ensures cause { StopsAtFault P.Pages (IsErrOf result PageErr.Failed) pages.old pages.new }
{
    let mut below = Vec::new(alloc);
    'entries: for entry in entries {
        let more = load_entries(alloc, pages, *entry)?;
        pages.free(alloc, entry.block, 1)?;
        below.extend_from_slice(&more)?;
    }
    Ok(below)
}

// Puts the entry of a data block behind others where the block has lines; else gives the block back.
fn keep_or_free<P: Pages>(
    alloc: Global,
    pages: &mut P,
    entry: Entry,
    left: &mut Vec<Entry>,
) -> Result<(), PageErr>
    requires valid { P.valid pages.old }
    requires there { IsTrue P.tells → IsSome (pages_at (P.shows pages.old).present entry.block entry.pages) }
    ensures empty { OnOk result (entry.lines ≡ 0 → left.new.items ≡ left.old.items) }
    ensures full { OnOk result (1 ≤ entry.lines → left.new.items ≡ left.old.items ++ entry ∷ []) }
    ensures frees { OnOk result (IsTrue P.tells → entry.lines ≡ 0
        → (P.shows pages.new).present ≡ without (P.shows pages.old).present entry.block entry.pages) }
    ensures same { OnOk result (IsTrue P.tells → 1 ≤ entry.lines → (P.shows pages.new).present ≡ (P.shows pages.old).present) }
    ensures kept { Continues P.Pages pages.old pages.new }
    ensures cause { StopsAtFault P.Pages (IsErrOf result PageErr.Failed) pages.old pages.new }
{
    if entry.lines == 0 {
        return pages.free(alloc, entry.block, entry.pages);
    }
    left.push(entry)?;
    Ok(())
}

// Gives back the data blocks without lines among those to which the entries lead, and gives the entries of the others.
fn drop_empty<P: Pages>(
    alloc: Global,
    pages: &mut P,
    entries: &[Entry],
) -> Result<Vec<Entry>, PageErr>
    requires valid { P.valid pages.old }
    requires there { IsTrue P.tells → HasForest (P.shows pages.old).present 0 entries.now }
    requires fields { AllByRecursion FitsFields entries.now }
    ensures opens { IfOk result (λ left. OpensAll P.Pages pages.old pages.new 0 entries.now left.items) }
    ensures some { IfOk result (λ left. AllByRecursion (λ entry. 1 ≤ entry.lines) left.items) }
    ensures fields { IfOk result (λ left. AllByRecursion FitsFields left.items) }
    ensures lines { IfOk result (λ left. lines_below left.items ≡ lines_below entries.now) }
    ensures kept { Continues P.Pages pages.old pages.new }
    ensures cause { StopsAtFault P.Pages (IsErrOf result PageErr.Failed) pages.old pages.new }
{
    let mut left = Vec::new(alloc);
    'entries: for entry in entries {
        keep_or_free(alloc, pages, *entry, &mut left)?;
    }
    Ok(left)
}

/// Gives back all pointer blocks below which the data blocks lie to which the entries lead, so many levels down, and all data
/// blocks without lines. Gives the entries of the other data blocks, in order.
pub fn open_all<P: Pages>(
    alloc: Global,
    pages: &mut P,
    depth: u64,
    entries: &[Entry],
) -> Result<Vec<Entry>, PageErr>
    requires valid { P.valid pages.old }
    requires there { IsTrue P.tells → HasForest (P.shows pages.old).present depth entries.now }
    requires fields { AllByRecursion FitsFields entries.now }
    ensures opens { IfOk result (λ leaves. OpensAll P.Pages pages.old pages.new depth entries.now leaves.items) }
    ensures some { IfOk result (λ leaves. AllByRecursion (λ entry. 1 ≤ entry.lines) leaves.items) }
    ensures fields { IfOk result (λ leaves. AllByRecursion FitsFields leaves.items) }
    ensures lines { IfOk result (λ leaves. lines_below leaves.items ≡ lines_below entries.now) }
    ensures kept { Continues P.Pages pages.old pages.new }
    ensures cause { StopsAtFault P.Pages (IsErrOf result PageErr.Failed) pages.old pages.new }
{
    if depth == 0 {
        return drop_empty(alloc, pages, entries);
    }
    let below = open_level(alloc, pages, entries)?;
    open_all(alloc, pages, depth - 1, &below)
}
