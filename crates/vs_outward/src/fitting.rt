// The first change of a tree that does not fit a text.
ghost use Rattle.std.specs.Prelude.{◌≡◌, ◌++◌, ◌+◌, ◌<◌, ◌≤◌, ◌⊎◌, ℕ, List, [], Option, Some, None, IfNone, IfOk, IfSome, IsErrOf, OnOk, get_or, length, map, max, reverse, take};
ghost use Rattle.std.specs.List.Sorted.{IsStrictlyIncreasing};
ghost use Rattle.vs_edit.specs.Calls.{Continues, StopsAtFault};
ghost use Rattle.vs_edit.specs.State.{SameText};
ghost use Rattle.vs_undo.specs.History.{FitsCount, FitsText};
ghost use Rattle.vs_undo.specs.Numbers.{numbers};
ghost use Rattle.vs_undo.specs.Sound.{IsSound};
ghost use Rattle.vs_undo.specs.Ways.{IsWayOf};
ghost use Rattle.vs_undo.specs.declared.parts.Node.{Node};
ghost use Rattle.vs_outward.specs.Calls.{GoesOn};
ghost use Rattle.vs_outward.specs.Outward.{IsFirstMisfit, IsOutward};
ghost use Rattle.vs_outward.specs.Trails.{AreCounts, HasBegun, IsBarredBy, IsOnTrail, IsPath, IsSearch, IsSettledAt, IsTried, IsTurned, KeepsSearch, KeepsSettled, KeepsTrail};
ghost use Rattle.vs_outward.specs.declared.trail.Step.{Step};

use crate::order::visits;
use crate::trail::{Step, walk};
use crate::turn::{Turn, to_root, turn_to};
use crate::way::Way;
use std::alloc::{AllocError, Global};
use vs_edit::{LineStore, StoreErr};
use vs_undo::Parts;

/// What a search over the states of a tree knows.
#[derive(Drop)]
pub(crate) struct Search {
    /// The changes between the current state and the one that was visited last.
    pub(crate) path: Vec<u64>,
    /// With how many of them the way of the current state begins, too.
    pub(crate) on_way: usize,
    /// Those of them that the store was led over: where it is not all of them, the next one does not fit.
    pub(crate) trail: Vec<Step>,
    /// At the place of each change that was visited how many changes lead to its state.
    pub(crate) depths: Vec<usize>,
    /// The least change that does not fit.
    pub(crate) least: Option<u64>,
}

// A search that has visited the current state of a tree of so many changes.
fn begin(alloc: Global, count: usize) -> Result<Search, AllocError>
    ensures path { IfOk result (λ search. search.path.items ≡ []) }
    ensures on_way { IfOk result (λ search. search.on_way ≡ 0) }
    ensures trail { IfOk result (λ search. search.trail.items ≡ []) }
    ensures least { IfOk result (λ search. search.least ≡ None) }
{
    Ok(Search {
        path: Vec::new(alloc),
        on_way: 0,
        trail: Vec::new(alloc),
        depths: vec![in alloc; 0; count]?,
        least: None,
    })
}

// The lesser of two changes that do not fit.
fn lesser(least: Option<u64>, number: u64) -> u64
    ensures le { result ≤ number }
    ensures least { IfSome least (λ l. result ≤ l) }
    ensures one { (result ≡ number) ⊎ (least ≡ Some result) }
{
    match least {
        Some(other) => other.min(number),
        None => number,
    }
}

// Leads a store over the changes of a path, as long as they fit.
fn walk_in<S: LineStore>(
    alloc: Global,
    store: &mut S,
    parts: &Parts,
    trail: &mut Vec<Step>,
    path: &[u64],
    kept: usize,
) -> Result<Option<u64>, StoreErr>
    requires valid { S.valid store.old }
    requires rising { IsStrictlyIncreasing (numbers parts.now.nodes) }
    requires kept { kept ≤ length trail.old.items }
    requires within { kept ≤ length path.now }
    requires begins { map (λ (step : Step). step.number) (take kept trail.old.items) ≡ take kept path.now }
    requires on { (first : S) × IsOnTrail S.LineStore parts.now.nodes first trail.old.items store.old }
    ensures on { OnOk result (KeepsTrail S.LineStore parts.now.nodes trail.old.items store.old trail.new.items store.new) }
    ensures begun { OnOk result (HasBegun trail.new.items path.now) }
    ensures whole { IfOk result (λ o. IfNone o (length trail.new.items ≡ length path.now)) }
    ensures tried { IfOk result (λ o. (first : S) → IsOnTrail S.LineStore parts.now.nodes first trail.old.items store.old
        → IsTried S.LineStore parts.now.nodes first o (reverse path.now)) }
    ensures barred { IfOk result (λ o. IfSome o (λ number. (first : S) → IsOnTrail S.LineStore parts.now.nodes first trail.old.items store.old
        → (text : List (List ℕ)) → (S.shows first).present.Is text
        → IsBarredBy parts.now.nodes (reverse (take (length trail.new.items + 1) path.now)) text number)) }
    ensures goes_on { GoesOn S.LineStore store.old store.new result }
{
    walk(alloc, store, parts.nodes.nodes(), trail, path, kept)
}

// Cuts a path to so many changes, and lets others follow.
fn follow(path: &mut Vec<u64>, kept: usize, more: Vec<u64>) -> Result<(), AllocError>
    ensures { OnOk result (path.new.items ≡ take kept path.old.items ++ more.items) }
{
    let mut more = more;
    path.truncate(kept);
    path.append(&mut more)?;
    Ok(())
}

// Leads a store over the path that a search has come to, of which so many changes belong to the path before, and keeps the least change
// that does not fit.
fn try_path<S: LineStore>(
    alloc: Global,
    store: &mut S,
    parts: &Parts,
    search: &mut Search,
    kept: usize,
) -> Result<(), StoreErr>
    requires valid { S.valid store.old }
    requires sound { IsSound parts.now }
    requires outward { (to : ℕ) × IsOutward parts.now (reverse search.old.path.items) to }
    requires turned { (first : S) × IsTurned S.LineStore parts.now first kept search.old store.old }
    ensures search { OnOk result ((first : S) → IsTurned S.LineStore parts.now first kept search.old store.old
        → IsSearch S.LineStore parts.now first search.new store.new) }
    ensures tried { OnOk result ((first : S) → IsTurned S.LineStore parts.now first kept search.old store.old
        → IsTried S.LineStore parts.now.nodes first search.new.least (reverse search.new.path.items)) }
    ensures known { OnOk result (KeepsSettled S.LineStore parts.now search.old.least search.new.least) }
    ensures path { search.new.path ≡ search.old.path }
    ensures on_way { search.new.on_way ≡ search.old.on_way }
    ensures goes_on { GoesOn S.LineStore store.old store.new result }
{
    if search.trail.len() < kept {
        return Ok(());
    }
    if let Some(number) = walk_in(alloc, store, parts, &mut search.trail, &search.path, kept)? {
        search.least = Some(lesser(search.least, number));
    }
    Ok(())
}

// Settles the state to which the path goes on so.
fn visit<S: LineStore>(
    alloc: Global,
    store: &mut S,
    parts: &Parts,
    search: &mut Search,
    turn: Turn,
) -> Result<(), StoreErr>
    requires valid { S.valid store.old }
    requires sound { IsSound parts.now }
    requires kept { turn.kept ≤ length search.old.path.items }
    requires outward { (number : ℕ) × IsOutward parts.now (reverse (take turn.kept search.old.path.items ++ turn.more.items)) number }
    requires search { (first : S) × IsSearch S.LineStore parts.now first search.old store.old }
    ensures search { OnOk result (KeepsSearch S.LineStore parts.now search.old store.old search.new store.new) }
    ensures tried { OnOk result ((first : S) → IsSearch S.LineStore parts.now first search.old store.old
        → IsTried S.LineStore parts.now.nodes first search.new.least (reverse search.new.path.items)) }
    ensures path { OnOk result (search.new.path.items ≡ take turn.kept search.old.path.items ++ turn.more.items) }
    ensures on_way { OnOk result (search.new.on_way ≡ turn.on_way) }
    ensures known { OnOk result (KeepsSettled S.LineStore parts.now search.old.least search.new.least) }
    ensures goes_on { GoesOn S.LineStore store.old store.new result }
{
    let Turn { kept, more, on_way } = turn;
    follow(&mut search.path, kept, more)?;
    search.on_way = on_way;
    try_path(alloc, store, parts, search, kept)
}

// Settles the state of the change at this place, where it is not on the way.
fn visit_at<S: LineStore>(
    alloc: Global,
    store: &mut S,
    parts: &Parts,
    way: &Way,
    search: &mut Search,
    place: usize,
) -> Result<(), StoreErr>
    requires valid { S.valid store.old }
    requires sound { IsSound parts.now }
    requires way { IsWayOf parts.now.nodes parts.now.current way.now.changes.items }
    requires counts { AreCounts parts.now.nodes way.now.changes.items way.now.counts.items }
    requires within { place < length parts.now.nodes }
    requires path { IsPath parts.now way.now.changes.items search.old }
    requires search { (first : S) × IsSearch S.LineStore parts.now first search.old store.old }
    ensures search { OnOk result (KeepsSearch S.LineStore parts.now search.old store.old search.new store.new) }
    ensures path { OnOk result (IsPath parts.now way.now.changes.items search.new) }
    ensures settled { OnOk result ((first : S) (node : Node) → IsSearch S.LineStore parts.now first search.old store.old
        → IsSettledAt S.LineStore parts.now first search.old.least 0
        → IsSettledAt S.LineStore parts.now first search.new.least (get_or parts.now.nodes place node).number) }
    ensures known { OnOk result (KeepsSettled S.LineStore parts.now search.old.least search.new.least) }
    ensures goes_on { GoesOn S.LineStore store.old store.new result }
{
    let nodes = parts.nodes.nodes();
    let _ = store.len();
    if way.count_to(nodes, nodes[place].number).is_some() {
        return Ok(());
    }
    let turn = turn_to(alloc, parts, way, search, place)?;
    visit(alloc, store, parts, search, turn)?;
    if let Some(depth) = search.depths.get_mut(place) {
        *depth = search.path.len();
    }
    Ok(())
}

// Leads a store over all changes of a tree that fit.
fn find_misfit<S: LineStore>(
    alloc: Global,
    parts: &Parts,
    store: &mut S,
) -> Result<Option<u64>, StoreErr>
    requires sound { IsSound parts.now }
    requires valid { S.valid store.old }
    ensures counts { IfOk result (λ o. IfNone o (FitsCount parts.now (max 1 (S.shows store.old).present.lines))) }
    ensures texts { IfOk result (λ o. IfNone o ((text : List (List ℕ)) → (S.shows store.old).present.Is text → FitsText parts.now text)) }
    ensures misfit { IfOk result (λ o. IfSome o (λ number. (text : List (List ℕ)) → (S.shows store.old).present.Is text
        → IsFirstMisfit parts.now text number)) }
    ensures goes_on { GoesOn S.LineStore store.old store.new result }
{
    let nodes = parts.nodes.nodes();
    let way = Way::of(alloc, parts)?;
    let mut search = begin(alloc, nodes.len())?;
    let turn = to_root(alloc, &way.changes)?;
    visit(alloc, store, parts, &mut search, turn)?;
    let order = visits(alloc, nodes)?;
    for place in &order {
        visit_at(alloc, store, parts, &way, &mut search, *place)?;
    }
    Ok(search.least)
}

/// The least change of a tree whose entries do not fit, where they are applied outward from a text, which is that of the current
/// state; or none, and then the tree may be moved in over this text.
///
/// Where the store does not tell its text, the numbers of lines alone say whether a tree fits. The text is as before on every answer.
/// [`StoreErr::Failed`] comes only from the store.
pub fn first_misfit<S: LineStore>(
    alloc: Global,
    parts: &Parts,
    text: &mut S,
) -> Result<Option<u64>, StoreErr>
    requires sound { IsSound parts.now }
    requires valid { S.valid text.old }
    requires committed { SameText (S.shows text.old).present (S.shows text.old).committed }
    ensures counts { IfOk result (λ o. IfNone o (FitsCount parts.now (max 1 (S.shows text.old).present.lines))) }
    ensures texts { IfOk result (λ o. IfNone o ((lines : List (List ℕ)) → (S.shows text.old).present.Is lines → FitsText parts.now lines)) }
    ensures misfit { IfOk result (λ o. IfSome o (λ number. (lines : List (List ℕ)) → (S.shows text.old).present.Is lines
        → IsFirstMisfit parts.now lines number)) }
    ensures present { SameText (S.shows text.old).present (S.shows text.new).present }
    ensures kept { Continues S.LineStore text.old text.new }
    ensures cause { StopsAtFault S.LineStore (IsErrOf result StoreErr.Failed) text.old text.new }
{
    let found = find_misfit(alloc, parts, text);
    text.rollback();
    found
}
