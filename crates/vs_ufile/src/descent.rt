// Who descends from whom in a history that is read.

ghost use Rattle.std.specs.Prelude.{◌≡◌, ◌+◌, ◌∷◌, ◌<◌, ℕ, length, map, unwrap_or, All, IfOk};
ghost use Rattle.std.specs.BTreeMap.{get};
ghost use Rattle.std.specs.Ordering.{nat_cmp};
ghost use Rattle.vs_ufile.specs.Changes.{IsIndex};
ghost use Rattle.vs_ufile.specs.Decode.{KeepsRules, KnowsAll};
ghost use Rattle.vs_ufile.specs.Failing.{AreNumbers, links_of};
ghost use Rattle.vs_ufile.specs.Descent.{IsLineage, unplaced};
ghost use Rattle.vs_ufile.specs.Reading.{numbers_of};
ghost use Rattle.vs_ufile.specs.Tree.{IsTree};
ghost use Rattle.vs_ufile.specs.Values.{change_of, history_of};
ghost use Rattle.vs_ufile.specs.Walks.{at};

use crate::chains::heads;
use crate::history::{FileChange, FileHistory};
use crate::link::Link;
use crate::parents::{last_heads, parents};
use std::alloc::{AllocError, Global};
use std::collections::BTreeMap;

/// Who descends from whom, by the places of the changes in the file, counted from 1; place 0 is the root.
#[derive(Debug, Drop)]
pub struct Lineage {
    /// The number of each change's parent; at place 0 it says nothing.
    pub parents: Vec<u32>,
    /// The number of the child last used of each state, or 0.
    pub children: Vec<u32>,
}

// The place of each change, by its number.
fn index_of(alloc: Global, changes: &[FileChange]) -> Result<BTreeMap<u32, usize>, AllocError>
    requires { AreNumbers (numbers_of (unplaced changes.now)) }
    ensures { IfOk result (λ index. IsIndex index (numbers_of (unplaced changes.now))) }
{
    let mut index = BTreeMap::new(alloc);
    'changes: for i in 0..changes.len() {
        index.insert(changes[i].number, i + 1)?;
    }
    Ok(index)
}

// The place of a number, or 0.
fn place_in(index: &BTreeMap<u32, usize>, number: u32) -> usize
    ensures { result ≡ unwrap_or (get nat_cmp index.now number) 0 }
{
    match index.get(&number) {
        Some(place) => *place,
        None => 0,
    }
}

// Where one link of each change leads.
fn links(
    alloc: Global,
    changes: &[FileChange],
    index: &BTreeMap<u32, usize>,
    link: Link,
) -> Result<Vec<usize>, AllocError>
    requires { IsIndex index.now (numbers_of (unplaced changes.now)) }
    ensures { IfOk result (λ links. links.items ≡ links_of link (unplaced changes.now)) }
{
    let mut links = Vec::new(alloc);
    links.push(0)?;
    'changes: for change in changes {
        links.push(place_in(index, link.of(change)))?;
    }
    Ok(links)
}

// The number of the change at a place, and 0 at place 0.
fn number_at(changes: &[FileChange], place: usize) -> u32
    requires { place < length changes.now + 1 }
    ensures { result ≡ at (0 ∷ numbers_of (unplaced changes.now)) place }
{
    if place == 0 {
        return 0;
    }
    changes[place - 1].number
}

// The numbers of the changes at these places.
fn numbers_at(
    alloc: Global,
    changes: &[FileChange],
    places: &[usize],
) -> Result<Vec<u32>, AllocError>
    requires { All (λ x. x < length changes.now + 1) places.now }
    ensures size { IfOk result (λ numbers. length numbers.items ≡ length places.now) }
    ensures each { IfOk result (λ numbers. (i : ℕ) → i < length places.now
        → at numbers.items i ≡ at (0 ∷ numbers_of (unplaced changes.now)) (at places.now i)) }
{
    let mut numbers = Vec::new(alloc);
    'places: for place in places {
        numbers.push(number_at(changes, *place))?;
    }
    Ok(numbers)
}

// The lineage of changes that make a tree.
fn lineage_among(alloc: Global, changes: &[FileChange]) -> Result<Lineage, AllocError>
    requires numbers { AreNumbers (numbers_of (unplaced changes.now)) }
    requires links { KnowsAll (unplaced changes.now) }
    requires tree { IsTree (map (λ p. p.change) (unplaced changes.now)) }
    ensures { IfOk result (λ l. IsLineage (map (λ p. p.change) (unplaced changes.now)) l.parents.items l.children.items) }
{
    let index = index_of(alloc, changes)?;
    let after = links(alloc, changes, &index, Link::AltNext)?;
    let before = links(alloc, changes, &index, Link::AltPrev)?;
    let heads = heads(alloc, &after, &before)?;
    let next = links(alloc, changes, &index, Link::Next)?;
    let parents = parents(alloc, &heads, &next)?;
    let last = last_heads(alloc, &before, &parents)?;
    let own = numbers_at(alloc, changes, &parents)?;
    let children = numbers_at(alloc, changes, &last)?;
    Ok(Lineage {
        parents: own,
        children,
    })
}

/// The parents of the changes and the children last used of the states, of a history that is read (docs/FORMATS.md, "Undo
/// file"). Over n changes it takes n log n steps.
pub fn lineage_of(alloc: Global, history: &FileHistory) -> Result<Lineage, AllocError>
    requires { KeepsRules (history_of history.now) }
    ensures { IfOk result (λ l. IsLineage (history_of history.now).changes l.parents.items l.children.items) }
{
    lineage_among(alloc, history.changes.as_slice())
}
