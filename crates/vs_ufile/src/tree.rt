// Whether the changes of a file make a tree. A change is named by its place in the file, counted from 1; 0 is none.

ghost use Rattle.std.specs.Prelude.{◌≡◌, ◌+◌, ◌<◌, ℕ, length, map, false, get_or, IfOk, IsTrue, ◌↔◌};
ghost use Rattle.vs_ufile.specs.Changes.{placed_of};
ghost use Rattle.vs_ufile.specs.Failing.{AreFailing, AreNumbers, IsLeastMarked, IsTreeFault, links_of};
ghost use Rattle.vs_ufile.specs.Decode.{KnowsAll};
ghost use Rattle.vs_ufile.specs.Reading.{numbers_of};

use crate::UfKind;
use crate::chains::{failing_in_chains, heads};
use crate::changes::Changes;
use crate::fault::Fault;
use crate::link::Link;
use crate::parents::{failing_above, parents};
use std::alloc::{AllocError, Global};

// Where one link of each change leads.
fn links(alloc: Global, changes: &Changes, link: Link) -> Result<Vec<usize>, AllocError>
    ensures { IfOk result (λ links. links.items ≡ links_of link (map placed_of changes.now.placed.items)) }
{
    let mut links = Vec::new(alloc);
    links.push(0)?;
    'changes: for placed in &changes.placed {
        links.push(changes.place_of(link.of(&placed.change)))?;
    }
    Ok(links)
}

fn has_mark(marks: &[bool]) -> bool
    ensures { IsTrue result ↔ ((i : ℕ) × (0 < i) × (i < length marks.now) × IsTrue (get_or marks.now i false)) }
{
    'places: for place in 1..marks.len() {
        if marks[place] {
            return true;
        }
    }
    false
}

// Which places have a change that fails.
fn failing(alloc: Global, changes: &Changes) -> Result<Vec<bool>, AllocError>
    requires numbers { AreNumbers (numbers_of (map placed_of changes.now.placed.items)) }
    requires links { KnowsAll (map placed_of changes.now.placed.items) }
    ensures { IfOk result (λ marks. AreFailing (map placed_of changes.now.placed.items) marks.items) }
{
    let after = links(alloc, changes, Link::AltNext)?;
    let before = links(alloc, changes, Link::AltPrev)?;
    let marks = failing_in_chains(alloc, &after, &before)?;
    if has_mark(&marks) {
        return Ok(marks);
    }
    let heads = heads(alloc, &after, &before)?;
    let next = links(alloc, changes, Link::Next)?;
    let parents = parents(alloc, &heads, &next)?;
    failing_above(alloc, &before, &parents)
}

// The change with the least number of those that are marked.
fn least_marked(marks: &[bool], changes: &Changes) -> Option<usize>
    requires { length marks.now ≡ length changes.now.placed.items + 1 }
    ensures { IsLeastMarked marks.now (numbers_of (map placed_of changes.now.placed.items)) (length changes.now.placed.items) result }
{
    let mut least: Option<usize> = None;
    'changes: for i in 0..changes.placed.len() {
        if marks[i + 1] {
            match least {
                None => least = Some(i),
                Some(best) => {
                    if changes.placed[i].change.number < changes.placed[best].change.number {
                        least = Some(i);
                    }
                }
            }
        }
    }
    least
}

// The refusal of changes that make no tree.
pub fn tree_fault(alloc: Global, changes: &Changes) -> Result<Option<Fault>, AllocError>
    requires numbers { AreNumbers (numbers_of (map placed_of changes.now.placed.items)) }
    requires links { KnowsAll (map placed_of changes.now.placed.items) }
    ensures { IfOk result (λ found. IsTreeFault (map placed_of changes.now.placed.items) found) }
{
    let marks = failing(alloc, changes)?;
    match least_marked(&marks, changes) {
        None => Ok(None),
        Some(i) => {
            let placed = &changes.placed[i];
            Ok(Some(Fault {
                kind: UfKind::NotATree,
                left: placed.left,
                found: placed.change.number as u64,
            }))
        }
    }
}
