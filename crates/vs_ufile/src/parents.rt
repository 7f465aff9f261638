// Chains of places in a tree: the head of each chain leads to the parent of its places.

ghost use Rattle.std.specs.Prelude.{◌≡◌, ◌≢◌, ◌<◌, ℕ, length, false, get_or, IfOk, IsTrue, ◌↔◌, ◌⊎◌};
ghost use Rattle.vs_ufile.specs.Walks.{AreLastHeads, AreLinks, AreMarks, FailsAbove, HaveTwoHeads, IsHead, at};

use crate::walks::{far, no_marks};
use std::alloc::{AllocError, Global};

// The parent of each place.
pub fn parents(alloc: Global, heads: &[usize], next: &[usize]) -> Result<Vec<usize>, AllocError>
    requires heads { AreLinks (length next.now) heads.now }
    requires next { AreLinks (length next.now) next.now }
    ensures links { IfOk result (λ parents. AreLinks (length next.now) parents.items) }
    ensures each { IfOk result (λ parents. (i : ℕ) → i < length next.now → at parents.items i ≡ at next.now (at heads.now i)) }
{
    let mut parents = Vec::new(alloc);
    'places: for head in heads {
        parents.push(next[*head])?;
    }
    Ok(parents)
}

// A head with each parent that has one, and 0 at every other place.
pub fn last_heads(
    alloc: Global,
    before: &[usize],
    parents: &[usize],
) -> Result<Vec<usize>, AllocError>
    requires size { length before.now ≡ length parents.now }
    requires parents { AreLinks (length parents.now) parents.now }
    ensures { IfOk result (λ last. AreLastHeads before.now parents.now (length parents.now) last.items) }
{
    let mut last = vec![in alloc; 0usize; parents.len()]?;
    'places: for place in 1..parents.len() {
        if before[place] == 0 {
            last[parents[place]] = place;
        }
    }
    Ok(last)
}

// Whether the place is a head other than the last one with its parent.
fn is_other(before: &[usize], parents: &[usize], last: &[usize], place: usize) -> bool
    requires some { 0 < place }
    requires within { place < length parents.now }
    requires size { length before.now ≡ length parents.now }
    requires last { length last.now ≡ length parents.now }
    requires parents { AreLinks (length parents.now) parents.now }
    ensures { IsTrue result ↔ (IsHead before.now place × (at last.now (at parents.now place) ≢ place)) }
{
    before[place] == 0 && last[parents[place]] != place
}

// Which places are the parent of more than one chain.
fn shared(alloc: Global, before: &[usize], parents: &[usize]) -> Result<Vec<bool>, AllocError>
    requires size { length before.now ≡ length parents.now }
    requires parents { AreLinks (length parents.now) parents.now }
    ensures size { IfOk result (λ marks. length marks.items ≡ length parents.now) }
    ensures marked { IfOk result (λ marks. (q : ℕ) → IsTrue (get_or marks.items q false) ↔ HaveTwoHeads before.now parents.now q) }
{
    let last = last_heads(alloc, before, parents)?;
    let mut marks = no_marks(alloc, parents.len())?;
    'places: for place in 1..parents.len() {
        if is_other(before, parents, &last, place) {
            marks[parents[place]] = true;
        }
    }
    Ok(marks)
}

fn fails_above(ends: &[usize], shared: &[bool], parents: &[usize], place: usize) -> bool
    requires within { place < length parents.now }
    requires ends { length ends.now ≡ length parents.now }
    requires shared { length shared.now ≡ length parents.now }
    requires parents { AreLinks (length parents.now) parents.now }
    ensures { IsTrue result ↔ ((at ends.now place ≢ 0) ⊎ IsTrue (get_or shared.now (at parents.now place) false)) }
{
    ends[place] != 0 || shared[parents[place]]
}

// Which places have a way through parents that does not end, or share their parent with another chain.
pub fn failing_above(
    alloc: Global,
    before: &[usize],
    parents: &[usize],
) -> Result<Vec<bool>, AllocError>
    requires size { length before.now ≡ length parents.now }
    requires parents { AreLinks (length parents.now) parents.now }
    ensures { IfOk result (λ marks. AreMarks (length parents.now) (FailsAbove before.now parents.now) marks.items) }
{
    let ends = far(alloc, parents)?;
    let shared = shared(alloc, before, parents)?;
    let mut marks = Vec::new(alloc);
    'places: for place in 0..parents.len() {
        marks.push(fails_above(&ends, &shared, parents, place))?;
    }
    Ok(marks)
}
