// Chains of places: each leads to the one after it and to the one before it.

ghost use Rattle.std.specs.Prelude.{◌≡◌, ◌<◌, ℕ, length, All, IfOk, IsTrue, ◌↔◌, ◌==◌, if◌then◌else◌};
ghost use Rattle.vs_ufile.specs.Walks.{AreChains, AreHeads, AreLinks, AreMarks, AreOnCycles, FailsAt, at};

use crate::walks::{far, on_cycles};
use std::alloc::{AllocError, Global};

fn fails_at(after: &[usize], before: &[usize], cycles: &[bool], place: usize) -> bool
    requires within { place < length after.now }
    requires after { AreLinks (length after.now) after.now }
    requires before { AreLinks (length after.now) before.now }
    requires cycles { AreOnCycles after.now cycles.now }
    ensures { IsTrue result ↔ FailsAt after.now before.now place }
{
    let next = after[place];
    if next != 0 && before[next] != place {
        return true;
    }
    let previous = before[place];
    if previous != 0 && after[previous] != place {
        return true;
    }
    cycles[place]
}

// Which places fail in their chains.
pub fn failing_in_chains(
    alloc: Global,
    after: &[usize],
    before: &[usize],
) -> Result<Vec<bool>, AllocError>
    requires after { AreLinks (length after.now) after.now }
    requires before { AreLinks (length after.now) before.now }
    ensures { IfOk result (λ marks. AreMarks (length after.now) (FailsAt after.now before.now) marks.items) }
{
    let cycles = on_cycles(alloc, after)?;
    let mut marks = Vec::new(alloc);
    'places: for place in 0..after.len() {
        marks.push(fails_at(after, before, &cycles, place))?;
    }
    Ok(marks)
}

// Each place leads to the one before it, and a head to itself.
fn stopping(alloc: Global, before: &[usize]) -> Result<Vec<usize>, AllocError>
    ensures size { IfOk result (λ new. length new.items ≡ length before.now) }
    ensures each { IfOk result (λ new. (i : ℕ) → i < length before.now → at new.items i ≡ (if at before.now i == 0 then i else at before.now i)) }
{
    let mut new = Vec::new(alloc);
    'places: for place in 0..before.len() {
        let previous = before[place];
        new.push(if previous == 0 { place } else { previous })?;
    }
    Ok(new)
}

// The head of each place's chain.
pub fn heads(alloc: Global, after: &[usize], before: &[usize]) -> Result<Vec<usize>, AllocError>
    requires after { AreLinks (length after.now) after.now }
    requires before { AreLinks (length after.now) before.now }
    requires chains { AreChains after.now before.now }
    ensures { IfOk result (λ heads. AreHeads before.now heads.items) }
{
    let stopping = stopping(alloc, before)?;
    far(alloc, &stopping)
}
