// Walks along links between places: where many steps lead from each place at once. By doubling this takes n log n steps
// over n places, with no stack, whatever the links are.

ghost use Rattle.std.specs.Prelude.{◌≡◌, ◌+◌, ◌*◌, ◌<◌, ◌≤◌, ℕ, get_or, length, replicate, false, All, IfOk, IsTrue, ◌↔◌, ◌⊎◌};
ghost use Rattle.vs_ufile.specs.Walks.{AreOnCycles, LeadsFar, at};

use std::alloc::{AllocError, Global};

// Where twice as many steps lead.
fn doubled(alloc: Global, far: &[usize]) -> Result<Vec<usize>, AllocError>
    requires { All (λ x. x < length far.now) far.now }
    ensures { IfOk result (λ new. (length new.items ≡ length far.now) ×
        ((i : ℕ) → i < length far.now → at new.items i ≡ at far.now (at far.now i))) }
{
    let mut new = Vec::new(alloc);
    'places: for at in far {
        new.push(far[*at])?;
    }
    Ok(new)
}

// Where at least as many steps lead as there are places.
pub fn far(alloc: Global, links: &[usize]) -> Result<Vec<usize>, AllocError>
    requires { All (λ x. x < length links.now) links.now }
    ensures { IfOk result (λ far. (steps : ℕ) × (length links.now ≤ steps) × LeadsFar links.now steps far.items) }
{
    let mut far = Vec::from_slice(alloc, links)?;
    let mut steps = 1;
    'longer: while steps < links.len() {
        far = doubled(alloc, &far)?;
        steps *= 2;
    }
    Ok(far)
}

// Which places lie on a cycle.
pub fn on_cycles(alloc: Global, links: &[usize]) -> Result<Vec<bool>, AllocError>
    requires { All (λ x. x < length links.now) links.now }
    ensures { IfOk result (λ marks. AreOnCycles links.now marks.items) }
{
    let far = far(alloc, links)?;
    let mut marks = no_marks(alloc, links.len())?;
    mark(&mut marks, &far);
    Ok(marks)
}

pub fn no_marks(alloc: Global, n: usize) -> Result<Vec<bool>, AllocError>
    ensures { IfOk result (λ marks. marks.items ≡ replicate n false) }
{
    vec![in alloc; false; n]
}

// Marks these places.
fn mark(marks: &mut Vec<bool>, places: &[usize])
    requires { All (λ x. x < length marks.old.items) places.now }
    ensures size { length marks.new.items ≡ length marks.old.items }
    ensures marked { (i : ℕ) → IsTrue (get_or marks.new.items i false) ↔ (IsTrue (get_or marks.old.items i false)
        ⊎ ((x : ℕ) × (x < length places.now) × (at places.now x ≡ i))) }
{
    'places: for at in places {
        marks[*at] = true;
    }
}
