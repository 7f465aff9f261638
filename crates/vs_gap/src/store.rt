// A store that holds the lines of another that are changed.
ghost use Rattle.std.specs.Prelude.{◌≡◌, ◌≤◌, ◌+◌, ℕ, List, All, Some, None, IfNone, IfOk, IfSome, IsErrOf, OnErr, OnOk, OnSome, length};
ghost use Rattle.vs_faults.specs.OneCause.{HasOneCause};
ghost use Rattle.vs_text.specs.Limits.{IsShort};
ghost use Rattle.vs_edit.specs.Splices.{cut_out};
ghost use Rattle.vs_edit.specs.State.{AllowsSplice, IsSpliced, KeepsCommitted, SameText};
ghost use Rattle.vs_gap.specs.Held.{committed_of};

use crate::held::{Held, hold, place_below, place_held};
use crate::lines::HeldLines;
use std::alloc::{AllocError, Global};
use std::mem;
use vs_edit::{LineStore, StoreErr};
use vs_reads::push_lines;
use vs_text::Line;

/// The lines that a store holds over another.
#[derive(Drop)]
pub struct Overlay {
    pub present: Held,
    /// What was held when the text was committed, where it may be something else than now.
    pub committed: Option<Held>,
}

/// A store that may take lines in the memory that they have, and give lines of its text away.
pub trait LineGiver: LineStore {
    /// Puts new lines in the place of `old` lines from line `top` on, where the result is within the limits. After an `Err` the text is
    /// as before.
    fn take_splice(
        &mut self,
        alloc: Global,
        top: u64,
        old: u64,
        new: Vec<Line>,
    ) -> Result<(), StoreErr>
        requires valid { Self.valid self.old }
        requires allowed { AllowsSplice (Self.shows self.old).present top old new.items }
        ensures ok { OnOk result (IsSpliced (Self.shows self.old).present top old new.items (Self.shows self.new).present) }
        ensures same { OnErr result (SameText (Self.shows self.old).present (Self.shows self.new).present) }
        ensures kept { KeepsCommitted Self.shows Self.valid Self.stays self.old self.new }
        ensures cause { HasOneCause (Self.shows self.old).faults (Self.shows self.new).faults (Self.earlier self.new) (IsErrOf result StoreErr.Failed) };

    /// `count` lines from line `top` on. The store goes back to no more than its committed text: it is to be rolled back, or let go.
    fn give_lines(&mut self, alloc: Global, top: u64, count: u64) -> Result<Vec<Line>, StoreErr>
        requires valid { Self.valid self.old }
        requires within { top + count ≤ (Self.shows self.old).present.lines }
        ensures lines { IfOk result (λ lines. (text : List (List ℕ)) → (Self.shows self.old).present.Is text → lines.items ≡ cut_out text top count) }
        ensures count { IfOk result (λ lines. length lines.items ≡ count) }
        ensures short { IfOk result (λ lines. All IsShort lines.items) }
        ensures kept { KeepsCommitted Self.shows Self.valid Self.stays self.old self.new }
        ensures cause { HasOneCause (Self.shows self.old).faults (Self.shows self.new).faults (Self.earlier self.new) (IsErrOf result StoreErr.Failed) };
}

/// A store over another, which it only reads. It holds the lines from the first that was changed to the last one, and those that were
/// read together with some of them, and so takes into memory what is changed: it is meant for changes that stand near to each other, or at
/// two places in turn.
#[derive(Drop)]
pub struct GapStore<'s, S: LineStore> {
    pub below: &'s mut S,
    pub overlay: &'s mut Overlay,
}

// Lines with memory of their own.
fn copies(alloc: Global, lines: &[Line]) -> Result<Vec<Line>, AllocError>
    ensures { IfOk result (λ copies. copies.items ≡ lines.now) }
{
    let mut copies = Vec::with_capacity(alloc, lines.len())?;
    for line in lines {
        copies.push(line.clone()?)?;
    }
    Ok(copies)
}

impl Overlay {
    // Keeps what was committed, which is what is held now where nothing else was kept.
    fn keep_committed(&mut self) -> Result<(), AllocError>
        ensures ok { OnOk result (self.new.committed ≡ Some (committed_of self.old.present self.old.committed)) }
        ensures err { OnErr result (self.new.committed ≡ self.old.committed) }
        ensures present { self.new.present ≡ self.old.present }
    {
        if self.committed.is_none() {
            self.committed = Some(self.present.copy()?);
        }
        Ok(())
    }

    // Goes back to what was committed, where something else may be held, and gives the lines that were held.
    fn let_go(&mut self) -> Option<HeldLines>
        ensures some { IfSome result (λ lines. lines ≡ self.old.present.lines) }
        ensures present { OnSome result (self.new.present ≡ committed_of self.old.present self.old.committed) }
        ensures committed { OnSome result (self.new.committed ≡ None) }
        ensures none { IfNone result (self.new ≡ self.old) }
    {
        match self.committed.take() {
            None => None,
            Some(committed) => Some(mem::replace(&mut self.present, committed).lines),
        }
    }
}

impl<'s, S: LineStore> LineStore for GapStore<'s, S> {
    ghost use Rattle.std.specs.Prelude.{◌≡◌, ℕ, List, length, refl};
    ghost use Rattle.std.proofs.Common.{ap, subst, sym, ◌∙◌};
    ghost use Rattle.vs_text.specs.Text.{IsText, bytes_of};
    ghost use Rattle.vs_text.specs.Limits.{IsWithinLimits};
    ghost use Rattle.vs_edit.specs.State.{SameText};
    ghost use Rattle.vs_edit.proofs.Steps.{SameText-refl, SameText-trans};
    ghost use Rattle.vs_gap.specs.Held.{IsHeld, committed_of, shown_over, told_with, with_held};

    ghost tells = { S.tells };

    ghost shows = { λ s. shown_over (S.shows s.below.now) s.overlay.now.present s.overlay.now.committed };

    ghost valid = { λ s. S.valid s.below.now × IsHeld (S.shows s.below.now).present s.overlay.now.present
        × IsHeld (S.shows s.below.now).present (committed_of s.overlay.now.present s.overlay.now.committed) };

    ghost stays = { λ a b. (b.below.ghost_name ≡ a.below.ghost_name) × S.stays a.below.now b.below.now
        × SameText (S.shows a.below.now).present (S.shows b.below.now).present
        × SameText (S.shows a.below.now).committed (S.shows b.below.now).committed };

    ghost earlier = { λ s. S.earlier s.below.now };

    ghost tells_one = { λ s v told. told_with (S.shows s.below.now).present s.overlay.now.present v.1 (S.tells_one s.below.now v.0 told) };

    ghost has_told = { λ s text is. S.has_told s.below.now is.under is.has };

    ghost has_one = { λ s a b is_a is_b. is_a.is ∙ ap (λ (text : List (List ℕ)). with_held text s.overlay.now.present)
        (S.has_one s.below.now is_a.under is_b.under is_a.has is_b.has) ∙ sym is_b.is };

    ghost has_lines = { λ s text is. ap (λ (xs : List (List ℕ)). length xs) is.is ∙ is.fits.lines };

    ghost has_bytes = { λ s text is. ap bytes_of is.is ∙ is.fits.bytes };

    ghost has_text = { λ s text v is. subst IsText (sym is.is) is.fits.sound.is_text };

    ghost has_within = { λ s text v is. subst IsWithinLimits (sym is.is) is.fits.sound.within };

    ghost few_lines = { λ s v. v.1.few_lines };

    ghost few_bytes = { λ s v. v.1.few_bytes };

    ghost stays_itself = { λ s. (refl, S.stays_itself s.below.now, SameText-refl, SameText-refl) };

    ghost stays_on = { λ p q r a b. (b.0 ∙ a.0, S.stays_on p.below.now q.below.now r.below.now a.1 b.1, SameText-trans a.2 b.2, SameText-trans a.3 b.3) };

    fn len(&self) -> u64 {
        self.below.len() + self.overlay.present.lines.len() as u64 - self.overlay.present.replaced
    }

    fn bytes(&self) -> u64 {
        self.overlay.present.bytes
    }

    fn line(&mut self, alloc: Global, at: u64, into: &mut Vec<u8>) -> Result<(), StoreErr> {
        let held = &self.overlay.present;
        if at < held.top {
            return self.below.line(alloc, at, into);
        }
        let count = held.lines.len() as u64;
        let past = at - held.top;
        if past >= count {
            let place = at + held.replaced - count;
            return self.below.line(alloc, place, into);
        }
        into.clear();
        into.extend_from_slice(held.lines.line(past as usize))?;
        Ok(())
    }

    fn copy_lines(
        &mut self,
        alloc: Global,
        at: u64,
        count: u64,
        into: &mut Vec<u8>,
    ) -> Result<(), StoreErr> {
        if let Some(place) = place_below(&self.overlay.present, at, count) {
            return self.below.copy_lines(alloc, place, count, into);
        }
        hold(alloc, &mut self.overlay.present, self.below, at, count)?;
        let held = &self.overlay.present;
        held.lines
            .copy_lines((at - held.top) as usize, count as usize, into)?;
        Ok(())
    }

    fn splice(&mut self, alloc: Global, top: u64, old: u64, new: &[Line]) -> Result<(), StoreErr> {
        let new = copies(alloc, new)?;
        self.take_splice(alloc, top, old, new)
    }

    fn commit(&mut self) {
        self.overlay.committed = None;
    }

    fn rollback(&mut self) {
        if let Some(held) = self.overlay.committed.take() {
            self.overlay.present = held;
        }
    }
}

impl<'s, S: LineStore> LineGiver for GapStore<'s, S> {
    fn take_splice(
        &mut self,
        alloc: Global,
        top: u64,
        old: u64,
        new: Vec<Line>,
    ) -> Result<(), StoreErr> {
        self.overlay.keep_committed()?;
        hold(alloc, &mut self.overlay.present, self.below, top, old)?;
        self.overlay.present.exchange(alloc, top, old, new)?;
        Ok(())
    }

    fn give_lines(&mut self, alloc: Global, top: u64, count: u64) -> Result<Vec<Line>, StoreErr> {
        if let Some(place) = place_held(&self.overlay.present, top, count)
            && let Some(lines) = self.overlay.let_go()
        {
            return Ok(lines.into_lines(alloc, place, count as usize)?);
        }
        let mut new = Vec::new(alloc);
        push_lines(alloc, self, top, count, &mut new)?;
        Ok(new)
    }
}
