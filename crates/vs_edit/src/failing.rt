//! A store for tests, one call of which fails.
ghost use Rattle.std.specs.Prelude.{◌≡◌, ◌+◌, ◌↔◌, IsTrue, ⊤, min};
ghost use Rattle.vs_faults.specs.Faults.{HasCause};

use crate::room::has_room;
use crate::{LineStore, StoreErr};
use std::alloc::Global;
use vs_text::Line;

/// Wraps a store, tells none of its texts, and fails one call.
///
/// The calls of `line` and `splice` are counted from 1. The one with the number `fails_at` answers
/// [`StoreErr::Failed`] and leaves the wrapped store alone; with 0 none does.
///
/// A splice after which the text might have too many bytes fails as well, since a store that does not tell its texts
/// cannot ask its caller for that.
#[derive(Drop)]
pub struct FailingStore<S> {
    pub store: S,
    /// The calls that were counted.
    pub calls: u64,
    /// The number of the call that fails, counted from 1, or 0.
    pub fails_at: u64,
    /// The count of faults.
    pub faults: u64,
}

impl<S> FailingStore<S> {
    /// A store of which the call with this number fails; with 0 none does.
    pub fn new(store: S, fails_at: u64) -> Self
        ensures { result ≡ record { store = store; calls = 0; fails_at = fails_at; faults = 0 } }
    {
        FailingStore {
            store,
            calls: 0,
            fails_at,
            faults: 0,
        }
    }

    // Counts one call, and says whether it fails.
    fn fails_now(&mut self) -> bool
        ensures calls { self.new ≡ record self.old { calls = min (self.old.calls + 1) u64.MAX } }
        ensures now { IsTrue result ↔ (self.new.calls ≡ self.old.fails_at) }
    {
        self.calls = self.calls.saturating_add(1);
        self.calls == self.fails_at
    }

    fn fail(&mut self) -> StoreErr
        ensures failed { result ≡ StoreErr.Failed }
        ensures cause { HasCause self.old.faults self.new.faults ⊤ }
        ensures rest { self.new ≡ record self.old { faults = self.new.faults } }
    {
        self.faults = self.faults.saturating_add(1);
        StoreErr::Failed
    }
}

impl<S: LineStore> LineStore for FailingStore<S> {
    ghost use Rattle.std.specs.Prelude.{false};
    ghost use Rattle.vs_edit.specs.Texts.{untold};
    ghost use Rattle.std.proofs.lemmas.Bool.{false≢true};

    ghost tells = { false };

    ghost shows = { λ s. untold s.faults (S.shows s.store) };

    ghost valid = { λ s. S.valid s.store };

    ghost stays = { λ a b. S.stays a.store b.store };

    ghost earlier = { λ _. 0 };

    ghost tells_one = { λ s valid told. absurd (false≢true told) };

    ghost has_told = { λ s text is. absurd is };

    ghost has_one = { λ s a b is_a is_b. absurd is_a };

    ghost has_lines = { λ s text is. absurd is };

    ghost has_bytes = { λ s text is. absurd is };

    ghost has_text = { λ s text valid is. absurd is };

    ghost has_within = { λ s text valid is. absurd is };

    ghost few_lines = { λ s valid. S.few_lines s.store valid };

    ghost few_bytes = { λ s valid. S.few_bytes s.store valid };

    ghost stays_itself = { λ s. S.stays_itself s.store };

    ghost stays_on = { λ p q r a b. S.stays_on p.store q.store r.store a b };

    fn len(&self) -> u64 {
        self.store.len()
    }

    fn bytes(&self) -> u64 {
        self.store.bytes()
    }

    fn line(&mut self, alloc: Global, at: u64, into: &mut Vec<u8>) -> Result<(), StoreErr> {
        if self.fails_now() {
            return Err(self.fail());
        }
        self.store.line(alloc, at, into)
    }

    fn splice(&mut self, alloc: Global, top: u64, old: u64, new: &[Line]) -> Result<(), StoreErr> {
        if self.fails_now() || !has_room(self.store.bytes(), new) {
            return Err(self.fail());
        }
        self.store.splice(alloc, top, old, new)
    }

    fn commit(&mut self) {
        self.store.commit();
    }

    fn rollback(&mut self) {
        self.store.rollback();
    }
}
