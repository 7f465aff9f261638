// The tree with its pages, as a store of one text whose trees stay filled.
ghost use Rattle.std.specs.Prelude.{◌≡◌, IsTrue, refl};
ghost use Rattle.std.proofs.Common.{◌∙◌};
ghost use Rattle.vs_tree.specs.Errors.{store_error};

use crate::splice;
use std::alloc::Global;
use vs_edit::{LineStore, StoreErr};
use vs_pages::{PageErr, Pages};
use vs_text::Line;
use vs_tree::{LineTree, store_err};

// The error of the store whose pages answered this one. It stands here since a function of another crate is no value that can be passed.
fn of_pages(error: PageErr) -> StoreErr
    ensures { result ≡ store_error error }
{
    store_err(error)
}

/// A tree with its pages, as a store of one text. The trees of its present and of its committed pages are filled.
#[derive(Drop)]
pub struct MergedStore<'t, P: Pages> {
    pub tree: &'t mut LineTree,
    pub pages: P,
}

impl<'t, P: Pages + Drop> LineStore for MergedStore<'t, P> {
    ghost use Rattle.vs_tree.specs.Texts.{texts_of, Fits};
    ghost use Rattle.vs_tree.specs.Sames.{one_text};
    ghost use Rattle.vs_tree_shape.specs.Filled.{HasFilled};
    ghost use Rattle.vs_tree_blocks.specs.Blocks.{tree_format};

    ghost tells = { P.tells };

    ghost shows = { λ s. texts_of P.tells (P.shows s.pages) s.tree.now };

    ghost valid = { λ s. P.valid s.pages × Fits P.tells (P.shows s.pages).present s.tree.now.present
        × Fits P.tells (P.shows s.pages).committed s.tree.now.committed
        × (IsTrue P.tells → HasFilled tree_format (P.shows s.pages).present s.tree.now.present.height)
        × (IsTrue P.tells → HasFilled tree_format (P.shows s.pages).committed s.tree.now.committed.height) };

    ghost stays = { λ a b. (b.tree.ghost_name ≡ a.tree.ghost_name) × P.stays a.pages b.pages };

    ghost earlier = { λ s. P.earlier s.pages };

    ghost tells_one = { λ s v told. let r = v.1.one told in (r.0, record { told = told; has = r.1 }) };

    ghost has_told = { λ s text h. h.told };

    ghost has_one = { λ s a b h i. one_text (P.shows s.pages).present s.tree.now.present a b h.has i.has };

    ghost has_lines = { λ s text h. h.has.lines };

    ghost has_bytes = { λ s text h. h.has.bytes };

    ghost has_text = { λ s text v h. h.has.is_text };

    ghost has_within = { λ s text v h. h.has.within };

    ghost few_lines = { λ s v. v.1.few };

    ghost few_bytes = { λ s v. v.1.few_bytes };

    ghost stays_itself = { λ s. (refl, P.stays_itself s.pages) };

    ghost stays_on = { λ p q r a b. (b.0 ∙ a.0, P.stays_on p.pages q.pages r.pages a.1 b.1) };

    fn len(&self) -> u64 {
        self.tree.len()
    }

    fn bytes(&self) -> u64 {
        self.tree.bytes()
    }

    fn line(&mut self, alloc: Global, at: u64, into: &mut Vec<u8>) -> Result<(), StoreErr> {
        self.tree
            .line(alloc, &mut self.pages, at, into)
            .map_err(of_pages)
    }

    fn copy_lines(
        &mut self,
        alloc: Global,
        at: u64,
        count: u64,
        into: &mut Vec<u8>,
    ) -> Result<(), StoreErr> {
        into.clear();
        self.tree
            .copy_lines(alloc, &mut self.pages, at, count, into)
            .map_err(of_pages)
    }

    fn splice(&mut self, alloc: Global, top: u64, old: u64, new: &[Line]) -> Result<(), StoreErr> {
        splice(alloc, self.tree, &mut self.pages, top, old, new).map_err(of_pages)
    }

    fn commit(&mut self) {
        self.pages.commit();
        self.tree.commit();
    }

    fn rollback(&mut self) {
        self.pages.rollback();
        self.tree.rollback();
    }
}
