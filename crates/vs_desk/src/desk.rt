// A text in the pages of a swap pair, and the folder into which it is written.
ghost use Rattle.std.specs.Prelude.{◌≡◌, IsTrue};
ghost use Rattle.vs_pair.specs.Pair.{shown_in};
ghost use Rattle.vs_tree.specs.Texts.{Tells};
ghost use Rattle.vs_tree.specs.declared.tree.LineTree.{LineTree};
ghost use Rattle.vs_desk.specs.Counts.{NoneAbove};
ghost use Rattle.vs_desk.specs.Pages.{IsDesk, IsSwapName, SamePages};

use std::alloc::Global;
use vs_backup::Desk;
use vs_edit::StoreErr;
use vs_host::{Failed, Folder, World};
use vs_pages::PageErr;
use vs_pair::PairPages;
use vs_tree::LineTree;

/// A text in the pages of a swap pair with the folder of its swap files, all lent. Pages that are away are read from the newer swap
/// file.
#[derive(Drop)]
pub(crate) struct PagedDesk<'t, 'p, 'h, F: Folder> {
    pub tree: &'t mut LineTree,
    pub pages: PairPages<'p, 'h, F>,
}

impl<'t, 'p, 'h, F: Folder> World for PagedDesk<'t, 'p, 'h, F> {
    ghost tells = { F.tells };

    ghost scene = { λ desk. F.scene desk.pages.host.now };

    ghost plays = { λ old new ok. F.plays old.pages.host.now new.pages.host.now ok };

    ghost is_folder = { λ desk told. F.is_folder desk.pages.host.now told };

    ghost newest = { λ desk told. F.newest desk.pages.host.now told };

    ghost counted = { λ desk told. F.counted desk.pages.host.now told };
}

impl<'t, 'p, 'h, F: Folder> Desk for PagedDesk<'t, 'p, 'h, F> {
    ghost use Rattle.std.proofs.Common.{◌∙◌, ap, refl};
    ghost use Rattle.vs_tree.specs.Sames.{one_text};
    ghost use Rattle.vs_desk.specs.PageLaws.{above_none, above_then, same_none, same_reads, same_then, same_text};

    ghost has_text = { λ desk text.
        Tells F.tells.folder (shown_in desk.pages.pair.now (F.scene desk.pages.host.now).folder).present desk.tree.now.present text };

    ghost lines = { λ desk. desk.tree.now.present.lines };

    ghost reads = { λ desk name. IsSwapName desk.pages.pair.now.files.names name };

    ghost valid = { λ desk. IsDesk F.tells.folder desk.pages.pair.now desk.tree.now (F.scene desk.pages.host.now).folder };

    ghost stays = { λ a b. (b.tree.ghost_name ≡ a.tree.ghost_name) × (b.pages.pair.ghost_name ≡ a.pages.pair.ghost_name)
        × (b.pages.host.ghost_name ≡ a.pages.host.ghost_name)
        × SamePages F.tells.folder a.pages.pair.now b.pages.pair.now a.tree.now b.tree.now
        (F.scene a.pages.host.now).folder (F.scene b.pages.host.now).folder
        × (IsTrue F.tells.folder → NoneAbove (F.scene a.pages.host.now) (F.scene b.pages.host.now)) };

    ghost tells_one = { λ desk valid told. let r = valid.fits.one told in (r.0, record { told = told; has = r.1 }) };

    ghost has_one = { λ desk a b is_a is_b.
        one_text (shown_in desk.pages.pair.now (F.scene desk.pages.host.now).folder).present desk.tree.now.present a b is_a.has is_b.has };

    ghost is_text = { λ desk text valid is. is.has.is_text };

    ghost has_lines = { λ desk text is. is.has.lines };

    ghost few_lines = { λ desk valid. valid.fits.few };

    ghost stays_itself = { λ desk. (
      refl,
      refl,
      refl,
      same_none F.tells.folder desk.pages.pair.now desk.tree.now (F.scene desk.pages.host.now).folder,
      λ told. above_none (F.scene desk.pages.host.now),
    ) };

    ghost stays_on = { λ p q r first second. (
      second.0 ∙ first.0,
      second.1 ∙ first.1,
      second.2 ∙ first.2,
      same_then F.tells.folder p.pages.pair.now q.pages.pair.now r.pages.pair.now p.tree.now q.tree.now r.tree.now
          (F.scene p.pages.host.now).folder (F.scene q.pages.host.now).folder (F.scene r.pages.host.now).folder first.3 second.3,
      λ told. above_then (F.scene p.pages.host.now) (F.scene q.pages.host.now) (F.scene r.pages.host.now) (first.4 told) (second.4 told),
    ) };

    ghost stays_text = { λ p q text stays is. same_text F.tells.folder p.pages.pair.now q.pages.pair.now p.tree.now q.tree.now
        (F.scene p.pages.host.now).folder (F.scene q.pages.host.now).folder text stays.3 is };

    ghost stays_lines = { λ p q stays. ap (λ (t : LineTree). t.present.lines) stays.3.tree };

    ghost stays_reads = { λ p q name stays reads. same_reads F.tells.folder p.pages.pair.now q.pages.pair.now p.tree.now q.tree.now
        (F.scene p.pages.host.now).folder (F.scene q.pages.host.now).folder name stays.3 reads };

    fn has(&mut self, name: &str) -> Result<bool, Failed> {
        self.pages.host.has(name)
    }

    fn create(&mut self, name: &str) -> Result<(), Failed> {
        self.pages.host.create(name)
    }

    fn create_private(&mut self, name: &str) -> Result<(), Failed> {
        self.pages.host.create_private(name)
    }

    fn len(&mut self, name: &str) -> Result<u64, Failed> {
        self.pages.host.len(name)
    }

    fn read_at(&mut self, name: &str, at: u64, into: &mut [u8]) -> Result<(), Failed> {
        self.pages.host.read_at(name, at, into)
    }

    fn write_at(&mut self, name: &str, at: u64, piece: &[u8]) -> Result<(), Failed> {
        self.pages.host.write_at(name, at, piece)
    }

    fn cut(&mut self, name: &str, len: u64) -> Result<(), Failed> {
        self.pages.host.cut(name, len)
    }

    fn sync(&mut self, name: &str) -> Result<(), Failed> {
        self.pages.host.sync(name)
    }

    fn sync_like(&mut self, model: &str, name: &str) -> Result<(), Failed> {
        self.pages.host.sync_like(model, name)
    }

    fn rename(&mut self, from: &str, to: &str) -> Result<(), Failed> {
        self.pages.host.rename(from, to)
    }

    fn remove(&mut self, name: &str) -> Result<(), Failed> {
        self.pages.host.remove(name)
    }

    fn sync_names(&mut self) -> Result<(), Failed> {
        self.pages.host.sync_names()
    }

    fn damaged(&mut self) {
        self.pages.host.damaged();
    }

    fn text_len(&self) -> u64 {
        self.tree.len()
    }

    #[tactic(auto, using(vs_backup::proofs::Counted::stops_counted, crate::proofs::Above::above_counted))]
    fn text_lines(
        &mut self,
        alloc: Global,
        at: u64,
        count: u64,
        into: &mut Vec<u8>,
    ) -> Result<(), StoreErr> {
        into.clear();
        match self
            .tree
            .copy_lines(alloc, &mut self.pages, at, count, into)
        {
            Ok(()) => Ok(()),
            Err(PageErr::NoMemory) => Err(StoreErr::NoMemory),
            Err(PageErr::Failed) => Err(StoreErr::Failed),
        }
    }
}
