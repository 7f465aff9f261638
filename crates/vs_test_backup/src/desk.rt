// A folder, and a text in memory.
ghost use Rattle.std.specs.Prelude.{◌≡◌, IfOk, length};
ghost use Rattle.vs_edit.specs.Texts.{AreSound};

use std::alloc::Global;
use std::test::Fail;
use vs_backup::Desk;
use vs_edit::{LineStore, StoreErr, VecStore, allows_splice};
use vs_host::{Failed, Folder, World};
use vs_text::read_text;

/// A folder with a text that is kept in memory.
#[derive(Drop)]
pub struct TextDesk<F> {
    pub folder: F,
    pub text: VecStore,
}

/// A store of the text that a file of these bytes has.
pub(crate) fn store_of(alloc: Global, bytes: &[u8]) -> Result<VecStore, Fail>
    ensures { IfOk result AreSound }
{
    let (text, _) = read_text(alloc, bytes).ok().ok_or("it is a text")?;
    let mut store = VecStore::new(alloc)?;
    if !allows_splice(&store, 0, 0, text.lines()) {
        return Err(Fail::new("there is no room for the text"));
    }
    match store.splice(alloc, 0, 0, text.lines()) {
        Ok(()) => Ok(store),
        Err(_) => Err(Fail::new("there is no memory for the text")),
    }
}

impl<F: Folder> World for TextDesk<F> {
    ghost tells = { F.tells };

    ghost scene = { λ desk. F.scene desk.folder };

    ghost plays = { λ old new ok. F.plays old.folder new.folder ok };

    ghost is_folder = { λ desk told. F.is_folder desk.folder told };

    ghost newest = { λ desk told. F.newest desk.folder told };

    ghost counted = { λ desk told. F.counted desk.folder told };
}

impl<F: Folder> Desk for TextDesk<F> {
    ghost use Rattle.std.specs.Prelude.{refl};
    ghost use Rattle.std.proofs.Common.{◌∙◌, ap, subst, sym};
    ghost use Rattle.vs_text.specs.Text.{IsText};
    ghost use Rattle.vs_edit.specs.Texts.{AreSound};

    ghost has_text = { λ desk text. desk.text.present ≡ text };

    ghost lines = { λ desk. length desk.text.present };

    ghost reads = { λ desk name. ⊥ };

    ghost valid = { λ desk. AreSound desk.text };

    ghost stays = { λ a b. b.text.present ≡ a.text.present };

    ghost tells_one = { λ desk valid told. (desk.text.present, refl) };

    ghost has_one = { λ desk a b is_a is_b. sym is_a ∙ is_b };

    ghost is_text = { λ desk text valid is. subst IsText is valid.present.is_text };

    ghost has_lines = { λ desk text is. ap length (sym is) };

    ghost few_lines = { λ desk valid. valid.present.within.few_lines };

    ghost stays_itself = { λ desk. refl };

    ghost stays_on = { λ p q r first second. second ∙ first };

    ghost stays_text = { λ p q text stays is. stays ∙ is };

    ghost stays_lines = { λ p q stays. ap length stays };

    ghost stays_reads = { λ p q name stays reads. reads };

    fn has(&mut self, name: &str) -> Result<bool, Failed> {
        self.folder.has(name)
    }

    fn create(&mut self, name: &str) -> Result<(), Failed> {
        self.folder.create(name)
    }

    fn create_private(&mut self, name: &str) -> Result<(), Failed> {
        self.folder.create_private(name)
    }

    fn len(&mut self, name: &str) -> Result<u64, Failed> {
        self.folder.len(name)
    }

    fn read_at(&mut self, name: &str, at: u64, into: &mut [u8]) -> Result<(), Failed> {
        self.folder.read_at(name, at, into)
    }

    fn write_at(&mut self, name: &str, at: u64, piece: &[u8]) -> Result<(), Failed> {
        self.folder.write_at(name, at, piece)
    }

    fn cut(&mut self, name: &str, len: u64) -> Result<(), Failed> {
        self.folder.cut(name, len)
    }

    fn sync(&mut self, name: &str) -> Result<(), Failed> {
        self.folder.sync(name)
    }

    fn sync_like(&mut self, model: &str, name: &str) -> Result<(), Failed> {
        self.folder.sync_like(model, name)
    }

    fn rename(&mut self, from: &str, to: &str) -> Result<(), Failed> {
        self.folder.rename(from, to)
    }

    fn remove(&mut self, name: &str) -> Result<(), Failed> {
        self.folder.remove(name)
    }

    fn sync_names(&mut self) -> Result<(), Failed> {
        self.folder.sync_names()
    }

    fn damaged(&mut self) {
        self.folder.damaged();
    }

    fn text_len(&self) -> u64 {
        self.text.len()
    }

    #[tactic(auto, using(vs_backup::proofs::Stops::stops_still))]
    fn text_lines(
        &mut self,
        alloc: Global,
        at: u64,
        count: u64,
        into: &mut Vec<u8>,
    ) -> Result<(), StoreErr> {
        self.text.copy_lines(alloc, at, count, into)
    }
}
