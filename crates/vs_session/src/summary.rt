// The summary of a session.
ghost use Rattle.std.specs.Prelude.{◌≡◌, IfOk, IsErrOf, IsTrue, List};
ghost use Rattle.vs_faults.specs.Faults.{HasCause};
ghost use Rattle.vs_host.specs.World.{ReadsFolder};
ghost use Rattle.vs_disk.specs.Faults.{NeverFalls};
ghost use Rattle.vs_disk.specs.Runs.{Looks};
ghost use Rattle.vs_backup.specs.Desks.{StopsAtFault};
ghost use Rattle.vs_safety.specs.Texts.{Sync, Text};
ghost use Rattle.vs_ubind.specs.Digest.{digest_of};
ghost use Rattle.vs_paged.specs.Fits as paged;
ghost use Rattle.vs_pair.specs.Acts.{JustReads};
ghost use Rattle.vs_pair.specs.Pair.{shown_in};
ghost use Rattle.vs_paged.specs.Pages.{IsPaged};
ghost use Rattle.vs_session.specs.Calls.{FitsFolder, KeepsState};
ghost use Rattle.vs_session.specs.Fits.{Fits, FitsUndo, SameFile, generation_of};
ghost use Rattle.vs_session.specs.Lent.{IsLent, KeepsLent, KeepsText};
ghost use Rattle.vs_session.specs.Session.{SessionState};
ghost use Rattle.vs_session.specs.Summary.{summary_of};

use crate::Session;
use std::alloc::Global;
use vs_edit::StoreErr;
use vs_host::Folder;
use vs_merge::MergedStore;
use vs_paged::PagedText;
use vs_pair::{PairPages, SwapPair};
use vs_tree::LineTree;
use vs_ubind::digest;

/// What a session has come to.
#[derive(Clone, Copy, Debug, PartialEq, Eq)]
pub struct Summary {
    /// The number of lines of the text.
    pub lines: u64,
    /// The number of the last change, or 0.
    pub changes: u64,
    /// The number of syncs that were acknowledged, with that of the opening.
    pub syncs: u64,
    /// The digest of the text: docs/FORMATS.md, "Undo file".
    pub digest: [u8; 32],
}

// The digest of a text in the pages of a pair.
fn digest_in<F: Folder>(
    alloc: Global,
    tree: &mut LineTree,
    pair: &mut SwapPair,
    host: &mut F,
) -> Result<[u8; 32], StoreErr>
    requires lent { IsLent F.tells pair.old tree.old (F.scene host.old).folder }
    ensures digest { IfOk result (λ digest. IsTrue F.tells.folder → (text : Text) → IsPaged (shown_in pair.old (F.scene host.old).folder) tree.old text
        → digest ≡ digest_of text) }
    ensures kept { KeepsLent F.tells (IsErrOf result StoreErr.Failed) pair.old pair.new tree.old tree.new (F.scene host.old) (F.scene host.new) }
{
    let mut store = MergedStore {
        tree,
        pages: PairPages { pair, host },
    };
    digest(alloc, &mut store)
}

// The digest of a text.
fn digest_text<F: Folder>(
    alloc: Global,
    text: &mut PagedText,
    host: &mut F,
) -> Result<[u8; 32], StoreErr>
    requires fits { paged.FitsFolder F.tells text.old (F.scene host.old).folder }
    ensures digest { IfOk result (λ digest. IsTrue F.tells.folder → (lines : Text) (syncs : List Sync)
        → paged.Fits text.old (F.scene host.old).folder lines syncs
        → digest ≡ digest_of lines) }
    ensures kept { KeepsText F.tells (IsErrOf result StoreErr.Failed) text.old text.new (F.scene host.old) (F.scene host.new) }
{
    digest_in(alloc, &mut text.tree, &mut text.pair, host)
}

impl Session {
    /// The summary of the session, which goes on as before after every answer. `Failed` comes only where a call on the folder
    /// failed, and it is the last one.
    pub fn summary<F: Folder>(&mut self, alloc: Global, host: &mut F) -> Result<Summary, StoreErr>
        requires fits { FitsFolder F.tells self.old (F.scene host.old).folder }
        ensures summary { IfOk result (λ summary. IsTrue F.tells.folder → (state : SessionState) (syncs : List Sync)
            → Fits self.old (F.scene host.old).folder state syncs
            → summary ≡ summary_of state syncs) }
        ensures fits { KeepsState F.tells self.old self.new (F.scene host.old).folder (F.scene host.new).folder }
        ensures undo { FitsUndo self.old → FitsUndo self.new }
        ensures file { SameFile self.old self.new }
        ensures generation { generation_of self.new ≡ generation_of self.old }
        ensures looks { IsTrue F.tells.folder → Looks (F.scene host.old) (F.scene host.new) }
        ensures reads { IsTrue F.tells.folder → JustReads (F.scene host.old) (F.scene host.new) }
        ensures counts { IsTrue F.tells.folder → NeverFalls (F.scene host.old) (F.scene host.new) }
        ensures stops { StopsAtFault F.tells (IsErrOf result StoreErr.Failed) (F.scene host.old) (F.scene host.new) }
        ensures frame { ReadsFolder (F.scene host.old) (F.scene host.new) }
        ensures cause { HasCause (F.scene host.old).folder_faults (F.scene host.new).folder_faults (IsErrOf result StoreErr.Failed) }
    {
        let digest = digest_text(alloc, &mut self.text, host)?;
        Ok(Summary {
            lines: self.text.len(),
            changes: self.history.last(),
            syncs: self.acknowledged,
            digest,
        })
    }
}
