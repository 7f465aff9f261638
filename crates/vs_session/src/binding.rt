// A history is bound to a text in pages.
ghost use Rattle.std.specs.Prelude.{IfErr, IfOk, IsErrOf, IsTrue, List, max};
ghost use Rattle.vs_undo.specs.History.{FitsCount, History, IsHistory};
ghost use Rattle.vs_ufile.specs.Decode.{KeepsRules};
ghost use Rattle.vs_ufile.specs.Values.{history_of};
ghost use Rattle.vs_ubind.specs.Binding.{IsRefused};
ghost use Rattle.vs_ubind.specs.Bound.{IsBound};
ghost use Rattle.vs_safety.specs.Texts.{Sync, Text};
ghost use Rattle.vs_paged.specs.Fits as paged;
ghost use Rattle.vs_pair.specs.Pair.{shown_in};
ghost use Rattle.vs_paged.specs.Pages.{IsPaged};
ghost use Rattle.vs_session.specs.Lent.{IsLent, KeepsLent, KeepsText};
ghost use Rattle.vs_session.specs.Work.{SameWork};

use std::alloc::Global;
use vs_host::Folder;
use vs_machine::UndoTree;
use vs_merge::MergedStore;
use vs_paged::PagedText;
use vs_pair::{PairPages, SwapPair};
use vs_tree::LineTree;
use vs_ubind::{BindErr, bind};
use vs_ufile::FileHistory;

// The tree that the data of an undo file stands for at a text in the pages of a pair.
fn bind_in<F: Folder>(
    alloc: Global,
    tree: &mut LineTree,
    pair: &mut SwapPair,
    host: &mut F,
    contents: &FileHistory,
) -> Result<UndoTree, BindErr>
    requires rules { KeepsRules (history_of contents.now) }
    requires lent { IsLent F.tells pair.old tree.old (F.scene host.old).folder }
    ensures bound { IfOk result (λ undo. IsTrue F.tells.folder → (text : Text) → IsPaged (shown_in pair.old (F.scene host.old).folder) tree.old text
        → (history : History) × IsBound (history_of contents.now) text history × IsHistory undo text history) }
    ensures refused { IfErr result (λ error. IsTrue F.tells.folder → (text : Text) → IsPaged (shown_in pair.old (F.scene host.old).folder) tree.old text
        → IsRefused (history_of contents.now) text error) }
    ensures counts { IfOk result (λ undo. FitsCount undo (max 1 tree.new.present.lines)) }
    ensures kept { KeepsLent F.tells (IsErrOf result BindErr.Failed) pair.old pair.new tree.old tree.new (F.scene host.old) (F.scene host.new) }
    ensures works { SameWork F.tells pair.old.pages pair.new.pages }
{
    let mut store = MergedStore {
        tree,
        pages: PairPages { pair, host },
    };
    bind(alloc, contents, &mut store)
}

/// The tree that the data of an undo file stands for at a text, which is as before on every answer.
pub(crate) fn bind_text<F: Folder>(
    alloc: Global,
    text: &mut PagedText,
    host: &mut F,
    contents: &FileHistory,
) -> Result<UndoTree, BindErr>
    requires rules { KeepsRules (history_of contents.now) }
    requires fits { paged.FitsFolder F.tells text.old (F.scene host.old).folder }
    ensures bound { IfOk result (λ undo. IsTrue F.tells.folder → (lines : Text) (syncs : List Sync) →
        paged.Fits text.old (F.scene host.old).folder lines syncs
        → (history : History) × IsBound (history_of contents.now) lines history × IsHistory undo lines history) }
    ensures refused { IfErr result (λ error. IsTrue F.tells.folder → (lines : Text) (syncs : List Sync)
        → paged.Fits text.old (F.scene host.old).folder lines syncs
        → IsRefused (history_of contents.now) lines error) }
    ensures counts { IfOk result (λ undo. FitsCount undo (max 1 text.new.tree.present.lines)) }
    ensures kept { KeepsText F.tells (IsErrOf result BindErr.Failed) text.old text.new (F.scene host.old) (F.scene host.new) }
    ensures works { SameWork F.tells text.old.pair.pages text.new.pair.pages }
{
    bind_in(alloc, &mut text.tree, &mut text.pair, host, contents)
}
