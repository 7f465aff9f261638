// The answer of the machine over a text in pages.
ghost use Rattle.std.specs.Prelude.{◌≡◌, ◌≤◌, IfOk, IsErrOf, IsTrue, List, OnErr};
ghost use Rattle.vs_excmd.specs.Request.{Instruction, IsFormed, IsRequest};
ghost use Rattle.vs_machine.specs.Answers.{WorksAs, meaning_at};
ghost use Rattle.vs_machine.specs.Machine.{State, done_oldest, done_reply, done_state};
ghost use Rattle.vs_safety.specs.Texts.{Sync};
ghost use Rattle.vs_session.specs.Lent.{FitsWithUndo, IsLentWithUndo, KeepsLentWithUndo, KeepsWithUndo};
ghost use Rattle.vs_session.specs.Standing.{FitsState, Stands};
ghost use Rattle.vs_session.specs.Work.{SameWork, most_in, work_in};

use std::alloc::Global;
use vs_edit::StoreErr;
use vs_excmd::Request;
use vs_host::Folder;
use vs_machine::{Answered, Keep, UndoTree, answer};
use vs_merge::MergedStore;
use vs_paged::PagedText;
use vs_pair::{PairPages, SwapPair};
use vs_tree::LineTree;

// Answers a request over a text in the pages of a pair, with its undo tree.
fn answer_in<F: Folder>(
    alloc: Global,
    tree: &mut LineTree,
    pair: &mut SwapPair,
    host: &mut F,
    history: &mut UndoTree,
    cursor: u64,
    request: &Request,
    keep: Keep,
) -> Result<Answered, StoreErr>
    requires lent { IsLentWithUndo F.tells pair.old tree.old history.old (F.scene host.old).folder }
    requires form { IsFormed request.now }
    requires some { 1 ≤ keep.levels }
    ensures reply { IfOk result (λ answered. IsTrue F.tells.folder → (state : State) (instruction : Instruction)
        → Stands pair.old (F.scene host.old).folder tree.old history.old state → cursor ≡ state.cursor → IsRequest request.now instruction
        → answered.reply ≡ done_reply state (meaning_at state instruction)) }
    ensures state { IfOk result (λ answered. IsTrue F.tells.folder → (state : State) (instruction : Instruction)
        → Stands pair.old (F.scene host.old).folder tree.old history.old state → cursor ≡ state.cursor → IsRequest request.now instruction
        → let after = done_state state keep (meaning_at state instruction) in Stands pair.new (F.scene host.new).folder tree.new history.new after
        × (answered.cursor ≡ after.cursor)) }
    ensures oldest { IfOk result (λ answered. IsTrue F.tells.folder → (state : State) (instruction : Instruction)
        → Stands pair.old (F.scene host.old).folder tree.old history.old state → cursor ≡ state.cursor → IsRequest request.now instruction
        → answered.oldest ≡ done_oldest state keep (meaning_at state instruction)) }
    ensures works { IfOk result (λ answered. IsTrue F.tells.folder → (state : State) (instruction : Instruction)
        → Stands pair.old (F.scene host.old).folder tree.old history.old state → cursor ≡ state.cursor → IsRequest request.now instruction
        → WorksAs state (meaning_at state instruction) (most_in tree.old) (work_in pair.old.pages) (work_in pair.new.pages)) }
    ensures idle { OnErr result (SameWork F.tells pair.old.pages pair.new.pages) }
    ensures err { OnErr result (IsTrue F.tells.folder → (state : State) → Stands pair.old (F.scene host.old).folder tree.old history.old state
        → Stands pair.new (F.scene host.new).folder tree.new history.new state) }
    ensures kept { KeepsLentWithUndo F.tells (IsErrOf result StoreErr.Failed) pair.old pair.new tree.new history.new (F.scene host.old) (F.scene host.new) }
{
    let mut store = MergedStore {
        tree,
        pages: PairPages { pair, host },
    };
    answer(alloc, &mut store, history, cursor, request, keep)
}

/// Answers a request for a cursor in a text, with its undo tree, which keeps a change as this says. After an `Err` text and tree are
/// as before.
pub(crate) fn answer_text<F: Folder>(
    alloc: Global,
    text: &mut PagedText,
    host: &mut F,
    history: &mut UndoTree,
    cursor: u64,
    request: &Request,
    keep: Keep,
) -> Result<Answered, StoreErr>
    requires fits { FitsWithUndo F.tells text.old history.old (F.scene host.old).folder }
    requires form { IsFormed request.now }
    requires some { 1 ≤ keep.levels }
    ensures reply { IfOk result (λ answered. IsTrue F.tells.folder → (state : State) (syncs : List Sync) (instruction : Instruction)
        → FitsState text.old history.old (F.scene host.old).folder state syncs → cursor ≡ state.cursor → IsRequest request.now instruction
        → answered.reply ≡ done_reply state (meaning_at state instruction)) }
    ensures state { IfOk result (λ answered. IsTrue F.tells.folder → (state : State) (syncs : List Sync) (instruction : Instruction)
        → FitsState text.old history.old (F.scene host.old).folder state syncs → cursor ≡ state.cursor → IsRequest request.now instruction
        → let after = done_state state keep (meaning_at state instruction) in FitsState text.new history.new (F.scene host.new).folder after syncs
        × (answered.cursor ≡ after.cursor)) }
    ensures oldest { IfOk result (λ answered. IsTrue F.tells.folder → (state : State) (syncs : List Sync) (instruction : Instruction)
        → FitsState text.old history.old (F.scene host.old).folder state syncs → cursor ≡ state.cursor → IsRequest request.now instruction
        → answered.oldest ≡ done_oldest state keep (meaning_at state instruction)) }
    ensures works { IfOk result (λ answered. IsTrue F.tells.folder → (state : State) (syncs : List Sync) (instruction : Instruction)
        → FitsState text.old history.old (F.scene host.old).folder state syncs → cursor ≡ state.cursor → IsRequest request.now instruction
        → WorksAs state (meaning_at state instruction) (most_in text.old.tree) (work_in text.old.pair.pages) (work_in text.new.pair.pages)) }
    ensures idle { OnErr result (SameWork F.tells text.old.pair.pages text.new.pair.pages) }
    ensures err { OnErr result (IsTrue F.tells.folder → (state : State) (syncs : List Sync)
        → FitsState text.old history.old (F.scene host.old).folder state syncs
        → FitsState text.new history.new (F.scene host.new).folder state syncs) }
    ensures kept { KeepsWithUndo F.tells (IsErrOf result StoreErr.Failed) text.old text.new history.new (F.scene host.old) (F.scene host.new) }
{
    answer_in(
        alloc,
        &mut text.tree,
        &mut text.pair,
        host,
        history,
        cursor,
        request,
        keep,
    )
}
