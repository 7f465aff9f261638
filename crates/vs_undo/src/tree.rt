// The undo tree, with its calls.
ghost use Rattle.std.specs.Prelude.{◌≡◌, ◌≢◌, ◌+◌, ◌<◌, ◌≤◌, ◌↔◌, ◌⊎◌, [], ◌∷◌, ℕ, List, IsTrue, IfOk, IfErr, OnOk, OnErr, Some, length};
ghost use Rattle.vs_entries.specs.Entries.{Leads, LeadsCount};
ghost use Rattle.vs_undo.specs.Ways.{parent_at, IsKept};
ghost use Rattle.vs_undo.specs.Numbers.{above, below, nth_above, nth_below};
ghost use Rattle.vs_undo.specs.Writes.{IsAtNewestWrite, IsAtOldestWrite, IsEarlierWrite, IsLaterWrite};
ghost use Rattle.vs_undo.specs.History.{first_history, first_parts, history_marked, history_pushed, marked, next_save, pushed, History, IsHistory, FitsCount, FitsText};
ghost use Rattle.vs_undo.specs.Forgetting.{forgotten, history_forgotten, promoted_root};
ghost use Rattle.vs_undo.specs.Moves.{IsMove, IsReady};
ghost use Rattle.vs_undo.specs.Sound.{IsSound, child_of};
ghost use Rattle.vs_undo.specs.Leaves.{AreLeaves, leaves_of};
ghost use Rattle.vs_undo.specs.Errors.{IsMoveErr};

use crate::add::push;
use crate::forget::{forget, promoted_root};
use crate::forks::fork_pushed;
use crate::leaves::leaves_of;
use crate::mark::mark;
use crate::moves::go_to;
use crate::numbers::{earlier_goal, later_goal};
use crate::way::{is_kept, last_child, parent, way_of};
use crate::writes::{earlier_write, later_write, saves_of};
use crate::{Leaf, MAX_NUMBER, Nodes, Parts, UndoErr};
use std::alloc::{AllocError, Global};
use std::marker::Model;
use vs_edit::LineStore;
use vs_entries::Entry;

/// A change that was added: its number, and the number that the present state 0 had before, where that was another.
#[derive(Clone, Copy, Debug, PartialEq, Eq)]
pub struct Pushed {
    pub number: u64,
    pub root: Option<u64>,
}

/// A history of texts, one of which is current: a tree of numbered states, of which 0 is the oldest (`:help undo-tree`).
///
/// The tree keeps for each change the entries that lead from a state to the next one, and no text. Its calls that move are
/// lent the text of the current state.
pub struct UndoTree {
    parts: Parts,
    // Each state on the way of the current one is known to be the child last used of its parent, so a move writes no link above the
    // state where it turns.
    settled: bool,
    // No state below this one has several children. Such states are looked for where the oldest may be one.
    fork: u64,
}

// A value with much in it is dropped by a call.
impl Drop for UndoTree {
    fn drop(self) {
        let UndoTree {
            parts: _,
            settled: _,
            fork: _,
        } = self;
    }
}

impl Model for UndoTree {
    ghost use Rattle.vs_undo.specs.declared.parts.Parts.{Parts};

    ghost Value = { Parts };

    ghost use Rattle.std.specs.Prelude.{IsTrue};
    ghost use Rattle.vs_undo.specs.Sound.{IsSound};
    ghost use Rattle.vs_undo.specs.Meetings.{IsSettled};
    ghost use Rattle.vs_undo.specs.Forks.{IsStraightBelow};

    ghost view = { λ tree. tree.parts };

    ghost invariant = { λ tree. record {
      sound : IsSound tree.parts;
      settled : IsTrue tree.settled → IsSettled tree.parts;
      straight : IsStraightBelow tree.fork tree.parts.nodes;
    } };
}

impl UndoTree {
    /// The tree with this content. It takes no memory.
    pub fn of(parts: Parts) -> UndoTree
        requires { IsSound parts }
        ensures { result ≡ parts }
    {
        UndoTree {
            parts,
            settled: false,
            fork: 0,
        }
    }

    /// The tree of one state.
    pub fn new(alloc: Global) -> Result<UndoTree, AllocError>
        ensures parts { IfOk result (λ tree. tree ≡ first_parts) }
        ensures history { IfOk result (λ tree. (text : List (List ℕ)) → IsHistory tree text (first_history text)) }
        ensures counts { IfOk result (λ tree. (lines : ℕ) → FitsCount tree lines) }
        ensures texts { IfOk result (λ tree. (text : List (List ℕ)) → FitsText tree text) }
    {
        let parts = Parts {
            nodes: Nodes::of(Vec::new(alloc)),
            root_child: 0,
            current: 0,
            last: 0,
            last_save: 0,
        };
        Ok(UndoTree {
            parts,
            settled: true,
            fork: u64::MAX,
        })
    }

    /// Adds a change of the current text, with the entry that leads back from the new text to the one before. The new text is then
    /// the current one. The time is in seconds since 1970. Then the oldest states are forgotten while more changes are kept than
    /// `levels` (`:help 'undolevels'`), which takes no memory.
    ///
    /// After an `Err` the tree is as before.
    pub fn push(
        &mut self,
        alloc: Global,
        back: Entry,
        time: u64,
        levels: u64,
    ) -> Result<Pushed, UndoErr>
        requires some { 1 ≤ levels }
        ensures number { IfOk result (λ change. change.number ≡ self.old.last + 1) }
        ensures parts { OnOk result (self.new ≡ (forgotten levels (pushed (back ∷ []) time self.old)).tree) }
        ensures root { IfOk result (λ change. change.root ≡ promoted_root (forgotten levels (pushed (back ∷ []) time self.old)).root) }
        ensures few { OnOk result (length self.new.nodes ≤ levels) }
        ensures current { OnOk result (self.new.current ≡ self.old.last + 1) }
        ensures last { OnOk result ((self.new.last ≡ self.old.last + 1) × (self.new.last_save ≡ self.old.last_save)) }
        ensures whole { OnOk result (self.old.last < levels → self.new ≡ pushed (back ∷ []) time self.old) }
        ensures room { OnOk result (self.old.last < MAX_NUMBER) }
        ensures err { IfErr result (λ e. ((e ≡ UndoErr.NumbersFull) × (MAX_NUMBER ≤ self.old.last)) ⊎ (e ≡ UndoErr.NoMemory)) }
        ensures err_tree { OnErr result (self.new ≡ self.old) }
        ensures history { OnOk result ((before after : List (List ℕ)) (history : History) → IsHistory self.old before history → Leads back after before
            → IsHistory self.new after (history_forgotten levels (history_pushed after time history))) }

        // A move may follow.
        ensures counts { OnOk result ((before after : ℕ) → FitsCount self.old before → LeadsCount back after before → FitsCount self.new after) }
        ensures texts { OnOk result ((before after : List (List ℕ)) → FitsText self.old before → Leads back after before → FitsText self.new after) }
    {
        let parts = &mut self.parts;
        if parts.last >= MAX_NUMBER {
            return Err(UndoErr::NumbersFull);
        }
        let fork = fork_pushed(parts, self.fork);
        push(alloc, parts, back, time)?;
        self.fork = fork;
        let number = parts.last;
        let root = forget(parts, levels, self.settled, &mut self.fork);
        Ok(Pushed {
            number,
            root: promoted_root(root),
        })
    }

    /// Marks the current state as written, and gives the save number. State 0 gets no mark. It takes no memory.
    pub fn mark_write(&mut self) -> u64
        ensures save { result ≡ next_save self.old }
        ensures parts { self.new ≡ marked self.old }
        ensures history { (text : List (List ℕ)) (history : History) → IsHistory self.old text history →
            IsHistory self.new text (history_marked history) }

        // A move may follow.
        ensures counts { (lines : ℕ) → FitsCount self.old lines → FitsCount self.new lines }
        ensures texts { (text : List (List ℕ)) → FitsText self.old text → FitsText self.new text }
    {
        let parts = &mut self.parts;
        mark(parts)
    }

    /// The changes without children, by rising number (as `:help :undolist`).
    pub fn leaves(&self, alloc: Global) -> Result<Vec<Leaf>, AllocError>
        ensures leaves { IfOk result (λ leaves. AreLeaves self.now.nodes leaves.items) }
        ensures list { IfOk result (λ leaves. leaves.items ≡ leaves_of self.now.nodes) }
    {
        leaves_of(alloc, self.parts.nodes.nodes())
    }

    /// The content of the tree. It takes no memory.
    pub fn parts(&self) -> &Parts
        ensures parts { result.now ≡ self.now }
        ensures sound { IsSound self.now }
    {
        &self.parts
    }

    /// The number of the current state. It takes no memory.
    pub fn current(&self) -> u64
        ensures { result ≡ self.now.current }
    {
        self.parts.current
    }

    /// The number that the last change was given, or 0. It takes no memory.
    pub fn last(&self) -> u64
        ensures { result ≡ self.now.last }
    {
        self.parts.last
    }

    /// Whether a state has this number. It takes no memory.
    pub fn kept(&self, number: u64) -> bool
        ensures { IsTrue result ↔ IsKept self.now.nodes number }
    {
        is_kept(self.parts.nodes.nodes(), number)
    }

    /// Moves to the state with this number, and gives it (`:help :undo`).
    ///
    /// After an `Err` tree and text are as before.
    pub fn goto<S: LineStore>(
        &mut self,
        alloc: Global,
        text: &mut S,
        number: u64,
    ) -> Result<u64, UndoErr>
        requires ready { IsReady S.LineStore self.old text.old }
        ensures goal { IfOk result (λ goal. (goal ≡ number) × IsKept self.old.nodes number) }
        ensures err { IfErr result (IsMoveErr (UndoErr.NotKept number) (¬ (IsKept self.old.nodes number))) }
        ensures moves { IsMove S.LineStore self.old self.new text.old text.new result }
    {
        let parts = &mut self.parts;
        if !is_kept(parts.nodes.nodes(), number) {
            return Err(UndoErr::NotKept(number));
        }
        go_to(alloc, parts, &mut self.settled, text, number)?;
        Ok(number)
    }

    /// Moves to the parent of the current state, and gives its number (`:help undo`).
    ///
    /// After an `Err` tree and text are as before.
    pub fn back<S: LineStore>(&mut self, alloc: Global, text: &mut S) -> Result<u64, UndoErr>
        requires ready { IsReady S.LineStore self.old text.old }
        ensures goal { IfOk result (λ goal. parent_at self.old.nodes self.old.current ≡ Some goal) }
        ensures err { IfErr result (IsMoveErr UndoErr.AtOldest (self.old.current ≡ 0)) }
        ensures moves { IsMove S.LineStore self.old self.new text.old text.new result }
    {
        let parts = &mut self.parts;
        let Some(number) = parent(parts.nodes.nodes(), parts.current) else {
            return Err(UndoErr::AtOldest);
        };
        go_to(alloc, parts, &mut self.settled, text, number)?;
        Ok(number)
    }

    /// Moves to the child last used of the current state, and gives its number (`:help redo`).
    ///
    /// After an `Err` tree and text are as before.
    pub fn forward<S: LineStore>(&mut self, alloc: Global, text: &mut S) -> Result<u64, UndoErr>
        requires ready { IsReady S.LineStore self.old text.old }
        ensures goal { IfOk result (λ goal. (goal ≡ child_of self.old self.old.current) × (goal ≢ 0)) }
        ensures err { IfErr result (IsMoveErr UndoErr.AtNewest (child_of self.old self.old.current ≡ 0)) }
        ensures moves { IsMove S.LineStore self.old self.new text.old text.new result }
    {
        let parts = &mut self.parts;
        let number = last_child(parts, parts.current);
        if number == 0 {
            return Err(UndoErr::AtNewest);
        }
        go_to(alloc, parts, &mut self.settled, text, number)?;
        Ok(number)
    }

    /// Moves to the kept number `by` places below the current one, or to the oldest where there are fewer, and gives it
    /// (`:help :earlier`).
    ///
    /// After an `Err` tree and text are as before.
    pub fn earlier<S: LineStore>(
        &mut self,
        alloc: Global,
        text: &mut S,
        by: u64,
    ) -> Result<u64, UndoErr>
        requires some { 1 ≤ by }
        requires ready { IsReady S.LineStore self.old text.old }
        ensures goal { IfOk result (λ goal. (0 < length (below self.old.nodes self.old.current)) × (goal ≡ nth_below self.old.nodes self.old.current by)) }
        ensures err { IfErr result (IsMoveErr UndoErr.AtOldest (length (below self.old.nodes self.old.current) ≡ 0)) }
        ensures moves { IsMove S.LineStore self.old self.new text.old text.new result }
    {
        let parts = &mut self.parts;
        let Some(number) = earlier_goal(parts.nodes.nodes(), parts.current, by) else {
            return Err(UndoErr::AtOldest);
        };
        go_to(alloc, parts, &mut self.settled, text, number)?;
        Ok(number)
    }

    /// Moves to the kept number `by` places above the current one, or to the last where there are fewer, and gives it
    /// (`:help :later`).
    ///
    /// After an `Err` tree and text are as before.
    pub fn later<S: LineStore>(
        &mut self,
        alloc: Global,
        text: &mut S,
        by: u64,
    ) -> Result<u64, UndoErr>
        requires some { 1 ≤ by }
        requires ready { IsReady S.LineStore self.old text.old }
        ensures goal { IfOk result (λ goal. (0 < length (above self.old.nodes self.old.current)) × (goal ≡ nth_above self.old.nodes self.old.current by)) }
        ensures err { IfErr result (IsMoveErr UndoErr.AtNewest (length (above self.old.nodes self.old.current) ≡ 0)) }
        ensures moves { IsMove S.LineStore self.old self.new text.old text.new result }
    {
        let parts = &mut self.parts;
        let Some(number) = later_goal(parts.nodes.nodes(), parts.current, by) else {
            return Err(UndoErr::AtNewest);
        };
        go_to(alloc, parts, &mut self.settled, text, number)?;
        Ok(number)
    }

    /// Moves back by `by` writes, or to the oldest state where there are fewer, and gives the number of the state reached
    /// (`:help :earlier`, the form with `f`).
    ///
    /// After an `Err` tree and text are as before.
    pub fn earlier_writes<S: LineStore>(
        &mut self,
        alloc: Global,
        text: &mut S,
        by: u64,
    ) -> Result<u64, UndoErr>
        requires some { 1 ≤ by }
        requires ready { IsReady S.LineStore self.old text.old }
        ensures goal { IfOk result (IsEarlierWrite self.old by) }
        ensures err { IfErr result (IsMoveErr UndoErr.AtOldest (IsAtOldestWrite self.old by)) }
        ensures moves { IsMove S.LineStore self.old self.new text.old text.new result }
    {
        let parts = &mut self.parts;
        let way = way_of(alloc, parts.nodes.nodes(), parts.current)?;
        let saves = saves_of(alloc, parts.nodes.nodes())?;
        let Some(number) = earlier_write(parts.nodes.nodes(), &saves, &way, by) else {
            return Err(UndoErr::AtOldest);
        };
        go_to(alloc, parts, &mut self.settled, text, number)?;
        Ok(number)
    }

    /// Moves on by `by` writes, or to the last number kept where there are fewer, and gives the number of the state reached
    /// (`:help :later`, the form with `f`).
    ///
    /// After an `Err` tree and text are as before.
    pub fn later_writes<S: LineStore>(
        &mut self,
        alloc: Global,
        text: &mut S,
        by: u64,
    ) -> Result<u64, UndoErr>
        requires some { 1 ≤ by }
        requires ready { IsReady S.LineStore self.old text.old }
        ensures goal { IfOk result (IsLaterWrite self.old by) }
        ensures err { IfErr result (IsMoveErr UndoErr.AtNewest (IsAtNewestWrite self.old by)) }
        ensures moves { IsMove S.LineStore self.old self.new text.old text.new result }
    {
        let parts = &mut self.parts;
        let way = way_of(alloc, parts.nodes.nodes(), parts.current)?;
        let saves = saves_of(alloc, parts.nodes.nodes())?;
        let Some(number) = later_write(parts.nodes.nodes(), &saves, &way, by) else {
            return Err(UndoErr::AtNewest);
        };
        go_to(alloc, parts, &mut self.settled, text, number)?;
        Ok(number)
    }
}
