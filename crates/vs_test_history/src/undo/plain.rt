// A tree that keeps the whole text of each state.
use super::Step;
use std::alloc::{AllocError, Global};
use vs_undo::{Leaf, UndoErr};

// A state with its whole text, one byte for each line.
#[derive(Drop)]
struct State {
    parent: u64,
    child: u64,
    save: u64,
    kept: bool,
    text: Vec<u8>,
}

/// All states by the numbers that they were given, the oldest one that is kept under 0.
#[derive(Drop)]
pub(super) struct Plain {
    states: Vec<State>,
    pub(super) current: u64,
    saves: u64,
    levels: u64,
}

impl Plain {
    /// The tree of one state, which is the text without lines.
    pub(super) fn new(alloc: Global) -> Result<Plain, AllocError> {
        let mut states = Vec::new(alloc);
        states.push(State {
            parent: 0,
            child: 0,
            save: 0,
            kept: true,
            text: Vec::new(alloc),
        })?;
        Ok(Plain {
            states,
            current: 0,
            saves: 0,
            levels: 1_000,
        })
    }

    /// The number that was given last.
    pub(super) fn last(&self) -> u64 {
        (self.states.len() as u64).saturating_sub(1)
    }

    fn parent(&self, number: u64) -> u64 {
        self.states.get(number as usize).map_or(0, |s| s.parent)
    }

    fn child(&self, number: u64) -> u64 {
        self.states.get(number as usize).map_or(0, |s| s.child)
    }

    fn save(&self, number: u64) -> u64 {
        self.states.get(number as usize).map_or(0, |s| s.save)
    }

    fn is_kept(&self, number: u64) -> bool {
        self.states.get(number as usize).is_some_and(|s| s.kept)
    }

    fn set_child(&mut self, parent: u64, child: u64) {
        if let Some(state) = self.states.get_mut(parent as usize) {
            state.child = child;
        }
    }

    fn goto(&mut self, number: u64) {
        let mut at = number;
        for _ in 0..self.states.len() {
            if at == 0 {
                break;
            }
            let parent = self.parent(at);
            self.set_child(parent, at);
            at = parent;
        }
        self.current = number;
    }

    // The greatest save number on the way to the root, unless the state has its own.
    fn belongs(&self, number: u64) -> u64 {
        let mut best = self.save(number);
        if best != 0 {
            return best;
        }
        let mut at = number;
        for _ in 0..self.states.len() {
            best = best.max(self.save(at));
            at = self.parent(at);
        }
        best
    }

    // The state with this save number, where there is one.
    fn saver(&self, save: u64) -> Option<u64> {
        for number in 1..self.states.len() as u64 {
            if self.save(number) == save {
                return Some(number);
            }
        }
        None
    }

    fn earlier_writes(&self, by: u64) -> Option<u64> {
        let own = self.save(self.current);
        let greatest = if own == 0 {
            self.belongs(self.current)
        } else {
            own.saturating_sub(1)
        };
        let mut left = by;
        for passed in 0..greatest {
            if let Some(number) = self.saver(greatest - passed) {
                left = left.saturating_sub(1);
                if left == 0 {
                    return Some(number);
                }
            }
        }
        if self.current == 0 { None } else { Some(0) }
    }

    fn later_writes(&self, by: u64) -> Option<u64> {
        let mut left = by;
        for save in self.belongs(self.current).saturating_add(1)..self.saves.saturating_add(1) {
            if let Some(number) = self.saver(save) {
                left = left.saturating_sub(1);
                if left == 0 {
                    return Some(number);
                }
            }
        }
        if self.current == self.last() {
            None
        } else {
            Some(self.last())
        }
    }

    // Whether the way from a state to the oldest one passes this change.
    fn passes(&self, number: u64, change: u64) -> bool {
        let mut at = number;
        for _ in 0..self.states.len() {
            if at == change {
                return true;
            }
            at = self.parent(at);
        }
        false
    }

    // The child of the oldest state on the way of the current one.
    fn top(&self) -> u64 {
        let mut at = self.current;
        for _ in 0..self.states.len() {
            if self.parent(at) == 0 {
                break;
            }
            at = self.parent(at);
        }
        at
    }

    fn lose(&mut self, number: u64) {
        if let Some(state) = self.states.get_mut(number as usize) {
            state.kept = false;
            state.save = 0;
        }
    }

    // Loses the states after the oldest one that do not come after this child of it, and tells whether there were some.
    fn lose_beside(&mut self, child: u64) -> bool {
        let mut some = false;
        for number in 1..self.states.len() as u64 {
            if self.is_kept(number) && !self.passes(number, child) {
                self.lose(number);
                some = true;
            }
        }
        self.set_child(0, child);
        some
    }

    // Makes a child of the oldest state the oldest.
    fn raise(&mut self, child: u64) {
        if child as usize >= self.states.len() {
            return;
        }
        self.states.swap(0, child as usize);
        self.lose(child);
        for state in self.states.iter_mut() {
            if state.parent == child {
                state.parent = 0;
            }
        }
        if let Some(oldest) = self.states.first_mut() {
            oldest.parent = 0;
            oldest.save = 0;
        }
    }

    fn forget(&mut self) {
        for _ in 0..self.states.len() {
            let kept = self.states.iter().skip(1).filter(|s| s.kept).count();
            if kept as u64 <= self.levels {
                break;
            }
            let top = self.top();
            if !self.lose_beside(top) {
                self.raise(top);
            }
        }
    }

    fn change(
        &mut self,
        alloc: Global,
        top: u64,
        old: u64,
        count: u64,
        byte: u8,
    ) -> Result<u64, AllocError> {
        let mut text = Vec::new(alloc);
        if let Some(state) = self.states.get(self.current as usize) {
            let lines = state.text.iter().copied();
            text.extend(lines.take(top as usize))?;
            for _ in 0..count {
                text.push(byte)?;
            }
            text.extend(
                state
                    .text
                    .iter()
                    .copied()
                    .skip(top.saturating_add(old) as usize),
            )?;
        }
        let parent = self.current;
        self.states.push(State {
            parent,
            child: 0,
            save: 0,
            kept: true,
            text,
        })?;
        self.current = self.last();
        self.set_child(parent, self.current);
        self.forget();
        Ok(self.current)
    }

    fn write(&mut self) -> u64 {
        self.saves = self.saves.saturating_add(1);
        if self.current != 0
            && let Some(state) = self.states.get_mut(self.current as usize)
        {
            state.save = self.saves;
        }
        self.saves
    }

    // The kept number so many places below the current one, or 0.
    fn earlier(&self, by: u64) -> u64 {
        let mut left = by;
        for passed in 0..self.current {
            let number = self.current.saturating_sub(passed).saturating_sub(1);
            if self.is_kept(number) {
                left = left.saturating_sub(1);
                if left == 0 {
                    return number;
                }
            }
        }
        0
    }

    // The kept number so many places above the current one, or the last.
    fn later(&self, by: u64) -> u64 {
        let mut left = by;
        for number in self.current.saturating_add(1)..self.states.len() as u64 {
            if self.is_kept(number) {
                left = left.saturating_sub(1);
                if left == 0 {
                    return number;
                }
            }
        }
        self.last()
    }

    // Where a step that moves goes.
    fn goal(&self, step: Step) -> Result<u64, UndoErr> {
        let (goal, refusal) = match step {
            Step::Undo => (
                if self.current == 0 {
                    None
                } else {
                    Some(self.parent(self.current))
                },
                UndoErr::AtOldest,
            ),
            Step::Redo => {
                let child = self.child(self.current);
                (
                    if child == 0 { None } else { Some(child) },
                    UndoErr::AtNewest,
                )
            }
            Step::Goto(number) => (
                if self.is_kept(number) {
                    Some(number)
                } else {
                    None
                },
                UndoErr::NotKept(number),
            ),
            Step::Earlier(by) => (
                if self.current == 0 {
                    None
                } else {
                    Some(self.earlier(by))
                },
                UndoErr::AtOldest,
            ),
            Step::Later(by) => (
                if self.current == self.last() {
                    None
                } else {
                    Some(self.later(by))
                },
                UndoErr::AtNewest,
            ),
            Step::EarlierWrites(by) => (self.earlier_writes(by), UndoErr::AtOldest),
            Step::LaterWrites(by) => (self.later_writes(by), UndoErr::AtNewest),
            Step::Change(..) | Step::Write | Step::Levels(_) => (None, UndoErr::NoMemory),
        };
        goal.ok_or(refusal)
    }

    /// Takes a step.
    pub(super) fn take(&mut self, alloc: Global, step: Step) -> Result<u64, UndoErr> {
        match step {
            Step::Change(top, old, count, byte) => Ok(self.change(alloc, top, old, count, byte)?),
            Step::Write => Ok(self.write()),
            Step::Levels(levels) => {
                self.levels = levels;
                Ok(levels)
            }
            _ => {
                let goal = self.goal(step)?;
                self.goto(goal);
                Ok(goal)
            }
        }
    }

    /// The text of the current state as a file.
    pub(super) fn file(&self, alloc: Global) -> Result<Vec<u8>, AllocError> {
        let mut file = Vec::new(alloc);
        if let Some(state) = self.states.get(self.current as usize) {
            for byte in &state.text {
                file.push(if *byte == b'\n' { 0 } else { *byte })?;
                file.push(b'\n')?;
            }
        }
        Ok(file)
    }

    fn depth(&self, number: u64) -> u64 {
        let mut at = number;
        for depth in 0..self.states.len() as u64 {
            if at == 0 {
                return depth;
            }
            at = self.parent(at);
        }
        0
    }

    /// The changes without children.
    pub(super) fn leaves(&self, alloc: Global) -> Result<Vec<Leaf>, AllocError> {
        let mut leaves = Vec::new(alloc);
        for number in 1..self.states.len() as u64 {
            let mut others = self.states.iter().skip(1);
            if self.is_kept(number) && !others.any(|s| s.kept && s.parent == number) {
                leaves.push(Leaf {
                    number,
                    changes: self.depth(number),
                    save: self.save(number),
                })?;
            }
        }
        Ok(leaves)
    }
}
