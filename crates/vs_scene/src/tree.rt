// The texts of a run, as a tree: each state has a number, the one that it was made from, its lines, and the number of the write at it.
use crate::lines::file_of;
use std::alloc::{AllocError, Global};

#[derive(Drop)]
struct State {
    parent: usize,
    lines: Vec<String>,
    // 0 for none
    save: u64,
}

#[derive(Drop)]
pub struct Tree {
    alloc: Global,
    // by number, of which 0 is that of the text that was opened
    states: Vec<State>,
    current: usize,
    saves: u64,
}

impl Tree {
    /// The tree of a text that was opened.
    pub fn new(alloc: Global, lines: Vec<String>) -> Result<Tree, AllocError> {
        let mut states = Vec::new(alloc);
        states.push(State {
            parent: 0,
            lines,
            save: 0,
        })?;
        Ok(Tree {
            alloc,
            states,
            current: 0,
            saves: 0,
        })
    }

    /// The lines of the current state.
    pub fn lines(&self) -> &[String] {
        match self.states.get(self.current) {
            Some(state) => &state.lines,
            None => &[],
        }
    }

    /// The current text, as a file has it.
    pub fn file(&self) -> Result<Vec<u8>, AllocError> {
        file_of(self.alloc, self.lines())
    }

    /// The number of the next change.
    pub fn next(&self) -> usize {
        self.states.len()
    }

    /// A change makes these lines.
    pub fn push(&mut self, lines: Vec<String>) -> Result<(), AllocError> {
        let number = self.states.len();
        self.states.push(State {
            parent: self.current,
            lines,
            save: 0,
        })?;
        self.current = number;
        Ok(())
    }

    /// The state of this number is the current one.
    pub fn go(&mut self, number: usize) {
        self.current = number;
    }

    /// The current text is written.
    pub fn mark_write(&mut self) {
        self.saves = self.saves.saturating_add(1);
        let save = self.saves;
        if self.current == 0 {
            return;
        }
        if let Some(state) = self.states.get_mut(self.current) {
            state.save = save;
        }
    }

    fn is_leaf(&self, number: usize) -> bool {
        self.states
            .iter()
            .skip(1)
            .all(|state| state.parent != number)
    }

    /// How many changes have no change after them.
    pub fn leaves(&self) -> usize {
        (1..self.states.len())
            .filter(|number| self.is_leaf(*number))
            .count()
    }

    fn parent(&self, number: usize) -> usize {
        match self.states.get(number) {
            Some(state) => state.parent,
            None => 0,
        }
    }

    // How many changes lead to a state.
    fn depth(&self, number: usize) -> usize {
        let mut depth = 0usize;
        let mut at = number;
        for _ in 0..self.states.len() {
            if at != 0 {
                depth = depth.saturating_add(1);
                at = self.parent(at);
            }
        }
        depth
    }

    fn add_leaf(&self, number: usize, state: &State, into: &mut String) -> Result<(), AllocError> {
        let depth = self.depth(number);
        if state.save == 0 {
            return writeln!(into, "{number:>6}{depth:>8}     -");
        }
        let save = state.save;
        writeln!(into, "{number:>6}{depth:>8}{save:>6}")
    }

    /// Adds what `undolist` answers.
    pub fn add_list(&self, into: &mut String) -> Result<(), AllocError> {
        if self.states.len() == 1 {
            return into.push_str("Nothing to undo\n");
        }
        into.push_str("number changes saved\n")?;
        for (number, state) in self.states.iter().enumerate() {
            if number != 0 && self.is_leaf(number) {
                self.add_leaf(number, state, into)?;
            }
        }
        Ok(())
    }

    fn add_text(&self, number: usize, state: &State, into: &mut String) -> Result<(), AllocError> {
        let count = state.lines.len();
        writeln!(into, "at {number}, {count} lines")?;
        if state.lines.is_empty() {
            return into.push_str("E16: Invalid range\n");
        }
        for line in &state.lines {
            into.push_str(line.as_str())?;
            into.push_str("\n")?;
        }
        Ok(())
    }

    /// Adds what `undo N` and `%p` answer for each state.
    pub fn add_texts(&self, into: &mut String) -> Result<(), AllocError> {
        for (number, state) in self.states.iter().enumerate() {
            self.add_text(number, state, into)?;
        }
        Ok(())
    }

    /// The number of the current state.
    pub fn current(&self) -> usize {
        self.current
    }
}
