// What an undo file has, asked of the program: it reads the file beside its text, lists the changes, and goes to each state.
use crate::given::{File, Given, UNHINDERED, run_over, words_of};
use std::alloc::{AllocError, Global};
use vs_scene::{PlayErr, Tree};

/// A text, a script that asks for a history at it, and what is answered.
#[derive(Drop)]
pub struct Probe {
    text: Vec<u8>,
    script: String,
    answer: String,
    // Undo files that had the history.
    known: Vec<Vec<u8>>,
}

fn script_of(alloc: Global, states: usize) -> Result<String, AllocError> {
    let mut script = String::new(alloc);
    script.push_str("rundo\nundolist\n")?;
    for number in 0..states {
        write!(script, "undo {number}\n%p\n")?;
    }
    script.push_str("q!\n")?;
    Ok(script)
}

fn answer_of(alloc: Global, tree: &Tree, size: usize) -> Result<String, AllocError> {
    let count = tree.lines().len();
    let current = tree.current();
    let changes = tree.next().saturating_sub(1);
    let mut answer = format!(in alloc; "\"f\" {count}L, {size}B\n")?;
    writeln!(answer, "undo file read, at {current}, {changes} changes")?;
    tree.add_list(&mut answer)?;
    tree.add_texts(&mut answer)?;
    answer.push_str("quit\n")?;
    Ok(answer)
}

fn file(alloc: Global, name: &str, bytes: &[u8]) -> Result<File, AllocError> {
    Ok(File {
        name: String::from_str(alloc, name)?,
        bytes: Vec::from_slice(alloc, bytes)?,
    })
}

impl Probe {
    /// The probe of a history at its current text.
    pub(crate) fn of(alloc: Global, tree: &Tree) -> Result<Probe, AllocError> {
        let text = tree.file()?;
        let answer = answer_of(alloc, tree, text.len())?;
        Ok(Probe {
            text,
            script: script_of(alloc, tree.next())?,
            answer,
            known: Vec::new(alloc),
        })
    }

    fn given_with(&self, alloc: Global, undo: &[u8]) -> Result<Given, AllocError> {
        let mut given = Given::new(alloc);
        given.script = Vec::from_slice(alloc, self.script.as_bytes())?;
        given.files.push(file(alloc, "f", &self.text)?)?;
        given.files.push(file(alloc, ".f.un~", undo)?)?;
        Ok(given)
    }

    /// Whether an undo file has the history.
    pub(crate) fn fits(&mut self, alloc: Global, undo: &[u8]) -> Result<bool, PlayErr> {
        if self.known.iter().any(|it| it.as_slice() == undo) {
            return Ok(true);
        }
        let given = self.given_with(alloc, undo)?;
        let ran = run_over(alloc, &given, UNHINDERED, &words_of(alloc, "edit f")?)?;
        if ran.host.output() != self.answer.as_bytes() {
            return Ok(false);
        }
        self.known.push(Vec::from_slice(alloc, undo)?)?;
        Ok(true)
    }
}
