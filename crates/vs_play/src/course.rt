// What a run may leave, by its script, its replies and its marks: for each reply, the texts of which one is recovered from there to
// the next, and what the command after it does to the files.
use crate::probes::Probe;
use std::alloc::{AllocError, Global};
use vs_machine::{Mark, Outcome};
use vs_scene::{Command, PlayErr, Tree, changed, commands_of, lines_of, range_of};

/// A write of the file.
#[derive(Drop)]
pub struct Writing {
    /// What is written.
    pub new: Vec<u8>,
    /// Whether its backup is kept.
    pub is_kept: bool,
    /// Whether it has a backup.
    pub is_backed: bool,
    /// Whether the file is copied to its backup, and not renamed.
    pub is_copied: bool,
    /// How it ended, where it did.
    pub outcome: Option<Outcome>,
}

impl Writing {
    /// Whether the file was written.
    pub fn is_done(&self) -> bool {
        matches!(self.outcome, Some(Outcome::Done | Outcome::NoUndo))
    }
}

/// What is between one reply and the next.
pub struct Stage {
    /// The length of the output with the first of them.
    pub end: usize,
    /// The texts of which one is recovered, as files.
    pub texts: Vec<Vec<u8>>,
    /// Whether there may be no swap file.
    pub may_be_none: bool,
    pub writing: Option<Writing>,
    /// The history that is stored.
    pub storing: Option<Probe>,
    /// Whether the undo file is stored.
    pub is_stored: bool,
}

// A value with much in it is dropped by a call.
impl Drop for Stage {
    fn drop(self) {
        let Stage {
            end: _,
            texts: _,
            may_be_none: _,
            writing: _,
            storing: _,
            is_stored: _,
        } = self;
    }
}

// The options that say what a write does.
#[derive(Clone, Copy, Drop)]
struct Options {
    backup: bool,
    writebackup: bool,
    copies: bool,
    undofile: bool,
}

impl Options {
    fn set(&mut self, option: &str) {
        match option {
            "bk" | "backup" => self.backup = true,
            "nobk" | "nobackup" => self.backup = false,
            "wb" | "writebackup" => self.writebackup = true,
            "nowb" | "nowritebackup" => self.writebackup = false,
            "bkc=yes" | "backupcopy=yes" => self.copies = true,
            "bkc=no" | "backupcopy=no" | "bkc=auto" | "backupcopy=auto" => self.copies = false,
            "udf" | "undofile" => self.undofile = true,
            "noudf" | "noundofile" => self.undofile = false,
            _ => {}
        }
    }
}

// A walk over a run.
struct Walk<'a> {
    alloc: Global,
    tree: Tree,
    options: Options,
    // The text of the last acknowledged sync, and those of the syncs begun since then.
    synced: Vec<Vec<u8>>,
    // What is left of the output, and the length of what was taken.
    rest: &'a str,
    taken: usize,
}

// A value with much in it is dropped by a call.
impl<'a> Drop for Walk<'a> {
    fn drop(self) {
        let Walk {
            alloc: _,
            tree: _,
            options: _,
            synced: _,
            rest: _,
            taken: _,
        } = self;
    }
}

// The reply to a write that does not write.
const NO_NAME: &str = "no free backup name";

// The number that a reply begins with after these words.
fn number_after(reply: &str, words: &str) -> Option<usize> {
    let (number, _) = reply.strip_prefix(words)?.split_once(',')?;
    number.parse().ok()
}

fn copies(alloc: Global, texts: &[Vec<u8>]) -> Result<Vec<Vec<u8>>, AllocError> {
    let mut list = Vec::new(alloc);
    for text in texts {
        list.push(text.clone()?)?;
    }
    Ok(list)
}

fn is_fault(mark: Option<&Mark>) -> bool {
    match mark {
        Some(mark) => matches!(mark.outcome, Outcome::Fault | Outcome::NoMemory),
        None => false,
    }
}

impl<'a> Walk<'a> {
    fn new(alloc: Global, opened: Vec<String>, output: &'a str) -> Result<Walk<'a>, AllocError> {
        let tree = Tree::new(alloc, opened)?;
        let mut synced = Vec::new(alloc);
        synced.push(tree.file()?)?;
        Ok(Walk {
            alloc,
            tree,
            options: Options {
                backup: false,
                writebackup: true,
                copies: false,
                undofile: false,
            },
            synced,
            rest: output,
            taken: 0,
        })
    }

    // Takes the next line of the output. It is empty at the end.
    fn take_line(&mut self) -> &'a str {
        let Some((line, rest)) = self.rest.split_once('\n') else {
            return "";
        };
        self.rest = rest;
        self.taken = self.taken.saturating_add(line.len()).saturating_add(1);
        line
    }

    // How many lines there are in the reply to a command that was carried out.
    fn lines_in_reply(&self, command: &Command<'_>) -> usize {
        let parts = command.parts();
        let count = self.tree.lines().len();
        match parts.word {
            "undolist" | "undol" => self.tree.leaves().saturating_add(1),
            "p" | "print" | "nu" | "number" => match range_of(parts.address, count) {
                Some(range)
                    if 1 <= range.first && range.first <= range.last && range.last <= count => {
                    (range.last - range.first).saturating_add(1)
                }
                _ => 1,
            },
            _ => 1,
        }
    }

    // Takes the reply to a command, and answers its first line.
    fn take_reply(&mut self, command: &Command<'_>, mark: Option<&Mark>) -> &'a str {
        let count = if is_fault(mark) {
            1
        } else {
            self.lines_in_reply(command)
        };
        let first = self.take_line();
        for _ in 1..count {
            let _ = self.take_line();
        }
        first
    }

    // The stage from here on, in which no command does anything.
    fn idle(&self) -> Result<Stage, AllocError> {
        Ok(Stage {
            end: self.taken,
            texts: copies(self.alloc, self.synced.as_slice())?,
            may_be_none: false,
            writing: None,
            storing: None,
            is_stored: false,
        })
    }

    fn writing(&self, mark: Option<&Mark>) -> Result<Writing, AllocError> {
        Ok(Writing {
            new: self.tree.file()?,
            is_kept: self.options.backup,
            is_backed: self.options.backup || self.options.writebackup,
            is_copied: self.options.copies,
            outcome: mark.map(|mark| mark.outcome),
        })
    }

    // The stage in which a command is carried out.
    fn stage(&mut self, command: &Command<'_>, mark: Option<&Mark>) -> Result<Stage, AllocError> {
        let word = command.parts().word;
        let is_write = word == "w" || word == "write";
        let mut stage = self.idle()?;
        if is_write || word == "pre" || word == "preserve" {
            stage.texts.push(self.tree.file()?)?;
        }
        let writes = is_write && self.rest.strip_prefix(NO_NAME).is_none();
        if writes {
            stage.writing = Some(self.writing(mark)?);
            if !is_fault(mark) {
                self.tree.mark_write();
            }
        }
        if word == "wundo" || writes && self.options.undofile {
            stage.storing = Some(Probe::of(self.alloc, &self.tree)?);
            stage.is_stored = matches!(mark.map(|it| it.outcome), Some(Outcome::Done));
        }
        stage.may_be_none = mark.is_none() && word == "q";
        Ok(stage)
    }

    // The text before a command was synced by it.
    fn note_sync(&mut self, command: &Command<'_>, mark: &Mark) -> Result<(), AllocError> {
        if !matches!(command.parts().word, "w" | "write" | "pre" | "preserve") {
            return Ok(());
        }
        if matches!(mark.outcome, Outcome::Done | Outcome::NoUndo) {
            self.synced.clear();
        }
        self.synced.push(self.tree.file()?)?;
        Ok(())
    }

    // What a command that was carried out did to text and options, by the first line of its reply.
    fn note_reply(&mut self, command: &Command<'_>, reply: &str) -> Result<(), PlayErr> {
        let parts = command.parts();
        if let Some(number) = number_after(reply, "change ") {
            if number != self.tree.next() {
                return Err(PlayErr::NoAnswer);
            }
            let lines = changed(self.alloc, self.tree.lines(), command)?;
            self.tree.push(lines)?;
        }
        if let Some(number) = number_after(reply, "at ") {
            self.tree.go(number);
        }
        if parts.word == "set" || parts.word == "se" {
            self.options.set(parts.argument);
        }
        Ok(())
    }

    // A command of the script, as far as the output has its reply. Answers whether it has.
    fn pass(
        &mut self,
        command: &Command<'_>,
        mark: Option<&Mark>,
        stages: &mut Vec<Stage>,
    ) -> Result<bool, PlayErr> {
        let stage = self.stage(command, mark)?;
        stages.push(stage)?;
        let Some(mark) = mark else {
            return Ok(false);
        };
        if self.rest.is_empty() {
            return Ok(false);
        }
        let reply = self.take_reply(command, Some(mark));
        self.note_sync(command, mark)?;
        self.note_reply(command, reply)?;
        Ok(true)
    }

    // What is left when the script has ended: a last sync, or a quit.
    fn close(&mut self, stages: &mut Vec<Stage>) -> Result<(), AllocError> {
        match self.take_line() {
            "quit" => {
                self.synced.clear();
                let mut stage = self.idle()?;
                stage.may_be_none = true;
                stages.push(stage)?;
            }
            "File preserved" => {
                self.synced.clear();
                self.synced.push(self.tree.file()?)?;
                stages.push(self.idle()?)?;
            }
            _ => {}
        }
        Ok(())
    }

    // The last sync.
    fn last_sync(&mut self, stages: &mut Vec<Stage>) -> Result<(), AllocError> {
        let mut stage = self.idle()?;
        stage.texts.push(self.tree.file()?)?;
        stages.push(stage)?;
        Ok(())
    }

    // The commands, one after the other.
    fn pass_all(
        &mut self,
        commands: &[Command<'_>],
        marks: &[Mark],
        stages: &mut Vec<Stage>,
    ) -> Result<bool, PlayErr> {
        for (at, command) in commands.iter().enumerate() {
            if !self.pass(command, marks.get(at), stages)? {
                return Ok(false);
            }
        }
        Ok(true)
    }
}

// The lines of the text that is opened.
fn opened_lines(alloc: Global, file: &[u8]) -> Result<Vec<String>, PlayErr> {
    match str::from_utf8(file) {
        Ok(text) => Ok(lines_of(alloc, text)?),
        Err(_) => Err(PlayErr::NoAnswer),
    }
}

fn text_in(bytes: &[u8]) -> Result<&str, PlayErr> {
    str::from_utf8(bytes).map_err(|_| PlayErr::NoAnswer)
}

/// The stages of a run over a file, where nothing was recovered before.
pub(crate) fn course_of(
    alloc: Global,
    file: &[u8],
    script: &[u8],
    output: &[u8],
    marks: &[Mark],
) -> Result<Vec<Stage>, PlayErr> {
    let commands = commands_of(alloc, text_in(script)?)?;
    let mut stages = Vec::new(alloc);
    let mut walk = Walk::new(alloc, opened_lines(alloc, file)?, text_in(output)?)?;
    let mut opening = walk.idle()?;
    opening.may_be_none = true;
    stages.push(opening)?;
    if walk.take_line().is_empty() {
        return Ok(stages);
    }
    if walk.pass_all(&commands, marks, &mut stages)? {
        walk.last_sync(&mut stages)?;
    }
    walk.close(&mut stages)?;
    Ok(stages)
}
