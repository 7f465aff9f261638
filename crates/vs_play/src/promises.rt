// What the files of a run may hold at a moment, by the stages up to there.
use crate::course::{Stage, Writing};
use crate::given::File;
use crate::probes::Probe;
use std::alloc::{AllocError, Global};
use vs_memory::MemHost;
use vs_scene::PlayErr;

// The file that is edited, its undo file, and the name that its backup gets first.
const FILE: &str = "f";

const UNDO: &str = ".f.un~";

const BACKUP: &str = "f~";
// The name under which a copy is made.
const COPY: &str = "f~.vsnew";

// A write that is under way.
#[derive(Drop)]
struct Rewriting {
    old: Vec<u8>,
    new: Vec<u8>,
    backup: String,
}

/// What the files may hold.
pub struct Promises {
    alloc: Global,
    // The file, or one of its backups, has one of these.
    names: Vec<String>,
    contents: Vec<Vec<u8>>,
    // Or there is no file, or nothing is promised of it.
    may_be_none: bool,
    may_be_torn: bool,
    rewriting: Option<Rewriting>,
    // Whether a write with a backup has begun, and what a backup that is kept may have, where one is.
    is_backed: bool,
    kept: Vec<Option<Vec<u8>>>,
    // What the undo file has, or a later one.
    undo: Option<Vec<u8>>,
    probes: Vec<Probe>,
    // The files that no command works on.
    others: Vec<File>,
}

// A value with much in it is dropped by a call.
impl Drop for Promises {
    fn drop(self) {
        let Promises {
            alloc: _,
            names: _,
            contents: _,
            may_be_none: _,
            may_be_torn: _,
            rewriting: _,
            is_backed: _,
            kept: _,
            undo: _,
            probes: _,
            others: _,
        } = self;
    }
}

fn copy_of(alloc: Global, host: &MemHost, name: &str) -> Result<Option<Vec<u8>>, AllocError> {
    match host.file(name) {
        Some(bytes) => Ok(Some(Vec::from_slice(alloc, bytes)?)),
        None => Ok(None),
    }
}

// The first name that a backup which replaces none may get.
fn free_name(alloc: Global, host: &MemHost) -> Result<String, AllocError> {
    if host.file(BACKUP).is_none() {
        return String::from_str(alloc, BACKUP);
    }
    for letter in (b'a'..=b'z').rev() {
        let letter = char::from(letter);
        let name = format!(in alloc; "{letter}~")?;
        if host.file(name.as_str()).is_none() {
            return Ok(name);
        }
    }
    String::from_str(alloc, BACKUP)
}

fn is_other(file: &File) -> bool {
    !matches!(file.name.as_str(), FILE | UNDO)
}

fn others_of(alloc: Global, files: &[File]) -> Result<Vec<File>, AllocError> {
    let mut others = Vec::new(alloc);
    for file in files.iter().filter(|file| is_other(file)) {
        others.push(File {
            name: file.name.clone()?,
            bytes: file.bytes.clone()?,
        })?;
    }
    Ok(others)
}

fn has(host: &MemHost, name: &str, bytes: &[u8]) -> bool {
    host.file(name) == Some(bytes)
}

impl Promises {
    /// Those of a folder with these files, before a command was carried out.
    pub(crate) fn new(
        alloc: Global,
        files: &[File],
        host: &MemHost,
    ) -> Result<Promises, AllocError> {
        let mut promises = Promises {
            alloc,
            names: Vec::new(alloc),
            contents: Vec::new(alloc),
            may_be_none: true,
            may_be_torn: false,
            rewriting: None,
            is_backed: false,
            kept: Vec::new(alloc),
            undo: copy_of(alloc, host, UNDO)?,
            probes: Vec::new(alloc),
            others: others_of(alloc, files)?,
        };
        promises.settle(copy_of(alloc, host, FILE)?)?;
        Ok(promises)
    }

    // The file has these bytes, or there is none.
    fn settle(&mut self, bytes: Option<Vec<u8>>) -> Result<(), AllocError> {
        self.names.clear();
        self.names.push(String::from_str(self.alloc, FILE)?)?;
        self.contents.clear();
        self.may_be_torn = false;
        self.may_be_none = bytes.is_none();
        if let Some(bytes) = bytes {
            self.contents.push(bytes)?;
        }
        Ok(())
    }

    fn backup_name(&self, writing: &Writing, host: &MemHost) -> Result<String, AllocError> {
        if writing.is_kept {
            return String::from_str(self.alloc, BACKUP);
        }
        free_name(self.alloc, host)
    }

    // A write of a file that is there begins.
    fn rewrite(
        &mut self,
        writing: &Writing,
        old: Vec<u8>,
        host: &MemHost,
    ) -> Result<(), AllocError> {
        if !writing.is_backed {
            self.may_be_torn = true;
            return Ok(());
        }
        let backup = self.backup_name(writing, host)?;
        self.is_backed = true;
        if writing.is_kept {
            self.others.retain(|file| file.name.as_str() != BACKUP);
            self.kept.clear();
            self.kept.push(copy_of(self.alloc, host, BACKUP)?)?;
            self.kept.push(Some(old.clone()?))?;
            if !writing.is_copied && !writing.is_done() {
                // A file that was renamed to its backup is renamed back.
                self.kept.push(None)?;
            }
        }
        self.names.push(backup.clone()?)?;
        self.contents.push(old.clone()?)?;
        let new = writing.new.clone()?;
        self.rewriting = Some(Rewriting { old, new, backup });
        Ok(())
    }

    fn begin_write(&mut self, writing: &Writing, host: &MemHost) -> Result<(), AllocError> {
        self.contents.push(writing.new.clone()?)?;
        match copy_of(self.alloc, host, FILE)? {
            Some(old) => self.rewrite(writing, old, host),
            None => {
                self.may_be_none = true;
                Ok(())
            }
        }
    }

    /// A stage begins, with the folder as it is read.
    pub(crate) fn begin(&mut self, stage: &mut Stage, host: &MemHost) -> Result<(), AllocError> {
        if let Some(writing) = &stage.writing {
            self.begin_write(writing, host)?;
        }
        if let Some(probe) = stage.storing.take() {
            self.probes.push(probe)?;
        }
        Ok(())
    }

    fn end_write(&mut self, writing: &Writing) -> Result<(), AllocError> {
        let rewriting = self.rewriting.take();
        if !writing.is_done() {
            // One call at most fails of a run, so putting back did not.
            return match rewriting {
                Some(rewriting) => self.settle(Some(rewriting.old.clone()?)),
                None => Ok(()),
            };
        }
        if let Some(rewriting) = rewriting {
            if writing.is_kept {
                self.kept.clear();
                self.kept.push(Some(rewriting.old.clone()?))?;
            }
        }
        self.settle(Some(writing.new.clone()?))
    }

    /// A stage has ended, with the folder as it is read.
    pub(crate) fn end(&mut self, stage: &Stage, host: &MemHost) -> Result<(), PlayErr> {
        if let Some(writing) = &stage.writing {
            self.end_write(writing)?;
        }
        if stage.is_stored {
            let undo = copy_of(self.alloc, host, UNDO)?;
            if !self.is_later(undo.as_ref())? {
                return Err(PlayErr::NoAnswer);
            }
            self.undo = undo;
            self.probes.clear();
        }
        Ok(())
    }

    // Whether an undo file has a history that is stored since the last one was.
    fn is_later(&mut self, undo: Option<&Vec<u8>>) -> Result<bool, PlayErr> {
        let Some(undo) = undo else {
            return Ok(false);
        };
        for probe in &mut self.probes {
            if probe.fits(self.alloc, undo.as_slice())? {
                return Ok(true);
            }
        }
        Ok(false)
    }

    fn has_file(&self, image: &MemHost) -> bool {
        if self.may_be_torn || self.may_be_none && image.file(FILE).is_none() {
            return true;
        }
        self.names.iter().any(|name| {
            self.contents
                .iter()
                .any(|bytes| has(image, name.as_str(), bytes.as_slice()))
        })
    }

    fn has_undo(&mut self, image: &MemHost) -> Result<bool, PlayErr> {
        let undo = copy_of(self.alloc, image, UNDO)?;
        if undo == self.undo {
            return Ok(true);
        }
        self.is_later(undo.as_ref())
    }

    fn has_others(&self, image: &MemHost) -> bool {
        self.others.iter().all(|file| has(image, file.name.as_str(), file.bytes.as_slice()))
    }

    // Whether a backup that is kept is whole, old or new, and there is none before one is made.
    fn has_backup(&self, image: &MemHost) -> bool {
        let found = image.file(BACKUP);
        if !self.is_backed {
            let is_given = self.others.iter().any(|file| file.name.as_str() == BACKUP);
            return image.file(COPY).is_none() && (is_given || found.is_none());
        }
        self.kept.is_empty()
            || self.kept.iter().any(|bytes| found == bytes.as_ref().map(|bytes| bytes.as_slice()))
    }

    /// What is wrong with an image, where something is.
    pub(crate) fn wrong_in(&mut self, image: &MemHost) -> Result<Option<&'static str>, PlayErr> {
        if !self.has_file(image) {
            return Ok(Some("neither file nor backup is whole"));
        }
        if !self.has_others(image) {
            return Ok(Some("another file has changed"));
        }
        if !self.has_backup(image) {
            return Ok(Some("another backup"));
        }
        if !self.has_undo(image)? {
            return Ok(Some("another undo file"));
        }
        Ok(None)
    }

    /// Whether the old bytes that are written over can be had in an image.
    pub(crate) fn has_old(&self, image: &MemHost) -> bool {
        match &self.rewriting {
            Some(rewriting) => {
                let old = rewriting.old.as_slice();
                has(image, FILE, old) || has(image, rewriting.backup.as_str(), old)
            }
            None => true,
        }
    }

    /// Whether a file that is written over has its new bytes in an image.
    pub(crate) fn has_new(&self, image: &MemHost) -> bool {
        match &self.rewriting {
            Some(rewriting) => has(image, FILE, rewriting.new.as_slice()),
            None => true,
        }
    }
}
