// Splices that look like chance, and are the same in each run.
ghost use Rattle.std.specs.Prelude.{◌<◌, ◌≤◌};

use std::alloc::{AllocError, Global};
use vs_edit::{LineStore, StoreErr, allows_splice, text_of};
use vs_text::{Format, Line, from_stored, write_text};

#[derive(Drop)]
pub struct Numbers(pub u64);

impl Numbers {
    pub(crate) fn below(&mut self, n: u64) -> u64
        requires { 0 < n }
        ensures { result < n }
    {
        self.0 = self
            .0
            .wrapping_mul(6_364_136_223_846_793_005)
            .wrapping_add(1_442_695_040_888_963_407);
        (self.0 >> 33) % n
    }

    // Most lines are short, some have about the size that fills a page, and a few need several pages.
    fn line_size(&mut self) -> u64 {
        match self.below(64) {
            0..54 => self.below(201),
            54..62 => 4_060 + self.below(16),
            _ => 8_000 + self.below(12_001),
        }
    }

    fn line(&mut self, alloc: Global) -> Result<Line, AllocError> {
        let mut bytes = Vec::new(alloc);
        for _ in 0..self.line_size() {
            bytes.push(self.below(256) as u8)?;
        }
        from_stored(&mut bytes);
        Ok(Line::from_vec(bytes))
    }

    // Mostly some dozen lines come or go, and now and then many blocks of them.
    fn line_count(&mut self) -> u64 {
        if self.below(40) == 0 {
            return self.below(300);
        }
        self.below(25)
    }

    fn lines(&mut self, alloc: Global) -> Result<Vec<Line>, AllocError> {
        let mut lines = Vec::new(alloc);
        for _ in 0..self.line_count() {
            lines.push(self.line(alloc)?)?;
        }
        Ok(lines)
    }

    // A splice of a text with this number of lines; a few take out all of them.
    pub(crate) fn splice(&mut self, alloc: Global, len: u64) -> Result<Splice, AllocError> {
        let new = self.lines(alloc)?;
        if self.below(1_000) == 0 {
            return Ok(Splice {
                top: 0,
                old: len,
                new,
            });
        }
        let top = self.below(len.saturating_add(1));
        let old = self.line_count().min(len - top);
        Ok(Splice { top, old, new })
    }
}

#[derive(Drop)]
pub struct Splice {
    top: u64,
    old: u64,
    new: Vec<Line>,
}

impl Splice {
    // Splices a store, where all that a splice asks for holds, and says whether it does.
    pub(crate) fn apply<S: LineStore>(&self, alloc: Global, store: &mut S) -> Result<bool, StoreErr>
        requires { S.valid store.old }
        ensures { S.valid store.new }
    {
        if !allows_splice(store, self.top, self.old, &self.new) {
            return Ok(false);
        }
        store.splice(alloc, self.top, self.old, &self.new)?;
        Ok(true)
    }
}

// The file of the text that a store has.
pub(crate) fn file_of<S: LineStore>(alloc: Global, store: &mut S) -> Result<Vec<u8>, StoreErr>
    requires { S.valid store.old }
    ensures { S.valid store.new }
{
    let text = text_of(alloc, store)?;
    Ok(write_text(alloc, &text, Format::Unix)?)
}
