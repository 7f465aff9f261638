// A text that is read in pieces.
ghost use Rattle.std.specs.Prelude.{◌≡◌, ◌++◌, [], false, true, IfOk, IfErr, OnErr, OnOk};
ghost use Rattle.vs_text.specs.Documents.{document_of};
ghost use Rattle.vs_text.specs.Limits.{IsWithinLimits, IsRefusal};
ghost use Rattle.vs_text.specs.declared.error.TextErr.TheVariants.{NoMemory};

use crate::{Format, Text, TextErr, read_text};
use std::alloc::{AllocError, Global};
use std::marker::Model;

/// Reads a text in pieces (docs/FORMATS.md, "The file form of a text").
///
/// The pieces may be cut anywhere. The answer of [`TextReader::end`] is that of [`read_text`] on the whole. The reader keeps the bytes as
/// they are, since one line end decides the format of all, and this one may be the last.
#[derive(Drop)]
pub struct TextReader {
    bytes: Vec<u8>,
    failed: bool,
}

impl Model for TextReader {
    ghost use Rattle.vs_text.specs.Fed.{Fed};

    ghost Value = { Fed };

    ghost view = { λ r. record { bytes = r.bytes.items; failed = r.failed } };
}

impl TextReader {
    /// A reader that was fed nothing. It takes no memory.
    pub fn new(alloc: Global) -> Result<TextReader, AllocError>
        ensures { IfOk result (λ reader. reader ≡ record { bytes = []; failed = false }) }
    {
        Ok(TextReader {
            bytes: Vec::new(alloc),
            failed: false,
        })
    }

    /// Takes the next piece of the file. What is refused for its limits, [`TextReader::end`] answers. Where there was no memory for a
    /// piece, the reader answers that again.
    pub fn feed(&mut self, alloc: Global, piece: &[u8]) -> Result<(), TextErr>
        ensures ok { OnOk result (self.new ≡ record self.old { bytes = self.old.bytes ++ piece.now }) }
        ensures on { OnOk result (self.old.failed ≡ false) }
        ensures err { IfErr result (λ error. (error ≡ NoMemory) × (self.new.failed ≡ true)) }
    {
        if self.failed {
            return Err(TextErr::NoMemory);
        }
        if self.bytes.extend_from_slice(piece).is_err() {
            self.bytes = Vec::new(alloc);
            self.failed = true;
            return Err(TextErr::NoMemory);
        }
        Ok(())
    }

    /// The text of what was fed, and its format.
    pub fn end(self) -> Result<(Text, Format), TextErr>
        ensures text { IfOk result (λ read. read.0 ≡ (document_of self.bytes).text) }
        ensures format { IfOk result (λ read. read.1 ≡ (document_of self.bytes).format) }
        ensures fits { OnOk result (IsWithinLimits (document_of self.bytes).text) }
        ensures refused { IfErr result (λ error. self.failed ≡ false → IsRefusal (document_of self.bytes).text error) }
        ensures again { self.failed ≡ true → result ≡ Err NoMemory }
    {
        if self.failed {
            return Err(TextErr::NoMemory);
        }
        read_text(*self.bytes.allocator(), &self.bytes)
    }
}
