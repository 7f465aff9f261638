// A file of a known format that is read in pieces.
ghost use Rattle.std.specs.Prelude.{◌≡◌, ◌+◌, ◌<◌, ◌^◌, ◌++◌, [], ℕ, List, length, IfErr, OnOk};
ghost use Rattle.vs_text.specs.Documents.{plain_in};
ghost use Rattle.vs_text.specs.Limits.{IsWithinLimits};
ghost use Rattle.vs_text.specs.declared.format.Format.TheVariants.{Dos};
ghost use Rattle.vs_pieces.specs.Files.{HasReadFile, IsCertainIn, file_size_read};
ghost use Rattle.vs_pieces.specs.Reader.{IsAnswer};

use crate::plain::append_plain;
use crate::{EndedLines, PieceReader};
use std::alloc::Global;
use std::marker::Model;
use vs_text::{Format, TextErr};

/// Reads a file of a known format in pieces (docs/FORMATS.md, "The file form of a text").
///
/// The pieces may be cut anywhere. Of a dos file, the byte 13 before each line end is left out on the way, and what is left is read as a unix
/// file is. What it answers after an error is not said.
#[derive(Drop)]
pub struct FileReader {
    format: Format,
    holds: bool,
    plain: Vec<u8>,
    reader: PieceReader,
}

impl Model for FileReader {
    ghost use Rattle.std.specs.Prelude.{◌≡◌, ◌+◌, ◌<◌, ◌^◌, length, false};
    ghost use Rattle.vs_text.specs.declared.format.Format.TheVariants.{Unix};
    ghost use Rattle.vs_pieces.specs.Files.{FileReading, held_back};
    ghost use Rattle.vs_pieces.specs.Reader.{size_read};

    ghost Value = { FileReading };

    ghost view = { λ r. record { format = r.format; holds = r.holds; reading = r.reader } };

    ghost invariant = { λ r. (r.format ≡ Unix → r.holds ≡ false) × (size_read r.reader + length (held_back r.holds) < 2 ^ 64) };
}

impl FileReader {
    /// A reader that was fed nothing. It takes no memory.
    pub fn new(alloc: Global, format: Format) -> FileReader
        ensures format { result.format ≡ format }
        ensures read { HasReadFile result [] [] }
    {
        FileReader {
            format,
            holds: false,
            plain: Vec::new(alloc),
            reader: PieceReader::new(alloc),
        }
    }

    /// Reads the next piece of the file, of at most 2^64 - 1 bytes in all. It answers that a line is too long once that line has ended.
    /// All else that is refused, [`FileReader::end`] answers.
    pub fn feed(&mut self, alloc: Global, piece: &[u8]) -> Result<(), TextErr>
        requires { file_size_read self.old + length piece.now < 2 ^ 64 }
        ensures format { self.new.format ≡ self.old.format }
        ensures reads { OnOk result ((taken : List (List ℕ)) (fed : List ℕ) → HasReadFile self.old taken fed
            → HasReadFile self.new taken (fed ++ piece.now)) }
        ensures certain { IfErr result (λ error. (taken : List (List ℕ)) (fed : List ℕ) → HasReadFile self.old taken fed
            → IsCertainIn self.old.format (fed ++ piece.now) error) }
    {
        match self.format {
            Format::Unix => self.reader.feed(alloc, piece),
            Format::Dos => self.feed_dos(alloc, piece),
        }
    }

    // Reads the next piece of a dos file.
    fn feed_dos(&mut self, alloc: Global, piece: &[u8]) -> Result<(), TextErr>
        requires dos { self.old.format ≡ Dos }
        requires size { file_size_read self.old + length piece.now < 2 ^ 64 }
        ensures format { self.new.format ≡ self.old.format }
        ensures reads { OnOk result ((taken : List (List ℕ)) (fed : List ℕ) → HasReadFile self.old taken fed
            → HasReadFile self.new taken (fed ++ piece.now)) }
        ensures certain { IfErr result (λ error. (taken : List (List ℕ)) (fed : List ℕ) → HasReadFile self.old taken fed
            → IsCertainIn self.old.format (fed ++ piece.now) error) }
    {
        self.plain.clear();
        self.holds = append_plain(self.holds, piece, &mut self.plain)?;
        self.reader.feed(alloc, &self.plain)
    }

    /// Hands over the lines that have ended and were not handed over before. It takes no memory.
    ///
    /// These lines and those handed over before are a text within the limits.
    pub fn take_lines(&mut self, alloc: Global) -> EndedLines
        ensures format { self.new.format ≡ self.old.format }
        ensures taken { (taken : List (List ℕ)) (fed : List ℕ) → HasReadFile self.old taken fed → HasReadFile self.new (taken ++ result) fed }
        ensures within { (taken : List (List ℕ)) (fed : List ℕ) → HasReadFile self.old taken fed → IsWithinLimits (taken ++ result) }
    {
        self.reader.take_lines(alloc)
    }

    /// The lines of the text of what was fed, without those that were handed over. A last line without an end is among them.
    pub fn end(mut self, alloc: Global) -> Result<EndedLines, TextErr>
        ensures { (taken : List (List ℕ)) (fed : List ℕ) → HasReadFile self taken fed → IsAnswer taken (plain_in self.format fed) result }
    {
        if !self.holds {
            return self.reader.end();
        }
        self.reader.feed(alloc, b"\r")?;
        self.reader.end()
    }
}
