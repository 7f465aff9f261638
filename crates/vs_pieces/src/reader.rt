// A text that is read in pieces.
ghost use Rattle.std.specs.Prelude.{◌≡◌, ◌+◌, ◌<◌, ◌≤◌, ◌^◌, ◌++◌, ◌∷◌, [], List, ℕ, length, None, Some, IfOk, IfErr, OnOk, OnErr, MatchOption};
ghost use Rattle.vs_text.specs.Text.{IsLine, file_of, lines_of};
ghost use Rattle.vs_text.specs.Limits.{IsWithinLimits};
ghost use Rattle.vs_pieces.specs.Reader.{HasRead, IsAnswer, IsCertain, IsReading, Reads, ReadsOn, Refuses, size_read};

use crate::{EndedLines, WholeLines, whole_lines};
use std::alloc::Global;
use std::marker::Model;
use std::mem;
use vs_text::{MAX_LINE_BYTES, MAX_LINES, MAX_TEXT_BYTES, TextErr, ended_line};

/// The greatest number of bytes that are read together: of the lines that end in them, only the first can be too long.
const PART: usize = MAX_LINE_BYTES as usize;

/// Reads a text in pieces, by the lines of a unix file (docs/FORMATS.md, "The file form of a text"), and keeps the lines that have ended in
/// one piece of memory. [`FileReader`](crate::FileReader) reads a file of either format.
///
/// The pieces may be cut anywhere: the answer of [`PieceReader::end`] is that for the whole. The reader holds no more than a text within the
/// limits and one last line: what is certain to be refused is counted only.
#[derive(Drop)]
pub struct PieceReader {
    lines: EndedLines,
    last: Vec<u8>,
    last_size: u64,
    ended: u64,
    bytes: u64,
    refused: Option<TextErr>,
}

impl Model for PieceReader {
    ghost use Rattle.std.specs.Prelude.{◌+◌, ◌*◌, ◌^◌, ◌<◌, ◌≤◌};
    ghost use Rattle.vs_pieces.specs.Reader.{Reading};
    ghost use Rattle.vs_text.specs.Text.{IsLine};
    ghost use Rattle.vs_text.specs.declared.TheConstants.{MAX_LINE_BYTES};

    ghost Value = { Reading };

    ghost view = { λ r. record {
      lines = r.lines;
      last = r.last.items;
      last_size = r.last_size;
      ended = r.ended;
      bytes = r.bytes;
      refused = r.refused;
    } };

    ghost invariant = { λ r. IsLine r.last.items × (r.ended ≤ r.bytes) × (r.bytes ≤ r.ended * (MAX_LINE_BYTES + 1)) × (r.bytes + r.last_size < 2 ^ 64) };
}

impl PieceReader {
    /// A reader that was fed nothing. It takes no memory.
    pub fn new(alloc: Global) -> PieceReader
        ensures { HasRead result [] [] }
    {
        PieceReader {
            lines: EndedLines::new(alloc),
            last: Vec::new(alloc),
            last_size: 0,
            ended: 0,
            bytes: 0,
            refused: None,
        }
    }

    /// Reads the next piece of the file, of at most 2^64 - 1 bytes in all.
    ///
    /// It answers that a line is too long once that line has ended, since only then its length is known. All else that is
    /// refused, [`PieceReader::end`] answers. After an error the reader answers this error again.
    pub fn feed(&mut self, alloc: Global, piece: &[u8]) -> Result<(), TextErr>
        requires { size_read self.old + length piece.now < 2 ^ 64 }
        ensures reads { Reads self.old self.new piece.now }
        ensures size { size_read self.new ≤ size_read self.old + length piece.now }
        ensures ok { OnOk result ((self.old.refused ≡ None) × (self.new.refused ≡ None)) }
        ensures err { IfErr result (λ error. self.new.refused ≡ Some error) }
        ensures certain { IfErr result (λ error. (taken : List (List ℕ)) (fed : List ℕ) → HasRead self.old taken fed →
            IsCertain (fed ++ piece.now) error) }
        ensures again { MatchOption self.old.refused Unit (λ error. (result ≡ Err error) × (self.new ≡ self.old)) }
    {
        if let Some(error) = self.refused {
            return Err(error);
        }
        if let Err(error) = self.read(piece) {
            self.refused = Some(error);
            self.lines = EndedLines::new(alloc);
            self.last = Vec::new(alloc);
            return Err(error);
        }
        Ok(())
    }

    /// Hands over the lines that have ended and were not handed over before. It takes no memory.
    ///
    /// These lines and those handed over before are a text within the limits. There are none once it is certain that the
    /// text is refused.
    pub fn take_lines(&mut self, alloc: Global) -> EndedLines
        ensures lines { result ≡ self.old.lines }
        ensures rest { self.new ≡ record self.old { lines = [] } }
        ensures taken { (taken : List (List ℕ)) (fed : List ℕ) → HasRead self.old taken fed → HasRead self.new (taken ++ result) fed }
        ensures within { (taken : List (List ℕ)) (fed : List ℕ) → HasRead self.old taken fed → IsWithinLimits (taken ++ result) }
    {
        mem::replace(&mut self.lines, EndedLines::new(alloc))
    }

    /// The lines of the text of what was fed, without those that were handed over. A last line without an end is among them.
    pub fn end(mut self) -> Result<EndedLines, TextErr>
        ensures answer { (taken : List (List ℕ)) (fed : List ℕ) → HasRead self taken fed → IsAnswer taken fed result }
        ensures again { MatchOption self.refused Unit (λ error. result ≡ Err error) }
    {
        if let Some(error) = self.refused {
            return Err(error);
        }
        if self.last_size == 0 {
            return self.into_lines();
        }
        if self.last_size > MAX_LINE_BYTES {
            return Err(TextErr::LineTooLong(self.last_size));
        }
        if self.ended >= MAX_LINES {
            return Err(TextErr::TextFull(self.ended + 1));
        }
        self.end_line()?;
        self.into_lines()
    }

    // The lines of a reader whose last line has ended.
    fn into_lines(self) -> Result<EndedLines, TextErr>
        requires { self.last_size ≡ 0 }
        ensures { (taken : List (List ℕ)) (fed : List ℕ) → IsReading self taken fed → IsAnswer taken fed result }
    {
        if self.ended > MAX_LINES {
            return Err(TextErr::TextFull(self.ended));
        }
        if self.bytes > MAX_TEXT_BYTES {
            return Err(TextErr::TextFull(self.bytes));
        }
        Ok(self.lines)
    }

    // Reads a piece, part by part.
    fn read(&mut self, piece: &[u8]) -> Result<(), TextErr>
        requires { size_read self.old + length piece.now < 2 ^ 64 }
        ensures reads { OnOk result (ReadsOn self.old self.new piece.now) }
        ensures refused { IfErr result (λ error. Refuses self.old piece.now error) }
        ensures size { size_read self.new ≤ size_read self.old + length piece.now }
        ensures same { self.new.refused ≡ self.old.refused }
    {
        let mut rest = piece;
        'parts: while !rest.is_empty() {
            let (part, after) = rest.split_at(rest.len().min(PART));
            self.read_part(part)?;
            rest = after;
        }
        Ok(())
    }

    // Reads a part of a piece: the rest of the last line, the lines that end after it, and the bytes of the next one.
    fn read_part(&mut self, part: &[u8]) -> Result<(), TextErr>
        requires few { length part.now ≤ MAX_LINE_BYTES }
        requires size { size_read self.old + length part.now < 2 ^ 64 }
        ensures reads { OnOk result (ReadsOn self.old self.new part.now) }
        ensures refused { IfErr result (λ error. Refuses self.old part.now error) }
        ensures size { size_read self.new ≤ size_read self.old + length part.now }
        ensures same { self.new.refused ≡ self.old.refused }
    {
        let Some((line, after)) = ended_line(part) else {
            return self.read_bytes(part);
        };
        self.read_bytes(line)?;
        self.end_line()?;
        let ended = whole_lines(after);
        self.read_lines(ended)?;
        self.read_bytes(ended.rest)
    }

    // Reads lines that have ended, none of which is too long, after the end of a line.
    fn read_lines(&mut self, ended: WholeLines<'_>) -> Result<(), TextErr>
        requires begun { self.old.last_size ≡ 0 }
        requires whole { file_of (lines_of ended.lines.now) ≡ ended.lines.now }
        requires count { length (lines_of ended.lines.now) ≡ ended.count }
        requires few { length ended.lines.now ≤ MAX_LINE_BYTES }
        requires size { size_read self.old + length ended.lines.now < 2 ^ 64 }
        ensures reads { OnOk result (ReadsOn self.old self.new ended.entry.lines.now) }
        ensures memory { OnErr result (result ≡ Err TextErr.NoMemory) }
        ensures size { size_read self.new ≡ size_read self.old + length ended.entry.lines.now }
        ensures same { self.new.refused ≡ self.old.refused }
    {
        self.ended += ended.count;
        self.bytes += ended.lines.len() as u64;
        self.hold_lines(ended.lines)
    }

    // Keeps lines that have ended, or lets all lines go where the text is too great.
    fn hold_lines(&mut self, lines: &[u8]) -> Result<(), TextErr>
        requires { file_of (lines_of lines.now) ≡ lines.now }
        ensures held { OnOk result (self.old.ended ≤ MAX_LINES → self.old.bytes ≤ MAX_TEXT_BYTES
            → self.new.lines ≡ self.old.lines ++ lines_of lines.now) }
        ensures many_lines { OnOk result (MAX_LINES < self.old.ended → self.new.lines ≡ []) }
        ensures many_bytes { OnOk result (MAX_TEXT_BYTES < self.old.bytes → self.new.lines ≡ []) }
        ensures rest { self.new ≡ record self.old { lines = self.new.lines } }
        ensures memory { OnErr result (result ≡ Err TextErr.NoMemory) }
    {
        if self.ended > MAX_LINES || self.bytes > MAX_TEXT_BYTES {
            self.lines = EndedLines::new(*self.last.allocator());
            return Ok(());
        }
        self.lines.append(lines)?;
        Ok(())
    }

    // Reads bytes of the last line.
    fn read_bytes(&mut self, bytes: &[u8]) -> Result<(), TextErr>
        requires line { IsLine bytes.now }
        requires size { size_read self.old + length bytes.now < 2 ^ 64 }
        ensures reads { OnOk result (ReadsOn self.old self.new bytes.now) }
        ensures memory { OnErr result (result ≡ Err TextErr.NoMemory) }
        ensures size { size_read self.new ≡ size_read self.old + length bytes.now }
        ensures same { self.new.refused ≡ self.old.refused }
    {
        self.last_size += bytes.len() as u64;
        if self.last_size <= MAX_LINE_BYTES {
            self.last.extend_from_slice(bytes)?;
        }
        Ok(())
    }

    // Ends the last line.
    fn end_line(&mut self) -> Result<(), TextErr>
        requires { size_read self.old + 1 < 2 ^ 64 }
        ensures reads { OnOk result (ReadsOn self.old self.new (10 ∷ [])) }
        ensures refused { IfErr result (λ error. Refuses self.old (10 ∷ []) error) }
        ensures size { size_read self.new ≤ size_read self.old + 1 }
        ensures ended { OnOk result (self.new.last_size ≡ 0) }
        ensures same { self.new.refused ≡ self.old.refused }
    {
        if self.last_size > MAX_LINE_BYTES {
            return Err(TextErr::LineTooLong(self.last_size));
        }
        self.ended += 1;
        self.bytes += self.last_size + 1;
        self.last_size = 0;
        self.hold_last()?;
        self.last.clear();
        Ok(())
    }

    // Keeps a line that has ended, or lets all lines go where the text is too great.
    fn hold_last(&mut self) -> Result<(), TextErr>
        ensures held { OnOk result (self.old.ended ≤ MAX_LINES → self.old.bytes ≤ MAX_TEXT_BYTES
            → self.new.lines ≡ self.old.lines ++ self.old.last ∷ []) }
        ensures many_lines { OnOk result (MAX_LINES < self.old.ended → self.new.lines ≡ []) }
        ensures many_bytes { OnOk result (MAX_TEXT_BYTES < self.old.bytes → self.new.lines ≡ []) }
        ensures rest { self.new ≡ record self.old { lines = self.new.lines } }
        ensures memory { OnErr result (result ≡ Err TextErr.NoMemory) }
    {
        if self.ended > MAX_LINES || self.bytes > MAX_TEXT_BYTES {
            self.lines = EndedLines::new(*self.last.allocator());
            return Ok(());
        }
        self.lines.push(&self.last)?;
        Ok(())
    }
}
