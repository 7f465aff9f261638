// The format of a file's bytes, which are seen in pieces.
ghost use Rattle.std.specs.Prelude.{◌≡◌, ◌↔◌, ◌++◌, [], ℕ, List, Some, IsTrue, true};
ghost use Rattle.vs_text.specs.Documents.{format_of, last_byte};
ghost use Rattle.vs_text.specs.Scan.{HasScanned, ends_after};
ghost use Rattle.vs_text.specs.declared.format.Format.TheVariants.{Unix};

use crate::{Format, ended_line};
use std::marker::Model;

/// Finds the format of a file from its bytes, which are fed in pieces that may be cut anywhere.
#[derive(Debug, Drop)]
pub struct FormatScan {
    before: u8,
    found: Option<Format>,
}

impl Model for FormatScan {
    ghost use Rattle.vs_text.specs.Scan.{Scanning};

    ghost Value = { Scanning };

    ghost view = { λ scan. record { before = scan.before; found = scan.found } };
}

// The last of some bytes, or the byte before them where there are none.
fn last_byte(before: u8, bytes: &[u8]) -> u8
    ensures { result ≡ last_byte before bytes.now }
{
    match bytes.split_last() {
        Some((last, _)) => *last,
        None => before,
    }
}

// The format of the line ends of some bytes that stand after this byte; `None` where no line ends.
fn ends_after(before: u8, bytes: &[u8]) -> Option<Format>
    ensures { result ≡ ends_after before bytes.now }
{
    let mut found = None;
    let mut before = before;
    let mut rest = bytes;
    'ends: while let Some((line, after)) = ended_line(rest) {
        if last_byte(before, line) != b'\r' {
            return Some(Format::Unix);
        }
        found = Some(Format::Dos);
        before = b'\n';
        rest = after;
    }
    found
}

impl FormatScan {
    /// A scan that was fed nothing.
    pub fn new() -> FormatScan
        ensures { HasScanned result [] }
    {
        FormatScan {
            before: 0,
            found: None,
        }
    }

    /// Looks at the next piece of the file.
    pub fn feed(&mut self, piece: &[u8])
        ensures { (fed : List ℕ) → HasScanned self.old fed → HasScanned self.new (fed ++ piece.now) }
    {
        if !self.is_certain() {
            self.found = ends_after(self.before, piece).or(self.found);
        }
        self.before = last_byte(self.before, piece);
    }

    /// Whether the format is certain whatever follows: a line ended in byte 10 alone, so that it is unix.
    pub fn is_certain(&self) -> bool
        ensures found { IsTrue result ↔ (self.now.found ≡ Some Unix) }
        ensures certain { result ≡ true → (fed more : List ℕ) → HasScanned self.now fed → format_of (fed ++ more) ≡ Unix }
    {
        matches!(self.found, Some(Format::Unix))
    }

    /// The format of what was fed, as a whole file.
    pub fn format(&self) -> Format
        ensures { (fed : List ℕ) → HasScanned self.now fed → result ≡ format_of fed }
    {
        self.found.unwrap_or(Format::Unix)
    }
}
