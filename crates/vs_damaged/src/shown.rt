// What salvage shows of a swap file: lines, and markers in the place of what is missing.
ghost use Rattle.std.specs.Prelude.{◌≡◌, ◌++◌, ◌+◌, ◌<◌, ◌^◌, [], OnOk, length};
ghost use Rattle.vs_text.specs.Text.{plain_line};
ghost use Rattle.vs_text.specs.Documents.{line_end};
ghost use Rattle.vs_damaged.specs.Items.{Adds, AddsAs, Shows, TheMarker, is_within, line_item, original_item, original_line, words};

use std::alloc::{AllocError, Global};
use vs_text::{Format, MAX_LINE_BYTES, MAX_LINES, MAX_TEXT_BYTES, from_stored};

/// What stands in the place of something that was not found: docs/FORMATS.md, "Salvage".
#[derive(Clone, Copy, Debug, PartialEq, Eq)]
pub enum Marker {
    /// There is no such block, or it was taken before.
    BlockMissing,
    /// A pointer block that counts more entries than it has.
    PointerBlockDamaged,
    /// A data block whose header does not fit it.
    DataBlockDamaged,
    /// A line that does not begin in the text of its block, or is too long.
    LineMissing,
    /// The data block before it has another number of lines than its entry.
    LineCountWrong,
    /// The original file has not all lines of an entry.
    LinesMissing,
    /// There would be more than a text may have.
    ManyLinesMissing,
}

// The line of a marker.
fn words(marker: Marker) -> &'static [u8]
    ensures { result.now ≡ words marker }
{
    match marker {
        Marker::BlockMissing => b"???BLOCK MISSING",
        Marker::PointerBlockDamaged => b"???POINTER BLOCK DAMAGED",
        Marker::DataBlockDamaged => b"???DATA BLOCK DAMAGED",
        Marker::LineMissing => b"???LINE MISSING",
        Marker::LineCountWrong => b"???LINE COUNT WRONG",
        Marker::LinesMissing => b"???LINES MISSING",
        Marker::ManyLinesMissing => b"???MANY LINES MISSING",
    }
}

// The line that bytes of the original file are.
fn original_line(format: Format, bytes: &[u8]) -> &[u8]
    ensures { result.now ≡ original_line format bytes.now }
{
    match format {
        Format::Unix => bytes,
        Format::Dos => bytes.strip_suffix(b"\r".as_slice()).unwrap_or(bytes),
    }
}

/// Lines and markers in their file form, up to the limits of a text. What comes after these is not kept.
#[derive(Debug, Drop)]
pub struct Shown {
    pub format: Format,
    pub bytes: Vec<u8>,
    pub lines: u64,
    /// The number of bytes of the lines and markers, with one for each line end.
    pub size: u64,
    pub markers: u64,
    pub full: bool,
}

impl Shown {
    /// Nothing is shown.
    pub fn new(alloc: Global, format: Format) -> Shown
        ensures { Shows format result [] }
    {
        Shown {
            format,
            bytes: Vec::new(alloc),
            lines: 0,
            size: 0,
            markers: 0,
            full: false,
        }
    }

    // Whether a text may have one more line of so many bytes.
    fn has_room(&self, len: usize) -> bool
        requires { len < 2 ^ 63 }
        ensures { result ≡ is_within (self.now.lines + 1) (self.now.size + (len + 1)) }
    {
        self.lines < MAX_LINES && self.size.saturating_add(len as u64) < MAX_TEXT_BYTES
    }

    // Adds a line, and its line end.
    fn add(&mut self, line: &[u8]) -> Result<(), AllocError>
        ensures bytes { OnOk result (self.new.bytes.items ≡ self.old.bytes.items ++ (line.now ++ line_end self.old.format)) }
        ensures others { OnOk result (self.new ≡ record self.old { bytes = self.new.bytes }) }
    {
        self.bytes.extend_from_slice(line)?;
        self.bytes.extend_from_slice(self.format.line_end())
    }

    // Shows a line or a marker: one line, and so many markers.
    fn push(&mut self, line: &[u8], markers: u64) -> Result<(), AllocError>
        ensures { OnOk result (AddsAs self.old self.new line.now markers) }
    {
        if self.full {
            return Ok(());
        }
        if !self.has_room(line.len()) {
            self.add(words(Marker::ManyLinesMissing))?;
            self.markers = self.markers.saturating_add(1);
            self.full = true;
            return Ok(());
        }
        self.add(line)?;
        self.lines = self.lines.saturating_add(1);
        self.size = self.size.saturating_add(line.len() as u64 + 1);
        self.markers = self.markers.saturating_add(markers);
        Ok(())
    }

    /// Shows a marker.
    pub fn push_marker(&mut self, marker: Marker) -> Result<(), AllocError>
        ensures { OnOk result (Adds self.old self.new (TheMarker marker)) }
    {
        self.push(words(marker), 1)
    }

    // Shows a line, or its marker where it is too long.
    fn push_line(&mut self, line: &[u8]) -> Result<(), AllocError>
        ensures { OnOk result (Adds self.old self.new (line_item line.now)) }
    {
        if line.len() as u64 > MAX_LINE_BYTES {
            return self.push_marker(Marker::LineMissing);
        }
        self.push(line, 0)
    }

    /// Shows the line that bytes of the original file are.
    pub fn push_original(&mut self, bytes: &[u8]) -> Result<(), AllocError>
        ensures { OnOk result (Adds self.old self.new (original_item self.old.format bytes.now)) }
    {
        self.push_line(original_line(self.format, bytes))
    }

    /// Shows the line that a stored line stands for.
    pub fn push_stored(&mut self, alloc: Global, line: &[u8]) -> Result<(), AllocError>
        ensures { OnOk result (Adds self.old self.new (line_item (plain_line line.now))) }
    {
        if line.len() as u64 > MAX_LINE_BYTES {
            return self.push_marker(Marker::LineMissing);
        }
        let mut plain = Vec::from_slice(alloc, line)?;
        from_stored(&mut plain);
        self.push_line(&plain)
    }
}
