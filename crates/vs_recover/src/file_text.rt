// Lines that are kept in their file form, in one piece of memory.
ghost use Rattle.std.specs.Prelude.{◌≡◌, ◌≤◌, ◌++◌, ◌==◌, [], ℕ, List, OnOk, OnErr, Ok, Some, drop, length, map, take};
ghost use Rattle.vs_data.specs.Blocks.{lines_in, view_in};
ghost use Rattle.vs_text.specs.Text.{plain_line};
ghost use Rattle.vs_text.specs.Documents.{Document, file_in, line_end};
ghost use Rattle.vs_recover.specs.Stored.{document_by, exchanged};

use std::alloc::{AllocError, Global};
use std::marker::Model;
use vs_data::DataView;
use vs_text::Format;

/// A text with its format, in its file form: the bytes of its lines, each followed by the line end of the format (docs/FORMATS.md,
/// "The file form of a text"). No line has memory of its own.
#[derive(Debug, Drop)]
pub struct FileText {
    format: Format,
    bytes: Vec<u8>,
    count: usize,
    ghost whole: { file_in format (document_by format bytes.items).text ≡ bytes.items },
    ghost counted: { length (document_by format bytes.items).text ≡ count },
}

impl Model for FileText {
    ghost Value = { Document };

    ghost view = { λ text. document_by text.format text.bytes.items };
}

// Byte 10 for byte 0, byte 0 for byte 10, and each other byte as it is.
fn exchanged(byte: u8) -> u8
    ensures { result ≡ exchanged byte }
{
    match byte {
        0 => b'\n',
        b'\n' => 0,
        other => other,
    }
}

// Exchanges bytes 0 and 10, in place.
fn exchange(bytes: &mut [u8])
    ensures { bytes.new ≡ map exchanged bytes.old }
{
    for byte in bytes.iter_mut() {
        *byte = exchanged(*byte);
    }
}

// The same for the bytes from a place on.
fn exchange_from(bytes: &mut Vec<u8>, start: usize)
    requires { start ≤ length bytes.old.items }
    ensures { bytes.new.items ≡ take start bytes.old.items ++ map exchanged (drop start bytes.old.items) }
{
    exchange(&mut bytes[start..]);
}

// Adds the end of a stored line, in which byte 0 stands for byte 10. After an error the bytes before it are as they were.
fn end_stored(bytes: &mut Vec<u8>, format: Format) -> Result<(), AllocError>
    ensures added { OnOk result (bytes.new.items ≡ bytes.old.items ++ map exchanged (line_end format)) }
    ensures kept { OnErr result (take (length bytes.old.items) bytes.new.items ≡ bytes.old.items) }
{
    if format == Format::Dos {
        bytes.push(b'\r')?;
    }
    bytes.push(0)?;
    Ok(())
}

// Adds the plain form of a data block's lines, each followed by the line end. After an error the bytes before it are as they were.
fn add_block(
    bytes: &mut Vec<u8>,
    format: Format,
    view: &DataView,
    block: &[u8],
) -> Result<(), AllocError>
    requires { view_in block.now ≡ Ok view.now }
    ensures added { OnOk result ((found : List (List ℕ)) → lines_in block.now ≡ Some found
        → bytes.new.items ≡ bytes.old.items ++ file_in format (map plain_line found)) }
    ensures kept { OnErr result (take (length bytes.old.items) bytes.new.items ≡ bytes.old.items) }
{
    let end = bytes.len();
    for at in 0..view.count {
        bytes.extend_from_slice(view.line(block, at))?;
        end_stored(bytes, format)?;
    }
    // A stored line has no byte 0, so byte 0 is now at each line's end and nowhere else, and byte 10 stands for byte 0.
    exchange_from(bytes, end);
    Ok(())
}

impl FileText {
    /// The text without lines.
    pub fn new(alloc: Global, format: Format) -> FileText
        ensures { result ≡ record { text = []; format = format } }
    {
        FileText {
            format,
            bytes: Vec::new(alloc),
            count: 0,
        }
    }

    /// How the lines end.
    pub fn format(&self) -> Format
        ensures { result ≡ self.now.format }
    {
        self.format
    }

    /// The number of lines.
    pub fn len(&self) -> usize
        ensures { result ≡ length self.now.text }
    {
        self.count
    }

    pub fn is_empty(&self) -> bool
        ensures { result ≡ (length self.now.text == 0) }
    {
        self.count == 0
    }

    /// The bytes of a file with this text.
    pub fn bytes(&self) -> &[u8]
        ensures { result.now ≡ file_in self.now.format self.now.text }
    {
        self.bytes.as_slice()
    }

    /// Adds the lines of a data block in their plain form. After an error the text is as before.
    pub fn push_block(&mut self, view: &DataView, block: &[u8]) -> Result<(), AllocError>
        requires { view_in block.now ≡ Ok view.now }
        ensures ok { OnOk result ((found : List (List ℕ)) → lines_in block.now ≡ Some found → self.new.text ≡ self.old.text ++ map plain_line found) }
        ensures format { self.new.format ≡ self.old.format }
        ensures err { OnErr result (self.new ≡ self.old) }
    {
        let end = self.bytes.len();
        match add_block(&mut self.bytes, self.format, view, block) {
            Ok(()) => {
                self.count += view.count as usize;
                Ok(())
            }
            Err(error) => {
                self.bytes.truncate(end);
                Err(error)
            }
        }
    }
}
