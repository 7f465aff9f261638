// A file that is cut into pieces, with the answer for the whole.
ghost use Rattle.std.specs.Prelude.{◌≡◌, ◌<◌, IfOk, IfErr, OnOk};
ghost use Rattle.vs_text.specs.Documents.{document_of};
ghost use Rattle.vs_text.specs.Limits.{IsWithinLimits, IsRefusal};

use std::alloc::Global;
use vs_pieces::FileReader;
use vs_text::{Format, Text, TextErr, TextReader};

/// Reads a file in pieces of at most `size` bytes.
pub(crate) fn read_in_pieces(
    alloc: Global,
    file: &[u8],
    size: usize,
) -> Result<(Text, Format), TextErr>
    requires { 0 < size }
    ensures text { IfOk result (λ read. read.0 ≡ (document_of file.now).text) }
    ensures format { IfOk result (λ read. read.1 ≡ (document_of file.now).format) }
    ensures fits { OnOk result (IsWithinLimits (document_of file.now).text) }
    ensures refused { IfErr result (IsRefusal (document_of file.now).text) }
{
    let mut reader = TextReader::new(alloc)?;
    let mut rest = file;
    'pieces: while !rest.is_empty() {
        let (piece, after) = rest.split_at(size.min(rest.len()));
        reader.feed(alloc, piece)?;
        rest = after;
    }
    reader.end()
}

/// The unix form of the lines of a file of a known format, which is read in pieces of at most `size` bytes. After each piece the lines that
/// have ended are taken.
pub(crate) fn lines_in_pieces(
    alloc: Global,
    file: &[u8],
    format: Format,
    size: usize,
) -> Result<Vec<u8>, TextErr>
    requires { 0 < size }
{
    let mut reader = FileReader::new(alloc, format);
    let mut lines = Vec::new(alloc);
    let mut rest = file;
    'pieces: while !rest.is_empty() {
        let (piece, after) = rest.split_at(size.min(rest.len()));
        reader.feed(alloc, piece)?;
        lines.extend_from_slice(reader.take_lines(alloc).bytes())?;
        rest = after;
    }
    lines.extend_from_slice(reader.end(alloc)?.bytes())?;
    Ok(lines)
}
