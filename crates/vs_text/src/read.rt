ghost use Rattle.std.specs.Prelude.{◌≡◌, ◌<◌, ◌∷◌, IfOk, IfErr, OnOk, length};
ghost use Rattle.vs_text.specs.Text.{IsLine};
ghost use Rattle.vs_text.specs.Documents.{document_of, format_of, lines_in};
ghost use Rattle.vs_text.specs.Limits.{IsWithinLimits, IsRefusal};

use crate::{
    Format, FormatScan, Line, MAX_LINE_BYTES, MAX_LINES, MAX_TEXT_BYTES, Text, TextErr, ended_line,
    without_return,
};
use std::alloc::{AllocError, Global};

// The format of the bytes of a whole file.
fn format_of(bytes: &[u8]) -> Format
    ensures { result ≡ format_of bytes.now }
{
    let mut scan = FormatScan::new();
    scan.feed(bytes);
    scan.format()
}

// The first line of a file of this format, and the bytes after it.
fn first_line(format: Format, bytes: &[u8]) -> (&[u8], &[u8])
    requires { 0 < length bytes.now }
    ensures line { IsLine result.0.now }
    ensures lines { lines_in format bytes.now ≡ result.0.now ∷ lines_in format result.1.now }
    ensures fewer { length result.1.now < length bytes.now }
{
    let Some((ended, rest)) = ended_line(bytes) else {
        return bytes.split_at(bytes.len());
    };
    match format {
        Format::Unix => (ended, rest),
        Format::Dos => (without_return(ended), rest),
    }
}

// Whether the text of a file of this format is within the limits.
fn check_limits(format: Format, bytes: &[u8]) -> Result<(), TextErr>
    ensures fits { OnOk result (IsWithinLimits (lines_in format bytes.now)) }
    ensures refused { IfErr result (IsRefusal (lines_in format bytes.now)) }
{
    let mut count = 0;
    let mut size = 0;
    let mut rest = bytes;
    'lines: while !rest.is_empty() {
        let (line, after) = first_line(format, rest);
        let length = line.len() as u64;
        if length > MAX_LINE_BYTES {
            return Err(TextErr::LineTooLong(length));
        }
        count += 1;
        size += length + 1;
        rest = after;
    }
    if count > MAX_LINES {
        return Err(TextErr::TextFull(count));
    }
    if size > MAX_TEXT_BYTES {
        return Err(TextErr::TextFull(size));
    }
    Ok(())
}

// Copies of the lines of a file of this format.
fn copy_lines(alloc: Global, format: Format, bytes: &[u8]) -> Result<Vec<Line>, AllocError>
    ensures { IfOk result (λ lines. lines.items ≡ lines_in format bytes.now) }
{
    let mut lines = Vec::new(alloc);
    let mut rest = bytes;
    'lines: while !rest.is_empty() {
        let (line, after) = first_line(format, rest);
        lines.push(Line::raw(alloc, line)?)?;
        rest = after;
    }
    Ok(lines)
}

/// The text of a file's bytes, and its format (docs/FORMATS.md, "The file form of a text"). The limits are those of the text, so that in
/// a dos file the bytes 13 before the line ends do not count.
pub fn read_text(alloc: Global, bytes: &[u8]) -> Result<(Text, Format), TextErr>
    ensures text { IfOk result (λ read. read.0 ≡ (document_of bytes.now).text) }
    ensures format { IfOk result (λ read. read.1 ≡ (document_of bytes.now).format) }
    ensures fits { OnOk result (IsWithinLimits (document_of bytes.now).text) }
    ensures refused { IfErr result (IsRefusal (document_of bytes.now).text) }
{
    let format = format_of(bytes);
    check_limits(format, bytes)?;
    let lines = copy_lines(alloc, format, bytes)?;
    Ok((Text::of(lines), format))
}
