ghost use Rattle.std.specs.Prelude.{◌≡◌, ◌++◌, true, IfOk, OnOk};
ghost use Rattle.vs_text.specs.Text.{file_of, IsText};
ghost use Rattle.vs_text.specs.Documents.{document_of, file_in, keeps_format};

use crate::{Format, Line, Text};
use std::alloc::{AllocError, Global};

// Adds the file form of lines in a format at the end of a vector.
fn append_lines_in(format: Format, lines: &[Line], into: &mut Vec<u8>) -> Result<(), AllocError>
    ensures bytes { OnOk result (into.new.items ≡ into.old.items ++ file_in format lines.now) }
    ensures text { OnOk result (IsText lines.now) }
{
    for line in lines {
        into.extend_from_slice(line.bytes())?;
        into.extend_from_slice(format.line_end())?;
    }
    Ok(())
}

/// Adds the form of lines in which they are handed from one to another at the end of a vector, that of a unix file: each line followed by
/// byte 10 (docs/FORMATS.md, "The file form of a text").
pub fn append_lines(lines: &[Line], into: &mut Vec<u8>) -> Result<(), AllocError>
    ensures bytes { OnOk result (into.new.items ≡ into.old.items ++ file_of lines.now) }
    ensures text { OnOk result (IsText lines.now) }
{
    append_lines_in(Format::Unix, lines, into)
}

/// The bytes of a file of this format with this text: each line followed by its end.
pub fn write_text(alloc: Global, text: &Text, format: Format) -> Result<Vec<u8>, AllocError>
    ensures bytes { IfOk result (λ bytes. bytes.items ≡ file_in format text.now) }
    ensures reads_back { IfOk result (λ bytes. keeps_format format text.now ≡ true
        → document_of bytes.items ≡ record { text = text.now; format = format }) }
{
    let mut bytes = Vec::new(alloc);
    append_lines_in(format, text.lines(), &mut bytes)?;
    Ok(bytes)
}
