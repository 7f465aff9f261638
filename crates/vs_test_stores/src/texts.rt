ghost use Rattle.std.specs.Prelude.{◌<◌, ◌≤◌, length};

use crate::pieces::{lines_in_pieces, read_in_pieces};
use std::alloc::{AllocError, Global};
use std::test::Fail;
use vs_text::{
    Format, Line, MAX_LINE_BYTES, MAX_LINES, MAX_TEXT_BYTES, Text, TextErr, TextReader,
    from_stored, read_text, to_stored, write_text,
};

// The bytes of a piece of a file.
const PIECE: usize = 65_536;

fn filled(alloc: Global, byte: u8, len: u64) -> Result<Vec<u8>, AllocError> {
    vec![in alloc; byte; len as usize]
}

// A line of these bytes, none of which is 10.
fn line_of(alloc: Global, bytes: &[u8]) -> Result<Line, TextErr> {
    let mut bytes = Vec::from_slice(alloc, bytes)?;
    from_stored(&mut bytes);
    Line::of(alloc, &bytes)
}

// How many lines a file has, which is read whole and in pieces.
fn lines_read(alloc: Global, file: &[u8]) -> Result<usize, TextErr> {
    let whole = read_text(alloc, file).map(|read| (read.0.len(), read.1));
    let pieces = read_in_pieces(alloc, file, PIECE).map(|read| (read.0.len(), read.1));
    if pieces == whole {
        whole.map(|read| read.0)
    } else {
        Ok(usize::MAX)
    }
}

fn are_lines(lines: &[Line], want: &[&[u8]]) -> bool {
    lines.len() == want.len() && lines.iter().zip(want).all(|(line, it)| line.bytes() == *it)
}

// Whether a file that is cut at two places has this text and this format.
fn reads_in_three(
    alloc: Global,
    file: &[u8],
    start: usize,
    end: usize,
    want: &(Text, Format),
) -> Result<bool, TextErr>
    requires order { start ≤ end }
    requires within { end ≤ length file.now }
{
    let mut reader = TextReader::new(alloc)?;
    reader.feed(alloc, &file[..start])?;
    reader.feed(alloc, &file[start..end])?;
    reader.feed(alloc, &file[end..])?;
    let (text, format) = reader.end()?;
    let bytes = write_text(alloc, &text, Format::Unix)?;
    let wanted = write_text(alloc, &want.0, Format::Unix)?;
    Ok(format == want.1 && bytes.as_slice() == wanted.as_slice())
}

// Whether a file of a known format that is read in pieces of at most `size` bytes has this text.
fn reads_in_pieces(
    alloc: Global,
    file: &[u8],
    size: usize,
    want: &(Text, Format),
) -> Result<bool, TextErr>
    requires { 0 < size }
{
    let bytes = lines_in_pieces(alloc, file, want.1, size)?;
    let wanted = write_text(alloc, &want.0, Format::Unix)?;
    Ok(bytes.as_slice() == wanted.as_slice())
}

#[test]
fn reads_and_writes_files(rt: HostRuntime) -> Result<(), Fail> {
    let alloc = rt.alloc();
    let cases: [(&[u8], &[&[u8]], Format, &[u8]); 16] = [
        (b"", &[], Format::Unix, b""),
        (b"\n", &[b""], Format::Unix, b"\n"),
        (b"\n\n", &[b"", b""], Format::Unix, b"\n\n"),
        (b"ab\n", &[b"ab"], Format::Unix, b"ab\n"),
        (b"ab", &[b"ab"], Format::Unix, b"ab\n"),
        (b"a\n\nb\n", &[b"a", b"", b"b"], Format::Unix, b"a\n\nb\n"),
        (
            b"\x00\xff\n\xff",
            &[b"\x00\xff", b"\xff"],
            Format::Unix,
            b"\x00\xff\n\xff\n",
        ),
        (b"\r", &[b"\r"], Format::Unix, b"\r\n"),
        (b"a\r\nb\n", &[b"a\r", b"b"], Format::Unix, b"a\r\nb\n"),
        (
            b"a\r\n\nb",
            &[b"a\r", b"", b"b"],
            Format::Unix,
            b"a\r\n\nb\n",
        ),
        (b"\n\r\n", &[b"", b"\r"], Format::Unix, b"\n\r\n"),
        (b"\r\n", &[b""], Format::Dos, b"\r\n"),
        (b"a\r\nb", &[b"a", b"b"], Format::Dos, b"a\r\nb\r\n"),
        (b"a\r\nb\r", &[b"a", b"b\r"], Format::Dos, b"a\r\nb\r\r\n"),
        (
            b"\ra\r\r\n\r\n",
            &[b"\ra\r", b""],
            Format::Dos,
            b"\ra\r\r\n\r\n",
        ),
        (
            b"a\r\n\x1a",
            &[b"a", b"\x1a"],
            Format::Dos,
            b"a\r\n\x1a\r\n",
        ),
    ];
    for (file, lines, format, written) in cases {
        let (text, found) = read_text(alloc, file)?;
        assert!(rt; found == format, "in {file:?}");
        assert!(rt; are_lines(text.lines(), lines), "in {file:?}");
        let bytes = write_text(alloc, &text, format)?;
        assert!(rt; bytes.as_slice() == written, "in {file:?}");
    }
    Ok(())
}

#[test]
fn cuts_do_not_matter(rt: HostRuntime) -> Result<(), Fail> {
    let alloc = rt.alloc();
    let files: [&[u8]; 9] = [
        b"a\nb\nc",
        b"a\nb\nc\n",
        b"\n\n",
        b"\n",
        b"ab",
        b"\x00\n\r\n\xff",
        b"\r\n\r\r\n",
        b"a\r\nb\r\n\n\rc\r",
        b"\ra\r\n\r\nb\r",
    ];
    for file in files {
        let want = read_text(alloc, file)?;
        for end in 0..=file.len() {
            for start in 0..=end {
                assert!(rt;
                    reads_in_three(alloc, file, start, end, &want)?,
                    "{file:?} cut at {start} and {end}"
                );
            }
        }
        for size in 1..=file.len() {
            assert!(rt;
                reads_in_pieces(alloc, file, size, &want)?,
                "{file:?} in pieces of {size}"
            );
        }
    }
    Ok(())
}

#[test]
fn limits_the_length_of_a_line(rt: HostRuntime) -> Result<(), Fail> {
    let alloc = rt.alloc();
    let mut bytes = filled(alloc, b'a', MAX_LINE_BYTES)?;
    assert!(rt; lines_read(alloc, &bytes) == Ok(1));
    assert!(rt; line_of(alloc, &bytes)?.bytes() == bytes.as_slice());
    bytes.push(b'a')?;
    assert!(rt; lines_read(alloc, &bytes) == Err(TextErr::LineTooLong(1_048_577)));
    assert!(rt; line_of(alloc, &bytes).err() == Some(TextErr::LineTooLong(1_048_577)));
    bytes.extend_from_slice(b"\n\n")?;
    let longer = filled(alloc, b'b', MAX_LINE_BYTES + 2)?;
    bytes.extend_from_slice(&longer)?;
    assert!(rt; lines_read(alloc, &bytes) == Err(TextErr::LineTooLong(1_048_577)));
    Ok(())
}

#[test]
fn limits_a_dos_file_by_its_text(rt: HostRuntime) -> Result<(), Fail> {
    let alloc = rt.alloc();
    let mut bytes = filled(alloc, b'a', MAX_LINE_BYTES)?;
    bytes.extend_from_slice(b"\r\n")?;
    assert!(rt; lines_read(alloc, &bytes) == Ok(1));
    bytes.push(b'\n')?;
    assert!(rt; lines_read(alloc, &bytes) == Err(TextErr::LineTooLong(1_048_577)));
    Ok(())
}

#[test]
fn limits_the_number_of_lines(rt: HostRuntime) -> Result<(), Fail> {
    let alloc = rt.alloc();
    let mut file = filled(alloc, b'\n', MAX_LINES)?;
    assert!(rt; lines_read(alloc, &file) == Ok(4_000_000));
    file.push(b'a')?;
    assert!(rt; lines_read(alloc, &file) == Err(TextErr::TextFull(4_000_001)));
    let long = filled(alloc, b'a', MAX_LINE_BYTES)?;
    file.extend_from_slice(&long)?;
    assert!(rt; lines_read(alloc, &file) == Err(TextErr::LineTooLong(1_048_577)));
    Ok(())
}

#[test]
fn limits_the_number_of_bytes(rt: HostRuntime) -> Result<(), Fail> {
    let alloc = rt.alloc();
    let mut file = filled(alloc, b'a', MAX_TEXT_BYTES)?;
    for line in file.chunks_mut(1 << 20) {
        if let Some(end) = line.last_mut() {
            *end = b'\n';
        }
    }
    assert!(rt; lines_read(alloc, &file) == Ok(256));
    if let Some(end) = file.last_mut() {
        *end = b'a';
    }
    assert!(rt; lines_read(alloc, &file) == Err(TextErr::TextFull(268_435_457)));
    Ok(())
}

#[test]
fn keeps_lines(rt: HostRuntime) -> Result<(), Fail> {
    let alloc = rt.alloc();
    let mut text = Text::of(Vec::new(alloc));
    assert!(rt; text.is_empty());
    let line = line_of(alloc, b"\x00\xff")?;
    text.push(line.clone()?)?;
    let bytes = line.into_vec();
    assert!(rt; bytes.as_slice() == b"\x00\xff".as_slice());
    text.push(line_of(alloc, b"d")?)?;
    assert!(rt; text.len() == 2);
    let whole = Text::of(text.into_lines());
    assert!(rt; write_text(alloc, &whole, Format::Unix)?.as_slice() == b"\x00\xff\nd\n".as_slice());
    Ok(())
}

#[test]
fn stores_lines(rt: HostRuntime) {
    let mut line = [0, 1, 255, 0, 13];
    to_stored(&mut line);
    assert!(rt; line == [10, 1, 255, 10, 13]);
    from_stored(&mut line);
    assert!(rt; line == [0, 1, 255, 0, 13]);
}
