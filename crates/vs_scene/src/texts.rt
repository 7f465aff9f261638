// What the lines of a text stand for. `\xHH` is a byte, `\n` a newline, `\\` a backslash, `\{N*TEXT}` is TEXT N times, `\{NAME}` is a
// text that was given a name, and a backslash at a line's end leaves out its newline.
use crate::error::PlayErr;
use std::alloc::{AllocError, Global};

/// A text with a name.
#[derive(Drop)]
pub struct Piece {
    pub name: String,
    pub bytes: Vec<u8>,
}

// Where a reader of a line stands.
#[derive(Clone, Copy, Drop)]
enum Place {
    Plain,
    // After a backslash.
    Slash,
    // After `\x`.
    High,
    // After its first digit.
    Low(u8),
    // After `\{`.
    Braced,
    // In what is no text.
    Wrong,
}

fn digit_of(byte: u8) -> Option<u8> {
    match byte {
        b'0'..=b'9' => Some(byte - b'0'),
        b'a'..=b'f' => Some(byte - b'a' + 10),
        _ => None,
    }
}

// The place after a byte that follows a backslash, and the byte that is read there.
fn after_slash(byte: u8) -> (Place, Option<u8>) {
    match byte {
        b'x' => (Place::High, None),
        b'n' => (Place::Plain, Some(b'\n')),
        b'\\' => (Place::Plain, Some(byte)),
        _ => (Place::Wrong, None),
    }
}

// The place after a byte, and the byte that is read there.
fn after(place: Place, byte: u8) -> (Place, Option<u8>) {
    match place {
        Place::Plain if byte == b'\\' => (Place::Slash, None),
        Place::Plain => (Place::Plain, Some(byte)),
        Place::Slash => after_slash(byte),
        Place::High => match digit_of(byte) {
            Some(digit) => (Place::Low(digit), None),
            None => (Place::Wrong, None),
        },
        Place::Low(high) => match digit_of(byte) {
            Some(digit) => (Place::Plain, Some((high % 16) << 4 | digit)),
            None => (Place::Wrong, None),
        },
        Place::Braced | Place::Wrong => (Place::Wrong, None),
    }
}

// The bytes of a text without braces.
fn plain_text(alloc: Global, text: &[u8]) -> Result<Vec<u8>, PlayErr> {
    let mut bytes = Vec::new(alloc);
    let mut place = Place::Plain;
    for byte in text {
        let (next, read) = after(place, *byte);
        place = next;
        if let Some(read) = read {
            bytes.push(read)?;
        }
    }
    match place {
        Place::Plain => Ok(bytes),
        _ => Err(PlayErr::NoStep),
    }
}

fn add_often(unit: &[u8], count: u64, into: &mut Vec<u8>) -> Result<(), AllocError> {
    for _ in 0..count {
        into.extend_from_slice(unit)?;
    }
    Ok(())
}

// Adds what stands in braces.
fn add_braced(
    alloc: Global,
    pieces: &[Piece],
    inner: &str,
    into: &mut Vec<u8>,
) -> Result<(), PlayErr> {
    if let Some((count, unit)) = inner.split_once('*') {
        let count: u64 = count.parse().map_err(|_| PlayErr::NoStep)?;
        let unit = plain_text(alloc, unit.as_bytes())?;
        return Ok(add_often(unit.as_slice(), count, into)?);
    }
    for piece in pieces {
        if piece.name.as_str() == inner {
            return Ok(into.extend_from_slice(&piece.bytes)?);
        }
    }
    Err(PlayErr::NoStep)
}

// A reader of the lines of a text.
#[derive(Drop)]
struct Reader<'p> {
    alloc: Global,
    pieces: &'p [Piece],
    place: Place,
    inner: Vec<u8>,
    bytes: Vec<u8>,
}

impl<'p> Reader<'p> {
    fn close(&mut self) -> Result<(), PlayErr> {
        self.place = Place::Plain;
        let Ok(inner) = str::from_utf8(self.inner.as_slice()) else {
            return Err(PlayErr::NoStep);
        };
        add_braced(self.alloc, self.pieces, inner, &mut self.bytes)
    }

    fn take_plain(&mut self, byte: u8) -> Result<(), AllocError> {
        let (next, read) = after(self.place, byte);
        self.place = next;
        if let Some(read) = read {
            self.bytes.push(read)?;
        }
        Ok(())
    }

    fn take(&mut self, byte: u8) -> Result<(), PlayErr> {
        match self.place {
            Place::Braced if byte == b'}' => self.close(),
            Place::Braced => Ok(self.inner.push(byte)?),
            Place::Slash if byte == b'{' => {
                self.inner.clear();
                self.place = Place::Braced;
                Ok(())
            }
            _ => Ok(self.take_plain(byte)?),
        }
    }

    fn take_line(&mut self, line: &[u8]) -> Result<(), PlayErr> {
        self.place = Place::Plain;
        for byte in line {
            self.take(*byte)?;
        }
        match self.place {
            Place::Plain => Ok(self.bytes.push(b'\n')?),
            Place::Slash => Ok(()),
            _ => Err(PlayErr::NoStep),
        }
    }
}

/// The bytes that the lines of a text stand for.
pub fn text_of(alloc: Global, pieces: &[Piece], lines: &[&str]) -> Result<Vec<u8>, PlayErr> {
    let mut reader = Reader {
        alloc,
        pieces,
        place: Place::Plain,
        inner: Vec::new(alloc),
        bytes: Vec::new(alloc),
    };
    for line in lines {
        reader.take_line(line.as_bytes())?;
    }
    Ok(reader.bytes)
}

/// The argument that a word stands for; `""` is the empty one.
pub fn word_of(alloc: Global, word: &str) -> Result<String, PlayErr> {
    if word == "\"\"" {
        return Ok(String::new(alloc));
    }
    let bytes = plain_text(alloc, word.as_bytes())?;
    String::from_utf8(bytes).map_err(|_| PlayErr::NoStep)
}
