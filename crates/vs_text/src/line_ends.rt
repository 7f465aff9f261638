// Where a line ends.
ghost use Rattle.std.specs.Prelude.{◌≡◌, ◌<◌, ◌++◌, ◌∷◌, MatchOption, length};
ghost use Rattle.vs_text.specs.Text.{IsLine};
ghost use Rattle.vs_text.specs.Documents.{LosesReturn};

use memchr::memchr;

/// The bytes before the first line end, and those after it; `None` where no line ends.
pub fn ended_line(bytes: &[u8]) -> Option<(&[u8], &[u8])>
    ensures { MatchOption result (IsLine bytes.now) (λ (line, rest). IsLine line.now × (bytes.now ≡ line.now ++ 10 ∷ rest.now) ×
        (length rest.now < length bytes.now)) }
{
    let end = memchr(b'\n', bytes)?;
    Some((&bytes[..end], &bytes[end + 1..]))
}

/// The bytes of a line without one byte 13 at their end. In a dos file it belongs to the line end.
pub fn without_return(line: &[u8]) -> &[u8]
    ensures { LosesReturn line.now result.now }
{
    let Some((last, front)) = line.split_last() else {
        return line;
    };
    if *last == b'\r' { front } else { line }
}
