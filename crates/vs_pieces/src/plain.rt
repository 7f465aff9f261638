// The pieces of a dos file, without the byte 13 before each line end.
ghost use Rattle.std.specs.Prelude.{◌≡◌, ◌+◌, ◌<◌, ◌≤◌, ◌++◌, ℕ, List, IfOk, OnOk, length};
ghost use Rattle.vs_text.specs.Text.{IsLine};
ghost use Rattle.vs_text.specs.Documents.{plain_ends};
ghost use Rattle.vs_pieces.specs.Files.{held_back};

use std::alloc::AllocError;
use vs_text::{ended_line, without_return};

// Adds the byte 13 that was held back, unless the piece begins with the byte 10 to which it belongs.
fn append_held(holds: bool, piece: &[u8], into: &mut Vec<u8>) -> Result<(), AllocError>
    requires { 0 < length piece.now }
    ensures plain { OnOk result ((more : List ℕ) → into.old.items ++ plain_ends (held_back holds ++ (piece.now ++ more))
        ≡ into.new.items ++ plain_ends (piece.now ++ more)) }
    ensures size { OnOk result (length into.new.items ≤ length into.old.items + length (held_back holds)) }
{
    if !holds || piece[0] == b'\n' {
        return Ok(());
    }
    into.push(b'\r')?;
    Ok(())
}

// Adds the lines that end in a piece, and gives the bytes after them.
fn append_ended<'p>(piece: &'p [u8], into: &mut Vec<u8>) -> Result<&'p [u8], AllocError>
    ensures line { IfOk result (λ rest. IsLine rest.now) }
    ensures plain { IfOk result (λ rest. (more : List ℕ) → into.old.items ++ plain_ends (piece.now ++ more)
        ≡ into.new.items ++ plain_ends (rest.now ++ more)) }
    ensures size { IfOk result (λ rest. length into.new.items + length rest.now ≤ length into.old.items + length piece.now) }
{
    let mut rest = piece;
    'lines: while let Some((line, after)) = ended_line(rest) {
        into.extend_from_slice(without_return(line))?;
        into.push(b'\n')?;
        rest = after;
    }
    Ok(rest)
}

/// Adds the bytes of the next piece of a dos file to others, without the byte 13 before each line end. A byte 13 at the end of a piece is
/// held back; the answer is whether one is.
pub(crate) fn append_plain(
    holds: bool,
    piece: &[u8],
    into: &mut Vec<u8>,
) -> Result<bool, AllocError>
    ensures plain { IfOk result (λ after. (more : List ℕ) → into.old.items ++ plain_ends (held_back holds ++ (piece.now ++ more))
        ≡ into.new.items ++ plain_ends (held_back after ++ more)) }
    ensures size { IfOk result (λ after. length into.new.items + length (held_back after)
        ≤ length into.old.items + length (held_back holds) + length piece.now) }
{
    if piece.is_empty() {
        return Ok(holds);
    }
    append_held(holds, piece, into)?;
    let rest = append_ended(piece, into)?;
    let front = without_return(rest);
    into.extend_from_slice(front)?;
    Ok(front.len() < rest.len())
}
