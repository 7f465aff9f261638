// Patterns and replacements as they are written.
ghost use Rattle.std.specs.Prelude.{◌≡◌, ◌≤◌, ◌+◌, ◌∷◌, [], ℕ, length, IfNone, IfSome};
ghost use Rattle.vs_exparse.specs.Pieces.{pieces_of, width_of, field_len, field_of, after_field, in_pattern, is_pattern, in_replacement, is_replacement};
ghost use Rattle.std.specs.List.{list_all};

/// A byte of a pattern or a replacement, with or without a backslash in front (`:help :s`).
#[derive(Clone, Copy, Debug, PartialEq, Eq)]
pub struct Piece {
    /// Whether a backslash stands in front.
    pub escaped: bool,
    /// The byte; a backslash at the end of a text is one without a backslash in front.
    pub byte: u8,
}

/// The first piece of a text, and what is left. A piece takes one byte, or two with its backslash.
pub fn next_piece(text: &[u8]) -> Option<(Piece, &[u8])>
    ensures none { IfNone result (text.now ≡ []) }
    ensures piece { IfSome result (λ next. pieces_of text.now ≡ next.0 ∷ pieces_of next.1.now) }
    ensures width { IfSome result (λ next. length text.now ≡ width_of next.0 + length next.1.now) }
{
    match text {
        [] => None,
        [b'\\', byte, rest @ ..] => {
            let piece = Piece {
                escaped: true,
                byte: *byte,
            };
            Some((piece, rest))
        }
        [byte, rest @ ..] => {
            let piece = Piece {
                escaped: false,
                byte: *byte,
            };
            Some((piece, rest))
        }
    }
}

/// The length of what is written before the first plain slash, or of all.
fn field_len(text: &[u8]) -> usize
    ensures value { result ≡ field_len text.now }
    ensures within { result ≤ length text.now }
{
    let mut rest = text;
    'pieces: while let Some((piece, after)) = next_piece(rest) {
        if !piece.escaped && piece.byte == b'/' {
            break;
        }
        rest = after;
    }
    text.len() - rest.len()
}

/// What is written before the first plain slash, and what stands after that slash.
pub(crate) fn split_field(text: &[u8]) -> (&[u8], &[u8])
    ensures field { result.0.now ≡ field_of text.now }
    ensures after { result.1.now ≡ after_field text.now }
{
    let len = field_len(text);
    (
        text.split_at(len).0,
        text.split_at(text.len().min(len + 1)).1,
    )
}

fn in_pattern(piece: Piece) -> bool
    ensures { result ≡ in_pattern piece }
{
    if piece.escaped {
        matches!(piece.byte, b'\\' | b'/')
    } else {
        !matches!(piece.byte, b'\\' | b'/' | b'\n')
    }
}

fn has_pattern_pieces(text: &[u8]) -> bool
    ensures { result ≡ list_all in_pattern (pieces_of text.now) }
{
    let mut rest = text;
    'pieces: while let Some((piece, after)) = next_piece(rest) {
        if !in_pattern(piece) {
            return false;
        }
        rest = after;
    }
    true
}

pub(crate) fn is_pattern(text: &[u8]) -> bool
    ensures { result ≡ is_pattern text.now }
{
    !text.is_empty() && has_pattern_pieces(text)
}

fn in_replacement(piece: Piece) -> bool
    ensures { result ≡ in_replacement piece }
{
    if piece.escaped {
        matches!(piece.byte, b'&' | b'\\' | b'/' | b'~')
    } else {
        !matches!(piece.byte, b'\\' | b'/' | b'~' | b'\r' | b'\n')
    }
}

pub(crate) fn is_replacement(text: &[u8]) -> bool
    ensures { result ≡ is_replacement text.now }
{
    let mut rest = text;
    'pieces: while let Some((piece, after)) = next_piece(rest) {
        if !in_replacement(piece) {
            return false;
        }
        rest = after;
    }
    true
}
