// Whose line a line of the script of two sessions is.
ghost use Rattle.std.specs.Prelude.{◌≡◌, ◌+◌, List, ℕ, IfSome, MatchOption, take};
ghost use Rattle.vs_exparse.specs.Bytes.{max_line_bytes};
ghost use Rattle.vs_text.specs.Text.{IsLine};
ghost use Rattle.vs_script.specs.Ahead.{MeanSame};
ghost use Rattle.vs_split.specs.Tags.{LineOf, LineOfNone, tag_of};

use vs_family::Which;

/// How many bytes stand before a line of a session.
pub const PREFIX_BYTES: u8 = 2;

/// The session to which a line belongs, by its first two bytes, and the line without them; `None` where it begins with neither `1:` nor
/// `2:`. Of a line that is too long for any command its first 1,048,579 bytes are enough.
pub fn split(line: &[u8]) -> Option<(Which, &[u8])>
    requires { IsLine line.now }
    ensures tag { (more : List ℕ) → line.now ≡ take (max_line_bytes + 3) more → MatchOption result (tag_of more ≡ LineOfNone)
        (λ own. (rest : List ℕ) × (tag_of more ≡ LineOf own.0 rest) × MeanSame own.1.now rest) }
    ensures line { IfSome result (λ own. IsLine own.1.now) }
{
    if line.starts_with(b"1:") {
        return Some((Which::One, &line[2..]));
    }
    if line.starts_with(b"2:") {
        return Some((Which::Two, &line[2..]));
    }
    None
}
