// Whether a splice may be asked for.
ghost use Rattle.std.specs.Prelude.{◌+◌, ◌≤◌, ◌↔◌, All, IsTrue};
ghost use Rattle.vs_text.specs.Text.{bytes_of};
ghost use Rattle.vs_text.specs.Limits.{IsShort};
ghost use Rattle.vs_text.specs.declared.TheConstants.{MAX_TEXT_BYTES};
ghost use Rattle.vs_edit.specs.Splices.{HasRoom};
ghost use Rattle.vs_edit.specs.State.{AllowsSplice};

use crate::LineStore;
use vs_text::{Line, MAX_LINE_BYTES, MAX_LINES, MAX_TEXT_BYTES};

/// Whether each of the lines has at most 1,048,576 bytes.
pub fn are_short(lines: &[Line]) -> bool
    ensures { IsTrue result ↔ All IsShort lines.now }
{
    for line in lines {
        if line.bytes().len() as u64 > MAX_LINE_BYTES {
            return false;
        }
    }
    true
}

/// Whether a text of `bytes` bytes, with one for each line end, has room for new lines as well.
pub fn has_room(bytes: u64, new: &[Line]) -> bool
    ensures { IsTrue result ↔ (bytes + bytes_of new.now ≤ MAX_TEXT_BYTES) }
{
    let mut sum = bytes;
    for line in new {
        sum = sum.saturating_add(line.bytes().len() as u64 + 1);
    }
    sum <= MAX_TEXT_BYTES
}

/// Whether a splice is allowed, however few bytes it takes out: its lines lie within the text, and there is room for the new
/// ones.
pub fn allows_splice<S: LineStore>(store: &S, top: u64, old: u64, new: &[Line]) -> bool
    requires { S.valid store.now }
    ensures room { IsTrue result ↔ HasRoom (S.shows store.now).present.lines (S.shows store.now).present.bytes top old new.now }
    ensures allowed { IsTrue result → AllowsSplice (S.shows store.now).present top old new.now }
{
    let len = store.len();
    let count = new.len() as u64;
    if count > MAX_LINES || old > len || top > len - old || len - old > MAX_LINES - count {
        return false;
    }
    are_short(new) && has_room(store.bytes(), new)
}
