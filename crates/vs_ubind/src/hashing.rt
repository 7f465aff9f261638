// The digest of a text, whose lines are read in runs.
ghost use Rattle.std.specs.Prelude.{◌≡◌, ◌++◌, ◌∷◌, [], ℕ, List, IfOk, IsErrOf};
ghost use Rattle.sha2.specs.Hashers.{Holds256};
ghost use Rattle.vs_text.specs.Text.{stored_line};
ghost use Rattle.vs_edit.specs.Calls.{OnlyReads, StopsAtFault};
ghost use Rattle.vs_ubind.specs.Digest.{digest_of};

use sha2::{Digest, Sha256};
use std::alloc::Global;
use vs_edit::{LineStore, StoreErr};
use vs_reads::LineReader;
use vs_text::to_stored;

/// What stands after each line.
const LINE_END: [u8; 1] = [0];

// Feeds the stored form of a line, and the zero byte after it. The line is then in its stored form.
fn feed(hasher: &mut Sha256, line: &mut [u8])
    ensures { (fed : List ℕ) → Holds256 hasher.old fed → Holds256 hasher.new (fed ++ (stored_line line.old ++ 0 ∷ [])) }
{
    to_stored(line);
    hasher.update(&*line);
    hasher.update(&LINE_END);
}

/// SHA-256 over the stored form of a text, each line followed by one zero byte (docs/FORMATS.md, "Undo file"). A text without
/// lines has the digest of one empty line.
pub fn digest<S: LineStore>(alloc: Global, text: &mut S) -> Result<[u8; 32], StoreErr>
    requires { S.valid text.old }
    ensures digest { IfOk result (λ digest. (lines : List (List ℕ)) → (S.shows text.old).present.Is lines → digest ≡ digest_of lines) }
    ensures kept { OnlyReads S.LineStore text.old text.new }
    ensures cause { StopsAtFault S.LineStore (IsErrOf result StoreErr.Failed) text.old text.new }
{
    let count = text.len();
    if count == 0 {
        return Ok(Sha256::digest(&LINE_END));
    }
    let mut hasher = Sha256::new();
    let mut reader = LineReader::new(alloc, 0, count);
    let mut line = Vec::new(alloc);
    'lines: for _at in 0..count {
        reader.line(alloc, text, &mut line)?;
        feed(&mut hasher, &mut line);
    }
    Ok(hasher.finalize())
}
