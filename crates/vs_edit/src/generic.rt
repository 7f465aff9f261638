// Calls over any store.
ghost use Rattle.std.specs.Prelude.{◌≡◌, ℕ, List, IfOk, IsErrOf, length};
ghost use Rattle.vs_edit.specs.Calls.{OnlyReads, StopsAtFault};

use crate::{LineStore, StoreErr};
use std::alloc::Global;
use vs_text::{Line, Text};

/// The whole text of a store, read line by line.
pub fn text_of<S: LineStore>(alloc: Global, store: &mut S) -> Result<Text, StoreErr>
    requires { S.valid store.old }
    ensures text { IfOk result (λ whole. (text : List (List ℕ)) → (S.shows store.old).present.Is text → whole ≡ text) }
    ensures lines { IfOk result (λ whole. length whole ≡ (S.shows store.old).present.lines) }
    ensures kept { OnlyReads S.LineStore store.old store.new }
    ensures cause { StopsAtFault S.LineStore (IsErrOf result StoreErr.Failed) store.old store.new }
{
    let mut lines = Vec::new(alloc);
    for at in 0..store.len() {
        let mut line = Vec::new(alloc);
        store.line(alloc, at, &mut line)?;
        lines.push(Line::from_vec(line))?;
    }
    Ok(Text::of(lines))
}
