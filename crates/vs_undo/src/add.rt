// A change is added to the tree.
ghost use Rattle.std.specs.Prelude.{◌≡◌, ◌∷◌, [], OnOk, OnErr};
ghost use Rattle.vs_undo.specs.History.{pushed};
ghost use Rattle.vs_undo.specs.Sound.{AreNumbers};

use crate::install::set_child;
use crate::{Entries, Node, Parts};
use std::alloc::{AllocError, Global};
use vs_entries::Entry;

/// Adds a change with the entry that leads back from it.
pub(crate) fn push(
    alloc: Global,
    parts: &mut Parts,
    back: Entry,
    time: u64,
) -> Result<(), AllocError>
    requires { AreNumbers parts.old }
    ensures ok { OnOk result (parts.new ≡ pushed (back ∷ []) time parts.old) }
    ensures err { OnErr result (parts.new ≡ parts.old) }
{
    let mut entries = Vec::with_capacity(alloc, 1)?;
    entries.push(back)?;
    let number = parts.last + 1;
    let node = Node {
        number,
        parent: parts.current,
        last_child: 0,
        time,
        save: 0,
        entries: Entries::of(entries),
    };
    parts.nodes.push(node)?;
    set_child(parts, parts.current, number);
    parts.current = number;
    parts.last = number;
    Ok(())
}
