// Marks of what was written.
ghost use Rattle.std.specs.Prelude.{◌≡◌, ◌≢◌, ◌<◌, ℕ, false, get_or, length, map};
ghost use Rattle.std.specs.List.Sorted.{IsStrictlyIncreasing};
ghost use Rattle.vs_undo.specs.Numbers.{numbers};
ghost use Rattle.vs_undo.specs.Sound.{IsSound};
ghost use Rattle.vs_undo.specs.declared.parts.Node.{Node};
ghost use Rattle.vs_undo.specs.History.{changed, marked, next_save, unmarked, with_save};

use crate::way::find;
use crate::{MAX_SAVE, Node, Nodes, Parts};

fn unmark_one(node: &mut Node, save: u64)
    ensures { node.new ≡ unmarked save node.old }
{
    if node.save == save {
        node.save = 0;
    }
}

fn unmark(nodes: &mut Nodes, save: u64)
    ensures { nodes.new ≡ map (unmarked save) nodes.old }
{
    for place in 0..nodes.nodes().len() {
        unmark_one(nodes.node_mut(place), save);
    }
}

// Takes a save number from the change that has it. Only the greatest one can be in use.
fn release(nodes: &mut Nodes, save: u64, in_use: bool)
    requires { in_use ≡ false → (k : ℕ) (d : Node) → k < length nodes.old → (get_or nodes.old k d).save ≢ save }
    ensures { nodes.new ≡ map (unmarked save) nodes.old }
{
    if in_use {
        unmark(nodes, save);
    }
}

fn set_save(nodes: &mut Nodes, number: u64, save: u64)
    requires { IsStrictlyIncreasing (numbers nodes.old) }
    ensures { nodes.new ≡ changed number (with_save save) nodes.old }
{
    if let Some(i) = find(nodes.nodes(), number) {
        nodes.node_mut(i).save = save;
    }
}

/// Puts the next save number on the current change.
pub(crate) fn mark(parts: &mut Parts) -> u64
    requires { IsSound parts.old }
    ensures marked { parts.new ≡ marked parts.old }
    ensures save { result ≡ next_save parts.old }
{
    let save = (parts.last_save + 1).min(MAX_SAVE);
    let in_use = parts.last_save == MAX_SAVE;
    if parts.current != 0 {
        release(&mut parts.nodes, save, in_use);
        set_save(&mut parts.nodes, parts.current, save);
    }
    parts.last_save = save;
    save
}
