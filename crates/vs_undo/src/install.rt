// Writes into the tree that follow a move. They take no memory.
ghost use Rattle.std.specs.Prelude.{◌≡◌, ◌+◌, ◌<◌, drop, length};
ghost use Rattle.vs_undo.specs.Meetings.{used_below};
ghost use Rattle.vs_undo.specs.Ways.{start_below};
ghost use Rattle.std.specs.List.Sorted.{IsStrictlyIncreasing};
ghost use Rattle.vs_undo.specs.Numbers.{numbers};
ghost use Rattle.vs_undo.specs.declared.parts.Node.{Node};
ghost use Rattle.vs_undo.specs.History.{changed, installed, with_child, with_entries};

use crate::way::find;
use crate::{Entries, Nodes, Parts};

fn set_entries(nodes: &mut Nodes, number: u64, entries: Entries)
    requires { IsStrictlyIncreasing (numbers nodes.old) }
    ensures { nodes.new ≡ changed number (with_entries entries) nodes.old }
{
    if let Some(i) = find(nodes.nodes(), number) {
        nodes.node_mut(i).entries = entries;
    }
}

fn set_last_child(nodes: &mut Nodes, number: u64, child: u64)
    requires { IsStrictlyIncreasing (numbers nodes.old) }
    ensures { nodes.new ≡ changed number (λ (node : Node). record node { last_child = child }) nodes.old }
{
    if let Some(i) = find(nodes.nodes(), number) {
        nodes.node_mut(i).last_child = child;
    }
}

/// Puts the turned entries into the changes of a path.
pub(crate) fn install(nodes: &mut Nodes, path: &[u64], turned: Vec<Entries>)
    requires rising { IsStrictlyIncreasing (numbers nodes.old) }
    requires count { length turned.items ≡ length path.now }
    ensures { nodes.new ≡ installed path.now turned.items nodes.old }
{
    let mut at = 0;
    for entries in turned {
        set_entries(nodes, path[at], entries);
        at += 1;
    }
}

pub(crate) fn set_child(parts: &mut Parts, parent: u64, child: u64)
    requires { IsStrictlyIncreasing (numbers parts.old.nodes) }
    ensures { parts.new ≡ with_child parent child parts.old }
{
    if parent == 0 {
        parts.root_child = child;
    } else {
        set_last_child(&mut parts.nodes, parent, child);
    }
}

// The state after which a part of a way, which ends below a state, goes on from its place `k`.
fn parent_on(way: &[u64], top: u64, k: usize) -> u64
    requires { k < length way.now }
    ensures { result ≡ start_below (drop (k + 1) way.now) top }
{
    if k + 1 < way.len() { way[k + 1] } else { top }
}

/// Makes each state on a part of a way, which ends below a state, the child last used of its parent.
pub(crate) fn use_below(parts: &mut Parts, way: &[u64], top: u64)
    requires { IsStrictlyIncreasing (numbers parts.old.nodes) }
    ensures { parts.new ≡ used_below way.now top parts.old }
{
    for k in 0..way.len() {
        set_child(parts, parent_on(way, top, k), way[k]);
    }
}
