// The tree that the data of an undo file stands for.
ghost use Rattle.std.specs.Prelude.{◌≡◌, ◌==◌, IfOk, OnOk, map};
ghost use Rattle.std.specs.List.{position};
ghost use Rattle.std.specs.List.Sorted.{IsNonDecreasingBy, IsPermutation};
ghost use Rattle.vs_undo.specs.declared.parts.Node.{Node};
ghost use Rattle.vs_undo.specs.Sound.{IsSound};
ghost use Rattle.vs_ufile.specs.Decode.{KeepsRules};
ghost use Rattle.vs_ufile.specs.Descent.{IsLineage};
ghost use Rattle.vs_ufile.specs.Values.{change_of, history_of};
ghost use Rattle.vs_ubind.specs.Meaning.{Means, OneMeaning};
ghost use Rattle.vs_ubind.specs.Taken.{AreTaken, current_of};

use crate::numbering::{kept_save, last_of, last_save_of, savers_of};
use crate::taking::take_change;
use std::alloc::{AllocError, Global};
use vs_ufile::{FileChange, FileHistory, Lineage, lineage_of};
use vs_undo::{Node, Nodes, Parts};

// The changes of the tree, as they stand in the file.
fn taken(alloc: Global, changes: &[FileChange], lineage: &Lineage) -> Result<Vec<Node>, AllocError>
    requires { IsLineage (map change_of changes.now) lineage.now.parents.items lineage.now.children.items }
    ensures { IfOk result (λ nodes. AreTaken (map change_of changes.now) nodes.items) }
{
    let savers = savers_of(alloc, changes)?;
    let mut nodes = Vec::with_capacity(alloc, changes.len())?;
    'changes: for i in 0..changes.len() {
        let change = &changes[i];
        let save = kept_save(&savers, change);
        let parent = lineage.parents[i + 1];
        let child = lineage.children[i + 1];
        nodes.push(take_change(alloc, change, parent, child, save)?)?;
    }
    Ok(nodes)
}

fn sort(nodes: &mut Vec<Node>) -> Result<(), AllocError>
    ensures same { IsPermutation nodes.old.items nodes.new.items }
    ensures rising { OnOk result (IsNonDecreasingBy (λ (node : Node). node.number) nodes.new.items) }
{
    nodes.sort_by_key(|node| node.number)?;
    Ok(())
}

// The place of the change with this number.
fn place_of(nodes: &[Node], number: u64) -> Option<usize>
    ensures { result ≡ position (λ (node : Node). node.number == number) nodes.now }
{
    nodes.iter().position(|node| node.number == number)
}

// The current state.
fn current_of(nodes: &[Node], history: &FileHistory) -> u64
    ensures { result ≡ current_of nodes.now (history_of history.now) }
{
    if history.current_head == 0 {
        return history.newest as u64;
    }
    match place_of(nodes, history.current_head as u64) {
        Some(i) => nodes[i].parent,
        None => 0,
    }
}

/// The tree that the data of an undo file stands for (docs/FORMATS.md, "Undo file").
///
/// Over n changes it takes n log n steps.
pub fn parts_of(alloc: Global, history: &FileHistory) -> Result<Parts, AllocError>
    requires { KeepsRules (history_of history.now) }
    ensures sound { IfOk result IsSound }
    ensures means { IfOk result (Means (history_of history.now)) }
{
    let lineage = lineage_of(alloc, history)?;
    let mut nodes = taken(alloc, &history.changes, &lineage)?;
    sort(&mut nodes)?;
    let current = current_of(&nodes, history);
    Ok(Parts {
        nodes: Nodes::of(nodes),
        root_child: lineage.children[0] as u64,
        current,
        last: last_of(history) as u64,
        last_save: last_save_of(history) as u64,
    })
}

/// The data of an undo file stands for one tree at most, but for flags of entries that do not show.
pub fn one_meaning()
    ensures { OneMeaning }
{}
