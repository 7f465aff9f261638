// The listing of the changes of a history that have no children.
ghost use Rattle.std.specs.Prelude.{◌≡◌, ◌<◌, ◌≤◌, ◌++◌, ◌∷◌, [], ℕ, List, IfOk, OnOk, decimal, length};
ghost use Rattle.vs_text.specs.Text.{file_of};
ghost use Rattle.vs_undo.specs.History.{History, IsHistory};
ghost use Rattle.vs_machine.specs.Listing.{leaf_line, listed, listing, saved};
ghost use Rattle.vs_machine.specs.Replies.{prints};
ghost use Rattle.vs_machine.specs.Shown.{padded};

use crate::Reply;
use itoa::Buffer;
use std::alloc::{AllocError, Global};
use vs_undo::{Leaf, UndoTree};

/// The columns of the three fields of a line.
const NUMBER_WIDTH: usize = 6;

const CHANGES_WIDTH: usize = 8;

const SAVED_WIDTH: usize = 6;

// Adds a field, right in its columns.
fn push_field(field: &[u8], width: usize, into: &mut Vec<u8>) -> Result<(), AllocError>
    requires { width ≤ 8 }
    ensures { OnOk result (into.new.items ≡ into.old.items ++ padded width field.now) }
{
    let blanks = width.saturating_sub(field.len());
    into.resize(into.len() + blanks, b' ')?;
    into.extend_from_slice(field)?;
    Ok(())
}

// Adds a number, right in its columns.
fn push_number(number: u64, width: usize, into: &mut Vec<u8>) -> Result<(), AllocError>
    requires { width ≤ 8 }
    ensures { OnOk result (into.new.items ≡ into.old.items ++ padded width (decimal number)) }
{
    let mut digits = Buffer::new();
    push_field(digits.format(number).as_bytes(), width, into)
}

// Adds a save number, or a dash, right in its columns.
fn push_saved(save: u64, into: &mut Vec<u8>) -> Result<(), AllocError>
    ensures { OnOk result (into.new.items ≡ into.old.items ++ padded 6 (saved save)) }
{
    if save == 0 {
        push_field(b"-", SAVED_WIDTH, into)
    } else {
        push_number(save, SAVED_WIDTH, into)
    }
}

// Adds the line of one change.
fn push_leaf(leaf: &Leaf, into: &mut Vec<u8>) -> Result<(), AllocError>
    ensures { OnOk result (into.new.items ≡ into.old.items ++ (leaf_line leaf.now ++ 10 ∷ [])) }
{
    push_number(leaf.number, NUMBER_WIDTH, into)?;
    push_number(leaf.changes, CHANGES_WIDTH, into)?;
    push_saved(leaf.save, into)?;
    into.push(b'\n')?;
    Ok(())
}

// The bytes of a listing.
fn listed(alloc: Global, leaves: &[Leaf]) -> Result<Vec<u8>, AllocError>
    ensures bytes { IfOk result (λ bytes. bytes.items ≡ file_of (listed leaves.now)) }
    ensures some { IfOk result (λ bytes. 0 < length bytes.items) }
{
    let mut bytes = Vec::new(alloc);
    if leaves.is_empty() {
        bytes.extend_from_slice(b"Nothing to undo\n")?;
        return Ok(bytes);
    }
    bytes.extend_from_slice(b"number changes saved\n")?;
    for leaf in leaves {
        push_leaf(leaf, &mut bytes)?;
    }
    Ok(bytes)
}

/// The changes without children, as `:undolist` shows them.
pub(crate) fn undo_list(alloc: Global, tree: &UndoTree) -> Result<Reply, AllocError>
    ensures tree { IfOk result (λ reply. reply ≡ prints (listing tree.now.nodes)) }
    ensures history { IfOk result (λ reply. (text : List (List ℕ)) (history : History) → IsHistory tree.now text history
        → reply ≡ prints (listing history.links.nodes)) }
{
    let leaves = tree.leaves(alloc)?;
    Ok(Reply::printed(listed(alloc, &leaves)?))
}
