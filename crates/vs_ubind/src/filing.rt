// How the changes of a tree are written down as those of an undo file.
ghost use Rattle.std.specs.Prelude.{◌≡◌, ◌≤◌, IfOk, length, map};
ghost use Rattle.std.specs.List.Sorted.{IsStrictlyIncreasing};
ghost use Rattle.vs_undo.specs.Numbers.{numbers};
ghost use Rattle.vs_undo.specs.Sound.{IsSound};
ghost use Rattle.vs_undo.specs.History.{next_save};
ghost use Rattle.vs_ufile.specs.Decode.{IsWellFormed};
ghost use Rattle.vs_ufile.specs.Values.{change_of, entry_of, history_of};
ghost use Rattle.vs_ubind.specs.Meaning.{Means};
ghost use Rattle.vs_ubind.specs.Passing.{alt_next_of, alt_prev_of};
ghost use Rattle.vs_ubind.specs.Unbound.{filed, filed_entry, flag_of, last_save_of, save_of, saved_change, with_next};

use crate::chaining::{alt_nexts, alt_prevs};
use crate::linking::{newest_of, time_of};
use std::alloc::{AllocError, Global};
use vs_entries::{Entry, each_line};
use vs_ufile::{FileChange, FileEntry, FileHistory};
use vs_undo::{MAX_SAVE, Node, Parts, last_child};

/// A number in the four bytes that a file has for it, where those of a tree at its text have room.
pub(crate) fn narrow(number: u64) -> Result<u32, AllocError>
    ensures { IfOk result (λ narrow. narrow ≡ number) }
{
    match u32::try_from(number) {
        Ok(narrow) => Ok(narrow),
        Err(_) => Err(AllocError),
    }
}

fn file_entry(alloc: Global, entry: &Entry) -> Result<FileEntry, AllocError>
    ensures { IfOk result (λ filed. entry_of filed ≡ filed_entry entry.now) }
{
    Ok(FileEntry {
        top: narrow(entry.top)?,
        bottom: narrow(entry.bottom)?,
        count: 0,
        lines: each_line(alloc, &entry.lines)?,
    })
}

fn file_entries(alloc: Global, entries: &[Entry]) -> Result<Vec<FileEntry>, AllocError>
    ensures { IfOk result (λ filed. map entry_of filed.items ≡ map filed_entry entries.now) }
{
    let mut filed = Vec::with_capacity(alloc, entries.len())?;
    'entries: for entry in entries {
        filed.push(file_entry(alloc, entry)?)?;
    }
    Ok(filed)
}

// The flag of the last entry.
fn flag_of(entries: &[Entry]) -> bool
    ensures { result ≡ flag_of entries.now }
{
    let mut flag = false;
    'entries: for entry in entries {
        flag = entry.empty;
    }
    flag
}

// The save number that the next write has.
fn next_save(parts: &Parts) -> u64
    requires { parts.now.last_save ≤ MAX_SAVE }
    ensures { result ≡ next_save parts.now }
{
    (parts.last_save + 1).min(MAX_SAVE)
}

// The save number of a change, or the one that it has after the next write.
fn save_of(parts: &Parts, save_next: bool, node: &Node) -> u64
    requires { parts.now.last_save ≤ MAX_SAVE }
    ensures { result ≡ save_of save_next parts.now node.now }
{
    if !save_next || parts.current == 0 {
        return node.save;
    }
    let next = next_save(parts);
    if node.number == parts.current {
        next
    } else if node.save == next {
        0
    } else {
        node.save
    }
}

// The last save number, or the one after the next write.
fn last_save_of(parts: &Parts, save_next: bool) -> u64
    requires { parts.now.last_save ≤ MAX_SAVE }
    ensures { result ≡ last_save_of save_next parts.now }
{
    if save_next {
        next_save(parts)
    } else {
        parts.last_save
    }
}

fn file_change(
    alloc: Global,
    parts: &Parts,
    save_next: bool,
    node: &Node,
    alt_next: u64,
    alt_prev: u64,
) -> Result<FileChange, AllocError>
    requires saves { parts.now.last_save ≤ MAX_SAVE }
    requires next { alt_next ≡ alt_next_of parts.now node.now }
    requires prev { alt_prev ≡ alt_prev_of parts.now node.now }
    ensures { IfOk result (λ filed. change_of filed ≡ saved_change save_next parts.now node.now) }
{
    Ok(FileChange {
        number: narrow(node.number)?,
        next: narrow(node.parent)?,
        prev: narrow(node.last_child)?,
        alt_next: narrow(alt_next)?,
        alt_prev: narrow(alt_prev)?,
        empty: flag_of(node.entries.entries()),
        time: node.time,
        save: narrow(save_of(parts, save_next, node))?,
        entries: file_entries(alloc, node.entries.entries())?,
    })
}

fn file_changes(
    alloc: Global,
    parts: &Parts,
    save_next: bool,
) -> Result<Vec<FileChange>, AllocError>
    requires rising { IsStrictlyIncreasing (numbers parts.now.nodes) }
    requires saves { parts.now.last_save ≤ MAX_SAVE }
    ensures { IfOk result (λ filed. map change_of filed.items ≡ map (saved_change save_next parts.now) parts.now.nodes) }
{
    let nodes = parts.nodes.nodes();
    let nexts = alt_nexts(alloc, parts)?;
    let prevs = alt_prevs(alloc, parts)?;
    let mut filed = Vec::with_capacity(alloc, nodes.len())?;
    'nodes: for i in 0..nodes.len() {
        let change = file_change(alloc, parts, save_next, &nodes[i], nexts[i], prevs[i])?;
        filed.push(change)?;
    }
    Ok(filed)
}

/// The data of an undo file for a tree, as it is or as it will be after the next write, at a text with this digest and this
/// number of stored lines.
pub(crate) fn file_tree(
    alloc: Global,
    parts: &Parts,
    save_next: bool,
    digest: [u8; 32],
    lines: u32,
) -> Result<FileHistory, AllocError>
    requires sound { IsSound parts.now }
    requires long { length digest ≡ 32 }
    ensures data { IfOk result (λ history. history_of history ≡ filed digest lines (with_next save_next parts.now)) }
    ensures means { IfOk result (λ history. Means (history_of history) (with_next save_next parts.now)) }
    ensures formed { IfOk result (λ history. IsWellFormed (history_of history)) }
{
    let changes = file_changes(alloc, parts, save_next)?;
    Ok(FileHistory {
        digest,
        lines,
        oldest: narrow(parts.root_child)?,
        newest: narrow(newest_of(parts))?,
        current_head: narrow(last_child(parts, parts.current))?,
        heads: narrow(changes.len() as u64)?,
        last: narrow(parts.last)?,
        current: narrow(parts.current)?,
        time: time_of(parts),
        last_save: narrow(last_save_of(parts, save_next))?,
        changes,
    })
}
