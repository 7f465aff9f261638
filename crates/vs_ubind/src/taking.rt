// How the changes of an undo file are taken as those of a tree.
ghost use Rattle.std.specs.Prelude.{◌≡◌, ◌<◌, ◌+◌, ◌==◌, ◌&&◌, [], IfOk, map};
ghost use Rattle.vs_ufile.specs.Values.{change_of, entry_of};
ghost use Rattle.vs_ubind.specs.Meaning.{entries_in, flagged, taken};
ghost use Rattle.vs_ubind.specs.Taken.{taken_change};

use std::alloc::{AllocError, Global};
use vs_entries::Entry;
use vs_pieces::EndedLines;
use vs_text::{Line, append_lines};
use vs_ufile::{FileChange, FileEntry};
use vs_undo::{Entries, Node};

// Copies of lines in one run of bytes.
fn ended_lines(alloc: Global, lines: &[Line]) -> Result<EndedLines, AllocError>
    ensures { IfOk result (λ ended. ended ≡ lines.now) }
{
    let mut bytes = Vec::new(alloc);
    append_lines(lines, &mut bytes)?;
    let mut ended = EndedLines::new(alloc);
    ended.append(&bytes)?;
    Ok(ended)
}

// An entry of the file, with this flag.
fn take_entry(alloc: Global, entry: &FileEntry, flag: bool) -> Result<Entry, AllocError>
    ensures { IfOk result (λ own. own ≡ taken flag (entry_of entry.now)) }
{
    Ok(Entry {
        top: entry.top as u64,
        bottom: entry.bottom as u64,
        lines: ended_lines(alloc, &entry.lines)?,
        empty: flag,
    })
}

// The flag of the entry at a place, which the last one alone has.
fn flag_at(flag: bool, place: usize, count: usize) -> bool
    requires { place < count }
    ensures { result ≡ (flag && (place + 1 == count)) }
{
    flag && place + 1 == count
}

// Entries of the file, of which the last one has this flag.
fn take_flagged(alloc: Global, entries: &[FileEntry], flag: bool) -> Result<Vec<Entry>, AllocError>
    ensures { IfOk result (λ own. own.items ≡ flagged flag (map entry_of entries.now)) }
{
    let mut own = Vec::with_capacity(alloc, entries.len())?;
    'entries: for i in 0..entries.len() {
        let own_flag = flag_at(flag, i, entries.len());
        own.push(take_entry(alloc, &entries[i], own_flag)?)?;
    }
    Ok(own)
}

// The entry that exchanges nothing, in a list.
fn no_exchange(alloc: Global, flag: bool) -> Result<Vec<Entry>, AllocError>
    ensures { IfOk result (λ own. own.items ≡ entries_in flag []) }
{
    let mut own = Vec::with_capacity(alloc, 1)?;
    own.push(Entry {
        top: 0,
        bottom: 1,
        lines: EndedLines::new(alloc),
        empty: flag,
    })?;
    Ok(own)
}

// The entries of a change.
fn take_entries(alloc: Global, entries: &[FileEntry], flag: bool) -> Result<Vec<Entry>, AllocError>
    ensures { IfOk result (λ own. own.items ≡ entries_in flag (map entry_of entries.now)) }
{
    if entries.is_empty() {
        return no_exchange(alloc, flag);
    }
    take_flagged(alloc, entries, flag)
}

/// A change of the tree, with this parent, child last used and save number.
pub(crate) fn take_change(
    alloc: Global,
    change: &FileChange,
    parent: u32,
    child: u32,
    save: u32,
) -> Result<Node, AllocError>
    ensures { IfOk result (λ node. node ≡ taken_change (change_of change.now) parent child save) }
{
    let entries = take_entries(alloc, &change.entries, change.empty)?;
    Ok(Node {
        number: change.number as u64,
        parent: parent as u64,
        last_child: child as u64,
        time: change.time,
        save: save as u64,
        entries: Entries::of(entries),
    })
}
