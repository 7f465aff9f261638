// A whole undo file, written.

ghost use Rattle.std.specs.Prelude.{◌≡◌, ◌++◌, ℕ, List, length, map, IfOk, MatchResult, OnOk};
ghost use Rattle.vs_ufile.specs.Decode.{IsUndoFile, IsWellFormed, no_memory};
ghost use Rattle.vs_ufile.specs.Format.{Each};
ghost use Rattle.vs_ufile.specs.Values.{change_of, history_of};
ghost use Rattle.vs_ufile.specs.Writing.{IsWritten, Puts, PutsAll, change_written, front_written, numbers_written};

use crate::answer::decode;
use crate::fields::START;
use crate::history::{FileChange, FileHistory};
use crate::writing::{put, put_change, put_save, put_sized, put_u16, put_u32, put_u64};
use crate::{UfErr, UfKind};
use std::alloc::{AllocError, Global};

fn put_changes(out: &mut Vec<u8>, changes: &[FileChange]) -> Result<(), AllocError>
    ensures { OnOk result (Puts (Each change_written (map change_of changes.now)) out.old.items out.new.items) }
{
    'changes: for change in changes {
        put_change(out, change)?;
    }
    Ok(())
}

fn put_front(out: &mut Vec<u8>, history: &FileHistory) -> Result<(), AllocError>
    ensures { OnOk result (PutsAll (front_written history.now.digest history.now.lines) out.old.items out.new.items) }
{
    put(out, &START)?;
    put_u16(out, 2)?;
    put(out, &history.digest)?;
    put_u32(out, history.lines)?;
    put_sized(out, &[])?;
    put(out, &[0; 4])?;
    put(out, &[0; 4])?;
    Ok(())
}

fn put_numbers(out: &mut Vec<u8>, history: &FileHistory) -> Result<(), AllocError>
    ensures { OnOk result (PutsAll (numbers_written (history_of history.now)) out.old.items out.new.items) }
{
    put_u32(out, history.oldest)?;
    put_u32(out, history.newest)?;
    put_u32(out, history.current_head)?;
    put_u32(out, history.heads)?;
    put_u32(out, history.last)?;
    put_u32(out, history.current)?;
    Ok(())
}

/// Writes an undo file of version 2 (docs/FORMATS.md, "Undo file"), with the changes in the order that they stand in.
///
/// It answers no bytes where an entry has 2^32 lines or more, or a line 2^32 bytes or more: such a history has none.
pub fn encode(alloc: Global, history: &FileHistory) -> Result<Vec<u8>, AllocError>
    requires { IsWellFormed (history_of history.now) }
    // Each byte is the one that the format says is written.
    ensures bytes { IfOk result (λ bytes. IsWritten (history_of history.now) bytes.items) }
    // They are the history's, whatever follows them.
    ensures written { IfOk result (λ bytes. (more : List ℕ) → IsUndoFile (history_of history.now) (bytes.items ++ more)) }
{
    let mut out = Vec::new(alloc);
    put_front(&mut out, history)?;
    put_numbers(&mut out, history)?;
    put_u64(&mut out, history.time)?;
    put_save(&mut out, history.last_save)?;
    put_changes(&mut out, &history.changes)?;
    put_u16(&mut out, 0xe7aa)?;
    Ok(out)
}

/// Writes the history and reads it again with any bytes after it: the same history, unless memory runs out.
pub fn round_trip(alloc: Global, history: &FileHistory, more: &[u8]) -> Result<FileHistory, UfErr>
    requires { IsWellFormed (history_of history.now) }
    ensures { MatchResult result (λ again. history_of again ≡ history_of history.now) (λ e. e ≡ no_memory) }
{
    let no_memory = UfErr {
        kind: UfKind::NoMemory,
        at: 0,
        found: 0,
    };
    let Ok(mut bytes) = encode(alloc, history) else {
        return Err(no_memory);
    };
    let Ok(()) = bytes.extend_from_slice(more) else {
        return Err(no_memory);
    };
    let again = decode(alloc, &bytes);
    again
}
