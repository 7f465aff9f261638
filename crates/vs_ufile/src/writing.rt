// The parts of an undo file, each written at the end of the bytes.

ghost use Rattle.std.specs.Prelude.{◌≡◌, length, map, if◌then◌else◌, IfOk, OnOk};
ghost use Rattle.vs_text.specs.Text.{plain_line, stored_line};
ghost use Rattle.vs_ufile.specs.Format.{Each, InOrder, Is, IsNumber, sized};
ghost use Rattle.vs_ufile.specs.Values.{change_of, entry_of};
ghost use Rattle.vs_ufile.specs.Writing.{Puts, PutsAll, change_written, entry_written, line_written, links_written, save_written, state_written};

use crate::history::{FileChange, FileEntry};
use std::alloc::{AllocError, Global};
use vs_bytes::{put_be_u16, put_be_u32, put_be_u64};
use vs_text::{Line, to_stored};

pub fn put(out: &mut Vec<u8>, bytes: &[u8]) -> Result<(), AllocError>
    ensures { OnOk result (Puts (Is bytes.now) out.old.items out.new.items) }
{
    out.extend_from_slice(bytes)
}

pub fn put_u8(out: &mut Vec<u8>, n: u8) -> Result<(), AllocError>
    ensures { OnOk result (Puts (IsNumber 1 n) out.old.items out.new.items) }
{
    out.extend_from_slice(&[n])?;
    Ok(())
}

pub fn put_u16(out: &mut Vec<u8>, n: u16) -> Result<(), AllocError>
    ensures { OnOk result (Puts (IsNumber 2 n) out.old.items out.new.items) }
{
    let mut field = [0; 2];
    put_be_u16(&mut field, 0, n);
    out.extend_from_slice(&field)?;
    Ok(())
}

pub fn put_u32(out: &mut Vec<u8>, n: u32) -> Result<(), AllocError>
    ensures { OnOk result (Puts (IsNumber 4 n) out.old.items out.new.items) }
{
    let mut field = [0; 4];
    put_be_u32(&mut field, 0, n);
    out.extend_from_slice(&field)?;
    Ok(())
}

pub fn put_u64(out: &mut Vec<u8>, n: u64) -> Result<(), AllocError>
    ensures { OnOk result (Puts (IsNumber 8 n) out.old.items out.new.items) }
{
    let mut field = [0; 8];
    put_be_u64(&mut field, 0, n);
    out.extend_from_slice(&field)?;
    Ok(())
}

// The bytes after their length.
pub fn put_sized(out: &mut Vec<u8>, bytes: &[u8]) -> Result<(), AllocError>
    ensures { OnOk result (PutsAll (sized bytes.now) out.old.items out.new.items) }
{
    let size = count(bytes.len())?;
    put_u32(out, size)?;
    put(out, bytes)?;
    Ok(())
}

// A count that fits its field.
fn count(n: usize) -> Result<u32, AllocError>
    ensures { IfOk result (λ count. count ≡ n) }
{
    if n > 0xffff_ffff {
        return Err(AllocError);
    }
    Ok(n as u32)
}

fn stored_form(alloc: Global, line: &Line) -> Result<Vec<u8>, AllocError>
    ensures stored { IfOk result (λ stored. stored.items ≡ stored_line line.now) }
    ensures way_back { IfOk result (λ stored. plain_line stored.items ≡ line.now) }
{
    let mut stored = Vec::from_slice(alloc, line.bytes())?;
    to_stored(&mut stored);
    Ok(stored)
}

// A line after its length, in stored form.
fn put_line(out: &mut Vec<u8>, line: &Line) -> Result<(), AllocError>
    ensures { OnOk result (PutsAll (line_written line.now) out.old.items out.new.items) }
{
    let stored = stored_form(*out.allocator(), line)?;
    put_sized(out, &stored)?;
    Ok(())
}

fn put_lines(out: &mut Vec<u8>, lines: &[Line]) -> Result<(), AllocError>
    ensures { OnOk result (Puts (Each line_written lines.now) out.old.items out.new.items) }
{
    'lines: for line in lines {
        put_line(out, line)?;
    }
    Ok(())
}

fn put_entry(out: &mut Vec<u8>, entry: &FileEntry) -> Result<(), AllocError>
    ensures { OnOk result (PutsAll (entry_written (entry_of entry.now)) out.old.items out.new.items) }
{
    let size = count(entry.lines.len())?;
    put_u16(out, 0xf518)?;
    put_u32(out, entry.top)?;
    put_u32(out, entry.bottom)?;
    put_u32(out, entry.count)?;
    put_u32(out, size)?;
    put_lines(out, &entry.lines)?;
    Ok(())
}

fn put_entries(out: &mut Vec<u8>, entries: &[FileEntry]) -> Result<(), AllocError>
    ensures { OnOk result (Puts (Each entry_written (map entry_of entries.now)) out.old.items out.new.items) }
{
    'entries: for entry in entries {
        put_entry(out, entry)?;
    }
    Ok(())
}

// The save number as the one optional field, and the end of these fields.
pub fn put_save(out: &mut Vec<u8>, save: u32) -> Result<(), AllocError>
    ensures { OnOk result (PutsAll (save_written save) out.old.items out.new.items) }
{
    put_u8(out, 4)?;
    put_u8(out, 1)?;
    put_u32(out, save)?;
    put_u8(out, 0)?;
    Ok(())
}

fn put_links(out: &mut Vec<u8>, change: &FileChange) -> Result<(), AllocError>
    ensures { OnOk result (PutsAll (links_written (change_of change.now)) out.old.items out.new.items) }
{
    put_u32(out, change.next)?;
    put_u32(out, change.prev)?;
    put_u32(out, change.alt_next)?;
    put_u32(out, change.alt_prev)?;
    Ok(())
}

fn put_flags(out: &mut Vec<u8>, empty: bool) -> Result<(), AllocError>
    ensures { OnOk result (Puts (IsNumber 2 (if empty then 2 else 0)) out.old.items out.new.items) }
{
    put_u16(out, if empty { 2 } else { 0 })?;
    Ok(())
}

// Cursor, virtual column, flags, marks and visual area.
fn put_state(out: &mut Vec<u8>, empty: bool) -> Result<(), AllocError>
    ensures { OnOk result (PutsAll (state_written empty) out.old.items out.new.items) }
{
    put(out, &[0; 12])?;
    put(out, &[0; 4])?;
    put_flags(out, empty)?;
    put(out, &[0; 312])?;
    put(out, &[0; 24])?;
    put(out, &[0; 4])?;
    put(out, &[0; 4])?;
    Ok(())
}

pub fn put_change(out: &mut Vec<u8>, change: &FileChange) -> Result<(), AllocError>
    ensures { OnOk result (PutsAll (change_written (change_of change.now)) out.old.items out.new.items) }
{
    put_u16(out, 0x5fd0)?;
    put_links(out, change)?;
    put_u32(out, change.number)?;
    put_state(out, change.empty)?;
    put_u64(out, change.time)?;
    put_save(out, change.save)?;
    put_entries(out, &change.entries)?;
    put_u16(out, 0x3581)?;
    Ok(())
}
