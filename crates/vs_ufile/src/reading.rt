// The parts of an undo file, each read from the front of the bytes.

ghost use Rattle.std.specs.Prelude.{map};
ghost use Rattle.std.specs.Option.{option_map};
ghost use Rattle.vs_ufile.specs.Values.{entry_of};
ghost use Rattle.vs_ufile.specs.Reading.{Gives, body, body_of, entries, entry, entry_or_end, front, line, lines, links, numbers, run};

use crate::UfKind;
use crate::fault::Stop;
use crate::fields::{
    flags, magic, marks, options, refusal, run, sized_run, start, u32_at, u64_at, version,
};
use crate::history::FileEntry;
use std::alloc::Global;
use vs_text::{Line, from_stored};

// A line after its length, from its stored form.
#[tactic(auto, unfolding(crate::specs::Reading::line))]
fn line(alloc: Global, bytes: &[u8]) -> Result<(Line, &[u8]), Stop>
    ensures { Gives (λ x. (x.0, x.1.now)) result (line bytes.now) }
{
    let (stored, rest) = sized_run(bytes)?;
    let mut line = Vec::from_slice(alloc, stored)?;
    from_stored(&mut line);
    Ok((Line::from_vec(line), rest))
}

fn lines(alloc: Global, bytes: &[u8], count: u32) -> Result<(Vec<Line>, &[u8]), Stop>
    ensures { Gives (λ x. (x.0.items, x.1.now)) result (lines count bytes.now) }
{
    let mut lines = Vec::new(alloc);
    let mut rest = bytes;
    'lines: for _ in 0..count {
        let (line, after) = line(alloc, rest)?;
        lines.push(line)?;
        rest = after;
    }
    Ok((lines, rest))
}

// An entry after its magic.
#[tactic(auto, unfolding(crate::specs::Reading::entry))]
fn entry(alloc: Global, bytes: &[u8]) -> Result<(FileEntry, &[u8]), Stop>
    ensures { Gives (λ x. (entry_of x.0, x.1.now)) result (entry bytes.now) }
{
    let (top, rest) = u32_at(bytes)?;
    let (bottom, rest) = u32_at(rest)?;
    let (count, rest) = u32_at(rest)?;
    let (size, rest) = u32_at(rest)?;
    let (lines, rest) = lines(alloc, rest, size)?;
    Ok((
        FileEntry {
            top,
            bottom,
            count,
            lines,
        },
        rest,
    ))
}

// An entry, or the magic that ends them.
#[tactic(auto, unfolding(crate::specs::Reading::entry_or_end))]
fn entry_or_end(alloc: Global, bytes: &[u8]) -> Result<(Option<FileEntry>, &[u8]), Stop>
    ensures { Gives (λ x. (option_map entry_of x.0, x.1.now)) result (entry_or_end bytes.now) }
{
    let (magic, rest) = magic(bytes, 0xf518, 0x3581)?;
    if magic == 0x3581 {
        return Ok((None, rest));
    }
    let (entry, rest) = entry(alloc, rest)?;
    Ok((Some(entry), rest))
}

fn entries(alloc: Global, bytes: &[u8]) -> Result<(Vec<FileEntry>, &[u8]), Stop>
    ensures { Gives (λ x. (map entry_of x.0.items, x.1.now)) result (entries bytes.now) }
{
    let mut entries = Vec::new(alloc);
    let mut rest = bytes;
    'entries: for _ in 0..bytes.len() + 1 {
        let (found, after) = entry_or_end(alloc, rest)?;
        match found {
            None => return Ok((entries, after)),
            Some(entry) => entries.push(entry)?,
        }
        rest = after;
    }
    Err(refusal(rest, UfKind::Truncated, 0))
}

// The links of a change.
#[derive(Drop)]
pub struct Links {
    pub next: u32,
    pub prev: u32,
    pub alt_next: u32,
    pub alt_prev: u32,
}

#[tactic(auto, unfolding(crate::specs::Reading::links))]
pub fn links_at(bytes: &[u8]) -> Result<(Links, &[u8]), Stop>
    ensures { Gives (λ x. (x.0, x.1.now)) result (links bytes.now) }
{
    let (next, rest) = u32_at(bytes)?;
    let (prev, rest) = u32_at(rest)?;
    let (alt_next, rest) = u32_at(rest)?;
    let (alt_prev, rest) = u32_at(rest)?;
    Ok((
        Links {
            next,
            prev,
            alt_next,
            alt_prev,
        },
        rest,
    ))
}

// What a change has after its number.
#[derive(Drop)]
pub struct Body {
    pub empty: bool,
    pub time: u64,
    pub save: u32,
    pub entries: Vec<FileEntry>,
}

#[tactic(auto, unfolding(crate::specs::Reading::body))]
pub fn body_at(alloc: Global, bytes: &[u8]) -> Result<(Body, &[u8]), Stop>
    ensures { Gives (λ x. (body_of x.0, x.1.now)) result (body bytes.now) }
{
    let (empty, rest) = flags(bytes)?;
    let (_marks, rest) = marks(rest)?;
    let (time, rest) = u64_at(rest)?;
    let (save, rest) = options(rest)?;
    let (entries, rest) = entries(alloc, rest)?;
    Ok((
        Body {
            empty,
            time,
            save,
            entries,
        },
        rest,
    ))
}

// The header up to the U line.
#[derive(Clone, Copy)]
pub struct Front {
    pub digest: [u8; 32],
    pub lines: u32,
}

fn digest(bytes: &[u8]) -> Result<([u8; 32], &[u8]), Stop>
    ensures { Gives (λ x. (x.0, x.1.now)) result (run 32 bytes.now) }
{
    if bytes.len() < 32 {
        return Err(refusal(bytes, UfKind::Truncated, 0));
    }
    let (front, rest) = bytes.split_at(32);
    let mut digest = [0; 32];
    digest.copy_from_slice(front);
    Ok((digest, rest))
}

#[tactic(auto, unfolding(crate::specs::Reading::front))]
pub fn front_at(bytes: &[u8]) -> Result<(Front, &[u8]), Stop>
    ensures { Gives (λ x. (x.0, x.1.now)) result (front bytes.now) }
{
    let (_start, rest) = start(bytes)?;
    let (_version, rest) = version(rest)?;
    let (digest, rest) = digest(rest)?;
    let (lines, rest) = u32_at(rest)?;
    let (_u_line, rest) = sized_run(rest)?;
    let (_u_number, rest) = run(rest, 4)?;
    let (_u_column, rest) = run(rest, 4)?;
    Ok((Front { digest, lines }, rest))
}

// The heads and counts of the header.
#[derive(Clone, Copy)]
pub struct Numbers {
    pub oldest: u32,
    pub newest: u32,
    pub current_head: u32,
    pub heads: u32,
    pub last: u32,
    pub current: u32,
}

#[tactic(auto, unfolding(crate::specs::Reading::numbers))]
pub fn numbers_at(bytes: &[u8]) -> Result<(Numbers, &[u8]), Stop>
    ensures { Gives (λ x. (x.0, x.1.now)) result (numbers bytes.now) }
{
    let (oldest, rest) = u32_at(bytes)?;
    let (newest, rest) = u32_at(rest)?;
    let (current_head, rest) = u32_at(rest)?;
    let (heads, rest) = u32_at(rest)?;
    let (last, rest) = u32_at(rest)?;
    let (current, rest) = u32_at(rest)?;
    Ok((
        Numbers {
            oldest,
            newest,
            current_head,
            heads,
            last,
            current,
        },
        rest,
    ))
}
