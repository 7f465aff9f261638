// A text as a plain list of lines, and what a command of the text makes of it.
use crate::commands::{Command, Parts};
use crate::error::PlayErr;
use std::alloc::{AllocError, Global};

/// The lines that a command is for, counted from 1.
#[derive(Clone, Copy, Drop)]
pub struct Range {
    pub first: usize,
    pub last: usize,
}

fn line_number(text: &str, count: usize) -> Option<usize> {
    match text {
        "$" => Some(count),
        _ => text.parse().ok(),
    }
}

/// The lines that an address is for, in a text of so many.
pub fn range_of(address: &str, count: usize) -> Option<Range> {
    if address == "%" {
        return Some(Range {
            first: 1,
            last: count,
        });
    }
    let (first, last) = match address.split_once(',') {
        Some(both) => both,
        None => (address, address),
    };
    Some(Range {
        first: line_number(first, count)?,
        last: line_number(last, count)?,
    })
}

fn part(lines: &[String], from: usize, to: usize) -> &[String] {
    match lines.get(from..to) {
        Some(part) => part,
        None => &[],
    }
}

/// A copy of the parts, one after the other.
fn copied(alloc: Global, parts: &[&[String]]) -> Result<Vec<String>, AllocError> {
    let mut lines = Vec::new(alloc);
    for part in parts {
        for line in *part {
            lines.push(line.clone()?)?;
        }
    }
    Ok(lines)
}

fn owned(alloc: Global, lines: &[&str]) -> Result<Vec<String>, AllocError> {
    let mut list = Vec::new(alloc);
    for line in lines {
        list.push(String::from_str(alloc, line)?)?;
    }
    Ok(list)
}

/// The lines of a text.
pub fn lines_of(alloc: Global, text: &str) -> Result<Vec<String>, AllocError> {
    let mut list = Vec::new(alloc);
    for line in text.lines() {
        list.push(String::from_str(alloc, line)?)?;
    }
    Ok(list)
}

/// A text as the bytes of a file.
pub fn file_of(alloc: Global, lines: &[String]) -> Result<Vec<u8>, AllocError> {
    let mut bytes = Vec::new(alloc);
    for line in lines {
        bytes.extend_from_slice(line.as_bytes())?;
        bytes.push(b'\n')?;
    }
    Ok(bytes)
}

// Adds a line to one that it is joined with.
fn join(left: &mut String, line: &str) -> Result<(), AllocError> {
    let rest = line.trim_start();
    let is_apart = left.is_empty() || rest.is_empty() || rest.strip_prefix(')').is_some();
    if !is_apart {
        left.push_str(" ")?;
    }
    left.push_str(rest)
}

fn joined(alloc: Global, lines: &[String]) -> Result<Vec<String>, AllocError> {
    let mut left = String::new(alloc);
    for line in lines {
        if left.is_empty() {
            left.push_str(line.as_str())?;
        } else {
            join(&mut left, line.as_str())?;
        }
    }
    let mut all = Vec::new(alloc);
    all.push(left)?;
    Ok(all)
}

// A line with the first match replaced.
fn replaced(alloc: Global, line: &str, old: &str, new: &str) -> Result<String, AllocError> {
    match line.split_once(old) {
        Some((before, after)) => format!(in alloc; "{before}{new}{after}"),
        None => String::from_str(alloc, line),
    }
}

// The lines in which the pattern of `s` is replaced.
fn substituted(alloc: Global, lines: &[String], argument: &str) -> Result<Vec<String>, PlayErr> {
    let rest = argument.strip_prefix("/\\V").ok_or(PlayErr::NoAnswer)?;
    let (old, rest) = rest.split_once('/').ok_or(PlayErr::NoAnswer)?;
    let new = rest.trim_end_matches('/');
    let mut all = Vec::new(alloc);
    for line in lines {
        all.push(replaced(alloc, line.as_str(), old, new)?)?;
    }
    Ok(all)
}

// The lines with those of a range moved below a line.
fn moved(
    alloc: Global,
    lines: &[String],
    range: Range,
    below: usize,
) -> Result<Vec<String>, AllocError> {
    let before = range.first.saturating_sub(1);
    let end = lines.len();
    let own = part(lines, before, range.last);
    if range.last <= below {
        let between = part(lines, range.last, below);
        return copied(
            alloc,
            &[
                part(lines, 0, before),
                between,
                own,
                part(lines, below, end),
            ],
        );
    }
    let between = part(lines, below, before);
    copied(
        alloc,
        &[
            part(lines, 0, below),
            own,
            between,
            part(lines, range.last, end),
        ],
    )
}

// The lines with those of a range in place of others.
fn exchanged(
    alloc: Global,
    lines: &[String],
    range: Range,
    new: &[String],
) -> Result<Vec<String>, AllocError> {
    let head = part(lines, 0, range.first.saturating_sub(1));
    copied(alloc, &[head, new, part(lines, range.last, lines.len())])
}

// The lines with others put after one.
fn put_after(
    alloc: Global,
    lines: &[String],
    line: usize,
    new: &[String],
) -> Result<Vec<String>, AllocError> {
    copied(
        alloc,
        &[part(lines, 0, line), new, part(lines, line, lines.len())],
    )
}

// What a command with a block makes of a text.
fn with_block(
    alloc: Global,
    lines: &[String],
    range: Range,
    word: &str,
    block: &[String],
) -> Result<Vec<String>, PlayErr> {
    match word {
        "a" | "append" => Ok(put_after(alloc, lines, range.last, block)?),
        "i" | "insert" => Ok(put_after(alloc, lines, range.last.saturating_sub(1), block)?),
        "c" | "change" => Ok(exchanged(alloc, lines, range, block)?),
        _ => Err(PlayErr::NoAnswer),
    }
}

// What a command without a block makes of a text.
fn without_block(
    alloc: Global,
    lines: &[String],
    range: Range,
    parts: Parts<'_>,
) -> Result<Vec<String>, PlayErr> {
    let own = part(lines, range.first.saturating_sub(1), range.last);
    let below = line_number(parts.argument, lines.len()).ok_or(PlayErr::NoAnswer);
    match parts.word {
        "d" | "delete" => Ok(exchanged(alloc, lines, range, &[])?),
        "m" | "move" => Ok(moved(alloc, lines, range, below?)?),
        "co" | "copy" | "t" => Ok(put_after(alloc, lines, below?, own)?),
        "j" | "join" => {
            let line = joined(alloc, own)?;
            Ok(exchanged(alloc, lines, range, line.as_slice())?)
        }
        "s" | "substitute" => {
            let new = substituted(alloc, own, parts.argument)?;
            Ok(exchanged(alloc, lines, range, new.as_slice())?)
        }
        _ => Err(PlayErr::NoAnswer),
    }
}

/// What a command that was answered with a change makes of a text. Its address says lines by number, `$` or `%`.
pub fn changed(
    alloc: Global,
    lines: &[String],
    command: &Command<'_>,
) -> Result<Vec<String>, PlayErr> {
    let parts = command.parts();
    let range = range_of(parts.address, lines.len()).ok_or(PlayErr::NoAnswer)?;
    if command.block.is_empty() {
        return without_block(alloc, lines, range, parts);
    }
    let block = owned(alloc, &command.block)?;
    with_block(alloc, lines, range, parts.word, block.as_slice())
}
