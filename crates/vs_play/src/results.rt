// The lines that say what came of a run.
use crate::given::{File, Ran};
use crate::words::{first_word, swap_name};
use std::alloc::{AllocError, Global};
use vs_host::Names;
use vs_machine::{Mark, Outcome};
use vs_memory::MemHost;
use vs_scene::{PlayErr, Step, show};

/// How a command ended, as a word.
pub(crate) fn outcome_name(outcome: Outcome) -> &'static str {
    match outcome {
        Outcome::Done => "done",
        Outcome::NoMemory => "nomemory",
        Outcome::Fault => "fault",
        Outcome::NoUndo => "noundo",
    }
}

// Writes how each command ended, with the time where it is not 0.
fn write_marks(marks: &[Mark], out: &mut String) -> Result<(), AllocError> {
    out.push_str("marks")?;
    for mark in marks {
        write!(out, " {}", outcome_name(mark.outcome))?;
        if mark.at != 0 {
            write!(out, "@{}", mark.at)?;
        }
    }
    out.push_str("\n")
}

// Writes a file, or that it is not there.
fn write_file(host: &MemHost, name: &str, out: &mut String) -> Result<(), AllocError> {
    match host.file(name) {
        Some(bytes) => {
            writeln!(out, "after {name}")?;
            show(bytes, out)
        }
        None => writeln!(out, "gone {name}"),
    }
}

// Writes how long a file is.
fn write_size(host: &MemHost, name: &str, out: &mut String) -> Result<(), AllocError> {
    match host.file(name) {
        Some(bytes) => writeln!(out, "size {name} {}", bytes.len()),
        None => writeln!(out, "gone {name}"),
    }
}

// Writes which swap files of a file are there.
fn write_swap(
    host: &MemHost,
    name: &str,
    names: &Names,
    out: &mut String,
) -> Result<(), AllocError> {
    let (first, second) = (names.swp.as_str(), names.swo.as_str());
    match (host.file(first), host.file(second)) {
        (Some(_), Some(_)) => writeln!(out, "swap {name}"),
        (Some(_), None) => writeln!(out, "only {first}"),
        (None, Some(_)) => writeln!(out, "only {second}"),
        (None, None) => writeln!(out, "no swap {name}"),
    }
}

// The names beside `f` under which a run may leave a file.
const SIDES: [&str; 10] = [
    "f",
    "f~",
    ".f.swp",
    ".f.swo",
    ".f.un~",
    "f.vsnew",
    "f~.vsnew",
    ".f.swp.vsnew",
    ".f.swo.vsnew",
    ".f.un~.vsnew",
];

fn is_in(names: &[String], name: &str) -> bool {
    names.iter().any(|it| it.as_str() == name)
}

/// Writes the files that are not as they were given, and were not asked about.
pub(crate) fn write_rest(
    files: &[File],
    asked: &[String],
    host: &MemHost,
    out: &mut String,
) -> Result<(), AllocError> {
    for file in files {
        let name = file.name.as_str();
        if !is_in(asked, name) && host.file(name) != Some(&file.bytes) {
            write_file(host, name, out)?;
        }
    }
    for name in SIDES {
        let is_given = files.iter().any(|file| file.name.as_str() == name);
        if !is_given && !is_in(asked, name) && host.file(name).is_some() {
            writeln!(out, "also {name}")?;
        }
    }
    Ok(())
}

// Writes bytes in digits.
fn write_hex(bytes: &[u8], out: &mut String) -> Result<(), AllocError> {
    for byte in bytes {
        write!(out, "{byte:02x}")?;
    }
    Ok(())
}

// Writes the bytes of a file at the place that a line `NAME PLACE DIGITS` says, as many as it has.
fn write_bytes(host: &MemHost, line: &str, out: &mut String) -> Result<(), PlayErr> {
    let (name, rest) = line.split_once(' ').ok_or(PlayErr::NoStep)?;
    let (place, digits) = rest.split_once(' ').ok_or(PlayErr::NoStep)?;
    let at: usize = place.parse().map_err(|_| PlayErr::NoStep)?;
    let end = at.saturating_add(digits.len() / 2);
    write!(out, "hex {name} {at} ")?;
    match host.file(name).and_then(|bytes| bytes.get(at..end)) {
        Some(bytes) => write_hex(bytes, out)?,
        None => out.push_str("none")?,
    }
    out.push_str("\n")?;
    Ok(())
}

/// The names of the files beside a file.
pub(crate) fn names_of(alloc: Global, name: &str) -> Result<Names, PlayErr> {
    Names::of(alloc, name).map_err(|_| PlayErr::NoStep)
}

/// Writes a result of a run. Answers whether the step asks for one.
pub(crate) fn write_result(ran: &Ran, step: &Step<'_>, into: &mut String) -> Result<bool, PlayErr> {
    match step.key() {
        "status" => writeln!(into, "status {}", ran.report.status)?,
        "output" => {
            into.push_str("output\n")?;
            show(ran.host.output(), into)?;
        }
        "marks" => write_marks(&ran.report.marks, into)?,
        "calls" => writeln!(into, "calls {}", ran.host.calls())?,
        _ => return Ok(false),
    }
    Ok(true)
}

/// Writes a result that is seen in a folder. Answers whether the step asks for one.
pub(crate) fn write_seen(
    alloc: Global,
    folder: &MemHost,
    step: &Step<'_>,
    into: &mut String,
) -> Result<bool, PlayErr> {
    let rest = step.rest();
    match step.key() {
        "after" | "gone" => write_file(folder, rest, into)?,
        "size" => write_size(folder, first_word(rest), into)?,
        "swap" | "no" => {
            let name = swap_name(step)?;
            write_swap(folder, name, &names_of(alloc, name)?, into)?;
        }
        "hex" => write_bytes(folder, rest, into)?,
        _ => return Ok(false),
    }
    Ok(true)
}
