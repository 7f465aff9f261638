// What a run comes to where a call fails, for each of its calls.
use crate::given::{Given, Plan, Ran, UNHINDERED, run_over};
use crate::results::outcome_name;
use std::alloc::{AllocError, Global};
use vs_machine::{Mark, Outcome};
use vs_scene::PlayErr;

// What a run came to: its status, how many lines it wrote and how many marks it has, how the first command ended that did not end well,
// and whether the call that failed was the last.
#[derive(Clone, Copy, PartialEq, Eq, Drop)]
struct Came {
    status: u8,
    lines: usize,
    marks: usize,
    failed: Option<Outcome>,
    is_last: bool,
}

// Calls in a row with which a run comes to the same.
#[derive(Clone, Copy, Drop)]
struct Group {
    first: u64,
    last: u64,
    came: Came,
}

fn first_failed(marks: &[Mark]) -> Option<Outcome> {
    for mark in marks {
        if mark.outcome != Outcome::Done {
            return Some(mark.outcome);
        }
    }
    None
}

fn came_of(ran: &Ran, failing: u64) -> Came {
    let output = ran.host.output();
    Came {
        status: ran.report.status,
        lines: output.iter().filter(|byte| **byte == b'\n').count(),
        marks: ran.report.marks.len(),
        failed: first_failed(&ran.report.marks),
        is_last: ran.host.calls() == failing,
    }
}

// Writes a group as a line of a text.
fn write_group(group: Group, out: &mut String) -> Result<(), AllocError> {
    let Came {
        status,
        lines,
        marks,
        failed,
        is_last,
    } = group.came;
    write!(out, "|{}", group.first)?;
    if group.first < group.last {
        write!(out, " to {}", group.last)?;
    }
    write!(out, ": status {status}, {lines} lines, {marks} marks")?;
    if let Some(outcome) = failed {
        write!(out, ", {}", outcome_name(outcome))?;
    }
    out.push_str(if is_last { ", the last call\n" } else { "\n" })
}

// The groups, the last of which is open.
#[derive(Drop)]
struct Groups<'a> {
    open: Option<Group>,
    out: &'a mut String,
}

impl<'a> Groups<'a> {
    fn close(&mut self) -> Result<(), AllocError> {
        match self.open {
            Some(group) => write_group(group, self.out),
            None => Ok(()),
        }
    }

    fn add(&mut self, call: u64, came: Came) -> Result<(), AllocError> {
        if let Some(group) = &mut self.open {
            if group.came == came {
                group.last = call;
                return Ok(());
            }
        }
        self.close()?;
        self.open = Some(Group {
            first: call,
            last: call,
            came,
        });
        Ok(())
    }
}

// What a run comes to in which a call fails. Where it ends there, its output is a first part of the whole one.
fn came_at(
    alloc: Global,
    given: &Given,
    arguments: &[String],
    failing: u64,
    whole: &[u8],
) -> Result<Came, PlayErr> {
    let stop = UNHINDERED.stop;
    let ran = run_over(alloc, given, Plan { failing, stop }, arguments)?;
    let came = came_of(&ran, failing);
    if came.is_last && !whole.starts_with(ran.host.output()) {
        return Err(PlayErr::NoAnswer);
    }
    Ok(came)
}

/// Writes what a run comes to for each call that fails.
pub(crate) fn write_faults(
    alloc: Global,
    given: &Given,
    arguments: &[String],
    out: &mut String,
) -> Result<(), PlayErr> {
    let whole = run_over(alloc, given, UNHINDERED, arguments)?.host;
    let mut groups = Groups { open: None, out };
    for failing in 1..=whole.calls() {
        let came = came_at(alloc, given, arguments, failing, whole.output())?;
        groups.add(failing, came)?;
    }
    Ok(groups.close()?)
}
