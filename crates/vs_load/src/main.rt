//! A program to be measured: it fills a line tree over pages in memory, puts runs of lines into its middle or single ones in
//! place of others, and reads all lines; or it makes changes of one line each, and counts how many pages one of them works.
#![tactic(auto)]

mod changes;
mod counting;
mod error;
mod load;
mod words;
mod worked;

use changes::change;
use error::LoadErr;
use load::run;
use std::alloc::AllocError;
use std::process::ExitCode;
use std::{env, fmt, io};
use words::Task;

const USAGE: &str =
    "usage: vs_load fill LINES [once] | lines LINES | append LINES RUNS [SIZE] | replace LINES COUNT | change LINES COUNT";

/// The arguments after the program's name.
fn given_words(rt: &HostRuntime) -> io::Result<Vec<String>> {
    let mut words = Vec::new(rt.alloc());
    for word in env::args(rt)?.skip(1) {
        words.push(word)?;
    }
    Ok(words)
}

/// Shows what was counted. The status is 0, or 1 where that failed.
fn show<T: fmt::Display + Drop>(rt: &HostRuntime, counted: Result<T, LoadErr>) -> u8 {
    let shown = match counted {
        Ok(counts) => println!(rt; "{counts}"),
        Err(error) => {
            let _ = eprintln!(rt; "vs_load: {error}");
            return 1;
        }
    };
    u8::from(shown.is_err())
}

/// Carries a task out and shows what it counted.
fn answer(rt: &HostRuntime, task: Task) -> u8 {
    match task {
        Task::Load(load) => show(rt, run(rt.alloc(), load)),
        Task::Change(lines, changes) => show(rt, change(rt.alloc(), lines, changes)),
    }
}

fn main(rt: HostRuntime) -> ExitCode {
    let words = match given_words(&rt) {
        Ok(words) => words,
        Err(error) => {
            let _ = eprintln!(rt; "vs_load: {error}");
            return ExitCode::from(1);
        }
    };
    let Some(task) = Task::of(words.as_slice()) else {
        let _ = eprintln!(rt; "{USAGE}");
        return ExitCode::from(2);
    };
    ExitCode::from(answer(&rt, task))
}
