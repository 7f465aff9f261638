//! A program to be measured: it makes undo files, changes them as someone hostile might, reads each, and counts how many
//! were read and how many were refused, by each kind.
#![tactic(auto)]

mod mutation;
mod numbers;
mod reading;
mod shape;
mod tally;
mod words;

use reading::read_all;
use std::process::ExitCode;
use std::{env, io};
use words::Job;

const USAGE: &str = "usage: vs_mutate FILES SEED CHANGES [links]";

/// The arguments after the program's name.
fn given_words(rt: &HostRuntime) -> io::Result<Vec<String>> {
    let mut words = Vec::new(rt.alloc());
    for word in env::args(rt)?.skip(1) {
        words.push(word)?;
    }
    Ok(words)
}

/// Carries a job out and shows what it counted. The status is 0, or 1 where that failed.
fn answer(rt: &HostRuntime, job: Job) -> u8 {
    let shown = match read_all(rt.alloc(), job) {
        Ok(tally) => println!(rt; "{} files, {tally}", job.files),
        Err(error) => {
            let _ = eprintln!(rt; "vs_mutate: {error}");
            return 1;
        }
    };
    u8::from(shown.is_err())
}

fn main(rt: HostRuntime) -> ExitCode {
    let words = match given_words(&rt) {
        Ok(words) => words,
        Err(error) => {
            let _ = eprintln!(rt; "vs_mutate: {error}");
            return ExitCode::from(1);
        }
    };
    let Some(job) = Job::of(words.as_slice()) else {
        let _ = eprintln!(rt; "{USAGE}");
        return ExitCode::from(2);
    };
    ExitCode::from(answer(&rt, job))
}
