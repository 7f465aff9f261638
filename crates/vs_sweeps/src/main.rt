//! Whole runs over a host in memory of which every stop is looked at, and in which every call fails in turn.
#![tactic(auto)]

use std::process::ExitCode;
use vs_play::serve;

fn main(rt: HostRuntime) -> ExitCode {
    serve(&rt)
}
