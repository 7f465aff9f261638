//! Whole runs over a host in memory, scenario by scenario.
#![tactic(auto)]

use std::process::ExitCode;
use vs_play::serve;

fn main(rt: HostRuntime) -> ExitCode {
    serve(&rt)
}
