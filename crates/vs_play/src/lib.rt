//! Plays scenarios over a host in memory: files, a script and calls that fail, with what comes of a run over them.
//!
//! A scenario begins with a line `#` that says what it shows. Its lines are played in order and written as they came out, so that a
//! scenario is also what is expected of it. A text is the lines after a line that begin with `|`; docs/TESTED.md says how one is written.
#![tactic(auto)]

mod course;
mod faults;
mod given;
mod images;
mod player;
mod probes;
mod promises;
mod results;
mod sweeps;
mod views;
mod words;

use player::Player;
use std::alloc::Global;
use std::io;
use std::io::Write;
use std::process::ExitCode;
use vs_scene::{Refused, steps_of};

// Plays the scenarios of a text.
fn play(alloc: Global, text: &str, player: &mut Player) -> Result<(), Refused> {
    let mut line = 0;
    for step in &steps_of(alloc, text)? {
        line = step.number;
        player.play(step).map_err(|why| Refused { line, why })?;
    }
    player.finish().map_err(|why| Refused { line, why })
}

// Plays what is read, and writes what came of it, as far as it was played.
fn answer(rt: &HostRuntime) -> io::Result<u8> {
    let text = io::read_to_string(rt.alloc(), rt.reader())?;
    let mut player = Player::new(rt.alloc());
    let played = play(rt.alloc(), text.as_str(), &mut player);
    io::writer(rt).write_all(player.out().as_bytes())?;
    match played {
        Ok(()) => Ok(0),
        Err(refused) => {
            eprintln!(rt; "scenarios: {refused}")?;
            Ok(1)
        }
    }
}

/// Plays the scenarios of the standard input. The status is 1 where a line is none of a scenario.
pub fn serve(rt: &HostRuntime) -> ExitCode {
    match answer(rt) {
        Ok(status) => ExitCode::from(status),
        Err(_) => ExitCode::from(1),
    }
}
