//! The program: its arguments, the script on standard input, replies on standard output, the file in the current folder. What
//! it does is `vs_top::run`; here are the real host and the help.
#![tactic(auto)]

mod help;
mod host;
mod retry;
mod rights;

use host::RealHost;
use std::alloc::AllocError;
use std::env;
use std::io::ErrorKind;
use std::process::ExitCode;
use vs_top::{Ending, run};

/// The arguments after the program's name. Where they are no text, there is one empty argument, which is no form.
fn arguments(rt: &HostRuntime) -> Result<Vec<String>, AllocError> {
    let mut arguments = Vec::new(rt.alloc());
    match env::args(rt) {
        Ok(all) => {
            for argument in all.skip(1) {
                arguments.push(argument)?;
            }
        }
        Err(error) => {
            if error.kind() == ErrorKind::OutOfMemory {
                return Err(AllocError);
            }
            arguments.push(String::new(rt.alloc()))?;
        }
    }
    Ok(arguments)
}

fn answer(rt: &HostRuntime, arguments: &[String]) -> Ending {
    if let [argument] = arguments {
        if let Some(text) = help::text_for(argument.as_str()) {
            return help::show(rt, text);
        }
    }
    let mut host = RealHost::new(*rt);
    run(rt.alloc(), arguments, &mut host).ending
}

fn main(rt: HostRuntime) -> ExitCode {
    let ending = match arguments(&rt) {
        Ok(arguments) => answer(&rt, arguments.as_slice()),
        Err(_) => Ending::NoMemory,
    };
    if let Some(line) = ending.message() {
        // Nothing is left to tell where even this line cannot be written.
        let _ = eprintln!(rt; "{line}");
    }
    ExitCode::from(ending.status())
}
