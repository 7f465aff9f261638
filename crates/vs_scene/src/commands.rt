// The commands of a script, as a plain reader takes them.
use std::alloc::{AllocError, Global};

/// A command with its block.
#[derive(Drop)]
pub struct Command<'a> {
    pub line: &'a str,
    pub block: Vec<&'a str>,
}

/// A command line in its parts.
#[derive(Clone, Copy, Drop)]
pub struct Parts<'a> {
    /// The lines that it is for.
    pub address: &'a str,
    pub word: &'a str,
    pub argument: &'a str,
}

impl<'a> Command<'a> {
    pub fn parts(&self) -> Parts<'a> {
        let rest = self.line.trim_start_matches(|it: char| it.is_ascii_digit()
            || it == '$'
            || it == ','
            || it == '%');
        let argument = rest.trim_start_matches(|it: char| it.is_ascii_alphabetic() || it == '=');
        Parts {
            address: self.line.strip_suffix(rest).unwrap_or(""),
            word: rest.strip_suffix(argument).unwrap_or(""),
            argument: argument.trim_start(),
        }
    }

    fn takes_block(&self) -> bool {
        let parts = self.parts();
        let words = ["a", "append", "i", "insert", "c", "change"];
        parts.argument.is_empty() && words.iter().any(|word| *word == parts.word)
    }
}

fn is_command(line: &str) -> bool {
    let line = line.trim_start();
    !line.is_empty() && line.strip_prefix('"').is_none()
}

// Adds a line to the block of the last command, and answers whether the block goes on.
fn add_to_block<'a>(commands: &mut Vec<Command<'a>>, line: &'a str) -> Result<bool, AllocError> {
    if line == "." {
        return Ok(false);
    }
    if let Some(command) = commands.last_mut() {
        command.block.push(line)?;
    }
    Ok(true)
}

/// The commands of a script.
pub fn commands_of(alloc: Global, script: &str) -> Result<Vec<Command<'_>>, AllocError> {
    let mut commands = Vec::new(alloc);
    let mut in_block = false;
    for line in script.lines() {
        if in_block {
            in_block = add_to_block(&mut commands, line)?;
        } else if is_command(line) {
            let block = Vec::new(alloc);
            let command = Command { line, block };
            in_block = command.takes_block();
            commands.push(command)?;
        }
    }
    Ok(commands)
}
