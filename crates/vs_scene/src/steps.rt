// The steps of an input. A step is a line, with a text of the lines after it that begin with `|`.
use crate::error::{PlayErr, Refused};
use std::alloc::{AllocError, Global};

#[derive(Drop)]
pub struct Step<'a> {
    /// The number of its line, from 1 on.
    pub number: u64,
    pub line: &'a str,
    /// The lines of its text, without the `|` before each.
    pub text: Vec<&'a str>,
}

impl<'a> Step<'a> {
    /// The first word.
    pub fn key(&self) -> &'a str {
        match self.line.split_once(' ') {
            Some((key, _)) => key,
            None => self.line,
        }
    }

    /// What stands after the first word.
    pub fn rest(&self) -> &'a str {
        match self.line.split_once(' ') {
            Some((_, rest)) => rest,
            None => "",
        }
    }
}

// Adds a line of the input to its steps, and answers whether it is one.
fn add<'a>(
    alloc: Global,
    steps: &mut Vec<Step<'a>>,
    number: u64,
    line: &'a str,
) -> Result<bool, AllocError> {
    if let Some(text) = line.strip_prefix('|') {
        return match steps.last_mut() {
            Some(step) => {
                step.text.push(text)?;
                Ok(true)
            }
            None => Ok(false),
        };
    }
    steps.push(Step {
        number,
        line,
        text: Vec::new(alloc),
    })?;
    Ok(true)
}

/// The steps of an input.
pub fn steps_of(alloc: Global, input: &str) -> Result<Vec<Step<'_>>, Refused> {
    let mut steps = Vec::new(alloc);
    let mut number = 0u64;
    for line in input.lines() {
        number = number.saturating_add(1);
        let why = match add(alloc, &mut steps, number, line) {
            Ok(true) => continue,
            Ok(false) => PlayErr::NoStep,
            Err(_) => PlayErr::NoMemory,
        };
        return Err(Refused { line: number, why });
    }
    Ok(steps)
}
