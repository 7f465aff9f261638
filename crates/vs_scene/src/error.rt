// Why a scenario could not be played.
use std::alloc::{AllocError, AllocFailed};
use std::fmt;

#[derive(Drop)]
pub enum PlayErr {
    NoMemory,
    /// The line is none of a scenario, or its text is none.
    NoStep,
    /// The file is there.
    Twice,
    /// There was no run of which something is asked.
    NoRun,
    /// The plain list of lines has no answer to a command or a reply.
    NoAnswer,
}

/// The line of a scenario, counted from 1, that could not be played.
#[derive(Drop)]
pub struct Refused {
    pub line: u64,
    pub why: PlayErr,
}

impl From<AllocError> for PlayErr {
    fn from(_error: AllocError) -> PlayErr {
        PlayErr::NoMemory
    }
}

impl<T: Drop> From<AllocFailed<T>> for PlayErr {
    fn from(_error: AllocFailed<T>) -> PlayErr {
        PlayErr::NoMemory
    }
}

impl fmt::Display for PlayErr {
    fn fmt<W: fmt::Write>(&self, f: &mut fmt::Formatter<W>) -> fmt::Result {
        let text = match self {
            PlayErr::NoMemory => "out of memory",
            PlayErr::NoStep => "no line of a scenario",
            PlayErr::Twice => "the file is there",
            PlayErr::NoRun => "there was no run",
            PlayErr::NoAnswer => "no command or reply that a sweep knows",
        };
        write!(f, "{text}")
    }
}

impl fmt::Display for Refused {
    fn fmt<W: fmt::Write>(&self, f: &mut fmt::Formatter<W>) -> fmt::Result {
        let line = self.line;
        let why = &self.why;
        write!(f, "line {line}: {why}")
    }
}
