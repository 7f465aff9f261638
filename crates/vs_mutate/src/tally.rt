// The answers, counted.

ghost use Rattle.std.specs.Prelude.{◌≡◌, ◌<◌, ◌+◌, ◌^◌};
ghost use Rattle.vs_mutate.specs.Tallies.{answers, counted, none};

use std::fmt;
use vs_ufile::{FileHistory, UfErr, UfKind};

/// How many files were read, and how many were refused by each kind, and the bytes of all.
#[derive(Clone, Copy, Debug, PartialEq, Eq)]
pub struct Tally {
    pub read: u64,
    pub not_undo: u64,
    pub version: u64,
    pub encrypted: u64,
    pub truncated: u64,
    pub bad_magic: u64,
    pub too_many_heads: u64,
    pub double_number: u64,
    pub number_zero: u64,
    pub unknown_link: u64,
    pub not_a_tree: u64,
    pub no_memory: u64,
    /// Counted modulo 2^64.
    pub bytes: u64,
}

impl Tally {
    pub fn none() -> Tally
        ensures { result ≡ none }
    {
        Tally {
            read: 0,
            not_undo: 0,
            version: 0,
            encrypted: 0,
            truncated: 0,
            bad_magic: 0,
            too_many_heads: 0,
            double_number: 0,
            number_zero: 0,
            unknown_link: 0,
            not_a_tree: 0,
            no_memory: 0,
            bytes: 0,
        }
    }

    /// Counts what was answered for these bytes.
    pub fn count(&mut self, bytes: &[u8], answer: &Result<FileHistory, UfErr>)
        requires { answers self.old + 1 < 2 ^ 64 }
        ensures { self.new ≡ counted bytes.now answer.now self.old }
    {
        self.bytes = self.bytes.wrapping_add(bytes.len() as u64);
        match answer {
            Ok(_) => self.read += 1,
            Err(error) => match error.kind {
                UfKind::NotUndo => self.not_undo += 1,
                UfKind::Version => self.version += 1,
                UfKind::Encrypted => self.encrypted += 1,
                UfKind::Truncated => self.truncated += 1,
                UfKind::BadMagic => self.bad_magic += 1,
                UfKind::TooManyHeads => self.too_many_heads += 1,
                UfKind::DoubleNumber => self.double_number += 1,
                UfKind::NumberZero => self.number_zero += 1,
                UfKind::UnknownLink => self.unknown_link += 1,
                UfKind::NotATree => self.not_a_tree += 1,
                UfKind::NoMemory => self.no_memory += 1,
            },
        }
    }
}

impl fmt::Display for Tally {
    fn fmt<W: fmt::Write>(&self, f: &mut fmt::Formatter<W>) -> fmt::Result {
        write!(
            f,
            "{} bytes, {} read; refused: {} not undo, {} version, {} encrypted, ",
            self.bytes, self.read, self.not_undo, self.version, self.encrypted
        )?;
        write!(
            f,
            "{} truncated, {} bad magic, {} too many heads, {} double number, ",
            self.truncated, self.bad_magic, self.too_many_heads, self.double_number
        )?;
        write!(
            f,
            "{} number zero, {} unknown link, {} not a tree, {} no memory",
            self.number_zero, self.unknown_link, self.not_a_tree, self.no_memory
        )
    }
}
