// Lines that are kept as bytes.
ghost use Rattle.std.specs.Prelude.{◌≡◌, ◌≤◌, ◌<◌, ◌+◌, ◌++◌, [], ℕ, List, IfOk, OnErr, OnOk, drop, get_or, length, take};
ghost use Rattle.vs_text.specs.Text.{IsLine, IsText, bytes_of, file_of};
ghost use Rattle.vs_edit.specs.Splices.{HoldsLines, cut_out};

use std::alloc::{AllocError, Global};
use std::marker::Model;
use vs_reads::line_len;
use vs_text::Line;

/// Lines as their bytes, each with its newline, from which the first ones go. No line has memory of its own.
#[derive(Drop)]
pub struct Ahead {
    // The bytes of the lines stand from the byte at `from` on, and so many lines they are.
    run: Vec<u8>,
    from: usize,
    held: usize,
}

impl Model for Ahead {
    ghost use Rattle.std.specs.Prelude.{ℕ, List, drop};
    ghost use Rattle.vs_text.specs.Text.{lines_of};
    ghost use Rattle.vs_gap.specs.Ahead.{IsAhead};

    ghost Value = { List (List ℕ) };

    ghost view = { λ a. lines_of (drop a.from a.run.items) };

    ghost invariant = { λ a. IsAhead a.run.items a.from a.held };
}

impl Ahead {
    /// No lines. No memory is taken.
    pub fn new(alloc: Global) -> Ahead
        ensures { result ≡ [] }
    {
        Ahead {
            run: Vec::new(alloc),
            from: 0,
            held: 0,
        }
    }

    /// The number of lines.
    pub fn len(&self) -> usize
        ensures { result ≡ length self.now }
    {
        self.held
    }

    // The bytes of the lines.
    fn rest(&self) -> &[u8]
        ensures form { result.now ≡ file_of self.now }
        ensures size { length result.now ≡ bytes_of self.now }
        ensures text { IsText self.now }
    {
        &self.run[self.from..]
    }

    // The number of bytes of the first lines.
    fn size(&self, count: usize) -> usize
        requires { count ≤ length self.now }
        ensures is { result ≡ bytes_of (take count self.now) }
        ensures within { result ≤ bytes_of self.now }
    {
        let rest = self.rest();
        let mut size = 0;
        for _ in 0..count {
            size += line_len(&rest[size..]) + 1;
        }
        size
    }

    /// The bytes of a line.
    pub fn line(&self, at: usize) -> &[u8]
        requires { at < length self.now }
        ensures value { result.now ≡ get_or self.now at [] }
        ensures line { IsLine result.now }
    {
        let rest = self.rest();
        let from = self.size(at);
        let to = from + line_len(&rest[from..]);
        &rest[from..to]
    }

    /// A line with memory of its own.
    pub fn copy_line(&self, alloc: Global, at: usize) -> Result<Line, AllocError>
        requires { at < length self.now }
        ensures { IfOk result (λ line. line ≡ get_or self.now at []) }
    {
        Line::raw(alloc, self.line(at))
    }

    /// Puts `count` lines from line `at` on after the bytes of a vector, each followed by byte 10.
    pub fn copy_lines(&self, at: usize, count: usize, into: &mut Vec<u8>) -> Result<(), AllocError>
        requires within { at + count ≤ length self.now }
        ensures bytes { OnOk result (into.new.items ≡ into.old.items ++ file_of (cut_out self.now at count)) }
        ensures text { IsText self.now }
    {
        let rest = self.rest();
        let from = self.size(at);
        let to = self.size(at + count);
        into.extend_from_slice(&rest[from..to])?;
        Ok(())
    }

    /// The first lines go. Gives the number of their bytes, with one for each line end.
    pub fn pass(&mut self, count: usize) -> usize
        requires { count ≤ length self.old }
        ensures rest { self.new ≡ drop count self.old }
        ensures bytes { result ≡ bytes_of (take count self.old) }
    {
        let size = self.size(count);
        self.from += size;
        self.held -= count;
        size
    }

    /// The same lines once more.
    pub fn copy(&self) -> Result<Ahead, AllocError>
        ensures { IfOk result (λ copy. copy ≡ self.now) }
    {
        Ok(Ahead {
            run: self.run.clone()?,
            from: self.from,
            held: self.held,
        })
    }

    /// Puts lines after the last one, from their bytes, each with its newline. After an `Err` the lines are as before.
    pub fn append(&mut self, lines: &[u8], count: usize) -> Result<(), AllocError>
        requires { HoldsLines count lines.now }
        ensures ok { OnOk result ((text : List (List ℕ)) → IsText text → lines.now ≡ file_of text → self.new ≡ self.old ++ text) }
        ensures err { OnErr result (self.new ≡ self.old) }
    {
        drop(self.run.drain(..self.from));
        self.from = 0;
        self.run.extend_from_slice(lines)?;
        self.held += count;
        Ok(())
    }
}
