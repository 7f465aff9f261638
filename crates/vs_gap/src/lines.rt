// A list of lines with two gaps, of which the last ones are kept as bytes.
ghost use Rattle.std.specs.Prelude.{◌≡◌, ◌≤◌, ◌<◌, ◌+◌, ◌-◌, ◌++◌, ◌^◌, [], ℕ, List, IfOk, OnErr, OnOk, get_or, length, min};
ghost use Rattle.vs_text.specs.Text.{IsLine, IsText, bytes_of, file_of};
ghost use Rattle.vs_edit.specs.Splices.{HoldsLines, cut_out, splice};

use crate::ahead::Ahead;
use crate::gap::GapLines;
use std::alloc::{AllocError, Global};
use std::marker::Model;
use vs_text::Line;

/// A list of lines that are changed from its front on: those that no change has reached are bytes, and have no memory of their own.
#[derive(Drop)]
pub struct HeldLines {
    lines: GapLines,
    // The lines after those.
    ahead: Ahead,
}

impl Model for HeldLines {
    ghost use Rattle.std.specs.Prelude.{ℕ, List, ◌++◌};

    ghost Value = { List (List ℕ) };

    ghost view = { λ h. h.lines ++ h.ahead };
}

// Gives the first of the lines that are bytes memory of their own, until there are so many that have it.
fn draw(
    alloc: Global,
    lines: &mut GapLines,
    ahead: &mut Ahead,
    count: usize,
) -> Result<(), AllocError>
    requires within { count ≤ length lines.old + length ahead.old }
    requires few { length lines.old + length ahead.old < 2 ^ 63 }
    ensures lines { lines.new ++ ahead.new ≡ lines.old ++ ahead.old }
    ensures drawn { OnOk result (count ≤ length lines.new) }
{
    'lines: while lines.len() < count {
        let line = ahead.copy_line(alloc, 0)?;
        lines.push(line)?;
        let _ = ahead.pass(1);
    }
    Ok(())
}

impl HeldLines {
    /// No lines. No memory is taken.
    pub fn new(alloc: Global) -> HeldLines
        ensures { result ≡ [] }
    {
        HeldLines {
            lines: GapLines::new(alloc),
            ahead: Ahead::new(alloc),
        }
    }

    /// The number of lines.
    pub fn len(&self) -> usize
        requires { length self.now < 2 ^ 63 }
        ensures { result ≡ length self.now }
    {
        self.lines.len() + self.ahead.len()
    }

    /// The bytes of a line.
    pub fn line(&self, at: usize) -> &[u8]
        requires few { length self.now < 2 ^ 63 }
        requires within { at < length self.now }
        ensures value { result.now ≡ get_or self.now at [] }
        ensures line { IsLine result.now }
    {
        let count = self.lines.len();
        if at < count {
            return self.lines.line(at).bytes();
        }
        self.ahead.line(at - count)
    }

    /// Makes ready for a change at a line, which costs less then. The lines stay.
    pub fn reach(&mut self, alloc: Global, at: usize) -> Result<(), AllocError>
        requires few { length self.old < 2 ^ 63 }
        requires within { at ≤ length self.old }
        ensures { self.new ≡ self.old }
    {
        draw(alloc, &mut self.lines, &mut self.ahead, at)
    }

    /// Puts `count` lines from line `at` on into a vector, each followed by byte 10, in place of what that holds.
    pub fn copy_lines(&self, at: usize, count: usize, into: &mut Vec<u8>) -> Result<(), AllocError>
        requires few { length self.now < 2 ^ 63 }
        requires within { at + count ≤ length self.now }
        ensures bytes { OnOk result (into.new.items ≡ file_of (cut_out self.now at count)) }
        ensures text { OnOk result (IsText (cut_out self.now at count)) }
    {
        let lines = self.lines.len();
        let first = at.min(lines);
        let before = count.min(lines - first);
        self.lines.copy_lines(first, before, into)?;
        self.ahead.copy_lines(at - first, count - before, into)?;
        Ok(())
    }

    /// `count` lines from line `at` on.
    pub fn into_lines(self, alloc: Global, at: usize, count: usize) -> Result<Vec<Line>, AllocError>
        requires few { length self < 2 ^ 63 }
        requires within { at + count ≤ length self }
        ensures { IfOk result (λ lines. lines.items ≡ cut_out self at count) }
    {
        let HeldLines {
            mut lines,
            mut ahead,
        } = self;
        draw(alloc, &mut lines, &mut ahead, at + count)?;
        lines.into_lines(at, count)
    }

    /// The same lines once more.
    pub fn copy(&self) -> Result<HeldLines, AllocError>
        ensures { IfOk result (λ copy. copy ≡ self.now) }
    {
        Ok(HeldLines {
            lines: self.lines.copy()?,
            ahead: self.ahead.copy()?,
        })
    }

    /// Puts new lines in the place of `old` lines from line `at` on. Gives the number of bytes of those that went, as far as 64 bits
    /// go. After an `Err` the lines are as before.
    pub fn splice(
        &mut self,
        alloc: Global,
        at: usize,
        old: usize,
        new: Vec<Line>,
    ) -> Result<u64, AllocError>
        requires few { length self.old < 2 ^ 63 }
        requires within { at + old ≤ length self.old }
        ensures lines { OnOk result (self.new ≡ splice self.old at old new.items) }
        ensures gone { IfOk result (λ gone. gone ≡ min (bytes_of (cut_out self.old at old)) (2 ^ 64 - 1)) }
        ensures err { OnErr result (self.new ≡ self.old) }
    {
        draw(alloc, &mut self.lines, &mut self.ahead, at)?;
        let first = old.min(self.lines.len() - at);
        let gone = self.lines.splice(at, first, new)?;
        let passed = self.ahead.pass(old - first);
        Ok(gone.saturating_add(passed as u64))
    }

    /// Puts lines before the first one. After an `Err` the lines are as before.
    pub fn prepend(&mut self, lines: Vec<Line>) -> Result<(), AllocError>
        ensures ok { OnOk result (self.new ≡ lines.items ++ self.old) }
        ensures err { OnErr result (self.new ≡ self.old) }
    {
        self.lines.prepend(lines)
    }

    /// Puts lines after the last one, from their bytes, each with its newline. After an `Err` the lines are as before.
    pub fn append(&mut self, lines: &[u8], count: usize) -> Result<(), AllocError>
        requires { HoldsLines count lines.now }
        ensures ok { OnOk result ((text : List (List ℕ)) → IsText text → lines.now ≡ file_of text → self.new ≡ self.old ++ text) }
        ensures err { OnErr result (self.new ≡ self.old) }
    {
        self.ahead.append(lines, count)
    }
}
