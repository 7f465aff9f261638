// A list of lines with two gaps.
ghost use Rattle.std.specs.Prelude.{◌≡◌, ◌≤◌, ◌<◌, ◌+◌, ◌-◌, ◌++◌, ◌∷◌, ◌^◌, [], ℕ, List, IfOk, IsTrue, OnErr, OnOk, drop, get_or, length, max, min, take};
ghost use Rattle.vs_text.specs.Text.{IsText, bytes_of, file_of};
ghost use Rattle.vs_edit.specs.Splices.{cut_out, splice};

use std::alloc::{AllocError, Global};
use std::collections::VecDeque;
use std::marker::Model;
use vs_text::Line;

/// A list of lines with a gap at two places. A line is put in or taken out there without a move of the others, and a change at another
/// place moves the gap that is nearer: so changes at two places in turn cost no more than those at one.
#[derive(Drop)]
pub struct GapLines {
    // The lines before the first gap, those between the two, and those after the last.
    before: VecDeque<Line>,
    between: VecDeque<Line>,
    after: VecDeque<Line>,
}

impl Model for GapLines {
    ghost use Rattle.std.specs.Prelude.{ℕ, List, ◌++◌};

    ghost Value = { List (List ℕ) };

    ghost view = { λ l. l.before.items ++ l.between.items ++ l.after.items };
}

/// The number of bytes of lines, with one for each line end, as far as 64 bits go.
pub(crate) fn bytes_in(lines: &[Line]) -> u64
    ensures text { IsText lines.now }
    ensures bytes { result ≡ min (bytes_of lines.now) (2 ^ 64 - 1) }
{
    let mut bytes = 0u64;
    for line in lines {
        bytes = bytes.saturating_add(line.bytes().len() as u64 + 1);
    }
    bytes
}

// Moves lines from before a gap to after it, the last one first, until no more than so many are left.
fn lower(
    before: &mut VecDeque<Line>,
    after: &mut VecDeque<Line>,
    left: usize,
) -> Result<(), AllocError>
    ensures lines { before.new.items ++ after.new.items ≡ before.old.items ++ after.old.items }
    ensures left { OnOk result (length before.new.items ≡ min left (length before.old.items)) }
{
    after.reserve(before.len().saturating_sub(left))?;
    'lines: while before.len() > left {
        match before.pop_back() {
            None => return Ok(()),
            Some(line) => {
                let _ = after.push_front(line);
            }
        }
    }
    Ok(())
}

// Moves lines from after a gap to before it, the first one first, until there are so many.
fn raise(
    before: &mut VecDeque<Line>,
    after: &mut VecDeque<Line>,
    count: usize,
) -> Result<(), AllocError>
    requires { count ≤ length before.old.items + length after.old.items }
    ensures lines { before.new.items ++ after.new.items ≡ before.old.items ++ after.old.items }
    ensures count { OnOk result (length before.new.items ≡ max count (length before.old.items)) }
{
    before.reserve(count.saturating_sub(before.len()))?;
    'lines: while before.len() < count {
        match after.pop_front() {
            None => return Ok(()),
            Some(line) => {
                let _ = before.push_back(line);
            }
        }
    }
    Ok(())
}

// Moves a gap to a place among the lines, which stay as they are.
fn move_gap(
    before: &mut VecDeque<Line>,
    after: &mut VecDeque<Line>,
    at: usize,
) -> Result<(), AllocError>
    requires { at ≤ length before.old.items + length after.old.items }
    ensures lines { before.new.items ++ after.new.items ≡ before.old.items ++ after.old.items }
    ensures place { OnOk result (length before.new.items ≡ at) }
{
    lower(before, after, at)?;
    raise(before, after, at)?;
    Ok(())
}

// Takes the first lines away. Gives the number of their bytes, as far as 64 bits go.
fn take_away(lines: &mut VecDeque<Line>, count: usize) -> u64
    requires { count ≤ length lines.old.items }
    ensures rest { lines.new.items ≡ drop count lines.old.items }
    ensures bytes { result ≡ min (bytes_of (take count lines.old.items)) (2 ^ 64 - 1) }
{
    let mut bytes = 0u64;
    for _ in 0..count {
        if let Some(line) = lines.pop_front() {
            bytes = bytes.saturating_add(line.bytes().len() as u64 + 1);
        }
    }
    bytes
}

// Puts new lines in the place of others. Gives the number of bytes of those that went, as far as 64 bits go. After an `Err` the lines
// are as before.
fn exchange(
    before: &mut VecDeque<Line>,
    after: &mut VecDeque<Line>,
    at: usize,
    old: usize,
    new: Vec<Line>,
) -> Result<u64, AllocError>
    requires { at + old ≤ length before.old.items + length after.old.items }
    ensures lines { OnOk result (before.new.items ++ after.new.items ≡ splice (before.old.items ++ after.old.items) at old new.items) }
    ensures gone { IfOk result (λ gone. gone ≡ min (bytes_of (cut_out (before.old.items ++ after.old.items) at old)) (2 ^ 64 - 1)) }
    ensures err { OnErr result (before.new.items ++ after.new.items ≡ before.old.items ++ after.old.items) }
{
    move_gap(before, after, at)?;
    before.append(&mut VecDeque::from(new))?;
    Ok(take_away(after, old))
}

// Whether a change is made at the first of two gaps, which has so many lines before it: it does not reach past the second, so many lines
// later, and is nearer to the first.
fn is_at_first(at: usize, old: usize, before: usize, between: usize) -> bool
    ensures { IsTrue result → at + old ≤ before + between }
{
    if at <= before {
        return old <= before - at || old - (before - at) <= between;
    }
    let past = at - before;
    past <= between && old <= between - past && past < between - past
}

impl GapLines {
    /// No lines. No memory is taken.
    pub fn new(alloc: Global) -> GapLines
        ensures { result ≡ [] }
    {
        GapLines {
            before: VecDeque::new(alloc),
            between: VecDeque::new(alloc),
            after: VecDeque::new(alloc),
        }
    }

    /// The number of lines.
    pub fn len(&self) -> usize
        requires { length self.now < 2 ^ 63 }
        ensures { result ≡ length self.now }
    {
        self.before.len() + self.between.len() + self.after.len()
    }

    /// A line.
    pub fn line(&self, at: usize) -> &Line
        requires { at < length self.now }
        ensures { result.now ≡ get_or self.now at [] }
    {
        let before = self.before.len();
        if at < before {
            return &self.before[at];
        }
        let past = at - before;
        let between = self.between.len();
        if past < between {
            return &self.between[past];
        }
        &self.after[past - between]
    }

    // The number of bytes of lines, with one for each line end, as far as its type goes.
    fn size(&self, at: usize, count: usize) -> usize
        requires within { at + count ≤ length self.now }
        requires few { length self.now < 2 ^ 63 }
    {
        let mut size = 0usize;
        for i in 0..count {
            let len = self.line(at + i).bytes().len();
            size = size.saturating_add(len).saturating_add(1);
        }
        size
    }

    /// Puts `count` lines from line `at` on into a vector, each followed by byte 10, in place of what that holds.
    pub fn copy_lines(&self, at: usize, count: usize, into: &mut Vec<u8>) -> Result<(), AllocError>
        requires within { at + count ≤ length self.now }
        requires few { length self.now < 2 ^ 63 }
        ensures bytes { OnOk result (into.new.items ≡ file_of (cut_out self.now at count)) }
        ensures text { OnOk result (IsText (cut_out self.now at count)) }
    {
        into.clear();
        into.reserve(self.size(at, count))?;
        for i in 0..count {
            into.extend_from_slice(self.line(at + i).bytes())?;
            into.push(b'\n')?;
        }
        Ok(())
    }

    /// `count` lines from line `at` on, in the memory that they have.
    pub fn into_lines(self, at: usize, count: usize) -> Result<Vec<Line>, AllocError>
        requires { at + count ≤ length self }
        ensures { IfOk result (λ lines. lines.items ≡ cut_out self at count) }
    {
        let GapLines {
            before: mut lines,
            mut between,
            mut after,
        } = self;
        lines.append(&mut between)?;
        lines.append(&mut after)?;
        lines.truncate(at + count);
        let _ = take_away(&mut lines, at);
        Ok(Vec::from(lines))
    }

    /// The same lines once more.
    pub fn copy(&self) -> Result<GapLines, AllocError>
        ensures { IfOk result (λ copy. copy ≡ self.now) }
    {
        Ok(GapLines {
            before: self.before.clone()?,
            between: self.between.clone()?,
            after: self.after.clone()?,
        })
    }

    /// Puts new lines in the place of `old` lines from line `at` on. Gives the number of bytes of those that went, as far as 64 bits
    /// go. After an `Err` the lines are as before.
    pub fn splice(&mut self, at: usize, old: usize, new: Vec<Line>) -> Result<u64, AllocError>
        requires { at + old ≤ length self.old }
        ensures lines { OnOk result (self.new ≡ splice self.old at old new.items) }
        ensures gone { IfOk result (λ gone. gone ≡ min (bytes_of (cut_out self.old at old)) (2 ^ 64 - 1)) }
        ensures err { OnErr result (self.new ≡ self.old) }
    {
        if is_at_first(at, old, self.before.len(), self.between.len()) {
            return exchange(&mut self.before, &mut self.between, at, old, new);
        }
        lower(&mut self.before, &mut self.between, at)?;
        let past = at - self.before.len();
        exchange(&mut self.between, &mut self.after, past, old, new)
    }

    /// Puts lines before the first one. After an `Err` the lines are as before.
    pub fn prepend(&mut self, lines: Vec<Line>) -> Result<(), AllocError>
        ensures ok { OnOk result (self.new ≡ lines.items ++ self.old) }
        ensures err { OnErr result (self.new ≡ self.old) }
    {
        let mut front = VecDeque::from(lines);
        front.append(&mut self.before)?;
        self.before = front;
        Ok(())
    }

    /// Puts a line after the last one. After an `Err` the lines are as before.
    pub fn push(&mut self, line: Line) -> Result<(), AllocError>
        ensures ok { OnOk result (self.new ≡ self.old ++ line ∷ []) }
        ensures err { OnErr result (self.new ≡ self.old) }
    {
        self.after.push_back(line)?;
        Ok(())
    }
}
