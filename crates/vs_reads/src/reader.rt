// Reading lines of a store, which are copied from it in runs.
ghost use Rattle.std.specs.Prelude.{◌≡◌, ◌≤◌, ◌<◌, ◌+◌, ◌-◌, ◌^◌, ◌++◌, ◌∷◌, ℕ, List, [], IfOk, IsErrOf, OnOk, drop, get_or, length, ◌↔◌, IsTrue};
ghost use Rattle.vs_text.specs.Text.{IsLine, IsText, bytes_of, file_of};
ghost use Rattle.vs_text.specs.Limits.{IsShort};
ghost use Rattle.vs_edit.specs.Calls.{OnlyReads, StopsAtFault};
ghost use Rattle.vs_edit.specs.Splices.{HoldsLines, cut_out};
ghost use Rattle.vs_reads.specs.Reading.{HasCopied, HasLine, IsAt, StopsWithin, line_of, rest_of};
ghost use Rattle.vs_reads.specs.Searching.{IsInLine, PassesTo};

use crate::newline::line_len;
use crate::runs::{FIRST_RUN_LINES, run_lines};
use memchr::memmem::Finder;
use std::alloc::Global;
use std::mem;
use vs_edit::{LineStore, StoreErr};

/// Reads lines of a store one after another. They are copied in runs, whose number of lines follows by [`run_lines`] from the run
/// before.
///
/// Between two lines the store may be read by others, and its text is to stay.
#[derive(Drop)]
pub struct LineReader {
    // The lines of a run, each with its newline. The bytes of the line that was read last stand there from `start` to `stop`, and the
    // lines from the byte at `from` on, so many of them, are still to be read.
    run: Vec<u8>,
    start: usize,
    stop: usize,
    from: usize,
    held: u64,
    // The number of the line that is read next, and of the one before which the reader stops.
    at: u64,
    end: u64,
    // The number of lines of the next run.
    next_run: u64,
}

impl LineReader {
    /// A reader of `count` lines from line `top` on, counted from 0. Nothing is copied yet, and no memory is taken.
    pub fn new(alloc: Global, top: u64, count: u64) -> LineReader
        requires { top + count < 2 ^ 64 }
        ensures at { IsAt result top (top + count) }
        ensures copied { (text : List (List ℕ)) → HasCopied text result }
        ensures stops { StopsWithin result }
    {
        LineReader {
            run: Vec::new(alloc),
            start: 0,
            stop: 0,
            from: 0,
            held: 0,
            at: top,
            end: top + count,
            next_run: FIRST_RUN_LINES,
        }
    }

    // Copies a run, where no line is held.
    fn fill<S: LineStore>(&mut self, alloc: Global, view: &mut S) -> Result<(), StoreErr>
        requires valid { S.valid view.old }
        requires lines { HoldsLines self.old.held (rest_of self.old) }
        requires some { self.old.at < self.old.end }
        requires within { self.old.end ≤ (S.shows view.old).present.lines }
        ensures some { OnOk result (0 < self.new.held) }
        ensures at { OnOk result (IsAt self.new self.old.at self.old.end) }
        ensures copied { OnOk result ((text : List (List ℕ)) → (S.shows view.old).present.Is text → HasCopied text self.old → HasCopied text self.new) }
        ensures stops { OnOk result (StopsWithin self.old → StopsWithin self.new) }
        ensures kept { OnlyReads S.LineStore view.old view.new }
        ensures cause { StopsAtFault S.LineStore (IsErrOf result StoreErr.Failed) view.old view.new }
    {
        let _ = view.len();
        if self.held > 0 {
            return Ok(());
        }
        let mut run = mem::replace(&mut self.run, Vec::new(alloc));
        let count = self.next_run.max(1).min(self.end - self.at);
        view.copy_lines(alloc, self.at, count, &mut run)?;
        self.next_run = run_lines(count, run.len() as u64);
        self.run = run;
        self.start = 0;
        self.stop = 0;
        self.from = 0;
        self.held = count;
        Ok(())
    }

    // The lines that are held, each with its newline.
    fn rest(&self) -> &[u8]
        requires { self.now.from ≤ length self.now.run.items }
        ensures { result.now ≡ rest_of self.now }
    {
        &self.run[self.from..]
    }

    // Passes the first of the lines that are held.
    fn pass_first(&mut self)
        requires some { 0 < self.old.held }
        requires lines { HoldsLines self.old.held (rest_of self.old) }
        requires few { self.old.at + 1 < 2 ^ 64 }
        ensures first { (lines : List (List ℕ)) → IsText lines → 0 < length lines → rest_of self.old ≡ file_of lines
            → (line_of self.new ≡ get_or lines 0 []) × (rest_of self.new ≡ file_of (drop 1 lines)) }
        ensures line { IsLine (line_of self.new) × IsShort (line_of self.new) }
        ensures stands { HasLine self.new }
        ensures at { IsAt self.new (self.old.at + 1) self.old.end }
        ensures held { self.new.held ≡ self.old.held - 1 }
    {
        let len = line_len(self.rest());
        self.start = self.from;
        self.stop = self.from + len;
        self.from = self.stop + 1;
        self.held -= 1;
        self.at += 1;
    }

    /// Reads the next line, which [`LineReader::current`] gives.
    ///
    /// After an `Err` the reader is to be let go. [`StoreErr::Failed`] comes only from the store.
    pub fn advance<S: LineStore>(&mut self, alloc: Global, view: &mut S) -> Result<(), StoreErr>
        requires valid { S.valid view.old }
        requires lines { HoldsLines self.old.held (rest_of self.old) }
        requires some { self.old.at < self.old.end }
        requires within { self.old.end ≤ (S.shows view.old).present.lines }
        ensures line { OnOk result ((text : List (List ℕ)) → (S.shows view.old).present.Is text → HasCopied text self.old →
            line_of self.new ≡ get_or text self.old.at []) }
        ensures copied { OnOk result ((text : List (List ℕ)) → (S.shows view.old).present.Is text → HasCopied text self.old → HasCopied text self.new) }
        ensures at { OnOk result (IsAt self.new (self.old.at + 1) self.old.end) }
        ensures stands { OnOk result (HasLine self.new) }
        ensures is_line { OnOk result (IsLine (line_of self.new)) }
        ensures is_short { OnOk result (IsShort (line_of self.new)) }
        ensures stops { OnOk result (StopsWithin self.old → StopsWithin self.new) }
        ensures kept { OnlyReads S.LineStore view.old view.new }
        ensures cause { StopsAtFault S.LineStore (IsErrOf result StoreErr.Failed) view.old view.new }
    {
        let _ = view.len();
        self.fill(alloc, view)?;
        self.pass_first();
        Ok(())
    }

    // Passes all lines that are held.
    fn pass_all(&mut self)
        requires few { self.old.at + self.old.held < 2 ^ 64 }
        ensures { self.new ≡ record self.old { from = length self.old.run.items; held = 0; at = self.old.at + self.old.held } }
    {
        self.from = self.run.len();
        self.at += self.held;
        self.held = 0;
    }

    // Passes the lines that are held before the one in which a place among their bytes lies.
    fn pass_before(&mut self, place: usize)
        requires lines { HoldsLines self.old.held (rest_of self.old) }
        requires within { place < length (rest_of self.old) }
        requires few { self.old.at + self.old.held < 2 ^ 64 }
        ensures passed { (lines : List (List ℕ)) → IsText lines → length lines ≡ self.old.held → rest_of self.old ≡ file_of lines
            → IsInLine lines (self.old.held - self.new.held) place × (rest_of self.new ≡ file_of (drop (self.old.held - self.new.held) lines)) }
        ensures at { IsAt self.new (self.old.at + (self.old.held - self.new.held)) self.old.end }
        ensures some { 0 < self.new.held }
        ensures less { self.new.held ≤ self.old.held }
    {
        let mut left = place;
        'lines: while left > line_len(self.rest()) {
            self.pass_first();
            left -= self.current().len() + 1;
        }
    }

    // Passes those of the lines that are held in which a text does not stand, up to the first in which it does.
    fn pass_held(&mut self, finder: &Finder<'_>)
        requires held { 0 < self.old.held }
        requires lines { HoldsLines self.old.held (rest_of self.old) }
        requires needle { IsLine finder.now }
        requires some { 0 < length finder.now }
        requires few { self.old.at + self.old.held < 2 ^ 64 }
        ensures passed { (lines : List (List ℕ)) → IsText lines → length lines ≡ self.old.held → rest_of self.old ≡ file_of lines
            → PassesTo finder.now lines (self.old.held - self.new.held) × (rest_of self.new ≡ file_of (drop (self.old.held - self.new.held) lines)) }
        ensures at { IsAt self.new (self.old.at + (self.old.held - self.new.held)) self.old.end }
        ensures less { self.new.held ≤ self.old.held }
    {
        match finder.find(self.rest()) {
            None => self.pass_all(),
            Some(place) => self.pass_before(place),
        }
    }

    /// Passes the lines in which a text does not stand, up to the next one in which it does, or to the last. The text has no newline.
    ///
    /// After an `Err` the reader is to be let go. [`StoreErr::Failed`] comes only from the store.
    pub fn pass_unmatched<S: LineStore>(
        &mut self,
        alloc: Global,
        view: &mut S,
        finder: &Finder<'_>,
    ) -> Result<(), StoreErr>
        requires valid { S.valid view.old }
        requires lines { HoldsLines self.old.held (rest_of self.old) }
        requires within { self.old.end ≤ (S.shows view.old).present.lines }
        requires stops { StopsWithin self.old }
        requires needle { IsLine finder.now }
        requires some { 0 < length finder.now }
        ensures passed { OnOk result ((text : List (List ℕ)) → (S.shows view.old).present.Is text → HasCopied text self.old →
            PassesTo finder.now (cut_out text self.old.at (self.old.end - self.old.at)) (self.new.at - self.old.at)) }
        ensures copied { OnOk result ((text : List (List ℕ)) → (S.shows view.old).present.Is text → HasCopied text self.old → HasCopied text self.new) }
        ensures at { OnOk result (IsAt self.new self.new.at self.old.end) }
        ensures later { OnOk result (self.old.at ≤ self.new.at) }
        ensures stops { OnOk result (StopsWithin self.new) }
        ensures kept { OnlyReads S.LineStore view.old view.new }
        ensures cause { StopsAtFault S.LineStore (IsErrOf result StoreErr.Failed) view.old view.new }
    {
        // called for its contract alone: the number of lines fits 64 bits
        let _ = view.len();
        'runs: while self.at < self.end {
            self.fill(alloc, view)?;
            self.pass_held(finder);
            if self.held > 0 {
                return Ok(());
            }
        }
        Ok(())
    }

    /// Whether no line is left to be read.
    pub fn is_done(&self) -> bool
        ensures { IsTrue result ↔ (self.now.end ≤ self.now.at) }
    {
        self.at >= self.end
    }

    /// The number of the line that is read next.
    pub fn next(&self) -> u64
        ensures { result ≡ self.now.at }
    {
        self.at
    }

    /// The bytes of the line that was read last.
    pub fn current(&self) -> &[u8]
        requires { HasLine self.now }
        ensures { result.now ≡ line_of self.now }
    {
        &self.run[self.start..self.stop]
    }

    /// How many bytes are copied from the line that was read last on. They are at least those of the line.
    pub fn copied_len(&self) -> usize
        requires { HasLine self.now }
        ensures { length (line_of self.now) ≤ result }
    {
        self.run.len() - self.start
    }

    /// Puts the bytes of the next line into a vector, in place of what that holds.
    ///
    /// After an `Err` the vector may hold anything, and the reader is to be let go. [`StoreErr::Failed`] comes only from the store.
    pub fn line<S: LineStore>(
        &mut self,
        alloc: Global,
        view: &mut S,
        into: &mut Vec<u8>,
    ) -> Result<(), StoreErr>
        requires valid { S.valid view.old }
        requires lines { HoldsLines self.old.held (rest_of self.old) }
        requires some { self.old.at < self.old.end }
        requires within { self.old.end ≤ (S.shows view.old).present.lines }
        ensures line { OnOk result ((text : List (List ℕ)) → (S.shows view.old).present.Is text → HasCopied text self.old →
            into.new.items ≡ get_or text self.old.at []) }
        ensures copied { OnOk result ((text : List (List ℕ)) → (S.shows view.old).present.Is text → HasCopied text self.old → HasCopied text self.new) }
        ensures at { OnOk result (IsAt self.new (self.old.at + 1) self.old.end) }
        ensures is_line { OnOk result (IsLine into.new.items) }
        ensures is_short { OnOk result (IsShort into.new.items) }
        ensures kept { OnlyReads S.LineStore view.old view.new }
        ensures cause { StopsAtFault S.LineStore (IsErrOf result StoreErr.Failed) view.old view.new }
    {
        self.advance(alloc, view)?;
        into.clear();
        into.extend_from_slice(self.current())?;
        Ok(())
    }
}
