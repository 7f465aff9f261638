// Lines of a store that are asked for near each other, which are read together.
ghost use Rattle.std.specs.Prelude.{◌≡◌, ◌≤◌, ◌<◌, ◌+◌, ◌++◌, ℕ, List, IsErrOf, OnOk, length, take};
ghost use Rattle.vs_text.specs.Text.{IsText, file_of};
ghost use Rattle.vs_edit.specs.Calls.{OnlyReads, StopsAtFault};
ghost use Rattle.vs_machine.specs.Nearby.{AreOf};

use std::alloc::{AllocError, Global};
use vs_edit::{LineStore, StoreErr};
use vs_gap::Ahead;
use vs_reads::run_lines;

/// How many lines may stand between lines that are near each other.
const NEAR: u64 = 16;

/// Lines of a store that were read together.
///
/// While lines are asked for near each other, each run that is copied has twice as many lines as the one before, so that few are copied
/// in vain. The text of the store is to stay.
#[derive(Drop)]
pub(crate) struct Nearby {
    // The lines from line `top` on, counted from 0.
    top: u64,
    lines: Ahead,
    // The number of lines of the next run.
    next_run: u64,
}

impl Nearby {
    /// No lines. No memory is taken.
    pub(crate) fn new(alloc: Global) -> Nearby
        ensures { (text : List (List ℕ)) → AreOf text result }
    {
        Nearby {
            top: 0,
            lines: Ahead::new(alloc),
            next_run: 1,
        }
    }

    // Begins with this line: those before it go. Far from the lines that are held runs are short again.
    fn seat(&mut self, alloc: Global, top: u64)
        ensures top { self.new.top ≡ top }
        ensures lines { (text : List (List ℕ)) → AreOf text self.old → AreOf text self.new }
    {
        let end = self.top.saturating_add(self.lines.len() as u64);
        let is_far = top < self.top || top > end.saturating_add(NEAR);
        self.next_run = if is_far { 1 } else { self.next_run };
        if self.top <= top && top <= end {
            let _ = self.lines.pass((top - self.top) as usize);
        } else {
            self.lines = Ahead::new(alloc);
        }
        self.top = top;
    }

    /// Holds `count` lines from line `top` on, and none before it.
    ///
    /// [`StoreErr::Failed`] comes only from the store.
    pub(crate) fn reach<S: LineStore>(
        &mut self,
        alloc: Global,
        store: &mut S,
        top: u64,
        count: u64,
    ) -> Result<(), StoreErr>
        requires valid { S.valid store.old }
        requires within { top + count ≤ (S.shows store.old).present.lines }
        ensures top { self.new.top ≡ top }
        ensures held { OnOk result (count ≤ length self.new.lines) }
        ensures lines { (text : List (List ℕ)) → (S.shows store.old).present.Is text → AreOf text self.old → AreOf text self.new }
        ensures kept { OnlyReads S.LineStore store.old store.new }
        ensures cause { StopsAtFault S.LineStore (IsErrOf result StoreErr.Failed) store.old store.new }
    {
        let lines = store.len();
        self.seat(alloc, top);
        let held = self.lines.len() as u64;
        if count <= held {
            return Ok(());
        }
        let next = top + held;
        let more = (count - held).max(self.next_run).min(lines - next);
        let mut run = Vec::new(alloc);
        store.copy_lines(alloc, next, more, &mut run)?;
        self.lines.append(&run, more as usize)?;
        self.next_run = run_lines(more, run.len() as u64).min(2 * more);
        Ok(())
    }

    /// Adds the bytes of the first lines, each with its newline.
    pub(crate) fn push(&self, count: u64, into: &mut Vec<u8>) -> Result<(), AllocError>
        requires { count ≤ length self.now.lines }
        ensures bytes { OnOk result (into.new.items ≡ into.old.items ++ file_of (take count self.now.lines)) }
        ensures text { IsText self.now.lines }
    {
        self.lines.copy_lines(0, count as usize, into)
    }
}
