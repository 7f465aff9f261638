// Stores of one text.
ghost use Rattle.std.specs.Prelude.{◌≡◌, ◌+◌, ◌<◌, ◌≤◌, Bool, ℕ, List, [], IsTrue, IsErrOf, OnErr, OnOk, get_or, length};
ghost use Rattle.vs_faults.specs.OneCause.{HasOneCause};
ghost use Rattle.vs_text.specs.Text.{IsLine, IsText, bytes_of, file_of};
ghost use Rattle.vs_text.specs.Limits.{IsShort, IsWithinLimits};
ghost use Rattle.vs_text.specs.declared.TheConstants.{MAX_LINES, MAX_TEXT_BYTES};
ghost use Rattle.vs_edit.specs.Splices.{cut_out, HoldsLines};
ghost use Rattle.vs_edit.specs.State.{StoreState, SameText, IsSpliced, AllowsSplice, KeepsCommitted, KeepsTexts};

use std::alloc::{AllocError, AllocFailed, Global};
use vs_text::Line;

/// Why a store did not do what it was asked.
#[derive(Clone, Copy, Debug, PartialEq, Eq)]
pub enum StoreErr {
    /// There was no memory.
    NoMemory,
    /// What the store stands on failed, and its count of faults rose.
    Failed,
}

impl From<AllocError> for StoreErr {
    ghost use Rattle.std.specs.Prelude.{◌≡◌};
    ghost use Rattle.vs_edit.specs.declared.store.StoreErr.TheVariants.{NoMemory};

    ghost from_gives = { λ _ e. e ≡ NoMemory };

    fn from(_: AllocError) -> Self {
        StoreErr::NoMemory
    }
}

impl<T: Drop> From<AllocFailed<T>> for StoreErr {
    ghost use Rattle.std.specs.Prelude.{◌≡◌};
    ghost use Rattle.vs_edit.specs.declared.store.StoreErr.TheVariants.{NoMemory};

    ghost from_gives = { λ _ e. e ≡ NoMemory };

    fn from(_: AllocFailed<T>) -> Self {
        StoreErr::NoMemory
    }
}

/// A store of one text: as it is now, and as it was committed.
///
/// A store may keep its lines where it cannot promise what comes back, as in a file. Such a store does not tell its
/// texts: it has no text that a contract could name, and its numbers of lines and bytes are all that is known.
///
/// Lines are counted from 0. Bytes are counted with one for each line end.
pub trait LineStore {
    /// The store tells its texts. This is a constant of the type.
    ghost tells: { Bool };
    /// The text as it is now and as it was last committed, and how often what the store stands on has failed. The numbers
    /// are told by every store.
    ghost shows: { Self → StoreState };
    /// The store may be used.
    ghost valid: { Self → Type 0 };
    /// What was lent to the store is still the same, and all else that it stands on has only changed as a store may change it.
    ghost stays: { Self → Self → Type 0 };
    /// How many calls had failed below the store before the last one there, where it tells what lies below, and else 0. It failed
    /// if the count has risen since then.
    ghost earlier: { Self → ℕ };

    /// The number of lines. It takes no memory.
    fn len(&self) -> u64
        requires { valid self.now }
        ensures { result ≡ (shows self.now).present.lines };

    /// The number of bytes, with one for each line end. It takes no memory.
    fn bytes(&self) -> u64
        requires { valid self.now }
        ensures { result ≡ (shows self.now).present.bytes };

    /// Puts the bytes of a line into a vector, in place of what that holds. After an `Err` the vector may hold anything.
    ///
    /// A store that does not tell its texts promises no more of them than that they are a line within the limit.
    fn line(&mut self, alloc: Global, at: u64, into: &mut Vec<u8>) -> Result<(), StoreErr>
        requires valid { valid self.old }
        requires within { at < (shows self.old).present.lines }
        ensures line { OnOk result ((text : List (List ℕ)) → (shows self.old).present.Is text → into.new.items ≡ get_or text at []) }
        ensures is_line { OnOk result (IsLine into.new.items) }
        ensures is_short { OnOk result (IsShort into.new.items) }
        ensures kept { KeepsTexts shows valid stays self.old self.new }
        ensures cause { HasOneCause (shows self.old).faults (shows self.new).faults (earlier self.new) (IsErrOf result StoreErr.Failed) };

    /// Puts `count` lines from line `at` on into a vector, each followed by byte 10, in place of what that holds. After an
    /// `Err` the vector may hold anything.
    ///
    /// A store that does not tell its texts promises no more of them than that they are lines within the limit.
    fn copy_lines(
        &mut self,
        alloc: Global,
        at: u64,
        count: u64,
        into: &mut Vec<u8>,
    ) -> Result<(), StoreErr>
        requires valid { valid self.old }
        requires within { at + count ≤ (shows self.old).present.lines }
        ensures lines { OnOk result ((text : List (List ℕ)) → (shows self.old).present.Is text → into.new.items ≡ file_of (cut_out text at count)) }
        ensures are_lines { OnOk result (HoldsLines count into.new.items) }
        ensures kept { KeepsTexts shows valid stays self.old self.new }
        ensures cause { HasOneCause (shows self.old).faults (shows self.new).faults (earlier self.new) (IsErrOf result StoreErr.Failed) }
    {
        into.clear();
        let mut line = Vec::new(alloc);
        for i in 0..count {
            self.line(alloc, at + i, &mut line)?;
            into.extend_from_slice(&line)?;
            into.push(b'\n')?;
        }
        Ok(())
    }

    /// Puts new lines in the place of `old` lines from line `top` on, where the result is within the limits. After an `Err` the
    /// text is as before.
    fn splice(&mut self, alloc: Global, top: u64, old: u64, new: &[Line]) -> Result<(), StoreErr>
        requires valid { valid self.old }
        requires allowed { AllowsSplice (shows self.old).present top old new.now }
        ensures ok { OnOk result (IsSpliced (shows self.old).present top old new.now (shows self.new).present) }
        ensures same { OnErr result (SameText (shows self.old).present (shows self.new).present) }
        ensures kept { KeepsCommitted shows valid stays self.old self.new }
        ensures cause { HasOneCause (shows self.old).faults (shows self.new).faults (earlier self.new) (IsErrOf result StoreErr.Failed) };

    /// Makes the text that the store has now the committed one. It takes no memory.
    fn commit(&mut self)
        requires { valid self.old }
        ensures present { SameText (shows self.old).present (shows self.new).present }
        ensures committed { SameText (shows self.old).present (shows self.new).committed }
        ensures faults { (shows self.new).faults ≡ (shows self.old).faults }
        ensures earlier { earlier self.new ≡ earlier self.old }
        ensures valid { valid self.new }
        ensures stays { stays self.old self.new };

    /// Goes back to the text that was last committed. It takes no memory.
    fn rollback(&mut self)
        requires { valid self.old }
        ensures present { SameText (shows self.old).committed (shows self.new).present }
        ensures committed { SameText (shows self.old).committed (shows self.new).committed }
        ensures faults { (shows self.new).faults ≡ (shows self.old).faults }
        ensures earlier { earlier self.new ≡ earlier self.old }
        ensures valid { valid self.new }
        ensures stays { stays self.old self.new };

    /// A store that tells has a text.
    ghost tells_one: { (s : Self) → valid s → IsTrue tells → (text : List (List ℕ)) × (shows s).present.Is text };
    /// A store that has a text tells.
    ghost has_told: { (s : Self) (text : List (List ℕ)) → (shows s).present.Is text → IsTrue tells };
    /// A store has one text at most.
    ghost has_one: { (s : Self) (a b : List (List ℕ)) → (shows s).present.Is a → (shows s).present.Is b → a ≡ b };
    /// The text has as many lines as the store says.
    ghost has_lines: { (s : Self) (text : List (List ℕ)) → (shows s).present.Is text → length text ≡ (shows s).present.lines };
    /// The text has as many bytes as the store says.
    ghost has_bytes: { (s : Self) (text : List (List ℕ)) → (shows s).present.Is text → bytes_of text ≡ (shows s).present.bytes };
    /// The text is one: no line has byte 10.
    ghost has_text: { (s : Self) (text : List (List ℕ)) → valid s → (shows s).present.Is text → IsText text };
    /// The text is within the limits.
    ghost has_within: { (s : Self) (text : List (List ℕ)) → valid s → (shows s).present.Is text → IsWithinLimits text };
    /// The number of lines is within its limit, also where the text is not told.
    ghost few_lines: { (s : Self) → valid s → (shows s).present.lines ≤ MAX_LINES };
    /// The number of bytes is within its limit, also where the text is not told.
    ghost few_bytes: { (s : Self) → valid s → (shows s).present.bytes ≤ MAX_TEXT_BYTES };
    /// A store stays itself.
    ghost stays_itself: { (s : Self) → stays s s };
    /// What stays over two steps stays over both.
    ghost stays_on: { (p q r : Self) → stays p q → stays q r → stays p r };
}
