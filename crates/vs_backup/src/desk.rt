// A folder and a text in one object.
ghost use Rattle.std.specs.Prelude.{◌≡◌, ◌≢◌, ◌<◌, ◌≤◌, ◌+◌, ◌∷◌, [], ℕ, List, length, take, drop, IfSome, IfOk, OnOk, OnErr, IsErr, IsErrOf, IsTrue, is_some, IsSome, IsSomeAnd, None, Some};
ghost use Rattle.vs_faults.specs.Faults.{HasRisen};
ghost use Rattle.vs_text.specs.Text.{IsText, file_of};
ghost use Rattle.vs_text.specs.declared.TheConstants.{MAX_LINES};
ghost use Rattle.vs_host.specs.File.{Writes, WritesSome, Cuts, Syncs};
ghost use Rattle.vs_host.specs.Disk.{Name, ChangesFile, ChangesNames, CreatesFile, SyncsNames, MayBeLike, Renames, Removes, like, mode_in, owner_mode};
ghost use Rattle.vs_host.specs.Trace.{Looked, Created, Measured, Read, Wrote, Cut, Synced, Renamed, Removed, SyncedNames};
ghost use Rattle.vs_host.specs.World.{content_of, IsTold, CountsFault};
ghost use Rattle.vs_disk.specs.Runs.{Looks};
ghost use Rattle.vs_edit.specs.Splices.{HoldsLines, cut_out};
ghost use Rattle.vs_backup.specs.Desks.{GoesOn, OnlyReads};

use std::alloc::Global;
use vs_edit::StoreErr;
use vs_host::{Failed, World};

/// A folder and a text, in one object, since the text may be read from files of the folder. Every call on the folder names
/// none of these files, and leaves the text; every other clause of it is that of `Folder`.
pub trait Desk: World {
    /// The text is this one.
    ghost has_text: { Self → List (List ℕ) → Type 0 };
    /// The number of lines of the text, which is always told.
    ghost lines: { Self → ℕ };
    /// The text is read from the file of this name.
    ghost reads: { Self → Name → Type 0 };
    /// The desk may be used.
    ghost valid: { Self → Type 0 };
    /// What was lent to the desk is the same, and so is the text.
    ghost stays: { Self → Self → Type 0 };

    /// Whether a file stands under the name.
    fn has(&mut self, name: &str) -> Result<bool, Failed>
        requires valid { valid self.old }
        requires apart { reads self.old name.now → ⊥ }
        ensures value { IfOk result (λ there. IsTrue (Self.tells).folder → there ≡ is_some (content_of (Self.scene self.old) name.now)) }
        ensures quiet { OnOk result ((Self.scene self.new).folder_faults ≡ (Self.scene self.old).folder_faults) }
        ensures told { IsTrue (Self.tells).folder → IsTold Looked (name.now ∷ []) result (Self.scene self.old) (Self.scene self.new) }
        ensures kept { OnlyReads Self.tells Self.scene valid stays (IsErr result) self.old self.new };

    /// Makes an empty file under a name that is not there. Who may read it is the system's default.
    fn create(&mut self, name: &str) -> Result<(), Failed>
        requires valid { valid self.old }
        requires apart { reads self.old name.now → ⊥ }
        requires there { IsTrue (Self.tells).folder → content_of (Self.scene self.old) name.now ≡ None }
        ensures ok { OnOk result (IsTrue (Self.tells).folder → CreatesFile name.now (Self.scene self.old).folder (Self.scene self.new).folder) }
        ensures err { OnErr result ((Self.scene self.new).folder ≡ (Self.scene self.old).folder) }
        ensures quiet { OnOk result ((Self.scene self.new).folder_faults ≡ (Self.scene self.old).folder_faults) }
        ensures told { IsTrue (Self.tells).folder → IsTold Created (name.now ∷ []) result (Self.scene self.old) (Self.scene self.new) }
        ensures kept { GoesOn Self.tells Self.scene valid stays (IsErr result) self.old self.new };

    /// Makes an empty file under a name that is not there, which nobody but its owner may read.
    fn create_private(&mut self, name: &str) -> Result<(), Failed>
        requires valid { valid self.old }
        requires apart { reads self.old name.now → ⊥ }
        requires there { IsTrue (Self.tells).folder → content_of (Self.scene self.old) name.now ≡ None }
        ensures ok { OnOk result (IsTrue (Self.tells).folder → CreatesFile name.now (Self.scene self.old).folder (Self.scene self.new).folder) }
        ensures mode { OnOk result (IsTrue (Self.tells).folder → mode_in (Self.scene self.new).folder name.now ≡ Some owner_mode) }
        ensures err { OnErr result ((Self.scene self.new).folder ≡ (Self.scene self.old).folder) }
        ensures quiet { OnOk result ((Self.scene self.new).folder_faults ≡ (Self.scene self.old).folder_faults) }
        ensures told { IsTrue (Self.tells).folder → IsTold Created (name.now ∷ []) result (Self.scene self.old) (Self.scene self.new) }
        ensures kept { GoesOn Self.tells Self.scene valid stays (IsErr result) self.old self.new };

    /// The number of bytes of the file.
    fn len(&mut self, name: &str) -> Result<u64, Failed>
        requires valid { valid self.old }
        requires apart { reads self.old name.now → ⊥ }
        requires there { IsTrue (Self.tells).folder → IsSome (content_of (Self.scene self.old) name.now) }
        ensures value { IfOk result (λ size. IsTrue (Self.tells).folder →
            IfSome (content_of (Self.scene self.old) name.now) (λ bytes. size ≡ length bytes)) }
        ensures quiet { OnOk result ((Self.scene self.new).folder_faults ≡ (Self.scene self.old).folder_faults) }
        ensures told { IsTrue (Self.tells).folder → IsTold Measured (name.now ∷ []) result (Self.scene self.old) (Self.scene self.new) }
        ensures kept { OnlyReads Self.tells Self.scene valid stays (IsErr result) self.old self.new };

    /// Fills `into` with the bytes of the file from the place `at` on, counted from 0.
    fn read_at(&mut self, name: &str, at: u64, into: &mut [u8]) -> Result<(), Failed>
        requires valid { valid self.old }
        requires apart { reads self.old name.now → ⊥ }
        requires there { IsTrue (Self.tells).folder →
            IsSomeAnd (content_of (Self.scene self.old) name.now) (λ bytes. at + length into.old ≤ length bytes) }
        ensures value { OnOk result (IsTrue (Self.tells).folder → IfSome (content_of (Self.scene self.old) name.now) (λ bytes.
            into.new ≡ take (length into.old) (drop at bytes))) }
        ensures quiet { OnOk result ((Self.scene self.new).folder_faults ≡ (Self.scene self.old).folder_faults) }
        ensures told { IsTrue (Self.tells).folder → IsTold Read (name.now ∷ []) result (Self.scene self.old) (Self.scene self.new) }
        ensures kept { OnlyReads Self.tells Self.scene valid stays (IsErr result) self.old self.new };

    /// Writes the piece into the file from the place `at` on, counted from 0. Where that fails, its range may have any bytes,
    /// and the file any length from the old one to the one asked for.
    fn write_at(&mut self, name: &str, at: u64, piece: &[u8]) -> Result<(), Failed>
        requires valid { valid self.old }
        requires apart { reads self.old name.now → ⊥ }
        requires there { IsTrue (Self.tells).folder → IsSomeAnd (content_of (Self.scene self.old) name.now) (λ bytes. at ≤ length bytes) }
        ensures ok { OnOk result (IsTrue (Self.tells).folder
            → ChangesFile name.now (Writes at piece.now) (Self.scene self.old).folder (Self.scene self.new).folder) }
        ensures some { IsTrue (Self.tells).folder
            → ChangesFile name.now (WritesSome at (length piece.now)) (Self.scene self.old).folder (Self.scene self.new).folder }
        ensures quiet { OnOk result ((Self.scene self.new).folder_faults ≡ (Self.scene self.old).folder_faults) }
        ensures told { IsTrue (Self.tells).folder → IsTold Wrote (name.now ∷ []) result (Self.scene self.old) (Self.scene self.new) }
        ensures kept { GoesOn Self.tells Self.scene valid stays (IsErr result) self.old self.new };

    /// Takes away the bytes of the file from the place `len` on.
    fn cut(&mut self, name: &str, len: u64) -> Result<(), Failed>
        requires valid { valid self.old }
        requires apart { reads self.old name.now → ⊥ }
        requires there { IsTrue (Self.tells).folder → IsSomeAnd (content_of (Self.scene self.old) name.now) (λ bytes. len ≤ length bytes) }
        ensures ok { OnOk result (IsTrue (Self.tells).folder → ChangesFile name.now (Cuts len) (Self.scene self.old).folder (Self.scene self.new).folder) }
        ensures err { OnErr result ((Self.scene self.new).folder ≡ (Self.scene self.old).folder) }
        ensures quiet { OnOk result ((Self.scene self.new).folder_faults ≡ (Self.scene self.old).folder_faults) }
        ensures told { IsTrue (Self.tells).folder → IsTold Cut (name.now ∷ []) result (Self.scene self.old) (Self.scene self.new) }
        ensures kept { GoesOn Self.tells Self.scene valid stays (IsErr result) self.old self.new };

    /// Syncs the file: a stop leaves its bytes as they are now.
    fn sync(&mut self, name: &str) -> Result<(), Failed>
        requires valid { valid self.old }
        requires apart { reads self.old name.now → ⊥ }
        requires there { IsTrue (Self.tells).folder → IsSome (content_of (Self.scene self.old) name.now) }
        ensures ok { OnOk result (IsTrue (Self.tells).folder → ChangesFile name.now Syncs (Self.scene self.old).folder (Self.scene self.new).folder) }
        ensures err { OnErr result ((Self.scene self.new).folder ≡ (Self.scene self.old).folder) }
        ensures quiet { OnOk result ((Self.scene self.new).folder_faults ≡ (Self.scene self.old).folder_faults) }
        ensures told { IsTrue (Self.tells).folder → IsTold Synced (name.now ∷ []) result (Self.scene self.old) (Self.scene self.new) }
        ensures kept { GoesOn Self.tells Self.scene valid stays (IsErr result) self.old self.new };

    /// Gives the file the mode bits of the model, if that is there, and syncs it. A stop during the call may leave either mode.
    ///
    /// A desk gives no more rights than the model has, and fewer where the system does not allow to give all of them.
    fn sync_like(&mut self, model: &str, name: &str) -> Result<(), Failed>
        requires valid { valid self.old }
        requires apart_model { reads self.old model.now → ⊥ }
        requires apart { reads self.old name.now → ⊥ }
        requires there { IsTrue (Self.tells).folder → IsSome (content_of (Self.scene self.old) name.now) }
        ensures ok { OnOk result (IsTrue (Self.tells).folder →
            ChangesFile name.now Syncs (like model.now name.now (Self.scene self.old).folder) (Self.scene self.new).folder) }
        ensures err { OnErr result (MayBeLike model.now name.now (Self.scene self.old).folder (Self.scene self.new).folder) }
        ensures quiet { OnOk result ((Self.scene self.new).folder_faults ≡ (Self.scene self.old).folder_faults) }
        ensures told { IsTrue (Self.tells).folder → IsTold Synced (name.now ∷ []) result (Self.scene self.old) (Self.scene self.new) }
        ensures kept { GoesOn Self.tells Self.scene valid stays (IsErr result) self.old self.new };

    /// Gives the file `from` the name `to`, which it takes from a file that has it.
    fn rename(&mut self, from: &str, to: &str) -> Result<(), Failed>
        requires valid { valid self.old }
        requires apart { reads self.old from.now → ⊥ }
        requires apart_to { reads self.old to.now → ⊥ }
        requires there { IsTrue (Self.tells).folder → IsSome (content_of (Self.scene self.old) from.now) }
        requires differ { IsTrue (Self.tells).folder → from.now ≢ to.now }
        ensures ok { OnOk result (IsTrue (Self.tells).folder
            → ChangesNames (Renames from.now to.now) (Self.scene self.old).folder (Self.scene self.new).folder) }
        ensures err { OnErr result ((Self.scene self.new).folder ≡ (Self.scene self.old).folder) }
        ensures quiet { OnOk result ((Self.scene self.new).folder_faults ≡ (Self.scene self.old).folder_faults) }
        ensures told { IsTrue (Self.tells).folder → IsTold Renamed (from.now ∷ to.now ∷ []) result (Self.scene self.old) (Self.scene self.new) }
        ensures kept { GoesOn Self.tells Self.scene valid stays (IsErr result) self.old self.new };

    /// Takes the name away.
    fn remove(&mut self, name: &str) -> Result<(), Failed>
        requires valid { valid self.old }
        requires apart { reads self.old name.now → ⊥ }
        requires there { IsTrue (Self.tells).folder → IsSome (content_of (Self.scene self.old) name.now) }
        ensures ok { OnOk result (IsTrue (Self.tells).folder → ChangesNames (Removes name.now) (Self.scene self.old).folder (Self.scene self.new).folder) }
        ensures err { OnErr result ((Self.scene self.new).folder ≡ (Self.scene self.old).folder) }
        ensures quiet { OnOk result ((Self.scene self.new).folder_faults ≡ (Self.scene self.old).folder_faults) }
        ensures told { IsTrue (Self.tells).folder → IsTold Removed (name.now ∷ []) result (Self.scene self.old) (Self.scene self.new) }
        ensures kept { GoesOn Self.tells Self.scene valid stays (IsErr result) self.old self.new };

    /// Syncs the names: a stop leaves them as they are now.
    fn sync_names(&mut self) -> Result<(), Failed>
        requires valid { valid self.old }
        ensures ok { OnOk result (IsTrue (Self.tells).folder → SyncsNames (Self.scene self.old).folder (Self.scene self.new).folder) }
        ensures err { OnErr result ((Self.scene self.new).folder ≡ (Self.scene self.old).folder) }
        ensures quiet { OnOk result ((Self.scene self.new).folder_faults ≡ (Self.scene self.old).folder_faults) }
        ensures told { IsTrue (Self.tells).folder → IsTold SyncedNames [] result (Self.scene self.old) (Self.scene self.new) }
        ensures kept { GoesOn Self.tells Self.scene valid stays (IsErr result) self.old self.new };

    /// Reports that bytes which were read back are not those that were written.
    fn damaged(&mut self)
        requires valid { valid self.old }
        requires there { IsTrue (Self.tells).folder → ⊥ }
        ensures later { (Self.scene self.old).folder_faults ≤ (Self.scene self.new).folder_faults }
        ensures rose { HasRisen (Self.scene self.old).folder_faults (Self.scene self.new).folder_faults }
        ensures frame { CountsFault (Self.scene self.old) (Self.scene self.new) }
        ensures valid { valid self.new }
        ensures stays { stays self.old self.new };

    /// The number of lines of the text.
    fn text_len(&self) -> u64
        requires { valid self.now }
        ensures { result ≡ lines self.now };

    /// Puts `count` lines of the text from line `at` on, counted from 0, into a vector, each followed by byte 10, in place of what
    /// that holds. After an `Err` the vector may hold anything.
    fn text_lines(
        &mut self,
        alloc: Global,
        at: u64,
        count: u64,
        into: &mut Vec<u8>,
    ) -> Result<(), StoreErr>
        requires valid { valid self.old }
        requires within { at + count ≤ lines self.old }
        ensures lines { OnOk result ((text : List (List ℕ)) → has_text self.old text → into.new.items ≡ file_of (cut_out text at count)) }
        ensures are_lines { OnOk result (HoldsLines count into.new.items) }
        ensures looks { IsTrue (Self.tells).folder → Looks (Self.scene self.old) (Self.scene self.new) }
        ensures kept { OnlyReads Self.tells Self.scene valid stays (IsErrOf result StoreErr.Failed) self.old self.new };

    /// A desk that tells has a text.
    ghost tells_one: { (desk : Self) → valid desk → IsTrue (Self.tells).folder → (text : List (List ℕ)) × has_text desk text };
    /// A desk has one text at most.
    ghost has_one: { (desk : Self) (a b : List (List ℕ)) → has_text desk a → has_text desk b → a ≡ b };
    /// No line of the text has byte 10.
    ghost is_text: { (desk : Self) (text : List (List ℕ)) → valid desk → has_text desk text → IsText text };
    /// The text has as many lines as the desk says.
    ghost has_lines: { (desk : Self) (text : List (List ℕ)) → has_text desk text → length text ≡ lines desk };
    /// The number of lines is within its limit, also where the text is not told.
    ghost few_lines: { (desk : Self) → valid desk → lines desk ≤ MAX_LINES };
    /// A desk stays itself.
    ghost stays_itself: { (desk : Self) → stays desk desk };
    /// What stays over two steps stays over both.
    ghost stays_on: { (p q r : Self) → stays p q → stays q r → stays p r };
    /// A desk that stays has the same text.
    ghost stays_text: { (p q : Self) (text : List (List ℕ)) → stays p q → has_text p text → has_text q text };
    /// A desk that stays has as many lines.
    ghost stays_lines: { (p q : Self) → stays p q → lines q ≡ lines p };
    /// A desk that stays reads its text from the same files.
    ghost stays_reads: { (p q : Self) (name : Name) → stays p q → reads q name → reads p name };
}
