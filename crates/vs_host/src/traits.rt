// What the editing core asks of the outside.
ghost use Rattle.std.specs.Prelude.{◌≡◌, ◌≢◌, ◌<◌, ◌≤◌, ◌+◌, ◌^◌, ◌++◌, ◌∷◌, [], ℕ, Bool, length, take, drop, IfSome, IfOk, OnOk, OnErr, IsErr, IsTrue, is_ok, is_some, IsSome, IsSomeAnd, None, Some};
ghost use Rattle.vs_faults.specs.Faults.{HasRisen, HasCause};
ghost use Rattle.vs_host.specs.File.{Writes, WritesSome, Cuts, Syncs};
ghost use Rattle.vs_host.specs.Disk.{ChangesFile, ChangesNames, CreatesFile, SyncsNames, IsFolder, MayBeLike, Renames, Removes, like, mode_in, owner_mode};
ghost use Rattle.vs_host.specs.Trace.{ReadScript, WroteOutput, Looked, Created, Measured, Read, Wrote, Cut, Synced, Renamed, Removed, SyncedNames, most_faults};
ghost use Rattle.vs_host.specs.World.{Tells, Scene, HasNewest, content_of, IsTold, CountsFault, ChangesScript, ChangesOutput, ChangesClock, ReadsFolder, ChangesFolder};

/// A call on the host failed. Only the counts of faults say more.
#[derive(Clone, Copy, Debug, PartialEq, Eq)]
pub struct Failed;

/// What the traits of calls share: the outside that they act on. No count of faults ever falls; a count that stands at
/// 2^64 - 1 stays there, and counts as risen. A call that succeeds leaves its count.
pub trait World {
    /// Which parts of the scene the hosts of this type tell. Clauses on the contents of a part hold where it is told. The
    /// trace is told with the folder.
    ghost tells: { Tells };
    /// The outside now. Its counts of faults are always told.
    ghost scene: { Self → Scene };
    /// What the hosts of this type say of each of their calls but `now`, from the host before to the host after, and whether the
    /// call succeeded.
    ghost plays: { Self → Self → Bool → Type 0 };
    /// In no state of the names that a stop may leave do two names lead to one file.
    ghost is_folder: { (host : Self) → IsTrue tells.folder → IsFolder (scene host).folder };
    /// The newest snapshot is that of folder and output as they are.
    ghost newest: { (host : Self) → IsTrue tells.folder → HasNewest (scene host) };
    /// No snapshot has a count of the folder's faults above the one now.
    ghost counted: { (host : Self) → IsTrue tells.folder → most_faults (scene host).trace ≤ (scene host).folder_faults };
}

/// The script of Ex commands, as a stream of bytes.
pub trait Script: World {
    /// Reads the next bytes of the script to the front of `into`, and answers how many. 0 comes only at the script's end.
    fn read(&mut self, into: &mut [u8]) -> Result<usize, Failed>
        requires { 0 < length into.old }
        ensures bound { IfOk result (λ n. n ≤ length into.new) }
        ensures bytes { IfOk result (λ n. IsTrue (Self.tells).script → (Self.scene self.old).script ≡ take n into.new ++ (Self.scene self.new).script) }
        ensures end { IfOk result (λ n. IsTrue (Self.tells).script → n ≡ 0 → (Self.scene self.new).script ≡ []) }
        ensures err { OnErr result (IsTrue (Self.tells).script → (Self.scene self.new).script ≡ (Self.scene self.old).script) }
        ensures cause { HasCause (Self.scene self.old).script_faults (Self.scene self.new).script_faults (IsErr result) }
        ensures quiet { OnOk result ((Self.scene self.new).script_faults ≡ (Self.scene self.old).script_faults) }
        ensures told { IsTrue (Self.tells).folder → IsTold ReadScript [] result (Self.scene self.old) (Self.scene self.new) }
        ensures plays { Self.plays self.old self.new (is_ok result) }
        ensures frame { ChangesScript (Self.scene self.old) (Self.scene self.new) };
}

/// The output, to which replies are written.
pub trait Out: World {
    /// Writes the whole piece. Where that fails, some first part of it was written.
    fn write(&mut self, piece: &[u8]) -> Result<(), Failed>
        ensures ok { OnOk result (IsTrue (Self.tells).output → (Self.scene self.new).output ≡ (Self.scene self.old).output ++ piece.now) }
        ensures err { OnErr result (IsTrue (Self.tells).output → (n : ℕ) ×
            ((Self.scene self.new).output ≡ (Self.scene self.old).output ++ take n piece.now)) }
        ensures cause { HasCause (Self.scene self.old).out_faults (Self.scene self.new).out_faults (IsErr result) }
        ensures quiet { OnOk result ((Self.scene self.new).out_faults ≡ (Self.scene self.old).out_faults) }
        ensures told { IsTrue (Self.tells).folder → IsTold WroteOutput [] result (Self.scene self.old) (Self.scene self.new) }
        ensures plays { Self.plays self.old self.new (is_ok result) }
        ensures frame { ChangesOutput (Self.scene self.old) (Self.scene self.new) };
}

/// The clock.
pub trait Clock: World {
    /// The time now, in seconds since 1970. It cannot fail.
    fn now(&mut self) -> u64
        requires { IsTrue (Self.tells).clock → length (Self.scene self.old).answers < 2 ^ 63 }
        ensures answers { IsTrue (Self.tells).clock → (Self.scene self.new).answers ≡ (Self.scene self.old).answers ++ result ∷ [] }
        ensures frame { ChangesClock (Self.scene self.old) (Self.scene self.new) };
}

/// The files of one folder, by name. What a stop may leave of them is an image: docs/ARCHITECTURE.md, "The folder".
pub trait Folder: World {
    /// Whether a file stands under the name.
    fn has(&mut self, name: &str) -> Result<bool, Failed>
        ensures value { IfOk result (λ there. IsTrue (Self.tells).folder → there ≡ is_some (content_of (Self.scene self.old) name.now)) }
        ensures cause { HasCause (Self.scene self.old).folder_faults (Self.scene self.new).folder_faults (IsErr result) }
        ensures quiet { OnOk result ((Self.scene self.new).folder_faults ≡ (Self.scene self.old).folder_faults) }
        ensures told { IsTrue (Self.tells).folder → IsTold Looked (name.now ∷ []) result (Self.scene self.old) (Self.scene self.new) }
        ensures plays { Self.plays self.old self.new (is_ok result) }
        ensures frame { ReadsFolder (Self.scene self.old) (Self.scene self.new) };

    /// Makes an empty file under a name that is not there. Who may read it is the system's default.
    fn create(&mut self, name: &str) -> Result<(), Failed>
        requires { IsTrue (Self.tells).folder → content_of (Self.scene self.old) name.now ≡ None }
        ensures ok { OnOk result (IsTrue (Self.tells).folder → CreatesFile name.now (Self.scene self.old).folder (Self.scene self.new).folder) }
        ensures err { OnErr result ((Self.scene self.new).folder ≡ (Self.scene self.old).folder) }
        ensures cause { HasCause (Self.scene self.old).folder_faults (Self.scene self.new).folder_faults (IsErr result) }
        ensures quiet { OnOk result ((Self.scene self.new).folder_faults ≡ (Self.scene self.old).folder_faults) }
        ensures told { IsTrue (Self.tells).folder → IsTold Created (name.now ∷ []) result (Self.scene self.old) (Self.scene self.new) }
        ensures plays { Self.plays self.old self.new (is_ok result) }
        ensures frame { ChangesFolder (Self.scene self.old) (Self.scene self.new) };

    /// Makes an empty file under a name that is not there, which nobody but its owner may read.
    fn create_private(&mut self, name: &str) -> Result<(), Failed>
        requires { IsTrue (Self.tells).folder → content_of (Self.scene self.old) name.now ≡ None }
        ensures ok { OnOk result (IsTrue (Self.tells).folder → CreatesFile name.now (Self.scene self.old).folder (Self.scene self.new).folder) }
        ensures mode { OnOk result (IsTrue (Self.tells).folder → mode_in (Self.scene self.new).folder name.now ≡ Some owner_mode) }
        ensures err { OnErr result ((Self.scene self.new).folder ≡ (Self.scene self.old).folder) }
        ensures cause { HasCause (Self.scene self.old).folder_faults (Self.scene self.new).folder_faults (IsErr result) }
        ensures quiet { OnOk result ((Self.scene self.new).folder_faults ≡ (Self.scene self.old).folder_faults) }
        ensures told { IsTrue (Self.tells).folder → IsTold Created (name.now ∷ []) result (Self.scene self.old) (Self.scene self.new) }
        ensures plays { Self.plays self.old self.new (is_ok result) }
        ensures frame { ChangesFolder (Self.scene self.old) (Self.scene self.new) };

    /// The number of bytes of the file.
    fn len(&mut self, name: &str) -> Result<u64, Failed>
        requires { IsTrue (Self.tells).folder → IsSome (content_of (Self.scene self.old) name.now) }
        ensures value { IfOk result (λ size. IsTrue (Self.tells).folder →
            IfSome (content_of (Self.scene self.old) name.now) (λ bytes. size ≡ length bytes)) }
        ensures cause { HasCause (Self.scene self.old).folder_faults (Self.scene self.new).folder_faults (IsErr result) }
        ensures quiet { OnOk result ((Self.scene self.new).folder_faults ≡ (Self.scene self.old).folder_faults) }
        ensures told { IsTrue (Self.tells).folder → IsTold Measured (name.now ∷ []) result (Self.scene self.old) (Self.scene self.new) }
        ensures plays { Self.plays self.old self.new (is_ok result) }
        ensures frame { ReadsFolder (Self.scene self.old) (Self.scene self.new) };

    /// Fills `into` with the bytes of the file from the place `at` on, counted from 0.
    fn read_at(&mut self, name: &str, at: u64, into: &mut [u8]) -> Result<(), Failed>
        requires { IsTrue (Self.tells).folder → IsSomeAnd (content_of (Self.scene self.old) name.now) (λ bytes. at + length into.old ≤ length bytes) }
        ensures value { OnOk result (IsTrue (Self.tells).folder → IfSome (content_of (Self.scene self.old) name.now) (λ bytes.
            into.new ≡ take (length into.old) (drop at bytes))) }
        ensures cause { HasCause (Self.scene self.old).folder_faults (Self.scene self.new).folder_faults (IsErr result) }
        ensures quiet { OnOk result ((Self.scene self.new).folder_faults ≡ (Self.scene self.old).folder_faults) }
        ensures told { IsTrue (Self.tells).folder → IsTold Read (name.now ∷ []) result (Self.scene self.old) (Self.scene self.new) }
        ensures plays { Self.plays self.old self.new (is_ok result) }
        ensures frame { ReadsFolder (Self.scene self.old) (Self.scene self.new) };

    /// Writes the piece into the file from the place `at` on, counted from 0. Where that fails, its range may have any bytes,
    /// and the file any length from the old one to the one asked for.
    fn write_at(&mut self, name: &str, at: u64, piece: &[u8]) -> Result<(), Failed>
        requires { IsTrue (Self.tells).folder → IsSomeAnd (content_of (Self.scene self.old) name.now) (λ bytes. at ≤ length bytes) }
        ensures ok { OnOk result (IsTrue (Self.tells).folder →
            ChangesFile name.now (Writes at piece.now) (Self.scene self.old).folder (Self.scene self.new).folder) }
        ensures some { IsTrue (Self.tells).folder →
            ChangesFile name.now (WritesSome at (length piece.now)) (Self.scene self.old).folder (Self.scene self.new).folder }
        ensures cause { HasCause (Self.scene self.old).folder_faults (Self.scene self.new).folder_faults (IsErr result) }
        ensures quiet { OnOk result ((Self.scene self.new).folder_faults ≡ (Self.scene self.old).folder_faults) }
        ensures told { IsTrue (Self.tells).folder → IsTold Wrote (name.now ∷ []) result (Self.scene self.old) (Self.scene self.new) }
        ensures plays { Self.plays self.old self.new (is_ok result) }
        ensures frame { ChangesFolder (Self.scene self.old) (Self.scene self.new) };

    /// Takes away the bytes of the file from the place `len` on.
    fn cut(&mut self, name: &str, len: u64) -> Result<(), Failed>
        requires { IsTrue (Self.tells).folder → IsSomeAnd (content_of (Self.scene self.old) name.now) (λ bytes. len ≤ length bytes) }
        ensures ok { OnOk result (IsTrue (Self.tells).folder → ChangesFile name.now (Cuts len) (Self.scene self.old).folder (Self.scene self.new).folder) }
        ensures err { OnErr result ((Self.scene self.new).folder ≡ (Self.scene self.old).folder) }
        ensures cause { HasCause (Self.scene self.old).folder_faults (Self.scene self.new).folder_faults (IsErr result) }
        ensures quiet { OnOk result ((Self.scene self.new).folder_faults ≡ (Self.scene self.old).folder_faults) }
        ensures told { IsTrue (Self.tells).folder → IsTold Cut (name.now ∷ []) result (Self.scene self.old) (Self.scene self.new) }
        ensures plays { Self.plays self.old self.new (is_ok result) }
        ensures frame { ChangesFolder (Self.scene self.old) (Self.scene self.new) };

    /// Syncs the file: a stop leaves its bytes as they are now.
    fn sync(&mut self, name: &str) -> Result<(), Failed>
        requires { IsTrue (Self.tells).folder → IsSome (content_of (Self.scene self.old) name.now) }
        ensures ok { OnOk result (IsTrue (Self.tells).folder → ChangesFile name.now Syncs (Self.scene self.old).folder (Self.scene self.new).folder) }
        ensures err { OnErr result ((Self.scene self.new).folder ≡ (Self.scene self.old).folder) }
        ensures cause { HasCause (Self.scene self.old).folder_faults (Self.scene self.new).folder_faults (IsErr result) }
        ensures quiet { OnOk result ((Self.scene self.new).folder_faults ≡ (Self.scene self.old).folder_faults) }
        ensures told { IsTrue (Self.tells).folder → IsTold Synced (name.now ∷ []) result (Self.scene self.old) (Self.scene self.new) }
        ensures plays { Self.plays self.old self.new (is_ok result) }
        ensures frame { ChangesFolder (Self.scene self.old) (Self.scene self.new) };

    /// Gives the file the mode bits of the model, if that is there, and syncs it. A stop during the call may leave either mode.
    ///
    /// A host gives no more rights than the model has, and fewer where the system does not allow to give all of them.
    fn sync_like(&mut self, model: &str, name: &str) -> Result<(), Failed>
        requires { IsTrue (Self.tells).folder → IsSome (content_of (Self.scene self.old) name.now) }
        ensures ok { OnOk result (IsTrue (Self.tells).folder →
            ChangesFile name.now Syncs (like model.now name.now (Self.scene self.old).folder) (Self.scene self.new).folder) }
        ensures err { OnErr result (MayBeLike model.now name.now (Self.scene self.old).folder (Self.scene self.new).folder) }
        ensures cause { HasCause (Self.scene self.old).folder_faults (Self.scene self.new).folder_faults (IsErr result) }
        ensures quiet { OnOk result ((Self.scene self.new).folder_faults ≡ (Self.scene self.old).folder_faults) }
        ensures told { IsTrue (Self.tells).folder → IsTold Synced (name.now ∷ []) result (Self.scene self.old) (Self.scene self.new) }
        ensures plays { Self.plays self.old self.new (is_ok result) }
        ensures frame { ChangesFolder (Self.scene self.old) (Self.scene self.new) };

    /// Gives the file `from` the name `to`, which it takes from a file that has it.
    fn rename(&mut self, from: &str, to: &str) -> Result<(), Failed>
        requires there { IsTrue (Self.tells).folder → IsSome (content_of (Self.scene self.old) from.now) }
        requires differ { IsTrue (Self.tells).folder → from.now ≢ to.now }
        ensures ok { OnOk result (IsTrue (Self.tells).folder →
            ChangesNames (Renames from.now to.now) (Self.scene self.old).folder (Self.scene self.new).folder) }
        ensures err { OnErr result ((Self.scene self.new).folder ≡ (Self.scene self.old).folder) }
        ensures cause { HasCause (Self.scene self.old).folder_faults (Self.scene self.new).folder_faults (IsErr result) }
        ensures quiet { OnOk result ((Self.scene self.new).folder_faults ≡ (Self.scene self.old).folder_faults) }
        ensures told { IsTrue (Self.tells).folder → IsTold Renamed (from.now ∷ to.now ∷ []) result (Self.scene self.old) (Self.scene self.new) }
        ensures plays { Self.plays self.old self.new (is_ok result) }
        ensures frame { ChangesFolder (Self.scene self.old) (Self.scene self.new) };

    /// Takes the name away.
    fn remove(&mut self, name: &str) -> Result<(), Failed>
        requires { IsTrue (Self.tells).folder → IsSome (content_of (Self.scene self.old) name.now) }
        ensures ok { OnOk result (IsTrue (Self.tells).folder → ChangesNames (Removes name.now) (Self.scene self.old).folder (Self.scene self.new).folder) }
        ensures err { OnErr result ((Self.scene self.new).folder ≡ (Self.scene self.old).folder) }
        ensures cause { HasCause (Self.scene self.old).folder_faults (Self.scene self.new).folder_faults (IsErr result) }
        ensures quiet { OnOk result ((Self.scene self.new).folder_faults ≡ (Self.scene self.old).folder_faults) }
        ensures told { IsTrue (Self.tells).folder → IsTold Removed (name.now ∷ []) result (Self.scene self.old) (Self.scene self.new) }
        ensures plays { Self.plays self.old self.new (is_ok result) }
        ensures frame { ChangesFolder (Self.scene self.old) (Self.scene self.new) };

    /// Syncs the names: a stop leaves them as they are now.
    fn sync_names(&mut self) -> Result<(), Failed>
        ensures ok { OnOk result (IsTrue (Self.tells).folder → SyncsNames (Self.scene self.old).folder (Self.scene self.new).folder) }
        ensures err { OnErr result ((Self.scene self.new).folder ≡ (Self.scene self.old).folder) }
        ensures cause { HasCause (Self.scene self.old).folder_faults (Self.scene self.new).folder_faults (IsErr result) }
        ensures quiet { OnOk result ((Self.scene self.new).folder_faults ≡ (Self.scene self.old).folder_faults) }
        ensures told { IsTrue (Self.tells).folder → IsTold SyncedNames [] result (Self.scene self.old) (Self.scene self.new) }
        ensures plays { Self.plays self.old self.new (is_ok result) }
        ensures frame { ChangesFolder (Self.scene self.old) (Self.scene self.new) };

    /// Reports that bytes which were read back are not those that were written.
    fn damaged(&mut self)
        requires { IsTrue (Self.tells).folder → ⊥ }
        ensures later { (Self.scene self.old).folder_faults ≤ (Self.scene self.new).folder_faults }
        ensures rose { HasRisen (Self.scene self.old).folder_faults (Self.scene self.new).folder_faults }
        ensures frame { CountsFault (Self.scene self.old) (Self.scene self.new) };
}

/// All of the outside at once.
pub trait Host: Script + Out + Clock + Folder {}
