// Calls on one file and its name.
ghost use Rattle.std.specs.Prelude.{◌≡◌, ◌≢◌, ◌≤◌, ◌<◌, ◌+◌, ◌^◌, ◌++◌, ◌∷◌, [], Bool, false, ℕ, List, length, IfOk, IfSome, MatchOption, OnOk, OnErr, IsErr, IsTrue, Some, None, IsSome};
ghost use Rattle.vs_host.specs.File.{Syncs};
ghost use Rattle.vs_host.specs.Disk.{Name, names_of, mode_in, like, ChangesFile, CreatesFile, MayBeLike};
ghost use Rattle.vs_host.specs.Trace.{Created, Synced, SyncedNames};
ghost use Rattle.vs_host.specs.World.{content_of, IsTold};
ghost use Rattle.vs_disk.specs.Images.{IsSynced, Takes};
ghost use Rattle.vs_disk.specs.Runs.{Runs};
ghost use Rattle.vs_backup.specs.Desks.{GoesOn};
ghost use Rattle.vs_backup.specs.Modes.{Makes, MakesFor, TakesMode};
ghost use Rattle.vs_backup.specs.Works.{Drops, Empties, HandsOver, HasNew, IsAlone, IsGone, IsHeld, KeepsStates, LeadsNowhereElse, Renews, Settles, SettlesAny, Spares, SyncsAll, SyncsBytes, SyncsInOrder, Unchanged, Widens, one_name, two_names};
ghost use Rattle.vs_backup.specs.Writing.{IsSettled, SettlesBytes, SettlesSynced};

use crate::Desk;
use vs_host::Failed;

/// Syncs the file.
fn sync_file<D: Desk>(desk: &mut D, name: &str) -> Result<(), Failed>
    requires valid { D.valid desk.old }
    requires apart { D.reads desk.old name.now → ⊥ }
    requires there { IsTrue (D.tells).folder → IsSome (content_of (D.scene desk.old) name.now) }
    ensures settles { Settles (D.tells).folder name.now (D.scene desk.old) (D.scene desk.new) }
    ensures ok { OnOk result (SyncsBytes (D.tells).folder name.now (D.scene desk.old) (D.scene desk.new)) }
    ensures told { IsTrue (D.tells).folder → IsTold Synced (name.now ∷ []) result (D.scene desk.old) (D.scene desk.new) }
    ensures kept { GoesOn D.tells D.scene D.valid D.stays (IsErr result) desk.old desk.new }
{
    desk.sync(name)
}

/// Syncs the names: a file that is synced is settled then.
pub(crate) fn sync_directory<D: Desk>(desk: &mut D) -> Result<(), Failed>
    requires valid { D.valid desk.old }
    ensures settles { SettlesAny (D.tells).folder (D.scene desk.old) (D.scene desk.new) }
    ensures ok { OnOk result (SettlesSynced (D.tells).folder (D.scene desk.old) (D.scene desk.new)) }
    ensures all { OnOk result (SyncsAll (D.tells).folder (D.scene desk.old) (D.scene desk.new)) }
    ensures err { OnErr result (Unchanged (D.tells).folder (D.scene desk.old) (D.scene desk.new)) }
    ensures told { IsTrue (D.tells).folder → IsTold SyncedNames [] result (D.scene desk.old) (D.scene desk.new) }
    ensures kept { GoesOn D.tells D.scene D.valid D.stays (IsErr result) desk.old desk.new }
{
    desk.sync_names()
}

/// Syncs the file, and then the names.
#[tactic(auto, using(crate::proofs::Settling::settle_steps))]
pub(crate) fn settle<D: Desk>(desk: &mut D, name: &str) -> Result<(), Failed>
    requires valid { D.valid desk.old }
    requires apart { D.reads desk.old name.now → ⊥ }
    requires there { IsTrue (D.tells).folder → IsSome (content_of (D.scene desk.old) name.now) }
    ensures settles { Settles (D.tells).folder name.now (D.scene desk.old) (D.scene desk.new) }
    ensures ok { OnOk result (SettlesBytes (D.tells).folder name.now (D.scene desk.old) (D.scene desk.new)) }
    ensures order { OnOk result (SyncsInOrder (D.tells).folder name.now (D.scene desk.new)) }
    ensures kept { GoesOn D.tells D.scene D.valid D.stays (IsErr result) desk.old desk.new }
{
    sync_file(desk, name)?;
    sync_directory(desk)?;
    Ok(())
}

/// Empties a file.
pub(crate) fn empty_file<D: Desk>(desk: &mut D, name: &str) -> Result<(), Failed>
    requires valid { D.valid desk.old }
    requires apart { D.reads desk.old name.now → ⊥ }
    requires there { IsTrue (D.tells).folder → IsSome (content_of (D.scene desk.old) name.now) }
    ensures ok { OnOk result (Empties (D.tells).folder name.now (D.scene desk.old) (D.scene desk.new)) }
    ensures err { OnErr result (Unchanged (D.tells).folder (D.scene desk.old) (D.scene desk.new)) }
    ensures kept { GoesOn D.tells D.scene D.valid D.stays (IsErr result) desk.old desk.new }
{
    desk.cut(name, 0)
}

/// Takes a name away if a file stands under it.
pub(crate) fn clear_name<D: Desk>(desk: &mut D, name: &str) -> Result<(), Failed>
    requires valid { D.valid desk.old }
    requires apart { D.reads desk.old name.now → ⊥ }
    ensures spares { IsTrue (D.tells).folder → Runs (Spares (one_name name.now)) (D.scene desk.old) (D.scene desk.new) }
    ensures ok { OnOk result (IsTrue (D.tells).folder → content_of (D.scene desk.new) name.now ≡ None) }
    ensures renews { IsTrue (D.tells).folder → Runs (Renews name.now) (D.scene desk.old) (D.scene desk.new) }
    ensures states { IsTrue (D.tells).folder → KeepsStates (D.scene desk.old).folder (D.scene desk.new).folder }
    ensures modes { Makes (D.tells).folder None (D.scene desk.old) (D.scene desk.new) }
    ensures kept { GoesOn D.tells D.scene D.valid D.stays (IsErr result) desk.old desk.new }
{
    if desk.has(name)? {
        return desk.remove(name);
    }
    Ok(())
}

/// Who may read a file that is made.
#[derive(Clone, Copy, Debug, PartialEq, Eq)]
pub(crate) enum Readers {
    /// Those whom the system lets read a new file.
    Usual,
    /// Its owner alone.
    Owner,
}

/// Makes an empty file under a name that is not there.
fn create_for<D: Desk>(desk: &mut D, name: &str, readers: Readers) -> Result<(), Failed>
    requires valid { D.valid desk.old }
    requires apart { D.reads desk.old name.now → ⊥ }
    requires there { IsTrue (D.tells).folder → content_of (D.scene desk.old) name.now ≡ None }
    ensures ok { OnOk result (IsTrue (D.tells).folder → CreatesFile name.now (D.scene desk.old).folder (D.scene desk.new).folder) }
    ensures err { OnErr result ((D.scene desk.new).folder ≡ (D.scene desk.old).folder) }
    ensures told { IsTrue (D.tells).folder → IsTold Created (name.now ∷ []) result (D.scene desk.old) (D.scene desk.new) }
    ensures modes { MakesFor readers (D.tells).folder (D.scene desk.old) (D.scene desk.new) }
    ensures kept { GoesOn D.tells D.scene D.valid D.stays (IsErr result) desk.old desk.new }
{
    match readers {
        Readers::Usual => desk.create(name),
        Readers::Owner => desk.create_private(name),
    }
}

/// Makes an empty file under the name, in place of one that may stand there.
pub(crate) fn make_anew<D: Desk>(desk: &mut D, name: &str, readers: Readers) -> Result<(), Failed>
    requires valid { D.valid desk.old }
    requires apart { D.reads desk.old name.now → ⊥ }
    ensures spares { IsTrue (D.tells).folder → Runs (Spares (one_name name.now)) (D.scene desk.old) (D.scene desk.new) }
    ensures empty { OnOk result (IsTrue (D.tells).folder → content_of (D.scene desk.new) name.now ≡ Some []) }
    ensures alone { OnOk result (IsTrue (D.tells).folder → IsAlone name.now (D.scene desk.new).folder) }
    ensures renews { IsTrue (D.tells).folder → Runs (Renews name.now) (D.scene desk.old) (D.scene desk.new) }
    ensures anew { OnOk result (IsTrue (D.tells).folder → HasNew name.now (D.scene desk.old).folder (D.scene desk.new).folder) }
    ensures modes { MakesFor readers (D.tells).folder (D.scene desk.old) (D.scene desk.new) }
    ensures kept { GoesOn D.tells D.scene D.valid D.stays (IsErr result) desk.old desk.new }
{
    clear_name(desk, name)?;
    create_for(desk, name, readers)
}

/// Syncs a file, which gets the mode bits of the model with it, if there is one.
///
/// The mode comes after the bytes, since a mode without the right to write keeps bytes out, and before the sync, which keeps it.
pub(crate) fn sync_like<D: Desk>(
    desk: &mut D,
    model: Option<&str>,
    name: &str,
) -> Result<(), Failed>
    requires valid { D.valid desk.old }
    requires apart_model { IfSome model (λ model. D.reads desk.old model.now → ⊥) }
    requires apart { D.reads desk.old name.now → ⊥ }
    requires there { IsTrue (D.tells).folder → IsSome (content_of (D.scene desk.old) name.now) }
    ensures ok { OnOk result (IsTrue (D.tells).folder
        → MatchOption model.entry (ChangesFile name.now Syncs (D.scene desk.old).folder (D.scene desk.new).folder)
        (λ model. ChangesFile name.now Syncs (like model.now name.now (D.scene desk.old).folder) (D.scene desk.new).folder)) }
    ensures err { OnErr result (MatchOption model.entry ((D.scene desk.new).folder ≡ (D.scene desk.old).folder)
        (λ model. MayBeLike model.now name.now (D.scene desk.old).folder (D.scene desk.new).folder)) }
    ensures told { IsTrue (D.tells).folder → IsTold Synced (name.now ∷ []) result (D.scene desk.old) (D.scene desk.new) }
    ensures kept { GoesOn D.tells D.scene D.valid D.stays (IsErr result) desk.old desk.new }
{
    match model {
        Some(model) => desk.sync_like(model, name),
        None => desk.sync(name),
    }
}

/// Renames a file and syncs the names.
pub(crate) fn take_name<D: Desk>(desk: &mut D, from: &str, to: &str) -> Result<(), Failed>
    requires valid { D.valid desk.old }
    requires apart { D.reads desk.old from.now → ⊥ }
    requires apart_to { D.reads desk.old to.now → ⊥ }
    requires differ { from.now ≢ to.now }
    requires there { IsTrue (D.tells).folder → IsSome (content_of (D.scene desk.old) from.now) }
    ensures spares { IsTrue (D.tells).folder → Runs (Spares (two_names from.now to.now)) (D.scene desk.old) (D.scene desk.new) }
    ensures takes { IsTrue (D.tells).folder → (bytes : List ℕ) → IsSynced from.now bytes (D.scene desk.old).folder
        → Runs (Takes to.now bytes) (D.scene desk.old) (D.scene desk.new) }
    ensures ok { OnOk result (IsTrue (D.tells).folder → (bytes : List ℕ) → IsSynced from.now bytes (D.scene desk.old).folder
        → IsSettled to.now bytes (D.scene desk.new).folder) }
    ensures leads { IsTrue (D.tells).folder → Runs (LeadsNowhereElse from.now) (D.scene desk.old) (D.scene desk.new) }
    ensures gone { OnOk result (IsTrue (D.tells).folder → IsGone from.now (D.scene desk.new).folder) }
    ensures held { IsTrue (D.tells).folder → (number : ℕ) (bytes : List ℕ) → IsHeld to.now from.now number bytes (D.scene desk.old).folder
        → names_of (D.scene desk.old).folder from.now ≡ Some number
        → Runs (λ before after. IsHeld to.now from.now number bytes after) (D.scene desk.old) (D.scene desk.new) }
    ensures hands { IsTrue (D.tells).folder → Runs (HandsOver from.now to.now) (D.scene desk.old) (D.scene desk.new) }
    ensures err { OnErr result (IsTrue (D.tells).folder → Widens to.now (D.scene desk.old).folder (D.scene desk.new).folder) }
    ensures modes { Makes (D.tells).folder (mode_in (D.scene desk.old).folder from.now) (D.scene desk.old) (D.scene desk.new) }
    ensures mode { OnOk result (TakesMode (D.tells).folder from.now to.now (D.scene desk.old) (D.scene desk.new)) }
    ensures kept { GoesOn D.tells D.scene D.valid D.stays (IsErr result) desk.old desk.new }
{
    desk.rename(from, to)?;
    desk.sync_names()
}

/// Takes a name away and syncs the names.
pub(crate) fn drop_name<D: Desk>(desk: &mut D, name: &str) -> Result<(), Failed>
    requires valid { D.valid desk.old }
    requires apart { D.reads desk.old name.now → ⊥ }
    requires there { IsTrue (D.tells).folder → IsSome (content_of (D.scene desk.old) name.now) }
    ensures spares { IsTrue (D.tells).folder → Runs (Spares (one_name name.now)) (D.scene desk.old) (D.scene desk.new) }
    ensures drops { IsTrue (D.tells).folder → Runs (Drops name.now) (D.scene desk.old) (D.scene desk.new) }
    ensures leads { IsTrue (D.tells).folder → Runs (LeadsNowhereElse name.now) (D.scene desk.old) (D.scene desk.new) }
    ensures gone { OnOk result (IsTrue (D.tells).folder → IsGone name.now (D.scene desk.new).folder) }
    ensures modes { Makes (D.tells).folder None (D.scene desk.old) (D.scene desk.new) }
    ensures kept { GoesOn D.tells D.scene D.valid D.stays (IsErr result) desk.old desk.new }
{
    desk.remove(name)?;
    desk.sync_names()
}
