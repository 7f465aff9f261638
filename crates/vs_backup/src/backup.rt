// Writing over a file that is there, with a backup.
ghost use Rattle.std.specs.Prelude.{◌≡◌, ◌≢◌, true, false, ℕ, List, length, IfOk, IsErr, OnErr, OnOk, IsErrOf, IsTrue, Some, None, IsSome};
ghost use Rattle.vs_text.specs.Documents.{file_in};
ghost use Rattle.vs_host.specs.Disk.{mode_in};
ghost use Rattle.vs_host.specs.World.{content_of};
ghost use Rattle.vs_backup.specs.Desks.{AreApart, Continues, GoesOn};
ghost use Rattle.vs_disk.specs.Images.{IsSynced};
ghost use Rattle.vs_disk.specs.Runs.{Quiet, Runs};
ghost use Rattle.vs_backup.specs.Modes.{Makes};
ghost use Rattle.vs_backup.specs.Works.{ChangesOne, HasSynced, IsAlone, LeavesNone, RenewsFile, SparesTwo, Widens};
ghost use Rattle.vs_backup.specs.Writing.{CopiesBytes, CopiesMode, FailsNoEarlier, IsFailed, IsFilled, IsFilledFirm, IsMadeLike, IsSettled, MakesAnewFrom, MayBeAbsent, PutsBack, ReplacesByCopy, StartedOverFrom, StartsOverFrom, StillHolds, WritesBacked, WritesOver};

use crate::Desk;
use crate::errors::{Place, Stop, WriteErr};
use crate::files::{Readers, drop_name, empty_file, make_anew, settle, sync_directory, take_name};
use crate::fill::{PIECE, fill_copy, fill_text};
use std::alloc::Global;
use vs_host::Failed;
use vs_text::Format;

/// The bytes that are copied at a time when a file is put back.
const BLOCK: usize = 4_096;

/// A file that is written over, and its backup.
#[derive(Clone, Copy)]
pub(crate) struct Backing<'a> {
    pub name: &'a str,
    pub backup: &'a str,
    /// The name under which a copy is made.
    pub temporary: &'a str,
    /// Whether the file is copied to its backup, and not renamed.
    pub copies: bool,
    /// Whether the backup is kept.
    pub kept: bool,
    /// How the lines of the file end.
    pub format: Format,
}

/// Makes a copy of the file, and gives it the backup name when it is synced.
fn copy_to_backup<D: Desk>(
    desk: &mut D,
    name: &str,
    backup: &str,
    temporary: &str,
    buffer: &mut [u8],
) -> Result<(), Failed>
    requires valid { D.valid desk.old }
    requires names { AreApart (D.reads desk.old) name.now backup.now temporary.now }
    requires buffer { length buffer.old ≡ PIECE }
    requires there { IsTrue (D.tells).folder → IsSome (content_of (D.scene desk.old) name.now) }
    ensures spares { SparesTwo (D.tells).folder temporary.now backup.now (D.scene desk.old) (D.scene desk.new) }
    ensures takes { ReplacesByCopy (D.tells).folder name.now backup.now (D.scene desk.old) (D.scene desk.new) }
    ensures ok { OnOk result (CopiesBytes (D.tells).folder name.now backup.now (D.scene desk.old) (D.scene desk.new)) }
    ensures aside { OnOk result (LeavesNone (D.tells).folder temporary.now (D.scene desk.new)) }
    ensures anew { RenewsFile (D.tells).folder temporary.now (D.scene desk.old) (D.scene desk.new) }
    ensures modes { Makes (D.tells).folder (mode_in (D.scene desk.old).folder name.now) (D.scene desk.old) (D.scene desk.new) }
    ensures mode { OnOk result (CopiesMode (D.tells).folder name.now backup.now (D.scene desk.old) (D.scene desk.new)) }
    ensures kept { GoesOn D.tells D.scene D.valid D.stays (IsErr result) desk.old desk.new }
{
    make_anew(desk, temporary, Readers::Owner)?;
    fill_copy(desk, name, temporary, buffer)?;
    take_name(desk, temporary, backup)
}

/// Copies the file to its backup, and empties it then.
#[tactic(auto, using(crate::proofs::Starting::start_steps))]
fn start_over<D: Desk>(
    desk: &mut D,
    name: &str,
    backup: &str,
    temporary: &str,
    buffer: &mut [u8],
) -> Result<(), Failed>
    requires valid { D.valid desk.old }
    requires names { AreApart (D.reads desk.old) name.now backup.now temporary.now }
    requires buffer { length buffer.old ≡ PIECE }
    requires settled { IsTrue (D.tells).folder → (old : List ℕ) × IsSettled name.now old (D.scene desk.old).folder }
    ensures over { StartsOverFrom (D.tells).folder name.now temporary.now backup.now (D.scene desk.old) (D.scene desk.new) }
    ensures ok { OnOk result (StartedOverFrom (D.tells).folder name.now backup.now (D.scene desk.old) (D.scene desk.new)) }
    ensures aside { OnOk result (LeavesNone (D.tells).folder temporary.now (D.scene desk.new)) }
    ensures err { OnErr result (StillHolds (D.tells).folder name.now (D.scene desk.old) (D.scene desk.new)) }
    ensures modes { Makes (D.tells).folder (mode_in (D.scene desk.old).folder name.now) (D.scene desk.old) (D.scene desk.new) }
    ensures mode { OnOk result (CopiesMode (D.tells).folder name.now backup.now (D.scene desk.old) (D.scene desk.new)) }
    ensures kept { GoesOn D.tells D.scene D.valid D.stays (IsErr result) desk.old desk.new }
{
    copy_to_backup(desk, name, backup, temporary, buffer)?;
    empty_file(desk, name)?;
    Ok(())
}

/// Copies a file back over another one, and syncs that. It takes no memory from the allocator.
fn copy_back<D: Desk>(desk: &mut D, from: &str, to: &str) -> Result<(), Failed>
    requires valid { D.valid desk.old }
    requires apart { D.reads desk.old from.now → ⊥ }
    requires apart_to { D.reads desk.old to.now → ⊥ }
    requires differ { from.now ≢ to.now }
    requires there { IsTrue (D.tells).folder → IsSome (content_of (D.scene desk.old) from.now) }
    requires alone { IsTrue (D.tells).folder → IsAlone to.now (D.scene desk.old).folder }
    ensures runs { IsTrue (D.tells).folder → Runs (ChangesOne to.now) (D.scene desk.old) (D.scene desk.new) }
    ensures ok { OnOk result (IsTrue (D.tells).folder → (bytes : List ℕ) → content_of (D.scene desk.old) from.now ≡ Some bytes
        → IsSynced to.now bytes (D.scene desk.new).folder) }
    ensures err { OnErr result (IsTrue (D.tells).folder → Widens to.now (D.scene desk.old).folder (D.scene desk.new).folder) }
    ensures modes { Makes (D.tells).folder (mode_in (D.scene desk.old).folder from.now) (D.scene desk.old) (D.scene desk.new) }
    ensures kept { GoesOn D.tells D.scene D.valid D.stays (IsErr result) desk.old desk.new }
{
    empty_file(desk, to)?;
    let mut buffer = [0u8; BLOCK];
    fill_copy(desk, from, to, &mut buffer)
}

/// Writes over the file in its place, after it was copied to the backup. Where that fails the copy is copied back.
fn write_copying<D: Desk>(
    alloc: Global,
    desk: &mut D,
    backing: Backing<'_>,
    piece: &mut Vec<u8>,
) -> Result<u64, WriteErr>
    requires valid { D.valid desk.old }
    requires names { AreApart (D.reads desk.old) backing.name.now backing.backup.now backing.temporary.now }
    requires buffer { length piece.old.items ≡ PIECE }
    requires settled { IsTrue (D.tells).folder → (old : List ℕ) × IsSettled backing.name.now old (D.scene desk.old).folder }
    ensures over { IsTrue (D.tells).folder → (old : List ℕ) → IsSettled backing.entry.name.now old (D.scene desk.old).folder
        → (text : List (List ℕ)) → D.has_text desk.old text
        → WritesOver true backing.entry.name.now backing.entry.temporary.now backing.entry.backup.now old (file_in backing.entry.format text)
        (D.scene desk.old) (D.scene desk.new) result }
    ensures no_name { IsErrOf result WriteErr.NoBackupName → ⊥ }
    ensures quiet { OnOk result (IsTrue (D.tells).folder → Quiet (D.scene desk.old) (D.scene desk.new)) }
    ensures refused { OnErr result (IsTrue (D.tells).folder → PutsBack (D.scene desk.old) (D.scene desk.new) result) }
    ensures modes { Makes (D.tells).folder (mode_in (D.scene desk.old).folder backing.entry.name.now) (D.scene desk.old) (D.scene desk.new) }
    ensures kept { Continues D.scene D.valid D.stays (IsFailed result) desk.old desk.new }
{
    match start_over(desk, backing.name, backing.backup, backing.temporary, piece) {
        Ok(()) => match fill_text(alloc, desk, backing.name, None, piece, backing.format) {
            Ok(size) => Ok(size),
            Err(stop) => Err(stop.after(copy_back(desk, backing.backup, backing.name))),
        },
        Err(_) => Err(WriteErr::Failed {
            old_in: Place::File,
        }),
    }
}

/// Makes the file, writes the text into it, gives it the mode bits of the backup, and syncs it. Gives the number of bytes.
fn fill_anew<D: Desk>(
    alloc: Global,
    desk: &mut D,
    name: &str,
    backup: &str,
    piece: &mut Vec<u8>,
    format: Format,
) -> Result<u64, Stop>
    requires valid { D.valid desk.old }
    requires apart { D.reads desk.old name.now → ⊥ }
    requires apart_backup { D.reads desk.old backup.now → ⊥ }
    requires free { IsTrue (D.tells).folder → content_of (D.scene desk.old) name.now ≡ None }
    ensures anew { MakesAnewFrom (D.tells).folder name.now backup.now (D.scene desk.old) (D.scene desk.new) }
    ensures absent { MayBeAbsent (D.tells).folder name.now (D.scene desk.new) }
    ensures ok { IfOk result (λ size. IsFilled (D.tells).folder name.now format (D.has_text desk.old) size (D.scene desk.new)) }
    ensures mode { OnOk result (IsMadeLike (D.tells).folder name.now backup.now (D.scene desk.old) (D.scene desk.new)) }
    ensures kept { GoesOn D.tells D.scene D.valid D.stays (IsErrOf result Stop.Failed) desk.old desk.new }
{
    desk.create_private(name)?;
    fill_text(alloc, desk, name, Some(backup), piece, format)
}

/// Makes the file with the text, and syncs it and the names. Gives the number of bytes.
#[tactic(auto, using(crate::proofs::Anew::anew_steps))]
fn write_anew<D: Desk>(
    alloc: Global,
    desk: &mut D,
    name: &str,
    backup: &str,
    piece: &mut Vec<u8>,
    format: Format,
) -> Result<u64, Stop>
    requires valid { D.valid desk.old }
    requires apart { D.reads desk.old name.now → ⊥ }
    requires apart_backup { D.reads desk.old backup.now → ⊥ }
    requires free { IsTrue (D.tells).folder → content_of (D.scene desk.old) name.now ≡ None }
    ensures anew { MakesAnewFrom (D.tells).folder name.now backup.now (D.scene desk.old) (D.scene desk.new) }
    ensures ok { IfOk result (λ size. IsFilledFirm (D.tells).folder name.now format (D.has_text desk.old) size (D.scene desk.new)) }
    ensures err { OnErr result (MayBeAbsent (D.tells).folder name.now (D.scene desk.new)) }
    ensures mode { OnOk result (IsMadeLike (D.tells).folder name.now backup.now (D.scene desk.old) (D.scene desk.new)) }
    ensures kept { GoesOn D.tells D.scene D.valid D.stays (IsErrOf result Stop.Failed) desk.old desk.new }
{
    let size = fill_anew(alloc, desk, name, backup, piece, format)?;
    sync_directory(desk)?;
    Ok(size)
}

/// Writes the file anew, after it was renamed to the backup. Where that fails the backup is renamed back.
fn write_moving<D: Desk>(
    alloc: Global,
    desk: &mut D,
    backing: Backing<'_>,
    piece: &mut Vec<u8>,
) -> Result<u64, WriteErr>
    requires valid { D.valid desk.old }
    requires names { AreApart (D.reads desk.old) backing.name.now backing.backup.now backing.temporary.now }
    requires settled { IsTrue (D.tells).folder → (old : List ℕ) × IsSettled backing.name.now old (D.scene desk.old).folder }
    ensures over { IsTrue (D.tells).folder → (old : List ℕ) → IsSettled backing.entry.name.now old (D.scene desk.old).folder
        → (text : List (List ℕ)) → D.has_text desk.old text
        → WritesOver false backing.entry.name.now backing.entry.temporary.now backing.entry.backup.now old (file_in backing.entry.format text)
        (D.scene desk.old) (D.scene desk.new) result }
    ensures no_name { IsErrOf result WriteErr.NoBackupName → ⊥ }
    ensures quiet { OnOk result (IsTrue (D.tells).folder → Quiet (D.scene desk.old) (D.scene desk.new)) }
    ensures refused { OnErr result (IsTrue (D.tells).folder → PutsBack (D.scene desk.old) (D.scene desk.new) result) }
    ensures modes { Makes (D.tells).folder (mode_in (D.scene desk.old).folder backing.entry.name.now) (D.scene desk.old) (D.scene desk.new) }
    ensures kept { Continues D.scene D.valid D.stays (IsFailed result) desk.old desk.new }
{
    match desk.rename(backing.name, backing.backup) {
        Ok(()) => match write_anew(
            alloc,
            desk,
            backing.name,
            backing.backup,
            piece,
            backing.format,
        ) {
            Ok(size) => Ok(size),
            Err(stop) => Err(stop.after(take_name(desk, backing.backup, backing.name))),
        },
        Err(_) => Err(WriteErr::Failed {
            old_in: Place::File,
        }),
    }
}

/// Writes over a file that is settled, with a backup that stays where the write is carried out.
fn write_over<D: Desk>(
    alloc: Global,
    desk: &mut D,
    backing: Backing<'_>,
    piece: &mut Vec<u8>,
) -> Result<u64, WriteErr>
    requires valid { D.valid desk.old }
    requires names { AreApart (D.reads desk.old) backing.name.now backing.backup.now backing.temporary.now }
    requires buffer { length piece.old.items ≡ PIECE }
    requires settled { IsTrue (D.tells).folder → (old : List ℕ) × IsSettled backing.name.now old (D.scene desk.old).folder }
    ensures over { IsTrue (D.tells).folder → (old : List ℕ) → IsSettled backing.entry.name.now old (D.scene desk.old).folder
        → (text : List (List ℕ)) → D.has_text desk.old text
        → WritesOver backing.entry.copies backing.entry.name.now backing.entry.temporary.now backing.entry.backup.now old (file_in backing.entry.format text)
        (D.scene desk.old) (D.scene desk.new) result }
    ensures no_name { IsErrOf result WriteErr.NoBackupName → ⊥ }
    ensures quiet { OnOk result (IsTrue (D.tells).folder → Quiet (D.scene desk.old) (D.scene desk.new)) }
    ensures refused { OnErr result (IsTrue (D.tells).folder → PutsBack (D.scene desk.old) (D.scene desk.new) result) }
    ensures modes { Makes (D.tells).folder (mode_in (D.scene desk.old).folder backing.entry.name.now) (D.scene desk.old) (D.scene desk.new) }
    ensures kept { Continues D.scene D.valid D.stays (IsFailed result) desk.old desk.new }
{
    if backing.copies {
        return write_copying(alloc, desk, backing, piece);
    }
    write_moving(alloc, desk, backing, piece)
}

/// Writes over a file that is settled, with a backup that is kept or removed.
fn write_backed<D: Desk>(
    alloc: Global,
    desk: &mut D,
    backing: Backing<'_>,
    piece: &mut Vec<u8>,
) -> Result<u64, WriteErr>
    requires valid { D.valid desk.old }
    requires names { AreApart (D.reads desk.old) backing.name.now backing.backup.now backing.temporary.now }
    requires buffer { length piece.old.items ≡ PIECE }
    requires settled { IsTrue (D.tells).folder → (old : List ℕ) × IsSettled backing.name.now old (D.scene desk.old).folder }
    requires order { IsTrue (D.tells).folder → HasSynced backing.name.now (D.scene desk.old) }
    requires free { backing.kept ≡ false → IsTrue (D.tells).folder → content_of (D.scene desk.old) backing.backup.now ≡ None }
    ensures backed { IsTrue (D.tells).folder → (old : List ℕ) → IsSettled backing.entry.name.now old (D.scene desk.old).folder
        → (text : List (List ℕ)) → D.has_text desk.old text
        → WritesBacked backing.entry.copies backing.entry.kept backing.entry.name.now backing.entry.temporary.now backing.entry.backup.now old
        (file_in backing.entry.format text) (D.scene desk.old) (D.scene desk.new) result }
    ensures no_name { IsErrOf result WriteErr.NoBackupName → ⊥ }
    ensures calls { IsTrue (D.tells).folder → (text : List (List ℕ)) → D.has_text desk.old text
        → FailsNoEarlier backing.entry.name.now (file_in backing.entry.format text) (D.scene desk.old) (D.scene desk.new) result }
    ensures modes { Makes (D.tells).folder (mode_in (D.scene desk.old).folder backing.entry.name.now) (D.scene desk.old) (D.scene desk.new) }
    ensures kept { Continues D.scene D.valid D.stays (IsFailed result) desk.old desk.new }
{
    let size = write_over(alloc, desk, backing, piece)?;
    if backing.kept {
        return Ok(size);
    }
    // The new bytes stand under the name, so a backup that stays is no reason to refuse the write.
    let _ = drop_name(desk, backing.backup);
    Ok(size)
}

/// Writes over a file that is there, with a backup.
pub(crate) fn write_with_backup<D: Desk>(
    alloc: Global,
    desk: &mut D,
    backing: Backing<'_>,
    piece: &mut Vec<u8>,
) -> Result<u64, WriteErr>
    requires valid { D.valid desk.old }
    requires names { AreApart (D.reads desk.old) backing.name.now backing.backup.now backing.temporary.now }
    requires buffer { length piece.old.items ≡ PIECE }
    requires there { IsTrue (D.tells).folder → IsSome (content_of (D.scene desk.old) backing.name.now) }
    requires free { backing.kept ≡ false → IsTrue (D.tells).folder → content_of (D.scene desk.old) backing.backup.now ≡ None }
    ensures backed { IsTrue (D.tells).folder → (old : List ℕ) → content_of (D.scene desk.old) backing.entry.name.now ≡ Some old
        → (text : List (List ℕ)) → D.has_text desk.old text
        → WritesBacked backing.entry.copies backing.entry.kept backing.entry.name.now backing.entry.temporary.now backing.entry.backup.now old
        (file_in backing.entry.format text) (D.scene desk.old) (D.scene desk.new) result }
    ensures no_name { IsErrOf result WriteErr.NoBackupName → ⊥ }
    ensures calls { IsTrue (D.tells).folder → (text : List (List ℕ)) → D.has_text desk.old text
        → FailsNoEarlier backing.entry.name.now (file_in backing.entry.format text) (D.scene desk.old) (D.scene desk.new) result }
    ensures modes { Makes (D.tells).folder (mode_in (D.scene desk.old).folder backing.entry.name.now) (D.scene desk.old) (D.scene desk.new) }
    ensures kept { Continues D.scene D.valid D.stays (IsFailed result) desk.old desk.new }
{
    match settle(desk, backing.name) {
        Ok(()) => write_backed(alloc, desk, backing, piece),
        Err(_) => Err(WriteErr::Failed {
            old_in: Place::File,
        }),
    }
}
