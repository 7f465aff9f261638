// The whole of a write, by its options.
ghost use Rattle.std.specs.Prelude.{◌≡◌, ◌≢◌, ◌⊎◌, true, false, ℕ, List, [], ◌∷◌, length, IfOk, IfSome, MatchOption, IsErrOf, IsTrue, Some, None, IsSome, string_bytes};
ghost use Rattle.vs_text.specs.Documents.{file_in};
ghost use Rattle.vs_host.specs.Disk.{Name, mode_in};
ghost use Rattle.vs_host.specs.Names.{is_allowed, swo_of, swp_of, temporary};
ghost use Rattle.vs_host.specs.Trace.{Looked};
ghost use Rattle.vs_host.specs.World.{IsTold, content_of};
ghost use Rattle.vs_backup.specs.Backups.{IsBackupName, IsNoName, WorksOn, backs_up, backup_of, copies};
ghost use Rattle.vs_disk.specs.Runs.{Looks};
ghost use Rattle.vs_backup.specs.Desks.{Continues, GoesOn, OnlyReads};
ghost use Rattle.vs_backup.specs.Modes.{Makes, MakesUsual, RewritesLike};
ghost use Rattle.vs_backup.specs.Works.{SparesOthers, two_names};
ghost use Rattle.vs_backup.specs.Writing.{BeginsByLook, FailsNoEarlier, FindsNoName, IsFailed, IsUnseen, OldIn, WritesFresh, WritesInPlace, WritesNew, WritesPlain, WritesWith, nowhere};

use crate::backup::{Backing, write_with_backup};
use crate::choose::{backup_name, first_free, temporary_of};
use crate::errors::{Place, Stop, WriteErr};
use crate::fill::PIECE;
use crate::plain::{write_fresh, write_plain};
use crate::{CopyMode, Desk, WriteOptions};
use std::alloc::{AllocError, Global};
use vs_text::Format;

/// Whether the file is copied to its backup, and not renamed.
fn copies(copy: CopyMode) -> bool
    ensures { result ≡ copies copy }
{
    match copy {
        CopyMode::Yes => true,
        CopyMode::No | CopyMode::Auto => false,
    }
}

/// Whether a write over a file makes a backup.
fn backs_up(options: &WriteOptions) -> bool
    ensures { result ≡ backs_up options.now }
{
    options.backup || options.writebackup
}

/// The answer of a write without a backup.
fn without_backup(answer: Result<u64, Stop>) -> Result<u64, WriteErr>
    ensures { result ≡ nowhere answer }
{
    match answer {
        Ok(size) => Ok(size),
        Err(stop) => Err(stop.with(Place::Nowhere)),
    }
}

/// The buffer for a piece, with room for no more.
fn buffer(alloc: Global) -> Result<Vec<u8>, AllocError>
    ensures { IfOk result (λ piece. length piece.items ≡ PIECE) }
{
    vec![in alloc; 0u8; PIECE]
}

/// Writes over a file that is there, with a backup of this name.
fn write_named<D: Desk>(
    alloc: Global,
    desk: &mut D,
    name: &str,
    backup: &str,
    options: &WriteOptions,
) -> Result<u64, WriteErr>
    requires valid { D.valid desk.old }
    requires allowed { IsTrue (is_allowed name.now) }
    requires named { IsBackupName name.now backup.now }
    requires apart { D.reads desk.old name.now → ⊥ }
    requires apart_backup { D.reads desk.old backup.now → ⊥ }
    requires apart_temporary { D.reads desk.old (temporary backup.now) → ⊥ }
    requires there { IsTrue (D.tells).folder → IsSome (content_of (D.scene desk.old) name.now) }
    requires free { options.now.backup ≡ false → IsTrue (D.tells).folder → content_of (D.scene desk.old) backup.now ≡ None }
    ensures backed { IsTrue (D.tells).folder → (old : List ℕ) → content_of (D.scene desk.old) name.now ≡ Some old
        → (text : List (List ℕ)) → D.has_text desk.old text
        → WritesWith options.now name.now backup.now old (file_in options.now.format text) (D.scene desk.old) (D.scene desk.new) result }
    ensures no_name { IsErrOf result WriteErr.NoBackupName → ⊥ }
    ensures calls { IsTrue (D.tells).folder → (text : List (List ℕ)) → D.has_text desk.old text
        → FailsNoEarlier name.now (file_in options.now.format text) (D.scene desk.old) (D.scene desk.new) result }
    ensures modes { Makes (D.tells).folder (mode_in (D.scene desk.old).folder name.now) (D.scene desk.old) (D.scene desk.new) }
    ensures kept { Continues D.scene D.valid D.stays (IsFailed result) desk.old desk.new }
{
    let Ok(temporary) = temporary_of(alloc, backup) else {
        return Err(WriteErr::NoMemory {
            old_in: Place::File,
        });
    };
    let Ok(mut piece) = buffer(alloc) else {
        return Err(WriteErr::NoMemory {
            old_in: Place::File,
        });
    };
    let backing = Backing {
        name,
        backup,
        temporary: &temporary,
        copies: copies(options.copy),
        kept: options.backup,
        format: options.format,
    };
    write_with_backup(alloc, desk, backing, &mut piece)
}

/// The name of the backup that a write over a file makes, and none where no name is free.
fn choose<D: Desk>(
    alloc: Global,
    desk: &mut D,
    name: &str,
    options: &WriteOptions,
) -> Result<Option<String>, Stop>
    requires valid { D.valid desk.old }
    requires allowed { IsTrue (is_allowed name.now) }
    requires apart { (backup : Name) → IsBackupName name.now backup → D.reads desk.old backup → ⊥ }
    requires backs_up { backs_up options.now ≡ true }
    ensures looks { IsTrue (D.tells).folder → Looks (D.scene desk.old) (D.scene desk.new) }
    ensures found { IfOk result (λ found. IsTrue (D.tells).folder → let chosen = backup_of options.now name.now (D.scene desk.old).folder in
        MatchOption found (chosen ≡ None) (λ backup. chosen ≡ Some (string_bytes backup))) }
    ensures named { IfOk result (λ found. IfSome found (λ backup. IsBackupName name.now (string_bytes backup))) }
    ensures none { IfOk result (λ found. found ≡ None → options.now.backup ≡ false) }
    ensures kept { OnlyReads D.tells D.scene D.valid D.stays (IsErrOf result Stop.Failed) desk.old desk.new }
{
    if options.backup {
        return Ok(Some(backup_name(alloc, name)?));
    }
    first_free(alloc, desk, name)
}

/// Writes over a file that is there, without a backup.
fn write_unbacked<D: Desk>(
    alloc: Global,
    desk: &mut D,
    name: &str,
    format: Format,
) -> Result<u64, Stop>
    requires valid { D.valid desk.old }
    requires apart { D.reads desk.old name.now → ⊥ }
    requires there { IsTrue (D.tells).folder → IsSome (content_of (D.scene desk.old) name.now) }
    ensures plain { IsTrue (D.tells).folder → (old : List ℕ) → content_of (D.scene desk.old) name.now ≡ Some old
        → (text : List (List ℕ)) → D.has_text desk.old text
        → WritesPlain name.now old (file_in format text) (D.scene desk.old) (D.scene desk.new) result }
    ensures modes { Makes (D.tells).folder None (D.scene desk.old) (D.scene desk.new) }
    ensures kept { GoesOn D.tells D.scene D.valid D.stays (IsErrOf result Stop.Failed) desk.old desk.new }
{
    let mut piece = buffer(alloc)?;
    write_plain(alloc, desk, name, &mut piece, format)
}

/// Writes a file that is not there.
fn write_new<D: Desk>(
    alloc: Global,
    desk: &mut D,
    name: &str,
    temporary: &str,
    format: Format,
) -> Result<u64, Stop>
    requires valid { D.valid desk.old }
    requires apart { D.reads desk.old name.now → ⊥ }
    requires apart_temporary { D.reads desk.old temporary.now → ⊥ }
    requires differ { name.now ≢ temporary.now }
    ensures fresh { IsTrue (D.tells).folder → content_of (D.scene desk.old) name.now ≡ None → (text : List (List ℕ)) → D.has_text desk.old text
        → WritesFresh (two_names temporary.now name.now) name.now (file_in format text) (D.scene desk.old) (D.scene desk.new) result }
    ensures modes { MakesUsual (D.tells).folder (D.scene desk.old) (D.scene desk.new) }
    ensures kept { GoesOn D.tells D.scene D.valid D.stays (IsErrOf result Stop.Failed) desk.old desk.new }
{
    let mut piece = buffer(alloc)?;
    write_fresh(alloc, desk, name, temporary, &mut piece, format)
}

/// Writes over a file that is there, with the backup that the options ask for.
fn write_chosen<D: Desk>(
    alloc: Global,
    desk: &mut D,
    name: &str,
    options: &WriteOptions,
) -> Result<u64, WriteErr>
    requires valid { D.valid desk.old }
    requires allowed { IsTrue (is_allowed name.now) }
    requires apart { D.reads desk.old name.now → ⊥ }
    requires apart_backup { (backup : Name) → IsBackupName name.now backup → D.reads desk.old backup → ⊥ }
    requires apart_temporary { (other : Name) → D.reads desk.old (temporary other) → ⊥ }
    requires backs_up { backs_up options.now ≡ true }
    requires there { IsTrue (D.tells).folder → IsSome (content_of (D.scene desk.old) name.now) }
    ensures backed { IsTrue (D.tells).folder → (old : List ℕ) → content_of (D.scene desk.old) name.now ≡ Some old
        → (backup : Name) → backup_of options.now name.now (D.scene desk.old).folder ≡ Some backup → (text : List (List ℕ)) → D.has_text desk.old text
        → WritesWith options.now name.now backup old (file_in options.now.format text) (D.scene desk.old) (D.scene desk.new) result }
    ensures all_taken { IsTrue (D.tells).folder → backup_of options.now name.now (D.scene desk.old).folder ≡ None
        → FindsNoName (D.scene desk.old) (D.scene desk.new) result }
    ensures no_name { IsErrOf result WriteErr.NoBackupName
        → (options.now.backup ≡ false) × (IsTrue (D.tells).folder → backup_of options.now name.now (D.scene desk.old).folder ≡ None) }
    ensures calls { IsTrue (D.tells).folder → (text : List (List ℕ)) → D.has_text desk.old text
        → FailsNoEarlier name.now (file_in options.now.format text) (D.scene desk.old) (D.scene desk.new) result }
    ensures modes { Makes (D.tells).folder (mode_in (D.scene desk.old).folder name.now) (D.scene desk.old) (D.scene desk.new) }
    ensures kept { Continues D.scene D.valid D.stays (IsFailed result) desk.old desk.new }
{
    match choose(alloc, desk, name, options) {
        Ok(Some(backup)) => write_named(alloc, desk, name, &backup, options),
        Ok(None) => Err(WriteErr::NoBackupName),
        Err(stop) => Err(stop.with(Place::File)),
    }
}

/// Writes over a file that is there.
fn write_there<D: Desk>(
    alloc: Global,
    desk: &mut D,
    name: &str,
    options: &WriteOptions,
) -> Result<u64, WriteErr>
    requires valid { D.valid desk.old }
    requires allowed { IsTrue (is_allowed name.now) }
    requires apart { D.reads desk.old name.now → ⊥ }
    requires apart_backup { (backup : Name) → IsBackupName name.now backup → D.reads desk.old backup → ⊥ }
    requires apart_temporary { (other : Name) → D.reads desk.old (temporary other) → ⊥ }
    requires there { IsTrue (D.tells).folder → IsSome (content_of (D.scene desk.old) name.now) }
    ensures backed { IsTrue (D.tells).folder → (old : List ℕ) → content_of (D.scene desk.old) name.now ≡ Some old
        → (backup : Name) → backup_of options.now name.now (D.scene desk.old).folder ≡ Some backup → (text : List (List ℕ)) → D.has_text desk.old text
        → WritesWith options.now name.now backup old (file_in options.now.format text) (D.scene desk.old) (D.scene desk.new) result }
    ensures all_taken { IsTrue (D.tells).folder → backs_up options.now ≡ true → backup_of options.now name.now (D.scene desk.old).folder ≡ None
        → FindsNoName (D.scene desk.old) (D.scene desk.new) result }
    ensures no_name { IsErrOf result WriteErr.NoBackupName → (backs_up options.now ≡ true) × (options.now.backup ≡ false)
        × (IsTrue (D.tells).folder → backup_of options.now name.now (D.scene desk.old).folder ≡ None) }
    ensures somewhere { IsTrue (D.tells).folder → backs_up options.now ≡ true → OldIn Place.Nowhere result → ⊥ }
    ensures plain { IsTrue (D.tells).folder → (old : List ℕ) → content_of (D.scene desk.old) name.now ≡ Some old
        → backs_up options.now ≡ false → (text : List (List ℕ)) → D.has_text desk.old text
        → WritesInPlace name.now old (file_in options.now.format text) (D.scene desk.old) (D.scene desk.new) result }
    ensures others { IsTrue (D.tells).folder → SparesOthers (WorksOn options.now name.now (D.scene desk.old).folder) (D.scene desk.old) (D.scene desk.new) }
    ensures calls { IsTrue (D.tells).folder → (text : List (List ℕ)) → D.has_text desk.old text
        → FailsNoEarlier name.now (file_in options.now.format text) (D.scene desk.old) (D.scene desk.new) result }
    ensures modes { Makes (D.tells).folder (mode_in (D.scene desk.old).folder name.now) (D.scene desk.old) (D.scene desk.new) }
    ensures kept { Continues D.scene D.valid D.stays (IsFailed result) desk.old desk.new }
{
    if backs_up(options) {
        return write_chosen(alloc, desk, name, options);
    }
    without_backup(write_unbacked(alloc, desk, name, options.format))
}

/// Writes the text of the desk into the file of this name, by these options (docs/FORMATS.md, "Writing a file"). Gives the number of
/// bytes. A file that is not there is made as `file_new` before it is renamed.
///
/// A write that has a backup and stops is put back. After an error `old_in` says where the old bytes stand: in the backup only where
/// putting back failed too. A backup that should have gone may still be there after `Ok`.
pub fn write_out<D: Desk>(
    alloc: Global,
    desk: &mut D,
    name: &str,
    file_new: &str,
    options: &WriteOptions,
) -> Result<u64, WriteErr>
    requires valid { D.valid desk.old }
    requires allowed { IsTrue (is_allowed name.now) }
    requires file_new { file_new.now ≡ temporary name.now }
    requires reads { (other : Name) → D.reads desk.old other → (other ≡ swp_of name.now) ⊎ (other ≡ swo_of name.now) }

    // The look whether there is a file is the first call: before it, not even want of memory is answered.
    ensures looked { IsTrue (D.tells).folder
        → IsUnseen (D.scene desk.old) (D.scene desk.new) result ⊎ BeginsByLook name.now (D.scene desk.old) (D.scene desk.new) }

    // A file that is there, with a backup.
    ensures backed { IsTrue (D.tells).folder → (old : List ℕ) → content_of (D.scene desk.old) name.now ≡ Some old
        → (backup : Name) → backup_of options.now name.now (D.scene desk.old).folder ≡ Some backup → (text : List (List ℕ)) → D.has_text desk.old text
        → IsUnseen (D.scene desk.old) (D.scene desk.new) result
        ⊎ WritesWith options.now name.now backup old (file_in options.now.format text) (D.scene desk.old) (D.scene desk.new) result }

    // A file that is there, where every backup name is taken.
    ensures all_taken { IsTrue (D.tells).folder → IsSome (content_of (D.scene desk.old) name.now)
        → backs_up options.now ≡ true → backup_of options.now name.now (D.scene desk.old).folder ≡ None
        → IsUnseen (D.scene desk.old) (D.scene desk.new) result ⊎ FindsNoName (D.scene desk.old) (D.scene desk.new) result }
    ensures no_name { IsErrOf result WriteErr.NoBackupName → IsNoName options.now name.now (D.tells).folder (D.scene desk.old).folder }

    // A file that is there, with a backup, whose old bytes are said to stand nowhere: the look whether it is there is the only call,
    // and failed.
    ensures unseen { IsTrue (D.tells).folder → IsSome (content_of (D.scene desk.old) name.now) → backs_up options.now ≡ true →
        OldIn Place.Nowhere result
        → IsTold Looked (name.now ∷ []) result (D.scene desk.old) (D.scene desk.new) }

    // A file that is there, without a backup.
    ensures plain { IsTrue (D.tells).folder → (old : List ℕ) → content_of (D.scene desk.old) name.now ≡ Some old
        → backs_up options.now ≡ false → (text : List (List ℕ)) → D.has_text desk.old text
        → IsUnseen (D.scene desk.old) (D.scene desk.new) result
        ⊎ WritesInPlace name.now old (file_in options.now.format text) (D.scene desk.old) (D.scene desk.new) result }

    // A file that is not there.
    ensures fresh { IsTrue (D.tells).folder → content_of (D.scene desk.old) name.now ≡ None → (text : List (List ℕ)) → D.has_text desk.old text
        → IsUnseen (D.scene desk.old) (D.scene desk.new) result
        ⊎ WritesNew file_new.now name.now (file_in options.now.format text) (D.scene desk.old) (D.scene desk.new) result }

    // The other names, whatever is there.
    ensures others { IsTrue (D.tells).folder
        → SparesOthers (WorksOn options.now name.now (D.scene desk.old).folder) (D.scene desk.old) (D.scene desk.new) }

    // Who may read the files that it makes: those who may read a file that is there, or its owner alone; and where no file is there, those
    // whom the system lets read a new one.
    ensures modes { RewritesLike D.tells name.now (D.scene desk.old) (D.scene desk.new) }
    ensures usual { IsTrue (D.tells).folder → content_of (D.scene desk.old) name.now ≡ None
        → MakesUsual (D.tells).folder (D.scene desk.old) (D.scene desk.new) }

    // The calls that failed.
    ensures calls { IsTrue (D.tells).folder → (text : List (List ℕ)) → D.has_text desk.old text
        → FailsNoEarlier name.now (file_in options.now.format text) (D.scene desk.old) (D.scene desk.new) result }
    ensures kept { Continues D.scene D.valid D.stays (IsFailed result) desk.old desk.new }
{
    match desk.has(name) {
        Ok(true) => write_there(alloc, desk, name, options),
        Ok(false) => without_backup(write_new(alloc, desk, name, file_new, options.format)),
        Err(_) => Err(WriteErr::Failed {
            old_in: Place::Nowhere,
        }),
    }
}
