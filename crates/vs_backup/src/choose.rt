// The name of a backup.
ghost use Rattle.std.specs.Prelude.{◌≡◌, ◌<◌, ◌+◌, ℕ, List, ◌∷◌, Contains, IfOk, IfSome, MatchOption, IsErrOf, IsTrue, Option, Some, None, map, string_bytes};
ghost use Rattle.vs_host.specs.Disk.{Disk, Name};
ghost use Rattle.vs_host.specs.Names.{is_allowed, temporary};
ghost use Rattle.vs_disk.specs.Runs.{Looks};
ghost use Rattle.vs_backup.specs.Backups.{IsBackupName, backup_name, candidates, first_free, lettered, letters};
ghost use Rattle.vs_backup.specs.Desks.{OnlyReads};

use crate::Desk;
use crate::errors::Stop;
use std::alloc::{AllocError, Global};

/// The name of the file with `~` after it.
pub(crate) fn backup_name(alloc: Global, name: &str) -> Result<String, AllocError>
    ensures { IfOk result (λ backup. string_bytes backup ≡ backup_name name.now) }
{
    format!(in alloc; "{name}~")
}

/// The name of the file with this letter in the place of its last byte, and `~` after it.
fn lettered(alloc: Global, name: &str, letter: u8) -> Result<String, AllocError>
    requires allowed { IsTrue (is_allowed name.now) }
    requires ascii { letter < 128 }
    ensures { IfOk result (λ backup. string_bytes backup ≡ lettered name.now letter) }
{
    let stem = &name[..name.len() - 1];
    let letter = letter as char;
    format!(in alloc; "{stem}{letter}~")
}

/// The name under which a file is made before it gets this name.
pub(crate) fn temporary_of(alloc: Global, name: &str) -> Result<String, AllocError>
    ensures { IfOk result (λ made. string_bytes made ≡ temporary name.now) }
{
    format!(in alloc; "{name}.vsnew")
}

/// The first backup name that is not there, and none where all are.
pub(crate) fn first_free<D: Desk>(
    alloc: Global,
    desk: &mut D,
    name: &str,
) -> Result<Option<String>, Stop>
    requires valid { D.valid desk.old }
    requires allowed { IsTrue (is_allowed name.now) }
    requires apart { (backup : Name) → IsBackupName name.now backup → D.reads desk.old backup → ⊥ }
    ensures looks { IsTrue (D.tells).folder → Looks (D.scene desk.old) (D.scene desk.new) }
    ensures found { IfOk result (λ found. IsTrue (D.tells).folder → let free = first_free (D.scene desk.old).folder (candidates name.now) in
        MatchOption found (free ≡ None) (λ backup. free ≡ Some (string_bytes backup))) }
    ensures named { IfOk result (λ found. IfSome found (λ backup. IsBackupName name.now (string_bytes backup))) }
    ensures kept { OnlyReads D.tells D.scene D.valid D.stays (IsErrOf result Stop.Failed) desk.old desk.new }
{
    let plain = backup_name(alloc, name)?;
    if !desk.has(&plain)? {
        return Ok(Some(plain));
    }
    let mut left = 26u8;
    'letters: while left > 0 {
        left -= 1;
        let backup = lettered(alloc, name, b'a' + left)?;
        if !desk.has(&backup)? {
            return Ok(Some(backup));
        }
    }
    Ok(None)
}
