// How an undo file comes to stand: it is written under another name, and renamed when it is synced.
ghost use Rattle.std.specs.Prelude.{◌≡◌, ◌≢◌, [], ℕ, Bool, List, None, Some, IsErr, IsSome, IsTrue, OnOk, unwrap_or};
ghost use Rattle.vs_faults.specs.Faults.{HasCause};
ghost use Rattle.vs_host.specs.Names.{AreNames};
ghost use Rattle.vs_host.specs.Disk.{Mode, mode_in, owner_mode};
ghost use Rattle.vs_host.specs.World.{content_of};
ghost use Rattle.vs_disk.specs.Images.{HoldsBytes, IsSynced, Takes};
ghost use Rattle.vs_disk.specs.Modes.{HasMode, KeepsModes};
ghost use Rattle.vs_disk.specs.Runs.{Runs, NoneFails};
ghost use Rattle.vs_pair.specs.Acts.{Acts};
ghost use Rattle.vs_backup.specs.Works.{IsAlone, IsGone, Spares, one_name, two_names};
ghost use Rattle.vs_ubind.specs.Storing.{ActsLike, CallsOn, StoresBy, Works};

use vs_host::{Failed, Folder, Names};

// Removes a file that is there from an earlier run.
fn clear<F: Folder>(host: &mut F, name: &str) -> Result<(), Failed>
    ensures acts { Acts F.tells (Spares (one_name name.now)) (F.scene host.old) (F.scene host.new) }
    ensures calls { CallsOn F.tells (one_name name.now) (F.scene host.old) (F.scene host.new) }
    ensures free { OnOk result (IsTrue F.tells.folder → content_of (F.scene host.new) name.now ≡ None) }
    ensures none { OnOk result (NoneFails F.tells (F.scene host.old) (F.scene host.new)) }
    ensures cause { HasCause (F.scene host.old).folder_faults (F.scene host.new).folder_faults (IsErr result) }
{
    if host.has(name)? {
        return host.remove(name);
    }
    Ok(())
}

// Makes an empty file under the name, which its owner alone may read, in place of one that may stand there.
fn make_anew<F: Folder>(host: &mut F, name: &str) -> Result<(), Failed>
    ensures acts { Acts F.tells (Spares (one_name name.now)) (F.scene host.old) (F.scene host.new) }
    ensures calls { CallsOn F.tells (one_name name.now) (F.scene host.old) (F.scene host.new) }
    ensures mode { OnOk result (IsTrue F.tells.folder → mode_in (F.scene host.new).folder name.now ≡ Some owner_mode) }
    ensures empty { OnOk result (IsTrue F.tells.folder → content_of (F.scene host.new) name.now ≡ Some []) }
    ensures alone { OnOk result (IsTrue F.tells.folder → IsAlone name.now (F.scene host.new).folder) }
    ensures none { OnOk result (NoneFails F.tells (F.scene host.old) (F.scene host.new)) }
    ensures cause { HasCause (F.scene host.old).folder_faults (F.scene host.new).folder_faults (IsErr result) }
{
    clear(host, name)?;
    host.create_private(name)
}

// Writes the bytes into an empty file, gives it the mode bits of another one, if that is there, and syncs it.
fn fill<F: Folder>(host: &mut F, name: &str, model: &str, bytes: &[u8]) -> Result<(), Failed>
    requires empty { IsTrue F.tells.folder → content_of (F.scene host.old) name.now ≡ Some [] }
    requires alone { IsTrue F.tells.folder → IsAlone name.now (F.scene host.old).folder }
    ensures acts { ActsLike F.tells model.now (Spares (one_name name.now)) (F.scene host.old) (F.scene host.new) }
    ensures calls { CallsOn F.tells (one_name name.now) (F.scene host.old) (F.scene host.new) }
    ensures mode { OnOk result (IsTrue F.tells.folder → (own : Mode) → mode_in (F.scene host.old).folder name.now ≡ Some own
        → mode_in (F.scene host.new).folder name.now ≡ Some (unwrap_or (mode_in (F.scene host.old).folder model.now) own)) }
    ensures synced { OnOk result (IsTrue F.tells.folder → IsSynced name.now bytes.now (F.scene host.new).folder) }
    ensures none { OnOk result (NoneFails F.tells (F.scene host.old) (F.scene host.new)) }
    ensures cause { HasCause (F.scene host.old).folder_faults (F.scene host.new).folder_faults (IsErr result) }
{
    host.write_at(name, 0, bytes)?;
    host.sync_like(model, name)
}

// Renames a synced file and syncs the names.
fn take_name<F: Folder>(host: &mut F, from: &str, to: &str) -> Result<(), Failed>
    requires differ { from.now ≢ to.now }
    requires there { IsTrue F.tells.folder → IsSome (content_of (F.scene host.old) from.now) }
    ensures acts { Works F.tells (Spares (two_names from.now to.now)) (F.scene host.old) (F.scene host.new) }
    ensures calls { IsTrue F.tells.folder → StoresBy from.now to.now (F.scene host.old) (F.scene host.new) }
    ensures modes { IsTrue F.tells.folder → (allowed : Mode → Bool) → HasMode allowed from.now (F.scene host.old).folder
        → Runs (KeepsModes allowed) (F.scene host.old) (F.scene host.new) }
    ensures mode { OnOk result (IsTrue F.tells.folder → mode_in (F.scene host.new).folder to.now ≡ mode_in (F.scene host.old).folder from.now) }
    ensures takes { IsTrue F.tells.folder → (bytes : List ℕ) → IsSynced from.now bytes (F.scene host.old).folder
        → Runs (Takes to.now bytes) (F.scene host.old) (F.scene host.new) }
    ensures holds { OnOk result (IsTrue F.tells.folder → (bytes : List ℕ) → IsSynced from.now bytes (F.scene host.old).folder
        → HoldsBytes to.now bytes (F.scene host.new).folder) }
    ensures gone { OnOk result (IsTrue F.tells.folder → IsGone from.now (F.scene host.new).folder) }
    ensures none { OnOk result (NoneFails F.tells (F.scene host.old) (F.scene host.new)) }
    ensures cause { HasCause (F.scene host.old).folder_faults (F.scene host.new).folder_faults (IsErr result) }
{
    host.rename(from, to)?;
    host.sync_names()
}

// Stores bytes under a name, by way of a temporary name, with the mode bits of another file.
fn store_as<F: Folder>(
    host: &mut F,
    temporary: &str,
    name: &str,
    model: &str,
    bytes: &[u8],
) -> Result<(), Failed>
    requires { name.now ≢ temporary.now }
    ensures acts { ActsLike F.tells model.now (Spares (two_names temporary.now name.now)) (F.scene host.old) (F.scene host.new) }
    ensures calls { IsTrue F.tells.folder → StoresBy temporary.now name.now (F.scene host.old) (F.scene host.new) }
    ensures mode { OnOk result (IsTrue F.tells.folder → model.now ≢ temporary.now
        → mode_in (F.scene host.new).folder name.now ≡ Some (unwrap_or (mode_in (F.scene host.old).folder model.now) owner_mode)) }
    ensures takes { IsTrue F.tells.folder → Runs (Takes name.now bytes.now) (F.scene host.old) (F.scene host.new) }
    ensures holds { OnOk result (IsTrue F.tells.folder → HoldsBytes name.now bytes.now (F.scene host.new).folder) }
    ensures gone { OnOk result (IsTrue F.tells.folder → IsGone temporary.now (F.scene host.new).folder) }
    ensures none { OnOk result (NoneFails F.tells (F.scene host.old) (F.scene host.new)) }
    ensures cause { HasCause (F.scene host.old).folder_faults (F.scene host.new).folder_faults (IsErr result) }
{
    make_anew(host, temporary)?;
    fill(host, temporary, model, bytes)?;
    take_name(host, temporary, name)
}

/// Stores bytes as the undo file of these names (docs/FORMATS.md, "Writing a file"). It takes no memory.
///
/// The undo file has the mode bits of its text file, since it holds that one's lines; where there is none, its owner alone may
/// read it.
///
/// At each moment a stop leaves under the name of the undo file these bytes, or what it left before; after an error as well.
/// All names but that and its temporary name are left alone. The calls are those on the temporary name, then its rename, then the
/// sync of the names; none but the last call has failed.
pub fn store<F: Folder>(host: &mut F, names: &Names, bytes: &[u8]) -> Result<(), Failed>
    requires { AreNames names.now }
    ensures acts { ActsLike F.tells names.now.file (Spares (two_names names.now.undo_new names.now.undo)) (F.scene host.old) (F.scene host.new) }
    ensures calls { IsTrue F.tells.folder → StoresBy names.now.undo_new names.now.undo (F.scene host.old) (F.scene host.new) }
    ensures mode { OnOk result (IsTrue F.tells.folder
        → mode_in (F.scene host.new).folder names.now.undo ≡ Some (unwrap_or (mode_in (F.scene host.old).folder names.now.file) owner_mode)) }
    ensures takes { IsTrue F.tells.folder → Runs (Takes names.now.undo bytes.now) (F.scene host.old) (F.scene host.new) }
    ensures holds { OnOk result (IsTrue F.tells.folder → HoldsBytes names.now.undo bytes.now (F.scene host.new).folder) }
    ensures gone { OnOk result (IsTrue F.tells.folder → IsGone names.now.undo_new (F.scene host.new).folder) }
    ensures none { OnOk result (NoneFails F.tells (F.scene host.old) (F.scene host.new)) }
    ensures cause { HasCause (F.scene host.old).folder_faults (F.scene host.new).folder_faults (IsErr result) }
{
    store_as(
        host,
        names.undo_new.as_str(),
        names.undo.as_str(),
        names.file.as_str(),
        bytes,
    )
}
