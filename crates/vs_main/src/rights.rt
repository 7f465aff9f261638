// Who may read, write and run a file that takes the place of another one, or is a copy of it.
ghost use Rattle.std.specs.Prelude.{◌≡◌};
ghost use Rattle.vs_main.specs.Rights.{rights_left};

use std::fs::{File, Metadata, Permissions};
use std::io;
use std::os::unix::fs::{MetadataExt, PermissionsExt, fchown};

/// What is left of the rights of a mode. Set-user-id and the like are none of them. Where the group is another one, its members and all
/// others have what both the group and the others had, since a member of either may be among them now.
fn rights_left(mode: u32, has_group: bool) -> u32
    ensures { result ≡ rights_left mode has_group }
{
    if has_group {
        return mode & 0o777;
    }
    let (group, others) = (mode >> 3 & 0o7, mode & 0o7);
    let shared = group & others;
    mode & 0o700 | shared << 3 | shared
}

// Gives the file the owner and the group of the model, or its group alone, where the system allows it.
fn take_owner(model: &Metadata, file: &File) {
    if fchown(file, Some(model.uid()), Some(model.gid())).is_err() {
        let _ = fchown(file, None, Some(model.gid()));
    }
}

/// Gives an open file, which its owner alone may read, the owner, the group and the rights of the model, as far as the system allows
/// it. Nobody gets a right that the model did not give, and the owner comes before the rights.
pub fn take_rights(model: &Metadata, file: &File) -> io::Result<()> {
    take_owner(model, file);
    let has_group = file.metadata()?.gid() == model.gid();
    file.set_permissions(Permissions::from_mode(rights_left(model.mode(), has_group)))
}
