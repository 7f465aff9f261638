// How the data of an undo file is read.
ghost use Rattle.std.specs.Prelude.{◌≡◌, ◌⊎◌, None, IfOk, IsErrOf, IsSomeAnd, IsTrue};
ghost use Rattle.vs_faults.specs.Faults.{HasCause};
ghost use Rattle.vs_host.specs.World.{ReadsFolder, content_of};
ghost use Rattle.vs_disk.specs.Runs.{NoneFails};
ghost use Rattle.vs_pair.specs.Acts.{Acts};
ghost use Rattle.vs_ufile.specs.declared.error.UfErr.{UfErr};
ghost use Rattle.vs_ufile.specs.Decode.{IsUndoFile, KeepsRules};
ghost use Rattle.vs_ufile.specs.Signature.{IsUnreadable};
ghost use Rattle.vs_ufile.specs.Values.{history_of};

use crate::FetchErr;
use crate::fetching::{first_bytes, size_of};
use std::alloc::Global;
use vs_host::{Folder, Names};
use vs_ufile::{FileHistory, SIGNATURE_BYTES, UfErr, UfKind, check_signature, decode};

/// Why there is no data of an undo file.
#[derive(Clone, Copy, Debug, PartialEq, Eq)]
pub enum LoadErr {
    /// There is no undo file.
    NoFile,
    /// The file is no undo file.
    Unreadable(UfErr),
    /// A call on the folder failed, and its count of faults rose.
    Failed,
    /// There was no memory.
    NoMemory,
}

impl From<FetchErr> for LoadErr {
    ghost use Rattle.std.specs.Prelude.{◌≡◌};
    ghost use Rattle.vs_ubind.specs.Loading.{unfetched};

    ghost from_gives = { λ e error. error ≡ unfetched e };

    fn from(error: FetchErr) -> Self {
        match error {
            FetchErr::NoFile => LoadErr::NoFile,
            FetchErr::Failed => LoadErr::Failed,
            FetchErr::NoMemory => LoadErr::NoMemory,
        }
    }
}

impl From<UfErr> for LoadErr {
    ghost use Rattle.std.specs.Prelude.{◌≡◌};
    ghost use Rattle.vs_ubind.specs.Loading.{undecoded};

    ghost from_gives = { λ e error. error ≡ undecoded e };

    fn from(error: UfErr) -> Self {
        match error.kind {
            UfKind::NoMemory => LoadErr::NoMemory,
            _ => LoadErr::Unreadable(error),
        }
    }
}

/// The data of the undo file of these names. The folder is only looked at.
///
/// A file that is refused for its first [`SIGNATURE_BYTES`] bytes is not read on: it takes no memory for the others.
/// [`LoadErr::NoFile`] comes exactly where there is no such file, unless a call failed.
pub fn load<F: Folder>(alloc: Global, host: &mut F, names: &Names) -> Result<FileHistory, LoadErr>
    ensures found { IfOk result (λ history. IsTrue F.tells.folder
        → IsSomeAnd (content_of (F.scene host.old) names.now.undo) (IsUndoFile (history_of history))) }
    ensures rules { IfOk result (λ history. KeepsRules (history_of history)) }
    ensures unreadable { (e : UfErr) → IsErrOf result (LoadErr.Unreadable e) → IsTrue F.tells.folder
        → IsSomeAnd (content_of (F.scene host.old) names.now.undo) (IsUnreadable e) }
    ensures no_file { IsErrOf result LoadErr.NoFile → IsTrue F.tells.folder → content_of (F.scene host.old) names.now.undo ≡ None }
    ensures missing { IsTrue F.tells.folder → content_of (F.scene host.old) names.now.undo ≡ None
        → IsErrOf result LoadErr.NoFile ⊎ IsErrOf result LoadErr.Failed }
    ensures frame { ReadsFolder (F.scene host.old) (F.scene host.new) }
    ensures acts { Acts F.tells (λ before after. after ≡ before) (F.scene host.old) (F.scene host.new) }
    ensures none { ¬ (IsErrOf result LoadErr.Failed) → NoneFails F.tells (F.scene host.old) (F.scene host.new) }
    ensures cause { HasCause (F.scene host.old).folder_faults (F.scene host.new).folder_faults (IsErrOf result LoadErr.Failed) }
{
    let name = names.undo.as_str();
    let size = size_of(host, name)?;
    let first = first_bytes(alloc, host, name, size.min(SIGNATURE_BYTES as u64))?;
    check_signature(&first)?;
    let bytes = first_bytes(alloc, host, name, size)?;
    let history = decode(alloc, &bytes)?;
    Ok(history)
}
