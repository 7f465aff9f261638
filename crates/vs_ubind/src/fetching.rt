// How an undo file is read.
ghost use Rattle.std.specs.Prelude.{◌≡◌, ◌≤◌, ◌⊎◌, None, Some, IfOk, IfSome, IsErrOf, IsSomeAnd, IsTrue, length, take};
ghost use Rattle.vs_faults.specs.Faults.{HasCause};
ghost use Rattle.vs_host.specs.World.{ReadsFolder, content_of};
ghost use Rattle.vs_disk.specs.Runs.{NoneFails};
ghost use Rattle.vs_pair.specs.Acts.{Acts};

use std::alloc::{AllocError, AllocFailed, Global};
use vs_host::{Failed, Folder, Names};

/// Why there are no bytes of an undo file.
#[derive(Clone, Copy, Debug, PartialEq, Eq)]
pub enum FetchErr {
    /// There is no undo file.
    NoFile,
    /// A call on the folder failed, and its count of faults rose.
    Failed,
    /// There was no memory.
    NoMemory,
}

impl From<Failed> for FetchErr {
    ghost use Rattle.std.specs.Prelude.{◌≡◌};
    ghost use Rattle.vs_ubind.specs.declared.fetching.FetchErr.TheVariants as fetched;

    ghost from_gives = { λ _ e. e ≡ fetched.Failed };

    fn from(_: Failed) -> Self {
        FetchErr::Failed
    }
}

impl From<AllocError> for FetchErr {
    ghost use Rattle.std.specs.Prelude.{◌≡◌};
    ghost use Rattle.vs_ubind.specs.declared.fetching.FetchErr.TheVariants as fetched;

    ghost from_gives = { λ _ e. e ≡ fetched.NoMemory };

    fn from(_: AllocError) -> Self {
        FetchErr::NoMemory
    }
}

impl<T: Drop> From<AllocFailed<T>> for FetchErr {
    ghost use Rattle.std.specs.Prelude.{◌≡◌};
    ghost use Rattle.vs_ubind.specs.declared.fetching.FetchErr.TheVariants as fetched;

    ghost from_gives = { λ _ e. e ≡ fetched.NoMemory };

    fn from(_: AllocFailed<T>) -> Self {
        FetchErr::NoMemory
    }
}

/// The number of bytes of the file of this name.
pub(crate) fn size_of<F: Folder>(host: &mut F, name: &str) -> Result<u64, FetchErr>
    ensures size { IfOk result (λ size. IsTrue F.tells.folder → IsSomeAnd (content_of (F.scene host.old) name.now) (λ bytes. size ≡ length bytes)) }
    ensures no_file { IsErrOf result FetchErr.NoFile → IsTrue F.tells.folder → content_of (F.scene host.old) name.now ≡ None }
    ensures missing { IsTrue F.tells.folder → content_of (F.scene host.old) name.now ≡ None
        → IsErrOf result FetchErr.NoFile ⊎ IsErrOf result FetchErr.Failed }
    ensures frame { ReadsFolder (F.scene host.old) (F.scene host.new) }
    ensures acts { Acts F.tells (λ before after. after ≡ before) (F.scene host.old) (F.scene host.new) }
    ensures none { ¬ (IsErrOf result FetchErr.Failed) → NoneFails F.tells (F.scene host.old) (F.scene host.new) }
    ensures cause { HasCause (F.scene host.old).folder_faults (F.scene host.new).folder_faults (IsErrOf result FetchErr.Failed) }
{
    if !host.has(name)? {
        return Err(FetchErr::NoFile);
    }
    let size = host.len(name)?;
    Ok(size)
}

/// So many bytes at the front of the file of this name.
pub(crate) fn first_bytes<F: Folder>(
    alloc: Global,
    host: &mut F,
    name: &str,
    count: u64,
) -> Result<Vec<u8>, FetchErr>
    requires { IsTrue F.tells.folder → IsSomeAnd (content_of (F.scene host.old) name.now) (λ bytes. count ≤ length bytes) }
    ensures found { IfOk result (λ found. IsTrue F.tells.folder
        → IfSome (content_of (F.scene host.old) name.now) (λ bytes. found.items ≡ take count bytes)) }
    ensures there { IsErrOf result FetchErr.NoFile → ⊥ }
    ensures frame { ReadsFolder (F.scene host.old) (F.scene host.new) }
    ensures acts { Acts F.tells (λ before after. after ≡ before) (F.scene host.old) (F.scene host.new) }
    ensures none { ¬ (IsErrOf result FetchErr.Failed) → NoneFails F.tells (F.scene host.old) (F.scene host.new) }
    ensures cause { HasCause (F.scene host.old).folder_faults (F.scene host.new).folder_faults (IsErrOf result FetchErr.Failed) }
{
    let mut bytes = vec![in alloc; 0u8; count as usize]?;
    host.read_at(name, 0, &mut bytes)?;
    Ok(bytes)
}

/// The bytes of the undo file of these names. The folder is only looked at.
///
/// [`FetchErr::NoFile`] comes exactly where there is no such file, unless a call failed.
pub fn fetch<F: Folder>(alloc: Global, host: &mut F, names: &Names) -> Result<Vec<u8>, FetchErr>
    ensures found { IfOk result (λ bytes. IsTrue F.tells.folder → content_of (F.scene host.old) names.now.undo ≡ Some bytes.items) }
    ensures no_file { IsErrOf result FetchErr.NoFile → IsTrue F.tells.folder → content_of (F.scene host.old) names.now.undo ≡ None }
    ensures missing { IsTrue F.tells.folder → content_of (F.scene host.old) names.now.undo ≡ None
        → IsErrOf result FetchErr.NoFile ⊎ IsErrOf result FetchErr.Failed }
    ensures frame { ReadsFolder (F.scene host.old) (F.scene host.new) }
    ensures acts { Acts F.tells (λ before after. after ≡ before) (F.scene host.old) (F.scene host.new) }
    ensures none { ¬ (IsErrOf result FetchErr.Failed) → NoneFails F.tells (F.scene host.old) (F.scene host.new) }
    ensures cause { HasCause (F.scene host.old).folder_faults (F.scene host.new).folder_faults (IsErrOf result FetchErr.Failed) }
{
    let name = names.undo.as_str();
    let size = size_of(host, name)?;
    let bytes = first_bytes(alloc, host, name, size)?;
    Ok(bytes)
}
