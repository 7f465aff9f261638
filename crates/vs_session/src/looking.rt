// Calls that only look at the folder.
ghost use Rattle.std.specs.Prelude.{◌≡◌, ◌+◌, ◌≤◌, IfOk, IfSome, IsErr, IsSome, IsSomeAnd, IsTrue, OnOk, drop, is_some, length, take};
ghost use Rattle.vs_host.specs.World.{content_of};
ghost use Rattle.vs_session.specs.Open.{IsLook};

use vs_host::{Failed, Folder};

/// Whether a file stands under the name.
pub(crate) fn has_file<F: Folder>(host: &mut F, name: &str) -> Result<bool, Failed>
    ensures value { IfOk result (λ there. IsTrue F.tells.folder → there ≡ is_some (content_of (F.scene host.old) name.now)) }
    ensures look { IsLook F.tells result (IsErr result) (F.scene host.old) (F.scene host.new) }
{
    host.has(name)
}

/// The number of bytes of a file.
pub(crate) fn size_of_file<F: Folder>(host: &mut F, name: &str) -> Result<u64, Failed>
    requires { IsTrue F.tells.folder → IsSome (content_of (F.scene host.old) name.now) }
    ensures value { IfOk result (λ size. IsTrue F.tells.folder → IfSome (content_of (F.scene host.old) name.now) (λ bytes. size ≡ length bytes)) }
    ensures look { IsLook F.tells result (IsErr result) (F.scene host.old) (F.scene host.new) }
{
    host.len(name)
}

/// Fills the front of a buffer with so many bytes of a file, from a place on.
pub(crate) fn read_bytes<F: Folder>(
    host: &mut F,
    name: &str,
    at: u64,
    count: usize,
    buffer: &mut [u8],
) -> Result<(), Failed>
    requires room { count ≤ length buffer.old }
    requires there { IsTrue F.tells.folder → IsSomeAnd (content_of (F.scene host.old) name.now) (λ bytes. at + count ≤ length bytes) }
    ensures value { OnOk result (IsTrue F.tells.folder
        → IfSome (content_of (F.scene host.old) name.now) (λ bytes. take count buffer.new ≡ take count (drop at bytes))) }
    ensures look { IsLook F.tells result (IsErr result) (F.scene host.old) (F.scene host.new) }
{
    host.read_at(name, at, &mut buffer[..count])
}
