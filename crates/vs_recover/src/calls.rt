// The calls on the folder that recovery makes. None of them changes it.
ghost use Rattle.std.specs.Prelude.{◌≡◌, ◌≤◌, ◌+◌, ℕ, List, IfOk, OnOk, IsTrue, IsSome, is_some, length, take, drop};
ghost use Rattle.vs_host.specs.World.{content_of};
ghost use Rattle.vs_recover.specs.Files.{IsFile};
ghost use Rattle.vs_recover.specs.Reading.{IsThere, ReadsAtMost};

use crate::Fault;
use vs_host::Folder;

/// Whether a file stands under the name.
pub fn has_file<F: Folder>(host: &mut F, name: &str) -> Result<bool, Fault>
    ensures value { IfOk result (λ there. IsTrue F.tells.folder → there ≡ is_some (content_of (F.scene host.old) name.now)) }
    ensures reading { ReadsAtMost F.tells result Fault.Failed (F.scene host.old) (F.scene host.new) 1 }
{
    let there = host.has(name)?;
    Ok(there)
}

/// The number of bytes of the file.
pub fn file_len<F: Folder>(host: &mut F, name: &str) -> Result<u64, Fault>
    requires there { IsTrue F.tells.folder → IsSome (content_of (F.scene host.old) name.now) }
    ensures value { IfOk result (λ len. IsThere F.tells (F.scene host.old) name.now (λ file. len ≡ length file)) }
    ensures reading { ReadsAtMost F.tells result Fault.Failed (F.scene host.old) (F.scene host.new) 1 }
{
    let len = host.len(name)?;
    Ok(len)
}

/// Fills `into` with the bytes of the file from the place `at` on, counted from 0.
pub fn read_part<F: Folder>(host: &mut F, name: &str, at: u64, into: &mut [u8]) -> Result<(), Fault>
    requires inside { IsThere F.tells (F.scene host.old) name.now (λ file. at + length into.old ≤ length file) }
    ensures value { OnOk result ((file : List ℕ) → IsFile F.tells (F.scene host.old) name.now file → into.new ≡ take (length into.old) (drop at file)) }
    ensures reading { ReadsAtMost F.tells result Fault.Failed (F.scene host.old) (F.scene host.new) 1 }
{
    host.read_at(name, at, into)?;
    Ok(())
}
