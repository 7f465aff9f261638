// `discard`: the swap files are removed.
ghost use Rattle.std.specs.Prelude.{◌≡◌, None, IfOk, OnOk, IsErr, IsTrue, is_some};
ghost use Rattle.vs_faults.specs.Faults.{HasCause};
ghost use Rattle.vs_host.specs.Disk.{names_of};
ghost use Rattle.vs_host.specs.Names.{is_allowed, names_of_file};
ghost use Rattle.vs_host.specs.World.{content_of};
ghost use Rattle.vs_disk.specs.Runs.{CallsAtMost, NoneFails};
ghost use Rattle.vs_pair.specs.Acts.{Acts};
ghost use Rattle.vs_pair.specs.Steps.{IsFresh};
ghost use Rattle.vs_modes.specs.Discard.{Discards, MayRemove, RunsDiscard, discard_line, is_any_there};

use crate::ModeErr;
use crate::writing::write_bytes;
use std::alloc::Global;
use vs_host::{Failed, Folder, Host, Names};

// Removes a file where it is there. Whether it was.
fn remove_file<F: Folder>(host: &mut F, name: &str) -> Result<bool, Failed>
    ensures acts { Acts F.tells (MayRemove name.now) (F.scene host.old) (F.scene host.new) }
    ensures value { IfOk result (λ there. IsTrue F.tells.folder → there ≡ is_some (content_of (F.scene host.old) name.now)) }
    ensures gone { OnOk result (IsTrue F.tells.folder → names_of (F.scene host.new).folder name.now ≡ None) }
    ensures none { OnOk result (NoneFails F.tells (F.scene host.old) (F.scene host.new)) }
    ensures calls { CallsAtMost F.tells (F.scene host.old) (F.scene host.new) 2 }
    ensures cause { HasCause (F.scene host.old).folder_faults (F.scene host.new).folder_faults (IsErr result) }
{
    let there = host.has(name)?;
    if there {
        host.remove(name)?;
    }
    Ok(there)
}

// Removes both swap files, for good. Whether one of them was there.
fn remove_both<F: Folder>(host: &mut F, names: &Names) -> Result<bool, Failed>
    ensures acts { Acts F.tells (Discards names.now) (F.scene host.old) (F.scene host.new) }
    ensures value { IfOk result (λ some. IsTrue F.tells.folder → some ≡ is_any_there names.now (F.scene host.old)) }
    ensures gone { OnOk result (IsTrue F.tells.folder → IsFresh names.now (F.scene host.new).folder) }
    ensures none { OnOk result (NoneFails F.tells (F.scene host.old) (F.scene host.new)) }
    ensures calls { CallsAtMost F.tells (F.scene host.old) (F.scene host.new) 5 }
    ensures cause { HasCause (F.scene host.old).folder_faults (F.scene host.new).folder_faults (IsErr result) }
{
    let second = remove_file(host, names.swo.as_str())?;
    let first = remove_file(host, names.swp.as_str())?;
    host.sync_names()?;
    Ok(second || first)
}

// What is written, by whether a swap file was there.
fn discard_line(found: bool) -> &'static [u8]
    ensures { result.now ≡ discard_line found }
{
    if found {
        return b"discarded\n";
    }
    b"no swap file\n"
}

/// Removes the swap files of a file that are there, and says whether there was one: docs/COMMANDS.md, "Swap files".
pub fn discard<H: Host>(alloc: Global, name: &str, host: &mut H) -> Result<(), ModeErr>
    requires { IsTrue (is_allowed name.now) }
    ensures { RunsDiscard H.tells (names_of_file name.now) (H.scene host.old) (H.scene host.new) result }
{
    let names = Names::of(alloc, name)?;
    let found = remove_both(host, &names)?;
    write_bytes(host, discard_line(found))
}
