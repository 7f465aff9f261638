// How a swap file comes to stand: it is written under another name, open from the start, and renamed when it is synced.
ghost use Rattle.std.specs.Prelude.{◌≡◌, ◌≢◌, None, length, OnOk, IsErr, IsTrue};
ghost use Rattle.vs_faults.specs.Faults.{HasCause};
ghost use Rattle.vs_host.specs.File.{Leaves};
ghost use Rattle.vs_host.specs.Disk.{names_of};
ghost use Rattle.vs_disk.specs.Images.{FileHas};
ghost use Rattle.vs_disk.specs.Names.{SameAt};
ghost use Rattle.vs_pages.specs.Maps.{no_pages};
ghost use Rattle.vs_pages.specs.Memory.{committed_of, AreBacked};
ghost use Rattle.vs_disk.specs.Runs.{NoneFails};
ghost use Rattle.vs_pair.specs.Acts.{Acts};
ghost use Rattle.vs_pair.specs.Swap.{IsMade};
ghost use Rattle.vs_pair.specs.Steps.{IsAbsent, Makes, is_not};

use crate::writing::{OPEN, write_pages};
use crate::written::Written;
use vs_host::{Failed, Folder};
use vs_pages::MemPages;

// Removes a file that is there from an earlier run.
fn clear<F: Folder>(host: &mut F, name: &str) -> Result<(), Failed>
    ensures acts { Acts F.tells (SameAt (is_not name.now)) (F.scene host.old) (F.scene host.new) }
    ensures free { OnOk result (IsTrue F.tells.folder → names_of (F.scene host.new).folder name.now ≡ None) }
    ensures none { OnOk result (NoneFails F.tells (F.scene host.old) (F.scene host.new)) }
    ensures cause { HasCause (F.scene host.old).folder_faults (F.scene host.new).folder_faults (IsErr result) }
{
    if host.has(name)? {
        return host.remove(name);
    }
    Ok(())
}

// Makes the file with this page 0 and these pages, none of which is away.
pub(crate) fn make_file<F: Folder>(
    host: &mut F,
    temporary: &str,
    name: &str,
    first: &[u8],
    pages: &MemPages,
) -> Result<(), Failed>
    requires size { length first.now ≡ 4096 }
    requires differ { temporary.now ≢ name.now }
    requires absent { IsTrue F.tells.folder → IsAbsent name.now (F.scene host.old).folder }
    requires here { IsTrue F.tells.folder → AreBacked no_pages pages.now }
    ensures acts { Acts F.tells (Makes temporary.now name.now (record { first = first.now; pages = committed_of pages.now }))
        (F.scene host.old) (F.scene host.new) }
    ensures made { OnOk result (IsTrue F.tells.folder
        → FileHas (F.scene host.new).folder name.now (λ file. Leaves file (IsMade (record { first = first.now; pages = committed_of pages.now })))) }
    ensures moved { OnOk result (IsTrue F.tells.folder → names_of (F.scene host.new).folder temporary.now ≡ None) }
    ensures none { OnOk result (NoneFails F.tells (F.scene host.old) (F.scene host.new)) }
    ensures cause { HasCause (F.scene host.old).folder_faults (F.scene host.new).folder_faults (IsErr result) }
{
    clear(host, temporary)?;
    host.create_private(temporary)?;
    host.write_at(temporary, 0, OPEN)?;
    write_pages(host, temporary, name, first, pages, &Written::NOTHING)?;
    host.rename(temporary, name)
}
