// The end of a pair.
ghost use Rattle.std.specs.Prelude.{◌≤◌, OnOk, IsErr, IsTrue};
ghost use Rattle.vs_faults.specs.Faults.{HasCause};
ghost use Rattle.vs_disk.specs.Runs.{NoneFails};
ghost use Rattle.vs_pair.specs.Acts.{Acts};
ghost use Rattle.vs_pair.specs.Pair.{HasFit, known_of};
ghost use Rattle.vs_pair.specs.Steps.{Ending, IsAbsent};

use crate::SwapPair;
use crate::side::swap_name;
use vs_host::{Failed, Folder};

impl SwapPair {
    /// Removes both files, that of the last acknowledged sync after the other one. After an error the files that are left stay.
    pub fn end<F: Folder>(self, host: &mut F) -> Result<(), Failed>
        requires started { 2 ≤ self.files.generation }
        requires fits { IsTrue F.tells.folder → HasFit (known_of self (F.scene host.old).folder) (F.scene host.old).folder }
        ensures acts { Acts F.tells (Ending (known_of self (F.scene host.old).folder)) (F.scene host.old) (F.scene host.new) }
        ensures gone { OnOk result (IsTrue F.tells.folder
            → IsAbsent self.files.names.swp (F.scene host.new).folder × IsAbsent self.files.names.swo (F.scene host.new).folder) }
        ensures none { OnOk result (NoneFails F.tells (F.scene host.old) (F.scene host.new)) }
        ensures cause { HasCause (F.scene host.old).folder_faults (F.scene host.new).folder_faults (IsErr result) }
    {
        let files = &self.files;
        host.remove(swap_name(&files.names, files.newer.other()))?;
        host.remove(swap_name(&files.names, files.newer))?;
        host.sync_names()
    }
}
