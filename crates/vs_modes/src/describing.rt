// `info`: what the swap files are, on the output.
ghost use Rattle.std.specs.Prelude.{IsTrue};
ghost use Rattle.vs_host.specs.Names.{is_allowed, names_of_file};
ghost use Rattle.vs_modes.specs.Info.{RunsInfo};

use crate::ModeErr;
use crate::writing::write_bytes;
use std::alloc::Global;
use vs_host::{Host, Names};

/// Writes one line for each swap file of a file that is there: docs/COMMANDS.md, "Swap files".
pub fn info<H: Host>(alloc: Global, name: &str, host: &mut H) -> Result<(), ModeErr>
    requires { IsTrue (is_allowed name.now) }
    ensures { RunsInfo H.tells (names_of_file name.now) (H.scene host.old) (H.scene host.new) result }
{
    let names = Names::of(alloc, name)?;
    let lines = vs_recover::info(alloc, host, &names)?;
    write_bytes(host, &lines)
}
