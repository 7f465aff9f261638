// `recover`: the text of the swap files, or what is salvaged of one, on the output.
ghost use Rattle.std.specs.Prelude.{◌≡◌, ◌≢◌, IfOk, IfErr, IsTrue, Err};
ghost use Rattle.vs_host.specs.Names.{is_allowed, names_of_file};
ghost use Rattle.vs_recover.specs.Reading.{ReadsAtMost};
ghost use Rattle.vs_modes.specs.Recover.{IsFound, RefusesRecover, RunsRecover, found_bytes, found_recovery, most_reads, remains_in};

use crate::ModeErr;
use crate::writing::write_bytes;
use std::alloc::Global;
use vs_host::{Folder, Host, Names};
use vs_recover::{Chosen, FileText, Salvaged, choose, salvage};

/// What was written of a text.
#[derive(Clone, Copy, Debug, PartialEq, Eq, Drop)]
pub enum Recovery {
    /// The text of a swap file that stands, or what was salvaged without a marker.
    Whole,
    /// What was salvaged, with a marker at least.
    Marked,
}

/// What is found of a text, before it is written.
#[derive(Drop)]
pub enum Found {
    /// A swap file stands: its text.
    Text(FileText),
    /// None stands: what is salvaged of one.
    Salvage(Salvaged),
}

impl Found {
    // The bytes to be written.
    fn bytes(&self) -> &[u8]
        ensures { result.now ≡ found_bytes self.now }
    {
        match self {
            Found::Text(text) => text.bytes(),
            Found::Salvage(salvaged) => &salvaged.bytes,
        }
    }

    // Whether markers stand in them.
    fn recovery(&self) -> Recovery
        ensures { result ≡ found_recovery self.now }
    {
        match self {
            Found::Text(_) => Recovery::Whole,
            Found::Salvage(salvaged) => {
                if salvaged.markers == 0 {
                    return Recovery::Whole;
                }
                Recovery::Marked
            }
        }
    }
}

// What the two swap files give.
fn find<F: Folder>(alloc: Global, host: &mut F, names: &Names) -> Result<Found, ModeErr>
    ensures found { IfOk result (λ found. IsTrue F.tells.folder → IsFound (remains_in (F.scene host.old) names.now) found) }
    ensures refused { IfErr result (λ why. IsTrue F.tells.folder → RefusesRecover (remains_in (F.scene host.old) names.now) why) }
    ensures output { result ≢ Err ModeErr.OutputFailed }
    ensures reading { ReadsAtMost F.tells result ModeErr.FolderFailed (F.scene host.old) (F.scene host.new)
        (most_reads (remains_in (F.scene host.old) names.now)) }
{
    match choose(alloc, host, names)? {
        Chosen::Text(text) => Ok(Found::Text(text)),
        Chosen::Salvage(which) => {
            let salvaged = salvage(alloc, host, names, which)?;
            Ok(Found::Salvage(salvaged))
        }
    }
}

/// Writes the file form of the text that the swap files of a file stand for, in its format, or the lines and markers that are salvaged
/// of one of them where neither stands: docs/COMMANDS.md, "Swap files". Of two that stand it is the text of the newer one.
pub fn recover<H: Host>(alloc: Global, name: &str, host: &mut H) -> Result<Recovery, ModeErr>
    requires { IsTrue (is_allowed name.now) }
    ensures { RunsRecover H.tells (names_of_file name.now) (H.scene host.old) (H.scene host.new) result }
{
    let names = Names::of(alloc, name)?;
    let found = find(alloc, host, &names)?;
    write_bytes(host, found.bytes())?;
    Ok(found.recovery())
}
