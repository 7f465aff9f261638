// What a mode writes to the output.
ghost use Rattle.std.specs.Prelude.{◌≡◌, ◌++◌, OnOk, OnErr, IfErr, IsErr, IsTrue};
ghost use Rattle.vs_faults.specs.Faults.{HasCause};
ghost use Rattle.vs_disk.specs.Runs.{CallsAtMost};
ghost use Rattle.vs_modes.specs.Output.{NoWriteFails, Outputs, WritesPart};

use crate::ModeErr;
use vs_host::Out;

/// Writes the bytes in one call.
pub fn write_bytes<O: Out>(out: &mut O, bytes: &[u8]) -> Result<(), ModeErr>
    ensures outputs { Outputs O.tells (O.scene out.old) (O.scene out.new) }
    ensures ok { OnOk result (IsTrue (O.tells).output → (O.scene out.new).output ≡ (O.scene out.old).output ++ bytes.now) }
    ensures err { OnErr result (IsTrue (O.tells).output → WritesPart bytes.now (O.scene out.old).output (O.scene out.new).output) }
    ensures failed { IfErr result (λ why. why ≡ ModeErr.OutputFailed) }
    ensures none { OnOk result (NoWriteFails O.tells (O.scene out.old) (O.scene out.new)) }
    ensures calls { CallsAtMost O.tells (O.scene out.old) (O.scene out.new) 1 }
    ensures cause { HasCause (O.scene out.old).out_faults (O.scene out.new).out_faults (IsErr result) }
{
    match out.write(bytes) {
        Ok(()) => Ok(()),
        Err(_) => Err(ModeErr::OutputFailed),
    }
}
