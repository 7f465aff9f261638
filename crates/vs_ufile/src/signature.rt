// The bytes at the front of a file that tell whether it is an undo file of version 2.

ghost use Rattle.std.specs.Prelude.{◌≡◌, List, ℕ, IfErr, IsErrOf, take};
ghost use Rattle.vs_ufile.specs.Reading.{Gives};
ghost use Rattle.vs_ufile.specs.Signature.{IsSigned, IsUnreadable, signature};

use crate::UfErr;
use crate::answer::error_of;
use crate::fault::Stop;
use crate::fields::{start, version};

/// So many bytes at its front tell whether a file is an undo file of version 2.
pub const SIGNATURE_BYTES: usize = 11;

#[tactic(auto, unfolding(crate::specs::Signature::signature))]
fn signature(bytes: &[u8]) -> Result<(u16, &[u8]), Stop>
    ensures gives { Gives (λ x. (x.0, x.1.now)) result (signature bytes.now) }
    ensures placed { IsErrOf result Stop.Memory → ⊥ }
{
    let (_start, rest) = start(bytes)?;
    version(rest)
}

/// Whether a file begins with the start and the version of an undo file of version 2. These are its first
/// [`SIGNATURE_BYTES`] bytes, or all where it has fewer. It takes no memory.
///
/// Where they are refused, `decode` refuses the whole file in the same way, whatever follows them.
pub fn check_signature(first: &[u8]) -> Result<(), UfErr>
    ensures exact { IsSigned first.now result }
    ensures decides { IfErr result (λ e. (bytes : List ℕ) → first.now ≡ take SIGNATURE_BYTES bytes → IsUnreadable e bytes) }
{
    match signature(first) {
        Ok(_) => Ok(()),
        Err(stop) => Err(error_of(first.len(), stop)),
    }
}
