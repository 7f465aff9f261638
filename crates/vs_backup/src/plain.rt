// Writing without a backup: over a file that is there, and a file that was not there.
ghost use Rattle.std.specs.Prelude.{◌≡◌, ◌≢◌, ℕ, List, IfOk, OnOk, IsErrOf, IsTrue, Some, None, IsSome};
ghost use Rattle.vs_text.specs.Documents.{file_in};
ghost use Rattle.vs_host.specs.World.{content_of};
ghost use Rattle.vs_disk.specs.Runs.{Runs};
ghost use Rattle.vs_backup.specs.Desks.{GoesOn};
ghost use Rattle.vs_backup.specs.Modes.{Makes, MakesUsual};
ghost use Rattle.vs_backup.specs.Works.{HasNew, IsGone, Renews, Spares, one_name, two_names};
ghost use Rattle.vs_backup.specs.Writing.{IsFilled, WritesFresh, WritesPlain};

use crate::Desk;
use crate::errors::Stop;
use crate::files::{Readers, drop_name, make_anew, settle, take_name};
use crate::fill::fill_text;
use std::alloc::Global;
use vs_text::Format;

/// Writes over a file that is there, in its place. Gives the number of bytes.
pub(crate) fn write_plain<D: Desk>(
    alloc: Global,
    desk: &mut D,
    name: &str,
    piece: &mut Vec<u8>,
    format: Format,
) -> Result<u64, Stop>
    requires valid { D.valid desk.old }
    requires apart { D.reads desk.old name.now → ⊥ }
    requires there { IsTrue (D.tells).folder → IsSome (content_of (D.scene desk.old) name.now) }
    ensures plain { IsTrue (D.tells).folder → (old : List ℕ) → content_of (D.scene desk.old) name.now ≡ Some old
        → (text : List (List ℕ)) → D.has_text desk.old text
        → WritesPlain name.now old (file_in format text) (D.scene desk.old) (D.scene desk.new) result }
    ensures modes { Makes (D.tells).folder None (D.scene desk.old) (D.scene desk.new) }
    ensures kept { GoesOn D.tells D.scene D.valid D.stays (IsErrOf result Stop.Failed) desk.old desk.new }
{
    settle(desk, name)?;
    desk.cut(name, 0)?;
    fill_text(alloc, desk, name, None, piece, format)
}

/// Makes a file with the text under a temporary name, and syncs it. Where there is no memory the name is taken away again, so only a
/// failed call leaves a file under it. Gives the number of bytes.
fn make_filled<D: Desk>(
    alloc: Global,
    desk: &mut D,
    temporary: &str,
    piece: &mut Vec<u8>,
    format: Format,
) -> Result<u64, Stop>
    requires valid { D.valid desk.old }
    requires apart { D.reads desk.old temporary.now → ⊥ }
    ensures spares { IsTrue (D.tells).folder → Runs (Spares (one_name temporary.now)) (D.scene desk.old) (D.scene desk.new) }
    ensures renews { IsTrue (D.tells).folder → Runs (Renews temporary.now) (D.scene desk.old) (D.scene desk.new) }
    ensures ok { IfOk result (λ size. IsFilled (D.tells).folder temporary.now format (D.has_text desk.old) size (D.scene desk.new)) }
    ensures anew { OnOk result (IsTrue (D.tells).folder → HasNew temporary.now (D.scene desk.old).folder (D.scene desk.new).folder) }
    ensures clears { IsErrOf result Stop.NoMemory → IsTrue (D.tells).folder → IsGone temporary.now (D.scene desk.new).folder }
    ensures modes { MakesUsual (D.tells).folder (D.scene desk.old) (D.scene desk.new) }
    ensures kept { GoesOn D.tells D.scene D.valid D.stays (IsErrOf result Stop.Failed) desk.old desk.new }
{
    make_anew(desk, temporary, Readers::Usual)?;
    match fill_text(alloc, desk, temporary, None, piece, format) {
        Ok(size) => Ok(size),
        Err(Stop::Failed) => Err(Stop::Failed),
        Err(Stop::NoMemory) => {
            drop_name(desk, temporary)?;
            Err(Stop::NoMemory)
        }
    }
}

/// Writes a file that is not there under a temporary name, which it changes when it is synced. Gives the number of bytes.
pub(crate) fn write_fresh<D: Desk>(
    alloc: Global,
    desk: &mut D,
    name: &str,
    temporary: &str,
    piece: &mut Vec<u8>,
    format: Format,
) -> Result<u64, Stop>
    requires valid { D.valid desk.old }
    requires apart { D.reads desk.old name.now → ⊥ }
    requires apart_temporary { D.reads desk.old temporary.now → ⊥ }
    requires differ { name.now ≢ temporary.now }
    ensures fresh { IsTrue (D.tells).folder → content_of (D.scene desk.old) name.now ≡ None → (text : List (List ℕ)) → D.has_text desk.old text
        → WritesFresh (two_names temporary.now name.now) name.now (file_in format text) (D.scene desk.old) (D.scene desk.new) result }
    ensures modes { MakesUsual (D.tells).folder (D.scene desk.old) (D.scene desk.new) }
    ensures kept { GoesOn D.tells D.scene D.valid D.stays (IsErrOf result Stop.Failed) desk.old desk.new }
{
    let size = make_filled(alloc, desk, temporary, piece, format)?;
    take_name(desk, temporary, name)?;
    Ok(size)
}
