// Which text is recovered, or which swap file is salvaged.
ghost use Rattle.std.specs.Prelude.{◌≡◌, ◌≢◌, ◌+◌, IfOk, IsTrue, Err};
ghost use Rattle.vs_host.specs.World.{content_of};
ghost use Rattle.vs_recover.specs.Choices.{IsChoice, IsFound, root_chosen};
ghost use Rattle.vs_recover.specs.Reading.{ReadsAtMost, blocks_at};

use crate::error::error_of;
use crate::newest::{find_opening, read_newer};
use crate::roots::{Root, Roots, read_roots};
use crate::{Fault, FileText, RecErr};
use std::alloc::Global;
use vs_host::{Folder, Names};

/// One of the two swap files.
#[derive(Clone, Copy, Debug, PartialEq, Eq)]
pub enum Swap {
    /// `.NAME.swp`.
    Swp,
    /// `.NAME.swo`.
    Swo,
}

// The file to salvage of two, or why there is none.
fn choose_root(first: Root, second: Root) -> Result<Swap, RecErr>
    ensures value { result ≡ root_chosen first second }
    ensures failed { result ≢ Err RecErr.Failed }
{
    match (first, second) {
        (Root::Tree, _) => Ok(Swap::Swp),
        (_, Root::Tree) => Ok(Swap::Swo),
        (Root::Absent, Root::Absent) => Err(RecErr::NoSwap),
        (Root::Encrypted, _) | (_, Root::Encrypted) => Err(RecErr::Encrypted),
        (Root::NoTree, _) | (_, Root::NoTree) => Err(RecErr::NotTree),
        _ => Err(RecErr::NotSwap),
    }
}

/// What a user gets: the text of a file that stands, or a file to salvage.
#[derive(Debug, Drop)]
pub enum Chosen {
    /// A file stands: its text, with the format.
    Text(FileText),
    /// None stands, and page 0 and block 1 of this one read.
    Salvage(Swap),
}

/// What the two swap files give.
#[derive(Drop)]
pub enum Found {
    /// One of them stands.
    Text(FileText),
    /// Neither stands.
    Roots(Roots),
}

// The text of the newer file that stands, or else what page 0 and block 1 of both files read as.
fn find<F: Folder>(alloc: Global, host: &mut F, swp: &str, swo: &str) -> Result<Found, Fault>
    ensures found { IfOk result (λ found. IsTrue F.tells.folder
        → IsFound (content_of (F.scene host.old) swp.now) (content_of (F.scene host.old) swo.now) found) }
    ensures reading { ReadsAtMost F.tells result Fault.Failed (F.scene host.old) (F.scene host.new)
        (8 + blocks_at (F.scene host.old) swp.now + blocks_at (F.scene host.old) swo.now) }
{
    let first = find_opening(alloc, host, swp)?;
    let second = find_opening(alloc, host, swo)?;
    if let Some(text) = read_newer(alloc, host, swp, &first, swo, &second)? {
        return Ok(Found::Text(text));
    }
    let roots = read_roots(alloc, host, swp, &first, swo, &second)?;
    Ok(Found::Roots(roots))
}

// The text of the newer file that stands, or else the first file whose page 0 and block 1 read.
fn choose_of<F: Folder>(alloc: Global, host: &mut F, swp: &str, swo: &str) -> Result<Chosen, RecErr>
    ensures answer { IsTrue F.tells.folder → IsChoice (content_of (F.scene host.old) swp.now) (content_of (F.scene host.old) swo.now) result }
    ensures reading { ReadsAtMost F.tells result RecErr.Failed (F.scene host.old) (F.scene host.new)
        (8 + blocks_at (F.scene host.old) swp.now + blocks_at (F.scene host.old) swo.now) }
{
    let found = match find(alloc, host, swp, swo) {
        Ok(found) => found,
        Err(fault) => return Err(error_of(fault)),
    };
    match found {
        Found::Text(text) => Ok(Chosen::Text(text)),
        Found::Roots(roots) => match choose_root(roots.swp, roots.swo) {
            Ok(which) => Ok(Chosen::Salvage(which)),
            Err(why) => Err(why),
        },
    }
}

/// What a user gets from the two swap files: docs/FORMATS.md, "What a swap file stands for". The folder is only read,
/// with at most four calls for each of the two names and one for each page that follows page 0 of its file.
pub fn choose<F: Folder>(alloc: Global, host: &mut F, names: &Names) -> Result<Chosen, RecErr>
    ensures answer { IsTrue F.tells.folder → IsChoice (content_of (F.scene host.old) names.now.swp) (content_of (F.scene host.old) names.now.swo) result }
    ensures reading { ReadsAtMost F.tells result RecErr.Failed (F.scene host.old) (F.scene host.new)
        (8 + blocks_at (F.scene host.old) names.now.swp + blocks_at (F.scene host.old) names.now.swo) }
{
    choose_of(alloc, host, names.swp.as_str(), names.swo.as_str())
}
