// The text of the newer of two swap files that stand.
ghost use Rattle.std.specs.Prelude.{◌≡◌, ◌+◌, IfOk, IsTrue};
ghost use Rattle.vs_host.specs.World.{content_of};
ghost use Rattle.vs_recover.specs.Choices.{AreSized, IsOpening, IsStanding, Recovers, StandsInTurn, generation_in, generation_of, is_newer, text_of};
ghost use Rattle.vs_recover.specs.Reading.{ReadsAtMost, blocks_at};

use crate::calls::has_file;
use crate::image::{Image, Opening, read_open, read_opening};
use crate::{Fault, FileText};
use std::alloc::Global;
use vs_host::Folder;
use vs_zero::Zero;

/// The length of a file and what its page 0 reads as, where the file is there.
pub fn find_opening<F: Folder>(
    alloc: Global,
    host: &mut F,
    name: &str,
) -> Result<Option<Opening>, Fault>
    ensures opening { IfOk result (λ found. IsTrue F.tells.folder → IsOpening (content_of (F.scene host.old) name.now) found) }
    ensures sized { IfOk result AreSized }
    ensures reading { ReadsAtMost F.tells result Fault.Failed (F.scene host.old) (F.scene host.new) 3 }
{
    if !has_file(host, name)? {
        return Ok(None);
    }
    let opening = read_opening(alloc, host, name)?;
    Ok(Some(opening))
}

// The generation that page 0 says, where pages have 4,096 bytes.
fn generation_in(zero: &Zero) -> Option<u64>
    ensures { result ≡ generation_in zero.now }
{
    if zero.page_size != 4096 {
        return None;
    }
    let Some(pair) = zero.pair else {
        return None;
    };
    Some(pair.generation)
}

// The generation that a file has if it stands.
fn generation_of(opening: &Option<Opening>) -> Option<u64>
    ensures { result ≡ generation_of opening.now }
{
    let Some(opening) = opening else {
        return None;
    };
    match opening.zero {
        Ok(zero) => generation_in(&zero),
        Err(_why) => None,
    }
}

// Whether the second of two generations is the greater one.
fn is_newer(first: Option<u64>, second: Option<u64>) -> bool
    ensures { result ≡ is_newer first second }
{
    match (first, second) {
        (Some(first), Some(second)) => first < second,
        (None, Some(_)) => true,
        (_, None) => false,
    }
}

// The text of a file that stands.
fn text_of(image: Image) -> Option<FileText>
    ensures { result ≡ text_of image }
{
    match image {
        Image::Standing {
            generation: _,
            text,
        } => Some(text),
        Image::Open { .. } | Image::Closed | Image::Encrypted | Image::NoSwapFile => None,
    }
}

// The text of a file whose page 0 was read, where it stands.
fn read_text<F: Folder>(
    alloc: Global,
    host: &mut F,
    name: &str,
    opening: &Option<Opening>,
) -> Result<Option<FileText>, Fault>
    requires opening { IsTrue F.tells.folder → IsOpening (content_of (F.scene host.old) name.now) opening.now }
    ensures text { IfOk result (λ found. IsTrue F.tells.folder → IsStanding (content_of (F.scene host.old) name.now) found) }
    ensures reading { ReadsAtMost F.tells result Fault.Failed (F.scene host.old) (F.scene host.new) (blocks_at (F.scene host.old) name.now) }
{
    let Some(opening) = opening else {
        return Ok(None);
    };
    match opening.zero {
        Err(_why) => Ok(None),
        Ok(zero) => {
            let image = read_open(alloc, host, name, opening.len, &zero)?;
            Ok(text_of(image))
        }
    }
}

// The text of the first file where it stands, and else that of the second one.
fn read_in_turn<F: Folder>(
    alloc: Global,
    host: &mut F,
    first: &str,
    first_opening: &Option<Opening>,
    second: &str,
    second_opening: &Option<Opening>,
) -> Result<Option<FileText>, Fault>
    requires first { IsTrue F.tells.folder → IsOpening (content_of (F.scene host.old) first.now) first_opening.now }
    requires second { IsTrue F.tells.folder → IsOpening (content_of (F.scene host.old) second.now) second_opening.now }
    ensures text { IfOk result (λ found. IsTrue F.tells.folder
        → StandsInTurn (content_of (F.scene host.old) first.now) (content_of (F.scene host.old) second.now) found) }
    ensures reading { ReadsAtMost F.tells result Fault.Failed (F.scene host.old) (F.scene host.new)
        (blocks_at (F.scene host.old) first.now + blocks_at (F.scene host.old) second.now) }
{
    if let Some(text) = read_text(alloc, host, first, first_opening)? {
        return Ok(Some(text));
    }
    let other = read_text(alloc, host, second, second_opening)?;
    Ok(other)
}

/// The text of the newer of two swap files that stand, and of the first at a tie; None where neither stands. The file of the greater
/// generation is read first, so only one text at a time is in memory.
pub fn read_newer<F: Folder>(
    alloc: Global,
    host: &mut F,
    swp: &str,
    swp_opening: &Option<Opening>,
    swo: &str,
    swo_opening: &Option<Opening>,
) -> Result<Option<FileText>, Fault>
    requires swp { IsTrue F.tells.folder → IsOpening (content_of (F.scene host.old) swp.now) swp_opening.now }
    requires swo { IsTrue F.tells.folder → IsOpening (content_of (F.scene host.old) swo.now) swo_opening.now }
    ensures text { IfOk result (λ found. IsTrue F.tells.folder
        → Recovers (content_of (F.scene host.old) swp.now) (content_of (F.scene host.old) swo.now) found) }
    ensures reading { ReadsAtMost F.tells result Fault.Failed (F.scene host.old) (F.scene host.new)
        (blocks_at (F.scene host.old) swp.now + blocks_at (F.scene host.old) swo.now) }
{
    if is_newer(generation_of(swp_opening), generation_of(swo_opening)) {
        let found = read_in_turn(alloc, host, swo, swo_opening, swp, swp_opening)?;
        return Ok(found);
    }
    let found = read_in_turn(alloc, host, swp, swp_opening, swo, swo_opening)?;
    Ok(found)
}
