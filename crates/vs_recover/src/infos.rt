// What `info` says.
ghost use Rattle.std.specs.Prelude.{◌≡◌, ◌≢◌, ◌+◌, IfOk, IsTrue, Err, string_bytes, codes, ◌++◌, ◌∷◌, []};
ghost use Rattle.vs_host.specs.World.{content_of};
ghost use Rattle.vs_recover.specs.Infos.{IsInfo, IsInfos, image_words, standing_words};
ghost use Rattle.vs_recover.specs.Reading.{ReadsAtMost, blocks_at};

use crate::calls::has_file;
use crate::error::error_of;
use crate::image::{Image, find_image};
use crate::{Fault, RecErr};
use std::alloc::{AllocError, Global};
use vs_host::{Folder, Names};

fn standing_words(alloc: Global, generation: u64, lines: usize) -> Result<String, AllocError>
    ensures { IfOk result (λ words. string_bytes words ≡ standing_words generation lines) }
{
    let words = format!(in alloc; "standing, generation {generation}, {lines} lines")?;
    Ok(words)
}

fn image_words(alloc: Global, image: &Image) -> Result<String, AllocError>
    ensures { IfOk result (λ words. string_bytes words ≡ image_words image.now) }
{
    match image {
        Image::Standing { generation, text } => {
            let words = standing_words(alloc, *generation, text.len())?;
            Ok(words)
        }
        Image::Open { page_size } => format!(in alloc; "not standing, page size {page_size}"),
        Image::Closed => String::from_str(alloc, "closed"),
        Image::Encrypted => String::from_str(alloc, "encrypted"),
        Image::NoSwapFile => String::from_str(alloc, "no swap file"),
    }
}

fn info_line(alloc: Global, name: &str, image: &Image) -> Result<String, AllocError>
    ensures { IfOk result (λ line. string_bytes line ≡ name.now ++ (codes ": " ++ (image_words image.now ++ 10 ∷ []))) }
{
    let words = image_words(alloc, image)?;
    let line = format!(in alloc; "{name}: {words}\n")?;
    Ok(line)
}

/// The line of `info` for the swap file under a name; nothing where it is not there.
pub fn file_info<F: Folder>(alloc: Global, host: &mut F, name: &str) -> Result<String, Fault>
    ensures info { IfOk result (λ line. IsTrue F.tells.folder → IsInfo (content_of (F.scene host.old) name.now) name.now (string_bytes line)) }
    ensures reading { ReadsAtMost F.tells result Fault.Failed (F.scene host.old) (F.scene host.new) (3 + blocks_at (F.scene host.old) name.now) }
{
    if !has_file(host, name)? {
        return Ok(String::new(alloc));
    }
    let image = find_image(alloc, host, name)?;
    let line = info_line(alloc, name, &image)?;
    Ok(line)
}

// The lines of both files, one after the other.
fn joined(first: &str, second: &str, alloc: Global) -> Result<Vec<u8>, Fault>
    ensures bytes { IfOk result (λ bytes. bytes.items ≡ first.now ++ second.now) }
    ensures failed { result ≢ Err Fault.Failed }
{
    let mut bytes = Vec::from_slice(alloc, first.as_bytes())?;
    bytes.extend_from_slice(second.as_bytes())?;
    Ok(bytes)
}

// The lines of both swap files.
fn info_of<F: Folder>(alloc: Global, host: &mut F, swp: &str, swo: &str) -> Result<Vec<u8>, RecErr>
    ensures answer { IsTrue F.tells.folder → IsInfos (content_of (F.scene host.old) swp.now) (content_of (F.scene host.old) swo.now) swp.now swo.now result }
    ensures reading { ReadsAtMost F.tells result RecErr.Failed (F.scene host.old) (F.scene host.new)
        (6 + blocks_at (F.scene host.old) swp.now + blocks_at (F.scene host.old) swo.now) }
{
    let first = match file_info(alloc, host, swp) {
        Ok(first) => first,
        Err(fault) => return Err(error_of(fault)),
    };
    let second = match file_info(alloc, host, swo) {
        Ok(second) => second,
        Err(fault) => return Err(error_of(fault)),
    };
    if first.is_empty() && second.is_empty() {
        return Err(RecErr::NoSwap);
    }
    match joined(&first, &second, alloc) {
        Ok(bytes) => Ok(bytes),
        Err(fault) => Err(error_of(fault)),
    }
}

/// One line for each swap file that is there, the first one's before that of the second: docs/COMMANDS.md, "Swap files". The
/// folder is only read, with at most three calls for each of the two names and one for each page that follows page 0 of its
/// file. The other errors are `Failed` and `NoMemory`.
pub fn info<F: Folder>(alloc: Global, host: &mut F, names: &Names) -> Result<Vec<u8>, RecErr>
    ensures answer { IsTrue F.tells.folder
        → IsInfos (content_of (F.scene host.old) names.now.swp) (content_of (F.scene host.old) names.now.swo) names.now.swp names.now.swo result }
    ensures reading { ReadsAtMost F.tells result RecErr.Failed (F.scene host.old) (F.scene host.new)
        (6 + blocks_at (F.scene host.old) names.now.swp + blocks_at (F.scene host.old) names.now.swo) }
{
    info_of(alloc, host, names.swp.as_str(), names.swo.as_str())
}
