// What one swap file is.
ghost use Rattle.std.specs.Prelude.{◌≡◌, ◌+◌, ◌-◌, ◌/◌, ℕ, List, IfOk, IfErr, IsTrue, IsSome, Ok, length, take};
ghost use Rattle.vs_host.specs.World.{content_of};
ghost use Rattle.vs_zero.specs.Zero.{reading_of};
ghost use Rattle.vs_swap.specs.Files.{format_by};
ghost use Rattle.vs_recover.specs.Choices.{IsSized};
ghost use Rattle.vs_recover.specs.Faults.{IsFault};
ghost use Rattle.vs_recover.specs.Files.{IsFile};
ghost use Rattle.vs_recover.specs.Images.{IsImage, refused_image, text_in, with_format};
ghost use Rattle.vs_recover.specs.Reading.{IsThere, ReadsAtMost, blocks_at};

use crate::calls::{file_len, read_part};
use crate::error::error_of;
use crate::tree::read_tree;
use crate::{Fault, FileText, RecErr};
use std::alloc::Global;
use vs_host::Folder;
use vs_text::Format;
use vs_zero::{Zero, ZeroErr};

/// What a swap file is: docs/FORMATS.md, "What a swap file stands for".
#[derive(Debug, Drop)]
pub enum Image {
    /// The file stands for a text in a format.
    Standing { generation: u64, text: FileText },
    /// Page 0 reads, with pages of so many bytes, and the file does not stand.
    Open { page_size: u32 },
    /// Page 0 is that of a closed file.
    Closed,
    /// Page 0 is that of an encrypted file.
    Encrypted,
    /// Page 0 is not that of a swap file.
    NoSwapFile,
}

/// The length of a swap file in bytes, and what its page 0 reads as.
#[derive(Drop)]
pub struct Opening {
    pub len: u64,
    pub zero: Result<Zero, ZeroErr>,
}

// The format that a number in page 0 says.
pub fn format_by(number: u8) -> Format
    ensures { result ≡ format_by number }
{
    match number {
        2 => Format::Dos,
        _ => Format::Unix,
    }
}

// The text of lines in their plain form; None where they are not those of the text without lines and should be, or the
// other way round.
fn text_of(alloc: Global, lines: FileText, empty: bool) -> Option<FileText>
    ensures { result ≡ with_format lines.format (text_in empty lines.text) }
{
    if !empty {
        if lines.is_empty() {
            return None;
        }
        return Some(lines);
    }
    if lines.bytes() != lines.format().line_end() {
        return None;
    }
    Some(FileText::new(alloc, lines.format()))
}

// The first page of the file, or all of it where it is shorter.
fn read_head<F: Folder>(alloc: Global, host: &mut F, name: &str, len: u64) -> Result<Vec<u8>, Fault>
    requires len { IsThere F.tells (F.scene host.old) name.now (λ file. len ≡ length file) }
    ensures value { IfOk result (λ head. (file : List ℕ) → IsFile F.tells (F.scene host.old) name.now file → head.items ≡ take 4096 file) }
    ensures reading { ReadsAtMost F.tells result Fault.Failed (F.scene host.old) (F.scene host.new) 1 }
{
    let size = len.min(4096) as usize;
    let mut head = vec![in alloc; 0u8; size]?;
    read_part(host, name, 0, &mut head)?;
    Ok(head)
}

/// The length of the file, which is there, and what its page 0 reads as.
pub fn read_opening<F: Folder>(alloc: Global, host: &mut F, name: &str) -> Result<Opening, Fault>
    requires there { IsTrue F.tells.folder → IsSome (content_of (F.scene host.old) name.now) }
    ensures len { IfOk result (λ opening. IsThere F.tells (F.scene host.old) name.now (λ file. opening.len ≡ length file)) }
    ensures zero { IfOk result (λ opening. (file : List ℕ) → IsFile F.tells (F.scene host.old) name.now file →
        opening.zero ≡ reading_of (take 4096 file)) }
    ensures sized { IfOk result (λ opening. IsSized opening.zero) }
    ensures reading { ReadsAtMost F.tells result Fault.Failed (F.scene host.old) (F.scene host.new) 2 }
{
    let len = file_len(host, name)?;
    let head = read_head(alloc, host, name, len)?;
    let zero = Zero::read(&head);
    Ok(Opening { len, zero })
}

// What a file is whose page 0 does not read.
fn refused_image(why: ZeroErr) -> Image
    ensures { result ≡ refused_image why }
{
    match why {
        ZeroErr::Closed => Image::Closed,
        ZeroErr::Encrypted => Image::Encrypted,
        ZeroErr::Short | ZeroErr::BadMagic | ZeroErr::BadPageSize(_) => Image::NoSwapFile,
    }
}

/// What a file is whose page 0 reads.
pub fn read_open<F: Folder>(
    alloc: Global,
    host: &mut F,
    name: &str,
    len: u64,
    zero: &Zero,
) -> Result<Image, Fault>
    requires len { IsThere F.tells (F.scene host.old) name.now (λ file. len ≡ length file) }
    requires zero { (file : List ℕ) → IsFile F.tells (F.scene host.old) name.now file → reading_of (take 4096 file) ≡ Ok zero.now }
    ensures image { IfOk result (λ image. (file : List ℕ) → IsFile F.tells (F.scene host.old) name.now file → IsImage file image) }
    ensures reading { ReadsAtMost F.tells result Fault.Failed (F.scene host.old) (F.scene host.new) (len / 4096 - 1) }
{
    let page_size = zero.page_size;
    if page_size != 4096 {
        return Ok(Image::Open { page_size });
    }
    let Some(pair) = zero.pair else {
        return Ok(Image::Open { page_size });
    };
    let Some(lines) = read_tree(alloc, host, name, len / 4096, format_by(zero.format))? else {
        return Ok(Image::Open { page_size });
    };
    let Some(text) = text_of(alloc, lines, pair.empty) else {
        return Ok(Image::Open { page_size });
    };
    Ok(Image::Standing {
        generation: pair.generation,
        text,
    })
}

/// What the file under a name is, which is there.
pub fn find_image<F: Folder>(alloc: Global, host: &mut F, name: &str) -> Result<Image, Fault>
    requires there { IsTrue F.tells.folder → IsSome (content_of (F.scene host.old) name.now) }
    ensures image { IfOk result (λ image. (file : List ℕ) → IsFile F.tells (F.scene host.old) name.now file → IsImage file image) }
    ensures reading { ReadsAtMost F.tells result Fault.Failed (F.scene host.old) (F.scene host.new) (2 + blocks_at (F.scene host.old) name.now) }
{
    let opening = read_opening(alloc, host, name)?;
    match opening.zero {
        Err(why) => Ok(refused_image(why)),
        Ok(zero) => {
            let image = read_open(alloc, host, name, opening.len, &zero)?;
            Ok(image)
        }
    }
}

/// What the swap file of this name is; the file must be there. The folder is only read, with one call for the length, one for page 0
/// and at most one for each page that follows it. `Failed` and `NoMemory` are the only errors.
pub fn read_image<F: Folder>(alloc: Global, host: &mut F, swap: &str) -> Result<Image, RecErr>
    requires there { IsTrue F.tells.folder → IsSome (content_of (F.scene host.old) swap.now) }
    ensures image { IfOk result (λ image. (file : List ℕ) → IsFile F.tells (F.scene host.old) swap.now file → IsImage file image) }
    ensures refused { IfErr result IsFault }
    ensures reading { ReadsAtMost F.tells result RecErr.Failed (F.scene host.old) (F.scene host.new) (2 + blocks_at (F.scene host.old) swap.now) }
{
    match find_image(alloc, host, swap) {
        Ok(image) => Ok(image),
        Err(fault) => Err(error_of(fault)),
    }
}
