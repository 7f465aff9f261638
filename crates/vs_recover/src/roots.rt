// What page 0 and block 1 of the swap files read as.
ghost use Rattle.std.specs.Prelude.{◌≡◌, ℕ, List, IfOk, IsTrue, length, take};
ghost use Rattle.vs_host.specs.World.{content_of};
ghost use Rattle.vs_zero.specs.Zero.{reading_of};
ghost use Rattle.vs_recover.specs.Choices.{IsOpening, refused_root, root_in, root_of, root_reads};
ghost use Rattle.vs_recover.specs.Files.{IsFile};
ghost use Rattle.vs_recover.specs.Reading.{IsThere, ReadsAtMost};

use crate::Fault;
use crate::calls::read_part;
use crate::image::Opening;
use std::alloc::Global;
use vs_host::Folder;
use vs_ptr::PtrView;
use vs_zero::ZeroErr;

/// What page 0 and block 1 of a swap file read as.
#[derive(Clone, Copy, Debug, PartialEq, Eq)]
pub enum Root {
    /// There is no such file.
    Absent,
    /// Page 0 is that of an encrypted file.
    Encrypted,
    /// Page 0 does not read.
    Foreign,
    /// Page 0 reads, and block 1 is no pointer block.
    NoTree,
    /// Page 0 reads, and block 1 is a pointer block.
    Tree,
}

// Whether block 1 of the file reads as a pointer block, where pages have this size.
fn reads_root<F: Folder>(
    alloc: Global,
    host: &mut F,
    name: &str,
    len: u64,
    size: u32,
) -> Result<bool, Fault>
    requires len { IsThere F.tells (F.scene host.old) name.now (λ file. len ≡ length file) }
    ensures value { IfOk result (λ reads. (file : List ℕ) → IsFile F.tells (F.scene host.old) name.now file → reads ≡ root_reads file size) }
    ensures reading { ReadsAtMost F.tells result Fault.Failed (F.scene host.old) (F.scene host.new) 1 }
{
    let at = u64::from(size);
    if 2 * at > len {
        return Ok(false);
    }
    let mut block = vec![in alloc; 0u8; size as usize]?;
    read_part(host, name, at, &mut block)?;
    let view = PtrView::read(&block);
    Ok(view.is_ok())
}

// The root of a file whose page 0 does not read.
fn refused_root(why: ZeroErr) -> Root
    ensures { result ≡ refused_root why }
{
    match why {
        ZeroErr::Encrypted => Root::Encrypted,
        ZeroErr::Short | ZeroErr::Closed | ZeroErr::BadMagic | ZeroErr::BadPageSize(_) =>
            Root::Foreign,
    }
}

// What page 0 and block 1 of a file read as, whose page 0 was read.
fn opened_root<F: Folder>(
    alloc: Global,
    host: &mut F,
    name: &str,
    opening: &Opening,
) -> Result<Root, Fault>
    requires len { IsThere F.tells (F.scene host.old) name.now (λ file. opening.now.len ≡ length file) }
    requires zero { (file : List ℕ) → IsFile F.tells (F.scene host.old) name.now file → opening.now.zero ≡ reading_of (take 4096 file) }
    ensures root { IfOk result (λ root. (file : List ℕ) → IsFile F.tells (F.scene host.old) name.now file →
        root ≡ root_in file (reading_of (take 4096 file))) }
    ensures reading { ReadsAtMost F.tells result Fault.Failed (F.scene host.old) (F.scene host.new) 1 }
{
    let zero = match opening.zero {
        Ok(zero) => zero,
        Err(why) => return Ok(refused_root(why)),
    };
    if reads_root(alloc, host, name, opening.len, zero.page_size)? {
        return Ok(Root::Tree);
    }
    Ok(Root::NoTree)
}

// What page 0 and block 1 of the file under a name read as, whose page 0 was read.
fn read_root<F: Folder>(
    alloc: Global,
    host: &mut F,
    name: &str,
    opening: &Option<Opening>,
) -> Result<Root, Fault>
    requires opening { IsTrue F.tells.folder → IsOpening (content_of (F.scene host.old) name.now) opening.now }
    ensures root { IfOk result (λ root. IsTrue F.tells.folder → root ≡ root_of (content_of (F.scene host.old) name.now)) }
    ensures reading { ReadsAtMost F.tells result Fault.Failed (F.scene host.old) (F.scene host.new) 1 }
{
    let Some(opening) = opening else {
        return Ok(Root::Absent);
    };
    let root = opened_root(alloc, host, name, opening)?;
    Ok(root)
}

/// What page 0 and block 1 of both swap files read as.
#[derive(Clone, Copy)]
pub struct Roots {
    pub swp: Root,
    pub swo: Root,
}

pub fn read_roots<F: Folder>(
    alloc: Global,
    host: &mut F,
    swp: &str,
    swp_opening: &Option<Opening>,
    swo: &str,
    swo_opening: &Option<Opening>,
) -> Result<Roots, Fault>
    requires swp { IsTrue F.tells.folder → IsOpening (content_of (F.scene host.old) swp.now) swp_opening.now }
    requires swo { IsTrue F.tells.folder → IsOpening (content_of (F.scene host.old) swo.now) swo_opening.now }
    ensures swp { IfOk result (λ roots. IsTrue F.tells.folder → roots.swp ≡ root_of (content_of (F.scene host.old) swp.now)) }
    ensures swo { IfOk result (λ roots. IsTrue F.tells.folder → roots.swo ≡ root_of (content_of (F.scene host.old) swo.now)) }
    ensures reading { ReadsAtMost F.tells result Fault.Failed (F.scene host.old) (F.scene host.new) 2 }
{
    let first = read_root(alloc, host, swp, swp_opening)?;
    let second = read_root(alloc, host, swo, swo_opening)?;
    Ok(Roots {
        swp: first,
        swo: second,
    })
}
