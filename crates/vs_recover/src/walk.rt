// What is salvaged of a swap file that does not stand.
ghost use Rattle.std.specs.Prelude.{◌≡◌, ◌∷◌, ◌++◌, ◌+◌, ◌*◌, ◌-◌, ◌/◌, ◌≤◌, ◌<◌, ◌^◌, [], true, false, ℕ, List, IfOk, IfSome, IfNone, OnOk, IsTrue, length, reverse, take, drop};
ghost use Rattle.vs_host.specs.World.{content_of};
ghost use Rattle.vs_ptr.specs.Blocks.{entries_of};
ghost use Rattle.vs_recover.specs.Choices.{root_of, root_reads};
ghost use Rattle.vs_recover.specs.Files.{IsFile};
ghost use Rattle.vs_damaged.specs.Items.{Item, Shows};
ghost use Rattle.vs_recover.specs.Levels.{first_used};
ghost use Rattle.vs_recover.specs.Marks.{free_in, used_in};
ghost use Rattle.vs_recover.specs.Original.{IsOpened, pieces_in};
ghost use Rattle.vs_recover.specs.Reading.{IsThere, ReadsAtMost};
ghost use Rattle.vs_damaged.specs.Finds.{ShowsBlock, found_in};
ghost use Rattle.vs_damaged.specs.Salvage.{Damaged, Pages, first_pages};
ghost use Rattle.vs_recover.specs.Salvage.{IsSalvage, IsSalvageOf, swap_of};
ghost use Rattle.vs_recover.specs.WalkedEntries.{HasDamaged, HasTaken, IsFoundOf, IsWalk, Visits, most_calls};

use crate::calls::read_part;
use crate::choices::Swap;
use crate::error::error_of;
use crate::image::format_by;
use crate::marks::Marks;
use crate::newest::find_opening;
use crate::original::{Original, open_original, show_original};
use crate::{Fault, RecErr};
use std::alloc::{AllocError, Global};
use vs_damaged::{Marker, Shown, Target, push_entries, show_data, target_of};
use vs_host::{Folder, Names};
use vs_ptr::{PtrEntry, PtrErr, PtrView};
use vs_text::Format;

/// The lines and markers of a damaged swap file in their file form, and the number of markers: docs/FORMATS.md, "Salvage".
#[derive(Debug, Drop)]
pub struct Salvaged {
    pub bytes: Vec<u8>,
    pub markers: u64,
}

/// A walk over the pointer entries of a swap file.
#[derive(Drop)]
pub struct Walk {
    /// The number of bytes of a page.
    pub size: u32,
    /// The entries that are left, the next one last.
    pub left: Vec<PtrEntry>,
    /// The pages that were taken.
    pub marks: Marks,
    /// What the entries before gave.
    pub shown: Shown,
    /// The original file.
    pub original: Option<Original>,
}

impl Walk {
    // Shows what the block of an entry gives. Where it is a pointer block, its entries come first of those left.
    fn show(&mut self, alloc: Global, entry: &PtrEntry, block: &[u8]) -> Result<(), AllocError>
        ensures same { (self.new.size ≡ self.old.size) × (self.new.marks ≡ self.old.marks) × (self.new.original ≡ self.old.original) }
        ensures shows { OnOk result
            (ShowsBlock self.old.shown self.new.shown (reverse self.old.left.items) (reverse self.new.left.items) (found_in entry.now block.now)) }
        ensures few { OnOk result (32 * length self.new.left.items ≤ 32 * length self.old.left.items + length block.now) }
    {
        match PtrView::read(block) {
            Ok(view) => push_entries(&mut self.left, &view, block),
            Err(PtrErr::BadCount(_)) => self.shown.push_marker(Marker::PointerBlockDamaged),
            Err(PtrErr::BadId) => show_data(alloc, entry, block, &mut self.shown),
        }
    }

    // Shows what the block of an entry gives, whose pages were taken. Where it is a pointer block, its entries come first of those left.
    fn open<F: Folder>(
        &mut self,
        alloc: Global,
        host: &mut F,
        swap: &str,
        entry: &PtrEntry,
        first: u64,
        pages: u32,
    ) -> Result<(), Fault>
        requires walk { IsWalk self.old }
        requires some { 1 ≤ pages }
        requires near { first + pages ≤ length self.old.marks }
        requires count { IsThere F.tells (F.scene host.old) swap.now (λ file. length self.old.marks ≡ length file / self.old.size) }
        ensures same { (self.new.size ≡ self.old.size) × (self.new.marks ≡ self.old.marks) × (self.new.original ≡ self.old.original) }
        ensures shows { OnOk result ((file : List ℕ) → IsFile F.tells (F.scene host.old) swap.now file
            → ShowsBlock self.old.shown self.new.shown (reverse self.old.left.items) (reverse self.new.left.items)
            (found_in entry.now (take (self.old.size * pages) (drop (self.old.size * first) file)))) }
        ensures few { OnOk result (length self.new.left.items ≤ length self.old.left.items + 1563 * pages) }
        ensures reading { ReadsAtMost F.tells result Fault.Failed (F.scene host.old) (F.scene host.new) 1 }
    {
        let size = u64::from(self.size);
        let mut block = vec![in alloc; 0u8; (u64::from(pages) * size) as usize]?;
        read_part(host, swap, first * size, &mut block)?;
        self.show(alloc, entry, &block)?;
        Ok(())
    }

    // Shows what an entry leads to.
    fn visit<F: Folder>(
        &mut self,
        alloc: Global,
        host: &mut F,
        swap: &str,
        name: &str,
        entry: &PtrEntry,
    ) -> Result<(), Fault>
        requires walk { IsWalk self.old }
        requires count { IsThere F.tells (F.scene host.old) swap.now (λ file. length self.old.marks ≡ length file / self.old.size) }
        requires opened { IsTrue F.tells.folder → IsOpened (content_of (F.scene host.old) name.now) self.old.original }
        ensures walk { OnOk result (IsWalk self.new) }
        ensures same { OnOk result ((self.new.size ≡ self.old.size) × (length self.new.marks ≡ length self.old.marks)
            × (pieces_in self.new.original ≡ pieces_in self.old.original)) }
        ensures opened { OnOk result (IsTrue F.tells.folder → IsOpened (content_of (F.scene host.old) name.now) self.new.original) }
        ensures visits { OnOk result ((d : Damaged) → HasDamaged F.tells (F.scene host.old) swap.now name.now self.old.size d
            → (taken : List Pages) → HasTaken self.old taken
            → Visits d self.old self.new entry.now taken) }
        ensures free { free_in self.new.marks ≤ free_in self.old.marks }
        ensures few { OnOk result (length self.new.left.items + 1563 * free_in self.new.marks ≤ length self.old.left.items + 1563 * free_in self.old.marks) }
        ensures reading { ReadsAtMost F.tells result Fault.Failed (F.scene host.old) (F.scene host.new)
            (free_in self.old.marks - free_in self.new.marks + pieces_in self.old.original) }
    {
        match target_of(entry) {
            Target::Original(before, count) => show_original(
                alloc,
                host,
                name,
                &mut self.original,
                before,
                count,
                &mut self.shown,
            ),
            Target::Block(first, pages) => {
                if self.marks.mark(first, pages) {
                    return self.open(alloc, host, swap, entry, first, pages);
                }
                self.shown.push_marker(Marker::BlockMissing)?;
                Ok(())
            }
            Target::Nothing => {
                self.shown.push_marker(Marker::BlockMissing)?;
                Ok(())
            }
        }
    }

    // Shows what all entries lead to that are left.
    fn run<F: Folder>(
        mut self,
        alloc: Global,
        host: &mut F,
        swap: &str,
        name: &str,
    ) -> Result<Shown, Fault>
        requires walk { IsWalk self }
        requires count { IsThere F.tells (F.scene host.old) swap.now (λ file. length self.marks ≡ length file / self.size) }
        requires opened { IsTrue F.tells.folder → IsOpened (content_of (F.scene host.old) name.now) self.original }
        ensures shown { IfOk result (λ shown. (d : Damaged) → HasDamaged F.tells (F.scene host.old) swap.now name.now self.size d
            → HasTaken self (first_pages ∷ []) → Shows d.format self.shown []
            → IsFoundOf d (reverse self.left.items) shown) }
        ensures reading { ReadsAtMost F.tells result Fault.Failed (F.scene host.old) (F.scene host.new)
            (free_in self.marks + (length self.left.items + 1563 * free_in self.marks) * pieces_in self.original) }
    {
        'entries: while let Some(entry) = self.left.pop() {
            self.visit(alloc, host, swap, name, &entry)?;
        }
        Ok(self.shown)
    }
}

// A walk that begins at block 1 of a swap file with pages of this size and this format; None where that is no pointer block.
fn begin<F: Folder>(
    alloc: Global,
    host: &mut F,
    swap: &str,
    name: &str,
    len: u64,
    size: u32,
    format: Format,
) -> Result<Option<Walk>, Fault>
    requires len { IsThere F.tells (F.scene host.old) swap.now (λ file. len ≡ length file) }
    requires least { 1048 ≤ size }
    requires most { size ≤ 50000 }
    ensures none { IfOk result (λ found. IfNone found ((file : List ℕ) → IsFile F.tells (F.scene host.old) swap.now file →
        root_reads file size ≡ false)) }
    ensures root { IfOk result (λ found. IfSome found (λ walk. (file : List ℕ) → IsFile F.tells (F.scene host.old) swap.now file
        → (root_reads file size ≡ true) × (reverse walk.left.items ≡ entries_of (take size (drop size file))))) }
    ensures walk { IfOk result (λ found. IfSome found (λ walk. IsWalk walk)) }
    ensures pages { IfOk result (λ found. IfSome found (λ walk. (walk.size ≡ size) × (length walk.marks ≡ len / size)
        × (free_in walk.marks + 2 ≡ len / size) × (length walk.left.items ≤ 1563))) }
    ensures taken { IfOk result (λ found. IfSome found (λ walk. (k : ℕ) → used_in walk.marks k ≡ first_used (len / size) k)) }
    ensures shown { IfOk result (λ found. IfSome found (λ walk. Shows format walk.shown [])) }
    ensures opened { IfOk result (λ found. IfSome found (λ walk. IsTrue F.tells.folder → IsOpened (content_of (F.scene host.old) name.now) walk.original)) }
    ensures reading { ReadsAtMost F.tells result Fault.Failed (F.scene host.old) (F.scene host.new) 3 }
{
    let at = u64::from(size);
    if 2 * at > len {
        return Ok(None);
    }
    let mut block = vec![in alloc; 0u8; size as usize]?;
    read_part(host, swap, at, &mut block)?;
    let Ok(view) = PtrView::read(&block) else {
        return Ok(None);
    };
    let mut left = Vec::new(alloc);
    push_entries(&mut left, &view, &block)?;
    let marks = Marks::new(alloc, (len / at) as usize)?;
    let original = open_original(alloc, host, name)?;
    Ok(Some(Walk {
        size,
        left,
        marks,
        shown: Shown::new(alloc, format),
        original,
    }))
}

// What is salvaged of the swap file and the original file under these names; None where the swap file has no root.
fn salvage_of<F: Folder>(
    alloc: Global,
    host: &mut F,
    swap: &str,
    name: &str,
) -> Result<Option<Shown>, Fault>
    ensures found { IfOk result (λ found. IsTrue F.tells.folder
        → IsSalvageOf (content_of (F.scene host.old) swap.now) (content_of (F.scene host.old) name.now) found) }
    ensures reading { ReadsAtMost F.tells result Fault.Failed (F.scene host.old) (F.scene host.new)
        (most_calls (content_of (F.scene host.old) swap.now) (content_of (F.scene host.old) name.now)) }
{
    let Some(opening) = find_opening(alloc, host, swap)? else {
        return Ok(None);
    };
    let Ok(zero) = opening.zero else {
        return Ok(None);
    };
    let format = format_by(zero.format);
    let Some(walk) = begin(alloc, host, swap, name, opening.len, zero.page_size, format)? else {
        return Ok(None);
    };
    let shown = walk.run(alloc, host, swap, name)?;
    Ok(Some(shown))
}

// The name of one of the two swap files.
fn swap_of(names: &Names, which: Swap) -> &str
    ensures { result.now ≡ swap_of names.now which }
{
    match which {
        Swap::Swp => names.swp.as_str(),
        Swap::Swo => names.swo.as_str(),
    }
}

/// What is salvaged of one of the two swap files and the file that was edited: docs/FORMATS.md, "Salvage". `NotTree` is answered
/// exactly where the swap file is not there, its page 0 does not read, or block 1 is no pointer block. The other errors are `Failed`
/// and `NoMemory`.
///
/// The folder is only read, and each page of the swap file at most once.
pub fn salvage<F: Folder>(
    alloc: Global,
    host: &mut F,
    names: &Names,
    which: Swap,
) -> Result<Salvaged, RecErr>
    ensures answer { IsTrue F.tells.folder
        → IsSalvage (content_of (F.scene host.old) (swap_of names.now which)) (content_of (F.scene host.old) names.now.file) result }
    ensures reading { ReadsAtMost F.tells result RecErr.Failed (F.scene host.old) (F.scene host.new)
        (most_calls (content_of (F.scene host.old) (swap_of names.now which)) (content_of (F.scene host.old) names.now.file)) }
{
    match salvage_of(alloc, host, swap_of(names, which), names.file.as_str()) {
        Ok(Some(shown)) => Ok(Salvaged {
            bytes: shown.bytes,
            markers: shown.markers,
        }),
        Ok(None) => Err(RecErr::NotTree),
        Err(fault) => Err(error_of(fault)),
    }
}
