// How often a sync writes into its file, where few pages changed.
ghost use Rattle.std.specs.Prelude.{◌≡◌, IfOk, IfSome, IsTrue, codes};
ghost use Rattle.vs_host.specs.Names.{names_of_file};
ghost use Rattle.vs_pair.specs.Steps.{IsFresh};
ghost use Rattle.vs_test_pair.specs.Lives.{HasText, Fits};

use crate::life::{NAME, sync_page};
use crate::stops::empty_folder;
use std::alloc::Global;
use std::process::Abort;
use std::test::Fail;
use vs_host::Folder;
use vs_pages::{PAGE_SIZE, Pages};
use vs_pair::{Head, SwapPair};
use vs_zero::Zero;

// The pages of the pair: those of a new one, and 60 more. A sync of all of them writes four runs.
const PAGES: usize = 63;

// A pair that was started with pages of zeros, or none where that failed.
pub(crate) fn start_pages<F: Folder>(alloc: Global, host: &mut F) -> Result<Option<SwapPair>, Fail>
    requires fresh { IsTrue F.tells.folder → IsFresh (names_of_file (codes "f")) (F.scene host.old).folder }
    ensures fits { IfOk result (λ found. IfSome found (λ pair. IsTrue F.tells.folder → Fits pair (F.scene host.new).folder)) }
    ensures there { IfOk result (λ found. IfSome found (λ pair. IsTrue F.tells.folder → HasText pair (F.scene host.new).folder)) }
    ensures generation { IfOk result (λ found. IfSome found (λ pair. pair.files.generation ≡ 2)) }
{
    let mut pair = SwapPair::new(alloc, NAME)?;
    pair.pages.grow(alloc, 60)?;
    pair.pages.commit();
    if !pair.pages.has(2, 1) {
        return Err(Fail::new("page 2 is gone"));
    }
    let head = Head {
        dirty: false,
        empty: false,
        format: 1,
    };
    match pair.start(host, &head) {
        Ok(()) => Ok(Some(pair)),
        Err(_) => Ok(None),
    }
}

// Whether the pages are there, and have this byte throughout.
fn are_filled(pages: Option<&[u8]>, byte: u8) -> bool {
    match pages {
        Some(bytes) => bytes.iter().all(|it| *it == byte),
        None => false,
    }
}

// Whether the file is an open swap file with this text on page 2, and zeros on all other pages.
fn is_whole(file: Option<&[u8]>, text: u8) -> bool {
    let Some(file) = file else {
        return false;
    };
    file.len() == PAGES * PAGE_SIZE
        && Zero::read(file).is_ok()
        && are_filled(file.get(PAGE_SIZE..2 * PAGE_SIZE), 0)
        && are_filled(file.get(2 * PAGE_SIZE..3 * PAGE_SIZE), text)
        && are_filled(file.get(3 * PAGE_SIZE..), 0)
}

// A sync writes the identifier twice, page 0, and the one run that has the page that changed.
#[test]
fn a_sync_after_one_changed_page_writes_one_run(rt: HostRuntime) -> Result<(), Fail> {
    let alloc = rt.alloc();
    let mut host = empty_folder(alloc, 0, u64::MAX)?;
    let Some(mut pair) = start_pages(alloc, &mut host)? else {
        return Err(Fail::new("the start failed"));
    };
    assert!(rt; sync_page(alloc, &mut pair, &mut host, &[1; PAGE_SIZE])?);
    assert!(rt; sync_page(alloc, &mut pair, &mut host, &[2; PAGE_SIZE])?);
    assert!(rt; sync_page(alloc, &mut pair, &mut host, &[3; PAGE_SIZE])?);
    assert!(rt; host.writes(".f.swp") == 8 && host.writes(".f.swo") == 4);
    assert!(rt; is_whole(host.file(".f.swp"), 3));
    assert!(rt; is_whole(host.file(".f.swo"), 2));
    Ok(())
}
