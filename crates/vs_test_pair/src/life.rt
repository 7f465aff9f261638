// One life of a pair: it is started, synced and ended. The text is the byte that fills page 2.
ghost use Rattle.std.specs.Prelude.{◌≡◌, ◌+◌, ◌<◌, ◌≤◌, ◌^◌, List, Some, IfOk, IfSome, OnOk, IsSome, IsTrue, codes, length};
ghost use Rattle.vs_host.specs.Names.{names_of_file};
ghost use Rattle.vs_pages.specs.Maps.{first_pages, no_pages, pages_at};
ghost use Rattle.vs_pages.specs.Memory.{present_of, AreBacked};
ghost use Rattle.vs_pair.specs.Swap.{IsFormatNumber, Synced};
ghost use Rattle.vs_pair.specs.Steps.{IsFresh};
ghost use Rattle.vs_test_pair.specs.Lives.{HasText, Fits};

use std::alloc::Global;
use std::test::Fail;
use vs_host::Folder;
use vs_pages::{MemPages, PAGE_SIZE, Pages};
use vs_pair::{Head, PairPages, SwapPair};
use vs_tree::LineTree;

/// The name of the file.
pub const NAME: &str = "f";

/// How far a life came: whether the start, each sync and the end succeeded. A life is over where its start or its end fails.
#[derive(Clone, Copy, Debug, Drop)]
pub struct Life {
    pub started: bool,
    pub synced: [bool; 2],
    pub ended: bool,
}

// Makes this the text of pages that are in memory, and commits it.
fn fill_first(alloc: Global, pages: &mut MemPages, text: u8) -> Result<(), Fail>
    requires there { IsSome (pages_at (present_of pages.old) 2 1) }
    ensures there { OnOk result (IsSome (pages_at (present_of pages.new) 2 1)) }
    ensures here { OnOk result (AreBacked no_pages pages.old → AreBacked no_pages pages.new) }
{
    let page = vec![in alloc; text; PAGE_SIZE]?;
    pages.touch(alloc, 2, 1, &page)?;
    pages.commit();
    Ok(())
}

// A pair that was started with this text, or none where that failed.
fn start_text<F: Folder>(alloc: Global, host: &mut F, text: u8) -> Result<Option<SwapPair>, Fail>
    requires fresh { IsTrue F.tells.folder → IsFresh (names_of_file (codes "f")) (F.scene host.old).folder }
    ensures fits { IfOk result (λ found. IfSome found (λ pair. IsTrue F.tells.folder → Fits pair (F.scene host.new).folder)) }
    ensures there { IfOk result (λ found. IfSome found (λ pair. IsTrue F.tells.folder → HasText pair (F.scene host.new).folder)) }
    ensures generation { IfOk result (λ found. IfSome found (λ pair. pair.files.generation ≡ 2)) }
{
    let mut pair = SwapPair::new(alloc, NAME)?;
    fill_first(alloc, &mut pair.pages, text)?;
    let head = Head {
        dirty: false,
        empty: false,
        format: 1,
    };
    match pair.start(host, &head) {
        Ok(()) => Ok(Some(pair)),
        Err(_) => Ok(None),
    }
}

// Makes this page 2 of a pair that was started, and commits it.
fn put_page<F: Folder>(
    alloc: Global,
    pair: &mut SwapPair,
    host: &mut F,
    page: &[u8],
) -> Result<(), Fail>
    requires size { length page.now ≡ 4096 }
    requires fits { IsTrue F.tells.folder → Fits pair.old (F.scene host.old).folder }
    requires there { IsTrue F.tells.folder → HasText pair.old (F.scene host.old).folder }
    requires started { 2 ≤ pair.old.files.generation }
    ensures files { OnOk result (pair.new.files ≡ pair.old.files) }
    ensures fits { OnOk result (IsTrue F.tells.folder → Fits pair.new (F.scene host.new).folder) }
    ensures there { OnOk result (IsTrue F.tells.folder → HasText pair.new (F.scene host.new).folder) }
{
    let mut store = PairPages { pair, host };
    store.touch(alloc, 2, 1, page)?;
    store.commit();
    Ok(())
}

// Syncs this as page 2, and says whether that succeeded.
pub(crate) fn sync_page<F: Folder>(
    alloc: Global,
    pair: &mut SwapPair,
    host: &mut F,
    page: &[u8],
) -> Result<bool, Fail>
    requires size { length page.now ≡ 4096 }
    requires fits { IsTrue F.tells.folder → Fits pair.old (F.scene host.old).folder }
    requires there { IsTrue F.tells.folder → HasText pair.old (F.scene host.old).folder }
    requires started { 2 ≤ pair.old.files.generation }
    requires room { pair.old.files.generation < 2 ^ 63 }
    ensures fits { OnOk result (IsTrue F.tells.folder → Fits pair.new (F.scene host.new).folder) }
    ensures there { OnOk result (IsTrue F.tells.folder → HasText pair.new (F.scene host.new).folder) }
    ensures generation { OnOk result (pair.new.files.generation ≡ pair.old.files.generation + 1) }
{
    put_page(alloc, pair, host, page)?;
    let head = Head {
        dirty: true,
        empty: false,
        format: 1,
    };
    match pair.sync(host, &head) {
        Ok(()) => Ok(true),
        Err(_) => Ok(false),
    }
}

/// Starts a pair with the text 1, syncs the texts 2 and 3, and ends it.
pub(crate) fn live<F: Folder>(alloc: Global, host: &mut F) -> Result<Life, Fail>
    requires fresh { IsTrue F.tells.folder → IsFresh (names_of_file (codes "f")) (F.scene host.old).folder }
{
    let Some(mut pair) = start_text(alloc, host, 1)? else {
        return Ok(Life {
            started: false,
            synced: [false; 2],
            ended: false,
        });
    };
    let first = sync_page(alloc, &mut pair, host, &[2; PAGE_SIZE])?;
    let second = sync_page(alloc, &mut pair, host, &[3; PAGE_SIZE])?;
    let ended = pair.end(host).is_ok();
    Ok(Life {
        started: true,
        synced: [first, second],
        ended,
    })
}

// Makes the text without lines the text of pages that are in memory.
fn put_tree(alloc: Global, pages: &mut MemPages) -> Result<(), Fail>
    requires present { present_of pages.old ≡ first_pages }
    ensures here { OnOk result (AreBacked no_pages pages.old → AreBacked no_pages pages.new) }
{
    LineTree::new(alloc, pages)?;
    Ok(())
}

/// Starts a pair of the text without lines in the format of this number, and says whether that succeeded.
pub(crate) fn start_empty<F: Folder>(alloc: Global, host: &mut F, format: u8) -> Result<bool, Fail>
    requires known { IsFormatNumber format }
    requires fresh { IsTrue F.tells.folder → IsFresh (names_of_file (codes "f")) (F.scene host.old).folder }
{
    let mut pair = SwapPair::new(alloc, NAME)?;
    put_tree(alloc, &mut pair.pages)?;
    let head = Head {
        dirty: false,
        empty: true,
        format,
    };
    Ok(pair.start(host, &head).is_ok())
}
