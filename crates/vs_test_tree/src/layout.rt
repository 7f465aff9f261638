// The tree over pages in memory: how many pages lines take, and when the root grows.
ghost use Rattle.std.specs.Prelude.{◌≡◌, false, OnOk};

use std::alloc::Global;
use std::test::Fail;
use vs_edit::{LineStore, StoreErr, allows_splice};
use vs_pages::failing::FailingPages;
use vs_pages::{MemPages, PageErr, Pages};
use vs_text::Line;
use vs_tree::{LineTree, TreeStore};
use vs_tree_blocks::{load_data, load_entries};
use vs_tree_shape::{Entry, count_lines};

// Puts a line of `size` bytes after the last one, where all that a splice asks for holds.
fn push_line<S: LineStore>(alloc: Global, store: &mut S, size: u64) -> Result<bool, StoreErr>
    requires { S.valid store.old }
    ensures { OnOk result (S.valid store.new) }
{
    let len = store.len();
    let new = [Line::from_vec(vec![in alloc; b'x'; size as usize]?)];
    if !allows_splice(store, len, 0, &new) {
        return Ok(false);
    }
    store.splice(alloc, len, 0, &new)?;
    Ok(true)
}

pub(crate) fn push_lines<S: LineStore>(
    alloc: Global,
    store: &mut S,
    count: u64,
    size: u64,
) -> Result<bool, StoreErr>
    requires { S.valid store.old }
    ensures { OnOk result (S.valid store.new) }
{
    for _ in 0..count {
        if !push_line(alloc, store, size)? {
            return Ok(false);
        }
    }
    Ok(true)
}

#[test]
fn lines_take_the_pages_that_the_layout_says(rt: HostRuntime) -> Result<(), Fail> {
    let alloc = rt.alloc();
    for (size, count) in [(4_067, 3), (4_068, 4), (1_048_576, 259)] {
        let mut memory = MemPages::new(alloc)?;
        let mut tree = LineTree::new(alloc, &mut memory)?;
        let mut store = TreeStore {
            tree: &mut tree,
            pages: memory,
        };
        assert!(rt; push_line(alloc, &mut store, size)?);
        assert!(rt; store.pages.count() == count, "{size} bytes");
        assert!(rt; store.len() == 1);
        let mut line = Vec::new(alloc);
        if store.len() == 1 {
            store.line(alloc, 0, &mut line)?;
        }
        assert!(rt; line.len() as u64 == size);
    }
    Ok(())
}

// The entry that would lead to block 1.
fn root_entry(lines: u64) -> Entry
    ensures { result.pages ≡ 1 }
{
    Entry {
        block: 1,
        pages: 1,
        lines,
    }
}

// The number of data blocks of one page with one line each below the pointer blocks that the root leads to.
fn count_single_lines<P: Pages>(
    alloc: Global,
    pages: &mut P,
    root: &[Entry],
) -> Result<u64, PageErr>
    requires told { P.tells ≡ false }
    requires valid { P.valid pages.old }
    ensures { P.valid pages.new }
{
    let mut count = 0u64;
    let mut bytes = Vec::new(alloc);
    for above in root {
        for entry in load_entries(alloc, pages, *above)? {
            let view = load_data(alloc, pages, entry, &mut bytes)?;
            if entry.pages == 1 && entry.lines == 1 && view.count == 1 {
                count = count.saturating_add(1);
            }
        }
    }
    Ok(count)
}

// Pages that do not tell what they hold may be asked for any block.
#[test]
fn the_root_grows_after_127_blocks(rt: HostRuntime) -> Result<(), Fail> {
    let alloc = rt.alloc();
    let mut pages = FailingPages::<false>::new(MemPages::new(alloc)?);
    let mut tree = LineTree::new(alloc, &mut pages)?;
    let mut store = TreeStore {
        tree: &mut tree,
        pages,
    };
    assert!(rt; push_lines(alloc, &mut store, 127, 4_067)?);
    assert!(rt; store.tree.present.height == 1);
    assert!(rt; store.pages.count() == 2 + 127);
    let top = root_entry(store.len());
    assert!(rt; load_entries(alloc, &mut store.pages, top)?.len() == 127);

    assert!(rt; push_line(alloc, &mut store, 4_067)?);
    assert!(rt; store.tree.present.height == 2);
    assert!(rt; store.pages.count() == 2 + 2 + 128);
    let top = root_entry(store.len());
    let root = load_entries(alloc, &mut store.pages, top)?;
    assert!(rt; count_lines(&root) == Some(128));
    assert!(rt; count_single_lines(alloc, &mut store.pages, &root)? == 128);

    store.rollback();
    assert!(rt; store.len() == 0);
    assert!(rt; store.pages.count() == 3);
    Ok(())
}
