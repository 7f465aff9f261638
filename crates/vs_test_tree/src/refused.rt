// A splice each call of which fails in turn, over pages that tell nothing: lines and pages stay, and the splice then succeeds.
use crate::layout::push_lines;
use crate::splices::file_of;
use std::alloc::Global;
use std::process::Abort;
use std::test::Fail;
use vs_edit::{LineStore, StoreErr, allows_splice};
use vs_pages::failing::FailingPages;
use vs_pages::{MemPages, Pages};
use vs_text::Line;
use vs_tree::{LineTree, TreeStore};

// All pages, one after another; a byte stands for each number that has none.
fn pages_of(alloc: Global, pages: &MemPages) -> Result<Vec<u8>, Fail> {
    let mut bytes = Vec::new(alloc);
    for at in 0..200 {
        match pages.page(at) {
            Some(page) => bytes.extend_from_slice(page)?,
            None => bytes.push(b'-')?,
        }
    }
    Ok(bytes)
}

// 128 lines of 4,067 bytes in file form, of which one may have another byte.
fn file_with(alloc: Global, changed: Option<usize>) -> Result<Vec<u8>, Fail> {
    let mut bytes = Vec::new(alloc);
    for line in 0..128usize {
        let byte = if changed == Some(line) { b'y' } else { b'x' };
        bytes.resize(line * 4_068 + 4_067, byte)?;
        bytes.push(b'\n')?;
    }
    Ok(bytes)
}

// Puts a line of so many bytes in the place of line 64, counted from 0.
fn splice_one<S: LineStore>(
    rt: &impl Abort,
    alloc: Global,
    store: &mut S,
    size: usize,
) -> Result<(), StoreErr>
    requires { S.valid store.old }
    ensures { S.valid store.new }
{
    let new = [Line::from_vec(vec![in alloc; b'y'; size]?)];
    assert!(rt; allows_splice(store, 64, 1, &new));
    store.splice(alloc, 64, 1, &new)
}

// Whether the splice has this call. Where that fails, all is as before, and the splice then succeeds.
fn fails_once(rt: &impl Abort, alloc: Global, call: u64) -> Result<bool, Fail> {
    let mut pages = FailingPages::<false>::new(MemPages::new(alloc)?);
    let mut tree = LineTree::new(alloc, &mut pages)?;
    let mut store = TreeStore {
        tree: &mut tree,
        pages,
    };
    assert!(rt; push_lines(alloc, &mut store, 128, 4_067)?);
    let before = pages_of(alloc, &store.pages.pages)?;

    store.pages.fail_call = call;
    let answer = splice_one(rt, alloc, &mut store, 4_067);
    store.pages.fail_call = 0;
    if answer.is_ok() {
        return Ok(false);
    }
    assert!(rt; answer == Err(StoreErr::Failed), "call {call}");
    let after = pages_of(alloc, &store.pages.pages)?;
    assert!(rt; after.as_slice() == before.as_slice(), "call {call}");
    let file = file_of(alloc, &mut store)?;
    assert!(rt;
        file.as_slice() == file_with(alloc, None)?.as_slice(),
        "call {call}"
    );
    splice_one(rt, alloc, &mut store, 4_067)?;
    let file = file_of(alloc, &mut store)?;
    assert!(rt;
        file.as_slice() == file_with(alloc, Some(64))?.as_slice(),
        "call {call}"
    );
    Ok(true)
}

#[test]
fn a_refused_splice_changes_nothing(rt: HostRuntime) -> Result<(), Fail> {
    let alloc = rt.alloc();
    let mut failed = 0;
    for call in 1..100 {
        if !fails_once(&rt, alloc, call)? {
            break;
        }
        failed = call;
    }
    assert!(rt; 3 <= failed && failed < 99, "{failed} calls");
    Ok(())
}
