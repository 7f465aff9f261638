// A row of splices over pages of which each call fails in turn.
use crate::splices::{Numbers, file_of};
use std::alloc::Global;
use std::process::Abort;
use std::test::Fail;
use vs_edit::{LineStore, StoreErr};
use vs_pages::MemPages;
use vs_pages::failing::FailingPages;
use vs_tree::{LineTree, TreeStore};

// Some splices and then a look at the whole text. With the same first number they are the same.
fn play<S: LineStore>(
    rt: &impl Abort,
    alloc: Global,
    store: &mut S,
    first: u64,
) -> Result<(), StoreErr>
    requires { S.valid store.old }
    ensures { S.valid store.new }
{
    let mut numbers = Numbers(first);
    for _ in 0..6 {
        let splice = numbers.splice(alloc, store.len())?;
        assert!(rt; splice.apply(alloc, store)?);
    }
    file_of(alloc, store)?;
    Ok(())
}

// Fails one call of a row over a committed text, and says whether the row had that many calls.
fn fail_once(rt: &impl Abort, alloc: Global, call: u64) -> Result<bool, Fail> {
    let memory = MemPages::new(alloc)?;
    let mut pages = FailingPages::<true>::new(memory);
    let mut tree = LineTree::new(alloc, &mut pages)?;
    let mut store = TreeStore {
        tree: &mut tree,
        pages,
    };
    play(rt, alloc, &mut store, 1)?;
    store.commit();
    let committed = file_of(alloc, &mut store)?;

    store.pages.fail_call = call;
    let answer = play(rt, alloc, &mut store, 2);
    let failed = answer == Err(StoreErr::Failed);
    assert!(rt; failed || answer.is_ok(), "call {call}");
    assert!(rt; store.pages.faults == u64::from(failed), "call {call}");

    store.pages.fail_call = 0;
    store.rollback();
    let same = file_of(alloc, &mut store)?.as_slice() == committed.as_slice();
    assert!(rt; same, "call {call}");
    Ok(failed)
}

#[test]
fn goes_back_from_each_call_that_fails(rt: HostRuntime) -> Result<(), Fail> {
    let mut calls = 0u64;
    for call in 1..5_000 {
        if !fail_once(&rt, rt.alloc(), call)? {
            break;
        }
        calls = call;
    }
    assert!(rt; 100 < calls && calls < 4_999, "{calls} calls");
    Ok(())
}
