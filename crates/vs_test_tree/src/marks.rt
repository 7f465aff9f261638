// What a store of pages notes of its commits, and the way back to a mark.
use crate::stores::{fill_page, lent_end};
use std::alloc::Global;
use std::test::Fail;
use vs_pages::{MemPages, PageErr, Pages};

// The commits that last changed the first pages.
fn last_commits(store: &MemPages) -> [u64; 5] {
    [
        store.last_commit(0),
        store.last_commit(1),
        store.last_commit(2),
        store.last_commit(3),
        store.last_commit(4),
    ]
}

// Each commit is noted for what changed since the one before, and for nothing else.
#[test]
fn notes_what_a_commit_changed(rt: HostRuntime) -> Result<(), Fail> {
    let alloc = rt.alloc();
    let mut store = MemPages::new(alloc)?;
    fill_page(&mut store, alloc, 1, 9)?;
    store.commit();
    assert!(rt; last_commits(&store) == [1, 2, 1, 0, 0]);
    store.grow(alloc, 2)?;
    fill_page(&mut store, alloc, 2, 8)?;
    store.rollback();
    store.commit();
    assert!(rt; last_commits(&store) == [1, 2, 1, 0, 0]);
    store.grow(alloc, 1)?;
    fill_page(&mut store, alloc, 1, 8)?;
    store.commit();
    assert!(rt; last_commits(&store) == [1, 4, 1, 4, 0]);
    if store.has(3, 1) {
        store.free(alloc, 3, 1)?;
    }
    store.commit();
    assert!(rt; last_commits(&store) == [1, 4, 1, 5, 0]);
    assert!(rt; store.commits() == 6);
    Ok(())
}

// Grows a page and changes one in each way.
fn change_all(store: &mut MemPages, alloc: Global) -> Result<(), PageErr> {
    store.grow(alloc, 1)?;
    fill_page(store, alloc, 1, 7)?;
    if store.has(1, 1) {
        store.patch(alloc, 1, 4093, &[1, 2, 3])?;
    }
    if store.has(2, 1) {
        store.free(alloc, 2, 1)?;
    }
    Ok(())
}

// What came after a mark is taken back, and what was before it is there.
#[test]
fn goes_back_to_a_mark(rt: HostRuntime) -> Result<(), Fail> {
    let alloc = rt.alloc();
    let mut store = MemPages::new(alloc)?;
    fill_page(&mut store, alloc, 1, 6)?;
    let mark = store.mark();
    for _ in 0..2 {
        change_all(&mut store, alloc)?;
        assert!(rt; lent_end(&store, 1) == Some([1, 2, 3]));
        assert!(rt; lent_end(&store, 2).is_none());
        if mark <= store.mark() {
            store.back(mark);
        }
        assert!(rt; store.mark() == 1 && store.count() == 3);
        assert!(rt; lent_end(&store, 1) == Some([6; 3]));
        assert!(rt; lent_end(&store, 2) == Some([0; 3]));
    }
    store.rollback();
    assert!(rt; store.mark() == 0);
    assert!(rt; lent_end(&store, 1) == Some([0; 3]));
    Ok(())
}
