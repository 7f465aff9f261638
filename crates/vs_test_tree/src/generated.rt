// A tree over pages in memory beside a plain list of lines: after the same splices, commits and rollbacks they have the same
// text.
use crate::splices::{Numbers, file_of};
use std::alloc::Global;
use std::process::Abort;
use std::test::Fail;
use vs_edit::{LineStore, StoreErr, VecStore};
use vs_pages::MemPages;
use vs_tree::{LineTree, TreeStore};

// One call on both.
fn play<S: LineStore, T: LineStore>(
    rt: &impl Abort,
    alloc: Global,
    tree: &mut S,
    plain: &mut T,
    numbers: &mut Numbers,
) -> Result<(), StoreErr>
    requires tree { S.valid tree.old }
    requires plain { T.valid plain.old }
    ensures tree { S.valid tree.new }
    ensures plain { T.valid plain.new }
{
    match numbers.below(16) {
        0 => {
            tree.commit();
            plain.commit();
        }
        1 => {
            tree.rollback();
            plain.rollback();
        }
        _ => {
            let splice = numbers.splice(alloc, plain.len())?;
            assert!(rt; splice.apply(alloc, tree)?);
            assert!(rt; splice.apply(alloc, plain)?);
        }
    }
    Ok(())
}

fn assert_same<S: LineStore, T: LineStore>(
    rt: &impl Abort,
    alloc: Global,
    tree: &mut S,
    plain: &mut T,
) -> Result<(), StoreErr>
    requires tree { S.valid tree.old }
    requires plain { T.valid plain.old }
    ensures tree { S.valid tree.new }
    ensures plain { T.valid plain.new }
{
    assert!(rt; tree.len() == plain.len());
    assert!(rt; tree.bytes() == plain.bytes());
    let want = file_of(alloc, plain)?;
    // The texts are too long to be shown.
    let same = file_of(alloc, tree)?.as_slice() == want.as_slice();
    assert!(rt; same);
    Ok(())
}

// Plays this number of calls and compares at intervals, and gives how often memory was refused. Both are rolled back then.
fn play_all<S: LineStore, T: LineStore>(
    rt: &impl Abort,
    alloc: Global,
    tree: &mut S,
    plain: &mut T,
    calls: u64,
) -> u64
    requires tree { S.valid tree.old }
    requires plain { T.valid plain.old }
    ensures tree { S.valid tree.new }
    ensures plain { T.valid plain.new }
{
    let mut numbers = Numbers(1);
    let mut refused = 0u64;
    for call in 0..calls {
        if play(rt, alloc, tree, plain, &mut numbers).is_err() {
            tree.rollback();
            plain.rollback();
            refused = refused.saturating_add(1);
        }
        assert!(rt; tree.len() == plain.len(), "call {call}");
        assert!(rt; tree.bytes() == plain.bytes(), "call {call}");
        if call % 50 == 0 && assert_same(rt, alloc, tree, plain).is_err() {
            refused = refused.saturating_add(1);
        }
    }
    refused
}

// Where the run is asked to refuse one allocation, the calls before and after it still give the same texts.
#[test]
fn follows_a_plain_text(rt: HostRuntime) -> Result<(), Fail> {
    let alloc = rt.alloc();
    let mut memory = MemPages::new(alloc)?;
    let mut tree = LineTree::new(alloc, &mut memory)?;
    let mut store = TreeStore {
        tree: &mut tree,
        pages: memory,
    };
    let mut plain = VecStore::new(alloc)?;
    let refused = play_all(&rt, alloc, &mut store, &mut plain, 3_000);
    assert!(rt; refused <= 1);
    store.rollback();
    plain.rollback();
    let compared = assert_same(&rt, alloc, &mut store, &mut plain).is_ok()
        || assert_same(&rt, alloc, &mut store, &mut plain).is_ok();
    assert!(rt; compared);
    Ok(())
}
