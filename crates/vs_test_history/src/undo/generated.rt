// Some thousand generated changes, moves, writes and settings of how many changes are kept, beside a tree that keeps the whole text of
// each state.
ghost use Rattle.vs_undo.specs.Moves.{IsReady};

use super::plain::Plain;
use super::{Editor, Step, begin, file_of, take};
use std::alloc::Global;
use std::process::Abort;
use std::test::Fail;
use vs_edit::{LineStore, VecStore};
use vs_pages::MemPages;
use vs_test_stores::Numbers;
use vs_tree::{LineTree, TreeStore};

// A step on a text with this number of lines, after this number of changes.
fn next_step(numbers: &mut Numbers, lines: u64, last: u64) -> Step {
    match numbers.below(15) {
        0 => Step::Undo,
        1 => Step::Redo,
        2 | 3 => Step::Goto(last.saturating_add(1).saturating_sub(numbers.below(60))),
        4 => Step::Earlier(numbers.below(4).max(1)),
        5 => Step::Later(numbers.below(4).max(1)),
        6 => Step::EarlierWrites(numbers.below(3).max(1)),
        7 => Step::LaterWrites(numbers.below(3).max(1)),
        8 | 9 => Step::Write,
        10 => Step::Levels(numbers.below(150).max(1)),
        _ => {
            let top = numbers.below(lines.saturating_add(1).max(1));
            let old = numbers.below(lines.saturating_sub(top).min(4) + 1);
            let count = numbers.below(if lines > 12 { 2 } else { 4 });
            Step::Change(top, old, count, numbers.below(256) as u8)
        }
    }
}

fn play<S: LineStore>(
    rt: &impl Abort,
    alloc: Global,
    editor: &mut Editor<S>,
    plain: &mut Plain,
    numbers: &mut Numbers,
) -> Result<(), Fail>
    requires { IsReady S.LineStore editor.old.tree editor.old.text }
    ensures { IsReady S.LineStore editor.new.tree editor.new.text }
{
    let lines = plain.file(alloc)?.len() as u64 / 2;
    let step = next_step(numbers, lines, plain.last());
    let wanted = plain.take(alloc, step);
    assert!(rt; take(alloc, editor, step) == wanted, "{step:?}");
    assert!(rt; editor.tree.current() == plain.current, "{step:?}");
    assert!(rt;
        file_of(alloc, editor)?.as_slice() == plain.file(alloc)?.as_slice(),
        "{step:?}"
    );
    Ok(())
}

fn play_all<S: LineStore>(
    rt: &impl Abort,
    alloc: Global,
    editor: &mut Editor<S>,
    plain: &mut Plain,
) -> Result<(), Fail>
    requires { IsReady S.LineStore editor.old.tree editor.old.text }
    ensures { IsReady S.LineStore editor.new.tree editor.new.text }
{
    let mut numbers = Numbers::new(1);
    for _ in 0..3_000 {
        play(rt, alloc, editor, plain, &mut numbers)?;
    }
    Ok(())
}

fn follow<S: LineStore + Drop>(rt: &impl Abort, alloc: Global, text: S) -> Result<(), Fail>
    requires { S.valid text }
{
    let mut editor = begin(alloc, text)?;
    let mut plain = Plain::new(alloc)?;
    play_all(rt, alloc, &mut editor, &mut plain)?;
    let leaves = editor.tree.leaves(alloc)?;
    assert!(rt; leaves.as_slice() == plain.leaves(alloc)?.as_slice());
    Ok(())
}

#[test]
fn follows_a_tree_of_whole_texts_in_memory(rt: HostRuntime) -> Result<(), Fail> {
    let alloc = rt.alloc();
    follow(&rt, alloc, VecStore::new(alloc)?)
}

#[test]
fn follows_a_tree_of_whole_texts_in_a_line_tree(rt: HostRuntime) -> Result<(), Fail> {
    let alloc = rt.alloc();
    let mut pages = MemPages::new(alloc)?;
    let mut tree = LineTree::new(alloc, &mut pages)?;
    follow(
        &rt,
        alloc,
        TreeStore {
            tree: &mut tree,
            pages,
        },
    )
}
