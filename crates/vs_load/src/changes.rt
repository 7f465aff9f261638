// Changes of one line at places of chance.
ghost use Rattle.std.specs.Prelude.{◌≤◌, ◌<◌, IfOk, length};
ghost use Rattle.vs_load.specs.Changes.{HoldTree};

use crate::counting::CountingPages;
use crate::error::LoadErr;
use crate::load::{fill, put};
use crate::worked::MOST_WORKED;
use rand_core::Rng;
use rand_pcg::Pcg32;
use std::alloc::{AllocError, Global};
use std::fmt;
use vs_edit::LineStore;
use vs_pages::{MemPages, Pages};
use vs_text::{Line, MAX_LINES};
use vs_tree::{LineTree, TreeStore};

// The greatest number of bytes of a line that fits into a page.
const PAGE_LINE_BYTES: u64 = 4_067;

// The number of bytes of every second line.
const SHORT_LINE_BYTES: u64 = 39;

// Where the row of numbers of chance begins.
const SEED: u64 = 42;

// Which row it is.
const STREAM: u64 = 54;

/// What there is after the changes, how many levels the tree has, and the greatest number of different pages that one of them worked.
#[derive(Clone, Copy, Debug, PartialEq, Eq)]
pub struct Found {
    pub lines: u64,
    pub bytes: u64,
    pub pages: u64,
    pub height: u64,
    pub worked: u64,
}

impl fmt::Display for Found {
    fn fmt<W: fmt::Write>(&self, f: &mut fmt::Formatter<W>) -> fmt::Result {
        write!(
            f,
            "{} lines, {} bytes, {} pages, height {}, at most {} pages worked by a change",
            self.lines, self.bytes, self.pages, self.height, self.worked
        )
    }
}

// A number below this one.
fn below(numbers: &mut Pcg32, n: u64) -> u64
    requires { 0 < n }
    ensures { result < n }
{
    u64::from(numbers.next_u32()) % n
}

// The number of bytes of a line for which a page has room.
fn some_size(numbers: &mut Pcg32) -> u64
    ensures { result ≤ PAGE_LINE_BYTES }
{
    if below(numbers, 2) == 0 {
        return SHORT_LINE_BYTES;
    }
    below(numbers, PAGE_LINE_BYTES + 1)
}

fn some_line(alloc: Global, numbers: &mut Pcg32) -> Result<Line, AllocError>
    ensures { IfOk result (λ line. length line ≤ PAGE_LINE_BYTES) }
{
    let size = some_size(numbers) as usize;
    let bytes = vec![in alloc; b'x'; size]?;
    Ok(Line::from_vec(bytes))
}

/// What a change does with the line at a place.
#[derive(Clone, Copy, Debug, PartialEq, Eq)]
enum Kind {
    PutIn,
    Exchange,
    TakeOut,
}

// Only in a text that is not full a line is put in.
fn some_kind(numbers: &mut Pcg32, lines: u64) -> Kind {
    match below(numbers, 3) {
        0 if lines < MAX_LINES => Kind::PutIn,
        1 => Kind::Exchange,
        _ => Kind::TakeOut,
    }
}

// Makes a change of one line at a place of chance, and commits.
fn change_line<S: LineStore>(
    alloc: Global,
    store: &mut S,
    numbers: &mut Pcg32,
) -> Result<(), LoadErr>
    requires { S.valid store.old }
    ensures { S.valid store.new }
{
    let lines = store.len();
    let at = below(numbers, lines.saturating_add(1));
    let there = (lines - at).min(1);
    let new = [some_line(alloc, numbers)?];
    match some_kind(numbers, lines) {
        Kind::PutIn => put(alloc, store, at, 0, &new),
        Kind::Exchange => put(alloc, store, at, there, &new),
        Kind::TakeOut => put(alloc, store, at, there, &[]),
    }
}

// Makes so many changes, and gives the greatest number of different pages that one of them worked.
fn change_lines(
    alloc: Global,
    store: &mut TreeStore<'_, CountingPages>,
    changes: u64,
) -> Result<u64, LoadErr>
    requires { HoldTree store.old.pages.pages store.old.tree.now }
    ensures most { IfOk result (λ worked. worked ≤ MOST_WORKED) }
    ensures valid { HoldTree store.new.pages.pages store.new.tree.now }
{
    let mut numbers = Pcg32::new(SEED, STREAM);
    let mut worked = 0;
    for _ in 0..changes {
        change_line(alloc, store, &mut numbers)?;
        worked = worked.max(store.pages.worked.before());
    }
    Ok(worked)
}

/// Makes so many changes of one line each in a text of so many lines, over a tree of its own.
pub fn change(alloc: Global, lines: u64, changes: u64) -> Result<Found, LoadErr>
    ensures { IfOk result (λ found. found.worked ≤ MOST_WORKED) }
{
    let mut memory = MemPages::new(alloc)?;
    let mut tree = LineTree::new(alloc, &mut memory)?;
    let mut store = TreeStore {
        tree: &mut tree,
        pages: CountingPages::new(memory),
    };
    fill(alloc, &mut store, lines)?;
    let worked = change_lines(alloc, &mut store, changes)?;
    Ok(Found {
        lines: store.len(),
        bytes: store.bytes(),
        pages: store.pages.count(),
        height: store.tree.present.height,
        worked,
    })
}
