// A load, carried out.
ghost use Rattle.std.specs.Prelude.{◌≡◌, ◌≤◌, ◌+◌, ◌*◌, ◌%◌, ◌^◌, ℕ, List, IfOk, OnOk, IsTrue, sum};
ghost use Rattle.vs_edit.specs.Splices.{splice};
ghost use Rattle.vs_tree.specs.Texts.{HasText, Fits};
ghost use Rattle.vs_load.specs.Loads.{samples, lines_after, counts_of};

use crate::error::LoadErr;
use crate::words::Load;
use std::alloc::{AllocError, Global};
use std::fmt;
use vs_edit::{LineStore, allows_splice};
use vs_pages::{MemPages, PageErr, Pages};
use vs_text::Line;
use vs_tree::{LineTree, TreeStore};

// The number of bytes of a line, which are 40 with its end.
const LINE_BYTES: usize = 39;

// The number of lines that a file is loaded by.
const FILL_LINES: u64 = 10_000;

// The number of lines that are read at once.
const READ_LINES: u64 = 1_000;

/// What there is at the end of a load, the sum of all bytes that were read, with line ends, and the number of pages.
#[derive(Clone, Copy, Debug, PartialEq, Eq)]
pub struct Counts {
    pub lines: u64,
    pub bytes: u64,
    pub sum: u64,
    pub pages: u64,
}

impl fmt::Display for Counts {
    fn fmt<W: fmt::Write>(&self, f: &mut fmt::Formatter<W>) -> fmt::Result {
        write!(
            f,
            "{} lines, {} bytes, sum {}, {} pages",
            self.lines, self.bytes, self.sum, self.pages
        )
    }
}

fn sample_lines(alloc: Global, count: usize) -> Result<Vec<Line>, AllocError>
    ensures { IfOk result (λ lines. lines.items ≡ samples count) }
{
    let mut lines = Vec::with_capacity(alloc, count)?;
    for _ in 0..count {
        let bytes = vec![in alloc; b'x'; LINE_BYTES]?;
        lines.push(Line::from_vec(bytes))?;
    }
    Ok(lines)
}

/// Puts lines in place of `old` lines from a place on, and commits.
pub fn put<S: LineStore>(
    alloc: Global,
    store: &mut S,
    at: u64,
    old: u64,
    lines: &[Line],
) -> Result<(), LoadErr>
    requires { S.valid store.old }
    ensures within { OnOk result (at + old ≤ (S.shows store.old).present.lines) }
    ensures text { OnOk result ((text : List (List ℕ)) → (S.shows store.old).present.Is text →
        (S.shows store.new).present.Is (splice text at old lines.now)) }
    ensures valid { S.valid store.new }
{
    if !allows_splice(store, at, old, lines) {
        return Err(LoadErr::TooLarge);
    }
    store.splice(alloc, at, old, lines)?;
    store.commit();
    Ok(())
}

/// Puts lines after the last one, as many at a time as a file is loaded by.
pub fn fill<S: LineStore>(alloc: Global, store: &mut S, count: u64) -> Result<(), LoadErr>
    requires { S.valid store.old }
    ensures text { OnOk result ((n : ℕ) → (S.shows store.old).present.Is (samples n) → (S.shows store.new).present.Is (samples (n + count))) }
    ensures valid { S.valid store.new }
{
    let lines = sample_lines(alloc, FILL_LINES as usize)?;
    let mut done = 0;
    while done < count {
        let run = (count - done).min(FILL_LINES);
        let end = store.len();
        put(alloc, store, end, 0, &lines[..run as usize])?;
        done += run;
    }
    Ok(())
}

// Puts runs of so many lines into the middle.
fn append<S: LineStore>(alloc: Global, store: &mut S, runs: u64, size: u64) -> Result<(), LoadErr>
    requires { S.valid store.old }
    ensures text { OnOk result ((n : ℕ) → (S.shows store.old).present.Is (samples n) → (S.shows store.new).present.Is (samples (n + runs * size))) }
    ensures valid { S.valid store.new }
{
    let lines = sample_lines(alloc, size as usize)?;
    for _ in 0..runs {
        let middle = store.len() / 2;
        put(alloc, store, middle, 0, &lines)?;
    }
    Ok(())
}

// Puts lines after the last one, all at once.
fn fill_once<S: LineStore>(alloc: Global, store: &mut S, count: u64) -> Result<(), LoadErr>
    requires { S.valid store.old }
    ensures text { OnOk result ((n : ℕ) → (S.shows store.old).present.Is (samples n) → (S.shows store.new).present.Is (samples (n + count))) }
    ensures valid { S.valid store.new }
{
    let lines = sample_lines(alloc, count as usize)?;
    let end = store.len();
    put(alloc, store, end, 0, &lines)
}

// Puts lines in place of others, spread over the text.
fn replace<S: LineStore>(alloc: Global, store: &mut S, count: u64) -> Result<(), LoadErr>
    requires { S.valid store.old }
    ensures text { OnOk result ((n : ℕ) → (S.shows store.old).present.Is (samples n) → (S.shows store.new).present.Is (samples n)) }
    ensures valid { S.valid store.new }
{
    let line = sample_lines(alloc, 1)?;
    let step = store.len() / count.max(1);
    for number in 0..count {
        let at = step.saturating_mul(number);
        put(alloc, store, at, 1, &line)?;
    }
    Ok(())
}

fn sum_of(bytes: &[u8]) -> u64
    ensures { result ≡ sum bytes.now % 2 ^ 64 }
{
    let mut sum: u64 = 0;
    for byte in bytes {
        sum = sum.wrapping_add(u64::from(*byte));
    }
    sum
}

// Reads all lines, some at a time, and gives the sum of their bytes and line ends.
fn read<P: Pages>(alloc: Global, tree: &mut LineTree, pages: &mut P) -> Result<u64, PageErr>
    requires valid { P.valid pages.old }
    requires fits { Fits P.tells (P.shows pages.old).present tree.old.present }
    ensures { IfOk result (λ sum. IsTrue P.tells → (n : ℕ) → HasText (P.shows pages.old).present tree.old.present (samples n) → sum ≡ 4690 * n) }
{
    let mut sum: u64 = 0;
    let mut run = Vec::new(alloc);
    let mut done = 0;
    while done < tree.len() {
        let count = (tree.len() - done).min(READ_LINES);
        run.clear();
        tree.copy_lines(alloc, pages, done, count, &mut run)?;
        sum = sum.wrapping_add(sum_of(&run));
        done += count;
    }
    Ok(sum)
}

// Puts the lines of a load into a store.
fn put_all<S: LineStore>(alloc: Global, store: &mut S, load: Load) -> Result<(), LoadErr>
    requires { S.valid store.old }
    ensures text { OnOk result ((n : ℕ) → (S.shows store.old).present.Is (samples n) → (S.shows store.new).present.Is (samples (n + lines_after load))) }
    ensures valid { S.valid store.new }
{
    match load {
        Load::Fill(lines) => fill(alloc, store, lines),
        Load::Once(lines) => fill_once(alloc, store, lines),
        Load::Lines(lines) => {
            sample_lines(alloc, lines as usize)?;
            Ok(())
        }
        Load::Append(lines, more, size) => {
            fill(alloc, store, lines)?;
            append(alloc, store, more, size)
        }
        Load::Replace(lines, count) => {
            fill(alloc, store, lines)?;
            replace(alloc, store, count)
        }
    }
}

/// Carries a load out over a tree of its own.
pub fn run(alloc: Global, load: Load) -> Result<Counts, LoadErr>
    ensures { IfOk result (λ counts. counts ≡ counts_of (lines_after load) counts.pages) }
{
    let mut memory = MemPages::new(alloc)?;
    let mut tree = LineTree::new(alloc, &mut memory)?;
    let mut store = TreeStore {
        tree: &mut tree,
        pages: memory,
    };
    put_all(alloc, &mut store, load)?;
    let lines = store.len();
    let bytes = store.bytes();
    let TreeStore { tree, mut pages } = store;
    let sum = read(alloc, tree, &mut pages)?;
    let pages = pages.count();
    Ok(Counts {
        lines,
        bytes,
        sum,
        pages,
    })
}
