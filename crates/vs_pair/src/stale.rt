// Which page numbers a sync writes: those in which the file may differ from the committed pages.
ghost use Rattle.std.specs.Prelude.{◌≡◌, ◌+◌, ◌<◌, ◌≤◌, ℕ, max, true, false};
ghost use Rattle.vs_pages.specs.Memory.{commits_of};
ghost use Rattle.vs_pair.specs.Stale.{is_stale};

use crate::written::Written;
use vs_pages::MemPages;

// How many pages one write has at most, so that a sync of a large text makes few calls, and their bytes.
const RUN_PAGES: u64 = 16;

fn is_stale(pages: &MemPages, written: &Written, at: u64) -> bool
    ensures { result ≡ is_stale (commits_of pages.now) written.now at }
{
    pages.last_commit(at) >= written.commits || at >= written.end
}

// The first stale number from this one on, or the end where none is below it.
pub(crate) fn next_stale(pages: &MemPages, written: &Written, from: u64, end: u64) -> u64
    ensures later { from ≤ result }
    ensures within { result ≤ max from end }
    ensures passed { (k : ℕ) → from ≤ k → k < result → is_stale (commits_of pages.now) written.now k ≡ false }
    ensures stale { result < end → is_stale (commits_of pages.now) written.now result ≡ true }
{
    let mut at = from;
    'numbers: while at < end && !is_stale(pages, written, at) {
        at += 1;
    }
    at
}

// How many stale numbers follow one another from this one on, below the end, as far as one write goes.
pub(crate) fn stale_run(pages: &MemPages, written: &Written, at: u64, end: u64) -> u64
    requires below { at < end }
    requires stale { is_stale (commits_of pages.now) written.now at ≡ true }
    ensures some { 1 ≤ result }
    ensures most { result ≤ 16 }
    ensures within { at + result ≤ end }
    ensures stale { (k : ℕ) → k < result → is_stale (commits_of pages.now) written.now (at + k) ≡ true }
    ensures longest { result < 16 → at + result < end → is_stale (commits_of pages.now) written.now (at + result) ≡ false }
{
    let most = RUN_PAGES.min(end - at);
    let mut count = 1;
    'numbers: while count < most && is_stale(pages, written, at + count) {
        count += 1;
    }
    count
}
