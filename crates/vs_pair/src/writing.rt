// How one swap file is written: its gate is closed, then the pages are written after it, then the gate is opened.
ghost use Rattle.std.specs.Prelude.{◌≡◌, ◌≢◌, ◌<◌, ◌≤◌, ◌+◌, ◌*◌, ◌^◌, ℕ, length, OnOk, OnErr, IsErr, IsTrue};
ghost use Rattle.vs_faults.specs.Faults.{HasCause};
ghost use Rattle.vs_host.specs.File.{Leaves, put};
ghost use Rattle.vs_host.specs.Disk.{ChangesFile};
ghost use Rattle.vs_disk.specs.Images.{FileHas, KeepsImages};
ghost use Rattle.vs_pages.specs.Memory.{commits_of, AreBacked};
ghost use Rattle.vs_disk.specs.Runs.{NoneFails};
ghost use Rattle.vs_pair.specs.Acts.{Acts, OnlyRead, WorksAtMost};
ghost use Rattle.vs_pair.specs.Held.{AreApart, held_from, pages_under};
ghost use Rattle.vs_pair.specs.Stale.{HasFresh, IsEnd, Keeps, SparesFresh, stale_below};
ghost use Rattle.vs_pair.specs.Writes.{HasRun, page_or_zeros};
ghost use Rattle.vs_pair.specs.Swap.{Body, Holds, HasMark, ChangesMark, KeepsMark, KeepsLength, Lengthens, WritesBody, Fits, CloseStep, Closes, SyncStep, FailedSync, open_mark};

use crate::Gate;
use crate::stale::{next_stale, stale_run};
use crate::written::Written;
use vs_host::{Failed, Folder};
use vs_pages::{MemPages, PAGE_SIZE, Presence};

// a page of zeros
const ZEROS: [u8; PAGE_SIZE] = [0; PAGE_SIZE];

// The bytes of the most pages that one write has.
const RUN_SIZE: usize = 65_536;

// the identifier of an open swap file, and that of a closed one
pub(crate) const OPEN: &[u8] = b"b0";

const CLOSED: &[u8] = &[0, 0];

// Writes the identifier in a write of its own, and syncs the file.
fn mark<F: Folder>(host: &mut F, name: &str, identifier: &[u8]) -> Result<(), Failed>
    requires two { length identifier.now ≡ 2 }
    requires there { IsTrue F.tells.folder → FileHas (F.scene host.old).folder name.now (λ file. Unit {0}) }

    // At each moment each image is one from before, but for its identifier.
    ensures acts { Acts F.tells (ChangesFile name.now ChangesMark) (F.scene host.old) (F.scene host.new) }
    ensures marked { OnOk result (IsTrue F.tells.folder → FileHas (F.scene host.new).folder name.now (λ file. Leaves file (HasMark identifier.now))) }
    ensures grown { OnOk result (IsTrue F.tells.folder → ChangesFile name.now KeepsLength (F.scene host.old).folder (F.scene host.new).folder) }
    ensures failed { OnErr result (IsTrue F.tells.folder → ChangesFile name.now KeepsImages (F.scene host.old).folder (F.scene host.new).folder) }
    ensures none { OnOk result (NoneFails F.tells (F.scene host.old) (F.scene host.new)) }
    ensures cause { HasCause (F.scene host.old).folder_faults (F.scene host.new).folder_faults (IsErr result) }
    ensures works { WorksAtMost F.tells (F.scene host.old) (F.scene host.new) 2 0 }
{
    host.write_at(name, 0, identifier)?;
    host.sync(name)
}

// Copies the bytes that a page number has in the file: those of the committed page, and zeros where there is none. A page that is away
// is read from another file.
fn copy_page<F: Folder>(
    host: &mut F,
    from: &str,
    pages: &MemPages,
    at: u64,
    into: &mut [u8],
) -> Result<(), Failed>
    requires size { length into.old ≡ 4096 }
    requires number { at < 2 ^ 40 }
    requires backed { IsTrue F.tells.folder → AreBacked (pages_under (F.scene host.old).folder from.now) pages.now }
    ensures size { length into.new ≡ 4096 }
    ensures page { OnOk result (IsTrue F.tells.folder
        → into.new ≡ page_or_zeros ((held_from pages.now (F.scene host.old).folder from.now).committed at)) }
    ensures reads { OnlyRead F.tells (IsErr result) (F.scene host.old) (F.scene host.new) 1 }
    ensures none { OnOk result (NoneFails F.tells (F.scene host.old) (F.scene host.new)) }
{
    match pages.copy_committed(at, into) {
        Presence::Here => Ok(()),
        Presence::Missing => {
            into.copy_from_slice(&ZEROS);
            Ok(())
        }
        Presence::Away => host.read_at(from, at * PAGE_SIZE as u64, into),
    }
}

fn put_page(run: &mut [u8], at: usize, page: &[u8])
    requires { at + length page.now ≤ length run.old }
    ensures { run.new ≡ put run.old at page.now }
{
    run[at..at + page.len()].copy_from_slice(page);
}

// Fills the front of the run with the pages from this number on, and with zeros for each number that has none.
fn fill_run<F: Folder>(
    host: &mut F,
    from: &str,
    pages: &MemPages,
    at: u64,
    count: u64,
    run: &mut [u8],
) -> Result<(), Failed>
    requires numbers { at + count ≤ 2 ^ 40 }
    requires room { 4096 * count ≤ length run.old }
    requires backed { IsTrue F.tells.folder → AreBacked (pages_under (F.scene host.old).folder from.now) pages.now }
    ensures size { length run.new ≡ length run.old }
    ensures pages { OnOk result (IsTrue F.tells.folder
        → HasRun (held_from pages.now (F.scene host.old).folder from.now).committed at count run.new) }
    ensures reads { OnlyRead F.tells (IsErr result) (F.scene host.old) (F.scene host.new) count }
    ensures none { OnOk result (NoneFails F.tells (F.scene host.old) (F.scene host.new)) }
{
    let mut page = [0; PAGE_SIZE];
    for next in 0..count {
        copy_page(host, from, pages, at + next, &mut page)?;
        put_page(run, next as usize * PAGE_SIZE, &page);
    }
    Ok(())
}

// Writes the rest of page 0 after its identifier, and in runs the pages that may differ in the file, and syncs it. Pages that are away
// are read from another file.
pub(crate) fn write_pages<F: Folder>(
    host: &mut F,
    name: &str,
    from: &str,
    first: &[u8],
    pages: &MemPages,
    written: &Written,
) -> Result<(), Failed>
    requires size { length first.now ≡ 4096 }
    requires there { IsTrue F.tells.folder → FileHas (F.scene host.old).folder name.now
        (λ file. HasFresh (held_from pages.now (F.scene host.old).folder from.now) written.now file.bytes) }
    requires apart { IsTrue F.tells.folder → AreApart (F.scene host.old).folder name.now from.now }
    requires backed { IsTrue F.tells.folder → AreBacked (pages_under (F.scene host.old).folder from.now) pages.now }

    // At each moment each image has an identifier from before.
    ensures acts { Acts F.tells (ChangesFile name.now KeepsMark) (F.scene host.old) (F.scene host.new) }
    ensures spared { Acts F.tells (ChangesFile name.now (SparesFresh (commits_of pages.now) written.now)) (F.scene host.old) (F.scene host.new) }
    ensures written { OnOk result (IsTrue F.tells.folder → ChangesFile name.now
        (WritesBody (record { first = first.now; pages = (held_from pages.now (F.scene host.old).folder from.now).committed }))
        (F.scene host.old).folder (F.scene host.new).folder) }
    ensures none { OnOk result (NoneFails F.tells (F.scene host.old) (F.scene host.new)) }
    ensures cause { HasCause (F.scene host.old).folder_faults (F.scene host.new).folder_faults (IsErr result) }
    ensures works { (end : ℕ) → IsEnd pages.now end → WorksAtMost F.tells (F.scene host.old) (F.scene host.new)
        (2 + stale_below (commits_of pages.now) written.now end) (stale_below (commits_of pages.now) written.now end) }
{
    host.write_at(name, 2, &first[2..])?;
    let mut run = [0; RUN_SIZE];
    let end = pages.committed_end();
    let mut at = next_stale(pages, written, 1, end);
    'runs: while at < end {
        let count = stale_run(pages, written, at, end);
        fill_run(host, from, pages, at, count, &mut run)?;
        let size = count as usize * PAGE_SIZE;
        host.write_at(name, at * PAGE_SIZE as u64, &run[..size])?;
        at = next_stale(pages, written, at + count, end);
    }
    host.sync(name)
}

// Closes the gate, unless it stands closed: zeros that are not synced could read as `b0` before torn pages.
fn close_gate<F: Folder>(host: &mut F, name: &str, gate: &mut Gate) -> Result<(), Failed>
    requires there { IsTrue F.tells.folder → FileHas (F.scene host.old).folder name.now (λ file. Unit {0}) }
    ensures acts { Acts F.tells (ChangesFile name.now (CloseStep gate.old)) (F.scene host.old) (F.scene host.new) }
    ensures closed { OnOk result (gate.new ≡ Gate.Closed) }
    ensures closes { OnOk result (IsTrue F.tells.folder → ChangesFile name.now (Closes gate.old) (F.scene host.old).folder (F.scene host.new).folder) }
    ensures grown { OnOk result (IsTrue F.tells.folder → ChangesFile name.now KeepsLength (F.scene host.old).folder (F.scene host.new).folder) }
    ensures was { OnErr result (gate.old ≢ Gate.Closed) }
    ensures unknown { OnErr result (gate.new ≡ Gate.Unknown) }
    ensures failed { OnErr result (IsTrue F.tells.folder → ChangesFile name.now KeepsImages (F.scene host.old).folder (F.scene host.new).folder) }
    ensures none { OnOk result (NoneFails F.tells (F.scene host.old) (F.scene host.new)) }
    ensures cause { HasCause (F.scene host.old).folder_faults (F.scene host.new).folder_faults (IsErr result) }
    ensures works { WorksAtMost F.tells (F.scene host.old) (F.scene host.new) 2 0 }
{
    match *gate {
        Gate::Closed => Ok(()),
        Gate::Open | Gate::Unknown => {
            *gate = Gate::Unknown;
            mark(host, name, CLOSED)?;
            *gate = Gate::Closed;
            Ok(())
        }
    }
}

// Opens the gate.
fn open_gate<F: Folder>(host: &mut F, name: &str, gate: &mut Gate) -> Result<(), Failed>
    requires there { IsTrue F.tells.folder → FileHas (F.scene host.old).folder name.now (λ file. Unit {0}) }
    ensures acts { Acts F.tells (ChangesFile name.now ChangesMark) (F.scene host.old) (F.scene host.new) }
    ensures opened { OnOk result (gate.new ≡ Gate.Open) }
    ensures marked { OnOk result (IsTrue F.tells.folder → FileHas (F.scene host.new).folder name.now (λ file. Leaves file (HasMark open_mark))) }
    ensures grown { OnOk result (IsTrue F.tells.folder → ChangesFile name.now KeepsLength (F.scene host.old).folder (F.scene host.new).folder) }
    ensures unknown { OnErr result (gate.new ≡ Gate.Unknown) }
    ensures failed { OnErr result (IsTrue F.tells.folder → ChangesFile name.now KeepsImages (F.scene host.old).folder (F.scene host.new).folder) }
    ensures none { OnOk result (NoneFails F.tells (F.scene host.old) (F.scene host.new)) }
    ensures cause { HasCause (F.scene host.old).folder_faults (F.scene host.new).folder_faults (IsErr result) }
    ensures works { WorksAtMost F.tells (F.scene host.old) (F.scene host.new) 2 0 }
{
    *gate = Gate::Unknown;
    mark(host, name, OPEN)?;
    *gate = Gate::Open;
    Ok(())
}

// Syncs the file: closes its gate, writes the pages that may differ after it, and opens it. Pages that are away are read from another
// file.
pub(crate) fn sync_file<F: Folder>(
    host: &mut F,
    name: &str,
    from: &str,
    gate: &mut Gate,
    first: &[u8],
    pages: &MemPages,
    written: &Written,
) -> Result<(), Failed>
    requires size { length first.now ≡ 4096 }
    requires fits { IsTrue F.tells.folder → (before : Body) × FileHas (F.scene host.old).folder name.now (Fits gate.old before)
        × Keeps gate.old (held_from pages.now (F.scene host.old).folder from.now) written.now before.pages }
    requires apart { IsTrue F.tells.folder → AreApart (F.scene host.old).folder name.now from.now }
    requires backed { IsTrue F.tells.folder → AreBacked (pages_under (F.scene host.old).folder from.now) pages.now }

    // At each moment each image is not open, or has the body before or this one.
    ensures acts { Acts F.tells (ChangesFile name.now
        (SyncStep gate.old (record { first = first.now; pages = (held_from pages.now (F.scene host.old).folder from.now).committed })))
        (F.scene host.old) (F.scene host.new) }
    ensures spared { Acts F.tells (ChangesFile name.now (SparesFresh (commits_of pages.now) written.now)) (F.scene host.old) (F.scene host.new) }
    ensures opened { OnOk result (gate.new ≡ Gate.Open) }
    ensures stands { OnOk result (IsTrue F.tells.folder → FileHas (F.scene host.new).folder name.now (λ file.
        Leaves file (Holds (record { first = first.now; pages = (held_from pages.now (F.scene host.old).folder from.now).committed })))) }
    ensures grown { OnOk result (IsTrue F.tells.folder
        → ChangesFile name.now (Lengthens (held_from pages.now (F.scene host.old).folder from.now).committed)
        (F.scene host.old).folder (F.scene host.new).folder) }
    ensures failed { OnErr result (IsTrue F.tells.folder → ChangesFile name.now
        (FailedSync gate.old gate.new (record { first = first.now; pages = (held_from pages.now (F.scene host.old).folder from.now).committed }))
        (F.scene host.old).folder (F.scene host.new).folder) }
    ensures none { OnOk result (NoneFails F.tells (F.scene host.old) (F.scene host.new)) }
    ensures cause { HasCause (F.scene host.old).folder_faults (F.scene host.new).folder_faults (IsErr result) }
    ensures works { (end : ℕ) → IsEnd pages.now end → WorksAtMost F.tells (F.scene host.old) (F.scene host.new)
        (6 + stale_below (commits_of pages.now) written.now end) (stale_below (commits_of pages.now) written.now end) }
{
    close_gate(host, name, gate)?;
    write_pages(host, name, from, first, pages, written)?;
    open_gate(host, name, gate)
}
