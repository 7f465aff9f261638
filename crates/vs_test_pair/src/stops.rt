// What recovery may find after a stop or a fault, at each call of a life.
ghost use Rattle.std.specs.Prelude.{IfOk, codes};
ghost use Rattle.vs_host.specs.Names.{names_of_file};
ghost use Rattle.vs_memory.specs.Memory.{folder_of};
ghost use Rattle.vs_pair.specs.Steps.{IsFresh};

use crate::life::{Life, live};
use std::alloc::Global;
use std::process::Abort;
use std::test::Fail;
use vs_memory::{Choice, Keep, MemHost};
use vs_pages::PAGE_SIZE;
use vs_zero::Zero;

// The calls of a life without faults: 15 of the start, 7 of each sync and 3 of the end.
const CALLS: u64 = 32;

// The calls of a start.
const START: u64 = 15;

// As many name changes as are pending at once in a life, and more: two files made, and two renamed.
const PREFIXES: [u32; 6] = [0, 1, 2, 3, 4, u32::MAX];

// What a stop may leave where a file was changed and not synced: the bytes as read or as last synced, or any one byte throughout.
fn every_keep(alloc: Global) -> Result<Vec<Keep>, Fail> {
    let mut keeps = Vec::new(alloc);
    keeps.push(Keep::Read)?;
    keeps.push(Keep::Synced)?;
    for byte in 0..=u8::MAX {
        keeps.push(Keep::Byte(byte))?;
    }
    Ok(keeps)
}

// A folder without files, in which this call fails, and each one after `stop`. Calls are counted from 1.
pub(crate) fn empty_folder(alloc: Global, failing: u64, stop: u64) -> Result<MemHost, Fail>
    ensures { IfOk result (λ host. IsFresh (names_of_file (codes "f")) (folder_of host)) }
{
    let mut host = MemHost::new(alloc, Vec::new(alloc))?;
    host.fail_call(alloc, failing)?;
    host.stop_after(stop);
    Ok(host)
}

// The generation and the text of a swap file that is open; an open file with a torn page is no file of a pair.
fn open_text(bytes: &[u8]) -> Result<Option<(u64, u8)>, Fail> {
    let Ok(zero) = Zero::read(bytes) else {
        return Ok(None);
    };
    let Some(pair) = zero.pair else {
        return Err(Fail::new("an open file without its tag"));
    };
    if bytes.len() != 3 * PAGE_SIZE {
        return Err(Fail::new("an open file that is not whole"));
    }
    let page = bytes.get(2 * PAGE_SIZE..).ok_or("it has page 2")?;
    match page.first() {
        Some(text) if page.iter().all(|byte| byte == text) => Ok(Some((pair.generation, *text))),
        _ => Err(Fail::new("an open file with a torn page")),
    }
}

fn text_under(image: &MemHost, name: &str) -> Result<Option<(u64, u8)>, Fail> {
    match image.file(name) {
        Some(bytes) => open_text(bytes),
        None => Ok(None),
    }
}

// The text that is recovered: that of the open file with the greater generation.
fn recovered(image: &MemHost) -> Result<Option<u8>, Fail> {
    let swp = text_under(image, ".f.swp")?;
    let swo = text_under(image, ".f.swo")?;
    Ok(match (swp, swo) {
        (None, None) => None,
        (Some((_, text)), None) | (None, Some((_, text))) => Some(text),
        (Some((first, one)), Some((second, two))) => Some(if second > first { two } else { one }),
    })
}

// Whether a stop after this life may leave this: the last text that was acknowledged or a later one, and none only where the
// start or the end did not succeed before.
fn is_allowed(life: &Life, text: Option<u8>, over: bool) -> bool {
    match text {
        None => !life.started || over,
        Some(text) => {
            let [first, second] = life.synced;
            let least = if second {
                3
            } else if first {
                2
            } else {
                1
            };
            least <= text && text <= 3
        }
    }
}

// Whether a stop after this life may leave this image.
fn may_leave(
    alloc: Global,
    host: &MemHost,
    life: &Life,
    over: bool,
    choice: &Choice,
) -> Result<bool, Fail> {
    let image = host.image(alloc, choice, Vec::new(alloc))?;
    Ok(is_allowed(life, recovered(&image)?, over))
}

fn check_images(
    alloc: Global,
    host: &MemHost,
    life: &Life,
    over: bool,
    keeps: &[Keep],
) -> Result<(), Fail> {
    for names in PREFIXES {
        for keep in keeps {
            if !may_leave(alloc, host, life, over, &Choice { names, keep: *keep })? {
                return Err(Fail::new("a text that may not be recovered"));
            }
        }
    }
    Ok(())
}

#[test]
fn a_life_without_faults_ends_without_files(rt: HostRuntime) -> Result<(), Fail> {
    let alloc = rt.alloc();
    let mut host = empty_folder(alloc, 0, CALLS)?;
    let life = live(alloc, &mut host)?;
    assert!(rt; life.ended && life.synced == [true, true]);
    assert!(rt; host.calls() == CALLS);
    assert!(rt; host.file(".f.swp").is_none() && host.file(".f.swo").is_none());
    Ok(())
}

// Checks what a life leaves in which this call fails, and each one after `stop`.
fn check_life(
    alloc: Global,
    failing: u64,
    stop: u64,
    over: bool,
    keeps: &[Keep],
) -> Result<(), Fail> {
    let mut host = empty_folder(alloc, failing, stop)?;
    let life = live(alloc, &mut host)?;
    check_images(alloc, &host, &life, over, keeps)
}

#[test]
fn each_stop_leaves_a_text_that_may_be_recovered(rt: HostRuntime) -> Result<(), Fail> {
    let alloc = rt.alloc();
    let keeps = every_keep(alloc)?;
    for calls in 0..=CALLS {
        check_life(alloc, 0, calls, calls > CALLS - 3, &keeps)?;
    }
    Ok(())
}

#[test]
fn each_fault_leaves_a_text_that_may_be_recovered(rt: HostRuntime) -> Result<(), Fail> {
    let alloc = rt.alloc();
    let keeps = every_keep(alloc)?;
    for failing in 1..=CALLS {
        for calls in failing..=CALLS {
            check_life(alloc, failing, calls, calls > START, &keeps)?;
        }
    }
    Ok(())
}
