// Which text is recovered of two swap files, and what `info` says of them.
use crate::pages::Block::{Blank, Head, Lines, Marked, Pointers};
use crate::pages::{Block, file_of, folder_of};
use std::alloc::Global;
use std::process::Abort;
use std::test::Fail;
use vs_host::Names;
use vs_memory::MemHost;
use vs_recover::{Chosen, RecErr, Swap, choose, info};

fn names(alloc: Global) -> Result<Names, Fail> {
    Ok(Names::of(alloc, "f").ok().ok_or("the name is allowed")?)
}

// A swap file.
#[derive(Clone, Copy)]
enum File {
    Missing,
    // It stands, with this generation and a text of one line.
    Standing(u8, &'static [u8]),
    // It would stand, but for its identifier.
    Torn,
    // It has a great generation, and its root names block 1.
    Cycle,
    // Its page 0 reads, and its block 1 is no pointer block.
    Rootless,
    // Its page 0 is cut.
    Cut,
}

const TREE: Block<'static> = Pointers(&[(2, 1, 1)]);

fn bytes_of(alloc: Global, file: File) -> Result<Vec<u8>, Fail> {
    let all = usize::MAX;
    match file {
        File::Missing => Ok(Vec::new(alloc)),
        File::Standing(generation, line) => {
            file_of(alloc, &[Head(generation), TREE, Lines(1, line)], all)
        }
        File::Torn => file_of(alloc, &[Marked(b"bC"), TREE, Lines(1, b"d")], all),
        File::Cycle => file_of(alloc, &[Head(9), Pointers(&[(1, 1, 1)])], all),
        File::Rootless => file_of(alloc, &[Head(1), Blank], all),
        File::Cut => file_of(alloc, &[Head(1)], 1047),
    }
}

fn folder_with(alloc: Global, swp: File, swo: File) -> Result<MemHost, Fail> {
    let first = bytes_of(alloc, swp)?;
    let second = bytes_of(alloc, swo)?;
    folder_of(alloc, first, second)
}

// The byte of a text of one line of one byte, or why there is none.
fn chosen(host: &mut MemHost, alloc: Global) -> Result<Result<u8, RecErr>, Fail> {
    match choose(alloc, host, &names(alloc)?) {
        Ok(Chosen::Text(text)) => match text.bytes() {
            [byte, b'\n'] => Ok(Ok(*byte)),
            _ => Err(Fail::new("another text")),
        },
        Ok(Chosen::Salvage(Swap::Swp)) => Ok(Ok(b'1')),
        Ok(Chosen::Salvage(Swap::Swo)) => Ok(Ok(b'2')),
        Err(why) => Ok(Err(why)),
    }
}

// Two files, and what is chosen of them.
type Case = (File, File, Result<u8, RecErr>);

fn are_chosen(alloc: Global, cases: &[Case]) -> Result<bool, Fail> {
    for (swp, swo, wanted) in cases {
        let mut host = folder_with(alloc, *swp, *swo)?;
        if chosen(&mut host, alloc)? != *wanted {
            return Ok(false);
        }
    }
    Ok(true)
}

const GENERATIONS: [Case; 3] = [
    (File::Standing(4, b"a"), File::Standing(5, b"b"), Ok(b'b')),
    (File::Standing(5, b"a"), File::Standing(4, b"b"), Ok(b'a')),
    (File::Standing(4, b"a"), File::Standing(4, b"b"), Ok(b'a')),
];

#[test]
fn the_greater_generation_is_taken_and_the_first_file_at_a_tie(
    rt: HostRuntime,
) -> Result<(), Fail> {
    assert!(rt; are_chosen(rt.alloc(), &GENERATIONS)?);
    Ok(())
}

const ONE_STANDS: [Case; 3] = [
    (File::Torn, File::Standing(4, b"a"), Ok(b'a')),
    (File::Standing(4, b"a"), File::Torn, Ok(b'a')),
    (File::Cycle, File::Standing(4, b"a"), Ok(b'a')),
];

#[test]
fn a_file_that_does_not_stand_hides_no_other(rt: HostRuntime) -> Result<(), Fail> {
    assert!(rt; are_chosen(rt.alloc(), &ONE_STANDS)?);
    Ok(())
}

const NONE_STANDS: [Case; 3] = [
    (File::Cycle, File::Missing, Ok(b'1')),
    (File::Torn, File::Cycle, Ok(b'2')),
    (File::Rootless, File::Cycle, Ok(b'2')),
];

#[test]
fn without_a_file_that_stands_one_is_salvaged(rt: HostRuntime) -> Result<(), Fail> {
    assert!(rt; are_chosen(rt.alloc(), &NONE_STANDS)?);
    Ok(())
}

const REFUSALS: [Case; 3] = [
    (File::Missing, File::Missing, Err(RecErr::NoSwap)),
    (File::Torn, File::Torn, Err(RecErr::Encrypted)),
    (File::Missing, File::Rootless, Err(RecErr::NotTree)),
];

#[test]
fn a_refusal_says_why(rt: HostRuntime) -> Result<(), Fail> {
    assert!(rt; are_chosen(rt.alloc(), &REFUSALS)?);
    Ok(())
}

// What is chosen where this call fails. Calls are counted from 1.
fn chosen_at(alloc: Global, failing: u64) -> Result<(Result<u8, RecErr>, u64), Fail> {
    let mut host = folder_with(alloc, File::Standing(4, b"a"), File::Torn)?;
    host.fail_call(alloc, failing)?;
    let found = chosen(&mut host, alloc)?;
    Ok((found, host.calls()))
}

#[test]
fn a_call_that_fails_is_told(rt: HostRuntime) -> Result<(), Fail> {
    let alloc = rt.alloc();
    let (found, calls) = chosen_at(alloc, 0)?;
    assert!(rt; found == Ok(b'a'));
    for failing in 1..=calls {
        let (found, _) = chosen_at(alloc, failing)?;
        assert!(rt; found == Err(RecErr::Failed), "call {failing}");
    }
    Ok(())
}

// Two files, and what `info` says of them.
const TOLD: [(File, File, &[u8]); 3] = [
    (
        File::Standing(5, b"a"),
        File::Torn,
        b".f.swp: standing, generation 5, 1 lines\n.f.swo: encrypted\n",
    ),
    (File::Cut, File::Missing, b".f.swp: no swap file\n"),
    (
        File::Cycle,
        File::Missing,
        b".f.swp: not standing, page size 4096\n",
    ),
];

fn told(alloc: Global, swp: File, swo: File) -> Result<Vec<u8>, Fail> {
    let names = names(alloc)?;
    let mut host = folder_with(alloc, swp, swo)?;
    Ok(info(alloc, &mut host, &names).ok().ok_or("it is told")?)
}

#[test]
fn info_says_what_each_file_is(rt: HostRuntime) -> Result<(), Fail> {
    for (swp, swo, lines) in TOLD {
        let said = told(rt.alloc(), swp, swo)?;
        assert!(rt; said.as_slice() == lines);
    }
    Ok(())
}
