use std::alloc::{AllocError, Global};
use std::process::Abort;
use std::test::Fail;
use vs_edit::{LineStore, StoreErr, VecStore, allows_splice};
use vs_reads::{bytes_in, push_lines, run_lines};
use vs_text::{Format, Line, Text, write_text};

// Lines of up to six bytes, and from line 500 on some that are longer than a run.
fn lines_of_all_lengths(alloc: Global) -> Result<Vec<Line>, AllocError> {
    let mut lines = Vec::new(alloc);
    for i in 0..2_200u32 {
        let length = if i / 4 == 125 { 70_000 } else { i % 7 };
        lines.push(Line::from_vec(vec![in alloc; b'x'; length as usize]?))?;
    }
    Ok(lines)
}

// Asserts that lines are read as the store copies them.
fn assert_reads<S: LineStore>(
    rt: &impl Abort,
    alloc: Global,
    store: &mut S,
    top: u64,
    count: u64,
) -> Result<(), StoreErr>
    requires { S.valid store.old }
    ensures { S.valid store.new }
{
    let top = top.min(store.len());
    let count = count.min(store.len() - top);
    let mut copied = Vec::new(alloc);
    store.copy_lines(alloc, top, count, &mut copied)?;
    let mut lines = Vec::new(alloc);
    push_lines(alloc, store, top, count, &mut lines)?;
    let read = write_text(alloc, &Text::of(lines), Format::Unix)?;
    assert!(rt; read.as_slice() == copied.as_slice());
    assert!(rt; bytes_in(alloc, store, top, count)? == copied.len() as u64);
    Ok(())
}

#[test]
fn reads_runs_of_short_and_of_long_lines(rt: HostRuntime) -> Result<(), Fail> {
    let alloc = rt.alloc();
    let mut store = VecStore::new(alloc)?;
    let lines = lines_of_all_lengths(alloc)?;
    assert!(rt; allows_splice(&store, 0, 0, &lines));
    store.splice(alloc, 0, 0, &lines)?;
    assert_reads(&rt, alloc, &mut store, 0, 2_200)?;
    assert_reads(&rt, alloc, &mut store, 490, 17)?;
    assert_reads(&rt, alloc, &mut store, 2_200, 1)?;
    Ok(())
}

#[test]
fn a_run_has_as_many_lines_as_fit(rt: HostRuntime) -> Result<(), Fail> {
    let rows = [
        (0, 0, 16),
        (16, 16, 1_024),
        (16, 640, 1_024),
        (16, 1_024, 1_024),
        (1_024, 66_560, 1_008),
        (10, 10_000, 65),
        (10, 9_999, 65),
        (1, 65_536, 1),
        (1, 1_048_577, 1),
    ];
    for (lines, bytes, run) in rows {
        assert!(rt;
            run_lines(lines, bytes) == run,
            "{lines} lines of {bytes} bytes"
        );
    }
    Ok(())
}
