// Each command of the text over a text in memory, and over a store of which a read fails.
ghost use Rattle.std.specs.Prelude.{◌≡◌, ◌<◌, IfOk, false};
ghost use Rattle.vs_excmd.specs.Request.{is_absent};

use crate::plans::{Outcome, carry_out, put, run};
use std::alloc::{AllocError, Global};
use std::process::Abort;
use std::test::Fail;
use vs_edit::failing::FailingStore;
use vs_edit::{LineStore, StoreErr, VecStore, text_of};
use vs_excmd::Block;
use vs_exparse::{Address, Base, Command, ExErr, Range};
use vs_text::{Format, Line, write_text};

const SIX: &[u8] = b"a\nb\nc\nd\ne\nf\n";

/// A command line over six lines with the cursor in line 2, what comes of it, and the file afterwards.
#[derive(Clone, Copy)]
struct Row {
    line: &'static [u8],
    outcome: Outcome,
    after: &'static [u8],
}

const ROWS: &[Row] = &[
    Row {
        line: b"$a",
        outcome: Ok(Some(7)),
        after: b"a\nb\nc\nd\ne\nf\nx\n",
    },
    Row {
        line: b"i",
        outcome: Ok(Some(2)),
        after: b"a\nx\nb\nc\nd\ne\nf\n",
    },
    Row {
        line: b"%c",
        outcome: Ok(Some(1)),
        after: b"x\n",
    },
    Row {
        line: b"5d9",
        outcome: Ok(Some(4)),
        after: b"a\nb\nc\nd\n",
    },
    Row {
        line: b"2,3m0",
        outcome: Ok(Some(2)),
        after: b"b\nc\na\nd\ne\nf\n",
    },
    Row {
        line: b"2,5m5",
        outcome: Ok(None),
        after: SIX,
    },
    Row {
        line: b"2,3co2",
        outcome: Ok(Some(4)),
        after: b"a\nb\nb\nc\nc\nd\ne\nf\n",
    },
    Row {
        line: b"$t$",
        outcome: Ok(Some(7)),
        after: b"a\nb\nc\nd\ne\nf\nf\n",
    },
    Row {
        line: b"%j!",
        outcome: Ok(Some(1)),
        after: b"abcdef\n",
    },
    Row {
        line: b"%s/\\Vc/<&>/",
        outcome: Ok(Some(3)),
        after: b"a\nb\n<c>\nd\ne\nf\n",
    },
    Row {
        line: b"9d",
        outcome: Err(ExErr::E16),
        after: SIX,
    },
];

fn check_row<S: LineStore>(
    rt: &impl Abort,
    alloc: Global,
    store: &mut S,
    row: &Row,
) -> Result<(), StoreErr>
    requires { S.valid store.old }
    ensures { S.valid store.new }
{
    put(rt, alloc, store, SIX)?;
    let outcome = run(rt, alloc, store, row.line, b"x\n", 2)?;
    let text = text_of(alloc, store)?;
    let file = write_text(alloc, &text, Format::Unix)?;
    assert!(rt;
        outcome == row.outcome && file.as_slice() == row.after,
        "{:?}",
        row.line
    );
    Ok(())
}

#[test]
fn commands_change_a_text_in_memory(rt: HostRuntime) -> Result<(), Fail> {
    for row in ROWS {
        let mut store = VecStore::new(rt.alloc())?;
        check_row(&rt, rt.alloc(), &mut store, row)?;
    }
    Ok(())
}

const READING: [&[u8]; 4] = [b"1m$", b"%t0", b"%j", b"%s/\\Va/b/"];

#[test]
fn a_read_that_fails_is_told(rt: HostRuntime) -> Result<(), Fail> {
    let alloc = rt.alloc();
    for line in READING {
        let mut inner = VecStore::new(alloc)?;
        put(&rt, alloc, &mut inner, SIX)?;
        let mut store = FailingStore::new(inner, 1);
        let answer = run(&rt, alloc, &mut store, line, b"", 1);
        assert!(rt;
            answer == Err(StoreErr::Failed) && store.faults == 1,
            "{line:?}"
        );
    }
    Ok(())
}

const APPEND: Command<'static> = Command::Append {
    range: Range::One(Address {
        base: Base::Number(1),
        offset: 0,
    }),
};

/// What comes of a block after line 1 in the text without lines.
fn appended(alloc: Global, block: &Block) -> Result<Outcome, StoreErr>
    requires { is_absent block.now ≡ false }
{
    let mut store = VecStore::new(alloc)?;
    carry_out(alloc, &mut store, &APPEND, block, 0)
}

fn line_of(alloc: Global, byte: u8, len: usize) -> Result<Line, AllocError>
    requires { byte < 10 }
{
    Ok(Line::from_vec(vec![in alloc; byte; len]?))
}

fn long_block(alloc: Global) -> Result<Block, AllocError>
    ensures { IfOk result (λ block. is_absent block ≡ false) }
{
    let mut lines = Vec::new(alloc);
    lines.push(line_of(alloc, 9, 1_048_577)?)?;
    Ok(Block::Lines(lines))
}

#[test]
fn a_line_of_a_block_that_is_too_long_is_refused(rt: HostRuntime) -> Result<(), Fail> {
    let block = long_block(rt.alloc())?;
    assert!(rt; appended(rt.alloc(), &block) == Ok(Err(ExErr::LineTooLong)));
    Ok(())
}
