// The commands of a script and their blocks, whatever the pieces in which it comes, and the greatest script.
use crate::source::Source;
use std::alloc::{AllocError, Global};
use std::process::Abort;
use std::test::Fail;
use vs_excmd::{Block, Request};
use vs_exparse::{Address, Base, Command, ExErr, Range};
use vs_script::{LineBuffer, ScriptErr, ScriptReader};

/// A command by its name and range, or why its line is refused, and the lines of its block where it takes one.
#[derive(Clone, Copy)]
struct Want {
    name: &'static [u8],
    range: Result<Range, ExErr>,
    block: Option<&'static [&'static [u8]]>,
}

/// The range of the line at a base.
macro_rules! line {
    ($base:expr) => {
        Range::One(Address {
            base: $base,
            offset: 0,
        })
    };
}

const SCRIPT: &[u8] =
    b"\n\" a note\n$a\none\n\n..\n .\n.\n%p\n9a\nlost\n.\nd x\n \t:\"\n.\n:0i\nlast";

const WANTED: &[Want] = &[
    Want {
        name: b"append",
        range: Ok(line!(Base::Last)),
        block: Some(&[b"one", b"", b"..", b" ."]),
    },
    Want {
        name: b"print",
        range: Ok(Range::All),
        block: None,
    },
    Want {
        name: b"append",
        range: Ok(line!(Base::Number(9))),
        block: Some(&[b"lost"]),
    },
    Want {
        name: b"",
        range: Err(ExErr::E488),
        block: None,
    },
    Want {
        name: b"print",
        range: Ok(line!(Base::Current)),
        block: None,
    },
    Want {
        name: b"insert",
        range: Ok(line!(Base::Number(0))),
        block: Some(&[b"last"]),
    },
];

/// The name and the range of one of the commands that are wanted, or why the line is refused.
fn read_as(parsed: &Result<Command, ExErr>) -> (&'static [u8], Result<Range, ExErr>) {
    match parsed {
        Ok(Command::Append { range }) => (b"append", Ok(*range)),
        Ok(Command::Insert { range }) => (b"insert", Ok(*range)),
        Ok(Command::Print { range, count: None }) => (b"print", Ok(*range)),
        Ok(_) => (b"another", Err(ExErr::E492)),
        Err(error) => (b"", Err(*error)),
    }
}

fn has_lines(block: &Block, lines: &[&[u8]]) -> bool {
    let Block::Lines(kept) = block else {
        return false;
    };
    if kept.len() != lines.len() {
        return false;
    }
    for at in 0..lines.len() {
        if kept[at].bytes() != lines[at] {
            return false;
        }
    }
    true
}

fn is_wanted(request: &Request, want: &Want) -> bool {
    let block = match want.block {
        None => matches!(&request.block, Block::Absent),
        Some(lines) => has_lines(&request.block, lines),
    };
    let (name, range) = read_as(&request.parsed);
    block && name == want.name && range == want.range
}

/// The script in pieces of this size has the commands that are wanted, and then no more, however often it is asked.
fn check_pieces(rt: &impl Abort, alloc: Global, piece: usize) -> Result<(), Fail> {
    let mut source = Source {
        unit: Vec::from_slice(alloc, SCRIPT)?,
        times: 1,
        tail: Vec::new(alloc),
        piece,
        at: 0,
    };
    let mut reader = ScriptReader::new(alloc)?;
    let mut buffer = LineBuffer::new(alloc)?;
    for at in 0..WANTED.len() + 2 {
        let request = reader.next_request(alloc, &mut source, &mut buffer)?;
        let is_right = match (&request, WANTED.get(at)) {
            (Some(request), Some(want)) => is_wanted(request, want),
            (None, None) => true,
            _ => false,
        };
        assert!(rt; is_right, "command {at} in pieces of {piece}");
    }
    Ok(())
}

#[test]
fn commands_come_with_their_blocks(rt: HostRuntime) -> Result<(), Fail> {
    for piece in 1..SCRIPT.len() + 1 {
        check_pieces(&rt, rt.alloc(), piece)?;
    }
    Ok(())
}

/// A comment of 65,536 bytes.
fn comment(alloc: Global) -> Result<Vec<u8>, AllocError> {
    let mut line = vec![in alloc; b'"'; 65_535]?;
    line.push(b'\n')?;
    Ok(line)
}

/// Whether a script of a gibibyte of comments and these bytes has a command, or why it has not.
fn has_command(alloc: Global, tail: &[u8]) -> Result<Result<bool, ScriptErr>, Fail> {
    let mut source = Source {
        unit: comment(alloc)?,
        times: 16_384,
        tail: Vec::from_slice(alloc, tail)?,
        piece: 65_536,
        at: 0,
    };
    let mut reader = ScriptReader::new(alloc)?;
    let mut buffer = LineBuffer::new(alloc)?;
    match reader.next_request(alloc, &mut source, &mut buffer) {
        Ok(request) => Ok(Ok(request.is_some())),
        Err(error) => Ok(Err(error)),
    }
}

#[test]
fn a_script_has_a_gibibyte_and_no_more(rt: HostRuntime) -> Result<(), Fail> {
    assert!(rt; has_command(rt.alloc(), b"")? == Ok(false));
    assert!(rt; has_command(rt.alloc(), b"p")? == Err(ScriptErr::TooLong));
    Ok(())
}
