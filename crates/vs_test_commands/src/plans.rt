// A command that is parsed, planned and carried out.
ghost use Rattle.std.specs.Prelude.{◌≡◌, IfOk, IsTrue, not};
ghost use Rattle.vs_exparse.specs.Command.{command_of, wants_block};
ghost use Rattle.vs_exparse.specs.Form.{HasForm};
ghost use Rattle.vs_excmd.specs.Meaning.{changes_text};
ghost use Rattle.vs_excmd.specs.Request.{is_absent};

use std::alloc::Global;
use std::process::Abort;
use vs_edit::{LineStore, StoreErr, allows_splice};
use vs_excmd::{Block, Plan, PlanErr, changes_text, plan};
use vs_exparse::{Command, ExErr, Parsed, parse};
use vs_text::{Line, TextErr, read_text};

/// The cursor after a change, or no change, or why the command was refused.
pub(crate) type Outcome = Result<Option<u64>, ExErr>;

/// The block of a command: the lines of these bytes, where it takes one.
pub(crate) fn block_of(alloc: Global, command: &Command, bytes: &[u8]) -> Result<Block, TextErr>
    ensures { IfOk result (λ block. is_absent block ≡ not (wants_block (command_of command.now))) }
{
    if !command.wants_block() {
        return Ok(Block::Absent);
    }
    let (text, _) = read_text(alloc, bytes)?;
    Ok(Block::Lines(text.into_lines()))
}

/// Plans a command, and carries the plan out. The store may be used after every answer.
pub(crate) fn carry_out<S: LineStore>(
    alloc: Global,
    store: &mut S,
    command: &Command,
    block: &Block,
    cursor: u64,
) -> Result<Outcome, StoreErr>
    requires valid { S.valid store.old }
    requires changes { IsTrue (changes_text (command_of command.now)) }
    requires form { HasForm (command_of command.now) }
    requires block { is_absent block.now ≡ not (wants_block (command_of command.now)) }
    ensures { S.valid store.new }
{
    match plan(alloc, command, block, store, cursor) {
        Ok(Plan::NoChange) => Ok(Ok(None)),
        Ok(
            Plan::Splice {
                top,
                old,
                new,
                cursor,
            },
        ) => {
            store.splice(alloc, top, old, &new)?;
            Ok(Ok(Some(cursor)))
        }
        Err(PlanErr::Ex(error)) => Ok(Err(error)),
        Err(PlanErr::NoMemory) => Err(StoreErr::NoMemory),
        Err(PlanErr::Failed) => Err(StoreErr::Failed),
    }
}

/// Carries out the command of a line, with the lines of these bytes as its block where it takes one.
pub(crate) fn run<S: LineStore>(
    rt: &impl Abort,
    alloc: Global,
    store: &mut S,
    line: &[u8],
    block: &[u8],
    cursor: u64,
) -> Result<Outcome, StoreErr>
    requires { S.valid store.old }
    ensures { S.valid store.new }
{
    let Ok(Parsed::Command(command)) = parse(line) else {
        panic!(rt; "{line:?} is no command")
    };
    if !changes_text(&command) {
        panic!(rt; "{line:?} is no command of the text")
    }
    let Ok(block) = block_of(alloc, &command, block) else {
        return Err(StoreErr::NoMemory);
    };
    carry_out(alloc, store, &command, &block, cursor)
}

/// Puts the lines of a file after those of a store.
pub(crate) fn put<S: LineStore>(
    rt: &impl Abort,
    alloc: Global,
    store: &mut S,
    file: &[u8],
) -> Result<(), StoreErr>
    requires { S.valid store.old }
    ensures { S.valid store.new }
{
    let Ok((text, _)) = read_text(alloc, file) else {
        return Err(StoreErr::NoMemory);
    };
    let len = store.len();
    if !allows_splice(store, len, 0, text.lines()) {
        panic!(rt; "the lines do not fit")
    }
    store.splice(alloc, len, 0, text.lines())
}
