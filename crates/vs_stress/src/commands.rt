// The commands of the stress mode.
ghost use Rattle.std.specs.Prelude.{◌≡◌, ◌<◌, IfOk, not};
ghost use Rattle.vs_exparse.specs.Command.{result_of};
ghost use Rattle.vs_exparse.specs.Meaning.{meaning_of};
ghost use Rattle.vs_excmd.specs.declared.request.Block.{Block};
ghost use Rattle.vs_excmd.specs.Request.{FitsBlock, IsFormed, IsRequest, StandsFor, is_absent};
ghost use Rattle.vs_stress.specs.Commands.{block_to, block_of, generated, line_of, numbered, parsed_of, preserves, takes_block};

use itoa::Buffer;
use std::alloc::{AllocError, Global};
use vs_excmd::{Block, Request};
use vs_exparse::{Command, ExErr, Parsed, parse};
use vs_text::Line;

/// The lines of a block.
const LINES: u8 = 10;

// The line of the command with a number: one that puts lines at the end of the text, moves a line, substitutes in a line, or takes
// that back.
fn line_for(number: u64) -> &'static [u8]
    ensures { result.now ≡ line_of number }
{
    match number % 4 {
        1 => b"$a",
        2 => b"2m0",
        3 => b"1s/\\V./:/",
        _ => b"u",
    }
}

// The bytes of a line of the block of the command with a number.
fn numbered(alloc: Global, number: u64, digit: u8) -> Result<Vec<u8>, AllocError>
    requires { digit < 10 }
    ensures { IfOk result (λ line. line.items ≡ numbered number digit) }
{
    let mut digits = Buffer::new();
    let digits = digits.format(number).as_bytes();
    let mut line = Vec::with_capacity(alloc, digits.len() + 2)?;
    line.extend_from_slice(digits)?;
    line.push(b'.')?;
    line.push(b'0' + digit)?;
    Ok(line)
}

fn line_of_block(alloc: Global, number: u64, digit: u8) -> Result<Line, AllocError>
    requires { digit < 10 }
    ensures { IfOk result (λ line. line ≡ numbered number digit) }
{
    Ok(Line::from_vec(numbered(alloc, number, digit)?))
}

fn lines_for(alloc: Global, number: u64) -> Result<Vec<Line>, AllocError>
    ensures { IfOk result (λ lines. lines.items ≡ block_to number 10) }
{
    let mut lines = Vec::with_capacity(alloc, LINES as usize)?;
    'digits: for digit in 0..LINES {
        lines.push(line_of_block(alloc, number, digit)?)?;
    }
    Ok(lines)
}

// The block of the command with a number.
fn block_for(alloc: Global, number: u64) -> Result<Block, AllocError>
    ensures stands { IfOk result (λ block. StandsFor block (block_of number)) }
    ensures absent { IfOk result (λ block. is_absent block ≡ not (takes_block (meaning_of (line_of number)))) }
{
    if number % 4 != 1 {
        return Ok(Block::Absent);
    }
    Ok(Block::Lines(lines_for(alloc, number)?))
}

// What a line asks for.
fn parsed(line: &[u8]) -> Result<Command<'_>, ExErr>
    ensures parsed { result_of result ≡ parsed_of (meaning_of line.now) }
    ensures form { (block : Block) → is_absent block ≡ not (takes_block (meaning_of line.now)) → FitsBlock result block }
{
    match parse(line) {
        Ok(Parsed::Command(command)) => Ok(command),
        Ok(Parsed::Nothing) => Err(ExErr::E492),
        Err(error) => Err(error),
    }
}

/// The command with this number, counted from 1: docs/COMMANDS.md, "Stress".
pub fn generated(alloc: Global, number: u64) -> Result<Request<'static>, AllocError>
    ensures form { IfOk result IsFormed }
    ensures request { IfOk result (λ request. IsRequest request (generated number)) }
{
    let block = block_for(alloc, number)?;
    Ok(Request {
        parsed: parsed(line_for(number)),
        block,
    })
}

/// `preserve`, which follows the numbered commands.
pub fn preserve() -> Request<'static>
    ensures form { IsFormed result }
    ensures request { IsRequest result preserves }
{
    Request {
        parsed: parsed(b"preserve"),
        block: Block::Absent,
    }
}
