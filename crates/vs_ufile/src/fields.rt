// The fields of an undo file: numbers and runs of bytes, each read from the front of the bytes.

ghost use Rattle.std.specs.Prelude.{◌≡◌, length, IsErrOf};
ghost use Rattle.vs_ufile.specs.declared.fault.Stop.TheVariants.{At};
ghost use Rattle.vs_ufile.specs.Reading.{Gives, checked, flags, magic_kind, marks, next_mark, number, option_data, option_or_end, options, repeat, run, save_number_kind, sized_run, start, version};

use crate::UfKind;
use crate::fault::{Fault, Stop};
use std::alloc::Global;
use vs_bytes::{be_u16, be_u32, be_u64};

// The first bytes of an undo file.
pub const START: [u8; 9] = [0x56, 0x69, 0x6d, 0x9f, 0x55, 0x6e, 0x44, 0x6f, 0xe5];

// The part that begins with these bytes is refused.
pub fn refusal(bytes: &[u8], kind: UfKind, found: u64) -> Stop
    ensures { result ≡ At (record { kind = kind; left = length bytes.now; found = found }) }
{
    Stop::At(Fault {
        kind,
        left: bytes.len(),
        found,
    })
}

pub fn run(bytes: &[u8], size: usize) -> Result<(&[u8], &[u8]), Stop>
    ensures { Gives (λ x. (x.0.now, x.1.now)) result (run size bytes.now) }
{
    if bytes.len() < size {
        return Err(refusal(bytes, UfKind::Truncated, 0));
    }
    Ok(bytes.split_at(size))
}

#[tactic(auto, unfolding(vs_bytes::specs::Fields::number_of))]
pub fn u8_at(bytes: &[u8]) -> Result<(u8, &[u8]), Stop>
    ensures { Gives (λ x. (x.0, x.1.now)) result (number 1 bytes.now) }
{
    if bytes.len() < 1 {
        return Err(refusal(bytes, UfKind::Truncated, 0));
    }
    let (first, rest) = bytes.split_at(1);
    Ok((first[0], rest))
}

pub fn u16_at(bytes: &[u8]) -> Result<(u16, &[u8]), Stop>
    ensures gives { Gives (λ x. (x.0, x.1.now)) result (number 2 bytes.now) }
    ensures placed { IsErrOf result Stop.Memory → ⊥ }
{
    if bytes.len() < 2 {
        return Err(refusal(bytes, UfKind::Truncated, 0));
    }
    Ok((be_u16(bytes, 0), &bytes[2..]))
}

pub fn u32_at(bytes: &[u8]) -> Result<(u32, &[u8]), Stop>
    ensures { Gives (λ x. (x.0, x.1.now)) result (number 4 bytes.now) }
{
    if bytes.len() < 4 {
        return Err(refusal(bytes, UfKind::Truncated, 0));
    }
    Ok((be_u32(bytes, 0), &bytes[4..]))
}

pub fn u64_at(bytes: &[u8]) -> Result<(u64, &[u8]), Stop>
    ensures { Gives (λ x. (x.0, x.1.now)) result (number 8 bytes.now) }
{
    if bytes.len() < 8 {
        return Err(refusal(bytes, UfKind::Truncated, 0));
    }
    Ok((be_u64(bytes, 0), &bytes[8..]))
}

// A length, and that many bytes.
#[tactic(auto, unfolding(crate::specs::Reading::sized_run))]
pub fn sized_run(bytes: &[u8]) -> Result<(&[u8], &[u8]), Stop>
    ensures { Gives (λ x. (x.0.now, x.1.now)) result (sized_run bytes.now) }
{
    let (size, rest) = u32_at(bytes)?;
    run(rest, size as usize)
}

#[tactic(auto, unfolding(crate::specs::Reading::start))]
pub fn start(bytes: &[u8]) -> Result<(&[u8], &[u8]), Stop>
    ensures gives { Gives (λ x. (x.0.now, x.1.now)) result (start bytes.now) }
    ensures placed { IsErrOf result Stop.Memory → ⊥ }
{
    if !bytes.starts_with(&START) {
        return Err(refusal(bytes, UfKind::NotUndo, 0));
    }
    Ok((&START, &bytes[9..]))
}

pub fn version(bytes: &[u8]) -> Result<(u16, &[u8]), Stop>
    ensures gives { Gives (λ x. (x.0, x.1.now)) result (version bytes.now) }
    ensures placed { IsErrOf result Stop.Memory → ⊥ }
{
    let (version, rest) = u16_at(bytes)?;
    if version == 2 {
        return Ok((version, rest));
    }
    let kind = if version == 0x8002 {
        UfKind::Encrypted
    } else {
        UfKind::Version
    };
    Err(refusal(bytes, kind, version as u64))
}

// One of two magic numbers.
pub fn magic(bytes: &[u8], one: u16, other: u16) -> Result<(u16, &[u8]), Stop>
    ensures { Gives (λ x. (x.0, x.1.now)) result (checked 2 (magic_kind one other) bytes.now) }
{
    let (magic, rest) = u16_at(bytes)?;
    if magic == one {
        return Ok((magic, rest));
    }
    if magic == other {
        return Ok((magic, rest));
    }
    Err(refusal(bytes, UfKind::BadMagic, magic as u64))
}

fn save_number(bytes: &[u8]) -> Result<(u32, &[u8]), Stop>
    ensures { Gives (λ x. (x.0, x.1.now)) result (checked 4 save_number_kind bytes.now) }
{
    let (number, rest) = u32_at(bytes)?;
    if number > 2_000_000_000 {
        return Err(refusal(bytes, UfKind::NumberZero, number as u64));
    }
    Ok((number, rest))
}

#[tactic(auto, unfolding(crate::specs::Reading::option_data))]
fn option_data(bytes: &[u8], kind: u8, size: u8) -> Result<(Option<u32>, &[u8]), Stop>
    ensures { Gives (λ x. (x.0, x.1.now)) result (option_data kind size bytes.now) }
{
    if kind == 1 && size == 4 {
        let (save, rest) = save_number(bytes)?;
        return Ok((Some(save), rest));
    }
    let (_data, rest) = run(bytes, size as usize)?;
    Ok((None, rest))
}

// An optional field, or the zero length that ends them.
#[tactic(auto, unfolding(crate::specs::Reading::option_or_end))]
fn option_or_end(bytes: &[u8]) -> Result<(Option<Option<u32>>, &[u8]), Stop>
    ensures { Gives (λ x. (x.0, x.1.now)) result (option_or_end bytes.now) }
{
    let (size, rest) = u8_at(bytes)?;
    if size == 0 {
        return Ok((None, rest));
    }
    let (kind, rest) = u8_at(rest)?;
    let (found, rest) = option_data(rest, kind, size)?;
    Ok((Some(found), rest))
}

// Optional fields: the last save number, or 0.
pub fn options(bytes: &[u8]) -> Result<(u32, &[u8]), Stop>
    ensures { Gives (λ x. (x.0, x.1.now)) result (options bytes.now) }
{
    let mut save = 0;
    let mut rest = bytes;
    'fields: for _ in 0..bytes.len() + 1 {
        let (found, after) = option_or_end(rest)?;
        match found {
            None => return Ok((save, after)),
            Some(found) => save = found.unwrap_or(save),
        }
        rest = after;
    }
    Err(refusal(rest, UfKind::Truncated, 0))
}

// Cursor and virtual column, and then the flags.
#[tactic(auto, unfolding(crate::specs::Reading::flags))]
pub fn flags(bytes: &[u8]) -> Result<(bool, &[u8]), Stop>
    ensures { Gives (λ x. (x.0, x.1.now)) result (flags bytes.now) }
{
    let (_cursor, rest) = run(bytes, 12)?;
    let (_column, rest) = run(rest, 4)?;
    let (flags, rest) = u16_at(rest)?;
    Ok((flags / 2 % 2 == 1, rest))
}

// Marks and visual area.
#[tactic(auto, unfolding(crate::specs::Reading::marks))]
pub fn marks(bytes: &[u8]) -> Result<(u32, &[u8]), Stop>
    ensures { Gives (λ x. (x.0, x.1.now)) result (marks bytes.now) }
{
    let (count, rest) = each_mark(bytes)?;
    let (_positions, rest) = run(rest, 24)?;
    let (_mode, rest) = run(rest, 4)?;
    let (_wanted, rest) = run(rest, 4)?;
    Ok((count, rest))
}

fn each_mark(bytes: &[u8]) -> Result<(u32, &[u8]), Stop>
    ensures { Gives (λ x. (x.0, x.1.now)) result (repeat 26 next_mark 0 bytes.now) }
{
    let mut rest = bytes;
    'marks: for before in 0u32..26 {
        let (_mark, after) = run(rest, 12)?;
        rest = after;
    }
    Ok((26, rest))
}
