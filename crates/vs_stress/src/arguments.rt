// The number of commands, and the line that is written.
ghost use Rattle.std.specs.Prelude.{◌≡◌, ◌++◌, IfOk, IfSome, IsNone, OnOk, decimal, ℕ};
ghost use Rattle.vs_stress.specs.Arguments.{IsCount, summary_line};

use itoa::Buffer;
use std::alloc::{AllocError, Global};

/// The greatest number of commands.
const MOST: u64 = 100_000;

/// The digits of a number of commands, at most.
const MOST_DIGITS: usize = 6;

/// The number of commands that an argument says: one to six decimal digits without a sign, from 1 to 100,000.
pub fn count_of(word: &str) -> Option<u64>
    ensures some { IfSome result (λ count. IsCount word.now count) }
    ensures none { IsNone result → (count : ℕ) → ¬ IsCount word.now count }
{
    let bytes = word.as_bytes();
    if bytes.len() > MOST_DIGITS || bytes.first() == Some(&b'+') {
        return None;
    }
    let count = word.parse::<u64>().ok()?;
    if count == 0 || count > MOST {
        return None;
    }
    Some(count)
}

// Adds a number and what stands after it.
fn push_number(number: u64, after: &[u8], line: &mut Vec<u8>) -> Result<(), AllocError>
    ensures { OnOk result (line.new.items ≡ line.old.items ++ (decimal number ++ after.now)) }
{
    let mut digits = Buffer::new();
    line.extend_from_slice(digits.format(number).as_bytes())?;
    line.extend_from_slice(after)?;
    Ok(())
}

/// The line that the stress mode writes, with its newline.
pub fn summary_line(
    alloc: Global,
    count: u64,
    lines: u64,
    changes: u64,
    syncs: u64,
    digest: [u8; 32],
) -> Result<Vec<u8>, AllocError>
    ensures { IfOk result (λ line. line.items ≡ summary_line count lines changes syncs digest) }
{
    let mut line = Vec::from_slice(alloc, b"stress ")?;
    push_number(count, b": ", &mut line)?;
    push_number(lines, b" lines, ", &mut line)?;
    push_number(changes, b" changes, ", &mut line)?;
    push_number(syncs, b" syncs, ", &mut line)?;
    line.extend_from_slice(hex::encode(alloc, digest)?.as_bytes())?;
    line.push(b'\n')?;
    Ok(line)
}
