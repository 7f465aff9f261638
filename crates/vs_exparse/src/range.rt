// Addresses and ranges at the front of a line.

ghost use Rattle.std.specs.Prelude.{unwrap_or, [], ◌+ℤ◌, IfNone, IfSome, ◌≡◌, ◌≤◌, ◌+◌, ◌*◌, ◌^◌, ◌≤ℤ◌, pos, neg_ℤ, ℕ, length, not};
ghost use Rattle.vs_exparse.specs.Bytes.{begins_with, max_line_bytes, max_number, is_sign, is_empty};
ghost use Rattle.vs_exparse.specs.Range.{GoesOn, offset_of, offsets_of, sum_of, base_of, address_of, range_of, is_given, here};

use crate::bytes::{after, number, skip_blanks, split_digits};
use crate::command::{Address, Base, Range};

/// The current line.
const HERE: Address = Address {
    base: Base::Current,
    offset: 0,
};

fn starts_signed(line: &[u8]) -> bool
    ensures { result ≡ begins_with is_sign line.now }
{
    matches!(line, [b'+' | b'-', ..])
}

/// What a sign with its digits adds.
fn offset(sign: u8, digits: &[u8]) -> i64
    ensures value { result ≡ offset_of (sign, digits.now) }
    ensures low { neg_ℤ (pos max_number) ≤ℤ result }
    ensures high { result ≤ℤ pos max_number }
{
    let size = if digits.is_empty() {
        1
    } else {
        i64::from(number(digits))
    };
    if sign == b'+' { size } else { -size }
}

/// The first offset at the front of a line, and what is left.
fn next_offset(line: &[u8]) -> Option<(i64, &[u8])>
    ensures none { IfNone result (offsets_of line.now ≡ record { value = []; rest = line.now }) }
    ensures some { IfSome result (λ first. GoesOn line.now first.0 first.1.now) }
{
    if !starts_signed(line) {
        return None;
    }
    let (digits, rest) = split_digits(line.split_at(1).1);
    let first = offset(line[0], digits);
    Some((first, rest))
}

/// The sum of the offsets at the front of a line, and what is left.
fn read_offsets(line: &[u8]) -> (i64, &[u8])
    requires { length line.now ≤ max_line_bytes + 1 }
    ensures sum { result.0 ≡ sum_of (offsets_of line.now).value }
    ensures rest { result.1.now ≡ (offsets_of line.now).rest }
    ensures shorter { length result.1.now ≤ length line.now }
{
    let mut sum = 0i64;
    let mut rest = line;
    'offsets: while let Some((offset, after)) = next_offset(rest) {
        sum += offset;
        rest = after;
    }
    (sum, rest)
}

fn read_base(line: &[u8]) -> (Option<Base>, &[u8])
    ensures base { result.0 ≡ (base_of line.now).value }
    ensures rest { result.1.now ≡ (base_of line.now).rest }
    ensures shorter { length result.1.now ≤ length line.now }
{
    match line {
        [b'.', rest @ ..] => (Some(Base::Current), rest),
        [b'$', rest @ ..] => (Some(Base::Last), rest),
        [byte, ..] if byte.is_ascii_digit() => {
            let (digits, rest) = split_digits(line);
            (Some(Base::Number(number(digits))), rest)
        }
        _ => (None, line),
    }
}

/// The address at the front of a line, and what is left.
pub(crate) fn read_address(line: &[u8]) -> (Option<Address>, &[u8])
    requires { length line.now ≤ max_line_bytes + 1 }
    ensures address { result.0 ≡ (address_of line.now).value }
    ensures rest { result.1.now ≡ (address_of line.now).rest }
    ensures shorter { length result.1.now ≤ length line.now }
{
    let (base, after) = read_base(line);
    let signed = starts_signed(after);
    let (offset, rest) = read_offsets(after);
    match base {
        None if !signed => (None, rest),
        None => {
            let address = Address {
                base: Base::Current,
                offset,
            };
            (Some(address), rest)
        }
        Some(base) => (Some(Address { base, offset }), rest),
    }
}

/// The range at the front of a line, and what is left after it and its blanks.
pub(crate) fn read_range(line: &[u8]) -> (Range, &[u8])
    requires { length line.now ≤ max_line_bytes + 1 }
    ensures range { result.0 ≡ (range_of line.now).value }
    ensures rest { result.1.now ≡ (range_of line.now).rest }
    ensures shorter { length result.1.now ≤ length line.now }
{
    let start = skip_blanks(line);
    if let Some(rest) = after(b"%", start) {
        return (Range::All, skip_blanks(rest));
    }
    let (first, rest) = read_address(start);
    let rest = skip_blanks(rest);
    if let Some(rest) = after(b",", rest) {
        let (second, rest) = read_address(skip_blanks(rest));
        let range = Range::Two(first.unwrap_or(HERE), second.unwrap_or(HERE));
        return (range, skip_blanks(rest));
    }
    match first {
        None => (Range::Absent, rest),
        Some(address) => (Range::One(address), rest),
    }
}

pub(crate) fn is_given(range: Range) -> bool
    ensures { result ≡ is_given range }
{
    match range {
        Range::Absent => false,
        Range::All | Range::One(_) | Range::Two(_, _) => true,
    }
}
