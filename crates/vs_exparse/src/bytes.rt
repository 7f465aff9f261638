// Classes of bytes, runs of them at the front of a line, and the numbers that digits say.

ghost use Rattle.std.specs.Prelude.{◌≡◌, ◌≤◌, ◌+◌, drop, length, false, true, IfNone, IfSome};
ghost use Rattle.std.specs.List.{prefix_len, list_all};
ghost use Rattle.vs_exparse.specs.Bytes.{is_digit, is_letter, is_blank, is_lead, run, skip, number_of, begins};

/// The greatest number that a command line says. One above it counts as this.
const MAX_NUMBER: u64 = 2_147_483_647;

fn is_blank(byte: u8) -> bool
    ensures { result ≡ is_blank byte }
{
    matches!(byte, b' ' | b'\t')
}

fn is_lead(byte: u8) -> bool
    ensures { result ≡ is_lead byte }
{
    matches!(byte, b' ' | b'\t' | b':')
}

/// What stands after `text`, where the line begins with it.
pub(crate) fn after<'a>(text: &[u8], line: &'a [u8]) -> Option<&'a [u8]>
    ensures none { IfNone result (begins text.now line.now ≡ false) }
    ensures some { IfSome result (λ rest. begins text.now line.now ≡ true) }
    ensures rest { IfSome result (λ rest. rest.now ≡ drop (length text.now) line.now) }
    ensures shorter { IfSome result (λ rest. length rest.now + length text.now ≡ length line.now) }
{
    if !line.starts_with(text) {
        return None;
    }
    Some(line.split_at(text.len()).1)
}

pub(crate) fn all_digits(text: &[u8]) -> bool
    ensures { result ≡ list_all is_digit text.now }
{
    text.iter().all(|byte| byte.is_ascii_digit())
}

fn digits_len(line: &[u8]) -> usize
    ensures value { result ≡ prefix_len is_digit line.now }
    ensures within { result ≤ length line.now }
{
    line.iter().take_while(|byte| byte.is_ascii_digit()).count()
}

fn letters_len(line: &[u8]) -> usize
    ensures value { result ≡ prefix_len is_letter line.now }
    ensures within { result ≤ length line.now }
{
    line.iter()
        .take_while(|byte| byte.is_ascii_alphabetic())
        .count()
}

fn blanks_len(line: &[u8]) -> usize
    ensures value { result ≡ prefix_len is_blank line.now }
    ensures within { result ≤ length line.now }
{
    line.iter().take_while(|byte| is_blank(**byte)).count()
}

fn leads_len(line: &[u8]) -> usize
    ensures value { result ≡ prefix_len is_lead line.now }
    ensures within { result ≤ length line.now }
{
    line.iter().take_while(|byte| is_lead(**byte)).count()
}

/// The digits at the front of a line, and what is left.
pub(crate) fn split_digits(line: &[u8]) -> (&[u8], &[u8])
    ensures digits { result.0.now ≡ run is_digit line.now }
    ensures rest { result.1.now ≡ skip is_digit line.now }
    ensures shorter { length result.1.now ≤ length line.now }
{
    line.split_at(digits_len(line))
}

/// The letters at the front of a line, and what is left.
pub(crate) fn split_letters(line: &[u8]) -> (&[u8], &[u8])
    ensures letters { result.0.now ≡ run is_letter line.now }
    ensures rest { result.1.now ≡ skip is_letter line.now }
    ensures shorter { length result.1.now ≤ length line.now }
{
    line.split_at(letters_len(line))
}

/// What is left after the blanks, which are spaces and tabs, at the front of a line.
pub fn skip_blanks(line: &[u8]) -> &[u8]
    ensures rest { result.now ≡ skip is_blank line.now }
    ensures shorter { length result.now ≤ length line.now }
{
    line.split_at(blanks_len(line)).1
}

/// What is left after the blanks and colons at the front of a line.
pub(crate) fn skip_leads(line: &[u8]) -> &[u8]
    ensures rest { result.now ≡ skip is_lead line.now }
    ensures shorter { length result.now ≤ length line.now }
{
    line.split_at(leads_len(line)).1
}

/// The number that digits say, or the greatest one.
pub(crate) fn number(digits: &[u8]) -> u32
    ensures { result ≡ number_of digits.now }
{
    let mut number = 0u64;
    for digit in digits {
        number = MAX_NUMBER.min(number * 10 + u64::from(digit.saturating_sub(b'0')));
    }
    number as u32
}
