// One line in which a literal text is replaced.
ghost use Rattle.std.specs.Prelude.{◌≡◌, ◌≤◌, ◌<◌, ◌+◌, ◌-◌, ◌++◌, ◌∷◌, [], ℕ, List, Bool, true, false, IfOk, IfNone, IfSome, OnOk, IsTrue, length, take, drop};
ghost use Rattle.memchr.specs.Find.{matches};
ghost use Rattle.vs_text.specs.Text.{IsLine};
ghost use Rattle.vs_text.specs.Limits.{IsShort};
ghost use Rattle.vs_text.specs.declared.TheConstants.{MAX_LINE_BYTES};
ghost use Rattle.vs_exparse.specs.Pieces.{is_pattern, is_replacement, literal_of, replaced_by};
ghost use Rattle.vs_excmd.specs.Rewriting.{Finds, StandsIn, is_too_long};
ghost use Rattle.vs_excmd.specs.Substitute.{has_match, rebuilt, replaced};

use memchr::memmem::Finder;
use std::alloc::{AllocError, Global};
use vs_exparse::next_piece;
use vs_text::MAX_LINE_BYTES;

/// What comes of a line.
#[derive(Drop)]
pub(crate) enum Rewritten {
    /// The text does not stand in it.
    Unmatched,
    /// A new line.
    New(Vec<u8>),
    /// The new line would be too long.
    TooLong,
}

impl Rewritten {
    pub(crate) fn is_too_long(&self) -> bool
        ensures { result ≡ is_too_long self.now }
    {
        match self {
            Rewritten::TooLong => true,
            Rewritten::Unmatched | Rewritten::New(_) => false,
        }
    }
}

fn literal_bytes(alloc: Global, pattern: &[u8]) -> Result<Vec<u8>, AllocError>
    ensures { IfOk result (λ literal. literal.items ≡ literal_of pattern.now) }
{
    let mut literal = Vec::with_capacity(alloc, pattern.len())?;
    let mut rest = pattern;
    'pieces: while let Some((piece, after)) = next_piece(rest) {
        literal.push(piece.byte)?;
        rest = after;
    }
    Ok(literal)
}

/// The bytes that a pattern finds, of which there is at least one.
pub fn literal(alloc: Global, pattern: &[u8]) -> Result<Vec<u8>, AllocError>
    requires { IsTrue (is_pattern pattern.now) }
    ensures value { IfOk result (λ literal. literal.items ≡ literal_of pattern.now) }
    ensures some { IfOk result (λ literal. 0 < length literal.items) }
    ensures line { IfOk result (λ literal. IsLine literal.items) }
{
    let literal = literal_bytes(alloc, pattern)?;
    Ok(literal)
}

fn replacement_bytes(alloc: Global, found: &[u8], written: &[u8]) -> Result<Vec<u8>, AllocError>
    ensures value { IfOk result (λ new. StandsIn new.items (replaced_by found.now written.now)) }
    ensures front { IfOk result (λ new. new.items ≡ take (length new.items) (replaced_by found.now written.now)) }
{
    let mut new = Vec::with_capacity(alloc, written.len())?;
    let mut rest = written;
    'pieces: while new.len() as u64 <= MAX_LINE_BYTES
        && let Some((piece, after)) = next_piece(rest)
    {
        if !piece.escaped && piece.byte == b'&' {
            new.extend_from_slice(found)?;
        } else {
            new.push(piece.byte)?;
        }
        rest = after;
    }
    Ok(new)
}

/// What stands in the place of a match, as far as a line has room for it.
pub(crate) fn replacement(
    alloc: Global,
    found: &[u8],
    written: &[u8],
) -> Result<Vec<u8>, AllocError>
    requires found_line { IsLine found.now }
    requires form { IsTrue (is_replacement written.now) }
    ensures value { IfOk result (λ new. StandsIn new.items (replaced_by found.now written.now)) }
    ensures line { IfOk result (λ new. IsLine new.items) }
{
    let new = replacement_bytes(alloc, found, written)?;
    Ok(new)
}

// The first match from a place on.
fn first_place(line: &[u8], from: usize, finder: &Finder<'_>) -> Option<usize>
    requires within { from ≤ length line.now }
    requires some { 0 < length finder.now }
    ensures none { IfNone result (matches line.now finder.now from ≡ []) }
    ensures first { IfSome result (λ place. matches line.now finder.now from ≡ place ∷ matches line.now finder.now (place + length finder.now)) }
    ensures low { IfSome result (λ place. from ≤ place) }
    ensures high { IfSome result (λ place. place + length finder.now ≤ length line.now) }
{
    match finder.find(line.split_at(from).1) {
        None => None,
        Some(place) => Some(from + place),
    }
}

// Puts bytes after others, where a line has room for them.
fn put(out: &mut Vec<u8>, bytes: &[u8]) -> Result<bool, AllocError>
    requires { IsShort out.old.items }
    ensures put { IfOk result (λ fits. IsTrue fits → out.new.items ≡ out.old.items ++ bytes.now) }
    ensures short { IfOk result (λ fits. IsTrue fits → IsShort out.new.items) }
    ensures long { IfOk result (λ fits. fits ≡ false → MAX_LINE_BYTES < length (out.old.items ++ bytes.now)) }
{
    if bytes.len() > MAX_LINE_BYTES as usize - out.len() {
        return Ok(false);
    }
    out.extend_from_slice(bytes)?;
    Ok(true)
}

// Puts what stands before a match after other bytes, and then what stands in its place, where a line has room for both.
fn put_piece(
    out: &mut Vec<u8>,
    line: &[u8],
    from: usize,
    place: usize,
    new: &[u8],
) -> Result<bool, AllocError>
    requires short { IsShort out.old.items }
    requires order { from ≤ place }
    requires within { place ≤ length line.now }
    ensures put { IfOk result (λ fits. IsTrue fits → out.new.items ≡ out.old.items ++ (take (place - from) (drop from line.now) ++ new.now)) }
    ensures short { IfOk result (λ fits. IsTrue fits → IsShort out.new.items) }
    ensures long { IfOk result (λ fits. fits ≡ false → MAX_LINE_BYTES < length (out.old.items ++ (take (place - from) (drop from line.now) ++ new.now))) }
{
    let before = line.split_at(from).1.split_at(place - from).0;
    if !put(out, before)? {
        return Ok(false);
    }
    let fits = put(out, new)?;
    Ok(fits)
}

// The line with the match at this place replaced, which has this number of bytes.
#[inline(always)]
fn replace_one(
    alloc: Global,
    line: &[u8],
    place: usize,
    width: usize,
    new: &[u8],
) -> Result<Rewritten, AllocError>
    requires within { place + width ≤ length line.now }
    ensures finds { IfOk result (Finds (λ _. true) (λ bytes. rebuilt bytes width new.now 0 (place ∷ [])) line.now) }
{
    let before = line.split_at(place).0;
    let after = line.split_at(place + width).1;
    let kept = before.len() + after.len();
    if kept > MAX_LINE_BYTES as usize || new.len() > MAX_LINE_BYTES as usize - kept {
        return Ok(Rewritten::TooLong);
    }
    let mut out = Vec::with_capacity(alloc, kept + new.len())?;
    out.extend_from_slice(before)?;
    out.extend_from_slice(new)?;
    out.extend_from_slice(after)?;
    Ok(Rewritten::New(out))
}

/// The line with its first match replaced, or all matches. What stands in the place of a match is the same for each.
#[inline(always)]
pub(crate) fn rewrite_line(
    alloc: Global,
    line: &[u8],
    finder: &Finder<'_>,
    new: &[u8],
    all: bool,
) -> Result<Rewritten, AllocError>
    requires some { 0 < length finder.now }
    ensures finds { IfOk result (λ found. Finds (has_match finder.now) (replaced all finder.now new.now) line.now found) }
{
    let Some(first) = first_place(line, 0, finder) else {
        return Ok(Rewritten::Unmatched);
    };
    let width = finder.needle().len();
    if !all {
        let found = replace_one(alloc, line, first, width, new)?;
        return Ok(found);
    }
    let mut out = Vec::with_capacity(alloc, line.len().saturating_add(new.len()))?;
    if !put_piece(&mut out, line, 0, first, new)? {
        return Ok(Rewritten::TooLong);
    }
    let mut from = first + width;
    'places: while let Some(place) = first_place(line, from, finder) {
        if !put_piece(&mut out, line, from, place, new)? {
            return Ok(Rewritten::TooLong);
        }
        from = place + width;
    }
    if !put(&mut out, line.split_at(from).1)? {
        return Ok(Rewritten::TooLong);
    }
    Ok(Rewritten::New(out))
}
