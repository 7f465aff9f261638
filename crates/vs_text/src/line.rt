ghost use Rattle.std.specs.Prelude.{◌≡◌, List, ℕ, IfOk, IfErr, OnOk};
ghost use Rattle.vs_text.specs.Text.{IsLine};
ghost use Rattle.vs_text.specs.Limits.{IsShort, IsLineRefusal};

use crate::{MAX_LINE_BYTES, TextErr};
use std::alloc::{AllocError, Global};
use std::marker::Model;

/// A line of a text: its bytes without the end, none of them 10.
#[derive(Debug, Drop)]
pub struct Line {
    bytes: Vec<u8>,
}

impl Model for Line {
    ghost Value = { List ℕ };

    ghost view = { λ line. line.bytes.items };

    ghost invariant = { λ line. IsLine line.bytes.items };
}

impl Line {
    /// A line with a copy of these bytes, within the limit of a line's length.
    pub fn of(alloc: Global, bytes: &[u8]) -> Result<Line, TextErr>
        requires { IsLine bytes.now }
        ensures line { IfOk result (λ line. line ≡ bytes.now) }
        ensures short { OnOk result (IsShort bytes.now) }
        ensures refused { IfErr result (IsLineRefusal bytes.now) }
    {
        let size = bytes.len() as u64;
        if size > MAX_LINE_BYTES {
            return Err(TextErr::LineTooLong(size));
        }
        Ok(Line::from_vec(Vec::from_slice(alloc, bytes)?))
    }

    /// A line with a copy of these bytes, of any length.
    pub fn raw(alloc: Global, bytes: &[u8]) -> Result<Line, AllocError>
        requires { IsLine bytes.now }
        ensures { IfOk result (λ line. line ≡ bytes.now) }
    {
        Ok(Line::from_vec(Vec::from_slice(alloc, bytes)?))
    }

    /// The line of bytes that are already owned, of any length.
    pub fn from_vec(bytes: Vec<u8>) -> Line
        requires { IsLine bytes.items }
        ensures { result ≡ bytes.items }
    {
        Line { bytes }
    }

    /// The bytes, without the line end.
    pub fn bytes(&self) -> &[u8]
        ensures bytes { result.now ≡ self.now }
        ensures line { IsLine self.now }
    {
        self.bytes.as_slice()
    }

    /// The bytes themselves, in the memory that the line had.
    pub fn into_vec(self) -> Vec<u8>
        ensures bytes { result.items ≡ self }
        ensures line { IsLine self }
    {
        self.bytes
    }
}

impl Clone for Line {
    ghost is_clone = { λ line copy. copy ≡ line };

    fn clone(&self) -> Result<Line, AllocError>
        ensures copy { IfOk result (λ copy. copy ≡ self.now) }
        ensures line { IsLine self.now }
    {
        let bytes = Vec::from_slice(*self.bytes.allocator(), &self.bytes)?;
        Ok(Line { bytes })
    }
}
