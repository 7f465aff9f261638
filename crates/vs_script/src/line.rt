// Room for one line of a script.
ghost use Rattle.std.specs.Prelude.{◌≡◌, ◌≤◌, ◌+◌, ◌++◌, [], List, ℕ, length, take, IfOk};
ghost use Rattle.std.specs.Vec.{vec_capacity};
ghost use Rattle.vs_exparse.specs.Bytes.{max_line_bytes};
ghost use Rattle.vs_script.specs.Ahead.{Kept};

use std::alloc::{AllocError, Global};
use std::marker::Model;

/// How many bytes decide what a line means, also where that is to be too long.
const KEPT_BYTES: usize = 1_048_577;

/// Keeps the first 1,048,577 bytes of a line of a script, and as many more as a prefix of the line has. Seen as this number and the
/// bytes that are kept.
#[derive(Drop)]
pub struct LineBuffer {
    bytes: Vec<u8>,
    room: usize,
}

impl Model for LineBuffer {
    ghost Value = { Kept };

    ghost view = { λ line. record { room = line.room; bytes = line.bytes.items } };

    ghost invariant = { λ line. record {
      least : max_line_bytes + 1 ≤ line.room;
      room : line.room ≤ vec_capacity line.bytes;
      few : length line.bytes.items ≤ line.room;
    } };
}

impl LineBuffer {
    /// Takes the room, and no memory later.
    pub fn new(alloc: Global) -> Result<LineBuffer, AllocError>
        ensures { IfOk result (λ line. line ≡ record { room = max_line_bytes + 1; bytes = [] }) }
    {
        LineBuffer::with_prefix(alloc, 0)
    }

    /// For lines that have a prefix of so many bytes before what they mean. Takes the room, and no memory later.
    pub fn with_prefix(alloc: Global, prefix: u8) -> Result<LineBuffer, AllocError>
        ensures { IfOk result (λ line. line ≡ record { room = max_line_bytes + 1 + prefix; bytes = [] }) }
    {
        let room = KEPT_BYTES + usize::from(prefix);
        Ok(LineBuffer {
            bytes: Vec::with_capacity(alloc, room)?,
            room,
        })
    }

    /// The bytes that are kept of the line, without its end.
    pub fn bytes(&self) -> &[u8]
        ensures bytes { result.now ≡ self.now.bytes }
        ensures room { max_line_bytes + 1 ≤ self.now.room }
    {
        self.bytes.as_slice()
    }

    pub(crate) fn clear(&mut self)
        ensures { self.new ≡ record self.old { bytes = [] } }
    {
        self.bytes.clear();
    }

    /// The line goes on with these bytes.
    pub(crate) fn add(&mut self, piece: &[u8])
        ensures { self.new ≡ record self.old { bytes = take self.old.room (self.old.bytes ++ piece.now) } }
    {
        let room = self.room - self.bytes.len();
        let count = piece.len().min(room);
        let _ = self.bytes.extend_from_slice(&piece[..count]);
    }
}
