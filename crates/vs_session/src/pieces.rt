// A file that is read piece by piece.
ghost use Rattle.std.specs.Prelude.{◌≡◌, ◌<◌, ◌≤◌, ◌+◌, [], IfOk, IfSome, IsErr, IsSomeAnd, IsTrue, OnOk, length};
ghost use Rattle.vs_host.specs.World.{content_of};
ghost use Rattle.vs_session.specs.Open.{IsLook};
ghost use Rattle.vs_session.specs.Pieces.{IsPieceOf};

use crate::looking::read_bytes;
use std::alloc::{AllocError, Global};
use std::marker::Model;
use vs_host::{Failed, Folder};

/// Bytes of a file that are read at a time.
const PIECE: usize = 65_536;

/// A file of which one piece is at hand.
#[derive(Drop)]
pub(crate) struct FilePieces {
    size: u64,
    // Where the piece begins, and how many bytes it has: at first none.
    at: u64,
    count: usize,
    buffer: Vec<u8>,
}

impl Model for FilePieces {
    ghost use Rattle.std.specs.Prelude.{◌≡◌, ◌≤◌, take, vec_len};
    ghost use Rattle.vs_session.specs.Pieces.{FilePiece};
    ghost use Rattle.vs_session.specs.declared.pieces.TheConstants.{PIECE};

    ghost Value = { FilePiece };

    ghost view = { λ p. record { size = p.size; at = p.at; bytes = take p.count p.buffer.items } };

    ghost invariant = { λ p. (vec_len p.buffer ≡ PIECE) × (p.count ≤ PIECE) };
}

impl FilePieces {
    /// A file of so many bytes, of which none are at hand.
    pub(crate) fn new(alloc: Global, size: u64) -> Result<FilePieces, AllocError>
        ensures { IfOk result (λ pieces. pieces ≡ record { size = size; at = 0; bytes = [] }) }
    {
        Ok(FilePieces {
            size,
            at: 0,
            count: 0,
            buffer: vec![in alloc; 0u8; PIECE]?,
        })
    }

    /// The number of bytes of the file.
    pub(crate) fn size(&self) -> u64
        ensures { result ≡ self.now.size }
    {
        self.size
    }

    /// The bytes of the piece at hand.
    pub(crate) fn bytes(&self) -> &[u8]
        ensures { result.now ≡ self.now.bytes }
    {
        &self.buffer[..self.count]
    }

    /// Gets the piece that begins at a place, by a call where it is not at hand.
    pub(crate) fn load<F: Folder>(
        &mut self,
        host: &mut F,
        name: &str,
        at: u64,
    ) -> Result<(), Failed>
        requires within { at < self.old.size }
        requires there { IsTrue F.tells.folder → IsSomeAnd (content_of (F.scene host.old) name.now) (λ bytes. self.old.size ≡ length bytes) }
        requires at_hand { IsTrue F.tells.folder → IfSome (content_of (F.scene host.old) name.now) (λ bytes. IsPieceOf bytes self.old) }
        ensures size { self.new.size ≡ self.old.size }
        ensures begins { self.new.at ≡ at }
        ensures some { 0 < length self.new.bytes }
        ensures within { at + length self.new.bytes ≤ self.new.size }
        ensures at_hand { OnOk result (IsTrue F.tells.folder
            → IfSome (content_of (F.scene host.old) name.now) (λ bytes. IsPieceOf bytes self.new)) }
        ensures look { IsLook F.tells result (IsErr result) (F.scene host.old) (F.scene host.new) }
    {
        let count = (self.size - at).min(PIECE as u64) as usize;
        if self.at == at && self.count == count {
            return Ok(());
        }
        self.at = at;
        self.count = count;
        read_bytes(host, name, at, count, &mut self.buffer)
    }
}
