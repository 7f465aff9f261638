// Filling a file, with the text or with the bytes of another file, in pieces.
ghost use Rattle.std.specs.Prelude.{◌≡◌, ◌≢◌, ◌≤◌, ◌<◌, ◌+◌, ◌*◌, ◌^◌, ◌++◌, [], ℕ, List, length, take, IfOk, IfSome, MatchOption, OnOk, OnErr, IsErr, IsErrOf, IsTrue, Some, None, IsSome, IsSomeAnd};
ghost use Rattle.vs_text.specs.Documents.{file_in};
ghost use Rattle.vs_host.specs.Disk.{mode_in};
ghost use Rattle.vs_host.specs.World.{content_of};
ghost use Rattle.vs_disk.specs.Images.{IsSynced};
ghost use Rattle.vs_disk.specs.Runs.{Runs};
ghost use Rattle.vs_backup.specs.Desks.{GoesOn};
ghost use Rattle.vs_backup.specs.Ends.{dos_ends, ends_in};
ghost use Rattle.vs_backup.specs.Modes.{Makes, TakesMode};
ghost use Rattle.vs_backup.specs.Works.{ChangesOne, Fills, IsAlone, Widens};

use crate::Desk;
use crate::errors::Stop;
use crate::files::sync_like;
use memchr::memchr;
use std::alloc::Global;
use vs_host::Failed;
use vs_reads::run_lines;
use vs_text::Format;

/// The greatest number of bytes that are read or written in one call.
pub(crate) const PIECE: usize = 65_536;

/// Writes a piece at the end of a file.
fn put_piece<D: Desk>(desk: &mut D, name: &str, at: u64, piece: &[u8]) -> Result<(), Failed>
    requires valid { D.valid desk.old }
    requires apart { D.reads desk.old name.now → ⊥ }
    requires few { length piece.now ≤ PIECE }
    requires there { IsTrue (D.tells).folder → IsSomeAnd (content_of (D.scene desk.old) name.now) (λ bytes. at ≡ length bytes) }
    ensures runs { IsTrue (D.tells).folder → Runs (Fills name.now) (D.scene desk.old) (D.scene desk.new) }
    ensures ok { OnOk result (IsTrue (D.tells).folder → (bytes : List ℕ) → content_of (D.scene desk.old) name.now ≡ Some bytes
        → content_of (D.scene desk.new) name.now ≡ Some (bytes ++ piece.now)) }
    ensures kept { GoesOn D.tells D.scene D.valid D.stays (IsErr result) desk.old desk.new }
{
    desk.write_at(name, at, piece)
}

/// Writes the piece at the end of a file that has `size` bytes, and empties it. Gives the size then.
fn flush<D: Desk>(desk: &mut D, name: &str, size: u64, piece: &mut Vec<u8>) -> Result<u64, Failed>
    requires valid { D.valid desk.old }
    requires apart { D.reads desk.old name.now → ⊥ }
    requires few { length piece.old.items ≤ PIECE }
    requires small { size + length piece.old.items < 2 ^ 64 }
    requires there { IsTrue (D.tells).folder → IsSomeAnd (content_of (D.scene desk.old) name.now) (λ bytes. size ≡ length bytes) }
    ensures runs { IsTrue (D.tells).folder → Runs (Fills name.now) (D.scene desk.old) (D.scene desk.new) }
    ensures ok { OnOk result (IsTrue (D.tells).folder → (bytes : List ℕ) → content_of (D.scene desk.old) name.now ≡ Some bytes
        → content_of (D.scene desk.new) name.now ≡ Some (bytes ++ piece.old.items)) }
    ensures size { IfOk result (λ now. now ≡ size + length piece.old.items) }
    ensures empty { OnOk result (piece.new.items ≡ []) }
    ensures kept { GoesOn D.tells D.scene D.valid D.stays (IsErr result) desk.old desk.new }
{
    if piece.is_empty() {
        return Ok(size);
    }
    put_piece(desk, name, size, piece)?;
    let now = size + piece.len() as u64;
    piece.clear();
    Ok(now)
}

/// Adds bytes to the piece, which is written at the end of a file each time that it is full. Gives the size of the file then.
fn put_bytes<D: Desk>(
    desk: &mut D,
    name: &str,
    size: u64,
    piece: &mut Vec<u8>,
    bytes: &[u8],
) -> Result<u64, Stop>
    requires valid { D.valid desk.old }
    requires apart { D.reads desk.old name.now → ⊥ }
    requires few { length piece.old.items ≤ PIECE }
    requires small { size + length piece.old.items + length bytes.now < 2 ^ 64 }
    requires there { IsTrue (D.tells).folder → IsSomeAnd (content_of (D.scene desk.old) name.now) (λ before. size ≡ length before) }
    ensures runs { IsTrue (D.tells).folder → Runs (Fills name.now) (D.scene desk.old) (D.scene desk.new) }
    ensures ok { IfOk result (λ now. IsTrue (D.tells).folder → (before : List ℕ) → content_of (D.scene desk.old) name.now ≡ Some before
        → (after : List ℕ) × (content_of (D.scene desk.new) name.now ≡ Some after) × (now ≡ length after)
        × (after ++ piece.new.items ≡ before ++ piece.old.items ++ bytes.now)) }
    ensures size { IfOk result (λ now. now + length piece.new.items ≡ size + length piece.old.items + length bytes.now) }
    ensures few { OnOk result (length piece.new.items ≤ PIECE) }
    ensures kept { GoesOn D.tells D.scene D.valid D.stays (IsErrOf result Stop.Failed) desk.old desk.new }
{
    let mut now = size;
    let mut rest = bytes;
    'pieces: while rest.len() > PIECE - piece.len() {
        let (first, after) = rest.split_at(PIECE - piece.len());
        piece.extend_from_slice(first)?;
        now = flush(desk, name, now, piece)?;
        rest = after;
    }
    piece.extend_from_slice(rest)?;
    Ok(now)
}

/// Adds lines to the piece as [`put_bytes`] does, with a byte 13 before each byte 10.
fn put_dos_lines<D: Desk>(
    desk: &mut D,
    name: &str,
    size: u64,
    piece: &mut Vec<u8>,
    lines: &[u8],
) -> Result<u64, Stop>
    requires valid { D.valid desk.old }
    requires apart { D.reads desk.old name.now → ⊥ }
    requires few { length piece.old.items ≤ PIECE }
    requires small { size + length piece.old.items + length (dos_ends lines.now) < 2 ^ 64 }
    requires there { IsTrue (D.tells).folder → IsSomeAnd (content_of (D.scene desk.old) name.now) (λ before. size ≡ length before) }
    ensures runs { IsTrue (D.tells).folder → Runs (Fills name.now) (D.scene desk.old) (D.scene desk.new) }
    ensures ok { IfOk result (λ now. IsTrue (D.tells).folder → (before : List ℕ) → content_of (D.scene desk.old) name.now ≡ Some before
        → (after : List ℕ) × (content_of (D.scene desk.new) name.now ≡ Some after) × (now ≡ length after)
        × (after ++ piece.new.items ≡ before ++ piece.old.items ++ dos_ends lines.now)) }
    ensures size { IfOk result (λ now. now + length piece.new.items ≡ size + length piece.old.items + length (dos_ends lines.now)) }
    ensures few { OnOk result (length piece.new.items ≤ PIECE) }
    ensures kept { GoesOn D.tells D.scene D.valid D.stays (IsErrOf result Stop.Failed) desk.old desk.new }
{
    let mut now = size;
    let mut rest = lines;
    'lines: while let Some(end) = memchr(b'\n', rest) {
        let (line, after) = rest.split_at(end);
        now = put_bytes(desk, name, now, piece, line)?;
        now = put_bytes(desk, name, now, piece, b"\r\n")?;
        rest = &after[1..];
    }
    put_bytes(desk, name, now, piece, rest)
}

/// Adds lines, each of which ends in byte 10, to the piece as [`put_bytes`] does, with the line ends of the format.
fn put_lines<D: Desk>(
    desk: &mut D,
    name: &str,
    size: u64,
    piece: &mut Vec<u8>,
    lines: &[u8],
    format: Format,
) -> Result<u64, Stop>
    requires valid { D.valid desk.old }
    requires apart { D.reads desk.old name.now → ⊥ }
    requires few { length piece.old.items ≤ PIECE }
    requires small { size + length piece.old.items + length (ends_in format lines.now) < 2 ^ 64 }
    requires there { IsTrue (D.tells).folder → IsSomeAnd (content_of (D.scene desk.old) name.now) (λ before. size ≡ length before) }
    ensures runs { IsTrue (D.tells).folder → Runs (Fills name.now) (D.scene desk.old) (D.scene desk.new) }
    ensures ok { IfOk result (λ now. IsTrue (D.tells).folder → (before : List ℕ) → content_of (D.scene desk.old) name.now ≡ Some before
        → (after : List ℕ) × (content_of (D.scene desk.new) name.now ≡ Some after) × (now ≡ length after)
        × (after ++ piece.new.items ≡ before ++ piece.old.items ++ ends_in format lines.now)) }
    ensures size { IfOk result (λ now. now + length piece.new.items ≡ size + length piece.old.items + length (ends_in format lines.now)) }
    ensures few { OnOk result (length piece.new.items ≤ PIECE) }
    ensures kept { GoesOn D.tells D.scene D.valid D.stays (IsErrOf result Stop.Failed) desk.old desk.new }
{
    match format {
        Format::Unix => put_bytes(desk, name, size, piece, lines),
        Format::Dos => put_dos_lines(desk, name, size, piece, lines),
    }
}

/// Writes the text into an empty file, in a format. Gives the number of bytes.
fn write_text<D: Desk>(
    alloc: Global,
    desk: &mut D,
    name: &str,
    piece: &mut Vec<u8>,
    format: Format,
) -> Result<u64, Stop>
    requires valid { D.valid desk.old }
    requires apart { D.reads desk.old name.now → ⊥ }
    requires empty { IsTrue (D.tells).folder → content_of (D.scene desk.old) name.now ≡ Some [] }
    ensures runs { IsTrue (D.tells).folder → Runs (Fills name.now) (D.scene desk.old) (D.scene desk.new) }
    ensures ok { IfOk result (λ size. IsTrue (D.tells).folder → (text : List (List ℕ)) → D.has_text desk.old text
        → (size ≡ length (file_in format text)) × (content_of (D.scene desk.new) name.now ≡ Some (file_in format text))) }
    ensures kept { GoesOn D.tells D.scene D.valid D.stays (IsErrOf result Stop.Failed) desk.old desk.new }
{
    piece.clear();
    let mut lines = Vec::new(alloc);
    let mut size = 0;
    let mut at = 0;
    let end = desk.text_len();
    'runs: while at < end {
        let count = run_lines(at, size + piece.len() as u64).min(end - at);
        desk.text_lines(alloc, at, count, &mut lines)?;
        size = put_lines(desk, name, size, piece, &lines, format)?;
        at += count;
    }
    let size = flush(desk, name, size, piece)?;
    Ok(size)
}

/// Writes the text into an empty file in a format, gives it the mode bits of the model, if there is one, and syncs it. Gives the
/// number of bytes.
pub(crate) fn fill_text<D: Desk>(
    alloc: Global,
    desk: &mut D,
    name: &str,
    model: Option<&str>,
    piece: &mut Vec<u8>,
    format: Format,
) -> Result<u64, Stop>
    requires valid { D.valid desk.old }
    requires apart { D.reads desk.old name.now → ⊥ }
    requires apart_model { IfSome model (λ model. D.reads desk.old model.now → ⊥) }
    requires empty { IsTrue (D.tells).folder → content_of (D.scene desk.old) name.now ≡ Some [] }
    ensures runs { IsTrue (D.tells).folder → Runs (ChangesOne name.now) (D.scene desk.old) (D.scene desk.new) }
    ensures ok { IfOk result (λ size. IsTrue (D.tells).folder → (text : List (List ℕ)) → D.has_text desk.old text
        → (size ≡ length (file_in format text)) × IsSynced name.now (file_in format text) (D.scene desk.new).folder) }
    ensures err { OnErr result (IsTrue (D.tells).folder → Widens name.now (D.scene desk.old).folder (D.scene desk.new).folder) }
    ensures modes { MatchOption model.entry (Makes (D.tells).folder None (D.scene desk.old) (D.scene desk.new))
        (λ model. Makes (D.tells).folder (mode_in (D.scene desk.old).folder model.now) (D.scene desk.old) (D.scene desk.new)) }
    ensures mode { OnOk result (MatchOption model.entry (TakesMode (D.tells).folder name.now name.now (D.scene desk.old) (D.scene desk.new))
        (λ model. TakesMode (D.tells).folder model.now name.now (D.scene desk.old) (D.scene desk.new))) }
    ensures kept { GoesOn D.tells D.scene D.valid D.stays (IsErrOf result Stop.Failed) desk.old desk.new }
{
    let size = write_text(alloc, desk, name, piece, format)?;
    sync_like(desk, model, name)?;
    Ok(size)
}

/// Copies as many bytes as the buffer has, from the place `at` on, to the end of a file that has the bytes before them.
fn copy_piece<D: Desk>(
    desk: &mut D,
    from: &str,
    to: &str,
    at: u64,
    buffer: &mut [u8],
) -> Result<(), Failed>
    requires valid { D.valid desk.old }
    requires apart { D.reads desk.old from.now → ⊥ }
    requires apart_to { D.reads desk.old to.now → ⊥ }
    requires few { length buffer.old ≤ PIECE }
    requires there { IsTrue (D.tells).folder
        → (bytes : List ℕ) × (content_of (D.scene desk.old) from.now ≡ Some bytes) × (at + length buffer.old ≤ length bytes)
        × (content_of (D.scene desk.old) to.now ≡ Some (take at bytes)) }
    ensures runs { IsTrue (D.tells).folder → Runs (Fills to.now) (D.scene desk.old) (D.scene desk.new) }
    ensures ok { OnOk result (IsTrue (D.tells).folder → (bytes : List ℕ) → content_of (D.scene desk.old) from.now ≡ Some bytes
        → content_of (D.scene desk.new) to.now ≡ Some (take (at + length buffer.old) bytes)) }
    ensures kept { GoesOn D.tells D.scene D.valid D.stays (IsErr result) desk.old desk.new }
{
    desk.read_at(from, at, buffer)?;
    put_piece(desk, to, at, buffer)
}

/// Copies a file into an empty one with its mode bits, as many bytes at a time as the buffer has, and syncs that.
pub(crate) fn fill_copy<D: Desk>(
    desk: &mut D,
    from: &str,
    to: &str,
    buffer: &mut [u8],
) -> Result<(), Failed>
    requires valid { D.valid desk.old }
    requires apart { D.reads desk.old from.now → ⊥ }
    requires apart_to { D.reads desk.old to.now → ⊥ }
    requires differ { from.now ≢ to.now }
    requires some { 0 < length buffer.old }
    requires few { length buffer.old ≤ PIECE }
    requires there { IsTrue (D.tells).folder → IsSome (content_of (D.scene desk.old) from.now) }
    requires empty { IsTrue (D.tells).folder → content_of (D.scene desk.old) to.now ≡ Some [] }
    requires alone { IsTrue (D.tells).folder → IsAlone to.now (D.scene desk.old).folder }
    ensures runs { IsTrue (D.tells).folder → Runs (ChangesOne to.now) (D.scene desk.old) (D.scene desk.new) }
    ensures ok { OnOk result (IsTrue (D.tells).folder → (bytes : List ℕ) → content_of (D.scene desk.old) from.now ≡ Some bytes
        → IsSynced to.now bytes (D.scene desk.new).folder) }
    ensures err { OnErr result (IsTrue (D.tells).folder → Widens to.now (D.scene desk.old).folder (D.scene desk.new).folder) }
    ensures modes { Makes (D.tells).folder (mode_in (D.scene desk.old).folder from.now) (D.scene desk.old) (D.scene desk.new) }
    ensures mode { OnOk result (TakesMode (D.tells).folder from.now to.now (D.scene desk.old) (D.scene desk.new)) }
    ensures kept { GoesOn D.tells D.scene D.valid D.stays (IsErr result) desk.old desk.new }
{
    let size = desk.len(from)?;
    let mut at = 0;
    'pieces: while at < size {
        let count = (size - at).min(buffer.len() as u64) as usize;
        copy_piece(desk, from, to, at, &mut buffer[..count])?;
        at += count as u64;
    }
    sync_like(desk, Some(from), to)
}
