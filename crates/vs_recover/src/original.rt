// The lines of the file that was edited, which is read forwards in pieces.
ghost use Rattle.std.specs.Prelude.{◌≡◌, ◌+◌, ◌-◌, ◌≤◌, ◌<◌, ◌++◌, List, ℕ, IfOk, IfSome, OnOk, IsTrue, drop, length, map, take, nat_lt, not};
ghost use Rattle.vs_text.specs.Text.{lines_of};
ghost use Rattle.vs_text.specs.declared.format.Format.{Format};
ghost use Rattle.vs_host.specs.World.{content_of};
ghost use Rattle.vs_recover.specs.Files.{IsFile};
ghost use Rattle.vs_damaged.specs.Items.{Item, Shows, original_item};
ghost use Rattle.vs_recover.specs.Original.{Follows, IsNext, IsOpened, IsPlace, Keeps, ShowsPart, TakesPiece, ahead, pieces_in, pieces_left, pieces_of};
ghost use Rattle.vs_recover.specs.Reading.{IsThere, ReadsAtMost};
ghost use Rattle.vs_damaged.specs.Finds.{original_items};

use crate::Fault;
use crate::calls::{file_len, has_file, read_part};
use memchr::memchr;
use std::alloc::{AllocError, Global};
use vs_damaged::{Marker, Shown};
use vs_host::Folder;
use vs_text::MAX_LINE_BYTES;

// The number of bytes of a piece.
const PIECE: u64 = 65_536;

// The number of bytes that are kept of a line: of a line that is too long, one more than a line may have and a byte 13.
const KEPT: usize = MAX_LINE_BYTES as usize + 2;

/// A place in a file between two of its lines.
#[derive(Drop)]
pub struct Original {
    /// The length of the file.
    pub len: u64,
    /// The place past the piece.
    pub at: u64,
    /// The piece that was read last.
    pub piece: Vec<u8>,
    /// How many bytes of the piece stand before the place.
    pub used: usize,
    /// How many lines of the file stand before the place.
    pub line: u64,
}

// Adds bytes of a line, as far as they are kept.
fn keep(into: &mut Vec<u8>, bytes: &[u8]) -> Result<(), AllocError>
    requires { length into.old.items ≤ KEPT }
    ensures { OnOk result (Keeps into.old.items bytes.now into.new.items) }
{
    let room = KEPT - into.len();
    let size = room.min(bytes.len());
    into.extend_from_slice(&bytes[..size])
}

impl Original {
    // The file's beginning.
    fn new(alloc: Global, len: u64) -> Original
        ensures follows { (file : List ℕ) → len ≡ length file → Follows result file }
        ensures place { IsPlace result }
        ensures len { result.len ≡ len }
        ensures line { result.line ≡ 0 }
    {
        Original {
            len,
            at: 0,
            piece: Vec::new(alloc),
            used: 0,
            line: 0,
        }
    }

    // Reads the next piece.
    fn refill<F: Folder>(&mut self, alloc: Global, host: &mut F, name: &str) -> Result<(), Fault>
        requires len { IsThere F.tells (F.scene host.old) name.now (λ file. self.old.len ≡ length file) }
        requires more { self.old.at < self.old.len }
        ensures piece { OnOk result ((file : List ℕ) → IsFile F.tells (F.scene host.old) name.now file
            → drop self.old.at file ≡ ahead self.new ++ drop self.new.at file) }
        ensures place { OnOk result (IsPlace self.new) }
        ensures same { OnOk result ((self.new.len ≡ self.old.len) × (self.new.line ≡ self.old.line)) }
        ensures left { OnOk result (pieces_left self.new + 1 ≤ pieces_left self.old) }
        ensures reading { ReadsAtMost F.tells result Fault.Failed (F.scene host.old) (F.scene host.new) 1 }
    {
        let size = (self.len - self.at).min(PIECE);
        let mut piece = vec![in alloc; 0u8; size as usize]?;
        read_part(host, name, self.at, &mut piece)?;
        self.piece = piece;
        self.used = 0;
        self.at += size;
        Ok(())
    }

    // Takes the bytes of the piece up to the next line end, and answers whether there is one.
    fn take_piece(&mut self, into: &mut Vec<u8>) -> Result<bool, AllocError>
        requires place { IsPlace self.old }
        requires kept { length into.old.items ≤ KEPT }
        ensures place { OnOk result (IsPlace self.new) }
        ensures taken { IfOk result (λ ended. TakesPiece (ahead self.old) (ahead self.new) into.old.items into.new.items ended) }
        ensures same { OnOk result ((self.new.len ≡ self.old.len) × (self.new.at ≡ self.old.at) × (self.new.line ≡ self.old.line)) }
    {
        let piece = &self.piece[self.used..];
        match memchr(b'\n', piece) {
            Some(end) => {
                keep(into, &piece[..end])?;
                self.used += end + 1;
                Ok(true)
            }
            None => {
                keep(into, piece)?;
                self.used = self.piece.len();
                Ok(false)
            }
        }
    }

    /// Reads the next line, or its beginning where it is too long; false at the file's end.
    fn next_line<F: Folder>(
        &mut self,
        alloc: Global,
        host: &mut F,
        name: &str,
        into: &mut Vec<u8>,
    ) -> Result<bool, Fault>
        requires place { IsPlace self.old }
        requires follows { IsThere F.tells (F.scene host.old) name.now (λ file. Follows self.old file) }
        ensures place { OnOk result (IsPlace self.new) }
        ensures follows { OnOk result (IsThere F.tells (F.scene host.old) name.now (λ file. Follows self.new file)) }
        ensures next { IfOk result (λ more. (file : List ℕ) → IsFile F.tells (F.scene host.old) name.now file
            → IsNext (drop self.old.line (lines_of file)) (drop self.new.line (lines_of file)) into.new.items more) }
        ensures len { OnOk result (self.new.len ≡ self.old.len) }
        ensures left { OnOk result (pieces_left self.new ≤ pieces_left self.old) }
        ensures reading { ReadsAtMost F.tells result Fault.Failed (F.scene host.old) (F.scene host.new) (pieces_left self.old) }
        ensures read { OnOk result
            (ReadsAtMost F.tells result Fault.Failed (F.scene host.old) (F.scene host.new) (pieces_left self.old - pieces_left self.new)) }
    {
        into.clear();
        'pieces: loop {
            if self.take_piece(into)? {
                self.line = self.line.saturating_add(1);
                return Ok(true);
            }
            if self.at == self.len {
                break;
            }
            self.refill(alloc, host, name)?;
        }
        if into.is_empty() {
            return Ok(false);
        }
        self.line = self.line.saturating_add(1);
        Ok(true)
    }

    // Goes back to the file's beginning where more lines than so many stand before the place.
    fn go_back(&mut self, alloc: Global, before: u64)
        requires { IsPlace self.old }
        ensures place { IsPlace self.new }
        ensures follows { (file : List ℕ) → Follows self.old file → Follows self.new file }
        ensures line { self.new.line ≤ before }
        ensures len { self.new.len ≡ self.old.len }
    {
        if before < self.line {
            *self = Original::new(alloc, self.len);
        }
    }

    // Goes to the line before which so many lines stand, or to the file's end.
    fn seek<F: Folder>(
        &mut self,
        alloc: Global,
        host: &mut F,
        name: &str,
        before: u64,
    ) -> Result<(), Fault>
        requires place { IsPlace self.old }
        requires follows { IsThere F.tells (F.scene host.old) name.now (λ file. Follows self.old file) }
        ensures place { OnOk result (IsPlace self.new) }
        ensures follows { OnOk result (IsThere F.tells (F.scene host.old) name.now (λ file. Follows self.new file)) }
        ensures there { OnOk result ((file : List ℕ) → IsFile F.tells (F.scene host.old) name.now file
            → drop self.new.line (lines_of file) ≡ drop before (lines_of file)) }
        ensures len { OnOk result (self.new.len ≡ self.old.len) }
        ensures reading { ReadsAtMost F.tells result Fault.Failed (F.scene host.old) (F.scene host.new) (pieces_of self.old.len) }
        ensures read { OnOk result
            (ReadsAtMost F.tells result Fault.Failed (F.scene host.old) (F.scene host.new) (pieces_of self.old.len - pieces_left self.new)) }
    {
        self.go_back(alloc, before);
        let mut line = Vec::new(alloc);
        for _ in self.line..before {
            if !self.next_line(alloc, host, name, &mut line)? {
                return Ok(());
            }
        }
        Ok(())
    }

    // Shows so many of the next lines; false where there are fewer.
    fn show_lines<F: Folder>(
        &mut self,
        alloc: Global,
        host: &mut F,
        name: &str,
        count: u64,
        shown: &mut Shown,
    ) -> Result<bool, Fault>
        requires place { IsPlace self.old }
        requires follows { IsThere F.tells (F.scene host.old) name.now (λ file. Follows self.old file) }
        ensures place { OnOk result (IsPlace self.new) }
        ensures follows { OnOk result (IsThere F.tells (F.scene host.old) name.now (λ file. Follows self.new file)) }
        ensures shows { IfOk result (λ all. (file : List ℕ) → IsFile F.tells (F.scene host.old) name.now file → (format : Format) (items : List Item)
            → Shows format shown.old items
            → Shows format shown.new (items ++ map (original_item format) (take count (drop self.old.line (lines_of file))))) }
        ensures all { IfOk result (λ all. (file : List ℕ) → IsFile F.tells (F.scene host.old) name.now file
            → all ≡ not (nat_lt (length (drop self.old.line (lines_of file))) count)) }
        ensures len { OnOk result (self.new.len ≡ self.old.len) }
        ensures reading { ReadsAtMost F.tells result Fault.Failed (F.scene host.old) (F.scene host.new) (pieces_left self.old) }
    {
        let mut line = Vec::new(alloc);
        for _ in 0..count {
            if !self.next_line(alloc, host, name, &mut line)? {
                return Ok(false);
            }
            shown.push_original(&line)?;
        }
        Ok(true)
    }
}

/// The beginning of the file under a name, where it is there.
pub fn open_original<F: Folder>(
    alloc: Global,
    host: &mut F,
    name: &str,
) -> Result<Option<Original>, Fault>
    ensures opened { IfOk result (λ original. IsTrue F.tells.folder → IsOpened (content_of (F.scene host.old) name.now) original) }
    ensures place { IfOk result (λ original. IfSome original IsPlace) }
    ensures reading { ReadsAtMost F.tells result Fault.Failed (F.scene host.old) (F.scene host.new) 2 }
{
    if !has_file(host, name)? {
        return Ok(None);
    }
    let len = file_len(host, name)?;
    Ok(Some(Original::new(alloc, len)))
}

// Shows the lines of the file from the one on before which so many stand; false where they are not all there.
fn show_part<F: Folder>(
    alloc: Global,
    host: &mut F,
    name: &str,
    original: &mut Option<Original>,
    before: Option<u64>,
    count: u64,
    shown: &mut Shown,
) -> Result<bool, Fault>
    requires place { IfSome original.old IsPlace }
    requires opened { IsTrue F.tells.folder → IsOpened (content_of (F.scene host.old) name.now) original.old }
    ensures place { OnOk result (IfSome original.new IsPlace) }
    ensures opened { OnOk result (IsTrue F.tells.folder → IsOpened (content_of (F.scene host.old) name.now) original.new) }
    ensures pieces { OnOk result (pieces_in original.new ≡ pieces_in original.old) }
    ensures shows { IfOk result (λ all. IsTrue F.tells.folder → (format : Format) (items : List Item) → Shows format shown.old items
        → ShowsPart format shown.new items (original_items format (content_of (F.scene host.old) name.now) before count) all) }
    ensures reading { ReadsAtMost F.tells result Fault.Failed (F.scene host.old) (F.scene host.new) (pieces_in original.old) }
{
    let Some(original) = original else {
        return Ok(false);
    };
    let Some(before) = before else {
        return Ok(false);
    };
    original.seek(alloc, host, name, before)?;
    let all = original.show_lines(alloc, host, name, count, shown)?;
    Ok(all)
}

/// Shows the lines of the file that an entry leads to: those from the one on before which so many stand.
pub fn show_original<F: Folder>(
    alloc: Global,
    host: &mut F,
    name: &str,
    original: &mut Option<Original>,
    before: Option<u64>,
    count: u64,
    shown: &mut Shown,
) -> Result<(), Fault>
    requires place { IfSome original.old IsPlace }
    requires opened { IsTrue F.tells.folder → IsOpened (content_of (F.scene host.old) name.now) original.old }
    ensures place { OnOk result (IfSome original.new IsPlace) }
    ensures opened { OnOk result (IsTrue F.tells.folder → IsOpened (content_of (F.scene host.old) name.now) original.new) }
    ensures pieces { OnOk result (pieces_in original.new ≡ pieces_in original.old) }
    ensures shows { OnOk result (IsTrue F.tells.folder → (format : Format) (items : List Item) → Shows format shown.old items
        → Shows format shown.new (items ++ original_items format (content_of (F.scene host.old) name.now) before count)) }
    ensures reading { ReadsAtMost F.tells result Fault.Failed (F.scene host.old) (F.scene host.new) (pieces_in original.old) }
{
    if !show_part(alloc, host, name, original, before, count, shown)? {
        shown.push_marker(Marker::LinesMissing)?;
    }
    Ok(())
}
