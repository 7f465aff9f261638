// Reads a script line by line, in pieces as the host gives them.
ghost use Rattle.std.specs.Prelude.{◌≡◌, ◌<◌, ◌≤◌, ◌+◌, ◌-◌, ◌++◌, ◌∷◌, [], length, MatchOption, take, drop, false, true, IsTrue, IfOk, OnOk, IfErr, vec_len};
ghost use Rattle.vs_text.specs.Text.{IsLine};
ghost use Rattle.vs_script.specs.Reads.{ReadsScript};
ghost use Rattle.vs_script.specs.Ahead.{Ahead, script_limit, whole_lines, bytes_left, HasSeen, IsLeft, KeepsTrack, ReadsLine, ReadsNoMore, Stops};

use crate::line::LineBuffer;
use memchr::memchr;
use std::alloc::{AllocError, Global};
use std::marker::Model;
use vs_host::{Failed, Script};

/// The greatest number of bytes of a script.
pub const SCRIPT_LIMIT: u64 = 1_073_741_824;

/// How many bytes are asked of the host at a time.
const PIECE: usize = 65_536;

/// Why a script was not read on.
#[derive(Clone, Copy, Debug, PartialEq, Eq, Drop)]
pub enum ScriptErr {
    /// A read failed.
    Failed,
    /// The script has more bytes than a script may have.
    TooLong,
}

impl From<Failed> for ScriptErr {
    ghost use Rattle.vs_script.specs.declared.reader.ScriptErr.TheVariants as error;

    ghost from_gives = { λ _ e. e ≡ error.Failed };

    fn from(_: Failed) -> Self {
        ScriptErr::Failed
    }
}

/// Reads a script command by command. Seen as the bytes that were read ahead, how many bytes were taken from the host, and whether
/// the script's end was seen.
#[derive(Drop)]
pub struct ScriptReader {
    piece: Vec<u8>,
    at: usize,
    end: usize,
    taken: u64,
    ended: bool,
}

impl Model for ScriptReader {
    ghost Value = { Ahead };

    ghost view = { λ r. record { bytes = take (r.end - r.at) (drop r.at r.piece.items); taken = r.taken; ended = r.ended } };

    ghost invariant = { λ r. record {
      at : r.at ≤ r.end;
      end : r.end ≤ vec_len r.piece;
      piece : 0 < vec_len r.piece;
      taken : r.end ≤ r.taken;
      limit : r.taken ≤ script_limit;
    } };
}

/// Where the first line ends, if its end is there.
fn line_end(bytes: &[u8]) -> Option<usize>
    ensures { MatchOption result (IsLine bytes.now) (λ k. (k < length bytes.now) × IsLine (take k bytes.now)
        × (bytes.now ≡ take k bytes.now ++ 10 ∷ drop (k + 1) bytes.now)) }
{
    memchr(b'\n', bytes)
}

impl ScriptReader {
    /// A reader that has read nothing yet. Its buffer of 65,536 bytes is taken here.
    pub fn new(alloc: Global) -> Result<ScriptReader, AllocError>
        ensures { IfOk result (λ reader. reader ≡ record { bytes = []; taken = 0; ended = false }) }
    {
        Ok(ScriptReader {
            piece: vec![in alloc; 0u8; PIECE]?,
            at: 0,
            end: 0,
            taken: 0,
            ended: false,
        })
    }

    fn ahead(&self) -> &[u8]
        ensures bytes { result.now ≡ self.now.bytes }
        ensures limit { self.now.taken ≤ script_limit }
    {
        &self.piece[self.at..self.end]
    }

    fn skip(&mut self, count: usize)
        requires { count ≤ length self.old.bytes }
        ensures { self.new ≡ record self.old { bytes = drop count self.old.bytes } }
    {
        self.at += count;
    }

    /// Reads the next piece where nothing is ahead, but not past the limit. `false` at the script's end.
    fn refill<S: Script>(&mut self, host: &mut S) -> Result<bool, ScriptErr>
        requires bytes { self.old.bytes ≡ [] }
        requires ended { IsTrue (S.tells).script → HasSeen self.old (S.scene host.old) }
        ensures script { OnOk result (IsTrue (S.tells).script → (S.scene host.old).script ≡ self.new.bytes ++ (S.scene host.new).script) }
        ensures taken { OnOk result (self.new.taken ≡ self.old.taken + length self.new.bytes) }
        ensures more { IfOk result (λ more. IsTrue more → 0 < length self.new.bytes) }
        ensures none { result ≡ Ok false → self.new.bytes ≡ [] }
        ensures end { result ≡ Ok false → IsTrue (S.tells).script → (S.scene host.new).script ≡ [] }
        ensures track { KeepsTrack S.tells result self.old self.new (S.scene host.old) (S.scene host.new) }
        ensures stops { IfErr result (λ error. IsTrue (S.tells).script →
            (self.old.ended ≡ false) × (self.new.taken ≡ self.old.taken) × IsLeft error (S.scene host.old).script self.new (S.scene host.new)) }
        ensures goes_on { OnOk result (self.new.ended ≡ false → self.old.ended ≡ false) }
        ensures at_end { result ≡ Ok false → self.new.ended ≡ true }
        ensures reads { ReadsScript S.tells result (S.scene host.old) (S.scene host.new) }
        ensures calls { ReadsNoMore S.tells result self.old self.new (S.scene host.old) (S.scene host.new) }
    {
        if self.ended {
            return Ok(false);
        }
        let room = (SCRIPT_LIMIT - self.taken).max(1);
        self.at = 0;
        self.end = 0;
        self.piece.truncate(room as usize);
        let count = host.read(&mut self.piece)?;
        if count == 0 {
            self.ended = true;
            return Ok(false);
        }
        if self.taken == SCRIPT_LIMIT {
            return Err(ScriptErr::TooLong);
        }
        self.end = count;
        self.taken += count as u64;
        Ok(true)
    }

    /// Puts the next line into `line`, as far as it has room for it. A line ends at byte 10 or at the script's end. `false` where there
    /// is none.
    ///
    /// `Failed` is for a read that failed, `TooLong` for the first byte after 1,073,741,824 of them.
    pub fn next_line<S: Script>(
        &mut self,
        host: &mut S,
        line: &mut LineBuffer,
    ) -> Result<bool, ScriptErr>
        requires ended { IsTrue (S.tells).script → HasSeen self.old (S.scene host.old) }
        ensures line { IfOk result (λ found. IsTrue (S.tells).script → ReadsLine found line.new self.old self.new (S.scene host.old) (S.scene host.new)) }
        ensures is_line { OnOk result (IsLine line.new.bytes) }
        ensures room { line.new.room ≡ line.old.room }
        ensures track { KeepsTrack S.tells result self.old self.new (S.scene host.old) (S.scene host.new) }
        ensures stops { IfErr result (λ error. IsTrue (S.tells).script →
            Stops error whole_lines [] self.old self.new (S.scene host.old) (S.scene host.new)) }
        ensures end { result ≡ Ok false → IsTrue (S.tells).script → (S.scene host.new).script ≡ [] }
        ensures fewer { IfOk result (λ found. IsTrue found → bytes_left self.new < bytes_left self.old) }
        ensures left { OnOk result (bytes_left self.new ≤ bytes_left self.old) }
        ensures reads { ReadsScript S.tells result (S.scene host.old) (S.scene host.new) }
        ensures calls { ReadsNoMore S.tells result self.old self.new (S.scene host.old) (S.scene host.new) }
    {
        line.clear();
        'pieces: loop {
            let ahead = self.ahead();
            let count = ahead.len();
            if let Some(end) = line_end(ahead) {
                line.add(&ahead[..end]);
                self.skip(end + 1);
                return Ok(true);
            }
            line.add(ahead);
            self.skip(count);
            if !self.refill(host)? {
                if line.bytes().is_empty() {
                    return Ok(false);
                }
                return Ok(true);
            }
        }
    }
}
