// How the text of a file is read.
ghost use Rattle.std.specs.Prelude.{◌≡◌, ◌<◌, ◌≤◌, ◌+◌, ◌^◌, ◌++◌, [], ℕ, List, IfErr, IfOk, IfSome, IsErrOf, IsSomeAnd, IsTrue, OnOk, length};
ghost use Rattle.vs_host.specs.World.{content_of};
ghost use Rattle.vs_pieces.specs.Files.{HasReadFile, file_size_read};
ghost use Rattle.vs_text.specs.Documents.{document_of, format_of, lines_in};
ghost use Rattle.vs_session.specs.Open.{IsReading, KeepsToLimits, PassesLimit, ReadsInto};
ghost use Rattle.vs_session.specs.Opened.{sizes_of, text_in};
ghost use Rattle.vs_session.specs.Pieces.{IsPieceOf};

use crate::OpenErr;
use crate::looking::{has_file, size_of_file};
use crate::pieces::FilePieces;
use std::alloc::Global;
use vs_host::Host;
use vs_machine::FileInfo;
use vs_paged::OpeningText;
use vs_pieces::FileReader;
use vs_text::{Format, FormatScan};

// Finds the format of a file. It is mostly certain after the first piece, which then is at hand.
fn find_format<H: Host>(
    host: &mut H,
    name: &str,
    pieces: &mut FilePieces,
) -> Result<Format, OpenErr>
    requires there { IsTrue (H.tells).folder → IsSomeAnd (content_of (H.scene host.old) name.now) (λ bytes. pieces.old.size ≡ length bytes) }
    requires at_hand { IsTrue (H.tells).folder → IfSome (content_of (H.scene host.old) name.now) (λ bytes. IsPieceOf bytes pieces.old) }
    ensures format { IfOk result (λ format. IsTrue (H.tells).folder
        → IfSome (content_of (H.scene host.old) name.now) (λ bytes. format ≡ format_of bytes)) }
    ensures at_hand { OnOk result (IsTrue (H.tells).folder
        → IfSome (content_of (H.scene host.old) name.now) (λ bytes. IsPieceOf bytes pieces.new)) }
    ensures size { OnOk result (pieces.new.size ≡ pieces.old.size) }
    ensures failed { IfErr result (λ error. error ≡ OpenErr.Failed) }
    ensures reading { IsReading H.tells result (H.scene host.old) (H.scene host.new) }
{
    let mut scan = FormatScan::new();
    let mut at = 0;
    'pieces: while at < pieces.size() {
        pieces.load(host, name, at)?;
        let piece = pieces.bytes();
        scan.feed(piece);
        if scan.is_certain() {
            return Ok(scan.format());
        }
        at += piece.len() as u64;
    }
    Ok(scan.format())
}

// Reads a piece of a file, and puts the lines that have ended into a text.
fn read_piece(
    alloc: Global,
    piece: &[u8],
    reader: &mut FileReader,
    text: &mut OpeningText,
) -> Result<(), OpenErr>
    requires size { file_size_read reader.old + length piece.now < 2 ^ 64 }
    requires read { (fed : List ℕ) × HasReadFile reader.old text.old.text fed }
    ensures format { reader.new.format ≡ reader.old.format }
    ensures name { text.new.name ≡ text.old.name }
    ensures read { OnOk result ((fed : List ℕ) → HasReadFile reader.old text.old.text fed
        → HasReadFile reader.new text.new.text (fed ++ piece.now)) }
    ensures limit { (size : ℕ) → IsErrOf result (OpenErr.TextLimit size) → (fed more : List ℕ) → HasReadFile reader.old text.old.text fed
        → PassesLimit (lines_in reader.old.format ((fed ++ piece.now) ++ more)) size }
    ensures failed { ¬ (IsErrOf result OpenErr.Failed) }
    ensures swap { ¬ (IsErrOf result OpenErr.SwapFound) }
{
    reader.feed(alloc, piece)?;
    text.push_lines(alloc, &reader.take_lines(alloc))?;
    Ok(())
}

// Reads a file of a known format into a text, piece by piece.
fn read_pieces<H: Host>(
    alloc: Global,
    host: &mut H,
    name: &str,
    format: Format,
    pieces: &mut FilePieces,
    text: &mut OpeningText,
) -> Result<(), OpenErr>
    requires there { IsTrue (H.tells).folder → IsSomeAnd (content_of (H.scene host.old) name.now) (λ bytes. pieces.old.size ≡ length bytes) }
    requires at_hand { IsTrue (H.tells).folder → IfSome (content_of (H.scene host.old) name.now) (λ bytes. IsPieceOf bytes pieces.old) }
    requires format { IsTrue (H.tells).folder → IfSome (content_of (H.scene host.old) name.now) (λ bytes. format ≡ format_of bytes) }
    requires empty { text.old.text ≡ [] }
    ensures text { OnOk result (IsTrue (H.tells).folder
        → IfSome (content_of (H.scene host.old) name.now) (λ bytes. text.new.text ≡ (document_of bytes).text)) }
    ensures limits { KeepsToLimits H.tells result (content_of (H.scene host.old) name.now) }
    ensures reads { ReadsInto H.tells result text.old text.new (H.scene host.old) (H.scene host.new) }
{
    let mut reader = FileReader::new(alloc, format);
    let mut at = 0;
    'pieces: while at < pieces.size() {
        pieces.load(host, name, at)?;
        let piece = pieces.bytes();
        read_piece(alloc, piece, &mut reader, text)?;
        at += piece.len() as u64;
    }
    let rest = reader.end(alloc)?;
    text.push_lines(alloc, &rest)?;
    Ok(())
}

/// Reads the file of a name into an empty text, and gives its format and the numbers of its lines and bytes. `None` is for a name
/// without a file.
pub(crate) fn read_file<H: Host>(
    alloc: Global,
    host: &mut H,
    name: &str,
    text: &mut OpeningText,
) -> Result<Option<FileInfo>, OpenErr>
    requires { text.old.text ≡ [] }
    ensures found { IfOk result (λ found. IsTrue (H.tells).folder → found ≡ sizes_of (content_of (H.scene host.old) name.now)) }
    ensures text { OnOk result (IsTrue (H.tells).folder → text.new.text ≡ text_in (content_of (H.scene host.old) name.now)) }
    ensures limits { KeepsToLimits H.tells result (content_of (H.scene host.old) name.now) }
    ensures reads { ReadsInto H.tells result text.old text.new (H.scene host.old) (H.scene host.new) }
{
    if !has_file(host, name)? {
        return Ok(None);
    }
    let size = size_of_file(host, name)?;
    let mut pieces = FilePieces::new(alloc, size)?;
    let format = find_format(host, name, &mut pieces)?;
    read_pieces(alloc, host, name, format, &mut pieces, text)?;
    Ok(Some(FileInfo {
        format,
        lines: text.len(),
        bytes: size,
    }))
}
