// A text is opened with its swap files, and written into its file.
ghost use Rattle.std.specs.Prelude.{IfOk, IsTrue, List, codes};
ghost use Rattle.vs_host.specs.Disk.{Disk};
ghost use Rattle.vs_host.specs.Names.{names_of_file};
ghost use Rattle.vs_memory.specs.Memory.{folder_of};
ghost use Rattle.vs_pair.specs.Steps.{IsFresh};
ghost use Rattle.vs_test_pair.specs.Started.{IsStarted};

use std::alloc::Global;
use std::test::Fail;
use vs_backup::{WriteErr, WriteOptions};
use vs_desk::write_text;
use vs_host::Folder;
use vs_memory::MemHost;
use vs_paged::{OpeningText, PagedText};
use vs_pieces::PieceReader;
use vs_text::Format;

/// What the file has before a write, and what is written.
pub const OLD: &[u8] = b"a\n";

pub const NEW: &[u8] = b"a\nx\n";

/// A folder with the file `f`, in which each call after so many fails.
pub(crate) fn folder_with_file(alloc: Global, stop: u64) -> Result<MemHost, Fail>
    ensures { IfOk result (λ host. IsFresh (names_of_file (codes "f")) (folder_of host)) }
{
    let mut host = MemHost::new(alloc, Vec::new(alloc))?;
    host.put(alloc, "f", Vec::from_slice(alloc, OLD)?)?;
    host.stop_after(stop);
    Ok(host)
}

/// The new text with its swap files.
pub(crate) fn start_new<F: Folder>(alloc: Global, host: &mut F) -> Result<PagedText, Fail>
    requires fresh { IsTrue F.tells.folder → IsFresh (names_of_file (codes "f")) (F.scene host.old).folder }
    ensures started { IfOk result (λ text. IsTrue F.tells.folder → IsStarted text (F.scene host.new).folder) }
{
    let mut reader = PieceReader::new(alloc);
    if reader.feed(alloc, NEW).is_err() {
        return Err(Fail::new("it is no text"));
    }
    let lines = match reader.end() {
        Ok(lines) => lines,
        Err(_) => return Err(Fail::new("it is no text")),
    };
    let mut opening = OpeningText::new(alloc, "f")?;
    opening.push_lines(alloc, &lines)?;
    match opening.start(host, Format::Unix) {
        Ok(text) => Ok(text),
        Err(_) => Err(Fail::new("the swap files were not made")),
    }
}

/// Writes the new text into the file once, or once again, and gives the last answer.
pub(crate) fn write_new<F: Folder>(
    alloc: Global,
    host: &mut F,
    options: &WriteOptions,
    again: bool,
) -> Result<Result<u64, WriteErr>, Fail>
    requires fresh { IsTrue F.tells.folder → IsFresh (names_of_file (codes "f")) (F.scene host.old).folder }
{
    let mut text = start_new(alloc, host)?;
    let answer = write_text(alloc, &mut text, host, options);
    if !again {
        return Ok(answer);
    }
    Ok(write_text(alloc, &mut text, host, options))
}
