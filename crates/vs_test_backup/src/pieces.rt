// A file is read and written in pieces.
ghost use Rattle.std.specs.Prelude.{IfOk};
ghost use Rattle.vs_edit.specs.Texts.{AreSound};

use crate::desk::{TextDesk, store_of};
use crate::fixture::{options, write_to};
use crate::watched::{Seen, watched};
use std::alloc::{AllocError, Global};
use std::process::Abort;
use std::test::Fail;
use vs_backup::{CopyMode, WriteOptions};
use vs_memory::MemHost;
use vs_test_hosts::{Watched, many_lines};
use vs_text::Format;

// A folder with this file, over which the same text is written.
fn desk_over(alloc: Global, bytes: &[u8]) -> Result<TextDesk<Watched<Seen>>, Fail>
    ensures { IfOk result (λ desk. AreSound desk.text) }
{
    let text = store_of(alloc, bytes)?;
    let mut inner = MemHost::new(alloc, Vec::new(alloc))?;
    inner.put(alloc, "f", Vec::from_slice(alloc, bytes)?)?;
    let folder = watched(alloc, inner);
    Ok(TextDesk { folder, text })
}

// These bytes with a byte 13 before each byte 10.
fn with_dos_ends(alloc: Global, bytes: &[u8]) -> Result<Vec<u8>, AllocError> {
    let mut ended = Vec::new(alloc);
    for byte in bytes {
        if *byte == b'\n' {
            ended.push(b'\r')?;
        }
        ended.push(*byte)?;
    }
    Ok(ended)
}

#[test]
fn no_call_asks_for_more_than_65536_bytes(rt: HostRuntime) -> Result<(), Fail> {
    let alloc = rt.alloc();
    let bytes = many_lines(alloc)?;
    let ended = with_dos_ends(alloc, &bytes)?;
    let writes: [(Format, CopyMode, &[u8]); 3] = [
        (Format::Unix, CopyMode::Yes, &bytes),
        (Format::Unix, CopyMode::No, &bytes),
        (Format::Dos, CopyMode::No, &ended),
    ];
    for (format, copy, new) in writes {
        let mut desk = desk_over(alloc, &bytes)?;
        let options = WriteOptions {
            format,
            ..options(true, true, copy)
        };
        let answer = write_to(alloc, &mut desk, "f", &options)?;
        assert!(rt; answer == Ok(new.len() as u64));
        assert!(rt; desk.folder.watch.most == 65_536);
        assert!(rt; desk.folder.inner.file("f") == Some(new));
        assert!(rt; desk.folder.inner.file("f~") == Some(bytes.as_slice()));
    }
    Ok(())
}
