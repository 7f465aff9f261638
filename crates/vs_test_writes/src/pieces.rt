// A long file is read and written in pieces.
use crate::helpers::{edit_f, host_of};
use crate::watched::{Calls, watched};
use std::alloc::Global;
use std::process::Abort;
use std::test::Fail;
use vs_test_hosts::{Watched, many_lines};

// The host after a run over this text.
fn after_run(alloc: Global, text: &[u8], script: &[u8]) -> Result<Watched<Calls>, Fail> {
    let inner = host_of(alloc, &[("f", text)], script)?;
    let mut host = watched(inner, "f~");
    edit_f(alloc, &mut host)?;
    Ok(host)
}

// Whether a run came to its end with this output, left this text in the file, and the calls on files asked for 65,536 bytes at the most.
fn is_in_pieces(host: &Watched<Calls>, output: &[u8], text: &[u8]) -> bool {
    host.inner.output() == output && host.inner.file("f") == Some(text) && host.watch.most == 65_536
}

#[test]
fn a_renamed_file_takes_no_call_of_more_than_65536_bytes(rt: HostRuntime) -> Result<(), Fail> {
    let text = many_lines(rt.alloc())?;
    let host = after_run(rt.alloc(), &text, b"set bkc=no\nw\nq\n")?;
    let output = b"\"f\" 100000L, 4100000B\nbackupcopy=no\n\"f\" 100000L, 4100000B written\nquit\n";
    assert!(rt;
        0 < host.watch.renamed && is_in_pieces(&host, output, &text),
        "{} bytes",
        host.watch.most
    );
    Ok(())
}

#[test]
fn a_copied_file_takes_no_call_of_more_than_65536_bytes(rt: HostRuntime) -> Result<(), Fail> {
    let text = many_lines(rt.alloc())?;
    let host = after_run(rt.alloc(), &text, b"set bkc=yes\nw\nq\n")?;
    let output =
        b"\"f\" 100000L, 4100000B\nbackupcopy=yes\n\"f\" 100000L, 4100000B written\nquit\n";
    assert!(rt;
        0 < host.watch.cut && is_in_pieces(&host, output, &text),
        "{} bytes",
        host.watch.most
    );
    Ok(())
}
