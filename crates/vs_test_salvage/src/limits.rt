// What is shown at the limits of a line and of a text.
use std::process::Abort;
use std::test::Fail;
use vs_damaged::{Marker, Shown};
use vs_text::Format;

#[test]
fn a_line_is_missing_from_one_byte_too_many_on(rt: HostRuntime) -> Result<(), Fail> {
    let line = vec![in rt.alloc(); b'x'; 1_048_576]?;
    let longer = vec![in rt.alloc(); b'x'; 1_048_577]?;
    let mut shown = Shown::new(rt.alloc(), Format::Unix);
    shown.push_original(&line)?;
    assert!(rt; shown.bytes.len() == 1_048_577 && shown.markers == 0);
    shown.push_original(&longer)?;
    shown.push_stored(rt.alloc(), &longer)?;
    assert!(rt;
        shown
            .bytes
            .ends_with(b"x\n???LINE MISSING\n???LINE MISSING\n")
            && shown.markers == 2
    );
    Ok(())
}

#[test]
fn a_byte_13_before_the_end_is_none_of_a_dos_line(rt: HostRuntime) -> Result<(), Fail> {
    let mut line = vec![in rt.alloc(); b'x'; 1_048_576]?;
    line.push(b'\r')?;
    let mut shown = Shown::new(rt.alloc(), Format::Dos);
    shown.push_original(&line)?;
    assert!(rt; shown.bytes.len() == 1_048_578 && shown.markers == 0);
    line.push(b'\r')?;
    shown.push_original(&line)?;
    assert!(rt; shown.bytes.ends_with(b"x\r\n???LINE MISSING\r\n"));
    Ok(())
}

// A line past the limits of a text is the last marker, and nothing follows it.
fn is_full(mut shown: Shown) -> Result<bool, Fail> {
    shown.push_original(b"x")?;
    let fits = shown.markers == 0 && !shown.full;
    shown.push_original(b"")?;
    shown.push_marker(Marker::BlockMissing)?;
    shown.push_original(b"y")?;
    Ok(fits && shown.bytes.ends_with(b"x\r\n???MANY LINES MISSING\r\n") && shown.markers == 1)
}

// Lines and bytes of a text, each of which has room for one more line of one byte.
const SIZES: [(u64, u64); 2] = [(3_999_999, 0), (0, 268_435_454)];

#[test]
fn the_lines_and_bytes_of_a_text(rt: HostRuntime) -> Result<(), Fail> {
    for (lines, size) in SIZES {
        let shown = Shown {
            format: Format::Dos,
            bytes: Vec::new(rt.alloc()),
            lines,
            size,
            markers: 0,
            full: false,
        };
        assert!(rt; is_full(shown)?, "{lines} lines, {size} bytes");
    }
    Ok(())
}
