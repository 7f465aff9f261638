// How bytes are shown: as lines that begin with `|`, as a text has them.
use std::alloc::AllocError;

// A byte that comes so often in a row is shown once, with its number.
const OFTEN: u64 = 32;

fn show_byte(byte: u8, out: &mut String) -> Result<(), AllocError> {
    match byte {
        b'\\' => out.push_str("\\\\"),
        b' '..=b'~' => Ok(out.push(char::from(byte))?),
        _ => write!(out, "\\x{byte:02x}"),
    }
}

fn show_run(byte: u8, count: u64, out: &mut String) -> Result<(), AllocError> {
    if OFTEN < count {
        write!(out, "\\{{{count}*")?;
        show_byte(byte, out)?;
        return out.push_str("}");
    }
    for _ in 0..count {
        show_byte(byte, out)?;
    }
    Ok(())
}

// Shows the bytes of a line.
fn show_line(line: &[u8], out: &mut String) -> Result<(), AllocError> {
    out.push_str("|")?;
    for run in line.chunk_by(|one, next| one == next) {
        if let Some(byte) = run.first() {
            show_run(*byte, run.len() as u64, out)?;
        }
    }
    Ok(())
}

/// Shows a text.
pub fn show(text: &[u8], out: &mut String) -> Result<(), AllocError> {
    for line in text.split_inclusive(|byte| *byte == b'\n') {
        match line.strip_suffix(b"\n".as_slice()) {
            Some(whole) => {
                show_line(whole, out)?;
                out.push_str("\n")?;
            }
            None => {
                show_line(line, out)?;
                out.push_str("\\\n")?;
            }
        }
    }
    Ok(())
}
