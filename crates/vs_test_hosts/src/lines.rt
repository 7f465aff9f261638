use std::alloc::Global;
use std::test::Fail;

/// 100,000 lines of forty bytes, each with its end.
pub fn many_lines(alloc: Global) -> Result<Vec<u8>, Fail> {
    let mut bytes = vec![in alloc; b'a'; 4_100_000]?;
    for line in bytes.chunks_mut(41) {
        if let Some(last) = line.last_mut() {
            *last = b'\n';
        }
    }
    Ok(bytes)
}
