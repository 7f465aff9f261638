// Bytes that are not as they were written.
use std::process::Abort;

/// Writes these bytes over those at a place.
pub(crate) fn overwrite(rt: &impl Abort, bytes: &mut [u8], place: usize, new: &[u8]) {
    assert!(rt; place <= bytes.len() && new.len() <= bytes.len() - place);
    bytes[place..place + new.len()].copy_from_slice(new);
}
