// Digests of texts, with the values of `sha256sum` over their stored lines.
ghost use Rattle.std.specs.Prelude.{IfOk};
ghost use Rattle.vs_edit.specs.Texts.{AreSound};

use sha2::{Digest, Sha256};
use std::alloc::Global;
use std::process::Abort;
use std::test::Fail;
use vs_edit::{LineStore, VecStore, allows_splice};
use vs_text::read_text;
use vs_ubind::digest;

// Of one zero byte: one empty line, and the text without lines.
pub const EMPTY: [u8; 32] = [
    0x6e, 0x34, 0x0b, 0x9c, 0xff, 0xb3, 0x7a, 0x98, 0x9c, 0xa5, 0x44, 0xe6, 0xbb, 0x78, 0x0a, 0x2c,
    0x78, 0x90, 0x1d, 0x3f, 0xb3, 0x37, 0x38, 0x76, 0x85, 0x11, 0xa3, 0x06, 0x17, 0xaf, 0xa0, 0x1d,
];

// Of the bytes 97, 10, 98, 0: a line with a byte 0.
const WITH_ZERO: [u8; 32] = [
    0x69, 0x1a, 0x9f, 0x61, 0xdc, 0xbf, 0x4a, 0xf9, 0x42, 0x4a, 0xc7, 0x54, 0x76, 0x0b, 0x09, 0x9a,
    0x74, 0x3e, 0x3f, 0x2a, 0x63, 0x14, 0x1c, 0xad, 0xc8, 0x59, 0x7d, 0xd8, 0x47, 0xf7, 0xff, 0xe2,
];

// Of `one` and `two`, each followed by a byte 0.
const ONE_TWO: [u8; 32] = [
    0x00, 0xdb, 0x5a, 0xa8, 0xed, 0x0f, 0xcd, 0x56, 0x00, 0xf3, 0x94, 0x64, 0xc2, 0x35, 0x99, 0xd0,
    0x8a, 0x28, 0x5f, 0xbf, 0x57, 0xd8, 0x83, 0xdb, 0x79, 0x65, 0x87, 0xd8, 0xa8, 0x98, 0xe7, 0x26,
];

// Of the three bytes `abc`, as FIPS 180-2 gives it in appendix B.1.
const ABC: [u8; 32] = [
    0xba, 0x78, 0x16, 0xbf, 0x8f, 0x01, 0xcf, 0xea, 0x41, 0x41, 0x40, 0xde, 0x5d, 0xae, 0x22, 0x23,
    0xb0, 0x03, 0x61, 0xa3, 0x96, 0x17, 0x7a, 0x9c, 0xb4, 0x10, 0xff, 0x61, 0xf2, 0x00, 0x15, 0xad,
];

// Files and the digests of their texts.
const DIGESTS: [(&[u8], [u8; 32]); 5] = [
    (b"", EMPTY),
    (b"\n", EMPTY),
    (b"a\0b\n", WITH_ZERO),
    (b"one\ntwo\n", ONE_TWO),
    (b"one\ntwo", ONE_TWO),
];

/// A store of the text that a file of these bytes has.
pub(crate) fn store_of(alloc: Global, bytes: &[u8]) -> Result<VecStore, Fail>
    ensures { IfOk result AreSound }
{
    let (text, _) = read_text(alloc, bytes).ok().ok_or("it is a text")?;
    let mut store = VecStore::new(alloc)?;
    if !allows_splice(&store, 0, 0, text.lines()) {
        return Err(Fail::new("there is no room for the text"));
    }
    match store.splice(alloc, 0, 0, text.lines()) {
        Ok(()) => Ok(store),
        Err(_) => Err(Fail::new("there is no memory for the text")),
    }
}

#[test]
fn a_digest_is_that_of_the_stored_lines(rt: HostRuntime) -> Result<(), Fail> {
    let alloc = rt.alloc();
    for (bytes, expected) in DIGESTS {
        let mut store = store_of(alloc, bytes)?;
        assert!(rt; digest(alloc, &mut store) == Ok(expected), "{bytes:?}");
    }
    Ok(())
}

#[test]
fn the_hash_is_the_published_one(rt: HostRuntime) {
    assert!(rt; Sha256::digest(b"abc") == ABC);
}
