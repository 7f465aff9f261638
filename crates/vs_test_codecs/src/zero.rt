// Pages as Vim 9.0 lays them out on a 64-bit little-endian machine, typed by hand.

use crate::damage::overwrite;
use std::ops::Range;
use std::process::Abort;
use vs_zero::*;

const ZERO: Zero = Zero {
    page_size: 4096,
    format: 1,
    dirty: true,
    pair: Some(Pair {
        generation: 7,
        empty: true,
    }),
};

// The page that `ZERO` is written to, with the identifier of an open file.
fn open_page() -> [u8; 4096] {
    let mut page = [0xaa; 4096];
    ZERO.write_closed("notes.txt", &mut page);
    page[0] = b'b';
    page[1] = b'0';
    page
}

// Whether these bytes stand at the place.
fn has(page: &[u8], at: usize, bytes: &[u8]) -> bool {
    page.get(at..).is_some_and(|rest| rest.starts_with(bytes))
}

// Whether each byte at these places is 0.
fn is_unused(page: &[u8], places: Range<usize>) -> bool {
    page.get(places)
        .is_some_and(|bytes| bytes.iter().all(|byte| *byte == 0))
}

#[test]
fn writes_each_byte(rt: HostRuntime) {
    let mut page = [0xaa; 4096];
    ZERO.write_closed("notes.txt", &mut page);
    assert!(rt; has(&page, 0, b"\0\0VIM 9.0\0\0\0"));
    assert!(rt; has(&page, 12, &[0, 16, 0, 0]), "the page size");
    assert!(rt; is_unused(&page, 16..108), "times and owners");
    assert!(rt; has(&page, 108, b"notes.txt\0"));
    assert!(rt; is_unused(&page, 118..1006), "the rest of the name");
    assert!(rt; has(&page, 1006, &[5]), "unix, in the folder of the file");
    let magic = b"\x55\x33\x32\x31\x30\0\0\0\0\x23\x22\x21\x20\x13\x12\x55\0";
    assert!(rt; has(&page, 1007, magic));
    let pair = b"VSWPAIR1\x07\0\0\0\0\0\0\0\x01\0\0\0";
    assert!(rt; has(&page, 1024, pair));
    assert!(rt; is_unused(&page, 1044..4096), "what no field takes");
}

#[test]
fn reads_what_was_written(rt: HostRuntime) {
    let page = open_page();
    assert!(rt; Zero::read(&page) == Ok(ZERO));
    assert!(rt; Zero::name(&page) == b"notes.txt".as_slice());
}

// What the page of an open file with these bytes at a place is read as.
fn reading(rt: &impl Abort, at: usize, bytes: &[u8]) -> Result<Zero, ZeroErr> {
    let mut page = open_page();
    overwrite(rt, &mut page, at, bytes);
    Zero::read(&page)
}

#[test]
fn answers_hostile_pages(rt: HostRuntime) {
    let sized = |page_size| Ok(Zero { page_size, ..ZERO });
    let cases: [(&str, usize, &[u8], Result<Zero, ZeroErr>); 20] = [
        ("closed", 0, b"\0\0", Err(ZeroErr::Closed)),
        ("half open", 0, b"b\0", Err(ZeroErr::Closed)),
        ("identifier b1", 0, b"b1", Err(ZeroErr::Closed)),
        ("identifier bc", 0, b"bc", Err(ZeroErr::Encrypted)),
        ("identifier bC", 0, b"bC", Err(ZeroErr::Encrypted)),
        ("identifier bd", 0, b"bd", Err(ZeroErr::Encrypted)),
        ("identifier bS", 0, b"bS", Err(ZeroErr::Encrypted)),
        ("identifier bs", 0, b"bs", Err(ZeroErr::Encrypted)),
        ("identifier bD", 0, b"bD", Err(ZeroErr::Closed)),
        ("long, low end", 1008, b"\x34", Err(ZeroErr::BadMagic)),
        ("long, high end", 1015, b"\x01", Err(ZeroErr::BadMagic)),
        (
            "int of a big-endian machine",
            1016,
            b"\x20\x21\x22\x23",
            Err(ZeroErr::BadMagic),
        ),
        ("short", 1021, b"\x13", Err(ZeroErr::BadMagic)),
        ("char", 1022, b"\x54", Err(ZeroErr::BadMagic)),
        (
            "page size 1047",
            12,
            b"\x17\x04",
            Err(ZeroErr::BadPageSize(1047)),
        ),
        ("page size 1048", 12, b"\x18\x04", sized(1048)),
        ("page size 50000", 12, b"\x50\xc3", sized(50000)),
        (
            "page size 50001",
            12,
            b"\x51\xc3",
            Err(ZeroErr::BadPageSize(50001)),
        ),
        ("no tag", 1031, b"2", Ok(Zero { pair: None, ..ZERO })),
        (
            "mac, with an encoding, not dirty",
            1006,
            b"\x0f\x01",
            Ok(Zero {
                format: 3,
                dirty: false,
                ..ZERO
            }),
        ),
    ];
    for (what, at, bytes, want) in cases {
        assert!(rt; reading(&rt, at, bytes) == want, "{what}");
    }
}

#[test]
fn tries_the_refusals_in_order(rt: HostRuntime) {
    let mut page = open_page();
    page[1008] = 0;
    page[13] = 0;
    assert!(rt; Zero::read(&page) == Err(ZeroErr::BadMagic));
    page[1] = b'C';
    assert!(rt; Zero::read(&page) == Err(ZeroErr::Encrypted));
    page[0] = 0;
    assert!(rt; Zero::read(&page) == Err(ZeroErr::Closed));

    let mut least = [0; 1048];
    least[0] = b'b';
    least[1] = b'C';
    assert!(rt; Zero::read(&least) == Err(ZeroErr::Encrypted));
    let mut short = [0; 1047];
    short[0] = b'b';
    short[1] = b'C';
    assert!(rt; Zero::read(&short) == Err(ZeroErr::Short));
}

#[test]
fn reads_a_name_as_long_as_its_field(rt: HostRuntime) {
    let page = [b'n'; 1048];
    assert!(rt; Zero::name(&page).len() == 898);
}
