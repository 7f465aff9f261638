// The table of the names.
use std::process::Abort;
use std::test::Fail;
use vs_exparse::{NAMES, NameTable};

const FOUND: [(&[u8], Option<usize>); 3] = [
    (b"undol", Some(16)),
    (b"rundo", Some(22)),
    (b"", None),
];

fn names() -> NameTable<25> {
    NAMES
}

/// The table in which the shortest form of `undolist` is one of `undo`, too.
fn clashing_names() -> NameTable<25> {
    let mut names = names();
    names.shortest[16] = 4;
    names
}

fn check_names(rt: &impl Abort, names: &NameTable<25>) {
    assert!(rt; names.no_clash());
    for (name, row) in FOUND {
        assert!(rt; names.find(name) == row);
    }
}

#[test]
fn names_match_one_row(rt: HostRuntime) -> Result<(), Fail> {
    check_names(&rt, &names());
    assert!(rt; !clashing_names().no_clash());
    Ok(())
}
