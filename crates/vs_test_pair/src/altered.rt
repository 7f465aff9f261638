// Pages of a swap file that were altered while they were away.
use crate::asking::{Asked, LETTERS, Way, started};
use crate::life::sync_page;
use crate::outside::Outside;
use std::alloc::Global;
use std::process::Abort;
use std::test::Fail;
use vs_pair::Head;
use vs_test_hosts::{ALTERED, Altered};

// The file of the next sync after the start, and that of the start's, from which pages are read until then.
const FIRST: &str = ".f.swp";

const SECOND: &str = ".f.swo";

// What the page of a file is altered to.
fn altered_page(alloc: Global, host: &Outside, file: &str, how: Altered) -> Result<Vec<u8>, Fail> {
    match how {
        Altered::Byte(page, at, byte) => {
            let mut bytes = host.page(alloc, file, page)?;
            if let Some(place) = bytes.get_mut(at) {
                *place = byte;
            }
            Ok(bytes)
        }
        Altered::Other(_, other) => host.page(alloc, file, other),
    }
}

// Alters a page of a file, and gives its bytes before.
fn inflict(alloc: Global, host: &mut Outside, file: &str, how: Altered) -> Result<Vec<u8>, Fail> {
    let page = how.page();
    let before = host.page(alloc, file, page)?;
    let after = altered_page(alloc, host, file, how)?;
    host.alter(file, page, &after)?;
    Ok(before)
}

#[test]
fn each_altered_page_is_one_fault(rt: HostRuntime) -> Result<(), Fail> {
    let alloc = rt.alloc();
    for (kind, how) in ALTERED {
        for way in [Way::Line, Way::Text, Way::Change] {
            let mut asked = started(alloc)?;
            let before = inflict(alloc, &mut asked.host, SECOND, how)?;
            asked.forget();
            assert!(rt; asked.host.faults == 1);
            assert!(rt; !asked.ask(alloc, way)?, "{kind}: {way:?}");
            assert!(rt; asked.host.faults == 2, "{kind}: {way:?}");
            asked.host.alter(SECOND, how.page(), &before)?;
            assert!(rt; asked.shows(alloc, LETTERS)?, "{kind}: {way:?}");
        }
    }
    Ok(())
}

// Where a swap file ends: in the page of block 2, before it, in that of block 1, and at once.
const ENDS: [u64; 4] = [3 * 4096 - 1, 2 * 4096, 4096 + 100, 0];

#[test]
fn a_file_that_ends_before_a_page_is_one_fault(rt: HostRuntime) -> Result<(), Fail> {
    let alloc = rt.alloc();
    for end in ENDS {
        for way in [Way::Line, Way::Text, Way::Change] {
            let mut asked = started(alloc)?;
            let whole = asked.host.files.bytes(SECOND).ok_or("there is the file")?;
            let before = Vec::from_slice(alloc, whole)?;
            asked
                .host
                .files
                .cut(SECOND, end)
                .ok_or("there is the file")?;
            asked.forget();
            assert!(rt; !asked.ask(alloc, way)?, "{end}: {way:?}");
            assert!(rt; asked.host.faults == 2, "{end}: {way:?}");
            asked
                .host
                .files
                .write(SECOND, 0, &before)
                .ok_or("there is the file")?;
            assert!(rt; asked.shows(alloc, LETTERS)?, "{end}: {way:?}");
        }
    }
    Ok(())
}

// Blocks in the places of others with the same counts, and the lines that are read then.
const SHOWN: [(Altered, &[u8]); 3] = [
    (Altered::Other(2, 3), b"efghefghijkl"),
    (Altered::Other(3, 2), b"abcdabcdijkl"),
    (Altered::Other(4, 2), b"abcdefghabcd"),
];

#[test]
fn a_block_with_the_same_counts_shows_its_own_lines(rt: HostRuntime) -> Result<(), Fail> {
    let alloc = rt.alloc();
    for (how, letters) in SHOWN {
        let mut asked = started(alloc)?;
        let before = inflict(alloc, &mut asked.host, SECOND, how)?;
        asked.forget();
        assert!(rt; asked.shows(alloc, letters)?);
        assert!(rt; asked.ask(alloc, Way::Change)?);
        asked.host.alter(SECOND, how.page(), &before)?;
        asked.forget();
        assert!(rt; asked.shows(alloc, LETTERS)?);
    }
    Ok(())
}

// The text after two syncs, and then without a cache. The first sync writes block 2, which the second one copies from the file of the
// first, where it was altered.
fn synced(alloc: Global, how: Altered) -> Result<Asked, Fail> {
    let Asked {
        tree,
        mut pair,
        mut host,
    } = started(alloc)?;
    let block = host.page(alloc, SECOND, 2)?;
    if !sync_page(alloc, &mut pair, &mut host, &block)? {
        return Err(Fail::new("the first sync failed"));
    }
    let _ = inflict(alloc, &mut host, FIRST, how)?;
    let head = Head {
        dirty: true,
        empty: false,
        format: 1,
    };
    if pair.sync(&mut host, &head).is_err() || host.faults > 0 {
        return Err(Fail::new("the second sync failed"));
    }
    let mut asked = Asked { tree, pair, host };
    asked.forget();
    Ok(asked)
}

// What a sync copies, and the lines that are read then, or none where that is a fault.
const COPIED: [(Altered, Option<&[u8]>); 3] = [
    (Altered::Other(2, 3), Some(b"efghefghijkl")),
    (Altered::Other(2, 1), None),
    (Altered::Byte(2, 0, 0), None),
];

#[test]
fn a_sync_copies_an_altered_page_unseen(rt: HostRuntime) -> Result<(), Fail> {
    let alloc = rt.alloc();
    for (how, letters) in COPIED {
        let mut asked = synced(alloc, how)?;
        for page in 1..=4 {
            let copied = asked.host.page(alloc, SECOND, page)?
                == asked.host.page(alloc, FIRST, page)?;
            assert!(rt; copied);
        }
        let is_right = match letters {
            Some(letters) => asked.shows(alloc, letters)?,
            None => !asked.ask(alloc, Way::Text)? && asked.host.faults == 2,
        };
        assert!(rt; is_right);
    }
    Ok(())
}
