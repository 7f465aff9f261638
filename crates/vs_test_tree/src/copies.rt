// Lines that are copied out of the tree, in parts of all lengths.
ghost use Rattle.vs_tree.specs.Texts.{Fits};

use std::alloc::{AllocError, Global};
use std::test::Fail;
use vs_pages::{MemPages, PageErr, Pages};
use vs_text::read_text;
use vs_tree::LineTree;

// A file with an empty line, a line with byte 0, a line for which a page has no room, and short lines for several blocks.
fn mixed_file(alloc: Global) -> Result<Vec<u8>, AllocError> {
    let mut file = Vec::from_slice(alloc, b"a\n\nb\x00c\n")?;
    let long = vec![in alloc; b'x'; 9_000]?;
    file.extend_from_slice(&long)?;
    file.push(b'\n')?;
    for _ in 0..1_000 {
        file.extend_from_slice(b"short\n")?;
    }
    Ok(file)
}

// Whether the lines make up the file where they are copied in two parts, wherever the second begins.
fn parts_make_up<P: Pages>(
    alloc: Global,
    tree: &mut LineTree,
    pages: &mut P,
    file: &[u8],
) -> Result<bool, PageErr>
    requires valid { P.valid pages.old }
    requires fits { Fits P.tells (P.shows pages.old).present tree.old.present }
{
    let count = tree.len();
    let mut copied = Vec::new(alloc);
    'parts: for first in 0..count {
        copied.clear();
        tree.copy_lines(alloc, pages, 0, first, &mut copied)?;
        tree.copy_lines(alloc, pages, first, count - first, &mut copied)?;
        if copied.as_slice() != file {
            return Ok(false);
        }
    }
    Ok(true)
}

#[test]
fn lines_come_out_whole_and_in_parts(rt: HostRuntime) -> Result<(), Fail> {
    let alloc = rt.alloc();
    let file = mixed_file(alloc)?;
    let (text, _) = read_text(alloc, &file)?;
    let mut pages = MemPages::new(alloc)?;
    let mut tree = LineTree::new(alloc, &mut pages)?;
    tree.splice(alloc, &mut pages, 0, 0, text.lines())?;
    assert!(rt; tree.len() == 1_004);
    assert!(rt; parts_make_up(alloc, &mut tree, &mut pages, &file)?);
    Ok(())
}
