// A text of some blocks over a host that tells nothing. Its pages are read from a swap file that a test alters.
ghost use Rattle.std.specs.Prelude.{◌≡◌, IfOk};
ghost use Rattle.vs_text.specs.Limits.{IsWithinLimits};
ghost use Rattle.vs_test_pair.specs.Numbers.{IsWithin};

use crate::life::NAME;
use crate::outside::Outside;
use std::alloc::Global;
use std::test::Fail;
use vs_pages::failing::FailingPages;
use vs_pages::{MemPages, PageErr, Pages};
use vs_pair::{Head, PairPages, SwapPair};
use vs_pieces::{EndedLines, PieceReader};
use vs_text::Line;
use vs_tree::LineTree;

/// The letters of the lines of the text: block 1 leads to the data blocks 2, 3 and 4, of one page each, in which the lines of `abcd`,
/// of `efgh` and of `ijkl` stand.
pub const LETTERS: &[u8] = b"abcdefghijkl";

/// The text, the pair that has its pages, and the host.
#[derive(Drop)]
pub struct Asked {
    pub tree: LineTree,
    pub pair: SwapPair,
    pub host: Outside,
    ghost within: { IsWithin tree },
}

/// What is asked of the text.
#[derive(Clone, Copy, Debug)]
pub enum Way {
    /// The first line.
    Line,
    /// All lines.
    Text,
    /// That the first line is another one, which is taken back.
    Change,
}

// The length of a line of this letter. Four lines of which one is short fill a block.
fn size_of(letter: u8) -> usize {
    match letter {
        b'a' | b'h' | b'l' => 10,
        _ => 1_300,
    }
}

/// The bytes of a text with a line of each of these letters.
pub(crate) fn lines_of(alloc: Global, letters: &[u8]) -> Result<Vec<u8>, Fail> {
    let mut bytes = Vec::new(alloc);
    for letter in letters {
        let end = bytes.len().saturating_add(size_of(*letter));
        bytes.resize(end, *letter)?;
        bytes.push(b'\n')?;
    }
    Ok(bytes)
}

// The lines that these bytes are.
fn read_lines(alloc: Global, bytes: &[u8]) -> Result<EndedLines, Fail>
    ensures { IfOk result (λ lines. IsWithinLimits lines) }
{
    let mut reader = PieceReader::new(alloc);
    if reader.feed(alloc, bytes).is_err() {
        return Err(Fail::new("it is no text"));
    }
    match reader.end() {
        Ok(lines) => Ok(lines),
        Err(_) => Err(Fail::new("it is no text")),
    }
}

/// The text after its swap files were made. No page of it is in memory but in the cache.
pub(crate) fn started(alloc: Global) -> Result<Asked, Fail>
    ensures { IfOk result (λ asked. asked.pair.files.generation ≡ 2) }
{
    let bytes = lines_of(alloc, LETTERS)?;
    let lines = read_lines(alloc, &bytes)?;
    let mut pages = FailingPages::<false>::new(MemPages::new(alloc)?);
    let mut tree = LineTree::new(alloc, &mut pages)?;
    tree.push_lines(alloc, &mut pages, &lines)?;
    pages.commit();
    tree.commit();
    let mut pair = SwapPair::new(alloc, NAME)?;
    pair.pages = pages.pages;
    let mut host = Outside::new(alloc);
    let head = Head {
        dirty: false,
        empty: false,
        format: 1,
    };
    match pair.start(&mut host, &head) {
        Ok(()) => Ok(Asked { tree, pair, host }),
        Err(_) => Err(Fail::new("the swap files were not made")),
    }
}

// Whether a call on the pages was answered, or a page was not the one that was wanted.
fn is_answered(answer: Result<(), PageErr>) -> Result<bool, Fail> {
    match answer {
        Ok(()) => Ok(true),
        Err(PageErr::Failed) => Ok(false),
        Err(PageErr::NoMemory) => Err(Fail::new("there is no memory")),
    }
}

impl Asked {
    /// Has the cache let all pages go, as a page does that is not the one that is wanted. That is one fault.
    pub fn forget(&mut self) {
        let mut pages = PairPages {
            pair: &mut self.pair,
            host: &mut self.host,
        };
        pages.damaged();
    }

    // Whether the first line was read.
    fn line(&mut self, alloc: Global) -> Result<bool, Fail> {
        let mut line = Vec::new(alloc);
        let mut pages = PairPages {
            pair: &mut self.pair,
            host: &mut self.host,
        };
        if self.tree.len() == 0 {
            return Err(Fail::new("there is no line"));
        }
        is_answered(self.tree.line(alloc, &mut pages, 0, &mut line))
    }

    // Whether the first line was changed. Then it is as before again.
    fn change(&mut self, alloc: Global) -> Result<bool, Fail> {
        let new = [Line::from_vec(vec![in alloc; b'x'; 10]?)];
        let mut pages = PairPages {
            pair: &mut self.pair,
            host: &mut self.host,
        };
        if self.tree.len() == 0 {
            return Err(Fail::new("there is no line"));
        }
        let answer = self.tree.splice(alloc, &mut pages, 0, 1, &new);
        pages.rollback();
        self.tree.rollback();
        is_answered(answer)
    }

    /// The bytes of the text, or none where a page is not the one that is wanted.
    pub fn text(&mut self, alloc: Global) -> Result<Option<Vec<u8>>, Fail> {
        let count = self.tree.len();
        let mut text = Vec::new(alloc);
        let mut pages = PairPages {
            pair: &mut self.pair,
            host: &mut self.host,
        };
        let answer = self.tree.copy_lines(alloc, &mut pages, 0, count, &mut text);
        if is_answered(answer)? {
            return Ok(Some(text));
        }
        Ok(None)
    }

    /// Whether this was answered.
    pub fn ask(&mut self, alloc: Global, way: Way) -> Result<bool, Fail> {
        match way {
            Way::Line => self.line(alloc),
            Way::Text => Ok(self.text(alloc)?.is_some()),
            Way::Change => self.change(alloc),
        }
    }

    /// Whether the text is read, with no fault, as a line of each of these letters.
    pub fn shows(&mut self, alloc: Global, letters: &[u8]) -> Result<bool, Fail> {
        let faults = self.host.faults;
        let wanted = lines_of(alloc, letters)?;
        let text = self.text(alloc)?;
        Ok(text.as_deref() == Some(wanted.as_slice()) && self.host.faults == faults)
    }
}
