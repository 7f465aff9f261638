// A text whose swap files were made.
ghost use Rattle.std.specs.Prelude.{◌≤◌};
ghost use Rattle.vs_paged.specs.Pages.{IsBounded};

use vs_pair::SwapPair;
use vs_tree::LineTree;

/// A text that stands as a filled tree of blocks in the pages of a pair of swap files, which were made. As a store of lines it is the
/// `MergedStore` of vs_merge over `PairPages`, to which tree and pair are lent; each change is then committed, or it is taken back.
#[derive(Drop)]
pub struct PagedText {
    pub tree: LineTree,
    pub pair: SwapPair,
    ghost bounded: { IsBounded tree },
    ghost started: { 2 ≤ pair.files.generation },
}
