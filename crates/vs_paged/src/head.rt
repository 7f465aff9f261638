// What page 0 says of a text in pages.
ghost use Rattle.std.specs.Prelude.{◌≡◌, ◌==◌};
ghost use Rattle.vs_swap.specs.Files.{format_number};
ghost use Rattle.vs_pair.specs.Swap.{IsFormatNumber};

use vs_pair::Head;
use vs_text::Format;
use vs_tree::LineTree;

// What page 0 says of the committed text in this format.
pub(crate) fn head_of(tree: &LineTree, dirty: bool, format: Format) -> Head
    ensures head { result ≡ record { dirty = dirty; empty = tree.now.committed.lines == 0; format = format_number format } }
    ensures known { IsFormatNumber result.format }
{
    Head {
        dirty,
        empty: tree.committed.lines == 0,
        format: match format {
            Format::Unix => 1,
            Format::Dos => 2,
        },
    }
}
