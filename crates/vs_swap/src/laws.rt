// Laws of standing swap files. They do nothing: their contracts are the laws.
ghost use Rattle.std.specs.Prelude.{◌≡◌, ℕ, ◌==◌, List, Option, Some, Ok, length, take};
ghost use Rattle.vs_pages.specs.Maps.{Map};
ghost use Rattle.vs_text.specs.Text.{IsText, stored};
ghost use Rattle.vs_text.specs.Documents.{Document};
ghost use Rattle.vs_tree_shape.specs.Trees.{HasLines};
ghost use Rattle.vs_tree_blocks.specs.Blocks.{tree_format};
ghost use Rattle.vs_swap.specs.Files.{IsHead, HoldsPages, StandsFor};
ghost use Rattle.vs_swap.specs.Recovery.{Recovered};

/// A file stands for one document with one generation at most.
pub fn stands_once()
    ensures { (file : List ℕ) (g h : ℕ) (a b : Document) → StandsFor file g a → StandsFor file h b → (g ≡ h) × (a ≡ b) }
{}

/// From two files one document is recovered at most.
pub fn recovered_once()
    ensures { (swp swo : Option (List ℕ)) (a b : Document) → Recovered swp swo a → Recovered swp swo b → a ≡ b }
{}

/// A file that holds the pages of a tree of lines, as a session writes them, stands for their text in the format of its page 0,
/// where that says so.
pub fn pages_stand()
    ensures { (file : List ℕ) (pages : Map) (depth generation : ℕ) (document : Document) → IsText document.text →
        HasLines tree_format pages depth (stored document.text)
        → HoldsPages pages file → IsHead file generation (length document.text == 0) document.format → StandsFor file generation document }
{}
