// Laws of lines with tags. They do nothing: their contracts are the laws.
ghost use Rattle.std.specs.Prelude.{◌≡◌, ◌≢◌, ℕ, List, ◌++◌, length};
ghost use Rattle.vs_text.specs.Text.{IsLine, lines_of};
ghost use Rattle.vs_tagged.specs.Tagged.{lines_under, tagged};

/// What is written under a tag is read back from the output under this tag, and nothing of it under another one of the same length.
pub fn reading_back()
    ensures own { (tag reply rest : List ℕ) → IsLine tag
        → lines_under tag (lines_of (tagged tag reply ++ rest)) ≡ lines_of reply ++ lines_under tag (lines_of rest) }
    ensures other { (tag other reply rest : List ℕ) → IsLine tag → length other ≡ length tag → other ≢ tag
        → lines_under other (lines_of (tagged tag reply ++ rest)) ≡ lines_under other (lines_of rest) }
{}
