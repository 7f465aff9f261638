// Laws of names that are still. They do nothing: their contracts are the laws.
ghost use Rattle.std.specs.Prelude.{◌≡◌, Bool, List, []};
ghost use Rattle.vs_host.specs.Disk.{Disk, IsFolder, Name};
ghost use Rattle.vs_disk.specs.Names.{IsApart, SameAt};
ghost use Rattle.vs_pair.specs.Pair.{is_swap};
ghost use Rattle.vs_paged.specs.Fits.{Fits, names_of};
ghost use Rattle.vs_paged.specs.declared.paged.PagedText.{PagedText};
ghost use Rattle.vs_safety.specs.Texts.{Sync, Text};
ghost use Rattle.vs_desk.specs.Still.{IsStill};

/// The swap files of a text that fits are still; so is each set of names where no change of a name is pending. Calls that leave
/// the names of a set leave them still. In a folder no other name leads to a file of names that are still.
pub fn still_names()
    ensures fits { (paged : PagedText) (disk : Disk) (text : Text) (syncs : List Sync) → Fits paged disk text syncs →
        IsStill (is_swap (names_of paged)) disk }
    ensures settled { (inside : Name → Bool) (disk : Disk) → disk.pending ≡ [] → IsStill inside disk }
    ensures lasts { (inside : Name → Bool) (old new : Disk) → SameAt inside old new → IsStill inside old → IsStill inside new }
    ensures apart { (inside : Name → Bool) (disk : Disk) → IsFolder disk → IsStill inside disk → IsApart inside disk }
{}
