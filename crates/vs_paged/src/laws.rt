// Laws of a text that fits the folder. They do nothing: their contracts are the laws.
ghost use Rattle.std.specs.Prelude.{◌≤◌, List};
ghost use Rattle.vs_host.specs.Disk.{Disk};
ghost use Rattle.vs_disk.specs.Names.{SameAt};
ghost use Rattle.vs_pair.specs.Pair.{is_swap};
ghost use Rattle.vs_safety.specs.Texts.{IsBetween, Recovers, Sync, Text, recoverable};
ghost use Rattle.vs_paged.specs.Fits.{Fits, names_of};
ghost use Rattle.vs_paged.specs.declared.paged.PagedText.{PagedText};

/// Between two calls the last acknowledged sync stands in every image, and what is recovered is its document or that of one
/// that was begun since. The tree of the text has at most 5 levels of pointer blocks.
pub fn fitting()
    ensures between { (paged : PagedText) (disk : Disk) (text : Text) (syncs : List Sync) → Fits paged disk text syncs →
        IsBetween (names_of paged) syncs disk }
    ensures recovers { (paged : PagedText) (disk : Disk) (text : Text) (syncs : List Sync) → Fits paged disk text syncs
        → Recovers (names_of paged) (recoverable syncs) disk }
    ensures low { (paged : PagedText) (disk : Disk) (text : Text) (syncs : List Sync) → Fits paged disk text syncs → paged.tree.present.height ≤ 5 }
{}

/// Calls that leave the swap files, whatever they do to other names, leave a text that fits, and what may be recovered.
pub fn leaving()
    ensures fits { (paged : PagedText) (old new : Disk) (text : Text) (syncs : List Sync) → SameAt (is_swap (names_of paged)) old new
        → Fits paged old text syncs
        → Fits paged new text syncs }
    ensures recovers { (paged : PagedText) (old new : Disk) (text : Text) (syncs : List Sync) → SameAt (is_swap (names_of paged)) old new
        → Fits paged old text syncs
        → Recovers (names_of paged) (recoverable syncs) new }
{}
