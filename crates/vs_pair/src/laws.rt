// Laws of a pair. They do nothing: their contracts are the laws.
ghost use Rattle.std.specs.Prelude.{◌≡◌, ◌∷◌, [], ◌<◌, ◌^◌, ℕ, List, None, Ok, IsTrue, take};
ghost use Rattle.vs_host.specs.Disk.{ChangesFile, Disk, SyncsNames, IsImage, content_in};
ghost use Rattle.vs_host.specs.Names.{AreNames, is_allowed};
ghost use Rattle.vs_host.specs.declared.names.Names.{Names};
ghost use Rattle.vs_disk.specs.Images.{Holds as HoldsAlways};
ghost use Rattle.vs_disk.specs.Names.{SameAt};
ghost use Rattle.vs_zero.specs.Zero.{reading_of};
ghost use Rattle.vs_text.specs.Documents.{Document};
ghost use Rattle.vs_swap.specs.Recovery.{Recovered};
ghost use Rattle.vs_pair.specs.Swap.{Synced, Holds, IsFormatNumber, body_of, zero_of};
ghost use Rattle.vs_pair.specs.Pair.{Image, Known, is_swap, IsFit, IsBetween, IsDocumentOf, Offers, Recovers, Rises, away_of, held_in, known_of, name_of, other_side};
ghost use Rattle.vs_pair.specs.Stale.{HasCommitted, SparesFresh};
ghost use Rattle.vs_pair.specs.Held.{KeepsHeld};
ghost use Rattle.vs_pair.specs.declared.files.SwapFiles.{SwapFiles};
ghost use Rattle.vs_pair.specs.declared.pair.SwapPair.{SwapPair};
ghost use Rattle.vs_pair.specs.Steps.{IsFresh};

/// Between two calls one file stands in every image for the last acknowledged sync, and what may be recovered is that sync or
/// one that was begun since.
pub fn fitting()
    ensures between { (files : Known) (disk : Disk) (newest : Synced) (begun past : List Synced)
        → IsFit files disk newest begun past → IsBetween files.names newest begun past disk }
    ensures recovers { (files : Known) (disk : Disk) (newest : Synced) (begun past : List Synced) → IsFit files disk newest begun past
        → Recovers files.names (newest ∷ begun) (newest ∷ past) disk }
{}

/// While a sync writes only the pages that may differ in its file, each image of that file has all others as they are committed.
pub fn sparing()
    ensures { (files : Known) (old new : Disk) (newest : Synced) (begun past : List Synced) → IsFit files old newest begun past
        → ChangesFile (name_of files.names (other_side files.newer)) (SparesFresh files.pages.commits files.older_has) old new
        → HoldsAlways (name_of files.names (other_side files.newer)) (HasCommitted files.pages files.older_has) new }
{}

/// From two files that offer a sync of a document, that document is recovered.
pub fn recovering()
    ensures document { (names : Names) (older : List Synced) (image : Image) (sync : Synced) (document : Document)
        → IsTrue (is_allowed names.file) → IsDocumentOf sync document
        → Offers names older image sync → Recovered (image names.swp) (image names.swo) document }
    ensures head { (names : Names) (sync : Synced) (c : List ℕ) → IsTrue (is_allowed names.file) → sync.generation < 2 ^ 64
        → IsFormatNumber sync.head.format → Holds (body_of names.file sync) c
        → reading_of (take 4096 c) ≡ Ok (zero_of sync.generation sync.head) }
{}

/// Calls that leave the swap files, whatever they do to other names, leave all that is said of them; so does a sync of the names.
pub fn leaving()
    ensures fit { (files : Known) (old new : Disk) (newest : Synced) (begun past : List Synced)
        → SameAt (is_swap files.names) old new → IsFit files old newest begun past
        → IsFit files new newest begun past }
    ensures recovers { (names : Names) (old new : Disk) (syncs older : List Synced) → SameAt (is_swap names) old new
        → Recovers names syncs older old → Recovers names syncs older new }
    ensures rises { (names : Names) (start old new : Disk) → SameAt (is_swap names) old new → Rises names start old → Rises names start new }
    ensures names { (names : Names) (old new : Disk) → SyncsNames old new → SameAt (is_swap names) old new }
    ensures away { (files : SwapFiles) (old new : Disk) → SameAt (is_swap files.names) old new → away_of files new ≡ away_of files old }
{}

/// Pages that changed leave all that is said of the files, as long as each commit that changed a page is known.
pub fn changing()
    ensures { (old new : SwapPair) (disk : Disk) (newest : Synced) (begun past : List Synced) → new.files ≡ old.files
        → KeepsHeld (held_in old disk) (held_in new disk)
        → IsFit (known_of old disk) disk newest begun past → IsFit (known_of new disk) disk newest begun past }
{}

/// A folder in which nothing is pending, and neither swap file is there, is fresh.
pub fn beginning()
    ensures { (names : Names) (disk : Disk) → disk.pending ≡ [] → content_in disk names.swp ≡ None → content_in disk names.swo ≡ None →
        IsFresh names disk }
{}
