// Laws of a run that may stop at any moment. They do nothing: their contracts are the laws.
ghost use Rattle.std.specs.Prelude.{◌≡◌, ◌⊎◌, ◌↔◌, ◌+◌, ◌<◌, ◌≤◌, ◌∷◌, [], ◌++◌, ℕ, Bool, IfSome, List, None, Option, length, true};
ghost use Rattle.vs_faults.specs.Faults.{HasRisen};
ghost use Rattle.vs_host.specs.Disk.{Disk, Name};
ghost use Rattle.vs_host.specs.Trace.{Snapshot};
ghost use Rattle.vs_host.specs.World.{LeavesTrace, Scene};
ghost use Rattle.vs_host.specs.declared.names.Names.{Names};
ghost use Rattle.vs_disk.specs.Images.{HoldsBytes};
ghost use Rattle.vs_disk.specs.Names.{IsApart};
ghost use Rattle.vs_disk.specs.Runs.{FailsLast};
ghost use Rattle.vs_text.specs.Documents.{Document};
ghost use Rattle.vs_safety.specs.Texts.{Sync, IsOneOf, IsDocumentOfOne, IsNewestOf, IsBetween, NoneLeft, Recovers, RecoversOrNone, recoverable};
ghost use Rattle.vs_safety.specs.Writes.{AreIn, outside};
ghost use Rattle.vs_safety.specs.FileWork.{AvoidsFiles, FileWork, KeepsAmong};
ghost use Rattle.vs_safety.specs.Turns.{Turn, IsSplit, NotBegun, LastSync, Quits, last_turn, preserved_line, replies};
ghost use Rattle.vs_safety.specs.Stretches.{IsFirst, KeepsSince};
ghost use Rattle.vs_safety.specs.Safety.{IsCrashSafeAmong, IsFirstPart, SteppedAmong, WorksAmong, Wrote};
ghost use Rattle.vs_safety.specs.History.{History, Open, After, BeginsAmong, HasBegunAmong, WaitsAmong, ran_of, syncs_of};
ghost use Rattle.vs_safety.specs.Causes.{IsCounted, RoseLast, folder_count};

/// Between two commands recovery gives the document of the last acknowledged sync, or of one that was begun since, and these
/// are just the documents that count as recoverable.
pub fn standing()
    ensures recovers { (names : Names) (syncs : List Sync) (disk : Disk) → IsBetween names syncs disk → Recovers names (recoverable syncs) disk }
    ensures documents { (syncs later past : List Sync) (newest : Sync) (document : Document) → IsNewestOf syncs later newest past
        → IsOneOf document (recoverable syncs) ↔ ((document ≡ newest.document) ⊎ IsDocumentOfOne document later) }
{}

/// Of the commands whose replies are whole in an output, a split has as many as there are.
pub fn splitting()
    ensures { (from n : ℕ) (turns first rest others more : List Turn) → IsSplit from n turns first rest → turns ≡ others ++ more
        → from + length (replies others) ≤ n → length others ≤ length first }
{}

/// A run that stopped before the reply to its opening was whole kept its promise. A reply may take several writes.
pub fn opening()
    ensures fails { (others : Name → Bool) (names : Names) (line : List ℕ) (start now : Scene) (document : Document) (reply : List ℕ) → 0 < length reply
        → BeginsAmong others names document start now → IsCrashSafeAmong others names line start now (ran_of (Open document reply) NotBegun) }
    ensures cut { (others : Name → Bool) (names : Names) (line : List ℕ) (start now new : Scene) (document : Document) (reply written : List ℕ)
        → 0 < length reply → HasBegunAmong others names document start now → Wrote written now new → IsFirstPart written reply
        → IsCrashSafeAmong others names line start new (ran_of (Open document reply) NotBegun) }
{}

/// So did one that stopped between two commands, or in one of them or its reply.
pub fn running()
    ensures stops { (others : Name → Bool) (names : Names) (line : List ℕ) (start now : Scene) (past : History) → WaitsAmong others names start past now
        → IsCrashSafeAmong others names line start now (ran_of past NotBegun) }
    ensures cut { (others : Name → Bool) (names : Names) (line : List ℕ) (start now ended new : Scene) (past : History) (turn : Turn) (written : List ℕ)
        → WaitsAmong others names start past now → 0 < length turn.reply → SteppedAmong others names (syncs_of past) turn now ended
        → Wrote written ended new → IsFirstPart written turn.reply → IsCrashSafeAmong others names line start new (ran_of (After past turn) NotBegun) }
{}

/// And one that came to the script's end or to an accepted quit.
pub fn ending()
    ensures syncs { (others : Name → Bool) (names : Names) (line : List ℕ) (start now ended new : Scene) (past : History) (sync : Sync) (written : List ℕ)
        → WaitsAmong others names start past now → SteppedAmong others names (syncs_of past) (last_turn sync) now ended
        → Wrote written ended new → IsFirstPart written preserved_line → IsCrashSafeAmong others names line start new (ran_of past (LastSync sync)) }
    ensures quits { (others : Name → Bool) (names : Names) (line : List ℕ) (start now mid new : Scene) (past : History) (written : List ℕ)
        → WaitsAmong others names start past now → WorksAmong others names None (RecoversOrNone names (recoverable (syncs_of past))) now mid
        → Wrote written mid new → IsFirstPart written line → LeavesTrace mid new ⊎ NoneLeft names mid.folder
        → IsCrashSafeAmong others names line start new (ran_of past Quits) }
{}

/// While no command works on files, each name but those of the pair has in every image what it had there when the last reply was
/// whole: after a write, the bytes that it wrote.
pub fn lasting()
    ensures { (others : Name → Bool) (names : Names) (moments : List Snapshot) (n : ℕ) (folder : Disk) (first : Snapshot) (name : Name) (bytes : List ℕ)
        → others name ≡ true → KeepsSince others names moments n None folder → IsFirst n moments first → HoldsBytes name bytes first.folder
        → HoldsBytes name bytes folder }
{}

/// Where no call but the last one failed since the newest snapshot had the count as it was, the count rose at the last call.
pub fn failing()
    ensures { (start now new : Scene) → FailsLast now new → HasRisen now.folder_faults new.folder_faults → IsCounted folder_count start now
        → RoseLast folder_count start new }
{}

/// A command hands no file from its family to other names, or back: to the files of a set that has all names of the family, or none, no
/// name outside of it leads after the command if none did before.
pub fn handing()
    ensures { (others : Name → Bool) (names : Names) (write : Option FileWork) (family part : Name → Bool) (old new : Disk)
        → AreIn others (outside family) → IfSome write (λ work. AvoidsFiles names work (outside family)) → IsApart (outside family) old
        → ((a b : Name) → family a ≡ true → family b ≡ true → part a ≡ part b) → IsApart part old → KeepsAmong others names write old new
        → IsApart part new }
{}
