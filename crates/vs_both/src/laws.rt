// Laws of two sessions in one folder. They do nothing: their contracts are the laws.
ghost use Rattle.std.specs.Prelude.{IsTrue, false, ◌≡◌, ◌⊎◌, ◌<◌, ◌∷◌, [], ◌++◌, ℕ, List, None, Option, length};
ghost use Rattle.vs_host.specs.Disk.{Disk, IsFolder, Name};
ghost use Rattle.vs_host.specs.Names.{is_allowed};
ghost use Rattle.vs_host.specs.World.{ChangesFolder, LeavesTrace, Scene};
ghost use Rattle.vs_disk.specs.Names.{IsApart, SameAt};
ghost use Rattle.vs_text.specs.Documents.{Document};
ghost use Rattle.vs_family.specs.Family.{clash};
ghost use Rattle.vs_safety.specs.Texts.{IsBetween, NoneLeft, Recovers, RecoversOrNone, Sync, recoverable};
ghost use Rattle.vs_safety.specs.FileWork.{FileWork, Keeps};
ghost use Rattle.vs_safety.specs.Turns.{Quits, Turn, opened};
ghost use Rattle.vs_safety.specs.Safety.{IsCrashSafeAmong, IsFirstPart, Looks, Stepped, Works, Wrote};
ghost use Rattle.vs_safety.specs.History.{After, BeginsAmong, HasBegunAmong, History, Open, Replied, ran_of, syncs_of};
ghost use Rattle.vs_both.specs.Beside.{AreSetApart, AreBeside, HasFamily, HasQuit, Party, ShareNone, of_others, others_of};
ghost use Rattle.vs_both.specs.Parties.{party_of};
ghost use Rattle.vs_both.specs.Both.{BothGo, BothKept, Gone, HasKept, Running, PartyStage, with_turn};

/// What a stop may leave of a session's swap files goes on where the names of its family stay.
pub fn standing()
    ensures recovers { (party : Party) (old new : Disk) (documents : List Document) → HasFamily party → SameAt party.family old new
        → Recovers party.names documents old → Recovers party.names documents new }
    ensures none { (party : Party) (old new : Disk) → HasFamily party → SameAt party.family old new → NoneLeft party.names old
        → NoneLeft party.names new }
    ensures between { (party : Party) (old new : Disk) (syncs : List Sync) → HasFamily party → SameAt party.family old new
        → IsBetween party.names syncs old → IsBetween party.names syncs new }
{}

/// The files of both families are their own where nothing is pending in the folder, and after each session's work.
pub fn apartness()
    ensures settled { (one two : Party) (disk : Disk) → disk.pending ≡ [] → IsFolder disk → AreSetApart one two disk }
    ensures first { (one two : Party) (write : Option FileWork) (old new : Disk) → AreBeside one two → AreSetApart one two old
        → Keeps one.names write old new → AreSetApart one two new }
    ensures second { (one two : Party) (write : Option FileWork) (old new : Disk) → AreBeside one two → AreSetApart one two old
        → Keeps two.names write old new → AreSetApart one two new }
    ensures swapped { (one two : Party) → AreBeside one two → AreBeside two one }
{}

/// Each session's opening among the names of its family, where one opened its file and then the other did.
pub fn beginning()
    ensures own { (party : Party) (document : Document) (start now : Scene) → start.folder.pending ≡ []
        → RecoversOrNone party.names (document ∷ []) start.folder
        → Works party.names None (RecoversOrNone party.names (document ∷ [])) start now → BeginsAmong (others_of party) party.names document start now }
    ensures opens { (party : Party) (document : Document) (start now : Scene) → HasFamily party
        → BeginsAmong (others_of party) party.names document start now
        → IsBetween party.names (opened document) now.folder → HasBegunAmong (others_of party) party.names document start now }
    ensures first { (party other : Party) (document other_document : Document) (start mid now : Scene) → HasFamily party
        → HasFamily other → ShareNone party other → ChangesFolder mid now → HasBegunAmong (others_of party) party.names document start mid
        → IsApart party.family mid.folder → Works other.names None (RecoversOrNone other.names (other_document ∷ [])) mid now
        → HasBegunAmong (others_of party) party.names document start now }
    ensures second { (party other : Party) (document other_document : Document) (start mid now : Scene) → HasFamily party
        → HasFamily other → ShareNone party other → ChangesFolder mid now → start.folder.pending ≡ []
        → RecoversOrNone party.names (document ∷ []) start.folder → IsApart party.family start.folder
        → Works other.names None (RecoversOrNone other.names (other_document ∷ [])) start mid
        → Works party.names None (RecoversOrNone party.names (document ∷ [])) mid now
        → BeginsAmong (others_of party) party.names document start now }
{}

/// Both opening replies: whole, or the first or the second cut short.
pub fn opening()
    ensures replies { (one two : Party) (start now mid new : Scene) (document other_document : Document) (reply other_reply : List ℕ)
        → HasBegunAmong (others_of one) one.names document start now → HasBegunAmong (others_of two) two.names other_document start now
        → AreSetApart one two now.folder → Replied reply now mid → Replied other_reply mid new
        → BothGo one two start (Running (After (Open document reply) (of_others other_reply))) (Running (Open other_document (reply ++ other_reply))) new }
    ensures first_cut { (one two : Party) (start now new : Scene) (document other_document : Document) (reply other_reply written : List ℕ)
        → HasBegunAmong (others_of one) one.names document start now → HasBegunAmong (others_of two) two.names other_document start now → 0 < length reply
        → Wrote written now new → IsFirstPart written reply
        → BothKept one two start (Running (Open document reply)) (Running (Open other_document (reply ++ other_reply))) new }
    ensures second_cut { (one two : Party) (start now mid new : Scene) (document other_document : Document) (reply other_reply written : List ℕ)
        → HasBegunAmong (others_of one) one.names document start now → HasBegunAmong (others_of two) two.names other_document start now → Replied reply now mid
        → 0 < length other_reply → Wrote written mid new → IsFirstPart written other_reply
        → BothKept one two start (Running (After (Open document reply) (of_others other_reply))) (Running (Open other_document (reply ++ other_reply))) new }
{}

/// One turn of the run: it looks, the first session carries out a command and its reply is written, or a reply for which nobody works on
/// the folder. The run may stop at each of these.
pub fn turning()
    ensures looks { (one two : Party) (start now new : Scene) (first second : PartyStage) → BothGo one two start first second now → Looks now new
        → BothGo one two start first second new }
    ensures stops { (one two : Party) (start now : Scene) (first second : PartyStage) → BothGo one two start first second now
        → BothKept one two start first second now }
    ensures swapped { (one two : Party) (start now : Scene) (first second : PartyStage) → BothGo one two start first second now
        → BothGo two one start second first now }
    ensures answers { (one two : Party) (start now ended new : Scene) (past : History) (second : PartyStage) (turn : Turn) → AreBeside one two
        → BothGo one two start (Running past) second now → Stepped one.names (syncs_of past) turn now ended → Replied turn.reply ended new
        → BothGo one two start (Running (After past turn)) (with_turn second (of_others turn.reply)) new }
    ensures cut { (one two : Party) (start now ended new : Scene) (past : History) (second : PartyStage) (turn : Turn) (written : List ℕ)
        → AreBeside one two → BothGo one two start (Running past) second now → Stepped one.names (syncs_of past) turn now ended → 0 < length turn.reply
        → Wrote written ended new → IsFirstPart written turn.reply
        → BothKept one two start (Running (After past turn)) (with_turn second (of_others turn.reply)) new }
    ensures replies { (one two : Party) (start now new : Scene) (first second : PartyStage) (reply : List ℕ) → BothGo one two start first second now
        → Replied reply now new → BothGo one two start (with_turn first (of_others reply)) (with_turn second (of_others reply)) new }
    ensures reply_cut { (one two : Party) (start now new : Scene) (first second : PartyStage) (reply written : List ℕ)
        → BothGo one two start first second now → 0 < length reply → Wrote written now new → IsFirstPart written reply
        → BothKept one two start (with_turn first (of_others reply)) (with_turn second (of_others reply)) new }
{}

/// The first session quits, and the other one goes on; or the run stops there.
pub fn quitting()
    ensures quits { (one two : Party) (start now mid new : Scene) (past : History) (second : PartyStage) → AreBeside one two
        → BothGo one two start (Running past) second now → Works one.names None (RecoversOrNone one.names (recoverable (syncs_of past))) now mid
        → NoneLeft one.names mid.folder → Replied one.line mid new → BothGo one two start (Gone past) (with_turn second (of_others one.line)) new }
    ensures cut { (one two : Party) (start now mid new : Scene) (past : History) (second : PartyStage) (written : List ℕ) → AreBeside one two
        → BothGo one two start (Running past) second now → Works one.names None (RecoversOrNone one.names (recoverable (syncs_of past))) now mid
        → 0 < length one.line → Wrote written mid new → IsFirstPart written one.line → LeavesTrace mid new ⊎ NoneLeft one.names mid.folder
        → IsCrashSafeAmong (others_of one) one.names one.line start new (ran_of past Quits)
        × HasKept two start (with_turn second (of_others one.line)) new }
    ensures since { (party : Party) (start now : Scene) (past : History) → HasFamily party → HasQuit party start past now
        → NoneLeft party.names now.folder }
{}

/// The sessions on two files that do not clash have nothing to do with each other's names.
pub fn parting()
    ensures { (one two : Name) (line other : List ℕ) → IsTrue (is_allowed one) → IsTrue (is_allowed two) → clash one two ≡ false
        → AreBeside (party_of one line) (party_of two other) }
{}
