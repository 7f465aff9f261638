// Laws of runs. They do nothing: their contracts are the laws.
ghost use Rattle.std.specs.Prelude.{◌≡◌, ◌≢◌, ◌⊎◌, ℕ, List, [], ◌++◌, All, Some, IsSome, IsTrue};
ghost use Rattle.vs_host.specs.Disk.{mode_in};
ghost use Rattle.vs_host.specs.Names.{names_of_file};
ghost use Rattle.vs_host.specs.Trace.{GoesOn};
ghost use Rattle.vs_host.specs.World.{Scene, Tells};
ghost use Rattle.vs_text.specs.Text.{lines_of};
ghost use Rattle.vs_machine.specs.declared.command.Mark.{Mark};
ghost use Rattle.vs_family.specs.declared.which.Which.{Which};
ghost use Rattle.vs_tagged.specs.Tagged.{lines_under};
ghost use Rattle.vs_modes.specs.Recover.{remains_in};
ghost use Rattle.vs_top.specs.Due.{IsOnlyDue, IsSpared};
ghost use Rattle.vs_top.specs.Forms.{Performs};
ghost use Rattle.vs_top.specs.PairHistory.{AnswerList, BothFiles, own_lines, written_both};
ghost use Rattle.vs_top.specs.PairPromise.{AllWhole, HasRunBoth, files_in};
ghost use Rattle.vs_top.specs.PairScript.{answers_of};
ghost use Rattle.vs_top.specs.Promise.{HasRun, RunsEdit, RunsStress};
ghost use Rattle.vs_top.specs.Readers.{EachWrites, IsMadeLike};
ghost use Rattle.vs_top.specs.Stress.{IsSceneOf};
ghost use Rattle.vs_top.specs.Tags.{prefix_of};
ghost use Rattle.vs_top.specs.Unhindered.{IsStressUnhindered, IsThrough, IsThroughMark, IsUnhindered};
ghost use Rattle.vs_top.specs.declared.ending.Ending.{Ending};
ghost use Rattle.vs_top.specs.declared.ending.Ending.TheVariants as ending;
ghost use Rattle.vs_top.specs.declared.form.Mode.{Mode};
ghost use Rattle.vs_top.specs.declared.form.Mode.TheVariants as mode;

use vs_host::Host;

/// An `edit` that nothing hinders comes to its end, or has no memory.
pub fn edit_through()
    ensures ends { (tells : Tells) (name : List ℕ) (old new : Scene) (end : Ending) (marks : List Mark) → RunsEdit tells name old new end marks
        → IsUnhindered tells name old new → IsThrough end }
    ensures marks { (tells : Tells) (name : List ℕ) (old new : Scene) (end : Ending) (marks : List Mark) → RunsEdit tells name old new end marks
        → IsUnhindered tells name old new → All IsThroughMark marks }
{}

/// So does a `stress`.
pub fn stress_through<H: Host>()
    ensures ends { (count : ℕ) (old new : Scene) (end : Ending) (marks : List Mark) → RunsStress (IsSceneOf H.scene) H.tells count old new end marks
        → IsStressUnhindered H.tells old new → IsThrough end }
    ensures marks { (count : ℕ) (old new : Scene) (end : Ending) (marks : List Mark) → RunsStress (IsSceneOf H.scene) H.tells count old new end marks
        → IsStressUnhindered H.tells old new → All IsThroughMark marks }
{}

/// What an `edit` makes over a file that each of its `w` and `wundo` finds has the mode of that file, or is for its owner alone: at each
/// moment, whatever a stop leaves.
pub fn edit_readers()
    ensures { (bits : ℕ) (name : List ℕ) (old new : Scene) (end : Ending) (marks : List Mark) (ran : HasRun name old new end marks)
        → old.folder.pending ≡ [] → mode_in old.folder name ≡ Some bits → EachWrites (λ found. IsSome (mode_in found name)) ran.did.past
        → GoesOn (λ m. IsMadeLike bits old.folder m.folder) old.trace new.trace × IsMadeLike bits old.folder new.folder }
{}

/// What a `pair` writes for a session is read back from its output under the prefix of that session, and nothing else: its opening reply,
/// its answers, and the one to each of its lines after its quit.
pub fn pair_output()
    ensures answers { (session : Which) (files : BothFiles) (answers : AnswerList) (rest : List ℕ)
        → lines_under (prefix_of session) (lines_of (written_both files answers ++ rest))
        ≡ own_lines session files answers ++ lines_under (prefix_of session) (lines_of rest) }
    ensures run { (session : Which) (one two : List ℕ) (old new : Scene) (end : Ending) (marks : List Mark) (ran : HasRunBoth one two old new end marks)
        → old.output ≡ [] → ran.did.reach ≡ AllWhole
        → lines_under (prefix_of session) (lines_of new.output) ≡ own_lines session (files_in old one two) (answers_of ran.did.transcript) }
{}

/// Another mode of which no call fails ends as it is to end, and in no other way, or has no memory.
pub fn mode_due()
    ensures { (which : Mode) (tells : Tells) (name : List ℕ) (old new : Scene) (end : Ending) (marks : List Mark)
        → Performs which tells name old new end marks → which ≢ mode.Edit → IsTrue tells.folder → IsSpared old new
        → (end ≡ ending.NoMemory) ⊎ IsOnlyDue which (remains_in old (names_of_file name)) end }
{}
