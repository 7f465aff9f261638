// Writing a text of a swap pair into its file.
ghost use Rattle.std.specs.Prelude.{◌≡◌, IsErrOf, IsSome, IsTrue, List, [], ◌∷◌, true};
ghost use Rattle.vs_faults.specs.Faults.{HasCause};
ghost use Rattle.vs_host.specs.Trace.{Looked};
ghost use Rattle.vs_host.specs.World.{ChangesFolder, IsTold, content_of};
ghost use Rattle.vs_disk.specs.Runs.{Runs};
ghost use Rattle.vs_text.specs.Documents.{file_in};
ghost use Rattle.vs_tree.specs.Texts.{worked_by};
ghost use Rattle.vs_backup.specs.Backups.{IsNoName, WorksOn, backs_up};
ghost use Rattle.vs_backup.specs.Modes.{RewritesLike};
ghost use Rattle.vs_backup.specs.Works.{SparesOthers};
ghost use Rattle.vs_backup.specs.Writing.{FailsNoEarlier, IsFailed, OldIn};
ghost use Rattle.vs_backup.specs.declared.errors.Place.TheVariants.{Nowhere};
ghost use Rattle.vs_safety.specs.Texts.{Sync, Text, recoverable};
ghost use Rattle.vs_pair.specs.Lent.{IsReady};
ghost use Rattle.vs_pair.specs.Pair.{shown_in};
ghost use Rattle.vs_paged.specs.Turns.{KeepsKnown};
ghost use Rattle.vs_paged.specs.Fits.{Fits, names_of};
ghost use Rattle.vs_paged.specs.Pages.{IsBounded, IsPaged};
ghost use Rattle.vs_desk.specs.Counts.{NoneAbove};
ghost use Rattle.vs_desk.specs.Pages.{SamePages};
ghost use Rattle.vs_desk.specs.Still.{KeepsLeft};
ghost use Rattle.vs_desk.specs.Writes.{KeepsSwap, WritesFile};

use crate::desk::PagedDesk;
use crate::name::copy_name;
use std::alloc::Global;
use vs_backup::{WriteErr, WriteOptions, write_out};
use vs_host::Folder;
use vs_paged::PagedText;
use vs_pair::{PairPages, SwapPair};
use vs_tree::LineTree;

// Writes a text in the pages of a swap pair into the file that goes with the pair.
fn write_in<F: Folder>(
    alloc: Global,
    tree: &mut LineTree,
    pair: &mut SwapPair,
    host: &mut F,
    options: &WriteOptions,
) -> Result<u64, WriteErr>
    requires bounded { IsBounded tree.old }
    requires paged { IsTrue F.tells.folder → (text : Text) × IsPaged (shown_in pair.old (F.scene host.old).folder) tree.old text }
    requires ready { IsTrue F.tells.folder → IsReady pair.old (F.scene host.old).folder }
    ensures written { IsTrue F.tells.folder → (text : Text) → IsPaged (shown_in pair.old (F.scene host.old).folder) tree.old text
        → WritesFile options.now pair.old.files.names (file_in options.now.format text) (F.scene host.old) (F.scene host.new) result }
    ensures no_name { IsErrOf result WriteErr.NoBackupName → IsNoName options.now pair.old.files.names.file F.tells.folder (F.scene host.old).folder }
    ensures calls { IsTrue F.tells.folder → (text : Text) → IsPaged (shown_in pair.old (F.scene host.old).folder) tree.old text
        → FailsNoEarlier pair.old.files.names.file (file_in options.now.format text) (F.scene host.old) (F.scene host.new) result }
    ensures unseen { IsTrue F.tells.folder → IsSome (content_of (F.scene host.old) pair.old.files.names.file) → backs_up options.now ≡ true
        → OldIn Nowhere result
        → IsTold Looked (pair.old.files.names.file ∷ []) result (F.scene host.old) (F.scene host.new) }
    ensures others { IsTrue F.tells.folder →
        SparesOthers (WorksOn options.now pair.old.files.names.file (F.scene host.old).folder) (F.scene host.old) (F.scene host.new) }
    ensures modes { RewritesLike F.tells pair.old.files.names.file (F.scene host.old) (F.scene host.new) }
    ensures same { SamePages F.tells.folder pair.old pair.new tree.old tree.new (F.scene host.old).folder (F.scene host.new).folder }
    ensures ready { IsTrue F.tells.folder → IsReady pair.new (F.scene host.new).folder }
    ensures above { IsTrue F.tells.folder → NoneAbove (F.scene host.old) (F.scene host.new) }
    ensures frame { ChangesFolder (F.scene host.old) (F.scene host.new) }
    ensures cause { HasCause (F.scene host.old).folder_faults (F.scene host.new).folder_faults (IsFailed result) }
{
    let name = copy_name(&pair.files.names.file);
    let file_new = copy_name(&pair.files.names.file_new);
    let mut desk = PagedDesk {
        tree,
        pages: PairPages { pair, host },
    };
    write_out(alloc, &mut desk, name.as_str(), file_new.as_str(), options)
}

/// Writes the text into its file, by these options (docs/FORMATS.md, "Writing a file"). Gives the number of bytes.
///
/// After an error `old_in` says where the old bytes stand. At each moment what may be recovered from the swap files is
/// recovered, and text and swap files are as before, whatever was answered. A stop leaves under each name on which the write does
/// not work only what it might leave there before, and a set of such names to whose files no other name leads is left alone.
pub fn write_text<F: Folder>(
    alloc: Global,
    text: &mut PagedText,
    host: &mut F,
    options: &WriteOptions,
) -> Result<u64, WriteErr>
    requires fits { IsTrue F.tells.folder → (lines : Text) × (syncs : List Sync) × Fits text.old (F.scene host.old).folder lines syncs }

    // The file and its backup.
    ensures written { IsTrue F.tells.folder → (lines : Text) (syncs : List Sync) → Fits text.old (F.scene host.old).folder lines syncs
        → WritesFile options.now (names_of text.old) (file_in options.now.format lines) (F.scene host.old) (F.scene host.new) result }
    ensures no_name { IsErrOf result WriteErr.NoBackupName → IsNoName options.now (names_of text.old).file F.tells.folder (F.scene host.old).folder }
    ensures unseen { IsTrue F.tells.folder → IsSome (content_of (F.scene host.old) (names_of text.old).file) → backs_up options.now ≡ true
        → OldIn Nowhere result
        → IsTold Looked ((names_of text.old).file ∷ []) result (F.scene host.old) (F.scene host.new) }

    // The swap files, at each moment and at the end.
    ensures recovers { IsTrue F.tells.folder → (lines : Text) (syncs : List Sync) → Fits text.old (F.scene host.old).folder lines syncs
        → Runs (KeepsSwap (names_of text.old) (recoverable syncs)) (F.scene host.old) (F.scene host.new) }
    ensures fits { IsTrue F.tells.folder → (lines : Text) (syncs : List Sync) → Fits text.old (F.scene host.old).folder lines syncs
        → Fits text.new (F.scene host.new).folder lines syncs }

    // Who may read what it makes, where a file is there: those who may read that, or its owner alone.
    ensures modes { RewritesLike F.tells (names_of text.old).file (F.scene host.old) (F.scene host.new) }

    // All names on which the write does not work.
    ensures others { IsTrue F.tells.folder
        → SparesOthers (WorksOn options.now (names_of text.old).file (F.scene host.old).folder) (F.scene host.old) (F.scene host.new) }
    ensures left { IsTrue F.tells.folder → (lines : Text) (syncs : List Sync) → Fits text.old (F.scene host.old).folder lines syncs
        → Runs (KeepsLeft (WorksOn options.now (names_of text.old).file (F.scene host.old).folder)) (F.scene host.old) (F.scene host.new) }
    ensures names { names_of text.new ≡ names_of text.old }
    ensures generation { text.new.pair.files.generation ≡ text.old.pair.files.generation }
    ensures known { KeepsKnown text.old.pair text.new.pair }
    ensures tree { text.new.tree ≡ text.old.tree }
    ensures work { IsTrue F.tells.folder
        → worked_by (shown_in text.new.pair (F.scene host.new).folder) ≡ worked_by (shown_in text.old.pair (F.scene host.old).folder) }

    // The calls that failed, and the faults of the folder.
    ensures calls { IsTrue F.tells.folder → (lines : Text) (syncs : List Sync) → Fits text.old (F.scene host.old).folder lines syncs
        → FailsNoEarlier (names_of text.old).file (file_in options.now.format lines) (F.scene host.old) (F.scene host.new) result }
    ensures above { IsTrue F.tells.folder → NoneAbove (F.scene host.old) (F.scene host.new) }
    ensures cause { HasCause (F.scene host.old).folder_faults (F.scene host.new).folder_faults (IsFailed result) }
    ensures frame { ChangesFolder (F.scene host.old) (F.scene host.new) }
{
    write_in(alloc, &mut text.tree, &mut text.pair, host, options)
}
