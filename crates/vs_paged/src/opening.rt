// A text that is read into the pages of a pair, before its swap files are made.
ghost use Rattle.std.specs.Prelude.{◌≡◌, ◌≢◌, ◌++◌, ◌∷◌, [], false, true, IfOk, IsErr, IsTrue, OnErr, OnOk, length};
ghost use Rattle.vs_faults.specs.Faults.{HasCause};
ghost use Rattle.vs_host.specs.Names.{is_allowed, names_of_file};
ghost use Rattle.vs_pages.specs.Maps.{first_pages, no_pages};
ghost use Rattle.vs_pages.specs.Memory.{present_of, AreBacked};
ghost use Rattle.vs_disk.specs.Runs.{NoneFails};
ghost use Rattle.vs_pair.specs.Acts.{Acts};
ghost use Rattle.vs_pair.specs.Pair.{committed_in};
ghost use Rattle.vs_pair.specs.Steps.{BothEnd, BothMoved, IsFresh};
ghost use Rattle.vs_pair.specs.declared.gate.Gate.TheVariants.{Open};
ghost use Rattle.vs_pair.specs.declared.side.Side.TheVariants.{Swo};
ghost use Rattle.vs_text.specs.Limits.{IsWithinLimits};
ghost use Rattle.vs_tree.specs.TextIn.{text_in};
ghost use Rattle.vs_tree.specs.Texts.{Fits as FitsPages};
ghost use Rattle.vs_paged.specs.Fits.{Fits, Starting, acknowledged_sync, names_of};
ghost use Rattle.vs_paged.specs.Pages.{IsCommitted, IsFilledIn};

use crate::PagedText;
use crate::head::head_of;
use std::alloc::{AllocError, Global};
use std::marker::Model;
use vs_host::{Failed, Folder};
use vs_pages::{MemPages, PageErr, Pages};
use vs_pair::SwapPair;
use vs_pieces::EndedLines;
use vs_text::Format;
use vs_tree::LineTree;

/// A text that is read, piece by piece, into the pages of a pair, seen as the name of its file and the lines so far. It has made
/// no file yet, so all its pages are in memory.
pub struct OpeningText {
    tree: LineTree,
    pair: SwapPair,
}

// A value with much in it is dropped by a call.
impl Drop for OpeningText {
    fn drop(self) {
        let OpeningText { tree: _, pair: _ } = self;
    }
}

impl Model for OpeningText {
    ghost use Rattle.std.specs.Prelude.{◌≡◌};
    ghost use Rattle.vs_pages.specs.Maps.{no_pages};
    ghost use Rattle.vs_pages.specs.Memory.{present_of, AreBacked};
    ghost use Rattle.vs_tree.specs.TextIn.{text_in};
    ghost use Rattle.vs_paged.specs.Pages.{IsCommitted, Opening};

    ghost Value = { Opening };

    ghost view = { λ s. record { name = s.pair.files.names.file; text = text_in (present_of s.pair.pages) s.tree.present } };

    ghost invariant = { λ s. IsCommitted s.pair.pages s.tree × AreBacked no_pages s.pair.pages × (s.pair.files.generation ≡ 0) };
}

// Pages in memory do not fail, so memory is all that can be missing.
fn memory_of_pages(error: PageErr) -> AllocError
    requires { error ≢ PageErr.Failed }
{
    match error {
        PageErr::NoMemory => AllocError,
        PageErr::Failed => unreachable!(),
    }
}

// Commits a text in pages.
fn commit_in(tree: &mut LineTree, pages: &mut MemPages)
    requires present { FitsPages true (present_of pages.old) tree.old.present }
    requires filled { IsFilledIn (present_of pages.old) tree.old.present }
    ensures text { text_in (present_of pages.new) tree.new.present ≡ text_in (present_of pages.old) tree.old.present }
    ensures committed { IsCommitted pages.new tree.new }
    ensures here { AreBacked no_pages pages.old → AreBacked no_pages pages.new }
{
    pages.commit();
    tree.commit();
}

// Puts lines at the end of a text in pages.
fn push_in(
    alloc: Global,
    tree: &mut LineTree,
    pages: &mut MemPages,
    lines: &EndedLines,
) -> Result<(), AllocError>
    requires committed { IsCommitted pages.old tree.old }
    requires within { IsWithinLimits (text_in (present_of pages.old) tree.old.present ++ lines.now) }
    ensures ok { OnOk result (text_in (present_of pages.new) tree.new.present ≡ text_in (present_of pages.old) tree.old.present ++ lines.now) }
    ensures err { OnErr result (text_in (present_of pages.new) tree.new.present ≡ text_in (present_of pages.old) tree.old.present) }
    ensures committed { IsCommitted pages.new tree.new }
    ensures here { AreBacked no_pages pages.old → AreBacked no_pages pages.new }
{
    match tree.push_lines(alloc, pages, lines) {
        Ok(()) => {
            commit_in(tree, pages);
            Ok(())
        }
        Err(error) => Err(memory_of_pages(error)),
    }
}

// Writes the text without lines into the first pages.
fn empty_in(alloc: Global, pages: &mut MemPages) -> Result<LineTree, AllocError>
    requires { present_of pages.old ≡ first_pages }
    ensures text { IfOk result (λ tree. text_in (present_of pages.new) tree.present ≡ []) }
    ensures committed { IfOk result (λ tree. IsCommitted pages.new tree) }
    ensures here { AreBacked no_pages pages.old → AreBacked no_pages pages.new }
{
    let mut tree = match LineTree::new(alloc, pages) {
        Ok(tree) => tree,
        Err(error) => return Err(memory_of_pages(error)),
    };
    commit_in(&mut tree, pages);
    Ok(tree)
}

impl OpeningText {
    /// The text without lines, for the file of this name.
    pub fn new(alloc: Global, name: &str) -> Result<OpeningText, AllocError>
        requires { IsTrue (is_allowed name.now) }
        ensures { IfOk result (λ text. text ≡ record { name = name.now; text = [] }) }
    {
        let mut pair = SwapPair::new(alloc, name)?;
        let tree = empty_in(alloc, &mut pair.pages)?;
        Ok(OpeningText { tree, pair })
    }

    /// The number of lines.
    pub fn len(&self) -> u64
        ensures { result ≡ length self.now.text }
    {
        self.tree.len()
    }

    /// Puts copies of these lines after the last one.
    pub fn push_lines(&mut self, alloc: Global, lines: &EndedLines) -> Result<(), AllocError>
        requires { IsWithinLimits (self.old.text ++ lines.now) }
        ensures ok { OnOk result (self.new ≡ record self.old { text = self.old.text ++ lines.now }) }
        ensures err { OnErr result (self.new ≡ self.old) }
    {
        push_in(alloc, &mut self.tree, &mut self.pair.pages, lines)
    }

    /// Makes both swap files of the text in this format, which has no changes. Then the pages leave memory but for a cache. It needs no
    /// memory.
    pub fn start<F: Folder>(self, host: &mut F, format: Format) -> Result<PagedText, Failed>
        requires fresh { IsTrue F.tells.folder → IsFresh (names_of_file self.name) (F.scene host.old).folder }
        ensures acts { Acts F.tells (Starting (names_of_file self.name) (record { text = self.text; format = format })) (F.scene host.old) (F.scene host.new) }
        ensures fits { IfOk result (λ paged. IsTrue F.tells.folder →
            Fits paged (F.scene host.new).folder self.text (acknowledged_sync (record { text = self.text; format = format }) false ∷ [])) }
        ensures names { IfOk result (λ paged. names_of paged ≡ names_of_file self.name) }
        ensures ends { IfOk result (λ paged. IsTrue F.tells.folder
            → BothEnd (names_of_file self.name) (committed_in paged.pair (F.scene host.new).folder) (F.scene host.new).folder) }
        ensures moved { OnOk result (IsTrue F.tells.folder → BothMoved (names_of_file self.name) (F.scene host.new).folder) }
        ensures sides { IfOk result (λ paged. (paged.pair.files.newer ≡ Swo) × (paged.pair.files.gate ≡ Open)) }
        ensures generation { IfOk result (λ paged. paged.pair.files.generation ≡ 2) }
        ensures lines { IfOk result (λ paged. paged.tree.present.lines ≡ length self.text) }
        ensures none { OnOk result (NoneFails F.tells (F.scene host.old) (F.scene host.new)) }
        ensures cause { HasCause (F.scene host.old).folder_faults (F.scene host.new).folder_faults (IsErr result) }
    {
        let OpeningText { tree, mut pair } = self;
        pair.start(host, &head_of(&tree, false, format))?;
        Ok(PagedText { tree, pair })
    }
}
