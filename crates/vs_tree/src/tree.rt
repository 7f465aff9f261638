// The tree of a text, and the store that it makes with pages.
ghost use Rattle.std.specs.Prelude.{◌≡◌, ◌≤◌, ◌<◌, ◌+◌, ◌*◌, ◌++◌, [], All, IsErrOf, IfOk, OnErr, OnOk, IsTrue, get_or, length, map, refl};
ghost use Rattle.std.proofs.Common.{◌∙◌};
ghost use Rattle.vs_pages.specs.Calls.{Continues, OnlyReads, StopsAtFault};
ghost use Rattle.vs_pages.specs.State.{history_of};
ghost use Rattle.vs_text.specs.Text.{IsLine, bytes_of, file_of, stored_line};
ghost use Rattle.vs_text.specs.Limits.{IsShort};
ghost use Rattle.vs_text.specs.declared.TheConstants.{MAX_LINES, MAX_TEXT_BYTES};
ghost use Rattle.vs_edit.specs.Splices.{cut_out, splice};
ghost use Rattle.vs_tree_shape.specs.Filled.{HasFilled};
ghost use Rattle.vs_tree_blocks.specs.Blocks.{IsFresh, tree_format};
ghost use Rattle.vs_tree.specs.Reads.{AddsLines};

use crate::{Extent, copy_stored, load_stored, splice_within, store_err};
use std::alloc::Global;
use vs_edit::{LineStore, StoreErr};
use vs_pages::{PageErr, Pages};
use vs_text::{Line, MAX_LINE_BYTES, from_stored};
use vs_tree_blocks::write_first;

/// The text of a session as a tree of blocks in pages that are lent: its numbers as they are now, and as they were when the
/// text was last committed.
///
/// Block 1 is the root and a pointer block. All data blocks lie as many levels below it as the tree's own height says, so no
/// walk goes deeper than that, whatever a page holds. docs/FORMATS.md, "Pointer blocks" and "Data blocks".
#[derive(Clone, Copy, Debug, PartialEq, Eq)]
pub struct LineTree {
    pub present: Extent,
    pub committed: Extent,
}

impl LineTree {
    ghost use Rattle.vs_tree.specs.Calls.{OfText, Splices, SplicesAtMost, SplicesLittle};
    ghost use Rattle.vs_tree.specs.Fills.{FillsText, IsMild, ThinsText};
    ghost use Rattle.vs_tree.specs.Packed.{PacksTree};
    ghost use Rattle.vs_tree.specs.Texts.{HasText, Fits};

    /// Writes the tree of the text without lines into the pages 1 and 2, and commits the pages.
    pub fn new<P: Pages>(alloc: Global, pages: &mut P) -> Result<LineTree, PageErr>
        requires valid { P.valid pages.old }
        requires there { IsTrue P.tells → IsFresh (P.shows pages.old).present }
        ensures fits { IfOk result (λ tree. Fits P.tells (P.shows pages.new).present tree.present ×
            Fits P.tells (P.shows pages.new).committed tree.committed) }
        ensures filled { IfOk result (λ tree. IsTrue P.tells → HasFilled tree_format (P.shows pages.new).present tree.present.height) }
        ensures text { IfOk result (λ tree. IsTrue P.tells → HasText (P.shows pages.new).present tree.present []) }
        ensures empty { IfOk result (λ tree. (tree.present.lines ≡ 0) × (tree.present.bytes ≡ 0)) }
        ensures committed { IfOk result (λ tree. tree.committed ≡ tree.present) }
        ensures valid { P.valid pages.new }
        ensures stays { P.stays pages.old pages.new }
        ensures cause { StopsAtFault P.Pages (IsErrOf result PageErr.Failed) pages.old pages.new }
    {
        write_first(alloc, pages)?;
        pages.commit();
        let extent = Extent {
            height: 1,
            lines: 0,
            bytes: 0,
        };
        Ok(LineTree {
            present: extent,
            committed: extent,
        })
    }

    /// The number of lines.
    pub fn len(&self) -> u64
        ensures { result ≡ self.now.present.lines }
    {
        self.present.lines
    }

    /// The number of bytes, with one for each line end.
    pub fn bytes(&self) -> u64
        ensures { result ≡ self.now.present.bytes }
    {
        self.present.bytes
    }

    /// Makes `into` the bytes of a line, counted from 0. After an error it may hold anything.
    pub fn line<P: Pages>(
        &mut self,
        alloc: Global,
        pages: &mut P,
        at: u64,
        into: &mut Vec<u8>,
    ) -> Result<(), PageErr>
        requires valid { P.valid pages.old }
        requires fits { Fits P.tells (P.shows pages.old).present self.old.present }
        requires within { at < self.old.present.lines }
        ensures line { OnOk result (OfText P.Pages pages.old self.old.present (λ text. into.new.items ≡ get_or text at [])) }
        ensures is_line { OnOk result (IsLine into.new.items) }
        ensures is_short { OnOk result (IsShort into.new.items) }
        ensures tree { self.new ≡ self.old }
        ensures kept { OnlyReads P.Pages pages.old pages.new }
        ensures cause { StopsAtFault P.Pages (IsErrOf result PageErr.Failed) pages.old pages.new }
    {
        load_stored(alloc, pages, self.present.root(), at, into)?;
        from_stored(into);
        if MAX_LINE_BYTES < into.len() as u64 {
            pages.damaged();
            return Err(PageErr::Failed);
        }
        Ok(())
    }

    /// Appends `count` lines from line `at` on to `into`, each followed by byte 10; lines are counted from 0. After an error
    /// `into` may hold anything.
    ///
    /// Each data block is read once for all its lines. A caller who knows how many bytes come can reserve them before.
    pub fn copy_lines<P: Pages>(
        &mut self,
        alloc: Global,
        pages: &mut P,
        at: u64,
        count: u64,
        into: &mut Vec<u8>,
    ) -> Result<(), PageErr>
        requires valid { P.valid pages.old }
        requires fits { Fits P.tells (P.shows pages.old).present self.old.present }
        requires within { at + count ≤ self.old.present.lines }
        ensures lines { OnOk result
            (OfText P.Pages pages.old self.old.present (λ text. into.new.items ≡ into.old.items ++ file_of (cut_out text at count))) }
        ensures adds { OnOk result (AddsLines into.old.items into.new.items count) }
        ensures tree { self.new ≡ self.old }
        ensures kept { OnlyReads P.Pages pages.old pages.new }
        ensures cause { StopsAtFault P.Pages (IsErrOf result PageErr.Failed) pages.old pages.new }
    {
        copy_stored(alloc, pages, self.present.root(), at, count, into)
    }

    /// Puts lines in place of `old` lines from line `top` on, counted from 0. After an error the tree and its pages are as
    /// before.
    pub fn splice<P: Pages>(
        &mut self,
        alloc: Global,
        pages: &mut P,
        top: u64,
        old: u64,
        new: &[Line],
    ) -> Result<(), PageErr>
        requires valid { P.valid pages.old }
        requires fits { Fits P.tells (P.shows pages.old).present self.old.present }
        requires within { top + old ≤ self.old.present.lines }
        requires few_lines { self.old.present.lines + length new.now ≤ MAX_LINES + old }
        requires short_lines { All IsShort new.now }
        requires few_bytes { OfText P.Pages pages.old self.old.present (λ text. bytes_of (splice text top old new.now) ≤ MAX_TEXT_BYTES) }
        ensures text { OnOk result (Splices P.Pages pages.old pages.new self.old.present self.new.present top old new.now) }
        ensures fits { Fits P.tells (P.shows pages.new).present self.new.present }
        ensures lines { OnOk result (self.new.present.lines + old ≡ self.old.present.lines + length new.now) }
        ensures filled { OnOk result (IsMild self.old.present.lines old → FillsText P.Pages pages.old pages.new self.old.present self.new.present) }
        ensures packed { OnOk result (PacksTree P.Pages pages.new self.new.present.height top (map stored_line new.now)) }
        ensures thins { OnOk result (old ≡ 1 → length new.now ≡ 0 →
            ThinsText P.Pages pages.old pages.new self.old.present top self.new.present) }
        ensures level { OnOk result (old < self.old.present.lines → length new.now ≡ 0 → self.new.present.height ≡ self.old.present.height) }
        ensures works { OnOk result (SplicesLittle P.Pages pages.old pages.new self.old.present top old new.now) }
        ensures bound { OnOk result (SplicesAtMost P.Pages pages.old pages.new self.old.present top old new.now (5 * self.old.present.height + 12)) }
        ensures out { OnOk result (old < self.old.present.lines → length new.now ≡ 0 →
            SplicesAtMost P.Pages pages.old pages.new self.old.present top old new.now (self.old.present.height + 1)) }
        ensures come { OnOk result (0 < self.old.present.lines → old ≡ 0 →
            SplicesAtMost P.Pages pages.old pages.new self.old.present top old new.now (2 * self.old.present.height + 6)) }
        ensures before { self.new.committed ≡ self.old.committed }
        ensures same { OnErr result (self.new ≡ self.old) }
        ensures back { OnErr result (IsTrue P.tells → history_of (P.shows pages.new) ≡ history_of (P.shows pages.old)) }
        ensures kept { Continues P.Pages pages.old pages.new }
        ensures cause { StopsAtFault P.Pages (IsErrOf result PageErr.Failed) pages.old pages.new }
    {
        let mark = pages.mark();
        match splice_within(alloc, pages, self.present, top, old, new) {
            Ok(present) => {
                self.present = present;
                Ok(())
            }
            Err(error) => {
                pages.back(mark);
                Err(error)
            }
        }
    }

    /// Makes the numbers as they are now those of the last commit. The pages are committed beside it.
    pub fn commit(&mut self)
        ensures { self.new ≡ record { present = self.old.present; committed = self.old.present } }
    {
        self.committed = self.present;
    }

    /// Goes back to the numbers of the last commit. The pages are rolled back beside it.
    pub fn rollback(&mut self)
        ensures { self.new ≡ record { present = self.old.committed; committed = self.old.committed } }
    {
        self.present = self.committed;
    }
}

/// A tree with its pages, as a store of one text.
#[derive(Drop)]
pub struct TreeStore<'t, P: Pages> {
    pub tree: &'t mut LineTree,
    pub pages: P,
}

impl<'t, P: Pages + Drop> LineStore for TreeStore<'t, P> {
    ghost use Rattle.vs_tree.specs.Texts.{texts_of, Fits};
    ghost use Rattle.vs_tree.specs.Sames.{one_text};

    ghost tells = { P.tells };

    ghost shows = { λ s. texts_of P.tells (P.shows s.pages) s.tree.now };

    ghost valid = { λ s. P.valid s.pages × Fits P.tells (P.shows s.pages).present s.tree.now.present
        × Fits P.tells (P.shows s.pages).committed s.tree.now.committed };

    ghost stays = { λ a b. (b.tree.ghost_name ≡ a.tree.ghost_name) × P.stays a.pages b.pages };

    ghost earlier = { λ s. P.earlier s.pages };

    ghost tells_one = { λ s v told. let r = v.1.one told in (r.0, record { told = told; has = r.1 }) };

    ghost has_told = { λ s text h. h.told };

    ghost has_one = { λ s a b h i. one_text (P.shows s.pages).present s.tree.now.present a b h.has i.has };

    ghost has_lines = { λ s text h. h.has.lines };

    ghost has_bytes = { λ s text h. h.has.bytes };

    ghost has_text = { λ s text v h. h.has.is_text };

    ghost has_within = { λ s text v h. h.has.within };

    ghost few_lines = { λ s v. v.1.few };

    ghost few_bytes = { λ s v. v.1.few_bytes };

    ghost stays_itself = { λ s. (refl, P.stays_itself s.pages) };

    ghost stays_on = { λ p q r a b. (b.0 ∙ a.0, P.stays_on p.pages q.pages r.pages a.1 b.1) };

    fn len(&self) -> u64 {
        self.tree.len()
    }

    fn bytes(&self) -> u64 {
        self.tree.bytes()
    }

    fn line(&mut self, alloc: Global, at: u64, into: &mut Vec<u8>) -> Result<(), StoreErr> {
        self.tree
            .line(alloc, &mut self.pages, at, into)
            .map_err(store_err)
    }

    fn copy_lines(
        &mut self,
        alloc: Global,
        at: u64,
        count: u64,
        into: &mut Vec<u8>,
    ) -> Result<(), StoreErr> {
        into.clear();
        self.tree
            .copy_lines(alloc, &mut self.pages, at, count, into)
            .map_err(store_err)
    }

    fn splice(&mut self, alloc: Global, top: u64, old: u64, new: &[Line]) -> Result<(), StoreErr> {
        self.tree
            .splice(alloc, &mut self.pages, top, old, new)
            .map_err(store_err)
    }

    fn commit(&mut self) {
        self.pages.commit();
        self.tree.commit();
    }

    fn rollback(&mut self) {
        self.pages.rollback();
        self.tree.rollback();
    }
}
