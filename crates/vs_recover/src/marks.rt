// The pages of a file that a walk has used.
ghost use Rattle.std.specs.Prelude.{◌≡◌, ◌≤◌, ◌<◌, ◌+◌, ◌*◌, ◌^◌, ℕ, List, Bool, true, false, IfOk, IsTrue, IsFalse, length, take, slice_index_or, slice_set, vec_len};
ghost use Rattle.vs_pages.specs.Maps.{span};
ghost use Rattle.vs_recover.specs.Levels.{first_used, taken, are_wide};
ghost use Rattle.vs_recover.specs.Marks.{used_in, free_in, marks_of, weight};

use std::alloc::{AllocError, Global};
use std::marker::Model;
use vs_tree_shape::Entry;

/// A mark for each page of a file, kept as a bit.
#[derive(Drop)]
pub struct Marks {
    bits: Vec<u8>,
    pages: usize,
    ghost room: { pages ≤ 8 * vec_len bits },
}

impl Model for Marks {
    ghost Value = { List Bool };

    ghost view = { λ marks. take marks.pages (marks_of marks.bits.items) };
}

// What the mark at a place of a byte weighs.
fn weight(place: usize) -> u8
    requires { place < 8 }
    ensures value { result ≡ weight place }
    ensures some { 1 ≤ result }
{
    match place {
        0 => 1,
        1 => 2,
        2 => 4,
        3 => 8,
        4 => 16,
        5 => 32,
        6 => 64,
        _ => 128,
    }
}

impl Marks {
    /// Marks for so many pages, of which 0 and 1 are used.
    pub fn new(alloc: Global, pages: usize) -> Result<Marks, AllocError>
        requires { 2 ≤ pages }
        ensures len { IfOk result (λ marks. length marks ≡ pages) }
        ensures used { IfOk result (λ marks. (k : ℕ) → used_in marks k ≡ first_used pages k) }
        ensures free { IfOk result (λ marks. free_in marks + 2 ≡ pages) }
    {
        let mut bits = vec![in alloc; 0u8; pages / 8 + 1]?;
        bits[0] = 3;
        Ok(Marks { bits, pages })
    }

    pub fn len(&self) -> u64
        ensures { result ≡ length self.now }
    {
        self.pages as u64
    }

    fn is_marked(&self, at: usize) -> bool
        requires { at < length self.now }
        ensures { result ≡ slice_index_or self.now at true }
    {
        self.bits[at / 8] / weight(at % 8) % 2 == 1
    }

    fn set_mark(&mut self, at: usize)
        requires inside { at < length self.old }
        requires free { slice_index_or self.old at true ≡ false }
        ensures { self.new ≡ slice_set self.old at true }
    {
        let byte = self.bits[at / 8];
        self.bits[at / 8] = byte + weight(at % 8);
    }

    // Whether none of these neighbouring pages is marked.
    fn are_free(&self, block: u64, pages: u64) -> bool
        requires near { block + pages < 2 ^ 64 }
        requires inside { block + pages ≤ length self.now }
        ensures free { IsTrue result → (k : ℕ) → used_in self.now k + span block pages k ≤ 1 }
        ensures clash { IsFalse result → (k : ℕ) × (2 ≤ used_in self.now k + span block pages k) }
    {
        for page in 0..pages {
            if self.is_marked((block + page) as usize) {
                return false;
            }
        }
        true
    }

    // Marks neighbouring pages, none of which is marked.
    fn set_marks(&mut self, block: u64, pages: u64)
        requires near { block + pages < 2 ^ 64 }
        requires inside { block + pages ≤ length self.old }
        requires free { (k : ℕ) → used_in self.old k + span block pages k ≤ 1 }
        ensures len { length self.new ≡ length self.old }
        ensures used { (k : ℕ) → used_in self.new k ≡ used_in self.old k + span block pages k }
        ensures free { free_in self.new + pages ≡ free_in self.old }
    {
        for page in 0..pages {
            self.set_mark((block + page) as usize);
        }
    }

    /// Marks neighbouring pages; false where one of them is not in the file or was used, and then none is marked.
    pub fn mark(&mut self, block: u64, pages: u32) -> bool
        requires some { 1 ≤ pages }
        ensures len { length self.new ≡ length self.old }
        ensures used { IsTrue result → (k : ℕ) → used_in self.new k ≡ used_in self.old k + span block pages k }
        ensures free { IsTrue result → free_in self.new + pages ≡ free_in self.old }
        ensures inside { IsTrue result → block + pages ≤ length self.old }
        ensures clash { IsFalse result → (k : ℕ) × (2 ≤ used_in self.old k + span block pages k) }
        ensures same { IsFalse result → self.new ≡ self.old }
    {
        let count = self.len();
        let wanted = u64::from(pages);
        if block >= count || wanted > count - block {
            return false;
        }
        if !self.are_free(block, wanted) {
            return false;
        }
        self.set_marks(block, wanted);
        true
    }

    /// Marks the pages of the entries' blocks; false where an entry has no page, or one of its pages is not in the file
    /// or was used.
    pub fn mark_all(&mut self, entries: &[Entry]) -> bool
        requires wide { IsTrue (are_wide entries.now) }
        ensures len { length self.new ≡ length self.old }
        ensures used { IsTrue result → (k : ℕ) → used_in self.new k ≡ used_in self.old k + taken entries.now k }
        ensures free { IsTrue result → free_in self.new + length entries.now ≤ free_in self.old }
        ensures clash { IsFalse result → (k : ℕ) × (2 ≤ used_in self.old k + taken entries.now k) }
    {
        for entry in entries {
            if !self.mark(entry.block, entry.pages) {
                return false;
            }
        }
        true
    }
}
