// Different numbers of pages, counted.
ghost use Rattle.std.specs.Prelude.{◌≡◌, ◌≤◌, ◌<◌, ◌+◌, ◌^◌, ◌-◌, ℕ, [], Contains, length, min};
ghost use Rattle.vs_load.specs.declared.worked.TheConstants.{MOST_WORKED};

use arrayvec::ArrayVec;

/// The greatest number of different pages that are counted.
pub const MOST_WORKED: usize = 64;

/// The different numbers of the pages that were worked since the last commit, and how many there were before it.
#[derive(Drop)]
pub struct Worked {
    numbers: ArrayVec<u64, MOST_WORKED>,
    before: u64,
    ghost few: { before ≤ MOST_WORKED },
}

impl Worked {
    /// No page was worked.
    pub fn new() -> Worked
        ensures { result.before ≡ 0 }
    {
        Worked {
            numbers: ArrayVec::new(),
            before: 0,
        }
    }

    /// Counts a page, if it was not counted since the last commit and there is room for it.
    fn note(&mut self, at: u64)
        ensures counted { length self.new.numbers.items < MOST_WORKED → Contains self.new.numbers.items at }
        ensures kept { (k : ℕ) → Contains self.old.numbers.items k → Contains self.new.numbers.items k }
        ensures grown { length self.old.numbers.items ≤ length self.new.numbers.items }
        ensures before { self.new.before ≡ self.old.before }
    {
        if !self.numbers.is_full() && !self.numbers.contains(&at) {
            self.numbers.push(at);
        }
    }

    /// Counts neighbouring pages, as far as there is room for them.
    pub fn note_run(&mut self, at: u64, pages: u32)
        ensures counted { (k : ℕ) → at ≤ k → k < min (at + pages) (2 ^ 64 - 1) → length self.new.numbers.items < MOST_WORKED
            → Contains self.new.numbers.items k }
        ensures before { self.new.before ≡ self.old.before }
    {
        for number in at..at.saturating_add(u64::from(pages)) {
            self.note(number);
        }
    }

    /// Begins anew after a commit.
    pub fn commit(&mut self)
        ensures before { self.new.before ≡ length self.old.numbers.items }
        ensures none { self.new.numbers.items ≡ [] }
    {
        self.before = self.numbers.len() as u64;
        self.numbers.clear();
    }

    /// How many different pages were worked before the last commit, or the greatest number that is counted.
    pub fn before(&self) -> u64
        ensures before { result ≡ self.now.before }
        ensures most { result ≤ MOST_WORKED }
    {
        self.before
    }
}
