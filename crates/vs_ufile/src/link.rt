// The links of a change that make the tree.

ghost use Rattle.std.specs.Prelude.{◌≡◌};
ghost use Rattle.vs_ufile.specs.Failing.{link_of};
ghost use Rattle.vs_ufile.specs.Values.{change_of};

use crate::history::FileChange;

#[derive(Clone, Copy)]
pub enum Link {
    Next,
    AltNext,
    AltPrev,
}

impl Link {
    // The number to which the link of a change leads.
    pub fn of(self, change: &FileChange) -> u32
        ensures { result ≡ link_of self (change_of change.now) }
    {
        match self {
            Link::Next => change.next,
            Link::AltNext => change.alt_next,
            Link::AltPrev => change.alt_prev,
        }
    }
}
