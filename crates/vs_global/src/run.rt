// What commands have done that are carried out one after the other.
ghost use Rattle.std.specs.Prelude.{◌≡◌, ◌≤◌, ◌+◌, ℕ};
ghost use Rattle.vs_excmd.specs.Change.{Change};
ghost use Rattle.vs_global.specs.Global.{untouched_by};

/// So many lines at the front and at the end of a text that no splice has touched.
#[derive(Clone, Copy, Drop)]
pub struct Untouched {
    pub lo: u64,
    pub tail: u64,
}

/// What the nested commands have done so far.
#[derive(Clone, Copy, Drop)]
pub struct Run {
    /// What no splice has touched, where there was one.
    pub made: Option<Untouched>,
    /// The line of the cursor, counted from 1.
    pub cursor: u64,
}

/// What no splice has touched after one more, in a text with so many lines.
pub(crate) fn touched(made: Option<Untouched>, lines: u64, top: u64, old: u64) -> Option<Untouched>
    requires { top + old ≤ lines }
    ensures { (change : Change) → change.top ≡ top → change.old ≡ old → result ≡ untouched_by change lines made }
{
    let tail = lines - (top + old);
    match made {
        None => Some(Untouched { lo: top, tail }),
        Some(made) => Some(Untouched {
            lo: made.lo.min(top),
            tail: made.tail.min(tail),
        }),
    }
}
