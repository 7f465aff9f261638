/// How a change is kept: with the time at which it was made, in seconds since 1970, and so that at most this many changes are kept
/// afterwards (`:help 'undolevels'`).
#[derive(Clone, Copy)]
pub struct Keep {
    pub time: u64,
    pub levels: u64,
}
