// The two sessions of a run.

/// One of the two sessions of a run.
#[derive(Clone, Copy, Debug, PartialEq, Eq, Drop)]
pub enum Which {
    /// That of the file that was named first.
    One,
    /// That of the other file.
    Two,
}
