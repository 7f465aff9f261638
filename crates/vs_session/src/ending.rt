// The end of a session.

/// How a session ends.
#[derive(Clone, Copy, Debug, PartialEq, Eq, Drop)]
pub enum End {
    /// At the end of a script: the text is synced, and the swap files stay.
    Sync,
    /// By an accepted `q` or `q!`: the swap files are removed.
    Quit,
}
