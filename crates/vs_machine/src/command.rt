// How commands ended.

/// How a command ended, beside its reply.
#[derive(Clone, Copy, Debug, PartialEq, Eq, Drop)]
pub enum Outcome {
    /// It was carried out, or answered with an error of its own.
    Done,
    /// There was no memory for it. Text, history, cursor and options have not changed.
    NoMemory,
    /// A call on the folder failed for it. Text, history, cursor and options have not changed.
    Fault,
    /// The file was written, and a call on the folder failed while its undo file was stored.
    NoUndo,
}

/// What is kept of a command that was answered.
#[derive(Clone, Copy, Debug, PartialEq, Eq, Drop)]
pub struct Mark {
    pub outcome: Outcome,
    /// The clock's answer when the command began, in seconds.
    pub at: u64,
}
