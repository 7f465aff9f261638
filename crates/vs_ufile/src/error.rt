/// Why an undo file is refused.
#[derive(Clone, Copy, Debug, PartialEq, Eq)]
pub enum UfKind {
    /// The first nine bytes are not those of an undo file.
    NotUndo,
    /// The version is neither 2 nor encrypted.
    Version,
    /// The file is encrypted.
    Encrypted,
    /// A field does not fit into the bytes that are left.
    Truncated,
    /// Where a change, an entry or an end has to begin there are other bytes.
    BadMagic,
    /// There are more changes than the header says.
    TooManyHeads,
    /// A change has the number of an earlier one.
    DoubleNumber,
    /// A change number is 0 or above 2,147,483,647, or a save number above 2,000,000,000.
    NumberZero,
    /// A link or head leads to a number that no change has.
    UnknownLink,
    /// The links make no tree of the changes.
    NotATree,
    /// There was no memory.
    NoMemory,
}

/// A refusal: its kind, where the part that differs begins, in bytes from 0, and the number that stands there.
///
/// `found` is 0 for `NotUndo`, `Truncated` and `NoMemory`, and the number of heads for `TooManyHeads`. For `NotATree` it
/// is the least change number that fails, and `at` the place of that change.
#[derive(Clone, Copy, Debug, PartialEq, Eq)]
pub struct UfErr {
    pub kind: UfKind,
    pub at: u64,
    pub found: u64,
}
