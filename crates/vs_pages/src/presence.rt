/// Whether there is a page, and whether its bytes are in memory.
#[derive(Clone, Copy, Debug, PartialEq, Eq)]
pub enum Presence {
    /// There is none.
    Missing,
    /// There is one, and its bytes are in memory.
    Here,
    /// There is one, and its bytes are not in memory.
    Away,
}
