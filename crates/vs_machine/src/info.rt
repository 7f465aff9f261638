use vs_text::Format;

/// What is said of a file that was read or written (`:help :file`).
#[derive(Clone, Copy, Debug, PartialEq, Eq)]
pub struct FileInfo {
    pub format: Format,
    /// The number of its lines.
    pub lines: u64,
    /// The number of its bytes, line ends among them.
    pub bytes: u64,
}
