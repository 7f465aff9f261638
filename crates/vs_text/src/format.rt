ghost use Rattle.std.specs.Prelude.{◌≡◌};
ghost use Rattle.vs_text.specs.Documents.{line_end};

/// How the lines of a file end (docs/FORMATS.md, "The file form of a text"; `:help 'fileformat'`).
#[derive(Clone, Copy, Debug, PartialEq, Eq)]
pub enum Format {
    /// Each line ends in byte 10.
    Unix,
    /// Each line ends in bytes 13 and 10.
    Dos,
}

impl Format {
    /// The bytes that end a line.
    pub fn line_end(self) -> &'static [u8]
        ensures { result.now ≡ line_end self }
    {
        match self {
            Format::Unix => b"\n",
            Format::Dos => b"\r\n",
        }
    }
}
