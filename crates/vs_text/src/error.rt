// Why a text or a line is refused.
use std::alloc::{AllocError, AllocFailed};

/// Why a text or a line is refused.
#[derive(Clone, Copy, Debug, PartialEq, Eq)]
pub enum TextErr {
    /// The text has too many lines, and this many; or else too many bytes, and this many with one for each line end.
    TextFull(u64),
    /// A line is too long. The number is the length in bytes of the first such line.
    LineTooLong(u64),
    /// There was no memory.
    NoMemory,
}

impl From<AllocError> for TextErr {
    ghost use Rattle.std.specs.Prelude.{◌≡◌};
    ghost use Rattle.vs_text.specs.declared.error.TextErr.TheVariants.{NoMemory};

    ghost from_gives = { λ _ e. e ≡ NoMemory };

    fn from(_: AllocError) -> Self {
        TextErr::NoMemory
    }
}

impl<T: Drop> From<AllocFailed<T>> for TextErr {
    ghost use Rattle.std.specs.Prelude.{◌≡◌};
    ghost use Rattle.vs_text.specs.declared.error.TextErr.TheVariants.{NoMemory};

    ghost from_gives = { λ _ e. e ≡ NoMemory };

    fn from(_: AllocFailed<T>) -> Self {
        TextErr::NoMemory
    }
}
