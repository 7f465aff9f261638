// Why a file is not opened.
ghost use Rattle.std.specs.Prelude.{◌≡◌};

use std::alloc::AllocError;
use vs_host::Failed;
use vs_text::TextErr;

/// Why a file was not opened.
#[derive(Clone, Copy, Debug, PartialEq, Eq, Drop)]
pub enum OpenErr {
    /// A swap file of the file is there: another session may be running, or one did not end (`:help swap-exists-choices`).
    SwapFound,
    /// The text of the file passes a limit: the number that passed it. This is the length of its first line that is longer
    /// than 1,048,576 bytes, else the number of its lines where there are more than 4,000,000, else the number of its bytes,
    /// with one for each line end, where there are more than 268,435,456.
    TextLimit(u64),
    /// A call on the folder failed.
    Failed,
    /// There was no memory.
    NoMemory,
}

impl From<AllocError> for OpenErr {
    ghost use Rattle.vs_session.specs.declared.open.OpenErr.TheVariants.{NoMemory};

    ghost from_gives = { λ _ e. e ≡ NoMemory };

    fn from(_: AllocError) -> Self {
        OpenErr::NoMemory
    }
}

impl From<TextErr> for OpenErr {
    ghost use Rattle.vs_session.specs.Open.{open_error};

    ghost from_gives = { λ error e. e ≡ open_error error };

    fn from(error: TextErr) -> Self {
        match error {
            TextErr::TextFull(size) | TextErr::LineTooLong(size) => OpenErr::TextLimit(size),
            TextErr::NoMemory => OpenErr::NoMemory,
        }
    }
}

impl From<Failed> for OpenErr {
    ghost use Rattle.vs_session.specs.declared.open.OpenErr.TheVariants as error;

    ghost from_gives = { λ _ e. e ≡ error.Failed };

    fn from(_: Failed) -> Self {
        OpenErr::Failed
    }
}
