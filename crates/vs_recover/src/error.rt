// Why nothing was recovered.
ghost use Rattle.std.specs.Prelude.{◌≡◌};
ghost use Rattle.vs_recover.specs.Faults.{error_of};

use std::alloc::{AllocError, AllocFailed};
use vs_host::Failed;

/// Why no text is recovered and no file is to be salvaged.
#[derive(Clone, Copy, Debug, PartialEq, Eq)]
pub enum RecErr {
    /// There is no swap file.
    NoSwap,
    /// No file stands, and one is encrypted.
    Encrypted,
    /// No file stands, and none has a page 0 that reads.
    NotSwap,
    /// No file stands, and page 0 of one reads.
    NotTree,
    /// A call on the folder failed.
    Failed,
    /// There was no memory.
    NoMemory,
}

/// Why a file could not be read.
#[derive(Clone, Copy, Debug, PartialEq, Eq)]
pub enum Fault {
    /// A call on the folder failed.
    Failed,
    /// There was no memory.
    NoMemory,
}

impl From<Failed> for Fault {
    ghost use Rattle.vs_recover.specs.declared.error.Fault.TheVariants as error;

    ghost from_gives = { λ _ e. e ≡ error.Failed };

    fn from(_: Failed) -> Self {
        Fault::Failed
    }
}

impl From<AllocError> for Fault {
    ghost use Rattle.vs_recover.specs.declared.error.Fault.TheVariants.{NoMemory};

    ghost from_gives = { λ _ e. e ≡ NoMemory };

    fn from(_error: AllocError) -> Self {
        Fault::NoMemory
    }
}

impl<T: Drop> From<AllocFailed<T>> for Fault {
    ghost use Rattle.vs_recover.specs.declared.error.Fault.TheVariants.{NoMemory};

    ghost from_gives = { λ _ e. e ≡ NoMemory };

    fn from(_error: AllocFailed<T>) -> Self {
        Fault::NoMemory
    }
}

/// The error that a fault is.
pub fn error_of(fault: Fault) -> RecErr
    ensures { result ≡ error_of fault }
{
    match fault {
        Fault::Failed => RecErr::Failed,
        Fault::NoMemory => RecErr::NoMemory,
    }
}
