// Why a write stopped, and where the old bytes stand then.
ghost use Rattle.std.specs.Prelude.{◌≡◌};
ghost use Rattle.vs_backup.specs.Writing.{stopped, stopped_after};

use std::alloc::{AllocError, AllocFailed};
use vs_edit::StoreErr;
use vs_host::Failed;

/// Where the old bytes of the file stand in every image.
#[derive(Clone, Copy, Debug, PartialEq, Eq)]
pub enum Place {
    /// Under the name of the file.
    File,
    /// Under the name of the file or of the backup.
    Backup,
    /// Nowhere: there was no file, or no backup was asked for, or it was not found out whether there is a file.
    Nowhere,
}

/// Why a file was not written.
#[derive(Clone, Copy, Debug, PartialEq, Eq)]
pub enum WriteErr {
    /// A call on the folder failed, or one on the store of the text.
    Failed { old_in: Place },
    /// Every name that the backup may have is taken.
    NoBackupName,
    /// There was no memory.
    NoMemory { old_in: Place },
}

/// Why a part of a write stopped.
#[derive(Clone, Copy, Debug, PartialEq, Eq)]
pub(crate) enum Stop {
    Failed,
    NoMemory,
}

impl Stop {
    /// The answer of the write, with the place of the old bytes.
    pub(crate) fn with(self, old_in: Place) -> WriteErr
        ensures { result ≡ stopped self old_in }
    {
        match self {
            Stop::Failed => WriteErr::Failed { old_in },
            Stop::NoMemory => WriteErr::NoMemory { old_in },
        }
    }

    /// The answer of the write, by whether the file was put back.
    pub(crate) fn after(self, put_back: Result<(), Failed>) -> WriteErr
        ensures { result ≡ stopped_after self put_back }
    {
        match put_back {
            Ok(()) => self.with(Place::File),
            Err(_) => self.with(Place::Backup),
        }
    }
}

impl From<Failed> for Stop {
    ghost use Rattle.std.specs.Prelude.{◌≡◌};
    ghost use Rattle.vs_backup.specs.declared.errors.Stop.TheVariants as stop;

    ghost from_gives = { λ _ e. e ≡ stop.Failed };

    fn from(_: Failed) -> Self {
        Stop::Failed
    }
}

impl From<AllocError> for Stop {
    ghost use Rattle.std.specs.Prelude.{◌≡◌};
    ghost use Rattle.vs_backup.specs.declared.errors.Stop.TheVariants as stop;

    ghost from_gives = { λ _ e. e ≡ stop.NoMemory };

    fn from(_: AllocError) -> Self {
        Stop::NoMemory
    }
}

impl<T: Drop> From<AllocFailed<T>> for Stop {
    ghost use Rattle.std.specs.Prelude.{◌≡◌};
    ghost use Rattle.vs_backup.specs.declared.errors.Stop.TheVariants as stop;

    ghost from_gives = { λ _ e. e ≡ stop.NoMemory };

    fn from(_: AllocFailed<T>) -> Self {
        Stop::NoMemory
    }
}

impl From<StoreErr> for Stop {
    ghost use Rattle.vs_backup.specs.Writing.{StopsAs};

    ghost from_gives = { λ error e. StopsAs error e };

    fn from(error: StoreErr) -> Self {
        match error {
            StoreErr::Failed => Stop::Failed,
            StoreErr::NoMemory => Stop::NoMemory,
        }
    }
}
