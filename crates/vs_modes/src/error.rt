// Why a mode did not do its work.
ghost use Rattle.std.specs.Prelude.{◌≡◌};
ghost use Rattle.vs_modes.specs.Refusals.{refusal_of};

use std::alloc::AllocError;
use vs_host::{Failed, NameErr};
use vs_recover::RecErr;

/// Why a mode did not do its work.
#[derive(Clone, Copy, Debug, PartialEq, Eq, Drop)]
pub enum ModeErr {
    /// Neither swap file is there.
    NoSwap,
    /// No swap file gives a text or can be salvaged, and one of them is encrypted.
    Encrypted,
    /// No swap file gives a text or can be salvaged, and none of them is encrypted.
    NotSwap,
    /// A write of the output failed.
    OutputFailed,
    /// A call on the folder failed.
    FolderFailed,
    /// There was no memory.
    NoMemory,
}

impl From<AllocError> for ModeErr {
    ghost use Rattle.vs_modes.specs.declared.error.ModeErr.TheVariants as refusal;

    ghost from_gives = { λ _ e. e ≡ refusal.NoMemory };

    fn from(_: AllocError) -> Self {
        ModeErr::NoMemory
    }
}

impl From<NameErr> for ModeErr {
    ghost use Rattle.vs_modes.specs.declared.error.ModeErr.TheVariants as refusal;

    ghost from_gives = { λ _ e. e ≡ refusal.NoMemory };

    // A mode is called with an allowed name.
    fn from(_: NameErr) -> Self {
        ModeErr::NoMemory
    }
}

impl From<Failed> for ModeErr {
    ghost use Rattle.vs_modes.specs.declared.error.ModeErr.TheVariants as refusal;

    ghost from_gives = { λ _ e. e ≡ refusal.FolderFailed };

    fn from(_: Failed) -> Self {
        ModeErr::FolderFailed
    }
}

impl From<RecErr> for ModeErr {
    ghost use Rattle.vs_modes.specs.Refusals.{refusal_of};

    ghost from_gives = { λ error e. e ≡ refusal_of error };

    fn from(error: RecErr) -> Self {
        match error {
            RecErr::NoSwap => ModeErr::NoSwap,
            RecErr::Encrypted => ModeErr::Encrypted,
            RecErr::NotSwap | RecErr::NotTree => ModeErr::NotSwap,
            RecErr::Failed => ModeErr::FolderFailed,
            RecErr::NoMemory => ModeErr::NoMemory,
        }
    }
}
