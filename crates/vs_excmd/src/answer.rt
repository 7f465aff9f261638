// What a command of the text is to do.
use std::alloc::{AllocError, AllocFailed};
use vs_edit::StoreErr;
use vs_exparse::ExErr;
use vs_text::Line;

/// What a command of the text does to it.
#[derive(Debug, Drop)]
pub enum Plan {
    /// Nothing, and the cursor stays.
    NoChange,
    /// A splice: new lines go in the place of `old` lines from line `top` on, counted from 0.
    Splice {
        top: u64,
        old: u64,
        new: Vec<Line>,
        /// The line of the cursor afterwards, counted from 1; 0 in the empty text.
        cursor: u64,
    },
}

/// Why a command of the text does nothing.
#[derive(Clone, Copy, Debug, PartialEq, Eq)]
pub enum PlanErr {
    /// The command is refused.
    Ex(ExErr),
    /// There was no memory.
    NoMemory,
    /// What the store stands on failed, and its count of faults rose.
    Failed,
}

impl From<AllocError> for PlanErr {
    ghost use Rattle.std.specs.Prelude.{◌≡◌};
    ghost use Rattle.vs_excmd.specs.declared.answer.PlanErr.TheVariants.{NoMemory};

    ghost from_gives = { λ _ e. e ≡ NoMemory };

    fn from(_: AllocError) -> Self {
        PlanErr::NoMemory
    }
}

impl<T: Drop> From<AllocFailed<T>> for PlanErr {
    ghost use Rattle.std.specs.Prelude.{◌≡◌};
    ghost use Rattle.vs_excmd.specs.declared.answer.PlanErr.TheVariants.{NoMemory};

    ghost from_gives = { λ _ e. e ≡ NoMemory };

    fn from(_: AllocFailed<T>) -> Self {
        PlanErr::NoMemory
    }
}

impl From<ExErr> for PlanErr {
    ghost use Rattle.std.specs.Prelude.{◌≡◌};
    ghost use Rattle.vs_excmd.specs.declared.answer.PlanErr.TheVariants.{Ex};

    ghost from_gives = { λ error e. e ≡ Ex error };

    fn from(error: ExErr) -> Self {
        PlanErr::Ex(error)
    }
}

impl From<StoreErr> for PlanErr {
    ghost use Rattle.std.specs.Prelude.{◌≡◌};
    ghost use Rattle.vs_excmd.specs.Answer.{plan_error};

    ghost from_gives = { λ error e. e ≡ plan_error error };

    fn from(error: StoreErr) -> Self {
        match error {
            StoreErr::NoMemory => PlanErr::NoMemory,
            StoreErr::Failed => PlanErr::Failed,
        }
    }
}
