// How a run ends.
ghost use Rattle.std.specs.Prelude.{◌≡◌, MatchOption, None, Some};
ghost use Rattle.vs_top.specs.Ending.{status_of, message_of};

use std::alloc::AllocError;
use vs_edit::StoreErr;
use vs_host::Failed;
use vs_modes::{ModeErr, Recovery};
use vs_script::ScriptErr;
use vs_session::OpenErr;

/// How a run ended: docs/COMMANDS.md, "Exit status".
#[derive(Clone, Copy, Debug, PartialEq, Eq, Drop)]
pub enum Ending {
    /// The script was read to its end or to an accepted quit, and every command did its work.
    Done,
    /// The script was read to its end or to an accepted quit, and some reply is an error, or a write stored no undo file.
    WithErrors,
    /// The arguments are no form of the program.
    Usage,
    /// A swap file of the file is there, so that it was not opened.
    SwapFound,
    /// There is no swap file.
    NoSwap,
    /// A read of the script failed.
    ScriptFault,
    /// A write of the output failed.
    OutputFault,
    /// A call on the folder failed.
    FolderFault,
    /// There was no memory.
    NoMemory,
    /// A swap file is encrypted, and none gives a text or can be salvaged.
    Encrypted,
    /// There is a swap file, none gives a text or can be salvaged, and none is encrypted.
    NotSwap,
    /// A swap file was salvaged, and a marker stands in the place of something that is missing.
    Salvaged,
    /// The text of the file passes a limit: the number that passed it, as [`OpenErr::TextLimit`] says.
    TextLimit(u64),
    /// The script has more bytes than a script may have.
    ScriptTooLong,
}

impl Ending {
    /// The exit status.
    pub fn status(self) -> u8
        ensures { result ≡ status_of self }
    {
        match self {
            Ending::Done => 0,
            Ending::WithErrors => 1,
            Ending::Usage => 2,
            Ending::SwapFound => 3,
            Ending::NoSwap => 4,
            Ending::ScriptFault => 5,
            Ending::OutputFault => 6,
            Ending::FolderFault => 7,
            Ending::NoMemory => 8,
            Ending::Encrypted => 9,
            Ending::NotSwap => 10,
            Ending::Salvaged => 11,
            Ending::TextLimit(_) => 12,
            Ending::ScriptTooLong => 13,
        }
    }

    /// The line for standard error, without its newline. `None` where the script was read to its end or to an
    /// accepted quit, or another mode wrote what it had to.
    pub fn message(self) -> Option<&'static str>
        ensures { MatchOption result (message_of self ≡ None) (λ line. message_of self ≡ Some line.now) }
    {
        match self {
            Ending::Done | Ending::WithErrors | Ending::Salvaged => None,
            Ending::Usage => Some(
                "usage: edit NAME | recover NAME | discard NAME | info NAME | stress N | pair NAME NAME",
            ),
            Ending::SwapFound => Some("swap file found"),
            Ending::NoSwap => Some("no swap file"),
            Ending::ScriptFault => Some("script fault"),
            Ending::OutputFault => Some("output fault"),
            Ending::FolderFault => Some("folder fault"),
            Ending::NoMemory => Some("out of memory"),
            Ending::Encrypted => Some("encrypted swap file"),
            Ending::NotSwap => Some("not a swap file"),
            Ending::TextLimit(_) => Some("text too large"),
            Ending::ScriptTooLong => Some("script too long"),
        }
    }
}

impl From<AllocError> for Ending {
    ghost use Rattle.vs_top.specs.declared.ending.Ending.TheVariants as ending;

    ghost from_gives = { λ _ e. e ≡ ending.NoMemory };

    fn from(_: AllocError) -> Self {
        Ending::NoMemory
    }
}

impl From<Failed> for Ending {
    ghost use Rattle.vs_top.specs.declared.ending.Ending.TheVariants as ending;

    ghost from_gives = { λ _ e. e ≡ ending.FolderFault };

    fn from(_: Failed) -> Self {
        Ending::FolderFault
    }
}

impl From<StoreErr> for Ending {
    ghost use Rattle.vs_top.specs.Ending.{store_ending};

    ghost from_gives = { λ error e. e ≡ store_ending error };

    fn from(error: StoreErr) -> Self {
        match error {
            StoreErr::NoMemory => Ending::NoMemory,
            StoreErr::Failed => Ending::FolderFault,
        }
    }
}

impl From<ScriptErr> for Ending {
    ghost use Rattle.vs_top.specs.Ending.{script_ending};

    ghost from_gives = { λ error e. e ≡ script_ending error };

    fn from(error: ScriptErr) -> Self {
        match error {
            ScriptErr::Failed => Ending::ScriptFault,
            ScriptErr::TooLong => Ending::ScriptTooLong,
        }
    }
}

impl From<OpenErr> for Ending {
    ghost use Rattle.vs_top.specs.Ending.{open_ending};

    ghost from_gives = { λ error e. e ≡ open_ending error };

    fn from(error: OpenErr) -> Self {
        match error {
            OpenErr::SwapFound => Ending::SwapFound,
            OpenErr::Failed => Ending::FolderFault,
            OpenErr::TextLimit(size) => Ending::TextLimit(size),
            OpenErr::NoMemory => Ending::NoMemory,
        }
    }
}

impl From<Recovery> for Ending {
    ghost use Rattle.vs_top.specs.Ending.{recovery_ending};

    ghost from_gives = { λ recovery e. e ≡ recovery_ending recovery };

    fn from(recovery: Recovery) -> Self {
        match recovery {
            Recovery::Whole => Ending::Done,
            Recovery::Marked => Ending::Salvaged,
        }
    }
}

impl From<ModeErr> for Ending {
    ghost use Rattle.vs_top.specs.Ending.{mode_ending};

    ghost from_gives = { λ error e. e ≡ mode_ending error };

    fn from(error: ModeErr) -> Self {
        match error {
            ModeErr::NoSwap => Ending::NoSwap,
            ModeErr::Encrypted => Ending::Encrypted,
            ModeErr::NotSwap => Ending::NotSwap,
            ModeErr::OutputFailed => Ending::OutputFault,
            ModeErr::FolderFailed => Ending::FolderFault,
            ModeErr::NoMemory => Ending::NoMemory,
        }
    }
}
