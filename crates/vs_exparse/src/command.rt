//! Commands as they were written.

ghost use Rattle.std.specs.Prelude.{◌≡◌};
ghost use Rattle.vs_exparse.specs.Command.{command_of, wants_block};

/// The line that an address counts from (`:help :range`).
#[derive(Clone, Copy, Debug, PartialEq, Eq)]
pub enum Base {
    /// The current line, written `.` or not at all.
    Current,
    /// The last line, written `$`.
    Last,
    /// A line by its number, from 1; at most 2,147,483,647. The number 0 is taken, too.
    Number(u32),
}

/// The address of a line, as it was written (`:help :range`).
#[derive(Clone, Copy, Debug, PartialEq, Eq)]
pub struct Address {
    /// The line that it counts from.
    pub base: Base,
    /// The sum of the lines that `+n` and `-n` add and take away.
    pub offset: i64,
}

/// The range in front of a command (`:help :range`).
#[derive(Clone, Copy, Debug, PartialEq, Eq)]
pub enum Range {
    /// None was written.
    Absent,
    /// All lines, written `%`.
    All,
    /// One line.
    One(Address),
    /// The lines from one to another. An address that is not there is the current line.
    Two(Address, Address),
}

/// An option with the value that `:set` gives it (`:help :set`).
#[derive(Clone, Copy, Debug, PartialEq, Eq)]
pub enum Setting {
    /// Whether a backup is kept (`:help 'backup'`).
    Backup(bool),
    /// Whether a backup is there while a file is written (`:help 'writebackup'`).
    WriteBackup(bool),
    /// Whether an undo file is written (`:help 'undofile'`).
    UndoFile(bool),
    /// `backupcopy=yes` (`:help 'backupcopy'`).
    CopyYes,
    /// `backupcopy=no`.
    CopyNo,
    /// `backupcopy=auto`.
    CopyAuto,
    /// The number of changes that are kept, from 1 to 1,000,000 (`:help 'undolevels'`).
    UndoLevels(u32),
    /// `fileformat=unix` (`:help 'fileformat'`).
    Unix,
    /// `fileformat=dos`.
    Dos,
}

/// Why a command line, or a command of the text, is refused. Those named by a number are Vim's errors.
#[derive(Clone, Copy, Debug, PartialEq, Eq)]
pub enum ExErr {
    /// A line is longer than 1,048,576 bytes.
    LineTooLong,
    /// Not an editor command.
    E492,
    /// No range allowed.
    E481,
    /// No `!` allowed.
    E477,
    /// Trailing characters.
    E488,
    /// Positive count required.
    E939,
    /// Invalid address.
    E14,
    /// Argument required.
    E471,
    /// Invalid argument.
    E474,
    /// Unknown option.
    E518,
    /// A substitution in another form than `/\Vtext/replacement/g`, or a global command in another than `/\Vtext/command`.
    PatternForm,
    /// Cannot do `:global` recursive.
    E147,
    /// A command that a global command does not carry out.
    NotNested,
    /// Backwards range given.
    E493,
    /// Invalid range.
    E16,
    /// Cannot move a range of lines into itself.
    E134,
    /// Pattern not found.
    E486,
    /// A text would pass its limits.
    TextFull,
}

/// A command with its range and arguments, as they were written. A pattern, a replacement and a nested command are parts of its
/// line.
#[derive(Clone, Copy, Debug, PartialEq, Eq)]
pub enum Command<'a> {
    /// `:append`
    Append {
        range: Range,
    },
    /// `:insert`
    Insert {
        range: Range,
    },
    /// `:change`
    Change {
        range: Range,
    },
    /// `:delete`
    Delete {
        range: Range,
        count: Option<u32>,
    },
    /// `:move`
    Move {
        range: Range,
        to: Address,
    },
    /// `:copy`
    CopyTo {
        range: Range,
        to: Address,
    },
    /// `:t`
    T {
        range: Range,
        to: Address,
    },
    /// `:join`
    Join {
        range: Range,
        bang: bool,
        count: Option<u32>,
    },
    /// `:substitute`, of the first match of a line or of all
    Substitute {
        range: Range,
        pattern: &'a [u8],
        replacement: &'a [u8],
        all: bool,
    },
    /// `:print`
    Print {
        range: Range,
        count: Option<u32>,
    },
    /// `:number`
    Number {
        range: Range,
        count: Option<u32>,
    },
    /// `:=`
    Equals {
        range: Range,
    },
    /// `:undo`, one change, or to the state of this number
    Undo {
        number: Option<u32>,
    },
    /// `:redo`
    Redo,
    /// `:earlier`, by changes or by writes of the file
    Earlier {
        by: u32,
        writes: bool,
    },
    /// `:later`, by changes or by writes of the file
    Later {
        by: u32,
        writes: bool,
    },
    /// `:undolist`
    UndoList,
    /// `:write`
    Write {
        bang: bool,
    },
    /// `:preserve`
    Preserve,
    /// `:quit`
    Quit {
        bang: bool,
    },
    /// `:set`
    Set {
        setting: Setting,
    },
    /// `:wundo`
    WriteUndo,
    /// `:rundo`
    ReadUndo,
    /// `:global`, or `:vglobal`, which takes the lines that do not match. Its command is the rest of its line.
    Global {
        range: Range,
        invert: bool,
        pattern: &'a [u8],
        nested: &'a [u8],
    },
}

impl Command<'_> {
    /// Whether the lines after the command are its block, up to a line that is a single dot (`:help :append`).
    pub fn wants_block(&self) -> bool
        ensures { result ≡ wants_block (command_of self.now) }
    {
        match self {
            Command::Append { .. } | Command::Insert { .. } | Command::Change { .. } => true,
            Command::Delete { .. }
            | Command::Move { .. }
            | Command::CopyTo { .. }
            | Command::T { .. }
            | Command::Join { .. }
            | Command::Substitute { .. }
            | Command::Print { .. }
            | Command::Number { .. }
            | Command::Equals { .. }
            | Command::Undo { .. }
            | Command::Redo
            | Command::Earlier { .. }
            | Command::Later { .. }
            | Command::UndoList
            | Command::Write { .. }
            | Command::Preserve
            | Command::Quit { .. }
            | Command::Set { .. }
            | Command::WriteUndo
            | Command::ReadUndo
            | Command::Global { .. } => false,
        }
    }
}

/// What a line is.
#[derive(Clone, Copy, Debug, PartialEq, Eq)]
pub enum Parsed<'a> {
    /// No command: an empty line, or a comment.
    Nothing,
    /// A command.
    Command(Command<'a>),
}
