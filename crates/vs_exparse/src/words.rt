// The table of the names of commands.

ghost use Rattle.std.specs.Prelude.{◌≡◌, ◌<◌, slice_get, Some, IsTrue};
ghost use Rattle.vs_exparse.specs.Names.{rows, rule_of, rules};
ghost use Rattle.vs_exparse.specs.Table.{NoClash};

use crate::table::NameTable;

/// A command, by its name (`:help ex-cmd-index`).
#[derive(Clone, Copy, Debug, PartialEq, Eq)]
pub enum Word {
    Append,
    Insert,
    Change,
    Delete,
    Move,
    Copy,
    T,
    Join,
    Substitute,
    Print,
    Number,
    Equals,
    Undo,
    Redo,
    Earlier,
    Later,
    UndoList,
    Write,
    Preserve,
    Quit,
    Set,
    WriteUndo,
    ReadUndo,
    Global,
    VGlobal,
}

/// What may stand around the name of a command.
#[derive(Clone, Copy, Debug, PartialEq, Eq)]
pub struct Rule {
    /// The command.
    pub word: Word,
    /// Whether a range may stand in front.
    pub range: bool,
    /// Whether a `!` may stand after it.
    pub bang: bool,
}

/// The names of all commands with the lengths of their shortest forms, in the order of the manual's table.
pub const NAMES: NameTable<25> = NameTable {
    names: [
        b"append",
        b"insert",
        b"change",
        b"delete",
        b"move",
        b"copy",
        b"t",
        b"join",
        b"substitute",
        b"print",
        b"number",
        b"=",
        b"undo",
        b"redo",
        b"earlier",
        b"later",
        b"undolist",
        b"write",
        b"preserve",
        b"quit",
        b"set",
        b"wundo",
        b"rundo",
        b"global",
        b"vglobal",
    ],
    shortest: [
        1, 1, 1, 1, 1, 2, 1, 1, 1, 1, 2, 1, 1, 3, 2, 3, 5, 1, 3, 1, 2, 5, 5, 1, 1,
    ],
};

macro_rules! rule {
    ($word:ident, range: $range:literal, bang: $bang:literal) => {
        Rule {
            word: Word::$word,
            range: $range,
            bang: $bang,
        }
    };
}

/// The rule of each row of the table.
const RULES: [Rule; 25] = [
    rule!(Append, range: true, bang: false),
    rule!(Insert, range: true, bang: false),
    rule!(Change, range: true, bang: false),
    rule!(Delete, range: true, bang: false),
    rule!(Move, range: true, bang: false),
    rule!(Copy, range: true, bang: false),
    rule!(T, range: true, bang: false),
    rule!(Join, range: true, bang: true),
    rule!(Substitute, range: true, bang: false),
    rule!(Print, range: true, bang: false),
    rule!(Number, range: true, bang: false),
    rule!(Equals, range: true, bang: false),
    rule!(Undo, range: false, bang: false),
    rule!(Redo, range: false, bang: false),
    rule!(Earlier, range: false, bang: false),
    rule!(Later, range: false, bang: false),
    rule!(UndoList, range: false, bang: false),
    rule!(Write, range: false, bang: true),
    rule!(Preserve, range: false, bang: false),
    rule!(Quit, range: false, bang: true),
    rule!(Set, range: false, bang: false),
    rule!(WriteUndo, range: false, bang: false),
    rule!(ReadUndo, range: false, bang: false),
    rule!(Global, range: true, bang: true),
    rule!(VGlobal, range: true, bang: false),
];

fn rule_at(row: usize) -> Rule
    requires { row < 25 }
    ensures { slice_get rules row ≡ Some result }
{
    RULES[row]
}

/// The rule of the command that a word names.
pub(crate) fn find_rule(word: &[u8]) -> Option<Rule>
    ensures { result ≡ rule_of word.now }
{
    match NAMES.find(word) {
        None => None,
        Some(row) => Some(rule_at(row)),
    }
}

/// No word names two commands: the test of the table says so, and it is so.
pub fn names_do_not_clash() -> bool
    ensures tested { IsTrue result }
    ensures words { NoClash rows }
{
    NAMES.no_clash()
}
