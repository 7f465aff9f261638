// Replies. All but printed lines stand in a fixed buffer, so they take no memory.
ghost use Rattle.std.specs.Prelude.{◌≡◌, ◌<◌, ◌≤◌, ◌+◌, ◌++◌, ◌∷◌, [], length, decimal, false, true, None, Some};
ghost use Rattle.vs_machine.specs.Replies.{says, refuses, prints, error_text, undo_error_text, with_lines, change_line, move_line, no_change, out_of_memory, device_fault, file_preserved, quit, no_write, opening_of, format_note, file_line, written_line, unstored_line, undo_file_written, undo_file_read, undo_file_corrupted, undo_file_misfit, no_backup_name};

use crate::FileInfo;
use crate::errors::error_text;
use arrayvec::ArrayVec;
use itoa::Buffer;
use std::marker::Model;
use vs_exparse::ExErr;
use vs_text::Format;
use vs_undo::UndoErr;

#[derive(Drop)]
enum Body {
    Short(ArrayVec<u8, 320>),
    Long(Vec<u8>),
}

/// A reply, seen as its bytes, of which there is at least one, and whether it is an error.
#[derive(Drop)]
pub struct Reply {
    body: Body,
    error: bool,
}

impl Model for Reply {
    ghost use Rattle.std.specs.Prelude.{◌<◌, length};
    ghost use Rattle.vs_machine.specs.Replies.{Answer};

    ghost Value = { Answer };

    ghost use Rattle.vs_machine.specs.Reply.{bytes_in};

    ghost view = { λ reply. record { bytes = bytes_in reply.body; is_error = reply.error } };

    ghost invariant = { λ reply. 0 < length (bytes_in reply.body) };
}

fn add(line: &mut ArrayVec<u8, 320>, bytes: &[u8])
    requires { length line.old.items + length bytes.now ≤ 320 }
    ensures { line.new.items ≡ line.old.items ++ bytes.now }
{
    for byte in bytes {
        line.push(*byte);
    }
}

// What stands before the size of a file of this format.
fn format_note(format: Format) -> &'static [u8]
    ensures note { result.now ≡ format_note format }
    ensures few { length result.now ≤ 6 }
{
    match format {
        Format::Unix => b"",
        Format::Dos => b"[dos] ",
    }
}

// The file of this name, with its format and size.
fn file_line(name: &str, info: FileInfo) -> ArrayVec<u8, 320>
    requires { length name.now ≤ 200 }
    ensures value { result.items ≡ file_line name.now info }
    ensures few { length result.items ≤ 255 }
{
    let mut text = ArrayVec::new();
    let mut digits = Buffer::new();
    add(&mut text, b"\"");
    add(&mut text, name.as_bytes());
    add(&mut text, b"\" ");
    add(&mut text, format_note(info.format));
    add(&mut text, digits.format(info.lines).as_bytes());
    add(&mut text, b"L, ");
    add(&mut text, digits.format(info.bytes).as_bytes());
    add(&mut text, b"B");
    text
}

// What a write of the file of this name wrote.
fn written_line(name: &str, info: FileInfo) -> ArrayVec<u8, 320>
    requires { length name.now ≤ 200 }
    ensures value { result.items ≡ written_line name.now info }
    ensures few { length result.items ≤ 263 }
{
    let mut text = file_line(name, info);
    add(&mut text, b" written");
    text
}

impl Reply {
    /// These bytes as they are.
    pub fn printed(bytes: Vec<u8>) -> Reply
        requires { 0 < length bytes.items }
        ensures { result ≡ prints bytes.items }
    {
        Reply {
            body: Body::Long(bytes),
            error: false,
        }
    }

    /// The reply to an error of a command.
    pub fn error(error: ExErr) -> Reply
        ensures { result ≡ refuses (error_text error) }
    {
        Reply::refuses(error_text(error))
    }

    /// A command changed nothing.
    pub fn no_change() -> Reply
        ensures { result ≡ says no_change }
    {
        Reply::says(b"no change")
    }

    /// There was no memory for a command.
    pub fn out_of_memory() -> Reply
        ensures { result ≡ refuses out_of_memory }
    {
        Reply::refuses(b"out of memory")
    }

    /// A call on the folder failed for a command.
    pub fn device_fault() -> Reply
        ensures { result ≡ refuses device_fault }
    {
        Reply::refuses(b"device fault")
    }

    /// The text was synced into a swap file.
    pub fn preserved() -> Reply
        ensures { result ≡ says file_preserved }
    {
        Reply::says(b"File preserved")
    }

    /// The session was left.
    pub fn quit() -> Reply
        ensures { result ≡ says quit }
    {
        Reply::says(b"quit")
    }

    /// The text has changes that were not written.
    pub fn no_write() -> Reply
        ensures { result ≡ refuses no_write }
    {
        Reply::refuses(b"E37: No write since last change (add ! to override)")
    }

    /// The number of a line.
    pub fn number(number: u64) -> Reply
        ensures { result ≡ prints (decimal number ++ 10 ∷ []) }
    {
        let mut digits = Buffer::new();
        Reply::says(digits.format(number).as_bytes())
    }

    /// One line of at most 319 bytes.
    pub fn says(text: &[u8]) -> Reply
        requires { length text.now < 320 }
        ensures { result ≡ says text.now }
    {
        Reply::line(text, false)
    }

    /// One line of at most 319 bytes that is an error.
    pub fn refuses(text: &[u8]) -> Reply
        requires { length text.now < 320 }
        ensures { result ≡ refuses text.now }
    {
        Reply::line(text, true)
    }

    fn line(text: &[u8], error: bool) -> Reply
        requires { length text.now < 320 }
        ensures { result ≡ record { bytes = text.now ++ 10 ∷ []; is_error = error } }
    {
        let mut line = ArrayVec::new();
        add(&mut line, text);
        line.push(b'\n');
        Reply {
            body: Body::Short(line),
            error,
        }
    }

    /// No state of the history has this number.
    fn not_kept(number: u64) -> Reply
        ensures { result ≡ refuses (undo_error_text (UndoErr.NotKept number)) }
    {
        let mut text = ArrayVec::new();
        let mut digits = Buffer::new();
        add(&mut text, b"E830: Undo number ");
        add(&mut text, digits.format(number).as_bytes());
        add(&mut text, b" not found");
        Reply::refuses(text.as_slice())
    }

    /// Why a change or a move over the history was not made.
    pub fn undo_error(error: UndoErr) -> Reply
        ensures { result ≡ refuses (undo_error_text error) }
    {
        match error {
            UndoErr::NotKept(number) => Reply::not_kept(number),
            UndoErr::AtOldest => Reply::refuses(b"Already at oldest change"),
            UndoErr::AtNewest => Reply::refuses(b"Already at newest change"),
            UndoErr::NumbersFull => Reply::refuses(b"change numbers used up"),
            UndoErr::NoMemory => Reply::out_of_memory(),
            UndoErr::Failed => Reply::device_fault(),
        }
    }

    /// A line of words, a number, and a number of lines.
    fn with_lines(words: &[u8], number: u64, lines: u64) -> Reply
        requires { length words.now ≤ 10 }
        ensures { result ≡ says (with_lines words.now number lines) }
    {
        let mut text = ArrayVec::new();
        let mut digits = Buffer::new();
        add(&mut text, words);
        add(&mut text, digits.format(number).as_bytes());
        add(&mut text, b", ");
        add(&mut text, digits.format(lines).as_bytes());
        add(&mut text, b" lines");
        Reply::says(text.as_slice())
    }

    /// A change of the text: its number, and the number of lines after it.
    pub fn change(number: u64, lines: u64) -> Reply
        ensures { result ≡ says (change_line number lines) }
    {
        Reply::with_lines(b"change ", number, lines)
    }

    /// A move over the history: the number of the state reached, and of the lines of its text.
    pub fn moved(number: u64, lines: u64) -> Reply
        ensures { result ≡ says (move_line number lines) }
    {
        Reply::with_lines(b"at ", number, lines)
    }

    /// The opening of a file that is not there.
    pub fn opened_new(name: &str) -> Reply
        requires { length name.now ≤ 200 }
        ensures { result ≡ opening_of name.now None }
    {
        let mut text = ArrayVec::new();
        add(&mut text, b"\"");
        add(&mut text, name.as_bytes());
        add(&mut text, b"\" [New]");
        Reply::says(text.as_slice())
    }

    /// The opening of a file that is there.
    pub fn opened(name: &str, info: FileInfo) -> Reply
        requires { length name.now ≤ 200 }
        ensures { result ≡ opening_of name.now (Some info) }
    {
        Reply::says(file_line(name, info).as_slice())
    }

    /// A write of the file of this name, and what was written.
    pub fn written(name: &str, info: FileInfo) -> Reply
        requires { length name.now ≤ 200 }
        ensures { result ≡ says (written_line name.now info) }
    {
        Reply::says(written_line(name, info).as_slice())
    }

    /// A write of the file of this name, of which the undo file was not stored, and what was written.
    pub fn unstored(name: &str, info: FileInfo) -> Reply
        requires { length name.now ≤ 200 }
        ensures { result ≡ says (unstored_line name.now info) }
    {
        let mut text = written_line(name, info);
        add(&mut text, b", no undo file");
        Reply::says(text.as_slice())
    }

    /// The undo file was stored.
    pub fn undo_file_written() -> Reply
        ensures { result ≡ says undo_file_written }
    {
        Reply::says(b"undo file written")
    }

    /// The undo file was read: the number of the current state, and how many changes its history keeps.
    pub fn undo_file_read(number: u64, changes: u64) -> Reply
        ensures { result ≡ says (undo_file_read number changes) }
    {
        let mut text = ArrayVec::new();
        let mut digits = Buffer::new();
        add(&mut text, b"undo file read, at ");
        add(&mut text, digits.format(number).as_bytes());
        add(&mut text, b", ");
        add(&mut text, digits.format(changes).as_bytes());
        add(&mut text, b" changes");
        Reply::says(text.as_slice())
    }

    // An error of some words and a number.
    fn refuses_at(words: &[u8], number: u64) -> Reply
        requires { length words.now ≤ 40 }
        ensures { result ≡ refuses (words.now ++ decimal number) }
    {
        let mut text = ArrayVec::new();
        let mut digits = Buffer::new();
        add(&mut text, words);
        add(&mut text, digits.format(number).as_bytes());
        Reply::refuses(text.as_slice())
    }

    /// The undo file differs from its form at this byte, counted from 0.
    pub fn undo_file_corrupted(at: u64) -> Reply
        ensures { result ≡ refuses (undo_file_corrupted at) }
    {
        Reply::refuses_at(b"corrupted undo file at ", at)
    }

    /// An entry of the change with this number does not fit the text.
    pub fn undo_file_misfit(number: u64) -> Reply
        ensures { result ≡ refuses (undo_file_misfit number) }
    {
        Reply::refuses_at(b"undo file does not fit at change ", number)
    }

    /// Every name that the backup of a write may get is taken.
    pub fn no_backup_name() -> Reply
        ensures { result ≡ refuses no_backup_name }
    {
        Reply::refuses(b"no free backup name")
    }

    /// The bytes of the reply, with a newline at their end.
    pub fn bytes(&self) -> &[u8]
        ensures value { result.now ≡ self.now.bytes }
        ensures some { 0 < length result.now }
    {
        match &self.body {
            Body::Short(line) => line.as_slice(),
            Body::Long(bytes) => bytes.as_slice(),
        }
    }

    /// Whether the reply is an error.
    pub fn is_error(&self) -> bool
        ensures { result ≡ self.now.is_error }
    {
        self.error
    }
}
