// Histories that are taken with a text, or refused at it (docs/FORMATS.md, "Undo file").
ghost use Rattle.std.specs.Prelude.{IfOk, OnOk};
ghost use Rattle.vs_undo.specs.Moves.{IsReady};
ghost use Rattle.vs_ufile.specs.Decode.{KeepsRules};
ghost use Rattle.vs_ufile.specs.Values.{history_of};

use crate::histories::{Step, editor_after, file_of, go_to};
use crate::trees::{CHANGES, branches_file, put, read};
use crate::ufile::one_change_file;
use crate::undo::Editor;
use std::alloc::Global;
use std::process::Abort;
use std::test::Fail;
use vs_edit::LineStore;
use vs_ubind::{BindErr, bind};
use vs_ufile::FileHistory;

// The bytes of the text of a store.
fn bytes_of<S: LineStore>(alloc: Global, store: &mut S) -> Result<Vec<u8>, Fail>
    requires { S.valid store.old }
{
    let mut bytes = Vec::new(alloc);
    let count = store.len();
    let copied = store.copy_lines(alloc, 0, count, &mut bytes);
    copied.ok().ok_or("the text is read")?;
    Ok(bytes)
}

// Takes a history with the text of an editor.
fn take<S: LineStore>(
    alloc: Global,
    history: &FileHistory,
    editor: &mut Editor<S>,
) -> Result<(), Fail>
    requires rules { KeepsRules (history_of history.now) }
    requires ready { IsReady S.LineStore editor.old.tree editor.old.text }
    ensures { OnOk result (IsReady S.LineStore editor.new.tree editor.new.text) }
{
    match bind(alloc, history, &mut editor.text) {
        Ok(tree) => {
            editor.tree = tree;
            Ok(())
        }
        Err(_) => Err(Fail::new("the history is of this text")),
    }
}

#[test]
fn a_tree_is_taken_with_its_text_and_moved_in(rt: HostRuntime) -> Result<(), Fail> {
    let alloc = rt.alloc();
    let file = branches_file(alloc)?;
    let history = read(alloc, &file)?;
    let mut editor = editor_after(alloc, b"a\nc\n", &[])?;
    take(alloc, &history, &mut editor)?;
    go_to(alloc, &mut editor, 2)?;
    let found = bytes_of(alloc, &mut editor.text)?;
    assert!(rt; found.as_slice() == b"a\nb\n".as_slice());
    Ok(())
}

// One line, and then none again.
const UNDONE: [Step; 2] = [Step::Append(b"a\n", 11), Step::GoTo(0)];

// Whether the history is taken with this text.
fn is_taken(alloc: Global, history: &FileHistory, text: &[u8]) -> Result<bool, Fail>
    requires { KeepsRules (history_of history.now) }
{
    let mut editor = editor_after(alloc, text, &[])?;
    Ok(bind(alloc, history, &mut editor.text).is_ok())
}

// The text without lines and that of one empty line have one digest.
#[test]
fn a_history_of_no_lines_is_taken_with_one_empty_line(rt: HostRuntime) -> Result<(), Fail> {
    let alloc = rt.alloc();
    let mut editor = editor_after(alloc, b"", &UNDONE)?;
    let file = file_of(alloc, &mut editor)?;
    let history = read(alloc, &file)?;
    assert!(rt; is_taken(alloc, &history, b"")?);
    assert!(rt; is_taken(alloc, &history, b"\n")?);
    Ok(())
}

// Where the header has the end of the digest and the number of lines, and an entry after its change's start the line above it.
const DIGEST_END: usize = 39;

const LINES: usize = 43;

const TOP: usize = 401;

// The answer that is wanted.
#[derive(Clone, Copy)]
enum Wanted {
    Digest,
    Lines(u32, u64),
    Entry(u32),
}

fn is_wanted(wanted: Wanted, error: BindErr) -> bool {
    match (wanted, error) {
        (Wanted::Digest, BindErr::DigestDiffers { file, text }) => file != text,
        (Wanted::Lines(file, own), BindErr::LinesDiffer { file: f, text: t }) => {
            file == f && own == t
        }
        (Wanted::Entry(number), BindErr::EntryDoesNotFit(n)) => number == n,
        _ => false,
    }
}

// What is changed in the file, the text, and the answer.
type Case = (&'static str, &'static [(usize, u32)], &'static [u8], Wanted);

const CASES: [Case; 6] = [
    ("another text", &[], b"a\nx\n", Wanted::Digest),
    (
        "another digest",
        &[(DIGEST_END, 0)],
        b"a\nc\n",
        Wanted::Digest,
    ),
    (
        "another number of lines",
        &[(LINES, 3)],
        b"a\nc\n",
        Wanted::Lines(3, 2),
    ),
    ("both", &[(LINES, 3)], b"a\nx\n", Wanted::Digest),
    (
        "an entry past the end",
        &[(CHANGES[3] + TOP, 9)],
        b"a\nc\n",
        Wanted::Entry(4),
    ),
    (
        "two of them",
        &[(CHANGES[3] + TOP, 9), (CHANGES[1] + TOP, 9)],
        b"a\nc\n",
        Wanted::Entry(2),
    ),
];

// The file with these numbers in the place of its own.
fn changed_history(
    alloc: Global,
    file: &[u8],
    changes: &[(usize, u32)],
) -> Result<FileHistory, Fail>
    ensures { IfOk result (λ history. KeepsRules (history_of history)) }
{
    let mut changed = Vec::from_slice(alloc, file)?;
    for (at, number) in changes {
        put(&mut changed, *at, *number);
    }
    read(alloc, &changed)
}

// Whether the history is refused so, and the text stays as it was.
fn is_refused(
    alloc: Global,
    history: &FileHistory,
    text: &[u8],
    wanted: Wanted,
) -> Result<bool, Fail>
    requires { KeepsRules (history_of history.now) }
{
    let mut editor = editor_after(alloc, text, &[])?;
    let Err(error) = bind(alloc, history, &mut editor.text) else {
        return Ok(false);
    };
    let found = bytes_of(alloc, &mut editor.text)?;
    Ok(found.as_slice() == text && is_wanted(wanted, error))
}

#[test]
fn a_history_that_is_not_of_the_text_is_refused(rt: HostRuntime) -> Result<(), Fail> {
    let alloc = rt.alloc();
    let file = branches_file(alloc)?;
    for (name, changes, text, wanted) in CASES {
        let history = changed_history(alloc, &file, changes)?;
        assert!(rt; is_refused(alloc, &history, text, wanted)?, "{name}");
    }
    Ok(())
}

#[test]
fn an_entry_that_fits_no_text_is_refused_at_the_text_of_its_file(
    rt: HostRuntime,
) -> Result<(), Fail> {
    let alloc = rt.alloc();
    let file = one_change_file(alloc)?;
    let history = changed_history(alloc, &file, &[(499, 9)])?;
    assert!(rt; is_refused(alloc, &history, b"\n", Wanted::Entry(1))?);
    Ok(())
}
