// Undo files of small histories, with the bytes and links that the format says (docs/FORMATS.md, "Undo file").
ghost use Rattle.std.specs.Prelude.{IfOk};
ghost use Rattle.vs_undo.specs.Moves.{IsReady};
ghost use Rattle.vs_ufile.specs.Decode.{IsWellFormed};
ghost use Rattle.vs_ufile.specs.Values.{history_of};

use crate::digests::{EMPTY, store_of};
use crate::undo::{Editor, begin};
use std::alloc::Global;
use std::process::Abort;
use std::test::Fail;
use vs_edit::{LineStore, VecStore, allows_splice};
use vs_text::read_text;
use vs_ubind::unbind;
use vs_ufile::{FileHistory, encode};
use vs_undo::{Keep, change};

// Puts a line after the last one, at a time.
fn append<S: LineStore>(
    alloc: Global,
    editor: &mut Editor<S>,
    line: &[u8],
    time: u64,
) -> Result<(), Fail>
    requires { IsReady S.LineStore editor.old.tree editor.old.text }
    ensures { IsReady S.LineStore editor.new.tree editor.new.text }
{
    let (new, _) = read_text(alloc, line).ok().ok_or("it is a line")?;
    let top = editor.text.len();
    if !allows_splice(&editor.text, top, 0, new.lines()) {
        return Err(Fail::new("there is no room for the line"));
    }
    let changed = change(
        alloc,
        &mut editor.tree,
        &mut editor.text,
        top,
        0,
        new.lines(),
        Keep {
            time,
            levels: u64::MAX,
        },
    );
    changed.ok().ok_or("there is memory for the change")?;
    Ok(())
}

pub(crate) fn go_to<S: LineStore>(
    alloc: Global,
    editor: &mut Editor<S>,
    number: u64,
) -> Result<(), Fail>
    requires { IsReady S.LineStore editor.old.tree editor.old.text }
    ensures { IsReady S.LineStore editor.new.tree editor.new.text }
{
    let moved = editor.tree.goto(alloc, &mut editor.text, number);
    moved.ok().ok_or("the state is kept")?;
    Ok(())
}

fn data_of<S: LineStore>(
    alloc: Global,
    editor: &mut Editor<S>,
    save_next: bool,
) -> Result<FileHistory, Fail>
    requires { IsReady S.LineStore editor.old.tree editor.old.text }
    ensures { IfOk result (λ history. IsWellFormed (history_of history)) }
{
    let history = unbind(alloc, &editor.tree, &mut editor.text, save_next);
    Ok(history.ok().ok_or("there is memory for the history")?)
}

// The bytes of the undo file of an editor.
pub(crate) fn file_of<S: LineStore>(alloc: Global, editor: &mut Editor<S>) -> Result<Vec<u8>, Fail>
    requires { IsReady S.LineStore editor.old.tree editor.old.text }
{
    let history = data_of(alloc, editor, false)?;
    Ok(encode(alloc, &history)?)
}

// One step of a history.
#[derive(Clone, Copy)]
pub enum Step {
    // This line is put after the last one, at this time.
    Append(&'static [u8], u64),
    GoTo(u64),
    Write,
}

fn take<S: LineStore>(alloc: Global, editor: &mut Editor<S>, step: Step) -> Result<(), Fail>
    requires { IsReady S.LineStore editor.old.tree editor.old.text }
    ensures { IsReady S.LineStore editor.new.tree editor.new.text }
{
    match step {
        Step::Append(line, time) => append(alloc, editor, line, time),
        Step::GoTo(number) => go_to(alloc, editor, number),
        Step::Write => {
            let _ = editor.tree.mark_write();
            Ok(())
        }
    }
}

fn take_all<S: LineStore>(alloc: Global, editor: &mut Editor<S>, steps: &[Step]) -> Result<(), Fail>
    requires { IsReady S.LineStore editor.old.tree editor.old.text }
    ensures { IsReady S.LineStore editor.new.tree editor.new.text }
{
    for step in steps {
        take(alloc, editor, *step)?;
    }
    Ok(())
}

// The editor of a text, after these steps.
pub(crate) fn editor_after(
    alloc: Global,
    text: &[u8],
    steps: &[Step],
) -> Result<Editor<VecStore>, Fail>
    ensures { IfOk result (λ editor. IsReady ⟦<VecStore as LineStore>⟧ editor.tree editor.text) }
{
    let mut editor = begin(alloc, store_of(alloc, text)?)?;
    take_all(alloc, &mut editor, steps)?;
    Ok(editor)
}

// The parts of the file of one empty line, in their order.
const EMPTY_FILE: [&[u8]; 5] = [
    &[0x56, 0x69, 0x6d, 0x9f, 0x55, 0x6e, 0x44, 0x6f, 0xe5, 0, 2],
    &EMPTY,
    &[0, 0, 0, 1],
    &[0; 44],
    &[4, 1, 0, 0, 0, 0, 0, 0xe7, 0xaa],
];

// Whether the bytes are these parts, one after the other.
fn are_parts(bytes: &[u8], parts: &[&[u8]]) -> bool {
    let mut rest = bytes;
    for part in parts {
        match rest.strip_prefix(*part) {
            Some(after) => rest = after,
            None => return false,
        }
    }
    rest.is_empty()
}

#[test]
fn one_empty_line_without_changes_has_these_bytes(rt: HostRuntime) -> Result<(), Fail> {
    let alloc = rt.alloc();
    let mut editor = editor_after(alloc, b"\n", &[])?;
    let bytes = file_of(alloc, &mut editor)?;
    assert!(rt; bytes.len() == 100 && are_parts(&bytes, &EMPTY_FILE));
    Ok(())
}

#[test]
fn a_line_more_takes_519_bytes(rt: HostRuntime) -> Result<(), Fail> {
    let alloc = rt.alloc();
    let mut editor = editor_after(alloc, b"a\n", &[Step::Append(b"b\n", 7)])?;
    let bytes = file_of(alloc, &mut editor)?;
    assert!(rt; bytes.len() == 519);
    Ok(())
}

// What a file says of a change: its number, the links next, prev, alt_next and alt_prev, its time and its save number.
type Row = (u32, [u32; 4], u64, u32);

// Whether these are the changes of the file.
fn are_changes(history: &FileHistory, rows: &[Row]) -> bool {
    let changes = history.changes.as_slice();
    changes.len() == rows.len()
        && changes.iter().zip(rows.iter()).all(|(change, row)| {
            let links = [change.next, change.prev, change.alt_next, change.alt_prev];
            change.number == row.0 && links == row.1 && change.time == row.2 && change.save == row.3
        })
}

// Whether the header has these numbers.
fn has_numbers(history: &FileHistory) -> bool {
    let ends = [history.oldest, history.newest, history.current_head];
    let counts = [history.heads, history.last, history.current];
    ends == [1, 3, 0]
        && counts == [5, 5, 3]
        && history.time == 13
        && history.last_save == 2
        && history.lines == 2
}

// Changes 1 and 2, one after the other, and 3 to 5 beside 2; then back to 3. The next write would mark 3.
const CHAIN: [Step; 10] = [
    Step::Append(b"a\n", 11),
    Step::Append(b"b\n", 12),
    Step::GoTo(1),
    Step::Append(b"c\n", 13),
    Step::GoTo(1),
    Step::Append(b"d\n", 14),
    Step::Write,
    Step::GoTo(1),
    Step::Append(b"e\n", 15),
    Step::GoTo(3),
];

const CHAIN_ROWS: [Row; 5] = [
    (1, [0, 3, 0, 0], 11, 0),
    (2, [1, 0, 0, 4], 12, 0),
    (3, [1, 0, 5, 0], 13, 2),
    (4, [1, 0, 2, 5], 14, 1),
    (5, [1, 0, 4, 3], 15, 0),
];

#[test]
fn a_chain_begins_with_the_child_last_used(rt: HostRuntime) -> Result<(), Fail> {
    let alloc = rt.alloc();
    let mut editor = editor_after(alloc, b"", &CHAIN)?;
    let history = data_of(alloc, &mut editor, true)?;
    assert!(rt; are_changes(&history, &CHAIN_ROWS));
    assert!(rt; has_numbers(&history));
    Ok(())
}
