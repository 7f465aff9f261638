// What a command comes to that is carried out at each of some lines: a table over a text in memory and over a line tree. The rows that
// change the text are answered by Vim 9.0, too.
ghost use Rattle.vs_edit.specs.State.{SameText};

use std::alloc::Global;
use std::process::Abort;
use std::test::Fail;
use vs_edit::{LineStore, StoreErr, VecStore, allows_splice, text_of};
use vs_excmd::{Plan, PlanErr, changes_text};
use vs_exparse::{Command, ExErr, Parsed, parse};
use vs_global::{Search, global};
use vs_pages::MemPages;
use vs_text::{Format, read_text, write_text};
use vs_tree::{LineTree, TreeStore};

/// The cursor after a change, or no change, or why the command was refused.
type Outcome = Result<Option<u64>, ExErr>;

/// A file, the cursor, a substitution with the range and the pattern, whether the lines that do not match are taken, the command at
/// each line, what comes of it, and the file afterwards.
struct Row {
    file: &'static [u8],
    cursor: u64,
    search: &'static [u8],
    invert: bool,
    nested: &'static [u8],
    outcome: Outcome,
    after: &'static [u8],
}

/// Rows of one file: `cursor, search, invert, nested => outcome, file afterwards`. No change and an error leave the file.
macro_rules! rows {
    ($file:literal; $($cursor:literal, $search:literal, $invert:literal, $nested:literal => $outcome:expr, $after:literal;)+) => {
        [$(Row { file: $file, cursor: $cursor, search: $search, invert: $invert, nested: $nested, outcome: $outcome, after: $after }),+]
    };
}

/// Carries the splice of a row out. The store may be used after every answer.
fn run<S: LineStore>(
    rt: &impl Abort,
    alloc: Global,
    store: &mut S,
    row: &Row,
) -> Result<Outcome, StoreErr>
    requires valid { S.valid store.old }
    requires committed { SameText (S.shows store.old).present (S.shows store.old).committed }
    ensures { S.valid store.new }
{
    let Ok(Parsed::Command(Command::Substitute { range, pattern, .. })) = parse(row.search) else {
        panic!(rt; "{:?} is no search", row.search)
    };
    let Ok(Parsed::Command(nested)) = parse(row.nested) else {
        panic!(rt; "{:?} is no command", row.nested)
    };
    if !changes_text(&nested) || nested.wants_block() {
        panic!(rt;
            "{:?} is no command of the text without a block",
            row.nested
        )
    }
    let search = Search {
        range,
        invert: row.invert,
        pattern,
    };
    match global(alloc, &search, &nested, store, row.cursor) {
        Ok(Plan::NoChange) => Ok(Ok(None)),
        Ok(
            Plan::Splice {
                top,
                old,
                new,
                cursor,
            },
        ) => {
            store.splice(alloc, top, old, &new)?;
            Ok(Ok(Some(cursor)))
        }
        Err(PlanErr::Ex(error)) => Ok(Err(error)),
        Err(PlanErr::NoMemory) => Err(StoreErr::NoMemory),
        Err(PlanErr::Failed) => Err(StoreErr::Failed),
    }
}

fn check_row<S: LineStore>(
    rt: &impl Abort,
    alloc: Global,
    store: &mut S,
    row: &Row,
) -> Result<(), StoreErr>
    requires { S.valid store.old }
    ensures { S.valid store.new }
{
    let Ok((text, _)) = read_text(alloc, row.file) else {
        return Err(StoreErr::NoMemory);
    };
    let lines = text.lines();
    let len = store.len();
    if !allows_splice(store, 0, len, lines) {
        panic!(rt; "the lines do not fit")
    }
    store.splice(alloc, 0, len, lines)?;
    store.commit();
    let outcome = run(rt, alloc, store, row)?;
    assert!(rt;
        outcome == row.outcome,
        "{:?} at {:?}",
        row.nested,
        row.search
    );
    let text = text_of(alloc, store)?;
    let file = write_text(alloc, &text, Format::Unix)?;
    assert!(rt;
        file.as_slice() == row.after,
        "{:?} at {:?}",
        row.nested,
        row.search
    );
    Ok(())
}

fn check_in_memory(rt: &impl Abort, alloc: Global, row: &Row) -> Result<(), Fail> {
    let mut store = VecStore::new(alloc)?;
    check_row(rt, alloc, &mut store, row)?;
    Ok(())
}

fn check_in_a_tree(rt: &impl Abort, alloc: Global, row: &Row) -> Result<(), Fail> {
    let mut memory = MemPages::new(alloc)?;
    let mut tree = LineTree::new(alloc, &mut memory)?;
    let mut store = TreeStore {
        tree: &mut tree,
        pages: memory,
    };
    check_row(rt, alloc, &mut store, row)?;
    Ok(())
}

fn check_rows(rt: &impl Abort, alloc: Global, rows: &[Row]) -> Result<(), Fail> {
    for row in rows {
        check_in_memory(rt, alloc, row)?;
        check_in_a_tree(rt, alloc, row)?;
    }
    Ok(())
}

#[test]
fn commands_at_marked_lines(rt: HostRuntime) -> Result<(), Fail> {
    check_rows(
        &rt,
        rt.alloc(),
        &rows! { b"a x\nb\nc x\nd\n";
        1, b"s/\\Vx", false, b"d" => Ok(Some(2)), b"b\nd\n";
        1, b"s/\\Vx", true, b"m0" => Ok(Some(1)), b"d\nb\na x\nc x\n";
        1, b"s/\\Vx", false, b"m$" => Ok(Some(4)), b"b\nd\na x\nc x\n";
        1, b"s/\\Vx", false, b"j" => Ok(Some(2)), b"a x b\nc x d\n";
        4, b"s/\\Vq", false, b"d" => Err(ExErr::E486), b"a x\nb\nc x\nd\n";
    },
    )?;
    check_rows(
        &rt,
        rt.alloc(),
        &rows! { b"1\n2\n3\n";
        1, b"s/\\Vz", true, b"m0" => Ok(Some(1)), b"3\n2\n1\n";
    },
    )?;
    check_rows(
        &rt,
        rt.alloc(),
        &rows! { b"x\n";
        1, b"s/\\Vx", false, b"co0" => Ok(Some(1)), b"x\nx\n";
    },
    )?;
    check_rows(
        &rt,
        rt.alloc(),
        &rows! { b"a1\nb2\na3\na4\nb5\na6\nb7\nb8\n";
        1, b"s/\\Va", true, b"m0" => Ok(Some(1)), b"b8\nb7\nb5\nb2\na1\na3\na4\na6\n";
        3, b"s/\\Va", false, b"m." => Ok(None), b"a1\nb2\na3\na4\nb5\na6\nb7\nb8\n";
        3, b"s/\\Va", false, b"m-2" => Err(ExErr::E16), b"a1\nb2\na3\na4\nb5\na6\nb7\nb8\n";
        3, b"s/\\Va", false, b"m2" => Ok(Some(3)), b"b2\na1\na6\na4\na3\nb5\nb7\nb8\n";
        3, b"s/\\Va", false, b"m4" => Ok(Some(5)), b"b2\na1\na3\na4\na6\nb5\nb7\nb8\n";
        3, b"s/\\Va", false, b"+2m0" => Ok(Some(1)), b"a6\na3\na1\nb2\na4\nb5\nb7\nb8\n";
        3, b"s/\\Va", false, b"co." => Ok(Some(10)), b"a1\na1\nb2\na3\na3\na4\na4\nb5\na6\na6\nb7\nb8\n";
        3, b"s/\\Va", false, b"t0" => Ok(Some(1)), b"a6\na4\na3\na1\na1\nb2\na3\na4\nb5\na6\nb7\nb8\n";
        3, b"s/\\Va", false, b"t$" => Ok(Some(12)), b"a1\nb2\na3\na4\nb5\na6\nb7\nb8\na1\na3\na4\na6\n";
        3, b"s/\\Va", false, b"j!" => Ok(Some(4)), b"a1b2\na3a4\nb5\na6b7\nb8\n";
        3, b"s/\\Va", false, b"s/\\Va/z/" => Ok(Some(6)), b"z1\nb2\nz3\nz4\nb5\nz6\nb7\nb8\n";
        3, b"s/\\Va", false, b"s/\\V1/&&/" => Ok(Some(6)), b"a11\nb2\na3\na4\nb5\na6\nb7\nb8\n";
        3, b"s/\\Va", false, b"+s/\\Vb/x/" => Ok(Some(7)), b"a1\nx2\na3\na4\nx5\na6\nx7\nb8\n";
        1, b"s/\\Vb", false, b"+s/\\Vb/x/" => Err(ExErr::E16), b"a1\nb2\na3\na4\nb5\na6\nb7\nb8\n";
        1, b"s/\\Va", true, b"s/\\V1/&&/" => Ok(None), b"a1\nb2\na3\na4\nb5\na6\nb7\nb8\n";
        3, b"s/\\Va", false, b".,+1d" => Ok(Some(2)), b"b5\nb8\n";
        3, b"s/\\Va", false, b".,+1j" => Ok(Some(4)), b"a1 b2\na3 a4\nb5\na6 b7\nb8\n";
        3, b"s/\\Va", false, b".,+1m0" => Ok(Some(2)), b"a6\nb7\na3\na4\na1\nb2\nb5\nb8\n";
        3, b"s/\\Va", false, b"-1m$" => Ok(Some(8)), b"a4\na6\nb7\nb8\na1\nb2\na3\nb5\n";
        3, b"s/\\Va", false, b"1,2m$" => Ok(Some(8)), b"b7\nb8\na1\nb2\na3\na4\nb5\na6\n";
        3, b"s/\\Va", false, b"d2" => Ok(Some(2)), b"b5\nb8\n";
        3, b"s/\\Va", false, b".,$d" => Ok(Some(0)), b"";
        3, b"2,5s/\\Va", false, b"m$" => Ok(Some(8)), b"a1\nb2\nb5\na6\nb7\nb8\na3\na4\n";
        3, b"2,5s/\\Va", false, b"j" => Ok(Some(3)), b"a1\nb2\na3 a4\nb5\na6\nb7\nb8\n";
        3, b"5,2s/\\Va", false, b"d" => Err(ExErr::E493), b"a1\nb2\na3\na4\nb5\na6\nb7\nb8\n";
        3, b"1,9s/\\Va", false, b"d" => Err(ExErr::E16), b"a1\nb2\na3\na4\nb5\na6\nb7\nb8\n";
        1, b"s/\\Va", false, b"+4d" => Err(ExErr::E16), b"a1\nb2\na3\na4\nb5\na6\nb7\nb8\n";
        1, b"s/\\Va", false, b".,+1m." => Err(ExErr::E134), b"a1\nb2\na3\na4\nb5\na6\nb7\nb8\n";
    },
    )?;
    check_rows(
        &rt,
        rt.alloc(),
        &rows! { b"";
        0, b"s/\\Va", false, b"d" => Err(ExErr::E16), b"";
        0, b"s/\\Va", true, b"m0" => Err(ExErr::E16), b"";
    },
    )?;
    Ok(())
}
