// Answers that show something of a text.
ghost use Rattle.std.specs.Prelude.{◌≡◌, false, true, IfErr, IfOk, IsErrOf, length};
ghost use Rattle.vs_edit.specs.Calls.{OnlyReads, StopsAtFault};
ghost use Rattle.vs_exparse.specs.Command.{HasCount, command_of};
ghost use Rattle.vs_excmd.specs.Place.{number_shown};
ghost use Rattle.vs_undo.specs.declared.keep.Keep.{Keep};
ghost use Rattle.vs_undo.specs.declared.parts.Parts.{Parts};
ghost use Rattle.vs_machine.specs.Answers.{AnswersAs, IsIn};
ghost use Rattle.vs_machine.specs.Listing.{listing};
ghost use Rattle.vs_machine.specs.Machine.{State, counting, printing};
ghost use Rattle.vs_machine.specs.Machine.Meaning.{Printed};
ghost use Rattle.vs_machine.specs.Shown.{shown_by, shown_lines, showing_of};

use crate::answering::{Answered, refused};
use crate::listing::undo_list;
use crate::reply::Reply;
use crate::shown::shown_lines;
use std::alloc::Global;
use vs_edit::{LineStore, StoreErr};
use vs_excmd::{number_shown, shown};
use vs_exparse::{Command, Range};
use vs_undo::UndoTree;

/// Which lines a command shows, and whether with their numbers.
#[derive(Clone, Copy)]
pub(crate) struct Showing {
    pub range: Range,
    pub count: Option<u32>,
    pub numbers: bool,
}

impl Showing {
    /// Lines as they are.
    pub(crate) fn plain(range: Range, count: Option<u32>) -> Showing
        ensures { result ≡ record { range = range; count = count; numbers = false } }
    {
        Showing {
            range,
            count,
            numbers: false,
        }
    }

    /// Lines with their numbers before them.
    pub(crate) fn numbered(range: Range, count: Option<u32>) -> Showing
        ensures { result ≡ record { range = range; count = count; numbers = true } }
    {
        Showing {
            range,
            count,
            numbers: true,
        }
    }
}

/// How a command shows lines, where it does.
pub(crate) fn showing_of(command: &Command) -> Option<Showing>
    ensures { result ≡ showing_of (command_of command.now) }
{
    match *command {
        Command::Print { range, count } => Some(Showing::plain(range, count)),
        Command::Number { range, count } => Some(Showing::numbered(range, count)),
        _ => None,
    }
}

/// Prints lines.
pub(crate) fn print<S: LineStore>(
    alloc: Global,
    store: &mut S,
    cursor: u64,
    showing: Showing,
) -> Result<Answered, StoreErr>
    requires valid { S.valid store.old }
    requires form { HasCount showing.count }
    ensures answers { IfOk result (λ answered. (state : State) (keep : Keep) (tree : Parts) → IsIn S.LineStore store.old tree cursor state →
        AnswersAs S.LineStore state keep
        (printing (shown_lines showing.numbers state.text) (shown_by showing (length state.text) state.cursor)) answered store.old store.new tree) }
    ensures kept { OnlyReads S.LineStore store.old store.new }
    ensures cause { StopsAtFault S.LineStore (IsErrOf result StoreErr.Failed) store.old store.new }
{
    let span = match shown(showing.range, showing.count, store.len(), cursor) {
        Ok(span) => span,
        Err(error) => return Ok(refused(error, cursor)),
    };
    let bytes = shown_lines(alloc, store, span, showing.numbers)?;
    Ok(Answered {
        reply: Reply::printed(bytes),
        cursor: span.last,
        oldest: None,
    })
}

/// Prints the number of a line.
pub(crate) fn print_number<S: LineStore>(store: &S, cursor: u64, range: Range) -> Answered
    requires valid { S.valid store.now }
    ensures { (state : State) (keep : Keep) (tree : Parts) → IsIn S.LineStore store.now tree cursor state →
        AnswersAs S.LineStore state keep (counting state.cursor (number_shown range (length state.text) state.cursor)) result store.now store.now tree }
{
    match number_shown(range, store.len(), cursor) {
        Ok(number) => Answered {
            reply: Reply::number(number),
            cursor,
            oldest: None,
        },
        Err(error) => refused(error, cursor),
    }
}

/// Lists the changes without children.
pub(crate) fn list<S: LineStore>(
    alloc: Global,
    store: &S,
    history: &UndoTree,
    cursor: u64,
) -> Result<Answered, StoreErr>
    ensures answers { IfOk result (λ answered. (state : State) (keep : Keep) → IsIn S.LineStore store.now history.now cursor state →
        AnswersAs S.LineStore state keep (Printed (listing state.history.links.nodes) state.cursor) answered store.now store.now history.now) }
    ensures cause { IfErr result (λ cause. cause ≡ StoreErr.NoMemory) }
{
    let reply = undo_list(alloc, history)?;
    Ok(Answered {
        reply,
        cursor,
        oldest: None,
    })
}
