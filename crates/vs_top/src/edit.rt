// One script over one file.
ghost use Rattle.std.specs.Prelude.{◌≡◌, ◌<◌, ◌^◌, ◌≤◌, ◌++◌, ◌∷◌, [], List, ℕ, length, take, not, ◌&&◌, if◌then◌else◌, is_ok, OnOk, OnErr, IfErr, IsErr, IsTrue, vec_len};
ghost use Rattle.std.specs.Vec.{vec_capacity};
ghost use Rattle.vs_host.specs.Names.{is_allowed};
ghost use Rattle.vs_faults.specs.Faults.{HasCause, IsQuiet};
ghost use Rattle.vs_host.specs.Trace.{WroteOutput};
ghost use Rattle.vs_host.specs.World.{ChangesOutput, Scene};
ghost use Rattle.vs_machine.specs.Machine.{is_done};
ghost use Rattle.vs_top.specs.Ending.{ending_in};
ghost use Rattle.vs_safety.specs.Safety.{IsAdded};
ghost use Rattle.vs_safety.specs.Turns.{preserved_line, quit_line};
ghost use Rattle.vs_session.specs.Calls.{Finishes, FitsFolder};
ghost use Rattle.vs_session.specs.Fits.{FitsUndo, generation_of};
ghost use Rattle.vs_top.specs.Promise.{RunsEdit};
ghost use Rattle.vs_top.specs.Turns.{IsAtClose, IsOpened};

use crate::ending::Ending;
use std::alloc::Global;
use vs_host::{Host, Out};
use vs_script::{LineBuffer, ScriptReader};
use vs_session::{End, Mark, Outcome, Reply, Session, Step};

pub(crate) fn put<O: Out>(host: &mut O, reply: Reply) -> Result<(), Ending>
    ensures some { 0 < length reply.bytes }
    ensures ok { OnOk result (IsTrue (O.tells).output → (O.scene host.new).output ≡ (O.scene host.old).output ++ reply.bytes) }
    ensures err { OnErr result (IsTrue (O.tells).output → (n : ℕ) × ((O.scene host.new).output ≡ (O.scene host.old).output ++ take n reply.bytes)) }
    ensures added { IsTrue (O.tells).folder → IsAdded WroteOutput [] (O.scene host.old) (O.scene host.new) }
    ensures cause { HasCause (O.scene host.old).out_faults (O.scene host.new).out_faults (IsErr result) }
    ensures quiet { IsQuiet (O.scene host.old).out_faults (O.scene host.new).out_faults (IsErr result) }
    ensures out { IfErr result (λ ending. ending ≡ Ending.OutputFault) }
    ensures frame { ChangesOutput (O.scene host.old) (O.scene host.new) }
{
    match host.write(reply.bytes()) {
        Ok(()) => Ok(()),
        Err(_) => Err(Ending::OutputFault),
    }
}

pub(crate) fn is_clean(mark: Mark, reply: &Reply) -> bool
    ensures { result ≡ (is_done mark.outcome && not reply.now.is_error) }
{
    match mark.outcome {
        Outcome::Done => !reply.is_error(),
        Outcome::NoMemory | Outcome::Fault | Outcome::NoUndo => false,
    }
}

/// Keeps the mark of a command, for which there is room.
pub(crate) fn keep(marks: &mut Vec<Mark>, mark: Mark)
    requires { vec_len marks.old < vec_capacity marks.old }
    ensures { marks.new.items ≡ marks.old.items ++ mark ∷ [] }
{
    let _ = marks.push(mark);
}

pub(crate) fn ending_of(clean: bool) -> Ending
    ensures { result ≡ (if clean then Ending.Done else Ending.WithErrors) }
{
    if clean {
        return Ending::Done;
    }
    Ending::WithErrors
}

// The last line of a script.
pub(crate) fn last_line(how: End) -> Reply
    ensures sync { how ≡ End.Sync → result.bytes ≡ preserved_line }
    ensures quit { how ≡ End.Quit → result.bytes ≡ quit_line }
{
    match how {
        End::Sync => Reply::preserved(),
        End::Quit => Reply::quit(),
    }
}

// Ends the session.
pub(crate) fn finish<H: Host>(session: Session, host: &mut H, how: End) -> Result<(), Ending>
    requires room { generation_of session < 2 ^ 63 }
    requires fits { FitsFolder H.tells session (H.scene host.old).folder }
    ensures finishes { Finishes H.tells session (H.scene host.old) (H.scene host.new) how (is_ok result) }
    ensures fault { IfErr result (λ ending. ending ≡ Ending.FolderFault) }
{
    match session.finish(host, how) {
        Ok(()) => Ok(()),
        Err(_) => Err(Ending::FolderFault),
    }
}

// Ends the session at the script's end or at an accepted quit, and writes the last line.
fn close<H: Host>(session: Session, host: &mut H, how: End, clean: bool) -> Result<Ending, Ending>
    requires room { generation_of session < 2 ^ 63 }
    requires fits { FitsFolder H.tells session (H.scene host.old).folder }
    ensures { (name : List ℕ) (old : Scene) (marks : List Mark) → IsAtClose H.tells name old (H.scene host.old) session marks how clean
        → RunsEdit H.tells name old (H.scene host.new) (ending_in result) marks }
{
    finish(session, host, how)?;
    put(host, last_line(how))?;
    Ok(ending_of(clean))
}

// Answers the commands of the script over a session that has opened its file, each before the next is read.
fn serve<H: Host>(
    alloc: Global,
    session: Session,
    host: &mut H,
    marks: &mut Vec<Mark>,
) -> Result<Ending, Ending>
    requires marks { marks.old.items ≡ [] }
    requires generation { generation_of session ≤ 2 }
    requires undo { FitsUndo session }
    requires clock { IsTrue (H.tells).clock → length (H.scene host.old).answers < 2 ^ 62 }
    requires fits { FitsFolder H.tells session (H.scene host.old).folder }
    ensures { (name : List ℕ) (old : Scene) → IsOpened H.tells name old (H.scene host.old) session
        → RunsEdit H.tells name old (H.scene host.new) (ending_in result) marks.new.items }
{
    let mut session = session;
    let mut reader = ScriptReader::new(alloc)?;
    let mut line = LineBuffer::new(alloc)?;
    put(host, session.opening())?;
    let mut clean = true;
    'requests: while let Some(request) = reader.next_request(alloc, host, &mut line)? {
        marks.reserve(1)?;
        let Step::Answer { mark, reply } = session.step(alloc, host, &request) else {
            return close(session, host, End::Quit, clean);
        };
        drop(request);
        keep(marks, mark);
        clean &= is_clean(mark, &reply);
        put(host, reply)?;
    }
    close(session, host, End::Sync, clean)
}

/// Opens the file of a name and answers the commands of the script, each before the next is read. At the script's end the text
/// is synced into the swap files, which stay; at an accepted quit nothing more is read, and they are removed. `Err` is an ending
/// before that. One mark for each command that was answered is kept, in order; an accepted quit has none.
pub fn edit<H: Host>(
    alloc: Global,
    name: &str,
    host: &mut H,
    marks: &mut Vec<Mark>,
) -> Result<Ending, Ending>
    requires name { IsTrue (is_allowed name.now) }
    requires marks { marks.old.items ≡ [] }
    requires clock { IsTrue (H.tells).clock → length (H.scene host.old).answers < 2 ^ 62 }
    requires settled { IsTrue (H.tells).folder → (H.scene host.old).folder.pending ≡ [] }
    ensures { RunsEdit H.tells name.now (H.scene host.old) (H.scene host.new) (ending_in result) marks.new.items }
{
    let session = Session::open(alloc, host, name)?;
    serve(alloc, session, host, marks)
}
