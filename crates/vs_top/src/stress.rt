// The stress mode.
ghost use Rattle.std.specs.Prelude.{◌≡◌, ◌+◌, ◌<◌, ◌≤◌, ◌^◌, ◌++◌, ◌∷◌, [], Bool, List, ℕ, IfErr, IfOk, IsErrOf, IsTrue, OnErr, length, true, false};
ghost use Rattle.vs_exparse.specs.Command.{result_of};
ghost use Rattle.vs_excmd.specs.Request.{Instruction, IsFormed, IsRequest};
ghost use Rattle.vs_host.specs.World.{Scene};
ghost use Rattle.vs_safety.specs.Texts.{Sync};
ghost use Rattle.vs_session.specs.Calls.{FitsFolder};
ghost use Rattle.vs_session.specs.Fits.{Fits, FitsUndo, generation_of};
ghost use Rattle.vs_session.specs.Session.{SessionState, quits, writes_files};
ghost use Rattle.vs_stress.specs.Commands.{stress_commands};
ghost use Rattle.vs_top.specs.Ending.{ending_in};
ghost use Rattle.vs_top.specs.Promise.{RunsStress};
ghost use Rattle.vs_top.specs.Stress.{IsSceneOf};
ghost use Rattle.vs_top.specs.StressTurns.{IsStressTurn, StopsStress};

use crate::edit::{ending_of, finish, is_clean, keep, put};
use crate::ending::Ending;
use std::alloc::Global;
use vs_excmd::Request;
use vs_host::Host;
use vs_session::{End, Mark, Reply, Session, Step};
use vs_stress::{generated, preserve, summary_line};

/// The file of the stress mode.
const FILE: &str = "stress.vs";

// Answers one command, and keeps its mark.
fn answer<H: Host>(
    alloc: Global,
    session: &mut Session,
    host: &mut H,
    marks: &mut Vec<Mark>,
    request: &Request,
    clean: bool,
) -> Result<bool, Ending>
    requires form { IsFormed request.now }
    requires goes_on { (saved : Bool) → quits (result_of request.now.parsed) saved ≡ false }
    requires plain { writes_files (result_of request.now.parsed) ≡ false }
    requires clock { IsTrue (H.tells).clock → length (H.scene host.old).answers < 2 ^ 63 }
    requires room { generation_of session.old < 2 ^ 63 }
    requires undo { FitsUndo session.old }
    requires fits { FitsFolder H.tells session.old (H.scene host.old).folder }
    ensures ok { IfOk result (λ after. (old : Scene) (commands : List Instruction) (instruction : Instruction) → IsRequest request.now instruction
        → IsStressTurn (IsSceneOf H.scene) H.tells old (H.scene host.old) session.old marks.old.items clean commands
        → IsStressTurn (IsSceneOf H.scene) H.tells old (H.scene host.new) session.new marks.new.items after (commands ++ instruction ∷ [])) }
    ensures err { IfErr result (λ ending. (ending ≡ Ending.NoMemory) × (marks.new.items ≡ marks.old.items) × (session.new ≡ session.old)
        × (H.scene host.new ≡ H.scene host.old)) }
    ensures clock { IsTrue (H.tells).clock → length (H.scene host.new).answers ≤ length (H.scene host.old).answers + 1 }
    ensures room { generation_of session.new ≤ generation_of session.old + 1 }
    ensures undo { FitsUndo session.new }
    ensures fits { IsTrue (H.tells).folder → (instruction : Instruction) → IsRequest request.now instruction
        → (state : SessionState) × (syncs : List Sync) × Fits session.new (H.scene host.new).folder state syncs }
{
    marks.reserve(1)?;
    match session.step(alloc, host, request) {
        Step::Answer { mark, reply } => {
            keep(marks, mark);
            let went_well = is_clean(mark, &reply);
            Ok(clean & went_well)
        }
        Step::Quit => unreachable!(),
    }
}

// Answers the commands with the numbers from 1 to `count`, and `preserve`.
fn answer_all<H: Host>(
    alloc: Global,
    session: &mut Session,
    host: &mut H,
    marks: &mut Vec<Mark>,
    count: u64,
) -> Result<bool, Ending>
    requires few { count ≤ 100000 }
    requires marks { marks.old.items ≡ [] }
    requires generation { generation_of session.old ≤ 2 }
    requires undo { FitsUndo session.old }
    requires clock { IsTrue (H.tells).clock → length (H.scene host.old).answers < 2 ^ 62 }
    requires fits { FitsFolder H.tells session.old (H.scene host.old).folder }
    ensures ok { IfOk result (λ clean. (old : Scene) → IsStressTurn (IsSceneOf H.scene) H.tells old (H.scene host.old) session.old [] true []
        → IsStressTurn (IsSceneOf H.scene) H.tells old (H.scene host.new) session.new marks.new.items clean (stress_commands count)) }
    ensures err { IfErr result (λ ending. (ending ≡ Ending.NoMemory)
        × ((old : Scene) → IsStressTurn (IsSceneOf H.scene) H.tells old (H.scene host.old) session.old [] true []
        → StopsStress (IsSceneOf H.scene) H.tells count old (H.scene host.new) session.new marks.new.items)) }
    ensures room { generation_of session.new ≤ 100003 }
    ensures fits { FitsFolder H.tells session.new (H.scene host.new).folder }
{
    let mut clean = true;
    'commands: for number in 0..count {
        let request = generated(alloc, number + 1)?;
        clean = answer(alloc, session, host, marks, &request, clean)?;
    }
    answer(alloc, session, host, marks, &preserve(), clean)
}

// Writes the summary, and ends the session.
fn close<H: Host>(
    alloc: Global,
    session: Session,
    host: &mut H,
    count: u64,
    clean: bool,
) -> Result<Ending, Ending>
    requires room { generation_of session < 2 ^ 63 }
    requires fits { FitsFolder H.tells session (H.scene host.old).folder }
    ensures { (old : Scene) (marks : List Mark) → IsStressTurn (IsSceneOf H.scene) H.tells old (H.scene host.old) session marks clean (stress_commands count)
        → RunsStress (IsSceneOf H.scene) H.tells count old (H.scene host.new) (ending_in result) marks }
{
    let mut session = session;
    let summary = session.summary(alloc, host)?;
    let line = summary_line(
        alloc,
        count,
        summary.lines,
        summary.changes,
        summary.syncs,
        summary.digest,
    )?;
    put(host, Reply::printed(line))?;
    finish(session, host, End::Quit)?;
    Ok(ending_of(clean))
}

/// Opens the file `stress.vs` and answers commands that are made up, as many as `count`, and `preserve`. Their replies are not
/// written; then a line with the numbers of lines, changes and syncs and the digest of the text is, and the swap files are removed.
/// `Err` is an ending before that. One mark for each command is kept, in order. The script is not read.
pub fn stress<H: Host>(
    alloc: Global,
    count: u64,
    host: &mut H,
    marks: &mut Vec<Mark>,
) -> Result<Ending, Ending>
    requires few { count ≤ 100000 }
    requires marks { marks.old.items ≡ [] }
    requires clock { IsTrue (H.tells).clock → length (H.scene host.old).answers < 2 ^ 62 }
    requires settled { IsTrue (H.tells).folder → (H.scene host.old).folder.pending ≡ [] }
    ensures { RunsStress (IsSceneOf H.scene) H.tells count (H.scene host.old) (H.scene host.new) (ending_in result) marks.new.items }
{
    let mut session = Session::open(alloc, host, FILE)?;
    let clean = answer_all(alloc, &mut session, host, marks, count)?;
    close(alloc, session, host, count, clean)
}
