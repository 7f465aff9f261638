// One script over two files.
ghost use Rattle.std.specs.Prelude.{◌≡◌, ◌<◌, ◌≤◌, ◌^◌, ◌+◌, ◌&&◌, ◌∷◌, [], List, ℕ, Option, None, Some, false, true, is_none, length, take, IfErr, IfSome, IsErr, IsTrue, MatchResult, OnOk};
ghost use Rattle.vs_host.specs.Names.{is_allowed};
ghost use Rattle.vs_host.specs.World.{Scene};
ghost use Rattle.vs_exparse.specs.Bytes.{max_line_bytes};
ghost use Rattle.vs_excmd.specs.Request.{Instruction, IsFormed, IsRequest};
ghost use Rattle.vs_text.specs.Text as text;
ghost use Rattle.vs_family.specs.Family.{clash};
ghost use Rattle.vs_script.specs.Ahead.{MeanSame, script_limit};
ghost use Rattle.vs_script.specs.Feed.{Between, IsAt, IsEnded, IsReady, Reading, ended_last, takes};
ghost use Rattle.vs_split.specs.Tags.{LineOf, tag_of};
ghost use Rattle.vs_tagged.specs.Tagged.{WritesTagged, tagged};
ghost use Rattle.vs_multi.specs.Multi.{FitsBoth, other, session_of};
ghost use Rattle.vs_multi.specs.Opening.{BothStandOpen};
ghost use Rattle.vs_top.specs.Run.{TellsRun};
ghost use Rattle.vs_top.specs.Ending.{ending_in};
ghost use Rattle.vs_top.specs.PairHistory.{state_for};
ghost use Rattle.vs_top.specs.PairScript.{Comes, Line, ScriptEnd, SessionEnd, Source, Transcript, answers_of, taking};
ghost use Rattle.vs_top.specs.PairPromise.{EndsPair, HasRunBoth, RunsPair, files_in};
ghost use Rattle.vs_top.specs.PairTurns.{AsksEnd, AsksFor, Greets, HasCommand, EndedBoth, HasNext, TookLines, ArePlaced, AreUsable, KeepsPair, OpensPair, ToldPair, sessions_ended, feed_of, last_answer};

use crate::edit::{ending_of, is_clean, keep, last_line};
use crate::ending::Ending;
use crate::tagged::{prefix_of, put_reply, say};
use std::alloc::Global;
use vs_family::Which;
use vs_host::{Host, Out};
use vs_multi::{Multi, MultiStep};
use vs_script::{CommandFeed, LineBuffer, ScriptReader};
use vs_session::{End, Mark, Request, Step};
use vs_split::{PREFIX_BYTES, split};

/// Two sessions over one script, each with its own commands in it.
struct Sessions {
    multi: Multi,
    one: CommandFeed,
    two: CommandFeed,
    // No answer was an error, and every command did its work.
    clean: bool,
}

impl Drop for Sessions {
    fn drop(self) {
        let Sessions {
            multi: _,
            one: _,
            two: _,
            clean: _,
        } = self;
    }
}

impl Sessions {
    // The command that a line of a session ends, if it ends one.
    fn feed<'a>(&mut self, alloc: Global, which: Which, line: &'a [u8]) -> Option<Request<'a>>
        requires line { text.IsLine line.now }
        requires ready { IsReady (feed_of which self.old) }
        ensures takes { (reading : Reading) (more : List ℕ) → IsAt (feed_of which self.old) reading → MeanSame line.now more
            → let taken = takes reading more in IsEnded result taken.ended × IsAt (feed_of which self.new) taken.reading }
        ensures form { IfSome result (λ request. IsFormed request) }
        ensures same { (self.new.multi ≡ self.old.multi) × (self.new.clean ≡ self.old.clean) }
        ensures other { feed_of (other which) self.new ≡ feed_of (other which) self.old }
    {
        match which {
            Which::One => self.one.feed(alloc, line),
            Which::Two => self.two.feed(alloc, line),
        }
    }

    // The command that the end of the script of a session ends, if a block is open.
    fn end_block(&mut self, which: Which) -> Option<Request<'static>>
        requires { IsReady (feed_of which self.old) }
        ensures ended { (reading : Reading) → IsAt (feed_of which self.old) reading → IsEnded result (ended_last reading) }
        ensures form { IfSome result (λ request. IsFormed request) }
        ensures left { IsAt (feed_of which self.new) Between }
        ensures same { (self.new.multi ≡ self.old.multi) × (self.new.clean ≡ self.old.clean) }
        ensures other { feed_of (other which) self.new ≡ feed_of (other which) self.old }
    {
        match which {
            Which::One => self.one.end(),
            Which::Two => self.two.end(),
        }
    }

    // Ends a session, and writes its last line.
    fn close<H: Host>(&mut self, host: &mut H, which: Which, how: End) -> Result<(), Ending>
        requires open { is_none (session_of which self.old.multi) ≡ false }
        requires usable { AreUsable H.tells self.old 0 (H.scene host.old) }
        ensures usable { (more : ℕ) → AreUsable H.tells self.old more (H.scene host.old) → AreUsable H.tells self.new more (H.scene host.new) }
        ensures gone { session_of which self.new.multi ≡ None }
        ensures others { session_of (other which) self.new.multi ≡ session_of (other which) self.old.multi }
        ensures same { (self.new.one ≡ self.old.one) × (self.new.two ≡ self.old.two) × (self.new.clean ≡ self.old.clean) }
        ensures script { (H.scene host.new).script ≡ (H.scene host.old).script }
        ensures keeps { (one two : List ℕ) (old : Scene) (most : ℕ) (marks : List Mark)
            → KeepsPair H.tells one two old (H.scene host.old) most marks
            → MatchResult result (λ _. KeepsPair H.tells one two old (H.scene host.new) most marks)
            (λ ending. most ≤ 2 → EndsPair H.tells one two old (H.scene host.new) ending marks) }
        ensures told { TellsRun H.tells → (one two : List ℕ) (old : Scene) (marks : List Mark) (transcript : Transcript)
            (source : Source) (quit : Instruction)
            → ToldPair one two old (H.scene host.old) self.old.multi marks self.old.clean transcript
            → AsksEnd which how old.script transcript source (state_for which (files_in old one two) (answers_of transcript)) quit
            → MatchResult result
            (λ _. ToldPair one two old (H.scene host.new) self.new.multi marks self.new.clean (taking source (last_answer how which quit true) ∷ transcript))
            (λ ending. HasRunBoth one two old (H.scene host.new) ending marks) }
    {
        match self.multi.finish(host, which, how) {
            Ok(()) => put_reply(host, which, last_line(how)),
            Err(_) => Err(Ending::FolderFault),
        }
    }

    // Answers a command of a session that has not ended.
    fn answer<H: Host>(
        &mut self,
        alloc: Global,
        host: &mut H,
        marks: &mut Vec<Mark>,
        which: Which,
        request: &Request,
    ) -> Result<(), Ending>
        requires open { is_none (session_of which self.old.multi) ≡ false }
        requires form { IsFormed request.now }
        requires usable { AreUsable H.tells self.old 1 (H.scene host.old) }
        ensures usable { (more : ℕ) → AreUsable H.tells self.old (more + 1) (H.scene host.old) → AreUsable H.tells self.new more (H.scene host.new) }
        ensures others { session_of (other which) self.new.multi ≡ session_of (other which) self.old.multi }
        ensures same { (self.new.one ≡ self.old.one) × (self.new.two ≡ self.old.two) }
        ensures script { (H.scene host.new).script ≡ (H.scene host.old).script }
        ensures keeps { (one two : List ℕ) (old : Scene) → KeepsPair H.tells one two old (H.scene host.old) (sessions_ended self.old.multi) marks.old.items
            → MatchResult result (λ _. KeepsPair H.tells one two old (H.scene host.new) (sessions_ended self.new.multi) marks.new.items)
            (λ ending. EndsPair H.tells one two old (H.scene host.new) ending marks.new.items) }
        ensures told { TellsRun H.tells → (one two : List ℕ) (old : Scene) (transcript : Transcript) (source : Source) (command : Instruction)
            → ToldPair one two old (H.scene host.old) self.old.multi marks.old.items self.old.clean transcript → IsRequest request.now command
            → AsksFor which old.script transcript source command
            → MatchResult result
            (λ _. HasCommand which one two old (H.scene host.new) self.new.multi marks.new.items self.new.clean transcript source command)
            (λ ending. HasRunBoth one two old (H.scene host.new) ending marks.new.items) }
    {
        marks.reserve(1)?;
        match self.multi.step(alloc, host, which, request) {
            MultiStep::Ended => unreachable!(),
            MultiStep::Step(Step::Quit) => self.close(host, which, End::Quit),
            MultiStep::Step(Step::Answer { mark, reply }) => {
                keep(marks, mark);
                self.clean &= is_clean(mark, &reply);
                put_reply(host, which, reply)
            }
        }
    }

    // Answers a line that is no session's, or that of a session that has ended.
    fn refuse<O: Out>(&mut self, host: &mut O, prefix: &[u8], line: &[u8]) -> Result<(), Ending>
        ensures clean { self.new ≡ record self.old { clean = false } }
        ensures puts { WritesTagged O.tells (tagged prefix.now line.now) (IsErr result) (O.scene host.old) (O.scene host.new) }
        ensures out { IfErr result (λ ending. ending ≡ Ending.OutputFault) }
    {
        self.clean = false;
        say(host, prefix, line)
    }

    // Takes a line of a session.
    fn take_own<H: Host>(
        &mut self,
        alloc: Global,
        host: &mut H,
        marks: &mut Vec<Mark>,
        which: Which,
        line: &[u8],
    ) -> Result<(), Ending>
        requires line { text.IsLine line.now }
        requires usable { AreUsable H.tells self.old 1 (H.scene host.old) }
        ensures usable { (more : ℕ) → AreUsable H.tells self.old (more + 1) (H.scene host.old) → AreUsable H.tells self.new more (H.scene host.new) }
        ensures script { (H.scene host.new).script ≡ (H.scene host.old).script }
        ensures keeps { (one two : List ℕ) (old : Scene) → KeepsPair H.tells one two old (H.scene host.old) (sessions_ended self.old.multi) marks.old.items
            → MatchResult result (λ _. KeepsPair H.tells one two old (H.scene host.new) (sessions_ended self.new.multi) marks.new.items)
            (λ ending. EndsPair H.tells one two old (H.scene host.new) ending marks.new.items) }
        ensures told { TellsRun H.tells → (one two : List ℕ) (old : Scene) (transcript : Transcript) (whole own : List ℕ)
            → ArePlaced self.old transcript → ToldPair one two old (H.scene host.old) self.old.multi marks.old.items self.old.clean transcript
            → Comes old.script transcript (Line whole) → tag_of whole ≡ LineOf which own → MeanSame line.now own
            → MatchResult result (λ _. HasNext one two old (H.scene host.new) self.new marks.new.items transcript (Line whole))
            (λ ending. HasRunBoth one two old (H.scene host.new) ending marks.new.items) }
    {
        if self.multi.is_finished(which) {
            return self.refuse(host, prefix_of(which), b"session ended\n");
        }
        match self.feed(alloc, which, line) {
            Some(request) => self.answer(alloc, host, marks, which, &request),
            None => Ok(()),
        }
    }

    // Takes a line of the script, of which these are the bytes that decide.
    fn take_line<H: Host>(
        &mut self,
        alloc: Global,
        host: &mut H,
        marks: &mut Vec<Mark>,
        line: &[u8],
    ) -> Result<(), Ending>
        requires line { text.IsLine line.now }
        requires usable { AreUsable H.tells self.old 1 (H.scene host.old) }
        ensures usable { (more : ℕ) → AreUsable H.tells self.old (more + 1) (H.scene host.old) → AreUsable H.tells self.new more (H.scene host.new) }
        ensures script { (H.scene host.new).script ≡ (H.scene host.old).script }
        ensures keeps { (one two : List ℕ) (old : Scene) → KeepsPair H.tells one two old (H.scene host.old) (sessions_ended self.old.multi) marks.old.items
            → MatchResult result (λ _. KeepsPair H.tells one two old (H.scene host.new) (sessions_ended self.new.multi) marks.new.items)
            (λ ending. EndsPair H.tells one two old (H.scene host.new) ending marks.new.items) }
        ensures told { TellsRun H.tells → (one two : List ℕ) (old : Scene) (transcript : Transcript) (whole : List ℕ) → ArePlaced self.old transcript
            → ToldPair one two old (H.scene host.old) self.old.multi marks.old.items self.old.clean transcript → Comes old.script transcript (Line whole)
            → line.now ≡ take (max_line_bytes + 3) whole
            → MatchResult result (λ _. HasNext one two old (H.scene host.new) self.new marks.new.items transcript (Line whole))
            (λ ending. HasRunBoth one two old (H.scene host.new) ending marks.new.items) }
    {
        match split(line) {
            Some((which, own)) => self.take_own(alloc, host, marks, which, own),
            None => self.refuse(host, b"0:", b"no session\n"),
        }
    }

    // Ends the script of a session, and with it a block that is open.
    fn end_script<H: Host>(
        &mut self,
        alloc: Global,
        host: &mut H,
        marks: &mut Vec<Mark>,
        which: Which,
    ) -> Result<(), Ending>
        requires usable { AreUsable H.tells self.old 1 (H.scene host.old) }
        ensures usable { (more : ℕ) → AreUsable H.tells self.old (more + 1) (H.scene host.old) → AreUsable H.tells self.new more (H.scene host.new) }
        ensures keeps { (one two : List ℕ) (old : Scene) → KeepsPair H.tells one two old (H.scene host.old) (sessions_ended self.old.multi) marks.old.items
            → MatchResult result (λ _. KeepsPair H.tells one two old (H.scene host.new) (sessions_ended self.new.multi) marks.new.items)
            (λ ending. EndsPair H.tells one two old (H.scene host.new) ending marks.new.items) }
        ensures told { TellsRun H.tells → (one two : List ℕ) (old : Scene) (transcript : Transcript) → ArePlaced self.old transcript
            → ToldPair one two old (H.scene host.old) self.old.multi marks.old.items self.old.clean transcript → Comes old.script transcript (ScriptEnd which)
            → MatchResult result (λ _. HasNext one two old (H.scene host.new) self.new marks.new.items transcript (ScriptEnd which))
            (λ ending. HasRunBoth one two old (H.scene host.new) ending marks.new.items) }
    {
        if self.multi.is_finished(which) {
            return Ok(());
        }
        match self.end_block(which) {
            Some(request) => self.answer(alloc, host, marks, which, &request),
            None => Ok(()),
        }
    }

    // Ends a session with the script, where it has not quit.
    fn end_session<H: Host>(&mut self, host: &mut H, which: Which) -> Result<(), Ending>
        requires usable { AreUsable H.tells self.old 0 (H.scene host.old) }
        ensures usable { (more : ℕ) → AreUsable H.tells self.old more (H.scene host.old) → AreUsable H.tells self.new more (H.scene host.new) }
        ensures keeps { (one two : List ℕ) (old : Scene) (marks : List Mark)
            → KeepsPair H.tells one two old (H.scene host.old) (sessions_ended self.old.multi) marks
            → MatchResult result (λ _. KeepsPair H.tells one two old (H.scene host.new) (sessions_ended self.new.multi) marks)
            (λ ending. EndsPair H.tells one two old (H.scene host.new) ending marks) }
        ensures told { TellsRun H.tells → (one two : List ℕ) (old : Scene) (marks : List Mark) (transcript : Transcript) → ArePlaced self.old transcript
            → ToldPair one two old (H.scene host.old) self.old.multi marks self.old.clean transcript → Comes old.script transcript (SessionEnd which)
            → MatchResult result (λ _. HasNext one two old (H.scene host.new) self.new marks transcript (SessionEnd which))
            (λ ending. HasRunBoth one two old (H.scene host.new) ending marks) }
    {
        if self.multi.is_finished(which) {
            return Ok(());
        }
        self.close(host, which, End::Sync)
    }

    // Ends both sessions with the script.
    fn end<H: Host>(
        &mut self,
        alloc: Global,
        host: &mut H,
        marks: &mut Vec<Mark>,
    ) -> Result<(), Ending>
        requires usable { AreUsable H.tells self.old 2 (H.scene host.old) }
        ensures keeps { (one two : List ℕ) (old : Scene) → KeepsPair H.tells one two old (H.scene host.old) (sessions_ended self.old.multi) marks.old.items
            → MatchResult result (λ _. KeepsPair H.tells one two old (H.scene host.new) (sessions_ended self.new.multi) marks.new.items)
            (λ ending. EndsPair H.tells one two old (H.scene host.new) ending marks.new.items) }
        ensures told { TellsRun H.tells → (one two : List ℕ) (old : Scene) (transcript : Transcript) → ArePlaced self.old transcript
            → ToldPair one two old (H.scene host.old) self.old.multi marks.old.items self.old.clean transcript
            → Comes old.script transcript (ScriptEnd Which.One)
            → MatchResult result (λ _. EndedBoth one two old (H.scene host.new) self.new marks.new.items)
            (λ ending. HasRunBoth one two old (H.scene host.new) ending marks.new.items) }
    {
        self.end_script(alloc, host, marks, Which::One)?;
        self.end_script(alloc, host, marks, Which::Two)?;
        self.end_session(host, Which::One)?;
        self.end_session(host, Which::Two)
    }

    fn is_over(&self) -> bool
        ensures { result ≡ (is_none self.now.multi.one && is_none self.now.multi.two) }
    {
        self.multi.is_finished(Which::One) && self.multi.is_finished(Which::Two)
    }

    // Takes the lines of the script, up to its end or until both sessions have quit.
    fn take_lines<H: Host>(
        &mut self,
        host: &mut H,
        alloc: Global,
        marks: &mut Vec<Mark>,
        reader: ScriptReader,
        line: LineBuffer,
    ) -> Result<(), Ending>
        requires fresh { reader ≡ record { bytes = []; taken = 0; ended = false } }
        requires room { line.room ≡ max_line_bytes + 3 }
        requires usable { AreUsable H.tells self.old (script_limit + 2) (H.scene host.old) }
        ensures usable { OnOk result (AreUsable H.tells self.new 2 (H.scene host.new)) }
        ensures keeps { (one two : List ℕ) (old : Scene) → (H.scene host.old).script ≡ old.script
            → KeepsPair H.tells one two old (H.scene host.old) (sessions_ended self.old.multi) marks.old.items
            → MatchResult result (λ _. KeepsPair H.tells one two old (H.scene host.new) (sessions_ended self.new.multi) marks.new.items)
            (λ ending. EndsPair H.tells one two old (H.scene host.new) ending marks.new.items) }
        ensures told { TellsRun H.tells → (one two : List ℕ) (old : Scene) → (H.scene host.old).script ≡ old.script → ArePlaced self.old []
            → ToldPair one two old (H.scene host.old) self.old.multi marks.old.items self.old.clean []
            → MatchResult result (λ _. TookLines one two old (H.scene host.new) self.new marks.new.items)
            (λ ending. HasRunBoth one two old (H.scene host.new) ending marks.new.items) }
    {
        let mut reader = reader;
        let mut line = line;
        'lines: while !self.is_over() && reader.next_line(host, &mut line)? {
            self.take_line(alloc, host, marks, line.bytes())?;
        }
        Ok(())
    }

    // Writes the opening replies of both.
    fn greet<O: Out>(&self, host: &mut O) -> Result<(), Ending>
        requires one { is_none self.now.multi.one ≡ false }
        requires two { is_none self.now.multi.two ≡ false }
        ensures greets { Greets O.tells self.now.multi result (O.scene host.old) (O.scene host.new) }
        ensures out { IfErr result (λ ending. ending ≡ Ending.OutputFault) }
    {
        put_reply(host, Which::One, self.multi.opening(Which::One))?;
        put_reply(host, Which::Two, self.multi.opening(Which::Two))
    }
}

// Answers the script over two sessions that have opened their files.
fn serve_both<H: Host>(
    alloc: Global,
    multi: Multi,
    host: &mut H,
    marks: &mut Vec<Mark>,
) -> Result<Ending, Ending>
    requires marks { marks.old.items ≡ [] }
    requires opened { (one : List ℕ) × (two : List ℕ) × (old : Scene) × BothStandOpen H.tells one two old (H.scene host.old) multi }
    requires clock { IsTrue (H.tells).clock → length (H.scene host.old).answers < 2 ^ 62 }
    requires fits { FitsBoth H.tells multi (H.scene host.old).folder }
    ensures { (one two : List ℕ) (old : Scene) → OpensPair H.tells one two old (H.scene host.old) multi
        → RunsPair H.tells one two old (H.scene host.new) (ending_in result) marks.new.items }
{
    let mut pair = Sessions {
        multi,
        one: CommandFeed::new(),
        two: CommandFeed::new(),
        clean: true,
    };
    let reader = ScriptReader::new(alloc)?;
    let line = LineBuffer::with_prefix(alloc, PREFIX_BYTES)?;
    pair.greet(host)?;
    pair.take_lines(host, alloc, marks, reader, line)?;
    pair.end(alloc, host, marks)?;
    Ok(ending_of(pair.clean))
}

/// Opens the files of two names, and answers the commands of a script whose lines say by `1:` or `2:` which session they are for. What
/// is written for a session has the same before each line. At the script's end the text of each session that has not quit is synced
/// into its swap files, which stay. `Err` is an ending before that. One mark for each command that was answered is kept, in order.
pub fn pair<H: Host>(
    alloc: Global,
    one: &str,
    two: &str,
    host: &mut H,
    marks: &mut Vec<Mark>,
) -> Result<Ending, Ending>
    requires one { IsTrue (is_allowed one.now) }
    requires two { IsTrue (is_allowed two.now) }
    requires apart { clash one.now two.now ≡ false }
    requires marks { marks.old.items ≡ [] }
    requires clock { IsTrue (H.tells).clock → length (H.scene host.old).answers < 2 ^ 62 }
    requires settled { IsTrue (H.tells).folder → (H.scene host.old).folder.pending ≡ [] }
    ensures { RunsPair H.tells one.now two.now (H.scene host.old) (H.scene host.new) (ending_in result) marks.new.items }
{
    let multi = Multi::open(alloc, host, one, two)?;
    serve_both(alloc, multi, host, marks)
}
