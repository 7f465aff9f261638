// Two sessions in one folder.
ghost use Rattle.std.specs.Prelude.{◌≡◌, ◌↔◌, ◌<◌, ◌^◌, None, false, IfSome, IsTrue, is_none, is_ok, length};
ghost use Rattle.std.proofs.Props.{props};
ghost use Rattle.vs_excmd.specs.Request.{IsFormed};
ghost use Rattle.vs_family.specs.Family.{clash};
ghost use Rattle.vs_session.specs.Calls.{Finishes};
ghost use Rattle.vs_session.specs.Fits.{FitsUndo, generation_of};
ghost use Rattle.vs_multi.specs.Sessions.{FitsWhere, file_name_of};
ghost use Rattle.vs_multi.specs.Steps.{AnswersWhere};

use std::alloc::Global;
use vs_excmd::Request;
use vs_family::Which;
use vs_host::{Failed, Host};
use vs_machine::Reply;
use vs_session::{End, Session, Step};

/// The sessions on two files of one folder whose families share no name. Each ends by itself; one that was finished is no longer here.
pub struct Multi {
    pub(crate) one: Option<Session>,
    pub(crate) two: Option<Session>,
    ghost apart: { IfSome one (λ first. IfSome two (λ second. clash (file_name_of first) (file_name_of second) ≡ false)) } by { Prim.hlevel props },
}

// A value with much in it is dropped by a call.
impl Drop for Multi {
    fn drop(self) {
        let Multi { one: _, two: _ } = self;
    }
}

/// The answer to one command of one of two sessions.
#[derive(Drop)]
pub enum MultiStep {
    /// The session was finished before.
    Ended,
    /// What the session answers.
    Step(Step),
}

// The answer of a session that may have been finished.
fn step_where<H: Host>(
    alloc: Global,
    host: &mut H,
    session: &mut Option<Session>,
    request: &Request,
) -> MultiStep
    requires form { IsFormed request.now }
    requires clock { IsTrue (H.tells).clock → length (H.scene host.old).answers < 2 ^ 63 }
    requires room { IfSome session.old (λ session. generation_of session < 2 ^ 63) }
    requires undo { IfSome session.old FitsUndo }
    requires fits { FitsWhere H.tells session.old (H.scene host.old).folder }
    ensures ended { result ≡ MultiStep.Ended ↔ session.old ≡ None }
    ensures step { AnswersWhere H.tells request.now result session.old session.new (H.scene host.old) (H.scene host.new) }
{
    match session {
        Some(session) => MultiStep::Step(session.step(alloc, host, request)),
        None => MultiStep::Ended,
    }
}

// Ends a session that was not finished.
fn finish_taken<H: Host>(session: Option<Session>, host: &mut H, how: End) -> Result<(), Failed>
    requires there { is_none session ≡ false }
    requires room { IfSome session (λ session. generation_of session < 2 ^ 63) }
    requires fits { FitsWhere H.tells session (H.scene host.old).folder }
    ensures finishes { IfSome session (λ session. Finishes H.tells session (H.scene host.old) (H.scene host.new) how (is_ok result)) }
{
    match session {
        Some(session) => session.finish(host, how),
        None => unreachable!(),
    }
}

impl Multi {
    ghost use Rattle.std.specs.Prelude.{string_bytes};
    ghost use Rattle.vs_machine.specs.Replies.{opening_of};
    ghost use Rattle.vs_multi.specs.Sessions.{Stays};
    ghost use Rattle.vs_multi.specs.Multi.{FitsBoth, other, session_of};

    /// Whether a session was finished.
    pub fn is_finished(&self, which: Which) -> bool
        ensures { result ≡ is_none (session_of which self.now) }
    {
        match which {
            Which::One => self.one.is_none(),
            Which::Two => self.two.is_none(),
        }
    }

    /// The first reply of a session: the name and size of its file, or that it is new.
    pub fn opening(&self, which: Which) -> Reply
        requires { is_none (session_of which self.now) ≡ false }
        ensures { IfSome (session_of which self.now) (λ session. result ≡ opening_of (string_bytes session.name) session.found) }
    {
        let session = match which {
            Which::One => &self.one,
            Which::Two => &self.two,
        };
        match session {
            Some(session) => session.opening(),
            None => unreachable!(),
        }
    }

    /// A session answers one command, and the other one stays as it is.
    pub fn step<H: Host>(
        &mut self,
        alloc: Global,
        host: &mut H,
        which: Which,
        request: &Request,
    ) -> MultiStep
        requires form { IsFormed request.now }
        requires clock { IsTrue (H.tells).clock → length (H.scene host.old).answers < 2 ^ 63 }
        requires room { IfSome (session_of which self.old) (λ session. generation_of session < 2 ^ 63) }
        requires undo { IfSome (session_of which self.old) FitsUndo }
        requires fits { FitsBoth H.tells self.old (H.scene host.old).folder }
        ensures ended { result ≡ MultiStep.Ended ↔ session_of which self.old ≡ None }
        ensures step { AnswersWhere H.tells request.now result (session_of which self.old) (session_of which self.new)
            (H.scene host.old) (H.scene host.new) }
        ensures other { session_of (other which) self.new ≡ session_of (other which) self.old }
        ensures stays { Stays H.tells (session_of (other which) self.old) (H.scene host.old) (H.scene host.new) }
        ensures fits { FitsBoth H.tells self.new (H.scene host.new).folder }
    {
        match which {
            Which::One => step_where(alloc, host, &mut self.one, request),
            Which::Two => step_where(alloc, host, &mut self.two, request),
        }
    }

    /// Ends a session as `how` says, and the other one stays as it is. After an error the swap files that are left stay, and the session
    /// is gone all the same. It takes no memory.
    pub fn finish<H: Host>(&mut self, host: &mut H, which: Which, how: End) -> Result<(), Failed>
        requires there { is_none (session_of which self.old) ≡ false }
        requires room { IfSome (session_of which self.old) (λ session. generation_of session < 2 ^ 63) }
        requires fits { FitsBoth H.tells self.old (H.scene host.old).folder }
        ensures finishes { IfSome (session_of which self.old) (λ session. Finishes H.tells session (H.scene host.old) (H.scene host.new) how (is_ok result)) }
        ensures gone { session_of which self.new ≡ None }
        ensures other { session_of (other which) self.new ≡ session_of (other which) self.old }
        ensures stays { Stays H.tells (session_of (other which) self.old) (H.scene host.old) (H.scene host.new) }
        ensures fits { FitsBoth H.tells self.new (H.scene host.new).folder }
    {
        match which {
            Which::One => finish_taken(self.one.take(), host, how),
            Which::Two => finish_taken(self.two.take(), host, how),
        }
    }
}
