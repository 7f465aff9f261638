// The top call, and the forms of its arguments.
ghost use Rattle.std.specs.Prelude.{◌≡◌, ◌<◌, ◌^◌, [], List, ℕ, length, map, IsTrue, string_bytes};
ghost use Rattle.vs_host.specs.Names.{is_allowed, names_of_file};
ghost use Rattle.vs_modes.specs.Recover.{RunsRecover};
ghost use Rattle.vs_modes.specs.Info.{RunsInfo};
ghost use Rattle.vs_modes.specs.Discard.{RunsDiscard};
ghost use Rattle.vs_top.specs.Ending.{status_of, ending_in, ended_by, recovered_by};
ghost use Rattle.vs_top.specs.Forms.{Does, EndsBy, IsBuilt, IsForm, Performs};
ghost use Rattle.vs_top.specs.PairPromise.{IsPair, RunsPair};
ghost use Rattle.vs_top.specs.Promise.{RunsEdit, RunsStress};
ghost use Rattle.vs_top.specs.Stress.{IsSceneOf, IsStress};

use crate::edit::edit;
use crate::ending::Ending;
use crate::form::{Form, Mode, form_of, pair_names, stress_count};
use crate::pair::pair;
use crate::stress::stress;
use std::alloc::Global;
use vs_host::Host;
use vs_modes::{ModeErr, Recovery, discard, info, recover};
use vs_session::Mark;

/// What a run came to.
#[derive(Drop)]
pub struct Report {
    pub ending: Ending,
    /// The exit status of the ending.
    pub status: u8,
    /// One mark for each command that was answered, in order.
    pub marks: Vec<Mark>,
    ghost is_status: { status ≡ status_of ending },
}

/// The ending of a run, at the script's end or before it.
fn ending_in(ended: Result<Ending, Ending>) -> Ending
    ensures { result ≡ ending_in ended }
{
    match ended {
        Ok(ending) | Err(ending) => ending,
    }
}

/// The ending of a mode that did its work, or of one that was refused.
fn ended(done: Result<(), ModeErr>) -> Ending
    ensures { result ≡ ended_by done }
{
    match done {
        Ok(()) => Ending::Done,
        Err(why) => Ending::from(why),
    }
}

/// The ending of `recover`.
fn recovered(done: Result<Recovery, ModeErr>) -> Ending
    ensures { result ≡ recovered_by done }
{
    match done {
        Ok(recovery) => Ending::from(recovery),
        Err(why) => Ending::from(why),
    }
}

/// Does what the form says. Only `edit` keeps marks.
fn perform<H: Host>(alloc: Global, form: Form<'_>, host: &mut H, marks: &mut Vec<Mark>) -> Ending
    requires name { IsTrue (is_allowed form.name.now) }
    requires marks { marks.old.items ≡ [] }
    requires clock { IsTrue (H.tells).clock → length (H.scene host.old).answers < 2 ^ 62 }
    requires settled { IsTrue (H.tells).folder → (H.scene host.old).folder.pending ≡ [] }
    ensures { Performs form.entry.mode H.tells form.entry.name.now (H.scene host.old) (H.scene host.new) result marks.new.items }
{
    match form.mode {
        Mode::Edit => ending_in(edit(alloc, form.name, host, marks)),
        Mode::Recover => recovered(recover(alloc, form.name, host)),
        Mode::Info => ended(info(alloc, form.name, host)),
        Mode::Discard => ended(discard(alloc, form.name, host)),
    }
}

/// Does what the arguments say.
fn perform_words<H: Host>(
    alloc: Global,
    words: &[String],
    host: &mut H,
    marks: &mut Vec<Mark>,
) -> Ending
    requires marks { marks.old.items ≡ [] }
    requires clock { IsTrue (H.tells).clock → length (H.scene host.old).answers < 2 ^ 62 }
    requires settled { IsTrue (H.tells).folder → (H.scene host.old).folder.pending ≡ [] }
    ensures { Does (IsSceneOf H.scene) H.tells (map string_bytes words.now) (H.scene host.old) (H.scene host.new) result marks.new.items }
{
    if let Some(count) = stress_count(words) {
        return ending_in(stress(alloc, count, host, marks));
    }
    if let Some((one, two)) = pair_names(words) {
        return ending_in(pair(alloc, one, two, host, marks));
    }
    match form_of(words) {
        Some(form) => perform(alloc, form, host, marks),
        None => Ending::Usage,
    }
}

/// Does what the arguments say: `edit NAME` runs the script of the host over the file of a name, `recover NAME`, `info NAME` and
/// `discard NAME` go to its swap files, `stress N` tries a session with N commands of its own, and `pair NAME NAME` runs one script over
/// two files. With other arguments it ends with `Usage`, takes no memory and makes no call. Where nothing hinders it, it comes to its end: that is a law of each mode
/// ([`edit_through`](crate::edit_through), [`stress_through`](crate::stress_through), [`mode_due`](crate::mode_due)).
pub fn run<H: Host>(alloc: Global, words: &[String], host: &mut H) -> Report
    requires clock { IsTrue (H.tells).clock → length (H.scene host.old).answers < 2 ^ 62 }
    requires settled { IsTrue (H.tells).folder → (H.scene host.old).folder.pending ≡ [] }
    ensures usage { result.ending ≡ Ending.Usage → ¬ IsBuilt (map string_bytes words.now) }
    ensures idle { result.ending ≡ Ending.Usage → (H.scene host.new ≡ H.scene host.old) × (result.marks.items ≡ []) }
    ensures edit { (name : List ℕ) → IsForm (map string_bytes words.now) Mode.Edit name →
        RunsEdit H.tells name (H.scene host.old) (H.scene host.new) result.ending result.marks.items }
    ensures recover { (name : List ℕ) → IsForm (map string_bytes words.now) Mode.Recover name →
        EndsBy recovered_by (RunsRecover H.tells (names_of_file name) (H.scene host.old) (H.scene host.new)) result.ending result.marks.items }
    ensures info { (name : List ℕ) → IsForm (map string_bytes words.now) Mode.Info name →
        EndsBy ended_by (RunsInfo H.tells (names_of_file name) (H.scene host.old) (H.scene host.new)) result.ending result.marks.items }
    ensures discard { (name : List ℕ) → IsForm (map string_bytes words.now) Mode.Discard name →
        EndsBy ended_by (RunsDiscard H.tells (names_of_file name) (H.scene host.old) (H.scene host.new)) result.ending result.marks.items }
    ensures other { ¬ IsBuilt (map string_bytes words.now) → result.ending ≡ Ending.Usage }
    ensures stress { (count : ℕ) → IsStress (map string_bytes words.now) count →
        RunsStress (IsSceneOf H.scene) H.tells count (H.scene host.old) (H.scene host.new) result.ending result.marks.items }
    ensures pair { (one two : List ℕ) → IsPair (map string_bytes words.now) one two →
        RunsPair H.tells one two (H.scene host.old) (H.scene host.new) result.ending result.marks.items }
{
    let mut marks = Vec::new(alloc);
    let ending = perform_words(alloc, words, host, &mut marks);
    Report {
        ending,
        status: ending.status(),
        marks,
    }
}
