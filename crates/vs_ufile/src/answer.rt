ghost use Rattle.std.specs.Prelude.{◌≡◌, ◌≤◌, length, map, IfErr, IfOk, MatchResult, None, OnErr, Err};
ghost use Rattle.vs_ufile.specs.declared.fault.Fault.{Fault};
ghost use Rattle.vs_ufile.specs.declared.fault.Stop.TheVariants.{Memory};
ghost use Rattle.vs_ufile.specs.Changes.{placed_of};
ghost use Rattle.vs_ufile.specs.Completing.{NoneIsEarly, NoneIsLate};
ghost use Rattle.vs_ufile.specs.Decode.{Answers, IsChecked, IsUndoFile, OneReading, error_of, first_unknown, history, no_memory, unknown, unknown_among, unknown_in, with_links};
ghost use Rattle.vs_ufile.specs.Form.{file_of};
ghost use Rattle.vs_ufile.specs.Reading.{Gives, file, numbers_of};
ghost use Rattle.vs_ufile.specs.Refusals.{IsFault, SameFormat, Tells, TellsOne};
ghost use Rattle.vs_ufile.specs.Sizes.{least_size};
ghost use Rattle.vs_ufile.specs.Tree.{WalksOnce};
ghost use Rattle.vs_ufile.specs.Values.{History, history_of};

use crate::changes::{Changes, PlacedChange};
use crate::fault::{Fault, Stop};
use crate::form::{Form, form_at};
use crate::history::{FileChange, FileHistory};
use crate::tree::tree_fault;
use crate::{UfErr, UfKind};
use std::alloc::{AllocError, Global};

// The refusal of a link that is neither 0 nor a change's number.
fn unknown(changes: &Changes, left: usize, link: u32) -> Option<Fault>
    ensures { result ≡ unknown (numbers_of (map placed_of changes.now.placed.items)) left link }
{
    if link == 0 || changes.has(link) {
        return None;
    }
    Some(Fault {
        kind: UfKind::UnknownLink,
        left,
        found: link as u64,
    })
}

#[tactic(auto, unfolding(crate::specs::Decode::unknown_in))]
fn unknown_in(changes: &Changes, placed: &PlacedChange) -> Option<Fault>
    ensures { result ≡ unknown_in (numbers_of (map placed_of changes.now.placed.items)) (placed_of placed.now) }
{
    let left = placed.left;
    let next = unknown(changes, left.saturating_sub(2), placed.change.next);
    if next.is_some() {
        return next;
    }
    let prev = unknown(changes, left.saturating_sub(6), placed.change.prev);
    if prev.is_some() {
        return prev;
    }
    let alt_next = unknown(changes, left.saturating_sub(10), placed.change.alt_next);
    if alt_next.is_some() {
        return alt_next;
    }
    unknown(changes, left.saturating_sub(14), placed.change.alt_prev)
}

fn unknown_among(changes: &Changes) -> Option<Fault>
    ensures { result ≡ unknown_among (numbers_of (map placed_of changes.now.placed.items)) (map placed_of changes.now.placed.items) }
{
    'changes: for placed in &changes.placed {
        let found = unknown_in(changes, placed);
        if found.is_some() {
            return found;
        }
    }
    None
}

#[tactic(auto, unfolding(crate::specs::Decode::first_unknown))]
fn first_unknown(form: &Form) -> Option<Fault>
    ensures { result ≡ first_unknown (file_of form.now) }
{
    let changes = &form.changes;
    let left = form.heads_left;
    let oldest = unknown(changes, left, form.numbers.oldest);
    if oldest.is_some() {
        return oldest;
    }
    let newest = unknown(changes, left.saturating_sub(4), form.numbers.newest);
    if newest.is_some() {
        return newest;
    }
    let head = unknown(changes, left.saturating_sub(8), form.numbers.current_head);
    if head.is_some() {
        return head;
    }
    unknown_among(changes)
}

fn linked(alloc: Global, bytes: &[u8]) -> Result<Form, Stop>
    ensures { Gives file_of result (with_links (file bytes.now)) }
{
    let (form, _rest) = form_at(alloc, bytes)?;
    match first_unknown(&form) {
        Some(fault) => Err(Stop::At(fault)),
        None => Ok(form),
    }
}

fn without_places(alloc: Global, placed: Vec<PlacedChange>) -> Result<Vec<FileChange>, AllocError>
    ensures { IfOk result (λ v. v.items ≡ map (λ p. p.change) placed.items) }
{
    placed.into_iter().map(|p| p.change).collect(alloc)
}

fn into_history(alloc: Global, form: Form) -> Result<FileHistory, Stop>
    ensures ok { IfOk result (λ h. history_of h ≡ history (file_of form)) }
    ensures memory { OnErr result (result ≡ Err Memory) }
{
    let Form {
        heads_left: _,
        front,
        numbers,
        time,
        last_save,
        changes,
    } = form;
    let Changes { placed, index: _ } = changes;
    let digest = front.digest;
    let changes = without_places(alloc, placed)?;
    Ok(FileHistory {
        digest,
        lines: front.lines,
        oldest: numbers.oldest,
        newest: numbers.newest,
        current_head: numbers.current_head,
        heads: numbers.heads,
        last: numbers.last,
        current: numbers.current,
        time,
        last_save,
        changes,
    })
}

pub(crate) fn error_of(size: usize, stop: Stop) -> UfErr
    ensures { result ≡ error_of size stop }
{
    match stop {
        Stop::Memory => UfErr {
            kind: UfKind::NoMemory,
            at: 0,
            found: 0,
        },
        Stop::At(fault) => UfErr {
            kind: fault.kind,
            at: size.saturating_sub(fault.left) as u64,
            found: fault.found,
        },
    }
}

// The file, whose links are known and whose changes make a tree.
fn checked(alloc: Global, bytes: &[u8]) -> Result<Form, Stop>
    ensures { IsChecked bytes.now result }
{
    let form = linked(alloc, bytes)?;
    let changes = &form.changes;
    match tree_fault(alloc, changes)? {
        Some(fault) => Err(Stop::At(fault)),
        None => Ok(form),
    }
}

fn answer(alloc: Global, bytes: &[u8]) -> Result<FileHistory, UfErr>
    ensures { Answers bytes.now result }
{
    match checked(alloc, bytes) {
        Err(stop) => Err(error_of(bytes.len(), stop)),
        Ok(form) => match into_history(alloc, form) {
            Err(stop) => Err(error_of(bytes.len(), stop)),
            Ok(history) => Ok(history),
        },
    }
}

/// Bytes are those of one history at most, whatever follows them.
pub fn one_reading()
    ensures { OneReading }
{}

/// The parts by which bytes are refused are the rows by which they are read.
pub fn same_format()
    ensures { SameFormat }
{}

/// What stands in front of a refusal of form is the beginning of an undo file, so that none comes later than it could.
pub fn none_is_late()
    ensures { NoneIsLate }
{}

/// What is refused for its form stands in no undo file that begins like the bytes in front, so that no refusal comes sooner than it has to.
pub fn none_is_early()
    ensures { NoneIsEarly }
{}

/// Reads an undo file of version 2 (docs/FORMATS.md, "Undo file"). Bytes after its end are ignored.
///
/// The first place in reading order where the bytes differ from the form of the file is refused. Then, over the whole
/// file, the first link or head that leads to no change; and then the least number of a change that has no place in a
/// tree. The error has the kind, the place of the part in bytes from 0, and the value found there. Over n bytes it
/// takes n log n steps and memory for at most a few times n bytes, whatever the bytes are.
pub fn decode(alloc: Global, bytes: &[u8]) -> Result<FileHistory, UfErr>
    // The history that the bytes have, or exactly the refusal of the first fault.
    ensures exact { Answers bytes.now result }
    // What is read is what the bytes stand for.
    ensures found { IfOk result (λ h. IsUndoFile (history_of h) bytes.now) }
    // Its changes, entries and lines are no more than the bytes have room for.
    ensures bounded { IfOk result (λ h. least_size (history_of h) ≤ length bytes.now) }
    // No walk along its links comes by a change twice.
    ensures walks { IfOk result (λ h. WalksOnce (history_of h).changes) }
    // What is refused has a fault, by the parts of the format, and the error tells it.
    ensures refused { IfErr result (λ e. TellsOne bytes.now e) }
    // What has a fault is refused with it and no other.
    ensures faulty { (fault : Fault) → IsFault bytes.now fault → MatchResult result (λ h. ⊥) (λ e. Tells bytes.now fault e) }
    // An undo file is read, unless memory runs out.
    ensures only { (h : History) → IsUndoFile h bytes.now → MatchResult result (λ again. history_of again ≡ h) (λ e. e ≡ no_memory) }
{
    answer(alloc, bytes)
}
