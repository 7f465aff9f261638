ghost use Rattle.std.specs.Prelude.{ℕ, ◌≡◌, ◌+◌, ◌≤◌, ◌++◌, ◌^◌, ◌<◌, [], ◌∷◌, IfOk, OnOk, OnErr, reverse, take, drop, vec_len};
ghost use Rattle.std.specs.Vec.{vec_capacity};
ghost use Rattle.vs_text.specs.Text.{IsText, bytes_of};
ghost use Rattle.vs_edit.specs.Splices.{splice, cut_out};
ghost use Rattle.vs_edit.specs.Texts.{AreSound};
ghost use Rattle.vs_edit.specs.Undoing.{undone, IsHeld, LeadsBack};

use crate::{LineStore, StoreErr};
use std::alloc::{AllocError, Global};
use std::marker::Model;
use vs_text::{Line, append_lines};

// What takes one splice back: `lines` go in the place of `count` lines from line `top` on, and the text then has `bytes` bytes.
#[derive(Drop)]
struct Undo {
    top: usize,
    count: usize,
    lines: Vec<Line>,
    bytes: u64,
}

/// A text that is kept as a plain list of lines in memory.
#[derive(Drop)]
pub struct VecStore {
    lines: Vec<Line>,
    bytes: u64,
    // The way back to the text that was committed, the newest splice last.
    undos: Vec<Undo>,
}

impl Model for VecStore {
    ghost use Rattle.vs_edit.specs.Texts.{Texts};

    ghost Value = { Texts };

    ghost use Rattle.std.specs.Prelude.{reverse};
    ghost use Rattle.std.specs.Vec.{vec_capacity};
    ghost use Rattle.vs_edit.specs.Undoing.{undone, LeadsBack};

    ghost view = { λ s. record { present = s.lines.items; committed = undone (reverse s.undos.items) s.lines.items } };

    ghost invariant = { λ s. LeadsBack (vec_capacity s.lines) s.bytes s.lines.items (reverse s.undos.items) };
}

fn copies(alloc: Global, lines: &[Line]) -> Result<Vec<Line>, AllocError>
    ensures copies { IfOk result (λ copies. copies.items ≡ lines.now) }
    ensures text { OnOk result (IsText lines.now) }
{
    let mut copies = Vec::with_capacity(alloc, lines.len())?;
    for line in lines {
        copies.push(line.clone()?)?;
    }
    Ok(copies)
}

fn count_bytes(lines: &[Line]) -> u64
    requires { bytes_of lines.now < 2 ^ 64 }
    ensures { result ≡ bytes_of lines.now }
{
    let mut bytes = 0;
    for line in lines {
        bytes += line.bytes().len() as u64 + 1;
    }
    bytes
}

// How many bytes a text has once these lines have gone and those have come.
fn bytes_after(bytes: u64, gone: &[Line], new: &[Line]) -> u64
    requires had { bytes_of gone.now ≤ bytes }
    requires fits { bytes + bytes_of new.now < 2 ^ 64 + bytes_of gone.now }
    ensures { result + bytes_of gone.now ≡ bytes + bytes_of new.now }
{
    bytes - count_bytes(gone) + count_bytes(new)
}

// Moves lines to the end of another vector, which has the room.
fn move_lines(lines: &mut Vec<Line>, top: usize, count: usize, into: &mut Vec<Line>)
    requires within { top + count ≤ vec_len lines.old }
    requires room { vec_len into.old + count ≤ vec_capacity into.old }
    ensures lines { lines.new.items ≡ take top lines.old.items ++ drop (top + count) lines.old.items }
    ensures into { into.new.items ≡ into.old.items ++ cut_out lines.old.items top count }
    ensures capacity { vec_capacity lines.new ≡ vec_capacity lines.old }
{
    for line in lines.drain(top..top + count) {
        let _ = into.push(line);
    }
}

// Puts lines before line `top` of a vector that has the room.
fn put_lines(lines: &mut Vec<Line>, top: usize, new: &mut Vec<Line>)
    requires within { top ≤ vec_len lines.old }
    requires room { vec_len lines.old + vec_len new.old ≤ vec_capacity lines.old }
    ensures lines { lines.new.items ≡ take top lines.old.items ++ new.old.items ++ drop top lines.old.items }
    ensures capacity { vec_capacity lines.old ≤ vec_capacity lines.new }
{
    let count = new.len();
    let _ = lines.append(new);
    let (_, tail) = lines.split_at_mut(top);
    tail.rotate_right(count);
}

// Puts new lines in the place of others, which go to the end of `gone`. Both vectors have the room.
fn exchange(
    lines: &mut Vec<Line>,
    top: usize,
    old: usize,
    new: &mut Vec<Line>,
    gone: &mut Vec<Line>,
)
    requires within { top + old ≤ vec_len lines.old }
    requires room { vec_len lines.old + vec_len new.old ≤ vec_capacity lines.old + old }
    requires gone_room { vec_len gone.old + old ≤ vec_capacity gone.old }
    ensures lines { lines.new.items ≡ splice lines.old.items top old new.old.items }
    ensures gone { gone.new.items ≡ gone.old.items ++ cut_out lines.old.items top old }
    ensures capacity { vec_capacity lines.old ≤ vec_capacity lines.new }
{
    move_lines(lines, top, old, gone);
    put_lines(lines, top, new);
}

// Puts lines back in the place of others. The vector has the room.
fn put_back(lines: &mut Vec<Line>, top: usize, count: usize, old: &mut Vec<Line>)
    requires within { top + count ≤ vec_len lines.old }
    requires room { vec_len lines.old + vec_len old.old ≤ vec_capacity lines.old + count }
    ensures lines { lines.new.items ≡ splice lines.old.items top count old.old.items }
    ensures capacity { vec_capacity lines.old ≤ vec_capacity lines.new }
{
    drop(lines.drain(top..top + count));
    put_lines(lines, top, old);
}

// Takes every splice back, the newest first.
fn undo_all(lines: &mut Vec<Line>, bytes: &mut u64, undos: &mut Vec<Undo>)
    requires { LeadsBack (vec_capacity lines.old) bytes.old lines.old.items (reverse undos.old.items) }
    ensures lines { lines.new.items ≡ undone (reverse undos.old.items) lines.old.items }
    ensures held { IsHeld (vec_capacity lines.new) bytes.new lines.new.items }
    ensures undos { undos.new.items ≡ [] }
{
    'back: while let Some(
        Undo {
            top,
            count,
            lines: mut old,
            bytes: was,
        },
    ) = undos.pop()
    {
        put_back(lines, top, count, &mut old);
        *bytes = was;
    }
}

// Keeps one more step back, for which there is room.
fn keep_undo(undos: &mut Vec<Undo>, undo: Undo)
    requires { vec_len undos.old < vec_capacity undos.old }
    ensures { undos.new.items ≡ undos.old.items ++ undo ∷ [] }
{
    let _ = undos.push(undo);
}

// Splices the text, where there is memory for it, and keeps what takes the splice back.
fn splice_lines(
    alloc: Global,
    lines: &mut Vec<Line>,
    bytes: &mut u64,
    undos: &mut Vec<Undo>,
    range: (usize, usize),
    new: &[Line],
) -> Result<(), AllocError>
    requires leads { LeadsBack (vec_capacity lines.old) bytes.old lines.old.items (reverse undos.old.items) }
    requires within { range.0 + range.1 ≤ vec_len lines.old }
    requires bytes { bytes_of (splice lines.old.items range.0 range.1 new.now) < 2 ^ 64 }
    ensures ok { OnOk result (lines.new.items ≡ splice lines.old.items range.0 range.1 new.now) }
    ensures text { OnOk result (IsText new.now) }
    ensures undone { undone (reverse undos.new.items) lines.new.items ≡ undone (reverse undos.old.items) lines.old.items }
    ensures leads { LeadsBack (vec_capacity lines.new) bytes.new lines.new.items (reverse undos.new.items) }
    ensures err { OnErr result (lines.new.items ≡ lines.old.items) }
{
    let (top, old) = range;
    let mut fresh = copies(alloc, new)?;
    let mut gone = Vec::with_capacity(alloc, old)?;
    lines.reserve(new.len())?;
    undos.reserve(1)?;
    exchange(lines, top, old, &mut fresh, &mut gone);
    let was = *bytes;
    *bytes = bytes_after(was, &gone, new);
    let undo = Undo {
        top,
        count: new.len(),
        lines: gone,
        bytes: was,
    };
    keep_undo(undos, undo);
    Ok(())
}

impl VecStore {
    /// A store of the text without lines, which is also the committed one.
    pub fn new(alloc: Global) -> Result<VecStore, AllocError>
        ensures empty { IfOk result (λ store. (store.present ≡ []) × (store.committed ≡ [])) }
        ensures sound { IfOk result AreSound }
    {
        let lines = Vec::new(alloc);
        let undos = Vec::new(alloc);
        Ok(VecStore {
            lines,
            bytes: 0,
            undos,
        })
    }
}

impl LineStore for VecStore {
    ghost use Rattle.std.specs.Prelude.{◌≡◌, true, length, refl};
    ghost use Rattle.std.proofs.Common.{ap, subst, sym, ◌∙◌};
    ghost use Rattle.vs_text.specs.Text.{IsText, bytes_of};
    ghost use Rattle.vs_text.specs.Limits.{IsWithinLimits};
    ghost use Rattle.vs_edit.specs.Texts.{IsSound, AreSound, told};

    ghost tells = { true };

    ghost shows = { λ s. record { present = told s.present; committed = told s.committed; faults = 0 } };

    ghost valid = { AreSound };

    ghost stays = { λ _ _. Unit {0} };

    ghost earlier = { λ _. 0 };

    ghost tells_one = { λ s valid told. (s.present, refl) };

    ghost has_told = { λ s text is. refl };

    ghost has_one = { λ s a b is_a is_b. sym is_a ∙ is_b };

    ghost has_lines = { λ s text is. ap length (sym is) };

    ghost has_bytes = { λ s text is. ap bytes_of (sym is) };

    ghost has_text = { λ s text valid is. subst IsText is valid.present.is_text };

    ghost has_within = { λ s text valid is. subst IsWithinLimits is valid.present.within };

    ghost few_lines = { λ s valid. valid.present.within.few_lines };

    ghost few_bytes = { λ s valid. valid.present.within.few_bytes };

    ghost stays_itself = { λ _. tt };

    ghost stays_on = { λ _ _ _ _ _. tt };

    fn len(&self) -> u64 {
        self.lines.len() as u64
    }

    fn bytes(&self) -> u64 {
        self.bytes
    }

    fn line(&mut self, _: Global, at: u64, into: &mut Vec<u8>) -> Result<(), StoreErr> {
        into.clear();
        into.extend_from_slice(self.lines[at as usize].bytes())?;
        Ok(())
    }

    fn copy_lines(
        &mut self,
        _: Global,
        at: u64,
        count: u64,
        into: &mut Vec<u8>,
    ) -> Result<(), StoreErr> {
        into.clear();
        append_lines(&self.lines[at as usize..(at + count) as usize], into)?;
        Ok(())
    }

    fn splice(&mut self, alloc: Global, top: u64, old: u64, new: &[Line]) -> Result<(), StoreErr> {
        let range = (top as usize, old as usize);
        splice_lines(
            alloc,
            &mut self.lines,
            &mut self.bytes,
            &mut self.undos,
            range,
            new,
        )?;
        Ok(())
    }

    fn commit(&mut self) {
        self.undos.clear();
    }

    fn rollback(&mut self) {
        undo_all(&mut self.lines, &mut self.bytes, &mut self.undos);
    }
}
