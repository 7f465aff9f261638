// Commands that put a block into the text, and deletions.
ghost use Rattle.std.specs.Prelude.{◌≡◌, ◌≤◌, ◌+◌, ℕ, List, IfOk, IfErr, IsErrOf, Ok, length};
ghost use Rattle.vs_text.specs.declared.TheConstants.{MAX_LINES};
ghost use Rattle.vs_excmd.specs.Answer.{IsLate, Leads, LiesIn, effect_of};
ghost use Rattle.vs_excmd.specs.Change.{deleted, exchanged};
ghost use Rattle.vs_excmd.specs.Request.{StandsFor};

use crate::{Block, Plan, PlanErr};
use std::alloc::{AllocError, Global};
use vs_exparse::ExErr;
use vs_text::Line;

fn copies(alloc: Global, lines: &[Line]) -> Result<Vec<Line>, AllocError>
    ensures { IfOk result (λ copies. copies.items ≡ lines.now) }
{
    let mut copies = Vec::with_capacity(alloc, lines.len())?;
    for line in lines {
        copies.push(line.clone()?)?;
    }
    Ok(copies)
}

/// Takes `old` lines from line `top` on out of a text with this number of lines.
pub(crate) fn deletion(alloc: Global, lines: u64, top: u64, old: u64) -> Plan
    requires within { top + old ≤ lines }
    requires few { lines ≤ MAX_LINES }
    ensures value { effect_of result ≡ deleted lines top old }
    ensures lies { LiesIn lines result }
{
    if old == 0 {
        return Plan::NoChange;
    }
    Plan::Splice {
        top,
        old,
        new: Vec::new(alloc),
        cursor: (top + 1).min(lines - old),
    }
}

/// Puts a block in the place of `old` lines from line `top` on, in a text with this number of lines.
pub(crate) fn put_block(
    alloc: Global,
    block: &Block,
    lines: u64,
    top: u64,
    old: u64,
) -> Result<Plan, PlanErr>
    requires within { top + old ≤ lines }
    requires few { lines ≤ MAX_LINES }
    ensures leads { (text kept : List (List ℕ)) → length text ≡ lines → StandsFor block.now kept →
        Leads text (Ok (exchanged lines top old kept)) result }
    ensures lies { IfOk result (λ plan. LiesIn lines plan) }
    ensures late { IfErr result IsLate }
    ensures never_failed { ¬ IsErrOf result PlanErr.Failed }
{
    match block {
        Block::Absent => Ok(deletion(alloc, lines, top, old)),
        Block::Lines(kept) => {
            if kept.is_empty() {
                return Ok(deletion(alloc, lines, top, old));
            }
            let new = copies(alloc, kept)?;
            let cursor = top.saturating_add(new.len() as u64);
            Ok(Plan::Splice {
                top,
                old,
                new,
                cursor,
            })
        }
        Block::TooLong => Err(PlanErr::Ex(ExErr::LineTooLong)),
        Block::TooMany => Err(PlanErr::Ex(ExErr::TextFull)),
        Block::NoMemory => Err(PlanErr::NoMemory),
    }
}
