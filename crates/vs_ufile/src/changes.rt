// The changes of an undo file.

ghost use Rattle.std.specs.Prelude.{◌≡◌, ◌++◌, ◌∷◌, [], map, IfOk, IfSome, OnErr, None, Err};
ghost use Rattle.std.specs.Option.{is_some, option_map};
ghost use Rattle.vs_ufile.specs.Changes.{IsIndex, place_of, placed_of};
ghost use Rattle.vs_ufile.specs.Reading.{Gives, change, change_number_kind, change_or_end, changes, checked, index_of, numbers_of};
ghost use Rattle.vs_ufile.specs.declared.fault.Stop.TheVariants.{Memory};

use crate::UfKind;
use crate::fault::{Fault, Stop};
use crate::fields::{magic, refusal, u32_at};
use crate::history::FileChange;
use crate::reading::{body_at, links_at};
use std::alloc::Global;
use std::collections::BTreeMap;

/// A change, and how many bytes are left from its magic on.
#[derive(Drop)]
pub struct PlacedChange {
    pub left: usize,
    pub change: FileChange,
}

/// Changes with an index of their numbers: the place of each, counted from 1.
#[derive(Drop)]
pub struct Changes {
    pub placed: Vec<PlacedChange>,
    pub index: BTreeMap<u32, usize>,
    ghost indexed: { IsIndex index (numbers_of (map placed_of placed.items)) },
}

impl Changes {
    fn new(alloc: Global) -> Changes
        ensures { result.placed.items ≡ [] }
    {
        Changes {
            placed: Vec::new(alloc),
            index: BTreeMap::new(alloc),
        }
    }

    // The changes with one more, whose number is none of theirs.
    fn with(self, change: PlacedChange) -> Result<Changes, Stop>
        requires { index_of change.change.number (numbers_of (map placed_of self.placed.items)) ≡ None }
        ensures added { IfOk result (λ all. map placed_of all.placed.items ≡ map placed_of self.placed.items ++ placed_of change ∷ []) }
        ensures memory { OnErr result (result ≡ Err Memory) }
    {
        let Changes {
            mut placed,
            mut index,
        } = self;
        let number = change.change.number;
        placed.push(change)?;
        index.insert(number, placed.len())?;
        Ok(Changes { placed, index })
    }

    // The place of the change with this number, counted from 1, or 0 where none has it.
    pub fn place_of(&self, number: u32) -> usize
        ensures { result ≡ place_of (numbers_of (map placed_of self.now.placed.items)) number }
    {
        match self.index.get(&number) {
            Some(place) => *place,
            None => 0,
        }
    }

    pub fn has(&self, number: u32) -> bool
        ensures { result ≡ is_some (index_of number (numbers_of (map placed_of self.now.placed.items))) }
    {
        self.index.contains_key(&number)
    }
}

// The number of a change, which comes after these changes.
fn change_number<'a>(bytes: &'a [u8], before: &Changes) -> Result<(u32, &'a [u8]), Stop>
    ensures gives { Gives (λ x. (x.0, x.1.now)) result (checked 4 (change_number_kind (numbers_of (map placed_of before.now.placed.items))) bytes.now) }
    ensures new { IfOk result (λ x. index_of x.0 (numbers_of (map placed_of before.now.placed.items)) ≡ None) }
{
    let (number, rest) = u32_at(bytes)?;
    if number == 0 {
        return Err(refusal(bytes, UfKind::NumberZero, 0));
    }
    if number > 2_147_483_647 {
        return Err(refusal(bytes, UfKind::NumberZero, number as u64));
    }
    if before.has(number) {
        return Err(refusal(bytes, UfKind::DoubleNumber, number as u64));
    }
    Ok((number, rest))
}

// A change after its magic, whose place is `left`, and after these changes.
#[tactic(auto, unfolding(crate::specs::Reading::change))]
fn change<'a>(
    alloc: Global,
    bytes: &'a [u8],
    heads: u32,
    before: &Changes,
    left: usize,
) -> Result<(PlacedChange, &'a [u8]), Stop>
    ensures gives { Gives (λ x. (placed_of x.0, x.1.now)) result (change heads (map placed_of before.now.placed.items) left bytes.now) }
    ensures new { IfOk result (λ x. index_of x.0.change.number (numbers_of (map placed_of before.now.placed.items)) ≡ None) }
{
    if before.placed.len() == heads as usize {
        return Err(Stop::At(Fault {
            kind: UfKind::TooManyHeads,
            left,
            found: heads as u64,
        }));
    }
    let (links, rest) = links_at(bytes)?;
    let (number, rest) = change_number(rest, before)?;
    let (body, rest) = body_at(alloc, rest)?;
    let change = FileChange {
        number,
        next: links.next,
        prev: links.prev,
        alt_next: links.alt_next,
        alt_prev: links.alt_prev,
        empty: body.empty,
        time: body.time,
        save: body.save,
        entries: body.entries,
    };
    Ok((PlacedChange { left, change }, rest))
}

// One change more, or the magic that ends the file.
#[tactic(auto, unfolding(crate::specs::Reading::change_or_end))]
fn change_or_end<'a>(
    alloc: Global,
    bytes: &'a [u8],
    heads: u32,
    before: &Changes,
) -> Result<(Option<PlacedChange>, &'a [u8]), Stop>
    ensures gives { Gives (λ x. (option_map placed_of x.0, x.1.now)) result (change_or_end heads (map placed_of before.now.placed.items) bytes.now) }
    ensures new { IfOk result (λ x. IfSome x.0 (λ found. index_of found.change.number (numbers_of (map placed_of before.now.placed.items)) ≡ None)) }
{
    let (magic, rest) = magic(bytes, 0x5fd0, 0xe7aa)?;
    if magic == 0xe7aa {
        return Ok((None, rest));
    }
    let (placed, rest) = change(alloc, rest, heads, before, bytes.len())?;
    Ok((Some(placed), rest))
}

pub fn changes_at(alloc: Global, bytes: &[u8], heads: u32) -> Result<(Changes, &[u8]), Stop>
    ensures { Gives (λ x. (map placed_of x.0.placed.items, x.1.now)) result (changes heads bytes.now) }
{
    let mut all = Changes::new(alloc);
    let mut rest = bytes;
    'changes: for _ in 0..bytes.len() + 1 {
        let (found, after) = change_or_end(alloc, rest, heads, &all)?;
        match found {
            None => return Ok((all, after)),
            Some(change) => all = all.with(change)?,
        }
        rest = after;
    }
    Err(refusal(rest, UfKind::Truncated, 0))
}
