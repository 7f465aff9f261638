// One page.
ghost use Rattle.std.specs.Prelude.{◌≡◌, ◌+◌, ◌≤◌, false, Some, None, IfOk, IfSome, length, option_map};
ghost use Rattle.vs_bytes.specs.Fields.{with_field};
ghost use Rattle.vs_pages.specs.Cells.{Kept, is_away, shown};
ghost use Rattle.vs_pages.specs.Maps.{zeros};
ghost use Rattle.vs_pages.specs.Table.{IsPlace, cell_of};

use crate::buffer::Buffer;
use crate::{PAGE_SIZE, Presence};
use std::alloc::{AllocError, Global};

const ZEROS: [u8; PAGE_SIZE] = [0; PAGE_SIZE];

#[derive(Drop)]
pub enum Page {
    // A page of zeros that was not written, which takes no memory.
    Zeros,
    // A page whose bytes are not in memory.
    Away,
    Written(Buffer),
}

impl Page {
    // The bytes of a page, unless it is away.
    pub fn bytes(&self) -> Option<&[u8]>
        ensures size { IfSome result (λ bytes. length bytes.now ≡ 4096) }
        ensures page { option_map (λ bytes. bytes.now) result ≡ shown None (cell_of (Some self.now)) }
    {
        match self {
            Page::Zeros => Some(&ZEROS),
            Page::Away => None,
            Page::Written(buffer) => Some(&buffer.bytes),
        }
    }
}

// A page of zeros with bytes over those from byte `from` on.
pub fn patched_zeros(alloc: Global, from: usize, bytes: &[u8]) -> Result<Page, AllocError>
    requires { from + length bytes.now ≤ 4096 }
    ensures { IfOk result (λ page. cell_of (Some page) ≡ Some (Kept (with_field (zeros 1) from bytes.now))) }
{
    let mut buffer = Buffer::of(alloc, &ZEROS)?;
    buffer.patch(from, bytes);
    Ok(Page::Written(buffer))
}

// Copies the page of a place, unless it is away, and says whether there is one.
pub fn copy_place(place: &Option<Page>, into: &mut [u8]) -> Presence
    requires { length into.old ≡ 4096 }
    ensures size { length into.new ≡ 4096 }
    ensures page { IsPlace result into.new (cell_of place.now) }
{
    match place {
        Some(page) => match page.bytes() {
            Some(bytes) => {
                into.copy_from_slice(bytes);
                Presence::Here
            }
            None => Presence::Away,
        },
        None => Presence::Missing,
    }
}
