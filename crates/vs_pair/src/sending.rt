// Pages leave memory.
ghost use Rattle.std.specs.Prelude.{◌≡◌, ◌≤◌};
ghost use Rattle.vs_pages.specs.declared.memory.MemPages.{MemPages};
ghost use Rattle.vs_pages.specs.Maps.{Map};
ghost use Rattle.vs_pages.specs.Memory.{commits_of, AreBacked};
ghost use Rattle.vs_pair.specs.Held.{HasAll, SameSeen};
ghost use Rattle.vs_pair.specs.Cached.{IsCacheOf, was_away};

use crate::cache::{Cache, MOST_CLEAN};
use vs_pages::{MemPages, Pages};

// Sends one page away, if it was committed as it is. It goes into the cache while there is room for it, else all pages of the cache go. It
// gives for how many more there is room.
fn send_page(pages: &mut MemPages, cache: &mut Cache, at: u64, room: usize) -> usize
    requires { 1 ≤ at }
    ensures same { (away : Map) (first : MemPages) → HasAll away first → SameSeen away first pages.old → SameSeen away first pages.new }
    ensures cached { (away : Map) (first : MemPages) → HasAll away first → SameSeen away first pages.old
        → IsCacheOf (was_away pages.old) away cache.old → IsCacheOf (was_away pages.new) away cache.new }
    ensures commits { commits_of pages.new ≡ commits_of pages.old }
{
    let Some(bytes) = pages.send_away(at) else {
        return room;
    };
    if room == 0 {
        cache.clear();
        return 0;
    }
    cache.put(at, bytes);
    room - 1
}

// Sends all pages away that were committed as they are, but page 0. Over a map that has them they are seen as before. The cache has them
// then, and goes on to have pages that were away before; it has none where more are sent than it takes. The last page goes first, so that
// memory goes back to the system from its end on.
pub(crate) fn send_pages(pages: &mut MemPages, cache: &mut Cache)
    ensures same { (away : Map) → AreBacked away pages.old → HasAll away pages.old → SameSeen away pages.old pages.new }
    ensures cached { (away : Map) → AreBacked away pages.old → HasAll away pages.old
        → IsCacheOf (was_away pages.old) away cache.old → IsCacheOf (was_away pages.new) away cache.new }
    ensures commits { commits_of pages.new ≡ commits_of pages.old }
{
    let mut room = MOST_CLEAN;
    let mut left = pages.committed_end();
    'pages: while 1 < left {
        left -= 1;
        room = send_page(pages, cache, left, room);
    }
}
