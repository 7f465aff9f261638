// Pages of a swap file that were read or written lately.
ghost use Rattle.std.specs.Prelude.{◌≡◌, ◌≢◌, ◌+◌, ◌<◌, ◌≤◌, ◌^◌, ℕ, Bool, Some, IfOk, IfSome, IsTrue, length};
ghost use Rattle.vs_pages.specs.Maps.{Map};
ghost use Rattle.vs_swap.specs.Files.{page_in};
ghost use Rattle.vs_pair.specs.declared.cache.TheConstants.{MOST_READ};

use lru::LruCache;
use std::alloc::{AllocError, Global};
use std::num::NonZeroUsize;
use vs_pages::PAGE_SIZE;

// How many pages it holds at most.
pub const MOST_CLEAN: usize = 1024;

// How many neighbouring pages one call reads at most.
pub const MOST_READ: usize = 16;

const ROOM_SIZE: usize = MOST_READ * PAGE_SIZE;

/// The bytes of a page as a file has them.
#[derive(Drop)]
pub struct Clean {
    pub bytes: Vec<u8>,
    ghost size: { length bytes.items ≡ 4096 },
}

/// Pages of one file. Where memory for a page is refused, it is left out.
#[derive(Drop)]
pub struct Cache {
    pub pages: LruCache<u64, Clean>,
    /// Neighbouring pages are read into it, before copies of them are kept.
    pub room: Vec<u8>,
    ghost room_size: { length room.items ≡ 65536 },
}

impl Cache {
    ghost use Rattle.vs_pair.specs.Cached.{IsCacheOf};

    pub fn new(alloc: Global) -> Result<Cache, AllocError>
        ensures { IfOk result (λ cache. (on : ℕ → Bool) (map : Map) → IsCacheOf on map cache) }
    {
        Ok(Cache {
            pages: LruCache::new(alloc, NonZeroUsize::new(MOST_CLEAN).unwrap())?,
            room: vec![in alloc; 0; ROOM_SIZE]?,
        })
    }

    /// The page of this number, where it is here.
    pub fn page(&self, at: u64) -> Option<&[u8]>
        ensures size { IfSome result (λ bytes. length bytes.now ≡ 4096) }
        ensures page { (on : ℕ → Bool) (map : Map) → IsCacheOf on map self.now → IsTrue (on at)
            → IfSome result (λ bytes. map at ≡ Some bytes.now) }
    {
        Some(&self.pages.peek(&at)?.bytes)
    }

    /// Puts a page in, in place of the one of its number. Where memory is refused, no page of this number is there.
    pub fn put(&mut self, at: u64, bytes: Vec<u8>)
        requires { length bytes.items ≡ 4096 }
        ensures put { (before after : ℕ → Bool) (map : Map) → ((k : ℕ) → IsTrue (after k) → k ≢ at → IsTrue (before k))
            → IsCacheOf before map self.old → map at ≡ Some bytes.items → IsCacheOf after map self.new }
        ensures room { self.new.room ≡ self.old.room }
    {
        let _ = self.pages.put(at, Clean { bytes });
    }

    /// The first page of the room.
    pub fn first(&self) -> &[u8]
        ensures size { length result.now ≡ 4096 }
        ensures page { page_in self.now.room.items 0 ≡ Some result.now }
    {
        &self.room[..PAGE_SIZE]
    }

    // Puts a copy of a page of the room in, or leaves it out where memory is refused.
    fn keep_page(&mut self, alloc: Global, at: u64, i: usize)
        requires { i < MOST_READ }
        ensures kept { (on : ℕ → Bool) (map : Map) → IsCacheOf on map self.old
            → map at ≡ page_in self.old.room.items i → IsCacheOf on map self.new }
        ensures room { self.new.room ≡ self.old.room }
    {
        let from = i * PAGE_SIZE;
        if let Ok(copy) = Vec::from_slice(alloc, &self.room[from..from + PAGE_SIZE]) {
            self.put(at, copy);
        }
    }

    /// Puts copies of the first pages of the room in, as neighbours from `at` on. Each is left out where memory for it is refused.
    pub fn keep(&mut self, alloc: Global, at: u64, pages: usize)
        requires few { pages ≤ MOST_READ }
        requires small { at + pages < 2 ^ 64 }
        ensures kept { (on : ℕ → Bool) (map : Map) → IsCacheOf on map self.old
            → ((i : ℕ) → i < pages → map (at + i) ≡ page_in self.old.room.items i) → IsCacheOf on map self.new }
        ensures room { self.new.room ≡ self.old.room }
    {
        for i in 0..pages {
            self.keep_page(alloc, at + i as u64, i);
        }
    }

    /// Lets all pages go.
    pub fn clear(&mut self)
        ensures { (on : ℕ → Bool) (map : Map) → IsCacheOf on map self.new }
    {
        self.pages.clear();
    }
}
