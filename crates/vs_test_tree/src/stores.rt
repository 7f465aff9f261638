// Stores of pages beside a plain map, and what each of them promises.
ghost use Rattle.std.specs.Prelude.{◌≡◌, ◌*◌, ◌^◌, ◌≤◌, IfOk, OnOk, IsErrOf, IsSome, IsTrue, length};
ghost use Rattle.vs_pages.specs.Calls.{Continues, StopsAtFault};
ghost use Rattle.vs_pages.specs.Maps.{pages_at, put_pages};

use std::alloc::{AllocError, Global};
use std::collections::BTreeMap;
use std::process::Abort;
use std::test::Fail;
use vs_pages::failing::FailingPages;
use vs_pages::{LentPages, MemPages, PAGE_SIZE, PageErr, Pages};

// So many pages, the first filled with this byte and each further one with the next byte.
fn filled(alloc: Global, pages: u32, first: u8) -> Result<Vec<u8>, AllocError>
    ensures { IfOk result (λ bytes. length bytes.items ≡ 4096 * pages) }
{
    let mut bytes = Vec::new(alloc);
    let mut byte = first;
    for i in 0..pages as usize {
        bytes.resize((i + 1) * PAGE_SIZE, byte)?;
        byte = byte.wrapping_add(1);
    }
    Ok(bytes)
}

// The last byte of a page, if it is there.
fn byte_at(store: &mut MemPages, alloc: Global, at: u64) -> Result<Option<u8>, PageErr> {
    if !store.has(at, 1) {
        return Ok(None);
    }
    let mut page = Vec::new(alloc);
    store.load(alloc, at, 1, &mut page)?;
    Ok(page.last().copied())
}

// A store and a plain map beside it, in which a byte stands for the page that is filled with it.
#[derive(Drop)]
struct Twins {
    alloc: Global,
    store: MemPages,
    map: BTreeMap<u64, u8>,
    committed: BTreeMap<u64, u8>,
}

impl Twins {
    fn new(alloc: Global) -> Result<Twins, Fail> {
        let mut map = BTreeMap::new(alloc);
        for at in 0..3 {
            map.insert(at, 0)?;
        }
        let committed = map.clone()?;
        let store = MemPages::new(alloc)?;
        Ok(Twins {
            alloc,
            store,
            map,
            committed,
        })
    }

    // Puts pages into the map, and says how many of them were new.
    fn put(&mut self, at: u64, pages: u32, first: u8) -> Result<usize, Fail>
        requires { at ≤ 2 ^ 40 }
    {
        let before = self.map.len();
        let mut byte = first;
        for i in 0..pages as u64 {
            self.map.insert(at + i, byte)?;
            byte = byte.wrapping_add(1);
        }
        Ok(self.map.len().saturating_sub(before))
    }

    fn touch(&mut self, rt: &impl Abort, at: u64, pages: u32, first: u8) -> Result<(), Fail>
        requires { at ≤ 2 ^ 40 }
    {
        if self.store.has(at, pages) {
            let bytes = filled(self.alloc, pages, first)?;
            self.store.touch(self.alloc, at, pages, &bytes)?;
            assert!(rt; self.put(at, pages, first)? == 0);
        }
        Ok(())
    }

    fn grow(&mut self, rt: &impl Abort, pages: u32) -> Result<(), Fail> {
        let at = self.store.grow(self.alloc, pages)?;
        for i in 0..pages as u64 {
            assert!(rt; self.put(at + i, 1, 0)? == 1);
        }
        Ok(())
    }

    fn free(&mut self, at: u64, pages: u32) -> Result<(), Fail>
        requires { at ≤ 2 ^ 40 }
    {
        if self.store.has(at, pages) {
            self.store.free(self.alloc, at, pages)?;
            for i in 0..pages as u64 {
                self.map.remove(&(at + i));
            }
        }
        Ok(())
    }

    fn commit(&mut self) -> Result<(), AllocError> {
        self.store.commit();
        self.committed = self.map.clone()?;
        Ok(())
    }

    fn rollback(&mut self) -> Result<(), AllocError> {
        self.store.rollback();
        self.map = self.committed.clone()?;
        Ok(())
    }

    fn check(&mut self, rt: &impl Abort, at: u64) -> Result<(), Fail> {
        assert!(rt; self.store.count() == self.map.len() as u64);
        let byte = byte_at(&mut self.store, self.alloc, at)?;
        assert!(rt; byte == self.map.get(&at).copied(), "page {at}");
        Ok(())
    }
}

#[test]
fn follows_a_plain_map(rt: HostRuntime) -> Result<(), Fail> {
    let mut twins = Twins::new(rt.alloc())?;
    // A generator whose course is always the same.
    let mut seed = 1u64;
    for _ in 0..300 {
        seed ^= seed << 13;
        seed ^= seed >> 7;
        seed ^= seed << 17;
        let at = seed % 20;
        let pages = 1 + (seed >> 8 & 3) as u32 % 3;
        match seed >> 16 & 31 {
            0..12 => twins.touch(&rt, at, pages, (seed >> 32 & 255) as u8)?,
            12..21 => twins.grow(&rt, pages)?,
            21..29 => twins.free(at, pages)?,
            29 | 30 => twins.commit()?,
            _ => twins.rollback()?,
        }
        twins.check(&rt, at)?;
    }
    for at in 0..40 {
        twins.check(&rt, at)?;
    }
    Ok(())
}

// Frees pages and gives the first number of the run that the next growth takes.
fn free_and_grow(store: &mut MemPages, alloc: Global, at: u64, pages: u32) -> Result<u64, PageErr> {
    if store.has(at, pages) {
        store.free(alloc, at, pages)?;
    }
    store.grow(alloc, pages)
}

// What growth gives at first, after it was rolled back, after a run was freed, and after that was rolled back.
fn growths(store: &mut MemPages, alloc: Global, pages: u32) -> Result<[u64; 4], PageErr> {
    let first = store.grow(alloc, pages)?;
    store.rollback();
    let second = store.grow(alloc, pages)?;
    store.commit();
    let third = free_and_grow(store, alloc, second, pages)?;
    store.rollback();
    let fourth = free_and_grow(store, alloc, third, pages)?;
    store.commit();
    Ok([first, second, third, fourth])
}

// Numbers that were freed, or whose growth was rolled back, are given again.
#[test]
fn gives_numbers_again(rt: HostRuntime) -> Result<(), Fail> {
    let alloc = rt.alloc();
    let mut store = MemPages::new(alloc)?;
    for (first, pages) in [(3, 1), (4, 2), (6, 5)] {
        assert!(rt; growths(&mut store, alloc, pages)? == [first; 4]);
    }
    assert!(rt; store.count() == 11);
    Ok(())
}

// Growth begins at the number after the last page at most, whatever was freed there.
#[test]
fn leaves_no_gap(rt: HostRuntime) -> Result<(), Fail> {
    let alloc = rt.alloc();
    let mut store = MemPages::new(alloc)?;
    store.grow(alloc, 6)?;
    for at in [4, 7, 8] {
        if store.has(at, 1) {
            store.free(alloc, at, 1)?;
        }
    }
    let runs = [
        store.grow(alloc, 2)?,
        store.grow(alloc, 1)?,
        store.grow(alloc, 1)?,
    ];
    assert!(rt; runs == [7, 4, 9]);
    assert!(rt; store.count() == 10);
    Ok(())
}

/// Fills a page with a byte, if it is there.
pub(crate) fn fill_page(
    store: &mut MemPages,
    alloc: Global,
    at: u64,
    byte: u8,
) -> Result<(), PageErr> {
    if store.has(at, 1) {
        let bytes = filled(alloc, 1, byte)?;
        store.touch(alloc, at, 1, &bytes)?;
    }
    Ok(())
}

/// The last three bytes of a page that is lent.
pub(crate) fn lent_end(store: &MemPages, at: u64) -> Option<[u8; 3]> {
    let page = store.page(at)?;
    Some([page[4093], page[4094], page[4095]])
}

#[test]
fn lends_what_was_written_over(rt: HostRuntime) -> Result<(), Fail> {
    let alloc = rt.alloc();
    let mut store = MemPages::new(alloc)?;
    if store.page(2).is_some() {
        store.patch(alloc, 2, 4094, &[7, 8])?;
    }
    assert!(rt; lent_end(&store, 2) == Some([0, 7, 8]));
    assert!(rt; lent_end(&store, 1) == Some([0, 0, 0]));
    assert!(rt; lent_end(&store, 3).is_none());
    store.rollback();
    assert!(rt; lent_end(&store, 2) == Some([0, 0, 0]));
    Ok(())
}

#[test]
fn gives_back_what_was_put(rt: HostRuntime) -> Result<(), Fail> {
    let alloc = rt.alloc();
    let mut store = MemPages::new(alloc)?;
    for (byte, before) in [(6, 0), (7, 6)] {
        if store.has(1, 1) {
            store.put(alloc, 1, filled(alloc, 1, byte)?)?;
        }
        assert!(rt; lent_end(&store, 1) == Some([byte; 3]));
        store.rollback();
        assert!(rt; lent_end(&store, 1) == Some([before; 3]));
        fill_page(&mut store, alloc, 1, byte)?;
        store.commit();
    }
    Ok(())
}

// Writes pages and reads them back into the buffer.
fn write_and_load<P: Pages>(
    store: &mut P,
    alloc: Global,
    at: u64,
    pages: u32,
    bytes: &[u8],
    into: &mut Vec<u8>,
) -> Result<(), PageErr>
    requires valid { P.valid store.old }
    requires there { IsTrue P.tells → IsSome (pages_at (P.shows store.old).present at pages) }
    requires size { length bytes.now ≡ 4096 * pages }
    ensures same { OnOk result (IsTrue P.tells → into.new.items ≡ bytes.now) }
    ensures kept { Continues P.Pages store.old store.new }
    ensures cause { StopsAtFault P.Pages (IsErrOf result PageErr.Failed) store.old store.new }
{
    store.touch(alloc, at, pages, bytes)?;
    store.load(alloc, at, pages, into)
}

// Writes pages, reads them back and goes back to what was committed: what each store promises is enough to know what was
// read and what is left.
fn rehearse<P: Pages>(
    store: &mut P,
    alloc: Global,
    at: u64,
    pages: u32,
    bytes: &[u8],
    into: &mut Vec<u8>,
) -> Result<(), PageErr>
    requires valid { P.valid store.old }
    requires there { IsTrue P.tells → IsSome (pages_at (P.shows store.old).present at pages) }
    requires size { length bytes.now ≡ 4096 * pages }
    ensures same { OnOk result (IsTrue P.tells → into.new.items ≡ bytes.now) }
    ensures present { IsTrue P.tells → (P.shows store.new).present ≡ (P.shows store.old).committed }
    ensures valid { P.valid store.new }
    ensures cause { StopsAtFault P.Pages (IsErrOf result PageErr.Failed) store.old store.new }
{
    let outcome = write_and_load(store, alloc, at, pages, bytes, into);
    store.rollback();
    outcome
}

// Writes pages of its own, and goes back to before them.
fn rehearse_on_new<P: Pages>(rt: &impl Abort, store: &mut P, alloc: Global) -> Result<(), PageErr>
    requires { P.valid store.old }
{
    let before = store.count();
    let at = store.grow(alloc, 2)?;
    let bytes = filled(alloc, 2, 7)?;
    let mut read = Vec::new(alloc);
    rehearse(store, alloc, at, 2, &bytes, &mut read)?;
    assert!(rt; read.as_slice() == bytes.as_slice());
    assert!(rt; store.count() == before);
    Ok(())
}

#[test]
fn rehearses_on_each_store(rt: HostRuntime) -> Result<(), Fail> {
    let alloc = rt.alloc();
    let mut pages = MemPages::new(alloc)?;
    rehearse_on_new(&rt, &mut pages, alloc)?;
    rehearse_on_new(&rt, &mut LentPages { pages: &mut pages }, alloc)?;
    rehearse_on_new(&rt, &mut FailingPages::<true>::new(pages), alloc)?;
    Ok(())
}

// Each kind of call that may fail, once, until one does.
fn each_kind(store: &mut FailingPages<false>, alloc: Global) -> Result<(), PageErr> {
    let bytes = filled(alloc, 1, 9)?;
    store.touch(alloc, 1, 1, &bytes)?;
    store.put(alloc, 1, filled(alloc, 1, 4)?)?;
    store.patch(alloc, 1, PAGE_SIZE - 1, &[5])?;
    store.load(alloc, 1, 1, &mut Vec::new(alloc))?;
    let at = store.grow(alloc, 1)?;
    store.free(alloc, at, 1)
}

// What that call gave where the chosen one failed, what page 1 then has, and the counts of pages and faults.
fn seen_after(
    store: &mut FailingPages<false>,
    alloc: Global,
    call: u64,
) -> Result<(Result<(), PageErr>, Option<u8>, u64, u64), PageErr> {
    store.fail_call = call;
    let outcome = each_kind(store, alloc);
    let byte = byte_at(&mut store.pages, alloc, 1)?;
    Ok((outcome, byte, store.count(), store.faults))
}

#[test]
fn fails_at_the_chosen_call(rt: HostRuntime) -> Result<(), Fail> {
    let alloc = rt.alloc();
    let mut store = FailingPages::<false>::new(MemPages::new(alloc)?);
    for (call, byte, count) in [
        (1, 0, 3),
        (2, 9, 3),
        (3, 4, 3),
        (4, 5, 3),
        (5, 5, 3),
        (6, 5, 4),
    ] {
        let seen = seen_after(&mut store, alloc, call)?;
        assert!(rt; seen == (Err(PageErr::Failed), Some(byte), count, call));
        store.rollback();
    }
    each_kind(&mut store, alloc)?;
    assert!(rt; store.free(alloc, 2, 2) == Err(PageErr::Failed));
    store.damaged();
    assert!(rt; store.faults == 8);
    Ok(())
}
