// One change of the pages, with what was there before.
use crate::page::Page;

// A change of neighbouring places: what each of them had, and how many places there were.
#[derive(Drop)]
pub struct Run {
    pub at: u64,
    pub was: Vec<Option<Page>>,
    pub places: u64,
}

// A change of bytes of one page, from its byte `from` on.
#[derive(Drop)]
pub struct Patch {
    pub at: u64,
    pub from: usize,
    pub was: Vec<u8>,
}

#[derive(Drop)]
pub enum Change {
    Run(Run),
    Patch(Patch),
}
