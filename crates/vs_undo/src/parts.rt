// What a tree is made of.
ghost use Rattle.std.specs.Prelude.{◌≡◌, ◌<◌, ◌≤◌, ◌++◌, ◌∷◌, [], OnOk, OnErr, drop, length, slice_index_or, vec_len};
ghost use Rattle.std.specs.Borrow.{sem};
ghost use Rattle.std.specs.List.{filter, remove};
ghost use Rattle.vs_undo.specs.Beside.{stays};

use std::alloc::AllocError;
use std::marker::Model;
use vs_entries::Entry;

/// The entries of one change, in the order in which they are applied.
#[derive(Drop)]
pub struct Entries {
    pub(crate) list: Vec<Entry>,
}

impl Model for Entries {
    ghost use Rattle.std.specs.Prelude.{List};
    ghost use Rattle.vs_entries.specs.declared.entry.Entry.{Entry};

    ghost Value = { List Entry };

    ghost view = { λ entries. entries.list.items };
}

impl Entries {
    /// The entries of a list. It takes no memory.
    pub fn of(list: Vec<Entry>) -> Entries
        ensures { result ≡ list.items }
    {
        Entries { list }
    }

    /// The entries as a list.
    pub fn entries(&self) -> &[Entry]
        ensures { result.now ≡ self.now }
    {
        self.list.as_slice()
    }
}

/// One change: a state of the text other than the oldest. The numbers are those of states, and the time is in seconds since
/// 1970.
#[derive(Drop)]
pub struct Node {
    pub number: u64,
    pub parent: u64,
    /// The child that was used last, or 0.
    pub last_child: u64,
    pub time: u64,
    /// The save number, or 0.
    pub save: u64,
    pub entries: Entries,
}

/// The changes of a tree.
#[derive(Drop)]
pub struct Nodes {
    list: Vec<Node>,
    // So many at the front of the list are of the tree no longer.
    gone: usize,
}

impl Model for Nodes {
    ghost use Rattle.std.specs.Prelude.{◌≤◌, List, drop, vec_len};
    ghost use Rattle.vs_undo.specs.declared.parts.Node.{Node};

    ghost Value = { List Node };

    ghost view = { λ nodes. drop nodes.gone nodes.list.items };

    ghost invariant = { λ nodes. nodes.gone ≤ vec_len nodes.list };
}

fn drop_front(list: &mut Vec<Node>, count: usize)
    requires { count ≤ vec_len list.old }
    ensures { list.new.items ≡ drop count list.old.items }
{
    list.rotate_left(count);
    list.truncate(list.len() - count);
}

impl Nodes {
    ghost use Rattle.vs_undo.specs.Lending.{LendsNode};

    /// The changes of a list. It takes no memory.
    pub fn of(list: Vec<Node>) -> Nodes
        ensures { result ≡ list.items }
    {
        Nodes { list, gone: 0 }
    }

    /// The changes as a list.
    pub fn nodes(&self) -> &[Node]
        ensures { result.now ≡ self.now }
    {
        &self.list[self.gone..]
    }

    pub(crate) fn push(&mut self, node: Node) -> Result<(), AllocError>
        ensures ok { OnOk result (self.new ≡ self.old ++ node ∷ []) }
        ensures err { OnErr result (self.new ≡ self.old) }
    {
        self.list.push(node)?;
        Ok(())
    }

    /// The change at a place, to be written.
    pub(crate) fn node_mut(&mut self, place: usize) -> &mut Node
        requires { place < length self.old }
        ensures* writes_back { sem 𝓛 (LendsNode self.entry place result) }
        ensures value { result.now ≡ slice_index_or self.old place result.now }
    {
        let place = self.gone + place;
        &mut self.list[place]
    }

    /// Takes out the first change. Over many calls each takes the same time, however many changes there are.
    pub(crate) fn drop_first(&mut self)
        requires { 0 < length self.old }
        ensures { self.new ≡ drop 1 self.old }
    {
        let first = &mut self.list[self.gone];
        first.entries.list.clear();
        self.gone += 1;
        if self.gone > self.list.len() / 2 {
            drop_front(&mut self.list, self.gone);
            self.gone = 0;
        }
    }

    /// Takes out the change at a place.
    pub(crate) fn remove(&mut self, place: usize)
        requires { place < length self.old }
        ensures { self.new ≡ remove self.old place }
    {
        self.list.remove(self.gone + place);
    }

    /// Takes out the children of the oldest state other than this one.
    pub(crate) fn drop_at_root(&mut self, child: u64)
        ensures { self.new ≡ filter (stays child) self.old }
    {
        drop_front(&mut self.list, self.gone);
        self.gone = 0;
        self.list
            .retain(|node| node.parent != 0 || node.number == child);
    }
}

/// What a tree keeps: its changes by rising number, the child last used of the oldest state, the current state, the last number
/// that a change was given, and the last save number.
#[derive(Drop)]
pub struct Parts {
    pub nodes: Nodes,
    pub root_child: u64,
    pub current: u64,
    pub last: u64,
    pub last_save: u64,
}
