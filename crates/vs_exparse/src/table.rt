// Tables of names that a word may shorten.
ghost use Rattle.std.specs.Prelude.{◌≡◌, ◌↔◌, ◌≤◌, ℕ, List, Bool, IsTrue, length, position, drop, map, true, max};
ghost use Rattle.std.specs.List.{list_all, common_prefix_len};
ghost use Rattle.std.specs.Prelude.{nat_eq};
ghost use Rattle.vs_exparse.specs.Table.{rows_of, matches, no_clash, NoClash, tells_apart};

/// A table of names that may be shortened. A word matches a row where it is a first part of the name, and at least as
/// long as the shortest form.
#[derive(Clone, Copy)]
pub struct NameTable<const N: usize> {
    /// The names.
    pub names: [&'static [u8]; N],
    /// The lengths of their shortest forms, in bytes.
    pub shortest: [usize; N],
}

fn matches(word: &[u8], name: &[u8], shortest: usize) -> bool
    ensures { result ≡ matches word.now (name.now, shortest) }
{
    shortest <= word.len() && name.starts_with(word)
}

fn shared_len(a: &[u8], b: &[u8]) -> usize
    ensures { result ≡ common_prefix_len nat_eq a.now b.now }
{
    let mut count = 0;
    'bytes: while count < a.len() && count < b.len() && a[count] == b[count] {
        count += 1;
    }
    count
}

fn tells_apart(a: &[u8], a_shortest: usize, b: &[u8], b_shortest: usize) -> bool
    ensures { result ≡ tells_apart (a.now, a_shortest) (b.now, b_shortest) }
{
    shared_len(a, b) < a_shortest.max(b_shortest)
}

fn row_matching(names: &[&[u8]], shortest: &[usize], word: &[u8]) -> Option<usize>
    requires { length names.now ≡ length shortest.now }
    ensures { result ≡ position (matches word.now) (rows_of names.now shortest.now) }
{
    for i in 0..names.len() {
        if matches(word, names[i], shortest[i]) {
            return Some(i);
        }
    }
    None
}

/// Whether a name is told apart from each of these.
fn clears(name: &[u8], own: usize, names: &[&[u8]], shortest: &[usize]) -> bool
    requires { length names.now ≡ length shortest.now }
    ensures { result ≡ list_all (tells_apart (name.now, own)) (rows_of names.now shortest.now) }
{
    for i in 0..names.len() {
        if !tells_apart(name, own, names[i], shortest[i]) {
            return false;
        }
    }
    true
}

fn all_clear(names: &[&[u8]], shortest: &[usize]) -> bool
    requires { length names.now ≡ length shortest.now }
    ensures { result ≡ no_clash (rows_of names.now shortest.now) }
{
    for i in 0..names.len() {
        if !clears(
            names[i],
            shortest[i],
            names.split_at(i + 1).1,
            shortest.split_at(i + 1).1,
        ) {
            return false;
        }
    }
    true
}

// No proof is made of an array of references whose length is a parameter. So the methods are those of one length.
impl NameTable<25> {
    /// Whether no word matches two rows, which is what [`NameTable::find`] asks for.
    pub fn no_clash(&self) -> bool
        ensures value { result ≡ no_clash (rows_of self.now.names self.now.shortest) }
        ensures words { IsTrue result ↔ NoClash (rows_of self.now.names self.now.shortest) }
    {
        all_clear(&self.names, &self.shortest)
    }

    /// The number of the row that a word matches, counted from 0.
    pub fn find(&self, word: &[u8]) -> Option<usize>
        requires { IsTrue (no_clash (rows_of self.now.names self.now.shortest)) }
        ensures { result ≡ position (matches word.now) (rows_of self.now.names self.now.shortest) }
    {
        row_matching(&self.names, &self.shortest, word)
    }
}
