// Whether the families of two files share a name.
ghost use Rattle.std.specs.Prelude.{◌≡◌, ◌<◌, ◌≤◌, [], length, get_or, codes, if◌then◌else◌, IsTrue};
ghost use Rattle.std.specs.Str.{bytes_eq};
ghost use Rattle.vs_host.specs.Names.{is_allowed, temporary};
ghost use Rattle.vs_family.specs.Family.{clash, is_of_family, lasting_names, with_temporary};
ghost use Rattle.vs_family.specs.Pieces.{dot_at, dot_of, ending_at, letter_at, spelled};

use crate::pieces::Pieces;

// The file, two swap files, the undo file, a backup, and one backup for each letter.
const LASTING_NAMES: usize = 31;

// What stands before a name to hide it.
fn dot_of(file: &[u8]) -> &'static [u8]
    ensures few { length result.now ≤ 1 }
    ensures dot { result.now ≡ dot_of file.now }
{
    if file.starts_with(b".") {
        return b"";
    }
    b"."
}

// What stands before this one of the names of a file: those of the swap files and of the undo file are hidden.
fn dot_at(file: &[u8], number: usize) -> &'static [u8]
    ensures few { length result.now ≤ 1 }
    ensures dot { result.now ≡ dot_at file.now number }
{
    if number < 1 {
        return b"";
    }
    if number > 3 {
        return b"";
    }
    dot_of(file)
}

// The letter in the place of the last byte of the file's name. The backups that have one of their own come last.
fn letter_at(file: &[u8], number: usize) -> u8
    requires some { 1 ≤ length file.now }
    requires number { number < LASTING_NAMES }
    ensures { result ≡ letter_at file.now number }
{
    if number < 5 {
        return file[file.len() - 1];
    }
    b'z' - (number - 5) as u8
}

// The ending of this one of the names.
fn ending_at(number: usize) -> &'static [u8]
    ensures few { length result.now ≤ 4 }
    ensures ending { result.now ≡ ending_at number }
{
    if number == 0 {
        return b"";
    }
    if number == 1 {
        return b".swp";
    }
    if number == 2 {
        return b".swo";
    }
    if number == 3 {
        return b".un~";
    }
    b"~"
}

// The ending of a name under which a file is made, or none.
fn made_ending(made: bool) -> &'static [u8]
    ensures few { length result.now ≤ 6 }
    ensures ending { result.now ≡ (if made then codes ".vsnew" else []) }
{
    if made {
        return b".vsnew";
    }
    b""
}

// A name under which the session on a file leaves one, or the name under which that is made.
fn name_of(file: &[u8], number: usize, made: bool) -> Pieces<'_>
    requires some { 1 ≤ length file.now }
    requires short { length file.now ≤ 200 }
    requires number { number < LASTING_NAMES }
    ensures { let name = get_or (lasting_names file.now) number [] in spelled result ≡ (if made then temporary name else name) }
{
    Pieces {
        dot: dot_at(file, number),
        stem: &file[..file.len() - 1],
        letter: letter_at(file, number),
        ending: ending_at(number),
        made: made_ending(made),
    }
}

// Whether a name is this one of the names of a file, or the one under which that is made.
fn is_name_of(name: Pieces, file: &[u8], number: usize) -> bool
    requires some { 1 ≤ length file.now }
    requires short { length file.now ≤ 200 }
    requires number { number < LASTING_NAMES }
    ensures { result ≡ with_temporary (bytes_eq (spelled name.entry)) (get_or (lasting_names file.now) number []) }
{
    name.is_same(name_of(file, number, false)) || name.is_same(name_of(file, number, true))
}

// Whether a name is of the family of a file.
fn is_in_family(name: Pieces, file: &[u8]) -> bool
    requires some { 1 ≤ length file.now }
    requires short { length file.now ≤ 200 }
    ensures { result ≡ is_of_family file.now (spelled name.entry) }
{
    for number in 0..LASTING_NAMES {
        if is_name_of(name, file, number) {
            return true;
        }
    }
    false
}

// Whether this one of the names of a file, or the one under which that is made, is of the family of another.
fn shares_name(one: &[u8], number: usize, two: &[u8]) -> bool
    requires some { 1 ≤ length one.now }
    requires short { length one.now ≤ 200 }
    requires number { number < LASTING_NAMES }
    requires some_too { 1 ≤ length two.now }
    requires short_too { length two.now ≤ 200 }
    ensures { result ≡ with_temporary (is_of_family two.now) (get_or (lasting_names one.now) number []) }
{
    is_in_family(name_of(one, number, false), two) || is_in_family(name_of(one, number, true), two)
}

/// Whether two files cannot be edited side by side in one folder: a name that goes with one, or with a backup of it, goes with the
/// other. It takes no memory.
pub fn clash(one: &str, two: &str) -> bool
    requires one { IsTrue (is_allowed one.now) }
    requires two { IsTrue (is_allowed two.now) }
    ensures { result ≡ clash one.now two.now }
{
    let one = one.as_bytes();
    let two = two.as_bytes();
    for number in 0..LASTING_NAMES {
        if shares_name(one, number, two) {
            return true;
        }
    }
    false
}
