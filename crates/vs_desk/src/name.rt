// Copies of names that take no memory.
ghost use Rattle.std.specs.Prelude.{◌≡◌, ◌≤◌, length};

use arrayvec::ArrayString;
use vs_host::FileName;

// No name in the folder has more bytes.
const MOST_BYTES: usize = 255;

// A copy of a name of a pair, which outlasts the lending of the pair. It takes no memory, since a write that is refused memory says so
// only after it has looked for its file.
pub(crate) fn copy_name(name: &FileName) -> ArrayString<MOST_BYTES>
    requires { length name.now ≤ 255 }
    ensures { result.bytes ≡ name.now }
{
    match ArrayString::from(name.as_str()) {
        Ok(copy) => copy,
        Err(_) => unreachable!(),
    }
}
