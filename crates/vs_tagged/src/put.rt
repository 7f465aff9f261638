// Writes replies under a tag.
ghost use Rattle.std.specs.Prelude.{◌≡◌, ◌<◌, ◌++◌, ◌∷◌, [], length, IsErr};
ghost use Rattle.vs_text.specs.Text.{lines_of};
ghost use Rattle.vs_tagged.specs.Tagged.{WritesTagged, tagged};

use memchr::memchr;
use vs_host::{Failed, Out};

// The first line of some bytes, without its end, and what follows it.
fn first_line(bytes: &[u8]) -> (&[u8], &[u8])
    requires some { 0 < length bytes.now }
    ensures lines { lines_of bytes.now ≡ result.0.now ∷ lines_of result.1.now }
    ensures fewer { length result.1.now < length bytes.now }
{
    match memchr(b'\n', bytes) {
        Some(end) => (&bytes[..end], &bytes[end + 1..]),
        None => (bytes, &[]),
    }
}

// Writes a line after the tag.
fn put_line<O: Out>(host: &mut O, tag: &[u8], line: &[u8]) -> Result<(), Failed>
    ensures { WritesTagged O.tells (tag.now ++ (line.now ++ 10 ∷ [])) (IsErr result) (O.scene host.old) (O.scene host.new) }
{
    host.write(tag)?;
    host.write(line)?;
    host.write(b"\n")
}

/// Writes a reply, each line after the tag. It takes no memory. Where a write fails, some first part was written.
pub fn put_tagged<O: Out>(host: &mut O, tag: &[u8], reply: &[u8]) -> Result<(), Failed>
    ensures { WritesTagged O.tells (tagged tag.now reply.now) (IsErr result) (O.scene host.old) (O.scene host.new) }
{
    let mut rest = reply;
    'lines: while !rest.is_empty() {
        let (line, more) = first_line(rest);
        put_line(host, tag, line)?;
        rest = more;
    }
    Ok(())
}
