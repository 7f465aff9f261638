// What is written for one of two sessions.
ghost use Rattle.std.specs.Prelude.{◌≡◌, ◌<◌, length, IfErr, IsErr};
ghost use Rattle.vs_tagged.specs.Tagged.{WritesTagged, tagged};
ghost use Rattle.vs_top.specs.Tags.{prefix_of, tagged_for};

use crate::ending::Ending;
use vs_family::Which;
use vs_host::Out;
use vs_session::Reply;
use vs_tagged::put_tagged;

/// The bytes before each line of a session.
pub fn prefix_of(which: Which) -> &'static [u8]
    ensures { result.now ≡ prefix_of which }
{
    match which {
        Which::One => b"1:",
        Which::Two => b"2:",
    }
}

/// Writes lines, each after a prefix.
pub fn say<O: Out>(host: &mut O, prefix: &[u8], lines: &[u8]) -> Result<(), Ending>
    ensures puts { WritesTagged O.tells (tagged prefix.now lines.now) (IsErr result) (O.scene host.old) (O.scene host.new) }
    ensures out { IfErr result (λ ending. ending ≡ Ending.OutputFault) }
{
    match put_tagged(host, prefix, lines) {
        Ok(()) => Ok(()),
        Err(_) => Err(Ending::OutputFault),
    }
}

/// Writes a reply of a session.
pub fn put_reply<O: Out>(host: &mut O, which: Which, reply: Reply) -> Result<(), Ending>
    ensures some { 0 < length reply.bytes }
    ensures puts { WritesTagged O.tells (tagged_for which reply.bytes) (IsErr result) (O.scene host.old) (O.scene host.new) }
    ensures out { IfErr result (λ ending. ending ≡ Ending.OutputFault) }
{
    say(host, prefix_of(which), reply.bytes())
}
