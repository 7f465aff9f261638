// Reads a script command by command: docs/COMMANDS.md, "Scripts".
ghost use Rattle.std.specs.Prelude.{◌≡◌, ◌<◌, [], None, IfOk, IfErr, IfSome, IsTrue};
ghost use Rattle.vs_excmd.specs.Request.{IsFormed};
ghost use Rattle.vs_script.specs.Reads.{ReadsScript};
ghost use Rattle.vs_script.specs.Ahead.{bytes_left, HasSeen, KeepsTrack, ReadsNoMore, Stops};
ghost use Rattle.vs_script.specs.Requests.{TakesRequest, TakesNone, whole_commands};

use crate::feed::{CommandFeed, Fed};
use crate::kind::alone;
use crate::line::LineBuffer;
use crate::reader::{ScriptErr, ScriptReader};
use std::alloc::Global;
use vs_excmd::{Block, Request};
use vs_host::Script;

impl ScriptReader {
    /// The next command with its block, and `None` at the script's end. A command borrows from its line, which is kept in
    /// `line`. A block is read to its end also where its lines are not kept; want of memory for them is told by the block.
    ///
    /// `Failed` is for a read that failed, `TooLong` for the first byte after 1,073,741,824 of them. Neither hands over a
    /// command whose end was not seen.
    pub fn next_request<'a, S: Script>(
        &mut self,
        alloc: Global,
        host: &mut S,
        line: &'a mut LineBuffer,
    ) -> Result<Option<Request<'a>>, ScriptErr>
        requires ended { IsTrue (S.tells).script → HasSeen self.old (S.scene host.old) }
        ensures request { IfOk result (λ found. IfSome found (λ request. IsTrue (S.tells).script →
            TakesRequest request self.old self.new (S.scene host.old) (S.scene host.new))) }
        ensures form { IfOk result (λ found. IfSome found (λ request. IsFormed request)) }
        ensures none { result ≡ Ok None → IsTrue (S.tells).script → TakesNone self.old self.new (S.scene host.old) (S.scene host.new) }
        ensures track { KeepsTrack S.tells result self.old self.new (S.scene host.old) (S.scene host.new) }
        ensures stops { IfErr result (λ error. IsTrue (S.tells).script
            → Stops error whole_commands [] self.old self.new (S.scene host.old) (S.scene host.new)) }
        ensures fewer { IfOk result (λ found. IfSome found (λ request. bytes_left self.new < bytes_left self.old)) }
        ensures reads { ReadsScript S.tells result (S.scene host.old) (S.scene host.new) }
        ensures calls { ReadsNoMore S.tells result self.old self.new (S.scene host.old) (S.scene host.new) }
    {
        let mut feed = CommandFeed::new();
        'lines: loop {
            if !self.next_line(host, line)? {
                return Ok(feed.end());
            }
            match feed.take_line(alloc, line.bytes()) {
                Fed::Nothing => {}
                Fed::Alone => break,
                Fed::Block(request) => return Ok(Some(request)),
            }
        }
        Ok(Some(Request {
            parsed: alone(line.bytes()),
            block: Block::Absent,
        }))
    }
}
