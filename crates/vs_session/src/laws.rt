// Laws of the swap files of a session. They do nothing: their contracts are the laws.
ghost use Rattle.std.specs.Prelude.{◌≡◌, ◌+◌, ◌*◌, ℕ, true};
ghost use Rattle.vs_host.specs.Disk.{Disk};
ghost use Rattle.vs_host.specs.World.{Scene, Tells};
ghost use Rattle.vs_pages.specs.Memory.{state_of};
ghost use Rattle.vs_pages.specs.declared.memory.MemPages.{MemPages};
ghost use Rattle.vs_pair.specs.Acts.{WorksAtMost};
ghost use Rattle.vs_pair.specs.Stale.{IsBehind, IsCounted};
ghost use Rattle.vs_pair.specs.declared.pair.SwapPair.{SwapPair};
ghost use Rattle.vs_pair.specs.declared.written.Written.{Written};
ghost use Rattle.vs_excmd.specs.declared.request.Request.{Request};
ghost use Rattle.vs_machine.specs.declared.command.Outcome.{Outcome};
ghost use Rattle.vs_paged.specs.Pages.{IsIdle};
ghost use Rattle.vs_paged.specs.Turns.{TurnsFiles};
ghost use Rattle.vs_session.specs.declared.session.Session.{Session};
ghost use Rattle.vs_session.specs.SwapWrites.{ChangesLine};
ghost use Rattle.vs_session.specs.Work.{work_in};

/// How far a swap file is behind the pages: by nothing after a sync of it that was acknowledged, as many as before where no page is
/// worked, and by at most 37 pages more after a change of one line. So `k` changes of a line later its next sync makes at most
/// `40 * k + 8` calls beside those that read bytes of a file, and at most `40 * k + 2` of those.
pub fn falling_behind()
    ensures synced { (before after : SwapPair) → IsCounted after.pages → TurnsFiles true before after → IsBehind after.pages after.files.newer_has 0 }
    ensures unworked { (old new : MemPages) (written : Written) (most : ℕ) → IsIdle (state_of old) → IsIdle (state_of new) → work_in new ≡ work_in old
        → IsBehind old written most → IsBehind new written most }
    ensures line { (tells : Tells) (request : Request) (outcome : Outcome) (before after : Session) (was now : Disk) (written : Written) (most : ℕ)
        → ChangesLine tells request outcome before after was now
        → IsBehind before.text.pair.pages written most → IsBehind after.text.pair.pages written (most + 37) }
    ensures calls { (tells : Tells) (old synced : Scene) (pages : MemPages) (written : Written) (k : ℕ)
        → ((most : ℕ) → IsBehind pages written most → WorksAtMost tells old synced (6 + most) most)
        → IsBehind pages written (37 * k) → WorksAtMost tells old synced (40 * k + 8) (40 * k + 2) }
{}
