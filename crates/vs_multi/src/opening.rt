// The opening of two sessions.
ghost use Rattle.std.specs.Prelude.{◌≡◌, ◌⊎◌, ℕ, true, false, IfErr, IfOk, IfSome, IsErr, IsErrOf, IsTrue, OnOk};
ghost use Rattle.vs_faults.specs.Faults.{HasCause, IsQuiet};
ghost use Rattle.vs_host.specs.Names.{is_allowed};
ghost use Rattle.vs_host.specs.World.{content_of};
ghost use Rattle.vs_disk.specs.Runs.{NoneFails};
ghost use Rattle.vs_pair.specs.Acts.{Acts};
ghost use Rattle.vs_text.specs.Documents.{document_of};
ghost use Rattle.vs_text.specs.Limits.{IsWithinLimits};
ghost use Rattle.vs_family.specs.Family.{clash};
ghost use Rattle.vs_session.specs.Made.{LeavesNoneMade};
ghost use Rattle.vs_session.specs.Open.{IsReading, OnlyLooks};
ghost use Rattle.vs_multi.specs.Multi.{FitsBoth};
ghost use Rattle.vs_multi.specs.Opening.{AreNotOpened, AreSettled, BothStandOpen, HasAnySwap, IsEitherTooLarge, OpensBoth};

use crate::Multi;
use std::alloc::Global;
use vs_host::{Folder, Host};
use vs_session::{OpenErr, Session};

// Whether one of the four swap files is there.
fn has_any_swap<F: Folder>(
    alloc: Global,
    host: &mut F,
    one: &str,
    two: &str,
) -> Result<bool, OpenErr>
    requires one { IsTrue (is_allowed one.now) }
    requires two { IsTrue (is_allowed two.now) }
    ensures there { IfOk result (λ found. found ≡ true → IsTrue F.tells.folder → HasAnySwap one.now two.now (F.scene host.old).folder) }
    ensures free { IfOk result (λ found. found ≡ false → IsTrue F.tells.folder → HasAnySwap one.now two.now (F.scene host.old).folder → ⊥) }
    ensures errors { IfErr result (λ why. (why ≡ OpenErr.Failed) ⊎ (why ≡ OpenErr.NoMemory)) }
    ensures reading { IsReading F.tells result (F.scene host.old) (F.scene host.new) }
{
    if Session::has_swap(alloc, host, one)? {
        return Ok(true);
    }
    Session::has_swap(alloc, host, two)
}

impl Multi {
    /// Opens the files of two names that do not clash, the first one first. Where a swap file of either is there, neither is opened
    /// (`:help swap-exists-choices`). Where the second one is not opened, the swap files of the first one stay.
    pub fn open<H: Host>(
        alloc: Global,
        host: &mut H,
        one: &str,
        two: &str,
    ) -> Result<Multi, OpenErr>
        requires one { IsTrue (is_allowed one.now) }
        requires two { IsTrue (is_allowed two.now) }
        requires apart { clash one.now two.now ≡ false }
        requires settled { IsTrue (H.tells).folder → AreSettled one.now two.now (H.scene host.old).folder }
        ensures opens { IfOk result (λ multi. BothStandOpen H.tells one.now two.now (H.scene host.old) (H.scene host.new) multi) }
        ensures fits { IfOk result (λ multi. FitsBoth H.tells multi (H.scene host.new).folder) }
        ensures cleared { OnOk result (IsTrue (H.tells).folder → LeavesNoneMade (H.scene host.old).folder (H.scene host.new).folder) }
        ensures none { OnOk result (NoneFails H.tells (H.scene host.old) (H.scene host.new)) }
        ensures not_opened { (why : OpenErr) → IsErrOf result why → AreNotOpened H.tells one.now why (H.scene host.old) (H.scene host.new) }
        ensures swap { IsErrOf result OpenErr.SwapFound → IsTrue (H.tells).folder → HasAnySwap one.now two.now (H.scene host.old).folder }
        ensures barred { IsTrue (H.tells).folder → HasAnySwap one.now two.now (H.scene host.old).folder
            → IsErrOf result OpenErr.SwapFound ⊎ IsErrOf result OpenErr.Failed ⊎ IsErrOf result OpenErr.NoMemory }
        ensures barred_looks { IsTrue (H.tells).folder → HasAnySwap one.now two.now (H.scene host.old).folder
            → OnlyLooks H.tells (H.scene host.old) (H.scene host.new) }
        ensures limit { (size : ℕ) → IsErrOf result (OpenErr.TextLimit size)
            → IsEitherTooLarge H.tells size (content_of (H.scene host.old) one.now) (content_of (H.scene host.old) two.now) }
        ensures one_over { IsTrue (H.tells).folder →
            IfSome (content_of (H.scene host.old) one.now) (λ bytes. ¬ IsWithinLimits ((document_of bytes).text) → IsErr result) }
        ensures two_over { IsTrue (H.tells).folder →
            IfSome (content_of (H.scene host.old) two.now) (λ bytes. ¬ IsWithinLimits ((document_of bytes).text) → IsErr result) }
        ensures acts { Acts H.tells (OpensBoth one.now two.now) (H.scene host.old) (H.scene host.new) }
        ensures cause { HasCause (H.scene host.old).folder_faults (H.scene host.new).folder_faults (IsErrOf result OpenErr.Failed) }
        ensures quiet { IsQuiet (H.scene host.old).folder_faults (H.scene host.new).folder_faults (IsErrOf result OpenErr.Failed) }
    {
        if has_any_swap(alloc, host, one, two)? {
            return Err(OpenErr::SwapFound);
        }
        let first = Session::open(alloc, host, one)?;
        let second = Session::open(alloc, host, two)?;
        Ok(Multi {
            one: Some(first),
            two: Some(second),
        })
    }
}
