//! Waits for the children that an update has left.
ghost use Rattle.std.specs.Prelude.{◌≡◌, ℕ, ◌+◌, true, false, length};
ghost use Rattle.b2_runs.specs.UpdateAnswers.{WaitFailed, IsQuietHost, LeavesNone};
ghost use Rattle.b2_drain.specs.Drains.{AllWaited, Drains, DrainTold};

use b2_host::children::Children;

/// Waits so many times, for as many of the children that run, and answers whether each wait was answered. A wait that failed is
/// not tried again, and the others are still made. Takes no memory.
pub fn drain<H: Children>(host: &mut H, count: u32) -> bool
    requires { (rest : ℕ) × (length (H.outside host.old).children.running ≡ count + rest) }
    ensures drains { (rest : ℕ) → length (H.outside host.old).children.running ≡ count + rest → Drains rest (H.outside host.old) (H.outside host.new) }
    ensures all { result ≡ true → (rest : ℕ) → length (H.outside host.old).children.running ≡ count + rest
        → AllWaited rest (H.outside host.old) (H.outside host.new) }
    ensures failed { result ≡ false → WaitFailed (H.outside host.old) (H.outside host.new)
        × ((H.outside host.old).risks.may_fail ≡ true) }
    ensures none_left { length (H.outside host.old).children.running ≡ count → LeavesNone (H.outside host.old) (H.outside host.new) }
    ensures quiet { IsQuietHost (H.outside host.old) (H.outside host.new) }
    ensures told { DrainTold H.made (H.outside host.old) (H.outside host.new) }
{
    let mut all = true;
    for _child in 0..count {
        let ended = host.wait_one();
        all &= ended.is_ok();
    }
    all
}
