ghost use Rattle.std.specs.Prelude.{◌≡◌, ◌≤◌, ◌<◌, ◌+◌, ◌^◌};
ghost use Rattle.dv_clock.specs.LoopingCall.{loop_next};

/// When the next turn of a loop is due, in ticks: at the first time later than now that is a whole
/// number of intervals after the start. A turn that was missed isn't made up for (Twisted:
/// `LoopingCall`, without `withCount`).
pub fn loop_next(start: u64, interval: u64, now: u64) -> u64
    requires begun { start ≤ now }
    requires some { 0 < interval }
    requires room { now + interval < 2 ^ 64 }
    ensures next { result ≡ loop_next start interval now }
    ensures soon { result ≤ now + interval }
{
    now + (interval - (now - start) % interval)
}
