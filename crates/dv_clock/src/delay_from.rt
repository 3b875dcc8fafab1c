ghost use Rattle.std.specs.Prelude.{◌≡◌, ◌≤◌};
ghost use Rattle.dv_clock.specs.Clock.{new_due};
ghost use Rattle.dv_clock.specs.declared.limits.TheConstants.{MOST_DELAY, MOST_TICKS};

use crate::limits::{MOST_DELAY, MOST_DUE, MOST_TICKS};

/// From when a delay counts that a call gets anew.
#[derive(Clone, Copy, Debug, PartialEq, Eq)]
pub enum DelayFrom {
    /// From now (Twisted: `DelayedCall.reset`).
    Now,
    /// From when the call was due (Twisted: `DelayedCall.delay`).
    Due,
}

impl DelayFrom {
    /// When a call is due that gets a delay anew, in ticks: never before now, and no later than
    /// calls may be due.
    pub fn new_due(self, delay: u64, due: u64, now: u64) -> u64
        requires short { delay ≤ MOST_DELAY }
        requires early { now ≤ MOST_TICKS }
        ensures { result ≡ new_due self delay due now }
    {
        match self {
            DelayFrom::Now => now + delay,
            DelayFrom::Due => due.saturating_add(delay).min(MOST_DUE).max(now),
        }
    }
}
