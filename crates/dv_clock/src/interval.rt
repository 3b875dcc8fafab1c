ghost use Rattle.std.specs.Prelude.{◌≡◌, ◌≤◌, ◌<◌, min, max};
ghost use Rattle.dv_clock.specs.declared.limits.TheConstants.{MOST_DELAY};

use crate::limits::MOST_DELAY;
use std::marker::Model;

/// How many ticks lie between two turns of a loop, from 1 to `MOST_DELAY`, which contracts see as
/// that number.
#[derive(Clone, Copy, Debug, PartialEq, Eq)]
pub struct Interval(u64);

impl Model for Interval {
    ghost use Rattle.std.specs.Prelude.{ℕ, ◌≤◌, ◌<◌};
    ghost use Rattle.dv_clock.specs.declared.limits.TheConstants.{MOST_DELAY};

    ghost Value = { ℕ };

    ghost view = { λ i. i.0 };

    ghost inverse = { λ n. record { 0 = n } };

    ghost invariant = { λ i. (0 < i.0) × (i.0 ≤ MOST_DELAY) };
}

impl Interval {
    /// So many ticks, or the nearest number that an interval may have.
    pub fn new(ticks: u64) -> Interval
        ensures { result ≡ max 1 (min ticks MOST_DELAY) }
    {
        Interval(ticks.min(MOST_DELAY).max(1))
    }

    /// How many ticks it is.
    pub fn ticks(self) -> u64
        ensures ticks { result ≡ self }
        ensures some { 0 < result }
        ensures most { result ≤ MOST_DELAY }
    {
        self.0
    }
}
