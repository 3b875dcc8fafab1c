ghost use Rattle.std.specs.Prelude.{◌≡◌, ◌^◌, ◌-◌, min};
ghost use Rattle.dv_journal.specs.State.{state_size};

use crate::deferred_id::DeferredId;
use dv_value::value::Value;

/// Whether a Deferred is fired, and with what.
#[derive(Debug, Drop)]
pub enum State {
    /// Not fired in this run.
    Unfired,
    /// Fired, and waiting for the value of this one, which a side of it gave.
    Waiting(DeferredId),
    /// Fired, and of this value.
    Fired(Value),
}

impl State {
    /// How much an entry of the journal weighs more for showing the state; it stops at `u64::MAX`.
    pub fn size(&self) -> u64
        ensures { result ≡ min (state_size self.now) (2 ^ 64 - 1) }
    {
        match self {
            State::Unfired | State::Waiting(_) => 0,
            State::Fired(value) => value.size(),
        }
    }
}
