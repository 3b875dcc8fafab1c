ghost use Rattle.std.specs.Prelude.{◌≡◌, IfOk};
ghost use Rattle.dv_store.specs.Outcome.{state_of};
ghost use Rattle.dv_world.specs.Expecting.{is_met};

use super::World;
use dv_journal::deferred_id::DeferredId;
use dv_journal::state::State;
use dv_script::same::is_same_value;
use dv_store::record::Record;
use dv_value::expected::Expected;
use std::alloc::{AllocError, Global};

impl World<'_> {
    ghost use Rattle.dv_world.specs.Expecting.{state_at};
    ghost use Rattle.dv_world.specs.World.{with_stop};

    /// What has become of a Deferred by now, with a copy of its value; Unfired where there is none.
    pub fn state(&self, id: DeferredId) -> Result<State, AllocError>
        ensures { IfOk result (λ state. state ≡ state_at id self.now) }
    {
        match self.store.record(id) {
            None => Ok(State::Unfired),
            Some(record) => state_of(self.alloc, record),
        }
    }

    /// Ends the run: from then on nothing changes.
    pub fn stop(&mut self)
        ensures { self.new ≡ with_stop self.old }
    {
        self.stopped = true;
    }
}

/// What has become of the Deferred of a record, with a copy of its value.
fn state_of<P, K>(alloc: Global, record: &Record<P, K>) -> Result<State, AllocError>
    ensures { IfOk result (λ state.
        state ≡ state_of record.now.fired record.now.waits_for record.now.value) }
{
    if !record.fired {
        return Ok(State::Unfired);
    }
    match record.waits_for {
        Some(id) => Ok(State::Waiting(id)),
        None => Ok(State::Fired(record.value.copy(alloc)?)),
    }
}

/// Whether a Deferred of which this has become is as the script expects.
pub fn is_met(expected: &Expected, state: &State) -> bool
    ensures { result ≡ is_met expected.now state.now }
{
    match expected {
        Expected::Unfired => matches!(state, State::Unfired),
        Expected::Waiting => matches!(state, State::Waiting(_)),
        Expected::Fired(value) => match state {
            State::Fired(other) => is_same_value(value, other),
            State::Unfired | State::Waiting(_) => false,
        },
    }
}
