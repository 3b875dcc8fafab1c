ghost use Rattle.std.specs.Prelude.{◌≡◌, ◌^◌, ◌-◌, IfOk, min};
ghost use Rattle.dv_value.specs.Size.{expected_size};

use crate::value::Value;
use std::alloc::{AllocError, Global};

/// What a script expects of a Deferred.
#[derive(Debug, Drop)]
pub enum Expected {
    /// It isn't fired.
    Unfired,
    /// It is fired, and waits for another.
    Waiting,
    /// It is fired, and of this value.
    Fired(Value),
}

impl Expected {
    /// A copy, as `Value::copy` makes one of the value.
    pub fn copy(&self, alloc: Global) -> Result<Expected, AllocError>
        ensures { IfOk result (λ copy. copy ≡ self.now) }
    {
        match self {
            Expected::Unfired => Ok(Expected::Unfired),
            Expected::Waiting => Ok(Expected::Waiting),
            Expected::Fired(value) => Ok(Expected::Fired(value.copy(alloc)?)),
        }
    }

    /// How much an entry of the journal weighs more for showing it; it stops at `u64::MAX`.
    pub fn size(&self) -> u64
        ensures { result ≡ min (expected_size self.now) (2 ^ 64 - 1) }
    {
        match self {
            Expected::Unfired | Expected::Waiting => 0,
            Expected::Fired(value) => value.size(),
        }
    }
}
