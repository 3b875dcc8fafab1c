ghost use Rattle.std.specs.Prelude.{◌≡◌, true, IfOk, OnOk, OnErr};

use dv_journal::error::Stop;
use std::alloc::AllocError;

/// That a run has stopped, of which an entry doesn't fit. AllocError where it was memory that was
/// refused.
pub fn stopped(stop: Stop) -> Result<bool, AllocError>
    ensures limit { OnOk result (stop ≡ Stop.Limit) }
    ensures stopped { IfOk result (λ stopped. stopped ≡ true) }
    ensures err { OnErr result (stop ≡ Stop.OutOfMemory) }
{
    match stop {
        Stop::Limit => Ok(true),
        Stop::OutOfMemory => Err(AllocError),
    }
}
