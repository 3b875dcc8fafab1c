ghost use Rattle.std.specs.Prelude.{◌≡◌};
ghost use Rattle.dv_loop.specs.TurnEnds.{once_ended};

use dv_journal::deferred_id::DeferredId;
use std::alloc::AllocError;

/// How a turn ends.
#[derive(Drop)]
pub enum TurnEnd {
    /// It is over: its result is in the turn.
    Ended,
    /// The Deferred is to be fired with the result of the job of this number.
    Delivers(u32, DeferredId),
}

/// A turn is over, unless an allocation failed.
pub fn turn_ended(what: Result<(), AllocError>) -> Result<TurnEnd, AllocError>
    ensures { result ≡ once_ended what }
{
    match what {
        Ok(()) => Ok(TurnEnd::Ended),
        Err(error) => Err(error),
    }
}
