//! What is raised where something is refused.
ghost use Rattle.std.specs.Prelude.{◌≡◌, IfOk};
ghost use Rattle.dv_objects.specs.Refusals.{cancelled, refused_firing, refused_unpausing, unbound};
ghost use Rattle.dv_objects.specs.Refusals.{not_held, not_gathered, overflow, underflow};
ghost use Rattle.dv_objects.specs.declared.performed.Performed.TheVariants.{Raised};
ghost use Rattle.dv_objects.specs.declared.follow.Follow.TheVariants.{Raise};

use crate::follow::Follow;
use crate::performed::Performed;
use dv_value::class_id::ClassId;
use dv_value::fault::{failure, fault};
use dv_value::value::Value;
use std::alloc::{AllocError, Global};

/// What a name that isn't bound raises.
pub fn unbound<'s>(alloc: Global, name: &str) -> Result<Performed<'s>, AllocError>
    ensures { IfOk result (λ p. p ≡ unbound name.now) }
{
    let failure = failure(alloc, ClassId::NAME_ERROR, name)?;
    Ok(Performed::Raised(failure))
}

/// What a putting raises where as many values are stored as may be (Twisted: `QueueOverflow`).
pub fn overflow<'s>(alloc: Global) -> Result<Performed<'s>, AllocError>
    ensures { IfOk result (λ p. p ≡ Raised overflow) }
{
    let failure = failure(alloc, ClassId::QUEUE_OVERFLOW, "")?;
    Ok(Performed::Raised(failure))
}

/// What an asking raises where as many wait as may (Twisted: `QueueUnderflow`).
pub fn underflow<'s>(alloc: Global) -> Result<Performed<'s>, AllocError>
    ensures { IfOk result (λ p. p ≡ Raised underflow) }
{
    let failure = failure(alloc, ClassId::QUEUE_UNDERFLOW, "")?;
    Ok(Performed::Raised(failure))
}

/// What the release of a token raises where none is held.
pub fn not_held<'s>(alloc: Global) -> Result<Performed<'s>, AllocError>
    ensures { IfOk result (λ p. p ≡ Raised not_held) }
{
    let failure = failure(alloc, ClassId::ASSERTION_ERROR, "not held")?;
    Ok(Performed::Raised(failure))
}

/// What the gathering of what isn't the result of a DeferredList raises.
pub fn not_gathered<'s>(alloc: Global) -> Result<Performed<'s>, AllocError>
    ensures { IfOk result (λ p. p ≡ Raised not_gathered) }
{
    let failure = failure(alloc, ClassId::TYPE_ERROR, "gather")?;
    Ok(Performed::Raised(failure))
}

/// What a second firing of a Deferred raises.
pub fn refused_firing(alloc: Global) -> Result<Follow, AllocError>
    ensures { IfOk result (λ f. f ≡ Raise refused_firing) }
{
    Ok(Follow::Raise(failure(alloc, ClassId::ALREADY_CALLED_ERROR, "")?))
}

/// What the unpausing of a Deferred raises that isn't paused.
pub fn refused_unpausing(alloc: Global) -> Result<Follow, AllocError>
    ensures { IfOk result (λ f. f ≡ Raise refused_unpausing) }
{
    Ok(Follow::Raise(failure(alloc, ClassId::ASSERTION_ERROR, "not paused")?))
}

/// What a Deferred is fired with that is cancelled.
pub fn cancelled(alloc: Global) -> Result<Value, AllocError>
    ensures { IfOk result (λ v. v ≡ cancelled) }
{
    fault(alloc, ClassId::CANCELLED_ERROR, "")
}
