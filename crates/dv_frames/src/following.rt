//! What is to follow, put on the stack.

ghost use Rattle.std.specs.Prelude.{◌≡◌, OnOk};
ghost use Rattle.dv_world.specs.World.{append, fire};
ghost use Rattle.dv_frames.specs.Turn.{◌onto◌, settling, settle_next, rest_of};
ghost use Rattle.dv_objects.specs.Refusals.{unbound};
ghost use Rattle.dv_objects.specs.declared.performed.Performed.TheVariants.{Done};

use crate::frame::{Frame, Rest};
use crate::turn::Turn;
use dv_journal::deferred_id::DeferredId;
use dv_objects::follow::Follow;
use dv_objects::input::Input;
use dv_objects::pair::Pair;
use dv_objects::performed::Performed;
use dv_objects::refusals;
use dv_script::lent::{Actions, BodyRef, EndRef};
use dv_value::value::Value;
use std::alloc::AllocError;

/// A body from its beginning.
pub fn whole<'s>(itself: Option<DeferredId>, body: BodyRef<'s>, input: Input) -> Rest<'s>
    ensures { result ≡ rest_of itself body.entry input }
{
    let body = body.get();
    Rest {
        itself,
        actions: Actions::new(body.actions.as_slice()),
        end: EndRef::new(&body.end),
        input,
    }
}

/// Raises NameError for a name that isn't bound.
pub fn unbound(turn: &mut Turn<'_>, name: &str) -> Result<(), AllocError>
    ensures { OnOk result (turn.new ≡ record turn.old { performed = unbound name.now }) }
{
    turn.performed = refusals::unbound(turn.alloc, name)?;
    Ok(())
}

/// The Deferred is fired with a value, and is to be settled, where that is to follow. A refusal is
/// raised.
pub fn fire_and_settle(turn: &mut Turn<'_>, id: DeferredId, value: Value) -> Result<(), AllocError>
    requires done { turn.old.performed ≡ Done }
    ensures { OnOk result (turn.new ≡ settle_next id (fire id value turn.old.world).0
        (fire id value turn.old.world).1 onto turn.old) }
{
    let fired = turn.world.fire(id, value)?;
    settle_next(turn, id, fired)
}

/// The Deferred is to be settled, where that is to follow.
pub fn settle_next(turn: &mut Turn<'_>, id: DeferredId, follow: Follow) -> Result<(), AllocError>
    requires done { turn.old.performed ≡ Done }
    ensures { OnOk result (turn.new ≡ settle_next id follow turn.old.world onto turn.old) }
{
    match follow {
        Follow::Settle => turn.stack.push(Frame::Settle(id)),
        Follow::Nothing => Ok(()),
        Follow::Raise(failure) => {
            turn.performed = Performed::Raised(failure);
            Ok(())
        }
    }
}

/// A pair is added to a Deferred, which is to be settled.
pub fn add_and_settle<'s>(
    turn: &mut Turn<'s>,
    id: DeferredId,
    pair: Pair<'s>,
) -> Result<(), AllocError>
    requires done { turn.old.performed ≡ Done }
    ensures { OnOk result
        (turn.new ≡ settling id (append id pair.entry turn.old.world) onto turn.old) }
{
    turn.world.append(id, pair)?;
    turn.stack.push(Frame::Settle(id))
}
