ghost use Rattle.std.specs.Prelude.{◌≡◌, ◌∷◌, None, OnOk};
ghost use Rattle.dv_frames.specs.Turn.{rest_of};
ghost use Rattle.dv_frames.specs.declared.frame.Frame.TheVariants.{Maybe, Rest as RestFrame};
ghost use Rattle.dv_value.specs.declared.value.Value.{Null};

use crate::following::whole;
use crate::frame::{Frame, Purpose};
use crate::turn::Turn;
use dv_objects::input::Input;
use dv_script::lent::BodyRef;
use std::alloc::AllocError;

/// A body, in which `@` isn't bound, is to be performed; what it gave becomes a Deferred for this
/// (Twisted: `maybeDeferred`).
pub fn perform_for<'s>(
    turn: &mut Turn<'s>,
    purpose: Purpose<'s>,
    body: BodyRef<'s>,
) -> Result<(), AllocError>
    ensures { OnOk result (turn.new ≡ record turn.old {
      stack = RestFrame (rest_of None body.entry Null) ∷ Maybe purpose.entry ∷ turn.old.stack;
    }) }
{
    turn.stack.push(Frame::Maybe(purpose))?;
    turn.stack
        .push(Frame::Rest(whole(None, body, Input::null())))
}
