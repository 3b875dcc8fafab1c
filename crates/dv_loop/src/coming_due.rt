ghost use Rattle.std.specs.Prelude.{◌≡◌, Some, IfOk, OnOk};
ghost use Rattle.dv_definition.specs.Definition as page;
ghost use Rattle.dv_definition.specs.Rule.{after};
ghost use Rattle.dv_clock.specs.declared.due.Due.TheVariants.{Timeout};
ghost use Rattle.dv_objects.specs.declared.performed.Performed.TheVariants.{Done};
ghost use Rattle.dv_loop.specs.TurnEnds.{ending};

use crate::turn_end::{TurnEnd, turn_ended};
use dv_clock::cooperator_id::CooperatorId;
use dv_clock::due::Due;
use dv_clock::loop_id::LoopId;
use dv_frames::following::whole;
use dv_frames::frame::Frame;
use dv_frames::turn::Turn;
use dv_journal::deferred_id::DeferredId;
use dv_objects::input::Input;
use dv_task::cooperating::begin_tick;
use dv_task::looping::take_turn;
use std::alloc::AllocError;

/// What is due next is run, where something is, and then what is due after it (Twisted:
/// `Clock.advance`).
#[inline(never)]
pub fn run_due(turn: &mut Turn<'_>) -> Result<TurnEnd, AllocError>
    requires done { turn.old.performed ≡ Done }
    ensures { IfOk result (λ end. ending end turn.new ≡ after page.run_due turn.old) }
{
    match turn.world.take_due()? {
        None => Ok(TurnEnd::Ended),
        Some(what) => run_what(turn, what),
    }
}

/// This is run, and then what is due after it.
fn run_what(turn: &mut Turn<'_>, what: Due) -> Result<TurnEnd, AllocError>
    requires done { turn.old.performed ≡ Done }
    ensures { IfOk result
        (λ end. ending end turn.new ≡ after (page.run_next (Some what)) turn.old) }
{
    match what {
        Due::Call(name, key) => {
            drop(name);
            turn_ended(run_call(turn, key))
        }
        Due::Turn(name, key) => {
            drop(name);
            turn.stack.push(Frame::Due)?;
            turn_ended(take_turn(turn, LoopId::new(key)))
        }
        Due::Tick => {
            turn.stack.push(Frame::Due)?;
            turn_ended(begin_tick(turn, CooperatorId::new(0)))
        }
        Due::TickIn(name, key) => {
            drop(name);
            turn.stack.push(Frame::Due)?;
            turn_ended(begin_tick(turn, CooperatorId::new(key)))
        }
        Due::Delivery(job, key) => {
            turn.stack.push(Frame::Due)?;
            turn.stack.push(Frame::Tell)?;
            Ok(TurnEnd::Delivers(job, DeferredId::new(key)))
        }
        Due::Timeout(id) => turn_ended(time_out(turn, id)),
    }
}

/// The body of a delayed call is to be performed, and then what is due next.
fn run_call(turn: &mut Turn<'_>, key: u32) -> Result<(), AllocError>
    requires done { turn.old.performed ≡ Done }
    ensures { OnOk result (turn.new ≡ after (page.run_call key) turn.old) }
{
    turn.stack.push(Frame::Due)?;
    match turn.world.body(key) {
        None => Ok(()),
        Some(body) => {
            turn.stack.push(Frame::Tell)?;
            turn.stack
                .push(Frame::Rest(whole(None, body, Input::null())))
        }
    }
}

/// Cancels a Deferred whose time is over, logs what that raises, and goes on with what is due next.
fn time_out(turn: &mut Turn<'_>, id: DeferredId) -> Result<(), AllocError>
    requires done { turn.old.performed ≡ Done }
    ensures { OnOk result (turn.new ≡ after (page.run_next (Some (Timeout id))) turn.old) }
{
    turn.stack.push(Frame::Due)?;
    turn.stack.push(Frame::Tell)?;
    turn.stack.push(Frame::Cancel(id))
}
