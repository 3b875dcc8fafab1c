//! One turn: the frame on top of the stack, by its rule.

ghost use Rattle.std.specs.Prelude.{◌≡◌, IfOk, OnOk};
ghost use Rattle.std.specs.Option.{option_copied};
ghost use Rattle.dv_objects.specs.declared.performed.Performed.TheVariants.{Done};
ghost use Rattle.dv_frames.specs.Bounds.{Bounded};
ghost use Rattle.dv_definition.specs.Definition as page;
ghost use Rattle.dv_definition.specs.Rule.{after};
ghost use Rattle.dv_definition.specs.Scripts.{rule_of, tell_failure, unless_raised};
ghost use Rattle.dv_loop.specs.TurnEnds.{ending};

use crate::acting::act;
use crate::coming_due::run_due;
use crate::polling;
use crate::settling::{end_side, settle};
use crate::taking::{clear, taken};
use crate::turn_end::{TurnEnd, turn_ended};
use dv_clock::task_id::TaskId;
use dv_defer::cancelling::{cancel, end_canceller};
use dv_frames::following::{add_and_settle, whole};
use dv_frames::frame::{Frame, Purpose, Rest};
use dv_frames::raising::tell_failure;
use dv_frames::turn::Turn;
use dv_inline::poller::Poller;
use dv_journal::deferred_id::DeferredId;
use dv_objects::input::Input;
use dv_objects::performed::Performed;
use dv_script::body::End;
use dv_script::lent::BodyRef;
use dv_script::script::NamedBody;
use dv_task::cooperating::{end_step, go_on_ticking, halt_task, notify};
use dv_threads::maybe::{end_maybe, give_after};
use dv_world::ending::ended;
use dv_world::world::World;
use std::alloc::AllocError;

/// Goes on with the frame that was on top, which gets what the one above it gave.
#[inline(always)]
pub fn perform_frame<'s>(
    poller: &Poller,
    turn: &mut Turn<'s>,
    frame: Frame<'s>,
) -> Result<TurnEnd, AllocError>
    requires bounded { Bounded turn.old.world }
    ensures { IfOk result
        (λ end. ending end turn.new ≡ after (rule_of frame.entry turn.old.performed) turn.old) }
{
    match frame {
        Frame::Settle(id) => {
            clear(&mut turn.performed);
            turn_ended(settle(turn, id))
        }
        Frame::Place(id) => turn_ended(put_in_place(turn, id)),
        Frame::Rest(rest) => turn_ended(go_on_unless_raised(turn, rest)),
        Frame::Canceller(id) => turn_ended(go_on_cancelling(turn, id)),
        Frame::Maybe(purpose) => turn_ended(make_deferred(turn, purpose)),
        Frame::Add(id, pair) => {
            clear(&mut turn.performed);
            turn_ended(add_and_settle(turn, id, pair))
        }
        Frame::Cancel(id) => {
            clear(&mut turn.performed);
            turn_ended(cancel(turn, id))
        }
        Frame::Give(given) => {
            give_after(turn, given);
            Ok(TurnEnd::Ended)
        }
        Frame::Notify(id, task) => {
            clear(&mut turn.performed);
            turn_ended(notify(turn, id, task))
        }
        Frame::Stepped(task) => turn_ended(go_on_stepping(turn, task)),
        Frame::Halt(task) => {
            clear(&mut turn.performed);
            turn_ended(halt_task(turn, task))
        }
        Frame::Tick(of, units) => {
            clear(&mut turn.performed);
            turn_ended(go_on_ticking(turn, of, units))
        }
        Frame::Tell => turn_ended(tell(turn)),
        Frame::Due => {
            clear(&mut turn.performed);
            run_due(turn)
        }
        Frame::Inline(inlining) => { turn_ended(polling::go_on(poller, turn, inlining)) }
    }
}

/// Puts what a side of a Deferred gave in place.
#[inline(never)]
fn put_in_place<'s>(turn: &mut Turn<'s>, id: DeferredId) -> Result<(), AllocError>
    ensures { OnOk result (turn.new ≡ after (page.put_in_place id turn.old.performed) turn.old) }
{
    let performed = taken(&mut turn.performed);
    end_side(turn, id, performed)
}

/// Goes on after a canceller.
#[inline(never)]
fn go_on_cancelling<'s>(turn: &mut Turn<'s>, id: DeferredId) -> Result<(), AllocError>
    ensures { OnOk result (turn.new ≡ after (page.after_canceller id turn.old.performed) turn.old) }
{
    let performed = taken(&mut turn.performed);
    end_canceller(turn, id, performed)
}

/// What a body gave becomes a Deferred.
#[inline(never)]
fn make_deferred<'s>(turn: &mut Turn<'s>, purpose: Purpose<'s>) -> Result<(), AllocError>
    requires bounded { Bounded turn.old.world }
    ensures { OnOk result
        (turn.new ≡ after (page.deferred_of purpose.entry turn.old.performed) turn.old) }
{
    let performed = taken(&mut turn.performed);
    end_maybe(turn, purpose, performed)
}

/// Goes on after a body of a task.
#[inline(never)]
fn go_on_stepping<'s>(turn: &mut Turn<'s>, task: TaskId) -> Result<(), AllocError>
    ensures { OnOk result (turn.new ≡ after (page.step_ended task turn.old.performed) turn.old) }
{
    let performed = taken(&mut turn.performed);
    end_step(turn, task, performed)
}

/// Logs a failure that nothing catches.
#[inline(never)]
fn tell<'s>(turn: &mut Turn<'s>) -> Result<(), AllocError>
    ensures { OnOk result (turn.new ≡ after (tell_failure turn.old.performed) turn.old) }
{
    let performed = taken(&mut turn.performed);
    tell_failure(turn, performed)
}

/// Goes on with a body, unless what it performed last raised.
#[inline(never)]
fn go_on_unless_raised<'s>(turn: &mut Turn<'s>, rest: Rest<'s>) -> Result<(), AllocError>
    requires bounded { Bounded turn.old.world }
    ensures { OnOk result (turn.new ≡ after (unless_raised turn.old.performed (page.perform_rest
        rest.entry.itself rest.entry.actions rest.entry.end rest.entry.input)) turn.old) }
{
    match &turn.performed {
        Performed::Raised(_) => {
            drop(rest);
            Ok(())
        }
        Performed::Done | Performed::Gave(_) | Performed::Awaits(_) => {
            clear(&mut turn.performed);
            go_on(turn, rest)
        }
    }
}

/// Starts the next action of a body, or ends it.
fn go_on<'s>(turn: &mut Turn<'s>, rest: Rest<'s>) -> Result<(), AllocError>
    requires bounded { Bounded turn.old.world }
    requires done { turn.old.performed ≡ Done }
    ensures { OnOk result (turn.new ≡ after (page.perform_rest rest.entry.itself rest.entry.actions
        rest.entry.end rest.entry.input) turn.old) }
{
    let Rest {
        itself,
        actions,
        end,
        input,
    } = rest;
    let bound = &itself;
    match actions.split() {
        None => end_body(turn, *bound, end.get(), input),
        Some((action, actions)) => {
            turn.stack.push(Frame::Rest(Rest {
                itself: *bound,
                actions,
                end,
                input,
            }))?;
            act(turn, *bound, action)
        }
    }
}

/// Ends a body on an input: with what its end returns, or with the body that runs in its place.
fn end_body<'s>(
    turn: &mut Turn<'s>,
    itself: Option<DeferredId>,
    end: &'s End,
    input: Input,
) -> Result<(), AllocError>
    requires done { turn.old.performed ≡ Done }
    ensures { OnOk result (turn.new ≡ after (page.perform_end itself end.now input) turn.old) }
{
    match body_for(&turn.world, end) {
        None => {
            turn.performed = ended(turn.alloc, &turn.world, itself, end, input.into_value())?;
            Ok(())
        }
        Some(declared) => run_body(turn, itself, input, declared),
    }
}

/// The body that runs in place of an end: the one that it names.
fn body_for<'s>(world: &World<'s>, end: &'s End) -> Option<&'s NamedBody>
    ensures { option_copied result ≡ page.body_for end.now world.now }
{
    match end {
        End::Run(name) => world.body_named(name.as_str()),
        End::Return(_)
        | End::Pass
        | End::Plus(_)
        | End::Raise(_, _)
        | End::Trap(_, _)
        | End::Wait(_)
        | End::Throw(_) => None,
    }
}

/// Begins a body that the script declares on an input, after that is logged.
fn run_body<'s>(
    turn: &mut Turn<'s>,
    itself: Option<DeferredId>,
    input: Input,
    declared: &'s NamedBody,
) -> Result<(), AllocError>
    requires done { turn.old.performed ≡ Done }
    ensures { OnOk result (turn.new ≡ after (page.run_body itself input declared.now) turn.old) }
{
    match turn.world.begin_body(declared)? {
        None => {
            drop(input);
            Ok(())
        }
        Some(body) => turn
            .stack
            .push(Frame::Rest(whole(itself, BodyRef::new(body), input))),
    }
}
