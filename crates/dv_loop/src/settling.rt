ghost use Rattle.std.specs.Prelude.{◌≡◌, Some, OnOk};
ghost use Rattle.dv_definition.specs.Definition as page;
ghost use Rattle.dv_definition.specs.Rule.{after};
ghost use Rattle.dv_value.specs.Failure.{is_fault};
ghost use Rattle.dv_objects.specs.Pair.{side_for};
ghost use Rattle.dv_store.specs.declared.store.Step.TheVariants.{Run};
ghost use Rattle.dv_objects.specs.declared.performed.Performed.TheVariants.{Done};
ghost use Rattle.dv_objects.specs.declared.pair.Side.TheVariants.{OnTimeout};
ghost use Rattle.dv_definition.specs.Words.{calls, performs};
ghost use Rattle.dv_loop.specs.Settling.{place};

use dv_clock::call_id::CallId;
use dv_frames::following::{fire_and_settle, whole};
use dv_frames::frame::{Frame, Purpose};
use dv_frames::maybe::perform_for;
use dv_frames::turn::Turn;
use dv_journal::deferred_id::DeferredId;
use dv_locks::listing::{child_fired, results};
use dv_locks::locking::give_back;
use dv_objects::given::Given;
use dv_objects::input::Input;
use dv_objects::pair::{Pair, Side};
use dv_objects::performed::Performed;
use dv_objects::timed::timed;
use dv_script::lent::BodyRef;
use dv_store::store::Step;
use dv_task::cooperating::{end_hold, fail_where};
use dv_task::looping::{end_turn, fail_turn};
use dv_threads::inlining::resume;
use dv_value::value::Value;
use dv_world::world::World;
use std::alloc::{AllocError, Global};

/// Makes the first move of settling a Deferred, and puts on the stack what is to follow (Twisted:
/// `Deferred._runCallbacks`).
#[inline(never)]
pub fn settle<'s>(turn: &mut Turn<'s>, id: DeferredId) -> Result<(), AllocError>
    requires done { turn.old.performed ≡ Done }
    ensures { OnOk result (turn.new ≡ after (page.settle id) turn.old) }
{
    match turn.world.step(id)? {
        Step::Nothing => Ok(()),
        Step::Passed => turn.stack.push(Frame::Settle(id)),
        Step::Run(pair) => run(turn, id, pair),
        Step::Handed(to) => {
            turn.stack.push(Frame::Settle(id))?;
            turn.stack.push(Frame::Settle(to))
        }
    }
}

/// Runs a pair on the value of its Deferred; its result is to be put in place.
fn run<'s>(turn: &mut Turn<'s>, id: DeferredId, pair: Pair<'s>) -> Result<(), AllocError>
    requires done { turn.old.performed ≡ Done }
    ensures { OnOk result (turn.new ≡ after (page.settle_by id (Run pair.entry)) turn.old) }
{
    if turn.stack.push(Frame::Place(id)).is_err() {
        drop(pair);
        return Err(AllocError);
    }
    match turn.world.value(id) {
        Ok(input) => run_side_for(turn, id, pair, input),
        Err(AllocError) => {
            drop(pair);
            Err(AllocError)
        }
    }
}

/// Runs the side of a pair for an input; a missing one passes it on.
fn run_side_for<'s>(
    turn: &mut Turn<'s>,
    id: DeferredId,
    pair: Pair<'s>,
    input: Value,
) -> Result<(), AllocError>
    requires done { turn.old.performed ≡ Done }
    ensures { OnOk result (turn.new
        ≡ after (page.run_side id (side_for pair.entry (is_fault input)) input) turn.old) }
{
    match pair.into_side(input.is_fault()) {
        None => {
            turn.performed = Performed::Gave(Given::own(input));
            Ok(())
        }
        Some(side) => run_side(turn, id, side, input),
    }
}

/// Runs a side on an input.
fn run_side<'s>(
    turn: &mut Turn<'s>,
    id: DeferredId,
    side: Side<'s>,
    input: Value,
) -> Result<(), AllocError>
    requires done { turn.old.performed ≡ Done }
    ensures { OnOk result (turn.new ≡ after (page.run_side id (Some side.entry) input) turn.old) }
{
    match side {
        Side::Body(body) => perform_side(turn, id, body, input),
        Side::Fire(to) => fire_and_settle(turn, to, input),
        Side::Timed(timer) => {
            let over = turn.world.has_timed_out(timer);
            let given = timed(turn.alloc, turn.world.classes(), over, input)?;
            turn.performed = Performed::Gave(given);
            Ok(())
        }
        Side::OnTimeout(timer, body) => run_if_over(turn, id, timer, body, input),
        Side::EndTimer(timer) => {
            turn.world.end_timer(timer);
            turn.performed = Performed::Gave(Given::own(input));
            Ok(())
        }
        Side::Report(child) => child_fired(turn, child, input),
        Side::Results => results(turn, input),
        Side::Hold(lock, body) => {
            drop(input);
            perform_for(turn, Purpose::Holding(lock), body)
        }
        Side::Release(lock) => {
            turn.stack
                .push(Frame::Give(Performed::Gave(Given::own(input))))?;
            give_back(turn, lock)
        }
        Side::NextTurn(looping) => {
            drop(input);
            end_turn(turn, looping)
        }
        Side::EndLoop(looping) => fail_turn(turn, looping, input),
        Side::ResumeTask(task) => {
            drop(input);
            end_hold(turn, task)
        }
        Side::FailTask(task) => fail_where(turn, task, input.into_failure()),
        Side::Resume(inline) => resume(turn, inline, input),
    }
}

/// Runs a body of a Deferred on an input.
fn perform_side<'s>(
    turn: &mut Turn<'s>,
    id: DeferredId,
    body: BodyRef<'s>,
    input: Value,
) -> Result<(), AllocError>
    requires done { turn.old.performed ≡ Done }
    ensures { OnOk result
        (turn.new ≡ after (calls (performs (Some id) body.entry input)) turn.old) }
{
    let input = Input::new(turn.alloc, input)?;
    turn.stack.push(Frame::Rest(whole(Some(id), body, input)))
}

/// Runs a body on the result of a Deferred where the time of a timer has come; else the result is
/// passed on.
fn run_if_over<'s>(
    turn: &mut Turn<'s>,
    id: DeferredId,
    timer: CallId,
    body: BodyRef<'s>,
    input: Value,
) -> Result<(), AllocError>
    requires done { turn.old.performed ≡ Done }
    ensures { OnOk result (turn.new
        ≡ after (page.run_side id (Some (OnTimeout timer body.entry)) input) turn.old) }
{
    if turn.world.has_timed_out(timer) {
        return perform_side(turn, id, body, input);
    }
    turn.performed = Performed::Gave(Given::own(input));
    Ok(())
}

/// Puts what a side of a Deferred gave in place; the Deferred is to be settled.
pub fn end_side<'s>(
    turn: &mut Turn<'s>,
    id: DeferredId,
    performed: Performed<'s>,
) -> Result<(), AllocError>
    requires done { turn.old.performed ≡ Done }
    ensures { OnOk result (turn.new ≡ after (page.put_in_place id performed.entry) turn.old) }
{
    place(turn.alloc, &mut turn.world, id, performed)?;
    turn.stack.push(Frame::Settle(id))
}

/// Puts what a side of a Deferred gave in place.
fn place<'s>(
    alloc: Global,
    world: &mut World<'s>,
    id: DeferredId,
    performed: Performed<'s>,
) -> Result<(), AllocError>
    ensures { OnOk result (world.new ≡ place id performed.entry world.old) }
{
    match performed {
        Performed::Done => world.put(id, Value::Null),
        Performed::Gave(given) => world.put(id, given.make(alloc)?),
        Performed::Raised(failure) => world.put(id, Value::Fault(failure)),
        Performed::Awaits(given) => world.put_deferred(id, given),
    }
}
