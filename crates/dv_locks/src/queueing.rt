ghost use Rattle.std.specs.Prelude.{◌≡◌, OnOk};
ghost use Rattle.dv_frames.specs.Bounds.{Bounded};
ghost use Rattle.dv_definition.specs.Definition as page;
ghost use Rattle.dv_definition.specs.Rule.{after};
ghost use Rattle.dv_definition.specs.Words.{fire_with, on_queue};
ghost use Rattle.dv_objects.specs.declared.performed.Performed.TheVariants.{Done};

use dv_frames::following::fire_and_settle;
use dv_frames::turn::Turn;
use dv_journal::deferred_id::DeferredId;
use dv_objects::canceller::Canceller;
use dv_objects::given::Given;
use dv_objects::refusals::{overflow, underflow};
use dv_prims::queue_id::QueueId;
use dv_script::lent::TextRef;
use dv_value::value::Value;
use std::alloc::AllocError;

/// Puts a value into a queue by its name (Twisted: `DeferredQueue.put`).
pub fn put<'s>(turn: &mut Turn<'s>, queue: &str, given: Given<'s>) -> Result<(), AllocError>
    requires done { turn.old.performed ≡ Done }
    ensures { OnOk result
        (turn.new ≡ after (on_queue queue.now λ k. page.put_in k given.entry) turn.old) }
{
    let Some(found) = turn.find_queue(queue)? else {
        drop(given);
        return Ok(());
    };
    put_where_it_may_be(turn, found, given)
}

/// Puts a value into a queue, where it may be, and fires the one that gets it.
fn put_where_it_may_be<'s>(
    turn: &mut Turn<'s>,
    queue: QueueId,
    given: Given<'s>,
) -> Result<(), AllocError>
    requires done { turn.old.performed ≡ Done }
    ensures { OnOk result (turn.new ≡ after (page.put_in queue given.entry) turn.old) }
{
    let Some(found) = turn.world.queue(queue) else {
        drop(given);
        return Ok(());
    };
    if !found.may_put() {
        drop(given);
        turn.performed = overflow(turn.alloc)?;
        return Ok(());
    }
    let value = given.make(turn.alloc)?;
    let received = turn.world.put_into(queue, value)?;
    hand_out(turn, received)
}

/// Fires the one that gets a value with it.
fn hand_out<'s>(
    turn: &mut Turn<'s>,
    received: Option<(DeferredId, Value)>,
) -> Result<(), AllocError>
    requires done { turn.old.performed ≡ Done }
    ensures { OnOk result (turn.new ≡ after (page.hand_out received) turn.old) }
{
    match received {
        None => Ok(()),
        Some((id, value)) => fire_and_settle(turn, id, value),
    }
}

/// Makes a Deferred that asks a queue for a value, both by their names (Twisted:
/// `DeferredQueue.get`).
pub fn get<'s>(turn: &mut Turn<'s>, name: TextRef<'s>, queue: &str) -> Result<(), AllocError>
    requires bounded { Bounded turn.old.world }
    requires done { turn.old.performed ≡ Done }
    ensures { OnOk result
        (turn.new ≡ after (on_queue queue.now λ k. page.get_out name.entry k) turn.old) }
{
    let Some(found) = turn.find_queue(queue)? else {
        return Ok(());
    };
    get_where_it_may(turn, name, found)
}

/// Makes a Deferred that asks a queue for a value, where it may.
#[tactic(auto, using(dv_frames::proofs::BoundsLemmas::records_within))]
fn get_where_it_may<'s>(
    turn: &mut Turn<'s>,
    name: TextRef<'s>,
    queue: QueueId,
) -> Result<(), AllocError>
    requires bounded { Bounded turn.old.world }
    requires done { turn.old.performed ≡ Done }
    ensures { OnOk result (turn.new ≡ after (page.get_out name.entry queue) turn.old) }
{
    let Some(found) = turn.world.queue(queue) else {
        return Ok(());
    };
    if !found.may_get() {
        turn.performed = underflow(turn.alloc)?;
        return Ok(());
    }
    let id = turn.world.next_id();
    turn.world.make(Some(name), Some(Canceller::Item(queue)))?;
    ask(turn, queue, id)
}

/// A Deferred asks a queue for a value, and is fired at once where it gets one.
fn ask<'s>(turn: &mut Turn<'s>, queue: QueueId, id: DeferredId) -> Result<(), AllocError>
    requires done { turn.old.performed ≡ Done }
    ensures { OnOk result (turn.new ≡ after (page.ask_queue queue id) turn.old) }
{
    let value = turn.world.get_from(queue, id)?;
    give(turn, id, value)
}

/// Fires a Deferred with the value that it got, if it did.
fn give<'s>(turn: &mut Turn<'s>, id: DeferredId, value: Option<Value>) -> Result<(), AllocError>
    requires done { turn.old.performed ≡ Done }
    ensures { OnOk result (turn.new ≡ after (fire_with id value) turn.old) }
{
    match value {
        None => Ok(()),
        Some(value) => fire_and_settle(turn, id, value),
    }
}
