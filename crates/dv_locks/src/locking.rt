ghost use Rattle.std.specs.Prelude.{◌≡◌, OnOk};
ghost use Rattle.dv_frames.specs.Bounds.{Bounded};
ghost use Rattle.dv_definition.specs.Definition as page;
ghost use Rattle.dv_definition.specs.Rule.{after};
ghost use Rattle.dv_definition.specs.Words.{on_lock};
ghost use Rattle.dv_objects.specs.declared.performed.Performed.TheVariants.{Done};

use dv_frames::following::fire_and_settle;
use dv_frames::frame::Frame;
use dv_frames::turn::Turn;
use dv_journal::deferred_id::DeferredId;
use dv_objects::canceller::Canceller;
use dv_objects::pair::Pair;
use dv_objects::refusals::not_held;
use dv_prims::lock_id::LockId;
use dv_script::lent::{BodyRef, TextRef};
use dv_value::text::Text;
use dv_value::value::Value;
use std::alloc::AllocError;

/// Makes a Deferred that asks a lock for a token, both by their names (Twisted:
/// `DeferredLock.acquire`, `DeferredSemaphore.acquire`).
pub fn acquire<'s>(turn: &mut Turn<'s>, name: TextRef<'s>, lock: &str) -> Result<(), AllocError>
    requires bounded { Bounded turn.old.world }
    requires done { turn.old.performed ≡ Done }
    ensures { OnOk result
        (turn.new ≡ after (on_lock lock.now λ l. page.acquire name.entry l) turn.old) }
{
    let Some(found) = turn.find_lock(lock)? else {
        return Ok(());
    };
    acquire_found(turn, name, found)
}

/// Performs a body with a token of a lock, and gives the token back once what the body gave is
/// fired; the lock and the Deferred that is made are given by their names (Twisted:
/// `DeferredLock.run`, `DeferredSemaphore.run`).
#[tactic(auto, using(dv_frames::proofs::BoundsLemmas::records_within))]
pub fn run_with<'s>(
    turn: &mut Turn<'s>,
    name: TextRef<'s>,
    lock: &str,
    body: BodyRef<'s>,
) -> Result<(), AllocError>
    requires bounded { Bounded turn.old.world }
    requires done { turn.old.performed ≡ Done }
    ensures { OnOk result
        (turn.new ≡ after (on_lock lock.now λ l. page.run_with name.entry l body.entry) turn.old) }
{
    let Some(found) = turn.find_lock(lock)? else {
        return Ok(());
    };
    let id = turn.world.next_id();
    turn.stack.push(Frame::Add(id, Pair::holding(found, body)))?;
    acquire_found(turn, name, found)
}

/// Makes a Deferred that asks a lock for a token.
#[tactic(auto, using(dv_frames::proofs::BoundsLemmas::records_within))]
fn acquire_found<'s>(turn: &mut Turn<'s>, name: TextRef<'s>, lock: LockId) -> Result<(), AllocError>
    requires bounded { Bounded turn.old.world }
    requires done { turn.old.performed ≡ Done }
    ensures { OnOk result (turn.new ≡ after (page.acquire name.entry lock) turn.old) }
{
    let id = turn.world.next_id();
    turn.world.make(Some(name), Some(Canceller::Token(lock)))?;
    ask(turn, lock, id)
}

/// A Deferred asks a lock for a token, and is fired at once where it gets one.
fn ask<'s>(turn: &mut Turn<'s>, lock: LockId, id: DeferredId) -> Result<(), AllocError>
    requires done { turn.old.performed ≡ Done }
    ensures { OnOk result (turn.new ≡ after (page.ask_lock lock id) turn.old) }
{
    let Some(semaphore) = turn.world.lock(lock) else {
        return Ok(());
    };
    let to = if semaphore.has_free() { Some(id) } else { None };
    let name = Text::of(turn.alloc, semaphore.name())?;
    turn.world.ask(lock, id)?;
    grant(turn, to, name)
}

/// Gives a token back to a lock by its name (Twisted: `DeferredLock.release`,
/// `DeferredSemaphore.release`).
pub fn release<'s>(turn: &mut Turn<'s>, lock: &str) -> Result<(), AllocError>
    requires done { turn.old.performed ≡ Done }
    ensures { OnOk result (turn.new ≡ after (on_lock lock.now page.release) turn.old) }
{
    let Some(found) = turn.find_lock(lock)? else {
        return Ok(());
    };
    give_back(turn, found)
}

/// Gives a token back to a lock, where one is given, and fires the first that waits, where one
/// does.
pub fn give_back<'s>(turn: &mut Turn<'s>, lock: LockId) -> Result<(), AllocError>
    requires done { turn.old.performed ≡ Done }
    ensures { OnOk result (turn.new ≡ after (page.release lock) turn.old) }
{
    let Some(semaphore) = turn.world.lock(lock) else {
        return Ok(());
    };
    if semaphore.is_unheld() {
        turn.performed = not_held(turn.alloc)?;
        return Ok(());
    }
    let to = semaphore.first_waiting();
    let name = Text::of(turn.alloc, semaphore.name())?;
    turn.world.release(lock)?;
    grant(turn, to, name)
}

/// Fires the one that has got a token with the name of its lock.
fn grant<'s>(turn: &mut Turn<'s>, to: Option<DeferredId>, name: Text) -> Result<(), AllocError>
    requires done { turn.old.performed ≡ Done }
    ensures { OnOk result (turn.new ≡ after (page.grant to name) turn.old) }
{
    match to {
        None => Ok(()),
        Some(id) => fire_and_settle(turn, id, Value::Text(name)),
    }
}
