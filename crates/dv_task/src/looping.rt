ghost use Rattle.std.specs.Prelude.{◌≡◌, OnOk};
ghost use Rattle.dv_frames.specs.Bounds.{Bounded};
ghost use Rattle.dv_definition.specs.Definition as page;
ghost use Rattle.dv_definition.specs.Rule.{after};
ghost use Rattle.dv_definition.specs.Words.{fire_if, on_loop};
ghost use Rattle.dv_objects.specs.declared.performed.Performed.TheVariants.{Done};
ghost use Rattle.dv_value.specs.declared.value.Value.{Text as TextValue};

use dv_clock::loop_id::LoopId;
use dv_frames::following::fire_and_settle;
use dv_frames::frame::Purpose;
use dv_frames::maybe::perform_for;
use dv_frames::turn::Turn;
use dv_journal::deferred_id::DeferredId;
use dv_journal::entry::Entry;
use dv_script::lent::{BodiesRef, BodyRef, TextRef};
use dv_value::text::Text;
use dv_value::value::Value;
use dv_world::world::looping::not_running;
use std::alloc::AllocError;

/// Makes a loop and its Deferred, and takes its first turn at once or schedules it (Twisted:
/// `LoopingCall.start`).
#[tactic(auto, using(dv_frames::proofs::BoundsLemmas::records_within))]
pub fn start_loop<'s>(
    turn: &mut Turn<'s>,
    name: TextRef<'s>,
    of: TextRef<'s>,
    interval: u64,
    at_once: bool,
    body: BodyRef<'s>,
    bodies: BodiesRef<'s>,
) -> Result<(), AllocError>
    requires bounded { Bounded turn.old.world }
    requires done { turn.old.performed ≡ Done }
    ensures { OnOk result (turn.new
        ≡ after (page.loop name.entry of.entry interval at_once body.entry bodies.entry) turn.old) }
{
    let id = turn.world.next_id();
    turn.world.make(Some(of), None)?;
    begin_loop(turn, name, id, interval, at_once, body, bodies)
}

/// Makes a loop whose Deferred this is, and takes its first turn at once or schedules it.
fn begin_loop<'s>(
    turn: &mut Turn<'s>,
    name: TextRef<'s>,
    of: DeferredId,
    interval: u64,
    at_once: bool,
    body: BodyRef<'s>,
    bodies: BodiesRef<'s>,
) -> Result<(), AllocError>
    requires done { turn.old.performed ≡ Done }
    ensures { OnOk result (turn.new
        ≡ after (page.begin_loop name.entry of interval at_once body.entry bodies.entry) turn.old) }
{
    let shown = name.as_str();
    let body = body.get();
    let looping = turn
        .world
        .make_loop(name, of, interval, BodyRef::new(body), bodies)?;
    if at_once {
        begin_at_once(turn, looping, shown, BodyRef::new(body))
    } else {
        turn.world.schedule_turn(looping)
    }
}

/// A loop takes its first turn at once.
fn begin_at_once<'s>(
    turn: &mut Turn<'s>,
    looping: LoopId,
    name: &str,
    body: BodyRef<'s>,
) -> Result<(), AllocError>
    requires done { turn.old.performed ≡ Done }
    ensures { OnOk result
        (turn.new ≡ after (page.first_turn name.now looping body.entry) turn.old) }
{
    turn.world.tell(Entry::Turn(Text::of(turn.alloc, name)?))?;
    turn.world.begin_turn(looping);
    perform_for(turn, Purpose::Turning(looping), body)
}

/// The body of a loop's next turn is to be performed, and the turn after that has the next one.
pub fn take_turn(turn: &mut Turn<'_>, looping: LoopId) -> Result<(), AllocError>
    requires done { turn.old.performed ≡ Done }
    ensures { OnOk result (turn.new ≡ after (page.take_turn looping) turn.old) }
{
    match turn.world.looping(looping) {
        None => Ok(()),
        Some(found) => {
            let body = BodyRef::new(found.body.get());
            turn.world.begin_turn(looping);
            perform_for(turn, Purpose::Turning(looping), body)
        }
    }
}

/// A turn of a loop has ended: while the loop runs its next turn is scheduled, else its Deferred is
/// fired with its name.
pub fn end_turn<'s>(turn: &mut Turn<'s>, looping: LoopId) -> Result<(), AllocError>
    requires done { turn.old.performed ≡ Done }
    ensures { OnOk result (turn.new ≡ after (page.end_turn looping) turn.old) }
{
    let Some(found) = turn.world.looping(looping) else {
        return Ok(());
    };
    if found.running {
        turn.world.schedule_turn(looping)?;
        return Ok(());
    }
    let of = found.of;
    let name = Text::of(turn.alloc, found.name.as_str())?;
    fire_and_settle(turn, of, Value::Text(name))
}

/// A turn of a loop has failed: the loop ends, and its Deferred is fired with the failure.
pub fn fail_turn<'s>(turn: &mut Turn<'s>, looping: LoopId, failure: Value) -> Result<(), AllocError>
    requires done { turn.old.performed ≡ Done }
    ensures { OnOk result (turn.new ≡ after (page.fail_turn looping failure) turn.old) }
{
    turn.world.end_loop(looping);
    let Some(found) = turn.world.looping(looping) else {
        drop(failure);
        return Ok(());
    };
    let of = found.of;
    fire_and_settle(turn, of, failure)
}

/// Stops a loop by its name; where no turn of it is under way, its Deferred is fired with its name
/// (Twisted: `LoopingCall.stop`).
pub fn stop_loop<'s>(turn: &mut Turn<'s>, name: &str) -> Result<(), AllocError>
    requires done { turn.old.performed ≡ Done }
    ensures { OnOk result (turn.new ≡ after (on_loop name.now page.stop_loop) turn.old) }
{
    let Some(looping) = turn.find_loop(name)? else {
        return Ok(());
    };
    stop(turn, looping)
}

/// Stops a loop, where it runs.
fn stop<'s>(turn: &mut Turn<'s>, looping: LoopId) -> Result<(), AllocError>
    requires done { turn.old.performed ≡ Done }
    ensures { OnOk result (turn.new ≡ after (page.stop_loop looping) turn.old) }
{
    let Some(found) = turn.world.looping(looping) else {
        return Ok(());
    };
    if !found.running {
        turn.performed = not_running(turn.alloc)?;
        return Ok(());
    }
    let of = found.of;
    let name = Text::of(turn.alloc, found.name.as_str())?;
    let scheduled = turn.world.is_scheduled(found);
    turn.world.stop_loop(looping)?;
    end_where(turn, scheduled, of, name)
}

/// Fires the Deferred of a loop with its name, where the loop is over.
fn end_where<'s>(
    turn: &mut Turn<'s>,
    ended: bool,
    of: DeferredId,
    name: Text,
) -> Result<(), AllocError>
    requires done { turn.old.performed ≡ Done }
    ensures { OnOk result (turn.new ≡ after (fire_if ended of (TextValue name)) turn.old) }
{
    if ended {
        fire_and_settle(turn, of, Value::Text(name))
    } else {
        Ok(())
    }
}
