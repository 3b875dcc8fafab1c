//! What an event or a post begins with.

ghost use Rattle.std.specs.Prelude.{◌≡◌, OnOk};
ghost use Rattle.dv_objects.specs.declared.performed.Performed.TheVariants.{Done};
ghost use Rattle.dv_definition.specs.Rule.{after};
ghost use Rattle.dv_definition.specs.Scripts.{Posts, Occurs, expect, happens, judge};
ghost use Rattle.dv_frames.specs.Bounds.{Bounded};

use crate::acting::act;
use dv_frames::following::whole;
use dv_frames::frame::Frame;
use dv_frames::turn::Turn;
use dv_journal::deferred_id::DeferredId;
use dv_journal::entry::Entry;
use dv_objects::input::Input;
use dv_posts::posted::Posted;
use dv_script::body::Body;
use dv_script::event::Event;
use dv_script::lent::BodyRef;
use dv_value::boxed::Boxed;
use dv_value::expected::Expected;
use dv_value::text::Text;
use dv_world::world::expecting::is_met;
use std::alloc::AllocError;

/// Begins an event. Performs an action, in which `@` isn't bound, and logs a failure that leaves
/// it; sets the time forward, and runs what is due; logs a drain; or looks whether a Deferred is as
/// it is expected to be.
pub fn begin_event<'s>(turn: &mut Turn<'s>, event: &'s Event) -> Result<(), AllocError>
    requires bounded { Bounded turn.old.world }
    requires done { turn.old.performed ≡ Done }
    ensures { OnOk result (turn.new ≡ after (happens (Occurs event.now)) turn.old) }
{
    match event {
        Event::Action(action) => {
            turn.stack.push(Frame::Tell)?;
            act(turn, None, action)
        }
        Event::Advance(ticks) => {
            turn.stack.push(Frame::Due)?;
            turn.world.advance(*ticks)
        }
        Event::Drain(_) => turn.world.tell(Entry::Drain),
        Event::Expect(name, expected) => expect(turn, name, expected),
    }
}

/// Logs what has become of the Deferred of a name. Where it isn't as expected, or the name isn't
/// bound, the run ends.
fn expect(turn: &mut Turn<'_>, name: &Text, expected: &Expected) -> Result<(), AllocError>
    requires done { turn.old.performed ≡ Done }
    ensures { OnOk result (turn.new ≡ after (expect name.now expected.now) turn.old) }
{
    match turn.world.find(None, name.as_str()) {
        Some(id) => judge(turn, id, expected),
        None => {
            let name = name.copy(turn.alloc)?;
            turn.world.tell(Entry::Unbound(name))?;
            turn.world.stop();
            Ok(())
        }
    }
}

/// Logs what has become of a Deferred. If it isn't as expected, that is logged, too, and the run
/// ends.
fn judge(turn: &mut Turn<'_>, id: DeferredId, expected: &Expected) -> Result<(), AllocError>
    requires done { turn.old.performed ≡ Done }
    ensures { OnOk result (turn.new ≡ after (judge id expected.now) turn.old) }
{
    let state = turn.world.state(id)?;
    let met = is_met(expected, &state);
    let state = Boxed::new(turn.alloc, state)?;
    if met {
        return turn.world.tell(Entry::Expect(id, state));
    }
    let expected = Boxed::new(turn.alloc, expected.copy(turn.alloc)?)?;
    turn.world.tell(Entry::Unmet(id, state, expected))?;
    turn.world.stop();
    Ok(())
}

/// Begins a post: logs it, and performs its body on null, in which `@` isn't bound; logs a failure
/// that leaves it.
pub fn begin_post<'s>(
    turn: &mut Turn<'s>,
    posted: &Posted,
    body: &'s Body,
) -> Result<(), AllocError>
    requires done { turn.old.performed ≡ Done }
    ensures { OnOk result (turn.new ≡ after (happens (Posts posted.now body.now)) turn.old) }
{
    turn.stack.push(Frame::Tell)?;
    turn.stack.push(Frame::Rest(whole(None, BodyRef::new(body), Input::null())))?;
    turn.world.tell(Entry::Post(posted.caller, posted.index))
}
