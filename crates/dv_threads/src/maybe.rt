ghost use Rattle.std.specs.Prelude.{◌≡◌, ◌<◌, ◌^◌, ◌-◌, ◌++◌, None, length, IfOk, OnOk};
ghost use Rattle.dv_definition.specs.Definition as page;
ghost use Rattle.dv_definition.specs.Rule.{Ends, after};
ghost use Rattle.dv_definition.specs.Scripts.{unless_raised};
ghost use Rattle.dv_frames.specs.Bounds.{Bounded};
ghost use Rattle.dv_objects.specs.declared.performed.Performed.TheVariants.{Done};
ghost use Rattle.dv_world.specs.World.{make};

use dv_frames::following::fire_and_settle;
use dv_frames::frame::{Frame, Purpose};
use dv_frames::frames::Frames;
use dv_frames::turn::Turn;
use dv_journal::deferred_id::DeferredId;
use dv_objects::pair::Pair;
use dv_objects::performed::Performed;
use dv_script::lent::TextRef;
use dv_value::value::Value;
use std::alloc::AllocError;

/// What a body gave becomes a Deferred for this.
pub fn end_maybe<'s>(
    turn: &mut Turn<'s>,
    purpose: Purpose<'s>,
    performed: Performed<'s>,
) -> Result<(), AllocError>
    requires bounded { Bounded turn.old.world }
    requires done { turn.old.performed ≡ Done }
    ensures { OnOk result
        (turn.new ≡ after (page.deferred_of purpose.entry performed.entry) turn.old) }
{
    match performed {
        Performed::Done => make_with(turn, purpose, Value::Null),
        Performed::Gave(given) => make_with(turn, purpose, given.make(turn.alloc)?),
        Performed::Raised(failure) => make_with(turn, purpose, Value::Fault(failure)),
        Performed::Awaits(id) => take_for(turn, purpose, id),
    }
}

/// Makes a Deferred and fires it with a value.
#[tactic(auto, using(dv_frames::proofs::BoundsLemmas::records_within))]
fn make_with<'s>(turn: &mut Turn<'s>, purpose: Purpose<'s>, value: Value) -> Result<(), AllocError>
    requires bounded { Bounded turn.old.world }
    requires done { turn.old.performed ≡ Done }
    ensures { OnOk result (turn.new ≡ after (page.made_with purpose.entry value) turn.old) }
{
    let id = turn.world.next_id();
    if make_for(turn, purpose, id).is_err() {
        drop(value);
        return Err(AllocError);
    }
    fire_and_settle(turn, id, value)
}

/// Makes a Deferred, and what it is for is to follow.
fn make_for<'s>(turn: &mut Turn<'s>, purpose: Purpose<'s>, id: DeferredId) -> Result<(), AllocError>
    requires { length turn.old.world.records < 2 ^ 32 - 1 }
    ensures { OnOk result (turn.new ≡ record turn.old {
      world = make (page.name_for purpose.entry) None turn.old.world;
      stack = page.used_for purpose.entry id ++ turn.old.stack;
    }) }
{
    let name = begin_use(&mut turn.stack, purpose, id)?;
    turn.world.make(name, None)
}

/// What a Deferred is for is to follow, and the name that it gets is answered.
fn begin_use<'s>(
    stack: &mut Frames<'s>,
    purpose: Purpose<'s>,
    id: DeferredId,
) -> Result<Option<TextRef<'s>>, AllocError>
    ensures name { IfOk result (λ name. name ≡ page.name_for purpose.entry) }
    ensures stack { OnOk result (stack.new ≡ page.used_for purpose.entry id ++ stack.old) }
{
    match purpose {
        Purpose::Named(name) => Ok(Some(name)),
        Purpose::Holding(lock) => {
            stack.push(Frame::Give(Performed::Awaits(id)))?;
            stack.push(Frame::Add(id, Pair::releasing(lock)))?;
            Ok(None)
        }
        Purpose::Turning(looping) => {
            stack.push(Frame::Add(id, Pair::turning(looping)))?;
            Ok(None)
        }
    }
}

/// A Deferred that a body gave is taken as it is.
fn take_for<'s>(turn: &mut Turn<'s>, purpose: Purpose<'s>, id: DeferredId) -> Result<(), AllocError>
    requires done { turn.old.performed ≡ Done }
    ensures { OnOk result (turn.new ≡ after (page.taken_for purpose.entry id) turn.old) }
{
    match begin_use(&mut turn.stack, purpose, id)? {
        None => Ok(()),
        Some(name) => turn.world.bind_name(name.as_str(), id),
    }
}

/// Gives this, unless what was done before raised.
pub fn give_after<'s>(turn: &mut Turn<'s>, given: Performed<'s>)
    ensures { turn.new ≡ after (unless_raised turn.old.performed (Ends given.entry)) turn.old }
{
    match &turn.performed {
        Performed::Done | Performed::Gave(_) | Performed::Awaits(_) => turn.performed = given,
        Performed::Raised(_) => drop(given),
    }
}
