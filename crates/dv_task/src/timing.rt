ghost use Rattle.std.specs.Prelude.{◌≡◌, OnOk};
ghost use Rattle.dv_definition.specs.Definition as page;
ghost use Rattle.dv_definition.specs.Rule.{Asks, Ends, after};
ghost use Rattle.dv_definition.specs.Steps.{CancelCall, ResetCall};
ghost use Rattle.dv_definition.specs.Words.{on_call, on_deferred};
ghost use Rattle.dv_objects.specs.declared.performed.Performed.TheVariants.{Done};

use dv_clock::delay_from::DelayFrom;
use dv_frames::following::add_and_settle;
use dv_frames::frame::Frame;
use dv_frames::turn::Turn;
use dv_journal::deferred_id::DeferredId;
use dv_objects::pair::Pair;
use dv_script::body::Body;
use std::alloc::AllocError;

/// Cancels a delayed call by its name (Twisted: `DelayedCall.cancel`).
pub fn cancel_call<'s>(turn: &mut Turn<'s>, name: &str) -> Result<(), AllocError>
    requires done { turn.old.performed ≡ Done }
    ensures { OnOk result
        (turn.new ≡ after (on_call name.now λ number. Asks (CancelCall number) Ends) turn.old) }
{
    let Some(call) = turn.find_call(name)? else {
        return Ok(());
    };
    turn.performed = turn.world.cancel_call(call)?;
    Ok(())
}

/// Gives a delayed call a delay anew by its name, in ticks from now or from when it was due
/// (Twisted: `DelayedCall.reset`, `DelayedCall.delay`).
pub fn reset_call<'s>(
    turn: &mut Turn<'s>,
    name: &str,
    from: DelayFrom,
    delay: u64,
) -> Result<(), AllocError>
    requires done { turn.old.performed ≡ Done }
    ensures { OnOk result (turn.new ≡ after
        (on_call name.now λ number. Asks (ResetCall number from delay) Ends) turn.old) }
{
    let Some(call) = turn.find_call(name)? else {
        return Ok(());
    };
    turn.performed = turn.world.reset_call(call, from, delay)?;
    Ok(())
}

/// Looks up a Deferred by its name, and sets a timer on it. If that expires, it cancels the
/// Deferred; the first pair that is added then runs the body, if there is one, on its input
/// (Twisted: `Deferred.addTimeout`, its `onTimeoutCancel`).
pub fn add_timeout<'s>(
    turn: &mut Turn<'s>,
    itself: Option<DeferredId>,
    name: &str,
    delay: u64,
    body: &'s Option<Body>,
) -> Result<(), AllocError>
    requires done { turn.old.performed ≡ Done }
    ensures { OnOk result (turn.new
        ≡ after (on_deferred itself name.now λ d. page.add_timeout d delay body.now) turn.old) }
{
    let Some(id) = turn.find(itself, name)? else {
        return Ok(());
    };
    begin_timer(turn, id, delay, body)
}

/// Starts a timer of a Deferred, and adds the two pairs that go with it.
fn begin_timer<'s>(
    turn: &mut Turn<'s>,
    id: DeferredId,
    delay: u64,
    body: &'s Option<Body>,
) -> Result<(), AllocError>
    requires done { turn.old.performed ≡ Done }
    ensures { OnOk result (turn.new ≡ after (page.add_timeout id delay body.now) turn.old) }
{
    let timer = turn.world.start_timer(id, delay)?;
    turn.stack.push(Frame::Add(id, Pair::ending(timer)))?;
    add_and_settle(turn, id, Pair::watching(timer, body))
}
