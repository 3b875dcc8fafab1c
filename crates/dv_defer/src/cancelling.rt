ghost use Rattle.std.specs.Prelude.{◌≡◌, ◌++◌, OnOk};
ghost use Rattle.dv_definition.specs.Definition as page;
ghost use Rattle.dv_definition.specs.Rule.{Fires, after};
ghost use Rattle.dv_definition.specs.Words.{calls, cancels, what_is_awaited};
ghost use Rattle.dv_objects.specs.Refusals.{cancelled};
ghost use Rattle.dv_objects.specs.declared.performed.Performed.TheVariants.{Done};

use dv_frames::following::{fire_and_settle, whole};
use dv_frames::frame::Frame;
use dv_frames::frames::Frames;
use dv_frames::turn::Turn;
use dv_journal::deferred_id::DeferredId;
use dv_objects::inline_id::InlineId;
use dv_objects::input::Input;
use dv_objects::performed::Performed;
use dv_objects::reached::Reached;
use dv_objects::refusals::cancelled;
use std::alloc::AllocError;

/// Cancels a Deferred: logs that, and starts with what it reaches (Twisted: `Deferred.cancel`).
pub fn cancel<'s>(turn: &mut Turn<'s>, id: DeferredId) -> Result<(), AllocError>
    requires done { turn.old.performed ≡ Done }
    ensures { OnOk result (turn.new ≡ after (page.cancel id) turn.old) }
{
    match turn.world.cancel(id)? {
        Reached::Nothing => Ok(()),
        Reached::Fire(end) => {
            turn.world.fire_then_swallow(end)?;
            turn.stack.push(Frame::Settle(end))
        }
        Reached::Run(end, canceller) => {
            turn.stack.push(Frame::Canceller(end))?;
            turn.stack
                .push(Frame::Rest(whole(Some(end), canceller, Input::null())))
        }
        Reached::Children(children) => cancel_children(&mut turn.stack, children.as_slice()),
        Reached::Inline(inline) => cancel_awaited(turn, inline),
        Reached::ForItem(end, queue) => {
            turn.world.withdraw(queue, end);
            fire_cancelled(turn, end)
        }
        Reached::ForToken(end, lock) => {
            turn.world.forget(lock, end);
            fire_cancelled(turn, end)
        }
    }
}

/// Fires a Deferred with CancelledError.
fn fire_cancelled<'s>(turn: &mut Turn<'s>, id: DeferredId) -> Result<(), AllocError>
    requires done { turn.old.performed ≡ Done }
    ensures { OnOk result (turn.new ≡ after (Fires id cancelled) turn.old) }
{
    fire_and_settle(turn, id, cancelled(turn.alloc)?)
}

/// The children of a DeferredList are to be cancelled in order. A failure that leaves a cancel is
/// logged, and the next one follows.
fn cancel_children<'s>(stack: &mut Frames<'s>, children: &[DeferredId]) -> Result<(), AllocError>
    ensures { OnOk result (stack.new ≡ page.cancel_children children.now ++ stack.old) }
{
    for place in (0..children.len()).rev() {
        stack.push(Frame::Tell)?;
        stack.push(Frame::Cancel(children[place]))?;
    }
    Ok(())
}

/// What an inline body awaits is to be cancelled, where it awaits something, and nothing else
/// happens.
fn cancel_awaited(turn: &mut Turn<'_>, inline: InlineId) -> Result<(), AllocError>
    requires done { turn.old.performed ≡ Done }
    ensures { OnOk result
        (turn.new ≡ after (what_is_awaited inline λ e. calls (cancels e)) turn.old) }
{
    if let Some(awaited) = turn.world.awaited(inline) {
        turn.stack.push(Frame::Cancel(awaited))?;
    }
    Ok(())
}

/// Goes on after a canceller of a Deferred, by its result: its failure is raised, and else the
/// Deferred is fired where it still may be.
pub fn end_canceller<'s>(
    turn: &mut Turn<'s>,
    id: DeferredId,
    performed: Performed<'s>,
) -> Result<(), AllocError>
    requires done { turn.old.performed ≡ Done }
    ensures { OnOk result (turn.new ≡ after (page.after_canceller id performed.entry) turn.old) }
{
    match performed.into_failure(turn.alloc)? {
        Some(failure) => {
            turn.performed = Performed::Raised(failure);
            Ok(())
        }
        None => {
            if !turn.world.is_unfired(id) {
                return Ok(());
            }
            fire_cancelled(turn, id)
        }
    }
}
