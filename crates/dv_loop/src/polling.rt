ghost use Rattle.std.specs.Prelude.{◌≡◌, OnOk};
ghost use Rattle.dv_definition.specs.Definition as page;
ghost use Rattle.dv_definition.specs.Rule.{after};
ghost use Rattle.dv_definition.specs.Scripts.{inline_goes};
ghost use Rattle.dv_objects.specs.declared.performed.Performed.TheVariants.{Done};
ghost use Rattle.dv_frames.specs.Bounds.{Bounded};
ghost use Rattle.dv_inline.specs.Position.{request_at};

use crate::acting::act;
use crate::taking::taken;
use dv_frames::following::fire_and_settle;
use dv_frames::frame::{Frame, Inlining};
use dv_frames::turn::Turn;
use dv_inline::body::InlineBody;
use dv_inline::poller::Poller;
use dv_inline::request::Request;
use dv_objects::inline_id::Inline;
use dv_objects::performed::Performed;
use dv_threads::inlining::{begin_await, end_action, end_await};
use futures::task::Poll;
use std::alloc::AllocError;

/// Goes on with an inline body by how far it is.
#[inline(never)]
pub fn go_on<'s>(
    poller: &Poller,
    turn: &mut Turn<'s>,
    inlining: Inlining<'s>,
) -> Result<(), AllocError>
    requires bounded { Bounded turn.old.world }
    ensures { OnOk result
        (turn.new ≡ after (inline_goes inlining.entry turn.old.performed) turn.old) }
{
    match inlining {
        Inlining::Goes(inline, body) => {
            turn.performed = Performed::Done;
            poll(poller, turn, inline, body)
        }
        Inlining::Acted(inline, body) => {
            let performed = taken(&mut turn.performed);
            end_action(turn, inline, body, performed)
        }
        Inlining::Awaited(inline, awaited, body) => {
            turn.performed = Performed::Done;
            end_await(turn, inline, awaited, body)
        }
    }
}

/// Polls a body: it is over, and its Deferred is fired, or what it requests is done.
fn poll<'s>(
    poller: &Poller,
    turn: &mut Turn<'s>,
    inline: Inline,
    body: InlineBody<'s>,
) -> Result<(), AllocError>
    requires bounded { Bounded turn.old.world }
    requires done { turn.old.performed ≡ Done }
    ensures { OnOk result (turn.new ≡ after (page.go_on inline body.entry) turn.old) }
{
    let mut body = body;
    match poller.poll(&mut body) {
        Poll::Ready(outcome) => fire_and_settle(turn, inline.of, outcome?),
        Poll::Pending => do_requested(turn, inline, body),
    }
}

/// Does what a body requests.
fn do_requested<'s>(
    turn: &mut Turn<'s>,
    inline: Inline,
    body: InlineBody<'s>,
) -> Result<(), AllocError>
    requires bounded { Bounded turn.old.world }
    requires done { turn.old.performed ≡ Done }
    ensures { OnOk result
        (turn.new ≡ after (page.do_requested inline (request_at body.entry) body.entry) turn.old) }
{
    match body.request() {
        None => {
            drop(body);
            Ok(())
        }
        Some(Request::Do(action)) => {
            let of = inline.of;
            let action = action.get();
            turn.stack
                .push(Frame::Inline(Inlining::Acted(inline, body)))?;
            act(turn, Some(of), action)
        }
        Some(Request::Await(name)) => begin_await(turn, inline, name, body),
    }
}
