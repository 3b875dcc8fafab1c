ghost use Rattle.std.specs.Prelude.{◌≡◌, OnOk};
ghost use Rattle.dv_frames.specs.Bounds.{Bounded};
ghost use Rattle.dv_definition.specs.Definition as page;
ghost use Rattle.dv_definition.specs.Rule.{after};
ghost use Rattle.dv_value.specs.Builtin.{name_error};
ghost use Rattle.dv_value.specs.Failure.{fault as fault_of};
ghost use Rattle.dv_objects.specs.declared.performed.Performed.TheVariants.{Done};

use dv_frames::following::add_and_settle;
use dv_frames::frame::{Frame, Inlining};
use dv_frames::turn::Turn;
use dv_inline::body::InlineBody;
use dv_journal::deferred_id::DeferredId;
use dv_objects::canceller::Canceller;
use dv_objects::inline_id::Inline;
use dv_objects::pair::Pair;
use dv_objects::performed::Performed;
use dv_script::lent::{Statements, TextRef};
use dv_value::class_id::ClassId;
use dv_value::fault::fault;
use dv_value::value::Value;
use std::alloc::AllocError;

/// Makes the Deferred of an inline body, and begins the body (Twisted: `inlineCallbacks`).
#[tactic(auto, using(dv_frames::proofs::BoundsLemmas::records_within, dv_frames::proofs::BoundsLemmas::arranged_within))]
pub fn begin_inline<'s>(
    turn: &mut Turn<'s>,
    name: TextRef<'s>,
    statements: Statements<'s>,
) -> Result<(), AllocError>
    requires bounded { Bounded turn.old.world }
    requires done { turn.old.performed ≡ Done }
    ensures { OnOk result (turn.new ≡ after (page.inline name.entry statements.entry) turn.old) }
{
    let classes = turn.world.classes();
    let ends_throw = turn.world.ends_throw();
    let of = turn.world.next_id();
    let id = turn.world.add_inline()?;
    turn.world.make(Some(name), Some(Canceller::Inline(id)))?;
    let body = InlineBody::start(turn.alloc, classes, ends_throw, statements.get())?;
    turn.stack
        .push(Frame::Inline(Inlining::Goes(Inline { id, of }, body)))
}

/// A body goes on with the result of an action of it.
pub fn end_action<'s>(
    turn: &mut Turn<'s>,
    inline: Inline,
    body: InlineBody<'s>,
    performed: Performed<'s>,
) -> Result<(), AllocError>
    requires done { turn.old.performed ≡ Done }
    ensures { OnOk result
        (turn.new
        ≡ after (page.go_with inline (page.answer_of performed.entry) body.entry) turn.old) }
{
    go_on_with(turn, inline, body, answer_of(performed))
}

/// A body goes on with an answer.
pub fn go_on_with<'s>(
    turn: &mut Turn<'s>,
    inline: Inline,
    body: InlineBody<'s>,
    answer: Value,
) -> Result<(), AllocError>
    requires done { turn.old.performed ≡ Done }
    ensures { OnOk result (turn.new ≡ after (page.go_with inline answer body.entry) turn.old) }
{
    let mut body = body;
    body.answer(answer);
    turn.stack.push(Frame::Inline(Inlining::Goes(inline, body)))
}

/// The pair by which a body awaits a Deferred has been added. If its result arrived meanwhile, the
/// body goes on; else it is parked.
pub fn end_await<'s>(
    turn: &mut Turn<'s>,
    inline: Inline,
    awaited: DeferredId,
    body: InlineBody<'s>,
) -> Result<(), AllocError>
    requires done { turn.old.performed ≡ Done }
    ensures { OnOk result
        (turn.new ≡ after (page.after_awaiting inline awaited body.entry) turn.old) }
{
    let resumed = turn.world.end_await(inline.id, awaited, body)?;
    go_on_where(turn, inline, resumed)
}

/// The result that a body awaits arrives: the body goes on with it, inside the side that brings it.
pub fn resume<'s>(turn: &mut Turn<'s>, inline: Inline, input: Value) -> Result<(), AllocError>
    requires done { turn.old.performed ≡ Done }
    ensures { OnOk result (turn.new ≡ after (page.resume inline input) turn.old) }
{
    let resumed = turn.world.resume_inline(inline.id, input);
    go_on_where(turn, inline, resumed)
}

/// A body goes on with the result that arrived, if there is one.
fn go_on_where<'s>(
    turn: &mut Turn<'s>,
    inline: Inline,
    resumed: Option<(InlineBody<'s>, Value)>,
) -> Result<(), AllocError>
    requires done { turn.old.performed ≡ Done }
    ensures { OnOk result (turn.new ≡ after (page.go_where inline resumed.entry) turn.old) }
{
    match resumed {
        None => Ok(()),
        Some((body, answer)) => go_on_with(turn, inline, body, answer),
    }
}

/// The answer to an action: null, or what it raised.
fn answer_of<'s>(performed: Performed<'s>) -> Value
    ensures { result ≡ page.answer_of performed.entry }
{
    match performed {
        Performed::Gave(given) => {
            drop(given);
            Value::Null
        }
        Performed::Done | Performed::Awaits(_) => Value::Null,
        Performed::Raised(failure) => Value::Fault(failure),
    }
}

/// Awaits the Deferred of a name; one that isn't bound is thrown there, as NameError.
pub fn begin_await<'s>(
    turn: &mut Turn<'s>,
    inline: Inline,
    name: TextRef<'s>,
    body: InlineBody<'s>,
) -> Result<(), AllocError>
    requires done { turn.old.performed ≡ Done }
    ensures { OnOk result (turn.new ≡ after (page.await inline name.entry body.entry) turn.old) }
{
    match turn.world.find(Some(inline.of), name.as_str()) {
        None => throw(turn, inline, name, body),
        Some(awaited) => add(turn, inline, awaited, body),
    }
}

/// A body goes on with NameError.
fn throw<'s>(
    turn: &mut Turn<'s>,
    inline: Inline,
    name: TextRef<'s>,
    body: InlineBody<'s>,
) -> Result<(), AllocError>
    requires done { turn.old.performed ≡ Done }
    ensures { OnOk result (turn.new
        ≡ after (page.go_with inline (fault_of name_error name.entry) body.entry) turn.old) }
{
    match fault(turn.alloc, ClassId::NAME_ERROR, name.as_str()) {
        Ok(thrown) => go_on_with(turn, inline, body, thrown),
        Err(AllocError) => {
            drop(body);
            Err(AllocError)
        }
    }
}

/// Adds the pair by which a body awaits a Deferred, which is settled then.
fn add<'s>(
    turn: &mut Turn<'s>,
    inline: Inline,
    awaited: DeferredId,
    body: InlineBody<'s>,
) -> Result<(), AllocError>
    requires done { turn.old.performed ≡ Done }
    ensures { OnOk result (turn.new ≡ after (page.await_found inline awaited body.entry) turn.old) }
{
    let Inline { id, of } = inline;
    if turn.world.begin_await(Inline { id, of }, awaited).is_err() {
        drop(body);
        return Err(AllocError);
    }
    turn.stack.push(Frame::Inline(Inlining::Awaited(Inline { id, of }, awaited, body)))?;
    add_and_settle(turn, awaited, Pair::continuing(Inline { id, of }))
}
