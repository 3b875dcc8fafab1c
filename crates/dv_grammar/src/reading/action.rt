ghost use Rattle.std.specs.Prelude.{[], option_map};
ghost use Rattle.dv_document.specs.View.{view, items_view};
ghost use Rattle.dv_clock.specs.declared.limits.TheConstants.{MOST_DELAY};
ghost use Rattle.dv_forms.specs.Answer.{Reads};
ghost use Rattle.dv_script.specs.declared.limits.TheConstants.{MOST_PLACES, MOST_UNITS};
ghost use Rattle.dv_forms.specs.Parts.{text_at, number_at, bound_at, value_at, class_at};
ghost use Rattle.dv_forms.specs.Parts.{list_flag_at, gather_flag_at, list_at, one_of, two_of};
ghost use Rattle.dv_forms.specs.Parts.{three_of, each, if_there};
ghost use Rattle.dv_grammar.specs.Shape.{action_at, new_deferred_of, timeout_of, loop_of, body_at};
ghost use Rattle.dv_grammar.specs.Shape.{some_bodies, statement_at, turns_at, with_body};

use crate::reading::body::{bodies, body};
use crate::reading::statement::statements;
use crate::reading::work::{thread, thread_in};
use dv_clock::limits::MOST_DELAY;
use dv_document::places::{Elements, Json};
use dv_forms::arguments::{
    named_bounds, named_delay, named_failure, named_gathering, named_list, named_places,
    named_value, one_small, one_text, two_texts,
};
use dv_forms::leaf::{
    array, boolean, call, first, five, number, one_or_two, small, text, three, two, two_or_three,
};
use dv_forms::shape_fault::ShapeFault;
use dv_forms::words::ActionWord;
use dv_script::action::Action;
use dv_script::body::Body;
use dv_script::limits::MOST_UNITS;
use dv_value::boxed::Boxed;
use dv_value::classes::Classes;
use dv_value::items::Items;
use dv_value::text::Text;
use std::alloc::Global;

/// The words that take a name and a body.
#[derive(Clone, Copy, Drop)]
pub enum WithBody {
    AddCallback,
    AddErrback,
    AddBoth,
    Maybe,
}

/// An action, in which bodies and statements nest to `levels`.
///
/// Each word has a reader of its own, which isn't inlined: the room of what all of them read would
/// be cleared here for every action.
#[cycle(shape)]
#[tactic(auto, unfolding(crate::specs::Shape::action_by, crate::specs::Shape::action_of))]
pub fn action(
    alloc: Global,
    classes: &Classes,
    levels: u32,
    json: Json<'_>,
) -> Result<Action, ShapeFault>
    ensures { Reads result (action_at classes.now levels (view json.entry)) }
{
    let (word, arguments) = call(json)?;
    let Some(word) = ActionWord::named(word) else {
        return Err(ShapeFault::BadShape);
    };
    match word {
        ActionWord::Deferred => deferred(alloc, classes, levels, arguments),
        ActionWord::Callback => callback(alloc, classes, arguments),
        ActionWord::Errback => errback(alloc, classes, arguments),
        ActionWord::AddCallback => with_body(
            alloc,
            classes,
            levels,
            WithBody::AddCallback,
            arguments,
        ),
        ActionWord::AddErrback => with_body(
            alloc,
            classes,
            levels,
            WithBody::AddErrback,
            arguments,
        ),
        ActionWord::AddBoth => with_body(alloc, classes, levels, WithBody::AddBoth, arguments),
        ActionWord::AddCallbacks => add_callbacks(alloc, classes, levels, arguments),
        ActionWord::Chain => chain(alloc, arguments),
        ActionWord::Pause => pause(alloc, arguments),
        ActionWord::Unpause => unpause(alloc, arguments),
        ActionWord::Cancel => cancel(alloc, arguments),
        ActionWord::AddTimeout => add_timeout(alloc, classes, levels, arguments),
        ActionWord::Note => note(alloc, arguments),
        ActionWord::List => list(alloc, arguments),
        ActionWord::Gather => gather(alloc, arguments),
        ActionWord::Maybe => with_body(alloc, classes, levels, WithBody::Maybe, arguments),
        ActionWord::Lock => lock(alloc, arguments),
        ActionWord::Semaphore => semaphore(alloc, arguments),
        ActionWord::Acquire => acquire(alloc, arguments),
        ActionWord::Release => release(alloc, arguments),
        ActionWord::RunWith => run_with(alloc, classes, levels, arguments),
        ActionWord::Queue => queue(alloc, arguments),
        ActionWord::Put => put(alloc, classes, arguments),
        ActionWord::Get => get(alloc, arguments),
        ActionWord::Later => later(alloc, classes, levels, arguments),
        ActionWord::CancelCall => cancel_call(alloc, arguments),
        ActionWord::ResetCall => reset_call(alloc, arguments),
        ActionWord::DelayCall => delay_call(alloc, arguments),
        ActionWord::Loop => loop_of(alloc, classes, levels, arguments),
        ActionWord::StopLoop => stop_loop(alloc, arguments),
        ActionWord::Cooperate => cooperate(alloc, classes, levels, arguments),
        ActionWord::WhenDone => when_done(alloc, arguments),
        ActionWord::PauseTask => pause_task(alloc, arguments),
        ActionWord::StopTask => stop_task(alloc, arguments),
        ActionWord::ResumeTask => resume_task(alloc, arguments),
        ActionWord::Inline => inline(alloc, classes, levels, arguments),
        ActionWord::Thread => thread(alloc, classes, arguments),
        ActionWord::ThreadIn => thread_in(alloc, classes, arguments),
        ActionWord::Units => units(arguments),
        ActionWord::CooperateIn => cooperate_in(alloc, classes, levels, arguments),
        ActionWord::UnitsIn => units_in(alloc, arguments),
        ActionWord::StopCooperator => stop_cooperator(alloc, arguments),
    }
}

/// The items of an array of actions.
#[cycle(shape)]
pub fn actions(
    alloc: Global,
    classes: &Classes,
    levels: u32,
    items: Elements<'_>,
) -> Result<Items<Action>, ShapeFault>
    ensures { Reads result (each (action_at classes.now levels) (items_view items.entry)) }
{
    let mut actions = Items::with_capacity(alloc, items.len())?;
    let mut rest = items;
    while let Some(item) = rest.next() {
        actions.push(action(alloc, classes, levels, item)?)?;
    }
    Ok(actions)
}

#[cycle(shape)]
#[inline(never)]
#[tactic(auto, unfolding(crate::specs::Shape::new_deferred_of))]
fn deferred(
    alloc: Global,
    classes: &Classes,
    levels: u32,
    arguments: Elements<'_>,
) -> Result<Action, ShapeFault>
    ensures { Reads result (new_deferred_of (body_at classes.now levels)
        (items_view arguments.entry)) }
{
    let (name, json) = one_or_two(arguments)?;
    let name = text(alloc, name)?;
    let canceller = maybe_body(alloc, classes, levels, json)?;
    Ok(Action::Deferred(name, canceller))
}

#[cycle(shape)]
#[inline(never)]
#[tactic(auto, unfolding(crate::specs::Shape::timeout_of))]
fn add_timeout(
    alloc: Global,
    classes: &Classes,
    levels: u32,
    arguments: Elements<'_>,
) -> Result<Action, ShapeFault>
    ensures { Reads result (timeout_of (body_at classes.now levels) (items_view arguments.entry)) }
{
    let (name, delay, json) = two_or_three(arguments)?;
    let name = text(alloc, name)?;
    let delay = number(delay, 0, MOST_DELAY)?;
    let body = maybe_body(alloc, classes, levels, json)?;
    Ok(Action::AddTimeout(name, delay, body))
}

/// A body that may be left out.
#[cycle(shape)]
fn maybe_body(
    alloc: Global,
    classes: &Classes,
    levels: u32,
    json: Option<Json<'_>>,
) -> Result<Option<Body>, ShapeFault>
    ensures { Reads result (if_there (body_at classes.now levels)
        (option_map (λ d. view d) json.entry)) }
{
    match json {
        None => Ok(None),
        Some(json) => Ok(Some(body(alloc, classes, levels, json)?)),
    }
}

/// An action that takes a name and a body.
#[cycle(shape)]
#[inline(never)]
#[tactic(auto, unfolding(dv_forms::specs::Parts::pair))]
fn with_body(
    alloc: Global,
    classes: &Classes,
    levels: u32,
    word: WithBody,
    arguments: Elements<'_>,
) -> Result<Action, ShapeFault>
    ensures { Reads result (two_of text_at (body_at classes.now levels) (with_body word)
        (items_view arguments.entry)) }
{
    let (name, json) = two(arguments)?;
    let name = text(alloc, name)?;
    let body = body(alloc, classes, levels, json)?;
    Ok(match word {
        WithBody::AddCallback => Action::AddCallback(name, body),
        WithBody::AddErrback => Action::AddErrback(name, body),
        WithBody::AddBoth => Action::AddBoth(name, body),
        WithBody::Maybe => Action::Maybe(name, body),
    })
}

#[cycle(shape)]
#[inline(never)]
#[tactic(auto, unfolding(dv_forms::specs::Parts::triple))]
fn add_callbacks(
    alloc: Global,
    classes: &Classes,
    levels: u32,
    arguments: Elements<'_>,
) -> Result<Action, ShapeFault>
    ensures { Reads result (three_of text_at (body_at classes.now levels)
        (body_at classes.now levels) Action.AddCallbacks (items_view arguments.entry)) }
{
    let (name, callback, errback) = three(arguments)?;
    let name = text(alloc, name)?;
    let callback = Boxed::new(alloc, body(alloc, classes, levels, callback)?)?;
    let errback = Boxed::new(alloc, body(alloc, classes, levels, errback)?)?;
    Ok(Action::AddCallbacks(name, callback, errback))
}

#[cycle(shape)]
#[inline(never)]
#[tactic(auto, unfolding(dv_forms::specs::Parts::triple))]
fn run_with(
    alloc: Global,
    classes: &Classes,
    levels: u32,
    arguments: Elements<'_>,
) -> Result<Action, ShapeFault>
    ensures { Reads result (three_of text_at text_at (body_at classes.now levels) Action.RunWith
        (items_view arguments.entry)) }
{
    let (name, lock, json) = three(arguments)?;
    let name = text(alloc, name)?;
    let lock = text(alloc, lock)?;
    let body = Boxed::new(alloc, body(alloc, classes, levels, json)?)?;
    Ok(Action::RunWith(name, lock, body))
}

#[cycle(shape)]
#[inline(never)]
#[tactic(auto, unfolding(dv_forms::specs::Parts::triple))]
fn later(
    alloc: Global,
    classes: &Classes,
    levels: u32,
    arguments: Elements<'_>,
) -> Result<Action, ShapeFault>
    ensures { Reads result (three_of text_at (number_at 0 MOST_DELAY)
        (body_at classes.now levels) Action.Later (items_view arguments.entry)) }
{
    let (name, delay, json) = three(arguments)?;
    let name = text(alloc, name)?;
    let delay = number(delay, 0, MOST_DELAY)?;
    let body = body(alloc, classes, levels, json)?;
    Ok(Action::Later(name, delay, body))
}

#[cycle(shape)]
#[inline(never)]
#[tactic(auto, unfolding(crate::specs::Shape::loop_of))]
fn loop_of(
    alloc: Global,
    classes: &Classes,
    levels: u32,
    arguments: Elements<'_>,
) -> Result<Action, ShapeFault>
    ensures { Reads result (loop_of (body_at classes.now levels) (items_view arguments.entry)) }
{
    let (name, deferred, interval, at_once, json) = five(arguments)?;
    let name = text(alloc, name)?;
    let deferred = text(alloc, deferred)?;
    let interval = number(interval, 1, MOST_DELAY)?;
    let at_once = boolean(at_once)?;
    let (body, bodies) = turns(alloc, classes, levels, json)?;
    Ok(Action::Loop(name, deferred, interval, at_once, body, bodies))
}

/// The bodies of the turns of a loop, the first apart: those of an array, or one body.
#[cycle(shape)]
#[tactic(auto, unfolding(crate::specs::Shape::turns_at))]
fn turns(
    alloc: Global,
    classes: &Classes,
    levels: u32,
    json: Json<'_>,
) -> Result<(Boxed<Body>, Items<Body>), ShapeFault>
    ensures { Reads result (turns_at (body_at classes.now levels) (view json.entry)) }
{
    match json.as_array() {
        Some(items) => some_bodies(alloc, classes, levels, items),
        None => one_body(alloc, classes, levels, json),
    }
}

/// The bodies of an array of one or more, the first apart.
#[cycle(shape)]
#[tactic(auto, unfolding(crate::specs::Shape::some_bodies))]
fn some_bodies(
    alloc: Global,
    classes: &Classes,
    levels: u32,
    items: Elements<'_>,
) -> Result<(Boxed<Body>, Items<Body>), ShapeFault>
    ensures { Reads result (some_bodies (body_at classes.now levels) (items_view items.entry)) }
{
    let (json, rest) = first(items)?;
    let body = Boxed::new(alloc, body(alloc, classes, levels, json)?)?;
    let bodies = bodies(alloc, classes, levels, rest)?;
    Ok((body, bodies))
}

/// One body for all turns.
#[cycle(shape)]
fn one_body(
    alloc: Global,
    classes: &Classes,
    levels: u32,
    json: Json<'_>,
) -> Result<(Boxed<Body>, Items<Body>), ShapeFault>
    ensures { Reads result
        (option_map (λ b. (b, [])) (body_at classes.now levels (view json.entry))) }
{
    let body = Boxed::new(alloc, body(alloc, classes, levels, json)?)?;
    Ok((body, Items::new(alloc)))
}

#[cycle(shape)]
#[inline(never)]
#[tactic(auto, unfolding(dv_forms::specs::Parts::pair))]
fn cooperate(
    alloc: Global,
    classes: &Classes,
    levels: u32,
    arguments: Elements<'_>,
) -> Result<Action, ShapeFault>
    ensures { Reads result (two_of text_at (list_at (body_at classes.now levels)) Action.Cooperate
        (items_view arguments.entry)) }
{
    let (name, json) = two(arguments)?;
    let name = text(alloc, name)?;
    let bodies = bodies(alloc, classes, levels, array(json)?)?;
    Ok(Action::Cooperate(name, bodies))
}

#[cycle(shape)]
#[inline(never)]
#[tactic(auto, unfolding(dv_forms::specs::Parts::triple))]
fn cooperate_in(
    alloc: Global,
    classes: &Classes,
    levels: u32,
    arguments: Elements<'_>,
) -> Result<Action, ShapeFault>
    ensures { Reads result (three_of text_at text_at (list_at (body_at classes.now levels))
        Action.CooperateIn (items_view arguments.entry)) }
{
    let (name, cooperator, json) = three(arguments)?;
    let name = text(alloc, name)?;
    let cooperator = text(alloc, cooperator)?;
    let bodies = bodies(alloc, classes, levels, array(json)?)?;
    Ok(Action::CooperateIn(name, cooperator, bodies))
}

#[cycle(shape)]
#[inline(never)]
#[tactic(auto, unfolding(dv_forms::specs::Parts::pair))]
fn inline(
    alloc: Global,
    classes: &Classes,
    levels: u32,
    arguments: Elements<'_>,
) -> Result<Action, ShapeFault>
    ensures { Reads result (two_of text_at (list_at (statement_at classes.now levels)) Action.Inline
        (items_view arguments.entry)) }
{
    let (name, json) = two(arguments)?;
    let name = text(alloc, name)?;
    let statements = statements(alloc, classes, levels, array(json)?)?;
    Ok(Action::Inline(name, statements))
}

#[inline(never)]
fn callback(alloc: Global, classes: &Classes, arguments: Elements<'_>) -> Result<Action, ShapeFault>
    ensures { Reads result (two_of text_at (value_at classes.now) Action.Callback
        (items_view arguments.entry)) }
{
    let (name, value) = named_value(alloc, classes, arguments)?;
    Ok(Action::Callback(name, value))
}

#[inline(never)]
fn errback(alloc: Global, classes: &Classes, arguments: Elements<'_>) -> Result<Action, ShapeFault>
    ensures { Reads result (three_of text_at (class_at classes.now) text_at Action.Errback
        (items_view arguments.entry)) }
{
    let (name, class, message) = named_failure(alloc, classes, arguments)?;
    Ok(Action::Errback(name, class, message))
}

#[inline(never)]
fn chain(alloc: Global, arguments: Elements<'_>) -> Result<Action, ShapeFault>
    ensures { Reads result (two_of text_at text_at Action.Chain (items_view arguments.entry)) }
{
    let (name, other) = two_texts(alloc, arguments)?;
    Ok(Action::Chain(name, other))
}

#[inline(never)]
fn pause(alloc: Global, arguments: Elements<'_>) -> Result<Action, ShapeFault>
    ensures { Reads result (one_of text_at Action.Pause (items_view arguments.entry)) }
{
    Ok(Action::Pause(one_text(alloc, arguments)?))
}

#[inline(never)]
fn unpause(alloc: Global, arguments: Elements<'_>) -> Result<Action, ShapeFault>
    ensures { Reads result (one_of text_at Action.Unpause (items_view arguments.entry)) }
{
    Ok(Action::Unpause(one_text(alloc, arguments)?))
}

#[inline(never)]
fn cancel(alloc: Global, arguments: Elements<'_>) -> Result<Action, ShapeFault>
    ensures { Reads result (one_of text_at Action.Cancel (items_view arguments.entry)) }
{
    Ok(Action::Cancel(one_text(alloc, arguments)?))
}

#[inline(never)]
fn note(alloc: Global, arguments: Elements<'_>) -> Result<Action, ShapeFault>
    ensures { Reads result (one_of text_at Action.Note (items_view arguments.entry)) }
{
    Ok(Action::Note(one_text(alloc, arguments)?))
}

#[inline(never)]
fn list(alloc: Global, arguments: Elements<'_>) -> Result<Action, ShapeFault>
    ensures { Reads result (three_of text_at (list_at text_at)
        (list_at list_flag_at) Action.List (items_view arguments.entry)) }
{
    let (name, children, flags) = named_list(alloc, arguments)?;
    Ok(Action::List(name, children, flags))
}

#[inline(never)]
fn gather(alloc: Global, arguments: Elements<'_>) -> Result<Action, ShapeFault>
    ensures { Reads result (three_of text_at (list_at text_at)
        (list_at gather_flag_at) Action.Gather (items_view arguments.entry)) }
{
    let (name, children, flags) = named_gathering(alloc, arguments)?;
    Ok(Action::Gather(name, children, flags))
}

#[inline(never)]
fn lock(alloc: Global, arguments: Elements<'_>) -> Result<Action, ShapeFault>
    ensures { Reads result (one_of text_at Action.Lock (items_view arguments.entry)) }
{
    Ok(Action::Lock(one_text(alloc, arguments)?))
}

#[inline(never)]
fn semaphore(alloc: Global, arguments: Elements<'_>) -> Result<Action, ShapeFault>
    ensures { Reads result
        (two_of text_at (number_at 1 MOST_PLACES) Action.Semaphore (items_view arguments.entry)) }
{
    let (name, places) = named_places(alloc, arguments)?;
    Ok(Action::Semaphore(name, places))
}

#[inline(never)]
fn acquire(alloc: Global, arguments: Elements<'_>) -> Result<Action, ShapeFault>
    ensures { Reads result (two_of text_at text_at Action.Acquire (items_view arguments.entry)) }
{
    let (name, lock) = two_texts(alloc, arguments)?;
    Ok(Action::Acquire(name, lock))
}

#[inline(never)]
fn release(alloc: Global, arguments: Elements<'_>) -> Result<Action, ShapeFault>
    ensures { Reads result (one_of text_at Action.Release (items_view arguments.entry)) }
{
    Ok(Action::Release(one_text(alloc, arguments)?))
}

#[inline(never)]
fn queue(alloc: Global, arguments: Elements<'_>) -> Result<Action, ShapeFault>
    ensures { Reads result
        (three_of text_at bound_at bound_at Action.Queue (items_view arguments.entry)) }
{
    let (name, size, backlog) = named_bounds(alloc, arguments)?;
    Ok(Action::Queue(name, size, backlog))
}

#[inline(never)]
fn put(alloc: Global, classes: &Classes, arguments: Elements<'_>) -> Result<Action, ShapeFault>
    ensures { Reads result (two_of text_at (value_at classes.now) Action.Put
        (items_view arguments.entry)) }
{
    let (name, value) = named_value(alloc, classes, arguments)?;
    Ok(Action::Put(name, value))
}

#[inline(never)]
fn get(alloc: Global, arguments: Elements<'_>) -> Result<Action, ShapeFault>
    ensures { Reads result (two_of text_at text_at Action.Get (items_view arguments.entry)) }
{
    let (name, queue) = two_texts(alloc, arguments)?;
    Ok(Action::Get(name, queue))
}

#[inline(never)]
fn cancel_call(alloc: Global, arguments: Elements<'_>) -> Result<Action, ShapeFault>
    ensures { Reads result (one_of text_at Action.CancelCall (items_view arguments.entry)) }
{
    Ok(Action::CancelCall(one_text(alloc, arguments)?))
}

#[inline(never)]
fn reset_call(alloc: Global, arguments: Elements<'_>) -> Result<Action, ShapeFault>
    ensures { Reads result
        (two_of text_at (number_at 0 MOST_DELAY) Action.ResetCall (items_view arguments.entry)) }
{
    let (name, delay) = named_delay(alloc, arguments)?;
    Ok(Action::ResetCall(name, delay))
}

#[inline(never)]
fn delay_call(alloc: Global, arguments: Elements<'_>) -> Result<Action, ShapeFault>
    ensures { Reads result
        (two_of text_at (number_at 0 MOST_DELAY) Action.DelayCall (items_view arguments.entry)) }
{
    let (name, delay) = named_delay(alloc, arguments)?;
    Ok(Action::DelayCall(name, delay))
}

#[inline(never)]
fn stop_loop(alloc: Global, arguments: Elements<'_>) -> Result<Action, ShapeFault>
    ensures { Reads result (one_of text_at Action.StopLoop (items_view arguments.entry)) }
{
    Ok(Action::StopLoop(one_text(alloc, arguments)?))
}

#[inline(never)]
fn when_done(alloc: Global, arguments: Elements<'_>) -> Result<Action, ShapeFault>
    ensures { Reads result (two_of text_at text_at Action.WhenDone (items_view arguments.entry)) }
{
    let (name, task) = two_texts(alloc, arguments)?;
    Ok(Action::WhenDone(name, task))
}

#[inline(never)]
fn pause_task(alloc: Global, arguments: Elements<'_>) -> Result<Action, ShapeFault>
    ensures { Reads result (one_of text_at Action.PauseTask (items_view arguments.entry)) }
{
    Ok(Action::PauseTask(one_text(alloc, arguments)?))
}

#[inline(never)]
fn stop_task(alloc: Global, arguments: Elements<'_>) -> Result<Action, ShapeFault>
    ensures { Reads result (one_of text_at Action.StopTask (items_view arguments.entry)) }
{
    Ok(Action::StopTask(one_text(alloc, arguments)?))
}

#[inline(never)]
fn resume_task(alloc: Global, arguments: Elements<'_>) -> Result<Action, ShapeFault>
    ensures { Reads result (one_of text_at Action.ResumeTask (items_view arguments.entry)) }
{
    Ok(Action::ResumeTask(one_text(alloc, arguments)?))
}

#[inline(never)]
fn units(arguments: Elements<'_>) -> Result<Action, ShapeFault>
    ensures { Reads result
        (one_of (number_at 1 MOST_UNITS) Action.Units (items_view arguments.entry)) }
{
    Ok(Action::Units(one_small(arguments, 1, MOST_UNITS)?))
}

#[inline(never)]
#[tactic(auto, unfolding(dv_forms::specs::Parts::pair))]
fn units_in(alloc: Global, arguments: Elements<'_>) -> Result<Action, ShapeFault>
    ensures { Reads result
        (two_of text_at (number_at 1 MOST_UNITS) Action.UnitsIn (items_view arguments.entry)) }
{
    let (name, units) = two(arguments)?;
    let name = text(alloc, name)?;
    let units = small(units, 1, MOST_UNITS)?;
    Ok(Action::UnitsIn(name, units))
}

#[inline(never)]
fn stop_cooperator(alloc: Global, arguments: Elements<'_>) -> Result<Action, ShapeFault>
    ensures { Reads result (one_of text_at Action.StopCooperator (items_view arguments.entry)) }
{
    Ok(Action::StopCooperator(one_text(alloc, arguments)?))
}
