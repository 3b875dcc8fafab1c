ghost use Rattle.std.specs.Prelude.{◌≡◌, [], ◌∷◌, ◌++◌, option_map, OnOk};
ghost use Rattle.dv_document.specs.View.{view, items_view};
ghost use Rattle.dv_forms.specs.Answer.{Gives, Reads};
ghost use Rattle.dv_grammar.specs.Grammar.{repeated};
ghost use Rattle.dv_grammar.specs.Shape.{all_listed, event_at, event_of, events_at, listed_at};
ghost use Rattle.dv_grammar.specs.Shape.{other_event, times_of};

use crate::reading::action::action;
use crate::reading::outcome::expect;
use dv_clock::limits::MOST_TICKS;
use dv_document::places::{Elements, Json};
use dv_forms::arguments::{one_number, one_small};
use dv_forms::leaf::call;
use dv_forms::repeat::repeat_of;
use dv_forms::shape_fault::ShapeFault;
use dv_forms::words::EventWord;
use dv_script::event::Event;
use dv_script::limits::{MOST_DRAINED, MOST_LEVELS};
use dv_value::classes::Classes;
use dv_value::items::Items;
use std::alloc::{AllocError, Global};

#[tactic(auto, unfolding(crate::specs::Shape::other_event))]
fn other_event(alloc: Global, classes: &Classes, json: Json<'_>) -> Result<Event, ShapeFault>
    ensures { Reads result (other_event classes.now (view json.entry)) }
{
    let (word, arguments) = call(json)?;
    match EventWord::named(word) {
        Some(word) => event_of(alloc, classes, word, arguments),
        None => Err(ShapeFault::BadShape),
    }
}

/// An event by its word; a repeat isn't one event.
#[tactic(auto, unfolding(crate::specs::Shape::event_of))]
fn event_of(
    alloc: Global,
    classes: &Classes,
    word: EventWord,
    arguments: Elements<'_>,
) -> Result<Event, ShapeFault>
    ensures { Reads result (event_of classes.now word (items_view arguments.entry)) }
{
    match word {
        EventWord::Advance => Ok(Event::Advance(one_number(arguments, 0, MOST_TICKS)?)),
        EventWord::Drain => Ok(Event::Drain(one_small(arguments, 0, MOST_DRAINED)?)),
        EventWord::Expect => expect(alloc, classes, arguments),
        EventWord::Repeat => Err(ShapeFault::BadShape),
    }
}

/// Adds an event at the end that is no action. It isn't inlined: the room of the event would be
/// cleared for each action.
#[inline(never)]
fn add_other(
    events: &mut Items<Event>,
    alloc: Global,
    classes: &Classes,
    json: Json<'_>,
) -> Result<(), ShapeFault>
    ensures { Gives (λ _. events.new) result
        (option_map (λ event. events.old ++ event ∷ [])
        (other_event classes.now (view json.entry))) }
{
    Ok(events.push(other_event(alloc, classes, json)?)?)
}

/// Adds an event at the end: an action, or what happens to the clock or to the posts, or what is
/// expected.
#[tactic(auto, unfolding(crate::specs::Shape::event_at))]
fn add_event(
    events: &mut Items<Event>,
    alloc: Global,
    classes: &Classes,
    json: Json<'_>,
) -> Result<(), ShapeFault>
    ensures { Gives (λ _. events.new) result
        (option_map (λ event. events.old ++ event ∷ [])
        (event_at classes.now (view json.entry))) }
{
    match action(alloc, classes, MOST_LEVELS, json) {
        Ok(action) => Ok(events.push(Event::Action(action))?),
        Err(ShapeFault::BadShape) => add_other(events, alloc, classes, json),
        Err(ShapeFault::OutOfMemory) => Err(ShapeFault::OutOfMemory),
    }
}

/// Adds the events at the end, in their order.
fn append(events: &mut Items<Event>, more: Items<Event>) -> Result<(), AllocError>
    ensures { OnOk result (events.new ≡ events.old ++ more) }
{
    for event in more.into_vec() {
        events.push(event)?;
    }
    Ok(())
}

/// The events of a repeat of so many times, of which these are the items. They are read each time,
/// and once where they happen never or where repeats aren't written out.
#[cycle(events)]
fn repeated(
    alloc: Global,
    classes: &Classes,
    expands: bool,
    levels: u32,
    times: u64,
    items: Elements<'_>,
) -> Result<Items<Event>, ShapeFault>
    ensures { Reads result (option_map (repeated (times_of expands times))
        (events_at expands classes.now levels (items_view items.entry))) }
{
    let mut all = events(alloc, classes, expands, levels, items)?;
    if !expands || times == 0 {
        return Ok(Items::new(alloc));
    }
    for _ in 0..times - 1 {
        let more = events(alloc, classes, expands, levels, items)?;
        append(&mut all, more)?;
    }
    Ok(all)
}

/// The items of an array of events in a row, in which repeats nest to `levels`, themselves not
/// among them.
#[cycle(events)]
fn row(
    alloc: Global,
    classes: &Classes,
    expands: bool,
    levels: u32,
    items: Elements<'_>,
) -> Result<Items<Event>, ShapeFault>
    ensures { Reads result
        (all_listed (listed_at (events_at expands classes.now levels) expands classes.now)
        (items_view items.entry)) }
{
    let mut events = Items::with_capacity(alloc, items.len())?;
    let mut rest = items;
    while let Some(item) = rest.next() {
        match repeat_of(item) {
            Some((times, list)) => {
                let more = repeated(alloc, classes, expands, levels, times, list)?;
                append(&mut events, more)?;
            }
            None => add_event(&mut events, alloc, classes, item)?,
        }
    }
    Ok(events)
}

/// The items of an array of events in a row, in which repeats nest to `levels`. Where `expands` is
/// false a repeat has none, but its shape is read.
#[cycle(events)]
#[tactic(auto, unfolding(crate::specs::Shape::events_at))]
pub fn events(
    alloc: Global,
    classes: &Classes,
    expands: bool,
    levels: u32,
    items: Elements<'_>,
) -> Result<Items<Event>, ShapeFault>
    ensures { Reads result (events_at expands classes.now levels (items_view items.entry)) }
{
    if levels == 0 {
        return Err(ShapeFault::BadShape);
    }
    row(alloc, classes, expands, levels - 1, items)
}
