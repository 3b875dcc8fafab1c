ghost use Rattle.std.specs.Prelude.{[], option_map, option_and_then};
ghost use Rattle.dv_document.specs.View.{view, items_view};
ghost use Rattle.dv_script.specs.declared.limits.TheConstants.{USUAL_LIMIT};
ghost use Rattle.dv_forms.specs.Answer.{Reads, Gives};
ghost use Rattle.dv_forms.specs.declared.versions.TheConstants.{LAST_VERSION};
ghost use Rattle.dv_forms.specs.Limits.{most_limit};
ghost use Rattle.dv_forms.specs.Parts.{each, field, fields_at, list_at, number_at};
ghost use Rattle.dv_grammar.specs.Grammar.{keys_of};
ghost use Rattle.dv_grammar.specs.Shape.{caller_at, events_in, named_body_at, named_cooperator_at};
ghost use Rattle.dv_grammar.specs.Shape.{pool_at, script_by};

use crate::draft::Draft;
use crate::reading::body::{bodies, body};
use crate::reading::cooperator::{cooperator, cooperator_or_plain};
use crate::reading::event::events;
use dv_document::places::{Elements, Json};
use dv_forms::leaf::{array, fields, number, small, text, two};
use dv_forms::limits::most_limit;
use dv_forms::shape_fault::ShapeFault;
use dv_forms::table::{declarations, table};
use dv_forms::versions::{BODIES_SINCE, COOPERATORS_SINCE, ENDS_THROW_SINCE, LAST_VERSION};
use dv_script::body::Body;
use dv_script::event::Event;
use dv_script::limits::{MOST_LEVELS, MOST_WORKERS, USUAL_LIMIT};
use dv_script::script::{NamedBody, NamedCooperator, NamedPool, Script};
use dv_value::classes::Classes;
use dv_value::items::Items;
use std::alloc::Global;

/// What a script of this version lets its journal weigh.
fn limit(version: u32, json: Option<Json<'_>>) -> Result<u64, ShapeFault>
    ensures { Reads result (field USUAL_LIMIT (number_at 0 (most_limit version))
        (option_map (λ d. view d) json.entry)) }
{
    match json {
        None => Ok(USUAL_LIMIT),
        Some(json) => number(json, 0, most_limit(version)),
    }
}

fn callers(
    alloc: Global,
    classes: &Classes,
    json: Option<Json<'_>>,
) -> Result<Items<Items<Body>>, ShapeFault>
    ensures { Reads result (field [] (list_at (caller_at classes.now))
        (option_map (λ d. view d) json.entry)) }
{
    match json {
        None => Ok(Items::new(alloc)),
        Some(json) => each_caller(alloc, classes, array(json)?),
    }
}

fn each_caller(
    alloc: Global,
    classes: &Classes,
    items: Elements<'_>,
) -> Result<Items<Items<Body>>, ShapeFault>
    ensures { Reads result (each (caller_at classes.now) (items_view items.entry)) }
{
    let mut callers = Items::new(alloc);
    let mut rest = items;
    while let Some(item) = rest.next() {
        callers.push(caller(alloc, classes, item)?)?;
    }
    Ok(callers)
}

fn caller(alloc: Global, classes: &Classes, json: Json<'_>) -> Result<Items<Body>, ShapeFault>
    ensures { Reads result (caller_at classes.now (view json.entry)) }
{
    bodies(alloc, classes, MOST_LEVELS, array(json)?)
}

fn all_events(
    alloc: Global,
    classes: &Classes,
    expands: bool,
    json: Option<Json<'_>>,
) -> Result<Items<Event>, ShapeFault>
    ensures { Reads result (option_and_then (events_in expands classes.now)
        (option_map (λ d. view d) json.entry)) }
{
    match json {
        None => Err(ShapeFault::BadShape),
        Some(json) => events(alloc, classes, expands, MOST_LEVELS, array(json)?),
    }
}

/// The version of a script.
fn version(json: Option<Json<'_>>) -> Result<u32, ShapeFault>
    ensures { Reads result (option_and_then (number_at 1 LAST_VERSION)
        (option_map (λ d. view d) json.entry)) }
{
    match json {
        None => Err(ShapeFault::BadShape),
        Some(json) => small(json, 1, LAST_VERSION),
    }
}

/// An object with no other keys than those of a script of this version, but maybe a comment.
fn fields_of(version: u32, json: Json<'_>) -> Result<(), ShapeFault>
    ensures { Gives (λ _. tt) result (fields_at (keys_of version) (view json.entry)) }
{
    if version == 1 {
        fields(
            json,
            &[
                "version",
                "events",
                "limit",
                "classes",
                "cooperator",
                "callers",
            ],
        )
    } else if version < BODIES_SINCE {
        fields(
            json,
            &[
                "pools",
                "version",
                "events",
                "limit",
                "classes",
                "cooperator",
                "callers",
            ],
        )
    } else {
        fields(
            json,
            &[
                "cooperators",
                "bodies",
                "pools",
                "version",
                "events",
                "limit",
                "classes",
                "cooperator",
                "callers",
            ],
        )
    }
}

/// The pools that a script names, which it may leave out.
fn pools(alloc: Global, json: Option<Json<'_>>) -> Result<Items<NamedPool>, ShapeFault>
    ensures { Reads result (field [] (list_at pool_at) (option_map (λ d. view d) json.entry)) }
{
    match json {
        None => Ok(Items::new(alloc)),
        Some(json) => each_pool(alloc, array(json)?),
    }
}

fn each_pool(alloc: Global, items: Elements<'_>) -> Result<Items<NamedPool>, ShapeFault>
    ensures { Reads result (each pool_at (items_view items.entry)) }
{
    let mut pools = Items::new(alloc);
    let mut rest = items;
    while let Some(item) = rest.next() {
        pools.push(pool(alloc, item)?)?;
    }
    Ok(pools)
}

#[tactic(auto, unfolding(crate::specs::Shape::pool_at, dv_forms::specs::Parts::pair))]
fn pool(alloc: Global, json: Json<'_>) -> Result<NamedPool, ShapeFault>
    ensures { Reads result (pool_at (view json.entry)) }
{
    let (name, workers) = two(array(json)?)?;
    let name = text(alloc, name)?;
    let workers = small(workers, 0, MOST_WORKERS)?;
    Ok(NamedPool { name, workers })
}

/// The Cooperators that a script names, which it may leave out.
fn named_cooperators(
    alloc: Global,
    json: Option<Json<'_>>,
) -> Result<Items<NamedCooperator>, ShapeFault>
    ensures { Reads result (field [] (list_at named_cooperator_at)
        (option_map (λ d. view d) json.entry)) }
{
    match json {
        None => Ok(Items::new(alloc)),
        Some(json) => each_named_cooperator(alloc, array(json)?),
    }
}

fn each_named_cooperator(
    alloc: Global,
    items: Elements<'_>,
) -> Result<Items<NamedCooperator>, ShapeFault>
    ensures { Reads result (each named_cooperator_at (items_view items.entry)) }
{
    let mut cooperators = Items::new(alloc);
    let mut rest = items;
    while let Some(item) = rest.next() {
        cooperators.push(named_cooperator(alloc, item)?)?;
    }
    Ok(cooperators)
}

#[tactic(auto, unfolding(crate::specs::Shape::named_cooperator_at, dv_forms::specs::Parts::pair))]
fn named_cooperator(alloc: Global, json: Json<'_>) -> Result<NamedCooperator, ShapeFault>
    ensures { Reads result (named_cooperator_at (view json.entry)) }
{
    let (name, settings) = two(array(json)?)?;
    let name = text(alloc, name)?;
    let settings = cooperator(COOPERATORS_SINCE, settings)?;
    Ok(NamedCooperator { name, settings })
}

/// The bodies that a script names, which it may leave out.
fn named_bodies(
    alloc: Global,
    classes: &Classes,
    json: Option<Json<'_>>,
) -> Result<Items<NamedBody>, ShapeFault>
    ensures { Reads result (field [] (list_at (named_body_at classes.now))
        (option_map (λ d. view d) json.entry)) }
{
    match json {
        None => Ok(Items::new(alloc)),
        Some(json) => each_named_body(alloc, classes, array(json)?),
    }
}

fn each_named_body(
    alloc: Global,
    classes: &Classes,
    items: Elements<'_>,
) -> Result<Items<NamedBody>, ShapeFault>
    ensures { Reads result (each (named_body_at classes.now) (items_view items.entry)) }
{
    let mut bodies = Items::new(alloc);
    let mut rest = items;
    while let Some(item) = rest.next() {
        bodies.push(named_body(alloc, classes, item)?)?;
    }
    Ok(bodies)
}

#[tactic(auto, unfolding(crate::specs::Shape::named_body_at, dv_forms::specs::Parts::pair))]
fn named_body(alloc: Global, classes: &Classes, json: Json<'_>) -> Result<NamedBody, ShapeFault>
    ensures { Reads result (named_body_at classes.now (view json.entry)) }
{
    let (name, json) = two(array(json)?)?;
    let name = text(alloc, name)?;
    let body = body(alloc, classes, MOST_LEVELS, json)?;
    Ok(NamedBody { name, body })
}

/// A script by its shape alone, in which repeats are written out, or where `expands` is false left
/// out.
#[tactic(auto, unfolding(crate::specs::Shape::script_by))]
pub fn shape(alloc: Global, expands: bool, json: Json<'_>) -> Result<Draft, ShapeFault>
    ensures { Reads result (script_by expands (view json.entry)) }
{
    let version = version(json.get("version"))?;
    fields_of(version, json)?;
    let limit = limit(version, json.get("limit"))?;
    let cooperator = cooperator_or_plain(version, json.get("cooperator"))?;
    let cooperators = named_cooperators(alloc, json.get("cooperators"))?;
    let pools = pools(alloc, json.get("pools"))?;
    let declared = declarations(alloc, json.get("classes"))?;
    let (classes, all_declared) = table(alloc, version, declared.as_slice())?;
    let bodies = named_bodies(alloc, &classes, json.get("bodies"))?;
    let callers = callers(alloc, &classes, json.get("callers"))?;
    let events = all_events(alloc, &classes, expands, json.get("events"))?;
    Ok(Draft {
        version,
        declared,
        all_declared,
        script: Script {
            classes,
            ends_throw: ENDS_THROW_SINCE <= version,
            limit,
            cooperator,
            cooperators,
            pools,
            bodies,
            callers,
            events,
        },
    })
}
