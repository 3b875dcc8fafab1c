ghost use Rattle.std.specs.Prelude.{[], None, Some, option_map};
ghost use Rattle.serde_json.specs.Find.{as_str};
ghost use Rattle.dv_document.specs.View.{view, items_view};
ghost use Rattle.dv_forms.specs.Answer.{Reads};
ghost use Rattle.dv_forms.specs.Parts.{each, list_at, field};
ghost use Rattle.dv_grammar.specs.Grammar.{running};
ghost use Rattle.dv_grammar.specs.Shape.{action_at, body_at, by_name_or, end_at, keyed_body_by};
ghost use Rattle.dv_script.specs.declared.body.End.TheVariants.{Pass};

use crate::reading::action::actions;
use crate::reading::end::end;
use dv_document::places::{Elements, Json};
use dv_forms::leaf::{array, fields};
use dv_forms::shape_fault::ShapeFault;
use dv_script::action::Action;
use dv_script::body::{Body, End};
use dv_value::classes::Classes;
use dv_value::items::Items;
use dv_value::text::Text;
use std::alloc::Global;

/// A body, in which bodies and statements nest to `levels`, itself among them: a name nests none.
#[cycle(shape)]
#[tactic(auto, unfolding(crate::specs::Shape::readers, crate::specs::Shape::body_by))]
pub fn body(
    alloc: Global,
    classes: &Classes,
    levels: u32,
    json: Json<'_>,
) -> Result<Body, ShapeFault>
    ensures { Reads result (body_at classes.now levels (view json.entry)) }
{
    if levels == 0 {
        return name_alone(alloc, json);
    }
    match json.as_str() {
        Some(name) => by_name(alloc, name),
        None => keyed_body(alloc, classes, levels - 1, json),
    }
}

/// An object that is a body, in which bodies and statements nest to `levels`.
#[cycle(shape)]
#[tactic(auto, unfolding(crate::specs::Shape::keyed_body_by))]
fn keyed_body(
    alloc: Global,
    classes: &Classes,
    levels: u32,
    json: Json<'_>,
) -> Result<Body, ShapeFault>
    ensures { Reads result (keyed_body_by classes.now (action_at classes.now levels)
        (view json.entry)) }
{
    fields(json, &["do", "end"])?;
    let actions = performed(alloc, classes, levels, json.get("do"))?;
    let end = last(alloc, classes, json.get("end"))?;
    Ok(Body { actions, end })
}

/// A body by its name, and nothing else.
fn name_alone(alloc: Global, json: Json<'_>) -> Result<Body, ShapeFault>
    ensures { Reads result (by_name_or (as_str (view json.entry)) None) }
{
    match json.as_str() {
        Some(name) => by_name(alloc, name),
        None => Err(ShapeFault::BadShape),
    }
}

/// A body that has the one of this name run in its place.
fn by_name(alloc: Global, name: &str) -> Result<Body, ShapeFault>
    ensures { Reads result (Some (running name.now)) }
{
    Ok(Body {
        actions: Items::new(alloc),
        end: End::Run(Text::of(alloc, name)?),
    })
}

/// The items of an array of bodies.
#[cycle(shape)]
pub fn bodies(
    alloc: Global,
    classes: &Classes,
    levels: u32,
    items: Elements<'_>,
) -> Result<Items<Body>, ShapeFault>
    ensures { Reads result (each (body_at classes.now levels) (items_view items.entry)) }
{
    let mut bodies = Items::with_capacity(alloc, items.len())?;
    let mut rest = items;
    while let Some(item) = rest.next() {
        bodies.push(body(alloc, classes, levels, item)?)?;
    }
    Ok(bodies)
}

/// What a body performs that may not say it.
#[cycle(shape)]
fn performed(
    alloc: Global,
    classes: &Classes,
    levels: u32,
    json: Option<Json<'_>>,
) -> Result<Items<Action>, ShapeFault>
    ensures { Reads result (field [] (list_at (action_at classes.now levels))
        (option_map (λ d. view d) json.entry)) }
{
    match json {
        None => Ok(Items::new(alloc)),
        Some(json) => actions(alloc, classes, levels, array(json)?),
    }
}

/// How a body ends that may not say it.
fn last(alloc: Global, classes: &Classes, json: Option<Json<'_>>) -> Result<End, ShapeFault>
    ensures { Reads result (field Pass (end_at classes.now)
        (option_map (λ d. view d) json.entry)) }
{
    match json {
        None => Ok(End::Pass),
        Some(json) => end(alloc, classes, json),
    }
}
