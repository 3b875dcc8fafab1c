ghost use Rattle.dv_document.specs.View.{view, items_view};
ghost use Rattle.dv_forms.specs.Answer.{Reads};
ghost use Rattle.dv_forms.specs.Parts.{fault_at, member_at, members_at, value_at};

use crate::failure::failure;
use crate::leaf::integer;
use crate::shape_fault::ShapeFault;
use dv_document::places::{Elements, Json};
use dv_document::value::Kind;
use dv_value::boxed::Boxed;
use dv_value::classes::Classes;
use dv_value::items::Items;
use dv_value::text::Text;
use dv_value::value::Value;
use std::alloc::Global;

/// A value: no object, and no number but integers of 64 bits.
pub fn value(alloc: Global, classes: &Classes, json: Json<'_>) -> Result<Value, ShapeFault>
    ensures { Reads result (value_at classes.now (view json.entry)) }
{
    match json.kind() {
        Kind::Null | Kind::Bool(_) | Kind::Number(_) | Kind::String(_) | Kind::Array(_) => member(
            alloc, classes, json,
        ),
        Kind::Object(_) => Err(ShapeFault::BadShape),
    }
}

/// A member of an array of a value: a value or a failure.
#[cycle(value)]
fn member(alloc: Global, classes: &Classes, json: Json<'_>) -> Result<Value, ShapeFault>
    ensures { Reads result (member_at classes.now (view json.entry)) }
{
    match json.kind() {
        Kind::Null => Ok(Value::Null),
        Kind::Bool(b) => Ok(Value::Bool(b)),
        Kind::Number(_) => Ok(Value::Int(integer(json)?)),
        Kind::String(text) => Ok(Value::Text(Text::of(alloc, text)?)),
        Kind::Array(items) => Ok(Value::list(alloc, members(alloc, classes, items)?)?),
        Kind::Object(_) => fault(alloc, classes, json),
    }
}

#[cycle(value)]
fn members(
    alloc: Global,
    classes: &Classes,
    items: Elements<'_>,
) -> Result<Items<Value>, ShapeFault>
    ensures { Reads result (members_at classes.now (items_view items.entry)) }
{
    let mut values = Items::with_capacity(alloc, items.len())?;
    let mut rest = items;
    while let Some(item) = rest.next() {
        values.push(member(alloc, classes, item)?)?;
    }
    Ok(values)
}

/// A failure, as a value.
#[inline(never)]
fn fault(alloc: Global, classes: &Classes, json: Json<'_>) -> Result<Value, ShapeFault>
    ensures { Reads result (fault_at classes.now (view json.entry)) }
{
    let failure = failure(alloc, classes, json)?;
    Ok(Value::Fault(Boxed::new(alloc, failure)?))
}
