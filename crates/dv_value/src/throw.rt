ghost use Rattle.std.specs.Prelude.{◌≡◌, [], slice_get, IfOk};
ghost use Rattle.std.specs.Option.{option_copied};
ghost use Rattle.dv_value.specs.Throw.{failure_at, item_at, thrown_or_type_error};
ghost use Rattle.dv_value.specs.declared.value.Value.{out-Value};

use crate::boxed::Boxed;
use crate::class_id::ClassId;
use crate::failure::Failure;
use crate::fault::fault;
use crate::value::Value;
use std::alloc::{AllocError, Global};

/// The failure at a path in a value, each of whose numbers is a place in a list, from 0 on
/// (Twisted: `Failure.raiseException`). TypeError where no failure is there. AllocError on
/// allocation failure.
pub fn throw(alloc: Global, path: &[u32], value: &Value) -> Result<Value, AllocError>
    ensures { IfOk result (λ v. v ≡ thrown_or_type_error (failure_at path.now value.now)) }
{
    match failure_at(alloc, path, value)? {
        Some(failure) => Ok(Value::Fault(failure)),
        None => fault(alloc, ClassId::TYPE_ERROR, "throw"),
    }
}

/// A copy of the failure at a path in a value, if one is there.
fn failure_at(
    alloc: Global,
    path: &[u32],
    value: &Value,
) -> Result<Option<Boxed<Failure>>, AllocError>
    ensures { IfOk result (λ o. o ≡ failure_at path.now value.now) }
{
    match path.split_first() {
        None => failure_in(alloc, value),
        Some((place, rest)) => match item_at(value, *place) {
            None => Ok(None),
            Some(item) => failure_at(alloc, rest, item),
        },
    }
}

/// The item at a place of a list, if there is one.
fn item_at(value: &Value, place: u32) -> Option<&Value>
    ensures { option_copied result ≡ item_at place (out-Value value.now) }
{
    match value {
        Value::List(values) => get(values.get().as_slice(), place),
        Value::Null | Value::Bool(_) | Value::Int(_) | Value::Text(_) | Value::Fault(_) => None,
    }
}

fn get(values: &[Value], place: u32) -> Option<&Value>
    ensures { option_copied result ≡ slice_get values.now place }
{
    values.get(place as usize)
}

/// A copy of the failure that a value is, if it is one.
fn failure_in(alloc: Global, value: &Value) -> Result<Option<Boxed<Failure>>, AllocError>
    ensures { IfOk result (λ o. o ≡ failure_at [] value.now) }
{
    match value {
        Value::Fault(failure) => Ok(Some(Boxed::new(alloc, failure.get().copy(alloc)?)?)),
        Value::Null | Value::Bool(_) | Value::Int(_) | Value::Text(_) | Value::List(_) => Ok(None),
    }
}
