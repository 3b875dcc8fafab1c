ghost use Rattle.std.specs.Prelude.{◌≡◌, IfOk};
ghost use Rattle.dv_value.specs.Classes.{check};
ghost use Rattle.dv_value.specs.declared.value.Value.{out-Value};
ghost use Rattle.dv_objects.specs.Trap.{trap_of};

use crate::given::Given;
use dv_value::class_id::ClassId;
use dv_value::classes::Classes;
use dv_value::fault::fault;
use dv_value::value::Value;
use std::alloc::{AllocError, Global};

/// The value, where the input is a failure of one of the classes; else the input (Twisted:
/// `Failure.trap`). TypeError where the input is no failure.
pub fn trap<'s>(
    alloc: Global,
    classes: &Classes,
    listed: &[ClassId],
    value: &'s Value,
    input: Value,
) -> Result<Given<'s>, AllocError>
    ensures { IfOk result
        (λ given. given ≡ trap_of classes.now listed.now value.now input (out-Value input)) }
{
    match &input {
        Value::Fault(failure) => {
            if failure.get().check(classes, listed).is_none() {
                return Ok(Given::own(input));
            }
            drop(input);
            Ok(Given::lent(value))
        }
        Value::Null | Value::Bool(_) | Value::Int(_) | Value::Text(_) | Value::List(_) => {
            drop(input);
            Ok(Given::own(fault(alloc, ClassId::TYPE_ERROR, "trap")?))
        }
    }
}
