ghost use Rattle.std.specs.Prelude.{◌≡◌, IfOk};
ghost use Rattle.dv_objects.specs.Timed.{is_cancellation, timed};

use crate::given::Given;
use dv_value::class_id::ClassId;
use dv_value::classes::Classes;
use dv_value::fault::fault;
use dv_value::value::Value;
use std::alloc::{AllocError, Global};

/// What becomes of a value that a timer watches: TimeoutError in place of a cancellation, where the
/// time is over (Twisted: `Deferred.addTimeout`).
pub fn timed<'s>(
    alloc: Global,
    classes: &Classes,
    over: bool,
    value: Value,
) -> Result<Given<'s>, AllocError>
    ensures { IfOk result (λ given. given ≡ timed classes.now over value) }
{
    if over && is_cancellation(classes, &value) {
        drop(value);
        return Ok(Given::own(fault(alloc, ClassId::TIMEOUT_ERROR, "")?));
    }
    Ok(Given::own(value))
}

/// Whether a value is a failure of CancelledError, or of a class below it.
fn is_cancellation(classes: &Classes, value: &Value) -> bool
    ensures { result ≡ is_cancellation classes.now value.now }
{
    match value {
        Value::Fault(failure) => classes.descends(failure.get().class, ClassId::CANCELLED_ERROR),
        Value::Null | Value::Bool(_) | Value::Int(_) | Value::Text(_) | Value::List(_) => false,
    }
}
