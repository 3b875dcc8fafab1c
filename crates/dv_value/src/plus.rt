ghost use Rattle.std.specs.Prelude.{◌≡◌, ◌+ℤ◌, IfOk};
ghost use Rattle.dv_value.specs.Plus.{sum_or_overflow, plus_to};
ghost use Rattle.dv_value.specs.declared.value.Value.{out-Value};

use crate::class_id::ClassId;
use crate::fault::fault;
use crate::value::Value;
use std::alloc::{AllocError, Global};

/// The value plus `n`: a TypeError where it is no integer, an OverflowError where the sum is none
/// of 64 bits. AllocError where the allocation of one of these fails.
pub fn plus(alloc: Global, n: i64, value: Value) -> Result<Value, AllocError>
    ensures { IfOk result (λ v. v ≡ plus_to n (out-Value value)) }
{
    match value {
        Value::Int(m) => sum(alloc, m, n),
        Value::Null | Value::Bool(_) | Value::Text(_) | Value::List(_) | Value::Fault(_) => fault(
            alloc,
            ClassId::TYPE_ERROR,
            "plus",
        ),
    }
}

/// The sum, or OverflowError.
fn sum(alloc: Global, m: i64, n: i64) -> Result<Value, AllocError>
    ensures { IfOk result (λ v. v ≡ sum_or_overflow (m +ℤ n)) }
{
    match m.checked_add(n) {
        Some(sum) => Ok(Value::Int(sum)),
        None => fault(alloc, ClassId::OVERFLOW_ERROR, "plus"),
    }
}
