ghost use Rattle.std.specs.Prelude.{◌≡◌, IfOk};
ghost use Rattle.dv_value.specs.declared.value.Value.{Null};
ghost use Rattle.dv_objects.specs.Input.{value_kept};

use dv_value::boxed::Boxed;
use dv_value::value::Value;
use std::alloc::{AllocError, Global};
use std::marker::Model;

/// A value, in a word where it is a small one.
#[derive(Drop)]
enum Kept {
    Null,
    Bool(bool),
    Int(i64),
    /// Any other, on the heap.
    Other(Boxed<Value>),
}

/// What a body is performed on. It takes little room, since as many wait to be performed as bodies
/// lie in each other. Contracts see it as the value.
#[derive(Drop)]
pub struct Input {
    kept: Kept,
}

impl Model for Input {
    ghost use Rattle.dv_value.specs.declared.value.Value.{Value as Seen};
    ghost use Rattle.dv_value.specs.contracts.value.Value as value_contract;
    ghost use Rattle.dv_objects.specs.Input.{value_kept};
    ghost use Rattle.std.specs.Coded.{codes};

    ghost Value = { Seen };

    ghost coded = { Prim.hlevel (codes, value_contract.the_row.coded) };

    ghost view = { λ i. value_kept i.kept };
}

impl Input {
    /// Null. It takes no memory.
    pub fn null() -> Input
        ensures { result ≡ Null }
    {
        Input { kept: Kept::Null }
    }

    /// A value. AllocError where out of memory, which null, a boolean and an integer don't take.
    pub fn new(alloc: Global, value: Value) -> Result<Input, AllocError>
        ensures { IfOk result (λ input. input ≡ value) }
    {
        Ok(Input {
            kept: keep(alloc, value)?,
        })
    }

    /// The value.
    pub fn into_value(self) -> Value
        ensures { result ≡ self }
    {
        value_kept(self.kept)
    }
}

/// A value as it is kept.
fn keep(alloc: Global, value: Value) -> Result<Kept, AllocError>
    ensures { IfOk result (λ kept. value_kept kept ≡ value) }
{
    match value {
        Value::Null => Ok(Kept::Null),
        Value::Bool(bool) => Ok(Kept::Bool(bool)),
        Value::Int(int) => Ok(Kept::Int(int)),
        Value::Text(text) => Ok(Kept::Other(Boxed::new(alloc, Value::Text(text))?)),
        Value::List(values) => Ok(Kept::Other(Boxed::new(alloc, Value::List(values))?)),
        Value::Fault(failure) => Ok(Kept::Other(Boxed::new(alloc, Value::Fault(failure))?)),
    }
}

/// The value that is kept.
fn value_kept(kept: Kept) -> Value
    ensures { result ≡ value_kept kept }
{
    match kept {
        Kept::Null => Value::Null,
        Kept::Bool(bool) => Value::Bool(bool),
        Kept::Int(int) => Value::Int(int),
        Kept::Other(value) => value.into_inner(),
    }
}
