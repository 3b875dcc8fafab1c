ghost use Rattle.std.specs.Prelude.{◌≡◌, ◌^◌, ◌-◌, IfOk, map, min, sum};
ghost use Rattle.dv_value.specs.Size.{size};
ghost use Rattle.dv_value.specs.Failure.{is_fault, failure_in};
ghost use Rattle.dv_value.specs.declared.value.Value.TheVariants.{List};

use crate::boxed::Boxed;
use crate::failure::Failure;
use crate::items::Items;
use crate::shared::Shared;
use crate::text::Text;
use std::alloc::{AllocError, Global};

/// What a Deferred can be fired with, and what its callbacks give.
#[derive(Debug, Drop)]
pub enum Value {
    Null,
    Bool(bool),
    Int(i64),
    Text(Text),
    List(Shared<Items<Value>>),
    /// A Deferred of this value has failed.
    Fault(Boxed<Failure>),
}

impl Value {
    /// A list of these.
    pub fn list(alloc: Global, values: Items<Value>) -> Result<Value, AllocError>
        ensures { IfOk result (λ v. v ≡ List values) }
    {
        Ok(Value::List(Shared::new(alloc, values)?))
    }

    /// Whether a Deferred of this value has failed.
    pub fn is_fault(&self) -> bool
        ensures { result ≡ is_fault self.now }
    {
        match self {
            Value::Fault(_) => true,
            Value::Null | Value::Bool(_) | Value::Int(_) | Value::Text(_) | Value::List(_) => false,
        }
    }

    /// The failure, where a Deferred of this value has failed.
    pub fn into_failure(self) -> Option<Boxed<Failure>>
        ensures { result ≡ failure_in self }
    {
        match self {
            Value::Fault(failure) => Some(failure),
            Value::Null | Value::Bool(_) | Value::Int(_) | Value::Text(_) | Value::List(_) => None,
        }
    }

    /// A value that equals this one. The members of a list are shared; a long text and a failure have
    /// memory of their own.
    pub fn copy(&self, alloc: Global) -> Result<Value, AllocError>
        ensures { IfOk result (λ v. v ≡ self.now) }
    {
        match self {
            Value::Null => Ok(Value::Null),
            Value::Bool(b) => Ok(Value::Bool(*b)),
            Value::Int(n) => Ok(Value::Int(*n)),
            Value::Text(text) => Ok(Value::Text(text.copy(alloc)?)),
            Value::List(values) => Ok(Value::List(values.share()?)),
            Value::Fault(failure) => Ok(Value::Fault(Boxed::new(
                alloc,
                failure.get().copy(alloc)?,
            )?)),
        }
    }

    /// How much an entry of the journal weighs more for showing the value; it stops at `u64::MAX`.
    #[cycle(size)]
    pub fn size(&self) -> u64
        ensures { result ≡ min (size self.now) (2 ^ 64 - 1) }
    {
        match self {
            Value::Null | Value::Bool(_) | Value::Int(_) => 1,
            Value::Text(text) => (text.as_str().len() as u64).saturating_add(1),
            Value::List(values) => size_all(values.get().as_slice()).saturating_add(1),
            Value::Fault(failure) => failure.get().size(),
        }
    }
}

#[cycle(size)]
fn size_all(values: &[Value]) -> u64
    ensures { result ≡ min (sum (map size values.now)) (2 ^ 64 - 1) }
{
    let mut total = 0u64;
    for value in values {
        total = total.saturating_add(value.size());
    }
    total
}
