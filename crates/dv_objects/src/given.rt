ghost use Rattle.std.specs.Prelude.{◌≡◌, IfOk};
ghost use Rattle.dv_value.specs.Failure.{failure_in};
ghost use Rattle.dv_objects.specs.Given.{value_held};

use dv_script::lent::{TextRef, ValueRef};
use dv_value::boxed::Boxed;
use dv_value::class_id::ClassId;
use dv_value::failure::Failure;
use dv_value::fault::{failure, fault};
use dv_value::text::Text;
use dv_value::value::Value;
use std::alloc::{AllocError, Global};
use std::marker::Model;

/// What a value is made of.
#[derive(Drop)]
enum Held<'s> {
    /// It is made already.
    Own(Value),
    /// A copy of a value of the script.
    Lent(ValueRef<'s>),
    /// A failure of a class, with a message of the script.
    Failed(ClassId, TextRef<'s>),
}

/// A value that is made only where it is kept, so that one that nobody keeps costs nothing.
/// Contracts see it as the value.
#[derive(Drop)]
pub struct Given<'s> {
    held: Held<'s>,
}

impl<'s> Model for Given<'s> {
    ghost use Rattle.dv_value.specs.declared.value.Value.{Value as Seen};
    ghost use Rattle.dv_value.specs.contracts.value.Value as value_contract;
    ghost use Rattle.dv_objects.specs.Given.{value_held};
    ghost use Rattle.std.specs.Coded.{codes};

    ghost Value = { Seen };

    ghost coded = { Prim.hlevel (codes, value_contract.the_row.coded) };

    ghost view = { λ g. value_held g.held };
}

impl<'s> Given<'s> {
    ghost use Rattle.dv_value.specs.Failure.{fault as fault_of};

    /// A value that is made already.
    pub fn own(value: Value) -> Given<'s>
        ensures { result ≡ value }
    {
        Given {
            held: Held::Own(value),
        }
    }

    /// A copy of a value that a script holds, lent for as long as the script is.
    pub fn lent(value: &'s Value) -> Given<'s>
        ensures { result ≡ value.now }
    {
        Given {
            held: Held::Lent(ValueRef::new(value)),
        }
    }

    /// A failure of a class, with a message that a script holds.
    pub fn failed(class: ClassId, message: &'s Text) -> Given<'s>
        ensures { result ≡ fault_of class message.now }
    {
        Given {
            held: Held::Failed(class, TextRef::new(message)),
        }
    }

    /// Returns the value, to be kept. AllocError where it isn't made yet and the allocation fails.
    pub fn make(self, alloc: Global) -> Result<Value, AllocError>
        ensures { IfOk result (λ value. value ≡ self.entry) }
    {
        made(alloc, self.held)
    }

    /// Returns the failure, where the value is one. AllocError where it isn't made yet and the
    /// allocation fails; a value that is no failure takes no memory.
    pub fn into_failure(self, alloc: Global) -> Result<Option<Boxed<Failure>>, AllocError>
        ensures { IfOk result (λ f. f ≡ failure_in self.entry) }
    {
        failure_of(alloc, self.held)
    }
}

/// The value that is held.
fn made<'s>(alloc: Global, held: Held<'s>) -> Result<Value, AllocError>
    ensures { IfOk result (λ value. value ≡ value_held held.entry) }
{
    match held {
        Held::Own(value) => Ok(value),
        Held::Lent(value) => value.get().copy(alloc),
        Held::Failed(class, message) => fault(alloc, class, message.as_str()),
    }
}

/// The failure, where the value that is held is one.
fn failure_of<'s>(alloc: Global, held: Held<'s>) -> Result<Option<Boxed<Failure>>, AllocError>
    ensures { IfOk result (λ f. f ≡ failure_in (value_held held.entry)) }
{
    match held {
        Held::Own(value) => Ok(value.into_failure()),
        Held::Lent(value) => failure_copy(alloc, value.get()),
        Held::Failed(class, message) => Ok(Some(failure(alloc, class, message.as_str())?)),
    }
}

/// A copy of the failure, where a value is one.
fn failure_copy(alloc: Global, value: &Value) -> Result<Option<Boxed<Failure>>, AllocError>
    ensures { IfOk result (λ f. f ≡ failure_in value.now) }
{
    match value {
        Value::Fault(failure) => Ok(Some(Boxed::new(alloc, failure.get().copy(alloc)?)?)),
        Value::Null | Value::Bool(_) | Value::Int(_) | Value::Text(_) | Value::List(_) => Ok(None),
    }
}
