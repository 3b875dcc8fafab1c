ghost use Rattle.std.specs.Prelude.{◌≡◌, ◌↔◌, IsTrue};
ghost use Rattle.dv_value.specs.declared.value.Value.{Null, Bool, Int, Text as ValueText};
ghost use Rattle.dv_script.specs.Same.{is_same};

use crate::work::Work;
use dv_value::failure::{Failure, Sub};
use dv_value::text::Text;
use dv_value::value::Value;

/// Whether two works are equal.
pub fn is_same_work(first: &Work, second: &Work) -> bool
    ensures { IsTrue result ↔ (first.now ≡ second.now) }
{
    match first {
        Work::Value(value) => match second {
            Work::Value(other) => is_same(value, other),
            Work::Raise(_, _) | Work::Sum(_) => false,
        },
        Work::Raise(class, message) => match second {
            Work::Raise(other, text) => *class == *other && message.as_str() == text.as_str(),
            Work::Value(_) | Work::Sum(_) => false,
        },
        Work::Sum(n) => match second {
            Work::Sum(m) => *n == *m,
            Work::Value(_) | Work::Raise(_, _) => false,
        },
    }
}

/// Whether two values are equal.
pub fn is_same_value(first: &Value, second: &Value) -> bool
    ensures equal { IsTrue result ↔ (first.now ≡ second.now) }
    ensures result { result ≡ is_same first.now second.now }
{
    is_same(first, second)
}

/// Whether two values are equal.
#[cycle(same)]
fn is_same(first: &Value, second: &Value) -> bool
    ensures { IsTrue result ↔ (first.now ≡ second.now) }
{
    match first {
        Value::Null => is_null(second),
        Value::Bool(b) => is_bool(*b, second),
        Value::Int(n) => is_int(*n, second),
        Value::Text(text) => is_text(text, second),
        Value::List(values) => match second {
            Value::List(others) => are_same(values.get().as_slice(), others.get().as_slice()),
            Value::Null | Value::Bool(_) | Value::Int(_) | Value::Text(_) | Value::Fault(_) =>
                false,
        },
        Value::Fault(failure) => match second {
            Value::Fault(other) => is_same_failure(failure.get(), other.get()),
            Value::Null | Value::Bool(_) | Value::Int(_) | Value::Text(_) | Value::List(_) => false,
        },
    }
}

fn is_null(value: &Value) -> bool
    ensures { IsTrue result ↔ (Null ≡ value.now) }
{
    match value {
        Value::Null => true,
        Value::Bool(_) | Value::Int(_) | Value::Text(_) | Value::List(_) | Value::Fault(_) => false,
    }
}

fn is_bool(b: bool, value: &Value) -> bool
    ensures { IsTrue result ↔ (Bool b ≡ value.now) }
{
    match value {
        Value::Bool(c) => b == *c,
        Value::Null | Value::Int(_) | Value::Text(_) | Value::List(_) | Value::Fault(_) => false,
    }
}

fn is_int(n: i64, value: &Value) -> bool
    ensures { IsTrue result ↔ (Int n ≡ value.now) }
{
    match value {
        Value::Int(m) => n == *m,
        Value::Null | Value::Bool(_) | Value::Text(_) | Value::List(_) | Value::Fault(_) => false,
    }
}

fn is_text(text: &Text, value: &Value) -> bool
    ensures { IsTrue result ↔ (ValueText text.now ≡ value.now) }
{
    match value {
        Value::Text(other) => text.as_str() == other.as_str(),
        Value::Null | Value::Bool(_) | Value::Int(_) | Value::List(_) | Value::Fault(_) => false,
    }
}

/// Whether two lists of values are equal.
#[cycle(same)]
fn are_same(first: &[Value], second: &[Value]) -> bool
    ensures { IsTrue result ↔ (first.now ≡ second.now) }
{
    if first.len() != second.len() {
        return false;
    }
    for (i, value) in first.iter().enumerate() {
        if !is_same(value, &second[i]) {
            return false;
        }
    }
    true
}

/// Whether two failures are equal, with those inside.
#[cycle(same_failure)]
fn is_same_failure(first: &Failure, second: &Failure) -> bool
    ensures { IsTrue result ↔ (first.now ≡ second.now) }
{
    first.class == second.class
        && first.message.as_str() == second.message.as_str()
        && are_same_inside(&first.sub, &second.sub)
}

/// Whether there is nothing inside both failures, or the same.
#[cycle(same_failure)]
fn are_same_inside(first: &Option<Sub>, second: &Option<Sub>) -> bool
    ensures { IsTrue result ↔ (first.now ≡ second.now) }
{
    match (first, second) {
        (None, None) => true,
        (Some(sub), Some(other)) => is_same_sub(sub, other),
        (None, Some(_)) | (Some(_), None) => false,
    }
}

/// Whether two failures inside others are equal, with their places.
#[cycle(same_failure)]
fn is_same_sub(first: &Sub, second: &Sub) -> bool
    ensures { IsTrue result ↔ (first.now ≡ second.now) }
{
    first.index == second.index && is_same_failure(first.failure.get(), second.failure.get())
}
