ghost use Rattle.std.specs.Prelude.{◌≡◌, [], ◌∷◌, IfOk, OnErr};

use dv_value::boxed::Boxed;
use dv_value::class_id::ClassId;
use dv_value::failure::{Failure, Sub};
use dv_value::items::Items;
use dv_value::text::Text;
use dv_value::value::Value;
use std::alloc::{AllocError, Global};
use std::marker::Model;

/// How a DeferredList is fired, and what failures of its children become.
#[derive(Clone, Copy, Debug, PartialEq, Eq)]
pub struct Flags {
    /// It is fired by the first child that succeeds (Twisted: `fireOnOneCallback`).
    pub fire_on_one_callback: bool,
    /// It is fired by the first child that fails (Twisted: `fireOnOneErrback`).
    pub fire_on_one_errback: bool,
    /// A child that failed goes on with null (Twisted: `consumeErrors`).
    pub consume_errors: bool,
}

/// What follows when a child has fired.
#[derive(Debug, Drop)]
pub struct AfterChild {
    /// What the list is to be fired with, if it is.
    pub fire: Option<Value>,
    /// What the child goes on with.
    pub pass: Value,
}

/// What a DeferredList has of its children (Twisted: `DeferredList`).
#[derive(Drop)]
pub struct Gather {
    alloc: Global,
    flags: Flags,
    places: Items<Value>,
    /// How many children haven't fired.
    missing: usize,
    fired: bool,
}

impl Model for Gather {
    ghost use Rattle.std.specs.Prelude.{◌≡◌, false};
    ghost use Rattle.std.specs.Coded.{codes};
    ghost use Rattle.dv_value.specs.contracts.value.Value as value_contract;
    ghost use Rattle.dv_prims.specs.DeferredList.{Gather as Seen, count_missing};

    ghost Value = { Seen };

    ghost coded = { Prim.hlevel (codes, value_contract.the_row.coded) };

    ghost view = { λ g. record { flags = g.flags; places = g.places; fired = g.fired } };

    ghost invariant = { λ g. g.missing ≡ count_missing g.places };
}

impl Gather {
    ghost use Rattle.dv_prims.specs.DeferredList.{new_gather, without_places, due, due_by_failure};
    ghost use Rattle.dv_prims.specs.DeferredList.{due_when_kept, child_fired};

    /// No child has fired.
    pub fn new(alloc: Global, children: usize, flags: Flags) -> Result<Gather, AllocError>
        ensures { IfOk result (λ g. g ≡ new_gather children flags) }
    {
        Ok(Gather {
            alloc,
            flags,
            places: nulls(alloc, children)?,
            missing: children,
            fired: false,
        })
    }

    /// A child fired with this value, which may be a failure. Returns what the list is to be fired
    /// with, if it is, and what the child goes on with. A list that is fired fires nothing more. If
    /// the allocation fails, nothing changes.
    pub fn child_fired(&mut self, index: u32, value: Value) -> Result<AfterChild, AllocError>
        ensures ok { IfOk result (λ answer. (answer, self.new) ≡ child_fired index value self.old) }
        ensures err { OnErr result (self.new ≡ self.old) }
    {
        let consumes = self.flags.consume_errors && value.is_fault();
        let Ok(fire) = self.due(index, &value) else {
            drop(value);
            return Err(AllocError);
        };
        if consumes {
            drop(value);
            return Ok(AfterChild {
                fire,
                pass: Value::Null,
            });
        }
        Ok(AfterChild { fire, pass: value })
    }

    /// The list was fired, by itself or by other code: it fires nothing more, and keeps nothing.
    pub fn fired(&mut self)
        ensures { self.new ≡ without_places self.old }
    {
        self.places = Items::new(self.alloc);
        self.missing = 0;
        self.fired = true;
    }

    /// What the list is to be fired with, now that a child has fired.
    fn due(&mut self, index: u32, value: &Value) -> Result<Option<Value>, AllocError>
        ensures ok { IfOk result (λ fire. (fire, self.new) ≡ due index value.now self.old) }
        ensures err { OnErr result (self.new ≡ self.old) }
    {
        if self.fired {
            return Ok(None);
        }
        if self.flags.fire_on_one_callback && !value.is_fault() {
            let fire = first_success(self.alloc, index, value)?;
            self.fired();
            return Ok(Some(fire));
        }
        match value {
            Value::Fault(failure) if self.flags.fire_on_one_errback => {
                let fire = first_failure(self.alloc, index, failure.get())?;
                self.fired();
                Ok(Some(fire))
            }
            Value::Null
            | Value::Bool(_)
            | Value::Int(_)
            | Value::Text(_)
            | Value::List(_)
            | Value::Fault(_) => self.keep(index, value),
        }
    }

    /// The value of a child is kept, and the last child fires the list with all values.
    fn keep(&mut self, index: u32, value: &Value) -> Result<Option<Value>, AllocError>
        ensures ok { IfOk result
            (λ fire. (fire, self.new) ≡ due_when_kept index value.now self.old) }
        ensures err { OnErr result (self.new ≡ self.old) }
    {
        let kept = kept_of(self.alloc, value)?;
        let place = index as usize;
        let left = left_after(self.places.as_slice(), self.missing, place, &kept);
        if left > 0 {
            put_in_place(&mut self.places, place, kept);
            self.missing = left;
            return Ok(None);
        }
        let Ok(mut all) = copy_all(self.alloc, self.places.as_slice()) else {
            drop(kept);
            return Err(AllocError);
        };
        put_in_place(&mut all, place, kept);
        let all = Value::list(self.alloc, all)?;
        self.fired();
        Ok(Some(all))
    }
}

ghost use Rattle.std.specs.Prelude.{false, replicate, slice_set};
ghost use Rattle.dv_value.specs.declared.value.Value.TheVariants.{Null, List};
ghost use Rattle.dv_prims.specs.DeferredList.{is_missing, missing_of, count_missing, kept_of};
ghost use Rattle.dv_prims.specs.DeferredList.{first_success, first_failure};

/// How many haven't fired yet, once what is kept of a child is in its place.
#[tactic(auto, using(crate::proofs::GatherLemmas::set_nowhere))]
fn left_after(places: &[Value], missing: usize, place: usize, kept: &Value) -> usize
    requires counted { missing ≡ count_missing places.now }
    requires kept { is_missing kept.now ≡ false }
    ensures { result ≡ count_missing (slice_set places.now place kept.now) }
{
    match places.get(place) {
        None => missing,
        Some(before) => missing - missing_of(before),
    }
}

/// Puts what is kept of a child into its place.
#[tactic(auto, using(crate::proofs::GatherLemmas::set_nowhere))]
fn put_in_place(places: &mut Items<Value>, place: usize, kept: Value)
    ensures { places.new ≡ slice_set places.old place kept }
{
    if place >= places.as_slice().len() {
        drop(kept);
        return;
    }
    drop(places.replace(place, kept));
}

/// Copies of these.
fn copy_all(alloc: Global, values: &[Value]) -> Result<Items<Value>, AllocError>
    ensures { IfOk result (λ copies. copies ≡ values.now) }
{
    let mut copies = Items::with_capacity(alloc, values.len())?;
    for value in values {
        copies.push(value.copy(alloc)?)?;
    }
    Ok(copies)
}

/// One for a place whose child hasn't fired.
fn missing_of(place: &Value) -> usize
    ensures { result ≡ missing_of place.now }
{
    match place {
        Value::Null => 1,
        Value::Bool(_) | Value::Int(_) | Value::Text(_) | Value::List(_) | Value::Fault(_) => 0,
    }
}

/// So many nulls.
#[tactic(auto, using(crate::proofs::GatherLemmas::all_missing))]
fn nulls(alloc: Global, number: usize) -> Result<Items<Value>, AllocError>
    ensures items { IfOk result (λ items. items ≡ replicate number Null) }
    ensures counted { IfOk result (λ items. count_missing items ≡ number) }
{
    let mut items = Items::new(alloc);
    for _ in 0..number {
        items.push(Value::Null)?;
    }
    Ok(items)
}

/// A list of two values.
fn pair(alloc: Global, first: Value, second: Value) -> Result<Value, AllocError>
    ensures { IfOk result (λ pair. pair ≡ List (first ∷ second ∷ [])) }
{
    let mut items = Items::with_capacity(alloc, 2)?;
    if items.push(first).is_err() {
        drop(second);
        return Err(AllocError);
    }
    items.push(second)?;
    Value::list(alloc, items)
}

/// Whether a child succeeded, and with what.
fn kept_of(alloc: Global, value: &Value) -> Result<Value, AllocError>
    ensures { IfOk result (λ kept. kept ≡ kept_of value.now) }
{
    let copy = value.copy(alloc)?;
    pair(alloc, Value::Bool(!value.is_fault()), copy)
}

/// The value of the first child that succeeded, and its place.
fn first_success(alloc: Global, index: u32, value: &Value) -> Result<Value, AllocError>
    ensures { IfOk result (λ fire. fire ≡ first_success index value.now) }
{
    let copy = value.copy(alloc)?;
    pair(alloc, copy, Value::Int(i64::from(index)))
}

/// The failure of the first child that failed, with its place.
fn first_failure(alloc: Global, index: u32, failure: &Failure) -> Result<Value, AllocError>
    ensures { IfOk result (λ fire. fire ≡ first_failure index failure.now) }
{
    let failure = Boxed::new(alloc, failure.copy(alloc)?)?;
    let first = Failure {
        class: ClassId::FIRST_ERROR,
        message: Text::from_string(String::new(alloc)),
        sub: Some(Sub { index, failure }),
    };
    Ok(Value::Fault(Boxed::new(alloc, first)?))
}

ghost use Rattle.std.specs.Option.{option_copied};
ghost use Rattle.std.specs.Prelude.{option_map};
ghost use Rattle.dv_prims.specs.DeferredList.{second_of, seconds_in, seconds_of};

/// What the children of a DeferredList gave, without whether they succeeded: the second parts of a
/// list of lists of two. None where the value isn't such a list (Twisted: what `gatherResults` does
/// with the results of its list).
pub fn seconds(alloc: Global, value: &Value) -> Result<Option<Value>, AllocError>
    ensures { IfOk result (λ seconds. seconds ≡ seconds_of value.now) }
{
    match value {
        Value::List(places) => seconds_in(alloc, places.get().as_slice()),
        Value::Null | Value::Bool(_) | Value::Int(_) | Value::Text(_) | Value::Fault(_) => Ok(None),
    }
}

/// A list of the second part of each.
fn seconds_in(alloc: Global, places: &[Value]) -> Result<Option<Value>, AllocError>
    ensures { IfOk result (λ seconds. seconds ≡ option_map List (seconds_in places.now)) }
{
    let mut seconds = Items::new(alloc);
    for place in places {
        let Some(second) = second_of(place) else {
            return Ok(None);
        };
        seconds.push(second.copy(alloc)?)?;
    }
    Ok(Some(Value::list(alloc, seconds)?))
}

/// The second part of a list of two.
fn second_of(place: &Value) -> Option<&Value>
    ensures { option_copied result ≡ second_of place.now }
{
    match place {
        Value::List(parts) if parts.get().as_slice().len() == 2 => parts.get().as_slice().get(1),
        Value::List(_)
        | Value::Null
        | Value::Bool(_)
        | Value::Int(_)
        | Value::Text(_)
        | Value::Fault(_) => None,
    }
}
