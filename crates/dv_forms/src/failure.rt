//! A failure that is a member of an array of a value, as JSON shows it.

ghost use Rattle.std.specs.Prelude.{◌≡◌, ◌<◌, codes, map, option_and_then, IfOk};
ghost use Rattle.dv_document.specs.View.{view, members_view, json_left};
ghost use Rattle.serde_json.specs.Find.{get};
ghost use Rattle.dv_forms.specs.Answer.{Reads, Gives};
ghost use Rattle.dv_forms.specs.Forms.{first_error, has_none_but, is_first_error};
ghost use Rattle.dv_forms.specs.Parts.{bare_at, empty_at, failure_at, head_at, plain_at};

use crate::leaf::{class, is_among, small, text};
use crate::shape_fault::ShapeFault;
use dv_document::places::{Json, Members};
use dv_value::boxed::Boxed;
use dv_value::class_id::ClassId;
use dv_value::classes::Classes;
use dv_value::failure::{Failure, Sub};
use dv_value::text::Text;
use std::alloc::{AllocError, Global};

/// The last place of a child that a FirstError can say.
pub const MOST_INDEX: u32 = 4_294_967_295;

/// An object with no other keys than these.
#[tactic(auto, unfolding(crate::specs::Parts::bare_at))]
fn bare(json: Json<'_>, keys: &[&str]) -> Result<(), ShapeFault>
    ensures { Gives (λ _. tt) result (bare_at (map (λ k. k.now) keys.now) (view json.entry)) }
{
    let Some(members) = json.as_object() else {
        return Err(ShapeFault::BadShape);
    };
    if has_none_but(members, keys) {
        Ok(())
    } else {
        Err(ShapeFault::BadShape)
    }
}

#[tactic(auto, unfolding(crate::specs::Forms::has_none_but), using(crate::proofs::Members::has_none_but_put))]
fn has_none_but(members: Members<'_>, keys: &[&str]) -> bool
    ensures { result
        ≡ has_none_but (map (λ k. k.now) keys.now) (members_view members.entry) }
{
    let mut rest = members;
    while let Some((key, _)) = rest.next() {
        if !is_among(key, keys) {
            return false;
        }
    }
    true
}

/// The value of a key that has to be there.
fn needed<'t>(json: Json<'t>, key: &str) -> Result<Json<'t>, ShapeFault>
    ensures value { Gives (λ d. view d) result (get key.now (view json.entry)) }
    ensures within { IfOk result (λ d. json_left d < json_left json.entry) }
{
    json.get(key).ok_or(ShapeFault::BadShape)
}

/// An empty text.
fn empty(json: Json<'_>) -> Result<(), ShapeFault>
    ensures { Reads result (empty_at (view json.entry)) }
{
    match json.as_str() {
        Some("") => Ok(()),
        Some(_) | None => Err(ShapeFault::BadShape),
    }
}

/// Whether an object says the class FirstError, whose failures have another in them.
pub fn is_first_error(json: Json<'_>) -> bool
    ensures { result ≡ is_first_error (view json.entry) }
{
    match json.get("fail") {
        Some(name) => match name.as_str() {
            Some(name) => name == "FirstError",
            None => false,
        },
        None => false,
    }
}

/// A failure of this class with this one in it.
fn with_sub(
    alloc: Global,
    class: ClassId,
    index: u32,
    failure: Failure,
) -> Result<Failure, AllocError>
    ensures { IfOk result (λ f. f ≡ first_error class index failure) }
{
    let failure = Boxed::new(alloc, failure)?;
    Ok(Failure {
        class,
        message: Text::from_string(String::new(alloc)),
        sub: Some(Sub { index, failure }),
    })
}

/// A failure of any class but FirstError.
#[tactic(auto, unfolding(crate::specs::Parts::plain_at))]
fn plain(alloc: Global, classes: &Classes, json: Json<'_>) -> Result<Failure, ShapeFault>
    ensures { Reads result (plain_at classes.now (view json.entry)) }
{
    bare(json, &["fail", "message"])?;
    let class = class(classes, needed(json, "fail")?)?;
    let message = text(alloc, needed(json, "message")?)?;
    Ok(Failure::new(class, message))
}

/// The class and the place of a failure of FirstError.
#[tactic(auto, unfolding(crate::specs::Parts::head_at))]
fn head(classes: &Classes, json: Json<'_>) -> Result<(ClassId, u32), ShapeFault>
    ensures { Reads result (head_at classes.now (view json.entry)) }
{
    bare(json, &["fail", "index", "message", "sub"])?;
    let class = class(classes, needed(json, "fail")?)?;
    let index = small(needed(json, "index")?, 0, MOST_INDEX)?;
    empty(needed(json, "message")?)?;
    Ok((class, index))
}

/// The failure in a failure.
#[cycle(failure)]
fn sub(alloc: Global, classes: &Classes, json: Json<'_>) -> Result<Failure, ShapeFault>
    ensures { Reads result
        (option_and_then (failure_at classes.now) (get (codes "sub") (view json.entry))) }
{
    failure(alloc, classes, needed(json, "sub")?)
}

/// A failure: an object of its class and its message, and for FirstError of the failure in it.
#[cycle(failure)]
#[tactic(auto, unfolding(crate::specs::Parts::first_error_by), using(crate::proofs::Subs::sub_found))]
pub fn failure(alloc: Global, classes: &Classes, json: Json<'_>) -> Result<Failure, ShapeFault>
    ensures { Reads result (failure_at classes.now (view json.entry)) }
{
    if json.as_object().is_none() {
        return Err(ShapeFault::BadShape);
    }
    if !is_first_error(json) {
        return plain(alloc, classes, json);
    }
    let (class, index) = head(classes, json)?;
    let failure = sub(alloc, classes, json)?;
    Ok(with_sub(alloc, class, index, failure)?)
}
