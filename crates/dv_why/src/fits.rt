//! Whether what stands at a place has the shape that the place asks for, its parts apart.

ghost use Rattle.std.specs.Prelude.{◌≡◌, option_map};
ghost use Rattle.serde_json.specs.View.{view, items_view};
ghost use Rattle.serde_json.specs.Find.{as_str, as_array};
ghost use Rattle.dv_why.specs.Fits.{value_fits, begins_well, parts_fit, array_fits, are_two};
ghost use Rattle.dv_why.specs.Fits.{word_fits, is_empty, is_of_class, has_keys, keyed_fits, fits};

use crate::leaf::leaf_fits;
use crate::tree::is_first_error;
use dv_forms::versions::{BODIES_SINCE, LAST_VERSION};
use dv_forms::want::{CallKind, Keyed, Want};
use dv_forms::words::{may_stand, wants_of};
use dv_questions::question::object_stands;
use serde_json::Value as Json;

fn value_fits(json: &Json) -> bool
    ensures { result ≡ value_fits (view json.now) }
{
    match json {
        Json::Null | Json::Bool(_) | Json::String(_) | Json::Array(_) => true,
        Json::Number(n) => n.as_i64().is_some(),
        Json::Object(_) => false,
    }
}

fn begins_well(call: CallKind, first: &Json, given: usize) -> bool
    ensures { result ≡ begins_well call (as_str (view first.now)) given }
{
    match first.as_str() {
        Some(word) => {
            !may_stand(call, word, LAST_VERSION) || wants_of(call, word, given).is_some()
        }
        None => true,
    }
}

#[tactic(auto, using(crate::proofs::Counting::count_items))]
fn parts_fit(call: CallKind, parts: &[Json]) -> bool
    ensures { result ≡ parts_fit call (items_view parts.now) }
{
    match parts.split_first() {
        Some((first, arguments)) => begins_well(call, first, arguments.len()),
        None => false,
    }
}

fn call_fits(call: CallKind, json: &Json) -> bool
    ensures { result ≡ array_fits (parts_fit call) (as_array (view json.now)) }
{
    match json {
        Json::Array(parts) => parts_fit(call, parts.as_slice()),
        Json::Null | Json::Bool(_) | Json::Number(_) | Json::String(_) | Json::Object(_) => false,
    }
}

#[tactic(auto, using(crate::proofs::Counting::count_items))]
fn are_two(parts: &[Json]) -> bool
    ensures { result ≡ are_two (items_view parts.now) }
{
    parts.len() == 2
}

fn is_pair(json: &Json) -> bool
    ensures { result ≡ array_fits are_two (as_array (view json.now)) }
{
    match json {
        Json::Array(parts) => are_two(parts.as_slice()),
        Json::Null | Json::Bool(_) | Json::Number(_) | Json::String(_) | Json::Object(_) => false,
    }
}

fn word_fits(version: u32, call: CallKind, json: &Json) -> bool
    ensures { result ≡ word_fits version call (as_str (view json.now)) }
{
    match json.as_str() {
        Some(word) => may_stand(call, word, version),
        None => false,
    }
}

fn is_empty(json: Option<&Json>) -> bool
    ensures { result ≡ is_empty (option_map (λ d. view d.now) json.entry) }
{
    match json {
        Some(json) => match json.as_str() {
            Some("") => true,
            Some(_) | None => false,
        },
        None => false,
    }
}

/// Whether a failure of FirstError has a place, an empty message and a failure in it, or any other
/// neither place nor failure.
fn is_of_class(first: bool, json: &Json) -> bool
    ensures { result ≡ is_of_class first (view json.now) }
{
    if first {
        json.get("index").is_some() && json.get("sub").is_some() && is_empty(json.get("message"))
    } else {
        json.get("index").is_none() && json.get("sub").is_none()
    }
}

fn has_keys(keyed: Keyed, json: &Json) -> bool
    ensures { result ≡ has_keys keyed (view json.now) }
{
    match keyed {
        Keyed::Script(_) => json.get("version").is_some() && json.get("events").is_some(),
        Keyed::Cooperator(_) => json.get("units").is_some() && json.get("delay").is_some(),
        Keyed::Body(_) => true,
        Keyed::Failure => {
            json.get("fail").is_some()
                && json.get("message").is_some()
                && is_of_class(is_first_error(json), json)
        }
    }
}

/// Whether it is an object of these keys, or a body by its name.
fn keyed_fits(version: u32, keyed: Keyed, json: &Json) -> bool
    ensures { result ≡ keyed_fits version keyed (view json.now) }
{
    match keyed {
        Keyed::Script(_) | Keyed::Cooperator(_) => {
            json.as_object().is_some() && has_keys(keyed, json)
        }
        Keyed::Failure => {
            json.as_object().is_some() && object_stands(version, keyed) && has_keys(keyed, json)
        }
        Keyed::Body(_) => {
            object_stands(version, keyed)
                && (json.as_object().is_some()
                    || (json.as_str().is_some() && BODIES_SINCE <= version))
        }
    }
}

/// Whether what stands at a place has the shape that the place asks for in a script of this
/// version, its parts apart.
pub fn fits(version: u32, want: Want, json: &Json) -> bool
    ensures { result ≡ fits version want (view json.now) }
{
    match want {
        Want::Leaf(leaf) => leaf_fits(version, leaf, json),
        Want::Value => value_fits(json),
        Want::Call(call) => call_fits(call, json),
        Want::Pair(_) => is_pair(json),
        Want::Keyed(keyed) => keyed_fits(version, keyed, json),
        Want::Array(_) => json.as_array().is_some(),
        Want::Word(call) => word_fits(version, call, json),
        Want::Other(_) => false,
    }
}
