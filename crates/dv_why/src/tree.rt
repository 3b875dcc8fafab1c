//! What is seen in a document's tree, whose parts can be shown. The grammar's readers see the same
//! in a document.

ghost use Rattle.std.specs.Prelude.{◌≡◌, ◌≤◌, IfOk, nat_le, option_map};
ghost use Rattle.serde_json.specs.Data.{depth};
ghost use Rattle.serde_json.specs.View.{view, items_view};
ghost use Rattle.dv_script.specs.declared.limits.TheConstants.{MOST_LEVELS};
ghost use Rattle.dv_forms.specs.Forms.{is_first_error};
ghost use Rattle.dv_forms.specs.Limits.{most_nodes};
ghost use Rattle.dv_forms.specs.Parts.{call_at, number_at};
ghost use Rattle.dv_forms.specs.Repeat.{repeat_at, times_at, with_items};
ghost use Rattle.dv_forms.specs.Wants.{array_or_body, has_items, member_want, want_for};
ghost use Rattle.dv_forms.specs.declared.limits.TheConstants.{MOST_TIMES};
ghost use Rattle.dv_reader.specs.Limits.{all_nodes};

use dv_document::document::Document;
use dv_document::room::Room;
use dv_forms::limits::MOST_TIMES;
use dv_forms::versions::FIRST_VERSION;
use dv_forms::want::{Item, Keyed, Want};
use dv_reader::limits::has_few_nodes as has_few_nodes_in;
use serde_json::Value as Json;
use std::alloc::{AllocError, Global};

/// The word of a call, and what comes with it.
#[tactic(auto, unfolding(dv_forms::specs::Parts::call_at))]
pub fn call_in(json: &Json) -> Option<(&str, &[Json])>
    ensures { option_map (λ call. (call.0.now, items_view call.1.now)) result
        ≡ call_at (view json.now) }
{
    let Json::Array(parts) = json else {
        return None;
    };
    let Some((first, arguments)) = parts.as_slice().split_first() else {
        return None;
    };
    let Json::String(word) = first else {
        return None;
    };
    Some((word.as_str(), arguments))
}

/// How often the events of a repeat happen, and the array of these, where this is a repeat.
#[tactic(auto, unfolding(dv_forms::specs::Repeat::repeat_at))]
pub fn repeat_of(json: &Json) -> Option<(u64, &[Json])>
    ensures { option_map (λ r. (r.0, items_view r.1.now)) result ≡ repeat_at (view json.now) }
{
    let Json::Array(parts) = json else {
        return None;
    };
    let Some((first, arguments)) = parts.as_slice().split_first() else {
        return None;
    };
    let Json::String(word) = first else {
        return None;
    };
    if word.as_str() == "repeat" {
        times_of(arguments)
    } else {
        None
    }
}

#[tactic(auto, unfolding(dv_forms::specs::Repeat::times_at))]
fn times_of(arguments: &[Json]) -> Option<(u64, &[Json])>
    ensures { option_map (λ r. (r.0, items_view r.1.now)) result
        ≡ times_at (items_view arguments.now) }
{
    let Some((times, rest)) = arguments.split_first() else {
        return None;
    };
    let Some((events, rest)) = rest.split_first() else {
        return None;
    };
    let Json::Array(events) = events else {
        return None;
    };
    match rest.split_first() {
        Some(_) => None,
        None => with_times(times, events.as_slice()),
    }
}

fn with_times<'j>(times: &Json, events: &'j [Json]) -> Option<(u64, &'j [Json])>
    ensures { option_map (λ r. (r.0, items_view r.1.now)) result
        ≡ with_items (items_view events.now) (number_at 0 MOST_TIMES (view times.now)) }
{
    match times.as_u64() {
        Some(n) => if n <= MOST_TIMES {
            Some((n, events))
        } else {
            None
        },
        None => None,
    }
}

/// Whether an object says the class FirstError, whose failures have another in them.
pub fn is_first_error(json: &Json) -> bool
    ensures { result ≡ is_first_error (view json.now) }
{
    match json.get("fail") {
        Some(name) => match name.as_str() {
            Some(name) => name == "FirstError",
            None => false,
        },
        None => false,
    }
}

/// What the place of a member of an array of a value asks for: a failure where it is an object.
pub fn member_want(json: &Json) -> Want
    ensures { result ≡ member_want (view json.now) }
{
    match json {
        Json::Null | Json::Bool(_) | Json::Number(_) | Json::String(_) | Json::Array(_) =>
            Want::Value,
        Json::Object(_) => Want::Keyed(Keyed::Failure),
    }
}

/// Whether this is an array of one item or more.
fn has_items(json: &Json) -> bool
    ensures { result ≡ has_items (view json.now) }
{
    match json {
        Json::Array(items) => items.as_slice().split_first().is_some(),
        Json::Null | Json::Bool(_) | Json::Number(_) | Json::String(_) | Json::Object(_) => false,
    }
}

/// What the place of an array asks for where this stands: where the turns of a loop may have bodies
/// of their own, one body for all is no array.
fn array_or_body(item: Item, json: &Json) -> Want
    ensures { result ≡ array_or_body item (view json.now) }
{
    match item {
        Item::Turn => if has_items(json) {
            Want::Array(Item::Turn)
        } else {
            Want::Keyed(Keyed::Body(FIRST_VERSION))
        },
        Item::Value
        | Item::Event
        | Item::Action
        | Item::Statement
        | Item::Body
        | Item::Caller
        | Item::Deferred
        | Item::Class
        | Item::ListFlag
        | Item::GatherFlag
        | Item::Declaration
        | Item::Pool
        | Item::Place
        | Item::NamedBody
        | Item::NamedCooperator => Want::Array(item),
    }
}

/// What an argument has to be where this stands.
pub fn want_for(want: Want, json: &Json) -> Want
    ensures { result ≡ want_for want (view json.now) }
{
    match want {
        Want::Array(item) => array_or_body(item, json),
        Want::Leaf(_)
        | Want::Value
        | Want::Call(_)
        | Want::Pair(_)
        | Want::Keyed(_)
        | Want::Word(_)
        | Want::Other(_) => want,
    }
}

/// Whether a document has few enough nodes for a script of this version, with those that its
/// repeats add.
pub fn has_few_nodes(alloc: Global, version: u32, json: &Json) -> Result<bool, AllocError>
    requires shallow { depth (view json.now) ≤ MOST_LEVELS }
    ensures { IfOk result (λ few. few ≡ nat_le (all_nodes (view json.now)) (most_nodes version)) }
{
    let text = json.to_string(alloc)?;
    let mut room = Room::new(alloc);
    match Document::read(alloc, text.as_str().as_bytes(), &mut room) {
        Ok(document) => Ok(has_few_nodes_in(version, document.root())),
        Err(_) => Err(AllocError),
    }
}
