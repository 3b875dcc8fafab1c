//! What a place of a script asks for, as JSON. An array and a pair have what their parts ask for in
//! them.

ghost use Rattle.std.specs.Prelude.{◌≡◌, IfOk, map, codes};
ghost use Rattle.serde_json.specs.Data.{array};
ghost use Rattle.serde_json.specs.Find.{of_integer};
ghost use Rattle.serde_json.specs.View.{items_of, view};
ghost use Rattle.dv_language.specs.Wants.{object_name, place_name, keyed_name, numbers, flags};
ghost use Rattle.dv_language.specs.Wants.{list_words, gather_words, leaf_data, flat_data};
ghost use Rattle.dv_language.specs.Wants.{turn_words};
ghost use Rattle.dv_language.specs.Wants.{array_data, nested_data, turns_data, want_data};
ghost use Rattle.dv_language.specs.Wants.{wants_data};

use dv_forms::versions::TURNS_SINCE;
use dv_forms::want::{CallKind, Item, Keyed, Leaf, Object, Want};
use dv_script::limits::MOST_PLACES;
use serde_json::{Value as Json, json, push};
use std::alloc::{AllocError, Global};

/// What has a name.
fn object_name(object: Object) -> &'static str
    ensures { result.now ≡ object_name object }
{
    match object {
        Object::Deferred => "deferred",
        Object::Lock => "lock",
        Object::Queue => "queue",
        Object::Call => "call",
        Object::Loop => "loop",
        Object::Task => "task",
        Object::Pool => "pool",
        Object::Class => "class",
        Object::Body => "body",
        Object::Cooperator => "cooperator",
    }
}

/// Where a word may stand.
pub fn place_name(call: CallKind) -> &'static str
    ensures { result.now ≡ place_name call }
{
    match call {
        CallKind::Event => "event",
        CallKind::Action => "action",
        CallKind::Statement => "statement",
        CallKind::End => "end",
        CallKind::Leaving => "leaving",
        CallKind::Work => "work",
        CallKind::Outcome => "outcome",
    }
}

/// What has keys.
pub fn keyed_name(keyed: Keyed) -> &'static str
    ensures { result.now ≡ keyed_name keyed }
{
    match keyed {
        Keyed::Script(_) => "script",
        Keyed::Cooperator(_) => "cooperator",
        Keyed::Body(_) => "body",
        Keyed::Failure => "failure",
    }
}

fn list_words(alloc: Global) -> Result<Json, AllocError>
    ensures { IfOk result (λ json. view json ≡ list_words) }
{
    json!(in alloc; ["fireOnOneCallback", "fireOnOneErrback", "consumeErrors"])
}

fn gather_words(alloc: Global) -> Result<Json, AllocError>
    ensures { IfOk result (λ json. view json ≡ gather_words) }
{
    json!(in alloc; ["consumeErrors"])
}

fn turn_words(alloc: Global) -> Result<Json, AllocError>
    ensures { IfOk result (λ json. view json ≡ turn_words) }
{
    json!(in alloc; ["fair", "twisted"])
}

/// One of these words.
fn flag_json(alloc: Global, words: Json) -> Result<Json, AllocError>
    ensures { IfOk result (λ json. view json ≡ flags (view words)) }
{
    json!(in alloc; {"type": "flag", "words": words})
}

fn leaf_json(alloc: Global, leaf: Leaf) -> Result<Json, AllocError>
    ensures { IfOk result (λ json. view json ≡ leaf_data leaf) }
{
    match leaf {
        Leaf::Text | Leaf::Comment => json!(in alloc; {"type": "text"}),
        Leaf::New(object) => json!(in alloc; {"type": "new", "of": object_name(object)}),
        Leaf::Found(object) => json!(in alloc; {"type": "found", "of": object_name(object)}),
        Leaf::Integer => number_json(alloc, i64::MIN, i64::MAX as u64),
        Leaf::Number(least, most) =>
            json!(in alloc; {"type": "number", "least": least, "most": most}),
        Leaf::Boolean => json!(in alloc; {"type": "boolean"}),
        Leaf::Bound => json!(in alloc; {"type": "bound", "least": 0u32, "most": MOST_PLACES}),
        Leaf::ListFlag => flag_json(alloc, list_words(alloc)?),
        Leaf::GatherFlag => flag_json(alloc, gather_words(alloc)?),
        Leaf::Turns => flag_json(alloc, turn_words(alloc)?),
    }
}

fn number_json(alloc: Global, least: i64, most: u64) -> Result<Json, AllocError>
    ensures { IfOk result (λ json. view json ≡ numbers (codes "number") (of_integer least) most) }
{
    json!(in alloc; {"type": "number", "least": least, "most": most})
}

/// What a place asks for, without what the parts of an array or a pair ask for.
fn flat_json(alloc: Global, want: Want) -> Result<Json, AllocError>
    ensures { IfOk result (λ json. view json ≡ flat_data want) }
{
    match want {
        Want::Leaf(leaf) => leaf_json(alloc, leaf),
        Want::Value => json!(in alloc; {"type": "value"}),
        Want::Call(call) => json!(in alloc; {"type": "words", "of": place_name(call)}),
        Want::Pair(_) => json!(in alloc; {"type": "pair"}),
        Want::Keyed(keyed) => json!(in alloc; {"type": "object", "of": keyed_name(keyed)}),
        Want::Array(_) => json!(in alloc; {"type": "array"}),
        Want::Word(call) => json!(in alloc; {"type": "word", "of": place_name(call)}),
        Want::Other(keyed) => json!(in alloc; {"type": "other", "of": keyed_name(keyed)}),
    }
}

fn parts_json(alloc: Global, wants: &[Want]) -> Result<Json, AllocError>
    ensures { IfOk result (λ json. view json ≡ array (items_of (map flat_data wants.now))) }
{
    let mut parts = Vec::new(alloc);
    for want in wants {
        push(&mut parts, flat_json(alloc, *want)?)?;
    }
    Ok(Json::Array(parts))
}

/// The same with what the parts ask for, but without what the parts of these ask for.
fn nested_json(alloc: Global, want: Want) -> Result<Json, AllocError>
    ensures { IfOk result (λ json. view json ≡ nested_data want) }
{
    match want {
        Want::Array(item) => {
            json!(in alloc; {"type": "array", "of": flat_json(alloc, item.want())?})
        }
        Want::Pair(pair) => {
            json!(in alloc; {"type": "pair", "parts": parts_json(alloc, pair.wants())?})
        }
        Want::Leaf(_)
        | Want::Value
        | Want::Call(_)
        | Want::Keyed(_)
        | Want::Word(_)
        | Want::Other(_) => flat_json(alloc, want),
    }
}

/// The bodies of a loop's turns: one body, or from this version on an array of one or more.
fn turns_json(alloc: Global) -> Result<Json, AllocError>
    ensures { IfOk result (λ json. view json ≡ turns_data) }
{
    let body = flat_json(alloc, Item::Turn.want())?;
    json!(in alloc; {"type": "turns", "of": body, "since": TURNS_SINCE})
}

/// An array of such items, or the bodies of a loop's turns.
fn array_json(alloc: Global, item: Item) -> Result<Json, AllocError>
    ensures { IfOk result (λ json. view json ≡ array_data item) }
{
    match item {
        Item::Turn => turns_json(alloc),
        Item::Value
        | Item::Event
        | Item::Action
        | Item::Statement
        | Item::Body
        | Item::Caller
        | Item::Deferred
        | Item::Class
        | Item::ListFlag
        | Item::GatherFlag
        | Item::Declaration
        | Item::Pool
        | Item::Place
        | Item::NamedBody
        | Item::NamedCooperator => {
            json!(in alloc; {"type": "array", "of": nested_json(alloc, item.want())?})
        }
    }
}

/// What a place asks for. Nowhere do arrays and pairs nest deeper than this.
pub fn want_json(alloc: Global, want: Want) -> Result<Json, AllocError>
    ensures { IfOk result (λ json. view json ≡ want_data want) }
{
    match want {
        Want::Array(item) => array_json(alloc, item),
        Want::Leaf(_)
        | Want::Value
        | Want::Call(_)
        | Want::Pair(_)
        | Want::Keyed(_)
        | Want::Word(_)
        | Want::Other(_) => nested_json(alloc, want),
    }
}

/// What each of some places asks for.
pub fn wants_json(alloc: Global, wants: &[Want]) -> Result<Json, AllocError>
    ensures { IfOk result (λ json. view json ≡ wants_data wants.now) }
{
    let mut list = Vec::new(alloc);
    for want in wants {
        push(&mut list, want_json(alloc, *want)?)?;
    }
    Ok(Json::Array(list))
}
