//! The keys of objects, as JSON.

ghost use Rattle.std.specs.Prelude.{◌≡◌, ◌++◌, IfOk, OnOk, map};
ghost use Rattle.serde_json.specs.View.{view};
ghost use Rattle.dv_language.specs.Keys.{is_needed, is_other, since, since_by, since_cooperator};
ghost use Rattle.dv_language.specs.Keys.{since_script};
ghost use Rattle.dv_language.specs.Keys.{key_data, keys_of, keys_data};

use crate::wants::{keyed_name, want_json};
use dv_forms::versions::{
    COMMENTS_SINCE, FAILURES_SINCE, FIRST_VERSION, LAST_VERSION, RULES_SINCE,
};
use dv_forms::want::{Keyed, Leaf, Want};
use serde_json::{Value as Json, json, push};
use std::alloc::{AllocError, Global};

/// Whether an object has to have a key.
fn is_needed(keyed: Keyed, key: &str) -> bool
    ensures { result ≡ is_needed keyed key.now }
{
    match keyed {
        Keyed::Script(_) => key == "version" || key == "events",
        Keyed::Cooperator(_) => key == "units" || key == "delay",
        Keyed::Body(_) => false,
        Keyed::Failure => key == "fail" || key == "message",
    }
}

/// Whether a place asks for the value of a key that may not be there.
fn is_other(want: Want) -> bool
    ensures { result ≡ is_other want }
{
    match want {
        Want::Leaf(_)
        | Want::Value
        | Want::Call(_)
        | Want::Pair(_)
        | Want::Keyed(_)
        | Want::Array(_)
        | Want::Word(_) => false,
        Want::Other(_) => true,
    }
}

/// The first version in which a place may ask for this, where each version has its key.
fn since_by(want: Want) -> u32
    ensures { result ≡ since_by want }
{
    match want {
        Want::Leaf(leaf) => if matches!(leaf, Leaf::Comment) {
            COMMENTS_SINCE
        } else {
            1
        },
        Want::Value
        | Want::Call(_)
        | Want::Pair(_)
        | Want::Keyed(_)
        | Want::Array(_)
        | Want::Word(_)
        | Want::Other(_) => 1,
    }
}

/// The first version in which a script may have a key that it may have in the last one.
fn since_script(key: &str) -> u32
    ensures { result ≡ since_script key.now }
{
    if is_other(Keyed::Script(2).want(key)) {
        3
    } else if is_other(Keyed::Script(1).want(key)) {
        2
    } else {
        since_by(Keyed::Script(1).want(key))
    }
}

/// The first version in which a Cooperator may have a key that it may have in the last one.
fn since_cooperator(key: &str) -> u32
    ensures { result ≡ since_cooperator key.now }
{
    if is_other(Keyed::Cooperator(FIRST_VERSION).want(key)) {
        RULES_SINCE
    } else {
        since_by(Keyed::Cooperator(FIRST_VERSION).want(key))
    }
}

/// The first version in which an object may have a key that it may have in the last one.
fn since(keyed: Keyed, key: &str) -> u32
    ensures { result ≡ since keyed key.now }
{
    match keyed {
        Keyed::Script(_) => since_script(key),
        Keyed::Cooperator(_) => since_cooperator(key),
        Keyed::Body(_) => since_by(keyed.want(key)),
        Keyed::Failure => FAILURES_SINCE,
    }
}

fn key_json(alloc: Global, keyed: Keyed, key: &'static str) -> Result<Json, AllocError>
    ensures { IfOk result (λ json. view json ≡ key_data keyed key.now) }
{
    json!(in alloc; {
        "of": keyed_name(keyed),
        "key": key,
        "needed": is_needed(keyed, key),
        "since": since(keyed, key),
        "value": want_json(alloc, keyed.want(key))?,
    })
}

/// Adds the keys that an object may have.
fn push_keys(alloc: Global, rows: &mut Vec<Json>, keyed: Keyed) -> Result<(), AllocError>
    ensures { OnOk result (map view rows.new.items ≡ map view rows.old.items ++ keys_of keyed) }
{
    let keys = keyed.keys();
    for key in keys {
        push(rows, key_json(alloc, keyed, *key)?)?;
    }
    Ok(())
}

/// The keys of a script, of its `cooperator`, of a body and of a failure in a value, as the last
/// version has them.
pub fn keys_json(alloc: Global) -> Result<Json, AllocError>
    ensures { IfOk result (λ json. view json ≡ keys_data) }
{
    let mut rows = Vec::new(alloc);
    push_keys(alloc, &mut rows, Keyed::Script(LAST_VERSION))?;
    push_keys(alloc, &mut rows, Keyed::Cooperator(LAST_VERSION))?;
    push_keys(alloc, &mut rows, Keyed::Body(FIRST_VERSION))?;
    push_keys(alloc, &mut rows, Keyed::Failure)?;
    Ok(Json::Array(rows))
}
