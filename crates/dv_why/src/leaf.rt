//! Whether a part in which nothing is looked for is as its place asks for.

ghost use Rattle.std.specs.Prelude.{◌≡◌, is_some};
ghost use Rattle.serde_json.specs.View.{view};
ghost use Rattle.dv_forms.specs.Parts.{number_at, bound_at, list_flag_at, gather_flag_at};
ghost use Rattle.dv_forms.specs.Parts.{turn_rule_at};
ghost use Rattle.dv_why.specs.Fits.{leaf_fits};

use dv_forms::versions::COMMENTS_SINCE;
use dv_forms::want::Leaf;
use dv_questions::question::has_object;
use dv_script::limits::MOST_PLACES;
use serde_json::Value as Json;

fn is_number(json: &Json, low: u64, high: u64) -> bool
    ensures { result ≡ is_some (number_at low high (view json.now)) }
{
    match json.as_u64() {
        Some(n) => low <= n && n <= high,
        None => false,
    }
}

fn is_bound(json: &Json) -> bool
    ensures { result ≡ is_some (bound_at (view json.now)) }
{
    match json {
        Json::Null => true,
        Json::Number(_) => is_number(json, 0, u64::from(MOST_PLACES)),
        Json::Bool(_) | Json::String(_) | Json::Array(_) | Json::Object(_) => false,
    }
}

fn is_turn_rule(json: &Json) -> bool
    ensures { result ≡ is_some (turn_rule_at (view json.now)) }
{
    match json.as_str() {
        Some(word) => word == "fair" || word == "twisted",
        None => false,
    }
}

fn is_list_flag(json: &Json) -> bool
    ensures { result ≡ is_some (list_flag_at (view json.now)) }
{
    match json.as_str() {
        Some(word) => {
            word == "fireOnOneCallback" || word == "fireOnOneErrback" || word == "consumeErrors"
        }
        None => false,
    }
}

fn is_gather_flag(json: &Json) -> bool
    ensures { result ≡ is_some (gather_flag_at (view json.now)) }
{
    match json.as_str() {
        Some(word) => word == "consumeErrors",
        None => false,
    }
}

/// Whether it reads as the grammar reads it in a script of this version.
pub fn leaf_fits(version: u32, leaf: Leaf, json: &Json) -> bool
    ensures { result ≡ leaf_fits version leaf (view json.now) }
{
    match leaf {
        Leaf::Text | Leaf::New(_) => json.as_str().is_some(),
        Leaf::Found(object) => has_object(version, object) && json.as_str().is_some(),
        Leaf::Integer => json.as_i64().is_some(),
        Leaf::Number(low, high) => is_number(json, low, high),
        Leaf::Boolean => json.as_bool().is_some(),
        Leaf::Bound => is_bound(json),
        Leaf::ListFlag => is_list_flag(json),
        Leaf::GatherFlag => is_gather_flag(json),
        Leaf::Turns => is_turn_rule(json),
        Leaf::Comment => COMMENTS_SINCE <= version && json.as_str().is_some(),
    }
}
