ghost use Rattle.std.specs.Prelude.{◌≡◌, ◌≤◌, map, option_map, bytes_eq, IfOk};
ghost use Rattle.std.specs.List.{list_any};
ghost use Rattle.dv_document.specs.View.{view, items_view, members_view};
ghost use Rattle.serde_json.specs.Find.{as_array, as_bool};
ghost use Rattle.dv_script.specs.declared.limits.TheConstants.{MOST_PLACE};
ghost use Rattle.dv_forms.specs.Forms.{has_only, is_comment};
ghost use Rattle.dv_forms.specs.Answer.{Reads, Gives};
ghost use Rattle.dv_forms.specs.Parts.{text_at, integer_at, number_at, bound_at, class_at};
ghost use Rattle.dv_forms.specs.Parts.{list_flag, list_flag_at, gather_flag_named, gather_flag_at};
ghost use Rattle.dv_forms.specs.Parts.{turn_rule_named, turn_rule_at};
ghost use Rattle.dv_forms.specs.Parts.{list_at, call_at, none, first, if_any, one, one_or_two, two};
ghost use Rattle.dv_forms.specs.Parts.{two_or_three, three, four, five, fields_at};

use crate::shape_fault::ShapeFault;
use dv_document::places::{Elements, Json, Members};
use dv_document::value::Kind;
use dv_script::action::{GatherFlag, ListFlag};
use dv_script::limits::{MOST_PLACE, MOST_PLACES};
use dv_script::turn_rule::TurnRule;
use dv_value::class_id::ClassId;
use dv_value::classes::Classes;
use dv_value::items::Items;
use dv_value::text::Text;
use std::alloc::Global;

/// A text.
pub fn text(alloc: Global, json: Json<'_>) -> Result<Text, ShapeFault>
    ensures { Reads result (text_at (view json.entry)) }
{
    let Some(text) = json.as_str() else {
        return Err(ShapeFault::BadShape);
    };
    Ok(Text::of(alloc, text)?)
}

/// An integer of 64 bits.
pub fn integer(json: Json<'_>) -> Result<i64, ShapeFault>
    ensures { Reads result (integer_at (view json.entry)) }
{
    json.as_i64().ok_or(ShapeFault::BadShape)
}

/// An integer from `low` to `high`.
pub fn number(json: Json<'_>, low: u64, high: u64) -> Result<u64, ShapeFault>
    ensures read { Reads result (number_at low high (view json.entry)) }
    ensures most { IfOk result (λ n. n ≤ high) }
{
    match json.as_u64() {
        Some(n) => if low <= n && n <= high {
            Ok(n)
        } else {
            Err(ShapeFault::BadShape)
        },
        None => Err(ShapeFault::BadShape),
    }
}

/// An integer from `low` to `high`, which are of 32 bits.
pub fn small(json: Json<'_>, low: u32, high: u32) -> Result<u32, ShapeFault>
    ensures { Reads result (number_at low high (view json.entry)) }
{
    Ok(number(json, u64::from(low), u64::from(high))? as u32)
}

/// A boolean.
pub fn boolean(json: Json<'_>) -> Result<bool, ShapeFault>
    ensures { Reads result (as_bool (view json.entry)) }
{
    json.as_bool().ok_or(ShapeFault::BadShape)
}

/// A bound of a queue, or none.
pub fn bound(json: Json<'_>) -> Result<Option<u32>, ShapeFault>
    ensures { Reads result (bound_at (view json.entry)) }
{
    match json.kind() {
        Kind::Null => Ok(None),
        Kind::Number(_) => Ok(Some(small(json, 0, MOST_PLACES)?)),
        Kind::Bool(_) | Kind::String(_) | Kind::Array(_) | Kind::Object(_) => Err(
            ShapeFault::BadShape,
        ),
    }
}

/// The place of a class, or the place past the last where the table has none of this name.
pub fn class(classes: &Classes, json: Json<'_>) -> Result<ClassId, ShapeFault>
    ensures { Reads result (class_at classes.now (view json.entry)) }
{
    let Some(name) = json.as_str() else {
        return Err(ShapeFault::BadShape);
    };
    let past_the_last = ClassId::new(classes.count());
    Ok(classes.find(name).unwrap_or(past_the_last))
}

/// An array of classes.
pub fn classes_in(
    alloc: Global,
    classes: &Classes,
    json: Json<'_>,
) -> Result<Items<ClassId>, ShapeFault>
    ensures { Reads result (list_at (class_at classes.now) (view json.entry)) }
{
    let items = array(json)?;
    let mut listed = Items::new(alloc);
    let mut rest = items;
    while let Some(item) = rest.next() {
        listed.push(class(classes, item)?)?;
    }
    Ok(listed)
}

/// An array of texts.
pub fn texts_in(alloc: Global, json: Json<'_>) -> Result<Items<Text>, ShapeFault>
    ensures { Reads result (list_at text_at (view json.entry)) }
{
    let items = array(json)?;
    let mut texts = Items::new(alloc);
    let mut rest = items;
    while let Some(item) = rest.next() {
        texts.push(text(alloc, item)?)?;
    }
    Ok(texts)
}

/// An array of places in lists.
pub fn places_in(alloc: Global, json: Json<'_>) -> Result<Items<u32>, ShapeFault>
    ensures { Reads result (list_at (number_at 0 MOST_PLACE) (view json.entry)) }
{
    let items = array(json)?;
    let mut places = Items::new(alloc);
    let mut rest = items;
    while let Some(item) = rest.next() {
        places.push(small(item, 0, MOST_PLACE)?)?;
    }
    Ok(places)
}

fn list_flag_named(word: &str) -> Option<ListFlag>
    ensures { result ≡ list_flag word.now }
{
    match word {
        "fireOnOneCallback" => Some(ListFlag::FireOnOneCallback),
        "fireOnOneErrback" => Some(ListFlag::FireOnOneErrback),
        "consumeErrors" => Some(ListFlag::ConsumeErrors),
        _ => None,
    }
}

fn list_flag(json: Json<'_>) -> Result<ListFlag, ShapeFault>
    ensures { Reads result (list_flag_at (view json.entry)) }
{
    let Some(word) = json.as_str() else {
        return Err(ShapeFault::BadShape);
    };
    list_flag_named(word).ok_or(ShapeFault::BadShape)
}

/// An array of flags of a list.
pub fn list_flags_in(alloc: Global, json: Json<'_>) -> Result<Items<ListFlag>, ShapeFault>
    ensures { Reads result (list_at list_flag_at (view json.entry)) }
{
    let items = array(json)?;
    let mut flags = Items::new(alloc);
    let mut rest = items;
    while let Some(item) = rest.next() {
        flags.push(list_flag(item)?)?;
    }
    Ok(flags)
}

fn turn_rule_named(word: &str) -> Option<TurnRule>
    ensures { result ≡ turn_rule_named word.now }
{
    match word {
        "fair" => Some(TurnRule::Fair),
        "twisted" => Some(TurnRule::Twisted),
        _ => None,
    }
}

/// The rule of the turns of a Cooperator.
pub fn turn_rule(json: Json<'_>) -> Result<TurnRule, ShapeFault>
    ensures { Reads result (turn_rule_at (view json.entry)) }
{
    let Some(word) = json.as_str() else {
        return Err(ShapeFault::BadShape);
    };
    turn_rule_named(word).ok_or(ShapeFault::BadShape)
}

fn gather_flag_named(word: &str) -> Option<GatherFlag>
    ensures { result ≡ gather_flag_named word.now }
{
    match word {
        "consumeErrors" => Some(GatherFlag::ConsumeErrors),
        _ => None,
    }
}

fn gather_flag(json: Json<'_>) -> Result<GatherFlag, ShapeFault>
    ensures { Reads result (gather_flag_at (view json.entry)) }
{
    let Some(word) = json.as_str() else {
        return Err(ShapeFault::BadShape);
    };
    gather_flag_named(word).ok_or(ShapeFault::BadShape)
}

/// An array of flags of what is gathered.
pub fn gather_flags_in(alloc: Global, json: Json<'_>) -> Result<Items<GatherFlag>, ShapeFault>
    ensures { Reads result (list_at gather_flag_at (view json.entry)) }
{
    let items = array(json)?;
    let mut flags = Items::new(alloc);
    let mut rest = items;
    while let Some(item) = rest.next() {
        flags.push(gather_flag(item)?)?;
    }
    Ok(flags)
}

/// The items of an array.
pub fn array<'t>(json: Json<'t>) -> Result<Elements<'t>, ShapeFault>
    ensures { Gives (λ items. items_view items) result (as_array (view json.entry)) }
{
    let Some(items) = json.as_array() else {
        return Err(ShapeFault::BadShape);
    };
    Ok(items)
}

/// A word, and what comes with it.
#[tactic(auto, unfolding(crate::specs::Parts::call_at))]
pub fn call<'t>(json: Json<'t>) -> Result<(&'t str, Elements<'t>), ShapeFault>
    ensures { Gives (λ call. (call.0.now, items_view call.1)) result (call_at (view json.entry)) }
{
    let parts = array(json)?;
    let Some((first, arguments)) = parts.split_first() else {
        return Err(ShapeFault::BadShape);
    };
    let Some(word) = first.as_str() else {
        return Err(ShapeFault::BadShape);
    };
    Ok((word, arguments))
}

/// No argument.
#[tactic(auto, unfolding(crate::specs::Parts::none))]
pub fn none(items: Elements<'_>) -> Result<(), ShapeFault>
    ensures { Gives (λ _. tt) result (none (items_view items.entry)) }
{
    match items.split_first() {
        None => Ok(()),
        Some(_) => Err(ShapeFault::BadShape),
    }
}

/// An argument, and the rest.
#[tactic(auto, unfolding(crate::specs::Parts::first))]
pub fn first<'t>(items: Elements<'t>) -> Result<(Json<'t>, Elements<'t>), ShapeFault>
    ensures { Gives (λ p. (view p.0, items_view p.1)) result
        (first (items_view items.entry)) }
{
    match items.split_first() {
        None => Err(ShapeFault::BadShape),
        Some((json, rest)) => Ok((json, rest)),
    }
}

/// An argument, or none.
#[tactic(auto, unfolding(crate::specs::Parts::if_any))]
fn if_any<'t>(items: Elements<'t>) -> Result<Option<Json<'t>>, ShapeFault>
    ensures { Gives (λ o. option_map (λ json. view json) o) result
        (if_any (items_view items.entry)) }
{
    match items.split_first() {
        None => Ok(None),
        Some((json, rest)) => {
            none(rest)?;
            Ok(Some(json))
        }
    }
}

/// One argument.
#[tactic(auto, unfolding(crate::specs::Parts::one))]
pub fn one<'t>(items: Elements<'t>) -> Result<Json<'t>, ShapeFault>
    ensures { Gives (λ json. view json) result (one (items_view items.entry)) }
{
    let (json, rest) = first(items)?;
    none(rest)?;
    Ok(json)
}

/// One argument or two.
#[tactic(auto, unfolding(crate::specs::Parts::one_or_two))]
pub fn one_or_two<'t>(items: Elements<'t>) -> Result<(Json<'t>, Option<Json<'t>>), ShapeFault>
    ensures { Gives (λ p. (view p.0, option_map (λ json. view json) p.1)) result
        (one_or_two (items_view items.entry)) }
{
    let (json, rest) = first(items)?;
    let last = if_any(rest)?;
    Ok((json, last))
}

/// Two arguments, and a third that may be left out.
#[tactic(auto, unfolding(crate::specs::Parts::two_or_three))]
pub fn two_or_three<'t>(
    items: Elements<'t>,
) -> Result<(Json<'t>, Json<'t>, Option<Json<'t>>), ShapeFault>
    ensures { Gives
        (λ p. (view p.0, view p.1, option_map (λ json. view json) p.2)) result
        (two_or_three (items_view items.entry)) }
{
    let (json, rest) = first(items)?;
    let (second, rest) = first(rest)?;
    let last = if_any(rest)?;
    Ok((json, second, last))
}

/// Two arguments.
#[tactic(auto, unfolding(crate::specs::Parts::two))]
pub fn two<'t>(items: Elements<'t>) -> Result<(Json<'t>, Json<'t>), ShapeFault>
    ensures { Gives (λ p. (view p.0, view p.1)) result (two (items_view items.entry)) }
{
    let (json, rest) = first(items)?;
    let last = one(rest)?;
    Ok((json, last))
}

/// Three arguments.
#[tactic(auto, unfolding(crate::specs::Parts::three))]
pub fn three<'t>(items: Elements<'t>) -> Result<(Json<'t>, Json<'t>, Json<'t>), ShapeFault>
    ensures { Gives (λ p. (view p.0, view p.1, view p.2)) result
        (three (items_view items.entry)) }
{
    let (json, rest) = first(items)?;
    let (next, last) = two(rest)?;
    Ok((json, next, last))
}

/// Four arguments.
#[tactic(auto, unfolding(crate::specs::Parts::four))]
pub fn four<'t>(items: Elements<'t>) -> Result<(Json<'t>, Json<'t>, Json<'t>, Json<'t>), ShapeFault>
    ensures { Gives (λ p. (view p.0, view p.1, view p.2, view p.3)) result
        (four (items_view items.entry)) }
{
    let (json, rest) = first(items)?;
    let (second, third, last) = three(rest)?;
    Ok((json, second, third, last))
}

/// Five arguments.
#[tactic(auto, unfolding(crate::specs::Parts::five))]
pub fn five<'t>(
    items: Elements<'t>,
) -> Result<(Json<'t>, Json<'t>, Json<'t>, Json<'t>, Json<'t>), ShapeFault>
    ensures { Gives (λ p. (view p.0, view p.1, view p.2, view p.3, view p.4))
        result (five (items_view items.entry)) }
{
    let (json, rest) = first(items)?;
    let (second, rest) = first(rest)?;
    let (third, fourth, last) = three(rest)?;
    Ok((json, second, third, fourth, last))
}

/// An object with no other keys than these, but maybe a comment, which is a text.
#[tactic(auto, unfolding(crate::specs::Parts::fields_at))]
pub fn fields(json: Json<'_>, keys: &[&str]) -> Result<(), ShapeFault>
    ensures { Gives (λ _. tt) result (fields_at (map (λ k. k.now) keys.now) (view json.entry)) }
{
    let Some(members) = json.as_object() else {
        return Err(ShapeFault::BadShape);
    };
    if has_only(members, keys) && is_comment(json.get("comment")) {
        Ok(())
    } else {
        Err(ShapeFault::BadShape)
    }
}

#[tactic(auto, unfolding(crate::specs::Forms::has_only), using(crate::proofs::Members::has_only_put))]
fn has_only(members: Members<'_>, keys: &[&str]) -> bool
    ensures { result ≡ has_only (map (λ k. k.now) keys.now) (members_view members.entry) }
{
    let mut rest = members;
    while let Some((key, _)) = rest.next() {
        if !is_among(key, keys) && key != "comment" {
            return false;
        }
    }
    true
}

fn is_comment(json: Option<Json<'_>>) -> bool
    ensures { result ≡ is_comment (option_map (λ d. view d) json.entry) }
{
    match json {
        Some(json) => json.as_str().is_some(),
        None => true,
    }
}

/// Whether a key is one of these.
pub fn is_among(key: &str, keys: &[&str]) -> bool
    ensures { result ≡ list_any (λ k. bytes_eq key.now k) (map (λ k. k.now) keys.now) }
{
    for k in keys {
        if key == *k {
            return true;
        }
    }
    false
}
