//! What there is too much of in a script.

ghost use Rattle.std.specs.Prelude.{◌≡◌, ◌∷◌, ◌^◌, ◌-◌, ◌≤◌, ◌<◌, ℕ, [], None, IfOk, IfSome, min};
ghost use Rattle.std.specs.Prelude.{nat_lt, codes};
ghost use Rattle.serde_json.specs.Data.{depth};
ghost use Rattle.serde_json.specs.Find.{as_array};
ghost use Rattle.serde_json.specs.View.{view, items_view};
ghost use Rattle.dv_script.specs.declared.limits.TheConstants.{MOST_POSTS};
ghost use Rattle.dv_reader.specs.declared.error.ScriptFault.TheVariants.{TooMany};
ghost use Rattle.dv_why.specs.Counts.{all_ticks, count_at, count_in, listed_ticks, posts_of};
ghost use Rattle.dv_why.specs.Counts.{ticks_among, ticks_at};
ghost use Rattle.dv_why.specs.Documents.{list_in, or_no_items, script_in};
ghost use Rattle.dv_why.specs.Finds.{Leads};
ghost use Rattle.dv_why.specs.Places.{to_item, to_key};
ghost use Rattle.dv_document.specs.View.{count};
ghost use Rattle.dv_why.specs.Reasons.{IsRefusedFor};
ghost use Rattle.dv_forms.specs.Wants.{all_callers};
ghost use Rattle.dv_why.specs.Wrong.{IsAt, IsTooMuch};

use crate::document::{value_of, version_of, whole};
use crate::expected::Expected;
use crate::misfit::{Misfit, Step};
use crate::tree::{has_few_nodes, repeat_of};
use dv_clock::limits::MOST_TICKS;
use dv_forms::want::Item;
use dv_script::limits::{
    MOST_BODIES, MOST_CALLERS, MOST_CLASSES, MOST_COOPERATORS, MOST_LEVELS, MOST_POOLS, MOST_POSTS,
};
use serde_json::Value as Json;
use std::alloc::{AllocError, Global};

/// By how many ticks an event that is no repeat advances the clock.
fn ticks_of(event: &Json) -> u64
    ensures { result ≡ ticks_at (view event.now) }
{
    match (event.get(0usize), event.get(1usize)) {
        (Some(word), Some(ticks)) => if word.as_str() == Some("advance") {
            ticks.as_u64().unwrap_or(0)
        } else {
            0
        },
        (Some(_) | None, Some(_) | None) => 0,
    }
}

/// By how many ticks an item of an array of events advances the clock, in which repeats nest to
/// `levels`, to the last number of 64 bits.
#[cycle(ticks)]
#[tactic(auto, using(dv_reader::proofs::Cutting::cut_times))]
fn listed_ticks(levels: u32, event: &Json) -> u64
    ensures { result ≡ min (listed_ticks (ticks_among levels) (view event.now)) (2 ^ 64 - 1) }
{
    match repeat_of(event) {
        Some((times, events)) => times.saturating_mul(ticks_among(levels, events)),
        None => ticks_of(event),
    }
}

#[cycle(ticks)]
fn all_ticks(levels: u32, events: &[Json]) -> u64
    ensures { result ≡ min (all_ticks (listed_ticks (ticks_among levels)) (items_view events.now))
        (2 ^ 64 - 1) }
{
    let mut total = 0u64;
    for event in events {
        total = total.saturating_add(listed_ticks(levels, event));
    }
    total
}

/// By how many ticks the events advance the clock, in which repeats nest to `levels`, to the last
/// number of 64 bits.
#[cycle(ticks)]
#[tactic(auto, unfolding(crate::specs::Counts::ticks_among))]
fn ticks_among(levels: u32, events: &[Json]) -> u64
    ensures { result ≡ min (ticks_among levels (items_view events.now)) (2 ^ 64 - 1) }
{
    if levels == 0 {
        return 0;
    }
    all_ticks(levels - 1, events)
}

/// The items of the array of a key, or none where there is no such array.
pub fn items_of<'j>(json: &'j Json, key: &str) -> &'j [Json]
    ensures { items_view result.now ≡ list_in key.now (view json.now) }
{
    match json.get(key) {
        Some(Json::Array(items)) => items.as_slice(),
        Some(Json::Null | Json::Bool(_) | Json::Number(_) | Json::String(_) | Json::Object(_))
        | None => &[],
    }
}

#[tactic(auto, using(crate::proofs::Counting::count_items))]
fn is_long(json: &Json, key: &str, most: usize) -> bool
    ensures { result ≡ nat_lt most (count_in key.now (view json.now)) }
{
    items_of(json, key).len() > most
}

/// The first caller that has too many posts.
fn busy_caller(alloc: Global, callers: &Json) -> Result<Option<Misfit<'_>>, AllocError>
    ensures leads { IfOk result
        (λ found. IfSome found (λ misfit. Leads all_callers (view callers.now) misfit)) }
    ensures wrong { IfOk result (λ found. IfSome found (λ misfit.
        (n : ℕ) × IsAt (to_item n ∷ []) misfit
        × (MOST_POSTS < count_at n (or_no_items (as_array (view callers.now)))))) }
    ensures none { IfOk result (λ found. found ≡ None → (n : ℕ)
        → count_at n (or_no_items (as_array (view callers.now))) ≤ MOST_POSTS) }
{
    let Json::Array(items) = callers else {
        return Ok(None);
    };
    for number in 0..items.len() {
        if let Some(posts) = callers.get(number)
            && is_busy(posts)
        {
            let misfit = Misfit::here(alloc, Item::Caller.want(), posts);
            return Ok(Some(misfit.under(Step::Item(number))?));
        }
    }
    Ok(None)
}

#[tactic(auto, using(crate::proofs::Counting::count_items))]
fn is_busy(posts: &Json) -> bool
    ensures { result ≡ nat_lt MOST_POSTS (count (or_no_items (as_array (view posts.now)))) }
{
    match posts {
        Json::Array(items) => items.len() > MOST_POSTS as usize,
        Json::Null | Json::Bool(_) | Json::Number(_) | Json::String(_) | Json::Object(_) => false,
    }
}

/// The first caller of a document that has too many posts, seen from the document.
fn busy_one(alloc: Global, json: &Json) -> Result<Option<Misfit<'_>>, AllocError>
    ensures leads { IfOk result (λ found.
        IfSome found (λ misfit. Leads (script_in (view json.now)) (view json.now) misfit)) }
    ensures wrong { IfOk result (λ found. IfSome found (λ misfit.
        (n : ℕ) × IsAt (to_key (codes "callers") ∷ to_item n ∷ []) misfit
        × (MOST_POSTS < posts_of n (view json.now)))) }
    ensures none { IfOk result (λ found. found ≡ None → (n : ℕ)
        → posts_of n (view json.now) ≤ MOST_POSTS) }
{
    let Some(callers) = json.get("callers") else {
        return Ok(None);
    };
    match busy_caller(alloc, callers)? {
        Some(misfit) => Ok(Some(misfit.under(Step::Key("callers"))?)),
        None => Ok(None),
    }
}

/// The first list of a script of which there is too much, or the whole script, and what is
/// expected.
pub fn too_many(alloc: Global, json: &Json) -> Result<(Misfit<'_>, Expected), AllocError>
    requires refused { IsRefusedFor TooMany (view json.now) }
    requires shallow { depth (view json.now) ≤ MOST_LEVELS }
    ensures leads { IfOk result (λ found. Leads (script_in (view json.now))
        (view json.now) found.0) }
    ensures wrong { IfOk result (λ found. IsTooMuch (view json.now) found.0) }
{
    let version = version_of(json);
    let few = has_few_nodes(alloc, version, json)?;
    if !few {
        return Ok((whole(alloc, json), Expected::FewNodes(version)));
    }
    if is_long(json, "classes", MOST_CLASSES) {
        return Ok((value_of(alloc, json, "classes")?, Expected::FewClasses));
    }
    if is_long(json, "pools", MOST_POOLS) {
        return Ok((value_of(alloc, json, "pools")?, Expected::FewPools));
    }
    if is_long(json, "bodies", MOST_BODIES) {
        return Ok((value_of(alloc, json, "bodies")?, Expected::FewBodies));
    }
    if is_long(json, "cooperators", MOST_COOPERATORS) {
        return Ok((
            value_of(alloc, json, "cooperators")?,
            Expected::FewCooperators,
        ));
    }
    if is_long(json, "callers", MOST_CALLERS as usize) {
        return Ok((value_of(alloc, json, "callers")?, Expected::FewCallers));
    }
    if let Some(misfit) = busy_one(alloc, json)? {
        return Ok((misfit, Expected::FewPosts));
    }
    if ticks_among(MOST_LEVELS, items_of(json, "events")) > MOST_TICKS {
        return Ok((value_of(alloc, json, "events")?, Expected::FewTicks));
    }
    Ok((whole(alloc, json), Expected::FewNodes(version)))
}
