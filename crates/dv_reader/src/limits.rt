ghost use Rattle.std.specs.Prelude.{◌≡◌, ◌+◌, ◌^◌, ◌-◌, min, nat_le};
ghost use Rattle.std.specs.List.{list_all};
ghost use Rattle.dv_document.specs.View.{view, items_view, members_view};
ghost use Rattle.dv_clock.specs.declared.limits.TheConstants.{MOST_TICKS};
ghost use Rattle.dv_forms.specs.Limits.{most_bytes, most_nodes};
ghost use Rattle.dv_forms.specs.Repeat.{repeat_at};
ghost use Rattle.dv_reader.specs.Limits.{ticks_of, ticks_in};
ghost use Rattle.dv_reader.specs.Limits.{weight, item_weights, member_weights, added_by, added_in};
ghost use Rattle.dv_reader.specs.Limits.{added_among, added_at, added_to, all_nodes};
ghost use Rattle.dv_reader.specs.Limits.{are_few, is_small, or_first, most_bytes_of};

use dv_clock::limits::MOST_TICKS;
use dv_document::places::{Elements, Json, Members};
use dv_document::value::Kind;
use dv_forms::limits::{WIDEST_NODES, most_bytes, most_nodes};
use dv_forms::repeat::repeat_of;
use dv_forms::versions::LAST_VERSION;
use dv_grammar::draft::Draft;
use dv_script::body::Body;
use dv_script::event::Event;
use dv_script::limits::{
    MOST_BODIES, MOST_BYTES, MOST_CALLERS, MOST_CLASSES, MOST_COOPERATORS, MOST_LEVELS, MOST_POOLS,
    MOST_POSTS,
};
use dv_value::items::Items;

/// How much the value weighs in what is repeated, to the last number of 64 bits.
#[cycle(weights)]
fn weight(json: Json<'_>) -> u64
    ensures { result ≡ min (weight (view json.entry)) (2 ^ 64 - 1) }
{
    match json.kind() {
        Kind::Null | Kind::Bool(_) | Kind::Number(_) => 1,
        Kind::String(text) => (text.len() as u64 / 64).saturating_add(1),
        Kind::Array(items) => item_weights(items).saturating_add(1),
        Kind::Object(members) => member_weights(members).saturating_add(1),
    }
}

#[cycle(weights)]
fn item_weights(items: Elements<'_>) -> u64
    ensures { result ≡ min (item_weights (items_view items.entry)) (2 ^ 64 - 1) }
{
    let mut total = 0u64;
    let mut rest = items;
    while let Some(item) = rest.next() {
        total = total.saturating_add(weight(item));
    }
    total
}

#[cycle(weights)]
#[tactic(auto, using(crate::proofs::Puts::weights_put))]
fn member_weights(members: Members<'_>) -> u64
    ensures { result ≡ min (member_weights (members_view members.entry)) (2 ^ 64 - 1) }
{
    let mut total = 0u64;
    let mut rest = members;
    while let Some((_, json)) = rest.next() {
        total = total.saturating_add(weight(json));
    }
    total
}

/// How many nodes a repeat adds, to the last number of 64 bits.
#[tactic(auto, using(crate::proofs::Cutting::adding))]
fn added_by(times: u64, weight: u64, added: u64) -> u64
    ensures { result ≡ min (added_by times weight added) (2 ^ 64 - 1) }
{
    times
        .saturating_sub(1)
        .saturating_mul(weight.saturating_add(added))
        .saturating_add(added)
}

/// How many nodes the repeats of an array of events add, in which they nest to `levels`, to the
/// last number of 64 bits.
#[cycle(added)]
#[tactic(auto, unfolding(crate::specs::Limits::added_in))]
fn added_in(levels: u32, items: Elements<'_>) -> u64
    ensures { result ≡ min (added_in levels (items_view items.entry)) (2 ^ 64 - 1) }
{
    if levels == 0 {
        return 0;
    }
    added_among(levels - 1, items)
}

#[cycle(added)]
fn added_among(levels: u32, items: Elements<'_>) -> u64
    ensures { result ≡ min (added_among (added_in levels) (items_view items.entry)) (2 ^ 64 - 1) }
{
    let mut total = 0u64;
    let mut rest = items;
    while let Some(item) = rest.next() {
        total = total.saturating_add(added_at(levels, item));
    }
    total
}

#[cycle(added)]
fn added_at(levels: u32, json: Json<'_>) -> u64
    ensures { result ≡ min (added_at (added_in levels) (repeat_at (view json.entry))) (2 ^ 64 - 1) }
{
    match repeat_of(json) {
        Some((times, events)) => added_of(levels, times, events),
        None => 0,
    }
}

/// How many nodes a repeat of this array of events adds.
#[cycle(added)]
#[tactic(auto, using(crate::proofs::Cutting::cut_added))]
fn added_of(levels: u32, times: u64, events: Elements<'_>) -> u64
    ensures { result ≡ min (added_by times (1 + item_weights (items_view events.entry))
        (added_in levels (items_view events.entry))) (2 ^ 64 - 1) }
{
    let weight = item_weights(events).saturating_add(1);
    added_by(times, weight, added_in(levels, events))
}

/// How many nodes the repeats of a document add, to the last number of 64 bits.
#[tactic(auto, unfolding(crate::specs::Limits::added_in))]
pub(crate) fn added_to(json: Json<'_>) -> u64
    ensures { result ≡ min (added_to (view json.entry)) (2 ^ 64 - 1) }
{
    match json.get("events") {
        Some(events) => match events.as_array() {
            Some(events) => added_in(MOST_LEVELS, events),
            None => 0,
        },
        None => 0,
    }
}

/// Whether the repeats of a document, which add so many nodes, add no more than a script of any
/// version may have: else they aren't written out.
pub(crate) fn adds_few_nodes(json: Json<'_>, added: u64) -> bool
    requires { added ≡ min (added_to (view json)) (2 ^ 64 - 1) }
    ensures { result ≡ nat_le (added_to (view json.entry)) WIDEST_NODES }
{
    added <= WIDEST_NODES
}

/// Whether a document has few enough nodes for a script of this version, with those that its
/// repeats add.
pub fn has_few_nodes(version: u32, json: Json<'_>) -> bool
    ensures { result ≡ nat_le (all_nodes (view json.entry)) (most_nodes version) }
{
    are_few_nodes(version, json, added_to(json))
}

/// The same, where the repeats add so many.
fn are_few_nodes(version: u32, json: Json<'_>, added: u64) -> bool
    requires { added ≡ min (added_to (view json)) (2 ^ 64 - 1) }
    ensures { result ≡ nat_le (all_nodes (view json.entry)) (most_nodes version) }
{
    let nodes = json.count_nodes() as u64;
    nodes.saturating_add(added) <= most_nodes(version)
}

fn or_first(version: Option<u64>) -> u32
    ensures { result ≡ or_first version }
{
    match version {
        Some(n) => if n <= u64::from(LAST_VERSION) {
            n as u32
        } else {
            1
        },
        None => 1,
    }
}

/// The most bytes that the text of this value may have.
pub fn most_bytes_of(json: Json<'_>) -> usize
    ensures { result ≡ most_bytes_of (view json.entry) }
{
    match json.get("version") {
        Some(version) => most_bytes(or_first(version.as_u64())),
        None => MOST_BYTES,
    }
}

fn ticks_of(event: &Event) -> u64
    ensures { result ≡ ticks_of event.now }
{
    match event {
        Event::Action(_) | Event::Drain(_) | Event::Expect(_, _) => 0,
        Event::Advance(n) => *n,
    }
}

/// By how many ticks the events advance the clock, to the last number of 64 bits.
fn ticks_in(events: &[Event]) -> u64
    ensures { result ≡ min (ticks_in events.now) (2 ^ 64 - 1) }
{
    let mut total = 0u64;
    for event in events {
        total = total.saturating_add(ticks_of(event));
    }
    total
}

fn has_few_ticks(events: &[Event]) -> bool
    ensures { result ≡ nat_le (ticks_in events.now) MOST_TICKS }
{
    ticks_in(events) <= MOST_TICKS
}

fn are_few(posts: &Items<Body>) -> bool
    ensures { result ≡ are_few posts.now }
{
    posts.as_slice().len() <= MOST_POSTS as usize
}

fn all_are_few(callers: &[Items<Body>]) -> bool
    ensures { result ≡ list_all are_few callers.now }
{
    callers.iter().all(are_few)
}

/// Whether a script of this JSON value, whose repeats add so many nodes, has few enough nodes, classes,
/// pools, bodies, Cooperators, callers, posts and ticks.
pub(crate) fn is_small(json: Json<'_>, added: u64, draft: &Draft) -> bool
    requires { added ≡ min (added_to (view json)) (2 ^ 64 - 1) }
    ensures { result ≡ is_small (view json.entry) draft.now }
{
    are_few_nodes(draft.version, json, added)
        && draft.declared.as_slice().len() <= MOST_CLASSES
        && draft.script.pools.as_slice().len() <= MOST_POOLS
        && draft.script.bodies.as_slice().len() <= MOST_BODIES
        && draft.script.cooperators.as_slice().len() <= MOST_COOPERATORS
        && draft.script.callers.as_slice().len() <= MOST_CALLERS as usize
        && all_are_few(draft.script.callers.as_slice())
        && has_few_ticks(draft.script.events.as_slice())
}
