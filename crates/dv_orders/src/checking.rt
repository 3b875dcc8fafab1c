//! Checks that batches are an order of a script.

ghost use Rattle.std.specs.Prelude.{◌≡◌, ◌+◌, if◌then◌else◌, length, replicate, slice_set, IfOk};
ghost use Rattle.dv_orders.specs.Faults.{AreFitting, Checks, ChecksEnd, ChecksPosts, ChecksShape};
ghost use Rattle.dv_orders.specs.Faults.{FirstStrange, drains_of, is_next};

use crate::fault::OrderFault;
use dv_posts::posted::Posted;
use dv_script::body::Body;
use dv_script::event::Event;
use dv_script::script::Script;
use dv_value::items::Items;
use std::alloc::{AllocError, Global};

/// Returns why batches aren't an order of a script: a reason that holds, and where. None where they
/// are one.
pub fn fault_of(
    alloc: Global,
    script: &Script,
    batches: &[Items<Posted>],
) -> Result<Option<OrderFault>, AllocError>
    ensures { IfOk result (λ fault. Checks fault script.now batches.now) }
{
    let drains = drains_of(alloc, script.events.as_slice())?;
    match shape_fault(drains.as_slice(), batches) {
        Some(fault) => Ok(Some(fault)),
        None => posts_or_end_fault(alloc, script, batches),
    }
}

/// The same, where there is a batch for each drain, of no more posts than this takes, and one more.
#[tactic(auto, using(crate::proofs::CheckLemmas::is_order))]
fn posts_or_end_fault(
    alloc: Global,
    script: &Script,
    batches: &[Items<Posted>],
) -> Result<Option<OrderFault>, AllocError>
    requires { AreFitting (drains_of script.now.events) batches.now }
    ensures { IfOk result (λ fault. Checks fault script.now batches.now) }
{
    let callers = script.callers.as_slice();
    let mut counts = zeros(alloc, callers.len())?;
    match posts_fault(callers, &mut counts, batches) {
        Some(fault) => Ok(Some(fault)),
        None => Ok(untaken(callers, counts.as_slice())),
    }
}

/// How many posts each drain takes at most.
pub(crate) fn drains_of(alloc: Global, events: &[Event]) -> Result<Vec<u32>, AllocError>
    ensures { IfOk result (λ drains. drains.items ≡ drains_of events.now) }
{
    let mut drains = Vec::new(alloc);
    for event in events {
        match event {
            Event::Drain(most) => drains.push(*most)?,
            Event::Action(_) | Event::Advance(_) | Event::Expect(_, _) => {}
        }
    }
    Ok(drains)
}

/// So many zeros.
fn zeros(alloc: Global, len: usize) -> Result<Vec<usize>, AllocError>
    ensures { IfOk result (λ zeros. zeros.items ≡ replicate len 0) }
{
    let mut zeros = Vec::with_capacity(alloc, len)?;
    for _ in 0..len {
        zeros.push_reserved(0_usize);
    }
    Ok(zeros)
}

/// Whether there is a batch for each drain, of no more posts than this takes, and one more.
fn shape_fault(drains: &[u32], batches: &[Items<Posted>]) -> Option<OrderFault>
    ensures { ChecksShape result drains.now batches.now }
{
    if batches.len() <= drains.len() {
        return Some(OrderFault::Missing(batches.len()));
    }
    if batches.len() > drains.len() + 1 {
        return Some(OrderFault::Needless(drains.len() + 1));
    }
    for number in 0..drains.len() {
        if batches[number].as_slice().len() > drains[number] as usize {
            return Some(OrderFault::TooLong(number, drains[number]));
        }
    }
    None
}

/// Counts the posts of all batches, as far as each is the next one of its caller.
fn posts_fault(
    callers: &[Items<Body>],
    counts: &mut Vec<usize>,
    batches: &[Items<Posted>],
) -> Option<OrderFault>
    requires { counts.old.items ≡ replicate (length callers.now) 0 }
    ensures { ChecksPosts result callers.now counts.new.items batches.now }
{
    for number in 0..batches.len() {
        match first_strange(callers, counts, batches[number].as_slice()) {
            Some(place) => return Some(OrderFault::NotNext(number, place)),
            None => {}
        }
    }
    None
}

/// Counts the posts of a batch, as far as each is the next one of its caller. Returns the place of
/// the first that isn't.
fn first_strange(
    callers: &[Items<Body>],
    counts: &mut Vec<usize>,
    batch: &[Posted],
) -> Option<usize>
    requires { length counts.old.items ≡ length callers.now }
    ensures len { length counts.new.items ≡ length callers.now }
    ensures strange { FirstStrange result callers.now counts.old.items counts.new.items batch.now }
{
    for place in 0..batch.len() {
        if !count_one(callers, counts, &batch[place]) {
            return Some(place);
        }
    }
    None
}

/// Counts a post, where it is the next one of its caller, and returns whether it is.
fn count_one(callers: &[Items<Body>], counts: &mut Vec<usize>, posted: &Posted) -> bool
    requires { length counts.old.items ≡ length callers.now }
    ensures next { result ≡ is_next callers.now counts.old.items posted.now }
    ensures counted { counts.new.items
        ≡ (if result then slice_set counts.old.items posted.now.caller (posted.now.index + 1)
        else counts.old.items) }
{
    let caller = posted.caller as usize;
    if caller >= callers.len() {
        return false;
    }
    let index = posted.index as usize;
    if index >= callers[caller].as_slice().len() || index != counts[caller] {
        return false;
    }
    counts[caller] = index + 1;
    true
}

/// Returns a post that wasn't counted. None where all were.
fn untaken(callers: &[Items<Body>], counts: &[usize]) -> Option<OrderFault>
    requires { length counts.now ≡ length callers.now }
    ensures { ChecksEnd result callers.now counts.now }
{
    for caller in 0..callers.len() {
        if counts[caller] < callers[caller].as_slice().len() {
            return Some(OrderFault::Untaken(caller, counts[caller]));
        }
    }
    None
}
