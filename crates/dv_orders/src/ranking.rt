//! Finds the order of a number, without a list of the orders.

ghost use Rattle.std.specs.Prelude.{◌≡◌, ℕ, ◌+◌, ◌-◌, ◌<◌, ◌≤◌, ◌^◌, suc, min, length, option_map};
ghost use Rattle.std.specs.Prelude.{slice_get, slice_index, IfOk, IfSome};
ghost use Rattle.dv_orders.specs.Numbers.{number_of_cuts};
ghost use Rattle.dv_orders.specs.Orders.{counts_of, cuts, orders, posts_from, sequences, total};
ghost use Rattle.dv_orders.specs.Ranking.{FallsIn, left_counts, number_by};
ghost use Rattle.dv_orders.specs.Sequencing.{IsPath};

use crate::batching::batch_of;
use crate::numbering::{line_of_cuts, number_of_cuts, number_of_posts, number_of_sequences};
use crate::sequencing::Sequence;
use dv_posts::posted::Posted;
use dv_script::body::Body;
use dv_script::event::Event;
use dv_script::script::Script;
use dv_value::items::Items;
use std::alloc::{AllocError, Global};

/// Where a number falls among the pieces of a list.
#[derive(Clone, Copy, Debug, PartialEq, Eq, Drop)]
pub(crate) struct Place {
    pub(crate) piece: usize,
    /// Its number in that piece.
    pub(crate) number: u64,
}

/// Returns the batches of the order at this place in the list of orders, from 0 up to 2^64 - 2.
/// Returns None where the list isn't that long. It takes time by the posts and the drains, and not
/// by the orders.
pub fn order_of(
    alloc: Global,
    script: &Script,
    number: u64,
) -> Result<Option<Items<Items<Posted>>>, AllocError>
    requires { number + 1 < 2 ^ 64 }
    ensures { IfOk result (λ order. order ≡ slice_get (orders script.now) number) }
{
    let callers = script.callers.as_slice();
    let events = script.events.as_slice();
    let posts = number_of_posts(callers)?;
    let cuts = number_of_cuts(alloc, events, posts, u64::MAX)?;
    match sequence_of(alloc, callers, number / cuts)? {
        Some(sequence) => cut_of(alloc, events, sequence.as_slice(), number % cuts),
        None => Ok(None),
    }
}

/// The sequence of all posts at this place in the list of sequences.
fn sequence_of(
    alloc: Global,
    callers: &[Items<Body>],
    mut number: u64,
) -> Result<Option<Vec<Posted>>, AllocError>
    requires { number + 1 < 2 ^ 64 }
    ensures { IfOk result (λ sequence. option_map (λ posts. posts.items) sequence
        ≡ slice_get (sequences (total (counts_of callers.now)) (posts_from 0 callers.now)) number) }
{
    let posts = number_of_posts(callers)?;
    let mut sequence = Sequence::empty(alloc, callers)?;
    while sequence.posts.len() < posts {
        match caller_of(alloc, &sequence, number)? {
            Some(place) => {
                sequence.take(place.piece as u32)?;
                number = place.number;
            }
            None => return Ok(None),
        }
    }
    if number > 0 {
        return Ok(None);
    }
    Ok(Some(sequence.posts))
}

/// The caller with whose next post the sequence of this number goes on, and its number among those
/// that do.
fn caller_of(
    alloc: Global,
    sequence: &Sequence,
    mut number: u64,
) -> Result<Option<Place>, AllocError>
    requires path { IsPath sequence.now.counts.items sequence.now.taken.items
        sequence.now.posts.items }
    requires small { number + 1 < 2 ^ 64 }
    ensures falls { IfOk result
        (λ place. FallsIn place (number_by sequence.now.counts.items sequence.now.taken.items)
        (length sequence.now.counts.items) number) }
    ensures small { IfOk result (λ place.
        IfSome place (λ place. slice_index sequence.now.taken.items place.piece + 1 < 2 ^ 32)) }
{
    for caller in 0..sequence.counts.len() {
        let sequences = number_by(alloc, sequence, caller)?;
        if number < sequences {
            return Ok(Some(Place {
                piece: caller,
                number,
            }));
        }
        number -= sequences;
    }
    Ok(None)
}

/// How many sequences go on with the next post of this caller, up to 2^64 - 1.
fn number_by(alloc: Global, sequence: &Sequence, caller: usize) -> Result<u64, AllocError>
    requires path { IsPath sequence.now.counts.items sequence.now.taken.items
        sequence.now.posts.items }
    requires within { caller < length sequence.now.counts.items }
    ensures number { IfOk result (λ number. number
        ≡ min (number_by sequence.now.counts.items sequence.now.taken.items caller) (2 ^ 64 - 1)) }
    ensures small { IfOk result (λ number. 0 < number
        → slice_index sequence.now.taken.items caller + 1 < 2 ^ 32) }
{
    if sequence.taken[caller] >= sequence.counts[caller] {
        return Ok(0);
    }
    let mut left = left_counts(alloc, sequence.counts.as_slice(), sequence.taken.as_slice())?;
    left[caller] -= 1;
    number_of_sequences(alloc, left.as_slice(), u64::MAX)
}

/// How many posts each caller has left.
fn left_counts(alloc: Global, counts: &[u32], taken: &[u32]) -> Result<Vec<u32>, AllocError>
    requires len { length taken.now ≡ length counts.now }
    requires within { (caller : ℕ) → slice_index taken.now caller ≤ slice_index counts.now caller }
    ensures { IfOk result (λ left. left.items ≡ left_counts counts.now taken.now) }
{
    let mut left = Vec::new(alloc);
    for caller in 0..counts.len() {
        left.push(counts[caller] - taken[caller])?;
    }
    Ok(left)
}

/// The batches of the cut of a sequence at this place in the list of its cuts.
fn cut_of(
    alloc: Global,
    events: &[Event],
    sequence: &[Posted],
    mut number: u64,
) -> Result<Option<Items<Items<Posted>>>, AllocError>
    requires fits { length sequence.now + 1 < 2 ^ 64 }
    requires small { number + 1 < 2 ^ 64 }
    ensures { IfOk result (λ cut. cut ≡ slice_get (cuts events.now sequence.now) number) }
{
    let mut batches = Items::new(alloc);
    let mut rest = sequence;
    for place in 0..events.len() {
        match &events[place] {
            Event::Drain(most) => {
                let (_, later) = events.split_at(place + 1);
                match taken_of(alloc, later, *most as usize, rest.len(), number)? {
                    Some(taken) => {
                        let (batch, left) = rest.split_at(taken.piece);
                        batches.push(batch_of(alloc, batch)?)?;
                        rest = left;
                        number = taken.number;
                    }
                    None => return Ok(None),
                }
            }
            Event::Action(_) | Event::Advance(_) | Event::Expect(_, _) => {}
        }
    }
    if number > 0 {
        return Ok(None);
    }
    batches.push(batch_of(alloc, rest)?)?;
    Ok(Some(batches))
}

/// How many of these posts a drain takes in the cut of this number, and its number among those in
/// which it takes so many. The events are those after the drain.
fn taken_of(
    alloc: Global,
    events: &[Event],
    most: usize,
    posts: usize,
    mut number: u64,
) -> Result<Option<Place>, AllocError>
    requires fits { posts + 1 < 2 ^ 64 }
    requires small { number + 1 < 2 ^ 64 }
    ensures { IfOk result (λ place. FallsIn place
        (λ taken. number_of_cuts events.now (posts - taken)) (suc (min most posts)) number) }
{
    let line = line_of_cuts(alloc, events, posts, u64::MAX)?;
    for taken in 0..most.min(posts) + 1 {
        let cuts = line[posts - taken];
        if number < cuts {
            return Ok(Some(Place {
                piece: taken,
                number,
            }));
        }
        number -= cuts;
    }
    Ok(None)
}
