//! Counts the orders of a script, without a list of them.

ghost use Rattle.std.specs.Prelude.{ℕ, ◌≡◌, ◌+◌, ◌*◌, ◌<◌, ◌≤◌, ◌^◌, min, length, IfOk};
ghost use Rattle.dv_orders.specs.Counted.{Counts, CountsUpTo, IsLine, StartsWith};
ghost use Rattle.dv_orders.specs.Numbers.{next_line, number_of_cuts, number_of_sequences};
ghost use Rattle.dv_orders.specs.Numbers.{sum_over_splits, ways};
ghost use Rattle.dv_orders.specs.Orders.{counts_of, total};

use crate::number::Number;
use crate::sequencing::counts_of;
use dv_script::body::Body;
use dv_script::event::Event;
use dv_script::script::Script;
use dv_value::items::Items;
use std::alloc::{AllocError, Global};

/// Returns how many orders a script has: Exactly so many, up to `most` and 2^64 - 2, or More. It
/// takes time by the posts and the drains, and not by the orders.
pub fn number_of_orders(alloc: Global, script: &Script, most: u64) -> Result<Number, AllocError>
    ensures { IfOk result (λ number. Counts number script.now most) }
{
    let cap = most.min(u64::MAX - 1) + 1;
    let callers = script.callers.as_slice();
    let counts = counts_of(alloc, callers)?;
    let sequences = number_of_sequences(alloc, counts.as_slice(), cap)?;
    if sequences == cap {
        return Ok(Number::More);
    }
    let posts = number_of_posts(callers)?;
    let cuts = number_of_cuts(alloc, script.events.as_slice(), posts, cap)?;
    Ok(number_up_to(capped_product(sequences, cuts, cap), cap))
}

/// The number, where it is below the cap, which no number passes.
fn number_up_to(number: u64, cap: u64) -> Number
    requires { number ≤ cap }
    ensures { CountsUpTo result number cap }
{
    if number < cap {
        Number::Exactly(number)
    } else {
        Number::More
    }
}

/// The sum of two numbers, up to the cap.
fn capped_sum(one: u64, other: u64, cap: u64) -> u64
    ensures { result ≡ min (one + other) cap }
{
    match one.checked_add(other) {
        Some(sum) => sum.min(cap),
        None => cap,
    }
}

/// The product of two numbers, up to the cap.
fn capped_product(one: u64, other: u64, cap: u64) -> u64
    ensures { result ≡ min (one * other) cap }
{
    match one.checked_mul(other) {
        Some(product) => product.min(cap),
        None => cap,
    }
}

/// How many posts all callers have. AllocError where they are more than 2^64 - 2, for which there
/// is no table.
pub(crate) fn number_of_posts(callers: &[Items<Body>]) -> Result<usize, AllocError>
    ensures { IfOk result (λ posts. (posts ≡ total (counts_of callers.now))
        × (posts + 1 < 2 ^ 64)) }
{
    let mut posts = 0;
    for caller in callers {
        let count = caller.as_slice().len();
        if count >= usize::MAX - posts {
            return Err(AllocError);
        }
        posts += count;
    }
    Ok(posts)
}

/// How many sequences there are of so many posts of each caller, up to the cap.
pub(crate) fn number_of_sequences(
    alloc: Global,
    counts: &[u32],
    cap: u64,
) -> Result<u64, AllocError>
    requires { 0 < cap }
    ensures { IfOk result (λ number. number ≡ min (number_of_sequences counts.now) cap) }
{
    let mut number = 1;
    let mut others = 0;
    let mut place = counts.len();
    while place > 0 && number < cap {
        place -= 1;
        let own = counts[place] as usize;
        number = capped_product(ways(alloc, own, others, cap)?, number, cap);
        if own >= usize::MAX - others {
            return Err(AllocError);
        }
        others += own;
    }
    Ok(number)
}

/// In how many ways so many posts of one caller come among so many of others, up to the cap.
fn ways(alloc: Global, own: usize, others: usize, cap: u64) -> Result<u64, AllocError>
    requires cap { 0 < cap }
    requires fits { others + 1 < 2 ^ 64 }
    ensures { IfOk result (λ number. number ≡ min (ways own others) cap) }
{
    let mut line = vec![in alloc; 1_u64; others + 1]?;
    let mut posts = 0;
    while posts < own && line[others] < cap {
        next_line(&mut line, cap);
        posts += 1;
    }
    Ok(line[others])
}

/// Goes on to the next line of Pascal's triangle, up to the cap.
fn next_line(line: &mut Vec<u64>, cap: u64)
    ensures len { length line.new.items ≡ length line.old.items }
    ensures next { (above : ℕ → ℕ) → IsLine above cap line.old.items
        → IsLine (next_line above) cap line.new.items }
{
    for place in 1..line.len() {
        let number = capped_sum(line[place], line[place - 1], cap);
        line[place] = number;
    }
}

/// In how many ways a sequence of so many posts is cut, up to the cap.
pub(crate) fn number_of_cuts(
    alloc: Global,
    events: &[Event],
    posts: usize,
    cap: u64,
) -> Result<u64, AllocError>
    requires cap { 0 < cap }
    requires fits { posts + 1 < 2 ^ 64 }
    ensures { IfOk result (λ number. number ≡ min (number_of_cuts events.now posts) cap) }
{
    let line = line_of_cuts(alloc, events, posts, cap)?;
    Ok(line[posts])
}

/// In how many ways sequences of none, one and more posts are cut, up to so many posts, each up to
/// the cap.
pub(crate) fn line_of_cuts(
    alloc: Global,
    events: &[Event],
    posts: usize,
    cap: u64,
) -> Result<Vec<u64>, AllocError>
    requires cap { 0 < cap }
    requires fits { posts + 1 < 2 ^ 64 }
    ensures len { IfOk result (λ line. length line.items ≡ posts + 1) }
    ensures line { IfOk result (λ line. IsLine (number_of_cuts events.now) cap line.items) }
{
    let mut line = vec![in alloc; 1_u64; posts + 1]?;
    let mut place = events.len();
    while place > 0 {
        place -= 1;
        match &events[place] {
            Event::Drain(most) => add_drain(&mut line, *most as usize, cap),
            Event::Action(_) | Event::Advance(_) | Event::Expect(_, _) => {}
        }
    }
    Ok(line)
}

/// Goes on from the numbers of cuts at the events after a drain to those with it, up to the cap.
fn add_drain(line: &mut Vec<u64>, most: usize, cap: u64)
    ensures len { length line.new.items ≡ length line.old.items }
    ensures next { (number : ℕ → ℕ) → IsLine number cap line.old.items
        → IsLine (sum_over_splits number most) cap line.new.items }
{
    let mut place = line.len();
    while place > 0 {
        place -= 1;
        let number = sum_over_splits(line.as_slice(), most, place, cap);
        line[place] = number;
    }
}

/// The sum over what is left of so many, where first ones are taken, so many at most, up to the
/// cap.
fn sum_over_splits(line: &[u64], mut most: usize, count: usize, cap: u64) -> u64
    requires { count < length line.now }
    ensures { (number : ℕ → ℕ) → StartsWith number cap line.now (count + 1)
        → result ≡ min (sum_over_splits number most count) cap }
{
    let mut left = count;
    let mut total = line[left];
    while left > 0 && most > 0 && total < cap {
        left -= 1;
        most -= 1;
        total = capped_sum(total, line[left], cap);
    }
    total
}
