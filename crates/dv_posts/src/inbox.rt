ghost use Rattle.std.specs.Prelude.{◌≡◌, ◌<◌, ◌≤◌, length, All, IfNone, IfOk, IfSome};
ghost use Rattle.dv_posts.specs.Receiving.{ArePassed, AreRead, TakesAt, inbox_of};
ghost use Rattle.dv_script.specs.declared.limits.TheConstants.{MOST_CALLERS, MOST_POSTS};

use crate::posted::Posted;
use crate::poster::Poster;
use crate::receiver::Receiver;
use crate::taken::Taken;
use dv_value::items::Items;
use rtrb::RingBuffer;
use std::alloc::{AllocError, Global};
use std::marker::Model;

/// Where the posts of up to `MOST_CALLERS` callers are taken, each posting over a ring of its own
/// (Twisted: the reactor's queue of what `callFromThread` is called with).
#[derive(Drop)]
pub struct Inbox {
    receivers: Vec<Receiver>,
    next: usize,
}

impl Model for Inbox {
    ghost use Rattle.std.specs.Prelude.{◌≤◌, length};
    ghost use Rattle.std.specs.Coded.{codes};
    ghost use Rattle.dv_posts.specs.Posts.{Inbox as Seen};
    ghost use Rattle.dv_script.specs.declared.limits.TheConstants.{MOST_CALLERS};

    ghost Value = { Seen };

    ghost coded = { Prim.hlevel codes };

    ghost view = { λ i. record { receivers = i.receivers.items; next = i.next } };

    ghost invariant = { λ i. (i.next ≤ length i.receivers.items)
        × (length i.receivers.items ≤ MOST_CALLERS) };
}

impl Inbox {
    ghost use Rattle.dv_posts.specs.Posts.{AllTaken, AreOf, IsFresh, IsNew, IsOf, IsRest, Learns};
    ghost use Rattle.dv_posts.specs.Posts.{SameInbox, Takes, counts_of};

    /// Opens an inbox for so many callers, and a poster for each of them, in order, with room for
    /// `capacity` posts of each that weren't yet taken. AllocError on allocation failure.
    pub fn open(
        alloc: Global,
        callers: u32,
        capacity: u32,
    ) -> Result<(Inbox, Vec<Poster>), AllocError>
        requires few { callers ≤ MOST_CALLERS }
        requires capacity { (1 ≤ capacity) × (capacity ≤ MOST_POSTS) }
        ensures new { IfOk result (λ opened. IsNew callers opened.0) }
        ensures posters { IfOk result (λ opened. AreOf opened.0 opened.1.items) }
        ensures fresh { IfOk result (λ opened. All (IsFresh capacity) opened.1.items) }
    {
        let mut receivers = Vec::with_capacity(alloc, callers as usize)?;
        let mut posters = Vec::with_capacity(alloc, callers as usize)?;
        for caller in 0..callers {
            let (producer, consumer) = RingBuffer::new(alloc, capacity as usize)?;
            receivers.push_reserved(Receiver::new(consumer));
            posters.push_reserved(Poster::new(producer, caller));
        }
        let inbox = Inbox { receivers, next: 0 };
        Ok((inbox, posters))
    }

    /// Takes the next post of a caller, without waiting. It goes round the callers, from the one
    /// after the last that gave a post. None where no ring had one when it was looked at.
    pub fn take(&mut self) -> Option<Posted>
        ensures same { SameInbox self.old self.new }
        ensures some { IfSome result (Takes self.old self.new) }
        ensures none { IfNone result (AllTaken self.old) }
        ensures kept { IfNone result (self.new ≡ self.old) }
    {
        let posted = take_round(&mut self.receivers, self.next)?;
        self.next = posted.caller as usize + 1;
        Some(posted)
    }

    /// From now on all that this poster posted so far is known: `take` gives None only once all of
    /// it is taken.
    pub fn learn(&mut self, poster: &mut Poster)
        requires of { IsOf self.old poster.old }
        ensures same { SameInbox self.old self.new }
        ensures known { Learns self.old poster.old self.new }
        ensures poster { poster.new ≡ poster.old }
    {
        let caller = poster.caller() as usize;
        let receiver = &mut self.receivers[caller];
        let _ = receiver.learn(poster);
    }

    /// Takes all that is left, now that all posters are here and nothing more is posted. On
    /// allocation failure, what was left is lost.
    pub fn gather(self, alloc: Global, posters: Vec<Poster>) -> Result<Taken, AllocError>
        requires of { AreOf self posters.items }
        ensures rest { IfOk result (λ taken. IsRest self posters.items taken.rest) }
        ensures counts { IfOk result (λ taken. taken.counts.items ≡ counts_of self) }
    {
        let counts = counts(alloc, &self.receivers)?;
        let rest = take_all_left(alloc, self.receivers, posters)?;
        Ok(Taken { rest, counts })
    }
}

/// Takes the next post of the receivers, from one on and then from the first.
fn take_round(receivers: &mut Vec<Receiver>, next: usize) -> Option<Posted>
    requires { (next ≤ length receivers.old.items) × (length receivers.old.items ≤ MOST_CALLERS) }
    ensures some { IfSome result (TakesAt receivers.old.items receivers.new.items) }
    ensures passed { IfSome result (λ posted. ArePassed next posted.caller receivers.old.items) }
    ensures none { IfNone result (AreRead 0 (length receivers.old.items) receivers.old.items) }
    ensures kept { IfNone result (receivers.new.items ≡ receivers.old.items) }
{
    let count = receivers.len();
    match take_between(receivers, next, count) {
        Some(posted) => Some(posted),
        None => take_between(receivers, 0, next),
    }
}

/// Takes the next post of these receivers.
fn take_between(receivers: &mut Vec<Receiver>, from: usize, to: usize) -> Option<Posted>
    requires { (to ≤ length receivers.old.items) × (length receivers.old.items ≤ MOST_CALLERS) }
    ensures some { IfSome result (TakesAt receivers.old.items receivers.new.items) }
    ensures within { IfSome result (λ posted. (from ≤ posted.caller) × (posted.caller < to)) }
    ensures passed { IfSome result (λ posted. AreRead from posted.caller receivers.old.items) }
    ensures none { IfNone result (AreRead from to receivers.old.items) }
    ensures kept { IfNone result (receivers.new.items ≡ receivers.old.items) }
{
    for caller in from..to {
        let receiver = &mut receivers[caller];
        if let Some(index) = receiver.take() {
            let caller = caller as u32;
            return Some(Posted { caller, index });
        }
    }
    None
}

ghost use Rattle.dv_posts.specs.Posts.{AreOf, IsRest, counts_of};

/// How many posts were taken of each.
fn counts(alloc: Global, receivers: &[Receiver]) -> Result<Vec<u32>, AllocError>
    ensures { IfOk result (λ counts. counts.items ≡ counts_of (inbox_of receivers.now)) }
{
    let mut counts = Vec::with_capacity(alloc, receivers.len())?;
    for receiver in receivers {
        counts.push_reserved(receiver.count());
    }
    Ok(counts)
}

/// Takes the posts of all callers that are left.
fn take_all_left(
    alloc: Global,
    receivers: Vec<Receiver>,
    posters: Vec<Poster>,
) -> Result<Items<Posted>, AllocError>
    requires { AreOf (inbox_of receivers.items) posters.items }
    ensures { IfOk result (λ rest. IsRest (inbox_of receivers.items) posters.items rest) }
{
    let mut receivers = receivers;
    let mut posters = posters;
    let mut rest = Items::new(alloc);
    for caller in 0..receivers.len() {
        receivers[caller].take_left(&mut posters[caller], &mut rest)?;
    }
    Ok(rest)
}
