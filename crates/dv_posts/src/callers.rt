ghost use Rattle.std.specs.Prelude.{◌≡◌, ◌<◌, ◌≤◌, ◌++◌, All, ℕ, length, IfOk};
ghost use Rattle.dv_posts.specs.Batches.{AreNext, Batch, posts_of};
ghost use Rattle.dv_posts.specs.Callers.{AllServe, AreFew, HasAll, HasPosted, HavePosted, Serves};
ghost use Rattle.dv_posts.specs.Callers.{TookBatches};
ghost use Rattle.dv_posts.specs.Posts.{AreOf, IsFresh, SameInbox, of};
ghost use Rattle.dv_posts.specs.Ring.{Ring};
ghost use Rattle.dv_script.specs.declared.limits.TheConstants.{MOST_POSTS};

use crate::inbox::Inbox;
use crate::posted::Posted;
use crate::poster::Poster;
use dv_script::body::Body;
use dv_value::items::Items;
use std::alloc::{AllocError, Global};
use std::snapshot::Snapshot;
use std::thread::{Promise, PromisedHandle, Scope, Threads};

/// What the thread of a caller promises: to have posted so many.
#[derive(Drop)]
pub struct AllPosted {
    poster: Snapshot<Poster>,
    count: u32,
}

impl Promise<Poster> for AllPosted {
    ghost kept_by = { λ promise poster. HasPosted promise.poster.value promise.count poster };
}

/// A caller: a thread that posts, or, where none could be started, a poster that has posted.
#[derive(Drop)]
pub enum Caller {
    Running(PromisedHandle<Poster, AllPosted>),
    Here(Poster),
}

/// Posts the first posts of a caller. Each is accepted, since there is room for all.
#[tactic(auto, using(crate::proofs::CallerLemmas::posted_none, crate::proofs::CallerLemmas::posted_more, crate::proofs::CallerLemmas::posted_length))]
fn post_all(poster: Poster, count: u32) -> Poster
    requires fresh { IsFresh MOST_POSTS poster }
    requires room { count ≤ MOST_POSTS }
    ensures { HasPosted poster count result }
{
    let mut poster = poster;
    for index in 0..count {
        let caller = poster.caller();
        match poster.post(Posted { caller, index }) {
            Ok(()) => {}
            Err(_) => unreachable!(),
        }
    }
    poster
}

/// Starts the thread of a caller. Where none can be started, the posts are posted here.
fn start<'s, E>(scope: &'s Scope<'s, E>, poster: Poster, count: u32) -> Caller
    requires fresh { IsFresh MOST_POSTS poster }
    requires room { count ≤ MOST_POSTS }
    ensures { Serves poster.ring poster.caller count result }
{
    let promise = AllPosted {
        poster: Snapshot::of(&poster),
        count,
    };
    match scope.spawn_with(promise, move || post_all(poster, count)) {
        Ok(handle) => Caller::Running(handle),
        Err(refused) => Caller::Here((refused.value)()),
    }
}

/// Starts the threads of all callers, each of which posts its posts in order.
#[tactic(auto, using(crate::proofs::CallerLemmas::made_none, crate::proofs::CallerLemmas::made_more, crate::proofs::CallerLemmas::started_serve))]
pub fn start_all<'s, E>(
    alloc: Global,
    scope: &'s Scope<'s, E>,
    bodies: &[Items<Body>],
    posters: Vec<Poster>,
) -> Result<Vec<Caller>, AllocError>
    requires few { AreFew bodies.now }
    requires len { length posters.items ≡ length bodies.now }
    requires fresh { All (IsFresh MOST_POSTS) posters.items }
    ensures { IfOk result (λ callers. (box : _) → AreOf box posters.items
        → AllServe bodies.now box callers.items) }
{
    let mut callers = Vec::with_capacity(alloc, posters.len())?;
    for poster in posters {
        let count = bodies[callers.len()].as_slice().len() as u32;
        callers.push_reserved(start(scope, poster, count));
    }
    Ok(callers)
}

/// The poster of a caller, which has posted; it may wait for its thread.
fn finish<R: Threads>(rt: &R, caller: Caller) -> Poster
    ensures { (ring : Ring) (c count : ℕ) → Serves ring c count caller
        → HasAll ring c count result }
{
    match caller {
        Caller::Running(handle) => handle.join(rt),
        Caller::Here(poster) => poster,
    }
}

/// The posters of all callers, in order, once they have posted; it may wait for their threads.
#[tactic(auto, using(crate::proofs::CallerLemmas::made_none, crate::proofs::CallerLemmas::made_more, crate::proofs::CallerLemmas::ended_are, crate::proofs::CallerLemmas::have_posted))]
fn join_all<R: Threads>(
    rt: &R,
    alloc: Global,
    callers: Vec<Caller>,
) -> Result<Vec<Poster>, AllocError>
    ensures { IfOk result (λ posters. (bodies box : _) → AllServe bodies box callers.items
        → AreOf box posters.items × HavePosted bodies posters.items) }
{
    let mut posters = Vec::with_capacity(alloc, callers.len())?;
    for caller in callers {
        posters.push_reserved(finish(rt, caller));
    }
    Ok(posters)
}

/// Takes posts, without waiting, until there are so many, or none is there.
#[tactic(auto, using(crate::proofs::CallerLemmas::took_more))]
pub fn take_up_to(alloc: Global, inbox: &mut Inbox, most: u32) -> Result<Items<Posted>, AllocError>
    ensures same { SameInbox inbox.old inbox.new }
    ensures few { IfOk result (λ batch. length batch ≤ most) }
    ensures taken { IfOk result (λ batch. (before : Batch) → TookBatches inbox.old before
        → TookBatches inbox.new (before ++ batch)) }
{
    let mut batch = Items::new(alloc);
    for _ in 0..most {
        match inbox.take() {
            Some(posted) => batch.push(posted)?,
            None => break,
        }
    }
    Ok(batch)
}

/// The posts that are left, once the callers have ended. With them all posts were taken, each once
/// and each caller's in order.
#[tactic(auto, using(crate::proofs::CallerLemmas::all_posts, crate::proofs::CallerLemmas::next_posts))]
pub fn end<R: Threads>(
    rt: &R,
    alloc: Global,
    bodies: &[Items<Body>],
    inbox: Inbox,
    callers: Vec<Caller>,
) -> Result<Items<Posted>, AllocError>
    requires { AllServe bodies.now inbox callers.items }
    ensures next { IfOk result (λ rest. (before : Batch) → TookBatches inbox before
        → AreNext bodies.now before) }
    ensures all { IfOk result (λ rest. (before : Batch) → TookBatches inbox before → (c : ℕ)
        → of c (before ++ rest) ≡ posts_of bodies.now c) }
{
    let _ = bodies;
    let posters = join_all(rt, alloc, callers)?;
    let taken = inbox.gather(alloc, posters)?;
    Ok(taken.rest)
}
