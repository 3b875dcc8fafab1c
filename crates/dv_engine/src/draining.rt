ghost use Rattle.std.specs.Prelude.{◌≡◌, ◌++◌, None, Some, MatchOption, OnOk};
ghost use Rattle.dv_posts.specs.Batches.{AreNext, body_of, joined};
ghost use Rattle.dv_frames.specs.Bounds.{Bounded};
ghost use Rattle.dv_engine.specs.Engine.{begun_for, taken_for};
ghost use Rattle.dv_loop.specs.Meaning.{Runs};
ghost use Rattle.dv_definition.specs.Scripts.{posting, postings};
ghost use Rattle.dv_posts.specs.Taking.{with_batch};

use crate::engine::Phase;
use dv_frames::turn::Turn;
use dv_inline::poller::Poller;
use dv_jobs::source::JobSource;
use dv_journal::entry::Entry;
use dv_loop::runner::run_post;
use dv_posts::batches::Batches;
use dv_posts::posted::Posted;
use dv_script::body::Body;
use dv_threads::submissions::Submissions;
use dv_value::items::Items;
use dv_world::world::World;
use std::alloc::{AllocError, AllocGlobal};
use std::random::RandomSource;
use std::sync::Wait;

/// Runs a batch, each post of which is the next one of its caller, and takes it: that of a drain,
/// which is logged first, or the one after the last event. The only error is out of memory.
pub fn run_batch<'s, R, J>(
    rt: &R,
    poller: &Poller,
    jobs: &mut Submissions<'s, J>,
    turn: &mut Turn<'s>,
    batches: &mut Batches<'s>,
    phase: Phase,
    batch: Items<Posted>,
) -> Result<(), AllocError>
where
    R: Wait + RandomSource + AllocGlobal,
    J: JobSource,
    requires bounded { Bounded turn.old.world }
    requires jobs { jobs.old ≡ turn.old.world.works }
    requires next { AreNext batches.old.callers (joined batches.old.batches ++ batch) }
    ensures runs { OnOk result
        (Runs (taken_for phase batches.old.callers batch) turn.old.world turn.new.world) }
    ensures jobs { OnOk result (jobs.new ≡ turn.new.world.works) }
    ensures batches { OnOk result (batches.new ≡ with_batch batch batches.old) }
    ensures callers { batches.new.callers ≡ batches.old.callers }
{
    log_drain(&mut turn.world, phase)?;
    run_posts(rt, poller, jobs, turn, batches.callers(), batch.as_slice())?;
    batches.put(batch)
}

/// Logs the drain, if the batch is that of one.
fn log_drain<'s>(world: &mut World<'s>, phase: Phase) -> Result<(), AllocError>
    ensures runs { OnOk result (Runs (begun_for phase) world.old world.new) }
    ensures works { OnOk result (world.new.works ≡ world.old.works) }
{
    match phase {
        Phase::Draining(_) => {
            world.tell(Entry::Drain)?;
            Ok(())
        }
        Phase::Going | Phase::Ended | Phase::Over | Phase::Failed => Ok(()),
    }
}

/// Runs posts, one after the other.
fn run_posts<'s, R, J>(
    rt: &R,
    poller: &Poller,
    jobs: &mut Submissions<'s, J>,
    turn: &mut Turn<'s>,
    callers: &'s [Items<Body>],
    batch: &[Posted],
) -> Result<(), AllocError>
where
    R: Wait + RandomSource + AllocGlobal,
    J: JobSource,
    requires bounded { Bounded turn.old.world }
    requires jobs { jobs.old ≡ turn.old.world.works }
    ensures runs { OnOk result
        (Runs (postings callers.now batch.now) turn.old.world turn.new.world) }
    ensures jobs { OnOk result (jobs.new ≡ turn.new.world.works) }
{
    for posted in batch {
        run_post_if_there(rt, poller, jobs, turn, callers, posted)?;
    }
    Ok(())
}

/// Runs a post, if there is such a post.
fn run_post_if_there<'s, R, J>(
    rt: &R,
    poller: &Poller,
    jobs: &mut Submissions<'s, J>,
    turn: &mut Turn<'s>,
    callers: &'s [Items<Body>],
    posted: &Posted,
) -> Result<(), AllocError>
where
    R: Wait + RandomSource + AllocGlobal,
    J: JobSource,
    requires bounded { Bounded turn.old.world }
    requires jobs { jobs.old ≡ turn.old.world.works }
    ensures runs { OnOk result
        (Runs (posting callers.now posted.now) turn.old.world turn.new.world) }
    ensures jobs { OnOk result (jobs.new ≡ turn.new.world.works) }
{
    match body_of(callers, posted) {
        None => Ok(()),
        Some(body) => run_post(rt, poller, jobs, turn, posted, body),
    }
}

/// The body of a post, where there is such a post.
fn body_of<'s>(callers: &'s [Items<Body>], posted: &Posted) -> Option<&'s Body>
    ensures { MatchOption result (body_of callers.now posted.now ≡ None)
        (λ body. body_of callers.now posted.now ≡ Some body.now) }
{
    let bodies = callers.get(posted.caller as usize)?;
    bodies.as_slice().get(posted.index as usize)
}
