ghost use Rattle.std.specs.Prelude.{◌≡◌, OnOk};
ghost use Rattle.dv_frames.specs.Bounds.{Bounded};
ghost use Rattle.dv_definition.specs.Definition as page;
ghost use Rattle.dv_definition.specs.Rule.{after};
ghost use Rattle.dv_definition.specs.Words.{fire_with};
ghost use Rattle.dv_objects.specs.declared.performed.Performed.TheVariants.{Done};

use dv_frames::following::fire_and_settle;
use dv_frames::turn::Turn;
use dv_journal::deferred_id::DeferredId;
use dv_script::lent::{TextRef, WorkRef};
use dv_value::value::Value;
use dv_world::world::jobs::too_many_jobs;
use std::alloc::AllocError;

/// Makes a Deferred and submits the job that it is for, to the pool of this name or to the default
/// one (Twisted: `deferToThreadPool`, `deferToThread`).
#[tactic(auto, using(dv_frames::proofs::BoundsLemmas::records_within))]
pub fn thread<'s>(
    turn: &mut Turn<'s>,
    name: TextRef<'s>,
    pool: Option<TextRef<'s>>,
    delay: u64,
    work: WorkRef<'s>,
) -> Result<(), AllocError>
    requires bounded { Bounded turn.old.world }
    requires done { turn.old.performed ≡ Done }
    ensures { OnOk result
        (turn.new ≡ after (page.thread name.entry pool.entry delay work.entry) turn.old) }
{
    if turn.world.works().is_full() {
        turn.performed = too_many_jobs(turn.alloc)?;
        return Ok(());
    }
    let id = turn.world.next_id();
    turn.world.make(Some(name), None)?;
    begin_job(turn, id, pool, delay, work)
}

/// Submits a job, and schedules the delivery of its result.
fn begin_job<'s>(
    turn: &mut Turn<'s>,
    id: DeferredId,
    pool: Option<TextRef<'s>>,
    delay: u64,
    work: WorkRef<'s>,
) -> Result<(), AllocError>
    requires done { turn.old.performed ≡ Done }
    ensures { OnOk result
        (turn.new ≡ after (page.begin_job id pool.entry delay work.entry) turn.old) }
{
    let job = turn.world.works().len() as u32;
    turn.world.submit(id, pool, work)?;
    turn.world.deliver_later(job, id, delay)
}

/// Fires a Deferred with the result of its job (Twisted: `Deferred.callback`, or `Deferred.errback`
/// where the job has failed); nothing for a number of no job.
pub fn deliver<'s>(
    turn: &mut Turn<'s>,
    id: DeferredId,
    value: Option<Value>,
) -> Result<(), AllocError>
    requires done { turn.old.performed ≡ Done }
    ensures { OnOk result (turn.new ≡ after (fire_with id value) turn.old) }
{
    match value {
        None => Ok(()),
        Some(value) => fire_and_settle(turn, id, value),
    }
}
