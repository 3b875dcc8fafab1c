ghost use Rattle.std.specs.Prelude.{◌≡◌, IfOk};
ghost use Rattle.crossbeam_deque.specs.Handles.{worker_view};
ghost use Rattle.crossbeam_queue.specs.Passes.{view};
ghost use Rattle.dv_jobs.specs.Sources.{jobs_of};
ghost use Rattle.dv_pool.specs.Rules.{all_parts, IsEmptied, FindsEmptied};
ghost use Rattle.dv_pool.specs.Parts.{jobs_in, IsOrderly, HasPlaced, HasSubmitted, Keeps};

use crate::pool::parts::Parts;
use dv_jobs::gate::Gate;
use dv_jobs::ran::Ran;
use dv_script::work::Work;
use std::alloc::{AllocError, Global};
use std::sync::Wait;

/// Answers jobs until none is left. If the caller holds every part, all were taken then.
pub fn help_all<R: Wait, G: Gate>(
    rt: &R,
    alloc: Global,
    works: &[Option<Work>],
    parts: &mut Parts,
    gate: &G,
)
    requires orderly { IsOrderly parts.old }
    requires placed { HasPlaced works.now parts.old }
    ensures orderly { IsOrderly parts.new }
    ensures placed { HasPlaced works.now parts.new }
    ensures keeps { Keeps parts.old parts.new }
    ensures empty { FindsEmptied (worker_view parts.new.jobs) }
{
    for _ in rt.forever() {
        if !parts.help(alloc, works, gate) {
            return;
        }
    }
    unreachable!()
}

/// Takes answers until none is left, where the owner has every part.
pub fn collect_all<R: Wait>(rt: &R, works: &[Option<Work>], parts: &mut Parts)
    requires orderly { IsOrderly parts.old }
    requires placed { HasPlaced works.now parts.old }
    requires whole { (worker_view parts.old.jobs).parts ≡ all_parts }
    ensures orderly { IsOrderly parts.new }
    ensures placed { HasPlaced works.now parts.new }
    ensures keeps { Keeps parts.old parts.new }
    ensures jobs { worker_view parts.new.jobs ≡ worker_view parts.old.jobs }
    ensures answers { IsEmptied (view parts.new.answers) }
{
    for _ in rt.forever() {
        if !parts.collect_last(rt, works) {
            return;
        }
    }
    unreachable!()
}

/// What was done, in the order of numbers, where all was taken: then each job has its own place,
/// and no other place has an answer, so that none was ignored. AllocError where a gate returned a
/// job.
pub fn gather(alloc: Global, parts: Parts, works: &[Option<Work>]) -> Result<Ran, AllocError>
    requires placed { HasPlaced works.now parts }
    requires submitted { HasSubmitted works.now parts }
    requires jobs { IsEmptied (worker_view parts.jobs) }
    requires answers { IsEmptied (view parts.answers) }
    ensures { IfOk result (λ ran. jobs_of ran.dones ≡ jobs_in 0 works.now) }
{
    let Parts {
        shared: _,
        jobs: _,
        answers: _,
        places,
    } = parts;
    let mut ran = Ran::new(alloc);
    for place in places {
        match place {
            None => {}
            Some(Ok(done)) => ran.add(done)?,
            Some(Err(_)) => return Err(AllocError),
        }
    }
    Ok(ran)
}
