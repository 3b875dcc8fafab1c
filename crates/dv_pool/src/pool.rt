ghost use Rattle.std.specs.Prelude.{◌≡◌, ◌<◌, ◌≤◌, ◌+◌, ◌^◌, ◌++◌, ◌∷◌, [], false, length, IfOk};
ghost use Rattle.std.specs.Prelude.{IfErr, OnOk, OnErr};
ghost use Rattle.std.specs.Arc.{arc_value};
ghost use Rattle.crossbeam_deque.specs.Handles.{worker_view};
ghost use Rattle.dv_jobs.specs.Jobs.{numbered};
ghost use Rattle.dv_script.specs.declared.work.TheConstants.{MOST_JOBS};
ghost use Rattle.dv_pool.specs.Parts.{jobs_in, AreBelow, IsOrderly, HasPlaced, HasSubmitted};
ghost use Rattle.dv_script.specs.declared.limits.TheConstants.{MOST_WORKERS};

use crate::pool::closing::{collect_all, gather, help_all};
use crate::pool::crew::Crew;
use crate::pool::parts::{Parts, await_work, no_works};
use crate::pool::reply::reply;
use dv_jobs::error::JobFault;
use dv_jobs::gate::Gate;
use dv_jobs::job::Job;
use dv_jobs::ran::Ran;
use dv_jobs::source::JobSource;
use dv_script::work::{MOST_JOBS, Work};
use dv_value::value::Value;
use std::alloc::{AllocError, AllocGlobal, Global};
use std::marker::Model;
use std::random::RandomSource;
use std::sync::Wait;
use std::thread::{Scope, Threads};

mod closing;
mod crew;
mod parts;
mod reply;
mod threads;

/// Workers on threads of a scope, which answer jobs at a gate (Twisted: `ThreadPool`). The owner
/// helps where it waits. Dropped, it has its workers leave. It does so, too, where the executor of
/// an `outcome` fails, and then it has failed.
#[derive(Drop)]
pub struct Pool<'g, G> {
    /// The work of each number, of which a copy is kept.
    works: Vec<Option<Work>>,
    /// How many works there are.
    count: usize,
    /// What the owner holds. It is gone once the executor of an `outcome` has failed.
    parts: Option<Parts>,
    crew: Crew,
    gate: &'g G,
}

impl<'g, G> Model for Pool<'g, G> {
    ghost use Rattle.std.specs.Prelude.{not, is_some};
    ghost use Rattle.std.specs.Coded.{codes};
    ghost use Rattle.dv_jobs.specs.contracts.job.Job as job_contract;
    ghost use Rattle.dv_jobs.specs.Sources.{Source};
    ghost use Rattle.dv_pool.specs.Parts.{jobs_in};
    ghost use Rattle.dv_pool.specs.Pool.{IsSound};

    ghost Value = { Source };

    ghost coded = { Prim.hlevel (codes, job_contract.the_row.coded) };

    ghost view = { λ p. record {
      pools = 0;
      jobs = jobs_in 0 p.works.items;
      failed = not (is_some p.parts);
    } };

    ghost invariant = { λ p. IsSound p.works.items p.count p.crew p.parts };
}

impl<'g, G: Gate + Sync> Pool<'g, G> {
    /// A pool of so many workers, 0 to `MOST_WORKERS`, in a scope that outlives it, which are
    /// numbered from the first number on. A worker whose thread can't be started is left out; with
    /// none at all the owner answers each job. AllocError when out of memory.
    pub fn open<E, R: Wait + Sync>(
        rt: &'g R,
        alloc: Global,
        scope: &'g Scope<'g, E>,
        first: u32,
        workers: u32,
        gate: &'g G,
    ) -> Result<Pool<'g, G>, AllocError>
        requires few { workers ≤ MOST_WORKERS }
        requires numbers { (0 < first) × (first + workers < 2 ^ 32) }
        ensures { IfOk result (λ pool. pool ≡ record { pools = 0; jobs = []; failed = false }) }
    {
        let works = no_works(alloc)?;
        let mut parts = Parts::open(alloc)?;
        let crew = Crew::start(rt, alloc, scope, &mut parts, first, workers, gate)?;
        Ok(Pool {
            works,
            count: 0,
            parts: Some(parts),
            crew,
            gate,
        })
    }
}

/// Puts the job of a work, of which a copy is kept, under a number above all earlier ones.
fn put(
    works: &mut Vec<Option<Work>>,
    count: &mut usize,
    parts: &mut Parts,
    number: u32,
    work: Work,
    copy: Work,
)
    requires orderly { IsOrderly parts.old }
    requires placed { HasPlaced works.old.items parts.old }
    requires submitted { HasSubmitted works.old.items parts.old }
    requires places { length works.old.items ≡ MOST_JOBS }
    requires count { count.old ≡ length (jobs_in 0 works.old.items) }
    requires room { (count.old < MOST_JOBS) × (number < MOST_JOBS) }
    requires above { AreBelow number (jobs_in 0 works.old.items) }
    requires copy { copy ≡ work }
    ensures orderly { IsOrderly parts.new }
    ensures placed { HasPlaced works.new.items parts.new }
    ensures submitted { HasSubmitted works.new.items parts.new }
    ensures places { length works.new.items ≡ MOST_JOBS }
    ensures count { count.new ≡ length (jobs_in 0 works.new.items) }
    ensures shared { arc_value parts.new.shared ≡ arc_value parts.old.shared }
    ensures parts { (worker_view parts.new.jobs).parts ≡ (worker_view parts.old.jobs).parts }
    ensures jobs { jobs_in 0 works.new.items
        ≡ jobs_in 0 works.old.items ++ numbered number work ∷ [] }
{
    await_work(&mut parts.places, number as usize, &copy);
    parts.put(Job::new(number, work));
    works[number as usize] = Some(copy);
    *count += 1;
}

impl<'g, G: Gate> Pool<'g, G> {
    /// Whether the executor of an `outcome` has failed.
    pub fn has_failed(&self) -> bool
        ensures { result ≡ self.now.failed }
    {
        self.parts.is_none()
    }

    /// Tells all workers to leave, as for a pool that is asked for nothing more.
    pub fn dismiss(&self) {
        self.crew.dismiss();
    }

    /// Submits a work under a number of the run, above all earlier ones. It never waits.
    /// OutOfMemory, and nothing else, where memory is refused, or the pool has failed.
    pub fn submit_numbered(
        &mut self,
        alloc: Global,
        number: u32,
        work: Work,
    ) -> Result<(), JobFault>
        requires above { AreBelow number self.old.jobs }
        requires room { (length self.old.jobs < MOST_JOBS) × (number < MOST_JOBS) }
        ensures ok { OnOk result (self.new.jobs ≡ self.old.jobs ++ numbered number work ∷ []) }
        ensures working { OnOk result (self.old.failed ≡ false) }
        ensures err { IfErr result (λ fault. fault ≡ JobFault.OutOfMemory) }
        ensures kept { OnErr result (self.new.jobs ≡ self.old.jobs) }
        ensures same { (self.new.pools ≡ self.old.pools) × (self.new.failed ≡ self.old.failed) }
    {
        let Some(parts) = &mut self.parts else {
            drop(work);
            return Err(JobFault::OutOfMemory);
        };
        let copy = work.copy(alloc)?;
        put(&mut self.works, &mut self.count, parts, number, work, copy);
        Ok(())
    }
}

impl<'g, G: Gate> JobSource for Pool<'g, G> {
    ghost jobs = { λ s. s.jobs };

    ghost pools = { λ s. s.pools };

    ghost failed = { λ s. s.failed };

    fn may_submit(&self) -> Result<(), JobFault> {
        if self.count < MOST_JOBS {
            Ok(())
        } else {
            Err(JobFault::Full)
        }
    }

    fn submit(&mut self, alloc: Global, _pool: u32, work: Work) -> Result<u32, JobFault> {
        let number = self.count as u32;
        self.submit_numbered(alloc, number, work)?;
        Ok(number)
    }

    fn outcome<R: Wait + RandomSource + AllocGlobal>(
        &mut self,
        rt: &R,
        alloc: Global,
        number: u32,
    ) -> Result<Value, AllocError> {
        let Some(parts) = self.parts.take() else {
            return Err(AllocError);
        };
        let (parts, value) = reply(rt, alloc, parts, self.works.as_slice(), self.gate, number);
        if parts.is_none() {
            self.crew.dismiss();
        }
        self.parts = parts;
        value
    }

    fn close<R: Threads + Wait>(self, rt: &R, alloc: Global) -> Result<Ran, AllocError> {
        let Pool {
            works,
            count: _,
            parts,
            crew,
            gate,
        } = self;
        let Some(mut parts) = parts else {
            return Err(AllocError);
        };
        help_all(rt, alloc, works.as_slice(), &mut parts, gate);
        crew.join(rt, &mut parts);
        help_all(rt, alloc, works.as_slice(), &mut parts, gate);
        collect_all(rt, works.as_slice(), &mut parts);
        gather(alloc, parts, works.as_slice())
    }
}
