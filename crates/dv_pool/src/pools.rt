ghost use Rattle.std.specs.Prelude.{◌≡◌, ◌≤◌, ◌+◌, [], false, length, IfOk, All};
ghost use Rattle.std.specs.Prelude.{map};
ghost use Rattle.dv_jobs.specs.Jobs.{jobs_from};
ghost use Rattle.dv_jobs.specs.Sources.{jobs_of};
ghost use Rattle.dv_pool.specs.Routes.{has_failed, HaveRouted, AreDone, LeadBelow};
ghost use Rattle.dv_script.specs.declared.limits.TheConstants.{MOST_POOLS, MOST_WORKERS};

use crate::pool::Pool;
use dv_jobs::error::JobFault;
use dv_jobs::gate::Gate;
use dv_jobs::job::Done;
use dv_jobs::ran::Ran;
use dv_jobs::source::JobSource;
use dv_script::work::{MOST_JOBS, Work};
use dv_value::deque::Deque;
use dv_value::value::Value;
use std::alloc::{AllocError, AllocGlobal, Global};
use std::marker::Model;
use std::random::RandomSource;
use std::sync::Wait;
use std::thread::{Scope, Threads};

/// The pools of a run: the default one, and then those that are named, in order (Twisted:
/// `deferToThread`, `deferToThreadPool`). One sequence of numbers goes over all of them. The owner
/// helps in the pool of the job that it waits for alone. Where one has failed they all have, and
/// tell their workers to leave.
#[derive(Drop)]
pub struct Pools<'g, G> {
    named: u32,
    /// The work of each number, of which a copy is kept, and the pool that has it.
    works: Vec<Work>,
    routes: Vec<u32>,
    pools: Vec<Pool<'g, G>>,
}

impl<'g, G> Model for Pools<'g, G> {
    ghost use Rattle.std.specs.Coded.{codes};
    ghost use Rattle.dv_jobs.specs.contracts.job.Job as job_contract;
    ghost use Rattle.dv_jobs.specs.Jobs.{jobs_from};
    ghost use Rattle.dv_jobs.specs.Sources.{Source};
    ghost use Rattle.dv_pool.specs.Routes.{AreRouted, has_failed};

    ghost Value = { Source };

    ghost coded = { Prim.hlevel (codes, job_contract.the_row.coded) };

    ghost view = { λ p. record {
      pools = p.named;
      jobs = jobs_from 0 p.works.items;
      failed = has_failed p.pools.items;
    } };

    ghost invariant = { λ p. AreRouted p.named p.routes.items p.works.items p.pools.items };
}

impl<'g, G: Gate + Sync> Pools<'g, G> {
    /// The default pool of so many workers, and a pool of so many for each number that is named, in
    /// order: each of 0 to `MOST_WORKERS`, in a scope that outlives them. Workers are numbered from
    /// 1 on over all pools. AllocError when out of memory.
    pub fn open<E, R: Wait + Sync>(
        rt: &'g R,
        alloc: Global,
        scope: &'g Scope<'g, E>,
        workers: u32,
        named: &[u32],
        gate: &'g G,
    ) -> Result<Pools<'g, G>, AllocError>
        requires few { workers ≤ MOST_WORKERS }
        requires named { (length named.now ≤ MOST_POOLS) × All (λ n. n ≤ MOST_WORKERS) named.now }
        ensures { IfOk result
            (λ pools. pools ≡ record { pools = length named.now; jobs = []; failed = false }) }
    {
        let mut pools = Vec::with_capacity(alloc, named.len() + 1)?;
        pools.push_reserved(Pool::open(rt, alloc, scope, 1, workers, gate)?);
        let mut first = 1 + workers;
        for count in named {
            pools.push_reserved(Pool::open(rt, alloc, scope, first, *count, gate)?);
            first += *count;
        }
        Ok(Pools {
            named: named.len() as u32,
            works: Vec::new(alloc),
            routes: Vec::new(alloc),
            pools,
        })
    }
}

/// Whether one has failed.
fn have_failed<G: Gate>(pools: &[Pool<'_, G>]) -> bool
    ensures { result ≡ has_failed pools.now }
{
    for pool in pools {
        if pool.has_failed() {
            return true;
        }
    }
    false
}

/// Tells the workers of all pools to leave.
fn dismiss<G: Gate>(pools: &[Pool<'_, G>]) {
    for pool in pools {
        pool.dismiss();
    }
}

/// What each pool has done, where all is answered.
fn close_all<R: Threads + Wait, G: Gate>(
    rt: &R,
    alloc: Global,
    pools: Vec<Pool<'_, G>>,
) -> Result<Vec<Deque<Done>>, AllocError>
    ensures { IfOk result
        (λ dones. map jobs_of dones.items ≡ map (λ pool. pool.jobs) pools.entry.items) }
{
    let mut dones = Vec::with_capacity(alloc, pools.len())?;
    for pool in pools {
        let ran = pool.close(rt, alloc)?;
        dones.push_reserved(ran.into_dones());
    }
    Ok(dones)
}

/// What was done, number by number, each from the front of what its pool has done.
fn in_order(
    alloc: Global,
    routes: &[u32],
    works: &[Work],
    dones: Vec<Deque<Done>>,
) -> Result<Ran, AllocError>
    requires paired { length routes.now ≡ length works.now }
    requires known { LeadBelow (length dones.items) routes.now }
    requires done { AreDone 0 0 routes.now works.now dones.items }
    ensures { IfOk result (λ ran. jobs_of ran.dones ≡ jobs_from 0 works.now) }
{
    let mut dones = dones;
    let mut ran = Ran::new(alloc);
    for route in routes {
        match dones[*route as usize].pop_front() {
            Some(done) => ran.add(done)?,
            None => unreachable!(),
        }
    }
    Ok(ran)
}

impl<'g, G: Gate> JobSource for Pools<'g, G> {
    ghost jobs = { λ s. s.jobs };

    ghost pools = { λ s. s.pools };

    ghost failed = { λ s. s.failed };

    fn may_submit(&self) -> Result<(), JobFault> {
        if self.works.len() < MOST_JOBS {
            Ok(())
        } else {
            Err(JobFault::Full)
        }
    }

    fn submit(&mut self, alloc: Global, pool: u32, work: Work) -> Result<u32, JobFault> {
        if have_failed(self.pools.as_slice()) {
            drop(work);
            return Err(JobFault::OutOfMemory);
        }
        let number = self.works.len() as u32;
        let copy = work.copy(alloc)?;
        self.works.try_reserve(1).map_err(AllocError::from)?;
        self.routes.try_reserve(1).map_err(AllocError::from)?;
        self.pools[pool as usize].submit_numbered(alloc, number, work)?;
        self.works.push_reserved(copy);
        self.routes.push_reserved(pool);
        Ok(number)
    }

    fn outcome<R: Wait + RandomSource + AllocGlobal>(
        &mut self,
        rt: &R,
        alloc: Global,
        number: u32,
    ) -> Result<Value, AllocError> {
        if have_failed(self.pools.as_slice()) {
            return Err(AllocError);
        }
        let pool = self.routes[number as usize] as usize;
        let value = self.pools[pool].outcome(rt, alloc, number);
        if self.pools[pool].has_failed() {
            dismiss(self.pools.as_slice());
        }
        value
    }

    fn close<R: Threads + Wait>(self, rt: &R, alloc: Global) -> Result<Ran, AllocError> {
        let Pools {
            named: _,
            works,
            routes,
            pools,
        } = self;
        if have_failed(pools.as_slice()) {
            return Err(AllocError);
        }
        let dones = close_all(rt, alloc, pools)?;
        in_order(alloc, routes.as_slice(), works.as_slice(), dones)
    }
}
