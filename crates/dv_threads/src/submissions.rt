ghost use Rattle.std.specs.Prelude.{◌≡◌, ◌<◌, ◌≤◌, [], ◌∷◌, ◌++◌, length, IfOk, OnOk};
ghost use Rattle.dv_threads.specs.Threading.{GoesOn, job_result};
ghost use Rattle.dv_script.specs.declared.work.TheConstants.{MOST_JOBS};
ghost use Rattle.dv_jobs.specs.Jobs.{jobs_from};
ghost use Rattle.dv_jobs.specs.Sources.{jobs_of};

use dv_jobs::error::JobFault;
use dv_jobs::ran::Ran;
use dv_jobs::source::JobSource;
use dv_objects::works::Works;
use dv_script::lent::{PoolsRef, WorkRef};
use dv_script::script::NamedPool;
use dv_value::value::Value;
use std::alloc::{AllocError, AllocGlobal, Global};
use std::marker::Model;
use std::random::RandomSource;
use std::sync::Wait;
use std::thread::Threads;

/// The source that does a run's jobs, the pools that the script names, and how many jobs were
/// submitted. Contracts see the works of these.
#[derive(Drop)]
pub struct Submissions<'s, J: JobSource> {
    source: J,
    pools: PoolsRef<'s>,
    count: usize,
}

impl<'s, J: JobSource> Model for Submissions<'s, J> {
    ghost use Rattle.std.specs.Prelude.{List, ◌≡◌, ◌≤◌, length};
    ghost use Rattle.dv_script.specs.declared.work.Work.{Work};
    ghost use Rattle.dv_script.specs.contracts.work.Work as work_contract;
    ghost use Rattle.dv_jobs.specs.Jobs.{works_of};
    ghost use Rattle.dv_jobs.specs.Sources.{AreInRow};
    ghost use Rattle.std.specs.Coded.{codes};

    ghost Value = { List Work };

    ghost coded = { Prim.hlevel (codes, work_contract.the_row.coded) };

    ghost view = { λ s. works_of (J.jobs s.source) };

    ghost invariant = { λ s. (s.count ≡ length (J.jobs s.source)) × AreInRow (J.jobs s.source)
        × (length s.pools ≤ J.pools s.source) };
}

/// The number of the pool of this name: one more than its place. 0 where none is named, which is
/// the default one, and where none has the name, as in no script that is read.
fn pool_number(pools: &[NamedPool], name: Option<&str>) -> u32
    ensures { result ≤ length pools.now }
{
    let Some(name) = name else {
        return 0;
    };
    let mut number = 0u32;
    for pool in pools {
        number = number.saturating_add(1);
        if pool.name.as_str() == name {
            return number;
        }
    }
    0
}

impl<'s, J: JobSource> Submissions<'s, J> {
    /// To this source nothing was submitted yet, and it has the pools that the script names.
    pub fn new(source: J, pools: PoolsRef<'s>) -> Submissions<'s, J>
        requires unused { J.jobs source ≡ [] }
        requires declared { length pools ≤ J.pools source }
        ensures { result ≡ [] }
    {
        Submissions {
            source,
            pools,
            count: 0,
        }
    }

    /// Submits what isn't yet of these works, of which the first were submitted, in order, each to
    /// its pool. AllocError where memory is refused.
    #[inline(always)]
    #[tactic(auto, using(crate::proofs::JobLemmas::all_goes_on))]
    pub fn submit_all(&mut self, alloc: Global, works: &Works<'_>) -> Result<(), AllocError>
        requires { GoesOn self.old works.now.works }
        ensures { OnOk result (self.new ≡ works.now.works) }
    {
        for number in self.count..works.len() {
            self.submit(alloc, works.pool(number), works.work(number))?;
        }
        Ok(())
    }

    /// Submits a work to the pool of this name, for which there has to be room. AllocError when out
    /// of memory.
    #[inline(never)]
    fn submit(
        &mut self,
        alloc: Global,
        pool: Option<&str>,
        work: WorkRef<'_>,
    ) -> Result<(), AllocError>
        requires room { length self.old < MOST_JOBS }
        ensures { OnOk result (self.new ≡ self.old ++ work.entry ∷ []) }
    {
        let pool = pool_number(self.pools.get(), pool);
        let work = work.get().copy(alloc)?;
        match self.source.submit(alloc, pool, work) {
            Ok(_) => {
                self.count += 1;
                Ok(())
            }
            Err(JobFault::OutOfMemory) => Err(AllocError),
            Err(JobFault::Full) => unreachable!(),
        }
    }

    /// Returns the result of a job; it may wait. None for a number of no job. AllocError when it or
    /// the job is out of memory.
    #[tactic(auto, using(crate::proofs::JobLemmas::result_at, crate::proofs::JobLemmas::no_result))]
    pub fn outcome<R: Wait + RandomSource + AllocGlobal>(
        &mut self,
        rt: &R,
        alloc: Global,
        job: u32,
    ) -> Result<Option<Value>, AllocError>
        ensures value { IfOk result (λ value. value ≡ job_result job self.old) }
        ensures same { self.new ≡ self.old }
    {
        if job as usize >= self.count {
            return Ok(None);
        }
        Ok(Some(self.source.outcome(rt, alloc, job)?))
    }

    /// Returns each job, once, in order; it may wait. AllocError when this call or a job is out of
    /// memory.
    pub fn close<R: Threads + Wait>(self, rt: &R, alloc: Global) -> Result<Ran, AllocError>
        ensures { IfOk result (λ ran. jobs_of ran.dones ≡ jobs_from 0 self.entry) }
    {
        self.source.close(rt, alloc)
    }
}
