ghost use Rattle.std.specs.Prelude.{◌≡◌, ◌<◌, ◌≤◌, ◌++◌, ◌∷◌, [], ℕ, Bool, true, false, List};
ghost use Rattle.std.specs.Prelude.{length, IfOk, OnOk, OnErr, IfErr};
ghost use Rattle.dv_jobs.specs.declared.job.Job.{Job};
ghost use Rattle.dv_script.specs.declared.work.TheConstants.{MOST_JOBS};
ghost use Rattle.dv_jobs.specs.Jobs.{numbered};
ghost use Rattle.dv_jobs.specs.Sources.{room_after, AreInRow, IsSubmitted, IsValueUnder, jobs_of};

use crate::error::JobFault;
use crate::ran::Ran;
use dv_script::work::Work;
use dv_value::value::Value;
use std::alloc::{AllocError, AllocGlobal, Global};
use std::random::RandomSource;
use std::sync::Wait;
use std::thread::Threads;

/// Takes works, answers each, and gives what was done (Twisted: thread pools behind
/// `deferToThreadPool`).
///
/// A source by which is waited with an executor may fail: where the executor does, it is out of
/// memory from then on.
pub trait JobSource: Drop {
    /// The jobs submitted, in order: each a work under its number.
    ghost jobs: { Self → List Job };

    /// How many pools there are beside the default one. That is number 0, and these are 1, 2 and so
    /// on.
    ghost pools: { Self → ℕ };

    /// Whether it has failed.
    ghost failed: { Self → Bool };

    /// Whether another work may be submitted: Full where `MOST_JOBS` were.
    fn may_submit(&self) -> Result<(), JobFault>
        ensures { result ≡ room_after (jobs self.now) };

    /// Submits a work to a pool, and returns its number, where all numbers so far were given so. It
    /// never waits. OutOfMemory, and nothing else, on allocation failure, or where the source has
    /// failed.
    fn submit(&mut self, alloc: Global, pool: u32, work: Work) -> Result<u32, JobFault>
        requires row { AreInRow (jobs self.old) }
        requires room { length (jobs self.old) < MOST_JOBS }
        requires declared { pool ≤ pools self.old }
        ensures number { IfOk result (λ number. number ≡ length (jobs self.old)) }
        ensures ok { OnOk result
            (jobs self.new ≡ jobs self.old ++ numbered (length (jobs self.old)) work ∷ []) }
        ensures working { OnOk result (failed self.old ≡ false) }
        ensures err { IfErr result (λ fault. fault ≡ JobFault.OutOfMemory) }
        ensures kept { OnErr result (jobs self.new ≡ jobs self.old) }
        ensures same { (pools self.new ≡ pools self.old) × (failed self.new ≡ failed self.old) };

    /// The value of the work of this number. It may wait for the worker that has it. AllocError on
    /// allocation failure, here or in the job, where the executor fails by which it is waited for,
    /// and where one has failed before.
    fn outcome<R: Wait + RandomSource + AllocGlobal>(
        &mut self,
        rt: &R,
        alloc: Global,
        number: u32,
    ) -> Result<Value, AllocError>
        requires { IsSubmitted number (jobs self.old) }
        ensures value { IfOk result (IsValueUnder number (jobs self.old)) }
        ensures working { OnOk result ((failed self.old ≡ false) × (failed self.new ≡ false)) }
        ensures stays { failed self.old ≡ true → failed self.new ≡ true }
        ensures same { (jobs self.new ≡ jobs self.old) × (pools self.new ≡ pools self.old) };

    /// Waits until all is answered, and returns each job submitted once, in order. AllocError on
    /// allocation failure, here or in a job, and where the source has failed.
    fn close<R: Threads + Wait>(self, rt: &R, alloc: Global) -> Result<Ran, AllocError>
        ensures ok { IfOk result (λ ran. jobs_of ran.dones ≡ jobs self) }
        ensures working { OnOk result (failed self ≡ false) };
}
