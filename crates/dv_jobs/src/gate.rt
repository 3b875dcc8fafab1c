ghost use Rattle.std.specs.Prelude.{◌≡◌};
ghost use Rattle.dv_jobs.specs.Jobs.{job_of};

use crate::job::{Answer, Job};
use std::alloc::Global;

/// The number of the owner, who helps where it waits, and answers each job where there is no
/// worker.
pub const OWNER: u32 = 0;

/// Where each job passes on its way to being answered, so that a caller may see or hold it there.
pub trait Gate {
    /// Answers a job; what comes back holds the job that was handed in, undone only if out of
    /// memory. The owner of the pools of a run is worker 0, and their threads are the workers 1, 2
    /// and so on. Several workers may be at the gate at once.
    fn answer(&self, alloc: Global, worker: u32, job: Job) -> Answer
        ensures { job_of result ≡ job };
}

/// The gate that answers each job at once.
#[derive(Clone, Copy)]
pub struct PlainGate;

impl Gate for PlainGate {
    fn answer(&self, alloc: Global, _worker: u32, job: Job) -> Answer {
        job.done(alloc)
    }
}
