ghost use Rattle.std.specs.Prelude.{◌≡◌, ◌+◌, ◌*◌, ◌/◌, pos, IfOk, IfErr};
ghost use Rattle.dv_jobs.specs.Works.{value_of};

use dv_script::work::Work;
use dv_value::fault::fault;
use dv_value::value::Value;
use std::alloc::{AllocError, Global};

/// A work under its number. It is neither `Copy` nor `Clone`, so that a job is answered once.
#[derive(Debug, Drop)]
pub struct Job {
    /// How many works were submitted before it, to whichever pool.
    pub number: u32,
    pub work: Work,
}

/// A job, and the value of its work.
#[derive(Debug, Drop)]
pub struct Done {
    job: Job,
    outcome: Value,
    ghost right: { outcome ≡ value_of job.work },
}

/// What a gate returns: the job done, or the job itself when out of memory.
pub type Answer = Result<Done, Job>;

impl Job {
    /// The job of a work under its number.
    pub fn new(number: u32, work: Work) -> Job
        ensures { result ≡ record { number = number; work = work } }
    {
        Job { number, work }
    }

    /// The job with the value of its work. The job itself comes back only when out of memory.
    pub fn done(self, alloc: Global) -> Result<Done, Job>
        ensures ok { IfOk result (λ done. done.job ≡ self) }
        ensures err { IfErr result (λ job. job ≡ self) }
    {
        match value_of(alloc, &self.work) {
            Ok(outcome) => Ok(Done { job: self, outcome }),
            Err(_) => Err(self),
        }
    }
}

impl Done {
    /// The job that was done.
    pub fn job(&self) -> &Job
        ensures { result.now ≡ self.now.job }
    {
        &self.job
    }

    /// The value of its work.
    pub fn outcome(&self) -> &Value
        ensures { result.now ≡ value_of self.now.job.work }
    {
        &self.outcome
    }
}

/// The value of a work, in memory of its own.
fn value_of(alloc: Global, work: &Work) -> Result<Value, AllocError>
    ensures { IfOk result (λ value. value ≡ value_of work.now) }
{
    match work {
        Work::Value(value) => value.copy(alloc),
        Work::Raise(class, message) => fault(alloc, *class, message.as_str()),
        Work::Sum(n) => Ok(Value::Int(sum_to(*n))),
    }
}

/// The integers from 1 to `n`, added up.
fn sum_to(n: u32) -> i64
    ensures { result ≡ pos (n * (n + 1) / 2) }
{
    let n = u64::from(n);
    (n * (n + 1) / 2) as i64
}
