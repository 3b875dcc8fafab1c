ghost use Rattle.std.specs.Prelude.{◌≡◌, ◌↔◌, IfOk, IsTrue};
ghost use Rattle.dv_jobs.specs.Jobs.{job_of};
ghost use Rattle.dv_jobs.specs.Works.{value_of};

use crate::job::{Answer, Job};
use dv_script::same::is_same_work;
use dv_script::work::Work;
use dv_value::value::Value;
use std::alloc::{AllocError, Global};

/// The job that an answer holds.
pub fn job_in(answer: &Answer) -> &Job
    ensures { result.now ≡ job_of answer.now }
{
    match answer {
        Ok(done) => done.job(),
        Err(job) => job,
    }
}

/// The value of the work, in memory of its own. AllocError where the job came back undone, or on
/// allocation failure.
pub fn value_in(alloc: Global, answer: &Answer) -> Result<Value, AllocError>
    ensures { IfOk result (λ value. value ≡ value_of (job_of answer.now).work) }
{
    match answer {
        Ok(done) => done.outcome().copy(alloc),
        Err(_) => Err(AllocError),
    }
}

/// Whether an answer is of this work.
pub fn is_of(answer: &Answer, work: &Work) -> bool
    ensures { IsTrue result ↔ ((job_of answer.now).work ≡ work.now) }
{
    is_same_work(&job_in(answer).work, work)
}
