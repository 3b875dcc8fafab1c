use std::alloc::AllocError;
use thiserror::Error;

/// Why a work isn't submitted.
#[derive(Clone, Copy, Debug, PartialEq, Eq, Error)]
pub enum JobFault {
    /// 4,096 works were submitted before.
    #[error("too many jobs")]
    Full,
    /// Out of memory, or the source is a pool whose executor has failed.
    #[error("out of memory")]
    OutOfMemory,
}

impl From<AllocError> for JobFault {
    ghost use Rattle.std.specs.Prelude.{◌≡◌};
    ghost use Rattle.dv_jobs.specs.declared.error.JobFault.TheVariants.{OutOfMemory};

    ghost from_gives = { λ _ fault. fault ≡ OutOfMemory };

    fn from(_error: AllocError) -> JobFault {
        JobFault::OutOfMemory
    }
}
