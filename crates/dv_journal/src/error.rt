use crate::sink::SinkFault;
use std::alloc::AllocError;
use thiserror::Error;

/// Why an entry isn't written. The journal is then as it was.
#[derive(Clone, Copy, Debug, PartialEq, Eq, Drop, Error)]
pub enum Stop {
    /// The entry would pass the journal's limit.
    #[error("journal limit reached")]
    Limit,
    /// Out of memory.
    #[error("out of memory")]
    OutOfMemory,
}

impl From<AllocError> for Stop {
    ghost use Rattle.std.specs.Prelude.{◌≡◌};
    ghost use Rattle.dv_journal.specs.declared.error.Stop.TheVariants.{OutOfMemory};

    ghost from_gives = { λ _ stop. stop ≡ OutOfMemory };

    fn from(_error: AllocError) -> Stop {
        Stop::OutOfMemory
    }
}

/// Why a step isn't made. All is then as it was.
#[derive(Clone, Copy, Debug, PartialEq, Eq)]
pub enum Fault<Reason> {
    /// The step is refused, for a reason of its own.
    Refused(Reason),
    /// The entry that logs it would pass the journal's limit.
    Limit,
    /// Out of memory.
    OutOfMemory,
}

impl<Reason> From<Stop> for Fault<Reason> {
    ghost use Rattle.std.specs.Prelude.{◌≡◌};
    ghost use Rattle.dv_journal.specs.Faults.{fault_of};

    ghost from_gives = { λ stop fault. fault ≡ fault_of stop };

    fn from(stop: Stop) -> Fault<Reason> {
        match stop {
            Stop::Limit => Fault::Limit,
            Stop::OutOfMemory => Fault::OutOfMemory,
        }
    }
}

impl<Reason> From<AllocError> for Fault<Reason> {
    ghost use Rattle.std.specs.Prelude.{◌≡◌};
    ghost use Rattle.dv_journal.specs.declared.error.Fault.TheVariants.{OutOfMemory};

    ghost from_gives = { λ _ fault. fault ≡ OutOfMemory };

    fn from(_error: AllocError) -> Fault<Reason> {
        Fault::OutOfMemory
    }
}

/// Why a print returned early. What was written by then is a prefix of the text.
#[derive(Clone, Copy, Debug, PartialEq, Eq, Drop, Error)]
pub enum PrintFault {
    /// The sink failed, or took no byte.
    #[error("write failed")]
    WriteFault,
    /// Out of memory. The sink hasn't failed.
    #[error("out of memory")]
    OutOfMemory,
}

impl From<SinkFault> for PrintFault {
    ghost use Rattle.std.specs.Prelude.{◌≡◌};
    ghost use Rattle.dv_journal.specs.declared.error.PrintFault.TheVariants.{WriteFault};

    ghost from_gives = { λ _ fault. fault ≡ WriteFault };

    fn from(_fault: SinkFault) -> PrintFault {
        PrintFault::WriteFault
    }
}

impl From<AllocError> for PrintFault {
    ghost use Rattle.std.specs.Prelude.{◌≡◌};
    ghost use Rattle.dv_journal.specs.declared.error.PrintFault.TheVariants.{OutOfMemory};

    ghost from_gives = { λ _ fault. fault ≡ OutOfMemory };

    fn from(_error: AllocError) -> PrintFault {
        PrintFault::OutOfMemory
    }
}
