use dv_journal::error::PrintFault;
use dv_reader::error::ScriptFault;
use dv_source::source::ReadError;
use std::alloc::AllocError;
use thiserror::Error;

/// Why a run failed.
#[derive(Clone, Copy, Debug, PartialEq, Eq, Drop, Error)]
pub enum RunFault {
    /// The input says no script. Nothing was written.
    #[error("{0}")]
    ScriptRefused(ScriptFault),
    /// An allocation failed. A prefix of the text was written.
    #[error("out of memory")]
    OutOfMemory,
    /// The reader failed. Nothing was written.
    #[error("read failed")]
    ReadFault,
    /// The writer failed, or took no byte. A prefix of the text was written.
    #[error("write failed")]
    WriteFault,
}

impl From<AllocError> for RunFault {
    ghost use Rattle.std.specs.Prelude.{◌≡◌};
    ghost use Rattle.dv_run.specs.declared.error.RunFault.TheVariants.{OutOfMemory};

    ghost from_gives = { λ _ fault. fault ≡ OutOfMemory };

    fn from(_error: AllocError) -> RunFault {
        RunFault::OutOfMemory
    }
}

impl From<ReadError> for RunFault {
    ghost use Rattle.std.specs.Prelude.{◌≡◌};
    ghost use Rattle.dv_run.specs.Faults.{of_read};

    ghost from_gives = { λ error fault. fault ≡ of_read error };

    fn from(error: ReadError) -> RunFault {
        match error {
            ReadError::ReadFault => RunFault::ReadFault,
            ReadError::OutOfMemory => RunFault::OutOfMemory,
        }
    }
}

impl From<ScriptFault> for RunFault {
    ghost use Rattle.std.specs.Prelude.{◌≡◌};
    ghost use Rattle.dv_run.specs.Faults.{of_script};

    ghost from_gives = { λ refusal fault. fault ≡ of_script refusal };

    fn from(refusal: ScriptFault) -> RunFault {
        match refusal {
            ScriptFault::TooLong
            | ScriptFault::NotJson
            | ScriptFault::BadVersion
            | ScriptFault::BadShape
            | ScriptFault::TooMany
            | ScriptFault::BadName
            | ScriptFault::BadClass
            | ScriptFault::BadPool
            | ScriptFault::BadBody
            | ScriptFault::BadCooperator => RunFault::ScriptRefused(refusal),
            ScriptFault::OutOfMemory => RunFault::OutOfMemory,
        }
    }
}

impl From<PrintFault> for RunFault {
    ghost use Rattle.std.specs.Prelude.{◌≡◌};
    ghost use Rattle.dv_run.specs.Faults.{of_print};

    ghost from_gives = { λ fault given. given ≡ of_print fault };

    fn from(fault: PrintFault) -> RunFault {
        match fault {
            PrintFault::WriteFault => RunFault::WriteFault,
            PrintFault::OutOfMemory => RunFault::OutOfMemory,
        }
    }
}
