use dv_orders::fault::OrderFault;
use dv_orders::number::Number;
use dv_run::error::RunFault;
use std::alloc::AllocError;

/// Why a run in given batches gave up.
#[derive(Clone, Copy, Debug, PartialEq, Eq, Drop)]
pub enum ReplayFault {
    /// As any run does.
    Run(RunFault),
    /// The batches aren't an order of the script. Nothing was written.
    BatchesRefused(OrderFault),
}

impl From<AllocError> for ReplayFault {
    ghost use Rattle.std.specs.Prelude.{◌≡◌};
    ghost use Rattle.dv_run.specs.declared.error.RunFault.TheVariants.{OutOfMemory};
    ghost use Rattle.dv_replay.specs.declared.error.ReplayFault.TheVariants.{Run};

    ghost from_gives = { λ _ fault. fault ≡ Run OutOfMemory };

    fn from(_error: AllocError) -> ReplayFault {
        ReplayFault::Run(RunFault::OutOfMemory)
    }
}

impl From<RunFault> for ReplayFault {
    ghost use Rattle.std.specs.Prelude.{◌≡◌};
    ghost use Rattle.dv_replay.specs.declared.error.ReplayFault.TheVariants.{Run};

    ghost from_gives = { λ fault given. given ≡ Run fault };

    fn from(fault: RunFault) -> ReplayFault {
        ReplayFault::Run(fault)
    }
}

/// Why a survey of all orders failed.
#[derive(Clone, Copy, Debug, PartialEq, Eq, Drop)]
pub enum SurveyFault {
    /// As any run does.
    Run(RunFault),
    /// The script has more orders than were to run. Nothing was performed, and nothing was written.
    TooMany(Number),
}
