ghost use Rattle.std.specs.Prelude.{◌≡◌};
ghost use Rattle.dv_replay.specs.Exit.{fault_refusal, fault_status, fault_text};
ghost use Rattle.dv_replay.specs.Exit.{survey_fault_status, survey_fault_text, survey_status};
ghost use Rattle.dv_replay.specs.Exit.{too_many};

use crate::error::{ReplayFault, SurveyFault};
use dv_orders::fault::OrderFault;
use dv_orders::number::Number;

/// Returns the exit status of a run in given batches that gave up: 5 where the batches are refused,
/// and otherwise that of a run.
pub fn fault_status(fault: ReplayFault) -> u8
    ensures { result ≡ fault_status fault }
{
    match fault {
        ReplayFault::Run(fault) => dv_run::exit::fault_status(fault),
        ReplayFault::BatchesRefused(_) => 5,
    }
}

/// Returns what goes to standard error then: a line of this text, or nothing where it is empty.
pub fn fault_text(fault: ReplayFault) -> &'static str
    ensures { result.now ≡ fault_text fault }
{
    match fault {
        ReplayFault::Run(fault) => dv_run::exit::fault_text(fault),
        ReplayFault::BatchesRefused(_) => "",
    }
}

/// Returns why the batches are refused, which goes to standard error, too. None where they aren't.
pub fn fault_refusal(fault: ReplayFault) -> Option<OrderFault>
    ensures { result ≡ fault_refusal fault }
{
    match fault {
        ReplayFault::Run(_) => None,
        ReplayFault::BatchesRefused(fault) => Some(fault),
    }
}

/// In how many ways the runs of a survey ended, and how many of them ended since a Deferred wasn't
/// as the script expects.
#[derive(Clone, Copy, Drop)]
pub struct Sums {
    pub outcomes: usize,
    pub unmet: u64,
}

/// Returns the exit status of a survey of all orders: 8 where a Deferred wasn't as the script
/// expects in some, else 0 where all runs ended in one way, and 6 where they didn't.
pub fn survey_status(sums: Sums) -> u8
    ensures { result ≡ survey_status sums }
{
    if sums.unmet > 0 {
        8
    } else if sums.outcomes <= 1 {
        0
    } else {
        6
    }
}

/// Returns the exit status of a survey that failed: 7 where there are too many orders, and
/// otherwise that of a run.
pub fn survey_fault_status(fault: SurveyFault) -> u8
    ensures { result ≡ survey_fault_status fault }
{
    match fault {
        SurveyFault::Run(fault) => dv_run::exit::fault_status(fault),
        SurveyFault::TooMany(_) => 7,
    }
}

/// Returns what goes to standard error then: a line of this text, or nothing where it is empty.
pub fn survey_fault_text(fault: SurveyFault) -> &'static str
    ensures { result.now ≡ survey_fault_text fault }
{
    match fault {
        SurveyFault::Run(fault) => dv_run::exit::fault_text(fault),
        SurveyFault::TooMany(_) => "",
    }
}

/// Returns how many orders there are where these are too many, which goes to standard error, too.
/// None where they aren't.
pub fn too_many(fault: SurveyFault) -> Option<Number>
    ensures { result ≡ too_many fault }
{
    match fault {
        SurveyFault::Run(_) => None,
        SurveyFault::TooMany(number) => Some(number),
    }
}
