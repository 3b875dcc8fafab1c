ghost use Rattle.std.specs.Prelude.{◌≡◌};
ghost use Rattle.dv_run.specs.Exit.{status, status_of, fault_status, error_text, fault_text};

use crate::error::RunFault;
use dv_engine::report::Report;
use dv_journal::ending::Ending;
use dv_reader::error::refusal_text;

/// The exit status of a run, and what goes to standard error: a line of this text, or nothing where
/// it is empty.
///
/// The status is 0 where all events were performed, 1 where the run stopped at the limit of its
/// journal, 2 where the script is refused, 3 if memory ran out, 4 where the reader or the writer
/// failed, and 8 where a Deferred wasn't as the script expects.
pub fn exit_of(ended: &Result<Report, RunFault>) -> (u8, &'static str)
    ensures status { result.0 ≡ status ended.now }
    ensures text { result.1.now ≡ error_text ended.now }
{
    match ended {
        Ok(report) => (status_of(report.journal.ending(report.stopped)), ""),
        Err(fault) => (fault_status(*fault), fault_text(*fault)),
    }
}

/// The exit status of a run that has ended so.
pub fn status_of(ending: Ending) -> u8
    ensures { result ≡ status_of ending }
{
    match ending {
        Ending::Over => 0,
        Ending::AtLimit => 1,
        Ending::Unmet => 8,
    }
}

/// The exit status of a run that failed.
pub fn fault_status(fault: RunFault) -> u8
    ensures { result ≡ fault_status fault }
{
    match fault {
        RunFault::ScriptRefused(_) => 2,
        RunFault::OutOfMemory => 3,
        RunFault::ReadFault | RunFault::WriteFault => 4,
    }
}

/// What goes to standard error where a run failed: a line of this text.
pub fn fault_text(fault: RunFault) -> &'static str
    ensures { result.now ≡ fault_text fault }
{
    match fault {
        RunFault::ScriptRefused(refusal) => refusal_text(refusal),
        RunFault::OutOfMemory => "out of memory",
        RunFault::ReadFault => "read failed",
        RunFault::WriteFault => "write failed",
    }
}
