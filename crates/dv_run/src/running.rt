ghost use Rattle.std.specs.Prelude.{◌≡◌, ◌≤◌, length, OnOk, IfOk, IfErr};
ghost use Rattle.dv_posts.specs.Callers.{AreFew};
ghost use Rattle.dv_script.specs.declared.limits.TheConstants.{MOST_POOLS};
ghost use Rattle.dv_forms.specs.declared.limits.TheConstants.{WIDEST_LIMIT};
ghost use Rattle.dv_script.specs.declared.limits.TheConstants.{MOST_WORKERS};
ghost use Rattle.dv_run.specs.Headline.{Prints};
ghost use Rattle.dv_run.specs.Run.{SaysScript, GivesNoScript, GivesUp, HasRead, Leaves};
ghost use Rattle.dv_run.specs.Run.{ReaderFailed, WriterFailed};

use crate::driving::Reporting;
use crate::error::RunFault;
use crate::output::print_report;
use crate::performing::perform;
use dv_engine::report::Report;
use dv_forms::limits::WIDEST_BYTES;
use dv_jobs::gate::Gate;
use dv_journal::sink::Sink;
use dv_reader::read_script::ReadScript;
use dv_script::script::Script;
use dv_source::source::{Source, read_up_to};
use std::alloc::{AllocGlobal, Global};
use std::random::RandomSource;
use std::sync::Wait;
use std::thread::Threads;

/// Reads a script to the end of the input, performs its events, its callers' posts and its jobs,
/// and writes what happened, a line an entry, and then a line for each Deferred that was made.
/// Answers the report of which that is the text: the journal, what became of each Deferred, the
/// batches in which posts were taken, the jobs, and whether the run stopped at the journal's limit.
///
/// The jobs are done at the gate: those of the default pool by so many workers, and those of a pool
/// that the script names by as many as it says, each on a thread of its own, and by this thread
/// where it waits for one. With no workers, and where no pool is named, each is done here, where it
/// is submitted. The gate is asked for each job once. Each caller posts on a thread of its own, in
/// order. A worker whose thread can't be started is left out, and the posts of a caller whose
/// thread can't be are posted before the first event. It may wait for its threads.
///
/// ScriptRefused where the input says no script, and ReadFault where the reader fails: nothing was
/// written. OutOfMemory where an allocation fails, and WriteFault where the writer fails or takes
/// no byte: a prefix of the text was written.
///
/// The input is read to its end, or to one byte more than a script may have, and nothing is written
/// before all of it is read and performed. The run ends at the reader's or the writer's first
/// failure: the reader has counted a failure where the answer is a read fault, the writer where it
/// is a write fault, and neither has in any other case.
pub fn run<S, R, W, G>(
    rt: &S,
    reader: &mut R,
    writer: &mut W,
    workers: u32,
    gate: &G,
) -> Result<Report, RunFault>
where
    S: Threads + Wait + RandomSource + AllocGlobal + Sync,
    R: Source,
    W: Sink,
    G: Gate + Sync,
    requires { workers ≤ MOST_WORKERS }
    ensures ok { IfOk result (λ report. Prints (R.left reader.old) (W.taken writer.old)
        (W.taken writer.new) report) }
    ensures err { IfErr result (λ fault. GivesUp fault (R.left reader.old) (W.taken writer.old)
        (W.taken writer.new)) }
    ensures reader { ReaderFailed result (R.failures reader.old) (R.failures reader.new) }
    ensures writer { WriterFailed result (W.failures writer.old) (W.failures writer.new) }
    ensures left { Leaves result (R.left reader.old) (R.left reader.new) }
{
    match run_and_keep(rt, reader, writer, workers, gate) {
        Ok(Kept { script, report }) => {
            script.discard();
            Ok(report)
        }
        Err(fault) => Err(fault),
    }
}

/// What is left of a run that has ended with a report.
#[derive(Drop)]
pub struct Kept {
    /// The script that was run.
    pub script: Script,
    pub report: Report,
}

/// As `run`, and hands the script back with the report, so that a program which ends then need not
/// drop them piece by piece.
#[tactic(auto, using(crate::proofs::RunLemmas::run_rules))]
pub fn run_and_keep<S, R, W, G>(
    rt: &S,
    reader: &mut R,
    writer: &mut W,
    workers: u32,
    gate: &G,
) -> Result<Kept, RunFault>
where
    S: Threads + Wait + RandomSource + AllocGlobal + Sync,
    R: Source,
    W: Sink,
    G: Gate + Sync,
    requires { workers ≤ MOST_WORKERS }
    ensures ok { IfOk result (λ kept. Prints (R.left reader.old) (W.taken writer.old)
        (W.taken writer.new) kept.report) }
    ensures script { IfOk result (λ kept. SaysScript (R.left reader.old) kept.script) }
    ensures err { IfErr result (λ fault. GivesUp fault (R.left reader.old) (W.taken writer.old)
        (W.taken writer.new)) }
    ensures reader { ReaderFailed result (R.failures reader.old) (R.failures reader.new) }
    ensures writer { WriterFailed result (W.failures writer.old) (W.failures writer.new) }
    ensures left { Leaves result (R.left reader.old) (R.left reader.new) }
{
    let alloc = rt.alloc();
    let script = script_of(alloc, reader)?;
    let Ok(report) = perform(rt, &script, workers, gate, &Reporting) else {
        script.discard();
        return Err(RunFault::OutOfMemory);
    };
    match print_report(alloc, &script.classes, &report, writer) {
        Ok(()) => Ok(Kept { script, report }),
        Err(fault) => {
            script.discard();
            report.discard();
            Err(fault.into())
        }
    }
}

/// The script that the input says.
#[tactic(auto, using(crate::proofs::RunLemmas::script_rules))]
pub fn script_of<R: Source>(alloc: Global, reader: &mut R) -> Result<Script, RunFault>
    ensures ok { IfOk result (λ script. SaysScript (R.left reader.old) script) }
    ensures few { IfOk result (λ script. AreFew script.callers) }
    ensures pools { IfOk result (λ script. length script.pools ≤ MOST_POOLS) }
    ensures limited { IfOk result (λ script. script.limit ≤ WIDEST_LIMIT) }
    ensures kept { OnOk result (R.failures reader.new ≡ R.failures reader.old) }
    ensures left { OnOk result (HasRead (R.left reader.old) (R.left reader.new)) }
    ensures err { IfErr result (λ fault. GivesNoScript fault (R.left reader.old) (R.left reader.new)
        (R.failures reader.old) (R.failures reader.new)) }
{
    let bytes = read_up_to(alloc, reader, WIDEST_BYTES + 1)?;
    Ok(Script::read(alloc, bytes.as_slice())?)
}
