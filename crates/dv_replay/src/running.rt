//! Runs a script in given batches: reads it, checks the batches, performs it, and prints its
//! journal and its outcomes.

ghost use Rattle.std.specs.Prelude.{◌≡◌, ◌≤◌, length, OnOk, IfOk, IfErr};
ghost use Rattle.dv_orders.specs.Listed.{AreOrder};
ghost use Rattle.dv_replay.specs.Replay.{GivesNoRun, GivesUp, Leaves, PrintsIn, ReaderFailed};
ghost use Rattle.dv_replay.specs.Replay.{WriterFailed};
ghost use Rattle.dv_run.specs.Run.{HasRead, SaysScript};
ghost use Rattle.dv_script.specs.declared.limits.TheConstants.{MOST_POOLS};
ghost use Rattle.dv_forms.specs.declared.limits.TheConstants.{WIDEST_LIMIT};
ghost use Rattle.dv_script.specs.declared.limits.TheConstants.{MOST_WORKERS};

use crate::error::ReplayFault;
use crate::performing::perform;
use dv_jobs::gate::Gate;
use dv_journal::sink::Sink;
use dv_orders::checking::fault_of;
use dv_posts::posted::Posted;
use dv_run::driving::Reporting;
use dv_run::error::RunFault;
use dv_run::output::print_report;
use dv_run::running::{Kept, script_of};
use dv_script::script::Script;
use dv_source::source::Source;
use dv_value::items::Items;
use std::alloc::{AllocError, AllocGlobal, Global};
use std::random::RandomSource;
use std::sync::Wait;
use std::thread::Threads;

/// Reads a script to the end of the input, and runs it as `dv_run::run_and_keep` does, with these
/// batches of its callers' posts in place of those in which they happen to come: one for each
/// drain, and one for the end. No thread is started for a caller.
///
/// BatchesRefused where the batches aren't an order of the script: nothing was performed, and
/// nothing written.
#[tactic(auto, using(crate::proofs::ReplayLemmas::replay_rules))]
pub fn replay<S, R, W, G>(
    rt: &S,
    reader: &mut R,
    writer: &mut W,
    workers: u32,
    gate: &G,
    batches: &[Items<Posted>],
) -> Result<Kept, ReplayFault>
where
    S: Threads + Wait + RandomSource + AllocGlobal + Sync,
    R: Source,
    W: Sink,
    G: Gate + Sync,
    requires { workers ≤ MOST_WORKERS }
    ensures ok { IfOk result (λ kept. PrintsIn batches.now (R.left reader.old) (W.taken writer.old)
        (W.taken writer.new) kept.report) }
    ensures script { IfOk result (λ kept. SaysScript (R.left reader.old) kept.script) }
    ensures err { IfErr result (λ fault. GivesUp fault batches.now (R.left reader.old)
        (W.taken writer.old) (W.taken writer.new)) }
    ensures reader { ReaderFailed result (R.failures reader.old) (R.failures reader.new) }
    ensures writer { WriterFailed result (W.failures writer.old) (W.failures writer.new) }
    ensures left { Leaves result (R.left reader.old) (R.left reader.new) }
{
    let alloc = rt.alloc();
    let script = script_in(alloc, reader, batches)?;
    let Ok(report) = perform(rt, &script, workers, gate, batches, &Reporting) else {
        script.discard();
        return Err(ReplayFault::Run(RunFault::OutOfMemory));
    };
    match print_report(alloc, &script.classes, &report, writer) {
        Ok(()) => Ok(Kept { script, report }),
        Err(fault) => {
            script.discard();
            report.discard();
            Err(ReplayFault::Run(fault.into()))
        }
    }
}

/// Returns the script that the input says, of which the batches are an order. BatchesRefused where
/// they aren't.
#[tactic(auto, using(crate::proofs::ReplayLemmas::script_rules))]
pub fn script_in<R: Source>(
    alloc: Global,
    reader: &mut R,
    batches: &[Items<Posted>],
) -> Result<Script, ReplayFault>
    ensures ok { IfOk result (λ script. SaysScript (R.left reader.old) script) }
    ensures order { IfOk result (λ script. AreOrder script batches.now) }
    ensures pools { IfOk result (λ script. length script.pools ≤ MOST_POOLS) }
    ensures limited { IfOk result (λ script. script.limit ≤ WIDEST_LIMIT) }
    ensures kept { OnOk result (R.failures reader.new ≡ R.failures reader.old) }
    ensures left { OnOk result (HasRead (R.left reader.old) (R.left reader.new)) }
    ensures err { IfErr result (λ fault. GivesNoRun fault batches.now (R.left reader.old)
        (R.left reader.new) (R.failures reader.old) (R.failures reader.new)) }
{
    let script = script_of(alloc, reader)?;
    match fault_of(alloc, &script, batches) {
        Ok(None) => Ok(script),
        Ok(Some(fault)) => {
            script.discard();
            Err(ReplayFault::BatchesRefused(fault))
        }
        Err(AllocError) => {
            script.discard();
            Err(ReplayFault::Run(RunFault::OutOfMemory))
        }
    }
}
