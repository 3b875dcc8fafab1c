ghost use Rattle.std.specs.Prelude.{◌≤◌, IfErr, IfOk};
ghost use Rattle.dv_json.specs.Replayed.{GivesUpIn, HasRunIn};
ghost use Rattle.dv_replay.specs.Replay.{Leaves, ReaderFailed, WriterFailed};
ghost use Rattle.dv_script.specs.declared.limits.TheConstants.{MOST_WORKERS};

use crate::driving::Marking;
use crate::printing::print_run;
use dv_jobs::gate::Gate;
use dv_journal::ending::Ending;
use dv_journal::sink::Sink;
use dv_posts::posted::Posted;
use dv_replay::error::ReplayFault;
use dv_replay::performing::perform;
use dv_replay::running::script_in;
use dv_run::error::RunFault;
use dv_source::source::Source;
use dv_value::items::Items;
use std::alloc::AllocGlobal;
use std::random::RandomSource;
use std::sync::Wait;
use std::thread::Threads;

/// Reads a script to the end of the input, performs it in these batches as `dv_replay` does, and
/// writes what `run` writes. Answers how the run ended.
///
/// BatchesRefused where the batches aren't an order of the script: nothing was performed, and
/// nothing written.
#[tactic(auto, using(crate::proofs::ReplayEnding::endings))]
pub fn replay<S, R, W, G>(
    rt: &S,
    reader: &mut R,
    writer: &mut W,
    workers: u32,
    gate: &G,
    batches: &[Items<Posted>],
) -> Result<Ending, ReplayFault>
where
    S: Threads + Wait + RandomSource + AllocGlobal + Sync,
    R: Source,
    W: Sink,
    G: Gate + Sync,
    requires { workers ≤ MOST_WORKERS }
    ensures ok { IfOk result (HasRunIn batches.now (R.left reader.old) (W.taken writer.old)
        (W.taken writer.new)) }
    ensures err { IfErr result (λ fault. GivesUpIn fault batches.now (R.left reader.old)
        (W.taken writer.old) (W.taken writer.new)) }
    ensures reader { ReaderFailed result (R.failures reader.old) (R.failures reader.new) }
    ensures writer { WriterFailed result (W.failures writer.old) (W.failures writer.new) }
    ensures left { Leaves result (R.left reader.old) (R.left reader.new) }
{
    let alloc = rt.alloc();
    let script = script_in(alloc, reader, batches)?;
    let Ok(marked) = perform(rt, &script, workers, gate, batches, &Marking) else {
        script.discard();
        return Err(ReplayFault::Run(RunFault::OutOfMemory));
    };
    let ending = marked.remains.journal.ending(marked.remains.stopped);
    let printed = print_run(alloc, &script.classes, marked, writer);
    script.discard();
    match printed {
        Ok(()) => Ok(ending),
        Err(fault) => Err(ReplayFault::Run(fault.into())),
    }
}
