ghost use Rattle.std.specs.Prelude.{◌≡◌, ◌≤◌, IfErr, IfOk};
ghost use Rattle.dv_json.specs.Exit.{error_text, status};
ghost use Rattle.dv_json.specs.Lines.{GivesUp, HasRun};
ghost use Rattle.dv_run.specs.Run.{Leaves, ReaderFailed, WriterFailed};
ghost use Rattle.dv_script.specs.declared.limits.TheConstants.{MOST_WORKERS};

use crate::driving::Marking;
use crate::marked::Marked;
use crate::printing::print_run;
use dv_jobs::gate::Gate;
use dv_journal::ending::Ending;
use dv_journal::sink::Sink;
use dv_run::error::RunFault;
use dv_run::exit::{fault_status, fault_text, status_of};
use dv_run::performing::perform;
use dv_run::running::script_of;
use dv_source::source::Source;
use std::alloc::AllocGlobal;
use std::random::RandomSource;
use std::sync::Wait;
use std::thread::Threads;

/// Reads a script to the end of the input, performs it as `dv_run::run` does, and writes what
/// happened, what became of each Deferred and what is left, a line of JSON an object. Answers
/// how the run ended.
///
/// ScriptRefused where the input says no script, and ReadFault where the reader fails: nothing was
/// written. OutOfMemory where allocation fails, and WriteFault where the writer fails or takes no
/// byte: the front of the lines may have been written.
#[tactic(auto, using(crate::proofs::Ending::endings))]
pub fn run<S, R, W, G>(
    rt: &S,
    reader: &mut R,
    writer: &mut W,
    workers: u32,
    gate: &G,
) -> Result<Ending, RunFault>
where
    S: Threads + Wait + RandomSource + AllocGlobal + Sync,
    R: Source,
    W: Sink,
    G: Gate + Sync,
    requires { workers ≤ MOST_WORKERS }
    ensures ok { IfOk result (HasRun (R.left reader.old) (W.taken writer.old)
        (W.taken writer.new)) }
    ensures err { IfErr result (λ fault. GivesUp fault (R.left reader.old) (W.taken writer.old)
        (W.taken writer.new)) }
    ensures reader { ReaderFailed result (R.failures reader.old) (R.failures reader.new) }
    ensures writer { WriterFailed result (W.failures writer.old) (W.failures writer.new) }
    ensures left { Leaves result (R.left reader.old) (R.left reader.new) }
{
    let alloc = rt.alloc();
    let script = script_of(alloc, reader)?;
    let Ok(marked) = perform(rt, &script, workers, gate, &Marking) else {
        script.discard();
        return Err(RunFault::OutOfMemory);
    };
    let ending = marked.remains.journal.ending(marked.remains.stopped);
    let printed = print_run(alloc, &script.classes, marked, writer);
    script.discard();
    match printed {
        Ok(()) => Ok(ending),
        Err(fault) => Err(fault.into()),
    }
}

/// The exit status of a run, and what goes to standard error: a line of this text, or nothing where
/// it is empty. They are those of `dv_run::exit::exit_of`.
pub fn exit_of(ended: Result<Ending, RunFault>) -> (u8, &'static str)
    ensures status { result.0 ≡ status ended }
    ensures text { result.1.now ≡ error_text ended }
{
    match ended {
        Ok(ending) => (status_of(ending), ""),
        Err(fault) => (fault_status(fault), fault_text(fault)),
    }
}
