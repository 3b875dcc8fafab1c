//! What is done with a script.

ghost use Rattle.std.specs.Prelude.{◌≡◌, ◌≤◌, None, Ok};
ghost use Rattle.dv_run.specs.Exit.{error_text, status};
ghost use Rattle.deferreds.specs.Ending.{Does, Replays, Runs, format_for, size_of};
ghost use Rattle.dv_run.specs.Words.{HasFewWorkers};
ghost use Rattle.dv_script.specs.declared.limits.TheConstants.{MOST_WORKERS};

use crate::exit::Exit;
use dv_forms::shape_fault::ShapeFault;
use dv_jobs::gate::PlainGate;
use dv_journal::sink::Sink;
use dv_orders::reading::read_batches;
use dv_posts::posted::Posted;
use dv_replay::running::replay;
use dv_replay::surveying::survey;
use dv_run::orders::Chosen;
use dv_run::{Form, Kept, RunFault, Source, Task, exit_of, run_and_keep};
use dv_survey::format::Format;
use dv_value::items::Items;
use dv_why::explaining::explain;
use std::alloc::AllocGlobal;
use std::mem;
use std::random::RandomSource;
use std::sync::Wait;
use std::thread::Threads;

/// Does this with the script of the reader, in the batches that the word says where they are given,
/// and returns how the program ends.
#[tactic(auto, using(crate::proofs::Endings::endings))]
pub fn perform<S, R, W>(rt: &S, task: Task, word: &str, reader: &mut R, writer: &mut W) -> Exit
where
    S: Threads + Wait + RandomSource + AllocGlobal + Sync,
    R: Source,
    W: Sink,
    requires { HasFewWorkers task }
    ensures { Does task word.now result.status result.text.now result.refusal result.too_many
        (R.left reader.old) (W.taken writer.old) (W.taken writer.new) }
{
    match task {
        Task::Run(Form::Lines, workers) => Exit::of_run(print_run(rt, reader, writer, workers)),
        Task::Run(Form::Json, workers) => Exit::of_run(dv_json::exit_of(dv_json::run(
            rt, reader, writer, workers, &PlainGate,
        ))),
        Task::Replay(form, workers) => match read_batches(rt.alloc(), word) {
            Ok(batches) => replay_as(rt, form, workers, batches.as_slice(), reader, writer),
            Err(ShapeFault::BadShape) => Exit::wrong_batches(),
            Err(ShapeFault::OutOfMemory) => Exit::plain(exit_of(&Err(RunFault::OutOfMemory))),
        },
        Task::Survey(form, chosen) => {
            match survey(
                rt,
                reader,
                writer,
                &PlainGate,
                format_for(form, chosen),
                chosen,
            ) {
                Ok(sums) => Exit::of_survey(sums),
                Err(fault) => Exit::of_survey_fault(fault, chosen),
            }
        }
        Task::Why => Exit::plain(dv_why::explaining::exit_of(explain(rt.alloc(), reader, writer))),
    }
}

fn format_for(form: Form, chosen: Chosen) -> Format
    ensures { result ≡ format_for form chosen }
{
    match form {
        Form::Lines => Format::Lines(size_of(chosen)),
        Form::Json => Format::Json(size_of(chosen)),
    }
}

/// Returns the size of a sample.
fn size_of(chosen: Chosen) -> Option<u32>
    ensures { result ≡ size_of chosen }
{
    match chosen {
        Chosen::Every(_) => None,
        Chosen::Sample(size, _) => Some(size),
    }
}

/// Runs the script in these batches, and prints the run in this form.
#[tactic(auto, using(crate::proofs::Endings::endings))]
fn replay_as<S, R, W>(
    rt: &S,
    form: Form,
    workers: u32,
    batches: &[Items<Posted>],
    reader: &mut R,
    writer: &mut W,
) -> Exit
where
    S: Threads + Wait + RandomSource + AllocGlobal + Sync,
    R: Source,
    W: Sink,
    requires { workers ≤ MOST_WORKERS }
    ensures run { Replays form batches.now result.status result.text.now result.refusal
        (R.left reader.old) (W.taken writer.old) (W.taken writer.new) }
    ensures few { result.too_many ≡ None }
{
    match form {
        Form::Lines => match replay(rt, reader, writer, workers, &PlainGate, batches) {
            Ok(kept) => Exit::of_run(ended(kept)),
            Err(fault) => Exit::of_replay(fault),
        },
        Form::Json => match dv_json::replay(rt, reader, writer, workers, &PlainGate, batches) {
            Ok(ending) => Exit::of_run(dv_json::exit_of(Ok(ending))),
            Err(fault) => Exit::of_replay(fault),
        },
    }
}

/// Runs the script, and prints its journal and its outcomes.
#[tactic(auto, using(crate::proofs::Endings::endings))]
fn print_run<S, R, W>(rt: &S, reader: &mut R, writer: &mut W, workers: u32) -> (u8, &'static str)
where
    S: Threads + Wait + RandomSource + AllocGlobal + Sync,
    R: Source,
    W: Sink,
    requires { workers ≤ MOST_WORKERS }
    ensures { Runs result.0 result.1.now (R.left reader.old) (W.taken writer.old)
        (W.taken writer.new) }
{
    match run_and_keep(rt, reader, writer, workers, &PlainGate) {
        Ok(kept) => ended(kept),
        Err(fault) => exit_of(&Err(fault)),
    }
}

/// Returns how the program ends after a run. The script and the report aren't dropped, since the
/// program ends.
fn ended(kept: Kept) -> (u8, &'static str)
    ensures status { result.0 ≡ status (Ok kept.report) }
    ensures text { result.1.now ≡ error_text (Ok kept.report) }
{
    let Kept { script, report } = kept;
    mem::forget(script);
    let ended = Ok(report);
    let exit = exit_of(&ended);
    mem::forget(ended);
    exit
}
