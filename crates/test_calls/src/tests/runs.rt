ghost use Rattle.std.specs.Prelude.{◌<◌, ◌≤◌, ◌^◌, ◌-◌, length, IfOk};

use dv_engine::engine::{Engine, Next};
use dv_engine::report::Report;
use dv_inline::poller::Poller;
use dv_jobs::gate::{Gate, PlainGate};
use dv_jobs::one_thread::OneThread;
use dv_jobs::source::JobSource;
use dv_journal::memory_sink::MemorySink;
use dv_posts::posted::Posted;
use dv_reader::read_script::ReadScript;
use dv_run::output::print_report;
use dv_run::{RunFault, run};
use dv_script::script::Script;
use dv_source::memory_source::MemorySource;
use dv_value::items::Items;
use std::alloc::{AllocError, AllocGlobal, Global};
use std::hash::RandomState;
use std::random::RandomSource;
use std::sync::Wait;
use std::test::Fail;
use std::thread::Threads;

/// How many bytes a run may print.
const ROOM: usize = 262_144;

/// Runs a script: what it prints, and its report.
pub fn run_text<S, G>(
    rt: &S,
    script: &str,
    workers: u32,
    gate: &G,
) -> Result<(MemorySink, Report), Fail>
where
    S: Threads + Wait + RandomSource + AllocGlobal + Sync,
    G: Gate + Sync,
    requires { workers ≤ 16 }
{
    let mut source = MemorySource::new(script.as_bytes(), 4096);
    let mut sink = MemorySink::new(rt.alloc(), ROOM, 4096)?;
    let report = run(rt, &mut source, &mut sink, workers, gate)?;
    Ok((sink, report))
}

/// Runs a script: why it failed, if it did.
pub fn fault_of<S, G>(
    rt: &S,
    script: &str,
    workers: u32,
    gate: &G,
) -> Result<Option<RunFault>, AllocError>
where
    S: Threads + Wait + RandomSource + AllocGlobal + Sync,
    G: Gate + Sync,
    requires { workers ≤ 16 }
{
    let mut source = MemorySource::new(script.as_bytes(), 4096);
    let mut sink = MemorySink::new(rt.alloc(), ROOM, 4096)?;
    match run(rt, &mut source, &mut sink, workers, gate) {
        Ok(report) => {
            report.discard();
            Ok(None)
        }
        Err(fault) => Ok(Some(fault)),
    }
}

/// The same posts.
fn copied(alloc: Global, posts: &[Posted]) -> Result<Items<Posted>, AllocError> {
    let mut copy = Items::new(alloc);
    for posted in posts {
        copy.push(Posted {
            caller: posted.caller,
            index: posted.index,
        })?;
    }
    Ok(copy)
}

/// The script that a text says.
fn read(alloc: Global, text: &str) -> Result<Script, Fail>
    ensures limited { IfOk result (λ script. script.limit < 2 ^ 32 - 1) }
    ensures pools { IfOk result (λ script. length script.pools ≤ 4) }
{
    Ok(Script::read(alloc, text.as_bytes())?)
}

/// Has an engine go on until it waits for a batch. No script here has so many events.
fn go_on<S, J>(rt: &S, engine: &mut Engine<'_, J>)
where
    S: Wait + RandomSource + AllocGlobal,
    J: JobSource,
{
    for _ in 0..10_000u32 {
        if engine.event(rt) != Ok(Next::Went) {
            break;
        }
    }
}

/// Gives an engine these batches, each once it waits for one.
fn give_all<S, J>(rt: &S, engine: &mut Engine<'_, J>, batches: &[Items<Posted>]) -> Result<(), Fail>
where
    S: Wait + RandomSource + AllocGlobal,
    J: JobSource,
{
    for batch in batches {
        go_on(rt, engine);
        let batch = copied(rt.alloc(), batch.as_slice())?;
        engine.run_batch(rt, batch)?;
    }
    Ok(())
}

/// The report of an engine that takes these batches, all on this thread.
fn replayed<S>(rt: &S, script: &Script, batches: &[Items<Posted>]) -> Result<Report, Fail>
where
    S: Threads + Wait + RandomSource + AllocGlobal,
    requires limited { script.now.limit < 2 ^ 32 - 1 }
    requires pools { length script.now.pools ≤ 4 }
{
    let alloc = rt.alloc();
    let poller = Poller::new(rt)?;
    let keys = RandomState::new(rt)?;
    let mut engine = Engine::new(
        alloc,
        poller,
        keys,
        OneThread::new(alloc, 4, &PlainGate),
        script,
    )?;
    let given = give_all(rt, &mut engine, batches);
    let report = engine.finish(rt);
    if let Err(fail) = given {
        if let Ok(report) = report {
            report.discard();
        }
        return Err(fail);
    }
    Ok(report?)
}

/// What the report prints of an engine on this thread that takes these batches.
fn retold<S>(rt: &S, text: &str, batches: &[Items<Posted>]) -> Result<MemorySink, Fail>
where
    S: Threads + Wait + RandomSource + AllocGlobal,
{
    let mut sink = MemorySink::new(rt.alloc(), ROOM, 4096)?;
    let script = read(rt.alloc(), text)?;
    let told = retell(rt, &script, batches, &mut sink);
    script.discard();
    told?;
    Ok(sink)
}

/// Has an engine on this thread that takes these batches print its report.
fn retell<S>(
    rt: &S,
    script: &Script,
    batches: &[Items<Posted>],
    sink: &mut MemorySink,
) -> Result<(), Fail>
where
    S: Threads + Wait + RandomSource + AllocGlobal,
    requires limited { script.now.limit < 2 ^ 32 - 1 }
    requires pools { length script.now.pools ≤ 4 }
{
    let report = replayed(rt, script, batches)?;
    let printed = print_report(rt.alloc(), &script.classes, &report, sink);
    report.discard();
    Ok(printed?)
}

/// Whether a run prints what an engine on this thread does that takes the same batches.
fn is_of_its_batches<S>(rt: &S, text: &str, workers: u32) -> Result<bool, Fail>
where
    S: Threads + Wait + RandomSource + AllocGlobal + Sync,
    requires { workers ≤ 16 }
{
    let (printed, report) = run_text(rt, text, workers, &PlainGate)?;
    let expected = retold(rt, text, report.batches.as_slice());
    report.discard();
    Ok(printed.bytes() == expected?.bytes())
}

/// Whether each of a hundred runs does.
fn are_of_their_batches<S>(rt: &S, text: &str, workers: u32) -> Result<bool, Fail>
where
    S: Threads + Wait + RandomSource + AllocGlobal + Sync,
    requires { workers ≤ 16 }
{
    for _ in 0..100u32 {
        if !is_of_its_batches(rt, text, workers)? {
            return Ok(false);
        }
    }
    Ok(true)
}

/// Jobs whose results are delivered in another order than they were submitted in, of one pool and
/// of three; the posts of one caller; and two callers whose posts meet at drains, and submit jobs.
const SCRIPTS: [&str; 4] = [
    r#"{"version":1,"events":[["thread","a",5,["sum",10]],["thread","b",5,["raise","ValueError","no"]],["thread","c",2,["value",7]],["advance",5]]}"#,
    r#"{"version":2,"pools":[["io",2],["cpu",0]],"events":[["threadIn","a","io",5,["sum",10]],["threadIn","b","cpu",5,["raise","ValueError","no"]],["thread","c",2,["value",7]],["advance",5]]}"#,
    r#"{"version":1,"callers":[[{"do":[["note","x"]]},{"do":[["callback","d",1]]}]],"events":[["deferred","d"]]}"#,
    r#"{"version":1,"callers":[[{"do":[["acquire","ann","door"]]},{"do":[["release","door"]]}],[{"do":[["acquire","bob","door"]]},{"do":[["thread","j",1,["sum",4]]]},{"do":[["release","door"]]}]],"events":[["lock","door"],["drain",1],["drain",2],["advance",1],["note","drained"],["drain",3],["advance",2]]}"#,
];

/// The first script of which not each of a hundred runs does.
fn first_other<S>(rt: &S, workers: u32) -> Result<Option<&'static str>, Fail>
where
    S: Threads + Wait + RandomSource + AllocGlobal + Sync,
    requires { workers ≤ 16 }
{
    for text in SCRIPTS {
        if !are_of_their_batches(rt, text, workers)? {
            return Ok(Some(text));
        }
    }
    Ok(None)
}

#[test]
fn runs_with_and_without_workers_print_the_text_of_their_batches(
    rt: HostRuntime,
) -> Result<(), Fail> {
    assert_eq!(rt; first_other(&rt, 0)?, None);
    assert_eq!(rt; first_other(&rt, 1)?, None);
    assert_eq!(rt; first_other(&rt, 4)?, None);
    assert_eq!(rt; first_other(&rt, 16)?, None);
    Ok(())
}
