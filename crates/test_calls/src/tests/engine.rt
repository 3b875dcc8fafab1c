ghost use Rattle.std.specs.Prelude.{◌<◌, ◌^◌, ◌-◌, ◌≤◌, length, IfOk};

use dv_engine::engine::Engine;
use dv_engine::error::EngineFault;
use dv_engine::report::Report;
use dv_inline::poller::Poller;
use dv_jobs::gate::PlainGate;
use dv_jobs::one_thread::OneThread;
use dv_jobs::source::JobSource;
use dv_posts::posted::Posted;
use dv_reader::read_script::ReadScript;
use dv_script::script::Script;
use dv_value::items::Items;
use std::alloc::{AllocError, AllocGlobal, Global};
use std::hash::RandomState;
use std::random::RandomSource;
use std::sync::Wait;
use std::test::Fail;
use std::thread::Threads;

/// A script of these events, with two callers of two posts each.
fn script(alloc: Global, events: &str) -> Result<Script, Fail>
    ensures limited { IfOk result (λ script. script.limit < 2 ^ 32 - 1) }
    ensures pools { IfOk result (λ script. length script.pools ≤ 4) }
{
    let text = format!(in alloc;
        r#"{{"version":1,"callers":[[{{}},{{}}],[{{}},{{}}]],"events":[{events}]}}"#
    )?;
    Ok(Script::read(alloc, text.as_bytes())?)
}

/// A batch of these posts, each by its caller and its number.
fn batch(alloc: Global, posts: &[(u32, u32)]) -> Result<Items<Posted>, AllocError> {
    let mut batch = Items::new(alloc);
    for (caller, index) in posts {
        batch.push(Posted {
            caller: *caller,
            index: *index,
        })?;
    }
    Ok(batch)
}

/// A call of an engine.
#[derive(Drop)]
enum Call {
    Event,
    Drain(&'static [(u32, u32)]),
}

/// Makes a call, and adds its answer as a line.
fn add_answer<R, J>(
    rt: &R,
    engine: &mut Engine<'_, J>,
    call: &Call,
    lines: &mut String,
) -> Result<(), AllocError>
where
    R: Wait + RandomSource + AllocGlobal,
    J: JobSource,
{
    match call {
        Call::Event => write!(lines, "{:?}\n", engine.event(rt)),
        Call::Drain(posts) => {
            let batch = batch(rt.alloc(), posts)?;
            write!(lines, "{:?}\n", engine.run_batch(rt, batch))
        }
    }
}

/// Makes calls one after the other, and adds their answers.
fn add_answers<R, J>(
    rt: &R,
    engine: &mut Engine<'_, J>,
    calls: &[Call],
    lines: &mut String,
) -> Result<(), AllocError>
where
    R: Wait + RandomSource + AllocGlobal,
    J: JobSource,
{
    for call in calls {
        add_answer(rt, engine, call, lines)?;
    }
    Ok(())
}

/// How many entries and how many batches a report has.
fn counts(report: Result<Report, EngineFault>) -> Result<(usize, usize), EngineFault> {
    let report = report?;
    let counts = (
        report.journal.entries().len(),
        report.batches.as_slice().len(),
    );
    report.discard();
    Ok(counts)
}

/// Makes calls of an engine with this script, and adds their answers and how many entries and
/// batches its report has.
fn add_run<R>(rt: &R, script: &Script, calls: &[Call], lines: &mut String) -> Result<(), Fail>
where
    R: Threads + Wait + RandomSource + AllocGlobal,
    requires limited { script.now.limit < 2 ^ 32 - 1 }
    requires pools { length script.now.pools ≤ 4 }
{
    let alloc = rt.alloc();
    let poller = Poller::new(rt)?;
    let keys = RandomState::new(rt)?;
    let mut engine = Engine::new(
        alloc,
        poller,
        keys,
        OneThread::new(alloc, 4, &PlainGate),
        script,
    )?;
    let added = add_answers(rt, &mut engine, calls, lines);
    let counts = counts(engine.finish(rt));
    added?;
    Ok(write!(lines, "{counts:?}\n")?)
}

/// The answers to calls, a line each, and how many entries and batches the report then has.
fn answers<R>(rt: &R, events: &str, calls: &[Call]) -> Result<String, Fail>
where
    R: Threads + Wait + RandomSource + AllocGlobal,
{
    let script = script(rt.alloc(), events)?;
    let mut lines = String::new(rt.alloc());
    let added = add_run(rt, &script, calls, &mut lines);
    script.discard();
    added?;
    Ok(lines)
}

#[test]
fn an_engine_waits_for_the_batch_of_each_drain_and_for_the_last(
    rt: HostRuntime,
) -> Result<(), Fail> {
    let lines = answers(
        &rt,
        r#"["note","one"],["drain",2],["callback","z",1]"#,
        &[
            Call::Drain(&[]),
            Call::Event,
            Call::Event,
            Call::Event,
            Call::Drain(&[(1, 0), (0, 0)]),
            Call::Drain(&[]),
            Call::Event,
            Call::Event,
            Call::Event,
            Call::Drain(&[(0, 1), (1, 1)]),
            Call::Event,
            Call::Drain(&[]),
        ],
    )?;
    assert_eq!(rt;
        lines.as_str(),
        "Err(NotNow)\nOk(Went)\nOk(Drain(2))\nErr(NotNow)\nOk(())\nErr(NotNow)\nOk(Went)\nOk(Ended)\nErr(NotNow)\nOk(())\nErr(NotNow)\nErr(NotNow)\nOk((7, 2))\n"
    );
    Ok(())
}

#[test]
fn an_engine_takes_no_post_of_a_stranger(rt: HostRuntime) -> Result<(), Fail> {
    let lines = answers(
        &rt,
        r#"["drain",2]"#,
        &[
            Call::Event,
            Call::Drain(&[(0, 1)]),
            Call::Drain(&[(0, 0), (0, 0)]),
            Call::Drain(&[(2, 0)]),
            Call::Drain(&[(0, 0), (1, 0), (0, 1)]),
            Call::Drain(&[(0, 0)]),
            Call::Event,
            Call::Drain(&[(0, 0)]),
            Call::Drain(&[(0, 1), (0, 2)]),
            Call::Drain(&[]),
        ],
    )?;
    assert_eq!(rt;
        lines.as_str(),
        "Ok(Drain(2))\nErr(Stranger)\nErr(Stranger)\nErr(Stranger)\nErr(Stranger)\nOk(())\nOk(Ended)\nErr(Stranger)\nErr(Stranger)\nOk(())\nOk((2, 2))\n"
    );
    Ok(())
}

#[test]
fn an_engine_that_has_not_ended_gives_no_report(rt: HostRuntime) -> Result<(), Fail> {
    let fresh = answers(&rt, r#"["drain",0]"#, &[])?;
    assert_eq!(rt; fresh.as_str(), "Err(NotNow)\n");
    let drained = [Call::Event, Call::Drain(&[]), Call::Event];
    let ended = answers(&rt, r#"["drain",0]"#, &drained)?;
    assert_eq!(rt;
        ended.as_str(),
        "Ok(Drain(0))\nOk(())\nOk(Ended)\nErr(NotNow)\n"
    );
    Ok(())
}
