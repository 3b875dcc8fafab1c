ghost use Rattle.std.specs.Prelude.{◌≤◌};

use super::gates::{Counting, Holding, Noting};
use super::runs::{fault_of, run_text};
use dv_jobs::gate::OWNER;
use dv_journal::entry::Entry;
use dv_run::RunFault;
use std::alloc::{AllocError, AllocGlobal, Global};
use std::random::RandomSource;
use std::sync::Wait;
use std::sync::atomic::Ordering;
use std::test::Fail;
use std::thread::Threads;

/// Runs a script whose jobs hold each other, so many at a time: the worker that answered one of
/// them last, and how many were held in vain.
fn worker_of<S>(rt: &S, script: &str, workers: u32, jobs: u32) -> Result<(u32, u32), Fail>
where
    S: Threads + Wait + RandomSource + AllocGlobal + Sync,
    requires { workers ≤ 16 }
{
    let gate = Holding::new(jobs);
    let (_, report) = run_text(rt, script, workers, &gate)?;
    report.discard();
    Ok((
        gate.worker.load(Ordering::SeqCst),
        gate.alone.load(Ordering::SeqCst),
    ))
}

/// Three jobs, for whose results the run waits.
const THREE: &str =
    r#"{"version":1,"events":[["thread","a",0,["sum",4]],["thread","b",0,["sum",9]],["thread","c",0,["sum",2]],["advance",0]]}"#;

/// Three jobs of a pool of two workers.
const THREE_OF_TWO: &str =
    r#"{"version":2,"pools":[["io",2]],"events":[["threadIn","a","io",0,["sum",4]],["threadIn","b","io",0,["sum",9]],["threadIn","c","io",0,["sum",2]],["advance",0]]}"#;

/// Three jobs of a pool without workers.
const THREE_OF_NONE: &str =
    r#"{"version":2,"pools":[["io",0]],"events":[["threadIn","a","io",0,["sum",4]],["threadIn","b","io",0,["sum",9]],["threadIn","c","io",0,["sum",2]],["advance",0]]}"#;

#[test]
fn two_workers_answer_side_by_side(rt: HostRuntime) -> Result<(), Fail> {
    // The owner, which helps where it waits, holds the third job.
    let (_, alone) = worker_of(&rt, THREE, 2, 3)?;
    let (_, alone_of_io) = worker_of(&rt, THREE_OF_TWO, 0, 3)?;
    assert_eq!(rt; (alone, alone_of_io), (0, 0));
    Ok(())
}

#[test]
fn without_workers_the_owner_answers_each_job(rt: HostRuntime) -> Result<(), Fail> {
    let plain = worker_of(&rt, THREE, 0, 1)?;
    let named = worker_of(&rt, THREE_OF_NONE, 0, 1)?;
    // A pool without workers has none of the others' either.
    let beside_two = worker_of(&rt, THREE_OF_NONE, 2, 1)?;
    assert_eq!(rt;
        (plain, named, beside_two),
        ((OWNER, 0), (OWNER, 0), (OWNER, 0))
    );
    Ok(())
}

/// Two jobs of the first pool, and two of the second.
const TWO_OF_IO: &str =
    r#"{"version":2,"pools":[["io",1],["net",1]],"events":[["threadIn","a","io",0,["sum",4]],["threadIn","b","io",0,["sum",9]],["advance",0]]}"#;

const TWO_OF_NET: &str =
    r#"{"version":2,"pools":[["io",1],["net",1]],"events":[["threadIn","a","net",0,["sum",4]],["threadIn","b","net",0,["sum",9]],["advance",0]]}"#;

#[test]
fn jobs_of_a_script_are_done_by_the_pool_of_their_name(rt: HostRuntime) -> Result<(), Fail> {
    // One job is held by the only worker of the pool, and the other by the owner.
    let io = worker_of(&rt, TWO_OF_IO, 0, 2)?;
    let net = worker_of(&rt, TWO_OF_NET, 0, 2)?;
    assert_eq!(rt; (io, net), ((1, 0), (2, 0)));
    Ok(())
}

/// A script of two pools that has this event so many times, and then another one.
fn repeated(alloc: Global, times: u32, event: &str, last: &str) -> Result<String, AllocError> {
    let mut text = String::from_str(
        alloc,
        r#"{"version":2,"limit":200000,"pools":[["io",1],["net",1]],"events":["#,
    )?;
    for _ in 0..times {
        text.push_str(event)?;
    }
    text.push_str(last)?;
    text.push_str("]}")?;
    Ok(text)
}

/// A job of each of the two pools.
const ONE_OF_EACH: &str =
    r#"["threadIn","a","io",0,["value",0]],["threadIn","b","net",0,["value",0]],"#;

#[test]
fn no_job_of_a_pool_is_answered_by_a_worker_of_another(rt: HostRuntime) -> Result<(), Fail> {
    let text = repeated(rt.alloc(), 1_000, ONE_OF_EACH, r#"["note","end"]"#)?;
    let gate = Noting::new(rt.alloc(), 2_000)?;
    let (_, report) = run_text(&rt, text.as_str(), 0, &gate)?;
    let done = report.ran.dones().len();
    report.discard();
    // The jobs of `io` have the even numbers, and its worker is 1; those of `net` the odd ones, and
    // its worker is 2.
    assert_eq!(rt;
        (done, gate.is_none_of(0, 2), gate.is_none_of(1, 1)),
        (2_000, true, true)
    );
    Ok(())
}

/// A job.
const JOB: &str = r#"["thread","d",0,["value",0]],"#;

#[test]
fn each_job_of_a_run_reaches_its_gate_once_and_one_more_raises(
    rt: HostRuntime,
) -> Result<(), Fail> {
    let text = repeated(rt.alloc(), 4_096, JOB, r#"["thread","d",0,["value",0]]"#)?;
    let gate = Counting::new(rt.alloc(), 4_096, false)?;
    let (_, report) = run_text(&rt, text.as_str(), 2, &gate)?;
    let raised = match report.journal.entries().last() {
        Some(Entry::Unhandled(failure)) => failure.get().message.as_str() == "too many jobs",
        Some(_) | None => false,
    };
    let done = report.ran.dones().len();
    report.discard();
    assert_eq!(rt;
        (raised, done, gate.have_all_come_once()),
        (true, 4_096, true)
    );
    Ok(())
}

#[test]
fn a_run_is_out_of_memory_where_a_job_is_given_back_and_the_workers_leave(
    rt: HostRuntime,
) -> Result<(), Fail> {
    // The run ends where it waits for the first job. Then it drops the pool, in which others wait
    // for the workers.
    let text = repeated(rt.alloc(), 4_096, JOB, r#"["advance",0]"#)?;
    let gate = Counting::new(rt.alloc(), 4_096, true)?;
    let fault = fault_of(&rt, text.as_str(), 16, &gate)?;
    assert_eq!(rt;
        (fault, gate.has_any_come_again()),
        (Some(RunFault::OutOfMemory), false)
    );
    Ok(())
}
