ghost use Rattle.std.specs.Prelude.{ℕ, ◌≡◌, ◌++◌, [], IfOk, IsFalse, IsTrue, OnOk};
ghost use Rattle.dv_posts.specs.Batches.{AreComplete, joined, posts_of};
ghost use Rattle.dv_engine.specs.Engine.{first_engine};
ghost use Rattle.dv_engine.specs.declared.engine.Phase.TheVariants.{Draining, Ended, Going, Over};
ghost use Rattle.dv_posts.specs.Callers.{AllServe, TookBatches};
ghost use Rattle.dv_run.specs.Driving.{Agree, HasDrained, HasPerformed, HasStranger, HasTakenAll};
ghost use Rattle.dv_run.specs.Headline.{IsRun};
ghost use Rattle.dv_posts.specs.Posts.{SameInbox, of};

use dv_engine::engine::{Engine, Next};
use dv_engine::error::EngineFault;
use dv_engine::report::Report;
use dv_jobs::source::JobSource;
use dv_posts::callers::{Caller, end, take_up_to};
use dv_posts::inbox::Inbox;
use dv_posts::posted::Posted;
use dv_script::body::Body;
use dv_value::items::Items;
use std::alloc::{AllocError, AllocGlobal, Global};
use std::random::RandomSource;
use std::sync::Wait;
use std::thread::Threads;

/// What is kept of a run: what is noted of an engine while it performs its script, and what is made
/// of it at its end.
pub trait Driver {
    /// What is noted meanwhile.
    type Notes: Drop;

    /// What is kept of the run.
    type End: Drop;

    ghost use Rattle.std.specs.Prelude.{List};
    ghost use Rattle.dv_posts.specs.Batches.{Batch};
    ghost use Rattle.dv_script.specs.declared.script.Script.{Script};

    /// What is known of that, by the script.
    ghost ends: { Script → Self.End → Type 0 };

    /// The batches that the run took, by that.
    ghost took: { Self.End → List Batch };

    /// Nothing is noted.
    fn start(&self, alloc: Global) -> Self::Notes;

    /// Notes how many entries there are before the next event, or before the last batch. AllocError
    /// when out of memory.
    fn note(&self, notes: &mut Self::Notes, logged: usize) -> Result<(), AllocError>;

    /// Keeps what an engine has that has taken all posts. AllocError when out of memory.
    fn keep<'s, R, J>(
        &self,
        rt: &R,
        alloc: Global,
        engine: Engine<'s, J>,
        notes: Self::Notes,
    ) -> Result<Self::End, AllocError>
    where
        R: Threads + Wait,
        J: JobSource,
        requires over { engine.phase ≡ Over }
        requires complete { AreComplete engine.script engine.batches }
        ensures ends { IfOk result (ends engine.entry.script) }
        ensures took { IfOk result (λ end. took end ≡ engine.entry.batches) };
}

/// Keeps the report of a run.
pub struct Reporting;

impl Driver for Reporting {
    type Notes = ();

    type End = Report;

    ghost ends = { IsRun };

    ghost took = { λ report. report.batches };

    fn start(&self, _alloc: Global) {}

    fn note(&self, _notes: &mut (), _logged: usize) -> Result<(), AllocError> {
        Ok(())
    }

    fn keep<'s, R, J>(
        &self,
        rt: &R,
        _alloc: Global,
        engine: Engine<'s, J>,
        _notes: (),
    ) -> Result<Report, AllocError>
    where
        R: Threads + Wait,
        J: JobSource,
    {
        match engine.finish(rt) {
            Ok(report) => Ok(report),
            Err(EngineFault::OutOfMemory) => Err(AllocError),
            Err(EngineFault::NotNow | EngineFault::Stranger) => unreachable!(),
        }
    }
}

/// Has an engine perform its script, of whose callers these are the bodies, while they post: at
/// each drain it takes what is there, up to as many as that takes, and after the last event, when
/// the callers have ended, what is left. AllocError when out of memory.
pub fn drive<'s, R, J, D>(
    rt: &R,
    alloc: Global,
    engine: Engine<'s, J>,
    bodies: &[Items<Body>],
    inbox: Inbox,
    callers: Vec<Caller>,
    driver: &D,
) -> Result<D::End, AllocError>
where
    R: Threads + Wait + RandomSource + AllocGlobal,
    J: JobSource,
    D: Driver,
    requires first { engine ≡ first_engine engine.script }
    requires bodies { bodies.now ≡ engine.script.callers }
    requires serve { AllServe bodies.now inbox callers.items }
    requires untaken { TookBatches inbox [] }
    ensures { IfOk result (D.ends engine.entry.script) }
{
    let mut engine = engine;
    let mut inbox = inbox;
    let mut notes = driver.start(alloc);
    let Ok(is_lawful) = perform_events(rt, alloc, driver, &mut engine, &mut inbox, &mut notes)
    else {
        engine.discard();
        return Err(AllocError);
    };
    let Ok(rest) = end(rt, alloc, bodies, inbox, callers) else {
        engine.discard();
        return Err(AllocError);
    };
    if !is_lawful {
        // Now that the callers have ended, it is known that no post was a stranger.
        unreachable!()
    }
    finish(rt, alloc, driver, engine, rest, notes)
}

/// Performs all events, with what is there at each drain. Answers whether all posts that were taken
/// are next posts of their callers; where not, it ends there.
fn perform_events<'s, R, J, D>(
    rt: &R,
    alloc: Global,
    driver: &D,
    engine: &mut Engine<'s, J>,
    inbox: &mut Inbox,
    notes: &mut D::Notes,
) -> Result<bool, AllocError>
where
    R: Wait + RandomSource + AllocGlobal,
    J: JobSource,
    D: Driver,
    requires going { engine.old.phase ≡ Going }
    requires agree { Agree engine.old inbox.old }
    ensures same { SameInbox inbox.old inbox.new }
    ensures yes { IfOk result (λ lawful. IsTrue lawful
        → HasPerformed engine.old engine.new inbox.new) }
    ensures no { IfOk result (λ lawful. IsFalse lawful
        → HasStranger engine.old.script.callers inbox.new) }
{
    loop {
        driver.note(notes, engine.entries_logged())?;
        match engine.event(rt) {
            Ok(Next::Went) => {}
            Ok(Next::Drain(most)) => {
                if !drain(rt, alloc, engine, inbox, most)? {
                    return Ok(false);
                }
            }
            Ok(Next::Ended) => return Ok(true),
            Err(EngineFault::OutOfMemory) => return Err(AllocError),
            Err(EngineFault::NotNow | EngineFault::Stranger) => unreachable!(),
        }
    }
}

/// Has an engine take what is there at a drain. Answers whether each post is the next one of its
/// caller; where not, the engine takes none.
fn drain<'s, R, J>(
    rt: &R,
    alloc: Global,
    engine: &mut Engine<'s, J>,
    inbox: &mut Inbox,
    most: u32,
) -> Result<bool, AllocError>
where
    R: Wait + RandomSource + AllocGlobal,
    J: JobSource,
    requires draining { engine.old.phase ≡ Draining most }
    requires agree { Agree engine.old inbox.old }
    ensures same { SameInbox inbox.old inbox.new }
    ensures yes { IfOk result (λ lawful. IsTrue lawful
        → HasDrained engine.old engine.new inbox.new) }
    ensures no { IfOk result (λ lawful. IsFalse lawful
        → HasStranger engine.old.script.callers inbox.new) }
{
    let batch = take_up_to(alloc, inbox, most)?;
    match engine.run_batch(rt, batch) {
        Ok(()) => Ok(true),
        Err(EngineFault::Stranger) => Ok(false),
        Err(EngineFault::OutOfMemory) => Err(AllocError),
        Err(EngineFault::NotNow) => unreachable!(),
    }
}

/// Has an engine take the last batch, with which it has taken all posts.
fn take_rest<'s, R, J>(
    rt: &R,
    engine: &mut Engine<'s, J>,
    rest: Items<Posted>,
) -> Result<(), AllocError>
where
    R: Wait + RandomSource + AllocGlobal,
    J: JobSource,
    requires ended { engine.old.phase ≡ Ended }
    requires all { (c : ℕ)
        → of c (joined engine.old.batches ++ rest) ≡ posts_of engine.old.script.callers c }
    ensures { OnOk result (HasTakenAll engine.old engine.new) }
{
    match engine.run_batch(rt, rest) {
        Ok(()) => Ok(()),
        Err(EngineFault::OutOfMemory) => Err(AllocError),
        Err(EngineFault::NotNow) => unreachable!(),
        Err(EngineFault::Stranger) => unreachable!(),
    }
}

/// Has an engine take the last batch, and keeps what is kept of it.
fn finish<'s, R, J, D>(
    rt: &R,
    alloc: Global,
    driver: &D,
    engine: Engine<'s, J>,
    rest: Items<Posted>,
    notes: D::Notes,
) -> Result<D::End, AllocError>
where
    R: Threads + Wait + RandomSource + AllocGlobal,
    J: JobSource,
    D: Driver,
    requires ended { engine.phase ≡ Ended }
    requires all { (c : ℕ)
        → of c (joined engine.batches ++ rest) ≡ posts_of engine.script.callers c }
    ensures { IfOk result (D.ends engine.entry.script) }
{
    let mut engine = engine;
    let Ok(()) = take_rest(rt, &mut engine, rest) else {
        engine.discard();
        return Err(AllocError);
    };
    driver.keep(rt, alloc, engine, notes)
}
