//! An engine performs its script, and takes the batches that are given.

ghost use Rattle.std.specs.Prelude.{◌≡◌, ◌<◌, [], length, slice_index_or, take, IfOk, OnOk};
ghost use Rattle.dv_engine.specs.Engine.{IsWithin, first_engine};
ghost use Rattle.dv_orders.specs.Listed.{AreOrder};
ghost use Rattle.dv_posts.specs.Batches.{AreNext, joined};
ghost use Rattle.dv_replay.specs.Replay.{HasTakenAll, HasTakenOne};

use dv_engine::engine::{Engine, Next};
use dv_engine::error::EngineFault;
use dv_jobs::source::JobSource;
use dv_posts::posted::{Posted, copy_of_batch};
use dv_run::driving::Driver;
use dv_value::items::Items;
use std::alloc::{AllocError, AllocGlobal, Global};
use std::random::RandomSource;
use std::sync::Wait;
use std::thread::Threads;

/// Has an engine perform its script, and take one of these batches at each drain and the last one
/// at the end.
#[tactic(auto, using(crate::proofs::TakingLemmas::all_complete))]
pub fn drive<'s, R, J, D>(
    rt: &R,
    alloc: Global,
    engine: Engine<'s, J>,
    batches: &[Items<Posted>],
    driver: &D,
) -> Result<D::End, AllocError>
where
    R: Threads + Wait + RandomSource + AllocGlobal,
    J: JobSource,
    D: Driver,
    requires first { engine ≡ first_engine engine.script }
    requires order { AreOrder engine.script batches.now }
    ensures ends { IfOk result (D.ends engine.entry.script) }
    ensures took { IfOk result (λ end. D.took end ≡ batches.now) }
{
    let mut engine = engine;
    let mut notes = driver.start(alloc);
    let Ok(()) = take_all(rt, alloc, driver, &mut engine, batches, &mut notes) else {
        engine.discard();
        return Err(AllocError);
    };
    driver.keep(rt, alloc, engine, notes)
}

/// Performs all events, with these batches.
#[tactic(auto, using(crate::proofs::TakingLemmas::taking))]
fn take_all<'s, R, J, D>(
    rt: &R,
    alloc: Global,
    driver: &D,
    engine: &mut Engine<'s, J>,
    batches: &[Items<Posted>],
    notes: &mut D::Notes,
) -> Result<(), AllocError>
where
    R: Wait + RandomSource + AllocGlobal,
    J: JobSource,
    D: Driver,
    requires first { engine.old ≡ first_engine engine.old.script }
    requires order { AreOrder engine.old.script batches.now }
    ensures { OnOk result (HasTakenAll engine.old engine.new batches.now) }
{
    let mut taken = 0_usize;
    loop {
        driver.note(notes, engine.entries_logged())?;
        match engine.event(rt) {
            Ok(Next::Went) => {}
            Ok(Next::Drain(_)) => {
                take_one(rt, alloc, engine, batches, taken)?;
                taken += 1;
            }
            Ok(Next::Ended) => return take_one(rt, alloc, engine, batches, taken),
            Err(EngineFault::OutOfMemory) => return Err(AllocError),
            Err(EngineFault::NotNow | EngineFault::Stranger) => unreachable!(),
        }
    }
}

/// Has an engine take the batch of this number, which it waits for.
#[tactic(auto, using(crate::proofs::TakingLemmas::one_is_waited_for))]
fn take_one<'s, R, J>(
    rt: &R,
    alloc: Global,
    engine: &mut Engine<'s, J>,
    batches: &[Items<Posted>],
    number: usize,
) -> Result<(), AllocError>
where
    R: Wait + RandomSource + AllocGlobal,
    J: JobSource,
    requires there { number < length batches.now }
    requires before { engine.old.batches ≡ take number batches.now }
    requires waits { IsWithin engine.old.phase (slice_index_or batches.now number []) }
    requires next { AreNext engine.old.script.callers (joined batches.now) }
    ensures { OnOk result (HasTakenOne engine.old engine.new batches.now number) }
{
    let batch = copy_of_batch(alloc, batches[number].as_slice())?;
    match engine.run_batch(rt, batch) {
        Ok(()) => Ok(()),
        Err(EngineFault::OutOfMemory) => Err(AllocError),
        Err(EngineFault::NotNow) => unreachable!(),
        Err(EngineFault::Stranger) => unreachable!(),
    }
}
