ghost use Rattle.std.specs.Prelude.{◌≡◌, ◌++◌, IfOk, OnOk, map};
ghost use Rattle.dv_left.specs.Hanging.{by_records, hung_by, turn_held_by, task_held_by};
ghost use Rattle.dv_left.specs.Left.{standing_of, lock_of, queue_of};
ghost use Rattle.dv_left.specs.Linking.{with_links, with_hung, hung_beside, left_beside};
ghost use Rattle.dv_left.specs.Remains.{RemainsOf};
ghost use Rattle.dv_store.specs.Outcome.{outcome_of, state_of};

use crate::left::Left;
use crate::linking::Links;
use crate::telling::{
    Standing, add_calls, add_deferreds, add_locks, add_loops, add_queues, add_tasks, add_unhandled,
    id_of,
};
use dv_clock::call::Call;
use dv_journal::deferred_id::DeferredId;
use dv_journal::journal::Journal;
use dv_journal::state::State;
use dv_objects::canceller::Canceller;
use dv_objects::looping_call::LoopingCall;
use dv_objects::pair::Pair;
use dv_objects::task::Task;
use dv_prims::queue::{Queue, QueueParts};
use dv_prims::semaphore::{Semaphore, SemaphoreParts};
use dv_store::outcome::Outcome;
use dv_store::record::{Item, Record};
use dv_value::deque::Deque;
use dv_value::items::Items;
use dv_value::value::Value;
use dv_world::world::{Parts, World};
use std::alloc::{AllocError, Global};

/// What a world results in at its end.
#[derive(Drop)]
pub struct Remains {
    pub journal: Journal,
    /// Whether the run stopped: at an entry that didn't fit into the journal, or at a Deferred that
    /// wasn't as the script expects.
    pub stopped: bool,
    /// What became of each Deferred, in order of making.
    pub outcomes: Items<Outcome>,
    /// What is left: first of the Deferreds, then on the clock, loops, tasks, locks, queues, and
    /// what was unhandled; each in order of making.
    pub left: Items<Left>,
}

/// Returns what a world results in. AllocError when out of memory.
pub fn remains_of<'s>(alloc: Global, world: World<'s>) -> Result<Remains, AllocError>
    ensures { IfOk result (RemainsOf world.entry) }
{
    let Parts {
        journal,
        stopped,
        records,
        semaphores,
        queues,
        calls,
        loops,
        tasks,
        inlines: _,
    } = world.into_all();
    let mut links = Links::new(alloc, records.len(), loops.len(), tasks.len())?;
    let (outcomes, standings) = standings_of(alloc, &mut links, records)?;
    let locks = locks_of(alloc, semaphores)?;
    let queues = queues_of(alloc, queues)?;
    link_rest(
        &mut links,
        locks.as_slice(),
        queues.as_slice(),
        calls.as_slice(),
        loops.as_slice(),
        tasks.as_slice(),
    )?;
    let mut left = Items::new(alloc);
    add_deferreds(alloc, &mut left, standings.as_slice(), &links.deferreds)?;
    add_rest(
        alloc,
        &mut left,
        &links,
        calls.as_slice(),
        loops.as_slice(),
        tasks.as_slice(),
        locks.as_slice(),
        queues,
    )?;
    add_unhandled(&mut left, journal.entries())?;
    Ok(Remains {
        journal,
        stopped,
        outcomes,
        left,
    })
}

/// The Deferreds that hang at something else than Deferreds.
#[tactic(auto, using(crate::proofs::RecordsLemmas::hung_both))]
fn link_rest<'s>(
    links: &mut Links,
    locks: &[SemaphoreParts],
    queues: &[QueueParts],
    calls: &[Call],
    loops: &[LoopingCall<'s>],
    tasks: &[Task<'s>],
) -> Result<(), AllocError>
    ensures { OnOk result (links.new
        ≡ with_hung (hung_beside locks.now queues.now calls.now loops.now tasks.now) links.old) }
{
    links.add_locks(locks)?;
    links.add_queues(queues)?;
    links.add_calls(calls)?;
    links.add_loops(loops)?;
    links.add_tasks(tasks)
}

/// What is left of all but Deferreds and the journal.
fn add_rest<'s>(
    alloc: Global,
    left: &mut Items<Left>,
    links: &Links,
    calls: &[Call],
    loops: &[LoopingCall<'s>],
    tasks: &[Task<'s>],
    locks: &[SemaphoreParts],
    queues: Vec<QueueParts>,
) -> Result<(), AllocError>
    ensures { OnOk result (left.new
        ≡ left.old ++ left_beside links.now calls.now loops.now tasks.now locks.now queues.items) }
{
    add_calls(alloc, left, calls)?;
    add_loops(alloc, left, loops, calls, &links.loops)?;
    add_tasks(alloc, left, tasks, &links.tasks)?;
    add_locks(alloc, left, locks)?;
    add_queues(left, Deque::of(queues))
}

fn standings_of<'s>(
    alloc: Global,
    links: &mut Links,
    records: Vec<Record<Pair<'s>, Canceller<'s>>>,
) -> Result<(Items<Outcome>, Items<Standing>), AllocError>
    ensures outcomes { IfOk result (λ both. both.0 ≡ map outcome_of records.entry.items) }
    ensures standings { IfOk result (λ both. both.1 ≡ map standing_of records.entry.items) }
    ensures links { OnOk result (links.new ≡ with_links (by_records hung_by 0 records.entry.items)
        (by_records turn_held_by 0 records.entry.items)
        (by_records task_held_by 0 records.entry.items) links.old) }
{
    let mut outcomes = Items::new(alloc);
    let mut standings = Items::new(alloc);
    for record in records {
        let id = id_of(outcomes.as_slice().len())?;
        standings.push(standing_of(&record))?;
        let (outcome, items) = parted(alloc, record);
        outcomes.push(outcome)?;
        links.add_items(id, items)?;
    }
    Ok((outcomes, standings))
}

fn standing_of<'s>(record: &Record<Pair<'s>, Canceller<'s>>) -> Standing
    ensures { result ≡ standing_of record.now }
{
    Standing {
        fired: record.fired,
        running: record.running,
        pauses: record.pauses,
        waits_for: record.waits_for,
        failed: record.value.is_fault(),
    }
}

/// What has become of a Deferred, and what it hasn't used.
fn parted<'s>(
    alloc: Global,
    record: Record<Pair<'s>, Canceller<'s>>,
) -> (Outcome, Deque<Item<Pair<'s>>>)
    ensures outcome { result.0 ≡ outcome_of record.entry }
    ensures items { result.1 ≡ record.entry.items }
{
    let Record {
        name,
        fired,
        value,
        items,
        pauses,
        waits_for,
        running: _,
        swallows: _,
        canceller: _,
    } = record;
    let outcome = Outcome {
        name,
        pauses,
        state: state_of(fired, waits_for, value),
    };
    (outcome, items.into_deque(alloc))
}

/// Unfired, or waiting for another, or fired with a value.
fn state_of(fired: bool, waits_for: Option<DeferredId>, value: Value) -> State
    ensures { result ≡ state_of fired waits_for value }
{
    if !fired {
        return State::Unfired;
    }
    match waits_for {
        Some(id) => State::Waiting(id),
        None => State::Fired(value),
    }
}

fn locks_of(alloc: Global, semaphores: Vec<Semaphore>) -> Result<Vec<SemaphoreParts>, AllocError>
    ensures { IfOk result (λ locks. locks.items ≡ map lock_of semaphores.items) }
{
    let mut locks = Vec::new(alloc);
    for semaphore in semaphores {
        locks.push(semaphore.into_parts()?)?;
    }
    Ok(locks)
}

fn queues_of(alloc: Global, queues: Vec<Queue>) -> Result<Vec<QueueParts>, AllocError>
    ensures { IfOk result (λ parts. parts.items ≡ map queue_of queues.items) }
{
    let mut parts = Vec::new(alloc);
    for queue in queues {
        parts.push(queue.into_parts()?)?;
    }
    Ok(parts)
}
