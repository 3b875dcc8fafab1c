//! What is left, object by object.

ghost use Rattle.std.specs.Prelude.{◌≡◌, ◌++◌, IfOk, OnOk};
ghost use Rattle.std.specs.Option.{option_and_then};
ghost use Rattle.dv_clock.specs.Clock.{due_of};
ghost use Rattle.dv_left.specs.Left.{stage_of, is_settled, has_failed, hangs_of, left_deferred};
ghost use Rattle.dv_left.specs.Left.{left_deferreds, left_call, left_calls, next_turn, left_loop};
ghost use Rattle.dv_left.specs.Left.{left_loops, left_task, left_tasks, left_tokens, left_locks};
ghost use Rattle.dv_left.specs.Left.{left_queue, left_queues, left_entry, left_unhandled};
ghost use Rattle.dv_left.specs.Lists.{list_at};

use crate::left::{Hang, Left, LeftDeferred, LeftLoop, LeftTask, LeftTokens, Stage};
use crate::linking::Links;
use crate::lists::Lists;
use dv_clock::call::{Call, CallState};
use dv_clock::call_id::CallId;
use dv_clock::due::Due;
use dv_journal::deferred_id::DeferredId;
use dv_journal::entry::Entry;
use dv_objects::looping_call::LoopingCall;
use dv_objects::task::Task;
use dv_prims::queue::QueueParts;
use dv_prims::semaphore::SemaphoreParts;
use dv_value::deque::Deque;
use dv_value::items::Items;
use std::alloc::{AllocError, Global};

/// What is known of a Deferred at the end, but for its outcome and what it hasn't used.
#[derive(Clone, Copy, Debug, PartialEq, Eq)]
pub struct Standing {
    pub fired: bool,
    pub running: bool,
    pub pauses: u32,
    pub waits_for: Option<DeferredId>,
    /// Whether its value is a failure.
    pub failed: bool,
}

fn copied<T: Copy + Drop>(alloc: Global, items: &[T]) -> Result<Items<T>, AllocError>
    ensures { IfOk result (λ copy. copy ≡ items.now) }
{
    let mut copy = Items::new(alloc);
    for item in items {
        copy.push(*item)?;
    }
    Ok(copy)
}

/// The number of a Deferred. AllocError where it has more than 32 bits.
pub fn id_of(number: usize) -> Result<DeferredId, AllocError>
    ensures { IfOk result (λ id. id ≡ number) }
{
    match u32::try_from(number) {
        Ok(number) => Ok(DeferredId::new(number)),
        Err(_) => Err(AllocError),
    }
}

impl Standing {
    fn stage(&self) -> Stage
        ensures { result ≡ stage_of self.now }
    {
        if !self.fired {
            return Stage::Unfired;
        }
        match self.waits_for {
            None => Stage::Fired,
            Some(_) => Stage::Waiting,
        }
    }

    fn is_settled(&self) -> bool
        ensures { result ≡ is_settled self.now }
    {
        self.fired && self.waits_for.is_none() && self.pauses == 0 && !self.running
    }

    fn has_failed(&self) -> bool
        ensures { result ≡ has_failed self.now }
    {
        self.fired && self.waits_for.is_none() && self.failed
    }

    fn hangs(&self, alloc: Global, unfired: &[Hang]) -> Result<Items<Hang>, AllocError>
        ensures { IfOk result (λ hangs. hangs ≡ hangs_of unfired.now self.now) }
    {
        if !self.fired {
            return copied(alloc, unfired);
        }
        let mut hangs = Items::new(alloc);
        if let Some(id) = self.waits_for {
            hangs.push(Hang::Waits(id))?;
        }
        Ok(hangs)
    }
}

/// What is left of the Deferreds.
pub fn add_deferreds(
    alloc: Global,
    left: &mut Items<Left>,
    standings: &[Standing],
    hangs: &Lists<Hang>,
) -> Result<(), AllocError>
    ensures { OnOk result
        (left.new ≡ left.old ++ left_deferreds (λ d. list_at d hangs.now) 0 standings.now) }
{
    for (number, standing) in standings.iter().enumerate() {
        let id = id_of(number)?;
        add_deferred(alloc, left, id, standing, hangs.at(number))?;
    }
    Ok(())
}

fn add_deferred(
    alloc: Global,
    left: &mut Items<Left>,
    id: DeferredId,
    standing: &Standing,
    unfired: &[Hang],
) -> Result<(), AllocError>
    ensures { OnOk result (left.new ≡ left.old ++ left_deferred id unfired.now standing.now) }
{
    if !standing.is_settled() {
        let hangs = standing.hangs(alloc, unfired)?;
        left.push(Left::Deferred(LeftDeferred {
            id,
            stage: standing.stage(),
            pauses: standing.pauses,
            running: standing.running,
            hangs,
        }))?;
    }
    if standing.has_failed() {
        left.push(Left::Failure(id))?;
    }
    Ok(())
}

/// What is left on the clock, but for turns of loops.
pub fn add_calls(alloc: Global, left: &mut Items<Left>, calls: &[Call]) -> Result<(), AllocError>
    ensures { OnOk result (left.new ≡ left.old ++ left_calls calls.now) }
{
    for call in calls {
        add_call(alloc, left, call)?;
    }
    Ok(())
}

fn add_call(alloc: Global, left: &mut Items<Left>, call: &Call) -> Result<(), AllocError>
    ensures { OnOk result (left.new ≡ left.old ++ left_call call.now.due call.now.state) }
{
    match &call.state {
        CallState::Waiting(Due::Call(_, number)) => left.push(Left::Call(*number, call.due)),
        CallState::Waiting(Due::Tick) => left.push(Left::Tick(call.due)),
        CallState::Waiting(Due::TickIn(name, _)) => {
            left.push(Left::TickIn(name.copy(alloc)?, call.due))
        }
        CallState::Waiting(Due::Delivery(job, id)) => {
            left.push(Left::Delivery(*job, DeferredId::new(*id), call.due))
        }
        CallState::Waiting(Due::Timeout(id)) => left.push(Left::Timeout(*id, call.due)),
        CallState::Waiting(Due::Turn(_, _))
        | CallState::Called
        | CallState::Cancelled
        | CallState::Dropped => Ok(()),
    }
}

/// When a call is due that waits.
fn due_of(calls: &[Call], id: CallId) -> Option<u64>
    ensures { result ≡ due_of id calls.now }
{
    let call = calls.get(id.number())?;
    match &call.state {
        CallState::Waiting(_) => Some(call.due),
        CallState::Called | CallState::Cancelled | CallState::Dropped => None,
    }
}

/// The loops that go on.
pub fn add_loops<'s>(
    alloc: Global,
    left: &mut Items<Left>,
    loops: &[LoopingCall<'s>],
    calls: &[Call],
    waits: &Lists<DeferredId>,
) -> Result<(), AllocError>
    ensures { OnOk result
        (left.new ≡ left.old ++ left_loops (λ l. list_at l waits.now) calls.now 0 loops.now) }
{
    for (number, turning) in loops.iter().enumerate() {
        add_loop(alloc, left, number, turning, calls, waits.at(number))?;
    }
    Ok(())
}

fn add_loop<'s>(
    alloc: Global,
    left: &mut Items<Left>,
    number: usize,
    turning: &LoopingCall<'s>,
    calls: &[Call],
    waits: &[DeferredId],
) -> Result<(), AllocError>
    ensures { OnOk result
        (left.new ≡ left.old ++ left_loop number calls.now waits.now turning.now) }
{
    if !turning.running {
        return Ok(());
    }
    let due = match turning.turn {
        None => None,
        Some(id) => due_of(calls, id),
    };
    left.push(Left::Loop(LeftLoop {
        number,
        of: turning.of,
        due,
        waits_for: copied(alloc, waits)?,
    }))
}

/// The tasks that haven't ended.
pub fn add_tasks<'s>(
    alloc: Global,
    left: &mut Items<Left>,
    tasks: &[Task<'s>],
    waits: &Lists<DeferredId>,
) -> Result<(), AllocError>
    ensures { OnOk result
        (left.new ≡ left.old ++ left_tasks (λ t. list_at t waits.now) 0 tasks.now) }
{
    for (number, task) in tasks.iter().enumerate() {
        add_task(alloc, left, number, task, waits.at(number))?;
    }
    Ok(())
}

fn add_task<'s>(
    alloc: Global,
    left: &mut Items<Left>,
    number: usize,
    task: &Task<'s>,
    waits: &[DeferredId],
) -> Result<(), AllocError>
    ensures { OnOk result (left.new ≡ left.old ++ left_task number waits.now task.now) }
{
    if task.end.is_some() {
        return Ok(());
    }
    left.push(Left::Task(LeftTask {
        number,
        pauses: task.pauses,
        bodies: task.bodies.get().len(),
        waits_for: copied(alloc, waits)?,
    }))
}

/// The locks of which tokens are given.
pub fn add_locks(
    alloc: Global,
    left: &mut Items<Left>,
    locks: &[SemaphoreParts],
) -> Result<(), AllocError>
    ensures { OnOk result (left.new ≡ left.old ++ left_locks 0 locks.now) }
{
    for (number, lock) in locks.iter().enumerate() {
        add_lock(alloc, left, number, lock)?;
    }
    Ok(())
}

fn add_lock(
    alloc: Global,
    left: &mut Items<Left>,
    number: usize,
    lock: &SemaphoreParts,
) -> Result<(), AllocError>
    ensures { OnOk result (left.new ≡ left.old ++ left_tokens number lock.now) }
{
    if lock.given == 0 {
        return Ok(());
    }
    left.push(Left::Tokens(LeftTokens {
        number,
        given: lock.given,
        tokens: lock.tokens,
        waiting: copied(alloc, lock.waiting.as_slice())?,
    }))
}

/// The queues on which somebody waits, or with values.
pub fn add_queues(left: &mut Items<Left>, queues: Deque<QueueParts>) -> Result<(), AllocError>
    ensures { OnOk result (left.new ≡ left.old ++ left_queues 0 queues) }
{
    let mut further = queues;
    for number in 0..further.len() {
        let Some(queue) = further.pop_front() else {
            return Ok(());
        };
        add_queue(left, number, queue)?;
    }
    Ok(())
}

fn add_queue(left: &mut Items<Left>, number: usize, queue: QueueParts) -> Result<(), AllocError>
    ensures { OnOk result (left.new ≡ left.old ++ left_queue number queue) }
{
    let QueueParts {
        name: _,
        stored,
        waiting,
    } = queue;
    if !waiting.as_slice().is_empty() {
        left.push(Left::Getters(number, waiting))?;
    }
    if !stored.is_empty() {
        left.push(Left::Values(number, stored))?;
    }
    Ok(())
}

/// Adds the failures that were logged as unhandled.
pub fn add_unhandled(left: &mut Items<Left>, entries: &[Entry]) -> Result<(), AllocError>
    ensures { OnOk result (left.new ≡ left.old ++ left_unhandled 0 entries.now) }
{
    for (place, entry) in entries.iter().enumerate() {
        add_entry(left, place, entry)?;
    }
    Ok(())
}

fn add_entry(left: &mut Items<Left>, place: usize, entry: &Entry) -> Result<(), AllocError>
    ensures { OnOk result (left.new ≡ left.old ++ left_entry place entry.now) }
{
    if entry.is_unhandled() {
        left.push(Left::Unhandled(place))?;
    }
    Ok(())
}
