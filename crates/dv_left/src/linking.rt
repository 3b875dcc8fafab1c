//! Which Deferreds hang at what, list by list.

ghost use Rattle.std.specs.Prelude.{◌≡◌, [], ◌∷◌, IfOk, OnOk, map};
ghost use Rattle.std.specs.List.{flat_map};
ghost use Rattle.dv_left.specs.Hanging.{hung_by, turn_held_by, task_held_by, by_item, all_hung};
ghost use Rattle.dv_left.specs.Hanging.{hung_in_lines, hung_at_call, hung_at_calls, hung_at_loops};
ghost use Rattle.dv_left.specs.declared.left.Hang.TheVariants as hang;
ghost use Rattle.dv_left.specs.Linking.{no_links, with_links, with_hung};

use crate::left::Hang;
use crate::lists::Lists;
use dv_clock::call::{Call, CallState};
use dv_clock::due::Due;
use dv_journal::deferred_id::DeferredId;
use dv_objects::looping_call::LoopingCall;
use dv_objects::pair::{Pair, Side};
use dv_objects::task::Task;
use dv_prims::queue::QueueParts;
use dv_prims::semaphore::SemaphoreParts;
use dv_store::record::Item;
use dv_value::deque::Deque;
use std::alloc::{AllocError, Global};

/// At what each Deferred hangs, and which Deferreds each loop and each task waits for, by their
/// numbers.
#[derive(Drop)]
pub struct Links {
    pub deferreds: Lists<Hang>,
    pub loops: Lists<DeferredId>,
    pub tasks: Lists<DeferredId>,
}

impl Links {
    /// Nobody hangs at anything.
    pub fn new(
        alloc: Global,
        deferreds: usize,
        loops: usize,
        tasks: usize,
    ) -> Result<Links, AllocError>
        ensures { IfOk result (λ links. links ≡ no_links deferreds loops tasks) }
    {
        Ok(Links {
            deferreds: Lists::new(alloc, deferreds)?,
            loops: Lists::new(alloc, loops)?,
            tasks: Lists::new(alloc, tasks)?,
        })
    }

    /// The Deferreds that hang at a Deferred by what it hasn't used yet.
    pub fn add_items<'s>(
        &mut self,
        at: DeferredId,
        items: Deque<Item<Pair<'s>>>,
    ) -> Result<(), AllocError>
        ensures { OnOk result (self.new ≡ with_links (flat_map (by_item hung_by at) items.entry)
            (flat_map (by_item turn_held_by at) items.entry)
            (flat_map (by_item task_held_by at) items.entry) self.old) }
    {
        let mut unused = items;
        for used in 0..unused.len() {
            let Some(item) = unused.pop_front() else {
                return Ok(());
            };
            self.add_item(at, item)?;
        }
        Ok(())
    }

    fn add_item<'s>(&mut self, at: DeferredId, item: Item<Pair<'s>>) -> Result<(), AllocError>
        ensures { OnOk result (self.new ≡ with_links (by_item hung_by at item.entry)
            (by_item turn_held_by at item.entry) (by_item task_held_by at item.entry) self.old) }
    {
        match item {
            Item::HandOver(_) => Ok(()),
            Item::Pair(pair) => match pair.into_side(false) {
                None => Ok(()),
                Some(side) => self.add_side(at, &side),
            },
        }
    }

    fn add_side<'s>(&mut self, at: DeferredId, side: &Side<'s>) -> Result<(), AllocError>
        ensures { OnOk result (self.new ≡ with_links (hung_by at side.now)
            (turn_held_by at side.now) (task_held_by at side.now) self.old) }
    {
        match side {
            Side::Fire(id) => self.hang(*id, Hang::Chain(at)),
            Side::Report(child) => self.hang(child.of, Hang::Child(at, child.place)),
            Side::Resume(inline) => self.hang(inline.of, Hang::Await(at)),
            Side::NextTurn(turning) => self.loops.push(turning.number() as usize, at),
            Side::ResumeTask(task) => self.tasks.push(task.number() as usize, at),
            Side::Body(_)
            | Side::Timed(_)
            | Side::OnTimeout(_, _)
            | Side::EndTimer(_)
            | Side::Results
            | Side::Hold(_, _)
            | Side::Release(_)
            | Side::EndLoop(_)
            | Side::FailTask(_) => Ok(()),
        }
    }

    fn hang(&mut self, id: DeferredId, at: Hang) -> Result<(), AllocError>
        ensures { OnOk result (self.new ≡ with_hung ((id, at) ∷ []) self.old) }
    {
        self.deferreds.push(id.number() as usize, at)
    }

    fn hang_all(&mut self, ids: &[DeferredId], at: &Hang) -> Result<(), AllocError>
        ensures { OnOk result (self.new ≡ with_hung (all_hung at.now ids.now) self.old) }
    {
        for id in ids {
            self.hang(*id, *at)?;
        }
        Ok(())
    }

    /// The waiters for a token.
    pub fn add_locks(&mut self, locks: &[SemaphoreParts]) -> Result<(), AllocError>
        ensures { OnOk result (self.new
            ≡ with_hung (hung_in_lines hang.Lock 0 (map (λ s. s.waiting) locks.now)) self.old) }
    {
        for (number, lock) in locks.iter().enumerate() {
            self.hang_all(lock.waiting.as_slice(), &Hang::Lock(number))?;
        }
        Ok(())
    }

    /// The waiters for a value of a queue.
    pub fn add_queues(&mut self, queues: &[QueueParts]) -> Result<(), AllocError>
        ensures { OnOk result (self.new
            ≡ with_hung (hung_in_lines hang.Queue 0 (map (λ q. q.waiting) queues.now)) self.old) }
    {
        for (number, queue) in queues.iter().enumerate() {
            self.hang_all(queue.waiting.as_slice(), &Hang::Queue(number))?;
        }
        Ok(())
    }

    /// The Deferreds that are to be fired with the result of a job, and those that a timer is to
    /// cancel.
    pub fn add_calls(&mut self, calls: &[Call]) -> Result<(), AllocError>
        ensures { OnOk result (self.new ≡ with_hung (hung_at_calls calls.now) self.old) }
    {
        for call in calls {
            self.add_call(call)?;
        }
        Ok(())
    }

    fn add_call(&mut self, call: &Call) -> Result<(), AllocError>
        ensures { OnOk result
            (self.new ≡ with_hung (hung_at_call call.now.due call.now.state) self.old) }
    {
        match &call.state {
            CallState::Waiting(Due::Delivery(job, id)) => {
                self.hang(DeferredId::new(*id), Hang::Job(*job))
            }
            CallState::Waiting(Due::Timeout(id)) => self.hang(*id, Hang::Timeout(call.due)),
            CallState::Waiting(Due::Call(_, _) | Due::Turn(_, _) | Due::Tick | Due::TickIn(_, _))
            | CallState::Called
            | CallState::Cancelled
            | CallState::Dropped => Ok(()),
        }
    }

    /// The Deferred that is fired when a loop ends.
    pub fn add_loops<'s>(&mut self, loops: &[LoopingCall<'s>]) -> Result<(), AllocError>
        ensures { OnOk result (self.new ≡ with_hung (hung_at_loops 0 loops.now) self.old) }
    {
        for (number, turning) in loops.iter().enumerate() {
            self.hang(turning.of, Hang::Loop(number))?;
        }
        Ok(())
    }

    /// The Deferreds that are fired when a task ends.
    pub fn add_tasks<'s>(&mut self, tasks: &[Task<'s>]) -> Result<(), AllocError>
        ensures { OnOk result (self.new
            ≡ with_hung (hung_in_lines hang.Task 0 (map (λ x. x.waiting) tasks.now)) self.old) }
    {
        for (number, task) in tasks.iter().enumerate() {
            self.hang_all(task.waiting.as_slice(), &Hang::Task(number))?;
        }
        Ok(())
    }
}
