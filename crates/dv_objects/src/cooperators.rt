ghost use Rattle.std.specs.Prelude.{◌≡◌, None, true, false, length, slice_get, IfOk, OnOk};

use crate::cooperator::Cooperator;
use crate::names::Names;
use crate::task::{Task, TaskEnd};
use dv_clock::call_id::CallId;
use dv_clock::cooperator_id::CooperatorId;
use dv_clock::task_id::TaskId;
use dv_journal::deferred_id::DeferredId;
use dv_script::lent::{BodiesRef, BodyRef, TextRef};
use dv_script::script::{Cooperator as Settings, NamedCooperator};
use dv_value::items::Items;
use std::alloc::{AllocError, Global};
use std::hash::RandomState;
use std::marker::Model;
use std::mem;

/// The Cooperators of a run, and all their tasks. Its changes aren't logged here; the world logs
/// them.
#[derive(Drop)]
pub struct Cooperators<'s> {
    alloc: Global,
    names: Names<'s, TaskId>,
    tasks: Vec<Task<'s>>,
    all: Vec<Cooperator<'s>>,
}

impl<'s> Model for Cooperators<'s> {
    ghost use Rattle.dv_objects.specs.Cooperator.{Cooperators as Seen};
    ghost use Rattle.dv_script.specs.contracts.body.Body as body_contract;
    ghost use Rattle.dv_value.specs.contracts.failure.Failure as failure_contract;
    ghost use Rattle.std.specs.Coded.{codes};

    ghost Value = { Seen };

    ghost coded = { Prim.hlevel (
      codes,
      body_contract.the_row.coded,
      failure_contract.the_row.coded,
    ) };

    ghost view = { λ c. record {
      task_names = c.names;
      tasks = c.tasks.items;
      all = c.all.items;
    } };
}

impl<'s> Cooperators<'s> {
    ghost use Rattle.std.specs.Option.{option_copied};
    ghost use Rattle.dv_clock.specs.Turns.{joined, left};
    ghost use Rattle.dv_objects.specs.Cooperator.{changed, cooperator_named, halted};
    ghost use Rattle.dv_objects.specs.Cooperator.{new_cooperators, turn_in, turned};
    ghost use Rattle.dv_objects.specs.Cooperator.{with_new_task, with_next_turn, with_step};
    ghost use Rattle.dv_objects.specs.Cooperator.{takes_turns_again};
    ghost use Rattle.dv_objects.specs.Cooperator.{with_pause, with_resume, with_end, with_waiting};
    ghost use Rattle.dv_objects.specs.Cooperator.{changing, unended, next_body, waiting_for};
    ghost use Rattle.dv_objects.specs.Cooperator.{with_units};
    ghost use Rattle.dv_objects.specs.Names.{number_of};

    /// The Cooperator that each script has and those that this one names, without tasks. Names of
    /// tasks are hashed with these keys.
    pub fn new(
        alloc: Global,
        keys: RandomState,
        settings: Settings,
        named: &'s [NamedCooperator],
    ) -> Result<Cooperators<'s>, AllocError>
        ensures { IfOk result (λ c. c ≡ new_cooperators settings named.now) }
    {
        let mut all = Vec::new(alloc);
        all.push(Cooperator::new(alloc, None, settings))?;
        for one in named {
            let name = Some(TextRef::new(&one.name));
            all.push(Cooperator::new(alloc, name, one.settings))?;
        }
        Ok(Cooperators {
            alloc,
            names: Names::new(alloc, keys),
            tasks: Vec::new(alloc),
            all,
        })
    }

    /// The Cooperator that the script names so.
    pub fn find_cooperator(&self, name: &str) -> Option<CooperatorId>
        ensures { result ≡ cooperator_named name.now self.now }
    {
        match place_of(self.all.as_slice(), name) {
            None => None,
            Some(place) => Some(CooperatorId::new(place)),
        }
    }

    /// A Cooperator by its number.
    pub fn cooperator(&self, id: CooperatorId) -> Option<&Cooperator<'s>>
        ensures { option_copied result ≡ slice_get self.now.all id }
    {
        self.all.get(id.number())
    }

    /// The task that a name stands for.
    pub fn find(&self, name: &str) -> Option<TaskId>
        ensures { result ≡ number_of name.now self.now.task_names }
    {
        self.names.find(name)
    }

    /// A task by its id.
    pub fn task(&self, id: TaskId) -> Option<&Task<'s>>
        ensures { option_copied result ≡ slice_get self.now.tasks id }
    {
        self.tasks.get(id.number() as usize)
    }

    /// A task by its id, unless it has ended.
    pub fn unended(&self, id: TaskId) -> Option<&Task<'s>>
        ensures { option_copied result ≡ unended (slice_get self.now.tasks id) }
    {
        let task = self.task(id)?;
        if task.end.is_some() {
            return None;
        }
        Some(task)
    }

    /// A task takes turns in a Cooperator, last.
    fn join(&mut self, of: CooperatorId, id: TaskId) -> Result<(), AllocError>
        ensures { OnOk result
            (self.new ≡ record self.old { all = turned of (joined id) self.old.all }) }
    {
        let Some(one) = self.all.get_mut(of.number()) else {
            return Ok(());
        };
        one.turns.add(id)
    }

    /// A task takes no turns in a Cooperator any more.
    fn leave(&mut self, of: CooperatorId, id: TaskId)
        ensures { self.new ≡ record self.old { all = turned of (left id) self.old.all } }
    {
        let Some(one) = self.all.get_mut(of.number()) else {
            return;
        };
        let _ = one.turns.remove(id);
    }

    /// It is the next one's turn in a Cooperator; if nobody takes turns there, the next turn is
    /// that of the first that joins.
    pub fn go_on(&mut self, of: CooperatorId)
        ensures { self.new ≡ with_next_turn of self.old }
    {
        let Some(one) = self.all.get_mut(of.number()) else {
            return;
        };
        let _ = one.turns.next();
    }

    /// A task is made of bodies in a Cooperator, and its name is bound to it, also where that was
    /// bound to another; it takes turns, last. AllocError where there are more tasks than numbers
    /// of 32 bits.
    pub fn make(
        &mut self,
        of: CooperatorId,
        name: TextRef<'s>,
        bodies: BodiesRef<'s>,
    ) -> Result<(), AllocError>
        ensures { OnOk result
            (self.new ≡ with_new_task of name.entry bodies.entry self.old) }
    {
        let Ok(number) = u32::try_from(self.tasks.len()) else {
            return Err(AllocError);
        };
        let id = TaskId::new(number);
        self.names.bind(name.as_str(), id)?;
        self.join(of, id)?;
        self.tasks.push(Task {
            name,
            of,
            bodies,
            pauses: 0,
            end: None,
            waiting: Items::new(self.alloc),
        })?;
        Ok(())
    }

    /// How many tasks were made.
    pub fn count(&self) -> usize
        ensures { result ≡ length self.now.tasks }
    {
        self.tasks.len()
    }

    /// The task whose turn it is in a Cooperator, where somebody takes turns.
    pub fn turn(&self, of: CooperatorId) -> Option<TaskId>
        ensures { result ≡ turn_in (slice_get self.now.all of) }
    {
        let one = self.cooperator(of)?;
        one.turns.turn()
    }

    /// The task whose turn it is takes it, and its next body is answered, where one is left.
    pub fn step(&mut self, id: TaskId) -> Option<BodyRef<'s>>
        ensures body { result ≡ next_body (slice_get self.old.tasks id) }
        ensures rest { self.new ≡ changing (with_step id) (slice_get self.old.tasks id) self.old }
    {
        let task = self.tasks.get_mut(id.number() as usize)?;
        let of = task.of;
        let body = task.bodies.take();
        self.go_on(of);
        body
    }

    /// A task is paused once more, and takes no turns.
    pub fn pause(&mut self, id: TaskId) -> Result<(), AllocError>
        ensures { OnOk result (self.new ≡ changing (with_pause id)
            (slice_get self.old.tasks id) self.old) }
    {
        let Some(task) = self.tasks.get_mut(id.number() as usize) else {
            return Ok(());
        };
        let Some(pauses) = task.pauses.checked_add(1) else {
            return Err(AllocError);
        };
        task.pauses = pauses;
        let of = task.of;
        self.leave(of, id);
        Ok(())
    }

    /// A task is paused once less; where it isn't paused any more and hasn't ended, it takes turns
    /// again, last.
    pub fn resume(&mut self, id: TaskId) -> Result<(), AllocError>
        ensures { OnOk result (self.new ≡ changing (with_resume id)
            (slice_get self.old.tasks id) self.old) }
    {
        let Some(task) = self.tasks.get_mut(id.number() as usize) else {
            return Ok(());
        };
        let of = task.of;
        let again = task.takes_turns_again();
        task.pauses = task.pauses.saturating_sub(1);
        if again {
            self.join(of, id)?;
        }
        Ok(())
    }

    /// A task has ended, and takes no turns any more; the Deferreds that wait for its end are
    /// returned.
    pub fn end(&mut self, id: TaskId, end: TaskEnd) -> Items<DeferredId>
        ensures waiting { result ≡ waiting_for (slice_get self.old.tasks id) }
        ensures rest { self.new ≡ changing (with_end id end)
            (slice_get self.old.tasks id) self.old }
    {
        let Some(task) = self.tasks.get_mut(id.number() as usize) else {
            drop(end);
            return Items::new(self.alloc);
        };
        let of = task.of;
        drop(mem::replace(&mut task.end, Some(end)));
        let waiting = mem::replace(&mut task.waiting, Items::new(self.alloc));
        self.leave(of, id);
        waiting
    }

    /// A Deferred waits for the end of a task, unless it has ended.
    pub fn wait(&mut self, id: TaskId, waiting: DeferredId) -> Result<(), AllocError>
        ensures { OnOk result (self.new ≡ changing (with_waiting id waiting)
            (slice_get self.old.tasks id) self.old) }
    {
        let Some(task) = self.tasks.get_mut(id.number() as usize) else {
            return Ok(());
        };
        if task.end.is_none() {
            task.waiting.push(waiting)?;
        }
        Ok(())
    }

    /// Drops it, and returns all its tasks, in order of making.
    pub fn into_tasks(self) -> Vec<Task<'s>>
        ensures { result.items ≡ self.entry.tasks }
    {
        self.tasks
    }

    /// Each tick of a Cooperator has so many steps from the next one on.
    pub fn set_units(&mut self, of: CooperatorId, units: u32)
        ensures { self.new ≡ changed of (with_units units) self.old }
    {
        if let Some(one) = self.all.get_mut(of.number()) {
            one.units = units;
        }
    }

    /// A Cooperator is stopped.
    pub fn halt(&mut self, of: CooperatorId)
        ensures { self.new ≡ changed of halted self.old }
    {
        if let Some(one) = self.all.get_mut(of.number()) {
            one.stopped = true;
        }
    }

    /// This tick of a Cooperator is scheduled, or none is.
    pub fn set_tick(&mut self, of: CooperatorId, tick: Option<CallId>)
        ensures { self.new ≡ changed of (λ one. record one { tick = tick }) self.old }
    {
        if let Some(one) = self.all.get_mut(of.number()) {
            one.tick = tick;
        }
    }

    /// A tick of a Cooperator is under way from now on, and none is scheduled.
    pub fn begin_tick(&mut self, of: CooperatorId)
        ensures { self.new
            ≡ changed of (λ one. record one { tick = None; ticking = true }) self.old }
    {
        if let Some(one) = self.all.get_mut(of.number()) {
            one.tick = None;
            one.ticking = true;
        }
    }

    /// No tick of a Cooperator is under way any more.
    pub fn end_tick(&mut self, of: CooperatorId)
        ensures { self.new ≡ changed of (λ one. record one { ticking = false }) self.old }
    {
        if let Some(one) = self.all.get_mut(of.number()) {
            one.ticking = false;
        }
    }
}

ghost use Rattle.std.specs.Prelude.{position};
ghost use Rattle.dv_objects.specs.Cooperator.{is_called};

/// The place of the Cooperator that has this name.
fn place_of(all: &[Cooperator<'_>], name: &str) -> Option<usize>
    ensures { result ≡ position (λ one. is_called name.now one.name) all.now }
{
    all.iter().position(|one| one.is_called(name))
}
