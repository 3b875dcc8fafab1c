ghost use Rattle.std.specs.Prelude.{◌≡◌, ◌+◌, length, slice_get, IfOk, OnOk};
ghost use Rattle.dv_world.specs.World.{not_paused};
ghost use Rattle.dv_objects.specs.declared.performed.Performed.TheVariants.{Raised};

use super::World;
use dv_clock::call_id::CallId;
use dv_clock::cooperator_id::CooperatorId;
use dv_clock::due::Due;
use dv_clock::interval::Interval;
use dv_clock::task_id::TaskId;
use dv_journal::deferred_id::DeferredId;
use dv_journal::entry::Entry;
use dv_objects::cooperator::Cooperator;
use dv_objects::performed::Performed;
use dv_objects::task::{Task, TaskEnd};
use dv_script::lent::{BodiesRef, BodyRef, TextRef};
use dv_value::boxed::Boxed;
use dv_value::class_id::ClassId;
use dv_value::fault::failure;
use dv_value::items::Items;
use dv_value::text::Text;
use std::alloc::{AllocError, Global};

impl<'s> World<'s> {
    ghost use Rattle.std.specs.Option.{option_copied};
    ghost use Rattle.dv_clock.specs.Due.{scheduling};
    ghost use Rattle.dv_objects.specs.Names.{number_of};
    ghost use Rattle.dv_objects.specs.Objects.{with_tick, without_tick};
    ghost use Rattle.dv_world.specs.World.{aside, arrange, cooperator_at, cooperator_of};
    ghost use Rattle.dv_world.specs.World.{new_task, new_task_in, take_step, pause_task};
    ghost use Rattle.dv_world.specs.World.{resume_task, hold_task, end_task, await_task};
    ghost use Rattle.dv_world.specs.World.{keep_tick, want_tick, begin_tick, end_tick, set_units};
    ghost use Rattle.dv_world.specs.World.{set_units_in, halt};

    /// Makes a task of bodies in the Cooperator that each script has, and binds its name to it,
    /// also where that was bound to another; it takes turns, last (Twisted:
    /// `Cooperator.cooperate`).
    #[tactic(auto, unfolding(crate::specs::World::aside))]
    pub fn make_task(&mut self, name: TextRef<'s>, bodies: BodiesRef<'s>) -> Result<(), AllocError>
        ensures { OnOk result (self.new ≡ new_task name.entry bodies.entry self.old) }
    {
        if self.stopped {
            return Ok(());
        }
        let shown = Text::of(self.alloc, name.as_str())?;
        match self.journal.write(Entry::Task(shown)) {
            Ok(()) => self.cooperators.make(CooperatorId::new(0), name, bodies),
            Err(stop) => self.stopped_by(stop, ()),
        }
    }

    /// The same in a Cooperator that the script names.
    #[tactic(auto, unfolding(crate::specs::World::aside))]
    pub fn make_task_in(
        &mut self,
        of: CooperatorId,
        name: TextRef<'s>,
        called: &str,
        bodies: BodiesRef<'s>,
    ) -> Result<(), AllocError>
        ensures { OnOk result
            (self.new ≡ new_task_in of name.entry called.now bodies.entry self.old) }
    {
        if self.stopped {
            return Ok(());
        }
        let shown = Text::of(self.alloc, name.as_str())?;
        let called = Boxed::new(self.alloc, Text::of(self.alloc, called)?)?;
        match self.journal.write(Entry::TaskIn(shown, called)) {
            Ok(()) => self.cooperators.make(of, name, bodies),
            Err(stop) => self.stopped_by(stop, ()),
        }
    }

    /// The id of the task that is made next, or AllocError where there are more than numbers of 32
    /// bits.
    pub fn next_task(&self) -> Result<TaskId, AllocError>
        ensures { IfOk result (λ id. id ≡ length self.now.objects.cooperators.tasks) }
    {
        let Ok(number) = u32::try_from(self.cooperators.count()) else {
            return Err(AllocError);
        };
        Ok(TaskId::new(number))
    }

    /// The Cooperator that the script names so.
    pub fn find_cooperator(&self, name: &str) -> Option<CooperatorId>
        ensures { result ≡ cooperator_at name.now self.now }
    {
        self.cooperators.find_cooperator(name)
    }

    /// A Cooperator by its number.
    pub fn cooperator(&self, id: CooperatorId) -> Option<&Cooperator<'s>>
        ensures { option_copied result ≡ cooperator_of id self.now }
    {
        self.cooperators.cooperator(id)
    }

    /// The task that a name stands for.
    pub fn find_task(&self, name: &str) -> Option<TaskId>
        ensures { result ≡ number_of name.now self.now.objects.cooperators.task_names }
    {
        self.cooperators.find(name)
    }

    /// A task by its id.
    pub fn task(&self, id: TaskId) -> Option<&Task<'s>>
        ensures { option_copied result ≡ slice_get self.now.objects.cooperators.tasks id }
    {
        self.cooperators.task(id)
    }

    /// Logs the next step of a Cooperator, and returns the task that takes it with its next body,
    /// where one is left; None where nobody takes turns, and then the next turn is that of the
    /// first that joins.
    #[tactic(auto, unfolding(crate::specs::World::aside, crate::specs::World::arrange))]
    pub fn take_step(
        &mut self,
        of: CooperatorId,
    ) -> Result<Option<(TaskId, Option<BodyRef<'s>>)>, AllocError>
        ensures { IfOk result (λ step. (step, self.new) ≡ take_step of self.old) }
    {
        if self.stopped {
            return Ok(None);
        }
        let Some(id) = self.cooperators.turn(of) else {
            self.cooperators.go_on(of);
            return Ok(None);
        };
        let Some(task) = self.cooperators.task(id) else {
            return Ok(None);
        };
        let shown = Text::of(self.alloc, task.name.as_str())?;
        match self.journal.write(Entry::Step(shown)) {
            Ok(()) => Ok(Some((id, self.cooperators.step(id)))),
            Err(stop) => self.stopped_by(stop, None),
        }
    }

    /// A task is paused once more (Twisted: `CooperativeTask.pause`).
    #[tactic(auto, unfolding(crate::specs::World::aside))]
    pub fn pause_task(&mut self, id: TaskId) -> Result<(), AllocError>
        ensures { OnOk result (self.new ≡ pause_task id self.old) }
    {
        if self.stopped {
            return Ok(());
        }
        let Some(task) = self.cooperators.task(id) else {
            return Ok(());
        };
        let shown = Text::of(self.alloc, task.name.as_str())?;
        match self.journal.write(Entry::PauseTask(shown)) {
            Ok(()) => self.cooperators.pause(id),
            Err(stop) => self.stopped_by(stop, ()),
        }
    }

    /// A task is paused once less (Twisted: `CooperativeTask.resume`).
    #[tactic(auto, unfolding(crate::specs::World::aside))]
    pub fn resume_task(&mut self, id: TaskId) -> Result<(), AllocError>
        ensures { OnOk result (self.new ≡ resume_task id self.old) }
    {
        if self.stopped {
            return Ok(());
        }
        let Some(task) = self.cooperators.task(id) else {
            return Ok(());
        };
        let shown = Text::of(self.alloc, task.name.as_str())?;
        match self.journal.write(Entry::ResumeTask(shown)) {
            Ok(()) => self.cooperators.resume(id),
            Err(stop) => self.stopped_by(stop, ()),
        }
    }

    /// A task is paused until a Deferred is fired, which a body of it gave.
    #[tactic(auto, unfolding(crate::specs::World::aside))]
    pub fn hold_task(&mut self, id: TaskId, given: DeferredId) -> Result<(), AllocError>
        ensures { OnOk result (self.new ≡ hold_task id given self.old) }
    {
        if self.stopped {
            return Ok(());
        }
        let Some(task) = self.cooperators.task(id) else {
            return Ok(());
        };
        let shown = Text::of(self.alloc, task.name.as_str())?;
        match self.journal.write(Entry::Hold(shown, given)) {
            Ok(()) => self.cooperators.pause(id),
            Err(stop) => self.stopped_by(stop, ()),
        }
    }

    /// A task ends, unless it has ended, and the Deferreds that wait for its end are answered.
    #[tactic(auto, unfolding(crate::specs::World::aside))]
    pub fn end_task(&mut self, id: TaskId, end: TaskEnd) -> Result<Items<DeferredId>, AllocError>
        ensures { IfOk result (λ waiting. (waiting, self.new) ≡ end_task id end self.old) }
    {
        if self.stopped {
            drop(end);
            return Ok(Items::new(self.alloc));
        }
        let Some(task) = self.cooperators.unended(id) else {
            drop(end);
            return Ok(Items::new(self.alloc));
        };
        let Ok(entry) = ending(self.alloc, task.name.as_str(), &end) else {
            drop(end);
            return Err(AllocError);
        };
        match self.journal.write(entry) {
            Ok(()) => Ok(self.cooperators.end(id, end)),
            Err(stop) => {
                drop(end);
                self.stopped_by(stop, Items::new(self.alloc))
            }
        }
    }

    /// A Deferred waits for the end of a task, unless that has ended (Twisted:
    /// `CooperativeTask.whenDone`).
    #[tactic(auto, unfolding(crate::specs::World::aside))]
    pub fn await_task(&mut self, id: TaskId, waiting: DeferredId) -> Result<(), AllocError>
        ensures { OnOk result (self.new ≡ await_task id waiting self.old) }
    {
        if self.stopped {
            return Ok(());
        }
        let Some(task) = self.cooperators.task(id) else {
            return Ok(());
        };
        let shown = Text::of(self.alloc, task.name.as_str())?;
        match self.journal.write(Entry::WhenDone(shown, waiting)) {
            Ok(()) => self.cooperators.wait(id, waiting),
            Err(stop) => self.stopped_by(stop, ()),
        }
    }

    /// Outside of ticks of a Cooperator, one is scheduled while somebody takes turns in it, and
    /// none while nobody does (Twisted: `Cooperator._reschedule`).
    pub fn keep_tick(&mut self, of: CooperatorId) -> Result<(), AllocError>
        ensures { OnOk result (self.new ≡ keep_tick of self.old) }
    {
        let Some(one) = self.cooperators.cooperator(of) else {
            return Ok(());
        };
        if one.wants_tick() {
            let what = one.next_tick(self.alloc, of)?;
            let delay = one.delay;
            return self.schedule_tick(of, what, delay);
        }
        if let Some(tick) = one.idle_tick() {
            self.drop_tick(of, tick);
        }
        Ok(())
    }

    /// After a task has joined a Cooperator its next tick is scheduled, unless one is, or one is
    /// under way; by Twisted's rule also while one is under way (Twisted: `Cooperator._addTask`).
    pub fn want_tick(&mut self, of: CooperatorId) -> Result<(), AllocError>
        ensures { OnOk result (self.new ≡ want_tick of self.old) }
    {
        let Some(one) = self.cooperators.cooperator(of) else {
            return Ok(());
        };
        if !one.wants_tick_at_once() {
            return Ok(());
        }
        let what = one.next_tick(self.alloc, of)?;
        let delay = one.delay;
        self.schedule_tick(of, what, delay)
    }

    /// Schedules the next tick of a Cooperator.
    #[tactic(auto, unfolding(crate::specs::World::aside))]
    fn schedule_tick(
        &mut self,
        of: CooperatorId,
        what: Due,
        delay: Interval,
    ) -> Result<(), AllocError>
        ensures { OnOk result (self.new
            ≡ aside (scheduling what (self.old.objects.clock.time + delay))
            (with_tick of what (self.old.objects.clock.time + delay)) self.old) }
    {
        if self.stopped {
            drop(what);
            return Ok(());
        }
        match self.clock.later(&mut self.journal, what, delay.ticks()) {
            Ok(tick) => {
                self.cooperators.set_tick(of, Some(tick));
                Ok(())
            }
            Err(stop) => self.stopped_by(stop, ()),
        }
    }

    /// Drops the tick of a Cooperator that is scheduled.
    #[tactic(auto, unfolding(crate::specs::World::arrange))]
    fn drop_tick(&mut self, of: CooperatorId, tick: CallId)
        ensures { self.new ≡ arrange (without_tick of tick) self.old }
    {
        if !self.stopped {
            let _ = self.clock.drop_call(tick);
            self.cooperators.set_tick(of, None);
        }
    }

    /// A tick of a Cooperator is under way from now on.
    #[tactic(auto, unfolding(crate::specs::World::arrange))]
    pub fn begin_tick(&mut self, of: CooperatorId)
        ensures { self.new ≡ begin_tick of self.old }
    {
        if !self.stopped {
            self.cooperators.begin_tick(of);
        }
    }

    /// No tick of a Cooperator is under way any more.
    #[tactic(auto, unfolding(crate::specs::World::arrange))]
    pub fn end_tick(&mut self, of: CooperatorId)
        ensures { self.new ≡ end_tick of self.old }
    {
        if !self.stopped {
            self.cooperators.end_tick(of);
        }
    }

    /// Each tick of the Cooperator that each script has takes so many steps from the next one on.
    #[tactic(auto, unfolding(crate::specs::World::aside))]
    pub fn set_units(&mut self, units: u32) -> Result<(), AllocError>
        ensures { OnOk result (self.new ≡ set_units units self.old) }
    {
        if self.stopped {
            return Ok(());
        }
        match self.journal.write(Entry::Units(units)) {
            Ok(()) => {
                self.cooperators.set_units(CooperatorId::new(0), units);
                Ok(())
            }
            Err(stop) => self.stopped_by(stop, ()),
        }
    }

    /// Each tick of a Cooperator that the script names takes so many steps from the next one on.
    #[tactic(auto, unfolding(crate::specs::World::aside))]
    pub fn set_units_in(
        &mut self,
        of: CooperatorId,
        name: &str,
        units: u32,
    ) -> Result<(), AllocError>
        ensures { OnOk result (self.new ≡ set_units_in of name.now units self.old) }
    {
        if self.stopped {
            return Ok(());
        }
        let shown = Text::of(self.alloc, name)?;
        match self.journal.write(Entry::UnitsIn(shown, units)) {
            Ok(()) => {
                self.cooperators.set_units(of, units);
                Ok(())
            }
            Err(stop) => self.stopped_by(stop, ()),
        }
    }

    /// A Cooperator that the script names is stopped (Twisted: `Cooperator.stop`).
    #[tactic(auto, unfolding(crate::specs::World::aside))]
    pub fn halt(&mut self, of: CooperatorId, name: &str) -> Result<(), AllocError>
        ensures { OnOk result (self.new ≡ halt of name.now self.old) }
    {
        if self.stopped {
            return Ok(());
        }
        let shown = Text::of(self.alloc, name)?;
        match self.journal.write(Entry::StopCooperator(shown)) {
            Ok(()) => {
                self.cooperators.halt(of);
                Ok(())
            }
            Err(stop) => self.stopped_by(stop, ()),
        }
    }
}

ghost use Rattle.dv_journal.specs.declared.entry.Entry.TheVariants.{End};
ghost use Rattle.dv_objects.specs.Cooperator.{result_of};

/// What the journal logs for the end of a task.
fn ending(alloc: Global, name: &str, end: &TaskEnd) -> Result<Entry, AllocError>
    ensures { IfOk result (λ entry. entry ≡ End name.now (result_of name.now end.now)) }
{
    let shown = Text::of(alloc, name)?;
    let result = Boxed::new(alloc, end.result(alloc, name)?)?;
    Ok(Entry::End(shown, result))
}

/// What the resuming of a task raises that isn't paused.
pub fn not_paused<'s>(alloc: Global) -> Result<Performed<'s>, AllocError>
    ensures { IfOk result (λ p. p ≡ Raised not_paused) }
{
    let failure = failure(alloc, ClassId::NOT_PAUSED, "")?;
    Ok(Performed::Raised(failure))
}
