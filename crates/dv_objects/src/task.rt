ghost use Rattle.std.specs.Prelude.{◌≡◌, [], IfOk};
ghost use Rattle.dv_objects.specs.Cooperator.{result_of, how_ended, takes_turns_again};

use dv_clock::cooperator_id::CooperatorId;
use dv_journal::deferred_id::DeferredId;
use dv_script::lent::{BodiesRef, TextRef};
use dv_value::boxed::Boxed;
use dv_value::class_id::ClassId;
use dv_value::failure::Failure;
use dv_value::fault::{failure, fault};
use dv_value::items::Items;
use dv_value::text::Text;
use dv_value::value::Value;
use std::alloc::{AllocError, Global};

/// How a task has ended.
#[derive(Drop)]
pub enum TaskEnd {
    /// All its bodies were performed.
    Finished,
    /// It was stopped.
    Stopped,
    /// Its Cooperator was stopped.
    Halted,
    /// A body of it, or a Deferred that it waited for, resulted in this failure.
    Failed(Boxed<Failure>),
}

/// A task of a Cooperator (Twisted: `CooperativeTask`).
#[derive(Drop)]
pub struct Task<'s> {
    /// Its name at its making.
    pub name: TextRef<'s>,
    /// The Cooperator that it is in.
    pub of: CooperatorId,
    /// The bodies that are left to be performed, one a step.
    pub bodies: BodiesRef<'s>,
    /// How often it was paused and hasn't been resumed since.
    pub pauses: u64,
    /// How it has ended, if it has.
    pub end: Option<TaskEnd>,
    /// The Deferreds that wait for its end, in order of asking.
    pub waiting: Items<DeferredId>,
}

impl<'s> Task<'s> {
    /// Whether it takes turns again where it is resumed: it is paused once, and hasn't ended.
    pub fn takes_turns_again(&self) -> bool
        ensures { result ≡ takes_turns_again self.now }
    {
        self.pauses == 1 && self.end.is_none()
    }
}

impl TaskEnd {
    /// What each waiter for the end of a task is fired with (Twisted: `CooperativeTask.whenDone`).
    pub fn result(&self, alloc: Global, name: &str) -> Result<Value, AllocError>
        ensures { IfOk result (λ value. value ≡ result_of name.now self.now) }
    {
        match self {
            TaskEnd::Finished => Ok(Value::Text(Text::of(alloc, name)?)),
            TaskEnd::Stopped => fault(alloc, ClassId::TASK_STOPPED, ""),
            TaskEnd::Halted => fault(alloc, ClassId::SCHEDULER_STOPPED, ""),
            TaskEnd::Failed(failure) => {
                Ok(Value::Fault(Boxed::new(alloc, failure.get().copy(alloc)?)?))
            }
        }
    }

    /// What is raised where a task has ended (Twisted: `TaskDone`, `TaskStopped`, `TaskFailed`,
    /// `SchedulerStopped`).
    pub fn raised(&self, alloc: Global) -> Result<Boxed<Failure>, AllocError>
        ensures { IfOk result (λ failure. failure ≡ how_ended self.now) }
    {
        match self {
            TaskEnd::Finished => failure(alloc, ClassId::TASK_DONE, ""),
            TaskEnd::Stopped => failure(alloc, ClassId::TASK_STOPPED, ""),
            TaskEnd::Halted => failure(alloc, ClassId::SCHEDULER_STOPPED, ""),
            TaskEnd::Failed(_) => failure(alloc, ClassId::TASK_FAILED, ""),
        }
    }
}
