ghost use Rattle.std.specs.Prelude.{◌≡◌};

use std::marker::Model;

/// The place of a class in the table of classes, from 0, which contracts see as that number.
#[derive(Clone, Copy, Debug, PartialEq, Eq)]
pub struct ClassId {
    place: u32,
}

impl Model for ClassId {
    ghost use Rattle.std.specs.Prelude.{ℕ};

    ghost Value = { ℕ };

    ghost view = { λ c. c.place };

    ghost inverse = { λ n. record { place = n } };
}

impl ClassId {
    /// The root, which each class of the table descends from.
    pub const EXCEPTION: ClassId = ClassId { place: 0 };
    /// Above what a delayed call raises that was called or cancelled already.
    pub const VALUE_ERROR: ClassId = ClassId { place: 1 };
    /// For a value of another kind than the action takes.
    pub const TYPE_ERROR: ClassId = ClassId { place: 2 };
    /// For a name that nothing bears; the message is the name.
    pub const NAME_ERROR: ClassId = ClassId { place: 3 };
    /// For a call that the state of its object doesn't allow; the message says which state is
    /// wanted.
    pub const ASSERTION_ERROR: ClassId = ClassId { place: 4 };
    /// For a sum that no `i64` holds.
    pub const OVERFLOW_ERROR: ClassId = ClassId { place: 5 };
    /// For a job more than a run has.
    pub const RUNTIME_ERROR: ClassId = ClassId { place: 6 };
    /// For a second firing of a Deferred (Twisted: `defer.AlreadyCalledError`).
    pub const ALREADY_CALLED_ERROR: ClassId = ClassId { place: 7 };
    /// What a Deferred is fired with that is cancelled (Twisted: `defer.CancelledError`).
    pub const CANCELLED_ERROR: ClassId = ClassId { place: 8 };
    /// For the first child of a DeferredList that failed, which is inside (Twisted:
    /// `defer.FirstError`).
    pub const FIRST_ERROR: ClassId = ClassId { place: 9 };
    /// For a queue that stores as many values as it may (Twisted: `defer.QueueOverflow`).
    pub const QUEUE_OVERFLOW: ClassId = ClassId { place: 10 };
    /// For a queue on which as many wait as may (Twisted: `defer.QueueUnderflow`).
    pub const QUEUE_UNDERFLOW: ClassId = ClassId { place: 11 };
    /// Above what a cooperative task raises (Twisted: `task.SchedulerError`).
    pub const SCHEDULER_ERROR: ClassId = ClassId { place: 12 };
    /// For the cancelling of a delayed call that has run (Twisted: `error.AlreadyCalled`).
    pub const ALREADY_CALLED: ClassId = ClassId { place: 13 };
    /// For the cancelling of a delayed call that was cancelled (Twisted: `error.AlreadyCancelled`).
    pub const ALREADY_CANCELLED: ClassId = ClassId { place: 14 };
    /// Above how a cooperative task has ended (Twisted: `task.TaskFinished`).
    pub const TASK_FINISHED: ClassId = ClassId { place: 15 };
    /// For the resuming of a cooperative task that isn't paused (Twisted: `task.NotPaused`).
    pub const NOT_PAUSED: ClassId = ClassId { place: 16 };
    /// For a cooperative task that has ended (Twisted: `task.TaskDone`).
    pub const TASK_DONE: ClassId = ClassId { place: 17 };
    /// For a cooperative task that was stopped (Twisted: `task.TaskStopped`).
    pub const TASK_STOPPED: ClassId = ClassId { place: 18 };
    /// For a cooperative task that has failed (Twisted: `task.TaskFailed`).
    pub const TASK_FAILED: ClassId = ClassId { place: 19 };
    /// What a cancel by a timer results in, in place of `CANCELLED_ERROR` (Twisted:
    /// `error.TimeoutError`).
    pub const TIMEOUT_ERROR: ClassId = ClassId { place: 20 };
    /// For a cooperative task whose Cooperator was stopped, in a table that has it (Twisted:
    /// `task.SchedulerStopped`).
    pub const SCHEDULER_STOPPED: ClassId = ClassId { place: 21 };

    /// The class at this place, which need not be in any table.
    pub fn new(place: u32) -> ClassId
        ensures { result ≡ place }
    {
        ClassId { place }
    }

    /// Its place in the table, from 0.
    pub fn place(self) -> u32
        ensures { result ≡ self }
    {
        self.place
    }
}
