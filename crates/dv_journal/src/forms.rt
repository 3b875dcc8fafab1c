//! The forms of the lines of the journal, a row a kind of entry.

ghost use Rattle.std.specs.Prelude.{◌≡◌};
ghost use Rattle.dv_journal.specs.Forms.{form_named, form_of};
ghost use Rattle.dv_journal.specs.declared.entry.Entry.{Entry};

use crate::form::Naming::{Any, Last, Made};
use crate::form::ObjectKind::{Body, Call, Cooperator, Lock, Loop, Queue, Task};
use crate::form::PartKind::{
    Bound, Deferred, Due, Expected, Failure, Fired, Job, Name, NewName, Number, Object, Outcome,
    State, Text, Time, Value,
};
use crate::form::{LineForm, Nesting};

/// A word, what an entry of it does to the sections of its run, and the kinds of its other parts.
macro_rules! row {
    ($word:literal, $nesting:ident $(, $part:expr)*) => {
        LineForm {
            word: $word,
            parts: &[$($part),*],
            nesting: Nesting::$nesting,
        }
    };
}

pub const NEW: LineForm = row!("new", Plain, Deferred, NewName);

pub const NAME: LineForm = row!("name", Plain, Deferred, Name);

pub const ADD: LineForm = row!("add", Plain, Deferred);

pub const FIRE: LineForm = row!("fire", Plain, Fired, Outcome);

pub const SWALLOW: LineForm = row!("swallow", Plain, Deferred);

pub const REFUSE: LineForm = row!("refuse", Plain, Deferred);

pub const RUN: LineForm = row!("run", Begins, Deferred);

pub const SET: LineForm = row!("set", Ends, Deferred, Outcome);

pub const TAKE: LineForm = row!("take", Ends, Deferred, Deferred, Outcome);

pub const WAIT: LineForm = row!("wait", Ends, Deferred, Deferred);

pub const HAND: LineForm = row!("hand", Plain, Deferred, Deferred, Outcome);

pub const PAUSE: LineForm = row!("pause", Plain, Deferred);

pub const UNPAUSE: LineForm = row!("unpause", Plain, Deferred);

pub const CANCEL: LineForm = row!("cancel", Plain, Deferred);

pub const NOTE: LineForm = row!("note", Plain, Text);

pub const UNHANDLED: LineForm = row!("unhandled", Plain, Failure);

pub const LOCK: LineForm = row!("lock", Plain, Object(Lock, Made));

pub const SEMAPHORE: LineForm = row!("semaphore", Plain, Object(Lock, Made), Number);

pub const ACQUIRE: LineForm = row!("acquire", Plain, Object(Lock, Last), Deferred);

pub const RELEASE: LineForm = row!("release", Plain, Object(Lock, Any));

pub const QUEUE: LineForm = row!("queue", Plain, Object(Queue, Made), Bound, Bound);

pub const PUT: LineForm = row!("put", Plain, Object(Queue, Last), Value);

pub const GET: LineForm = row!("get", Plain, Object(Queue, Last), Deferred);

pub const LATER_CALL: LineForm = row!("later call", Plain, Object(Call, Made), Due);

pub const LATER_LOOP: LineForm = row!("later loop", Plain, Object(Loop, Any), Due);

pub const LATER_TICK: LineForm = row!("later tick", NextTick, Due);

pub const LATER_TICK_IN: LineForm = row!("later tickin", NextTick, Object(Cooperator, Any), Due);

pub const LATER_JOB: LineForm = row!("later job", Plain, Job, Due);

pub const LATER_TIMEOUT: LineForm = row!("later timeout", Plain, Deferred, Due);

pub const UNCALL: LineForm = row!("uncall", Plain, Object(Call, Last));

pub const RESET: LineForm = row!("reset", Plain, Object(Call, Last), Due);

pub const CALL: LineForm = row!("call", Due, Object(Call, Any));

pub const TICK: LineForm = row!("tick", Tick);

pub const TICK_IN: LineForm = row!("tickin", Tick, Object(Cooperator, Any));

pub const DELIVER: LineForm = row!("deliver", Due, Job);

pub const TIMEOUT: LineForm = row!("timeout", Due, Deferred);

pub const LOOP: LineForm = row!("loop", Loop, Object(Loop, Made), Deferred);

pub const TURN: LineForm = row!("turn", Turn, Object(Loop, Any));

pub const STOP: LineForm = row!("stop", Plain, Object(Loop, Last));

pub const TASK: LineForm = row!("task", Plain, Object(Task, Made));

pub const TASK_IN: LineForm = row!("taskin", Plain, Object(Task, Made), Object(Cooperator, Any));

pub const STEP: LineForm = row!("step", Step, Object(Task, Any));

pub const HOLD: LineForm = row!("hold", Plain, Object(Task, Any), Deferred);

pub const END: LineForm = row!("end", Plain, Object(Task, Any), Outcome);

pub const PAUSE_TASK: LineForm = row!("pausetask", Plain, Object(Task, Last));

pub const RESUME_TASK: LineForm = row!("resumetask", Plain, Object(Task, Any));

pub const WHEN_DONE: LineForm = row!("whendone", Plain, Object(Task, Last), Deferred);

pub const AWAIT: LineForm = row!("await", Plain, Deferred, Deferred);

pub const JOB: LineForm = row!("job", Plain, Job, Deferred);

pub const ADVANCE: LineForm = row!("advance", Outer, Time);

pub const DRAIN: LineForm = row!("drain", Outer);

pub const POST: LineForm = row!("post", Due, Number, Number);

pub const BODY: LineForm = row!("body", Plain, Object(Body, Any));

pub const UNITS: LineForm = row!("units", Plain, Number);

pub const UNITS_IN: LineForm = row!("unitsin", Plain, Object(Cooperator, Any), Number);

pub const STOP_COOPERATOR: LineForm = row!("stopcooperator", Plain, Object(Cooperator, Any));

pub const EXPECT: LineForm = row!("expect", Plain, Deferred, State);

pub const UNMET: LineForm = row!("unmet", Plain, Deferred, State, Expected);

pub const UNBOUND: LineForm = row!("unbound", Plain, Text);

/// The rows, in the order in which the kinds of entries are declared.
const LINE_FORMS: [LineForm; 59] = [
    NEW,
    NAME,
    ADD,
    FIRE,
    SWALLOW,
    REFUSE,
    RUN,
    SET,
    TAKE,
    WAIT,
    HAND,
    PAUSE,
    UNPAUSE,
    CANCEL,
    NOTE,
    UNHANDLED,
    LOCK,
    SEMAPHORE,
    ACQUIRE,
    RELEASE,
    QUEUE,
    PUT,
    GET,
    LATER_CALL,
    LATER_LOOP,
    LATER_TICK,
    LATER_TICK_IN,
    LATER_JOB,
    LATER_TIMEOUT,
    UNCALL,
    RESET,
    CALL,
    TICK,
    TICK_IN,
    DELIVER,
    TIMEOUT,
    LOOP,
    TURN,
    STOP,
    TASK,
    TASK_IN,
    STEP,
    HOLD,
    END,
    PAUSE_TASK,
    RESUME_TASK,
    WHEN_DONE,
    AWAIT,
    JOB,
    ADVANCE,
    DRAIN,
    POST,
    BODY,
    UNITS,
    UNITS_IN,
    STOP_COOPERATOR,
    EXPECT,
    UNMET,
    UNBOUND,
];

/// The forms of all lines, in the order in which the kinds of entries are declared.
pub fn line_forms() -> &'static [LineForm]
    ensures { (entry : Entry) → form_named (form_of entry).word result.now ≡ Some (form_of entry) }
{
    &LINE_FORMS
}
