use dv_clock::cooperator_id::CooperatorId;
use dv_clock::loop_id::LoopId;
use dv_clock::task_id::TaskId;
use dv_inline::body::InlineBody;
use dv_journal::deferred_id::DeferredId;
use dv_objects::inline_id::Inline;
use dv_objects::input::Input;
use dv_objects::pair::Pair;
use dv_objects::performed::Performed;
use dv_prims::lock_id::LockId;
use dv_script::lent::{Actions, EndRef, TextRef};

/// What is left of a body that is performed.
#[derive(Drop)]
pub struct Rest<'s> {
    /// What `@` stands for in it.
    pub itself: Option<DeferredId>,
    pub actions: Actions<'s>,
    pub end: EndRef<'s>,
    pub input: Input,
}

/// What the Deferred is for that is made of what a body gave.
#[derive(Drop)]
pub enum Purpose<'s> {
    /// It gets this name (`maybe`).
    Named(TextRef<'s>),
    /// The body has a token of this lock, which is released once the Deferred is fired (`runWith`).
    Holding(LockId),
    /// The body is a turn of this loop, which goes on or ends once the Deferred is fired (`loop`).
    Turning(LoopId),
}

/// How far an inline body is.
#[derive(Drop)]
pub enum Inlining<'s> {
    /// It goes on up to its next request, or is over.
    Goes(Inline, InlineBody<'s>),
    /// The action that it requested has been performed, and its result is the answer.
    Acted(Inline, InlineBody<'s>),
    /// The pair by which it awaits this Deferred has been added, and the Deferred settled. If its
    /// result arrived meanwhile, the body goes on; else it is parked.
    Awaited(Inline, DeferredId, InlineBody<'s>),
}

/// What is still to be done, in the world that it then finds. It gets the result of what was above
/// it.
#[derive(Drop)]
pub enum Frame<'s> {
    /// The Deferred is settled.
    Settle(DeferredId),
    /// The result of a side of the Deferred is put in place, and the Deferred is settled.
    Place(DeferredId),
    /// A body goes on, unless its last action raised.
    Rest(Rest<'s>),
    /// A canceller of the Deferred has ended. Unless it failed, the Deferred is fired where it
    /// still may be.
    Canceller(DeferredId),
    /// A body has ended, and what it gave becomes a Deferred for this.
    Maybe(Purpose<'s>),
    /// A pair is added to the Deferred, which is settled.
    Add(DeferredId, Pair<'s>),
    /// The Deferred is cancelled.
    Cancel(DeferredId),
    /// This is returned, unless what was done before raised.
    Give(Performed<'s>),
    /// The Deferred is fired with the result of the task.
    Notify(DeferredId, TaskId),
    /// A body of the task has ended, unless the task has ended meanwhile.
    Stepped(TaskId),
    /// The task ends with SchedulerStopped, unless it is paused or has ended.
    Halt(TaskId),
    /// A tick of the Cooperator goes on, in which so many steps are left.
    Tick(CooperatorId, u32),
    /// A failure that reaches it is logged as `unhandled`, and goes no further.
    Tell,
    /// What is due by now is run, one after the other.
    Due,
    /// An inline body goes on.
    Inline(Inlining<'s>),
}
