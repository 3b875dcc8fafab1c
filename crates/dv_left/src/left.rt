use dv_journal::deferred_id::DeferredId;
use dv_value::deque::Deque;
use dv_value::items::Items;
use dv_value::text::Text;
use dv_value::value::Value;

/// At what a Deferred hangs. Locks, queues, loops, tasks and jobs have their numbers, in order of
/// making from 0.
#[derive(Clone, Copy, Debug, PartialEq, Eq)]
pub enum Hang {
    /// It waits for the value of this one, which a side of it gave.
    Waits(DeferredId),
    /// It is a list, and this one is a child of it that hasn't fired, at this place.
    Child(DeferredId, u32),
    /// A pair of this one fires it (Twisted: `Deferred.chainDeferred`).
    Chain(DeferredId),
    /// It is of an inline body, which awaits this one.
    Await(DeferredId),
    /// It waits for a token of this lock or semaphore.
    Lock(usize),
    /// It waits for a value of this queue.
    Queue(usize),
    /// It is to be fired with the result of this job.
    Job(u32),
    /// It is cancelled at this time, in ticks (Twisted: `Deferred.addTimeout`).
    Timeout(u64),
    /// It is fired when this loop ends.
    Loop(usize),
    /// It is fired when this task ends.
    Task(usize),
}

/// Whether a Deferred at the end is fired, and whether it waits.
#[derive(Clone, Copy, Debug, PartialEq, Eq)]
pub enum Stage {
    Unfired,
    Waiting,
    Fired,
}

/// A Deferred that is left.
#[derive(Drop)]
pub struct LeftDeferred {
    pub id: DeferredId,
    pub stage: Stage,
    /// How often it was paused and not unpaused since.
    pub pauses: u32,
    /// Whether a side of it still runs, since the run stopped.
    pub running: bool,
    /// At what it hangs; nothing where only an action of the script would fire it.
    pub hangs: Items<Hang>,
}

/// A loop that goes on.
#[derive(Drop)]
pub struct LeftLoop {
    /// How many loops were made before it.
    pub number: usize,
    /// The Deferred that is fired when it ends.
    pub of: DeferredId,
    /// When its next turn is due, where one is scheduled.
    pub due: Option<u64>,
    /// The Deferreds that its turn waits for.
    pub waits_for: Items<DeferredId>,
}

/// A task that hasn't ended.
#[derive(Drop)]
pub struct LeftTask {
    /// How many tasks were made before it.
    pub number: usize,
    pub pauses: u64,
    /// How many of its bodies are left.
    pub bodies: usize,
    /// The Deferreds that hold it.
    pub waits_for: Items<DeferredId>,
}

/// A lock or a semaphore of which tokens are given.
#[derive(Drop)]
pub struct LeftTokens {
    /// How many locks and semaphores were made before it.
    pub number: usize,
    pub given: u32,
    pub tokens: u32,
    /// The Deferreds that wait for one, from the one that has waited longest.
    pub waiting: Items<DeferredId>,
}

/// What is left of one object at the end of a run. Times are in ticks.
#[derive(Drop)]
pub enum Left {
    /// A Deferred that is unfired, waits, is paused, or a side of which still runs.
    Deferred(LeftDeferred),
    /// A Deferred whose outcome is a failure.
    Failure(DeferredId),
    /// The delayed call of this number, and when it is due.
    Call(u32, u64),
    /// A tick of the Cooperator, and when it is due.
    Tick(u64),
    /// A tick of the Cooperator of this name, and when it is due.
    TickIn(Text, u64),
    /// The result of this job for this Deferred, and when it is due.
    Delivery(u32, DeferredId, u64),
    /// The end of the time of this Deferred, and when it is due.
    Timeout(DeferredId, u64),
    /// A loop that goes on.
    Loop(LeftLoop),
    /// A task that hasn't ended.
    Task(LeftTask),
    /// A lock of which tokens are given.
    Tokens(LeftTokens),
    /// The queue of this number, and the Deferreds that wait for a value of it, from the one that
    /// has waited longest.
    Getters(usize, Items<DeferredId>),
    /// The queue of this number, and the values of it that nobody got, from the one that was put
    /// first.
    Values(usize, Deque<Value>),
    /// The place in the journal of a failure that was logged as unhandled.
    Unhandled(usize),
}
