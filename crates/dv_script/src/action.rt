use crate::body::{Body, Statement};
use crate::work::Work;
use dv_value::boxed::Boxed;
use dv_value::class_id::ClassId;
use dv_value::items::Items;
use dv_value::text::Text;
use dv_value::value::Value;

/// How a DeferredList is fired, and what its children's failures become.
#[derive(Clone, Copy, Debug, Drop)]
pub enum ListFlag {
    /// It is fired by the first child that succeeds (Twisted: `fireOnOneCallback`).
    FireOnOneCallback,
    /// It is fired by the first child that fails (Twisted: `fireOnOneErrback`).
    FireOnOneErrback,
    /// A child that failed goes on with null (Twisted: `consumeErrors`).
    ConsumeErrors,
}

/// What the failures of the children of a `gatherResults` become.
#[derive(Clone, Copy, Debug, Drop)]
pub enum GatherFlag {
    /// A child that failed goes on with null (Twisted: `consumeErrors`).
    ConsumeErrors,
}

/// What a script does. The names that it makes come first, then those that it looks up.
///
/// Where a body lies on the heap, the action would take much more room than the others with it.
#[cycle(script)]
#[derive(Drop)]
pub enum Action {
    /// Makes the Deferred, with a canceller where there is one (Twisted: `Deferred(canceller)`).
    Deferred(Text, Option<Body>),
    /// Fires it with the value (Twisted: `Deferred.callback`).
    Callback(Text, Value),
    /// Fires it with a failure of this class and message (Twisted: `Deferred.errback`).
    Errback(Text, ClassId, Text),
    /// Adds a pair with a callback alone (Twisted: `Deferred.addCallback`).
    AddCallback(Text, Body),
    /// Adds a pair with an errback alone (Twisted: `Deferred.addErrback`).
    AddErrback(Text, Body),
    /// Adds a pair of which both are this body (Twisted: `Deferred.addBoth`).
    AddBoth(Text, Body),
    /// Adds a pair of a callback and an errback (Twisted: `Deferred.addCallbacks`).
    AddCallbacks(Text, Boxed<Body>, Boxed<Body>),
    /// Adds a pair to the first that fires the second (Twisted: `Deferred.chainDeferred`).
    Chain(Text, Text),
    /// Pauses it once more (Twisted: `Deferred.pause`).
    Pause(Text),
    /// Pauses it once less (Twisted: `Deferred.unpause`).
    Unpause(Text),
    /// Cancels it (Twisted: `Deferred.cancel`).
    Cancel(Text),
    /// Cancels it after so many ticks of the clock, at most 10^12, unless it has a result by then.
    /// The body runs on the result if the time has come (Twisted: `Deferred.addTimeout`, its
    /// `onTimeoutCancel`).
    AddTimeout(Text, u64, Option<Body>),
    /// Writes the text to the journal.
    Note(Text),
    /// Makes a DeferredList of the children (Twisted: `DeferredList`).
    List(Text, Items<Text>, Items<ListFlag>),
    /// Makes the Deferred of the children's results (Twisted: `gatherResults`).
    Gather(Text, Items<Text>, Items<GatherFlag>),
    /// Makes a Deferred of what the body returns (Twisted: `maybeDeferred`).
    Maybe(Text, Body),
    /// Makes a lock (Twisted: `DeferredLock`).
    Lock(Text),
    /// Makes a semaphore of this many tokens, from 1 to 65,536 (Twisted: `DeferredSemaphore`).
    Semaphore(Text, u32),
    /// Makes the Deferred that is fired when a token of the lock or semaphore is granted (Twisted:
    /// `acquire`).
    Acquire(Text, Text),
    /// Releases a token of the lock or semaphore (Twisted: `release`).
    Release(Text),
    /// Makes the Deferred of what the body returns while it has a token of the lock or semaphore
    /// (Twisted: `run`).
    RunWith(Text, Text, Boxed<Body>),
    /// Makes a queue with this size and backlog, each no bound or from 0 to 65,536 (Twisted:
    /// `DeferredQueue`).
    Queue(Text, Option<u32>, Option<u32>),
    /// Puts the value into the queue (Twisted: `DeferredQueue.put`).
    Put(Text, Value),
    /// Makes the Deferred that is fired with a value of the queue, which is named second (Twisted:
    /// `DeferredQueue.get`).
    Get(Text, Text),
    /// Performs the body after so many ticks of the clock, at most 10^12 (Twisted: `callLater`).
    Later(Text, u64, Body),
    /// Cancels the delayed call (Twisted: `DelayedCall.cancel`).
    CancelCall(Text),
    /// Has the delayed call run so many ticks from now, at most 10^12 (Twisted:
    /// `DelayedCall.reset`).
    ResetCall(Text, u64),
    /// Delays the delayed call by so many ticks more, at most 10^12 (Twisted: `DelayedCall.delay`).
    DelayCall(Text, u64),
    /// Makes a loop and, named second, its Deferred; it performs a body each so many ticks, from 1
    /// to 10^12, and at once where that is asked for (Twisted: `LoopingCall.start`). Its first turn
    /// performs the body, those after it perform the bodies of the list in order, and the turns
    /// after these its last body.
    Loop(Text, Text, u64, bool, Boxed<Body>, Items<Body>),
    /// Stops the loop (Twisted: `LoopingCall.stop`).
    StopLoop(Text),
    /// Sets the most steps that each tick has from the next one on, from 1 to 1,000 (Twisted:
    /// `Cooperator`, its `terminationPredicateFactory`).
    Units(u32),
    /// Makes a task of the bodies (Twisted: `cooperate`).
    Cooperate(Text, Items<Body>),
    /// Makes a task of the bodies in the Cooperator that is named second (Twisted:
    /// `Cooperator.cooperate`).
    CooperateIn(Text, Text, Items<Body>),
    /// As `Units`, of the Cooperator of this name.
    UnitsIn(Text, u32),
    /// Stops the Cooperator of this name (Twisted: `Cooperator.stop`).
    StopCooperator(Text),
    /// Makes the Deferred that is fired when the task, named second, ends (Twisted:
    /// `CooperativeTask.whenDone`).
    WhenDone(Text, Text),
    /// Pauses the task once more (Twisted: `CooperativeTask.pause`).
    PauseTask(Text),
    /// Stops the task (Twisted: `CooperativeTask.stop`).
    StopTask(Text),
    /// Pauses the task once less (Twisted: `CooperativeTask.resume`).
    ResumeTask(Text),
    /// Makes the Deferred of an inline body, and starts the body (Twisted: `inlineCallbacks`).
    Inline(Text, Items<Statement>),
    /// Makes the Deferred of a work that a thread does, which is fired after so many ticks, at most
    /// 10^12 (Twisted: `deferToThread`).
    Thread(Text, u64, Work),
    /// As `Thread`, by a worker of the pool that is named second (Twisted: `deferToThreadPool`).
    ThreadIn(Text, Text, u64, Work),
}
