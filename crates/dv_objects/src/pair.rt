ghost use Rattle.std.specs.Prelude.{◌≡◌};
ghost use Rattle.dv_objects.specs.Pair.{pair_of, passes};

use crate::inline_id::Inline;
use dv_clock::call_id::CallId;
use dv_clock::loop_id::LoopId;
use dv_clock::task_id::TaskId;
use dv_journal::deferred_id::DeferredId;
use dv_prims::list_id::ListId;
use dv_prims::lock_id::LockId;
use dv_script::body::Body;
use dv_script::lent::BodyRef;
use dv_store::sides::Sides;
use std::marker::Model;

/// A child of a DeferredList.
#[derive(Clone, Copy, Debug, PartialEq, Eq)]
pub struct Child {
    /// What the list has of its children.
    pub list: ListId,
    /// Its place among them, from 0.
    pub place: u32,
    /// The Deferred of the list.
    pub of: DeferredId,
}

/// What runs on the value of a Deferred.
#[derive(Drop)]
pub enum Side<'s> {
    /// A body of the script, whose input is the value.
    Body(BodyRef<'s>),
    /// This Deferred is fired with the value, and the side returns null (Twisted: what
    /// `Deferred.chainDeferred` adds).
    Fire(DeferredId),
    /// The value is passed on, but TimeoutError in place of a cancellation if this timer has
    /// expired (Twisted: the first of the two that `Deferred.addTimeout` adds).
    Timed(CallId),
    /// The body runs on the value where the time of this timer has come; else the value is passed
    /// on (Twisted: the first of the two, with `onTimeoutCancel`).
    OnTimeout(CallId, BodyRef<'s>),
    /// This timer ends, if it hasn't expired, and the value is passed on (Twisted: the second of
    /// the two).
    EndTimer(CallId),
    /// It reports to a DeferredList as this child (Twisted: what `DeferredList` adds to each
    /// child).
    Report(Child),
    /// What the children of a DeferredList gave is taken out of its result (Twisted: what
    /// `gatherResults` adds).
    Results,
    /// A body is performed with a token of this lock, which is released afterwards (Twisted: what
    /// `DeferredLock.run` and `DeferredSemaphore.run` do once they have a token).
    Hold(LockId, BodyRef<'s>),
    /// A token of this lock is released (Twisted: what `DeferredLock.run` and
    /// `DeferredSemaphore.run` do at last).
    Release(LockId),
    /// The next turn of this loop is scheduled, where it runs; else its Deferred is fired with its
    /// name. The side returns null (Twisted: the callback that `LoopingCall` adds to what a turn
    /// gave).
    NextTurn(LoopId),
    /// This loop runs no more, and its Deferred is fired with the value, a failure; the side
    /// returns null (Twisted: the errback that `LoopingCall` adds).
    EndLoop(LoopId),
    /// This task is paused once less, unless it has ended; the side returns null (Twisted: the
    /// callback that `CooperativeTask` adds to what a step gave).
    ResumeTask(TaskId),
    /// This task ends with the value, a failure, unless it has ended; the side returns null
    /// (Twisted: the errback that `CooperativeTask` adds).
    FailTask(TaskId),
    /// The result that this inline body awaits: the body goes on with it, and a failure is thrown.
    /// The side returns null (Twisted: what `inlineCallbacks` adds to what is awaited).
    Resume(Inline),
}

/// Which pair it is, of those that are added.
#[derive(Drop)]
enum Kind<'s> {
    /// A body, for a plain result.
    Callback(BodyRef<'s>),
    /// A body, for a failure.
    Errback(BodyRef<'s>),
    /// A body for each.
    Both(BodyRef<'s>, BodyRef<'s>),
    Chain(DeferredId),
    Timing(CallId),
    OnTimeout(CallId, BodyRef<'s>),
    Ending(CallId),
    Reporting(Child),
    Results,
    Holding(LockId, BodyRef<'s>),
    Releasing(LockId),
    Turning(LoopId),
    Resuming(TaskId),
    Continuing(Inline),
}

/// A callback and an errback, either of which may be missing (Twisted: `Deferred.addCallbacks`). It
/// says which two these are, in less room than they take. Contracts see it as the two.
#[derive(Drop)]
pub struct Pair<'s> {
    kind: Kind<'s>,
}

impl<'s> Model for Pair<'s> {
    ghost use Rattle.dv_objects.specs.Pair.{Pair as Seen, pair_of};
    ghost use Rattle.dv_script.specs.contracts.action.Action as action_contract;
    ghost use Rattle.dv_script.specs.contracts.body.Body as body_contract;
    ghost use Rattle.dv_script.specs.contracts.body.Statement as statement_contract;
    ghost use Rattle.dv_value.specs.contracts.failure.Failure as failure_contract;
    ghost use Rattle.dv_value.specs.contracts.value.Value as value_contract;
    ghost use Rattle.std.specs.Coded.{codes};

    ghost Value = { Seen };

    ghost coded = { Prim.hlevel (
      codes,
      action_contract.the_row.coded,
      body_contract.the_row.coded,
      statement_contract.the_row.coded,
      failure_contract.the_row.coded,
      value_contract.the_row.coded,
    ) };

    ghost view = { λ p. pair_of p.kind };
}

impl<'s> Pair<'s> {
    ghost use Rattle.dv_objects.specs.Pair.{callback, errback, both, chain, timing, watching};
    ghost use Rattle.dv_objects.specs.Pair.{ending, reporting, results, holding, releasing};
    ghost use Rattle.dv_objects.specs.Pair.{turning, resuming, continuing, side_for};

    /// A callback alone (Twisted: `Deferred.addCallback`).
    pub fn callback(body: &'s Body) -> Pair<'s>
        ensures { result ≡ callback body.now }
    {
        Pair {
            kind: Kind::Callback(BodyRef::new(body)),
        }
    }

    /// An errback alone (Twisted: `Deferred.addErrback`).
    pub fn errback(body: &'s Body) -> Pair<'s>
        ensures { result ≡ errback body.now }
    {
        Pair {
            kind: Kind::Errback(BodyRef::new(body)),
        }
    }

    /// Both (Twisted: `Deferred.addCallbacks`, and with the same body twice `Deferred.addBoth`).
    pub fn both(callback: &'s Body, errback: &'s Body) -> Pair<'s>
        ensures { result ≡ both callback.now errback.now }
    {
        Pair {
            kind: Kind::Both(BodyRef::new(callback), BodyRef::new(errback)),
        }
    }

    /// Both fire another Deferred (Twisted: `Deferred.chainDeferred`).
    pub fn chain(to: DeferredId) -> Pair<'s>
        ensures { result ≡ chain to }
    {
        Pair {
            kind: Kind::Chain(to),
        }
    }

    /// Both turn a cancellation into TimeoutError if a timer has expired (Twisted:
    /// `Deferred.addTimeout`).
    pub fn timing(timer: CallId) -> Pair<'s>
        ensures { result ≡ timing timer }
    {
        Pair {
            kind: Kind::Timing(timer),
        }
    }

    /// The first of the two pairs of a timer: both run the body where its time has come. Without a
    /// body, both turn a cancellation into TimeoutError then (Twisted: `Deferred.addTimeout`, its
    /// `onTimeoutCancel`).
    pub fn watching(timer: CallId, body: &'s Option<Body>) -> Pair<'s>
        ensures { result ≡ watching timer body.now }
    {
        match body {
            None => Pair::timing(timer),
            Some(body) => Pair {
                kind: Kind::OnTimeout(timer, BodyRef::new(body)),
            },
        }
    }

    /// Both end a timer (Twisted: `Deferred.addTimeout`).
    pub fn ending(timer: CallId) -> Pair<'s>
        ensures { result ≡ ending timer }
    {
        Pair {
            kind: Kind::Ending(timer),
        }
    }

    /// Both report to a DeferredList (Twisted: `DeferredList.__init__`).
    pub fn reporting(child: Child) -> Pair<'s>
        ensures { result ≡ reporting child }
    {
        Pair {
            kind: Kind::Reporting(child),
        }
    }

    /// A callback that takes what the children gave out of the result of a DeferredList (Twisted:
    /// `gatherResults`).
    pub fn results() -> Pair<'s>
        ensures { result ≡ results }
    {
        Pair {
            kind: Kind::Results,
        }
    }

    /// A callback that performs a body with a token of a lock (Twisted: `DeferredLock.run`,
    /// `DeferredSemaphore.run`).
    pub fn holding(lock: LockId, body: BodyRef<'s>) -> Pair<'s>
        ensures { result ≡ holding lock body.entry }
    {
        Pair {
            kind: Kind::Holding(lock, body),
        }
    }

    /// Both release a token of a lock (Twisted: `DeferredLock.run`, `DeferredSemaphore.run`).
    pub fn releasing(lock: LockId) -> Pair<'s>
        ensures { result ≡ releasing lock }
    {
        Pair {
            kind: Kind::Releasing(lock),
        }
    }

    /// What follows a turn of a loop (Twisted: `LoopingCall`).
    pub fn turning(looping: LoopId) -> Pair<'s>
        ensures { result ≡ turning looping }
    {
        Pair {
            kind: Kind::Turning(looping),
        }
    }

    /// What follows what a task waits for (Twisted: `CooperativeTask`).
    pub fn resuming(task: TaskId) -> Pair<'s>
        ensures { result ≡ resuming task }
    {
        Pair {
            kind: Kind::Resuming(task),
        }
    }

    /// Both go on with an inline body (Twisted: `inlineCallbacks`).
    pub fn continuing(inline: Inline) -> Pair<'s>
        ensures { result ≡ continuing inline }
    {
        Pair {
            kind: Kind::Continuing(inline),
        }
    }

    /// The side for a value: the errback for a failure, else the callback.
    pub fn into_side(self, failed: bool) -> Option<Side<'s>>
        ensures { result ≡ side_for self.entry failed }
    {
        if failed {
            errback_of(self.kind)
        } else {
            callback_of(self.kind)
        }
    }
}

/// The callback.
fn callback_of<'s>(kind: Kind<'s>) -> Option<Side<'s>>
    ensures { result ≡ (pair_of kind.entry).callback }
{
    match kind {
        Kind::Callback(body) | Kind::Both(body, _) => Some(Side::Body(body)),
        Kind::Errback(_) => None,
        Kind::Chain(to) => Some(Side::Fire(to)),
        Kind::Timing(timer) => Some(Side::Timed(timer)),
        Kind::OnTimeout(timer, body) => Some(Side::OnTimeout(timer, body)),
        Kind::Ending(timer) => Some(Side::EndTimer(timer)),
        Kind::Reporting(child) => Some(Side::Report(child)),
        Kind::Results => Some(Side::Results),
        Kind::Holding(lock, body) => Some(Side::Hold(lock, body)),
        Kind::Releasing(lock) => Some(Side::Release(lock)),
        Kind::Turning(looping) => Some(Side::NextTurn(looping)),
        Kind::Resuming(task) => Some(Side::ResumeTask(task)),
        Kind::Continuing(inline) => Some(Side::Resume(inline)),
    }
}

/// The errback.
fn errback_of<'s>(kind: Kind<'s>) -> Option<Side<'s>>
    ensures { result ≡ (pair_of kind.entry).errback }
{
    match kind {
        Kind::Errback(body) | Kind::Both(_, body) => Some(Side::Body(body)),
        Kind::Callback(_) | Kind::Results | Kind::Holding(..) => None,
        Kind::Chain(to) => Some(Side::Fire(to)),
        Kind::Timing(timer) => Some(Side::Timed(timer)),
        Kind::OnTimeout(timer, body) => Some(Side::OnTimeout(timer, body)),
        Kind::Ending(timer) => Some(Side::EndTimer(timer)),
        Kind::Reporting(child) => Some(Side::Report(child)),
        Kind::Releasing(lock) => Some(Side::Release(lock)),
        Kind::Turning(looping) => Some(Side::EndLoop(looping)),
        Kind::Resuming(task) => Some(Side::FailTask(task)),
        Kind::Continuing(inline) => Some(Side::Resume(inline)),
    }
}

/// Whether a side is missing: the errback for a failure, else the callback.
fn lacks<'s>(kind: &Kind<'s>, failed: bool) -> bool
    ensures { result ≡ passes (pair_of kind.now) failed }
{
    match kind {
        Kind::Callback(_) | Kind::Results | Kind::Holding(..) => failed,
        Kind::Errback(_) => !failed,
        Kind::Both(..)
        | Kind::Chain(_)
        | Kind::Timing(_)
        | Kind::OnTimeout(..)
        | Kind::Ending(_)
        | Kind::Reporting(_)
        | Kind::Releasing(_)
        | Kind::Turning(_)
        | Kind::Resuming(_)
        | Kind::Continuing(_) => false,
    }
}

impl<'s> Sides for Pair<'s> {
    ghost use Rattle.dv_objects.specs.Pair.{passes};

    ghost passes_at = { passes };

    fn passes(&self, failed: bool) -> bool {
        lacks(&self.kind, failed)
    }
}
