use crate::boxed_deque::BoxedDeque;
use dv_journal::deferred_id::DeferredId;
use dv_value::text::Text;
use dv_value::value::Value;

/// What a Deferred uses up, one after the other (Twisted: the entries of `Deferred.callbacks`).
#[derive(Drop)]
pub enum Item<P> {
    /// A pair of a callback and an errback.
    Pair(P),
    /// The value is handed over to this Deferred, which waits for it.
    HandOver(DeferredId),
}

/// What is kept of one Deferred. What is small comes last, since fields lie in this order.
#[derive(Drop)]
pub struct Record<P, K> {
    /// The name that it was made with, where it has one.
    pub name: Option<Text>,
    /// The current value (Twisted: `Deferred.result`). It is `Null` until the Deferred is fired,
    /// and while a side runs it is still what that side was given, or `Null` where another Deferred
    /// took that.
    pub value: Value,
    /// What isn't used yet, in the order in which it was added (Twisted: `Deferred.callbacks`).
    pub items: BoxedDeque<Item<P>>,
    /// What runs where it is cancelled while it is unfired (Twisted: `Deferred._canceller`).
    pub canceller: Option<K>,
    /// How often it was paused and not unpaused since (Twisted: `Deferred.paused`).
    pub pauses: u32,
    /// The Deferred that a side of it gave, and whose value it gets (Twisted:
    /// `Deferred._chainedTo`).
    pub waits_for: Option<DeferredId>,
    /// Whether it has been fired (Twisted: `Deferred.called`).
    pub fired: bool,
    /// Whether a side of it runs (Twisted: `Deferred._runningCallbacks`).
    pub running: bool,
    /// Whether its next firing after the first is swallowed instead of refused (Twisted:
    /// `Deferred._suppressAlreadyCalled`).
    pub swallows: bool,
}
