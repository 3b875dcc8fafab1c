use dv_clock::call_id::CallId;
use dv_clock::interval::Interval;
use dv_journal::deferred_id::DeferredId;
use dv_script::lent::{BodiesRef, BodyRef, TextRef};

/// A loop, which performs a body each turn (Twisted: `LoopingCall`).
#[derive(Drop)]
pub struct LoopingCall<'s> {
    /// Its name at its making.
    pub name: TextRef<'s>,
    /// The Deferred that is fired when it ends (Twisted: what `LoopingCall.start` answers).
    pub of: DeferredId,
    /// When it was started, in ticks.
    pub start: u64,
    pub interval: Interval,
    /// Whether it was neither stopped nor has failed (Twisted: `LoopingCall.running`).
    pub running: bool,
    /// Its turn that was scheduled last, which need not wait any more.
    pub turn: Option<CallId>,
    /// The body that its next turn performs.
    pub body: BodyRef<'s>,
    /// Those of the turns after that, one each: where none is left, the body stays.
    pub bodies: BodiesRef<'s>,
}
