use crate::due::Due;

/// What became of a call.
#[derive(Drop)]
pub enum CallState {
    /// It waits for its time.
    Waiting(Due),
    /// It was due, and ran (Twisted: `called`).
    Called,
    /// It was cancelled before that (Twisted: `cancelled`).
    Cancelled,
    /// It was dropped before that, which isn't logged.
    Dropped,
}

/// A call that was scheduled.
#[derive(Drop)]
pub struct Call {
    /// The time that it is due at, in ticks.
    pub due: u64,
    /// Whether it still waits.
    pub state: CallState,
}
