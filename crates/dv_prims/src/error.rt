use dv_journal::error::Fault;
use thiserror::Error;

/// No token is held.
#[derive(Clone, Copy, Debug, PartialEq, Eq, Error)]
#[error("not held")]
pub struct NotHeld;

/// Why a token isn't released.
pub type ReleaseFault = Fault<NotHeld>;

/// As many values are stored as may be (Twisted: `QueueOverflow`).
#[derive(Clone, Copy, Debug, PartialEq, Eq, Error)]
#[error("queue overflow")]
pub struct Overflow;

/// Why a value isn't put into a queue.
pub type PutFault = Fault<Overflow>;
