use dv_journal::error::Fault;
use thiserror::Error;

/// A Deferred is fired already (Twisted: `AlreadyCalledError`).
#[derive(Clone, Copy, Debug, PartialEq, Eq, Error)]
#[error("already called")]
pub struct AlreadyCalled;

/// Why a Deferred isn't fired.
pub type FireFault = Fault<AlreadyCalled>;

/// A Deferred isn't paused.
#[derive(Clone, Copy, Debug, PartialEq, Eq, Error)]
#[error("not paused")]
pub struct NotPaused;

/// Why a Deferred isn't unpaused.
pub type UnpauseFault = Fault<NotPaused>;
