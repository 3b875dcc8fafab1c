use dv_journal::error::Fault;
use thiserror::Error;

/// Why a call can't be cancelled: it waits no longer.
#[derive(Clone, Copy, Debug, PartialEq, Eq, Error)]
pub enum Over {
    /// It was called (Twisted: `AlreadyCalled`).
    #[error("already called")]
    Called,
    /// It was cancelled or dropped (Twisted: `AlreadyCancelled`).
    #[error("already cancelled")]
    Cancelled,
}

/// Why a call isn't cancelled.
pub type CancelFault = Fault<Over>;
