//! What locks, queues and lists lead to: Deferreds that wait for a token, for a value, for their
//! children.
#![tactic(auto)]

mod flags;
pub mod listing;
pub mod locking;
pub mod queueing;
