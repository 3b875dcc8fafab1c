//! Posts of callers: their threads, the rings between these and the inbox, and the batches in which
//! posts are performed.
#![tactic(auto)]

pub mod batches;
pub mod callers;
pub mod inbox;
pub mod posted;
pub mod poster;
mod receiver;
pub mod taken;
