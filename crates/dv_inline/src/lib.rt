//! Inline bodies: what they result in by the answers that they get, and bodies that are polled by
//! hand.
#![tactic(auto)]

pub mod body;
pub mod laws;
pub mod open;
pub mod opens;
pub mod parked;
pub mod poller;
pub mod request;
mod walk;
