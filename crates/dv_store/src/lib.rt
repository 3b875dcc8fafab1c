//! The records of Deferreds, and the steps that use up their pairs.
#![tactic(auto)]

pub mod boxed_deque;
pub mod error;
pub mod laws;
pub mod outcome;
pub mod record;
pub mod sides;
pub mod store;
mod telling;
