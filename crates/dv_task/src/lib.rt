//! What timers, loops and tasks lead to, and delayed calls that are cancelled (Twisted:
//! `twisted.internet.task`).
#![tactic(auto)]

pub mod cooperating;
pub mod looping;
pub mod timing;
