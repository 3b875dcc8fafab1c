//! The loop that runs a script: each action by its rule, settling, the turn of each frame, what is
//! due, what an event or a post begins with; the meaning of all that, and laws of it.
#![tactic(auto)]

mod acting;
mod beginning;
mod coming_due;
pub mod laws;
mod polling;
pub mod runner;
mod settling;
mod taking;
mod turn_end;
mod turning;
