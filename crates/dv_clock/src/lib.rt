//! Virtual time: delayed calls, the turns of loops, and whose turn it is among tasks.
#![tactic(auto)]

pub mod call;
pub mod call_id;
pub mod clock;
pub mod cooperator_id;
pub mod delay_from;
pub mod due;
pub mod error;
pub mod interval;
pub mod laws;
pub mod limits;
pub mod loop_id;
pub mod looping_call;
pub mod place;
pub mod task_id;
pub mod turns;
