//! Jobs, what answers them, and a source that does them on the thread that submits them.
#![tactic(auto)]

pub mod answer;
pub mod error;
pub mod gate;
pub mod job;
pub mod one_thread;
pub mod ran;
pub mod source;
