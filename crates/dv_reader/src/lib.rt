//! How scripts are read: which bytes say which script, and why others are refused.
#![tactic(auto)]

pub mod error;
pub mod laws;
pub mod limits;
mod passes;
pub mod read_script;
