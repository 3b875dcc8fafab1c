//! Laws of whole runs: what the journal of a run logs.
#![tactic(auto)]

pub mod laws;
