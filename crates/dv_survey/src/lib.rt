//! Gathers what became of each Deferred in the runs of a script, in memory that grows with the
//! different outcomes and not with the runs.
#![tactic(auto)]

pub mod format;
pub mod laws;
pub mod lines;
pub mod outcomes;
pub mod survey;
pub mod tallies;
pub mod text;
pub mod texts;
