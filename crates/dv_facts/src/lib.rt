//! What the entries of a journal log, where each lies, and what is left at the end of a run, as
//! JSON.
#![tactic(auto)]

pub mod entries;
pub mod facts;
pub mod leaving;
pub mod members;
pub mod names;
mod places;
pub mod values;
