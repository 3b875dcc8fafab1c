//! Orders: the batches in which all posts of a script may be taken, how many they are, a visit of
//! each, why other batches are refused, and how batches are read.
#![tactic(auto)]

mod batching;
pub mod checking;
pub mod fault;
pub mod laws;
pub mod number;
pub mod numbering;
mod order;
pub mod ranking;
pub mod reading;
pub mod sampling;
mod sequencing;
pub mod visiting;
