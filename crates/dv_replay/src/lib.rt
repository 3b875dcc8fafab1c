//! Runs a script in batches that are given, in place of those in which its callers' threads happen
//! to post.
#![tactic(auto)]

pub mod error;
pub mod exit;
pub mod laws;
pub mod performing;
pub mod running;
pub mod surveying;
pub mod taking;
