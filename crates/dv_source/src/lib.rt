//! Sources of bytes, and reading one up to a bound.
#![tactic(auto)]

pub mod io_source;
pub mod memory_source;
pub mod source;
