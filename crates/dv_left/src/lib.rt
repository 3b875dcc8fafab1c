//! What is left at the end of a run: what waits and what it depends on, tokens that are held, and
//! failures that nothing trapped.
#![tactic(auto)]

mod end;
pub mod left;
mod linking;
pub mod lists;
mod telling;

pub use end::{Remains, remains_of};
