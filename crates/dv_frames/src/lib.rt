//! The frames, and what follows from a firing and from what is raised.
#![tactic(auto)]

pub mod finding;
pub mod following;
pub mod frame;
pub mod frames;
pub mod maybe;
pub mod raising;
pub mod turn;
