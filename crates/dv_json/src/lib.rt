//! A run as JSON, for tools: each entry with its place, each Deferred at the end, and what is left.
#![tactic(auto)]

mod driving;
mod marked;
mod outcomes;
mod printing;
mod replaying;
mod running;

pub use replaying::replay;
pub use running::{exit_of, run};
